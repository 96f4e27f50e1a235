//! The least bounds at all capacities, in one pass over the places.
ghost use Rattle.std.specs.Prelude.{◌≡◌, ℕ, ◌+◌, ◌*◌, ◌<◌, ◌≤◌, ◌^◌, length, replicate, IfOk};
ghost use Rattle.area_sums.specs.Groups.{AreCapacities, area_classes, both, group_at, no_group};
ghost use Rattle.area_sums.specs.PageLayout.{page_size};
ghost use Rattle.area_sums.specs.Pages.{group_in};
ghost use Rattle.area_sums.specs.Places.{AreLeastBefore, AreOfSpans, HasMoreInRow, HasRoomFor, HasRoomInRow};

use crate::bound::EdgeBound;
use crate::group::Group;
use crate::least::least_bound;
use crate::pages::{PAGE, Pages};
use bound_base::NoMemory;
use std::alloc::Global;

// Adds the groups of a row of classes at a place to those of the classes.
fn add_row(groups: &mut [Group], pages: &Pages, place: usize, row: usize)
    requires place { place < pages.now.places }
    requires row { row < pages.now.rows }
    requires few { length groups.old ≤ area_classes }
    requires classes { length groups.old ≡ pages.now.rows * page_size }
    requires room { HasRoomInRow (group_in pages.now place) row groups.old }
    ensures { HasMoreInRow (group_in pages.now place) row groups.old groups.new }
{
    for class in row * PAGE..row * PAGE + PAGE {
        groups[class] = groups[class].plus(pages.group(place, class as u32));
    }
}

// Adds the groups of a place to those of their classes.
fn add_place(groups: &mut [Group], pages: &Pages, place: usize)
    requires place { place < pages.now.places }
    requires few { length groups.old ≤ area_classes }
    requires classes { length groups.old ≡ pages.now.rows * page_size }
    requires room { HasRoomFor (group_in pages.now place) groups.old }
    ensures { (class : ℕ) → class < length groups.old
        → group_at groups.new class ≡ both (group_at groups.old class) (group_in pages.now place class) }
{
    for row in 0..pages.rows() {
        if pages.has_page(place, row) {
            add_row(groups, pages, place, row);
        }
    }
}

// The least bound at each of the capacities, where no class has a group at first.
fn bounds_over(
    alloc: Global,
    capacities: &[u64],
    pages: &Pages,
    groups: &mut [Group],
    steps: u32,
) -> Result<Vec<EdgeBound>, NoMemory>
    requires capacities { AreCapacities capacities.now }
    requires places { pages.now.places ≡ length capacities.now }
    requires classes { length groups.old ≡ pages.now.rows * page_size }
    requires spans { AreOfSpans capacities.now (length groups.old) (group_in pages.now) }
    requires none { groups.old ≡ replicate (length groups.old) no_group }
    ensures { IfOk result (λ bounds. AreLeastBefore (length capacities.now) steps capacities.now (group_in pages.now) bounds.items) }
{
    let mut bounds = Vec::with_capacity(alloc, capacities.len())?;
    for (place, capacity) in capacities.iter().enumerate() {
        add_place(groups, pages, place);
        bounds.push(least_bound(groups, u128::from(*capacity) * u128::from(steps)))?;
    }
    Ok(bounds)
}

/// The least bound at each of the capacities.
pub(crate) fn least_bounds(
    alloc: Global,
    capacities: &[u64],
    pages: &Pages,
    steps: u32,
) -> Result<Vec<EdgeBound>, NoMemory>
    requires capacities { AreCapacities capacities.now }
    requires places { pages.now.places ≡ length capacities.now }
    requires spans { AreOfSpans capacities.now (pages.now.rows * page_size) (group_in pages.now) }
    ensures { IfOk result (λ bounds. AreLeastBefore (length capacities.now) steps capacities.now (group_in pages.now) bounds.items) }
{
    let mut groups = vec![in alloc; Group::EMPTY; pages.classes()]?;
    bounds_over(alloc, capacities, pages, &mut groups, steps)
}
