//! How loads in levels rise over a range of places.
ghost use Rattle.std.specs.Prelude.{◌≡◌, ℕ, ◌+◌, ◌/◌, ◌<◌, ◌≤◌, ◌^◌, length, slice_index};
ghost use Rattle.load_tree.specs.Levels.{EndsRise, IsLevels, IsRaised, load_at};

use crate::levels::{Level, WIDTH, add_each, most_of_group, most_of_other};

/// The lowest and the highest place of a range, by how much the values there rise, and by how much those between.
#[derive(Clone, Copy, Debug, PartialEq, Eq)]
pub(crate) struct Rise {
    pub(crate) low: usize,
    pub(crate) low_by: u64,
    pub(crate) high: usize,
    pub(crate) high_by: u64,
    pub(crate) between: u64,
}

// Raises the values in the groups of the two places.
fn raise_ends(values: &mut [u64], start: usize, rise: Rise)
    requires order { rise.low ≤ rise.high }
    requires within { start + rise.high < length values.old }
    requires low_room { slice_index values.old (start + rise.low) + rise.low_by < 2 ^ 64 }
    requires high_room { rise.low < rise.high → slice_index values.old (start + rise.high) + rise.high_by < 2 ^ 64 }
    requires room { (t : ℕ) → rise.low < t → t < rise.high →
        slice_index values.old (start + t) + rise.between < 2 ^ 64 }
    ensures { EndsRise start values.old values.new rise.low rise.low_by rise.high rise.high_by rise.between }
{
    values[start + rise.low] += rise.low_by;
    if rise.low < rise.high {
        let left_end = (rise.low / WIDTH * WIDTH + WIDTH).min(rise.high);
        let right_start = (rise.high / WIDTH * WIDTH).max(left_end);
        add_each(values, start + rise.low + 1, start + left_end, rise.between);
        add_each(values, start + right_start, start + rise.high, rise.between);
        values[start + rise.high] += rise.high_by;
    }
}

/// Raises the loads of a level over a range of places. Takes time in the number of levels; it ends at a group
/// whose greatest value stays.
pub(crate) fn raise(values: &mut [u64], level: Level, rise: Rise)
    requires levels { IsLevels level.height level.start level.count values.old }
    requires order { rise.low ≤ rise.high }
    requires within { rise.high < level.count }
    requires small { (t : ℕ) → t < level.count →
        load_at level.height level.start level.count values.old t < 2 ^ 64 }
    requires low_room { load_at level.height level.start level.count values.old rise.low + rise.low_by < 2 ^ 64 }
    requires high_room { rise.low < rise.high →
        load_at level.height level.start level.count values.old rise.high + rise.high_by < 2 ^ 64 }
    requires room { (t : ℕ) → rise.low < t → t < rise.high →
        load_at level.height level.start level.count values.old t + rise.between < 2 ^ 64 }
    ensures { IsRaised level.height level.start level.count values.old values.new
        rise.low rise.low_by rise.high rise.high_by rise.between }
{
    if level.height == 0 {
        raise_ends(values, level.start, rise);
        return;
    }
    let left = rise.low / WIDTH;
    let right = rise.high / WIDTH;
    let left_before = most_of_group(values, level, left);
    let right_before = most_of_other(values, level, left, left_before, right);
    raise_ends(values, level.start, rise);
    let left_after = most_of_group(values, level, left);
    let low_by = left_after - left_before;
    let high_by = most_of_other(values, level, left, left_after, right) - right_before;
    if left < right || low_by > 0 {
        let above = Rise {
            low: left,
            low_by,
            high: right,
            high_by,
            between: rise.between,
        };
        raise(values, level.next(), above);
    }
}
