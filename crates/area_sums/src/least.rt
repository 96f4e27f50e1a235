//! The least bound over the edges of groups.
ghost use Rattle.std.specs.Prelude.{◌≡◌, ◌+◌, ◌-◌, ◌*◌, ◌<◌, ◌≤◌, ◌^◌, ◌⊎◌, length, sum_by};
ghost use Rattle.area_sums.specs.Bounds.{IsNoWorse};
ghost use Rattle.area_sums.specs.Groups.{AreCheap, IsLeastOf, area_classes, bound_over};
ghost use Rattle.area_sums.specs.Short.{short_at};

use crate::bound::EdgeBound;
use crate::group::Group;
use crate::short::short_at;

// What all groups gain.
fn total_gain(groups: &[Group]) -> u128
    requires { sum_by (λ g. g.gain) groups.now < 2 ^ 128 }
    ensures { result ≡ sum_by (λ g. g.gain) groups.now }
{
    groups.iter().map(|group| group.gain).sum()
}

// The lesser of a bound and that of the edge at a class, if the edge is above 1.
fn lesser_at(least: EdgeBound, area: u128, below: Group, class: u32) -> EdgeBound
    requires class { class ≤ area_classes }
    requires edge { 0 < least.edge }
    requires cheap { below.area ≤ short_at class * below.gain }
    requires room { area + short_at class * below.gain < 2 ^ 128 }
    ensures edge { 0 < result.edge }
    ensures same { class ≤ 1 → result ≡ least }
    ensures either { 1 < class → (result ≡ least) ⊎ (result ≡ bound_over area below class) }
    ensures no_worse { IsNoWorse result least }
    ensures no_worse_than_edge { 1 < class → IsNoWorse result (bound_over area below class) }
{
    if class <= 1 {
        return least;
    }
    let edge = short_at(class);
    least.lesser(EdgeBound {
        upper: area + edge * below.gain - below.area,
        edge,
    })
}

/// The least bound over no price and the edges that are tried. It goes over the classes once.
pub(crate) fn least_bound(groups: &[Group], area: u128) -> EdgeBound
    requires classes { length groups.now ≤ area_classes }
    requires cheap { AreCheap groups.now }
    requires room { area + short_at (length groups.now) * sum_by (λ g. g.gain) groups.now < 2 ^ 128 }
    ensures edge { 0 < result.edge }
    ensures least { IsLeastOf area groups.now (length groups.now) result }
{
    let mut least = EdgeBound {
        upper: total_gain(groups),
        edge: 1,
    };
    let mut below = Group::EMPTY;
    for (class, group) in groups.iter().enumerate() {
        if group.gain > 0 {
            least = lesser_at(least, area, below, class as u32);
            below = below.plus(*group);
            least = lesser_at(least, area, below, class as u32 + 1);
        }
    }
    least
}
