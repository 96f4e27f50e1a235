//! A tree of sums: node 1 is the root, and the children of node i are the nodes 2i and 2i + 1.
//!
//! Over n places the nodes from n on are the leaves, in order of the places.
ghost use Rattle.std.specs.Prelude.{◌≡◌, ◌<◌, ◌≤◌, ◌+◌, ◌-◌, drop, map, slice_set};
ghost use Rattle.sum_tree.specs.Sums.{IsTree, sum_from};

use crate::number::SumNumber;

/// Sets the leaf of a place, and the sums above it.
pub fn set_leaf<N: SumNumber>(sums: &mut [N], places: usize, place: usize, leaf: N)
    requires tree { IsTree N.greatest places (map N.value sums.old) }
    requires within { place < places }
    requires small { N.value leaf ≤ N.greatest }
    ensures tree { IsTree N.greatest places (map N.value sums.new) }
    ensures leaves { drop places sums.new ≡ slice_set (drop places sums.old) place leaf }
{
    let mut node = places + place;
    sums[node] = leaf;
    'up: while node > 1 {
        node /= 2;
        sums[node] = sums[2 * node].plus(sums[2 * node + 1]);
    }
}

/// The sum of the leaves of the places from `from` to the one before `to`.
pub fn sum_between<N: SumNumber>(sums: &[N], places: usize, from: usize, to: usize) -> N
    requires tree { IsTree N.greatest places (map N.value sums.now) }
    requires order { from ≤ to }
    requires within { to ≤ places }
    ensures { N.value result ≡ sum_from (map N.value sums.now) (places + from) (to - from) }
{
    let mut low = places + from;
    let mut high = places + to;
    let mut sum = N::zero();
    'up: while low < high {
        if low % 2 == 1 {
            sum = sum.plus(sums[low]);
            low += 1;
        }
        if high % 2 == 1 {
            high -= 1;
            sum = sum.plus(sums[high]);
        }
        low /= 2;
        high /= 2;
    }
    sum
}
