//! The sums of the numbers at places: of those before one, and the longest prefix within a limit.
ghost use Rattle.std.specs.Prelude.{◌≡◌, ◌<◌, ◌≤◌, ◌+◌, ◌-◌, length, slice_index, sum, take};

use crate::places::PlaceTree;
use sum_tree::sum_between;

/// So many places from the first on, and the sum of their numbers.
#[derive(Clone, Copy, Debug)]
pub(crate) struct Prefix {
    pub(crate) places: u32,
    pub(crate) sum: u128,
}

impl PlaceTree<u128> {
    /// The longest prefix whose numbers sum to at most the limit. It takes time in the logarithm of the number of
    /// places.
    pub(crate) fn within(&self, limit: u128) -> Prefix
        ensures places { result.places ≤ length self.now }
        ensures sum { result.sum ≡ sum (take result.places self.now) }
        ensures fits { result.sum ≤ limit }
        ensures longest { result.places < length self.now → limit < result.sum + slice_index self.now result.places }
    {
        if self.sums[1] <= limit {
            return Prefix {
                places: self.places,
                sum: self.sums[1],
            };
        }
        let leaves = self.leaves as usize;
        let mut start = 1;
        let mut node = 1;
        let mut sum = 0;
        'down: while start < leaves {
            start *= 2;
            node *= 2;
            let left = sum + self.sums[node];
            if left <= limit {
                sum = left;
                node += 1;
            }
        }
        Prefix {
            places: (node - leaves) as u32,
            sum,
        }
    }

    /// The longest prefix whose numbers sum to less than the limit, and no place if that is 0.
    pub(crate) fn below(&self, limit: u128) -> Prefix
        ensures places { result.places ≤ length self.now }
        ensures sum { result.sum ≡ sum (take result.places self.now) }
        ensures fits { result.sum ≤ limit - 1 }
    {
        match limit.checked_sub(1) {
            None => Prefix { places: 0, sum: 0 },
            Some(most) => self.within(most),
        }
    }

    /// The numbers before a place, summed. It takes time in the logarithm of the number of places.
    pub(crate) fn before(&self, place: u32) -> u128
        requires { place ≤ length self.now }
        ensures { result ≡ sum (take place self.now) }
    {
        sum_between(&self.sums, self.leaves as usize, 0, place as usize)
    }
}
