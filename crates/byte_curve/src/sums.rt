//! A number of bytes at each place, set one by one and summed over ranges.
ghost use Rattle.std.specs.Prelude.{◌≡◌, ◌<◌, ◌≤◌, ◌*◌, ◌^◌, length, replicate, slice_range, slice_set, sum, IfOk};

use bound_base::NoMemory;
use std::alloc::Global;
use std::marker::Model;
use sum_tree::{set_leaf, sum_between};

/// How many bytes stand at each place, at most 2^48. Places count from 0. It takes 32 bytes for each place.
#[derive(Debug, Drop)]
pub struct ByteSums {
    places: u32,
    sums: Vec<u128>,
}

impl Model for ByteSums {
    ghost use Rattle.std.specs.Prelude.{List, ℕ, drop, ◌^◌};
    ghost use Rattle.sum_tree.specs.Sums.{IsTree};

    ghost Value = { List ℕ };

    ghost view = { λ s. drop s.places s.sums.items };

    ghost invariant = { λ s. IsTree (2 ^ 48) s.places s.sums.items };
}

// A sum of 0 at each node of a tree over that many places.
fn no_sums(alloc: Global, places: u32) -> Result<Vec<u128>, NoMemory>
    ensures { IfOk result (λ sums. sums.items ≡ replicate (2 * places) 0) }
{
    Ok(vec![in alloc; 0; 2 * places as usize]?)
}

impl ByteSums {
    /// That many places with no bytes.
    pub fn new(alloc: Global, places: u32) -> Result<ByteSums, NoMemory>
        ensures { IfOk result (λ bytes. bytes ≡ replicate places 0) }
    {
        Ok(ByteSums {
            places,
            sums: no_sums(alloc, places)?,
        })
    }

    /// Sets how many bytes stand at a place. Takes time in the logarithm of the number of places.
    pub fn set(&mut self, place: u32, bytes: u64)
        requires within { place < length self.old }
        requires small { bytes ≤ 2 ^ 48 }
        ensures { self.new ≡ slice_set self.old place bytes }
    {
        set_leaf(
            &mut self.sums,
            self.places as usize,
            place as usize,
            u128::from(bytes),
        );
    }

    /// The bytes at the places from `from` to the one before `to`. Takes time in the logarithm of their number.
    pub fn sum(&self, from: u32, to: u32) -> u128
        requires order { from ≤ to }
        requires within { to ≤ length self.now }
        ensures { result ≡ sum (slice_range self.now from to) }
    {
        sum_between(&self.sums, self.places as usize, from as usize, to as usize)
    }
}
