//! Marks on places, set one by one and counted over ranges.
ghost use Rattle.std.specs.Prelude.{◌≡◌, ◌<◌, ◌≤◌, ◌*◌, Bool, false, true, length, replicate, count_by, slice_range, slice_set, IfOk};

use bound_base::NoMemory;
use std::alloc::Global;
use std::marker::Model;
use sum_tree::{set_leaf, sum_between};

/// Which places are marked. Places count from 0. It takes 8 bytes for each place.
#[derive(Debug, Drop)]
pub struct Marks {
    places: u32,
    sums: Vec<u32>,
}

impl Model for Marks {
    ghost use Rattle.std.specs.Prelude.{List, Bool};
    ghost use Rattle.sum_tree.specs.Sums.{IsTree};
    ghost use Rattle.stack_curve.specs.Marks.{marks_of};

    ghost Value = { List Bool };

    ghost view = { λ m. marks_of m.places m.sums.items };

    ghost invariant = { λ m. IsTree 1 m.places m.sums.items };
}

// A sum of 0 at each node of a tree over that many places.
fn no_sums(alloc: Global, places: u32) -> Result<Vec<u32>, NoMemory>
    ensures { IfOk result (λ sums. sums.items ≡ replicate (2 * places) 0) }
{
    Ok(vec![in alloc; 0; 2 * places as usize]?)
}

impl Marks {
    /// That many places without a mark.
    pub fn new(alloc: Global, places: u32) -> Result<Marks, NoMemory>
        ensures { IfOk result (λ marks. marks ≡ replicate places false) }
    {
        Ok(Marks {
            places,
            sums: no_sums(alloc, places)?,
        })
    }

    /// Sets whether a place is marked. Takes time in the logarithm of the number of places.
    pub fn set(&mut self, place: u32, on: bool)
        requires within { place < length self.old }
        ensures { self.new ≡ slice_set self.old place on }
    {
        set_leaf(
            &mut self.sums,
            self.places as usize,
            place as usize,
            u32::from(on),
        );
    }

    /// How many of the places from `from` to the one before `to` are marked. Takes time in the logarithm of their
    /// number.
    pub fn count(&self, from: u32, to: u32) -> u32
        requires order { from ≤ to }
        requires within { to ≤ length self.now }
        ensures { result ≡ count_by (λ on. on) (slice_range self.now from to) }
    {
        sum_between(&self.sums, self.places as usize, from as usize, to as usize)
    }
}
