//! Loads below 2^64, asked whether they fit.
ghost use Rattle.std.specs.Prelude.{◌≡◌, ◌<◌, ◌≤◌, ◌↔◌, length, replicate, IfOk, IsTrue};
ghost use Rattle.load_tree.specs.Ranges.{AddsOver, AreWithin, HasSmallRoom};

use crate::levels::{Level, shape_of};
use crate::raising::{Rise, raise};
use crate::settling::{Answer, Query, look};
use bound_base::NoMemory;
use std::alloc::Global;
use std::marker::Model;

/// The load of each step, in bytes and below 2^64. Steps count from 0. It takes some 9 bytes for each step.
#[derive(Debug, Drop)]
pub struct SmallLoads {
    values: Vec<u64>,
    steps: u32,
    height: u32,
}

// Values of that number, all 0.
fn no_values(alloc: Global, places: usize) -> Result<Vec<u64>, NoMemory>
    ensures { IfOk result (λ values. values.items ≡ replicate places 0) }
{
    Ok(vec![in alloc; 0; places]?)
}

impl Model for SmallLoads {
    ghost use Rattle.std.specs.Prelude.{ℕ, List, length, ◌<◌, ◌≤◌, ◌^◌};
    ghost use Rattle.load_tree.specs.Levels.{IsLevels, load_at, loads_in};

    ghost Value = { List ℕ };

    ghost view = { λ l. loads_in l.height l.steps l.values.items };

    ghost invariant = { λ l.
        IsLevels l.height 0 l.steps l.values.items
        × ((t : ℕ) → t < l.steps → load_at l.height 0 l.steps l.values.items t < 2 ^ 64) };
}

impl SmallLoads {
    /// One load for each step, all 0.
    pub fn new(alloc: Global, steps: u32) -> Result<SmallLoads, NoMemory>
        ensures { IfOk result (λ loads. loads ≡ replicate steps 0) }
    {
        let shape = shape_of(steps as usize);
        Ok(SmallLoads {
            values: no_values(alloc, shape.places)?,
            steps,
            height: shape.height,
        })
    }

    /// Whether each load from the step `from` to the one before `to` is within the room. Takes time in the logarithm
    /// of the number of all steps.
    pub fn fits(&self, from: u32, to: u32, room: u64) -> bool
        requires order { from < to }
        requires within { to ≤ length self.now }
        ensures { IsTrue result ↔ AreWithin self.now from to room }
    {
        let level = Level {
            height: self.height,
            start: 0,
            count: self.steps as usize,
        };
        let query = Query {
            low: from as usize,
            high: to as usize - 1,
            room,
        };
        matches!(look(&self.values, level, query), Answer::Fits)
    }

    /// Adds the amount to each step from `from` to the one before `to`. Takes time in the logarithm of the number of
    /// all steps.
    pub fn add(&mut self, from: u32, to: u32, amount: u64)
        requires order { from < to }
        requires within { to ≤ length self.old }
        requires room { HasSmallRoom self.old from to amount }
        ensures { AddsOver self.old self.new from to amount }
    {
        let level = Level {
            height: self.height,
            start: 0,
            count: self.steps as usize,
        };
        let rise = Rise {
            low: from as usize,
            low_by: amount,
            high: to as usize - 1,
            high_by: amount,
            between: amount,
        };
        raise(&mut self.values, level, rise);
    }
}
