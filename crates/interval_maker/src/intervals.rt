//! The intervals over the steps of a trace, found by their number, their start or their end.
ghost use Rattle.std.specs.Prelude.{◌≡◌, ◌<◌, ◌≤◌, ◌^◌, length, All, AllPairs};
ghost use Rattle.interval_maker.specs.Stored.{named, no_number};
ghost use Rattle.interval_maker.specs.Timelines.{IsTimeline, ending_at, starting_at};

use cache_model::Interval;
use std::marker::Model;

// What is stored where no interval starts or ends.
pub(crate) const NO_INTERVAL: u32 = u32::MAX;

/// Intervals in order of start, over the steps of a trace. Both count from 0.
///
/// It takes 24 bytes for each interval and 8 for each step. Each answer takes constant time.
#[derive(Debug, Drop)]
pub struct Intervals {
    pub(crate) items: Vec<Interval>,
    pub(crate) starting: Vec<u32>,
    pub(crate) ending: Vec<u32>,
}

impl Model for Intervals {
    ghost use Rattle.std.specs.Prelude.{length};
    ghost use Rattle.interval_maker.specs.Timelines.{Timeline};
    ghost use Rattle.interval_maker.specs.Stored.{IsStored};

    ghost Value = { Timeline };

    ghost view = { λ s. record { steps = length s.starting.items; items = s.items.items } };

    ghost invariant = { λ s. IsStored (record { steps = length s.starting.items; items = s.items.items }) s.starting.items s.ending.items };
}

// The number that is stored, if any.
fn named_interval(stored: u32) -> Option<u32>
    ensures { result ≡ named stored }
{
    if stored == NO_INTERVAL {
        None
    } else {
        Some(stored)
    }
}

impl Intervals {
    /// The intervals, in order of start.
    pub fn as_slice(&self) -> &[Interval]
        ensures items { result.now ≡ self.now.items }
        ensures timeline { IsTimeline self.now }
    {
        &self.items
    }

    /// How many steps there are: one for each request.
    pub fn steps(&self) -> u32
        ensures steps { result ≡ self.now.steps }
        ensures timeline { IsTimeline self.now }
    {
        self.starting.len() as u32
    }

    /// The number of the interval that starts at a request.
    pub fn starting(&self, step: u32) -> Option<u32>
        requires within { step < self.now.steps }
        ensures number { result ≡ starting_at self.now.items step }
    {
        named_interval(self.starting[step as usize])
    }

    /// The number of the interval that ends at a request.
    pub fn ending(&self, step: u32) -> Option<u32>
        requires within { step < self.now.steps }
        ensures number { result ≡ ending_at self.now.items step }
    {
        named_interval(self.ending[step as usize])
    }
}
