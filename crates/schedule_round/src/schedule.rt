//! A schedule that is being made.
ghost use Rattle.std.specs.Prelude.{◌≡◌, ◌↔◌, ◌<◌, ◌≤◌, true, false, length, replicate, slice_set, IsTrue, IfOk};
ghost use Rattle.load_tree.specs.Ranges.{AddsOver, HasSmallRoom};
ghost use Rattle.schedule_round.specs.Taken.{FitsOn};

use bound_base::NoMemory;
use interval_maker::Interval;
use load_tree::SmallLoads;
use std::alloc::Global;

/// Which requests are kept so far, and what each step then holds of the capacity. Both are in bytes.
#[derive(Debug, Drop)]
pub(crate) struct Schedule {
    pub(crate) capacity: u64,
    pub(crate) loads: SmallLoads,
    pub(crate) keeps: Vec<bool>,
}

impl Schedule {
    /// Nothing is kept yet.
    pub(crate) fn new(alloc: Global, steps: u32, capacity: u64) -> Result<Schedule, NoMemory>
        ensures capacity { IfOk result (λ s. s.capacity ≡ capacity) }
        ensures loads { IfOk result (λ s. s.loads ≡ replicate steps 0) }
        ensures keeps { IfOk result (λ s. s.keeps.items ≡ replicate steps false) }
    {
        Ok(Schedule {
            capacity,
            loads: SmallLoads::new(alloc, steps)?,
            keeps: vec![in alloc; false; steps as usize]?,
        })
    }

    /// Whether the interval fits at each step that it covers, beside what is held there.
    pub(crate) fn fits(&self, interval: &Interval) -> bool
        requires order { interval.now.start < interval.now.end }
        requires within { interval.now.end ≤ length self.now.loads }
        ensures { IsTrue result ↔ FitsOn self.now.loads self.now.capacity interval.now }
    {
        interval.size <= self.capacity
            && self.loads.fits(interval.start, interval.end, self.capacity - interval.size)
    }

    /// Keeps the interval, which adds its size to the steps that it covers.
    pub(crate) fn take(&mut self, interval: &Interval)
        requires order { interval.now.start < interval.now.end }
        requires within { interval.now.end ≤ length self.old.loads }
        requires room { HasSmallRoom self.old.loads interval.now.start interval.now.end interval.now.size }
        requires start { interval.now.start < length self.old.keeps.items }
        ensures capacity { self.new.capacity ≡ self.old.capacity }
        ensures held { AddsOver self.old.loads self.new.loads
            interval.now.start interval.now.end interval.now.size }
        ensures kept { self.new.keeps.items ≡ slice_set self.old.keeps.items interval.now.start true }
    {
        self.loads.add(interval.start, interval.end, interval.size);
        self.keeps[interval.start as usize] = true;
    }
}
