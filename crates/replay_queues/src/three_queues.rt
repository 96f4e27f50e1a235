//! The queues of S3-FIFO.
ghost use Rattle.std.specs.Prelude.{◌≡◌, ◌≤◌, ◌<◌, ◌^◌, ◌+◌, ◌/◌, [], length, max, min, false, IfOk, OnOk, OnErr, slice_index, slice_set};
ghost use Rattle.policy_model.specs.Leaving.{queues_without};
ghost use Rattle.policy_model.specs.S3Fifo.{fade, shrink_small, shrink, queues_used, enter};
ghost use Rattle.replay_queues.specs.ThreeParts.{parts_count, HasPlace};
ghost use Rattle.replay_queues.specs.SmallAndMain.{is_kept, counted_entry, queues_at, main_shrunk, with_space, IsFading, IsQueued};

use crate::parts::Parts;
use crate::table::{Table, room_for};
use bound_base::NoMemory;
use std::alloc::Global;

// The byte of an object that is neither held nor a ghost, of a ghost, of one that is held without a hit, and of one with
// two hits.
const UNKNOWN: u8 = 0;

const GHOST: u8 = 1;

const HELD: u8 = 2;

const HIT_TWICE: u8 = 4;

/// The small queue, the main queue and the ghosts, with the hits of the objects, and the bytes of the small queue and of
/// the ghosts.
#[derive(Drop)]
pub(crate) struct ThreeQueues {
    pub(crate) parts: Parts,
    pub(crate) table: Table,
    pub(crate) small_used: u64,
    pub(crate) ghosts_used: u64,
}

impl ThreeQueues {
    /// Empty, with a place for no object.
    pub(crate) fn new(alloc: Global) -> Result<Self, NoMemory>
        ensures objects { IfOk result (λ queues. queues.parts.objects ≡ 0) }
        ensures small { IfOk result (λ queues. queues.parts.small ≡ []) }
        ensures main { IfOk result (λ queues. queues.parts.main ≡ []) }
        ensures ghosts { IfOk result (λ queues. queues.parts.ghosts ≡ []) }
        ensures table { IfOk result (λ queues. queues.table ≡ []) }
        ensures small_used { IfOk result (λ queues. queues.small_used ≡ 0) }
        ensures ghosts_used { IfOk result (λ queues. queues.ghosts_used ≡ 0) }
    {
        let table = Table::new(alloc, 0)?;
        Ok(ThreeQueues {
            parts: Parts::new(alloc)?,
            table,
            small_used: 0,
            ghosts_used: 0,
        })
    }

    // Gives objects numbered below this a place, and makes room for one more.
    fn grow(&mut self, alloc: Global, objects: u32) -> Result<(), NoMemory>
        requires more { length self.old.table ≤ objects }
        requires queued { IsQueued self.old }
        ensures queues { queues_at self.new ≡ queues_at self.old }
        ensures queued { IsQueued self.new }
        ensures known { OnOk result (length self.new.table ≡ objects) }
        ensures space { OnOk result (HasPlace self.new.parts) }
        ensures table { OnErr result (self.new.table ≡ self.old.table) }
    {
        let table = self.table.with_objects(alloc, objects)?;
        self.parts.grow(alloc, objects)?;
        self.table = table;
        Ok(())
    }

    /// Makes room for an object of those numbered below `objects`. It takes constant time, amortized.
    pub(crate) fn reach(&mut self, alloc: Global, object: u32, objects: u32) -> Result<(), NoMemory>
        requires known { object < objects }
        requires within { length self.old.table ≤ objects }
        requires queued { IsQueued self.old }
        ensures known { OnOk result (object < length self.new.table) }
        ensures space { OnOk result (HasPlace self.new.parts) }
        ensures within { length self.new.table ≤ objects }
        ensures few { length self.new.table ≤ max (object + 1) (length self.old.table + length self.old.table / 4) }
        ensures queues { queues_at self.new ≡ queues_at self.old }
        ensures queued { IsQueued self.new }
    {
        let before = self.parts.objects();
        if object < before {
            return self.parts.reserve();
        }
        self.grow(alloc, room_for(object, before, objects))
    }

    /// Whether an object is held.
    #[inline(always)]
    pub(crate) fn holds(&self, object: u32) -> bool
        ensures { result ≡ is_kept (slice_index self.now.table object) }
    {
        self.table.get(object) >= HELD
    }

    /// Counts a hit of an object that is held, up to three.
    #[inline(always)]
    pub(crate) fn count_hit(&mut self, object: u32)
        requires known { object < length self.old.table }
        ensures { self.new ≡ record self.old { table = slice_set self.old.table object (min (slice_index self.old.table object) HIT_TWICE + 1) } }
    {
        let hits = self.table.get(object);
        self.table.set(object, hits.min(HIT_TWICE) + 1);
    }

    // Ghosts leave from the front until they have at most this many bytes.
    fn fade(&mut self, most: u64)
        requires queued { IsFading self.old }
        requires range { most ≤ 2 ^ 56 }
        ensures queues { queues_at self.new ≡ record (queues_at self.old) { ghosts = fade most self.old.parts.ghosts } }
        ensures queued { IsQueued self.new }
        ensures table { length self.new.table ≡ length self.old.table }
        ensures few { parts_count self.new.parts ≤ parts_count self.old.parts }
        ensures room { self.new.parts.room ≡ self.old.parts.room }
    {
        while self.ghosts_used > most {
            let (object, size) = self.parts.pop_ghost();
            self.table.set(object, UNKNOWN);
            self.ghosts_used -= size;
        }
    }

    // From the front of the small queue, objects with two hits or more go to the main queue, and the first other one is
    // given up and becomes a ghost. It says how many bytes were given up.
    fn shrink_small(&mut self, most: u64) -> u64
        requires queued { IsQueued self.old }
        requires range { (most ≤ 2 ^ 56) × (queues_used (queues_at self.old) ≤ 2 ^ 56) }
        ensures queues { queues_at self.new ≡ shrink_small most (queues_at self.old).small (queues_at self.old).main self.old.parts.ghosts }
        ensures freed { queues_used (queues_at self.new) + result ≡ queues_used (queues_at self.old) }
        ensures queued { IsQueued self.new }
        ensures table { length self.new.table ≡ length self.old.table }
        ensures few { parts_count self.new.parts ≤ parts_count self.old.parts }
        ensures room { self.new.parts.room ≡ self.old.parts.room }
    {
        while let Some((object, size)) = self.parts.pop_small() {
            self.small_used -= size;
            if self.table.get(object) < HIT_TWICE {
                self.table.set(object, GHOST);
                self.parts.push_ghost(object, size);
                self.ghosts_used += size;
                self.fade(most);
                return size;
            }
            self.table.set(object, HELD);
            self.parts.push_main(object, size);
        }
        0
    }

    // From the front of the main queue, objects with a hit lose one and go to its back, and the first other one is given
    // up. It says how many bytes were given up.
    fn shrink_main(&mut self) -> u64
        requires queued { IsQueued self.old }
        ensures queues { queues_at self.new ≡ main_shrunk (queues_at self.old) }
        ensures freed { queues_used (queues_at self.new) + result ≡ queues_used (queues_at self.old) }
        ensures queued { IsQueued self.new }
        ensures table { length self.new.table ≡ length self.old.table }
        ensures few { parts_count self.new.parts ≤ parts_count self.old.parts }
        ensures room { self.new.parts.room ≡ self.old.parts.room }
    {
        while let Some((object, size)) = self.parts.pop_main() {
            let cell = self.table.get(object);
            if cell <= HELD {
                self.table.set(object, UNKNOWN);
                return size;
            }
            self.table.set(object, cell - 1);
            self.parts.push_main(object, size);
        }
        0
    }

    // Gives up an object of the queue that the rule names, and says how many bytes it had.
    fn shrink(&mut self, capacity: u64) -> u64
        requires queued { IsQueued self.old }
        requires range { (capacity ≤ 2 ^ 56) × (queues_used (queues_at self.old) ≤ 2 ^ 56) }
        ensures queues { queues_at self.new ≡ shrink capacity (queues_at self.old) }
        ensures freed { queues_used (queues_at self.new) + result ≡ queues_used (queues_at self.old) }
        ensures queued { IsQueued self.new }
        ensures table { length self.new.table ≡ length self.old.table }
        ensures few { parts_count self.new.parts ≤ parts_count self.old.parts }
        ensures room { self.new.parts.room ≡ self.old.parts.room }
    {
        let part = capacity / 10;
        if !self.parts.no_small() && (part <= self.small_used || self.parts.no_main()) {
            return self.shrink_small(capacity - part);
        }
        self.shrink_main()
    }

    /// Gives up objects until this many bytes fit, and says how many are still used.
    pub(crate) fn make_room(&mut self, in_use: u64, capacity: u64, size: u64) -> u64
        requires in_use { in_use ≡ queues_used (queues_at self.old) }
        requires within { in_use ≤ capacity }
        requires small { size ≤ capacity }
        requires range { capacity ≤ 2 ^ 56 }
        requires queued { IsQueued self.old }
        ensures queues { queues_at self.new ≡ with_space capacity size (queues_at self.old) }
        ensures in_use { result ≡ queues_used (queues_at self.new) }
        ensures fits { result + size ≤ capacity }
        ensures queued { IsQueued self.new }
        ensures table { length self.new.table ≡ length self.old.table }
        ensures few { parts_count self.new.parts ≤ parts_count self.old.parts }
        ensures room { self.new.parts.room ≡ self.old.parts.room }
    {
        let mut left = in_use;
        while left + size > capacity {
            left -= self.shrink(capacity);
        }
        left
    }

    /// Puts an object that is not held into the main queue if it is a ghost, and else into the small queue.
    pub(crate) fn enter(&mut self, object: u32, size: u64)
        requires known { object < length self.old.table }
        requires absent { is_kept (slice_index self.old.table object) ≡ false }
        requires space { HasPlace self.old.parts }
        requires range { queues_used (queues_at self.old) + size ≤ 2 ^ 56 }
        requires queued { IsQueued self.old }
        ensures queues { queues_at self.new ≡ enter (counted_entry HELD (object, size)) (queues_at self.old) }
        ensures queued { IsQueued self.new }
        ensures table { length self.new.table ≡ length self.old.table }
    {
        let is_ghost = self.table.get(object) == GHOST;
        self.table.set(object, HELD);
        if is_ghost {
            self.ghosts_used -= self.parts.remove(object);
            self.parts.push_main(object, size);
            return;
        }
        self.parts.push_small(object, size);
        self.small_used += size;
    }

    /// Lets go of an object, if it is held, and says how many bytes it had.
    pub(crate) fn leave(&mut self, object: u32) -> u64
        requires queued { IsQueued self.old }
        ensures queues { queues_at self.new ≡ queues_without object (queues_at self.old) }
        ensures freed { queues_used (queues_at self.new) + result ≡ queues_used (queues_at self.old) }
        ensures queued { IsQueued self.new }
        ensures table { length self.new.table ≡ length self.old.table }
    {
        if !self.holds(object) {
            return 0;
        }
        let is_small = self.parts.is_small(object);
        self.table.set(object, UNKNOWN);
        let size = self.parts.remove(object);
        if !is_small {
            return size;
        }
        self.small_used -= size;
        size
    }
}
