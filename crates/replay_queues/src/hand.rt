//! The line of SIEVE or of CLOCK and its hand, which goes from the front to the back.
ghost use Rattle.std.specs.Prelude.{◌≡◌, ◌≤◌, ◌<◌, ◌^◌, ◌+◌, ◌/◌, ◌++◌, ◌∷◌, [], length, max, true, false, IfOk, OnOk, OnErr, slice_index, slice_set};
ghost use Rattle.policy_model.specs.Leaving.{cut_without, without_member};
ghost use Rattle.policy_model.specs.Sieve.{look, cut_used, begin_again, come_in};
ghost use Rattle.policy_model.specs.Steps.{without_entry};
ghost use Rattle.replay_queues.specs.Lines.{first_of, from_object, HasSpace};
ghost use Rattle.replay_queues.specs.SieveQueues.{is_held, marked_entry, cut_at, with_room, IsHand};

use crate::line::Line;
use crate::table::{Table, room_for};
use bound_base::NoMemory;
use std::alloc::Global;

// The byte of an object that is not held, of one that is, and of one that is marked too.
const GONE: u8 = 0;

const HELD: u8 = 1;

const MARKED: u8 = 2;

/// Objects with their sizes in a line, and the one that the hand looks at next, or the number for none. After the last it
/// begins again at the first. So an object leaves in constant time on either side of the hand, and none is moved by it.
#[derive(Drop)]
pub(crate) struct Hand {
    pub(crate) line: Line,
    pub(crate) next: u32,
    pub(crate) table: Table,
}

impl Hand {
    /// Empty, with a place for no object.
    pub(crate) fn new(alloc: Global) -> Result<Self, NoMemory>
        ensures objects { IfOk result (λ hand. hand.line.objects ≡ 0) }
        ensures members { IfOk result (λ hand. hand.line.members ≡ []) }
        ensures next { IfOk result (λ hand. hand.next ≡ 0) }
        ensures table { IfOk result (λ hand. hand.table ≡ []) }
    {
        let table = Table::new(alloc, 0)?;
        Ok(Hand {
            line: Line::new(alloc)?,
            next: 0,
            table,
        })
    }

    // Gives objects numbered below this a place, and makes room for one more.
    fn grow(&mut self, alloc: Global, objects: u32) -> Result<(), NoMemory>
        requires more { length self.old.table ≤ objects }
        requires held { IsHand self.old }
        ensures cut { cut_at self.new ≡ cut_at self.old }
        ensures held { IsHand self.new }
        ensures known { OnOk result (length self.new.table ≡ objects) }
        ensures space { OnOk result (HasSpace self.new.line) }
        ensures table { OnErr result (self.new.table ≡ self.old.table) }
    {
        let table = self.table.with_objects(alloc, objects)?;
        let next = self.next_with(objects);
        self.line.grow(objects)?;
        self.next = next;
        self.table = table;
        Ok(())
    }

    /// Makes room for an object of those numbered below `objects`. It takes constant time, amortized.
    pub(crate) fn reach(&mut self, alloc: Global, object: u32, objects: u32) -> Result<(), NoMemory>
        requires known { object < objects }
        requires within { length self.old.table ≤ objects }
        requires held { IsHand self.old }
        ensures known { OnOk result (object < length self.new.table) }
        ensures space { OnOk result (HasSpace self.new.line) }
        ensures within { length self.new.table ≤ objects }
        ensures few { length self.new.table ≤ max (object + 1) (length self.old.table + length self.old.table / 4) }
        ensures cut { cut_at self.new ≡ cut_at self.old }
        ensures held { IsHand self.new }
    {
        let before = self.line.none();
        if object < before {
            return self.line.reserve();
        }
        self.grow(alloc, room_for(object, before, objects))
    }

    /// Whether an object is held.
    #[inline(always)]
    pub(crate) fn holds(&self, object: u32) -> bool
        ensures { result ≡ is_held (slice_index self.now.table object) }
    {
        self.table.get(object) > GONE
    }

    /// Marks an object that is held.
    #[inline(always)]
    pub(crate) fn mark(&mut self, object: u32)
        requires known { object < length self.old.table }
        ensures { self.new ≡ record self.old { table = slice_set self.old.table object MARKED } }
    {
        self.table.set(object, MARKED);
    }

    // Where the hand is once an object has left.
    #[inline(always)]
    fn next_without(&self, object: u32) -> u32
        requires there { is_held (slice_index self.now.table object) ≡ true }
        requires held { IsHand self.now }
        ensures { result ≡ first_of self.now.line.objects (without_member object (from_object self.now.next self.now.line.members)) }
    {
        if self.next == object {
            self.line.after(object)
        } else {
            self.next
        }
    }

    // Where the hand is once this object has come in, or is the number for none: it is there if nothing was ahead.
    #[inline(always)]
    fn next_with(&self, object: u32) -> u32
        requires held { IsHand self.now }
        ensures { result ≡ first_of object (from_object self.now.next self.now.line.members) }
    {
        if self.next == self.line.none() {
            object
        } else {
            self.next
        }
    }

    // Takes an object out, on whichever side of the hand it is, and says its size.
    fn take_out(&mut self, object: u32) -> u64
        requires there { is_held (slice_index self.old.table object) ≡ true }
        requires held { IsHand self.old }
        ensures behind { (cut_at self.new).behind ≡ without_entry object (cut_at self.old).behind }
        ensures ahead { (cut_at self.new).ahead ≡ without_entry object (cut_at self.old).ahead }
        ensures freed { cut_used (cut_at self.new) + result ≡ cut_used (cut_at self.old) }
        ensures held { IsHand self.new }
        ensures table { length self.new.table ≡ length self.old.table }
        ensures few { length self.new.line.members ≤ length self.old.line.members }
        ensures room { self.new.line.room ≡ self.old.line.room }
    {
        self.next = self.next_without(object);
        self.table.set(object, GONE);
        self.line.remove(object)
    }

    // If nothing is ahead of the hand, it begins again at the first.
    #[inline(always)]
    fn begin_again(&mut self)
        requires held { IsHand self.old }
        ensures cut { cut_at self.new ≡ begin_again (cut_at self.old).behind (cut_at self.old).ahead }
        ensures in_use { cut_used (cut_at self.new) ≡ cut_used (cut_at self.old) }
        ensures held { IsHand self.new }
        ensures table { self.new.table ≡ self.old.table }
        ensures line { self.new.line ≡ self.old.line }
    {
        if self.next == self.line.none() {
            self.next = self.line.first();
        }
    }

    // Passes the next entry and clears its mark, or gives it up if it has none. It says how many bytes were given up.
    #[inline(always)]
    fn pass(&mut self) -> u64
        requires held { IsHand self.old }
        ensures cut { begin_again (cut_at self.new).behind (cut_at self.new).ahead ≡ look (cut_at self.old) }
        ensures freed { cut_used (cut_at self.new) + result ≡ cut_used (cut_at self.old) }
        ensures held { IsHand self.new }
        ensures table { length self.new.table ≡ length self.old.table }
        ensures few { length self.new.line.members ≤ length self.old.line.members }
        ensures room { self.new.line.room ≡ self.old.line.room }
    {
        let next = self.next;
        if next == self.line.none() {
            return 0;
        }
        if self.table.get(next) < MARKED {
            return self.take_out(next);
        }
        self.table.set(next, HELD);
        self.next = self.line.after(next);
        0
    }

    // Passes the next entry, and begins again at the first if it was the last.
    fn look(&mut self) -> u64
        requires held { IsHand self.old }
        ensures cut { cut_at self.new ≡ look (cut_at self.old) }
        ensures freed { cut_used (cut_at self.new) + result ≡ cut_used (cut_at self.old) }
        ensures held { IsHand self.new }
        ensures table { length self.new.table ≡ length self.old.table }
        ensures few { length self.new.line.members ≤ length self.old.line.members }
        ensures room { self.new.line.room ≡ self.old.line.room }
    {
        let freed = self.pass();
        self.begin_again();
        freed
    }

    /// Looks at one entry after another until this many bytes fit, and says how many are still used.
    pub(crate) fn make_room(&mut self, in_use: u64, capacity: u64, size: u64) -> u64
        requires in_use { in_use ≡ cut_used (cut_at self.old) }
        requires within { in_use ≤ capacity }
        requires small { size ≤ capacity }
        requires range { capacity ≤ 2 ^ 56 }
        requires held { IsHand self.old }
        ensures cut { cut_at self.new ≡ with_room capacity size (cut_at self.old) }
        ensures in_use { result ≡ cut_used (cut_at self.new) }
        ensures fits { result + size ≤ capacity }
        ensures held { IsHand self.new }
        ensures table { length self.new.table ≡ length self.old.table }
        ensures few { length self.new.line.members ≤ length self.old.line.members }
        ensures room { self.new.line.room ≡ self.old.line.room }
    {
        let mut left = in_use;
        while left + size > capacity {
            left -= self.look();
        }
        left
    }

    /// Puts an object that is not held at the end, without a mark.
    pub(crate) fn come_in(&mut self, object: u32, size: u64)
        requires known { object < length self.old.table }
        requires absent { is_held (slice_index self.old.table object) ≡ false }
        requires space { HasSpace self.old.line }
        requires held { IsHand self.old }
        ensures cut { cut_at self.new ≡ come_in (marked_entry HELD (object, size)) (cut_at self.old) }
        ensures held { IsHand self.new }
        ensures table { length self.new.table ≡ length self.old.table }
    {
        self.next = self.next_with(object);
        self.table.set(object, HELD);
        let none = self.line.none();
        self.line.put(object, size, none);
    }

    /// Puts an object that is not held just behind the hand, without a mark.
    pub(crate) fn come_in_behind(&mut self, object: u32, size: u64)
        requires known { object < length self.old.table }
        requires absent { is_held (slice_index self.old.table object) ≡ false }
        requires space { HasSpace self.old.line }
        requires held { IsHand self.old }
        ensures behind { (cut_at self.new).behind ≡ (cut_at self.old).behind ++ marked_entry HELD (object, size) ∷ [] }
        ensures ahead { (cut_at self.new).ahead ≡ (cut_at self.old).ahead }
        ensures held { IsHand self.new }
        ensures table { length self.new.table ≡ length self.old.table }
    {
        self.table.set(object, HELD);
        self.line.put(object, size, self.next);
    }

    /// Lets go of an object, if it is held, and says how many bytes it had. If nothing is then ahead of the hand, it begins
    /// again at the first.
    pub(crate) fn leave(&mut self, object: u32) -> u64
        requires held { IsHand self.old }
        ensures cut { cut_at self.new ≡ cut_without object (cut_at self.old) }
        ensures freed { cut_used (cut_at self.new) + result ≡ cut_used (cut_at self.old) }
        ensures held { IsHand self.new }
        ensures table { length self.new.table ≡ length self.old.table }
    {
        let freed = if self.holds(object) {
            self.take_out(object)
        } else {
            0
        };
        self.begin_again();
        freed
    }
}
