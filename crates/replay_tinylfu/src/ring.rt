//! The three queues, in one ring.
ghost use Rattle.std.specs.Prelude.{◌≡◌, ◌≤◌, ◌<◌, ◌+◌, ◌^◌, ◌++◌, ◌∷◌, ◌==◌, [], true, false, length, drop, nat_lt, slice_index, IfOk, OnOk, OnErr, MatchOption};
ghost use Rattle.policy_model.specs.States.{used, has_entry};
ghost use Rattle.policy_model.specs.Steps.{without_entry};
ghost use Rattle.policy_model.specs.WTinyLfu.{main_used, entry_of, segment_entries, first_with, count_of};
ghost use Rattle.linked_nodes.specs.Nodes.{node_at, IsThere};
ghost use Rattle.replay_tinylfu.specs.Marks.{PutsBefore, TakesOut, follow};
ghost use Rattle.replay_tinylfu.specs.Queues.{plain_entry, no_segments, with_window, with_probation, with_protected, main_entries, DisplacesAll, HasSpace};

use crate::counts::{Counts, longer};
use bound_base::NoMemory;
use linked_nodes::{Node, Nodes};
use std::alloc::Global;
use std::marker::Model;

// The byte of an object that is in none of the queues, in the window, on probation, and protected.
const NOWHERE: u8 = 0;

// How many nodes there may be beside those of the entries: the marks, and one more.
const MORE: usize = 4;

/// The place of an object in the window.
pub(crate) const WINDOW: u8 = 1;

/// The place of an object on probation.
pub(crate) const PROBATION: u8 = 2;

/// The place of a protected object.
pub(crate) const PROTECTED: u8 = 3;

// How many entries a queue has, and their bytes.
#[derive(Clone, Copy)]
struct Load {
    entries: u64,
    bytes: u64,
}

/// The window, the objects on probation and the protected ones, each least recently used first.
///
/// They are one doubly linked ring over the objects and three marks: the window stands after the first mark, the objects on
/// probation after the second, and the protected ones after the third.
#[derive(Drop)]
pub(crate) struct Ring {
    nodes: Nodes,
    places: Vec<u8>,
    objects: u32,
    window: Load,
    probation: Load,
    protected: Load,
}

impl Model for Ring {
    ghost use Rattle.replay_tinylfu.specs.Queues.{Queues};

    ghost Value = { Queues };

    ghost use Rattle.replay_tinylfu.specs.Loads.{numbers_of, IsHeld};
    ghost use Rattle.replay_tinylfu.specs.Queues.{queues_at};
    ghost use Rattle.std.specs.Prelude.{◌-◌};

    ghost view = { λ r. record (queues_at r.nodes.list r.objects (numbers_of r.nodes.list r.objects r.window r.probation r.protected)) { room = r.nodes.room - 3 } };

    ghost invariant = { λ r. IsHeld r.nodes r.places.items r.objects r.window r.probation r.protected };
}

// Puts an object that has a node and stands nowhere before another node.
#[inline(always)]
fn put_before(nodes: &mut Nodes, object: u32, next: u32)
    requires object { IsThere nodes.old.list object }
    requires next { IsThere nodes.old.list next }
    requires last { IsThere nodes.old.list (node_at nodes.old.list next).before }
    ensures puts { PutsBefore nodes.old.list nodes.new.list object next }
    ensures count { nodes.new.count ≡ nodes.old.count }
    ensures room { nodes.new.room ≡ nodes.old.room }
{
    let last = nodes.get(next).before;
    nodes.join(last, object);
    nodes.join(object, next);
}

// Takes an object out of the ring, and its node away, and says its size.
#[inline(always)]
fn take_out(nodes: &mut Nodes, object: u32) -> u64
    requires known { object + 3 < length nodes.old.list }
    requires object { IsThere nodes.old.list object }
    requires before { IsThere nodes.old.list (node_at nodes.old.list object).before }
    requires after { IsThere nodes.old.list (node_at nodes.old.list object).after }
    ensures takes { TakesOut nodes.old.list nodes.new.list object }
    ensures size { result ≡ (node_at nodes.old.list object).size }
    ensures count { nodes.new.count + 1 ≡ nodes.old.count }
    ensures room { nodes.new.room ≡ nodes.old.room }
{
    let Node {
        before,
        after,
        size,
    } = nodes.get(object);
    nodes.join(before, after);
    nodes.leave(object);
    size
}

// The node after this one, or after the mark if the mark is next.
#[inline(always)]
fn next_but(nodes: &Nodes, node: u32, mark: u32) -> u32
    requires node { node < length nodes.now.list }
    requires mark { mark < length nodes.now.list }
    ensures { result ≡ follow nodes.now.list mark node }
{
    let next = nodes.get(node).after;
    if next == mark {
        nodes.get(mark).after
    } else {
        next
    }
}

// The byte of an object, which is in none of the queues if it has none.
#[inline(always)]
fn place_at(places: &Vec<u8>, object: u32) -> u8
    ensures { result ≡ slice_index places.now.items object }
{
    places.get(object as usize).copied().unwrap_or(NOWHERE)
}

impl Ring {
    /// Empty, with a place for no object.
    pub(crate) fn new(alloc: Global) -> Result<Self, NoMemory>
        ensures objects { IfOk result (λ ring. ring.objects ≡ 0) }
        ensures segments { IfOk result (λ ring. ring.segments ≡ no_segments) }
    {
        let mut nodes = Nodes::new(alloc)?;
        nodes.join(0, 1);
        nodes.join(1, 2);
        nodes.join(2, 0);
        let none = Load {
            entries: 0,
            bytes: 0,
        };
        Ok(Ring {
            nodes,
            places: Vec::new(alloc),
            objects: 0,
            window: none,
            probation: none,
            protected: none,
        })
    }

    /// Makes room for one more of the objects that have a place.
    pub(crate) fn reserve(&mut self) -> Result<(), NoMemory>
        ensures same { self.new ≡ record self.old { room = self.new.room } }
        ensures space { OnOk result (HasSpace self.new) }
    {
        let nodes = self.len() as usize + MORE;
        self.nodes.reserve(nodes)?;
        Ok(())
    }

    /// Gives objects numbered below this a place, and makes room for one more.
    pub(crate) fn grow(&mut self, alloc: Global, objects: u32) -> Result<(), NoMemory>
        requires more { self.old.objects ≤ objects }
        ensures ring { OnOk result (self.new ≡ record self.old { objects = objects; room = self.new.room }) }
        ensures same { OnErr result (self.new ≡ record self.old { room = self.new.room }) }
        ensures space { OnOk result (HasSpace self.new) }
    {
        let places = longer(alloc, &self.places, objects)?;
        let nodes = self.len() as usize + MORE;
        self.nodes.grow(objects, nodes)?;
        self.places = places;
        self.objects = objects;
        Ok(())
    }

    /// Where an object stands.
    #[inline(always)]
    pub(crate) fn place(&self, object: u32) -> u8
        ensures window { (result == WINDOW) ≡ has_entry self.now.segments.window object }
        ensures probation { (result == PROBATION) ≡ has_entry self.now.segments.main.probation object }
        ensures protected { (result == PROTECTED) ≡ has_entry self.now.segments.main.protected object }
        ensures known { 0 < result → object < self.now.objects }
    {
        place_at(&self.places, object)
    }

    /// Whether an object stands in one of the queues.
    #[inline(always)]
    pub(crate) fn holds(&self, object: u32) -> bool
        ensures there { result ≡ has_entry (segment_entries self.now.segments) object }
        ensures known { result ≡ true → object < self.now.objects }
    {
        let place = self.place(object);
        place == WINDOW || place == PROBATION || place == PROTECTED
    }

    /// The number of objects that there is room for.
    pub(crate) fn objects(&self) -> u32
        ensures { result ≡ self.now.objects }
    {
        self.objects
    }

    /// How many entries there are.
    pub(crate) fn len(&self) -> u64
        ensures len { result ≡ length (segment_entries self.now.segments) }
        ensures few { result ≤ 2 ^ 32 }
    {
        self.window.entries + self.probation.entries + self.protected.entries
    }

    /// The bytes of the window.
    pub(crate) fn window_bytes(&self) -> u64
        ensures { result ≡ used self.now.segments.window }
    {
        self.window.bytes
    }

    /// The bytes of the main part.
    pub(crate) fn main_bytes(&self) -> u64
        requires { main_used self.now.segments.main < 2 ^ 64 }
        ensures { result ≡ main_used self.now.segments.main }
    {
        self.probation.bytes + self.protected.bytes
    }

    /// The bytes of the protected objects.
    pub(crate) fn protected_bytes(&self) -> u64
        ensures { result ≡ used self.now.segments.main.protected }
    {
        self.protected.bytes
    }

    /// Whether an object is in the window.
    pub(crate) fn has_window(&self) -> bool
        ensures { result ≡ nat_lt 0 (length self.now.segments.window) }
    {
        self.window.entries > 0
    }

    /// Whether an object is on probation.
    pub(crate) fn has_probation(&self) -> bool
        ensures { result ≡ nat_lt 0 (length self.now.segments.main.probation) }
    {
        self.probation.entries > 0
    }

    /// How many objects are protected.
    pub(crate) fn protected_len(&self) -> u64
        ensures { result ≡ length self.now.segments.main.protected }
    {
        self.protected.entries
    }

    /// How many of the first objects of the main part have this many bytes, if together they were asked for less often than
    /// `count` times. It stops as soon as they weren't.
    pub(crate) fn victims(&self, counts: &Counts, bytes: u64, count: u8) -> Option<u64>
        requires counted { self.now.objects ≤ counts.now.objects }
        requires some { 0 < bytes }
        requires enough { bytes ≤ main_used self.now.segments.main }
        requires range { main_used self.now.segments.main ≤ 2 ^ 56 }
        ensures { MatchOption result (count ≤ count_of counts.now.frequencies.counts (first_with bytes (main_entries self.now))) (λ entries. DisplacesAll counts.now.frequencies.counts (first_with bytes (main_entries self.now)) count entries) }
    {
        let mark = self.objects + 2;
        let mut object = next_but(&self.nodes, self.objects + 1, mark);
        let mut entries = 0;
        let mut freed = 0;
        let mut sum = 0;
        while freed < bytes {
            sum += counts.count(object) as u64;
            if sum >= count as u64 {
                return None;
            }
            freed += self.nodes.get(object).size;
            entries += 1;
            object = next_but(&self.nodes, object, mark);
        }
        Some(entries)
    }

    /// Puts an object at the back of the window.
    pub(crate) fn push_window(&mut self, object: u32, size: u64)
        requires known { object < self.old.objects }
        requires absent { has_entry (segment_entries self.old.segments) object ≡ false }
        requires space { HasSpace self.old }
        requires fits { used self.old.segments.window + size < 2 ^ 64 }
        ensures { self.new ≡ with_window (self.old.segments.window ++ plain_entry object size ∷ []) self.old }
    {
        self.nodes.enter(object, size);
        put_before(&mut self.nodes, object, self.objects + 1);
        self.places[object as usize] = WINDOW;
        self.window.entries += 1;
        self.window.bytes += size;
    }

    /// Puts an object at the back of those on probation.
    pub(crate) fn push_probation(&mut self, object: u32, size: u64)
        requires known { object < self.old.objects }
        requires absent { has_entry (segment_entries self.old.segments) object ≡ false }
        requires space { HasSpace self.old }
        requires fits { used self.old.segments.main.probation + size < 2 ^ 64 }
        ensures { self.new ≡ with_probation (self.old.segments.main.probation ++ plain_entry object size ∷ []) self.old }
    {
        self.nodes.enter(object, size);
        put_before(&mut self.nodes, object, self.objects + 2);
        self.places[object as usize] = PROBATION;
        self.probation.entries += 1;
        self.probation.bytes += size;
    }

    /// Puts an object at the back of the protected ones.
    pub(crate) fn push_protected(&mut self, object: u32, size: u64)
        requires known { object < self.old.objects }
        requires absent { has_entry (segment_entries self.old.segments) object ≡ false }
        requires space { HasSpace self.old }
        requires fits { used self.old.segments.main.protected + size < 2 ^ 64 }
        ensures { self.new ≡ with_protected (self.old.segments.main.protected ++ plain_entry object size ∷ []) self.old }
    {
        self.nodes.enter(object, size);
        put_before(&mut self.nodes, object, self.objects);
        self.places[object as usize] = PROTECTED;
        self.protected.entries += 1;
        self.protected.bytes += size;
    }

    /// Takes an object out of the window, and says its size.
    pub(crate) fn take_window(&mut self, object: u32) -> u64
        requires there { has_entry self.old.segments.window object ≡ true }
        ensures rest { self.new ≡ with_window (without_entry object self.old.segments.window) self.old }
        ensures size { entry_of object self.old.segments.window ≡ plain_entry object result ∷ [] }
        ensures absent { has_entry (segment_entries self.new.segments) object ≡ false }
        ensures known { object < self.old.objects }
        ensures space { HasSpace self.new }
    {
        let size = take_out(&mut self.nodes, object);
        self.places[object as usize] = NOWHERE;
        self.window.entries -= 1;
        self.window.bytes -= size;
        size
    }

    /// Takes an object out of those on probation, and says its size.
    pub(crate) fn take_probation(&mut self, object: u32) -> u64
        requires there { has_entry self.old.segments.main.probation object ≡ true }
        ensures rest { self.new ≡ with_probation (without_entry object self.old.segments.main.probation) self.old }
        ensures size { entry_of object self.old.segments.main.probation ≡ plain_entry object result ∷ [] }
        ensures absent { has_entry (segment_entries self.new.segments) object ≡ false }
        ensures known { object < self.old.objects }
        ensures space { HasSpace self.new }
    {
        let size = take_out(&mut self.nodes, object);
        self.places[object as usize] = NOWHERE;
        self.probation.entries -= 1;
        self.probation.bytes -= size;
        size
    }

    /// Takes an object out of the protected ones, and says its size.
    pub(crate) fn take_protected(&mut self, object: u32) -> u64
        requires there { has_entry self.old.segments.main.protected object ≡ true }
        ensures rest { self.new ≡ with_protected (without_entry object self.old.segments.main.protected) self.old }
        ensures size { entry_of object self.old.segments.main.protected ≡ plain_entry object result ∷ [] }
        ensures absent { has_entry (segment_entries self.new.segments) object ≡ false }
        ensures known { object < self.old.objects }
        ensures space { HasSpace self.new }
    {
        let size = take_out(&mut self.nodes, object);
        self.places[object as usize] = NOWHERE;
        self.protected.entries -= 1;
        self.protected.bytes -= size;
        size
    }

    /// Takes the first object out of the window, and says its size.
    pub(crate) fn pop_window(&mut self) -> (u32, u64)
        requires some { 0 < length self.old.segments.window }
        ensures first { self.old.segments.window ≡ plain_entry result.0 result.1 ∷ self.new.segments.window }
        ensures rest { self.new ≡ with_window (drop 1 self.old.segments.window) self.old }
        ensures absent { has_entry (segment_entries self.new.segments) result.0 ≡ false }
        ensures known { result.0 < self.old.objects }
        ensures space { HasSpace self.new }
    {
        let object = self.nodes.get(self.objects).after;
        let size = self.take_window(object);
        (object, size)
    }

    /// Takes the first object out of those on probation, and says its size.
    pub(crate) fn pop_probation(&mut self) -> (u32, u64)
        requires some { 0 < length self.old.segments.main.probation }
        ensures first { self.old.segments.main.probation ≡ plain_entry result.0 result.1 ∷ self.new.segments.main.probation }
        ensures rest { self.new ≡ with_probation (drop 1 self.old.segments.main.probation) self.old }
        ensures absent { has_entry (segment_entries self.new.segments) result.0 ≡ false }
        ensures known { result.0 < self.old.objects }
        ensures space { HasSpace self.new }
    {
        let object = self.nodes.get(self.objects + 1).after;
        let size = self.take_probation(object);
        (object, size)
    }

    /// Takes the first object out of the protected ones, and says its size.
    pub(crate) fn pop_protected(&mut self) -> (u32, u64)
        requires some { 0 < length self.old.segments.main.protected }
        ensures first { self.old.segments.main.protected ≡ plain_entry result.0 result.1 ∷ self.new.segments.main.protected }
        ensures rest { self.new ≡ with_protected (drop 1 self.old.segments.main.protected) self.old }
        ensures absent { has_entry (segment_entries self.new.segments) result.0 ≡ false }
        ensures known { result.0 < self.old.objects }
        ensures space { HasSpace self.new }
    {
        let object = self.nodes.get(self.objects + 2).after;
        let size = self.take_protected(object);
        (object, size)
    }
}
