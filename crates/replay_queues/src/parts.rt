//! A small queue, a main queue and ghosts, in one line.
ghost use Rattle.std.specs.Prelude.{◌≡◌, ◌<◌, ◌≤◌, ◌+◌, ◌++◌, ◌∷◌, ◌==◌, [], true, false, if◌then◌else◌, length, drop, IfOk, IfSome, OnOk, OnErr, OnSome, MatchOption};
ghost use Rattle.policy_model.specs.States.{member, has_member};
ghost use Rattle.replay_queues.specs.ThreeParts.{has_part, parts_without, parts_size, no_members, begin_but, parts_count, HasPlace};

use crate::line::Line;
use crate::table::Table;
use bound_base::NoMemory;
use std::alloc::Global;
use std::marker::Model;

// The byte of an object that is not in the small queue, and of one that is.
const ELSEWHERE: u8 = 0;

const SMALL: u8 = 1;

/// The small queue, the main queue and the ghosts, each from its front.
///
/// They stand one after another in one line, in which an object is at most once.
#[derive(Drop)]
pub(crate) struct Parts {
    line: Line,
    // The first object after the small queue, and the first ghost, or the number for none.
    main: u32,
    ghosts: u32,
    places: Table,
}

impl Model for Parts {
    ghost use Rattle.replay_queues.specs.ThreeParts.{Parted};

    ghost Value = { Parted };

    ghost use Rattle.replay_queues.specs.ThreeParts.{parts_of, IsParts};

    ghost view = { λ p. parts_of p.line p.main p.ghosts };

    ghost invariant = { λ p. IsParts p.line p.main p.ghosts p.places };
}

// Where a part of a line begins once an object has left.
#[inline(always)]
fn begin_without(line: &Line, first: u32, object: u32) -> u32
    requires there { has_member line.now.members object ≡ true }
    ensures { result ≡ begin_but line.now first object }
{
    if first == object {
        line.after(object)
    } else {
        first
    }
}

// Where a part of a line begins once an object has come in at its end, before `next`, or is the number for none.
#[inline(always)]
fn begin_with(first: u32, next: u32, object: u32) -> u32
    ensures { result ≡ (if first == next then object else first) }
{
    if first == next { object } else { first }
}

impl Parts {
    /// Empty, with a place for no object.
    pub(crate) fn new(alloc: Global) -> Result<Self, NoMemory>
        ensures objects { IfOk result (λ parts. parts.objects ≡ 0) }
        ensures small { IfOk result (λ parts. parts.small ≡ []) }
        ensures main { IfOk result (λ parts. parts.main ≡ []) }
        ensures ghosts { IfOk result (λ parts. parts.ghosts ≡ []) }
    {
        let places = Table::new(alloc, 0)?;
        Ok(Parts {
            line: Line::new(alloc)?,
            main: 0,
            ghosts: 0,
            places,
        })
    }

    /// The number of objects that have a place.
    pub(crate) fn objects(&self) -> u32
        ensures { result ≡ self.now.objects }
    {
        self.line.none()
    }

    /// Makes room for one more of the objects that have a place.
    pub(crate) fn reserve(&mut self) -> Result<(), NoMemory>
        ensures same { self.new ≡ record self.old { room = self.new.room } }
        ensures space { OnOk result (HasPlace self.new) }
    {
        self.line.reserve()?;
        Ok(())
    }

    /// Gives objects numbered below this a place, and makes room for one more.
    pub(crate) fn grow(&mut self, alloc: Global, objects: u32) -> Result<(), NoMemory>
        requires more { self.old.objects ≤ objects }
        ensures grown { OnOk result (self.new ≡ record self.old { objects = objects; room = self.new.room }) }
        ensures same { OnErr result (self.new ≡ record self.old { room = self.new.room }) }
        ensures space { OnOk result (HasPlace self.new) }
    {
        let places = self.places.with_objects(alloc, objects)?;
        let none = self.line.none();
        self.line.grow(objects)?;
        self.main = begin_with(self.main, none, objects);
        self.ghosts = begin_with(self.ghosts, none, objects);
        self.places = places;
        Ok(())
    }

    /// Whether the small queue is empty.
    pub(crate) fn no_small(&self) -> bool
        ensures { result ≡ no_members self.now.small }
    {
        self.line.first() == self.main
    }

    /// Whether the main queue is empty.
    pub(crate) fn no_main(&self) -> bool
        ensures { result ≡ no_members self.now.main }
    {
        self.main == self.ghosts
    }

    /// Whether an object is in the small queue.
    pub(crate) fn is_small(&self, object: u32) -> bool
        ensures { result ≡ has_member self.now.small object }
    {
        self.places.get(object) == SMALL
    }

    /// Puts an object at the back of the small queue.
    pub(crate) fn push_small(&mut self, object: u32, size: u64)
        requires known { object < self.old.objects }
        requires absent { has_part self.old object ≡ false }
        requires space { HasPlace self.old }
        ensures { self.new ≡ record self.old { small = self.old.small ++ member object size ∷ [] } }
    {
        self.line.put(object, size, self.main);
        self.places.set(object, SMALL);
    }

    /// Puts an object at the back of the main queue.
    pub(crate) fn push_main(&mut self, object: u32, size: u64)
        requires known { object < self.old.objects }
        requires absent { has_part self.old object ≡ false }
        requires space { HasPlace self.old }
        ensures { self.new ≡ record self.old { main = self.old.main ++ member object size ∷ [] } }
    {
        self.line.put(object, size, self.ghosts);
        self.main = begin_with(self.main, self.ghosts, object);
    }

    /// Puts an object at the back of the ghosts.
    pub(crate) fn push_ghost(&mut self, object: u32, size: u64)
        requires known { object < self.old.objects }
        requires absent { has_part self.old object ≡ false }
        requires space { HasPlace self.old }
        ensures { self.new ≡ record self.old { ghosts = self.old.ghosts ++ member object size ∷ [] } }
    {
        let none = self.line.none();
        self.line.put(object, size, none);
        self.main = begin_with(self.main, none, object);
        self.ghosts = begin_with(self.ghosts, none, object);
    }

    /// Takes an object out, wherever it stands, and says its size.
    pub(crate) fn remove(&mut self, object: u32) -> u64
        requires there { has_part self.old object ≡ true }
        ensures rest { self.new ≡ parts_without object self.old }
        ensures size { parts_size self.new + result ≡ parts_size self.old }
        ensures known { object < self.new.objects }
        ensures count { parts_count self.new + 1 ≡ parts_count self.old }
        ensures space { HasPlace self.new }
    {
        self.main = begin_without(&self.line, self.main, object);
        self.ghosts = begin_without(&self.line, self.ghosts, object);
        let size = self.line.remove(object);
        self.places.set(object, ELSEWHERE);
        size
    }

    /// Takes the first object out of the small queue, if there is one.
    pub(crate) fn pop_small(&mut self) -> Option<(u32, u64)>
        ensures first { MatchOption result (self.old.small ≡ []) (λ p. self.old.small ≡ member p.0 p.1 ∷ self.new.small) }
        ensures rest { self.new ≡ record self.old { small = drop 1 self.old.small } }
        ensures absent { IfSome result (λ p. has_part self.new p.0 ≡ false) }
        ensures known { IfSome result (λ p. p.0 < self.new.objects) }
        ensures count { OnSome result (parts_count self.new + 1 ≡ parts_count self.old) }
        ensures space { OnSome result (HasPlace self.new) }
    {
        if self.no_small() {
            return None;
        }
        let object = self.line.first();
        Some((object, self.remove(object)))
    }

    /// Takes the first object out of the main queue, if there is one.
    pub(crate) fn pop_main(&mut self) -> Option<(u32, u64)>
        ensures first { MatchOption result (self.old.main ≡ []) (λ p. self.old.main ≡ member p.0 p.1 ∷ self.new.main) }
        ensures rest { self.new ≡ record self.old { main = drop 1 self.old.main } }
        ensures absent { IfSome result (λ p. has_part self.new p.0 ≡ false) }
        ensures known { IfSome result (λ p. p.0 < self.new.objects) }
        ensures count { OnSome result (parts_count self.new + 1 ≡ parts_count self.old) }
        ensures space { OnSome result (HasPlace self.new) }
    {
        if self.no_main() {
            return None;
        }
        let object = self.main;
        Some((object, self.remove(object)))
    }

    /// Takes the first ghost out.
    pub(crate) fn pop_ghost(&mut self) -> (u32, u64)
        requires some { 0 < length self.old.ghosts }
        ensures first { self.old.ghosts ≡ member result.0 result.1 ∷ self.new.ghosts }
        ensures rest { self.new ≡ record self.old { ghosts = drop 1 self.old.ghosts } }
        ensures absent { has_part self.new result.0 ≡ false }
        ensures known { result.0 < self.new.objects }
        ensures count { parts_count self.new + 1 ≡ parts_count self.old }
        ensures space { HasPlace self.new }
    {
        let object = self.ghosts;
        let size = self.remove(object);
        (object, size)
    }
}
