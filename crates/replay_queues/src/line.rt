//! Objects in a line, which any of them can leave.
ghost use Rattle.std.specs.Prelude.{◌≡◌, ◌<◌, ◌≤◌, ◌+◌, ◌++◌, ◌∷◌, [], length, true, false, drop, IfOk, OnOk, OnErr};
ghost use Rattle.policy_model.specs.Leaving.{without_member};
ghost use Rattle.policy_model.specs.States.{member, members_size, has_member};
ghost use Rattle.replay_queues.specs.Lines.{before_object, first_of, from_object, HasSpace};

use bound_base::NoMemory;
use linked_nodes::{Node, Nodes};
use std::alloc::Global;
use std::marker::Model;

// How many nodes there may be beside those of the objects: the marks, and one more.
const MORE: usize = 4;

/// Objects with their sizes, first to last.
///
/// It is a doubly linked list with a sentinel, the first mark of its nodes.
#[derive(Drop)]
pub(crate) struct Line {
    nodes: Nodes,
    objects: u32,
    count: u64,
}

impl Model for Line {
    ghost use Rattle.std.specs.Prelude.{◌-◌};
    ghost use Rattle.replay_queues.specs.Lines.{Lined};

    ghost Value = { Lined };

    ghost use Rattle.replay_queues.specs.Rings.{ring_members, IsLine};

    ghost view = { λ l. record { objects = l.objects; members = ring_members l.nodes.list l.objects l.count; room = l.nodes.room - 3 } };

    ghost invariant = { λ l. IsLine l.nodes l.objects l.count };
}

impl Line {
    /// Empty, with room for no object.
    pub(crate) fn new(alloc: Global) -> Result<Self, NoMemory>
        ensures objects { IfOk result (λ line. line.objects ≡ 0) }
        ensures members { IfOk result (λ line. line.members ≡ []) }
    {
        Ok(Line {
            nodes: Nodes::new(alloc)?,
            objects: 0,
            count: 0,
        })
    }

    /// Makes room for one more of the objects that have a place.
    pub(crate) fn reserve(&mut self) -> Result<(), NoMemory>
        ensures same { self.new ≡ record self.old { room = self.new.room } }
        ensures space { OnOk result (HasSpace self.new) }
    {
        let nodes = self.count as usize + MORE;
        self.nodes.reserve(nodes)?;
        Ok(())
    }

    /// Gives objects numbered below this a place, and makes room for one more.
    pub(crate) fn grow(&mut self, objects: u32) -> Result<(), NoMemory>
        requires more { self.old.objects ≤ objects }
        ensures line { OnOk result (self.new ≡ record self.old { objects = objects; room = self.new.room }) }
        ensures past { OnOk result (has_member self.old.members objects ≡ false) }
        ensures space { OnOk result (HasSpace self.new) }
        ensures same { OnErr result (self.new ≡ record self.old { room = self.new.room }) }
    {
        let nodes = self.count as usize + MORE;
        self.nodes.grow(objects, nodes)?;
        self.objects = objects;
        Ok(())
    }

    /// The number for none, which is above that of each object.
    #[inline(always)]
    pub(crate) fn none(&self) -> u32
        ensures { result ≡ self.now.objects }
    {
        self.objects
    }

    /// The first object, or the number for none.
    #[inline(always)]
    pub(crate) fn first(&self) -> u32
        ensures { result ≡ first_of self.now.objects self.now.members }
    {
        self.nodes.get(self.objects).after
    }

    /// The object after this one, or the number for none.
    #[inline(always)]
    pub(crate) fn after(&self, object: u32) -> u32
        requires there { has_member self.now.members object ≡ true }
        ensures { result ≡ first_of self.now.objects (drop 1 (from_object object self.now.members)) }
    {
        self.nodes.get(object).after
    }

    /// Puts an object before another, or at the back if the other is the number for none.
    pub(crate) fn put(&mut self, object: u32, size: u64, next: u32)
        requires within { object < self.old.objects }
        requires absent { has_member self.old.members object ≡ false }
        requires space { HasSpace self.old }
        requires next { next ≡ first_of self.old.objects (from_object next self.old.members) }
        ensures { self.new ≡ record self.old { members = before_object next self.old.members ++ member object size ∷ from_object next self.old.members } }
    {
        self.nodes.enter(object, size);
        let last = self.nodes.get(next).before;
        self.nodes.join(last, object);
        self.nodes.join(object, next);
        self.count += 1;
    }

    /// Takes an object out, wherever it stands, and says its size.
    pub(crate) fn remove(&mut self, object: u32) -> u64
        requires there { has_member self.old.members object ≡ true }
        ensures rest { self.new ≡ record self.old { members = without_member object self.old.members } }
        ensures size { members_size self.new.members + result ≡ members_size self.old.members }
        ensures known { object < self.old.objects }
        ensures count { length self.new.members + 1 ≡ length self.old.members }
        ensures space { HasSpace self.new }
    {
        let Node {
            before,
            after,
            size,
        } = self.nodes.get(object);
        self.nodes.join(before, after);
        self.nodes.leave(object);
        self.count -= 1;
        size
    }
}
