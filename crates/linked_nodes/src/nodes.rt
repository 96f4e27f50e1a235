//! Nodes by number, in slots.
ghost use Rattle.std.specs.Prelude.{◌≡◌, ◌+◌, ◌-◌, ◌<◌, ◌≤◌, ◌^◌, ◌∷◌, [], length, IfOk, OnOk, OnErr};
ghost use Rattle.linked_nodes.specs.Nodes.{alone, node_at, Enters, Grows, IsThere, Joins, Leaves};
ghost use Rattle.linked_nodes.specs.Slotted.{number_at, slot_of};

use bound_base::NoMemory;
use sparse_list::SlotList;
use std::alloc::Global;
use std::marker::Model;

// How many marks there are.
const MARKS: u32 = 3;

// The most objects.
const MOST: u32 = 1 << 31;

// What stands in a slot without a node.
const NO_NODE: Node = Node {
    before: u32::MAX,
    after: u32::MAX,
    size: 0,
};

/// The neighbours of an object in its queue, and its size.
#[derive(Clone, Copy)]
pub struct Node {
    pub before: u32,
    pub after: u32,
    pub size: u64,
}

/// Nodes by number: those of the objects that came in, and of three marks, whose numbers are the three above those of all
/// objects for which there is room.
///
/// Each call takes constant time, amortized where it makes room.
#[derive(Drop)]
pub struct Nodes {
    objects: u32,
    // The marks and then the objects, so that no slot changes when there is room for more. Neighbours are slots too.
    slots: SlotList<Node>,
}

impl Model for Nodes {
    ghost use Rattle.linked_nodes.specs.Nodes.{Noded};
    ghost use Rattle.linked_nodes.specs.Slotted.{nodes_by, AreSlotted};

    ghost Value = { Noded };

    ghost view = { λ n. record { list = nodes_by n.objects n.slots.items; count = n.slots.count; room = n.slots.room } };

    ghost invariant = { λ n. AreSlotted n.objects n.slots };
}

// The slot of a number.
#[inline(always)]
fn slot_of(objects: u32, k: u32) -> u32
    requires few { objects ≤ 2 ^ 31 }
    requires known { k < objects + 3 }
    ensures { result ≡ slot_of objects k }
{
    if k < objects { k + MARKS } else { k - objects }
}

// The number of what stands in a slot.
#[inline(always)]
fn number_at(objects: u32, slot: u32) -> u32
    requires few { objects ≤ 2 ^ 31 }
    ensures { result ≡ number_at objects slot }
{
    if slot < MARKS {
        objects + slot
    } else if slot < objects + MARKS {
        slot - MARKS
    } else {
        slot
    }
}

// A node in a slot that is linked to itself.
fn alone(slot: u32) -> Node
    ensures { result ≡ alone slot }
{
    Node {
        before: slot,
        after: slot,
        size: 0,
    }
}

impl Nodes {
    /// The three marks, each linked to itself, and no object.
    pub fn new(alloc: Global) -> Result<Self, NoMemory>
        ensures marks { IfOk result (λ nodes. nodes.list ≡ alone 0 ∷ alone 1 ∷ alone 2 ∷ []) }
        ensures count { IfOk result (λ nodes. nodes.count ≤ 3) }
        ensures room { IfOk result (λ nodes. 3 ≤ nodes.room) }
    {
        let mut slots = SlotList::new(alloc, NO_NODE);
        slots.reserve(2, 3)?;
        slots.put(0, alone(0));
        slots.put(1, alone(1));
        slots.put(2, alone(2));
        Ok(Nodes { objects: 0, slots })
    }

    /// The number of objects for which there is room, which is that of the first mark.
    #[inline(always)]
    pub fn objects(&self) -> u32
        ensures is { length self.now.list ≡ result + 3 }
        ensures few { result ≤ 2 ^ 31 }
    {
        self.objects
    }

    /// The node of a number.
    #[inline(always)]
    pub fn get(&self, k: u32) -> Node
        requires known { k < length self.now.list }
        ensures { result ≡ node_at self.now.list k }
    {
        let node = self.slots.get(slot_of(self.objects, k));
        Node {
            before: number_at(self.objects, node.before),
            after: number_at(self.objects, node.after),
            size: node.size,
        }
    }

    /// Lets one node follow another.
    #[inline(always)]
    pub fn join(&mut self, before: u32, after: u32)
        requires before { IsThere self.old.list before }
        requires after { IsThere self.old.list after }
        ensures joined { Joins self.old.list self.new.list before after }
        ensures count { self.new.count ≡ self.old.count }
        ensures room { self.new.room ≡ self.old.room }
    {
        let first = slot_of(self.objects, before);
        let second = slot_of(self.objects, after);
        let mut node = self.slots.get(first);
        node.after = second;
        self.slots.change(first, node);
        let mut node = self.slots.get(second);
        node.before = first;
        self.slots.change(second, node);
    }

    /// Makes room for so many nodes in all, without more objects.
    pub fn reserve(&mut self, nodes: usize) -> Result<(), NoMemory>
        ensures list { self.new.list ≡ self.old.list }
        ensures space { OnOk result (nodes ≤ self.new.room) }
        ensures count { self.new.count ≡ self.old.count }
        ensures room { self.old.room ≤ self.new.room }
    {
        self.slots.reserve(0, nodes)
    }

    /// Makes room for objects numbered below this, and for so many nodes in all. At most 2^31 objects have room.
    pub fn grow(&mut self, objects: u32, nodes: usize) -> Result<(), NoMemory>
        requires more { length self.old.list ≤ objects + 3 }
        ensures grown { OnOk result (Grows self.old.list self.new.list (length self.old.list - 3) objects) }
        ensures stays { OnErr result (self.new.list ≡ self.old.list) }
        ensures few { OnOk result (objects ≤ 2 ^ 31) }
        ensures space { OnOk result (nodes ≤ self.new.room) }
        ensures count { self.new.count ≡ self.old.count }
        ensures room { self.old.room ≤ self.new.room }
    {
        if objects > MOST {
            return Err(NoMemory);
        }
        self.slots.reserve(objects + 2, nodes)?;
        self.objects = objects;
        Ok(())
    }

    /// Puts the node of an object, which is linked to itself.
    pub fn enter(&mut self, object: u32, size: u64)
        requires known { object + 3 < length self.old.list }
        requires space { self.old.count < self.old.room }
        ensures entered { Enters self.old.list self.new.list object size }
        ensures count { self.new.count ≤ self.old.count + 1 }
        ensures room { self.new.room ≡ self.old.room }
    {
        let slot = slot_of(self.objects, object);
        self.slots.put(
            slot,
            Node {
                before: slot,
                after: slot,
                size,
            },
        );
    }

    /// Takes the node of an object away.
    pub fn leave(&mut self, object: u32)
        requires known { object + 3 < length self.old.list }
        requires there { IsThere self.old.list object }
        ensures left { Leaves self.old.list self.new.list object }
        ensures count { self.new.count + 1 ≡ self.old.count }
        ensures room { self.new.room ≡ self.old.room }
    {
        self.slots.remove(slot_of(self.objects, object));
    }
}
