//! What is held of each object, by the objects' numbers.
ghost use Rattle.std.specs.Prelude.{◌≡◌, ◌≤◌, [], IsSome, IfSome, OnOk, OnErr};
ghost use Rattle.std.specs.BTreeMap.{is_at, insert_entry};
ghost use Rattle.std.specs.List.Sorted.{IsStrictlySortedBy};
ghost use Rattle.std.specs.Map.{keys_of, lookup, remove_entry};
ghost use Rattle.std.specs.Ordering.{nat_cmp};
ghost use Rattle.replay_rank.specs.HeldPairs.{found_size};

use bound_base::NoMemory;
use sparse_list::SparseList;
use std::alloc::Global;
use std::marker::Model;

/// An object that is held: its size in bytes, and what its policy's rule goes by.
#[derive(Clone, Copy, Debug, PartialEq, Eq)]
pub(crate) struct Held<X> {
    pub(crate) size: u64,
    pub(crate) kept: X,
}

/// The objects that are held, by their numbers. It takes 4 bytes for each object up to the greatest that was put in, and a
/// cell for each that is held. A size of 0 stands for one that is not.
#[derive(Drop)]
pub(crate) struct Holdings<X> {
    cells: SparseList<Held<X>>,
}

impl<X> Model for Holdings<X> {
    ghost use Rattle.std.specs.Prelude.{◌≡◌, ℕ, List};
    ghost use Rattle.replay_rank.specs.declared.holdings.Held.{Held};

    ghost Value = { List (ℕ × Held X) };

    ghost use Rattle.replay_rank.specs.HeldPairs.{pairs_from};

    ghost view = { λ h. pairs_from 0 h.cells.items };

    ghost invariant = { λ h. h.cells.none.size ≡ 0 };
}

impl<X: Copy> Holdings<X> {
    /// It takes memory with the first object. What is kept of an object that is not held has no meaning.
    pub(crate) fn new(alloc: Global, kept: X) -> Self
        ensures { result ≡ [] }
    {
        Holdings {
            cells: SparseList::new(alloc, Held { size: 0, kept }),
        }
    }

    /// What is held of an object.
    pub(crate) fn get(&self, object: u32) -> Option<Held<X>>
        ensures found { result ≡ lookup (is_at (nat_cmp object)) self.now }
        ensures size { IfSome result (λ held. 1 ≤ held.size) }
        ensures is_ordered { IsStrictlySortedBy nat_cmp (keys_of self.now) }
    {
        let held = self.cells.get(object);
        if held.size == 0 {
            return None;
        }
        Some(held)
    }

    /// Puts in an object.
    pub(crate) fn put(&mut self, object: u32, held: Held<X>) -> Result<(), NoMemory>
        requires size { 1 ≤ held.size }
        ensures put { OnOk result (self.new ≡ insert_entry nat_cmp self.old object held) }
        ensures stays { OnErr result (self.new ≡ self.old) }
        ensures was_ordered { IsStrictlySortedBy nat_cmp (keys_of self.old) }
    {
        self.cells.put(object, held)?;
        Ok(())
    }

    /// Changes what is held of an object.
    pub(crate) fn renew(&mut self, object: u32, held: Held<X>)
        requires there { IsSome (lookup (is_at (nat_cmp object)) self.old) }
        requires size { 1 ≤ held.size }
        ensures renewed { self.new ≡ insert_entry nat_cmp self.old object held }
        ensures was_ordered { IsStrictlySortedBy nat_cmp (keys_of self.old) }
    {
        self.cells.change(object, held);
    }

    /// Gives up an object that is held.
    pub(crate) fn remove(&mut self, object: u32)
        requires there { IsSome (lookup (is_at (nat_cmp object)) self.old) }
        ensures { self.new ≡ remove_entry (is_at (nat_cmp object)) self.old }
    {
        self.cells.remove(object);
    }

    /// Lets go of an object, and says its size, or 0 if it isn't held.
    pub(crate) fn take(&mut self, object: u32) -> u64
        ensures rest { self.new ≡ remove_entry (is_at (nat_cmp object)) self.old }
        ensures size { result ≡ found_size (lookup (is_at (nat_cmp object)) self.old) }
    {
        let Some(held) = self.get(object) else {
            return 0;
        };
        self.remove(object);
        held.size
    }
}
