//! A list of values by number, into which a value can be put without fail once there is room for it.
ghost use Rattle.std.specs.Prelude.{◌≡◌, ◌≢◌, ◌+◌, ◌-◌, ◌<◌, ◌≤◌, ◌++◌, [], length, min, replicate, slice_set, OnOk, OnErr};
ghost use Rattle.std.specs.Vec.{vec_capacity, vec_len};
ghost use Rattle.sparse_list.specs.Slots.{most_values, slot_at};

use crate::list::{Cell, place_of, reach, take_cell};
use bound_base::NoMemory;
use std::alloc::Global;
use std::marker::Model;

// The most values that a list has.
const MOST: usize = u32::MAX as usize;

/// Values by number, of which most are that for none, with room for some more.
///
/// It takes 4 bytes for each number up to the greatest that was reserved, and a cell for each value. Each call takes constant
/// time, amortized where it makes room.
#[derive(Drop)]
pub struct SlotList<X> {
    none: X,
    // For each number the place of its cell, counted from 1, or 0 for none.
    places: Vec<u32>,
    cells: Vec<Cell<X>>,
}

impl<X> Model for SlotList<X> {
    ghost use Rattle.sparse_list.specs.Sparse.{values_of, AreCells};
    ghost use Rattle.std.specs.Prelude.{min};
    ghost use Rattle.std.specs.Vec.{vec_capacity, vec_len};
    ghost use Rattle.sparse_list.specs.Slots.{Slots, most_values};

    ghost Value = { Slots X };

    ghost view = { λ l. record { none = l.none; items = values_of l.none l.cells.items l.places.items; count = vec_len l.cells; room = min (vec_capacity l.cells) most_values } };

    ghost invariant = { λ l. AreCells l.none l.cells.items l.places.items };
}

// Makes room for so many cells in all.
fn make_room<X>(cells: &mut Vec<Cell<X>>, values: usize) -> Result<(), NoMemory>
    ensures cells { cells.new.items ≡ cells.old.items }
    ensures len { vec_len cells.new ≡ vec_len cells.old }
    ensures capacity { vec_capacity cells.old ≤ vec_capacity cells.new }
    ensures room { OnOk result (values ≤ min (vec_capacity cells.new) most_values) }
{
    if values > MOST {
        return Err(NoMemory);
    }
    cells.reserve(values.saturating_sub(cells.len()))?;
    Ok(())
}

impl<X: Copy> SlotList<X> {
    /// Each number has this value. It takes no memory.
    pub fn new(alloc: Global, none: X) -> Self
        ensures none { result.none ≡ none }
        ensures items { result.items ≡ [] }
        ensures count { result.count ≡ 0 }
    {
        SlotList {
            none,
            places: Vec::new(alloc),
            cells: Vec::new(alloc),
        }
    }

    /// The value of a number.
    #[inline(always)]
    pub fn get(&self, number: u32) -> X
        ensures { result ≡ slot_at self.now number }
    {
        let place = place_of(&self.places, number);
        if place == 0 {
            return self.none;
        }
        self.cells[place as usize - 1].value
    }

    /// Changes the value of a number that has one other than that for none.
    #[inline(always)]
    pub fn change(&mut self, number: u32, value: X)
        requires there { slot_at self.old number ≢ self.old.none }
        ensures { self.new ≡ record self.old { items = slice_set self.old.items number value } }
    {
        let place = self.places[number as usize];
        self.cells[place as usize - 1].value = value;
    }

    /// Makes room for so many values in all, whose numbers are at most this.
    pub fn reserve(&mut self, number: u32, values: usize) -> Result<(), NoMemory>
        ensures reached { OnOk result (self.new.items ≡ self.old.items ++ replicate (number + 1 - length self.old.items) self.old.none) }
        ensures room { OnOk result (values ≤ self.new.room) }
        ensures stay { OnErr result (self.new.items ≡ self.old.items) }
        ensures none { self.new.none ≡ self.old.none }
        ensures count { self.new.count ≡ self.old.count }
        ensures wider { self.old.room ≤ self.new.room }
    {
        make_room(&mut self.cells, values)?;
        reach(&mut self.places, number)?;
        Ok(())
    }

    /// Puts the value of a number for which there is room.
    pub fn put(&mut self, number: u32, value: X)
        requires reached { number < length self.old.items }
        requires room { self.old.count < self.old.room }
        ensures items { self.new.items ≡ slice_set self.old.items number value }
        ensures none { self.new.none ≡ self.old.none }
        ensures count { self.new.count ≤ self.old.count + 1 }
        ensures room { self.new.room ≡ self.old.room }
    {
        let at = number as usize;
        let place = self.places[at];
        if place != 0 {
            self.cells[place as usize - 1].value = value;
            return;
        }
        self.places[at] = (self.cells.len() + 1) as u32;
        self.cells.push_reserved(Cell {
            owner: number,
            value,
        });
    }

    /// Takes the value of a number away that has one, so that it has that for none.
    pub fn remove(&mut self, number: u32)
        requires there { slot_at self.old number ≢ self.old.none }
        ensures items { self.new.items ≡ slice_set self.old.items number self.old.none }
        ensures none { self.new.none ≡ self.old.none }
        ensures count { self.new.count + 1 ≡ self.old.count }
        ensures room { self.new.room ≡ self.old.room }
    {
        let at = number as usize;
        let place = self.places[at];
        take_cell(self.none, &mut self.cells, &mut self.places, place);
        self.places[at] = 0;
    }
}
