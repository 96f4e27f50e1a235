//! The list, as a place for each number and cells at the places.
ghost use Rattle.std.specs.Prelude.{◌≡◌, ◌≢◌, ◌+◌, ◌-◌, ◌<◌, ◌≤◌, ◌++◌, ◌∷◌, [], length, replicate, slice_set, OnOk, OnErr};
ghost use Rattle.std.specs.Vec.{vec_capacity, vec_len};
ghost use Rattle.sparse_list.specs.Sparse.{cells_without, item_at, last_cell, place_at, up_to};

use bound_base::NoMemory;
use std::alloc::Global;
use std::marker::Model;

// A value, and the number that it is of.
#[derive(Clone, Copy)]
pub(crate) struct Cell<X> {
    pub(crate) owner: u32,
    pub(crate) value: X,
}

/// Values by number, of which most are that for none. A number for which no value was put has that one.
///
/// Each call takes constant time, amortized where it makes room.
#[derive(Drop)]
pub struct SparseList<X> {
    none: X,
    // For each number the place of its cell, counted from 1, or 0 for none.
    places: Vec<u32>,
    cells: Vec<Cell<X>>,
}

impl<X> Model for SparseList<X> {
    ghost use Rattle.sparse_list.specs.Sparse.{Sparse, values_of, AreCells};

    ghost Value = { Sparse X };

    ghost view = { λ l. record { none = l.none; items = values_of l.none l.cells.items l.places.items } };

    ghost invariant = { λ l. AreCells l.none l.cells.items l.places.items };
}

// The place of a number, which is 0 for none.
#[inline(always)]
pub(crate) fn place_of(places: &Vec<u32>, number: u32) -> u32
    ensures { result ≡ place_at places.now.items number }
{
    if (number as usize) < places.len() {
        places[number as usize]
    } else {
        0
    }
}

// Makes places up to that of a number.
pub(crate) fn reach(places: &mut Vec<u32>, number: u32) -> Result<(), NoMemory>
    ensures reached { OnOk result (places.new.items ≡ places.old.items ++ replicate (number + 1 - length places.old.items) 0) }
    ensures stays { OnErr result (places.new.items ≡ places.old.items) }
{
    let needed = number as usize + 1;
    if places.len() < needed {
        places.resize(needed, 0)?;
    }
    Ok(())
}

// Adds a cell for a number that has none.
fn add_cell<X: Copy>(
    cells: &mut Vec<Cell<X>>,
    places: &mut Vec<u32>,
    number: u32,
    value: X,
) -> Result<(), NoMemory>
    requires none { place_at places.old.items number ≡ 0 }
    ensures cells { OnOk result (cells.new.items ≡ cells.old.items ++ record { owner = number; value = value } ∷ []) }
    ensures places { OnOk result (places.new.items ≡ slice_set (places.old.items ++ replicate (number + 1 - length places.old.items) 0) number (length cells.old.items + 1)) }
    ensures cells_stay { OnErr result (cells.new.items ≡ cells.old.items) }
    ensures places_stay { OnErr result (places.new.items ≡ places.old.items) }
{
    let place = u32::try_from(cells.len() + 1).map_err(|_| NoMemory)?;
    cells.reserve(1)?;
    reach(places, number)?;
    cells.push_reserved(Cell {
        owner: number,
        value,
    });
    places[number as usize] = place;
    Ok(())
}

// Takes the cell at a place away, into which the last one moves.
pub(crate) fn take_cell<X: Copy>(
    none: X,
    cells: &mut Vec<Cell<X>>,
    places: &mut Vec<u32>,
    place: u32,
)
    requires there { (0 < place) × (place ≤ length cells.old.items) }
    requires placed { (last_cell none cells.old.items).owner < length places.old.items }
    ensures cells { cells.new.items ≡ cells_without none (place - 1) cells.old.items }
    ensures places { places.new.items ≡ slice_set places.old.items (last_cell none cells.old.items).owner place }
    ensures len { vec_len cells.new + 1 ≡ vec_len cells.old }
    ensures capacity { vec_capacity cells.new ≡ vec_capacity cells.old }
{
    let Some(last) = cells.pop() else {
        return;
    };
    places[last.owner as usize] = place;
    let at = place as usize - 1;
    if at < cells.len() {
        cells[at] = last;
    }
}

impl<X: Copy> SparseList<X> {
    /// Each number has this value. It takes no memory.
    pub fn new(alloc: Global, none: X) -> Self
        ensures { result ≡ record { none = none; items = [] } }
    {
        SparseList {
            none,
            places: Vec::new(alloc),
            cells: Vec::new(alloc),
        }
    }

    /// The value of a number.
    #[inline(always)]
    pub fn get(&self, number: u32) -> X
        ensures { result ≡ item_at self.now number }
    {
        let place = place_of(&self.places, number);
        if place == 0 {
            return self.none;
        }
        self.cells[place as usize - 1].value
    }

    /// Changes the value of a number that has one other than that for none.
    #[inline(always)]
    pub fn change(&mut self, number: u32, value: X)
        requires there { item_at self.old number ≢ self.old.none }
        ensures { self.new ≡ record self.old { items = slice_set self.old.items number value } }
    {
        let place = self.places[number as usize];
        self.cells[place as usize - 1].value = value;
    }

    /// Puts the value of a number.
    pub fn put(&mut self, number: u32, value: X) -> Result<(), NoMemory>
        ensures put { OnOk result (self.new ≡ record self.old { items = slice_set (up_to number self.old) number value }) }
        ensures stays { OnErr result (self.new ≡ self.old) }
    {
        let place = place_of(&self.places, number);
        if place == 0 {
            add_cell(&mut self.cells, &mut self.places, number, value)?;
            return Ok(());
        }
        self.cells[place as usize - 1].value = value;
        Ok(())
    }

    /// Takes the value of a number away, so that it has that for none.
    pub fn remove(&mut self, number: u32)
        ensures { self.new ≡ record self.old { items = slice_set self.old.items number self.old.none } }
    {
        let place = place_of(&self.places, number);
        if place == 0 {
            return;
        }
        take_cell(self.none, &mut self.cells, &mut self.places, place);
        self.places[number as usize] = 0;
    }
}
