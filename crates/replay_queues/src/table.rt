//! A byte for each object, by its number, which is 0 until it is changed.
ghost use Rattle.std.specs.Prelude.{◌≡◌, ◌<◌, ◌≤◌, ◌+◌, ◌-◌, ◌/◌, ◌++◌, IfOk, length, max, replicate, slice_index, slice_set};

use bound_base::NoMemory;
use std::alloc::Global;
use std::marker::Model;

/// How many objects to make room for once one came for which there is none: a quarter more than before, so that all the
/// copies take time in the number of the objects.
pub fn room_for(object: u32, before: u32, objects: u32) -> u32
    requires known { object < objects }
    requires more { before ≤ object }
    ensures there { object < result }
    ensures within { result ≤ objects }
    ensures few { result ≤ max (object + 1) (before + before / 4) }
{
    before
        .saturating_add(before / 4)
        .max(object + 1)
        .min(objects)
}

/// What is kept of each object, as one byte.
#[derive(Drop)]
pub(crate) struct Table {
    cells: Vec<u8>,
}

impl Model for Table {
    ghost use Rattle.std.specs.Prelude.{ℕ, List};

    ghost Value = { List ℕ };

    ghost view = { λ t. t.cells.items };
}

impl Table {
    /// A byte for each of this many objects, all of them 0.
    pub(crate) fn new(alloc: Global, objects: u32) -> Result<Self, NoMemory>
        ensures { IfOk result (λ table. table ≡ replicate objects 0) }
    {
        Ok(Table {
            cells: vec![in alloc; 0; objects as usize]?,
        })
    }

    /// The same bytes, with room for objects numbered below this.
    pub(crate) fn with_objects(&self, alloc: Global, objects: u32) -> Result<Self, NoMemory>
        requires more { length self.now ≤ objects }
        ensures { IfOk result (λ table. table ≡ self.now ++ replicate (objects - length self.now) 0) }
    {
        let mut cells = Vec::with_capacity(alloc, objects as usize)?;
        cells.extend_from_slice(&self.cells)?;
        cells.resize(objects as usize, 0)?;
        Ok(Table { cells })
    }

    /// The byte of an object, which is 0 if it has none.
    #[inline(always)]
    pub(crate) fn get(&self, object: u32) -> u8
        ensures { result ≡ slice_index self.now object }
    {
        self.cells.get(object as usize).copied().unwrap_or(0)
    }

    /// Changes the byte of an object.
    #[inline(always)]
    pub(crate) fn set(&mut self, object: u32, cell: u8)
        requires { object < length self.old }
        ensures { self.new ≡ slice_set self.old object cell }
    {
        self.cells[object as usize] = cell;
    }
}
