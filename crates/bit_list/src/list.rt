//! The list, and what is taken for it.
ghost use Rattle.std.specs.Prelude.{◌≡◌, ◌≤◌, ◌<◌, ◌*◌, ◌++◌, ◌∷◌, ◌==◌, [], ℕ, false, if◌then◌else◌, slice_index_or, OnOk};
ghost use Rattle.std.specs.Int.{bit_at};
ghost use Rattle.std.specs.Vec.{vec_len};

use std::alloc::{AllocError, Global};

// How many bits a word has.
const BITS: usize = 64;

/// Bits in order. The first has the place 0.
#[derive(Debug, Drop)]
pub struct BitList {
    words: Vec<u64>,
    len: usize,
    ghost within: { len ≤ 64 * vec_len words },
}

// A word with this bit at a place.
fn with_bit(word: u64, place: u32, bit: bool) -> u64
    requires { place < 64 }
    ensures { (i : ℕ) → i < 64 → bit_at result i ≡ (if i == place then (if bit then 1 else 0) else bit_at word i) }
{
    if bit {
        word | 1 << place
    } else {
        word & !(1 << place)
    }
}

impl BitList {
    ghost use Rattle.bit_list.specs.Bits.{bits_of, HasRoom};

    /// A list without bits. It takes no memory.
    pub fn new(alloc: Global) -> BitList
        ensures { bits_of result ≡ [] }
    {
        BitList {
            words: Vec::new(alloc),
            len: 0,
        }
    }

    /// Makes room for one more bit.
    pub fn make_room(&mut self) -> Result<(), AllocError>
        ensures bits { bits_of self.new ≡ bits_of self.old }
        ensures room { OnOk result (HasRoom self.new) }
    {
        if self.len == usize::MAX {
            return Err(AllocError);
        }
        if self.len / BITS == self.words.len() {
            self.words.push(0)?;
        }
        Ok(())
    }

    /// Appends a bit, for which there is room.
    pub fn push_reserved(&mut self, bit: bool)
        requires room { HasRoom self.old }
        ensures bits { bits_of self.new ≡ bits_of self.old ++ bit ∷ [] }
    {
        let word = self.len / BITS;
        self.words[word] = with_bit(self.words[word], (self.len % BITS) as u32, bit);
        self.len += 1;
    }

    /// The bit at a place, which is false past the end.
    pub fn get(&self, place: usize) -> bool
        ensures bit { result ≡ slice_index_or (bits_of self.now) place false }
    {
        place < self.len && self.words[place / BITS] >> (place % BITS) & 1 == 1
    }
}
