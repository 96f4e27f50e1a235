//! The first bytes that were read from a source.
ghost use Rattle.std.specs.Prelude.{◌≡◌, ◌≤◌, ◌++◌, List, ℕ, [], length, take};

use crate::prefix::copy_prefix;
use std::marker::Model;

// How many bytes are kept.
const KEPT: usize = 64;

/// The first 64 bytes that were read, to tell what kind of file a source is where its first line is refused.
pub(crate) struct Start {
    bytes: [u8; KEPT],
    len: usize,
}

impl Model for Start {
    ghost Value = { List ℕ };

    ghost view = { λ s. take s.len s.bytes };

    ghost invariant = { λ s. s.len ≤ 64 };
}

impl Start {
    // Nothing was read yet.
    pub(crate) fn new() -> Start
        ensures { result ≡ [] }
    {
        Start {
            bytes: [0; KEPT],
            len: 0,
        }
    }

    // Keeps what still has room of a piece that was read.
    pub(crate) fn keep(&mut self, piece: &[u8])
        ensures { self.new ≡ take 64 (self.old ++ piece.now) }
    {
        let room = &mut self.bytes[self.len..];
        let count = copy_prefix(piece, room, KEPT);
        self.len += count;
    }

    // The bytes that are kept.
    pub(crate) fn as_slice(&self) -> &[u8]
        ensures bytes { result.now ≡ self.now }
        ensures short { length result.now ≤ 64 }
    {
        &self.bytes[..self.len]
    }
}

impl Drop for Start {
    fn drop(self) {
        let Start { bytes: _, len: _ } = self;
    }
}
