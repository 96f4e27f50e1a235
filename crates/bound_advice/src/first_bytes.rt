//! The first bytes of those that come piece by piece.
ghost use Rattle.std.specs.Prelude.{◌≡◌, ◌≤◌, ◌++◌, List, ℕ, [], length, min, take};

use std::marker::Model;

// How many bytes are kept. A report of bounds, of a check or of a replay has fewer.
const KEPT: usize = 1024;

/// The first 1,024 of the bytes that came.
#[derive(Drop)]
pub(crate) struct FirstBytes {
    bytes: [u8; KEPT],
    len: usize,
}

impl Model for FirstBytes {
    ghost Value = { List ℕ };

    ghost view = { λ s. take s.len s.bytes };

    ghost invariant = { λ s. s.len ≤ 1024 };
}

// Copies the first bytes of a piece into the room, as many as it takes, and says how many.
fn copy_start(piece: &[u8], room: &mut [u8]) -> usize
    ensures count { result ≡ min (length room.old) (length piece.now) }
    ensures copied { take result room.new ≡ take result piece.now }
    ensures len { length room.new ≡ length room.old }
{
    let count = room.len().min(piece.len());
    room[..count].copy_from_slice(&piece[..count]);
    count
}

impl FirstBytes {
    /// No byte came yet.
    pub(crate) fn new() -> Self
        ensures { result ≡ [] }
    {
        FirstBytes {
            bytes: [0; KEPT],
            len: 0,
        }
    }

    /// Keeps what still has room of a piece that came.
    pub(crate) fn keep(&mut self, piece: &[u8])
        ensures { self.new ≡ take 1024 (self.old ++ piece.now) }
    {
        let room = &mut self.bytes[self.len..];
        let count = copy_start(piece, room);
        self.len += count;
    }

    /// The bytes that are kept.
    pub(crate) fn as_slice(&self) -> &[u8]
        ensures { result.now ≡ self.now }
    {
        &self.bytes[..self.len]
    }
}
