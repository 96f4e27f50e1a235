//! A text in a buffer of fixed size.
ghost use Rattle.std.specs.Prelude.{◌≡◌, ◌+◌, ◌≤◌, List, ℕ, [], ◌∷◌, ◌++◌, codes, length, take};
ghost use Rattle.cache_model.specs.Texts.{line};

use itoa::{Buffer, Integer};
use std::marker::Model;

/// A text of at most `ROOM` bytes, which lie in the value itself.
#[derive(Drop)]
pub struct LineText<const ROOM: usize> {
    bytes: [u8; ROOM],
    len: usize,
}

impl<const ROOM: usize> Model for LineText<ROOM> {
    ghost Value = { List ℕ };

    ghost view = { λ t. take t.len t.bytes };

    ghost invariant = { λ t. t.len ≤ ROOM };
}

impl<const ROOM: usize> LineText<ROOM> {
    /// An empty text.
    pub fn new() -> Self
        ensures { result ≡ [] }
    {
        LineText {
            bytes: [0; ROOM],
            len: 0,
        }
    }

    /// Appends a piece.
    pub fn push(&mut self, piece: &[u8])
        requires { length self.old + length piece.now ≤ ROOM }
        ensures text { self.new ≡ self.old ++ piece.now }
        ensures len { length self.new ≡ length self.old + length piece.now }
    {
        let end = self.len + piece.len();
        let bytes = &mut self.bytes[..];
        bytes[self.len..end].copy_from_slice(piece);
        self.len = end;
    }

    /// Appends a number in decimal digits.
    pub fn push_number<N: Integer>(&mut self, number: N)
        requires { length self.old + N.MAX_STR_LEN ≤ ROOM }
        ensures text { self.new ≡ self.old ++ N.text number }
        ensures short { length self.new ≤ length self.old + N.MAX_STR_LEN }
    {
        let mut buffer = Buffer::new();
        self.push(buffer.format(number).as_bytes());
    }

    /// Appends a word and a number.
    pub fn push_entry<N: Integer>(&mut self, word: &[u8], number: N)
        requires { length self.old + length word.now + N.MAX_STR_LEN + 1 ≤ ROOM }
        ensures text { self.new ≡ self.old ++ (word.now ++ codes " " ++ N.text number) }
        ensures short { length self.new ≤ length self.old + length word.now + N.MAX_STR_LEN + 1 }
    {
        self.push(word);
        self.push(b" ");
        self.push_number(number);
    }

    /// Appends words and the end of their line.
    pub fn push_line(&mut self, words: &[u8])
        requires { length self.old + length words.now + 1 ≤ ROOM }
        ensures text { self.new ≡ self.old ++ line words.now }
        ensures len { length self.new ≡ length self.old + length words.now + 1 }
    {
        self.push(words);
        self.push(b"\n");
    }

    /// Appends a word, a number and the end of their line.
    pub fn push_entry_line<N: Integer>(&mut self, word: &[u8], number: N)
        requires { length self.old + length word.now + N.MAX_STR_LEN + 2 ≤ ROOM }
        ensures text { self.new ≡ self.old ++ line (word.now ++ codes " " ++ N.text number) }
        ensures short { length self.new ≤ length self.old + length word.now + N.MAX_STR_LEN + 2 }
    {
        self.push_entry(word, number);
        self.push(b"\n");
    }

    /// The bytes of the text.
    pub fn as_bytes(&self) -> &[u8]
        ensures text { result.now ≡ self.now }
        ensures short { length result.now ≤ ROOM }
    {
        &self.bytes[..self.len]
    }
}
