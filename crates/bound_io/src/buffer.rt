//! The bytes that a reader of lines holds.
ghost use Rattle.std.specs.Prelude.{◌≡◌, ◌-◌, ◌≤◌, ◌<◌, ◌⊎◌, List, ℕ, [], length, take, drop, IfOk, OnOk, OnErr, vec_len};
ghost use Rattle.std.specs.Io.KnownBytes.{IsAtEnd, Keeps};
ghost use Rattle.bound_io.specs.Causes.{HasCause};
ghost use Rattle.bound_io.specs.Devices.{IsUntouched, seen};
ghost use Rattle.bound_io.specs.Lines.{stands_in, text_len};
ghost use Rattle.bound_io.specs.Reading.{LosesPrefix, ReadsOn};

use crate::device::{Failed, Source};
use bound_base::NoMemory;
use memchr::memchr;
use std::alloc::{AllocError, Global};
use std::marker::Model;

/// How many bytes a buffer has room for: the longest text of a line, and its LF.
const ROOM: usize = 65536;

/// Bytes that were taken from a source, in a buffer of 65,536 bytes.
#[derive(Drop)]
pub(crate) struct Buffer {
    bytes: Vec<u8>,
    start: usize,
    end: usize,
}

impl Model for Buffer {
    ghost Value = { List ℕ };

    ghost view = { λ b. take (b.end - b.start) (drop b.start b.bytes.items) };

    ghost invariant = { λ b. (b.start ≤ b.end) × (b.end ≤ 65536) × (vec_len b.bytes ≡ 65536) };
}

// Zeros, of this number.
fn zeros(alloc: Global, count: usize) -> Result<Vec<u8>, AllocError>
    ensures { IfOk result (λ bytes. vec_len bytes ≡ count) }
{
    vec![in alloc; 0; count]
}

// How many bytes stand before the first LF, or in all where there is none.
fn text_len(bytes: &[u8]) -> usize
    ensures { result ≡ text_len bytes.now }
{
    memchr(b'\n', bytes).unwrap_or(bytes.len())
}

// Moves the bytes from `start` up to `end` to the beginning, and says how many they are.
fn move_to_front(bytes: &mut Vec<u8>, start: usize, end: usize) -> usize
    requires start { start ≤ end }
    requires end { end ≤ vec_len bytes.old }
    ensures count { result ≡ end - start }
    ensures moved { take (end - start) bytes.new.items ≡ take (end - start) (drop start bytes.old.items) }
    ensures len { vec_len bytes.new ≡ vec_len bytes.old }
{
    let count = end - start;
    if count <= start {
        let (front, held) = bytes.split_at_mut(start);
        front[..count].copy_from_slice(&held[..count]);
    } else if start > 0 {
        bytes.copy_within(start..end, 0);
    }
    count
}

impl Buffer {
    ghost use Rattle.bound_io.specs.contracts.buffer.Buffer.{the_row};
    ghost use Rattle.std.specs.Io.BufRead.{Rests};
    ghost use Rattle.std.specs.Borrow.{sem};

    /// An empty buffer, which takes all its memory here.
    pub fn new(alloc: Global) -> Result<Self, NoMemory>
        ensures { IfOk result (λ buffer. buffer ≡ []) }
    {
        Ok(Buffer {
            bytes: zeros(alloc, ROOM)?,
            start: 0,
            end: 0,
        })
    }

    /// The bytes that are held.
    pub fn bytes(&self) -> &[u8]
        ensures bytes { result.now ≡ self.now }
        ensures short { length result.now ≤ 65536 }
    {
        &self.bytes[self.start..self.end]
    }

    /// How many bytes are held.
    pub fn len(&self) -> usize
        ensures len { result ≡ length self.now }
        ensures short { result ≤ 65536 }
    {
        self.end - self.start
    }

    // Reads once, and says how many bytes came.
    #[inline(never)]
    fn fill<S: Source>(&mut self, source: &mut S) -> Result<usize, Failed>
        requires room { length self.old < 65536 }
        ensures bytes { ReadsOn (S.left source.old) (S.left source.new) self.old self.new result }
        ensures kept { OnErr result ((self.new ≡ self.old) × Keeps (S.left source.old) (S.left source.new)) }
        ensures cause { HasCause (S.faults source.old) (S.faults source.new) result }
        ensures none_failed { OnOk result (S.faults source.new ≡ S.faults source.old) }
    {
        self.end = move_to_front(&mut self.bytes, self.start, self.end);
        self.start = 0;
        let count = source.read(&mut self.bytes[self.end..])?;
        self.end += count;
        Ok(count)
    }

    /// Reads on until the first line stands in the buffer, fills it or ends with the source, and gives the length of
    /// its text, as far as that is held. Searches each byte once.
    pub fn find_text<S: Source>(&mut self, source: &mut S) -> Result<usize, Failed>
        ensures text { IfOk result (λ n. n ≡ text_len self.new) }
        ensures whole { IfOk result (λ n. n < length self.new ⊎ ((length self.new ≡ 65536) ⊎ IsAtEnd (S.left source.new))) }
        ensures kept { Keeps (stands_in self.old (S.left source.old)) (stands_in self.new (S.left source.new)) }
        ensures room { length self.new ≤ 65536 }
        ensures source { LosesPrefix (S.left source.old) (S.left source.new) }
        ensures cause { HasCause (S.faults source.old) (S.faults source.new) result }
        ensures none_failed { OnOk result (S.faults source.new ≡ S.faults source.old) }
        ensures untouched { text_len self.old < length self.old → IsUntouched (seen S.left S.faults source.old source.new) }
    {
        let mut seen = 0;
        loop {
            seen += text_len(&self.bytes()[seen..]);
            if seen < self.len() || self.len() == ROOM {
                return Ok(seen);
            }
            if self.fill(source)? == 0 {
                return Ok(seen);
            }
        }
    }

    /// Reads on until this many bytes are held, or the source ends.
    pub fn hold<S: Source>(&mut self, source: &mut S, count: usize) -> Result<(), Failed>
        requires { count ≤ 65536 }
        ensures held { IfOk result (λ _. count ≤ length self.new ⊎ IsAtEnd (S.left source.new)) }
        ensures kept { Keeps (stands_in self.old (S.left source.old)) (stands_in self.new (S.left source.new)) }
        ensures room { length self.new ≤ 65536 }
        ensures source { LosesPrefix (S.left source.old) (S.left source.new) }
        ensures cause { HasCause (S.faults source.old) (S.faults source.new) result }
        ensures none_failed { OnOk result (S.faults source.new ≡ S.faults source.old) }
        ensures untouched { count ≤ length self.old → IsUntouched (seen S.left S.faults source.old source.new) }
    {
        while self.len() < count {
            if self.fill(source)? == 0 {
                return Ok(());
            }
        }
        Ok(())
    }

    /// Lends the first `text` bytes, and gives up the first `line`.
    pub fn give(&mut self, text: usize, line: usize) -> &[u8]
        requires text { text ≤ line }
        requires line { line ≤ length self.old }
        ensures text { result.now ≡ take text self.old }
        ensures* after { sem 𝓛 (Rests the_row self.entry (λ new. new ≡ drop line self.old)) }
    {
        let start = self.start;
        self.start = start + line;
        &self.bytes[start..start + text]
    }
}
