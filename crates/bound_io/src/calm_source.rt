//! A source in memory that never fails.
ghost use Rattle.std.specs.Prelude.{◌≡◌, ◌≤◌, Some, IsOk, IfOk, length, min, drop, vec_len};
ghost use Rattle.std.specs.Io.{ReadsAtMost};
ghost use Rattle.std.specs.Io.KnownBytes.{ReadConsumes};
ghost use Rattle.bound_io.specs.Causes.{HasCause};

use crate::device::{Failed, Source};
use crate::prefix::copy_prefix;

/// Gives as many bytes as fit, and never fails. Its count of faults is the constant 0, so a caller over it proves
/// that no fault of its source can be answered.
#[derive(Drop)]
pub struct CalmSource {
    bytes: Vec<u8>,
    at: usize,
    ghost in_range: { at ≤ vec_len bytes },
}

impl CalmSource {
    ghost use Rattle.bound_io.specs.CalmSource.{bytes_left};

    /// A source of these bytes.
    pub fn new(bytes: Vec<u8>) -> Self
        ensures { bytes_left result ≡ bytes.items }
    {
        CalmSource { bytes, at: 0 }
    }
}

impl Source for CalmSource {
    ghost use Rattle.bound_io.specs.CalmSource.{bytes_left};

    ghost left = { λ s. Some (drop s.at s.bytes.items) };

    ghost faults = { λ s. 0 };

    /// Takes time in the bytes that it gives, and no memory.
    fn read(&mut self, buf: &mut [u8]) -> Result<usize, Failed>
        ensures bound { ReadsAtMost result buf.new }
        ensures bytes { ReadConsumes (Some (bytes_left self.old)) (Some (bytes_left self.new)) result buf.new }
        ensures cause { HasCause 0 0 result }
        ensures calm { IsOk result }
        ensures count { IfOk result (λ n. n ≡ min (length (bytes_left self.old)) (length buf.old)) }
    {
        let rest = &self.bytes.as_slice()[self.at..];
        let count = copy_prefix(rest, buf, buf.len());
        self.at += count;
        Ok(count)
    }
}
