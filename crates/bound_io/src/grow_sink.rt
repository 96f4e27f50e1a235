//! A sink in memory that takes all.
ghost use Rattle.std.specs.Prelude.{◌≡◌, ◌<◌, ◌≤◌, Some, [], length, IfOk, OnOk};
ghost use Rattle.std.specs.Io.KnownBytes.{WriteAppends};
ghost use Rattle.bound_io.specs.Causes.{HasCause, count_after};

use crate::device::{Failed, Sink};
use std::alloc::Global;

/// Keeps each piece whole, in memory that grows. It fails only if it finds no memory.
#[derive(Drop)]
pub struct GrowSink {
    bytes: Vec<u8>,
    faults: u64,
}

impl GrowSink {
    ghost use Rattle.bound_io.specs.GrowSink.{bytes_written, fault_count};

    /// An empty sink, which takes no memory before the first byte.
    pub fn new(alloc: Global) -> Self
        ensures bytes { bytes_written result ≡ [] }
        ensures no_fault { fault_count result ≡ 0 }
    {
        GrowSink {
            bytes: Vec::new(alloc),
            faults: 0,
        }
    }

    /// The bytes written so far, without a copy.
    pub fn into_bytes(self) -> Vec<u8>
        ensures { result.items ≡ bytes_written self }
    {
        self.bytes
    }
}

impl Sink for GrowSink {
    ghost use Rattle.bound_io.specs.GrowSink.{bytes_written, fault_count};

    ghost written = { λ s. Some (s.bytes.items) };

    ghost faults = { λ s. s.faults };

    fn write(&mut self, bytes: &[u8]) -> Result<usize, Failed>
        ensures bound { IfOk result (λ n. n ≤ length bytes.now) }
        ensures progress { IfOk result (λ n. 0 < length bytes.now → 0 < n) }
        ensures bytes { WriteAppends (Some (bytes_written self.old)) (Some (bytes_written self.new)) result bytes.now }
        ensures cause { HasCause (fault_count self.old) (fault_count self.new) result }
        ensures none_failed { OnOk result (fault_count self.new ≡ fault_count self.old) }
        ensures whole { IfOk result (λ n. n ≡ length bytes.now) }
        ensures faults { fault_count self.new ≡ count_after result (fault_count self.old) }
    {
        match self.bytes.extend_from_slice(bytes) {
            Ok(()) => Ok(bytes.len()),
            Err(_) => {
                self.faults = self.faults.saturating_add(1);
                Err(Failed)
            }
        }
    }
}
