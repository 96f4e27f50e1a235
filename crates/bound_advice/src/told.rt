//! A sink that remembers the first bytes that it took.
ghost use Rattle.std.specs.Prelude.{◌≡◌, ◌≤◌, ◌<◌, [], length, IfOk, OnOk};
ghost use Rattle.std.specs.Io.KnownBytes.{WriteAppends};
ghost use Rattle.bound_io.specs.Causes.{HasCause};
ghost use Rattle.bound_advice.specs.Starts.{AreWholeLines, KeepsStart};

use crate::first_bytes::FirstBytes;
use bound_io::{Failed, Sink};

// The whole lines of a text.
fn whole_lines(text: &[u8]) -> &[u8]
    ensures { AreWholeLines text.now result.now }
{
    let mut lines = text;
    while let Some((last, before)) = lines.split_last() {
        if *last == b'\n' {
            return lines;
        }
        lines = before;
    }
    lines
}

/// A sink that remembers the first 1,024 bytes that it took. Else it is the sink that it is made of.
#[derive(Drop)]
pub struct Told<K: Drop> {
    sink: K,
    start: FirstBytes,
}

impl<K: Sink + Drop> Told<K> {
    /// Watches a sink from here on.
    pub fn new(sink: K) -> Self
        ensures sink { result.sink ≡ sink }
        ensures none_taken { result.start ≡ [] }
    {
        Told {
            sink,
            start: FirstBytes::new(),
        }
    }

    /// The sink that is watched.
    pub fn sink(&self) -> &K
        ensures { result.now ≡ self.now.sink }
    {
        &self.sink
    }

    /// The first bytes that it took.
    pub fn start(&self) -> &[u8]
        ensures { result.now ≡ self.now.start }
    {
        self.start.as_slice()
    }

    /// The whole lines of these. What stands behind them may be a part of a line.
    pub fn start_lines(&self) -> &[u8]
        ensures { AreWholeLines self.now.start result.now }
    {
        whole_lines(self.start())
    }
}

impl<K: Sink + Drop> Sink for Told<K> {
    ghost written = { λ t. K.written t.sink };

    ghost faults = { λ t. K.faults t.sink };

    fn write(&mut self, bytes: &[u8]) -> Result<usize, Failed>
        ensures bound { IfOk result (λ n. n ≤ length bytes.now) }
        ensures progress { IfOk result (λ n. 0 < length bytes.now → 0 < n) }
        ensures bytes { WriteAppends (K.written self.old.sink) (K.written self.new.sink) result bytes.now }
        ensures cause { HasCause (K.faults self.old.sink) (K.faults self.new.sink) result }
        ensures none_failed { OnOk result (K.faults self.new.sink ≡ K.faults self.old.sink) }
        ensures start { KeepsStart self.old.start self.new.start bytes.now result }
    {
        let taken = self.sink.write(bytes);
        if let Ok(count) = taken {
            self.start.keep(&bytes[..count]);
        }
        taken
    }
}
