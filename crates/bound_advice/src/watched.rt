//! A source that remembers its last bytes.
ghost use Rattle.std.specs.Prelude.{◌≡◌, ◌≤◌, [], find, length, take, true, IfOk, OnErr, OnOk};
ghost use Rattle.std.specs.Io.{ReadsAtMost};
ghost use Rattle.std.specs.Io.KnownBytes.{ReadConsumes};
ghost use Rattle.std.specs.Option.{option_copied};
ghost use Rattle.bound_io.specs.Causes.{HasCause};
ghost use Rattle.bound_advice.specs.GivenWords.{form_given};
ghost use Rattle.bound_advice.specs.Lines.{KeepsLast, is_refused, whole_lines};

use crate::recent::Recent;
use crate::words::Words;
use bound_base::NoMemory;
use bound_io::{Failed, Source};
use std::alloc::Global;

/// A source that remembers its last bytes, to show a line of them. Else it is the source that it is made of.
#[derive(Drop)]
pub struct Watched<S: Drop> {
    source: S,
    recent: Recent,
}

impl<S: Source + Drop> Watched<S> {
    /// Watches a source from here on. Takes 384 KiB.
    pub fn new(alloc: Global, source: S) -> Result<Self, NoMemory>
        ensures source { IfOk result (λ watched. watched.source ≡ source) }
        ensures none_read { IfOk result (λ watched. watched.recent.bytes.items ≡ []) }
        ensures are_all { IfOk result (λ watched. watched.recent.are_all ≡ true) }
    {
        Ok(Watched {
            source,
            recent: Recent::new(alloc)?,
        })
    }

    /// The source that is watched.
    pub fn source(&self) -> &S
        ensures { result.now ≡ self.now.source }
    {
        &self.source
    }

    /// The line of a trace that was just refused, without its end, if the form that the words give has lines.
    pub fn refused_line(&self, words: Words<'_>) -> Option<&[u8]>
        ensures { option_copied result ≡ find (is_refused (form_given words.entry))
            (whole_lines self.now.recent.are_all self.now.recent.bytes.items) }
    {
        self.recent.refused_line(words.form())
    }
}

impl<S: Source + Drop> Source for Watched<S> {
    ghost left = { λ w. S.left w.source };

    ghost faults = { λ w. S.faults w.source };

    fn read(&mut self, buf: &mut [u8]) -> Result<usize, Failed>
        ensures bound { ReadsAtMost result buf.new }
        ensures bytes { ReadConsumes (S.left self.old.source) (S.left self.new.source) result buf.new }
        ensures cause { HasCause (S.faults self.old.source) (S.faults self.new.source) result }
        ensures none_failed { OnOk result (S.faults self.new.source ≡ S.faults self.old.source) }
        ensures kept { IfOk result (λ n. KeepsLast self.old.recent.bytes.items self.new.recent.bytes.items (take n buf.new)
            self.old.recent.are_all self.new.recent.are_all) }
        ensures unchanged { OnErr result (self.new.recent ≡ self.old.recent) }
    {
        let read = self.source.read(buf);
        if let Ok(count) = read {
            self.recent.keep(&buf[..count]);
        }
        read
    }
}
