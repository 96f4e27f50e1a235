//! Makes a trace, request by request.
ghost use Rattle.std.specs.Prelude.{◌≡◌, ◌≤◌, ◌<◌, ◌^◌, [], true, false, length, IfOk, OnOk, OnErr};
ghost use Rattle.cache_rules.specs.Stored.{made_more, mark_if};

use crate::trace::Trace;
use bound_base::NoMemory;
use cache_model::Object;
use std::alloc::Global;
use std::marker::Model;

/// A trace to which requests are added.
#[derive(Debug, Drop)]
pub struct Builder {
    trace: Trace,
    marks: bool,
}

impl Model for Builder {
    ghost use Rattle.cache_rules.specs.Stored.{Making};

    ghost Value = { Making };

    ghost view = { λ b. record { requests = b.trace; marks = b.marks } };
}

impl Builder {
    /// A builder without requests, of which all will count. It takes memory with the first.
    pub fn new(alloc: Global) -> Result<Builder, NoMemory>
        ensures { IfOk result (λ b. b ≡ record { requests = record { objects = []; fills = [] }; marks = false }) }
    {
        Ok(Builder {
            trace: Trace::empty(alloc),
            marks: false,
        })
    }

    /// A builder without requests, which keeps a mark of each whether it only fills. It takes memory with the first.
    pub fn marking(alloc: Global) -> Result<Builder, NoMemory>
        ensures { IfOk result (λ b. b ≡ record { requests = record { objects = []; fills = [] }; marks = true }) }
    {
        Ok(Builder {
            trace: Trace::empty(alloc),
            marks: true,
        })
    }

    // The mark of a request, if marks are kept.
    fn mark(&self, only_fills: bool) -> Option<bool>
        ensures { result ≡ mark_if self.now.marks only_fills }
    {
        if self.marks { Some(only_fills) } else { None }
    }

    /// Appends a request that counts, whose size is in bytes. It takes constant time on average, with one look-up by
    /// hash.
    pub fn push(&mut self, object: Object) -> Result<(), NoMemory>
        requires few { length self.old.requests.objects < 2 ^ 25 }
        requires size { (1 ≤ object.size) × (object.size ≤ 2 ^ 48) }
        ensures ok { OnOk result (self.new ≡ made_more self.old object false) }
        ensures err { OnErr result (self.new ≡ self.old) }
    {
        let mark = self.mark(false);
        self.trace.append(object, mark)
    }

    /// Appends a request that only fills the cache, to a builder that keeps marks.
    pub fn push_filling(&mut self, object: Object) -> Result<(), NoMemory>
        requires marks { self.old.marks ≡ true }
        requires few { length self.old.requests.objects < 2 ^ 25 }
        requires size { (1 ≤ object.size) × (object.size ≤ 2 ^ 48) }
        ensures ok { OnOk result (self.new ≡ made_more self.old object true) }
        ensures err { OnErr result (self.new ≡ self.old) }
    {
        self.trace.append(object, Some(true))
    }

    /// How many requests were added.
    pub fn len(&self) -> u32
        ensures requests { result ≡ length self.now.requests.objects }
        ensures most { result ≤ 2 ^ 25 }
    {
        self.trace.len()
    }

    /// The trace of the requests. It takes no memory.
    pub fn finish(self) -> Trace
        ensures { result ≡ self.requests }
    {
        self.trace
    }
}
