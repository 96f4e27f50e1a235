//! What is kept of an object.
ghost use Rattle.std.specs.Prelude.{◌≡◌, ◌*◌, ◌≤◌, ◌^◌, IfOk, OnOk, OnErr};
ghost use Rattle.ttl_sums.specs.Entries.{CanAsk, IsAsked, IsBegun};

use crate::request::Request;
use bound_base::NoMemory;
use std::alloc::Global;
use ttl_walk::{Asked, ObjectWalk};

/// What is kept of an object: its walk, and the prices of all steps before its last request.
#[derive(Drop)]
pub(crate) struct Entry {
    pub(crate) walk: ObjectWalk,
    pub(crate) paid: u128,
}

/// The greatest worth of an object before a request and after it.
#[derive(Clone, Copy, Debug)]
pub(crate) struct Tops {
    pub(crate) before: u128,
    pub(crate) after: u128,
}

impl Entry {
    /// No request of the object was walked.
    pub(crate) fn new(alloc: Global) -> Self
        ensures { IsBegun result }
    {
        Entry {
            walk: ObjectWalk::new(alloc),
            paid: 0,
        }
    }

    /// Walks the next request of the object, after steps of these prices.
    pub(crate) fn ask(
        &mut self,
        ttl: u64,
        prices: u128,
        request: &Request,
    ) -> Result<Tops, NoMemory>
        requires can_ask { CanAsk prices request.now self.old }
        requires small { request.now.weight * prices ≤ 2 ^ 126 }
        ensures asked { OnOk result (IsAsked ttl prices request.now self.old self.new) }
        ensures before { IfOk result (λ tops. tops.before ≡ self.old.walk.top) }
        ensures after { IfOk result (λ tops. tops.after ≡ self.new.walk.top) }
        ensures err { OnErr result (self.new ≡ self.old) }
    {
        let before = self.walk.top();
        let asked = Asked {
            clock: request.clock,
            fills: request.fills,
            gain: request.gain,
            priced: u128::from(request.weight) * (prices - self.paid),
        };
        self.walk.ask(ttl, asked)?;
        self.paid = prices;
        let after = self.walk.top();
        Ok(Tops { before, after })
    }
}
