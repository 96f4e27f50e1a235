//! What was noted of the requests so far.
ghost use Rattle.std.specs.Prelude.{◌≡◌, ℕ, Bool, List, [], ◌∷◌, ◌++◌};
ghost use Rattle.std.specs.Borrow.{ftrue};

use std::marker::Model;

/// Of each request whether it is stale, whether it only fills the cache by its own mark, and its time. Only proofs read it: it
/// takes no memory, and its methods do nothing at run time.
#[derive(Drop)]
pub(crate) struct History {
    ghost stale: { List Bool },
    ghost own: { List Bool },
    ghost times: { List ℕ },
}

impl Model for History {
    ghost also_owns = { λ _. ftrue };
}

/// What is noted of a request.
#[derive(Clone, Copy, Drop)]
pub(crate) struct Noted {
    pub stale: bool,
    pub own: bool,
    pub time: u64,
}

impl History {
    /// Of no request.
    pub(crate) fn new() -> History
        ensures { (result.stale ≡ []) × (result.own ≡ []) × (result.times ≡ []) }
    {
        History {}
    }

    /// Of one request more.
    #[inline(always)]
    pub(crate) fn with(&self, _last: &Noted) -> History
        ensures { (result.stale ≡ self.now.stale ++ _last.now.stale ∷ []) × (result.own ≡ self.now.own ++ _last.now.own ∷ []) × (result.times ≡ self.now.times ++ _last.now.time ∷ []) }
    {
        History {}
    }
}
