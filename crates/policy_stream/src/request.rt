//! A request, as it is read.
ghost use Rattle.std.specs.Prelude.{◌≡◌};
ghost use Rattle.policy_stream.specs.Asking.{asked_of};

use cache_model::Object;
use replay_steps::Asked;

/// A request, as it is read: its object; whether it is past the warm-up; whether it only fills, and whether it is stale.
#[derive(Clone, Copy, Debug)]
pub struct Request {
    pub object: Object,
    pub is_past: bool,
    pub only_fills: bool,
    pub is_stale: bool,
}

impl Request {
    // What it asks of a policy, if its object has this number, and it replaces the other.
    pub(crate) fn asked(self, number: u32, replaced: Option<u32>) -> Asked
        ensures { result ≡ asked_of self number replaced }
    {
        Asked {
            object: number,
            size: self.object.size,
            next: None,
            is_stale: self.is_stale,
            replaced,
            is_past: self.is_past,
            only_fills: self.only_fills,
        }
    }
}
