//! Why there are no bounds with a time to live.
use bound_base::NoMemory;

/// Why there are no bounds with a time to live.
#[derive(Clone, Copy, Debug, PartialEq, Eq)]
pub enum TtlBoundsFault {
    /// The least denominator that rounds no cost passes 2^48, and no other may be taken.
    Denominator,
    /// There was not enough memory.
    NoMemory,
}

impl From<NoMemory> for TtlBoundsFault {
    ghost use Rattle.std.specs.Prelude.{◌≡◌};
    ghost use Rattle.ttl_bounds.specs.declared.faults.TtlBoundsFault.TheVariants.{NoMemory};

    ghost from_gives = { λ _ f. f ≡ NoMemory };

    fn from(_: NoMemory) -> Self {
        TtlBoundsFault::NoMemory
    }
}
