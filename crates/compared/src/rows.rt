//! The comparisons.
ghost use Rattle.std.specs.Prelude.{◌≡◌, ◌↔◌, true, IsOk};

use std::fmt::Debug;

/// What was found at a row or place is not what is wanted there.
#[derive(Clone, Copy, Debug)]
pub struct Differs<P, T> {
    pub at: P,
    pub found: T,
    pub want: T,
}

/// What is to hold at a row or place does not.
#[derive(Clone, Copy, Debug)]
pub struct Fails<P> {
    pub at: P,
}

/// Compares what was found at a row or place with what is wanted there.
pub fn same<P: Copy + Debug, T: Copy + Debug + PartialEq>(
    at: P,
    found: T,
    want: T,
) -> Result<(), Differs<P, T>>
    ensures { IsOk result ↔ (T.eq found want ≡ true) }
{
    if found == want {
        Ok(())
    } else {
        Err(Differs { at, found, want })
    }
}

/// Expects what is to hold at a row or place.
pub fn holds<P: Copy + Debug>(at: P, is_so: bool) -> Result<(), Fails<P>>
    ensures { IsOk result ↔ (is_so ≡ true) }
{
    if is_so { Ok(()) } else { Err(Fails { at }) }
}
