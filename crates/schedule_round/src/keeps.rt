//! Which requests are kept.
ghost use Rattle.std.specs.Prelude.{◌≡◌};

use std::marker::Model;

/// For each request, whether its object is held until the next request of it.
#[derive(Debug, Drop)]
pub struct Keeps {
    pub(crate) keeps: Vec<bool>,
}

impl Model for Keeps {
    ghost use Rattle.std.specs.Prelude.{Bool, List, ⊤};

    ghost Value = { List Bool };

    ghost view = { λ k. k.keeps.items };

    ghost invariant = { λ _. ⊤ };
}

impl Keeps {
    /// One truth value for each request, in their order.
    pub fn as_slice(&self) -> &[bool]
        ensures { result.now ≡ self.now }
    {
        &self.keeps
    }
}
