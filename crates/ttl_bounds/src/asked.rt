//! What is asked of bounds with a time to live.
ghost use Rattle.std.specs.Prelude.{◌≡◌};
ghost use Rattle.ttl_bounds.specs.Asked.{AreTtlAskedInRange};

use cache_rules::Terms;
use relaxation::DenominatorChoice;
use std::marker::Model;

/// Which bounds with a time to live are asked for: their terms, whether all prices are 0 or one price is sought, the
/// denominator, and the version of the certificate's text. A price of 0 gives the hits of a cache without a limit.
#[derive(Clone, Copy)]
pub struct TtlAsked {
    pub terms: Terms,
    pub is_free: bool,
    pub denominator: DenominatorChoice,
    pub version: u8,
}

impl Model for TtlAsked {
    ghost use Rattle.ttl_bounds.specs.declared.asked.TtlAsked.TheInside.{Inside as Fields};
    ghost use Rattle.ttl_bounds.specs.Asked.{AreTtlAskedInRange};

    ghost Value = { Fields };

    ghost view = { λ s. s };

    ghost inverse = { λ s. s };

    ghost invariant = { AreTtlAskedInRange };
}

impl TtlAsked {
    /// What is asked for, with each number in its range.
    pub fn new(terms: Terms, is_free: bool, denominator: DenominatorChoice, version: u8) -> Self
        requires { AreTtlAskedInRange (record { terms = terms; is_free = is_free; denominator = denominator; version = version }) }
        ensures { result ≡ record { terms = terms; is_free = is_free; denominator = denominator; version = version } }
    {
        TtlAsked {
            terms,
            is_free,
            denominator,
            version,
        }
    }
}
