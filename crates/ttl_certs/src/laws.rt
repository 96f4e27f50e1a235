//! What is proved of certificates with a time to live: each law is the contract of a function that does nothing.
ghost use Rattle.ttl_certs.specs.Laws.{ValidBoundsShorterTtls, ValidBoundsWithTtl, ValidWithoutTtlBounds};

use ttl_laws::{bounds_rise_with_ttl, ttl_bounds_no_worse};

/// A valid certificate with a time to live bounds every policy with it.
pub fn valid_bounds_with_ttl()
    ensures { ValidBoundsWithTtl }
{}

/// It bounds every policy with each shorter time to live too: at its prices no bound of these is greater.
pub fn valid_bounds_shorter_ttls()
    ensures { ValidBoundsShorterTtls }
{
    bounds_rise_with_ttl();
}

/// A valid certificate without a time to live bounds every policy with any.
pub fn valid_without_ttl_bounds()
    ensures { ValidWithoutTtlBounds }
{
    ttl_bounds_no_worse();
}
