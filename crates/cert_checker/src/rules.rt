//! The rules of a record.
ghost use Rattle.std.specs.Prelude.{◌≡◌, ◌≤◌, ◌*◌, ◌^◌};
ghost use Rattle.cache_model.specs.Certificates.{units_of};
ghost use Rattle.cache_model.specs.Claim.{gain_of};

use cache_model::Object;
use cache_rules::gain;
use cert_format::Header;

/// What the requests and records through one of them give: the sum of the prices, whether it is the last, whether an
/// interval of its object ends there that counts, the request before it of its object if that has a flow and this one
/// doesn't count, and after it the sizes of the kept objects and the flows of all objects.
#[derive(Clone, Copy)]
pub(crate) struct Figures {
    pub prices: u128,
    pub last: bool,
    pub counts: bool,
    pub unused: Option<u32>,
    pub load: u64,
    pub flows: u64,
}

/// The capacity in units, rounded down.
pub(crate) fn units(header: &Header) -> u64
    requires { 1 ≤ header.now.unit }
    ensures { result ≡ units_of header.now }
{
    header.capacity / header.unit
}

/// The gain of a hit on the object, times the denominator.
pub(crate) fn worth(header: &Header, object: &Object) -> u128
    requires denominator { header.now.denominator ≤ 2 ^ 48 }
    requires size { object.now.size ≤ 2 ^ 48 }
    ensures { result ≡ header.now.denominator * gain_of header.now.objective object.now }
{
    header.denominator as u128 * gain(header.objective, object) as u128
}
