//! Ratios of whole numbers, and quotients.
ghost use Rattle.std.specs.Prelude.{◌≡◌, ◌*◌, ◌/◌, ◌<◌, ◌≤◌, ◌^◌, ◌⊎◌, ◌↔◌, IsNone, IfSome, IsTrue};
ghost use Rattle.std.specs.Int.{div_ceil};

/// A number of at least 0, as one whole number over another. It need not be in lowest terms.
#[derive(Clone, Copy, Debug)]
pub struct Ratio {
    pub num: u128,
    pub den: u128,
    ghost den_positive: { 1 ≤ den },
}

impl Ratio {
    /// The whole number at or next below the ratio.
    pub fn floor(self) -> u128
        ensures { result ≡ self.num / self.den }
    {
        floor_div(self.num, self.den)
    }

    /// Whether this ratio is at most the other, by the products of each numerator and the other's denominator.
    /// There is no answer if one of the two passes 128 bits.
    pub fn at_most(self, other: Ratio) -> Option<bool>
        ensures limit { IsNone result
            ↔ ((2 ^ 128 ≤ self.num * other.den) ⊎ (2 ^ 128 ≤ other.num * self.den)) }
        ensures answer { IfSome result (λ b. IsTrue b ↔ (self.num * other.den ≤ other.num * self.den)) }
    {
        let this = self.num.checked_mul(other.den)?;
        let that = other.num.checked_mul(self.den)?;
        Some(this <= that)
    }
}

/// The quotient rounded down.
pub fn floor_div(a: u128, b: u128) -> u128
    requires { 1 ≤ b }
    ensures { result ≡ a / b }
{
    a / b
}

/// The quotient rounded up.
pub fn ceil_div(a: u128, b: u128) -> u128
    requires { 1 ≤ b }
    ensures { result ≡ div_ceil a b }
{
    a.div_ceil(b)
}
