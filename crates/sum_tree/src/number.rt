//! The numbers that a tree sums.
ghost use Rattle.std.specs.Prelude.{◌≡◌, ◌↔◌, ℕ, ◌+◌, ◌*◌, ◌<◌, ◌^◌, IsTrue};

/// A type of numbers that can hold every sum of a tree over fewer than 2^32 places.
pub trait SumNumber: Copy {
    /// The number that it is.
    ghost value: { Self → ℕ };

    /// The greatest number at a place.
    ghost greatest: { ℕ };

    /// The least number that it can't hold.
    ghost limit: { ℕ };

    /// 0.
    fn zero() -> Self
        ensures { value result ≡ 0 };

    /// Whether both are the same number.
    fn equals(self, other: Self) -> bool
        ensures { IsTrue result ↔ (value self ≡ value other) };

    /// The sum of both.
    fn plus(self, other: Self) -> Self
        requires fits { value self + value other < limit }
        ensures { value result ≡ value self + value other };

    /// The numbers at all places together fit.
    ghost sums_fit: { (places : ℕ) → places < 2 ^ 32 → greatest * places < limit };
}

/// It counts places: each has 0 or 1.
impl SumNumber for u32 {
    ghost use Rattle.std.proofs.Common.{arith};

    ghost value = { λ n. n };

    ghost greatest = { 1 };

    ghost limit = { 2 ^ 32 };

    #[inline]
    fn zero() -> u32 {
        0
    }

    #[inline]
    fn equals(self, other: u32) -> bool {
        self == other
    }

    #[inline]
    fn plus(self, other: u32) -> u32 {
        self + other
    }

    ghost sums_fit = { λ places few. Prim.omega arith };
}

/// It sums bytes: each place has 2^48 at most.
impl SumNumber for u128 {
    ghost use Rattle.std.proofs.Common.{arith};

    ghost value = { λ n. n };

    ghost greatest = { 2 ^ 48 };

    ghost limit = { 2 ^ 128 };

    #[inline]
    fn zero() -> u128 {
        0
    }

    #[inline]
    fn equals(self, other: u128) -> bool {
        self == other
    }

    #[inline]
    fn plus(self, other: u128) -> u128 {
        self + other
    }

    ghost sums_fit = { λ places few. Prim.omega arith };
}
