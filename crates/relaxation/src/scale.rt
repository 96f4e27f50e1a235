//! What the bounds of a trace are counted in.
ghost use Rattle.std.specs.Prelude.{◌≤◌, ◌^◌};

/// A unit of this many bytes, how many units the cache holds, and the denominator over which prices and values are
/// whole.
#[derive(Clone, Copy)]
pub struct Scale {
    pub unit: u64,
    pub units: u64,
    pub denominator: u64,
    pub ghost some_unit: { 1 ≤ unit },
    pub ghost units_in_range: { (1 ≤ units) × (units ≤ 2 ^ 56) },
    pub ghost denominator_in_range: { (1 ≤ denominator) × (denominator ≤ 2 ^ 48) },
}
