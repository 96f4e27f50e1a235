//! The upper bound at a smaller capacity.
ghost use Rattle.std.specs.Prelude.{◌≡◌, ◌+◌, ◌*◌, ◌/◌, ◌<◌, ◌≤◌};
ghost use Rattle.bound_laws.specs.Laws.{units_fewer};

/// The numerator of the bound at the capacity `smaller`, from that of the bound at `capacity` and the sum of its prices.
pub fn upper_at(upper: u128, capacity: u64, smaller: u64, unit: u64, price_sum: u128) -> u128
    requires positive { 0 < unit }
    requires is_smaller { smaller ≤ capacity }
    requires has_the_prices { capacity / unit * price_sum ≤ upper }
    ensures { result + units_fewer capacity smaller unit * price_sum ≡ upper }
{
    let fewer = capacity / unit - smaller / unit;
    upper - u128::from(fewer) * price_sum
}
