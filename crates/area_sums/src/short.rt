//! Short numbers, and the class of a number.
ghost use Rattle.std.specs.Prelude.{◌≡◌, ◌+◌, ◌<◌, ◌≤◌, ◌^◌};
ghost use Rattle.area_sums.specs.Short.{class_of, short_at};

// Short numbers below this are all numbers below it.
const WHOLE: u128 = 4096;

/// The short number at a place of their row.
pub(crate) fn short_at(class: u32) -> u128
    requires { class ≤ 143360 }
    ensures { result ≡ short_at class }
{
    if class < 2048 {
        return u128::from(class);
    }
    u128::from(2048 + class % 2048) << (class / 2048 - 1)
}

/// The place of the greatest short number not above a number.
pub(crate) fn class_of(number: u128) -> u32
    requires { number < 2 ^ 80 }
    ensures { result ≡ class_of number }
{
    if number < WHOLE {
        return number as u32;
    }
    let zeros = number.ilog2() - 11;
    2048 * zeros + (number >> zeros) as u32
}
