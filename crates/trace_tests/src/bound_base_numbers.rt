//! `bound_base`: numbers in decimal digits, divisors and ratios. The answers were worked out by hand.
use bound_base::{NumFault, Ratio, ceil_div, floor_div, gcd, lcm_to, read_u64, read_u128};
use compared::{holds, same};

const NUMBERS: [(&[u8], Result<u64, NumFault>); 13] = [
    (b"0", Ok(0)),
    (b"7", Ok(7)),
    (b"000", Ok(0)),
    (b"00000000000000000000042", Ok(42)),
    (b"18446744073709551615", Ok(u64::MAX)),
    (b"018446744073709551615", Ok(u64::MAX)),
    (b"18446744073709551616", Err(NumFault::TooLarge)),
    (b"99999999999999999999999", Err(NumFault::TooLarge)),
    (b"", Err(NumFault::Empty)),
    (b"123x5y", Err(NumFault::NotDigit { place: 3 })),
    (b"+1", Err(NumFault::NotDigit { place: 0 })),
    (b"1 ", Err(NumFault::NotDigit { place: 1 })),
    (
        b"99999999999999999999999:",
        Err(NumFault::NotDigit { place: 23 }),
    ),
];

#[test]
fn reads_numbers_and_names_the_first_fault(rt: HostRuntime) {
    for (bytes, want) in &NUMBERS {
        same(*bytes, read_u64(bytes), *want).expect(&rt, "a row");
    }
}

const WIDER_NUMBERS: [(&[u8], Result<u128, NumFault>); 6] = [
    (b"0042", Ok(42)),
    (b"18446744073709551616", Ok(1 << 64)),
    (b"340282366920938463463374607431768211455", Ok(u128::MAX)),
    (
        b"340282366920938463463374607431768211456",
        Err(NumFault::TooLarge),
    ),
    (b"", Err(NumFault::Empty)),
    (b"12-", Err(NumFault::NotDigit { place: 2 })),
];

#[test]
fn reads_wider_numbers_in_the_same_way(rt: HostRuntime) {
    for (bytes, want) in &WIDER_NUMBERS {
        same(*bytes, read_u128(bytes), *want).expect(&rt, "a row");
    }
}

// The last row is two neighbours in Fibonacci's series, which take the most divisions.
const DIVISORS: [(u64, u64, u64); 9] = [
    (0, 0, 0),
    (0, 9, 9),
    (9, 0, 9),
    (12, 18, 6),
    (17, 5, 1),
    (1, u64::MAX, 1),
    (4096, 65536, 4096),
    (u64::MAX, 4294967295, 4294967295),
    (7540113804746346429, 12200160415121876738, 1),
];

#[test]
fn divides_both_and_is_greatest(rt: HostRuntime) {
    for (a, b, want) in &DIVISORS {
        same((*a, *b), gcd(*a, *b), *want).expect(&rt, "a row");
    }
}

const MULTIPLES: [(u64, u64, u64, Option<u64>); 10] = [
    (4, 6, 11, None),
    (4, 6, 12, Some(12)),
    (1, 1, 0, None),
    (1, 1, 1, Some(1)),
    (5, 5, u64::MAX, Some(5)),
    (8, 2, 8, Some(8)),
    (65536, 59049, 1 << 48, Some(3869835264)),
    (3869835264, 78125, 1 << 48, None),
    (4294967296, 4294967295, u64::MAX, Some(18446744069414584320)),
    (4294967296, 4294967297, u64::MAX, None),
];

#[test]
fn multiple_is_least_and_within_the_limit(rt: HostRuntime) {
    for (a, b, limit, want) in &MULTIPLES {
        holds((*a, *b), *a >= 1 && *b >= 1).expect(&rt, "a row");
        same((*a, *b, *limit), lcm_to(*a, *b, *limit), *want).expect(&rt, "a row");
    }
}

const QUOTIENTS: [(u128, u128, u128, u128); 6] = [
    (0, 7, 0, 0),
    (6, 7, 0, 1),
    (7, 7, 1, 1),
    (8, 7, 1, 2),
    (u128::MAX, 1, u128::MAX, u128::MAX),
    (u128::MAX, 2, u128::MAX / 2, 1 << 127),
];

#[test]
fn rounds_down_and_up(rt: HostRuntime) {
    for (num, den, down, up) in &QUOTIENTS {
        let (num, den) = (*num, *den);
        holds(den, den >= 1).expect(&rt, "a row");
        let floors = [floor_div(num, den), Ratio { num, den }.floor()];
        let rounded = (floors, ceil_div(num, den));
        same((num, den), rounded, ([*down; 2], *up)).expect(&rt, "a row");
    }
}

// Two ratios, by numerator and denominator. 2^128 is past the last number, and 2^127 + 1 is not past it.
const RATIOS: [((u128, u128), (u128, u128), Option<bool>); 7] = [
    ((1, 2), (2, 6), Some(false)),
    ((2, 6), (1, 2), Some(true)),
    ((1, 2), (1, 2), Some(true)),
    ((1, 2), (1 << 127, 1), None),
    ((1 << 127, 1), (1, 2), None),
    ((1, 2), (1, (1 << 127) + 1), Some(false)),
    ((1, (1 << 127) + 1), (1 << 127, 1), None),
];

#[test]
fn compares_by_cross_products(rt: HostRuntime) {
    for (this, that, want) in &RATIOS {
        let ((a, b), (c, d)) = (*this, *that);
        holds((b, d), b >= 1 && d >= 1).expect(&rt, "a row");
        let answer = Ratio { num: a, den: b }.at_most(Ratio { num: c, den: d });
        same((*this, *that), answer, *want).expect(&rt, "a row");
    }
}
