//! A price at which the bound is low.
ghost use Rattle.std.specs.Prelude.{◌≡◌, ◌*◌, ◌/◌, ◌≤◌, ◌<◌, ◌^◌, length, sum, IfOk, IfSome};
ghost use Rattle.constant_price.specs.Constants.{constant_prices};
ghost use Rattle.ttl_prices.specs.Bounds.{bound_of_price};

use crate::bound::bound_at;
use crate::sample::guess_from;
use crate::search::{LowPrice, NARROW, Search};
use crate::timed::TimedTrace;
use bound_base::NoMemory;
use cache_rules::Terms;
use relaxation::Scale;
use std::alloc::Global;

// At most this many prices are tried beside the start.
const TURNS: u8 = 7;

// A price, and the bound that it gives.
fn try_price(
    alloc: Global,
    timed: &TimedTrace<'_>,
    terms: Terms,
    scale: Scale,
    price: u128,
) -> Result<LowPrice, NoMemory>
    requires times { length timed.now.times.now ≡ length timed.now.trace.now.objects }
    requires price { price ≤ 2 ^ 96 }
    requires paid { scale.units * sum (constant_prices price (length timed.now.trace.now.objects)) ≤ 2 ^ 121 }
    requires units { scale.units ≡ terms.capacity / scale.unit }
    ensures price { IfOk result (λ tried. tried.price ≡ price) }
    ensures bound { IfOk result (λ tried.
        tried.bound ≡ bound_of_price terms scale.unit scale.denominator timed.now.trace.now timed.now.times.now timed.now.ttl price) }
    ensures small { IfOk result (λ tried. tried.bound < 2 ^ 127) }
{
    let bound = bound_at(alloc, timed, terms, scale, price)?;
    Ok(LowPrice { price, bound })
}

// The price to try in this turn: first the guess, then near it for as long as none is lower, and else as the search goes.
fn next_price(search: Search, guess: u128, turn: u8) -> Option<u128>
    ensures low { IfSome result (λ price. search.low ≤ price) }
    ensures high { IfSome result (λ price. price ≤ search.high) }
{
    if turn == 0 {
        search.next_or(guess)
    } else if search.lowest.price == guess {
        search.next(guess / NARROW + 1)
    } else {
        search.next(u128::MAX)
    }
}

/// A price at which the bound with the time to live is low: at most the start, and its bound at most that of the start.
/// Both are over the denominator. Another price may have a lower bound.
///
/// The start is the least price without a time to live, as a rule. The price is sought on one of 32 objects first, where a
/// pass takes little time, and then on all, by at most eight passes over the requests. It takes the memory of one pass.
pub fn low_price(
    alloc: Global,
    timed: &TimedTrace<'_>,
    terms: Terms,
    scale: Scale,
    start: u128,
) -> Result<LowPrice, NoMemory>
    requires times { length timed.now.times.now ≡ length timed.now.trace.now.objects }
    requires price { start ≤ 2 ^ 96 }
    requires paid { scale.units * sum (constant_prices start (length timed.now.trace.now.objects)) ≤ 2 ^ 121 }
    requires units { scale.units ≡ terms.capacity / scale.unit }
    ensures lower { IfOk result (λ found. found.price ≤ start) }
    ensures price { IfOk result (λ found. found.price ≤ 2 ^ 96) }
    ensures paid { IfOk result (λ found. scale.units * sum (constant_prices found.price (length timed.now.trace.now.objects)) ≤ 2 ^ 121) }
    ensures bound { IfOk result (λ found.
        found.bound ≡ bound_of_price terms scale.unit scale.denominator timed.now.trace.now timed.now.times.now timed.now.ttl found.price) }
    ensures small { IfOk result (λ found. found.bound < 2 ^ 127) }
    ensures no_worse { IfOk result (λ found.
        found.bound ≤ bound_of_price terms scale.unit scale.denominator timed.now.trace.now timed.now.times.now timed.now.ttl start) }
{
    let mut search = Search::new(try_price(alloc, timed, terms, scale, start)?);
    let guess = guess_from(alloc, timed, terms, scale, start)?;
    for turn in 0..TURNS {
        let Some(price) = next_price(search, guess, turn) else {
            return Ok(search.lowest);
        };
        search = search.with(try_price(alloc, timed, terms, scale, price)?);
    }
    Ok(search.lowest)
}
