//! A search for a price at which a bound is low.
ghost use Rattle.std.specs.Prelude.{◌≡◌, ◌≤◌, IfSome};
ghost use Rattle.ttl_prices.specs.Bounds.{lower_of};

/// A price, and the bound that it gives, both over the denominator.
#[derive(Clone, Copy, Debug, PartialEq, Eq)]
pub struct LowPrice {
    pub price: u128,
    pub bound: u128,
}

/// The lowest bound so far, and the least and the greatest price at which a lower one may be found, since a bound is convex
/// in its price.
#[derive(Clone, Copy)]
pub(crate) struct Search {
    low: u128,
    pub(crate) lowest: LowPrice,
    high: u128,
    ghost above: { low ≤ lowest.price },
    ghost below: { lowest.price ≤ high },
}

/// The search ends if no side of the price is wider than this part of it: the bounds differ little there.
pub(crate) const NARROW: u128 = 8;

impl Search {
    /// The bound of the greatest price is known.
    pub(crate) fn new(greatest: LowPrice) -> Self
        ensures lowest { result.lowest ≡ greatest }
        ensures high { result.high ≡ greatest.price }
    {
        Search {
            low: 0,
            lowest: greatest,
            high: greatest.price,
        }
    }

    /// The price to try next: on the wider side of the lowest, three eighths of it away, as in a golden section search, and no
    /// further than this. There is none if both sides are narrow.
    pub(crate) fn next(self, furthest: u128) -> Option<u128>
        requires some { 1 ≤ furthest }
        ensures low { IfSome result (λ price. self.low ≤ price) }
        ensures high { IfSome result (λ price. price ≤ self.high) }
    {
        let price = self.lowest.price;
        let below = price - self.low;
        let above = self.high - price;
        if below.max(above) <= price / NARROW {
            None
        } else if below > above {
            Some(price - (below / 8 * 3).clamp(1, furthest))
        } else {
            Some(price + (above / 8 * 3).clamp(1, furthest))
        }
    }

    /// The guess, if a lower bound may be found there, and else the next price.
    pub(crate) fn next_or(self, guess: u128) -> Option<u128>
        ensures low { IfSome result (λ price. self.low ≤ price) }
        ensures high { IfSome result (λ price. price ≤ self.high) }
    {
        if self.low <= guess && guess < self.lowest.price {
            Some(guess)
        } else {
            self.next(u128::MAX)
        }
    }

    /// After a price between these was tried.
    pub(crate) fn with(self, tried: LowPrice) -> Self
        requires low { self.low ≤ tried.price }
        requires high { tried.price ≤ self.high }
        ensures lowest { result.lowest ≡ lower_of self.lowest tried }
        ensures high { result.high ≤ self.high }
    {
        let lower = tried.bound < self.lowest.bound;
        let (lowest, other) = if lower {
            (tried, self.lowest)
        } else {
            (self.lowest, tried)
        };
        if other.price < lowest.price {
            Search {
                low: other.price + 1,
                lowest,
                high: self.high,
            }
        } else {
            let high = other.price.saturating_sub(1).max(lowest.price);
            Search {
                low: self.low,
                lowest,
                high,
            }
        }
    }
}
