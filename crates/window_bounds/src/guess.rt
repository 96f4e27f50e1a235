//! What the prices of a window may sum to, by the windows before it.
ghost use Rattle.std.specs.Prelude.{◌<◌};

// The fewest parts of a price that a guess is off by one of.
const FEWEST: u128 = 8;

// The most, beyond which a guess gets no nearer.
const MOST: u128 = 1_048_576;

/// That the prices of a window sum to about this, up to one of so many parts of it more or less. So many are there that
/// some five of six guesses hold: a window has few passing arcs near a guess, and is solved again if that doesn't hold.
#[derive(Clone, Copy, Debug)]
pub(crate) struct Guess {
    price: u128,
    parts: u128,
    ghost some: { 0 < parts },
}

impl Guess {
    /// Of the first window nothing is known.
    pub(crate) fn none() -> Self {
        Guess {
            price: 0,
            parts: 4 * FEWEST,
        }
    }

    /// What the prices may sum to, or 0 if nothing is known.
    pub(crate) fn price(self) -> u128 {
        self.price
    }

    /// How much more or less they may sum to.
    pub(crate) fn margin(self) -> u128 {
        self.price / self.parts
    }

    /// The same with some four times the margin.
    pub(crate) fn wider(self) -> Self {
        Guess {
            price: self.price,
            parts: self.parts / 4 + 1,
        }
    }

    /// The guess of the next window, if the prices of this one sum to that: with a narrower margin if this guess held,
    /// and with a wider one if it didn't.
    pub(crate) fn next(self, price: u128, held: bool) -> Self {
        let parts = if held {
            MOST.min(self.parts.saturating_add(self.parts / 8))
        } else {
            FEWEST.max(self.parts / 2)
        };
        Guess { price, parts }
    }
}
