//! What a certificate with a budget states.
ghost use Rattle.std.specs.Prelude.{◌↔◌, ◌≤◌, ◌^◌, IsTrue};
ghost use Rattle.budget_format.specs.Budgets.{IsBudgetHeader, IsBudgetRecord};

use cache_model::Objective;

/// The head of a certificate with a budget. The upper bound is a numerator over the denominator. The first `warmup`
/// requests fill the cache, and earn and write nothing. The budget is in bytes, and its price is that of a unit that is
/// written, over the denominator.
#[derive(Clone, Copy, Debug, PartialEq, Eq)]
pub struct BudgetHeader {
    pub objective: Objective,
    pub capacity: u64,
    pub requests: u32,
    pub unit: u64,
    pub denominator: u64,
    pub upper: u128,
    pub lower: u128,
    pub warmup: u32,
    pub budget: u128,
    pub price: u128,
}

impl BudgetHeader {
    // Whether the warm-up, the budget and its price are in their ranges.
    fn last_in_range(&self) -> bool
        ensures { IsTrue result ↔ ((self.now.warmup ≤ 2 ^ 25) × (self.now.budget ≤ 2 ^ 80) × (self.now.price ≤ 2 ^ 126)) }
    {
        self.warmup <= 1 << 25 && self.budget <= 1 << 80 && self.price <= 1 << 126
    }

    /// Whether each number is in the range that the text has for it.
    pub fn in_range(&self) -> bool
        ensures { IsTrue result ↔ IsBudgetHeader self.now }
    {
        let counts = self.requests <= 1 << 25
            && (1..=1 << 56).contains(&self.capacity)
            && (1..=self.capacity).contains(&self.unit)
            && (1..=1 << 48).contains(&self.denominator);
        self.last_in_range()
            && counts
            && [self.upper, self.lower]
                .iter()
                .all(|value| *value < 1 << 127)
    }
}

/// A budget in bytes, and the price of a unit that is written, over the denominator.
#[derive(Clone, Copy, Debug, PartialEq, Eq)]
pub struct Budget {
    pub bytes: u128,
    pub price: u128,
}

/// What the line after the lower bound states: a warm-up if there is one, or else the budget.
#[derive(Clone, Copy, Debug, PartialEq, Eq)]
pub enum TenthLine {
    Warmup(u32),
    Budget(Budget),
}

/// What a certificate with a budget says of one request: the price of its step, and whether its object is kept.
#[derive(Clone, Copy, Debug, PartialEq, Eq)]
pub struct BudgetRecord {
    pub price: u128,
    pub keep: bool,
}

impl BudgetRecord {
    /// Whether the price is in the range that the text has for it.
    pub fn in_range(&self) -> bool
        ensures { IsTrue result ↔ IsBudgetRecord self.now }
    {
        self.price <= 1 << 126
    }
}
