//! What is proved of budgets: each law is the contract of a function that does nothing.
ghost use Rattle.budget_laws.specs.Laws.{BudgetsRise, EveryBudget, NoBudget, NoPolicyScoresMoreWithin};
ghost use Rattle.budget_laws.specs.Laws.{PlainBoundsBudgets, WritesForAScore};

/// No allowed contents that write at most the budget score more than the bound of any prices within it.
pub fn no_policy_scores_more_within()
    ensures { NoPolicyScoresMoreWithin }
{}

/// The same prices bound every budget: what lies between two is the price of writing for the units between them.
pub fn every_budget()
    ensures { EveryBudget }
{}

/// Contents of a score write at least what the score is beyond the prices and the surpluses, over the price of writing.
pub fn writes_for_a_score()
    ensures { WritesForAScore }
{}

/// At the same prices a greater budget has the same bound or a greater one.
pub fn budgets_rise()
    ensures { BudgetsRise }
{}

/// Without a price of writing the bound is that of the prices, and a budget of all that is asked for is none.
pub fn no_budget()
    ensures { NoBudget }
{}

/// A valid certificate bounds every budget.
pub fn plain_bounds_budgets()
    ensures { PlainBoundsBudgets }
{}
