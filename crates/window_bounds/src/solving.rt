//! The windows of an instance, solved one after another.
ghost use Rattle.std.specs.Prelude.{◌≡◌, ◌*◌, ◌-◌, ◌<◌, ◌≤◌, All, IfOk, IfSome, length, slice_index_or, sum, sum_by};
ghost use Rattle.flow_model.specs.Instances.{IsSchedule, IsSolution, value_at};
ghost use Rattle.window_arcs.specs.Current.{AreRanks};
ghost use Rattle.window_arcs.specs.Passing.{local_numbers};
ghost use Rattle.window_bounds.specs.Solutions.{AreSolutions, IsFitting, IsKeptSolution, IsNextSolution, full_of, value_of_windows};

use crate::guess::Guess;
use crate::solution::WindowSolution;
use bound_base::NoMemory;
use flow_model::{Instance, OuterArc, Solution};
use flow_sparse::Solver;
use flow_uniform::{Solver as UniformSolver, common_cost};
use std::alloc::Global;
use window_arcs::{KeptRanks, WindowArcs};

// For each arc whether its flow is its weight.
fn full_of(alloc: Global, arcs: &[OuterArc], flows: &[u64]) -> Result<Vec<bool>, NoMemory>
    ensures { IfOk result (λ full. full.items ≡ full_of arcs.now flows.now) }
{
    Ok(
        arcs.iter()
            .zip(flows)
            .map(|(arc, flow)| *flow == arc.weight)
            .collect(alloc)?,
    )
}

// Prices and flows of one value: by the solver of one cost where all arcs that cost something cost the same.
fn solve(alloc: Global, instance: &Instance) -> Result<Solution, NoMemory>
    ensures { IfOk result (λ s. IsSolution instance.now s.prices s.flows) }
{
    match common_cost(instance) {
        Some(cost) => Ok(UniformSolver::new(alloc, instance, cost)?.solve()),
        None => Ok(Solver::new(alloc, instance)?.solve()),
    }
}

// A solution of the current window over the arcs that are kept: the ranks of the passing ones, their numbers and those of
// the others, and their flows.
#[derive(Drop)]
struct KeptSolution {
    ranks: KeptRanks,
    kept: Vec<u32>,
    solution: Solution,
}

// Solves the current window with the passing arcs of these ranks alone, and the arcs that don't pass.
fn solve_kept(
    alloc: Global,
    windows: &WindowArcs,
    local: &[u32],
    ranks: KeptRanks,
) -> Result<KeptSolution, NoMemory>
    requires has_step { windows.now.cut.width * windows.now.cut.number < windows.now.cut.whole.steps }
    requires local { local.now ≡ local_numbers windows.now.cut }
    requires ranks { AreRanks windows.now ranks }
    ensures ranks { IfOk result (λ s. s.ranks ≡ ranks) }
    ensures solution { IfOk result (λ s. IsKeptSolution windows.now ranks s.kept.items s.solution.prices s.solution.flows) }
{
    let kept = windows.kept(alloc, local, ranks)?;
    let window = windows.instance(alloc, &kept, ranks)?;
    let solution = solve(alloc, &window)?;
    Ok(KeptSolution {
        ranks,
        kept,
        solution,
    })
}

// The same, if its prices suit the arcs that were left out.
fn solve_suited(
    alloc: Global,
    windows: &WindowArcs,
    local: &[u32],
    ranks: KeptRanks,
) -> Result<Option<KeptSolution>, NoMemory>
    requires has_step { windows.now.cut.width * windows.now.cut.number < windows.now.cut.whole.steps }
    requires local { local.now ≡ local_numbers windows.now.cut }
    requires ranks { AreRanks windows.now ranks }
    ensures { IfOk result (λ found. IfSome found (λ s. IsFitting windows.now s.ranks s.kept.items s.solution.prices s.solution.flows)) }
{
    let found = solve_kept(alloc, windows, local, ranks)?;
    let suits = windows.fits(ranks, found.solution.prices());
    Ok(if suits { Some(found) } else { None })
}

// Solves it with those of the passing arcs of these ranks that a guess names, if there is one and it holds.
fn solve_near(
    alloc: Global,
    windows: &WindowArcs,
    local: &[u32],
    ranks: KeptRanks,
    guess: Guess,
) -> Result<Option<KeptSolution>, NoMemory>
    requires has_step { windows.now.cut.width * windows.now.cut.number < windows.now.cut.whole.steps }
    requires local { local.now ≡ local_numbers windows.now.cut }
    requires ranks { AreRanks windows.now ranks }
    ensures { IfOk result (λ found. IfSome found (λ s. IsFitting windows.now s.ranks s.kept.items s.solution.prices s.solution.flows)) }
{
    match windows.near(ranks, guess.price(), guess.margin()) {
        None => Ok(None),
        Some(near) => solve_suited(alloc, windows, local, near),
    }
}

// Solves the current window with as few passing arcs as will do, by a guess what its prices sum to; with more of them if
// those were too few, and in the end with all. It says whether the guess held.
fn solve_fitting(
    alloc: Global,
    windows: &WindowArcs,
    guess: Guess,
) -> Result<(KeptSolution, bool), NoMemory>
    requires { windows.now.cut.width * windows.now.cut.number < windows.now.cut.whole.steps }
    ensures { IfOk result (λ (s, held). IsFitting windows.now s.ranks s.kept.items s.solution.prices s.solution.flows) }
{
    let local = windows.local(alloc)?;
    let likely = windows.likely(&local);
    if let Some(found) = solve_near(alloc, windows, &local, likely, guess)? {
        return Ok((found, true));
    }
    if let Some(found) = solve_near(alloc, windows, &local, likely, guess.wider())? {
        return Ok((found, false));
    }
    if let Some(found) = solve_suited(alloc, windows, &local, likely)? {
        return Ok((found, false));
    }
    let found = solve_kept(alloc, windows, &local, windows.everything())?;
    Ok((found, false))
}

// What the prices sum to, or the greatest number if that is less.
fn sum_of(prices: &[u128]) -> u128 {
    let mut sum: u128 = 0;
    for price in prices {
        sum = sum.saturating_add(*price);
    }
    sum
}

// Solves the current window, and guesses what the prices of the next one sum to. Its prices come after those before, and
// the flows fall to those of its parts.
fn solve_window(
    alloc: Global,
    windows: &mut WindowArcs,
    prices: &mut Vec<u128>,
    guess: Guess,
) -> Result<Guess, NoMemory>
    requires { windows.old.cut.width * windows.old.cut.number < windows.old.cut.whole.steps }
    ensures cut { IfOk result (λ done. windows.new.cut ≡ windows.old.cut) }
    ensures each_arc { IfOk result (λ done. length windows.new.flows ≡ length windows.old.flows) }
    ensures next { IfOk result (λ done. IsNextSolution windows.old.cut prices.old.items windows.old.flows prices.new.items windows.new.flows) }
{
    let (found, held) = solve_fitting(alloc, windows, guess)?;
    prices.extend_from_slice(found.solution.prices())?;
    windows.lower(&found.kept, found.ranks, found.solution.flows());
    windows.empty(found.ranks);
    Ok(guess.next(sum_of(found.solution.prices()), held))
}

// Prices of the steps and flows of the arcs, from one window after another.
fn solve_each(alloc: Global, whole: &Instance, width: u32) -> Result<Solution, NoMemory>
    requires some { 1 ≤ width }
    requires narrow { width < whole.now.steps }
    ensures { IfOk result (λ s. AreSolutions whole.now width s.prices s.flows) }
{
    // All numbers of the whole are in their ranges.
    let _arcs = whole.arcs();
    let mut prices = Vec::with_capacity(alloc, whole.steps() as usize)?;
    let mut windows = WindowArcs::new(alloc, whole, width)?;
    let mut guess = Guess::none();
    while windows.has_step() {
        guess = solve_window(alloc, &mut windows, &mut prices, guess)?;
        windows.advance(alloc)?;
    }
    Ok(Solution::new(prices, windows.into_flows()))
}

/// The prices and flows of the instance by windows of that width. The price of a step is that of its window, and the
/// flow of an arc the least of its flows in the windows that it meets. One window has the memory of its solver at a
/// time. Windows narrower than the steps take 8 bytes for each window and up to 132 for each arc besides, and 68 for
/// each part of the one that is solved. The answer takes 16 bytes for each step, and 9 for each arc.
pub fn solve_windows(
    alloc: Global,
    whole: &Instance,
    width: u32,
) -> Result<WindowSolution, NoMemory>
    requires { 1 ≤ width }
    ensures windows { IfOk result (λ s. AreSolutions whole.now width s.prices s.flows) }
    ensures full { IfOk result (λ s. s.full ≡ full_of whole.now.arcs s.flows) }
    ensures schedule { IfOk result (λ s. IsSchedule whole.now s.flows) }
    ensures above { IfOk result (λ s. value_at whole.now s.prices ≤ value_of_windows whole.now width s.prices) }
    ensures paid { IfOk result (λ s. whole.now.units * sum s.prices ≤ sum_by (λ arc. arc.weight * arc.cost) whole.now.arcs) }
    ensures last { IfOk result (λ s. All (λ arc. arc.end < whole.now.steps) whole.now.arcs → slice_index_or s.prices (whole.now.steps - 1) 0 ≡ 0) }
    ensures one_window { IfOk result (λ s. whole.now.steps ≤ width → IsSolution whole.now s.prices s.flows) }
{
    let solution = if whole.steps() <= width {
        solve(alloc, whole)?
    } else {
        solve_each(alloc, whole, width)?
    };
    let full = full_of(alloc, whole.arcs(), solution.flows())?;
    Ok(WindowSolution { solution, full })
}
