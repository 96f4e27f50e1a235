//! The windows of an instance one after another, with the flows of the arcs so far.
ghost use Rattle.std.specs.Prelude.{◌≡◌, ℕ, ◌+◌, ◌-◌, ◌*◌, ◌/◌, ◌^◌, ◌<◌, ◌≤◌, ◌++◌, All, filter, length, map, slice_index, sum, IsTrue, ◌↔◌, IfOk, IfSome, MatchOption, OnErr};
ghost use Rattle.std.specs.List.{range_with_len};
ghost use Rattle.flow_model.specs.Instances.{arc_at};
ghost use Rattle.flow_model.specs.Windows.{last_window};
ghost use Rattle.flow_windows.specs.Cuts.{Cut, cut_of};
ghost use Rattle.window_arcs.specs.Current.{AreDistinct, AreEmptied, AreEmptiedLive, AreInRange, AreKept, AreLive, AreLowered, ArePut, AreRanks, FitPrices, empty_numbers, kept_instance, passing_mark, passing_weight};
ghost use Rattle.window_arcs.specs.Passing.{IsOrder, ends_at, local_numbers, passing_numbers, starts_at, whole_share};

use crate::events::Events;
use crate::order::{Order, order_of, whole_share};
use crate::passing::{passes, passes_some};
use crate::places::PlaceTree;
use bound_base::NoMemory;
use flow_model::{Instance, OuterArc};
use flow_windows::window_instance;
use std::alloc::Global;
use std::marker::Model;

/// Of the arcs that pass through a window, those are solved whose ranks are from `first` to the one before `end`.
/// Those before have all of their weight as flow, `full` units together, and those after have none.
#[derive(Clone, Copy, Debug)]
pub struct KeptRanks {
    first: u32,
    end: u32,
    full: u64,
}

/// The windows of an instance from the first on, with the flows of the arcs so far: at first their weights. To go
/// through all windows takes time in the number of windows, of arcs, and of those that are kept, times the logarithm
/// of the number of arcs. It takes 28 bytes for each arc, and up to 84 for each that passes through some window.
#[derive(Drop)]
pub struct WindowArcs<'a> {
    whole: &'a Instance,
    width: u32,
    number: u32,
    order: Order,
    starts: Events,
    ends: Events,
    passing: PlaceTree<u128>,
    live: PlaceTree<u32>,
    flows: Vec<u64>,
}

impl<'a> Model for WindowArcs<'a> {
    ghost use Rattle.flow_windows.specs.Cuts.{cut_of};
    ghost use Rattle.window_arcs.specs.Current.{Current, IsCurrent};

    ghost Value = { Current };

    ghost view = { λ w. record { cut = cut_of w.whole.now w.width w.number; order = w.order.numbers.items; flows = w.flows.items } };

    ghost invariant = { λ w. IsCurrent (cut_of w.whole.now w.width w.number) w.order.numbers.items w.order.ranks.items w.starts w.ends w.passing w.live w.flows.items };
}

// The greatest flows that the arcs can have.
fn weights_of(alloc: Global, arcs: &[OuterArc]) -> Result<Vec<u64>, NoMemory>
    ensures { IfOk result (λ flows. flows.items ≡ map (λ arc. arc.weight) arcs.now) }
{
    Ok(arcs.iter().map(|arc| arc.weight).collect(alloc)?)
}

// The first window that each arc meets.
fn first_windows(alloc: Global, arcs: &[OuterArc], width: u32) -> Result<Vec<u32>, NoMemory>
    requires { 0 < width }
    ensures { IfOk result (λ keys. keys.items ≡ map (λ arc. arc.start / width) arcs.now) }
{
    Ok(arcs.iter().map(|arc| arc.start / width).collect(alloc)?)
}

// The last window that each arc meets.
fn last_windows(alloc: Global, arcs: &[OuterArc], width: u32) -> Result<Vec<u32>, NoMemory>
    requires { 0 < width }
    ensures { IfOk result (λ keys. keys.items ≡ map (last_window width) arcs.now) }
{
    Ok(
        arcs.iter()
            .map(|arc| arc.end.saturating_sub(1) / width)
            .collect(alloc)?,
    )
}

// Sets what stands at the ranks of these arcs for a window: the weight of an arc that passes through it, which is then
// live, and 0 for another. An arc that passes through no window has no rank.
fn put_passing(
    passing: &mut PlaceTree<u128>,
    live: &mut PlaceTree<u32>,
    order: &Order,
    whole: &Instance,
    width: u32,
    number: u32,
    changed: &[u32],
)
    requires some { 0 < width }
    requires ordered { IsOrder width whole.now.arcs order.now.numbers.items order.now.ranks.items }
    requires within { All (λ i. i < length whole.now.arcs) changed.now }
    requires each { length passing.old ≡ length order.now.numbers.items }
    requires each_live { length live.old ≡ length order.now.numbers.items }
    ensures weights { ArePut (passing_weight (cut_of whole.now width number)) order.now.numbers.items changed.now passing.old passing.new }
    ensures lives { ArePut (passing_mark (cut_of whole.now width number)) order.now.numbers.items changed.now live.old live.new }
{
    let arcs = whole.arcs();
    for at in changed {
        let arc = &arcs[*at as usize];
        if passes_some(arc, width) {
            let rank = order.ranks[*at as usize];
            let passes = passes(arc, width, number);
            let weight = if passes { arc.weight } else { 0 };
            passing.set(rank, u128::from(weight));
            live.set(rank, u32::from(passes));
        }
    }
}

// The prices, summed, if that fits.
fn sum_of(prices: &[u128]) -> Option<u128>
    ensures { MatchOption result (2 ^ 128 ≤ sum prices.now) (λ price. price ≡ sum prices.now) }
{
    let mut sum: u128 = 0;
    for price in prices {
        sum = sum.checked_add(*price)?;
    }
    Some(sum)
}

// Lowers the flow of each kept arc to that of its part.
fn lower_flows(flows: &mut [u64], kept: &[u32], part_flows: &[u64])
    requires distinct { AreDistinct kept.now }
    requires within { All (λ i. i < length flows.old) kept.now }
    requires each_part { length part_flows.now ≡ length kept.now }
    ensures { AreLowered kept.now part_flows.now flows.old flows.new }
{
    for (part, number) in kept.iter().enumerate() {
        let flow = flows[*number as usize].min(part_flows[part]);
        flows[*number as usize] = flow;
    }
}

// Takes their flow from the live arcs from this rank on, which are live no more.
fn empty_live(live: &mut PlaceTree<u32>, flows: &mut [u64], order: &[u32], from: u32)
    requires from { from ≤ length order.now }
    requires few { length order.now ≤ 2 ^ 26 }
    requires within { All (λ i. i < length flows.old) order.now }
    requires each_rank { length live.old ≡ length order.now }
    ensures { (cut : Cut) → AreLive cut order.now live.old flows.old → AreEmptiedLive cut order.now from flows.old live.new flows.new }
{
    let places = order.len() as u32;
    let mut rank = live.next(from);
    'up: while rank < places {
        flows[order[rank as usize] as usize] = 0;
        live.set(rank, 0);
        rank = live.next(rank + 1);
    }
}

impl<'a> WindowArcs<'a> {
    /// The first window of that width, which is less than the steps.
    pub fn new(alloc: Global, whole: &'a Instance, width: u32) -> Result<WindowArcs<'a>, NoMemory>
        requires some { 1 ≤ width }
        requires narrow { width < whole.now.steps }
        ensures cut { IfOk result (λ w. w.cut ≡ cut_of whole.now width 0) }
        ensures flows { IfOk result (λ w. w.flows ≡ map (λ arc. arc.weight) whole.now.arcs) }
    {
        let arcs = whole.arcs();
        // One for each window with a step, and one past the last of them.
        let lists = (whole.steps() / width) as usize + 2;
        let order = order_of(alloc, whole, width)?;
        let places = order.numbers.len() as u32;
        let starts = Events::new(alloc, first_windows(alloc, arcs, width)?, lists)?;
        let ends = Events::new(alloc, last_windows(alloc, arcs, width)?, lists)?;
        let mut passing = PlaceTree::new(alloc, places)?;
        let mut live = PlaceTree::new(alloc, places)?;
        let mut changed = Vec::new(alloc);
        starts.push_numbers(0, &mut changed)?;
        put_passing(&mut passing, &mut live, &order, whole, width, 0, &changed);
        Ok(WindowArcs {
            whole,
            width,
            number: 0,
            order,
            starts,
            ends,
            passing,
            live,
            flows: weights_of(alloc, arcs)?,
        })
    }

    /// Whether the current window has a step.
    pub fn has_step(&self) -> bool
        ensures { IsTrue result ↔ (self.now.cut.width * self.now.cut.number < self.now.cut.whole.steps) }
    {
        (self.width as u64 * self.number as u64) < self.whole.steps() as u64
    }

    // The numbers of the arcs that start in the current window and don't pass through it.
    fn starting(&self, alloc: Global) -> Result<Vec<u32>, NoMemory>
        ensures { IfOk result (λ numbers. numbers.items ≡ filter (starts_at self.now.cut) (range_with_len 0 (length self.now.cut.whole.arcs))) }
    {
        let arcs = self.whole.arcs();
        let mut all = Vec::new(alloc);
        self.starts.push_numbers(self.number, &mut all)?;
        let mut numbers = Vec::new(alloc);
        for number in &all {
            if !passes(&arcs[*number as usize], self.width, self.number) {
                numbers.push(*number)?;
            }
        }
        Ok(numbers)
    }

    // Appends the numbers of the arcs that start in another window and end in this one.
    fn push_ending(&self, alloc: Global, numbers: &mut Vec<u32>) -> Result<(), NoMemory>
        ensures { IfOk result (λ done. numbers.new.items ≡ numbers.old.items ++ filter (ends_at self.now.cut) (range_with_len 0 (length self.now.cut.whole.arcs))) }
    {
        let arcs = self.whole.arcs();
        let mut all = Vec::new(alloc);
        self.ends.push_numbers(self.number, &mut all)?;
        for number in &all {
            if arcs[*number as usize].start / self.width != self.number {
                numbers.push(*number)?;
            }
        }
        Ok(())
    }

    // Appends the numbers of the arcs that pass through the current window, of these ranks.
    fn push_passing(&self, ranks: KeptRanks, numbers: &mut Vec<u32>) -> Result<(), NoMemory>
        requires sorted { ranks.first ≤ ranks.end }
        requires within { ranks.end ≤ length self.now.order }
        ensures items { IfOk result (λ done. numbers.new.items ≡ numbers.old.items ++ passing_numbers self.now.cut self.now.order ranks.first ranks.end) }
        ensures kept { IfOk result (λ done. AreKept self.now ranks (local_numbers self.now.cut ++ passing_numbers self.now.cut self.now.order ranks.first ranks.end)) }
    {
        let mut rank = self.passing.next(ranks.first);
        while rank < ranks.end {
            numbers.push(self.order.numbers[rank as usize])?;
            rank = self.passing.next(rank + 1);
        }
        Ok(())
    }

    /// The numbers of the arcs that meet the current window and don't pass through it.
    pub fn local(&self, alloc: Global) -> Result<Vec<u32>, NoMemory>
        ensures { IfOk result (λ local. local.items ≡ local_numbers self.now.cut) }
    {
        let mut local = self.starting(alloc)?;
        self.push_ending(alloc, &mut local)?;
        Ok(local)
    }

    /// The numbers of the arcs that meet the current window, but for the passing ones before and after the ranks.
    pub fn kept(&self, alloc: Global, local: &[u32], ranks: KeptRanks) -> Result<Vec<u32>, NoMemory>
        requires local { local.now ≡ local_numbers self.now.cut }
        requires ranks { AreRanks self.now ranks }
        ensures { IfOk result (λ kept. AreKept self.now ranks kept.items) }
    {
        let mut kept = local.to_vec(alloc)?;
        self.push_passing(ranks, &mut kept)?;
        Ok(kept)
    }

    // How many ranks there are.
    fn places(&self) -> u32
        ensures { result ≡ length self.now.order }
    {
        self.order.numbers.len() as u32
    }

    /// All ranks, which no passing arc is before or after.
    pub fn everything(&self) -> KeptRanks
        ensures ranks { AreRanks self.now result }
        ensures first { result.first ≡ 0 }
        ensures end { result.end ≡ length self.now.order }
    {
        KeptRanks {
            first: 0,
            end: self.order.numbers.len() as u32,
            full: 0,
        }
    }

    // The weights of these arcs, summed.
    fn weight(&self, numbers: &[u32]) -> u128
        requires { All (λ i. i < length self.now.cut.whole.arcs) numbers.now }
    {
        let arcs = self.whole.arcs();
        let mut sum: u128 = 0;
        for number in numbers {
            sum = sum.saturating_add(u128::from(arcs[*number as usize].weight));
        }
        sum
    }

    /// The ranks of the passing arcs whose flow can be a part of their weight, with one on either side. The units of
    /// the window are more than the weights of those before, and of all arcs that don't pass through it.
    pub fn likely(&self, local: &[u32]) -> KeptRanks
        requires { local.now ≡ local_numbers self.now.cut }
        ensures { AreRanks self.now result }
    {
        let units = u128::from(self.whole.units());
        let taken = self.weight(local).saturating_add(1);
        let sure = self.passing.within(units.saturating_sub(taken));
        let first = self.passing.below(sure.sum);
        let end = self.passing.within(units).places.saturating_add(1);
        KeptRanks {
            first: first.places,
            end: end.max(first.places).min(self.places()),
            full: first.sum as u64,
        }
    }

    // How many ranks are before the first of which a window costs no more than that.
    fn dearer(&self, price: u128) -> u32
        ensures { result ≤ length self.now.order }
    {
        let mut low = 0;
        let mut high = self.places();
        'half: while low < high {
            let middle = low + (high - low) / 2;
            if self.share_at(middle) > price {
                low = middle + 1;
            } else {
                high = middle;
            }
        }
        low
    }

    /// A guess which of the ranks will do, if the prices sum to this, or up to the margin more or less: those of which a
    /// window costs as much. There is none for the price 0, nor if the passing arcs before the ranks leave no unit.
    pub fn near(&self, ranks: KeptRanks, price: u128, margin: u128) -> Option<KeptRanks>
        requires { AreRanks self.now ranks }
        ensures { IfSome result (λ near. AreRanks self.now near) }
    {
        let dear = self.dearer(price.saturating_add(margin));
        let first = dear.max(ranks.first).min(ranks.end);
        let cheap = self.dearer(price.saturating_sub(margin));
        let end = cheap.saturating_add(1).max(first);
        let full = self.passing.before(first);
        if price == 0 || full >= u128::from(self.whole.units()) {
            return None;
        }
        Some(KeptRanks {
            first,
            end: end.min(ranks.end),
            full: full as u64,
        })
    }

    /// The current window with the arcs that are kept, and with the units that the passing arcs before them leave.
    pub fn instance(
        &self,
        alloc: Global,
        kept: &[u32],
        ranks: KeptRanks,
    ) -> Result<Instance, NoMemory>
        requires has_step { self.now.cut.width * self.now.cut.number < self.now.cut.whole.steps }
        requires ranks { AreRanks self.now ranks }
        requires kept { AreKept self.now ranks kept.now }
        ensures { IfOk result (λ i. i ≡ kept_instance self.now.cut kept.now ranks.full) }
    {
        let arcs = self.whole.arcs();
        let mut of_kept = Vec::with_capacity(alloc, kept.len())?;
        for number in kept {
            of_kept.push(arcs[*number as usize])?;
        }
        let units = self.whole.units() - ranks.full;
        let whole = Instance::new(self.whole.steps(), units, of_kept);
        window_instance(alloc, &whole, self.width, self.number)
    }

    // What a window costs of the arc of that rank: no more than of those before it, and no less than of those after it.
    fn share_at(&self, rank: u32) -> u128
        requires { rank < length self.now.order }
        ensures share { result ≡ whole_share self.now.cut.width (arc_at self.now.cut.whole.arcs (slice_index self.now.order rank)) }
        ensures before { (r : ℕ) → r ≤ rank → result ≤ whole_share self.now.cut.width (arc_at self.now.cut.whole.arcs (slice_index self.now.order r)) }
        ensures after { (r : ℕ) → rank ≤ r → r < length self.now.order → whole_share self.now.cut.width (arc_at self.now.cut.whole.arcs (slice_index self.now.order r)) ≤ result }
    {
        whole_share(
            &self.whole.arcs()[self.order.numbers[rank as usize] as usize],
            self.width,
        )
    }

    // Whether a window costs no less than this of each arc before the ranks.
    fn suits_full(&self, ranks: KeptRanks, price: u128) -> bool
        requires { AreRanks self.now ranks }
        ensures { IsTrue result ↔ ((r : ℕ) → r < ranks.first → price ≤ whole_share self.now.cut.width (arc_at self.now.cut.whole.arcs (slice_index self.now.order r))) }
    {
        ranks.first == 0 || price <= self.share_at(ranks.first - 1)
    }

    // Whether a window costs no more than this of each arc after the ranks.
    fn suits_empty(&self, ranks: KeptRanks, price: u128) -> bool
        requires { AreRanks self.now ranks }
        ensures { IsTrue result ↔ ((r : ℕ) → ranks.end ≤ r → r < length self.now.order → whole_share self.now.cut.width (arc_at self.now.cut.whole.arcs (slice_index self.now.order r)) ≤ price) }
    {
        ranks.end == self.places() || self.share_at(ranks.end) <= price
    }

    /// Whether these prices of the current window suit the passing arcs that aren't kept, and sum to less than 2^128.
    pub fn fits(&self, ranks: KeptRanks, prices: &[u128]) -> bool
        requires { AreRanks self.now ranks }
        ensures { IsTrue result ↔ (FitPrices self.now ranks prices.now × (sum prices.now < 2 ^ 128)) }
    {
        match sum_of(prices) {
            None => false,
            Some(price) => self.suits_full(ranks, price) && self.suits_empty(ranks, price),
        }
    }

    /// Lowers the flow of each kept arc to that of its part.
    pub fn lower(&mut self, kept: &[u32], ranks: KeptRanks, part_flows: &[u64])
        requires kept { AreKept self.old ranks kept.now }
        requires each_part { length part_flows.now ≡ length kept.now }
        ensures cut { self.new.cut ≡ self.old.cut }
        ensures order { self.new.order ≡ self.old.order }
        ensures flows { AreLowered kept.now part_flows.now self.old.flows self.new.flows }
        ensures in_range { AreInRange self.old }
    {
        lower_flows(&mut self.flows, kept, part_flows);
    }

    /// Takes their flow from the passing arcs after the ranks.
    pub fn empty(&mut self, ranks: KeptRanks)
        requires { AreRanks self.old ranks }
        ensures cut { self.new.cut ≡ self.old.cut }
        ensures order { self.new.order ≡ self.old.order }
        ensures flows { AreEmptied (empty_numbers self.old ranks) self.old.flows self.new.flows }
    {
        empty_live(
            &mut self.live,
            &mut self.flows,
            &self.order.numbers,
            ranks.end,
        );
    }

    /// Goes on to the next window. Without memory it stays at this one.
    pub fn advance(&mut self, alloc: Global) -> Result<(), NoMemory>
        requires { self.old.cut.width * self.old.cut.number < self.old.cut.whole.steps }
        ensures cut { IfOk result (λ done. self.new.cut ≡ record self.old.cut { number = self.old.cut.number + 1 }) }
        ensures flows { IfOk result (λ done. self.new.flows ≡ self.old.flows) }
        ensures order { IfOk result (λ done. self.new.order ≡ self.old.order) }
        ensures kept { OnErr result (self.new ≡ self.old) }
    {
        // There are at most 2^25 steps, so the next number fits.
        let _arcs = self.whole.arcs();
        let next = self.number + 1;
        let mut changed = Vec::new(alloc);
        self.starts.push_numbers(self.number, &mut changed)?;
        self.starts.push_numbers(next, &mut changed)?;
        self.ends.push_numbers(next, &mut changed)?;
        put_passing(
            &mut self.passing,
            &mut self.live,
            &self.order,
            self.whole,
            self.width,
            next,
            &changed,
        );
        self.number = next;
        Ok(())
    }

    /// The flow of each arc so far.
    pub fn into_flows(self) -> Vec<u64>
        ensures { result.items ≡ self.entry.flows }
    {
        self.flows
    }
}
