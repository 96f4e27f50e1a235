//! Start prices: the steps that have one are open, and the flows suit them.
ghost use Rattle.std.specs.Prelude.{◌≡◌, ℕ, ◌+◌, ◌<◌, ◌≤◌, ◌^◌, false, length, slice_index, slice_index_or};
ghost use Rattle.flow_sparse.specs.Starts.{IsFitted, AreFitted};

use flow_model::Instance;

/// Lets the steps be open that have a price.
pub(crate) fn open_priced(prices: &[u128], opens: &mut [bool])
    requires { length opens.old ≡ length prices.now }
    ensures each { length opens.new ≡ length opens.old }
    ensures shut { (t : ℕ) → t < length opens.old → slice_index_or opens.new t false ≡ false → slice_index prices.now t ≡ 0 }
{
    for step in 0..opens.len() {
        opens[step] = prices[step] > 0;
    }
}

/// Cuts prices above the greatest cost that an arc can have.
pub(crate) fn cut_prices(prices: &mut [u128])
    ensures each { length prices.new ≡ length prices.old }
    ensures small { (t : ℕ) → t < length prices.old → slice_index prices.new t ≤ 2 ^ 97 }
{
    for step in 0..prices.len() {
        prices[step] = prices[step].min(1 << 97);
    }
}

/// Writes for each time the sum of the prices from there on.
pub(crate) fn write_falls(prices: &[u128], falls: &mut [u128])
    requires few { length prices.now ≤ 2 ^ 25 }
    requires each { length falls.old ≡ length prices.now + 1 }
    requires small { (t : ℕ) → t < length prices.now → slice_index prices.now t ≤ 2 ^ 97 }
    ensures falls { (t : ℕ) → t < length prices.now → slice_index prices.now t + slice_index falls.new (t + 1) ≡ slice_index falls.new t }
    ensures small { (t : ℕ) → t ≤ length prices.now → slice_index falls.new t ≤ 2 ^ 122 }
    ensures each { length falls.new ≡ length falls.old }
{
    let last = prices.len();
    let mut sum = 0;
    falls[last] = 0;
    for step in (0..last).rev() {
        sum += prices[step];
        falls[step] = sum;
    }
}

// The flow of an arc: its weight, unless it costs less than the prices fall.
fn flow_of(weight: u64, cost: u128, high: u128, low: u128) -> u64
    requires small { (cost ≤ 2 ^ 97) × (low ≤ 2 ^ 122) }
    ensures { IsFitted weight cost high low result }
{
    if cost + low < high { 0 } else { weight }
}

/// Gives each arc its weight as flow, unless it costs less than its steps' prices.
pub(crate) fn fit_flows(instance: &Instance, falls: &[u128], flows: &mut [u64])
    requires each_arc { length flows.old ≡ length instance.now.arcs }
    requires each { length falls.now ≡ instance.now.steps + 1 }
    requires small { (t : ℕ) → t ≤ instance.now.steps → slice_index falls.now t ≤ 2 ^ 122 }
    ensures each { length flows.new ≡ length flows.old }
    ensures fitted { AreFitted instance.now falls.now flows.new }
{
    let arcs = instance.arcs();
    for number in 0..flows.len() {
        let arc = arcs[number];
        flows[number] = flow_of(
            arc.weight,
            arc.cost,
            falls[arc.start as usize],
            falls[arc.end as usize],
        );
    }
}
