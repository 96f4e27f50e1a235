//! A tree over a list of loads: each node keeps what was added to its whole range, and the greatest load of it.
//!
//! The nodes stand with each one before those of its left half, and these before those of its right half. A tree of
//! height 0 is one node, which has a short range, whose loads are walked.
ghost use Rattle.std.specs.Prelude.{◌≡◌, ◌+◌, ◌/◌, ◌<◌, ◌≤◌, ◌^◌, length, All};
ghost use Rattle.load_tree.specs.Ranges.{AddsOver, HasRoom};
ghost use Rattle.load_tree.specs.Trees.{IsMostOver, IsTree, loads_of, nodes_of, root};

/// A range of steps: what was added to all of it at once, and its greatest load with that.
#[derive(Clone, Copy, Debug, PartialEq, Eq)]
pub(crate) struct Node {
    pub(crate) added: u128,
    pub(crate) most: u128,
}

/// A tree by its height and how many nodes it has.
#[derive(Clone, Copy, Debug, PartialEq, Eq)]
pub(crate) struct Shape {
    pub(crate) height: u32,
    pub(crate) nodes: usize,
}

// How many steps a node of height 0 has at least, if there are that many.
const LEAF: usize = 16;

/// The tree for that many steps, whose nodes of height 0 have few steps each.
pub(crate) fn shape_of(steps: u32) -> Shape
    ensures nodes { result.nodes ≡ nodes_of result.height }
    ensures enough { steps / 16 ≤ result.nodes }
    ensures few { result.nodes ≤ steps / 8 + 1 }
{
    let enough = steps as usize / LEAF;
    let mut height = 0;
    let mut nodes = 1usize;
    'higher: while nodes < enough {
        height += 1;
        nodes = 2 * nodes + 1;
    }
    Shape { height, nodes }
}

// Adds the amount to the loads from `from` to the one before `to`.
fn add_each(loads: &mut [u128], from: usize, to: usize, amount: u128)
    requires order { from ≤ to }
    requires within { to ≤ length loads.old }
    requires room { HasRoom loads.old from to amount }
    ensures { AddsOver loads.old loads.new from to amount }
{
    for step in from..to {
        loads[step] += amount;
    }
}

// The greatest of the loads from `from` to the one before `to`, and 0 of none.
fn most_of(loads: &[u128], from: usize, to: usize) -> u128
    requires order { from ≤ to }
    requires within { to ≤ length loads.now }
    ensures { IsMostOver loads.now from to result }
{
    let mut most = 0;
    for step in from..to {
        most = most.max(loads[step]);
    }
    most
}

/// Adds the amount to the loads from `from` to the one before `to`, and answers the greatest load of the whole tree.
/// If the range has no step nothing changes.
pub(crate) fn add(
    nodes: &mut [Node],
    loads: &mut [u128],
    height: u32,
    from: usize,
    to: usize,
    amount: u128,
) -> u128
    requires tree { IsTree height nodes.old loads.old }
    requires small { All (λ load. load ≤ 2 ^ 100) (loads_of height nodes.old loads.old) }
    requires within { to ≤ length loads.old }
    requires room { HasRoom (loads_of height nodes.old loads.old) from to amount }
    ensures tree { IsTree height nodes.new loads.new }
    ensures added { AddsOver (loads_of height nodes.old loads.old) (loads_of height nodes.new loads.new)
        from to amount }
    ensures most { result ≡ (root nodes.new).most }
{
    let root = nodes[0];
    if from >= to {
        return root.most;
    }
    if from == 0 && to == loads.len() {
        nodes[0] = Node {
            added: root.added + amount,
            most: root.most + amount,
        };
        root.most + amount
    } else if height == 0 {
        add_each(loads, from, to, amount);
        let most = root.added + most_of(loads, 0, loads.len());
        nodes[0].most = most;
        most
    } else {
        let half = nodes.len() / 2;
        let mid = loads.len() / 2;
        let left = add(
            &mut nodes[1..1 + half],
            &mut loads[..mid],
            height - 1,
            from.min(mid),
            to.min(mid),
            amount,
        );
        let right = add(
            &mut nodes[1 + half..],
            &mut loads[mid..],
            height - 1,
            from.saturating_sub(mid),
            to.saturating_sub(mid),
            amount,
        );
        let most = root.added + left.max(right);
        nodes[0].most = most;
        most
    }
}

/// The greatest of the loads from `from` to the one before `to`, and 0 of none.
pub(crate) fn max(nodes: &[Node], loads: &[u128], height: u32, from: usize, to: usize) -> u128
    requires tree { IsTree height nodes.now loads.now }
    requires small { All (λ load. load ≤ 2 ^ 100) (loads_of height nodes.now loads.now) }
    requires within { to ≤ length loads.now }
    ensures { IsMostOver (loads_of height nodes.now loads.now) from to result }
{
    if from >= to {
        return 0;
    }
    let root = nodes[0];
    if from == 0 && to == loads.len() {
        root.most
    } else if height == 0 {
        root.added + most_of(loads, from, to)
    } else {
        let half = nodes.len() / 2;
        let mid = loads.len() / 2;
        let left = max(
            &nodes[1..1 + half],
            &loads[..mid],
            height - 1,
            from.min(mid),
            to.min(mid),
        );
        let right = max(
            &nodes[1 + half..],
            &loads[mid..],
            height - 1,
            from.saturating_sub(mid),
            to.saturating_sub(mid),
        );
        root.added + left.max(right)
    }
}
