//! A number at each place, set one by one, with the next place that has one.
ghost use Rattle.std.specs.Prelude.{◌≡◌, ◌≢◌, ℕ, ◌<◌, ◌≤◌, ◌*◌, ◌^◌, length, map, replicate, slice_index, slice_range, slice_set, All, IfOk};
ghost use Rattle.sum_tree.specs.Sums.{IsTree, sum_at};
ghost use Rattle.window_arcs.specs.Places.{IsLeft};

use bound_base::NoMemory;
use std::alloc::Global;
use std::marker::Model;
use sum_tree::{SumNumber, set_leaf};

/// A number at each place, in a tree of their sums. Places count from 0. It takes memory for two numbers a place, or up
/// to four: the leaves are as many as the next power of two.
#[derive(Debug, Drop)]
pub(crate) struct PlaceTree<N: SumNumber> {
    pub(crate) places: u32,
    pub(crate) leaves: u32,
    pub(crate) sums: Vec<N>,
}

impl<N: SumNumber> Model for PlaceTree<N> {
    ghost use Rattle.std.specs.Prelude.{List, ℕ, map};
    ghost use Rattle.window_arcs.specs.Places.{IsPlaced, numbers_at};

    ghost Value = { List ℕ };

    ghost view = { λ s. numbers_at s.places s.leaves (map N.value s.sums.items) };

    ghost invariant = { λ s. IsPlaced N.greatest s.places s.leaves (map N.value s.sums.items) };
}

// A sum of 0 at each node of a tree over that many leaves.
fn no_sums<N: SumNumber>(alloc: Global, leaves: u32) -> Result<Vec<N>, NoMemory>
    requires { leaves ≤ 2 ^ 27 }
    ensures { IfOk result (λ sums. map N.value sums.items ≡ replicate (2 * leaves) 0) }
{
    let nodes = 2 * leaves as usize;
    let mut sums = Vec::with_capacity(alloc, nodes)?;
    for node in 0..nodes {
        sums.push(N::zero())?;
    }
    Ok(sums)
}

/// A node of a level of a tree of sums. The level has as many nodes as the number of its first one.
#[derive(Clone, Copy, Debug)]
struct LevelNode {
    start: usize,
    node: usize,
}

// Upwards from the leaf of a place, past sums of 0: to the first node with another sum, or past the end of a level.
fn first_up<N: SumNumber>(sums: &[N], leaves: usize, from: usize) -> LevelNode
    requires tree { IsTree N.greatest leaves (map N.value sums.now) }
    requires power { (levels : ℕ) × (leaves ≡ 2 ^ levels) }
    requires within { from ≤ leaves }
    ensures left { IsLeft leaves from (map N.value sums.now) result.start result.node }
    ensures found { result.node < 2 * result.start → sum_at (map N.value sums.now) result.node ≢ 0 }
{
    let mut start = leaves;
    let mut node = leaves + from;
    'up: while node < 2 * start && sums[node].equals(N::zero()) {
        node += 1;
        if start > 1 && node % 2 == 0 {
            start /= 2;
            node /= 2;
        }
    }
    LevelNode { start, node }
}

// Downwards from a node with another sum than 0 to the first such leaf below it.
fn first_down<N: SumNumber>(sums: &[N], leaves: usize, from: usize, top: LevelNode) -> usize
    requires tree { IsTree N.greatest leaves (map N.value sums.now) }
    requires left { IsLeft leaves from (map N.value sums.now) top.start top.node }
    requires low { top.node < 2 * top.start }
    requires found { sum_at (map N.value sums.now) top.node ≢ 0 }
    ensures left { IsLeft leaves from (map N.value sums.now) leaves result }
    ensures low { result < 2 * leaves }
    ensures found { sum_at (map N.value sums.now) result ≢ 0 }
{
    let LevelNode {
        mut start,
        mut node,
    } = top;
    'down: while start < leaves {
        start *= 2;
        node *= 2;
        if sums[node].equals(N::zero()) {
            node += 1;
        }
    }
    node
}

impl<N: SumNumber> PlaceTree<N> {
    /// That many places with 0 at each.
    pub(crate) fn new(alloc: Global, places: u32) -> Result<PlaceTree<N>, NoMemory>
        requires { places ≤ 2 ^ 26 }
        ensures { IfOk result (λ s. s ≡ replicate places 0) }
    {
        let leaves = places.next_power_of_two();
        Ok(PlaceTree {
            places,
            leaves,
            sums: no_sums(alloc, leaves)?,
        })
    }

    /// Sets the number at a place. If another stands there, it takes time in the logarithm of the number of places.
    pub(crate) fn set(&mut self, place: u32, number: N)
        requires within { place < length self.old }
        requires small { N.value number ≤ N.greatest }
        ensures { self.new ≡ slice_set self.old place (N.value number) }
    {
        let leaves = self.leaves as usize;
        if !self.sums[leaves + place as usize].equals(number) {
            set_leaf(&mut self.sums, leaves, place as usize, number);
        }
    }

    /// The first place from this one on with another number than 0, and the number of places if there is none. It
    /// takes time in the logarithm of how many places are between.
    pub(crate) fn next(&self, from: u32) -> u32
        requires { from ≤ length self.now }
        ensures order { from ≤ result }
        ensures within { result ≤ length self.now }
        ensures none_before { All (λ number. number ≡ 0) (slice_range self.now from result) }
        ensures found { result < length self.now → slice_index self.now result ≢ 0 }
    {
        let leaves = self.leaves as usize;
        let top = first_up(&self.sums, leaves, from as usize);
        if top.node == 2 * top.start {
            return self.places;
        }
        (first_down(&self.sums, leaves, from as usize, top) - leaves) as u32
    }
}
