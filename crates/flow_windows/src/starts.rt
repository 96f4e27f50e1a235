//! The arcs that start in each window.
ghost use Rattle.std.specs.Prelude.{◌≡◌, ◌<◌, ◌≤◌, ◌/◌, ◌^◌, length, slice_index, IfOk, All};
ghost use Rattle.flow_windows.specs.Cuts.{AreStarts, WindowLists, put_first};

use bound_base::NoMemory;
use flow_model::OuterArc;
use std::alloc::Global;
use std::marker::Model;

/// For each window the numbers of the arcs that start in it, as a list in order. At its end stands how many arcs
/// there are.
#[derive(Drop)]
pub(crate) struct Starts {
    first: Vec<u32>,
    next: Vec<u32>,
}

impl Model for Starts {
    ghost use Rattle.flow_windows.specs.Cuts.{WindowLists};

    ghost Value = { WindowLists };

    ghost view = { λ s. record { first = s.first.items; next = s.next.items } };
}

impl Starts {
    /// The lists for this many windows of that width. They take 4 bytes for each window and for each arc.
    pub(crate) fn new(
        alloc: Global,
        arcs: &[OuterArc],
        width: u32,
        windows: usize,
    ) -> Result<Starts, NoMemory>
        requires width { 0 < width }
        requires few { length arcs.now ≤ 2 ^ 26 }
        requires windows { All (λ arc. arc.start / width < windows) arcs.now }
        ensures starts { IfOk result (AreStarts width arcs.now) }
        ensures windows { IfOk result (λ s. length s.first ≡ windows) }
    {
        let past = arcs.len() as u32;
        let first = vec![in alloc; past; windows]?;
        let next = vec![in alloc; past; arcs.len()]?;
        let mut starts = Starts { first, next };
        for number in (0..past).rev() {
            starts.add(number, arcs[number as usize].start / width);
        }
        Ok(starts)
    }

    // Puts the number at the beginning of the list of the window.
    fn add(&mut self, number: u32, window: u32)
        requires number { number < length self.old.next }
        requires window { window < length self.old.first }
        ensures { self.new ≡ put_first self.old number window }
    {
        self.next[number as usize] = self.first[window as usize];
        self.first[window as usize] = number;
    }

    /// The first number in the list of the window.
    pub(crate) fn first(&self, window: u32) -> u32
        requires { window < length self.now.first }
        ensures { result ≡ slice_index self.now.first window }
    {
        self.first[window as usize]
    }

    /// The number after this one in its list.
    pub(crate) fn after(&self, number: u32) -> u32
        requires { number < length self.now.next }
        ensures { result ≡ slice_index self.now.next number }
    {
        self.next[number as usize]
    }
}
