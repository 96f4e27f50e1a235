//! The instance of a window, with a part of each arc that meets it.
ghost use Rattle.std.specs.Prelude.{◌≡◌, ◌+◌, ◌-◌, ◌*◌, ◌/◌, ◌<◌, ◌≤◌, ◌^◌, min, sum_by, IfOk};
ghost use Rattle.std.specs.List.{range_with_len};
ghost use Rattle.flow_model.specs.Windows.{last_window, meets, part_cost, part_of, part_share, part_steps, window_instance};

use bound_base::{NoMemory, floor_div};
use flow_model::{Instance, OuterArc};
use std::alloc::Global;

// The cost of the arc, shared among its steps and rounded down, for this many of them.
fn share_of(arc: &OuterArc, steps: u64) -> u128
    requires order { arc.now.start < arc.now.end }
    requires cost { arc.now.cost ≤ 2 ^ 97 }
    requires steps { steps < 2 ^ 31 }
    ensures { result ≡ arc.now.cost * steps / (arc.now.end - arc.now.start) }
{
    floor_div(arc.cost * steps as u128, (arc.end - arc.start) as u128)
}

// What the parts of the arc cost before the last window that it meets. The windows between the first and the last
// have one share each, of a whole width.
fn cost_before_last(arc: &OuterArc, width: u32) -> u128
    requires width { 0 < width }
    requires order { arc.now.start < arc.now.end }
    requires end { arc.now.end ≤ 2 ^ 25 }
    requires cost { arc.now.cost ≤ 2 ^ 97 }
    ensures sum { result ≡ sum_by (λ j. part_share width j arc.now) (range_with_len 0 (last_window width arc.now)) }
    ensures most { result ≤ arc.now.cost }
{
    let first = arc.start / width;
    let last = (arc.end - 1) / width;
    if first == last {
        return 0;
    }
    let in_first = (first + 1) * width - arc.start;
    let between = (last - first - 1) as u128;
    share_of(arc, in_first as u64) + between * share_of(arc, width as u64)
}

/// Window `number` of that width: the steps from `start` to the one before `end`, of which the last window may lack
/// some.
#[derive(Clone, Copy)]
pub(crate) struct Window {
    width: u32,
    number: u32,
    start: u64,
    end: u64,
    ghost some_width: { 0 < width },
    ghost starts: { start ≡ width * number },
    ghost ends: { end ≡ width * (number + 1) },
}

impl Window {
    pub(crate) fn new(width: u32, number: u32) -> Window
        requires { 0 < width }
        ensures width { result.width ≡ width }
        ensures number { result.number ≡ number }
    {
        let start = width as u64 * number as u64;
        Window {
            width,
            number,
            start,
            end: start + width as u64,
        }
    }

    pub(crate) fn number(self) -> u32
        ensures { result ≡ self.number }
    {
        self.number
    }

    // How many steps of the window the arc covers.
    fn steps_of(self, arc: &OuterArc) -> u64
        ensures { result ≡ part_steps self.width self.number arc.now }
    {
        let start = self.start.max(arc.start as u64);
        let end = self.end.min(arc.end as u64);
        end.saturating_sub(start)
    }

    /// Whether the arc covers a step of the window.
    pub(crate) fn meets(self, arc: &OuterArc) -> bool
        ensures { result ≡ meets self.width self.number arc.now }
    {
        self.steps_of(arc) > 0
    }

    // What the part of the arc costs.
    fn cost_of(self, arc: &OuterArc) -> u128
        requires order { arc.now.start < arc.now.end }
        requires end { arc.now.end ≤ 2 ^ 25 }
        requires cost { arc.now.cost ≤ 2 ^ 97 }
        ensures { result ≡ part_cost self.width self.number arc.now }
    {
        if self.number == (arc.end - 1) / self.width {
            arc.cost - cost_before_last(arc, self.width)
        } else {
            share_of(arc, self.steps_of(arc))
        }
    }

    /// The part of the arc in the window, with steps counted from the window's first.
    pub(crate) fn part_of(self, arc: &OuterArc) -> OuterArc
        requires met { 0 < part_steps self.width self.number arc.now }
        requires order { arc.now.start < arc.now.end }
        requires end { arc.now.end ≤ 2 ^ 25 }
        requires cost { arc.now.cost ≤ 2 ^ 97 }
        ensures { result ≡ part_of self.width self.number arc.now }
    {
        let start = self.start.max(arc.start as u64) - self.start;
        let end = self.end.min(arc.end as u64) - self.start;
        OuterArc {
            start: start as u32,
            end: end as u32,
            weight: arc.weight,
            cost: self.cost_of(arc),
        }
    }

    /// How many of this many steps stand in the window.
    pub(crate) fn steps_within(self, steps: u32) -> u32
        requires { self.width * self.number ≤ steps }
        ensures { result ≡ min steps (self.width * (self.number + 1)) - self.width * self.number }
    {
        (self.end.min(steps as u64) - self.start) as u32
    }
}

/// Window `number` of that width as an instance, with steps counted from the window's first: a part of each arc that
/// meets it, in the order of the arcs. It takes two passes over the arcs, and 32 bytes for each part.
pub fn window_instance(
    alloc: Global,
    whole: &Instance,
    width: u32,
    number: u32,
) -> Result<Instance, NoMemory>
    requires width { 1 ≤ width }
    requires has_step { width * number < whole.now.steps }
    ensures { IfOk result (λ i. i ≡ window_instance whole.now width number) }
{
    let window = Window::new(width, number);
    let arcs = whole.arcs();
    let count = arcs.iter().filter(|arc| window.meets(arc)).count();
    let mut parts = Vec::with_capacity(alloc, count)?;
    for arc in arcs {
        if window.meets(arc) {
            parts.push_reserved(window.part_of(arc));
        }
    }
    Ok(Instance::new(window.steps_within(whole.steps()), whole.units(), parts))
}
