//! The windows of an instance, one after another.
ghost use Rattle.std.specs.Prelude.{◌≡◌, ◌<◌, ◌≤◌, ◌*◌, ◌+◌, ◌^◌, [], length, slice_index_or, IsTrue, ◌↔◌, IfOk};
ghost use Rattle.std.specs.Vec.{vec_capacity};
ghost use Rattle.flow_model.specs.Windows.{meets, window_instance};
ghost use Rattle.flow_windows.specs.Cuts.{AreStarts, numbers_of, numbers_where, met_before};

use crate::parts::Window;
use crate::starts::Starts;
use bound_base::NoMemory;
use flow_model::{Instance, OuterArc};
use std::alloc::Global;
use std::marker::Model;
use std::mem;

/// The windows of an instance from the first on, with the numbers of the arcs that meet the current one. To go
/// through all of them takes time in the number of windows, arcs and parts of arcs.
#[derive(Drop)]
pub struct Windows<'a> {
    whole: &'a Instance,
    width: u32,
    number: u32,
    starts: Starts,
    met: Vec<u32>,
    spare: Vec<u32>,
}

impl<'a> Model for Windows<'a> {
    ghost use Rattle.flow_windows.specs.Cuts.{Cut, IsCut, cut_of};
    ghost use Rattle.std.specs.Vec.{vec_capacity};

    ghost Value = { Cut };

    ghost view = { λ w. cut_of w.whole.now w.width w.number };

    ghost invariant = { λ w. IsCut (cut_of w.whole.now w.width w.number) w.starts w.met.items (vec_capacity w.met) (vec_capacity w.spare) };
}

// The number at that place, and what is past all numbers where the place is past the end.
fn number_at(numbers: &[u32], at: usize, past: u32) -> u32
    ensures { result ≡ slice_index_or numbers.now at past }
{
    if at < numbers.len() {
        numbers[at]
    } else {
        past
    }
}

// Adds the numbers of the arcs that meet the window, in order. Each has met the window before, or starts in this one.
fn gather(arcs: &[OuterArc], window: Window, before: &[u32], starts: &Starts, met: &mut Vec<u32>)
    requires before { before.now ≡ numbers_where (met_before window.width window.number) arcs.now }
    requires starts { AreStarts window.width arcs.now starts.now }
    requires window { window.number < length starts.now.first }
    requires few { length arcs.now ≤ 2 ^ 26 }
    requires empty { met.old.items ≡ [] }
    requires room { length arcs.now ≤ vec_capacity met.old }
    ensures met { met.new.items ≡ numbers_where (meets window.width window.number) arcs.now }
    ensures room { vec_capacity met.new ≡ vec_capacity met.old }
{
    let past = arcs.len() as u32;
    let mut at = 0;
    let mut starting = starts.first(window.number());
    while at < before.len() || starting < past {
        let staying = number_at(before, at, past);
        let number = staying.min(starting);
        if staying == number {
            at += 1;
        }
        if starting == number {
            starting = starts.after(number);
        }
        if window.meets(&arcs[number as usize]) {
            met.push_reserved(number);
        }
    }
}

impl<'a> Windows<'a> {
    /// The windows of that width. They take 4 bytes for each window, and 12 for each arc.
    pub fn new(alloc: Global, whole: &'a Instance, width: u32) -> Result<Windows<'a>, NoMemory>
        requires { 1 ≤ width }
        ensures { IfOk result (λ w. w ≡ record { whole = whole.now; width = width; number = 0 }) }
    {
        let arcs = whole.arcs();
        // One for each window with a step, and one past the last of them.
        let lists = (whole.steps() / width) as usize + 2;
        let mut met = Vec::with_capacity(alloc, arcs.len())?;
        let spare = Vec::with_capacity(alloc, arcs.len())?;
        let starts = Starts::new(alloc, arcs, width, lists)?;
        gather(arcs, Window::new(width, 0), &spare, &starts, &mut met);
        Ok(Windows {
            whole,
            width,
            number: 0,
            starts,
            met,
            spare,
        })
    }

    /// Whether the current window has a step.
    pub fn has_step(&self) -> bool
        ensures { IsTrue result ↔ (self.now.width * self.now.number < self.now.whole.steps) }
    {
        (self.width as u64 * self.number as u64) < self.whole.steps() as u64
    }

    /// The numbers of the arcs that meet the current window, in order.
    pub fn numbers(&self) -> &[u32]
        ensures { result.now ≡ numbers_of self.now }
    {
        &self.met
    }

    /// The current window as an instance, with a part of each arc that meets it. It takes 32 bytes for each part.
    pub fn instance(&self, alloc: Global) -> Result<Instance, NoMemory>
        requires { self.now.width * self.now.number < self.now.whole.steps }
        ensures { IfOk result (λ i. i ≡ window_instance self.now.whole self.now.width self.now.number) }
    {
        let window = Window::new(self.width, self.number);
        let arcs = self.whole.arcs();
        let mut parts = Vec::with_capacity(alloc, self.met.len())?;
        for number in &self.met {
            parts.push_reserved(window.part_of(&arcs[*number as usize]));
        }
        Ok(Instance::new(
            window.steps_within(self.whole.steps()),
            self.whole.units(),
            parts,
        ))
    }

    /// Goes on to the next window.
    pub fn advance(&mut self)
        requires { self.old.width * self.old.number < self.old.whole.steps }
        ensures { self.new ≡ record self.old { number = self.old.number + 1 } }
    {
        let arcs = self.whole.arcs();
        self.number += 1;
        let window = Window::new(self.width, self.number);
        self.spare.clear();
        gather(arcs, window, &self.met, &self.starts, &mut self.spare);
        mem::swap(&mut self.met, &mut self.spare);
    }
}
