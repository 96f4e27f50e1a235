//! Capacities between commas.
ghost use Rattle.std.specs.Prelude.{◌≡◌, ◌∷◌, All, MatchOption, IfOk, None, true};
ghost use Rattle.std.specs.List.Sorted.{IsNonDecreasing, IsStrictlyIncreasing};
ghost use Rattle.std.specs.Option.{is_some, option_copied};
ghost use Rattle.capacity_curve.specs.Points.{IsInRange};
ghost use Rattle.bound_words.specs.Capacities.{IsNext, capacities_in, capacities_of, capacity_list, rising, words_left, words_of_list};

use crate::values::capacity_of;
use bound_base::NoMemory;
use std::alloc::Global;
use std::marker::Model;

/// The most capacities of a list.
pub const MOST_CAPACITIES: usize = 1000;

// The first capacity of a list, and what is left after its comma, if it has one.
#[derive(Clone, Copy)]
struct Next<'a> {
    capacity: u64,
    left: Option<&'a str>,
}

/// The first word of a list, and what is left after its comma, if it has one.
pub(crate) fn cut(list: &str) -> (&str, Option<&str>)
    ensures { words_of_list list.now ≡ result.0.now ∷ words_left (option_copied result.1) }
{
    match list.split_once(',') {
        Some((first, left)) => (first, Some(left)),
        None => (list, None),
    }
}

// The first capacity of a list, if it is greater than the last one before.
fn next_capacity(list: &str, last: u64) -> Option<Next<'_>>
    ensures { MatchOption result (rising last (words_of_list list.now) ≡ None) (λ next. IsNext last list.now next.capacity (option_copied next.left)) }
{
    let (first, left) = cut(list);
    match capacity_of(first) {
        Some(capacity) if capacity > last => Some(Next { capacity, left }),
        _ => None,
    }
}

// Whether a value is a list of capacities.
fn are_capacities(value: &str) -> bool
    ensures { result ≡ is_some (capacities_of value.now) }
{
    let mut left = Some(value);
    let mut last = 0;
    for _at in 0..MOST_CAPACITIES {
        let Some(list) = left else {
            return true;
        };
        let Some(next) = next_capacity(list, last) else {
            return false;
        };
        last = next.capacity;
        left = next.left;
    }
    left.is_none()
}

// The capacities of a value that is a list of them.
fn capacities_in(alloc: Global, value: &str) -> Result<Vec<u64>, NoMemory>
    requires { is_some (capacities_of value.now) ≡ true }
    ensures { IfOk result (λ capacities. capacities.items ≡ capacities_in value.now) }
{
    let mut capacities = Vec::new(alloc);
    let mut left = Some(value);
    let mut last = 0;
    for _at in 0..MOST_CAPACITIES {
        let Some(list) = left else {
            return Ok(capacities);
        };
        let Some(next) = next_capacity(list, last) else {
            return Ok(capacities);
        };
        capacities.push(next.capacity)?;
        last = next.capacity;
        left = next.left;
    }
    Ok(capacities)
}

/// A list of capacities in bytes, each greater than the one before it: the word that lists them, with commas between.
#[derive(Debug, Drop)]
pub struct CapacityList<'a> {
    list: &'a str,
}

impl<'a> Model for CapacityList<'a> {
    ghost use Rattle.std.specs.Prelude.{◌≡◌, List, ℕ, true};
    ghost use Rattle.std.specs.Option.{is_some};
    ghost use Rattle.bound_words.specs.Capacities.{capacities_of};

    ghost Value = { List ℕ };

    ghost view = { λ l. l.list.now };

    ghost invariant = { λ l. is_some (capacities_of l.list.now) ≡ true };
}

impl<'a> PartialEq for CapacityList<'a> {
    ghost use Rattle.std.specs.Str.{bytes_eq};
    ghost use Rattle.std.specs.Cmp.Rules.{comparing};
    ghost use Rattle.std.proofs.Common.{rules};

    ghost eq = { bytes_eq };

    ghost laws = { Prim.search (comparing, rules) };

    fn eq(&self, other: &Self) -> bool {
        self.list == other.list
    }
}

impl<'a> CapacityList<'a> {
    /// The list that a value is, if it is one.
    pub(crate) fn of(value: &'a str) -> Option<Self>
        ensures { result ≡ capacity_list value.now }
    {
        if are_capacities(value) {
            Some(CapacityList { list: value })
        } else {
            None
        }
    }

    /// The capacities. Takes 8 bytes for each.
    pub fn capacities(&self, alloc: Global) -> Result<Vec<u64>, NoMemory>
        ensures listed { IfOk result (λ capacities. capacities.items ≡ capacities_in self.now) }
        ensures ascending { IfOk result (λ capacities. IsNonDecreasing capacities.items) }
        ensures strictly { IfOk result (λ capacities. IsStrictlyIncreasing capacities.items) }
        ensures range { IfOk result (λ capacities. All IsInRange capacities.items) }
    {
        let capacities = capacities_in(alloc, self.list)?;
        Ok(capacities)
    }
}
