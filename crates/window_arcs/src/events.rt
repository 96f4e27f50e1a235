//! Numbers in lists, one list for each key.
ghost use Rattle.std.specs.Prelude.{◌≡◌, ◌<◌, ◌≤◌, ◌^◌, ◌++◌, length, IfOk, All};
ghost use Rattle.window_arcs.specs.Events.{numbers_with};

use bound_base::NoMemory;
use std::alloc::Global;
use std::marker::Model;

/// For each key the numbers that have it, as a list in order. Number i has the key at place i. It takes 4 bytes for
/// each list, and 8 for each number.
#[derive(Drop)]
pub(crate) struct Events {
    keys: Vec<u32>,
    first: Vec<u32>,
    next: Vec<u32>,
}

impl Model for Events {
    ghost use Rattle.std.specs.Prelude.{List, ℕ};
    ghost use Rattle.window_arcs.specs.Events.{AreLinked};

    ghost Value = { List ℕ };

    ghost view = { λ e. e.keys.items };

    ghost invariant = { λ e. AreLinked e.keys.items e.first.items e.next.items };
}

impl Events {
    /// The lists of the numbers that have these keys, which are below the number of lists.
    pub(crate) fn new(alloc: Global, keys: Vec<u32>, lists: usize) -> Result<Events, NoMemory>
        requires few { length keys.items ≤ 2 ^ 26 }
        requires within { All (λ key. key < lists) keys.items }
        ensures { IfOk result (λ e. e ≡ keys.items) }
    {
        let past = keys.len() as u32;
        let mut first = vec![in alloc; past; lists]?;
        let mut next = vec![in alloc; past; keys.len()]?;
        for number in (0..past).rev() {
            let key = keys[number as usize] as usize;
            next[number as usize] = first[key];
            first[key] = number;
        }
        Ok(Events { keys, first, next })
    }

    /// Appends the numbers that have the key, in order.
    pub(crate) fn push_numbers(&self, key: u32, numbers: &mut Vec<u32>) -> Result<(), NoMemory>
        ensures { IfOk result (λ done. numbers.new.items ≡ numbers.old.items ++ numbers_with self.now key) }
    {
        let past = self.keys.len() as u32;
        let mut number = past;
        if (key as usize) < self.first.len() {
            number = self.first[key as usize];
        }
        'along: while number < past {
            numbers.push(number)?;
            number = self.next[number as usize];
        }
        Ok(())
    }
}
