//! The starts of an object from which a run may go on, and that can still matter.
ghost use Rattle.std.specs.Prelude.{◌≡◌, ◌<◌, ◌≤◌, OnOk};
ghost use Rattle.std.specs.List.{filter};
ghost use Rattle.std.specs.VecDeque.{deque_capacity, deque_len};
ghost use Rattle.ttl_walk.specs.Queue.{IsQueue, begins_old, ends_no_lower, first_worth, going_on, is_fresh, with_candidate};

use bound_base::NoMemory;
use std::collections::VecDeque;

/// A start, and the level above which a run from there is worth something.
#[derive(Clone, Copy, Debug)]
pub(crate) struct Candidate {
    pub(crate) clock: u64,
    pub(crate) floor: u128,
}

// Whether a start is no more than the time to live before this clock.
fn is_fresh(ttl: u64, now: u64, start: &Candidate) -> bool
    ensures { result ≡ is_fresh ttl now start.now }
{
    now <= start.clock.saturating_add(ttl)
}

// Whether the start at the front is too old.
fn begins_old(starts: &VecDeque<Candidate>, ttl: u64, now: u64) -> bool
    ensures { result ≡ begins_old ttl now starts.now.items }
{
    match starts.front() {
        Some(start) => !is_fresh(ttl, now, start),
        None => false,
    }
}

// Those too old leave at the front.
fn drop_old(starts: &mut VecDeque<Candidate>, ttl: u64, now: u64)
    requires { IsQueue starts.old.items }
    ensures items { starts.new.items ≡ filter (is_fresh ttl now) starts.old.items }
    ensures capacity { deque_capacity starts.new ≡ deque_capacity starts.old }
    ensures fewer { deque_len starts.new ≤ deque_len starts.old }
{
    while begins_old(starts, ttl, now) {
        starts.pop_front();
    }
}

/// Makes room for one more. The first room is for one alone, since an object that is asked for once keeps no more.
pub(crate) fn make_room(starts: &mut VecDeque<Candidate>) -> Result<(), NoMemory>
    ensures same { starts.new.items ≡ starts.old.items }
    ensures room { OnOk result (deque_len starts.new < deque_capacity starts.new) }
{
    if starts.capacity() == 0 {
        starts.reserve_exact(1)?;
    } else {
        starts.reserve(1)?;
    }
    Ok(())
}

/// Those from which no run goes on past a request at this clock leave: all if it only fills, else those too old.
pub(crate) fn go_on(starts: &mut VecDeque<Candidate>, ttl: u64, now: u64, fills: bool)
    requires { IsQueue starts.old.items }
    ensures items { starts.new.items ≡ going_on fills ttl now starts.old.items }
    ensures capacity { deque_capacity starts.new ≡ deque_capacity starts.old }
    ensures fewer { deque_len starts.new ≤ deque_len starts.old }
{
    if fills {
        starts.clear();
    } else {
        drop_old(starts, ttl, now);
    }
}

/// What a run from the start at the front is worth at this level, which is most, and 0 if there is none.
pub(crate) fn first_worth(starts: &VecDeque<Candidate>, level: u128) -> u128
    ensures { result ≡ first_worth level starts.now.items }
{
    match starts.front() {
        Some(start) => level.saturating_sub(start.floor),
        None => 0,
    }
}

// Whether a run from the start at the back is worth no more than one from this floor.
fn ends_no_lower(starts: &VecDeque<Candidate>, floor: u128) -> bool
    ensures { result ≡ ends_no_lower floor starts.now.items }
{
    match starts.back() {
        Some(start) => start.floor >= floor,
        None => false,
    }
}

/// A start joins at the back, after those that are worth no more have left there.
pub(crate) fn join(starts: &mut VecDeque<Candidate>, start: Candidate)
    requires queue { IsQueue starts.old.items }
    requires room { deque_len starts.old < deque_capacity starts.old }
    ensures { starts.new.items ≡ with_candidate start starts.old.items }
{
    while ends_no_lower(starts, start.floor) {
        starts.pop_back();
    }
    let _ = starts.push_back(start);
}
