//! Replays of made traces with marks, beside plain simulations of the rules.
use crate::helpers::{Ask, Row, made, trace_of};
use crate::rows::replays;
use belady_laws::Replay;
use compared::same;
use std::alloc::Global;
use std::process::Abort;

pub const MADE: [Row; 4] = [(12, 4, 1, 12), (12, 4, 3, 12), (30, 6, 1, 8), (30, 7, 5, 8)];

#[derive(Clone, Copy, PartialEq, Eq)]
enum Rule {
    Lru,
    Fifo,
    Clock,
    Lfu,
    Belady,
}

// What is kept of an object: its first request numbers it.
#[derive(Clone, Copy)]
struct Held {
    ask: Ask,
    number: usize,
    mark: bool,
    count: u64,
    last: usize,
    next: usize,
}

// The place of the next request of an object, from a place on, or usize::MAX.
fn next_from(asks: &[Ask], object: u32, from: usize) -> usize {
    for (t, ask) in asks.iter().enumerate() {
        if t >= from && ask.object == object {
            return t;
        }
    }
    usize::MAX
}

// Whether the rule evicts one object ahead of an older one.
fn goes_ahead(rule: Rule, new: &Held, old: &Held) -> bool {
    match rule {
        Rule::Lfu => new.count < old.count || (new.count == old.count && new.last < old.last),
        Rule::Belady => { new.next > old.next || (new.next == old.next && new.number > old.number) }
        _ => false,
    }
}

// The place of the object that goes first.
fn victim(rule: Rule, held: &[Held]) -> usize {
    let mut found: Option<(usize, Held)> = None;
    for (place, entry) in held.iter().enumerate() {
        let ahead = match found {
            Some((_, old)) => goes_ahead(rule, entry, &old),
            None => true,
        };
        if ahead {
            found = Some((place, *entry));
        }
    }
    match found {
        Some((place, _)) => place,
        None => 0,
    }
}

fn used(held: &[Held]) -> u64 {
    let mut sum = 0;
    for entry in held {
        sum = u64::wrapping_add(sum, entry.ask.size);
    }
    sum
}

// Takes an object out, if there is one at the place.
fn take(held: &mut Vec<Held>, place: usize) -> Option<Held> {
    if place < held.len() {
        Some(held.remove(place))
    } else {
        None
    }
}

// Evicts until this many bytes fit. CLOCK spares a marked object once.
fn make_room(rt: &impl Abort, rule: Rule, held: &mut Vec<Held>, capacity: u64, size: u64) {
    for _ in 0..100 {
        if used(held).wrapping_add(size) <= capacity {
            return;
        }
        let place = victim(rule, held);
        if let Some(entry) = take(held, place) {
            if rule == Rule::Clock && entry.mark {
                held.push(Held {
                    mark: false,
                    ..entry
                })
                .expect(rt, "memory");
            }
        }
    }
}

// What a hit changes.
fn touch(
    rt: &impl Abort,
    rule: Rule,
    held: &mut Vec<Held>,
    place: usize,
    last: usize,
    next: usize,
) {
    if let Some(entry) = take(held, place) {
        let touched = Held {
            mark: true,
            count: entry.count.wrapping_add(1),
            last,
            next,
            ..entry
        };
        let back = if rule == Rule::Lru { held.len() } else { place };
        if back <= held.len() {
            held.insert(back, touched).expect(rt, "memory");
        }
    }
}

// The place of an object that is held.
fn place_of(held: &[Held], object: u32) -> Option<usize> {
    for (place, entry) in held.iter().enumerate() {
        if entry.ask.object == object {
            return Some(place);
        }
    }
    None
}

// What a miss changes. Belady's rule may evict what was asked for.
fn enter(rt: &impl Abort, rule: Rule, held: &mut Vec<Held>, capacity: u64, entry: Held) {
    if rule == Rule::Belady {
        held.push(entry).expect(rt, "memory");
        make_room(rt, rule, held, capacity, 0);
    } else {
        make_room(rt, rule, held, capacity, entry.ask.size);
        held.push(entry).expect(rt, "memory");
    }
}

// What was counted, with one more hit if it counts.
fn with_hit(found: Replay, ask: &Ask, is_past: bool) -> Replay {
    if is_past && !ask.fills {
        Replay {
            hits: found.hits.wrapping_add(1),
            bytes: found.bytes.wrapping_add(ask.size as u128),
            ..found
        }
    } else {
        found
    }
}

// What was counted, with the bytes of a request whose object is held after it, if it came in or was written anew.
fn with_write(found: Replay, ask: &Ask, is_past: bool, was_held: bool) -> Replay {
    if is_past && (ask.fills || !was_held) {
        Replay {
            written: found.written.wrapping_add(ask.size as u128),
            ..found
        }
    } else {
        found
    }
}

// Hits and bytes of a rule, of the requests that count past a warm-up, and the bytes that it writes there.
fn simulated(
    rt: &impl Abort,
    alloc: Global,
    asks: &[Ask],
    rule: Rule,
    capacity: u64,
    warmup: u32,
) -> Replay {
    let mut held: Vec<Held> = Vec::new(alloc);
    let mut found = Replay {
        hits: 0,
        bytes: 0,
        written: 0,
    };
    for (t, ask) in asks.iter().enumerate() {
        let next = next_from(asks, ask.object, t.wrapping_add(1));
        let before = place_of(&held, ask.object);
        if let Some(place) = before {
            touch(rt, rule, &mut held, place, t, next);
            found = with_hit(found, ask, t >= warmup as usize);
        } else if ask.size <= capacity {
            let entry = Held {
                ask: *ask,
                number: next_from(asks, ask.object, 0),
                mark: false,
                count: 0,
                last: t,
                next,
            };
            enter(rt, rule, &mut held, capacity, entry);
        }
        if place_of(&held, ask.object).is_some() {
            found = with_write(found, ask, t >= warmup as usize, before.is_some());
        }
    }
    found
}

// The same of LRU, FIFO, CLOCK, LFU and the rule of Belady.
fn all_simulated(
    rt: &impl Abort,
    alloc: Global,
    asks: &[Ask],
    capacity: u64,
    warmup: u32,
) -> [Replay; 5] {
    [
        simulated(rt, alloc, asks, Rule::Lru, capacity, warmup),
        simulated(rt, alloc, asks, Rule::Fifo, capacity, warmup),
        simulated(rt, alloc, asks, Rule::Clock, capacity, warmup),
        simulated(rt, alloc, asks, Rule::Lfu, capacity, warmup),
        simulated(rt, alloc, asks, Rule::Belady, capacity, warmup),
    ]
}

// The replays of a made trace, beside the simulations.
fn check_replays(rt: &impl Abort, alloc: Global, row: &Row, first: u32) {
    let asks = made(rt, alloc, row, first);
    let trace = trace_of(rt, alloc, &asks);
    for (capacity, warmup) in [(1, 0), (2, 3), (3, 0), (6, 0), (9, 5)] {
        let found = replays(rt, alloc, &trace, capacity, warmup);
        let want = all_simulated(rt, alloc, &asks, capacity, warmup);
        same((*row, first, capacity), found, want).expect(rt, "LRU, FIFO, CLOCK, LFU, Belady");
    }
    drop(trace);
}

// The replays of each trace that is made of a row.
fn check_all_replays(rt: &impl Abort, alloc: Global, row: &Row) {
    for first in 0..row.3 {
        check_replays(rt, alloc, row, first);
    }
}

#[test]
fn each_policy_hits_and_writes_what_a_simulation_does(rt: HostRuntime) {
    for row in &MADE {
        check_all_replays(&rt, rt.alloc(), row);
    }
}
