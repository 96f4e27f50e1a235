//! What a hit and a miss change in the queues, and what an object changes that is let go of.
ghost use Rattle.std.specs.Prelude.{◌≡◌, ◌≤◌, ◌<◌, ◌+◌, ◌*◌, ◌/◌, ◌^◌, ◌++◌, true, false, length};
ghost use Rattle.policy_model.specs.States.{used, has_entry};
ghost use Rattle.policy_model.specs.Steps.{without_entry};
ghost use Rattle.policy_model.specs.Leaving.{segments_without};
ghost use Rattle.policy_model.specs.WTinyLfu.{window_part, main_part, main_used, entry_of, demote, hit_main, hit_in, without_first, admit, spill, missed_in, segment_entries};
ghost use Rattle.replay_tinylfu.specs.Queues.{plain_entry, with_main, with_segments, with_window, with_protected, main_entries, HasSpace};

use crate::counts::Counts;
use crate::ring::{PROBATION, PROTECTED, Ring, WINDOW};

// Protected objects go back on probation, the first ones first, while they are several and have more than this many bytes.
fn demote(ring: &mut Ring, most: u64)
    requires range { main_used ring.old.segments.main ≤ 2 ^ 56 }
    ensures { ring.new ≡ with_main (demote most ring.old.segments.main.probation ring.old.segments.main.protected) ring.old }
{
    while ring.protected_bytes() > most && ring.protected_len() > 1 {
        let (object, size) = ring.pop_protected();
        ring.push_probation(object, size);
    }
}

// An object on probation becomes protected.
fn protect(ring: &mut Ring, most: u64, object: u32)
    requires there { has_entry ring.old.segments.main.probation object ≡ true }
    requires range { main_used ring.old.segments.main ≤ 2 ^ 56 }
    ensures { ring.new ≡ with_main (demote most (without_entry object ring.old.segments.main.probation) (ring.old.segments.main.protected ++ entry_of object ring.old.segments.main.probation)) ring.old }
{
    let size = ring.take_probation(object);
    ring.push_protected(object, size);
    demote(ring, most);
}

/// A hit of an object, where protected objects may have this many bytes.
pub(crate) fn hit(ring: &mut Ring, most: u64, object: u32)
    requires there { has_entry (segment_entries ring.old.segments) object ≡ true }
    requires range { (used ring.old.segments.window ≤ 2 ^ 56) × (main_used ring.old.segments.main ≤ 2 ^ 56) }
    ensures { ring.new ≡ with_segments (hit_in most object ring.old.segments) ring.old }
{
    let place = ring.place(object);
    if place == WINDOW {
        let size = ring.take_window(object);
        ring.push_window(object, size);
        return;
    }
    if place == PROTECTED {
        let size = ring.take_protected(object);
        ring.push_protected(object, size);
        return;
    }
    protect(ring, most, object);
}

// The first objects of the main part leave it, this many of them.
fn remove_first(ring: &mut Ring, count: u64)
    requires many { count ≤ length (main_entries ring.old) }
    ensures { ring.new ≡ with_main (without_first count ring.old.segments.main) ring.old }
{
    for _gone in 0..count {
        if ring.has_probation() {
            ring.pop_probation();
        } else {
            ring.pop_protected();
        }
    }
}

// A candidate comes into the main part, which may have this many bytes, if it fits, or if it was asked for more often than
// those that must leave for it.
fn admit(ring: &mut Ring, counts: &Counts, most: u64, object: u32, size: u64)
    requires known { object < ring.old.objects }
    requires counted { ring.old.objects ≤ counts.now.objects }
    requires absent { has_entry (segment_entries ring.old.segments) object ≡ false }
    requires space { HasSpace ring.old }
    requires range { most ≤ 2 ^ 56 }
    requires fits { main_used ring.old.segments.main ≤ most }
    ensures { ring.new ≡ with_main (admit most counts.now.frequencies.counts (plain_entry object size) ring.old.segments.main) ring.old }
{
    if size > most {
        return;
    }
    let free = most - ring.main_bytes();
    if size <= free {
        ring.push_probation(object, size);
        return;
    }
    let Some(leaving) = ring.victims(counts, size - free, counts.count(object)) else {
        return;
    };
    remove_first(ring, leaving);
    ring.push_probation(object, size);
}

// While the window has more than its bytes, its first object leaves it and is a candidate.
fn spill(ring: &mut Ring, counts: &Counts, window: u64, most: u64)
    requires counted { ring.old.objects ≤ counts.now.objects }
    requires range { most ≤ 2 ^ 56 }
    requires fits { main_used ring.old.segments.main ≤ most }
    ensures { ring.new ≡ with_segments (spill window most counts.now.frequencies.counts ring.old.segments.window ring.old.segments.main) ring.old }
{
    while ring.window_bytes() > window {
        let (object, size) = ring.pop_window();
        admit(ring, counts, most, object, size);
    }
}

/// A miss of an object within the capacity, where the window and the main part may have these bytes.
pub(crate) fn miss(ring: &mut Ring, counts: &Counts, window: u64, most: u64, object: u32, size: u64)
    requires known { object < ring.old.objects }
    requires counted { ring.old.objects ≤ counts.now.objects }
    requires absent { has_entry (segment_entries ring.old.segments) object ≡ false }
    requires space { HasSpace ring.old }
    requires range { (window ≤ 2 ^ 56) × (most ≤ 2 ^ 56) }
    requires fits { (used ring.old.segments.window ≤ window) × (main_used ring.old.segments.main ≤ most) }
    ensures { ring.new ≡ with_segments (missed_in window most counts.now.frequencies.counts (plain_entry object size) ring.old.segments) ring.old }
{
    if size > window {
        admit(ring, counts, most, object, size);
        return;
    }
    ring.push_window(object, size);
    spill(ring, counts, window, most);
}

/// Lets go of an object, if it is in one of the queues.
pub(crate) fn leave(ring: &mut Ring, object: u32)
    ensures { ring.new ≡ with_segments (segments_without object ring.old.segments) ring.old }
{
    let place = ring.place(object);
    if place == WINDOW {
        ring.take_window(object);
        return;
    }
    if place == PROBATION {
        ring.take_probation(object);
        return;
    }
    if place == PROTECTED {
        ring.take_protected(object);
    }
}
