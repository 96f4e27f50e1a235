//! How often each object was asked for, halved at times.
ghost use Rattle.std.specs.Prelude.{◌≡◌, ◌≤◌, ◌<◌, ◌^◌, ◌+◌, ◌-◌, ◌/◌, ◌++◌, [], length, map, min, replicate, ℕ, slice_index, IfOk, OnOk, OnErr};
ghost use Rattle.policy_model.specs.WTinyLfu.{one_more, with_request};
ghost use Rattle.replay_tinylfu.specs.Counts.{no_counts, halve, with_frequencies, count_at, AreSettled};

use bound_base::NoMemory;
use std::alloc::Global;
use std::marker::Model;

// The most that is counted of an object.
const MOST: u8 = 15;

// So many halvings leave nothing of a count.
const ALL: u16 = 4;

// Requests for each entry, and the fewest entries that are reckoned with, before the counts are halved.
const REQUESTS: u64 = 10;

const ENTRIES: u64 = 16;

/// The counts of objects. They are halved when they are looked at again: of each object its count is kept and the number of
/// halvings at its latest request.
#[derive(Drop)]
pub(crate) struct Counts {
    counts: Vec<u8>,
    seen: Vec<u16>,
    // A number above that of each object that was asked for.
    known: u32,
    halvings: u16,
    asked: u64,
}

impl Model for Counts {
    ghost use Rattle.std.specs.Prelude.{length};
    ghost use Rattle.replay_tinylfu.specs.Counts.{Counted, frequencies_at, AreCounts};

    ghost Value = { Counted };

    ghost view = { λ c. record { objects = length c.counts.items; frequencies = frequencies_at c.counts.items c.seen.items c.known c.halvings c.asked } };

    ghost invariant = { λ c. AreCounts c.counts.items c.seen.items c.known c.halvings };
}

// What this many halvings leave of a count.
#[inline(always)]
fn faded(count: u8, halvings: u16) -> u8
    requires { count ≤ 15 }
    ensures { result ≡ count / 2 ^ halvings }
{
    count >> halvings.min(ALL)
}

// Does the halvings that each count has yet to see.
fn settle(counts: &mut Vec<u8>, seen: &mut Vec<u16>, halvings: u16)
    requires each_seen { length seen.old.items ≡ length counts.old.items }
    requires small { (k : ℕ) → slice_index counts.old.items k ≤ 15 }
    requires past { (k : ℕ) → slice_index seen.old.items k ≤ halvings }
    ensures { AreSettled counts.old.items seen.old.items counts.new.items seen.new.items halvings }
{
    for object in 0..counts.len() {
        let count = faded(counts[object], halvings - seen[object]);
        counts[object] = count;
        seen[object] = 0;
    }
}

/// The same bytes, and zeros up to this length.
pub(crate) fn longer(alloc: Global, bytes: &Vec<u8>, objects: u32) -> Result<Vec<u8>, NoMemory>
    requires { length bytes.now.items ≤ objects }
    ensures { IfOk result (λ longer. longer.items ≡ bytes.now.items ++ replicate (objects - length bytes.now.items) 0) }
{
    let mut longer = Vec::with_capacity(alloc, objects as usize)?;
    longer.extend_from_slice(bytes)?;
    longer.resize(objects as usize, 0)?;
    Ok(longer)
}

// The same halvings, and zeros up to this length.
fn longer_seen(alloc: Global, seen: &Vec<u16>, objects: u32) -> Result<Vec<u16>, NoMemory>
    requires { length seen.now.items ≤ objects }
    ensures { IfOk result (λ longer. longer.items ≡ seen.now.items ++ replicate (objects - length seen.now.items) 0) }
{
    let mut longer = Vec::with_capacity(alloc, objects as usize)?;
    longer.extend_from_slice(seen)?;
    longer.resize(objects as usize, 0)?;
    Ok(longer)
}

impl Counts {
    /// No requests, for objects numbered below this. It takes 3 bytes for each.
    pub(crate) fn new(alloc: Global, objects: u32) -> Result<Self, NoMemory>
        requires few { objects ≤ 2 ^ 31 }
        ensures { IfOk result (λ counts. counts ≡ no_counts objects) }
    {
        Ok(Counts {
            counts: vec![in alloc; 0; objects as usize]?,
            seen: vec![in alloc; 0; objects as usize]?,
            known: 0,
            halvings: 0,
            asked: 0,
        })
    }

    /// The number of objects that there is room for.
    pub(crate) fn objects(&self) -> u32
        ensures { result ≡ self.now.objects }
    {
        self.counts.len() as u32
    }

    /// Makes room for objects numbered below this.
    pub(crate) fn grow(&mut self, alloc: Global, objects: u32) -> Result<(), NoMemory>
        requires more { self.old.objects ≤ objects }
        requires few { objects ≤ 2 ^ 31 }
        ensures grown { OnOk result (self.new ≡ record self.old { objects = objects }) }
        ensures stays { OnErr result (self.new ≡ self.old) }
    {
        let counts = longer(alloc, &self.counts, objects)?;
        let seen = longer_seen(alloc, &self.seen, objects)?;
        self.counts = counts;
        self.seen = seen;
        Ok(())
    }

    /// The count of an object.
    #[inline(always)]
    pub(crate) fn count(&self, object: u32) -> u8
        requires { object < self.now.objects }
        ensures { result ≡ slice_index self.now.frequencies.counts object }
    {
        let object = object as usize;
        faded(self.counts[object], self.halvings - self.seen[object])
    }

    // Halves all. If the halvings could be counted no further, they are all done at once.
    fn halve(&mut self)
        ensures { self.new ≡ with_frequencies (halve self.old.frequencies) self.old }
    {
        if self.halvings == u16::MAX {
            settle(&mut self.counts, &mut self.seen, self.halvings);
            self.halvings = 0;
        }
        self.halvings += 1;
        self.asked /= 2;
    }

    // Counts a request of an object.
    fn raise(&mut self, object: u32)
        requires known { object < self.old.objects }
        requires room { self.old.frequencies.asked ≤ 2 ^ 36 }
        ensures { self.new ≡ with_frequencies (record { counts = one_more object self.old.frequencies.counts; asked = self.old.frequencies.asked + 1 }) self.old }
    {
        let count = self.count(object);
        let at = object as usize;
        self.counts[at] = (count + 1).min(MOST);
        self.seen[at] = self.halvings;
        self.known = self.known.max(object + 1);
        self.asked += 1;
    }

    /// Counts a request of an object, and halves all if there were ten times as many requests as entries.
    pub(crate) fn note(&mut self, object: u32, entries: u64)
        requires known { object < self.old.objects }
        requires few { entries ≤ 2 ^ 32 }
        requires room { self.old.frequencies.asked ≤ 2 ^ 36 }
        ensures counts { self.new ≡ with_frequencies (with_request entries object self.old.frequencies) self.old }
        ensures room { self.new.frequencies.asked ≤ 2 ^ 36 }
    {
        self.raise(object);
        if self.asked >= REQUESTS * entries.max(ENTRIES) {
            self.halve();
        }
    }
}
