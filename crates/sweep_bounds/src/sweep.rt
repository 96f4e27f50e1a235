//! One pass over the requests of a trace.
ghost use Rattle.std.specs.Prelude.{◌≡◌, ◌&&◌, not, nat_le, ◌+◌, ◌<◌, ◌≤◌, ◌^◌, ◌∷◌, ◌++◌, [], List, Bool, false, true, Some, None, if◌then◌else◌, length, position, IfOk, IfSome, OnOk, OnErr};
ghost use Rattle.std.specs.Option.{is_some};
ghost use Rattle.cache_model.specs.declared.objects.Object.{Object};
ghost use Rattle.cache_model.specs.Claim.{same_object};
ghost use Rattle.cache_model.specs.Objects.{objects_of};
ghost use Rattle.area_sums.specs.Spans.{Span};
ghost use Rattle.area_sums.specs.Groups.{AreCapacities, AreSumsOf};
ghost use Rattle.sweep_bounds.specs.Sweep.{AreBoundsOf, HasSeen, length_since, span_if};

use area_sums::{AreaSums, CapacityBounds};
use bound_base::NoMemory;
use cache_model::Object;
use indexmap::IndexMap;
use std::alloc::Global;
use std::marker::Model;

/// What one pass over a trace keeps, from which bounds follow at each capacity, for hits and for bytes. It takes an entry
/// of a hash map for each object, beside the sums of areas, and nothing for a request.
#[derive(Drop)]
pub struct SweepBounds {
    warmup: u32,
    delay: u32,
    requests: u32,
    latest: IndexMap<Object, u32>,
    sums: AreaSums,
}

impl Model for SweepBounds {
    ghost use Rattle.sweep_bounds.specs.Sweep.{IsWithinRequests, Sweep};

    ghost Value = { Sweep };

    ghost view = { λ s. record { warmup = s.warmup; delay = s.delay; requests = s.requests; latest = s.latest.entries; sums = s.sums } };

    ghost invariant = { λ s. IsWithinRequests (record { warmup = s.warmup; delay = s.delay; requests = s.requests; latest = s.latest.entries; sums = s.sums }) };
}

// Adds the span of an object of this size, if there is a length.
fn add_span(sums: &mut AreaSums, size: u64, span: Option<u64>) -> Result<(), NoMemory>
    requires some { 0 < size }
    requires size { size ≤ 2 ^ 48 }
    requires length { IfSome span (λ n. n < 2 ^ 32) }
    requires room { sums.old.count + 1 < 2 ^ 32 }
    ensures capacities { sums.new.capacities ≡ sums.old.capacities }
    ensures count { OnOk result (sums.new.count ≤ sums.old.count + 1) }
    ensures added { OnOk result ((spans : List Span) → AreSumsOf spans sums.old → AreSumsOf (spans ++ span_if size span) sums.new) }
    ensures err { OnErr result (sums.new ≡ sums.old) }
{
    match span {
        Some(length) => sums.add(size, length),
        None => Ok(()),
    }
}

// How far a request that counts is from the latest of its object, less the delay.
fn length_if(counts: bool, delay: u32, requests: u32, last: u32) -> Option<u64>
    ensures length { result ≡ (if counts then length_since delay requests (Some last) else None) }
    ensures range { IfSome result (λ n. n < 2 ^ 32) }
{
    if !counts {
        return None;
    }
    let apart = requests.saturating_sub(last);
    Some(u64::from(apart.saturating_sub(delay)))
}

impl SweepBounds {
    /// No request so far. The warm-up and the delay are in requests: those of the warm-up do not count, and an object may
    /// be stored as late as the delay after it was asked for.
    pub fn new(alloc: Global, capacities: &[u64], warmup: u32, delay: u32) -> Result<Self, NoMemory>
        requires { AreCapacities capacities.now }
        ensures warmup { IfOk result (λ sweep. sweep.warmup ≡ warmup) }
        ensures delay { IfOk result (λ sweep. sweep.delay ≡ delay) }
        ensures requests { IfOk result (λ sweep. sweep.requests ≡ 0) }
        ensures capacities { IfOk result (λ sweep. sweep.sums.capacities ≡ capacities.now) }
        ensures seen { IfOk result (λ sweep. (fills : List Bool) → HasSeen [] fills sweep) }
    {
        Ok(SweepBounds {
            warmup,
            delay,
            requests: 0,
            latest: IndexMap::new(alloc),
            sums: AreaSums::new(alloc, capacities)?,
        })
    }

    // Whether the next request counts.
    fn counts_next(&self, only_fills: bool) -> bool
        ensures { result ≡ (nat_le self.now.warmup self.now.requests && not only_fills) }
    {
        self.requests >= self.warmup && !only_fills
    }

    /// The next request, whose size is in bytes, and which may only fill the cache. A stale request is told as one that
    /// only fills. It takes constant time on average, beside a search for the capacity.
    pub fn request(&mut self, object: Object, only_fills: bool) -> Result<(), NoMemory>
        requires few { self.old.requests + 1 < 2 ^ 32 }
        requires size { (1 ≤ object.size) × (object.size ≤ 2 ^ 48) }
        ensures warmup { self.new.warmup ≡ self.old.warmup }
        ensures delay { self.new.delay ≡ self.old.delay }
        ensures capacities { self.new.sums.capacities ≡ self.old.sums.capacities }
        ensures requests { OnOk result (self.new.requests ≡ self.old.requests + 1) }
        ensures seen { OnOk result ((trace : List Object) (fills : List Bool) → length fills ≡ length trace → HasSeen trace fills self.old
            → HasSeen (trace ++ object ∷ []) (fills ++ only_fills ∷ []) self.new) }
        ensures seen_unmarked { OnOk result ((trace : List Object) → only_fills ≡ false → HasSeen trace [] self.old
            → HasSeen (trace ++ object ∷ []) [] self.new) }
        ensures err { OnErr result (self.new ≡ self.old) }
    {
        let counts = self.counts_next(only_fills);
        match self.latest.get_mut(&object) {
            Some(last) => {
                let span = length_if(counts, self.delay, self.requests, *last);
                add_span(&mut self.sums, object.size, span)?;
                *last = self.requests;
            }
            None => {
                self.latest.insert(object, self.requests)?;
            }
        }
        self.requests += 1;
        Ok(())
    }

    /// How many requests the warm-up has.
    pub fn warmup(&self) -> u32
        ensures { result ≡ self.now.warmup }
    {
        self.warmup
    }

    /// How many requests there were.
    pub fn requests(&self) -> u32
        ensures { result ≡ self.now.requests }
    {
        self.requests
    }

    /// How many different objects were asked for.
    pub fn objects(&self) -> u32
        ensures { (trace : List Object) (fills : List Bool) → HasSeen trace fills self.now → result ≡ length (objects_of trace) }
    {
        self.latest.len() as u32
    }

    /// The number of an object that was asked for, in the order in which they first were. It takes constant time on average.
    pub fn number_of(&self, object: Object) -> Option<u32>
        ensures number { (trace : List Object) (fills : List Bool) → HasSeen trace fills self.now → result ≡ position (same_object object) (objects_of trace) }
        ensures found { (trace : List Object) (fills : List Bool) → HasSeen (trace ++ object ∷ []) fills self.now → is_some result ≡ true }
    {
        let index = self.latest.get_index_of(&object)?;
        Some(index as u32)
    }

    /// The least bounds at each of the capacities, in their order. At each capacity it goes over the classes of the sums.
    pub fn bounds(&self, alloc: Global) -> Result<Vec<CapacityBounds>, NoMemory>
        ensures { IfOk result (λ bounds. AreBoundsOf self.now bounds.items) }
    {
        self.sums.bounds(alloc, self.requests.saturating_sub(1))
    }
}
