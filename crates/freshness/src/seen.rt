//! What is known of the requests so far.
ghost use Rattle.std.specs.Prelude.{◌≡◌, ◌<◌, ◌≤◌, ◌+◌, ◌^◌, true, IfOk, OnOk, OnErr, ◌&&◌};
ghost use Rattle.std.specs.Map.{lookup};
ghost use Rattle.freshness.specs.Stale.{can_end};
ghost use Rattle.freshness.specs.Seen.{IsNotedInPart, id_of, is_old, is_other, is_stale, is_stale_since, nothing_seen, same_id, with_seen, with_size};

use crate::fresh::Freshness;
use crate::history::{History, Noted};
use crate::id::Id;
use crate::stale::one_if;
use bound_base::NoMemory;
use cache_model::Object;
use indexmap::IndexMap;
use std::alloc::Global;
use std::marker::Model;

/// The clock, when each object was last asked for, which size each id had last, and how many requests had a time below the
/// clock before them. What was said of each request is known to proofs alone.
///
/// If requests can be stale, it takes one entry of a hash map for each object, and if objects are replaced one entry more for
/// each id. It takes no memory for a request.
#[derive(Drop)]
pub struct SeenObjects {
    clock: u64,
    clocks: IndexMap<Object, u64>,
    sizes: IndexMap<Id, u64>,
    late: u64,
    history: History,
}

impl Model for SeenObjects {
    ghost use Rattle.freshness.specs.Seen.{Seen};

    ghost Value = { Seen };

    ghost view = { λ s. record {
      clock = s.clock;
      clocks = s.clocks.entries;
      sizes = s.sizes.entries;
      noted = record { late = s.late; stale = s.history.stale; own = s.history.own };
      times = s.history.times;
    } };
}

// Whether more than this time passed since an object was last asked for.
fn is_old(idle: Option<u64>, last: u64, clock: u64) -> bool
    ensures { result ≡ is_old idle last clock }
{
    match idle {
        Some(idle) => clock.saturating_sub(last) > idle,
        None => false,
    }
}

// Whether a request at this clock is stale, of an object that was last asked for at that clock, if ever, and whose id had
// another size or not.
fn is_stale_since(idle: Option<u64>, clock: u64, last: Option<u64>, other: bool) -> bool
    ensures { result ≡ is_stale_since idle clock last other }
{
    match last {
        Some(last) => is_old(idle, last, clock) || other,
        None => false,
    }
}

// Notes the size of an id, if sizes are kept, and says whether it had another one.
fn note_size(kept: bool, sizes: &mut IndexMap<Id, u64>, object: Object) -> Result<bool, NoMemory>
    ensures other { IfOk result (λ other. other ≡ (kept && is_other object.size (lookup (same_id (id_of object)) sizes.old.entries))) }
    ensures sizes { OnOk result (sizes.new.entries ≡ with_size kept sizes.old.entries object) }
    ensures err { OnErr result (sizes.new.entries ≡ sizes.old.entries) }
{
    if !kept {
        return Ok(false);
    }
    let (_, last) = sizes.insert_full(Id::of(object), object.size)?;
    Ok(last.is_some_and(|last| last != object.size))
}

impl SeenObjects {
    /// Nothing was asked for yet. It takes no memory.
    pub fn new(alloc: Global) -> Self
        ensures { result ≡ nothing_seen }
    {
        SeenObjects {
            clock: 0,
            clocks: IndexMap::new(alloc),
            sizes: IndexMap::new(alloc),
            late: 0,
            history: History::new(),
        }
    }

    /// How many requests had a time below the clock before them, if some can be stale.
    pub fn late(&self) -> u64
        ensures { result ≡ self.now.noted.late }
    {
        self.late
    }

    // Notes a request where some can be stale.
    fn note_where_some_end(
        &mut self,
        fresh: Freshness,
        object: Object,
        time: u64,
        own: bool,
    ) -> Result<bool, NoMemory>
        requires can_end { can_end fresh ≡ true }
        requires few { self.old.noted.late + 1 < 2 ^ 64 }
        ensures stale { IfOk result (λ stale. stale ≡ is_stale fresh self.old object time) }
        ensures seen { OnOk result (self.new ≡ with_seen fresh self.old object time own) }
        ensures err { OnErr result (IsNotedInPart fresh self.old self.new object) }
    {
        let clock = self.clock.max(time);
        let other = note_size(fresh.replace, &mut self.sizes, object)?;
        let (_, last) = self.clocks.insert_full(object, clock)?;
        let stale = is_stale_since(fresh.stale_after(), clock, last, other);
        self.late += one_if(time < self.clock);
        self.history = self.history.with(&Noted { stale, own, time });
        self.clock = clock;
        Ok(stale)
    }

    /// Notes a request for the object at this time, which only fills the cache by its own mark or doesn't, and says whether it
    /// is stale. If none can be, it changes nothing and takes no memory.
    #[inline]
    pub fn note(
        &mut self,
        fresh: Freshness,
        object: Object,
        time: u64,
        own: bool,
    ) -> Result<bool, NoMemory>
        requires few { self.old.noted.late + 1 < 2 ^ 64 }
        ensures stale { IfOk result (λ stale. stale ≡ is_stale fresh self.old object time) }
        ensures seen { OnOk result (self.new ≡ with_seen fresh self.old object time own) }
        ensures err { OnErr result (IsNotedInPart fresh self.old self.new object) }
        ensures memory { OnErr result (can_end fresh ≡ true) }
    {
        if fresh.can_end() {
            self.note_where_some_end(fresh, object, time, own)
        } else {
            Ok(false)
        }
    }
}
