//! Entries whose ranks are a floor plus what their requests are worth, as GDSF has them for hits and LFUDA for bytes.
ghost use Rattle.std.specs.Prelude.{◌≡◌, ◌≤◌, ◌<◌, ◌^◌, ◌+◌, ◌∷◌, ℕ, All, length, false, Some, None, IsOk, IfOk, OnOk, OnErr, IsPermutation, refl};
ghost use Rattle.std.specs.declared.option.Option.{Option};
ghost use Rattle.std.specs.declared.cmp.Reverse.{Reverse};
ghost use Rattle.std.specs.BTreeMap.{is_at};
ghost use Rattle.std.specs.BinaryHeap.{heap_items, heap_len, heap_capacity, KeepsHeap};
ghost use Rattle.std.specs.Map.{lookup};
ghost use Rattle.std.specs.Ordering.{nat_cmp};
ghost use Rattle.cache_model.specs.declared.objects.Objective.{Objective};
ghost use Rattle.policy_model.specs.States.{used, has_entry, has_member};
ghost use Rattle.policy_model.specs.Steps.{put_in};
ghost use Rattle.policy_model.specs.Aging.{age_at, over_floor, rank_over, worth_of};
ghost use Rattle.replay_core.specs.Keeping.{Answers, GivesUp, nothing_kept, kept_without, state_of, contents_of};
ghost use Rattle.replay_core.specs.Laws.{IsSound};
ghost use Rattle.replay_rank.specs.AgingEntries.{entry_of, entries_of, name_of, AreOrdered, FreesLeast, IsEntered, IsRaised, Renews};
ghost use Rattle.replay_rank.specs.LfuEntries.{same_rank, at_most, item_cmp};

use crate::holdings::{Held, Holdings};
use crate::leftovers::{FEW, throw_away};
use bound_base::NoMemory;
use cache_model::Objective;
use replay_core::Outcome;
use std::alloc::Global;
use std::cmp::Reverse;
use std::collections::BinaryHeap;
use std::marker::Model;

// No rank is above this one.
const MOST_RANK: u128 = 1 << 127;

// The item of the least pair of rank and last use comes out first, and of equal pairs that of the least object number.
pub(crate) type Items = BinaryHeap<Reverse<((u128, u64), u32)>>;

/// The requests of an object since it entered, the number of requests before its last, and its rank.
#[derive(Clone, Copy, Debug, PartialEq, Eq)]
pub(crate) struct Ranked {
    pub(crate) count: u64,
    pub(crate) last: u64,
    pub(crate) rank: u128,
}

impl Ranked {
    pub(crate) const NONE: Ranked = Ranked {
        count: 0,
        last: 0,
        rank: 0,
    };
}

/// What is held, by object and by rank, and the floor, which is the rank of what was given up last.
///
/// A hit that raises a rank leaves the heap as it is, whose items stand for no greater ranks than those of the objects. An
/// item that comes out of it with a lesser rank goes back with that of its object. The item of an object that is let go of
/// stays there too; if there are then twice as many items as were left when such ones were last thrown away, they are thrown
/// away again.
#[derive(Drop)]
pub(crate) struct Aging {
    alloc: Global,
    capacity: u64,
    objects: u32,
    requests: u64,
    used: u64,
    floor: u128,
    holdings: Holdings<Ranked>,
    order: Items,
    // How many items the heap has when it is next looked through.
    limit: usize,
}

impl Model for Aging {
    ghost use Rattle.std.specs.BinaryHeap.{heap_items};
    ghost use Rattle.replay_core.specs.Keeping.{Kept};

    ghost Value = { Kept };

    ghost use Rattle.policy_model.specs.Aging.{floored};
    ghost use Rattle.replay_rank.specs.AgingEntries.{entries_of, IsAging};

    ghost view = { λ p. record {
      objects = p.objects;
      capacity = p.capacity;
      now = p.requests;
      entries = entries_of p.holdings;
      beside = floored p.floor;
    } };

    ghost invariant = { λ p. IsAging p.capacity p.used p.holdings (heap_items p.order) };
}

// What one request of an object of this size is worth: by hits the more the smaller it is, by bytes one.
pub(crate) fn worth(by: Objective, size: u64) -> u64
    requires { 1 ≤ size }
    ensures { result ≡ worth_of (name_of by) size }
{
    match by {
        Objective::Object => (1 << 48) / size,
        Objective::Bytes => 1,
    }
}

// The rank of this many requests over a floor.
fn rank(floor: u128, count: u64, worth: u64) -> u128
    ensures { result ≡ rank_over floor count worth }
{
    floor
        .saturating_add(u128::from(count) * u128::from(worth))
        .min(MOST_RANK)
}

// What is held of an object after a hit.
pub(crate) fn raise(held: Held<Ranked>, floor: u128, worth: u64, now: u64) -> Held<Ranked>
    ensures entry { IsRaised held result floor worth now }
    ensures size { result.size ≡ held.size }
{
    let count = held.kept.count.saturating_add(1);
    let kept = Ranked {
        count,
        last: now,
        rank: rank(floor, count, worth),
    };
    Held {
        size: held.size,
        kept,
    }
}

// What is held of an object that comes in.
pub(crate) fn enter(size: u64, floor: u128, worth: u64, now: u64) -> Held<Ranked>
    ensures entry { IsEntered size result floor worth now }
    ensures size { result.size ≡ size }
{
    let kept = Ranked {
        count: 1,
        last: now,
        rank: rank(floor, 1, worth),
    };
    Held { size, kept }
}

// Whether two ranks with their last uses are one.
pub(crate) fn is_same(former: (u128, u64), now: (u128, u64)) -> bool
    ensures { result ≡ same_rank former now }
{
    former.0 == now.0 && former.1 == now.1
}

// Whether a rank goes no later than another.
pub(crate) fn is_at_most(former: (u128, u64), now: (u128, u64)) -> bool
    ensures { result ≡ at_most former now }
{
    former.0 < now.0 || (former.0 == now.0 && former.1 <= now.1)
}

// Renews what is held of an object.
pub(crate) fn renew(
    holdings: &mut Holdings<Ranked>,
    order: &mut Items,
    object: u32,
    former: Held<Ranked>,
    now: Held<Ranked>,
) -> Result<(), NoMemory>
    requires held { lookup (is_at (nat_cmp object)) holdings.old ≡ Some former }
    requires ordered { AreOrdered holdings.old (heap_items order.old) }
    requires some { 1 ≤ now.size }
    requires size { now.size ≡ former.size }
    ensures entries { OnOk result (Renews holdings.old holdings.new object former now) }
    ensures ordered { AreOrdered holdings.new (heap_items order.new) }
    ensures err { OnErr result (entries_of holdings.new ≡ entries_of holdings.old) }
{
    let key = (now.kept.rank, now.kept.last);
    if !is_at_most((former.kept.rank, former.kept.last), key) {
        order.push(Reverse((key, object)))?;
    }
    holdings.renew(object, now);
    Ok(())
}

// Puts in an object that is not held.
pub(crate) fn put(
    holdings: &mut Holdings<Ranked>,
    order: &mut Items,
    object: u32,
    held: Held<Ranked>,
) -> Result<(), NoMemory>
    requires absent { has_entry (entries_of holdings.old) object ≡ false }
    requires size { 1 ≤ held.size }
    requires ordered { AreOrdered holdings.old (heap_items order.old) }
    ensures entries { OnOk result (entries_of holdings.new ≡ put_in (entry_of (object, held)) (entries_of holdings.old)) }
    ensures ordered { AreOrdered holdings.new (heap_items order.new) }
    ensures err { OnErr result (entries_of holdings.new ≡ entries_of holdings.old) }
{
    order.push(Reverse(((held.kept.rank, held.kept.last), object)))?;
    holdings.put(object, held)?;
    Ok(())
}

// Puts an item into the room of one that came out.
pub(crate) fn put_back(order: &mut Items, item: Reverse<((u128, u64), u32)>)
    requires room { heap_len order.old < heap_capacity order.old }
    ensures items { IsPermutation (item ∷ heap_items order.old) (heap_items order.new) }
    ensures heap { KeepsHeap item_cmp (heap_items order.old) (heap_items order.new) }
{
    let _ = order.push(item);
}

// Gives up the entry of the least rank, and says what was held of it.
fn give_up_least(holdings: &mut Holdings<Ranked>, order: &mut Items) -> Held<Ranked>
    requires some { 0 < used (entries_of holdings.old) }
    requires ordered { AreOrdered holdings.old (heap_items order.old) }
    ensures stock { (floor : ℕ) → over_floor result.kept.rank (entries_of holdings.new) ≡ age_at floor (entries_of holdings.old) }
    ensures fewer { length holdings.new + 1 ≡ length holdings.old }
    ensures size { used (entries_of holdings.new) + result.size ≡ used (entries_of holdings.old) }
    ensures ordered { AreOrdered holdings.new (heap_items order.new) }
{
    while let Some(Reverse((rank, object))) = order.pop() {
        if let Some(held) = holdings.get(object) {
            let now = (held.kept.rank, held.kept.last);
            if is_same(rank, now) {
                holdings.remove(object);
                return held;
            }
            put_back(order, Reverse((now, object)));
        }
    }
    unreachable()
}

/// The bytes that are still used, and the floor.
#[derive(Clone, Copy, Debug, PartialEq, Eq)]
pub(crate) struct Left {
    pub(crate) used: u64,
    pub(crate) floor: u128,
}

// Gives up the entries of the least ranks until this many bytes fit. The floor rises to the rank of each.
fn free_least(
    holdings: &mut Holdings<Ranked>,
    order: &mut Items,
    before: Left,
    capacity: u64,
    size: u64,
) -> Left
    requires in_use { before.used ≡ used (entries_of holdings.old) }
    requires within { before.used ≤ capacity }
    requires small { size ≤ capacity }
    requires range { capacity ≤ 2 ^ 56 }
    requires ordered { AreOrdered holdings.old (heap_items order.old) }
    ensures stock { FreesLeast before.floor result.floor capacity size holdings.old holdings.new }
    ensures in_use { result.used ≡ used (entries_of holdings.new) }
    ensures ordered { AreOrdered holdings.new (heap_items order.new) }
    ensures room { result.used + size ≤ capacity }
{
    let mut left = before;
    while left.used + size > capacity {
        let gone = give_up_least(holdings, order);
        left = Left {
            used: left.used - gone.size,
            floor: gone.kept.rank,
        };
    }
    left
}

impl Aging {
    // It takes memory with the first entry.
    pub(crate) fn new(alloc: Global, capacity: u64, objects: u32) -> Self
        requires range { (1 ≤ capacity) × (capacity ≤ 2 ^ 56) }
        ensures nothing { result ≡ nothing_kept objects capacity }
    {
        Aging {
            alloc,
            capacity,
            objects,
            requests: 0,
            used: 0,
            floor: 0,
            holdings: Holdings::new(alloc, Ranked::NONE),
            order: BinaryHeap::new(alloc),
            limit: FEW,
        }
    }

    // The most bytes that it holds.
    pub(crate) fn capacity(&self) -> u64
        ensures capacity { result ≡ self.now.capacity }
        ensures sound { IsSound self.now.capacity (contents_of self.now) }
    {
        self.capacity
    }

    pub(crate) fn holds(&self, object: u32) -> bool
        ensures { result ≡ has_member (contents_of self.now) object }
    {
        self.holdings.get(object).is_some()
    }

    // One request, as the rule says, whatever the next request is.
    pub(crate) fn ask(&mut self, by: Objective, object: u32, size: u64) -> Result<Outcome, NoMemory>
        requires size { 1 ≤ size }
        requires kept_size { All (λ m. m.object ≡ object → m.size ≡ size) (contents_of self.old) }
        ensures answers { IfOk result (λ outcome. (next : Option ℕ) → Answers (name_of by) self.old self.new object size next outcome) }
        ensures fits { OnOk result (IsSound self.new.capacity (contents_of self.new)) }
        ensures gives_up { OnErr result (GivesUp self.old self.new) }
    {
        let requests = self.requests.saturating_add(1);
        let worth = worth(by, size);
        if let Some(former) = self.holdings.get(object) {
            let now = raise(former, self.floor, worth, self.requests);
            renew(&mut self.holdings, &mut self.order, object, former, now)?;
            self.requests = requests;
            return Ok(Outcome::Hit);
        }
        if size > self.capacity {
            self.requests = requests;
            return Ok(Outcome::Miss);
        }
        let before = Left {
            used: self.used,
            floor: self.floor,
        };
        let left = free_least(
            &mut self.holdings,
            &mut self.order,
            before,
            self.capacity,
            size,
        );
        self.used = left.used;
        self.floor = left.floor;
        let ranked = enter(size, self.floor, worth, self.requests);
        put(&mut self.holdings, &mut self.order, object, ranked)?;
        self.used += size;
        self.requests = requests;
        Ok(Outcome::Miss)
    }

    // Lets go of an object, if it is held. Its item stays in the heap.
    pub(crate) fn leave(&mut self, object: u32)
        ensures rest { (by : Objective) → self.new ≡ kept_without (name_of by) self.old object }
        ensures fits { IsSound self.new.capacity (contents_of self.new) }
    {
        self.used -= self.holdings.take(object);
        self.limit = throw_away(self.alloc, &self.holdings, &mut self.order, self.limit);
    }
}
