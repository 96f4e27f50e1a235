//! The rule that gives up the object whose next request is farthest away.
ghost use Rattle.std.specs.Prelude.{◌≡◌, ◌≤◌, ◌<◌, ◌^◌, ◌+◌, ℕ, All, length, false, Some, None, IsOk, IfOk, OnOk, OnErr, refl};
ghost use Rattle.std.specs.BTreeMap.{is_at};
ghost use Rattle.std.specs.BinaryHeap.{heap_items};
ghost use Rattle.std.specs.Map.{lookup};
ghost use Rattle.std.specs.Ordering.{nat_cmp};
ghost use Rattle.policy_model.specs.declared.names.PolicyName.TheVariants.{Belady as ByNext};
ghost use Rattle.policy_model.specs.States.{used, has_entry};
ghost use Rattle.policy_model.specs.Steps.{make_room, remove_foremost, is_farther, touch, put_in};
ghost use Rattle.replay_core.specs.Keeping.{Answers, GivesUp, nothing_kept, state_of, contents_of};
ghost use Rattle.replay_core.specs.Laws.{IsSound};
ghost use Rattle.replay_rank.specs.BeladyEntries.{entry_of, entries_of, next_of, never, is_current, AreOrdered};

use crate::holdings::{Held, Holdings};
use bound_base::NoMemory;
use replay_core::{LetGo, Outcome, Policy};
use std::alloc::Global;
use std::collections::BinaryHeap;
use std::marker::Model;

// How far the next request of an object is that has none: past each request's number.
const NEVER: u64 = 1 << 32;

// The fewest items among which those that stand for no next request are looked for.
const FEW: usize = 64;

// The number of the next request, or `NEVER`.
fn rank(next: Option<u32>) -> u64
    ensures next { next_of result ≡ next }
    ensures most { result ≤ never }
{
    match next {
        Some(t) => t as u64,
        None => NEVER,
    }
}

// The item of the farthest next request comes out first, and of equally far ones that of the greatest object number.
type Items = BinaryHeap<(u64, u32)>;

/// The object whose next request is farthest away is given up first, and one that has none before all others.
///
/// A hit puts an item of the new next request into a heap, and that of the former one stays there. When there are twice as
/// many items as were left when such ones were last thrown away, they are thrown away again. So requests take, one with
/// another, time logarithmic in the number of entries, for themselves and for each entry that is given up. It takes 4 bytes
/// for each object up to the greatest that came in, and memory for each entry.
#[derive(Drop)]
pub struct Belady {
    capacity: u64,
    objects: u32,
    requests: u64,
    used: u64,
    holdings: Holdings<u64>,
    order: Items,
    // How many items the heap has when it is next looked through.
    limit: usize,
}

impl Model for Belady {
    ghost use Rattle.std.specs.BinaryHeap.{heap_items};
    ghost use Rattle.replay_core.specs.Keeping.{Kept};

    ghost Value = { Kept };

    ghost use Rattle.policy_model.specs.States.{nothing_beside};
    ghost use Rattle.replay_rank.specs.BeladyEntries.{entries_of, IsBelady};

    ghost view = { λ p. record {
      objects = p.objects;
      capacity = p.capacity;
      now = p.requests;
      entries = entries_of p.holdings;
      beside = nothing_beside;
    } };

    ghost invariant = { λ p. IsBelady p.capacity p.used p.holdings (heap_items p.order) };
}

// Whether an item is that of its object's next request.
fn is_current(holdings: &Holdings<u64>, item: &(u64, u32)) -> bool
    ensures { result ≡ is_current holdings.now item.now }
{
    match holdings.get(item.1) {
        Some(held) => held.kept == item.0,
        None => false,
    }
}

// Throws the items away that stand for no next request, if there are this many items, and says at how many to do it again.
fn throw_away(holdings: &Holdings<u64>, order: &mut Items, limit: usize) -> usize
    requires ordered { AreOrdered holdings.now (heap_items order.old) }
    ensures ordered { AreOrdered holdings.now (heap_items order.new) }
{
    if order.len() < limit {
        return limit;
    }
    order.retain(|item| is_current(holdings, item));
    order.len().saturating_mul(2).max(FEW)
}

// Renews the next request of an object that is held.
fn renew(
    holdings: &mut Holdings<u64>,
    order: &mut Items,
    object: u32,
    held: Held<u64>,
    next: u64,
) -> Result<(), NoMemory>
    requires held { lookup (is_at (nat_cmp object)) holdings.old ≡ Some held }
    requires size { 1 ≤ held.size }
    requires ordered { AreOrdered holdings.old (heap_items order.old) }
    requires rank { next ≤ never }
    ensures entries { OnOk result ((now : ℕ) → entries_of holdings.new ≡ touch ByNext now (next_of next) object (entries_of holdings.old)) }
    ensures ordered { AreOrdered holdings.new (heap_items order.new) }
    ensures err { OnErr result (entries_of holdings.new ≡ entries_of holdings.old) }
{
    order.push((next, object))?;
    let size = held.size;
    holdings.renew(object, Held { size, kept: next });
    Ok(())
}

// Puts in an object that is not held.
fn put(
    holdings: &mut Holdings<u64>,
    order: &mut Items,
    object: u32,
    held: Held<u64>,
) -> Result<(), NoMemory>
    requires absent { has_entry (entries_of holdings.old) object ≡ false }
    requires size { 1 ≤ held.size }
    requires ordered { AreOrdered holdings.old (heap_items order.old) }
    requires rank { held.kept ≤ never }
    ensures entries { OnOk result (entries_of holdings.new ≡ put_in (entry_of (object, held)) (entries_of holdings.old)) }
    ensures ordered { AreOrdered holdings.new (heap_items order.new) }
    ensures err { OnErr result (entries_of holdings.new ≡ entries_of holdings.old) }
{
    order.push((held.kept, object))?;
    holdings.put(object, held)?;
    Ok(())
}

// Gives up the entry whose next request is farthest, and says its size in bytes.
fn give_up_farthest(holdings: &mut Holdings<u64>, order: &mut Items) -> u64
    requires some { 0 < used (entries_of holdings.old) }
    requires ordered { AreOrdered holdings.old (heap_items order.old) }
    ensures entries { entries_of holdings.new ≡ remove_foremost is_farther (entries_of holdings.old) }
    ensures fewer { length holdings.new + 1 ≡ length holdings.old }
    ensures size { used (entries_of holdings.new) + result ≡ used (entries_of holdings.old) }
    ensures ordered { AreOrdered holdings.new (heap_items order.new) }
{
    while let Some((next, object)) = order.pop() {
        if let Some(held) = holdings.get(object) {
            if held.kept == next {
                holdings.remove(object);
                return held.size;
            }
        }
    }
    unreachable()
}

// Gives up the entries whose next requests are farthest, until the rest is within the capacity, and says how many bytes
// are still used.
fn free_farthest(holdings: &mut Holdings<u64>, order: &mut Items, in_use: u64, capacity: u64) -> u64
    requires in_use { in_use ≡ used (entries_of holdings.old) }
    requires ordered { AreOrdered holdings.old (heap_items order.old) }
    ensures entries { entries_of holdings.new ≡ make_room (length holdings.old) (remove_foremost is_farther) capacity 0 (entries_of holdings.old) }
    ensures in_use { result ≡ used (entries_of holdings.new) }
    ensures ordered { AreOrdered holdings.new (heap_items order.new) }
    ensures room { result ≤ capacity }
{
    let mut left = in_use;
    while left > capacity {
        left -= give_up_farthest(holdings, order);
    }
    left
}

impl Belady {
    /// A policy that holds nothing, with its capacity in bytes. It takes memory with the first entry.
    pub fn new(alloc: Global, capacity: u64, objects: u32) -> Result<Self, NoMemory>
        requires range { (1 ≤ capacity) × (capacity ≤ 2 ^ 56) }
        ensures succeeds { IsOk result }
        ensures nothing { IfOk result (λ policy. policy ≡ nothing_kept objects capacity) }
    {
        Ok(Belady {
            capacity,
            objects,
            requests: 0,
            used: 0,
            holdings: Holdings::new(alloc, 0),
            order: BinaryHeap::new(alloc),
            limit: FEW,
        })
    }

    // One request, as the rule says.
    fn ask(&mut self, object: u32, size: u64, next: Option<u32>) -> Result<Outcome, NoMemory>
        requires size { 1 ≤ size }
        requires kept_size { All (λ m. m.object ≡ object → m.size ≡ size) (contents_of self.old) }
        ensures answers { IfOk result (λ outcome. Answers ByNext self.old self.new object size next outcome) }
        ensures fits { OnOk result (IsSound self.new.capacity (contents_of self.new)) }
        ensures gives_up { OnErr result (GivesUp self.old self.new) }
    {
        let requests = self.requests.saturating_add(1);
        let next = rank(next);
        self.limit = throw_away(&self.holdings, &mut self.order, self.limit);
        if let Some(held) = self.holdings.get(object) {
            renew(&mut self.holdings, &mut self.order, object, held, next)?;
            self.requests = requests;
            return Ok(Outcome::Hit);
        }
        if size > self.capacity {
            self.requests = requests;
            return Ok(Outcome::Miss);
        }
        put(
            &mut self.holdings,
            &mut self.order,
            object,
            Held { size, kept: next },
        )?;
        self.used = free_farthest(
            &mut self.holdings,
            &mut self.order,
            self.used + size,
            self.capacity,
        );
        self.requests = requests;
        Ok(Outcome::Miss)
    }
}

impl Policy for Belady {
    ghost contents = { λ p. contents_of p };

    ghost objects = { λ p. p.objects };

    ghost room = { λ p. p.capacity };

    ghost known_state = { λ p. Some (state_of ByNext p) };

    ghost tally = { λ _. None };

    fn capacity(&self) -> u64 {
        self.capacity
    }

    fn holds(&self, object: u32) -> bool {
        self.holdings.get(object).is_some()
    }

    fn request(
        &mut self,
        _alloc: Global,
        object: u32,
        size: u64,
        next: Option<u32>,
    ) -> Result<Outcome, NoMemory> {
        self.ask(object, size, next)
    }

    ghost state_fits = { λ p. (refl, refl) };
}

impl LetGo for Belady {
    /// It takes constant time. The item of the next request stays in the heap until it comes out or is thrown away.
    fn let_go(&mut self, object: u32) {
        self.used -= self.holdings.take(object);
    }
}
