//! The rule that gives up the object with the fewest hits since it entered, and of those the one used longest ago.
ghost use Rattle.std.specs.Prelude.{◌≡◌, ◌≤◌, ◌<◌, ◌^◌, ◌+◌, ◌∷◌, ℕ, All, length, false, Some, None, IsOk, IfOk, OnOk, OnErr, IsPermutation, refl};
ghost use Rattle.std.specs.declared.option.Option.{Option};
ghost use Rattle.std.specs.declared.cmp.Reverse.{Reverse};
ghost use Rattle.std.specs.BTreeMap.{is_at};
ghost use Rattle.std.specs.BinaryHeap.{heap_items, heap_len, heap_capacity, KeepsHeap};
ghost use Rattle.std.specs.Map.{lookup};
ghost use Rattle.std.specs.Ordering.{nat_cmp};
ghost use Rattle.policy_model.specs.declared.names.PolicyName.TheVariants.{Lfu as ByCount};
ghost use Rattle.policy_model.specs.States.{used, has_entry};
ghost use Rattle.policy_model.specs.Steps.{make_room, remove_foremost, is_less_used, touch, put_in};
ghost use Rattle.replay_core.specs.Keeping.{Answers, GivesUp, nothing_kept, state_of, contents_of};
ghost use Rattle.replay_core.specs.Laws.{IsSound};
ghost use Rattle.replay_rank.specs.HeldPairs.{IsThinned};
ghost use Rattle.replay_rank.specs.LfuEntries.{entry_of, entries_of, same_rank, at_most, item_cmp, is_standing, AreOrdered};

use crate::holdings::{Held, Holdings};
use bound_base::NoMemory;
use replay_core::{LetGo, Outcome, Policy};
use std::alloc::Global;
use std::cmp::Reverse;
use std::collections::BinaryHeap;
use std::marker::Model;
use std::mem;

// The fewest items among which those are looked for that stand for nothing.
const FEW: usize = 64;

// The item of the least pair of count and last use comes out first, and of equal pairs that of the least object number.
type Items = BinaryHeap<Reverse<((u64, u64), u32)>>;

/// The hits of an object since it entered, and the number of requests before its last.
#[derive(Clone, Copy, Debug, PartialEq, Eq)]
struct Uses {
    count: u64,
    last: u64,
}

impl Uses {
    const NONE: Uses = Uses { count: 0, last: 0 };
}

/// The object with the fewest hits since it entered is given up first, and of those the one that was used longest ago.
///
/// A hit changes what is held and leaves the heap as it is, whose items stand for no more uses than there were. An item
/// that comes out of it with fewer goes back with all of them. The item of an object that is let go of stays there too;
/// if there are then twice as many items as were left when such ones were last thrown away, they are thrown away again.
/// So requests take, one with another, time logarithmic in the number of entries, for themselves and for each entry
/// that is given up. It takes 4 bytes for each object up to the greatest that came in, and memory for each entry.
#[derive(Drop)]
pub struct Lfu {
    alloc: Global,
    capacity: u64,
    objects: u32,
    requests: u64,
    used: u64,
    holdings: Holdings<Uses>,
    order: Items,
    // How many items the heap has when it is next looked through.
    limit: usize,
}

impl Model for Lfu {
    ghost use Rattle.std.specs.BinaryHeap.{heap_items};
    ghost use Rattle.replay_core.specs.Keeping.{Kept};

    ghost Value = { Kept };

    ghost use Rattle.policy_model.specs.States.{nothing_beside};
    ghost use Rattle.replay_rank.specs.LfuEntries.{entries_of, IsLfu};

    ghost view = { λ p. record {
      objects = p.objects;
      capacity = p.capacity;
      now = p.requests;
      entries = entries_of p.holdings;
      beside = nothing_beside;
    } };

    ghost invariant = { λ p. IsLfu p.capacity p.used p.holdings (heap_items p.order) };
}

// Whether two ranks are one.
fn is_same(former: (u64, u64), now: (u64, u64)) -> bool
    ensures { result ≡ same_rank former now }
{
    former.0 == now.0 && former.1 == now.1
}

// Whether a rank goes no later than another.
fn is_at_most(former: (u64, u64), now: (u64, u64)) -> bool
    ensures { result ≡ at_most former now }
{
    former.0 < now.0 || (former.0 == now.0 && former.1 <= now.1)
}

// Counts a hit of an object that is held.
fn count_hit(
    holdings: &mut Holdings<Uses>,
    order: &mut Items,
    object: u32,
    held: Held<Uses>,
    now: u64,
) -> Result<(), NoMemory>
    requires held { lookup (is_at (nat_cmp object)) holdings.old ≡ Some held }
    requires size { 1 ≤ held.size }
    requires ordered { AreOrdered holdings.old (heap_items order.old) }
    ensures entries { OnOk result (entries_of holdings.new ≡ touch ByCount now None object (entries_of holdings.old)) }
    ensures ordered { AreOrdered holdings.new (heap_items order.new) }
    ensures err { OnErr result (entries_of holdings.new ≡ entries_of holdings.old) }
{
    let count = held.kept.count.saturating_add(1);
    if !is_at_most((held.kept.count, held.kept.last), (count, now)) {
        order.push(Reverse(((count, now), object)))?;
    }
    let kept = Uses { count, last: now };
    holdings.renew(
        object,
        Held {
            size: held.size,
            kept,
        },
    );
    Ok(())
}

// Puts in an object that is not held.
fn put(
    holdings: &mut Holdings<Uses>,
    order: &mut Items,
    object: u32,
    held: Held<Uses>,
) -> Result<(), NoMemory>
    requires absent { has_entry (entries_of holdings.old) object ≡ false }
    requires size { 1 ≤ held.size }
    requires ordered { AreOrdered holdings.old (heap_items order.old) }
    ensures entries { OnOk result (entries_of holdings.new ≡ put_in (entry_of (object, held)) (entries_of holdings.old)) }
    ensures ordered { AreOrdered holdings.new (heap_items order.new) }
    ensures err { OnErr result (entries_of holdings.new ≡ entries_of holdings.old) }
{
    order.push(Reverse(((held.kept.count, held.kept.last), object)))?;
    holdings.put(object, held)?;
    Ok(())
}

// Puts an item into the room of one that came out.
fn put_back(order: &mut Items, item: Reverse<((u64, u64), u32)>)
    requires room { heap_len order.old < heap_capacity order.old }
    ensures items { IsPermutation (item ∷ heap_items order.old) (heap_items order.new) }
    ensures heap { KeepsHeap item_cmp (heap_items order.old) (heap_items order.new) }
{
    let _ = order.push(item);
}

// Gives up the least used entry, and says its size in bytes.
fn give_up_least(holdings: &mut Holdings<Uses>, order: &mut Items) -> u64
    requires some { 0 < used (entries_of holdings.old) }
    requires ordered { AreOrdered holdings.old (heap_items order.old) }
    ensures entries { entries_of holdings.new ≡ remove_foremost is_less_used (entries_of holdings.old) }
    ensures fewer { length holdings.new + 1 ≡ length holdings.old }
    ensures size { used (entries_of holdings.new) + result ≡ used (entries_of holdings.old) }
    ensures ordered { AreOrdered holdings.new (heap_items order.new) }
{
    while let Some(Reverse((rank, object))) = order.pop() {
        if let Some(held) = holdings.get(object) {
            let now = (held.kept.count, held.kept.last);
            if is_same(rank, now) {
                holdings.remove(object);
                return held.size;
            }
            put_back(order, Reverse((now, object)));
        }
    }
    unreachable()
}

// Gives up the least used entries until this many bytes fit, and says how many bytes are still used.
fn free_least_used(
    holdings: &mut Holdings<Uses>,
    order: &mut Items,
    in_use: u64,
    capacity: u64,
    size: u64,
) -> u64
    requires in_use { in_use ≡ used (entries_of holdings.old) }
    requires within { in_use ≤ capacity }
    requires small { size ≤ capacity }
    requires range { capacity ≤ 2 ^ 56 }
    requires ordered { AreOrdered holdings.old (heap_items order.old) }
    ensures entries { entries_of holdings.new ≡ make_room (length holdings.old) (remove_foremost is_less_used) capacity size (entries_of holdings.old) }
    ensures in_use { result ≡ used (entries_of holdings.new) }
    ensures ordered { AreOrdered holdings.new (heap_items order.new) }
    ensures room { result + size ≤ capacity }
{
    let mut left = in_use;
    while left + size > capacity {
        left -= give_up_least(holdings, order);
    }
    left
}

// Whether an item stands for its object, which is held, by as many uses or fewer.
fn is_standing(holdings: &Holdings<Uses>, item: &Reverse<((u64, u64), u32)>) -> bool
    ensures { result ≡ is_standing holdings.now item.now }
{
    match holdings.get(item.0.1) {
        Some(held) => is_at_most(item.0.0, (held.kept.count, held.kept.last)),
        None => false,
    }
}

// Of the items that stand for their objects, one for each object.
fn one_each(holdings: &Holdings<Uses>, items: Vec<Reverse<((u64, u64), u32)>>) -> Items
    requires ordered { AreOrdered holdings.now items.items }
    ensures ordered { AreOrdered holdings.now (heap_items result) }
    ensures few { length (heap_items result) ≤ length holdings.now }
{
    let mut items = items;
    items.retain(|item| is_standing(holdings, item));
    items.sort_unstable_by_key(|item| item.0.1);
    items.dedup_by_key(|item| item.0.1);
    BinaryHeap::from(items)
}

// Throws away all items but one for each object that is held, if there are this many items, and says at how many to do it
// again. It takes no memory.
fn throw_away(alloc: Global, holdings: &Holdings<Uses>, order: &mut Items, limit: usize) -> usize
    requires ordered { AreOrdered holdings.now (heap_items order.old) }
    ensures ordered { AreOrdered holdings.now (heap_items order.new) }
    ensures few { IsThinned limit result (length (heap_items order.new)) (length holdings.now) }
{
    if order.len() < limit {
        return limit;
    }
    let items = mem::replace(order, BinaryHeap::new(alloc)).into_vec();
    *order = one_each(holdings, items);
    order.len().saturating_mul(2).max(FEW)
}

impl Lfu {
    /// A policy that holds nothing, with its capacity in bytes. It takes memory with the first entry.
    pub fn new(alloc: Global, capacity: u64, objects: u32) -> Result<Self, NoMemory>
        requires range { (1 ≤ capacity) × (capacity ≤ 2 ^ 56) }
        ensures succeeds { IsOk result }
        ensures nothing { IfOk result (λ policy. policy ≡ nothing_kept objects capacity) }
    {
        Ok(Lfu {
            alloc,
            capacity,
            objects,
            requests: 0,
            used: 0,
            holdings: Holdings::new(alloc, Uses::NONE),
            order: BinaryHeap::new(alloc),
            limit: FEW,
        })
    }

    // One request, as the rule says.
    fn ask(&mut self, object: u32, size: u64) -> Result<Outcome, NoMemory>
        requires size { 1 ≤ size }
        requires kept_size { All (λ m. m.object ≡ object → m.size ≡ size) (contents_of self.old) }
        ensures answers { IfOk result (λ outcome. (next : Option ℕ) → Answers ByCount self.old self.new object size next outcome) }
        ensures fits { OnOk result (IsSound self.new.capacity (contents_of self.new)) }
        ensures gives_up { OnErr result (GivesUp self.old self.new) }
    {
        let requests = self.requests.saturating_add(1);
        if let Some(held) = self.holdings.get(object) {
            count_hit(
                &mut self.holdings,
                &mut self.order,
                object,
                held,
                self.requests,
            )?;
            self.requests = requests;
            return Ok(Outcome::Hit);
        }
        if size > self.capacity {
            self.requests = requests;
            return Ok(Outcome::Miss);
        }
        self.used = free_least_used(
            &mut self.holdings,
            &mut self.order,
            self.used,
            self.capacity,
            size,
        );
        let kept = Uses {
            count: 0,
            last: self.requests,
        };
        put(
            &mut self.holdings,
            &mut self.order,
            object,
            Held { size, kept },
        )?;
        self.used += size;
        self.requests = requests;
        Ok(Outcome::Miss)
    }
}

impl Policy for Lfu {
    ghost contents = { λ p. contents_of p };

    ghost objects = { λ p. p.objects };

    ghost room = { λ p. p.capacity };

    ghost known_state = { λ p. Some (state_of ByCount p) };

    ghost tally = { λ _. None };

    fn capacity(&self) -> u64 {
        self.capacity
    }

    fn holds(&self, object: u32) -> bool {
        self.holdings.get(object).is_some()
    }

    fn request(
        &mut self,
        _alloc: Global,
        object: u32,
        size: u64,
        _next: Option<u32>,
    ) -> Result<Outcome, NoMemory> {
        self.ask(object, size)
    }

    ghost state_fits = { λ p. (refl, refl) };
}

impl LetGo for Lfu {
    /// Calls take, one with another, time logarithmic in the number of entries.
    fn let_go(&mut self, object: u32) {
        self.used -= self.holdings.take(object);
        self.limit = throw_away(self.alloc, &self.holdings, &mut self.order, self.limit);
    }
}
