//! GDSF as it was published in 1998: an object comes in only if it is not among those that would have to go.
ghost use Rattle.std.specs.Prelude.{◌≡◌, ◌≤◌, ◌<◌, ◌^◌, ◌∷◌, [], ℕ, All, false, Some, None, IsOk, IfOk, IfSome, IfNone, OnSome, OnOk, OnErr, IsPermutation, refl};
ghost use Rattle.std.specs.declared.cmp.Reverse.{Reverse};
ghost use Rattle.std.specs.declared.option.Option.{Option};
ghost use Rattle.std.specs.BinaryHeap.{heap_items, heap_len, heap_capacity, IsHeap, PopsGreatest};
ghost use Rattle.std.specs.List.{AllByRecursion};
ghost use Rattle.policy_model.specs.declared.names.PolicyName.TheVariants.{Gdsf98 as ByAdmission};
ghost use Rattle.policy_model.specs.States.{used, has_entry, has_member, Apart};
ghost use Rattle.replay_core.specs.Keeping.{Answers, GivesUp, nothing_kept, state_of, contents_of};
ghost use Rattle.replay_core.specs.Laws.{IsSound};
ghost use Rattle.replay_rank.specs.AdmittedEntries.{AreAbove, RanksAbove, SetsAside, TakesLeast, WeighNoMore, admitted_kept, put_again};
ghost use Rattle.replay_rank.specs.AgingEntries.{entries_of, AreOrdered};
ghost use Rattle.replay_rank.specs.LfuEntries.{item_cmp};

use crate::aging::{Items, Left, Ranked, enter, is_same, put, put_back, raise, renew, worth};
use crate::holdings::{Held, Holdings};
use crate::leftovers::{FEW, throw_away};
use bound_base::NoMemory;
use cache_model::Objective;
use replay_core::{LetGo, Outcome, Policy};
use std::alloc::Global;
use std::cmp::Reverse;
use std::collections::BinaryHeap;
use std::marker::Model;

/// As `Gdsf`, but an object whose rank is below that of an entry that would have to go for it doesn't come in, and then all
/// stays as it was. One that comes in has its rank over the floor before that request (Cherkasova 1998).
///
/// Requests take, one with another, time logarithmic in the number of entries, for themselves, for each entry that is given
/// up, and for each that is set aside and stays. It takes 4 bytes for each object up to the greatest that came in, and
/// memory for each entry and for the most entries that were set aside at once.
#[derive(Drop)]
pub struct Gdsf98 {
    alloc: Global,
    capacity: u64,
    objects: u32,
    requests: u64,
    left: Left,
    holdings: Holdings<Ranked>,
    order: Items,
    // How many items the heap has when it is next looked through.
    limit: usize,
    // The entries that this request has set aside, which are out of the holdings and the order.
    aside: Vec<(u32, Held<Ranked>)>,
}

impl Model for Gdsf98 {
    ghost use Rattle.std.specs.BinaryHeap.{heap_items};
    ghost use Rattle.replay_core.specs.Keeping.{Kept};

    ghost Value = { Kept };

    ghost use Rattle.policy_model.specs.Aging.{floored};
    ghost use Rattle.replay_rank.specs.AgingEntries.{entries_of};
    ghost use Rattle.replay_rank.specs.AdmittedEntries.{IsAdmitting};

    ghost view = { λ p. record {
      objects = p.objects;
      capacity = p.capacity;
      now = p.requests;
      entries = entries_of p.holdings;
      beside = floored p.left.floor;
    } };

    ghost invariant = { λ p. IsAdmitting p.capacity p.left.used p.left.floor p.holdings (heap_items p.order) };
}

// The first item, if its rank is at most this one.
fn pop_at_most(order: &mut Items, most: u128) -> Option<Reverse<((u128, u64), u32)>>
    requires heap { IsHeap item_cmp (heap_items order.old) }
    ensures low { IfSome result (λ item. item.0.0.0 ≤ most) }
    ensures items { IfSome result (λ item. IsPermutation (heap_items order.old) (item ∷ heap_items order.new)) }
    ensures heap { IfSome result (λ item. PopsGreatest item_cmp (heap_items order.old) item (heap_items order.new)) }
    ensures room { OnSome result (heap_len order.new < heap_capacity order.new) }
    ensures stays { IfNone result (heap_items order.new ≡ heap_items order.old) }
    ensures above { IfNone result (AreAbove most (heap_items order.old)) }
{
    let Reverse(((rank, _), _)) = order.peek()?;
    if *rank > most {
        return None;
    }
    order.pop()
}

// Takes out the entry of the least rank, unless that rank is above this one, and says what was held of which object.
fn take_least(
    holdings: &mut Holdings<Ranked>,
    order: &mut Items,
    most: u128,
) -> Option<(u32, Held<Ranked>)>
    requires ordered { AreOrdered holdings.old (heap_items order.old) }
    ensures taken { IfSome result (λ taken. TakesLeast most holdings.old holdings.new taken) }
    ensures stays { IfNone result (holdings.new ≡ holdings.old) }
    ensures above { IfNone result (RanksAbove most (entries_of holdings.old)) }
    ensures ordered { AreOrdered holdings.new (heap_items order.new) }
{
    while let Some(Reverse((rank, object))) = pop_at_most(order, most) {
        if let Some(held) = holdings.get(object) {
            let now = (held.kept.rank, held.kept.last);
            if is_same(rank, now) {
                holdings.remove(object);
                return Some((object, held));
            }
            put_back(order, Reverse((now, object)));
        }
    }
    None
}

// Sets aside the entries of the least ranks until this many bytes fit, as long as their ranks are at most this one. The
// floor rises to the rank of each.
fn set_aside(
    holdings: &mut Holdings<Ranked>,
    order: &mut Items,
    aside: &mut Vec<(u32, Held<Ranked>)>,
    left: &mut Left,
    capacity: u64,
    size: u64,
    most: u128,
) -> Result<(), NoMemory>
    requires none { aside.old.items ≡ [] }
    requires in_use { left.old.used ≡ used (entries_of holdings.old) }
    requires within { left.old.used ≤ capacity }
    requires small { size ≤ capacity }
    requires range { capacity ≤ 2 ^ 56 }
    requires low { left.old.floor ≤ most }
    requires ordered { AreOrdered holdings.old (heap_items order.old) }
    ensures aside { OnOk result (SetsAside most left.old.floor left.new.floor capacity size left.new.used holdings.old holdings.new aside.new.items) }
    ensures part { WeighNoMore (entries_of holdings.new) (entries_of holdings.old) }
    ensures in_use { left.new.used ≡ used (entries_of holdings.new) }
    ensures low { left.new.floor ≤ most }
    ensures ordered { AreOrdered holdings.new (heap_items order.new) }
{
    while left.used + size > capacity {
        let Some((object, held)) = take_least(holdings, order, most) else {
            return Ok(());
        };
        left.used -= held.size;
        left.floor = held.kept.rank;
        aside.push((object, held))?;
    }
    Ok(())
}

// Puts in again what was set aside, the last of it first.
fn restore(
    holdings: &mut Holdings<Ranked>,
    order: &mut Items,
    aside: &mut Vec<(u32, Held<Ranked>)>,
    in_use: &mut u64,
) -> Result<(), NoMemory>
    requires range { used (put_again aside.old.items (entries_of holdings.old)) ≤ 2 ^ 56 }
    requires apart { Apart (put_again aside.old.items (entries_of holdings.old)) }
    requires some { AllByRecursion (λ a. 1 ≤ a.1.size) aside.old.items }
    requires in_use { in_use.old ≡ used (entries_of holdings.old) }
    requires ordered { AreOrdered holdings.old (heap_items order.old) }
    ensures all { OnOk result (entries_of holdings.new ≡ put_again aside.old.items (entries_of holdings.old)) }
    ensures part { WeighNoMore (entries_of holdings.new) (put_again aside.old.items (entries_of holdings.old)) }
    ensures in_use { in_use.new ≡ used (entries_of holdings.new) }
    ensures ordered { AreOrdered holdings.new (heap_items order.new) }
{
    while let Some((object, held)) = aside.pop() {
        put(holdings, order, object, held)?;
        *in_use += held.size;
    }
    Ok(())
}

impl Gdsf98 {
    /// A policy that holds nothing, with its capacity in bytes. It takes memory with the first entry.
    pub fn new(alloc: Global, capacity: u64, objects: u32) -> Result<Self, NoMemory>
        requires range { (1 ≤ capacity) × (capacity ≤ 2 ^ 56) }
        ensures succeeds { IsOk result }
        ensures nothing { IfOk result (λ policy. policy ≡ nothing_kept objects capacity) }
    {
        Ok(Gdsf98 {
            alloc,
            capacity,
            objects,
            requests: 0,
            left: Left { used: 0, floor: 0 },
            holdings: Holdings::new(alloc, Ranked::NONE),
            order: BinaryHeap::new(alloc),
            limit: FEW,
            aside: Vec::new(alloc),
        })
    }

    // Lets an object in that is not held, if no rank above its own has to go for it.
    fn admit(&mut self, object: u32, size: u64) -> Result<(), NoMemory>
        requires size { 1 ≤ size }
        requires small { size ≤ self.old.capacity }
        requires absent { has_entry self.old.entries object ≡ false }
        ensures admits { OnOk result (self.new ≡ admitted_kept self.old object size) }
        ensures gives_up { OnErr result (GivesUp self.old self.new) }
    {
        let floor = self.left.floor;
        let ranked = enter(size, floor, worth(Objective::Object, size), self.requests);
        self.aside.clear();
        set_aside(
            &mut self.holdings,
            &mut self.order,
            &mut self.aside,
            &mut self.left,
            self.capacity,
            size,
            ranked.kept.rank,
        )?;
        if self.left.used + size <= self.capacity {
            put(&mut self.holdings, &mut self.order, object, ranked)?;
            self.left.used += size;
            return Ok(());
        }
        restore(
            &mut self.holdings,
            &mut self.order,
            &mut self.aside,
            &mut self.left.used,
        )?;
        self.left.floor = floor;
        Ok(())
    }

    // One request, as the rule says.
    fn ask(&mut self, object: u32, size: u64) -> Result<Outcome, NoMemory>
        requires size { 1 ≤ size }
        requires kept_size { All (λ m. m.object ≡ object → m.size ≡ size) (contents_of self.old) }
        ensures answers { IfOk result (λ outcome. (next : Option ℕ) → Answers ByAdmission self.old self.new object size next outcome) }
        ensures fits { OnOk result (IsSound self.new.capacity (contents_of self.new)) }
        ensures gives_up { OnErr result (GivesUp self.old self.new) }
    {
        let requests = self.requests.saturating_add(1);
        if let Some(former) = self.holdings.get(object) {
            let worth = worth(Objective::Object, size);
            let now = raise(former, self.left.floor, worth, self.requests);
            renew(&mut self.holdings, &mut self.order, object, former, now)?;
            self.requests = requests;
            return Ok(Outcome::Hit);
        }
        if size <= self.capacity {
            self.admit(object, size)?;
        }
        self.requests = requests;
        Ok(Outcome::Miss)
    }
}

impl Policy for Gdsf98 {
    ghost contents = { λ p. contents_of p };

    ghost objects = { λ p. p.objects };

    ghost room = { λ p. p.capacity };

    ghost known_state = { λ p. Some (state_of ByAdmission p) };

    ghost tally = { λ _. None };

    fn capacity(&self) -> u64 {
        self.capacity
    }

    fn holds(&self, object: u32) -> bool {
        self.holdings.get(object).is_some()
    }

    fn request(
        &mut self,
        _alloc: Global,
        object: u32,
        size: u64,
        _next: Option<u32>,
    ) -> Result<Outcome, NoMemory> {
        self.ask(object, size)
    }

    ghost state_fits = { λ p. (refl, refl) };
}

impl LetGo for Gdsf98 {
    /// Calls take, one with another, time logarithmic in the number of entries. The floor stays.
    fn let_go(&mut self, object: u32) {
        self.left.used -= self.holdings.take(object);
        self.limit = throw_away(self.alloc, &self.holdings, &mut self.order, self.limit);
    }
}
