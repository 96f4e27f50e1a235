//! One pass over the requests of a trace, and the steps between.
ghost use Rattle.std.specs.Prelude.{◌≡◌, ℕ, ◌+◌, ◌*◌, ◌/◌, ◌≤◌, ◌<◌, ◌^◌, ◌↔◌, max, length, slice_index_or, IsTrue, IfOk, OnOk, OnErr};
ghost use Rattle.ttl_sums.specs.declared.entry.Entry.{Entry};
ghost use Rattle.ttl_sums.specs.Entries.{AsksNext, CanAsk, WasEntry};
ghost use Rattle.ttl_sums.specs.Walked.{HasWalked, IsNext, IsNextAbove, Priced, bound_of, worths_before};
ghost use Rattle.ttl_sums.specs.Worths.{most};

use crate::entry::{Entry, Tops};
use crate::request::Request;
use bound_base::NoMemory;
use std::alloc::Global;
use std::marker::Model;

/// The greatest worths of all objects so far, with a time to live, at the prices of the steps so far.
///
/// Requests come one after another, and the price of the step after each. A request changes the entry of its own object
/// alone: an entry has the prices of all steps before the last request of its object, and those since are what the sum of
/// all is above them. It takes 96 bytes for each object, beside 32 for each of its starts.
#[derive(Drop)]
pub struct TtlWorths {
    ttl: u64,
    units: u64,
    clock: u64,
    prices: u128,
    gains: u128,
    total: u128,
    objects: Vec<Entry>,
}

impl Model for TtlWorths {
    ghost use Rattle.ttl_sums.specs.Worths.{IsWithin, Worths};

    ghost Value = { Worths };

    ghost view = { λ w. record { ttl = w.ttl; units = w.units; clock = w.clock; prices = w.prices; gains = w.gains; total = w.total; objects = w.objects.items } };

    ghost invariant = { λ w. IsWithin (record { ttl = w.ttl; units = w.units; clock = w.clock; prices = w.prices; gains = w.gains; total = w.total; objects = w.objects.items }) };
}

// The most that the units times the prices can be.
const MOST: u128 = 1 << 126;

// Walks a request of the object of its number, which may be a new one.
fn ask_object(
    alloc: Global,
    objects: &mut Vec<Entry>,
    ttl: u64,
    prices: u128,
    request: &Request,
) -> Result<Tops, NoMemory>
    requires number { request.now.number ≤ length objects.old.items }
    requires can_ask { (e : Entry) → WasEntry objects.old.items request.now.number e → CanAsk prices request.now e }
    requires small { request.now.weight * prices ≤ most }
    ensures asked { IfOk result (λ tops. AsksNext ttl prices request.now objects.old.items objects.new.items tops) }
    ensures err { OnErr result (objects.new.items ≡ objects.old.items) }
{
    let number = request.number as usize;
    if number < objects.len() {
        let entry = &mut objects[number];
        return entry.ask(ttl, prices, request);
    }
    let mut entry = Entry::new(alloc);
    let tops = entry.ask(ttl, prices, request)?;
    objects.push(entry)?;
    Ok(tops)
}

impl TtlWorths {
    /// Nothing was walked. The time to live is in the unit of the clock, and the capacity is this number of units. It takes no
    /// memory.
    pub fn new(alloc: Global, ttl: u64, units: u64) -> Self
        requires { 1 ≤ units }
        ensures units { result.units ≡ units }
        ensures clock { result.clock ≡ 0 }
        ensures prices { result.prices ≡ 0 }
        ensures gains { result.gains ≡ 0 }
        ensures objects { length result.objects ≡ 0 }
        ensures walked { (p : Priced) → p.ttl ≡ ttl → p.terms.capacity / p.unit ≡ units → HasWalked p 0 0 result }
    {
        TtlWorths {
            ttl,
            units,
            clock: 0,
            prices: 0,
            gains: 0,
            total: 0,
            objects: Vec::new(alloc),
        }
    }

    /// Walks the next request, of an object within the capacity, which may be a new one. It takes constant time on average.
    pub fn request(&mut self, alloc: Global, request: &Request) -> Result<(), NoMemory>
        requires number { request.now.number ≤ length self.old.objects }
        requires clock { self.old.clock ≤ request.now.clock }
        requires weight { request.now.weight ≤ self.old.units }
        requires gain { self.old.gains + request.now.gain < most }
        ensures units { self.new.units ≡ self.old.units }
        ensures prices { self.new.prices ≡ self.old.prices }
        ensures clock { OnOk result (self.new.clock ≡ request.now.clock) }
        ensures gains { OnOk result (self.new.gains ≡ self.old.gains + request.now.gain) }
        ensures objects { OnOk result (length self.new.objects ≡ max (length self.old.objects) (request.now.number + 1)) }
        ensures walked { OnOk result ((p : Priced) (n : ℕ) → IsNext p n request.now → HasWalked p n n self.old → HasWalked p (n + 1) n self.new) }
        ensures err { OnErr result (self.new ≡ self.old) }
    {
        let tops = ask_object(alloc, &mut self.objects, self.ttl, self.prices, request)?;
        self.total = self.total - tops.before + tops.after;
        self.clock = request.clock;
        self.gains += request.gain;
        Ok(())
    }

    /// Passes the next request, of an object of this number that is above the capacity. It is worth nothing, but has its number.
    pub fn skip(&mut self, alloc: Global, number: u32) -> Result<(), NoMemory>
        requires number { number ≤ length self.old.objects }
        ensures units { self.new.units ≡ self.old.units }
        ensures prices { self.new.prices ≡ self.old.prices }
        ensures clock { self.new.clock ≡ self.old.clock }
        ensures gains { self.new.gains ≡ self.old.gains }
        ensures objects { OnOk result (length self.new.objects ≡ max (length self.old.objects) (number + 1)) }
        ensures walked { OnOk result ((p : Priced) (n : ℕ) → IsNextAbove p n number → HasWalked p n n self.old → HasWalked p (n + 1) n self.new) }
        ensures err { OnErr result (self.new ≡ self.old) }
    {
        if number as usize == self.objects.len() {
            self.objects.push(Entry::new(alloc))?;
        }
        Ok(())
    }

    /// The step after that request, at this price over the denominator.
    pub fn step(&mut self, price: u128)
        requires { self.old.units * (self.old.prices + price) ≤ most }
        ensures units { self.new.units ≡ self.old.units }
        ensures clock { self.new.clock ≡ self.old.clock }
        ensures prices { self.new.prices ≡ self.old.prices + price }
        ensures gains { self.new.gains ≡ self.old.gains }
        ensures objects { length self.new.objects ≡ length self.old.objects }
        ensures walked { (p : Priced) (n : ℕ) → price ≡ slice_index_or p.prices n 0
            → HasWalked p (n + 1) n self.old → HasWalked p (n + 1) (n + 1) self.new }
    {
        self.prices += price;
    }

    /// How many objects there were: the number of the next new one.
    pub fn objects(&self) -> usize
        ensures { result ≡ length self.now.objects }
    {
        self.objects.len()
    }

    /// Whether a step of this price can come: the units times the prices are at most 2^126.
    pub fn has_room_for(&self, price: u128) -> bool
        ensures { IsTrue result ↔ (self.now.units * (self.now.prices + price) ≤ most) }
    {
        price <= MOST / u128::from(self.units) - self.prices
    }

    /// The prices of all steps so far, over the denominator.
    pub fn prices(&self) -> u128
        ensures { result ≡ self.now.prices }
    {
        self.prices
    }

    /// The gains of all requests so far, over the denominator.
    pub fn gains(&self) -> u128
        ensures { result ≡ self.now.gains }
    {
        self.gains
    }

    /// The greatest worths of all objects, summed, over the denominator.
    pub fn total(&self) -> u128
        ensures { (p : Priced) (n steps : ℕ) → HasWalked p n steps self.now → result ≡ worths_before p n }
    {
        self.total
    }

    /// The bound of the prices, over the denominator: the units times the prices, and the greatest worths of all objects.
    pub fn bound(&self) -> u128
        ensures bound { (p : Priced) → length p.prices ≤ length p.trace
            → HasWalked p (length p.trace) (length p.trace) self.now → result ≡ bound_of p }
        ensures range { result < 2 ^ 127 }
    {
        u128::from(self.units) * self.prices + self.total
    }
}
