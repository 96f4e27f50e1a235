//! A trace, by the numbers of its objects.
ghost use Rattle.std.specs.Prelude.{◌≡◌, ◌≤◌, ◌<◌, ◌^◌, ◌++◌, [], ◌∷◌, length, Some, slice_get};
ghost use Rattle.std.specs.Prelude.{slice_index_or, position, IfSome, OnOk, OnErr, MatchOption};
ghost use Rattle.std.specs.Vec.{vec_len, vec_capacity};
ghost use Rattle.cache_model.specs.Objects.{objects_of, IsNext, IsLast, IsFirst};
ghost use Rattle.cache_model.specs.Claim.{same_object, no_object, only_fills, counts_past, request_at};
ghost use Rattle.bit_list.specs.Bits.{bits_of, HasRoom};
ghost use Rattle.cache_rules.specs.Stored.{no_request, with_mark, with_request};

use bit_list::BitList;
use bound_base::NoMemory;
use cache_model::Object;
use indexmap::IndexMap;
use std::alloc::{AllocError, Global};
use std::marker::Model;

// What stands where an object has no earlier or no later request.
const NO_REQUEST: u32 = u32::MAX;

/// The requests of a trace. Requests count from 0, and so do its objects, in order of first appearance.
///
/// It takes 12 bytes for each request and a bit for each mark, and one entry of a hash map for each object. Each answer
/// takes constant time.
#[derive(Debug)]
pub struct Trace {
    latest: IndexMap<Object, u32>,
    numbers: Vec<u32>,
    previous: Vec<u32>,
    following: Vec<u32>,
    fills: BitList,
}

// Its memory goes back here, in one step of whoever drops it.
impl Drop for Trace {
    fn drop(self) {
        let Trace {
            latest: _,
            numbers: _,
            previous: _,
            following: _,
            fills: _,
        } = self;
    }
}

impl Model for Trace {
    ghost use Rattle.cache_rules.specs.Stored.{Requests};

    ghost Value = { Requests };

    ghost use Rattle.indexmap.specs.IndexMap.{keys};
    ghost use Rattle.bit_list.specs.Bits.{bits_of};
    ghost use Rattle.cache_rules.specs.Stored.{trace_of, IsStored};

    ghost view = { λ s. record { objects = trace_of (keys s.latest) s.numbers.items; fills = bits_of s.fills } };

    ghost invariant = { λ s. IsStored (trace_of (keys s.latest) s.numbers.items) s.latest.entries s.numbers.items s.previous.items s.following.items };
}

// Makes room for one more number in each list.
fn make_room(
    numbers: &mut Vec<u32>,
    previous: &mut Vec<u32>,
    following: &mut Vec<u32>,
) -> Result<(), AllocError>
    ensures same_numbers { numbers.new.items ≡ numbers.old.items }
    ensures same_previous { previous.new.items ≡ previous.old.items }
    ensures same_following { following.new.items ≡ following.old.items }
    ensures room_of_numbers { OnOk result (vec_len numbers.new < vec_capacity numbers.new) }
    ensures room_of_previous { OnOk result (vec_len previous.new < vec_capacity previous.new) }
    ensures room_of_following { OnOk result (vec_len following.new < vec_capacity following.new) }
{
    numbers.reserve(1)?;
    previous.reserve(1)?;
    following.reserve(1)
}

// Makes room for a mark, if there is one.
fn make_room_for_mark(fills: &mut BitList, mark: Option<bool>) -> Result<(), AllocError>
    ensures same { bits_of fills.new ≡ bits_of fills.old }
    ensures room { OnOk result (IfSome mark (λ _. HasRoom fills.new)) }
{
    match mark {
        Some(_) => fills.make_room(),
        None => Ok(()),
    }
}

// Appends a mark, if there is one.
fn push_mark(fills: &mut BitList, mark: Option<bool>)
    requires room { IfSome mark (λ _. HasRoom fills.old) }
    ensures { bits_of fills.new ≡ with_mark (bits_of fills.old) mark }
{
    if let Some(only_fills) = mark {
        fills.push_reserved(only_fills);
    }
}

// The request that a stored number names, if any.
fn named_request(stored: u32) -> Option<u32>
    ensures { MatchOption result (stored ≡ no_request) (λ t. (stored ≡ t) × (t < no_request)) }
{
    if stored == NO_REQUEST {
        None
    } else {
        Some(stored)
    }
}

impl Trace {
    // A trace without requests.
    pub(crate) fn empty(alloc: Global) -> Self
        ensures { result ≡ record { objects = []; fills = [] } }
    {
        Trace {
            latest: IndexMap::new(alloc),
            numbers: Vec::new(alloc),
            previous: Vec::new(alloc),
            following: Vec::new(alloc),
            fills: BitList::new(alloc),
        }
    }

    // Appends a request, and its mark if there is one. All that can fail comes before the first change.
    pub(crate) fn append(&mut self, object: Object, mark: Option<bool>) -> Result<(), NoMemory>
        requires few { length self.old.objects < 2 ^ 25 }
        requires size { (1 ≤ object.size) × (object.size ≤ 2 ^ 48) }
        ensures ok { OnOk result (self.new ≡ with_request self.old object mark) }
        ensures err { OnErr result (self.new ≡ self.old) }
    {
        let t = self.numbers.len() as u32;
        make_room(&mut self.numbers, &mut self.previous, &mut self.following)?;
        make_room_for_mark(&mut self.fills, mark)?;
        let (number, before) = self.latest.insert_full(object, t)?;
        self.numbers.push_reserved(number as u32);
        self.following.push_reserved(NO_REQUEST);
        push_mark(&mut self.fills, mark);
        match before {
            Some(earlier) => {
                self.previous.push_reserved(earlier);
                self.following[earlier as usize] = t;
            }
            None => self.previous.push_reserved(NO_REQUEST),
        }
        Ok(())
    }

    /// How many requests there are.
    pub fn len(&self) -> u32
        ensures requests { result ≡ length self.now.objects }
        ensures most { result ≤ 2 ^ 25 }
    {
        self.numbers.len() as u32
    }

    /// How many different objects are asked for.
    pub fn objects(&self) -> u32
        ensures different { result ≡ length (objects_of self.now.objects) }
        ensures no_more { result ≤ length self.now.objects }
        ensures most { result ≤ 2 ^ 25 }
    {
        self.latest.len() as u32
    }

    /// The number of the object of request `t`.
    pub fn request(&self, t: u32) -> u32
        requires within { t < length self.now.objects }
        ensures number { position (same_object (request_at self.now.objects t)) (objects_of self.now.objects) ≡ Some result }
        ensures object { slice_get (objects_of self.now.objects) result ≡ Some (request_at self.now.objects t) }
        ensures known { result < length (objects_of self.now.objects) }
    {
        self.numbers[t as usize]
    }

    /// The nearest earlier request of the object of request `t`.
    pub fn prev(&self, t: u32) -> Option<u32>
        requires within { t < length self.now.objects }
        ensures nearest { MatchOption result (IsFirst self.now.objects t) (λ a. IsNext self.now.objects a t) }
    {
        named_request(self.previous[t as usize])
    }

    /// The nearest later request of the object of request `t`.
    pub fn next(&self, t: u32) -> Option<u32>
        requires within { t < length self.now.objects }
        ensures nearest { MatchOption result (IsLast self.now.objects t) (λ b. IsNext self.now.objects t b) }
    {
        named_request(self.following[t as usize])
    }

    /// Whether request `t` only fills the cache.
    pub fn only_fills(&self, t: u32) -> bool
        ensures { result ≡ only_fills self.now.fills t }
    {
        self.fills.get(t as usize)
    }

    /// Whether a hit at request `t` counts: it is past the warm-up, and doesn't only fill the cache.
    pub fn counts(&self, t: u32, warmup: u32) -> bool
        ensures { result ≡ counts_past warmup self.now.fills t }
    {
        t >= warmup && !self.only_fills(t)
    }

    /// The object of this number.
    pub fn object(&self, number: u32) -> Object
        requires known { number < length (objects_of self.now.objects) }
        ensures object { slice_get (objects_of self.now.objects) number ≡ Some result }
        ensures size { (1 ≤ result.size) × (result.size ≤ 2 ^ 48) }
    {
        *self.latest.get_index(number as usize).unwrap().0
    }

    /// The size of the object of this number, in bytes.
    pub fn size_of(&self, number: u32) -> u64
        requires known { number < length (objects_of self.now.objects) }
        ensures size { result ≡ (slice_index_or (objects_of self.now.objects) number no_object).size }
        ensures range { (1 ≤ result) × (result ≤ 2 ^ 48) }
    {
        self.object(number).size
    }
}
