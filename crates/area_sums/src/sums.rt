//! Sums of areas, and the bounds that follow from them.
ghost use Rattle.std.specs.Prelude.{◌≡◌, ◌+◌, ◌*◌, ◌<◌, ◌≤◌, ◌^◌, ◌∷◌, ◌++◌, [], List, IfOk, OnOk, OnErr};
ghost use Rattle.std.specs.List.Sorted.{IsStrictlyIncreasing};
ghost use Rattle.area_sums.specs.Spans.{Span};
ghost use Rattle.area_sums.specs.Places.{pairs};
ghost use Rattle.area_sums.specs.Groups.{AreCapacities, AreLeastBounds, AreSumsOf, no_sums, place_of};
ghost use Rattle.area_sums.specs.Kept.{HasRoomAt};
ghost use Rattle.area_sums.specs.Pages.{HasMoreIn, HasSameGroups, KeepsRows};
ghost use Rattle.area_sums.specs.Short.{class_of};

use crate::bound::{CapacityBounds, EdgeBound};
use crate::group::Group;
use crate::pages::Pages;
use crate::places::least_bounds;
use crate::short::class_of;
use bound_base::NoMemory;
use std::alloc::Global;
use std::marker::Model;

/// Counts and areas of requests that can be hits, summed by the first capacity that holds the object and by the class of
/// the area, and of the length. The sums of successive classes stand in pages, which are made as spans of them come. Of an
/// object that no capacity holds there is no sum.
#[derive(Drop)]
pub struct AreaSums {
    capacities: Vec<u64>,
    count: u32,
    hits: Pages,
    bytes: Pages,
}

impl Model for AreaSums {
    ghost use Rattle.area_sums.specs.Groups.{Sums};
    ghost use Rattle.area_sums.specs.Kept.{AreKept, sums_in};

    ghost Value = { Sums };

    ghost view = { λ s. sums_in s.capacities.items s.count s.hits s.bytes };

    ghost invariant = { λ s. AreKept s.capacities.items s.count s.hits s.bytes };
}

// The first capacity that holds an object of a size, and how many there are if none does.
fn first_holding(capacities: &[u64], size: u64) -> usize
    requires { IsStrictlyIncreasing capacities.now }
    ensures { result ≡ place_of capacities.now size }
{
    capacities.partition_point(|capacity| *capacity < size)
}

// The bounds of hits and of bytes, capacity by capacity.
fn paired(
    alloc: Global,
    hits: &[EdgeBound],
    bytes: &[EdgeBound],
) -> Result<Vec<CapacityBounds>, NoMemory>
    ensures { IfOk result (λ bounds. bounds.items ≡ pairs hits.now bytes.now) }
{
    Ok(
        hits.iter()
            .zip(bytes)
            .map(|(hits, bytes)| CapacityBounds {
                hits: *hits,
                bytes: *bytes,
            })
            .collect(alloc)?,
    )
}

// Adds a span to the groups of its place, of the class of its area and of that of its length, if there is such a place.
fn add_span(
    hits: &mut Pages,
    bytes: &mut Pages,
    place: usize,
    size: u64,
    length: u64,
) -> Result<(), NoMemory>
    requires places { hits.old.places ≡ bytes.old.places }
    requires place { place ≤ hits.old.places }
    requires size { size ≤ 2 ^ 48 }
    requires length { length < 2 ^ 32 }
    requires hits { HasRoomAt hits.old place (class_of (size * length)) (record { gain = 1; area = size * length }) }
    requires bytes { HasRoomAt bytes.old place (class_of length) (record { gain = size; area = size * length }) }
    ensures hits_rows { KeepsRows (class_of (size * length)) hits.old hits.new }
    ensures bytes_rows { KeepsRows (class_of length) bytes.old bytes.new }
    ensures hits { OnOk result (HasMoreIn place (class_of (size * length)) (record { gain = 1; area = size * length }) hits.old hits.new) }
    ensures bytes { OnOk result (HasMoreIn place (class_of length) (record { gain = size; area = size * length }) bytes.old bytes.new) }
    ensures err_hits { OnErr result (HasSameGroups hits.old hits.new) }
    ensures err_bytes { OnErr result (HasSameGroups bytes.old bytes.new) }
{
    if place == hits.places() {
        return Ok(());
    }
    let area = u128::from(size) * u128::from(length);
    let of_area = class_of(area);
    let of_length = class_of(u128::from(length));
    hits.make_page(place, of_area)?;
    bytes.make_page(place, of_length)?;
    hits.add(place, of_area, Group { gain: 1, area });
    bytes.add(
        place,
        of_length,
        Group {
            gain: u128::from(size),
            area,
        },
    );
    Ok(())
}

impl AreaSums {
    /// The sums of no request, at these capacities.
    pub fn new(alloc: Global, capacities: &[u64]) -> Result<Self, NoMemory>
        requires { AreCapacities capacities.now }
        ensures sums { IfOk result (λ sums. sums ≡ no_sums capacities.now) }
        ensures none { IfOk result (λ sums. AreSumsOf [] sums) }
    {
        Ok(AreaSums {
            capacities: Vec::from_slice(alloc, capacities)?,
            count: 0,
            hits: Pages::new(alloc, capacities.len())?,
            bytes: Pages::new(alloc, capacities.len())?,
        })
    }

    /// Adds a request that can be a hit on an object of this size, which a hit holds for this many steps. It takes
    /// constant time on average, as pages are made, beside a search for the capacity.
    pub fn add(&mut self, size: u64, length: u64) -> Result<(), NoMemory>
        requires some { 0 < size }
        requires size { size ≤ 2 ^ 48 }
        requires length { length < 2 ^ 32 }
        requires room { self.old.count + 1 < 2 ^ 32 }
        ensures capacities { self.new.capacities ≡ self.old.capacities }
        ensures count { OnOk result (self.new.count ≡ self.old.count + 1) }
        ensures added { OnOk result ((spans : List Span) → AreSumsOf spans self.old
            → AreSumsOf (spans ++ (record { size = size; length = length }) ∷ []) self.new) }
        ensures err { OnErr result (self.new ≡ self.old) }
    {
        let place = first_holding(&self.capacities, size);
        add_span(&mut self.hits, &mut self.bytes, place, size, length)?;
        self.count += 1;
        Ok(())
    }

    /// The least bounds at each of the capacities, in their order. The steps are one fewer than the requests of the trace.
    /// At each capacity it goes over the classes up to the greatest that has a page, of which there are at most 188,416.
    /// It takes memory for the groups of these.
    pub fn bounds(&self, alloc: Global, steps: u32) -> Result<Vec<CapacityBounds>, NoMemory>
        ensures { IfOk result (λ bounds. AreLeastBounds self.now steps bounds.items) }
    {
        let hits = least_bounds(alloc, &self.capacities, &self.hits, steps)?;
        let bytes = least_bounds(alloc, &self.capacities, &self.bytes, steps)?;
        paired(alloc, &hits, &bytes)
    }
}
