//! Made traces with marks, as requests and as a trace.
ghost use Rattle.std.specs.Prelude.{◌≡◌, true};

use crate::rows::holds;
use cache_rules::{Builder, Object, Trace};
use std::alloc::Global;
use std::process::Abort;

// A request: the number of its object, its size, and whether it only fills.
#[derive(Clone, Copy)]
pub struct Ask {
    pub object: u32,
    pub size: u64,
    pub fills: bool,
}

// How many requests there are, of how many objects, how large an object is at most, and how many traces are made.
pub type Row = (u32, u32, u64, u32);

// The next number of a row that is made: Numerical Recipes' generator.
fn next_of(number: u32) -> u32 {
    number.wrapping_mul(1664525).wrapping_add(1013904223)
}

// A number below this one, or 0, made of the upper bits.
fn below(number: u32, end: u32) -> u32 {
    let upper = number >> 8;
    if end == 0 { 0 } else { upper % end }
}

// A size from 1 to this one, made of a number.
fn size_below(number: u32, largest: u64) -> u64 {
    let upper = (number >> 8) as u64;
    if largest == 0 {
        1
    } else {
        u64::wrapping_add(1, upper % largest)
    }
}

// Requests of made ids and marks, about a third of which only fill. The size of an object is made of its id.
pub fn made(rt: &impl Abort, alloc: Global, row: &Row, first: u32) -> Vec<Ask> {
    let (requests, objects, largest, _) = *row;
    let mut asks = Vec::new(alloc);
    let mut number = first;
    for _ in 0..requests {
        number = next_of(number);
        let object = below(number, objects);
        number = next_of(number);
        let ask = Ask {
            object,
            size: size_below(next_of(first ^ object), largest),
            fills: below(number, 3) == 0,
        };
        asks.push(ask).expect(rt, "memory");
    }
    asks
}

// Adds a request with its mark.
fn push(rt: &impl Abort, builder: &mut Builder, ask: &Ask)
    requires { builder.old.marks ≡ true }
    ensures { builder.new.marks ≡ true }
{
    let object = Object {
        volume: 0,
        id: ask.object as u64,
        size: ask.size,
    };
    holds(
        rt,
        builder.len() < 100 && ask.size >= 1 && ask.size <= 1 << 48,
    );
    if ask.fills {
        builder.push_filling(object).expect(rt, "memory");
    } else {
        builder.push(object).expect(rt, "memory");
    }
}

// The trace of the requests, with their marks.
pub fn trace_of(rt: &impl Abort, alloc: Global, asks: &[Ask]) -> Trace {
    let mut builder = Builder::marking(alloc).expect(rt, "memory");
    for ask in asks {
        push(rt, &mut builder, ask);
    }
    builder.finish()
}
