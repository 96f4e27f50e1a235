//! The greatest scores without prices and with room for all, by a program that tries all choices.
use crate::{Request, TtlWorths};
use bound_base::NoMemory;
use std::alloc::Global;
use std::process::Abort;

// The requests of two objects of one unit: the number of each object, the clock, and whether it only fills.
const REQUESTS: [(u32, u64, bool); 8] = [
    (0, 0, false),
    (1, 1, false),
    (0, 3, false),
    (0, 4, true),
    (1, 4, false),
    (0, 6, false),
    (1, 9, false),
    (0, 9, false),
];

// The bound of their hits, with this time to live.
fn bound_of(rt: &impl Abort, alloc: Global, ttl: u64) -> Result<u128, NoMemory> {
    let mut worths = TtlWorths::new(alloc, ttl, 2);
    let mut last = 0;
    for (number, clock, fills) in &REQUESTS {
        assert!(rt;
            *number as usize <= worths.objects(),
            "the number of an object"
        );
        assert!(rt; last <= *clock, "a clock");
        let request = Request {
            number: *number,
            clock: *clock,
            fills: *fills,
            weight: 1,
            gain: u128::from(!*fills),
        };
        worths.request(alloc, &request)?;
        worths.step(0);
        last = *clock;
    }
    Ok(worths.bound())
}

#[test]
fn is_the_greatest_score_without_prices(rt: HostRuntime) -> Result<(), NoMemory> {
    assert!(rt; bound_of(&rt, rt.alloc(), 0)? == 0, "a time to live of 0");
    assert!(rt; bound_of(&rt, rt.alloc(), 2)? == 1, "a time to live of 2");
    assert!(rt; bound_of(&rt, rt.alloc(), 3)? == 3, "a time to live of 3");
    assert!(rt; bound_of(&rt, rt.alloc(), 5)? == 4, "a time to live of 5");
    assert!(rt; bound_of(&rt, rt.alloc(), 8)? == 5, "a time to live of 8");
    Ok(())
}

#[test]
fn passes_an_object_above_the_capacity(rt: HostRuntime) -> Result<(), NoMemory> {
    let mut worths = TtlWorths::new(rt.alloc(), 1, 2);
    worths.skip(rt.alloc(), 0)?;
    worths.step(0);
    assert!(rt; worths.objects() == 1, "its number");
    assert!(rt; worths.bound() == 0, "its worth");
    Ok(())
}
