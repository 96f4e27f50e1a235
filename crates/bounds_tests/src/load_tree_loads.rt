//! Loads of a few steps, added up by hand.
use bound_base::NoMemory;
use compared::same;
use load_tree::{Loads, SmallLoads};

// Two amounts over five steps, which meet at step 2: 4 4 11 7 7.
#[test]
fn adds_up_where_two_ranges_meet(rt: HostRuntime) {
    let mut loads = Loads::new(rt.alloc(), 5).expect(&rt, "memory");
    loads.add(0, 3, 4);
    loads.add(2, 5, 7);
    let greatest = [loads.max(0, 2), loads.max(2, 3), loads.max(3, 5)];
    same("of two, one and two steps", greatest, [4, 11, 7]).expect(&rt, "a row");
}

// The same over more steps than one node has: 30 of load 1, 40 of load 3, and 30 of load 1.
#[test]
fn finds_the_greatest_of_parts(rt: HostRuntime) -> Result<(), NoMemory> {
    let mut loads = Loads::new(rt.alloc(), 100)?;
    loads.add(0, 100, 1);
    loads.add(30, 70, 2);
    let first = [loads.max(0, 30), loads.max(0, 31)];
    same("of the first steps", first, [1, 3]).expect(&rt, "a row");
    let last = [loads.max(69, 71), loads.max(70, 100)];
    same("of the last steps", last, [3, 1]).expect(&rt, "a row");
    Ok(())
}

// The amounts of the first test, in loads below 2^64: 4 4 11 7 7.
#[test]
fn asks_where_two_ranges_meet(rt: HostRuntime) -> Result<(), NoMemory> {
    let mut loads = SmallLoads::new(rt.alloc(), 5)?;
    loads.add(0, 3, 4);
    loads.add(2, 5, 7);
    let fitting = [
        loads.fits(0, 2, 4),
        loads.fits(2, 3, 11),
        loads.fits(3, 5, 7),
    ];
    same("at the load", fitting, [true, true, true]).expect(&rt, "a row");
    let full = [
        loads.fits(0, 2, 3),
        loads.fits(0, 5, 10),
        loads.fits(3, 5, 6),
    ];
    same("one below it", full, [false, false, false]).expect(&rt, "a row");
    Ok(())
}

// Over three levels, of 600, 38 and 3 values: 300 steps of load 1, 200 of load 3, and 100 of load 1.
#[test]
fn asks_over_three_levels(rt: HostRuntime) -> Result<(), NoMemory> {
    let mut loads = SmallLoads::new(rt.alloc(), 600)?;
    loads.add(0, 600, 1);
    loads.add(300, 500, 2);
    let fitting = [
        loads.fits(0, 300, 1),
        loads.fits(500, 600, 1),
        loads.fits(0, 600, 3),
    ];
    same("at the load", fitting, [true, true, true]).expect(&rt, "a row");
    let full = [
        loads.fits(0, 301, 1),
        loads.fits(499, 501, 2),
        loads.fits(0, 600, 2),
    ];
    same("one step or one byte too many", full, [false, false, false]).expect(&rt, "a row");
    Ok(())
}
