//! The bounds of a small trace, which a second program worked out, and those at a capacity of 1 by hand.
use area_sums::{AreaSums, CapacityBounds, EdgeBound};
use bound_base::NoMemory;
use compared::same;

const LEAST: [CapacityBounds; 3] = [
    CapacityBounds {
        hits: EdgeBound { upper: 1, edge: 1 },
        bytes: EdgeBound { upper: 1, edge: 1 },
    },
    CapacityBounds {
        hits: EdgeBound { upper: 19, edge: 5 },
        bytes: EdgeBound { upper: 20, edge: 3 },
    },
    CapacityBounds {
        hits: EdgeBound { upper: 5, edge: 1 },
        bytes: EdgeBound { upper: 10, edge: 1 },
    },
];

// The requests A B A C C B A A, where A is of size 2, B of 1 and C of 3, at capacities of 1, 2 and 4.
#[test]
fn has_the_least_bounds_at_each_capacity(rt: HostRuntime) -> Result<(), NoMemory> {
    let mut sums = AreaSums::new(rt.alloc(), &[1, 2, 4])?;
    sums.add(2, 2)?;
    sums.add(3, 1)?;
    sums.add(1, 4)?;
    sums.add(2, 4)?;
    sums.add(2, 1)?;
    let bounds = sums.bounds(rt.alloc(), 7)?;
    same("capacities", bounds.len(), 3).expect(&rt, "a row");
    same("bounds", [bounds[0], bounds[1], bounds[2]], LEAST).expect(&rt, "a row");
    let bytes = EdgeBound { upper: 20, edge: 3 };
    same("the floor of bytes at 2", bytes.floor(), 6).expect(&rt, "a row");
    Ok(())
}
