//! The bounds of small traces, which a second program worked out.
use area_sums::EdgeBound;
use bound_base::NoMemory;
use cache_model::Object;
use compared::same;
use sweep_bounds::SweepBounds;

const A: Object = Object {
    volume: 0,
    id: 1,
    size: 2,
};

const B: Object = Object {
    volume: 0,
    id: 2,
    size: 1,
};

const C: Object = Object {
    volume: 0,
    id: 3,
    size: 3,
};

// The requests A B A C C B A A, which all count, at capacities of 1, 2 and 4.
#[test]
fn has_the_least_bounds_at_each_capacity(rt: HostRuntime) -> Result<(), NoMemory> {
    let mut sweep = SweepBounds::new(rt.alloc(), &[1, 2, 4], 0, 0)?;
    sweep.request(A, false)?;
    sweep.request(B, false)?;
    sweep.request(A, false)?;
    sweep.request(C, false)?;
    sweep.request(C, false)?;
    sweep.request(B, false)?;
    sweep.request(A, false)?;
    sweep.request(A, false)?;
    let counts = [sweep.requests(), sweep.objects()];
    same("requests and objects", counts, [8, 3]).expect(&rt, "a row");
    let bounds = sweep.bounds(rt.alloc())?;
    same("capacities", bounds.len(), 3).expect(&rt, "a row");
    let hits = [bounds[1].hits, bounds[2].hits];
    same(
        "hits at 2 and 4",
        hits,
        [edge_bound(19, 5), edge_bound(5, 1)],
    )
    .expect(&rt, "a row");
    let bytes = [bounds[1].bytes, bounds[2].bytes];
    same(
        "bytes at 2 and 4",
        bytes,
        [edge_bound(20, 3), edge_bound(10, 1)],
    )
    .expect(&rt, "a row");
    Ok(())
}

// The requests C C A B B B B B A C, of which the eighth only fills, with a warm-up of two and a delay of one request.
#[test]
fn leaves_out_the_warmup_and_what_only_fills(rt: HostRuntime) -> Result<(), NoMemory> {
    let mut sweep = SweepBounds::new(rt.alloc(), &[3], 2, 1)?;
    sweep.request(C, false)?;
    sweep.request(C, false)?;
    sweep.request(A, false)?;
    sweep.request(B, false)?;
    sweep.request(B, false)?;
    sweep.request(B, false)?;
    sweep.request(B, false)?;
    sweep.request(B, true)?;
    sweep.request(A, false)?;
    sweep.request(C, false)?;
    let bounds = sweep.bounds(rt.alloc())?[0];
    same("hits", bounds.hits, edge_bound(101, 21)).expect(&rt, "a row");
    same("bytes", bounds.bytes, edge_bound(47, 6)).expect(&rt, "a row");
    Ok(())
}

// A bound, by its parts.
fn edge_bound(upper: u128, edge: u128) -> EdgeBound {
    EdgeBound { upper, edge }
}
