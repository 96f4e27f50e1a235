//! The greatest worth of all choices of runs, by a program in Python that tries each.
ghost use Rattle.std.specs.Prelude.{◌≡◌};

use bound_base::NoMemory;
use compared::same;
use ttl_walk::{Asked, ObjectWalk};

// The next request, by its parts.
fn asked(clock: u64, fills: bool, gain: u128, priced: u128) -> Asked
    ensures { result ≡ record { clock = clock; fills = fills; gain = gain; priced = priced } }
{
    Asked {
        clock,
        fills,
        gain,
        priced,
    }
}

#[test]
fn rises_by_the_best_run(rt: HostRuntime) -> Result<(), NoMemory> {
    let mut walk = ObjectWalk::new(rt.alloc());
    walk.ask(4, asked(0, false, 0, 0))?;
    walk.ask(4, asked(2, false, 4, 1))?;
    same("after a run of 2", walk.top(), 3).expect(&rt, "a row");
    walk.ask(4, asked(3, false, 4, 6))?;
    same("a step of too high a price", walk.top(), 3).expect(&rt, "a row");
    walk.ask(4, asked(5, false, 4, 2))?;
    same("after a run that began after it", walk.top(), 5).expect(&rt, "a row");
    walk.ask(4, asked(6, true, 0, 1))?;
    walk.ask(4, asked(7, false, 4, 3))?;
    same("no run passes a request that only fills", walk.top(), 6).expect(&rt, "a row");
    walk.ask(4, asked(9, false, 0, 2))?;
    walk.ask(4, asked(10, false, 4, 1))?;
    same("a run of exactly 4", walk.top(), 9).expect(&rt, "a row");
    walk.ask(4, asked(14, false, 9, 2))?;
    same("a run of 5 is too long", walk.top(), 13).expect(&rt, "a row");
    Ok(())
}
