//! `cache_rules`: scores of the keeps of a few requests, counted by hand.
ghost use Rattle.std.specs.Prelude.{◌≡◌, length};

use cache_rules::{Builder, Object, Objective, Overfull, Terms, Trace, score, score_of_fitting};
use compared::{holds, same};
use std::alloc::Global;
use std::process::Abort;

// Three objects of size 1, and three larger ones.
const A: Object = Object {
    volume: 0,
    id: 1,
    size: 1,
};

const B: Object = Object {
    volume: 0,
    id: 2,
    size: 1,
};

const C: Object = Object {
    volume: 0,
    id: 3,
    size: 1,
};

const D: Object = Object {
    volume: 0,
    id: 4,
    size: 2,
};

const E: Object = Object {
    volume: 0,
    id: 5,
    size: 3,
};

const F: Object = Object {
    volume: 0,
    id: 6,
    size: 9,
};

// What it shows, the requests, what is kept of them, the capacity, the objective, the warm-up, and the answer.
type Row<'a> = (
    &'a str,
    &'a [Object],
    &'a [bool],
    u64,
    Objective,
    u32,
    Result<u128, Overfull>,
);

const FIRST_TWO: [bool; 6] = [true, true, false, false, false, false];

// Their hits are requests 3 and 5.
const FIRST_AND_THIRD: [bool; 6] = [true, false, true, false, false, false];

const HITS: Objective = Objective::Object;

const BYTES: Objective = Objective::Bytes;

const ROWS: [Row<'static>; 11] = [
    (
        "two objects fit",
        &[A, B, C, A, B, C],
        &FIRST_TWO,
        2,
        HITS,
        0,
        Ok(2),
    ),
    (
        "one fits",
        &[A, B, C, A, B, C],
        &FIRST_TWO,
        1,
        HITS,
        0,
        Err(Overfull { step: 1, load: 2 }),
    ),
    (
        "two fit",
        &[A, B, C, A, B, C],
        &[true, true, true, false, false, false],
        2,
        HITS,
        0,
        Err(Overfull { step: 2, load: 3 }),
    ),
    (
        "bytes",
        &[D, E, D, E],
        &[true, true, false, false],
        5,
        BYTES,
        0,
        Ok(5),
    ),
    (
        "none fits",
        &[F],
        &[true],
        5,
        BYTES,
        0,
        Err(Overfull { step: 0, load: 9 }),
    ),
    ("no request", &[], &[], 5, HITS, 0, Ok(0)),
    (
        "kept again",
        &[A, A, A],
        &[true, true, false],
        1,
        HITS,
        0,
        Ok(2),
    ),
    (
        "one of two hits is past the warm-up",
        &[A, B, C, A, B, C],
        &FIRST_AND_THIRD,
        2,
        HITS,
        5,
        Ok(1),
    ),
    (
        "both hits are past the warm-up",
        &[A, B, C, A, B, C],
        &FIRST_AND_THIRD,
        2,
        HITS,
        3,
        Ok(2),
    ),
    (
        "all is warm-up",
        &[A, B, C, A, B, C],
        &FIRST_AND_THIRD,
        2,
        HITS,
        6,
        Ok(0),
    ),
    (
        "a load in the warm-up passes the capacity",
        &[A, B, C, A, B, C],
        &FIRST_TWO,
        1,
        HITS,
        5,
        Err(Overfull { step: 1, load: 2 }),
    ),
];

fn trace_of(rt: &impl Abort, alloc: Global, requests: &[Object]) -> Trace {
    let mut builder = Builder::new(alloc).expect(rt, "memory");
    for request in requests {
        holds(*request, builder.len() < 10).expect(rt, "a row");
        holds(*request, request.size >= 1 && request.size <= 9).expect(rt, "a row");
        builder.push(*request).expect(rt, "memory");
    }
    builder.finish()
}

// The score of keeps that are tested first. That of keeps that fit is the same where they aren't tested.
fn score_of(rt: &impl Abort, trace: &Trace, terms: Terms, keeps: &[bool]) -> Result<u128, Overfull>
    requires { length keeps.now ≡ length trace.now.objects }
{
    let gains = score(trace, terms.capacity, terms.objective, terms.warmup, keeps)?;
    same(gains, score_of_fitting(trace, terms, keeps), gains).expect(rt, "a row");
    Ok(gains)
}

// The answers are counted by hand.
#[test]
fn scores_keeps_that_fit_and_names_the_first_load_that_does_not(rt: HostRuntime) {
    for row in &ROWS {
        let (name, requests, keeps, capacity, objective, warmup, answer) = *row;
        let trace = trace_of(&rt, rt.alloc(), requests);
        holds(name, keeps.len() == trace.len() as usize).expect(&rt, "a row");
        let terms = Terms {
            objective,
            capacity,
            warmup,
        };
        let scored = score_of(&rt, &trace, terms, keeps);
        drop(trace);
        same(name, scored, answer).expect(&rt, "a row");
    }
}
