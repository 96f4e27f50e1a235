//! Words that ask for written bytes or for flags, and those that may not.
use crate::words::refusals::{BAD_VALUE, TWICE, UNKNOWN};
use crate::words::{check_all_refused, check_plan};
use bound_report::PolicyName;
use bound_run::Plan;
use bound_terms::{Mode, WordKind};
use cache_rules::Objective;
use relaxation::DenominatorChoice;
use trace_any::{Format, Layout};

// Words of bounds, and whether they ask for written bytes.
const BOUNDS: [(&str, bool); 3] = [
    (
        "bounds t c format=webcache capacity=10 mode=infinite writes=count",
        true,
    ),
    (
        "bounds t c writes=count mode=infinite capacity=10 format=webcache",
        true,
    ),
    (
        "bounds t c format=webcache writes=none capacity=10 mode=infinite",
        false,
    ),
];

#[test]
fn bounds_may_ask_for_written_bytes(rt: HostRuntime) {
    for (text, writes) in &BOUNDS {
        let plan = Plan::Bounds {
            format: Format::lasting(Layout::Webcache),
            capacity: 10,
            objective: Objective::Object,
            mode: Mode::Infinite,
            denominator: DenominatorChoice::Given(1),
            warmup: 0,
            version: 1,
            writes: *writes,
        };
        check_plan(&rt, rt.alloc(), text, Ok(plan));
    }
}

// Words of a replay, and whether they ask for written bytes and for flags.
const REPLAYS: [(&str, bool, bool); 4] = [
    (
        "replay t writes=count format=arc capacity=2 policy=fifo warmup=3",
        true,
        false,
    ),
    (
        "replay t format=arc capacity=2 policy=fifo warmup=3 writes=none",
        false,
        false,
    ),
    (
        "replay t format=arc capacity=2 print=flags policy=fifo warmup=3 writes=none",
        false,
        true,
    ),
    (
        "replay t format=arc capacity=2 policy=fifo warmup=3 print=report writes=count",
        true,
        false,
    ),
];

#[test]
fn replays_may_ask_for_written_bytes_or_flags(rt: HostRuntime) {
    for (text, writes, flags) in &REPLAYS {
        let plan = Plan::Replay {
            format: Format::lasting(Layout::Arc),
            capacity: 2,
            policy: PolicyName::Fifo,
            warmup: 3,
            writes: *writes,
            flags: *flags,
        };
        check_plan(&rt, rt.alloc(), text, Ok(plan));
    }
}

// Words of a judgement, and whether they ask for written bytes.
const JUDGEMENTS: [(&str, bool); 2] = [
    ("judge t h format=arc capacity=7 writes=count", true),
    ("judge t h writes=none format=arc capacity=7", false),
];

#[test]
fn judgements_may_ask_for_written_bytes(rt: HostRuntime) {
    for (text, writes) in &JUDGEMENTS {
        let plan = Plan::Judge {
            format: Format::lasting(Layout::Arc),
            capacity: 7,
            warmup: 0,
            writes: *writes,
        };
        check_plan(&rt, rt.alloc(), text, Ok(plan));
    }
}

// The place and the kind of the first fault, and words that have it, a command on each line.
const REFUSED_WRITES: [(u64, WordKind, &str); 8] = [
    (2, UNKNOWN, "demo writes=count"),
    (
        3,
        UNKNOWN,
        "curve t writes=count\n\
curve t writes=count capacities=1",
    ),
    (
        3,
        BAD_VALUE,
        "replay t writes=yes\n\
replay t writes=",
    ),
    (4, TWICE, "replay t writes=count writes=none"),
    (
        4,
        UNKNOWN,
        "check t c writes=count\n\
curve t capacities=1 writes=count",
    ),
    (
        4,
        BAD_VALUE,
        "bounds t c writes=yes\n\
bounds t c writes=counts\n\
judge t h writes=Count",
    ),
    (5, UNKNOWN, "refine t c m writes=count"),
    (
        5,
        TWICE,
        "bounds t c writes=none writes=count\n\
judge t h writes=count writes=count",
    ),
];

#[test]
fn written_bytes_are_asked_for_once_where_they_are_counted(rt: HostRuntime) {
    check_all_refused(&rt, rt.alloc(), &REFUSED_WRITES);
}

// The same of words that ask for flags.
const REFUSED_FLAGS: [(u64, WordKind, &str); 5] = [
    (
        3,
        BAD_VALUE,
        "replay t print=flag\n\
replay t print=",
    ),
    (3, UNKNOWN, "curve t print=flags"),
    (
        4,
        UNKNOWN,
        "bounds t c print=flags\n\
judge t h print=report",
    ),
    (
        7,
        UNKNOWN,
        "replay t format=webcache capacity=1 policy=lru print=flags writes=count",
    ),
    (
        3,
        UNKNOWN,
        "replay t writes=count print=flags format=webcache capacity=1 policy=lru\n\
replay t writes=count print=flags",
    ),
];

#[test]
fn flags_are_no_report_that_could_have_written_bytes(rt: HostRuntime) {
    check_all_refused(&rt, rt.alloc(), &REFUSED_FLAGS);
}
