//! The words of the command line, in rows.
use bound_report::PolicyName;
use bound_run::{Paths, Plan, WordFault, paths_of, plan_of};
use bound_terms::{Mode, Window, WordKind};
use cache_rules::Objective;
use compared::holds;
use plans::TAKEN;
use refusals::{REFUSED, REFUSED_REFINEMENTS};
use relaxation::DenominatorChoice;
use std::alloc::Global;
use std::process::Abort;
use trace_any::{Format, Freshness, Layout};
use whole_runs::words_of;

mod plans;
mod refusals;
mod writes;

fn check_plan(rt: &impl Abort, alloc: Global, text: &str, wanted: Result<Plan<'_>, WordFault>) {
    let words = words_of(alloc, text).expect(rt, "memory");
    holds(text, plan_of(&words) == wanted).expect(rt, "a row");
}

#[test]
fn words_of_bounds_give_their_plan(rt: HostRuntime) {
    for row in &TAKEN {
        check_plan(&rt, rt.alloc(), row.text, Ok(row.plan()));
    }
}

// Words, a command on each line, that have this fault first.
fn check_refused(rt: &impl Abort, alloc: Global, texts: &str, fault: WordFault) {
    for text in texts.split('\n') {
        check_plan(rt, alloc, text, Err(fault));
    }
}

// Words that are refused, by the place and the kind of their first fault.
fn check_all_refused(rt: &impl Abort, alloc: Global, rows: &[(u64, WordKind, &str)]) {
    for (place, kind, texts) in rows {
        let fault = WordFault {
            place: *place,
            kind: *kind,
        };
        check_refused(rt, alloc, texts, fault);
    }
}

#[test]
fn the_first_fault_of_the_words_is_named(rt: HostRuntime) {
    check_all_refused(&rt, rt.alloc(), &REFUSED);
    check_all_refused(&rt, rt.alloc(), &REFUSED_REFINEMENTS);
}

const OPERANDS: [&str; 4] = [
    "format=webcache",
    "capacity=10",
    "objective=bytes",
    "mode=infinite",
];

const WEBCACHE: Format = Format {
    layout: Layout::Webcache,
    fresh: Freshness {
        idle: None,
        ttl: None,
        replace: false,
    },
};

const ASKED: Plan<'static> = Plan::Bounds {
    format: WEBCACHE,
    capacity: 10,
    objective: Objective::Bytes,
    mode: Mode::Infinite,
    denominator: DenominatorChoice::Given(1),
    warmup: 0,
    version: 1,
    writes: false,
};

// How far the other operands stand after the first one, in a circle.
const OTHERS: [[u8; 3]; 6] = [
    [1, 2, 3],
    [1, 3, 2],
    [2, 1, 3],
    [2, 3, 1],
    [3, 1, 2],
    [3, 2, 1],
];

fn operand(first: u8, other: u8) -> &'static str {
    OPERANDS[(first as usize + other as usize) % 4]
}

// Takes the operands with this one first.
fn check_orders(rt: &impl Abort, alloc: Global, first: u8) {
    let start = operand(first, 0);
    for others in &OTHERS {
        let [a, b, c] = *others;
        let (a, b, c) = (operand(first, a), operand(first, b), operand(first, c));
        let text = format!(in alloc; "bounds t c {start} {a} {b} {c}").expect(rt, "memory");
        check_plan(rt, alloc, &text, Ok(ASKED));
    }
}

#[test]
fn takes_the_operands_in_any_order(rt: HostRuntime) {
    for first in 0..4 {
        check_orders(&rt, rt.alloc(), first);
    }
}

// Words of bounds, and the warm-up and the version that they ask for.
const CERTIFICATES: [(&str, u32, u8); 3] = [
    (
        "bounds t c format=webcache capacity=10 objective=bytes mode=infinite version=1 warmup=0",
        0,
        1,
    ),
    (
        "bounds t c warmup=33554432 format=webcache capacity=10 objective=bytes mode=infinite",
        1 << 25,
        1,
    ),
    (
        "bounds t c version=02 format=webcache mode=infinite capacity=10 warmup=1 objective=bytes",
        1,
        2,
    ),
];

#[test]
fn bounds_take_a_warmup_and_a_version(rt: HostRuntime) {
    for (text, warmup, version) in &CERTIFICATES {
        let plan = Plan::Bounds {
            format: Format::lasting(Layout::Webcache),
            capacity: 10,
            objective: Objective::Bytes,
            mode: Mode::Infinite,
            denominator: DenominatorChoice::Given(1),
            warmup: *warmup,
            version: *version,
            writes: false,
        };
        check_plan(&rt, rt.alloc(), text, Ok(plan));
    }
}

const CHECKS: [(&str, Layout); 5] = [
    ("check t c format=webcache", Layout::Webcache),
    ("check - c format=arc", Layout::Arc),
    ("check t - format=msr", Layout::Msr { block: 4096 }),
    ("check t c block=1 format=msr", Layout::Msr { block: 1 }),
    ("check -- - format=arc", Layout::Arc),
];

#[test]
fn a_check_takes_the_form_of_the_trace(rt: HostRuntime) {
    for (text, layout) in &CHECKS {
        let plan = Plan::Check {
            format: Format::lasting(*layout),
        };
        check_plan(&rt, rt.alloc(), text, Ok(plan));
    }
}

// Words of a replay, and its policy, capacity and warm-up.
const REPLAYS: [(&str, PolicyName, u64, u32); 6] = [
    (
        "replay t format=arc capacity=1 policy=lru",
        PolicyName::Lru,
        1,
        0,
    ),
    (
        "replay - policy=fifo format=arc capacity=2",
        PolicyName::Fifo,
        2,
        0,
    ),
    (
        "replay t warmup=0 format=arc capacity=1 policy=clock",
        PolicyName::Clock,
        1,
        0,
    ),
    (
        "replay t format=arc warmup=33554432 capacity=1 policy=lfu",
        PolicyName::Lfu,
        1,
        1 << 25,
    ),
    (
        "replay t format=arc capacity=72057594037927936 policy=belady",
        PolicyName::Belady,
        1 << 56,
        0,
    ),
    (
        "replay capacity=1 format=arc capacity=3 policy=lru warmup=01",
        PolicyName::Lru,
        3,
        1,
    ),
];

#[test]
fn a_replay_takes_a_policy_and_a_warmup(rt: HostRuntime) {
    for (text, policy, capacity, warmup) in &REPLAYS {
        let plan = Plan::Replay {
            format: Format::lasting(Layout::Arc),
            capacity: *capacity,
            policy: *policy,
            warmup: *warmup,
            writes: false,
            flags: false,
        };
        check_plan(&rt, rt.alloc(), text, Ok(plan));
    }
}

// Words of a judgement, and its capacity and warm-up.
const JUDGEMENTS: [(&str, u64, u32); 3] = [
    ("judge t h format=arc capacity=7", 7, 0),
    ("judge - h warmup=3 capacity=1 format=arc", 1, 3),
    (
        "judge t - format=arc capacity=72057594037927936",
        1 << 56,
        0,
    ),
];

#[test]
fn a_judgement_takes_a_capacity_and_a_warmup(rt: HostRuntime) {
    for (text, capacity, warmup) in &JUDGEMENTS {
        let plan = Plan::Judge {
            format: Format::lasting(Layout::Arc),
            capacity: *capacity,
            warmup: *warmup,
            writes: false,
        };
        check_plan(&rt, rt.alloc(), text, Ok(plan));
    }
}

// Words of a curve, and the form of the trace that they name.
const CURVES: [(&str, Layout); 3] = [
    ("curve t format=webcache", Layout::Webcache),
    ("curve - format=msr", Layout::Msr { block: 4096 }),
    ("curve t block=8192 format=msr", Layout::Msr { block: 8192 }),
];

#[test]
fn a_curve_takes_the_form_of_the_trace(rt: HostRuntime) {
    for (text, layout) in &CURVES {
        let plan = Plan::Curve {
            format: Format::lasting(*layout),
        };
        check_plan(&rt, rt.alloc(), text, Ok(plan));
    }
}

// Words of a refinement, and the form of the trace and the steps of a block that they name.
const REFINEMENTS: [(&str, Layout, u32); 4] = [
    ("refine t c m format=webcache window=3", Layout::Webcache, 3),
    ("refine t c - window=1 format=oracle", Layout::Oracle, 1),
    (
        "refine - c m block=8192 window=033554432 format=msr",
        Layout::Msr { block: 8192 },
        1 << 25,
    ),
    (
        "refine t - - format=msr window=2",
        Layout::Msr { block: 4096 },
        2,
    ),
];

#[test]
fn a_refinement_takes_the_form_of_the_trace_and_a_width(rt: HostRuntime) {
    for (text, layout, width) in &REFINEMENTS {
        let plan = Plan::Refine {
            format: Format::lasting(*layout),
            width: *width,
        };
        check_plan(&rt, rt.alloc(), text, Ok(plan));
    }
}

// Words of a demo, and the seed, the requests, the objects and the capacity that they ask for.
const DEMOS: [(&str, u64, u32, u32, u64); 5] = [
    ("demo", 1, 2000, 200, 65536),
    ("demo seed=0 requests=1 objects=1 capacity=1", 0, 1, 1, 1),
    (
        "demo capacity=72057594037927936 objects=33554432 requests=33554432 seed=18446744073709551615",
        u64::MAX,
        1 << 25,
        1 << 25,
        1 << 56,
    ),
    ("demo objects=07 mode=flow window=all", 1, 2000, 7, 65536),
    (
        "demo requests=5 objective=object denominator=auto",
        1,
        5,
        200,
        65536,
    ),
];

const DEMO: Plan<'static> = Plan::Demo {
    seed: 1,
    requests: 2000,
    objects: 200,
    capacity: 65536,
    objective: Objective::Bytes,
    mode: Mode::Infinite,
    denominator: DenominatorChoice::Given(1),
};

#[test]
fn a_demo_needs_no_operand(rt: HostRuntime) {
    for (text, seed, requests, objects, capacity) in &DEMOS {
        let plan = Plan::Demo {
            seed: *seed,
            requests: *requests,
            objects: *objects,
            capacity: *capacity,
            objective: Objective::Object,
            mode: Mode::Flow {
                window: Window::All,
            },
            denominator: DenominatorChoice::Auto,
        };
        check_plan(&rt, rt.alloc(), text, Ok(plan));
    }
    let text = "demo objective=bytes mode=infinite";
    check_plan(&rt, rt.alloc(), text, Ok(DEMO));
}

const NO_PATHS: Paths<'static> = Paths {
    trace: "-",
    cert: "-",
    made: "-",
};

// Words, and the paths of the trace, the certificate and what is made.
const PATHS: [(&str, [&str; 3]); 13] = [
    ("bounds t c", ["t", "c", "c"]),
    ("check t c", ["t", "c", "-"]),
    ("check t", ["t", "-", "-"]),
    ("bounds", ["-"; 3]),
    ("replay t c", ["t", "-", "-"]),
    ("curve t c", ["t", "-", "-"]),
    ("judge t h", ["t", "h", "-"]),
    ("upgrade c d", ["-", "c", "d"]),
    ("refine t c m", ["t", "c", "m"]),
    ("refine t c", ["t", "c", "-"]),
    ("demo t c", ["-"; 3]),
    ("", ["-"; 3]),
    (" t c", ["-"; 3]),
];

fn check_paths(rt: &impl Abort, alloc: Global, text: &str, paths: [&str; 3]) {
    let words = words_of(alloc, text).expect(rt, "memory");
    let [trace, cert, made] = paths;
    holds(text, paths_of(&words) == Paths { trace, cert, made }).expect(rt, "a row");
}

#[test]
fn paths_are_those_of_the_command(rt: HostRuntime) {
    for (text, paths) in &PATHS {
        check_paths(&rt, rt.alloc(), text, *paths);
    }
}

#[test]
fn one_empty_word_is_no_command(rt: HostRuntime) {
    let alloc = rt.alloc();
    let word = String::from_str(alloc, "").expect(&rt, "memory");
    let words = vec![in alloc; word].expect(&rt, "memory");
    let fault = WordFault {
        place: 1,
        kind: WordKind::Unknown,
    };
    holds("its plan", plan_of(&words) == Err(fault)).expect(&rt, "a row");
    holds("its paths", paths_of(&words) == NO_PATHS).expect(&rt, "a row");
}
