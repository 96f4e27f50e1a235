//! `bound_report`: texts against lines that were written by hand.
use bound_report::{
    BoundFacts, CurveFacts, InvalidKind, LimitName, PolicyName, Refusal, ReplayFacts, Verdict,
    curve_text, refusal_text, replay_text, report_text, verdict_text,
};
use bound_terms::{Mode, Window, WordKind};
use cache_model::{CERT_VERSION, Header, Objective};
use cache_rules::{Builder, Object, Trace};
use compared::same;
use replay_core::Replay;
use stack_curve::curve;
use std::alloc::Global;
use std::process::Abort;
use trace_lines::LineKind;

const HEADER: Header = Header {
    objective: Objective::Bytes,
    capacity: 7,
    requests: 4,
    unit: 2,
    denominator: 3,
    exact: true,
    upper: 14,
    flow: 13,
    lower: 4,
    warmup: 0,
    version: CERT_VERSION,
};

// A mode, the price that it found, the written bytes if they are counted, and the report.
const REPORTS: [(Mode, u128, Option<u128>, &[u8]); 5] = [
    (
        Mode::Infinite,
        0,
        None,
        b"trace requests 4 objects 2 dropped 6\ncapacity 7 objective bytes\nmode infinite form plain\n\
unit 2 units 3 denominator 3\nintervals 1\nupper 14/3 floor 4\nflow 13/3\nlower 4\n",
    ),
    (
        Mode::Constant,
        5,
        None,
        b"trace requests 4 objects 2 dropped 6\ncapacity 7 objective bytes\nmode constant price 5 form plain\n\
unit 2 units 3 denominator 3\nintervals 1\nupper 14/3 floor 4\nflow 13/3\nlower 4\n",
    ),
    (
        Mode::Flow {
            window: Window::All,
        },
        0,
        None,
        b"trace requests 4 objects 2 dropped 6\ncapacity 7 objective bytes\nmode flow window all form exact\n\
unit 2 units 3 denominator 3\nintervals 1\nupper 14/3 floor 4\nflow 13/3\nlower 4\n",
    ),
    (
        Mode::Flow {
            window: Window::Steps(9),
        },
        0,
        None,
        b"trace requests 4 objects 2 dropped 6\ncapacity 7 objective bytes\nmode flow window 9 form exact\n\
unit 2 units 3 denominator 3\nintervals 1\nupper 14/3 floor 4\nflow 13/3\nlower 4\n",
    ),
    (
        Mode::Infinite,
        0,
        Some(u128::MAX),
        b"trace requests 4 objects 2 dropped 6\ncapacity 7 objective bytes\nmode infinite form plain\n\
unit 2 units 3 denominator 3\nintervals 1\nupper 14/3 floor 4\nflow 13/3\nlower 4\n\
writes 340282366920938463463374607431768211455\n",
    ),
];

#[test]
fn reports_each_mode(rt: HostRuntime) {
    for (row, (mode, price, written, want)) in REPORTS.iter().enumerate() {
        let facts = BoundFacts {
            header: HEADER,
            objects: 2,
            dropped: 6,
            mode: *mode,
            price: *price,
            intervals: 1,
            written: *written,
        };
        let text = report_text(rt.alloc(), &facts).expect(&rt, "memory");
        same(row, text.as_slice(), *want).expect(&rt, "a row");
    }
}

#[test]
fn says_yes_in_eight_lines(rt: HostRuntime) {
    let verdict = Verdict {
        header: HEADER,
        objects: 2,
    };
    let text = verdict_text(rt.alloc(), &verdict, 6).expect(&rt, "memory");
    let want = b"trace requests 4 objects 2 dropped 6\ncapacity 7 objective bytes\nform exact\n\
unit 2 units 3 denominator 3\nupper 14/3 floor 4\nflow 13/3\nlower 4\nvalid\n";
    same("a verdict", text.as_slice(), want.as_slice()).expect(&rt, "a row");
}

const REPLAY: ReplayFacts = ReplayFacts {
    requests: 4,
    objects: 2,
    dropped: 6,
    policy: PolicyName::S3Fifo,
    capacity: 7,
    replay: Replay {
        hits: 2,
        bytes: 5,
        written: 8,
    },
    written: None,
};

#[test]
fn says_a_replay_in_three_lines(rt: HostRuntime) {
    let text = replay_text(rt.alloc(), &REPLAY).expect(&rt, "memory");
    let want = b"trace requests 4 objects 2 dropped 6\npolicy s3fifo capacity 7\nhits 2 bytes 5\n";
    same("a replay", text.as_slice(), want.as_slice()).expect(&rt, "a row");
}

#[test]
fn says_what_a_replay_writes_in_a_fourth_line(rt: HostRuntime) {
    let facts = ReplayFacts {
        written: Some(8),
        ..REPLAY
    };
    let text = replay_text(rt.alloc(), &facts).expect(&rt, "memory");
    let want =
        b"trace requests 4 objects 2 dropped 6\npolicy s3fifo capacity 7\nhits 2 bytes 5\nwrites 8\n";
    same("a replay", text.as_slice(), want.as_slice()).expect(&rt, "a row");
}

// The trace of the requests A B A C B A. The third request hits from 2 slots on, and the last two from 3 on.
fn trace_of_six(rt: &impl Abort, alloc: Global) -> Trace {
    let mut builder = Builder::new(alloc).expect(rt, "memory");
    for id in [1, 2, 1, 3, 2, 1] {
        assert!(rt; builder.len() < 6, "room");
        let object = Object {
            volume: 0,
            id,
            size: 2,
        };
        builder.push(object).expect(rt, "memory");
    }
    builder.finish()
}

#[test]
fn lists_the_slots_that_add_hits(rt: HostRuntime) {
    let found = curve(rt.alloc(), &trace_of_six(&rt, rt.alloc())).expect(&rt, "one size");
    let facts = CurveFacts {
        requests: 6,
        objects: 3,
        dropped: 5,
    };
    let text = curve_text(rt.alloc(), &facts, &found).expect(&rt, "memory");
    let want = b"trace requests 6 objects 3 dropped 5\nsize 2\nslots 2 hits 1\nslots 3 hits 3\n";
    same("a curve", text.as_slice(), want.as_slice()).expect(&rt, "a row");
}

const INVALID: [(InvalidKind, &[u8]); 6] = [
    (InvalidKind::Shape, b"invalid line 7: shape\n"),
    (InvalidKind::TooLong, b"invalid line 7: line too long\n"),
    (
        InvalidKind::RequestCount {
            written: 2,
            read: 3,
        },
        b"invalid line 7: request count 2 3\n",
    ),
    (
        InvalidKind::UnitNotDivisor { unit: 3, size: 4 },
        b"invalid line 7: unit 3 size 4\n",
    ),
    (
        InvalidKind::Unused { number: 1 },
        b"invalid line 7: unused flow 1\n",
    ),
    (
        InvalidKind::ExactGap {
            upper: u128::MAX,
            flow: 0,
        },
        b"invalid line 7: exact gap 340282366920938463463374607431768211455 0\n",
    ),
];

#[test]
fn names_what_makes_a_certificate_invalid(rt: HostRuntime) {
    for (row, (kind, want)) in INVALID.iter().enumerate() {
        let text = refusal_text(&Refusal::Invalid {
            line: 7,
            kind: *kind,
        });
        same(row, text.as_bytes(), *want).expect(&rt, "a row");
    }
}

const OTHERS: [(Refusal, &[u8]); 11] = [
    (
        Refusal::Words {
            place: u64::MAX,
            kind: WordKind::BadValue,
        },
        b"words: place 18446744073709551615: bad value\n",
    ),
    (
        Refusal::BadLine {
            line: 3,
            kind: LineKind::BadNumber { word: 6 },
        },
        b"bad line 3: number in word 6\n",
    ),
    (
        Refusal::BadLine {
            line: 1,
            kind: LineKind::TooLong,
        },
        b"bad line 1: line too long\n",
    ),
    (
        Refusal::BadLine {
            line: 2,
            kind: LineKind::PartRecord { bytes: 23 },
        },
        b"bad line 2: part record 23\n",
    ),
    (
        Refusal::Limit(LimitName::Denominator),
        b"limit: denominator 281474976710656\n",
    ),
    (Refusal::TraceFault, b"trace fault\n"),
    (Refusal::CertFault, b"certificate fault\n"),
    (Refusal::MadeFault, b"made fault\n"),
    (
        Refusal::Limit(LimitName::PassObjects),
        b"limit: objects 2147483648\n",
    ),
    (Refusal::NoMemory, b"no memory\n"),
    (
        Refusal::PolicyMemory {
            policy: PolicyName::Lru,
            capacity: 8,
        },
        b"no memory\n",
    ),
];

#[test]
fn refuses_in_one_line(rt: HostRuntime) {
    for (row, (refusal, want)) in OTHERS.iter().enumerate() {
        let text = refusal_text(refusal);
        same(row, text.as_bytes(), *want).expect(&rt, "a row");
    }
}
