//! `cert_checker`: small certificates through a checker. The numbers were worked out by hand.
ghost use Rattle.std.specs.Prelude.{◌≡◌, ◌<◌, ◌≤◌, ◌+◌, ◌^◌, true, OnErr, OnOk};

use crate::cert_checker_invalid::INVALID;
use cache_model::{CERT_VERSION, Object, Objective};
use cert_checker::{Checker, InvalidKind, StepFault, Verdict};
use cert_format::{Header, Record};
use compared::{holds, same};
use std::alloc::Global;
use std::process::Abort;

// What a checker says of a whole certificate.
#[derive(Clone, Copy, PartialEq, Eq)]
pub enum Answer {
    Yes(Verdict),
    Refused { step: u32, fault: StepFault },
    RefusedAtEnd(InvalidKind),
}

// A certificate, the trace that it is checked against, and the answer.
#[derive(Clone, Copy)]
pub struct Row<'a> {
    pub name: &'a str,
    pub header: Header,
    pub requests: &'a [Object],
    pub records: &'a [Record],
    pub answer: Answer,
}

pub const NONE: Record = Record {
    price: 0,
    keep: false,
    flow: 0,
};

pub const KEPT: Record = Record {
    price: 0,
    keep: true,
    flow: 1,
};

// One object of 4 bytes, and others of 1, 2 and 3.
const FOUR: Object = Object {
    volume: 0,
    id: 7,
    size: 4,
};

const A: Object = Object {
    volume: 0,
    id: 1,
    size: 1,
};

const B: Object = Object { id: 2, ..A };

const C: Object = Object { id: 3, ..A };

const TWO: Object = Object { size: 2, ..B };

const THREE: Object = Object { size: 3, ..A };

// Two requests of 4 bytes, at capacity 10.
pub const PAIR_HEADER: Header = Header {
    objective: Objective::Object,
    capacity: 10,
    requests: 2,
    unit: 4,
    denominator: 1,
    exact: true,
    upper: 1,
    flow: 1,
    lower: 1,
    warmup: 0,
    version: CERT_VERSION,
};

pub const PAIR: Row<'static> = Row {
    name: "one object asked for twice",
    header: PAIR_HEADER,
    requests: &[FOUR, FOUR],
    records: &[KEPT, NONE],
    answer: Answer::Yes(Verdict {
        header: PAIR_HEADER,
        objects: 1,
    }),
};

// Six requests of 1 byte, at capacity 2.
pub const CYCLE_HEADER: Header = Header {
    capacity: 2,
    requests: 6,
    unit: 1,
    upper: 2,
    flow: 2,
    lower: 2,
    ..PAIR_HEADER
};

// The third record of the cycle.
pub const THIRD: Record = Record { price: 1, ..NONE };

pub const CYCLE: Row<'static> = Row {
    name: "three objects in a cycle",
    header: CYCLE_HEADER,
    requests: &[A, B, C, A, B, C],
    records: &[KEPT, KEPT, THIRD, NONE, NONE, NONE],
    answer: Answer::Yes(Verdict {
        header: CYCLE_HEADER,
        objects: 3,
    }),
};

// Three requests, of which a hit gains its bytes, at capacity 5.
const BYTES_HEADER: Header = Header {
    objective: Objective::Bytes,
    capacity: 5,
    requests: 3,
    unit: 1,
    upper: 3,
    flow: 3,
    lower: 3,
    ..PAIR_HEADER
};

const PLAIN_HEADER: Header = Header {
    exact: false,
    upper: 13,
    flow: 0,
    lower: 0,
    ..BYTES_HEADER
};

// The last of the six requests is the only one that counts.
pub const LATE_HEADER: Header = Header {
    upper: 1,
    flow: 1,
    lower: 1,
    warmup: 5,
    ..CYCLE_HEADER
};

pub const LATE_RECORDS: [Record; 6] = [NONE, NONE, KEPT, NONE, NONE, NONE];

// Neither of two requests counts, and the unit doesn't divide their size.
pub const WARM_HEADER: Header = Header {
    unit: 3,
    upper: 0,
    flow: 0,
    lower: 0,
    warmup: 2,
    ..PAIR_HEADER
};

const VALID: [Row<'static>; 7] = [
    CYCLE,
    PAIR,
    Row {
        name: "a hit gains its bytes",
        header: BYTES_HEADER,
        requests: &[THREE, TWO, THREE],
        records: &[Record { flow: 3, ..KEPT }, NONE, NONE],
        answer: Answer::Yes(Verdict {
            header: BYTES_HEADER,
            objects: 2,
        }),
    },
    Row {
        name: "a price before an interval isn't paid for it",
        header: PLAIN_HEADER,
        requests: &[B, THREE, THREE],
        records: &[Record { price: 2, ..NONE }, NONE, NONE],
        answer: Answer::Yes(Verdict {
            header: PLAIN_HEADER,
            objects: 2,
        }),
    },
    Row {
        name: "the last request is the only one past the warm-up",
        header: LATE_HEADER,
        records: &LATE_RECORDS,
        answer: Answer::Yes(Verdict {
            header: LATE_HEADER,
            objects: 3,
        }),
        ..CYCLE
    },
    Row {
        name: "a hit within the warm-up earns nothing",
        header: LATE_HEADER,
        records: &[Record { flow: 0, ..KEPT }, NONE, KEPT, NONE, NONE, NONE],
        answer: Answer::Yes(Verdict {
            header: LATE_HEADER,
            objects: 3,
        }),
        ..CYCLE
    },
    Row {
        name: "the unit isn't asked for within the warm-up",
        header: WARM_HEADER,
        records: &[NONE, NONE],
        answer: Answer::Yes(Verdict {
            header: WARM_HEADER,
            objects: 1,
        }),
        ..PAIR
    },
];

fn is_sized(object: &Object) -> bool
    ensures { result ≡ true → (1 ≤ object.now.size) × (object.now.size ≤ 2 ^ 48) }
{
    1 <= object.size && object.size <= 1 << 48
}

// One step.
fn step_of(
    rt: &impl Abort,
    alloc: Global,
    checker: &mut Checker,
    object: Object,
    entry: Record,
) -> Result<(), StepFault>
    requires { checker.old.sums.steps < checker.old.header.requests }
    ensures counts { OnOk result ((checker.new.header ≡ checker.old.header) × (checker.new.sums.steps ≡ checker.old.sums.steps + 1)) }
    ensures kept { OnErr result (checker.new ≡ checker.old) }
{
    holds(checker.entries(), is_sized(&object) && entry.in_range()).expect(rt, "a row");
    checker.step(alloc, object, entry)
}

// The steps of a whole certificate, to the first that is refused.
fn answer_of(
    rt: &impl Abort,
    alloc: Global,
    header: Header,
    requests: &[Object],
    records: &[Record],
) -> Answer {
    holds("the header", header.in_range()).expect(rt, "a row");
    holds("the requests", requests.len() == header.requests as usize).expect(rt, "a row");
    holds("the records", records.len() == requests.len()).expect(rt, "a row");
    let mut checker = Checker::new(alloc, header).expect(rt, "memory");
    for t in 0..requests.len() {
        if let Err(fault) = step_of(rt, alloc, &mut checker, requests[t], records[t]) {
            drop(checker);
            return Answer::Refused {
                step: t as u32,
                fault,
            };
        }
    }
    match checker.finish() {
        Ok(verdict) => Answer::Yes(verdict),
        Err(kind) => Answer::RefusedAtEnd(kind),
    }
}

fn check_all(rt: &impl Abort, alloc: Global, rows: &[Row<'_>]) {
    for row in rows {
        let answer = answer_of(rt, alloc, row.header, row.requests, row.records);
        holds(row.name, answer == row.answer).expect(rt, "a row");
    }
}

#[test]
fn says_yes_to_valid_certificates(rt: HostRuntime) {
    check_all(&rt, rt.alloc(), &VALID);
}

#[test]
fn names_the_rule_that_a_certificate_fails(rt: HostRuntime) {
    check_all(&rt, rt.alloc(), &INVALID);
}

const ABOVE: Record = Record { flow: 2, ..KEPT };

#[test]
fn stays_as_it_was_after_a_fault(rt: HostRuntime) {
    holds("the header", PAIR_HEADER.in_range()).expect(&rt, "a row");
    let mut checker = Checker::new(rt.alloc(), PAIR_HEADER).expect(&rt, "memory");
    let refused = step_of(&rt, rt.alloc(), &mut checker, FOUR, ABOVE);
    let fault = InvalidKind::FlowAboveWeight { flow: 2, weight: 1 };
    same("a step", refused, Err(StepFault::Rule(fault))).expect(&rt, "a row");
    same("entries", checker.entries(), 0).expect(&rt, "a row");
    let taken = step_of(&rt, rt.alloc(), &mut checker, FOUR, KEPT);
    same("a further step", taken, Ok(())).expect(&rt, "a row");
    same("entries", checker.entries(), 1).expect(&rt, "a row");
    drop(checker);
}
