//! Certificates of which one line is spoilt, and how their checks end: what they are, and those with a spoilt header.
use super::*;
use whole_runs::PAIR_CERT;

// A trace in the webcache form, and a certificate that is valid for it.
#[derive(Clone, Copy)]
pub(super) enum Inputs {
    // Two requests of one object.
    Pair,
    // The same, in the plain form.
    PlainPair,
    // The same certificate, beside a trace of which the second line lacks its size.
    BadLine,
    // The same, beside a trace with a request more, with one less, and with none.
    Longer,
    Shorter,
    Nothing,
    // Three objects in turn, of which two fit.
    Cycle,
}

pub(super) const EXACT_PAIR: &[u8] =
    b"cache-bound-certificate 1\nobjective object\ncapacity 10\nrequests 2\nunit 4\n\
denominator 1\nform exact\nupper 1\nflow 1\nlower 1\nrecords\n0 1 1\n0 0 0\nend\n";

pub(super) const EXACT_CYCLE: &[u8] =
    b"cache-bound-certificate 1\nobjective object\ncapacity 2\nrequests 6\nunit 1\n\
denominator 1\nform exact\nupper 2\nflow 2\nlower 2\nrecords\n0 1 1\n0 1 1\n1 0 0\n0 0 0\n0 0 0\n0 0 0\nend\n";

impl Inputs {
    pub(super) fn trace(self) -> &'static [u8] {
        match self {
            Inputs::Pair | Inputs::PlainPair => PAIR,
            Inputs::BadLine => b"1 7 4\n2 7\n",
            Inputs::Longer => b"1 7 4\n2 7 4\n3 7 4\n",
            Inputs::Shorter => b"1 7 4\n",
            Inputs::Nothing => b"",
            Inputs::Cycle => CYCLE_TRACE,
        }
    }

    pub(super) fn cert(self) -> &'static [u8] {
        match self {
            Inputs::PlainPair => PAIR_CERT,
            Inputs::Cycle => EXACT_CYCLE,
            _ => EXACT_PAIR,
        }
    }
}

pub(super) const PAIR_VERDICT: Said<'static> = Yes(
    "2 1 0, 10 object, exact, 4 2 1, 1/1 1, 1/1, 1, valid",
);

pub(super) const CYCLE_VERDICT: Said<'static> = Yes(
    "6 3 0, 2 object, exact, 1 2 1, 2/1 2, 2/1, 2, valid",
);

// A certificate of which one line has another text, and how its check ends. Lines count from 1, and at 0 stands none.
#[derive(Clone, Copy)]
pub(super) struct Checked<'a> {
    pub(super) shows: &'a str,
    pub(super) of: Inputs,
    pub(super) at: usize,
    pub(super) text: &'a str,
    pub(super) status: Status,
    pub(super) report: Said<'a>,
}

// Of the header.
pub(super) const HEADERS: [Checked<'static>; 23] = [
    Checked {
        shows: "another version",
        of: Inputs::Pair,
        at: 1,
        text: "cache-bound-certificate 3",
        status: Status::Invalid {
            line: 1,
            kind: InvalidKind::Shape,
        },
        report: Text(b"invalid line 1: shape\n"),
    },
    Checked {
        shows: "an objective that is none",
        of: Inputs::Pair,
        at: 2,
        text: "objective hits",
        status: Status::Invalid {
            line: 2,
            kind: InvalidKind::Shape,
        },
        report: Text(b"invalid line 2: shape\n"),
    },
    Checked {
        shows: "a leading zero",
        of: Inputs::Pair,
        at: 3,
        text: "capacity 010",
        status: Status::Invalid {
            line: 3,
            kind: InvalidKind::Number,
        },
        report: Text(b"invalid line 3: number\n"),
    },
    Checked {
        shows: "a capacity of 0",
        of: Inputs::Pair,
        at: 3,
        text: "capacity 0",
        status: Status::Invalid {
            line: 3,
            kind: InvalidKind::Range,
        },
        report: Text(b"invalid line 3: range\n"),
    },
    Checked {
        shows: "a capacity past 2^56",
        of: Inputs::Pair,
        at: 3,
        text: "capacity 72057594037927937",
        status: Status::Invalid {
            line: 3,
            kind: InvalidKind::Range,
        },
        report: Text(b"invalid line 3: range\n"),
    },
    Checked {
        shows: "one request too few",
        of: Inputs::Pair,
        at: 4,
        text: "requests 1",
        status: Status::Invalid {
            line: 12,
            kind: InvalidKind::RequestCount {
                written: 1,
                read: 2,
            },
        },
        report: Text(b"invalid line 12: request count 1 2\n"),
    },
    Checked {
        shows: "one request too many",
        of: Inputs::Pair,
        at: 4,
        text: "requests 3",
        status: Status::Invalid {
            line: 13,
            kind: InvalidKind::RequestCount {
                written: 3,
                read: 2,
            },
        },
        report: Text(b"invalid line 13: request count 3 2\n"),
    },
    Checked {
        shows: "too many requests for any trace",
        of: Inputs::Pair,
        at: 4,
        text: "requests 33554433",
        status: Status::Invalid {
            line: 4,
            kind: InvalidKind::Range,
        },
        report: Text(b"invalid line 4: range\n"),
    },
    Checked {
        shows: "a unit above the capacity",
        of: Inputs::Pair,
        at: 5,
        text: "unit 11",
        status: Status::Invalid {
            line: 5,
            kind: InvalidKind::Range,
        },
        report: Text(b"invalid line 5: range\n"),
    },
    Checked {
        shows: "a unit that doesn't divide the size",
        of: Inputs::Pair,
        at: 5,
        text: "unit 3",
        status: Status::Invalid {
            line: 13,
            kind: InvalidKind::UnitNotDivisor { unit: 3, size: 4 },
        },
        report: Text(b"invalid line 13: unit 3 size 4\n"),
    },
    Checked {
        shows: "a weight that doesn't divide the gain of an exact form",
        of: Inputs::Pair,
        at: 5,
        text: "unit 2",
        status: Status::Invalid {
            line: 13,
            kind: InvalidKind::NotDivisible { weight: 2 },
        },
        report: Text(b"invalid line 13: not divisible 2\n"),
    },
    Checked {
        shows: "a denominator of 0",
        of: Inputs::Pair,
        at: 6,
        text: "denominator 0",
        status: Status::Invalid {
            line: 6,
            kind: InvalidKind::Range,
        },
        report: Text(b"invalid line 6: range\n"),
    },
    Checked {
        shows: "a denominator past 2^48",
        of: Inputs::Pair,
        at: 6,
        text: "denominator 281474976710657",
        status: Status::Invalid {
            line: 6,
            kind: InvalidKind::Range,
        },
        report: Text(b"invalid line 6: range\n"),
    },
    Checked {
        shows: "no form",
        of: Inputs::Pair,
        at: 7,
        text: "form ",
        status: Status::Invalid {
            line: 7,
            kind: InvalidKind::Shape,
        },
        report: Text(b"invalid line 7: shape\n"),
    },
    Checked {
        shows: "a number of 60 digits",
        of: Inputs::Pair,
        at: 8,
        text: "upper 111111111111111111111111111111111111111111111111111111111111",
        status: Status::Invalid {
            line: 8,
            kind: InvalidKind::Range,
        },
        report: Text(b"invalid line 8: range\n"),
    },
    Checked {
        shows: "a number below 0",
        of: Inputs::Pair,
        at: 8,
        text: "upper -1",
        status: Status::Invalid {
            line: 8,
            kind: InvalidKind::Number,
        },
        report: Text(b"invalid line 8: number\n"),
    },
    Checked {
        shows: "an upper bound of 2^127",
        of: Inputs::Pair,
        at: 8,
        text: "upper 170141183460469231731687303715884105728",
        status: Status::Invalid {
            line: 8,
            kind: InvalidKind::Range,
        },
        report: Text(b"invalid line 8: range\n"),
    },
    Checked {
        shows: "an upper bound that is too small",
        of: Inputs::Pair,
        at: 8,
        text: "upper 0",
        status: Status::Invalid {
            line: 14,
            kind: InvalidKind::UpperDiffers {
                written: 0,
                counted: 1,
            },
        },
        report: Text(b"invalid line 14: upper differs 0 1\n"),
    },
    Checked {
        shows: "an upper bound that is greater than it should be",
        of: Inputs::Cycle,
        at: 8,
        text: "upper 3",
        status: Status::Invalid {
            line: 18,
            kind: InvalidKind::UpperDiffers {
                written: 3,
                counted: 2,
            },
        },
        report: Text(b"invalid line 18: upper differs 3 2\n"),
    },
    Checked {
        shows: "another value of the flows",
        of: Inputs::Pair,
        at: 9,
        text: "flow 2",
        status: Status::Invalid {
            line: 14,
            kind: InvalidKind::FlowDiffers {
                written: 2,
                counted: 1,
            },
        },
        report: Text(b"invalid line 14: flow differs 2 1\n"),
    },
    Checked {
        shows: "another score",
        of: Inputs::Pair,
        at: 10,
        text: "lower 0",
        status: Status::Invalid {
            line: 14,
            kind: InvalidKind::LowerDiffers {
                written: 0,
                counted: 1,
            },
        },
        report: Text(b"invalid line 14: lower differs 0 1\n"),
    },
    Checked {
        shows: "a word too many",
        of: Inputs::Pair,
        at: 11,
        text: "records 2",
        status: Status::Invalid {
            line: 11,
            kind: InvalidKind::Shape,
        },
        report: Text(b"invalid line 11: shape\n"),
    },
    Checked {
        shows: "a plain form that is called exact",
        of: Inputs::PlainPair,
        at: 7,
        text: "form exact",
        status: Status::Invalid {
            line: 14,
            kind: InvalidKind::ExactGap { upper: 1, flow: 0 },
        },
        report: Text(b"invalid line 14: exact gap 1 0\n"),
    },
];
