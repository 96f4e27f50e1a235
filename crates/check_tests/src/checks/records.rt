//! Certificates that are valid, of which a record or the end is spoilt, or which are beside another trace.
use super::events::{CYCLE_VERDICT, Checked, Inputs, PAIR_VERDICT};
use super::*;
use trace_lines::LineKind;

pub(super) const RECORDS: [Checked<'static>; 23] = [
    Checked {
        shows: "two requests of one object",
        of: Inputs::Pair,
        at: 0,
        text: "",
        status: Status::Done,
        report: PAIR_VERDICT,
    },
    Checked {
        shows: "three objects in turn, of which two fit",
        of: Inputs::Cycle,
        at: 0,
        text: "",
        status: Status::Done,
        report: CYCLE_VERDICT,
    },
    Checked {
        shows: "two spaces",
        of: Inputs::Pair,
        at: 12,
        text: "0  1 1",
        status: Status::Invalid {
            line: 12,
            kind: InvalidKind::Shape,
        },
        report: Text(b"invalid line 12: shape\n"),
    },
    Checked {
        shows: "a keep that is none, before a number that is none",
        of: Inputs::Pair,
        at: 12,
        text: "x 2 1",
        status: Status::Invalid {
            line: 12,
            kind: InvalidKind::Shape,
        },
        report: Text(b"invalid line 12: shape\n"),
    },
    Checked {
        shows: "a number that is none, before one that is out of range",
        of: Inputs::Pair,
        at: 12,
        text: "00 1 281474976710657",
        status: Status::Invalid {
            line: 12,
            kind: InvalidKind::Number,
        },
        report: Text(b"invalid line 12: number\n"),
    },
    Checked {
        shows: "a flow past 2^48",
        of: Inputs::Pair,
        at: 12,
        text: "0 1 281474976710657",
        status: Status::Invalid {
            line: 12,
            kind: InvalidKind::Range,
        },
        report: Text(b"invalid line 12: range\n"),
    },
    Checked {
        shows: "a price past 2^126",
        of: Inputs::Pair,
        at: 12,
        text: "85070591730234615865843651857942052865 1 1",
        status: Status::Invalid {
            line: 12,
            kind: InvalidKind::Range,
        },
        report: Text(b"invalid line 12: range\n"),
    },
    Checked {
        shows: "prices whose sum passes 2^126, times the units",
        of: Inputs::Cycle,
        at: 12,
        text: "85070591730234615865843651857942052864 1 1",
        status: Status::Invalid {
            line: 12,
            kind: InvalidKind::SumLimit,
        },
        report: Text(b"invalid line 12: sum limit\n"),
    },
    Checked {
        shows: "a flow above the weight",
        of: Inputs::Pair,
        at: 12,
        text: "0 1 2",
        status: Status::Invalid {
            line: 12,
            kind: InvalidKind::FlowAboveWeight { flow: 2, weight: 1 },
        },
        report: Text(b"invalid line 12: flow above weight 2 1\n"),
    },
    Checked {
        shows: "a last price above 0",
        of: Inputs::Pair,
        at: 13,
        text: "5 0 0",
        status: Status::Invalid {
            line: 13,
            kind: InvalidKind::LastPrice { price: 5 },
        },
        report: Text(b"invalid line 13: last price 5\n"),
    },
    Checked {
        shows: "a flow where no interval starts",
        of: Inputs::Pair,
        at: 13,
        text: "0 0 1",
        status: Status::Invalid {
            line: 14,
            kind: InvalidKind::Unused { number: 1 },
        },
        report: Text(b"invalid line 14: unused flow 1\n"),
    },
    Checked {
        shows: "a kept object without room",
        of: Inputs::Cycle,
        at: 14,
        text: "1 1 0",
        status: Status::Invalid {
            line: 14,
            kind: InvalidKind::Overfull {
                load: 3,
                capacity: 2,
            },
        },
        report: Text(b"invalid line 14: overfull 3 2\n"),
    },
    Checked {
        shows: "a flow without room",
        of: Inputs::Cycle,
        at: 14,
        text: "1 0 1",
        status: Status::Invalid {
            line: 14,
            kind: InvalidKind::FlowOverfull { load: 3, units: 2 },
        },
        report: Text(b"invalid line 14: flow overfull 3 2\n"),
    },
    Checked {
        shows: "another last line",
        of: Inputs::Pair,
        at: 14,
        text: "End",
        status: Status::Invalid {
            line: 14,
            kind: InvalidKind::Shape,
        },
        report: Text(b"invalid line 14: shape\n"),
    },
    Checked {
        shows: "an empty line after the end",
        of: Inputs::Pair,
        at: 14,
        text: "end\n",
        status: Status::Invalid {
            line: 15,
            kind: InvalidKind::Trailing,
        },
        report: Text(b"invalid line 15: trailing\n"),
    },
    Checked {
        shows: "a word after the end",
        of: Inputs::Pair,
        at: 14,
        text: "end\nx",
        status: Status::Invalid {
            line: 15,
            kind: InvalidKind::Trailing,
        },
        report: Text(b"invalid line 15: trailing\n"),
    },
    Checked {
        shows: "the end twice",
        of: Inputs::Pair,
        at: 14,
        text: "end\nend",
        status: Status::Invalid {
            line: 15,
            kind: InvalidKind::Trailing,
        },
        report: Text(b"invalid line 15: trailing\n"),
    },
    Checked {
        shows: "a bad line of the trace, beside a good record",
        of: Inputs::BadLine,
        at: 13,
        text: "0 0 0",
        status: Status::BadLine {
            line: 2,
            kind: LineKind::TooFewWords,
        },
        report: Text(b"bad line 2: too few words\n"),
    },
    Checked {
        shows: "a bad line of the trace, before a record of the wrong shape",
        of: Inputs::BadLine,
        at: 13,
        text: "x",
        status: Status::BadLine {
            line: 2,
            kind: LineKind::TooFewWords,
        },
        report: Text(b"bad line 2: too few words\n"),
    },
    Checked {
        shows: "a record that fails before a bad line of the trace",
        of: Inputs::BadLine,
        at: 12,
        text: "0 1 2",
        status: Status::Invalid {
            line: 12,
            kind: InvalidKind::FlowAboveWeight { flow: 2, weight: 1 },
        },
        report: Text(b"invalid line 12: flow above weight 2 1\n"),
    },
    Checked {
        shows: "a request more than the header says",
        of: Inputs::Longer,
        at: 0,
        text: "",
        status: Status::Invalid {
            line: 13,
            kind: InvalidKind::RequestCount {
                written: 2,
                read: 3,
            },
        },
        report: Text(b"invalid line 13: request count 2 3\n"),
    },
    Checked {
        shows: "a request less than the header says",
        of: Inputs::Shorter,
        at: 0,
        text: "",
        status: Status::Invalid {
            line: 12,
            kind: InvalidKind::RequestCount {
                written: 2,
                read: 1,
            },
        },
        report: Text(b"invalid line 12: request count 2 1\n"),
    },
    Checked {
        shows: "no request",
        of: Inputs::Nothing,
        at: 0,
        text: "",
        status: Status::Invalid {
            line: 11,
            kind: InvalidKind::RequestCount {
                written: 2,
                read: 0,
            },
        },
        report: Text(b"invalid line 11: request count 2 0\n"),
    },
];
