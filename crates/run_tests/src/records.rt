//! Traces of records of 24 bytes. The bounds were worked out by hand.
ghost use Rattle.std.specs.Prelude.{◌≤◌};

use crate::bounds::FLOW_PAIR;
use bound_run::Status;
use trace_lines::LineKind;
use whole_runs::Said::{Bounds, Text};
use whole_runs::{GOOD, Row, check_all, check_at};

// Two requests for 4 bytes of object 7.
const RECORDS: &[u8] = b"\x01\0\0\0\x07\0\0\0\0\0\0\0\x04\0\0\0\x01\0\0\0\0\0\0\0\
\x02\0\0\0\x07\0\0\0\0\0\0\0\x04\0\0\0\xff\xff\xff\xff\xff\xff\xff\xff";

// A byte less.
const CUT: &[u8] = b"\x01\0\0\0\x07\0\0\0\0\0\0\0\x04\0\0\0\x01\0\0\0\0\0\0\0\
\x02\0\0\0\x07\0\0\0\0\0\0\0\x04\0\0\0\xff\xff\xff\xff\xff\xff\xff";

// The first of them asks for no byte.
const FIRST_EMPTY: &[u8] = b"\x01\0\0\0\x07\0\0\0\0\0\0\0\0\0\0\0\x01\0\0\0\0\0\0\0\
\x02\0\0\0\x07\0\0\0\0\0\0\0\x04\0\0\0\xff\xff\xff\xff\xff\xff\xff\xff";

const WHOLE: Row<'static> = Row {
    shows: "records are read as the lines of the same requests",
    words: "bounds t c format=oracle capacity=10 mode=infinite",
    trace: RECORDS,
    ..GOOD
};

const EXACT: Row<'static> = Row {
    shows: "records in mode flow",
    words: "bounds t c format=oracle capacity=10",
    trace: RECORDS,
    ..FLOW_PAIR
};

#[test]
fn records_are_read_whatever_the_pieces(rt: HostRuntime) {
    for step in [1, 7, 48] {
        check_at(rt.alloc(), &WHOLE, step).expect(&rt, "a row");
        check_at(rt.alloc(), &EXACT, step).expect(&rt, "a row");
    }
}

const ROWS: [Row<'static>; 3] = [
    Row {
        shows: "a part of a record at the end",
        trace: CUT,
        status: Status::BadLine {
            line: 2,
            kind: LineKind::PartRecord { bytes: 23 },
        },
        report: Text(b"bad line 2: part record 23\n"),
        made: b"",
        ..WHOLE
    },
    Row {
        shows: "a record that asks for no byte",
        trace: FIRST_EMPTY,
        report: Bounds("1 1 1, 10 object, infinite form plain, 1 10 1, 0, 0/1 0, 0/1, 0"),
        made: b"cache-bound-certificate 1\nobjective object\ncapacity 10\nrequests 1\nunit 1\n\
denominator 1\nform plain\nupper 0\nflow 0\nlower 0\nrecords\n0 0 0\nend\n",
        ..WHOLE
    },
    Row {
        shows: "the curve of records",
        words: "curve t format=oracle",
        report: Text(b"trace requests 2 objects 1 dropped 0\nsize 4\nslots 1 hits 1\n"),
        made: b"",
        ..WHOLE
    },
];

#[test]
fn records_end_as_their_sizes_say(rt: HostRuntime) {
    check_all(rt.alloc(), &ROWS).expect(&rt, "a row");
}
