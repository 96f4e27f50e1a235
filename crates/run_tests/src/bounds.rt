//! Bounds of small traces, whole: the report and the certificate.
use std::alloc::Global;
use std::process::Abort;
use whole_runs::Said::Bounds;
use whole_runs::{CYCLE_TRACE, GOOD, Row, check_all};

// Three sizes without a common divisor, whose least common multiple passes 2^48.
pub const APART: &[u8] = b"1 1 65536\n2 1 65536\n3 2 59049\n4 2 59049\n5 3 78125\n6 3 78125\n";

pub const CYCLE: Row<'static> = Row {
    shows: "three objects in turn, of which two fit",
    words: "bounds t c format=webcache capacity=2 mode=infinite",
    trace: CYCLE_TRACE,
    report: Bounds("6 3 0, 2 object, infinite form plain, 1 2 1, 3, 3/1 3, 0/1, 2"),
    made: b"cache-bound-certificate 1\nobjective object\ncapacity 2\nrequests 6\nunit 1\n\
denominator 1\nform plain\nupper 3\nflow 0\nlower 2\nrecords\n0 1 0\n0 1 0\n0 0 0\n0 0 0\n0 0 0\n0 0 0\nend\n",
    ..GOOD
};

// The bounds of the pair in mode flow: prices and a flow of one value.
pub const FLOW_PAIR: Row<'static> = Row {
    shows: "two requests of one object, whose flow is worth the bound",
    words: "bounds t c format=webcache capacity=10",
    report: Bounds("2 1 0, 10 object, flow window all form exact, 4 2 1, 1, 1/1 1, 1/1, 1"),
    made: b"cache-bound-certificate 1\nobjective object\ncapacity 10\nrequests 2\nunit 4\n\
denominator 1\nform exact\nupper 1\nflow 1\nlower 1\nrecords\n0 1 1\n0 0 0\nend\n",
    ..GOOD
};

const FIRST_ROWS: [Row<'static>; 4] = [
    GOOD,
    FLOW_PAIR,
    Row {
        shows: "lines that end with CR LF, and no LF at the end",
        trace: b"1 7 4\r\n2 7 4",
        ..FLOW_PAIR
    },
    CYCLE,
];

const SECOND_ROWS: [Row<'static>; 3] = [
    Row {
        shows: "sizes with a common divisor, and one above the capacity",
        trace: b"1 1 4\n2 2 6\n3 9 11\n4 2 6\n5 1 4\n6 9 11\n",
        report: Bounds("6 3 0, 10 object, infinite form plain, 2 5 1, 2, 2/1 2, 0/1, 2"),
        made: b"cache-bound-certificate 1\nobjective object\ncapacity 10\nrequests 6\nunit 2\n\
denominator 1\nform plain\nupper 2\nflow 0\nlower 2\nrecords\n0 1 0\n0 1 0\n0 0 0\n0 0 0\n0 0 0\n0 0 0\nend\n",
        ..GOOD
    },
    Row {
        shows: "one id with two sizes is two objects",
        trace: b"1 1 2\n2 1 3\n",
        report: Bounds("2 2 0, 10 object, infinite form plain, 1 10 1, 0, 0/1 0, 0/1, 0"),
        made: b"cache-bound-certificate 1\nobjective object\ncapacity 10\nrequests 2\nunit 1\n\
denominator 1\nform plain\nupper 0\nflow 0\nlower 0\nrecords\n0 0 0\n0 0 0\nend\n",
        ..GOOD
    },
    Row {
        shows: "no request at all",
        trace: b"",
        report: Bounds("0 0 0, 10 object, infinite form plain, 1 10 1, 0, 0/1 0, 0/1, 0"),
        made: b"cache-bound-certificate 1\nobjective object\ncapacity 10\nrequests 0\nunit 1\n\
denominator 1\nform plain\nupper 0\nflow 0\nlower 0\nrecords\nend\n",
        ..GOOD
    },
];

fn check_first_rows(rt: &impl Abort, alloc: Global) {
    check_all(alloc, &FIRST_ROWS).expect(rt, "a row");
}

fn check_second_rows(rt: &impl Abort, alloc: Global) {
    check_all(alloc, &SECOND_ROWS).expect(rt, "a row");
}

#[test]
fn traces_give_their_bounds(rt: HostRuntime) {
    check_first_rows(&rt, rt.alloc());
    check_second_rows(&rt, rt.alloc());
}
