//! Runs in each mode and over each denominator.
use crate::bounds::{APART, CYCLE};
use bound_report::LimitName;
use bound_run::Status;
use std::alloc::Global;
use std::process::Abort;
use whole_runs::Said::{Bounds, Text};
use whole_runs::{CYCLE_TRACE, GOOD, Row, check_all};

// Sizes 2 and 3 by turns.
const TURNS: &[u8] = b"1 1 2\n2 2 3\n3 1 2\n4 2 3\n";

const FIRST_ROWS: [Row<'static>; 4] = [
    Row {
        shows: "the interval of the lesser rank is kept, though it starts later",
        words: "bounds t c format=webcache capacity=3 mode=infinite",
        trace: b"1 1 3\n2 2 1\n3 2 1\n4 1 3\n",
        report: Bounds("4 2 0, 3 object, infinite form plain, 1 3 1, 2, 2/1 2, 0/1, 1"),
        made: b"cache-bound-certificate 1\nobjective object\ncapacity 3\nrequests 4\nunit 1\n\
denominator 1\nform plain\nupper 2\nflow 0\nlower 1\nrecords\n0 0 0\n0 1 0\n0 0 0\n0 0 0\nend\n",
        ..GOOD
    },
    Row {
        shows: "one price of a third",
        words: "bounds t c format=webcache capacity=1 mode=constant denominator=3",
        trace: CYCLE_TRACE,
        report: Bounds("6 3 0, 1 object, constant price 1 form plain, 1 1 3, 3, 5/3 1, 0/3, 1"),
        made: b"cache-bound-certificate 1\nobjective object\ncapacity 1\nrequests 6\nunit 1\n\
denominator 3\nform plain\nupper 5\nflow 0\nlower 1\nrecords\n1 1 0\n1 0 0\n1 0 0\n1 0 0\n1 0 0\n0 0 0\nend\n",
        ..GOOD
    },
    Row {
        shows: "one price over the usual denominator",
        words: "bounds t c format=webcache capacity=1 mode=constant",
        trace: CYCLE_TRACE,
        report: Bounds(
            "6 3 0, 1 object, constant price 93824992236885 form plain, 1 1 281474976710656, 3, 469124961184428/281474976710656 1, 0/281474976710656, 1",
        ),
        made: b"cache-bound-certificate 1\nobjective object\ncapacity 1\nrequests 6\nunit 1\n\
denominator 281474976710656\nform plain\nupper 469124961184428\nflow 0\nlower 1\nrecords\n\
93824992236885 1 0\n93824992236885 0 0\n93824992236885 0 0\n93824992236885 0 0\n93824992236885 0 0\n0 0 0\nend\n",
        ..GOOD
    },
    Row {
        shows: "the least price is 0, since 1 gives 14",
        words: "bounds t c format=webcache capacity=4 mode=constant denominator=6",
        trace: TURNS,
        report: Bounds("4 2 0, 4 object, constant price 0 form plain, 1 4 6, 2, 12/6 2, 0/6, 1"),
        made: b"cache-bound-certificate 1\nobjective object\ncapacity 4\nrequests 4\nunit 1\n\
denominator 6\nform plain\nupper 12\nflow 0\nlower 1\nrecords\n0 1 0\n0 0 0\n0 0 0\n0 0 0\nend\n",
        ..GOOD
    },
];

const SECOND_ROWS: [Row<'static>; 4] = [
    Row {
        shows: "bytes over the least denominator",
        words: "bounds t c format=webcache capacity=3 mode=constant denominator=auto objective=bytes",
        trace: b"1 1 2\n2 2 2\n3 1 2\n4 2 2\n",
        report: Bounds("4 2 0, 3 bytes, constant price 1 form plain, 2 1 1, 2, 3/1 3, 0/1, 2"),
        made: b"cache-bound-certificate 1\nobjective bytes\ncapacity 3\nrequests 4\nunit 2\n\
denominator 1\nform plain\nupper 3\nflow 0\nlower 2\nrecords\n1 1 0\n1 0 0\n1 0 0\n0 0 0\nend\n",
        ..GOOD
    },
    Row {
        shows: "no price over a denominator of 5",
        words: "bounds t c format=webcache capacity=2 mode=infinite denominator=5",
        report: Bounds("6 3 0, 2 object, infinite form plain, 1 2 5, 3, 15/5 3, 0/5, 2"),
        made: b"cache-bound-certificate 1\nobjective object\ncapacity 2\nrequests 6\nunit 1\n\
denominator 5\nform plain\nupper 15\nflow 0\nlower 2\nrecords\n0 1 0\n0 1 0\n0 0 0\n0 0 0\n0 0 0\n0 0 0\nend\n",
        ..CYCLE
    },
    Row {
        shows: "an object above the capacity has no interval",
        words: "bounds t c format=webcache capacity=5 mode=infinite",
        trace: b"1 1 10\n2 1 10\n",
        report: Bounds("2 1 0, 5 object, infinite form plain, 1 5 1, 0, 0/1 0, 0/1, 0"),
        made: b"cache-bound-certificate 1\nobjective object\ncapacity 5\nrequests 2\nunit 1\n\
denominator 1\nform plain\nupper 0\nflow 0\nlower 0\nrecords\n0 0 0\n0 0 0\nend\n",
        ..GOOD
    },
    Row {
        shows: "a least denominator past 2^48, of 302330880000000",
        words: "bounds t c format=webcache capacity=100000 mode=constant denominator=exact",
        trace: APART,
        status: Status::Limit(LimitName::Denominator),
        report: Text(b"limit: denominator 281474976710656\n"),
        made: b"",
        ..GOOD
    },
];

const THIRD_ROWS: [Row<'static>; 4] = [
    Row {
        shows: "the same in the usual mode",
        words: "bounds t c format=webcache capacity=100000 denominator=exact",
        trace: APART,
        status: Status::Limit(LimitName::Denominator),
        report: Text(b"limit: denominator 281474976710656\n"),
        made: b"",
        ..GOOD
    },
    Row {
        shows: "no request at all has the price 0",
        words: "bounds t c format=webcache capacity=10 mode=constant denominator=exact",
        trace: b"",
        report: Bounds("0 0 0, 10 object, constant price 0 form plain, 1 10 1, 0, 0/1 0, 0/1, 0"),
        made: b"cache-bound-certificate 1\nobjective object\ncapacity 10\nrequests 0\nunit 1\n\
denominator 1\nform plain\nupper 0\nflow 0\nlower 0\nrecords\nend\n",
        ..GOOD
    },
    Row {
        shows: "hits of two objects that fit together",
        words: "bounds t c format=webcache capacity=5 mode=infinite",
        trace: TURNS,
        report: Bounds("4 2 0, 5 object, infinite form plain, 1 5 1, 2, 2/1 2, 0/1, 2"),
        made: b"cache-bound-certificate 1\nobjective object\ncapacity 5\nrequests 4\nunit 1\n\
denominator 1\nform plain\nupper 2\nflow 0\nlower 2\nrecords\n0 1 0\n0 1 0\n0 0 0\n0 0 0\nend\n",
        ..GOOD
    },
    Row {
        shows: "bytes of two objects of which one fits",
        words: "bounds t c format=webcache capacity=3 mode=infinite objective=bytes",
        trace: b"1 1 2\n2 3 2\n3 1 2\n4 3 2\n",
        report: Bounds("4 2 0, 3 bytes, infinite form plain, 2 1 1, 2, 4/1 4, 0/1, 2"),
        made: b"cache-bound-certificate 1\nobjective bytes\ncapacity 3\nrequests 4\nunit 2\n\
denominator 1\nform plain\nupper 4\nflow 0\nlower 2\nrecords\n0 1 0\n0 0 0\n0 0 0\n0 0 0\nend\n",
        ..GOOD
    },
];

const FOURTH_ROWS: [Row<'static>; 3] = [
    Row {
        shows: "an object larger than the capacity",
        words: "bounds t c format=webcache capacity=2 mode=infinite objective=bytes",
        trace: TURNS,
        report: Bounds("4 2 0, 2 bytes, infinite form plain, 2 1 1, 1, 2/1 2, 0/1, 2"),
        made: b"cache-bound-certificate 1\nobjective bytes\ncapacity 2\nrequests 4\nunit 2\n\
denominator 1\nform plain\nupper 2\nflow 0\nlower 2\nrecords\n0 1 0\n0 0 0\n0 0 0\n0 0 0\nend\n",
        ..GOOD
    },
    Row {
        shows: "bytes of no request",
        words: "bounds t c format=webcache capacity=5 mode=infinite objective=bytes",
        trace: b"",
        report: Bounds("0 0 0, 5 bytes, infinite form plain, 1 5 1, 0, 0/1 0, 0/1, 0"),
        made: b"cache-bound-certificate 1\nobjective bytes\ncapacity 5\nrequests 0\nunit 1\n\
denominator 1\nform plain\nupper 0\nflow 0\nlower 0\nrecords\nend\n",
        ..GOOD
    },
    Row {
        shows: "seven dropped lines",
        words: "bounds t c format=webcache capacity=5 mode=infinite objective=bytes",
        trace: b"1 2 0\n1 2 3\n1 2 0\n1 2 0\n1 2 0\n1 2 0\n1 2 0\n1 2 3\n1 2 0\n",
        report: Bounds("2 1 7, 5 bytes, infinite form plain, 3 1 1, 1, 3/1 3, 0/1, 3"),
        made: b"cache-bound-certificate 1\nobjective bytes\ncapacity 5\nrequests 2\nunit 3\n\
denominator 1\nform plain\nupper 3\nflow 0\nlower 3\nrecords\n0 1 0\n0 0 0\nend\n",
        ..GOOD
    },
];

fn check_first_rows(rt: &impl Abort, alloc: Global) {
    check_all(alloc, &FIRST_ROWS).expect(rt, "a row");
}

fn check_second_rows(rt: &impl Abort, alloc: Global) {
    check_all(alloc, &SECOND_ROWS).expect(rt, "a row");
}

fn check_third_rows(rt: &impl Abort, alloc: Global) {
    check_all(alloc, &THIRD_ROWS).expect(rt, "a row");
}

fn check_fourth_rows(rt: &impl Abort, alloc: Global) {
    check_all(alloc, &FOURTH_ROWS).expect(rt, "a row");
}

#[test]
fn modes_and_denominators_give_their_bounds(rt: HostRuntime) {
    check_first_rows(&rt, rt.alloc());
    check_second_rows(&rt, rt.alloc());
    check_third_rows(&rt, rt.alloc());
    check_fourth_rows(&rt, rt.alloc());
}
