//! Checks and judgements of traces with stale requests. The numbers were worked out by hand.
use bound_report::{Impossible, InvalidKind};
use bound_run::Status;
use whole_runs::Said::{Refined, Text, Yes};
use whole_runs::{GOOD, Row, check_all};

const CERT: &[u8] =
    b"cache-bound-certificate 1\nobjective object\ncapacity 10\nrequests 3\nunit 2\n\
denominator 1\nform plain\nupper 1\nflow 0\nlower 1\nrecords\n0 1 0\n0 0 0\n0 0 0\nend\n";

// One object of 2 bytes, whose third request comes 7 after the second.
const CHECKED: Row<'static> = Row {
    shows: "a certificate is valid with the time that it was made with",
    words: "check t c format=webcache idle=2",
    trace: b"0 1 2\n2 1 2\n9 1 2\n",
    cert: CERT,
    report: Yes("3 1 0, 10 object, idle 2, stale 1, plain, 2 5 1, 1/1 1, 0/1, 1, valid"),
    made: b"",
    ..GOOD
};

const CHECKS: [Row<'static>; 5] = [
    CHECKED,
    Row {
        shows: "without it each request may be a hit",
        words: "check t c format=webcache",
        status: Status::Invalid {
            line: 15,
            kind: InvalidKind::UpperDiffers {
                written: 1,
                counted: 2,
            },
        },
        report: Text(b"invalid line 15: upper differs 1 2\n"),
        ..CHECKED
    },
    Row {
        shows: "a stale request is no hit of the schedule",
        cert: b"cache-bound-certificate 1\nobjective object\ncapacity 10\nrequests 3\nunit 2\n\
denominator 1\nform plain\nupper 1\nflow 0\nlower 2\nrecords\n0 1 0\n0 1 0\n0 0 0\nend\n",
        status: Status::Invalid {
            line: 15,
            kind: InvalidKind::LowerDiffers {
                written: 2,
                counted: 1,
            },
        },
        report: Text(b"invalid line 15: lower differs 2 1\n"),
        ..CHECKED
    },
    Row {
        shows: "no flow ends at a stale request",
        cert: b"cache-bound-certificate 1\nobjective object\ncapacity 10\nrequests 3\nunit 2\n\
denominator 1\nform plain\nupper 1\nflow 0\nlower 1\nrecords\n0 1 0\n0 0 1\n0 0 0\nend\n",
        status: Status::Invalid {
            line: 14,
            kind: InvalidKind::Unused { number: 1 },
        },
        report: Text(b"invalid line 14: unused flow 1\n"),
        ..CHECKED
    },
    Row {
        shows: "a refinement says it in the same place",
        words: "refine t c m format=webcache window=3 idle=2",
        report: Refined(
            "1/1 1/1, 3 1 0, 10 object, idle 2, stale 1, plain, 2 5 1, 1/1 1, 0/1, 1, valid",
        ),
        made: CERT,
        ..CHECKED
    },
];

#[test]
fn checks_of_objects_that_expire(rt: HostRuntime) {
    check_all(rt.alloc(), &CHECKS).expect(&rt, "a row");
}

const JUDGED: Row<'static> = Row {
    shows: "a hit of a fresh object is possible",
    words: "judge t h format=webcache capacity=5 idle=2",
    cert: b"0\n1\n0\n",
    report: Text(
        b"trace requests 3 objects 1 dropped 0\njudged capacity 5\nidle 2\nstale 1\nhits 1 bytes 2\npossible\n",
    ),
    ..CHECKED
};

const JUDGEMENTS: [Row<'static>; 3] = [
    JUDGED,
    Row {
        shows: "a hit of a stale one is not",
        cert: b"0\n1\n1\n",
        status: Status::Impossible {
            cause: Impossible::Stale { request: 2 },
            capacity: 5,
        },
        report: Text(b"impossible request 2: stale\n"),
        ..JUDGED
    },
    Row {
        shows: "another size of its id replaced the object",
        words: "judge t h format=webcache capacity=9 replace=yes",
        trace: b"1 7 4\n2 7 5\n3 7 4\n",
        cert: b"0\n0\n1\n",
        status: Status::Impossible {
            cause: Impossible::Stale { request: 2 },
            capacity: 9,
        },
        report: Text(b"impossible request 2: stale\n"),
        ..JUDGED
    },
];

#[test]
fn judgements_of_objects_that_expire(rt: HostRuntime) {
    check_all(rt.alloc(), &JUDGEMENTS).expect(&rt, "a row");
}
