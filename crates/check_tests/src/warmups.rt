//! Runs with a warm-up, and certificates of the second version. The bounds were worked out by hand.
use bound_report::InvalidKind;
use bound_run::Status;
use whole_runs::Said::{Bounds, Text, Yes};
use whole_runs::{CYCLE_TRACE, GOOD, PAIR, Row, check_all};

const WARM_CERT: &[u8] =
    b"cache-bound-certificate 1\nobjective object\ncapacity 2\nrequests 6\nunit 1\n\
denominator 1\nform exact\nupper 1\nflow 1\nlower 1\nwarmup 5\nrecords\n0 0 0\n0 0 0\n0 1 1\n0 0 0\n0 0 0\n0 0 0\nend\n";

const WARM: Row<'static> = Row {
    shows: "of three hits that are asked for, the last alone counts",
    words: "bounds t c format=webcache capacity=2 warmup=5",
    trace: CYCLE_TRACE,
    report: Bounds(
        "6 3 0, 2 object, flow window all form exact, 1 2 1, 1, 1/1 1, 1/1, 1, warmup 5",
    ),
    made: WARM_CERT,
    ..GOOD
};

const WARMUPS: [Row<'static>; 4] = [
    WARM,
    Row {
        shows: "a warm-up of all requests leaves none to count",
        words: "bounds t c format=webcache capacity=2 warmup=6",
        report: Bounds(
            "6 3 0, 2 object, flow window all form exact, 1 2 1, 0, 0/1 0, 0/1, 0, warmup 6",
        ),
        made: b"cache-bound-certificate 1\nobjective object\ncapacity 2\nrequests 6\nunit 1\n\
denominator 1\nform exact\nupper 0\nflow 0\nlower 0\nwarmup 6\nrecords\n0 0 0\n0 0 0\n0 0 0\n0 0 0\n0 0 0\n0 0 0\nend\n",
        ..WARM
    },
    Row {
        shows: "a warm-up may be longer than the trace",
        words: "bounds t c format=webcache capacity=10 warmup=33554432",
        trace: PAIR,
        report: Bounds(
            "2 1 0, 10 object, flow window all form exact, 1 10 1, 0, 0/1 0, 0/1, 0, warmup 33554432",
        ),
        made: b"cache-bound-certificate 1\nobjective object\ncapacity 10\nrequests 2\nunit 1\n\
denominator 1\nform exact\nupper 0\nflow 0\nlower 0\nwarmup 33554432\nrecords\n0 0 0\n0 0 0\nend\n",
        ..WARM
    },
    Row {
        shows: "a price that is as the one before is left out in the second version",
        words: "bounds t c format=webcache capacity=10 version=2",
        trace: PAIR,
        report: Bounds("2 1 0, 10 object, flow window all form exact, 4 2 1, 1, 1/1 1, 1/1, 1"),
        made: b"cache-bound-certificate 2\nobjective object\ncapacity 10\nrequests 2\nunit 4\n\
denominator 1\nform exact\nupper 1\nflow 1\nlower 1\nrecords\n1 1\n0 0\nend\n",
        ..WARM
    },
];

#[test]
fn bounds_count_from_the_warmup_on(rt: HostRuntime) {
    check_all(rt.alloc(), &WARMUPS).expect(&rt, "a row");
}

const WARM_CHECK: Row<'static> = Row {
    shows: "a yes names the warm-up",
    words: "check t c format=webcache",
    cert: WARM_CERT,
    report: Yes("6 3 0, 2 object, exact, 1 2 1, 1/1 1, 1/1, 1, valid, warmup 5"),
    made: b"",
    ..WARM
};

const SHORT_CHECK: Row<'static> = Row {
    shows: "the second version is read",
    cert: b"cache-bound-certificate 2\nobjective object\ncapacity 2\nrequests 6\nunit 1\n\
denominator 1\nform exact\nupper 2\nflow 2\nlower 2\nrecords\n1 1\n1 1\n1 0 0\n0 0 0\n0 0\n0 0\nend\n",
    report: Yes("6 3 0, 2 object, exact, 1 2 1, 2/1 2, 2/1, 2, valid"),
    ..WARM_CHECK
};

const CHECKS: [Row<'static>; 4] = [
    WARM_CHECK,
    Row {
        shows: "a flow of an interval that ends before the warm-up",
        cert: b"cache-bound-certificate 1\nobjective object\ncapacity 2\nrequests 6\nunit 1\n\
denominator 1\nform exact\nupper 1\nflow 1\nlower 1\nwarmup 5\nrecords\n0 0 1\n0 0 0\n0 1 1\n0 0 0\n0 0 0\n0 0 0\nend\n",
        status: Status::Invalid {
            line: 16,
            kind: InvalidKind::Unused { number: 0 },
        },
        report: Text(b"invalid line 16: unused flow 0\n"),
        ..WARM_CHECK
    },
    SHORT_CHECK,
    Row {
        shows: "a price that is repeated in the second version",
        cert: b"cache-bound-certificate 2\nobjective object\ncapacity 2\nrequests 6\nunit 1\n\
denominator 1\nform exact\nupper 2\nflow 2\nlower 2\nrecords\n0 1 1\n1 1\n1 0 0\n0 0 0\n0 0\n0 0\nend\n",
        status: Status::Invalid {
            line: 12,
            kind: InvalidKind::Range,
        },
        report: Text(b"invalid line 12: range\n"),
        ..WARM_CHECK
    },
];

#[test]
fn checks_take_warmups_and_both_versions(rt: HostRuntime) {
    check_all(rt.alloc(), &CHECKS).expect(&rt, "a row");
}
