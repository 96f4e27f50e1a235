//! Refinements of certificates. The prices and the bounds were worked out by hand.
use bound_report::InvalidKind;
use bound_run::Status;
use std::alloc::Global;
use std::process::Abort;
use trace_lines::LineKind;
use whole_runs::Said::{Refined, Text};
use whole_runs::{CYCLE_TRACE, Device, GOOD, Row, check_all, check_made_writes};

const LOOSE_CERT: &[u8] =
    b"cache-bound-certificate 1\nobjective object\ncapacity 2\nrequests 6\nunit 1\n\
denominator 1\nform plain\nupper 3\nflow 0\nlower 2\nrecords\n0 1 0\n0 1 0\n0 0 0\n0 0 0\n0 0 0\n0 0 0\nend\n";

// Three objects in turn, of which two fit: the last step before the second round is the dear one.
const LOOSE: Row<'static> = Row {
    shows: "one price brings the bound down to the greatest score",
    words: "refine t c m format=webcache window=3",
    trace: CYCLE_TRACE,
    cert: LOOSE_CERT,
    report: Refined("3/1 2/1, 6 3 0, 2 object, plain, 1 2 1, 2/1 2, 0/1, 2, valid"),
    made: b"cache-bound-certificate 1\nobjective object\ncapacity 2\nrequests 6\nunit 1\n\
denominator 1\nform plain\nupper 2\nflow 0\nlower 2\nrecords\n0 1 0\n0 1 0\n1 0 0\n0 0 0\n0 0 0\n0 0 0\nend\n",
    ..GOOD
};

const EXACT_CERT: &[u8] =
    b"cache-bound-certificate 1\nobjective object\ncapacity 2\nrequests 6\nunit 1\n\
denominator 1\nform exact\nupper 2\nflow 2\nlower 2\nrecords\n0 1 1\n0 1 1\n1 0 0\n0 0 0\n0 0 0\n0 0 0\nend\n";

const FIRST_REFINEMENTS: [Row<'static>; 4] = [
    LOOSE,
    Row {
        shows: "blocks of one step",
        words: "refine t c m window=1 format=webcache",
        ..LOOSE
    },
    Row {
        shows: "a block of more steps than there are",
        words: "refine t c m format=webcache window=33554432",
        ..LOOSE
    },
    Row {
        shows: "an exact certificate stays as it is",
        words: "refine t c m format=webcache window=2",
        cert: EXACT_CERT,
        report: Refined("2/1 2/1, 6 3 0, 2 object, exact, 1 2 1, 2/1 2, 2/1, 2, valid"),
        made: EXACT_CERT,
        ..LOOSE
    },
];

const SECOND_REFINEMENTS: [Row<'static>; 3] = [
    Row {
        shows: "a warm-up and the second version stay, and a dropped line is counted",
        trace: b"1 1 1\n2 2 1\n3 3 1\n3 9 0\n4 1 1\n5 2 1\n6 3 1\n",
        cert: b"cache-bound-certificate 2\nobjective object\ncapacity 2\nrequests 6\nunit 1\n\
denominator 1\nform plain\nupper 3\nflow 0\nlower 1\nwarmup 5\nrecords\n1 0 0\n0 0 0\n1 0\n0 0\n0 0\n0 0\nend\n",
        report: Refined("3/1 1/1, 6 3 1, 2 object, plain, 1 2 1, 1/1 1, 0/1, 1, valid, warmup 5"),
        made: b"cache-bound-certificate 2\nobjective object\ncapacity 2\nrequests 6\nunit 1\n\
denominator 1\nform plain\nupper 1\nflow 0\nlower 1\nwarmup 5\nrecords\n0 0\n0 0\n1 0\n0 0\n0 0\n0 0\nend\n",
        ..LOOSE
    },
    Row {
        shows: "no request at all",
        trace: b"",
        cert: b"cache-bound-certificate 1\nobjective object\ncapacity 10\nrequests 0\nunit 1\n\
denominator 1\nform plain\nupper 0\nflow 0\nlower 0\nrecords\nend\n",
        report: Refined("0/1 0/1, 0 0 0, 10 object, plain, 1 10 1, 0/1 0, 0/1, 0, valid"),
        made: b"cache-bound-certificate 1\nobjective object\ncapacity 10\nrequests 0\nunit 1\n\
denominator 1\nform plain\nupper 0\nflow 0\nlower 0\nrecords\nend\n",
        ..LOOSE
    },
    Row {
        shows: "an upper bound that is not that of the prices",
        cert: b"cache-bound-certificate 1\nobjective object\ncapacity 2\nrequests 6\nunit 1\n\
denominator 1\nform exact\nupper 3\nflow 2\nlower 2\nrecords\n0 1 1\n0 1 1\n1 0 0\n0 0 0\n0 0 0\n0 0 0\nend\n",
        status: Status::Invalid {
            line: 18,
            kind: InvalidKind::UpperDiffers {
                written: 3,
                counted: 2,
            },
        },
        report: Text(b"invalid line 18: upper differs 3 2\n"),
        made: b"",
        ..LOOSE
    },
];

fn check_first_refinements(rt: &impl Abort, alloc: Global) {
    check_all(alloc, &FIRST_REFINEMENTS).expect(rt, "a row");
}

fn check_second_refinements(rt: &impl Abort, alloc: Global) {
    check_all(alloc, &SECOND_REFINEMENTS).expect(rt, "a row");
}

#[test]
fn refinements_lower_the_upper_bound_alone(rt: HostRuntime) {
    check_first_refinements(&rt, rt.alloc());
    check_second_refinements(&rt, rt.alloc());
}

const REFUSED: [Row<'static>; 3] = [
    Row {
        shows: "a bad line of the trace",
        trace: b"1 1 1\n2 x 1\n",
        status: Status::BadLine {
            line: 2,
            kind: LineKind::BadNumber { word: 2 },
        },
        report: Text(b"bad line 2: number in word 2\n"),
        made: b"",
        ..LOOSE
    },
    Row {
        shows: "the first read of the trace fails",
        fails: Some((Device::Trace, 1)),
        status: Status::TraceFault,
        report: Text(b"trace fault\n"),
        made: b"",
        ..LOOSE
    },
    Row {
        shows: "the first read of the certificate fails",
        fails: Some((Device::Cert, 1)),
        status: Status::CertFault,
        report: Text(b"certificate fault\n"),
        made: b"",
        ..LOOSE
    },
];

#[test]
fn a_refinement_that_is_refused_makes_nothing(rt: HostRuntime) {
    check_all(rt.alloc(), &REFUSED).expect(&rt, "a row");
}

#[test]
fn a_failed_write_of_the_certificate_is_a_made_fault(rt: HostRuntime) {
    let failing = Row {
        status: Status::MadeFault,
        report: Text(b"made fault\n"),
        ..LOOSE
    };
    check_made_writes(rt.alloc(), &failing).expect(&rt, "a row");
}
