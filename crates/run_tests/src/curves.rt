//! Curves: their reports, and how they end. The hits were counted by hand.
use bound_run::{Status, WordFault};
use bound_terms::WordKind;
use std::alloc::Global;
use std::process::Abort;
use trace_lines::LineKind;
use whole_runs::Said::Text;
use whole_runs::{CYCLE_TRACE, Device, GOOD, Row, check_all, check_reads, check_report_writes};

const CURVE: Row<'static> = Row {
    shows: "six requests of three objects",
    words: "curve t format=webcache",
    trace: b"1 1 1\n2 2 1\n3 1 1\n4 3 1\n5 2 1\n6 1 1\n",
    report: Text(b"trace requests 6 objects 3 dropped 0\nsize 1\nslots 2 hits 1\nslots 3 hits 3\n"),
    made: b"",
    ..GOOD
};

const FIRST_CURVES: [Row<'static>; 3] = [
    CURVE,
    Row {
        shows: "a cycle hits if all of it fits",
        trace: CYCLE_TRACE,
        report: Text(b"trace requests 6 objects 3 dropped 0\nsize 1\nslots 3 hits 3\n"),
        ..CURVE
    },
    Row {
        shows: "no request",
        trace: b"",
        report: Text(b"trace requests 0 objects 0 dropped 0\nsize 0\n"),
        ..CURVE
    },
];

const SECOND_CURVES: [Row<'static>; 3] = [
    Row {
        shows: "objects that are asked for once",
        trace: b"1 1 7\n2 2 7\n",
        report: Text(b"trace requests 2 objects 2 dropped 0\nsize 7\n"),
        ..CURVE
    },
    Row {
        shows: "a line of size 0 is dropped, and has no size",
        trace: b"1 1 4\n2 5 0\n3 1 4\n",
        report: Text(b"trace requests 2 objects 1 dropped 1\nsize 4\nslots 1 hits 1\n"),
        ..CURVE
    },
    Row {
        shows: "blocks have one size",
        words: "curve t block=512 format=msr",
        trace: b"1,h,0,Read,0,1024,1\n2,h,0,Write,512,1,1\n",
        report: Text(b"trace requests 3 objects 2 dropped 0\nsize 512\nslots 1 hits 1\n"),
        ..CURVE
    },
];

fn check_first_curves(rt: &impl Abort, alloc: Global) {
    check_all(alloc, &FIRST_CURVES).expect(rt, "a row");
}

fn check_second_curves(rt: &impl Abort, alloc: Global) {
    check_all(alloc, &SECOND_CURVES).expect(rt, "a row");
}

#[test]
fn curves_report_where_hits_are_added(rt: HostRuntime) {
    check_first_curves(&rt, rt.alloc());
    check_second_curves(&rt, rt.alloc());
}

const REFUSED: [Row<'static>; 3] = [
    Row {
        shows: "two sizes, of which the first object that differs is named",
        trace: b"1 1 2\n2 1 2\n3 2 3\n4 3 4\n5 2 3\n",
        status: Status::Unequal { first: 2, other: 3 },
        report: Text(b"unequal sizes 2 3\n"),
        ..CURVE
    },
    Row {
        shows: "a bad line comes before two sizes",
        trace: b"1 1 2\n2 2 3\n3 x 4\n",
        status: Status::BadLine {
            line: 3,
            kind: LineKind::BadNumber { word: 2 },
        },
        report: Text(b"bad line 3: number in word 2\n"),
        ..CURVE
    },
    Row {
        shows: "a curve has no capacity",
        words: "curve t format=webcache capacity=2",
        status: Status::Words(WordFault {
            place: 4,
            kind: WordKind::Unknown,
        }),
        report: Text(b"words: place 4: unknown\n"),
        ..CURVE
    },
];

#[test]
fn curves_end_as_their_trace_does(rt: HostRuntime) {
    check_all(rt.alloc(), &REFUSED).expect(&rt, "a row");
}

#[test]
fn a_failed_read_is_the_traces_fault(rt: HostRuntime) {
    let failing = Row {
        status: Status::TraceFault,
        report: Text(b"trace fault\n"),
        ..CURVE
    };
    check_reads(rt.alloc(), Device::Trace, CURVE.trace.len() + 1, &failing).expect(&rt, "a row");
}

#[test]
fn a_failed_write_is_the_reports_fault(rt: HostRuntime) {
    let failing = Row {
        status: Status::ReportFault,
        ..CURVE
    };
    check_report_writes(rt.alloc(), &failing).expect(&rt, "a row");
}
