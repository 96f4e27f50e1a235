//! Curves over capacities: their reports, and how they end. Hits and bounds were worked out by hand.
use bound_run::{Status, WordFault};
use bound_terms::WordKind;
use std::alloc::Global;
use std::process::Abort;
use trace_lines::LineKind;
use whole_runs::Said::Text;
use whole_runs::{CYCLE_TRACE, Device, GOOD, Row, check_all, check_reads, check_report_writes};

// At capacity 1 the price 4 is best, whose bound is 5 * 4 + 4.
const SIX: Row<'static> = Row {
    shows: "six requests of three objects",
    words: "curve t format=webcache capacities=1,2,3 denominator=12",
    trace: b"1 1 1\n2 2 1\n3 1 1\n4 3 1\n5 2 1\n6 1 1\n",
    report: Text(
        b"trace requests 6 objects 3 dropped 0\n\
curve objective object denominator 12\n\
capacity 1 lru 0 bytes 0 upper 24/12 floor 2\n\
capacity 2 lru 1 bytes 1 upper 36/12 floor 3\n\
capacity 3 lru 3 bytes 3 upper 36/12 floor 3\n",
    ),
    made: b"",
    ..GOOD
};

const FIRST_POINTS: [Row<'static>; 3] = [
    SIX,
    // At capacity 2 the unit is 2, and at 3 it is 1, and the price 3 gives 3 * 9.
    Row {
        shows: "what is larger than the capacity is not let in",
        words: "curve t objective=bytes capacities=1,2,3,4,5 denominator=6 format=webcache",
        trace: b"1 1 2\n2 2 3\n3 1 2\n4 2 3\n",
        report: Text(
            b"trace requests 4 objects 2 dropped 0\n\
curve objective bytes denominator 6\n\
capacity 1 lru 0 bytes 0 upper 0/6 floor 0\n\
capacity 2 lru 1 bytes 2 upper 12/6 floor 2\n\
capacity 3 lru 0 bytes 0 upper 27/6 floor 4\n\
capacity 4 lru 0 bytes 0 upper 30/6 floor 5\n\
capacity 5 lru 2 bytes 5 upper 30/6 floor 5\n",
        ),
        ..SIX
    },
    // At capacity 1 the price 4 gives 5 * 4.
    Row {
        shows: "hits count from the warm-up on",
        words: "curve t format=webcache capacities=1,3 denominator=12 warmup=3",
        report: Text(
            b"trace requests 6 objects 3 dropped 0\n\
curve objective object denominator 12\n\
capacity 1 lru 0 bytes 0 upper 20/12 floor 1\n\
capacity 3 lru 2 bytes 2 upper 24/12 floor 2\n\
warmup 3\n",
        ),
        ..SIX
    },
];

const SECOND_POINTS: [Row<'static>; 2] = [
    Row {
        shows: "reads alone count",
        words: "curve t format=msr block=512 count=reads capacities=512 denominator=2",
        trace: b"1,h,0,Read,0,512,1\n2,h,0,Write,512,512,1\n3,h,0,Read,512,512,1\n4,h,0,Write,0,512,1\n",
        report: Text(
            b"trace requests 4 objects 2 dropped 0\n\
counted 2\n\
curve objective object denominator 2\n\
capacity 512 lru 1 bytes 512 upper 2/2 floor 1\n",
        ),
        ..SIX
    },
    Row {
        shows: "no request",
        words: "curve t format=webcache capacities=7",
        trace: b"",
        report: Text(
            b"trace requests 0 objects 0 dropped 0\n\
curve objective object denominator 281474976710656\n\
capacity 7 lru 0 bytes 0 upper 0/281474976710656 floor 0\n",
        ),
        ..SIX
    },
];

fn check_first_points(rt: &impl Abort, alloc: Global) {
    check_all(alloc, &FIRST_POINTS).expect(rt, "a row");
}

fn check_second_points(rt: &impl Abort, alloc: Global) {
    check_all(alloc, &SECOND_POINTS).expect(rt, "a row");
}

#[test]
fn each_capacity_has_its_hits_and_its_bound(rt: HostRuntime) {
    check_first_points(&rt, rt.alloc());
    check_second_points(&rt, rt.alloc());
}

const REFUSED: [Row<'static>; 3] = [
    Row {
        shows: "a bad line",
        trace: b"1 1 2\n2 x 4\n",
        status: Status::BadLine {
            line: 2,
            kind: LineKind::BadNumber { word: 2 },
        },
        report: Text(b"bad line 2: number in word 2\n"),
        ..SIX
    },
    Row {
        shows: "capacities that don't ascend",
        words: "curve t format=webcache capacities=1,3,3",
        status: Status::Words(WordFault {
            place: 4,
            kind: WordKind::BadValue,
        }),
        report: Text(b"words: place 4: bad value\n"),
        ..SIX
    },
    Row {
        shows: "an objective without capacities",
        words: "curve t objective=bytes format=webcache",
        trace: CYCLE_TRACE,
        status: Status::Words(WordFault {
            place: 3,
            kind: WordKind::Unknown,
        }),
        report: Text(b"words: place 3: unknown\n"),
        ..SIX
    },
];

#[test]
fn curves_over_capacities_end_as_their_trace_does(rt: HostRuntime) {
    check_all(rt.alloc(), &REFUSED).expect(&rt, "a row");
}

#[test]
fn a_failed_read_is_the_traces_fault(rt: HostRuntime) {
    let failing = Row {
        status: Status::TraceFault,
        report: Text(b"trace fault\n"),
        ..SIX
    };
    check_reads(rt.alloc(), Device::Trace, SIX.trace.len() + 1, &failing).expect(&rt, "a row");
}

#[test]
fn a_failed_write_is_the_reports_fault(rt: HostRuntime) {
    let failing = Row {
        status: Status::ReportFault,
        ..SIX
    };
    check_report_writes(rt.alloc(), &failing).expect(&rt, "a row");
}
