//! Sweeps: their reports, and how they end. The bounds were worked out by a program in Python that tries each edge.
use bound_run::{Status, WordFault};
use bound_terms::WordKind;
use std::alloc::Global;
use std::process::Abort;
use trace_lines::LineKind;
use whole_runs::Said::Text;
use whole_runs::{Device, GOOD, Row, check_all, check_reads, check_report_writes};

const SIX: Row<'static> = Row {
    shows: "six requests of three objects",
    words: "sweep t format=webcache capacities=1,2",
    trace: b"1 1 1\n2 2 1\n3 1 1\n4 3 1\n5 2 1\n6 1 1\n",
    report: Text(
        b"trace requests 6 objects 3 dropped 0\n\
sweep capacities 2 policies 0\n\
capacity 1 object upper 5/2 floor 2\n\
capacity 1 bytes upper 5/2 floor 2\n\
capacity 2 object upper 3/1 floor 3\n\
capacity 2 bytes upper 3/1 floor 3\n",
    ),
    made: b"",
    ..GOOD
};

// The hits of these were counted by hand.
const POLICIES: Row<'static> = Row {
    shows: "two policies at two capacities, in the order of their names",
    words: "sweep t format=webcache capacities=1,2 policies=lfu,lru",
    report: Text(
        b"trace requests 6 objects 3 dropped 0\n\
sweep capacities 2 policies 2\n\
capacity 1 object upper 5/2 floor 2\n\
capacity 1 bytes upper 5/2 floor 2\n\
capacity 1 policy lfu hits 0 bytes 0 writes 6\n\
capacity 1 policy lru hits 0 bytes 0 writes 6\n\
capacity 2 object upper 3/1 floor 3\n\
capacity 2 bytes upper 3/1 floor 3\n\
capacity 2 policy lfu hits 2 bytes 2 writes 4\n\
capacity 2 policy lru hits 1 bytes 1 writes 5\n",
    ),
    ..SIX
};

const FIRST_BOUNDS: [Row<'static>; 4] = [
    SIX,
    Row {
        shows: "what is larger than the capacity is not let in",
        words: "sweep t capacities=2,3 format=webcache",
        trace: b"1 1 2\n2 2 3\n3 1 2\n4 2 3\n5 7 0\n",
        report: Text(
            b"trace requests 4 objects 2 dropped 1\n\
sweep capacities 2 policies 0\n\
capacity 2 object upper 1/1 floor 1\n\
capacity 2 bytes upper 2/1 floor 2\n\
capacity 3 object upper 11/6 floor 1\n\
capacity 3 bytes upper 9/2 floor 4\n",
        ),
        ..SIX
    },
    Row {
        shows: "an object may enter two requests late",
        words: "sweep t format=webcache capacities=1 delay=2",
        report: Text(
            b"trace requests 6 objects 3 dropped 0\n\
sweep capacities 1 policies 0\n\
delay 2\n\
capacity 1 object upper 3/1 floor 3\n\
capacity 1 bytes upper 3/1 floor 3\n",
        ),
        ..SIX
    },
    Row {
        shows: "hits count from the warm-up on",
        words: "sweep t format=webcache capacities=1 warmup=3",
        report: Text(
            b"trace requests 6 objects 3 dropped 0\n\
sweep capacities 1 policies 0\n\
capacity 1 object upper 5/3 floor 1\n\
capacity 1 bytes upper 5/3 floor 1\n\
warmup 3\n",
        ),
        ..SIX
    },
];

const SECOND_BOUNDS: [Row<'static>; 3] = [
    Row {
        shows: "objects expire and are replaced, and a time goes back",
        words: "sweep t format=webcache capacities=4 idle=5 replace=yes",
        trace: b"5 1 2\n7 2 1\n9 1 2\n8 1 3\n12 1 2\n20 2 1\n20 1 2\n",
        report: Text(
            b"trace requests 7 objects 3 dropped 0\n\
sweep capacities 1 policies 0\n\
idle 5\n\
late 1\n\
stale 3\n\
capacity 4 object upper 1/1 floor 1\n\
capacity 4 bytes upper 2/1 floor 2\n",
        ),
        ..SIX
    },
    Row {
        shows: "reads alone count",
        words: "sweep t format=msr block=512 count=reads capacities=512",
        trace: b"1,h,0,Read,0,512,1\n2,h,0,Write,512,512,1\n3,h,0,Read,512,512,1\n4,h,0,Write,0,512,1\n",
        report: Text(
            b"trace requests 4 objects 2 dropped 0\n\
counted 2\n\
sweep capacities 1 policies 0\n\
capacity 512 object upper 1/1 floor 1\n\
capacity 512 bytes upper 512/1 floor 512\n",
        ),
        ..SIX
    },
    Row {
        shows: "no request, and the longest warm-up",
        words: "sweep t format=webcache capacities=7 warmup=4294967295",
        trace: b"",
        report: Text(
            b"trace requests 0 objects 0 dropped 0\n\
sweep capacities 1 policies 0\n\
capacity 7 object upper 0/1 floor 0\n\
capacity 7 bytes upper 0/1 floor 0\n\
warmup 4294967295\n",
        ),
        ..SIX
    },
];

fn check_first_bounds(rt: &impl Abort, alloc: Global) {
    check_all(alloc, &FIRST_BOUNDS).expect(rt, "a row");
}

fn check_second_bounds(rt: &impl Abort, alloc: Global) {
    check_all(alloc, &SECOND_BOUNDS).expect(rt, "a row");
}

#[test]
fn each_capacity_has_its_bounds_and_their_edges(rt: HostRuntime) {
    check_first_bounds(&rt, rt.alloc());
    check_second_bounds(&rt, rt.alloc());
}

const REFUSED: [Row<'static>; 4] = [
    Row {
        shows: "a bad line",
        trace: b"1 1 2\n2 x 4\n",
        status: Status::BadLine {
            line: 2,
            kind: LineKind::BadNumber { word: 2 },
        },
        report: Text(b"bad line 2: number in word 2\n"),
        ..SIX
    },
    Row {
        shows: "no capacities",
        words: "sweep t format=webcache delay=1",
        status: Status::Words(WordFault {
            place: 5,
            kind: WordKind::Missing,
        }),
        report: Text(b"words: place 5: missing\n"),
        ..SIX
    },
    Row {
        shows: "a delay of 2^32",
        words: "sweep t delay=4294967296 format=webcache capacities=1",
        status: Status::Words(WordFault {
            place: 3,
            kind: WordKind::BadValue,
        }),
        report: Text(b"words: place 3: bad value\n"),
        ..SIX
    },
    Row {
        shows: "a delay of a curve",
        words: "curve t format=webcache capacities=1 delay=1",
        status: Status::Words(WordFault {
            place: 5,
            kind: WordKind::Unknown,
        }),
        report: Text(b"words: place 5: unknown\n"),
        ..SIX
    },
];

const WRONG_POLICIES: [Row<'static>; 3] = [
    Row {
        shows: "a policy that looks ahead",
        words: "sweep t format=webcache capacities=1 policies=lru,belady",
        status: Status::Words(WordFault {
            place: 5,
            kind: WordKind::BadValue,
        }),
        report: Text(b"words: place 5: bad value\n"),
        ..SIX
    },
    Row {
        shows: "a policy that is named twice",
        words: "sweep t format=webcache capacities=1 policies=lru,fifo,lru",
        status: Status::Words(WordFault {
            place: 5,
            kind: WordKind::BadValue,
        }),
        report: Text(b"words: place 5: bad value\n"),
        ..SIX
    },
    Row {
        shows: "policies of a curve",
        words: "curve t format=webcache capacities=1 policies=lru",
        status: Status::Words(WordFault {
            place: 5,
            kind: WordKind::Unknown,
        }),
        report: Text(b"words: place 5: unknown\n"),
        ..SIX
    },
];

#[test]
fn policies_count_at_each_capacity(rt: HostRuntime) {
    check_all(rt.alloc(), &[POLICIES]).expect(&rt, "a row");
    check_all(rt.alloc(), &WRONG_POLICIES).expect(&rt, "a row");
}

#[test]
fn sweeps_end_as_their_trace_does(rt: HostRuntime) {
    check_all(rt.alloc(), &REFUSED).expect(&rt, "a row");
}

#[test]
fn a_failed_read_is_the_traces_fault(rt: HostRuntime) {
    let failing = Row {
        status: Status::TraceFault,
        report: Text(b"trace fault\n"),
        ..SIX
    };
    check_reads(rt.alloc(), Device::Trace, SIX.trace.len() + 1, &failing).expect(&rt, "a row");
}

#[test]
fn a_failed_write_is_the_reports_fault(rt: HostRuntime) {
    let failing = Row {
        status: Status::ReportFault,
        ..SIX
    };
    check_report_writes(rt.alloc(), &failing).expect(&rt, "a row");
}
