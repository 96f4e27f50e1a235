//! Runs in which reads alone count. The numbers were worked out by hand.
use bound_report::InvalidKind;
use bound_run::Status;
use std::alloc::Global;
use std::process::Abort;
use trace_lines::LineKind;
use whole_runs::Said::{Bounds, Refined, Text, Yes};
use whole_runs::{GOOD, Row, check_all};

const MARKED_CERT: &[u8] =
    b"cache-bound-certificate 1\nobjective object\ncapacity 10\nrequests 3\nunit 4\n\
denominator 1\nform plain\nupper 1\nflow 0\nlower 1\nrecords\n0 0 0\n0 1 0\n0 0 0\nend\n";

const MARKED: Row<'static> = Row {
    shows: "a read after a write is a hit, and the write is none",
    words: "bounds t c format=webcache capacity=10 mode=infinite count=reads",
    trace: b"1 7 4 r\n2 7 4 w\n3 7 4 r\n",
    report: Bounds("3 1 0, counted 2, 10 object, infinite form plain, 4 2 1, 1, 1/1 1, 0/1, 1"),
    made: MARKED_CERT,
    ..GOOD
};

const CHECKED: Row<'static> = Row {
    shows: "a check with the marks says yes",
    words: "check t c format=webcache count=reads",
    cert: MARKED_CERT,
    report: Yes("3 1 0, counted 2, 10 object, plain, 4 2 1, 1/1 1, 0/1, 1, valid"),
    made: b"",
    ..MARKED
};

const REPLAYED: Row<'static> = Row {
    shows: "LRU keeps what a write brought in, and counts the hit of the read",
    words: "replay t format=webcache capacity=10 policy=lru count=reads",
    trace: b"1 7 4 w\n2 7 4 w\n3 7 4 r\n",
    report: Text(
        b"trace requests 3 objects 1 dropped 0\ncounted 1\npolicy lru capacity 10\nhits 1 bytes 4\n",
    ),
    made: b"",
    ..GOOD
};

const FIRST_MARKS: [Row<'static>; 4] = [
    MARKED,
    Row {
        shows: "a request within the warm-up doesn't count",
        words: "replay t format=webcache capacity=10 policy=lru count=reads warmup=1",
        trace: b"1 7 4 r\n2 7 4 r\n3 7 4 w\n",
        report: Text(
            b"trace requests 3 objects 1 dropped 0\ncounted 1\npolicy lru capacity 10\nhits 1 bytes 4\nwarmup 1\n",
        ),
        made: b"",
        ..GOOD
    },
    Row {
        shows: "a warm-up beyond the trace",
        words: "replay t format=webcache capacity=10 policy=lru count=reads warmup=9",
        report: Text(
            b"trace requests 3 objects 1 dropped 0\ncounted 0\npolicy lru capacity 10\nhits 0 bytes 0\nwarmup 9\n",
        ),
        ..REPLAYED
    },
    Row {
        shows: "no request at all",
        trace: b"",
        report: Text(
            b"trace requests 0 objects 0 dropped 0\ncounted 0\npolicy lru capacity 10\nhits 0 bytes 0\n",
        ),
        ..REPLAYED
    },
];

const SECOND_MARKS: [Row<'static>; 4] = [
    Row {
        shows: "a refinement says how many requests count in its third line",
        words: "refine t c m format=webcache window=3 count=reads",
        cert: MARKED_CERT,
        report: Refined("1/1 1/1, 3 1 0, counted 2, 10 object, plain, 4 2 1, 1/1 1, 0/1, 1, valid"),
        ..MARKED
    },
    Row {
        shows: "without the operand a fourth word says nothing",
        words: "bounds t c format=webcache capacity=10 mode=infinite count=all",
        report: Bounds("3 1 0, 10 object, infinite form plain, 4 2 1, 2, 2/1 2, 0/1, 2"),
        made: b"cache-bound-certificate 1\nobjective object\ncapacity 10\nrequests 3\nunit 4\n\
denominator 1\nform plain\nupper 2\nflow 0\nlower 2\nrecords\n0 1 0\n0 1 0\n0 0 0\nend\n",
        ..MARKED
    },
    CHECKED,
    Row {
        shows: "a check without the marks says no",
        words: "check t c format=webcache",
        status: Status::Invalid {
            line: 15,
            kind: InvalidKind::UpperDiffers {
                written: 1,
                counted: 2,
            },
        },
        report: Text(b"invalid line 15: upper differs 1 2\n"),
        ..CHECKED
    },
];

const THIRD_MARKS: [Row<'static>; 4] = [
    REPLAYED,
    Row {
        shows: "a curve counts reads alone",
        words: "curve t format=webcache count=reads",
        report: Text(b"trace requests 3 objects 1 dropped 0\ncounted 1\nsize 4\nslots 1 hits 1\n"),
        ..REPLAYED
    },
    Row {
        shows: "of an MSR trace the type is the mark",
        words: "curve t block=512 count=reads format=msr",
        trace: b"1,h,0,Write,0,512,1\n2,h,0,Read,0,512,1\n3,h,0,write,0,512,1\n",
        report: Text(
            b"trace requests 3 objects 1 dropped 0\ncounted 1\nsize 512\nslots 1 hits 1\n",
        ),
        ..REPLAYED
    },
    Row {
        shows: "a fourth word that is no mark",
        trace: b"1 7 4 r\n2 7 0 x\n",
        status: Status::BadLine {
            line: 2,
            kind: LineKind::BadType,
        },
        report: Text(b"bad line 2: type\n"),
        ..REPLAYED
    },
];

const FOURTH_MARKS: [Row<'static>; 1] = [Row {
    shows: "a line without a mark",
    trace: b"1 7 4 r\n2 7 4\n",
    status: Status::BadLine {
        line: 2,
        kind: LineKind::TooFewWords,
    },
    report: Text(b"bad line 2: too few words\n"),
    ..REPLAYED
}];

fn check_first_marks(rt: &impl Abort, alloc: Global) {
    check_all(alloc, &FIRST_MARKS).expect(rt, "a row");
}

fn check_second_marks(rt: &impl Abort, alloc: Global) {
    check_all(alloc, &SECOND_MARKS).expect(rt, "a row");
}

fn check_third_marks(rt: &impl Abort, alloc: Global) {
    check_all(alloc, &THIRD_MARKS).expect(rt, "a row");
}

fn check_fourth_marks(rt: &impl Abort, alloc: Global) {
    check_all(alloc, &FOURTH_MARKS).expect(rt, "a row");
}

#[test]
fn reads_alone_count_where_that_is_asked_for(rt: HostRuntime) {
    check_first_marks(&rt, rt.alloc());
    check_second_marks(&rt, rt.alloc());
    check_third_marks(&rt, rt.alloc());
    check_fourth_marks(&rt, rt.alloc());
}
