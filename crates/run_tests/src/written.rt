//! Runs that count written bytes. The numbers were worked out by hand.
use crate::bounds::{CYCLE, FLOW_PAIR};
use bound_run::{Status, WordFault};
use bound_terms::WordKind;
use std::alloc::Global;
use std::process::Abort;
use whole_runs::Said::{Bounds, Text};
use whole_runs::{CYCLE_TRACE, GOOD, Row, check_all, check_report_writes};

const PAIR_WRITES: Row<'static> = Row {
    shows: "the pair is written once",
    words: "bounds t c format=webcache capacity=10 writes=count",
    report: Bounds(
        "2 1 0, 10 object, flow window all form exact, 4 2 1, 1, 1/1 1, 1/1, 1, writes 4",
    ),
    ..FLOW_PAIR
};

const BOUNDS: [Row<'static>; 4] = [
    PAIR_WRITES,
    Row {
        shows: "two of three objects are written, and only by their first requests",
        words: "bounds t c format=webcache capacity=2 mode=infinite writes=count",
        report: Bounds("6 3 0, 2 object, infinite form plain, 1 2 1, 3, 3/1 3, 0/1, 2, writes 2"),
        ..CYCLE
    },
    Row {
        shows: "what came in before the warm-up was not written after it",
        words: "bounds t c format=webcache capacity=2 warmup=5 writes=count",
        trace: CYCLE_TRACE,
        report: Bounds(
            "6 3 0, 2 object, flow window all form exact, 1 2 1, 1, 1/1 1, 1/1, 1, writes 0, warmup 5",
        ),
        made: b"cache-bound-certificate 1\nobjective object\ncapacity 2\nrequests 6\nunit 1\n\
denominator 1\nform exact\nupper 1\nflow 1\nlower 1\nwarmup 5\nrecords\n0 0 0\n0 0 0\n0 1 1\n0 0 0\n0 0 0\n0 0 0\nend\n",
        ..GOOD
    },
    Row {
        shows: "a request that only fills brings in what the next one hits",
        words: "bounds t c format=webcache capacity=10 mode=infinite count=reads writes=count",
        trace: b"1 7 4 r\n2 7 4 w\n3 7 4 r\n",
        report: Bounds(
            "3 1 0, counted 2, 10 object, infinite form plain, 4 2 1, 1, 1/1 1, 0/1, 1, writes 4",
        ),
        made: b"cache-bound-certificate 1\nobjective object\ncapacity 10\nrequests 3\nunit 4\n\
denominator 1\nform plain\nupper 1\nflow 0\nlower 1\nrecords\n0 0 0\n0 1 0\n0 0 0\nend\n",
        ..GOOD
    },
];

#[test]
fn bounds_count_what_their_schedule_writes(rt: HostRuntime) {
    check_all(rt.alloc(), &BOUNDS).expect(&rt, "a row");
}

// Sizes 2, 2, 2, 3, 2, 2 of objects 1, 2, 1, 3, 1, 2.
const SIZES: Row<'static> = Row {
    shows: "each of the four misses of LRU is written",
    words: "replay t format=webcache capacity=5 policy=lru writes=count",
    trace: b"1 1 2\n2 2 2\n3 1 2\n4 3 3\n5 1 2\n6 2 2\n",
    report: Text(
        b"trace requests 6 objects 3 dropped 0\npolicy lru capacity 5\nhits 2 bytes 4\nwrites 9\n",
    ),
    made: b"",
    ..GOOD
};

const FIRST_REPLAYS: [Row<'static>; 3] = [
    SIZES,
    Row {
        shows: "Belady's rule doesn't write an object that it would evict at once",
        words: "replay t format=webcache capacity=5 policy=belady writes=count",
        report: Text(
            b"trace requests 6 objects 3 dropped 0\npolicy belady capacity 5\nhits 3 bytes 6\nwrites 4\n",
        ),
        ..SIZES
    },
    Row {
        shows: "they aren't counted if none are asked for",
        words: "replay t format=webcache capacity=5 policy=lru writes=none",
        report: Text(
            b"trace requests 6 objects 3 dropped 0\npolicy lru capacity 5\nhits 2 bytes 4\n",
        ),
        ..SIZES
    },
];

const SECOND_REPLAYS: [Row<'static>; 4] = [
    Row {
        shows: "they are counted from the warm-up on",
        words: "replay t format=webcache capacity=5 policy=lru writes=count warmup=3",
        report: Text(
            b"trace requests 6 objects 3 dropped 0\npolicy lru capacity 5\nhits 1 bytes 2\nwrites 5\nwarmup 3\n",
        ),
        ..SIZES
    },
    Row {
        shows: "what a request only fills is written anew, and a read that hits writes nothing",
        words: "replay t format=webcache capacity=5 policy=lru count=reads writes=count",
        trace: b"1 1 2 r\n2 1 2 w\n3 2 3 w\n4 1 2 r\n",
        report: Text(
            b"trace requests 4 objects 2 dropped 0\ncounted 2\npolicy lru capacity 5\nhits 1 bytes 2\nwrites 7\n",
        ),
        ..SIZES
    },
    Row {
        shows: "the same with a warm-up",
        words: "replay t format=webcache capacity=5 policy=lru count=reads warmup=1 writes=count",
        trace: b"1 1 2 r\n2 1 2 w\n3 2 3 w\n4 1 2 r\n",
        report: Text(
            b"trace requests 4 objects 2 dropped 0\ncounted 1\npolicy lru capacity 5\nhits 1 bytes 2\nwrites 5\nwarmup 1\n",
        ),
        ..SIZES
    },
    Row {
        shows: "an object above the capacity is never written",
        words: "replay t format=webcache capacity=5 policy=lru writes=count",
        trace: b"1 1 9\n2 1 9\n",
        report: Text(
            b"trace requests 2 objects 1 dropped 0\npolicy lru capacity 5\nhits 0 bytes 0\nwrites 0\n",
        ),
        ..SIZES
    },
];

fn check_first_replays(rt: &impl Abort, alloc: Global) {
    check_all(alloc, &FIRST_REPLAYS).expect(rt, "a row");
}

fn check_second_replays(rt: &impl Abort, alloc: Global) {
    check_all(alloc, &SECOND_REPLAYS).expect(rt, "a row");
}

#[test]
fn replays_count_what_they_write(rt: HostRuntime) {
    check_first_replays(&rt, rt.alloc());
    check_second_replays(&rt, rt.alloc());
}

// Objects 1 and 2 of 2 and 3 bytes, of which each is hit once.
const JUDGED: Row<'static> = Row {
    shows: "each object must be written once",
    words: "judge t h format=webcache capacity=5 writes=count",
    trace: b"1 1 2\n2 2 3\n3 1 2\n4 2 3\n",
    cert: b"0\n0\n1\n1\n",
    report: Text(
        b"trace requests 4 objects 2 dropped 0\njudged capacity 5\nhits 2 bytes 5\nwrites 5\npossible\n",
    ),
    made: b"",
    ..GOOD
};

const JUDGEMENTS: [Row<'static>; 4] = [
    JUDGED,
    Row {
        shows: "an object that is not hit need not be written",
        cert: b"0\n0\n0\n1\n",
        report: Text(
            b"trace requests 4 objects 2 dropped 0\njudged capacity 5\nhits 1 bytes 3\nwrites 3\npossible\n",
        ),
        ..JUDGED
    },
    Row {
        shows: "what must be written in the warm-up isn't counted",
        words: "judge t h format=webcache capacity=5 warmup=1 writes=count",
        report: Text(
            b"trace requests 4 objects 2 dropped 0\njudged capacity 5\nhits 2 bytes 5\nwrites 3\npossible\nwarmup 1\n",
        ),
        ..JUDGED
    },
    Row {
        shows: "a write that hits is written anew if its object is hit again",
        words: "judge t h format=webcache capacity=5 count=reads writes=count",
        trace: b"1 1 2 r\n2 2 3 r\n3 1 2 w\n4 2 3 r\n5 1 2 r\n",
        cert: b"0\n0\n1\n1\n1\n",
        report: Text(
            b"trace requests 5 objects 2 dropped 0\ncounted 4\njudged capacity 5\nhits 2 bytes 5\nwrites 7\npossible\n",
        ),
        ..JUDGED
    },
];

#[test]
fn judgements_count_what_their_hits_must_write(rt: HostRuntime) {
    check_all(rt.alloc(), &JUDGEMENTS).expect(&rt, "a row");
}

const REFUSED: [Row<'static>; 3] = [
    Row {
        shows: "a value that is none",
        words: "replay t writes=yes format=webcache capacity=5 policy=lru",
        status: Status::Words(WordFault {
            place: 3,
            kind: WordKind::BadValue,
        }),
        report: Text(b"words: place 3: bad value\n"),
        ..SIZES
    },
    Row {
        shows: "a check counts no written bytes",
        words: "check t c format=webcache writes=count",
        status: Status::Words(WordFault {
            place: 5,
            kind: WordKind::Unknown,
        }),
        report: Text(b"words: place 5: unknown\n"),
        ..SIZES
    },
    Row {
        shows: "twice",
        words: "judge t h format=webcache capacity=5 writes=count writes=count",
        status: Status::Words(WordFault {
            place: 7,
            kind: WordKind::Twice,
        }),
        report: Text(b"words: place 7: twice\n"),
        ..JUDGED
    },
];

#[test]
fn words_that_ask_wrongly_for_written_bytes_are_refused(rt: HostRuntime) {
    check_all(rt.alloc(), &REFUSED).expect(&rt, "a row");
}

#[test]
fn a_failed_write_of_the_report_is_its_fault(rt: HostRuntime) {
    let failing = Row {
        status: Status::ReportFault,
        ..SIZES
    };
    check_report_writes(rt.alloc(), &failing).expect(&rt, "a row");
}
