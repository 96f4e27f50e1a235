//! Replays: their reports, and how they end. The hits were counted by hand.
use bound_run::{Status, WordFault};
use bound_terms::WordKind;
use std::alloc::Global;
use std::process::Abort;
use trace_lines::LineKind;
use whole_runs::Said::Text;
use whole_runs::{CYCLE_TRACE, Device, GOOD, Row, check_all, check_reads, check_report_writes};

const LRU: Row<'static> = Row {
    shows: "least recently used hits no request of a cycle that doesn't fit",
    words: "replay t format=webcache capacity=2 policy=lru",
    trace: CYCLE_TRACE,
    report: Text(b"trace requests 6 objects 3 dropped 0\npolicy lru capacity 2\nhits 0 bytes 0\n"),
    made: b"",
    ..GOOD
};

// Sizes 2, 2, 2, 3, 2, 2 of objects 1, 2, 1, 3, 1, 2, and a line of size 0.
const SIZES_TRACE: &[u8] = b"1 1 2\n2 2 2\n3 1 2\n4 3 3\n5 9 0\n6 1 2\n7 2 2\n";

// Sizes 5, 2, 4 and 1 of objects 0, 1, 3 and 2.
const TODAY_TRACE: &[u8] =
    b"1 0 5\n2 0 5\n3 1 2\n4 3 4\n5 1 2\n6 2 1\n7 3 4\n8 0 5\n9 1 2\n10 0 5\n11 0 5\n12 3 4\n";

const FIRST_REPLAYS: [Row<'static>; 4] = [
    LRU,
    Row {
        shows: "Belady's rule hits as much as the bound",
        words: "replay t format=webcache capacity=2 policy=belady",
        report: Text(
            b"trace requests 6 objects 3 dropped 0\npolicy belady capacity 2\nhits 2 bytes 2\n",
        ),
        ..LRU
    },
    Row {
        shows: "its hits before the warm-up don't count",
        words: "replay t policy=belady warmup=5 capacity=2 format=webcache",
        report: Text(
            b"trace requests 6 objects 3 dropped 0\npolicy belady capacity 2\nhits 0 bytes 0\nwarmup 5\n",
        ),
        ..LRU
    },
    Row {
        shows: "the usual warm-up is none",
        words: "replay t policy=belady warmup=0 capacity=2 format=webcache",
        report: Text(
            b"trace requests 6 objects 3 dropped 0\npolicy belady capacity 2\nhits 2 bytes 2\n",
        ),
        ..LRU
    },
];

const SECOND_REPLAYS: [Row<'static>; 4] = [
    Row {
        shows: "sizes by LRU",
        words: "replay t format=webcache capacity=5 policy=lru",
        trace: SIZES_TRACE,
        report: Text(
            b"trace requests 6 objects 3 dropped 1\npolicy lru capacity 5\nhits 2 bytes 4\n",
        ),
        ..LRU
    },
    Row {
        shows: "sizes by FIFO",
        words: "replay t format=webcache capacity=5 policy=fifo",
        trace: SIZES_TRACE,
        report: Text(
            b"trace requests 6 objects 3 dropped 1\npolicy fifo capacity 5\nhits 1 bytes 2\n",
        ),
        ..LRU
    },
    Row {
        shows: "sizes by CLOCK",
        words: "replay t format=webcache capacity=5 policy=clock",
        trace: SIZES_TRACE,
        report: Text(
            b"trace requests 6 objects 3 dropped 1\npolicy clock capacity 5\nhits 2 bytes 4\n",
        ),
        ..LRU
    },
    Row {
        shows: "sizes by LFU",
        words: "replay t format=webcache capacity=5 policy=lfu",
        trace: SIZES_TRACE,
        report: Text(
            b"trace requests 6 objects 3 dropped 1\npolicy lfu capacity 5\nhits 2 bytes 4\n",
        ),
        ..LRU
    },
];

const THIRD_REPLAYS: [Row<'static>; 4] = [
    Row {
        shows: "two sizes by Belady's rule",
        words: "replay t format=webcache capacity=5 policy=belady",
        trace: SIZES_TRACE,
        report: Text(
            b"trace requests 6 objects 3 dropped 1\npolicy belady capacity 5\nhits 3 bytes 6\n",
        ),
        ..LRU
    },
    Row {
        shows: "sizes by SIEVE",
        words: "replay t format=webcache capacity=10 policy=sieve",
        trace: TODAY_TRACE,
        report: Text(
            b"trace requests 12 objects 4 dropped 0\npolicy sieve capacity 10\nhits 3 bytes 14\n",
        ),
        ..LRU
    },
    Row {
        shows: "sizes by S3-FIFO",
        words: "replay t format=webcache capacity=10 policy=s3fifo",
        trace: TODAY_TRACE,
        report: Text(
            b"trace requests 12 objects 4 dropped 0\npolicy s3fifo capacity 10\nhits 5 bytes 21\n",
        ),
        ..LRU
    },
    Row {
        shows: "sizes by GDSF",
        words: "replay t format=webcache capacity=10 policy=gdsf",
        trace: TODAY_TRACE,
        report: Text(
            b"trace requests 12 objects 4 dropped 0\npolicy gdsf capacity 10\nhits 6 bytes 23\n",
        ),
        ..LRU
    },
];

const FOURTH_REPLAYS: [Row<'static>; 4] = [
    Row {
        shows: "sizes by LFUDA",
        words: "replay t format=webcache capacity=10 policy=lfuda",
        trace: TODAY_TRACE,
        report: Text(
            b"trace requests 12 objects 4 dropped 0\npolicy lfuda capacity 10\nhits 4 bytes 19\n",
        ),
        ..LRU
    },
    Row {
        shows: "sizes by GDSF of 1998",
        words: "replay t format=webcache capacity=10 policy=gdsf98",
        trace: TODAY_TRACE,
        report: Text(
            b"trace requests 12 objects 4 dropped 0\npolicy gdsf98 capacity 10\nhits 6 bytes 24\n",
        ),
        ..LRU
    },
    Row {
        shows: "sizes by W-TinyLFU",
        words: "replay t format=webcache capacity=10 policy=wtinylfu",
        trace: TODAY_TRACE,
        report: Text(
            b"trace requests 12 objects 4 dropped 0\npolicy wtinylfu capacity 10\nhits 6 bytes 24\n",
        ),
        ..LRU
    },
    Row {
        shows: "GDSF after a warm-up",
        words: "replay t format=webcache capacity=10 policy=gdsf warmup=6",
        trace: TODAY_TRACE,
        report: Text(
            b"trace requests 12 objects 4 dropped 0\npolicy gdsf capacity 10\nhits 4 bytes 16\nwarmup 6\n",
        ),
        ..LRU
    },
];

fn check_first_replays(rt: &impl Abort, alloc: Global) {
    check_all(alloc, &FIRST_REPLAYS).expect(rt, "a row");
}

fn check_second_replays(rt: &impl Abort, alloc: Global) {
    check_all(alloc, &SECOND_REPLAYS).expect(rt, "a row");
}

fn check_third_replays(rt: &impl Abort, alloc: Global) {
    check_all(alloc, &THIRD_REPLAYS).expect(rt, "a row");
}

fn check_fourth_replays(rt: &impl Abort, alloc: Global) {
    check_all(alloc, &FOURTH_REPLAYS).expect(rt, "a row");
}

#[test]
fn replays_report_their_hits(rt: HostRuntime) {
    check_first_replays(&rt, rt.alloc());
    check_second_replays(&rt, rt.alloc());
    check_third_replays(&rt, rt.alloc());
    check_fourth_replays(&rt, rt.alloc());
}

const REFUSED: [Row<'static>; 2] = [
    Row {
        shows: "a replay has one path",
        words: "replay",
        status: Status::Words(WordFault {
            place: 2,
            kind: WordKind::Missing,
        }),
        report: Text(b"words: place 2: missing\n"),
        ..LRU
    },
    Row {
        shows: "a bad line",
        trace: b"1 7 4\n2 x 4\n",
        status: Status::BadLine {
            line: 2,
            kind: LineKind::BadNumber { word: 2 },
        },
        report: Text(b"bad line 2: number in word 2\n"),
        ..LRU
    },
];

#[test]
fn replays_end_as_their_trace_does(rt: HostRuntime) {
    check_all(rt.alloc(), &REFUSED).expect(&rt, "a row");
}

#[test]
fn a_failed_read_is_the_traces_fault(rt: HostRuntime) {
    let failing = Row {
        status: Status::TraceFault,
        report: Text(b"trace fault\n"),
        ..LRU
    };
    check_reads(rt.alloc(), Device::Trace, CYCLE_TRACE.len() + 1, &failing).expect(&rt, "a row");
}

#[test]
fn a_failed_write_is_the_reports_fault(rt: HostRuntime) {
    let failing = Row {
        status: Status::ReportFault,
        ..LRU
    };
    check_report_writes(rt.alloc(), &failing).expect(&rt, "a row");
}
