//! Claimed hits: their reports, and why they are refused. The hits and loads were counted by hand.
use bound_report::Impossible;
use bound_run::{Status, WordFault};
use bound_terms::WordKind;
use std::alloc::Global;
use std::process::Abort;
use trace_lines::LineKind;
use whole_runs::Said::Text;
use whole_runs::{Device, GOOD, Row, check_all, check_reads, check_report_writes};

// Objects 1 and 2 of 2 and 3 bytes: each is asked for twice, and the two intervals overlap.
const JUDGED: Row<'static> = Row {
    shows: "two hits that fit just so",
    words: "judge t h format=webcache capacity=5",
    trace: b"1 1 2\n2 2 3\n3 1 2\n4 2 3\n",
    cert: b"0\n0\n1\n1\n",
    report: Text(
        b"trace requests 4 objects 2 dropped 0\njudged capacity 5\nhits 2 bytes 5\npossible\n",
    ),
    made: b"",
    ..GOOD
};

const FIRST_JUDGEMENTS: [Row<'static>; 3] = [
    JUDGED,
    Row {
        shows: "a last line without LF",
        cert: b"0\n0\n0\n1",
        report: Text(
            b"trace requests 4 objects 2 dropped 0\njudged capacity 5\nhits 1 bytes 3\npossible\n",
        ),
        ..JUDGED
    },
    Row {
        shows: "no request and no flag",
        trace: b"",
        cert: b"",
        report: Text(
            b"trace requests 0 objects 0 dropped 0\njudged capacity 5\nhits 0 bytes 0\npossible\n",
        ),
        ..JUDGED
    },
];

const SECOND_JUDGEMENTS: [Row<'static>; 3] = [
    Row {
        shows: "a dropped line has no flag",
        trace: b"1 1 2\n2 9 0\n3 1 2\n",
        cert: b"0\n1\n",
        report: Text(
            b"trace requests 2 objects 1 dropped 1\njudged capacity 5\nhits 1 bytes 2\npossible\n",
        ),
        ..JUDGED
    },
    Row {
        shows: "a hit in the warm-up must be possible, and gains nothing",
        words: "judge t h format=webcache capacity=5 warmup=3",
        report: Text(
            b"trace requests 4 objects 2 dropped 0\njudged capacity 5\nhits 1 bytes 3\npossible\nwarmup 3\n",
        ),
        ..JUDGED
    },
    Row {
        shows: "the hit of a write gains nothing",
        words: "judge t h format=webcache capacity=5 count=reads",
        trace: b"1 1 2 r\n2 2 3 r\n3 1 2 w\n4 2 3 r\n",
        report: Text(
            b"trace requests 4 objects 2 dropped 0\ncounted 3\njudged capacity 5\nhits 1 bytes 3\npossible\n",
        ),
        ..JUDGED
    },
];

fn check_first_judgements(rt: &impl Abort, alloc: Global) {
    check_all(alloc, &FIRST_JUDGEMENTS).expect(rt, "a row");
}

fn check_second_judgements(rt: &impl Abort, alloc: Global) {
    check_all(alloc, &SECOND_JUDGEMENTS).expect(rt, "a row");
}

#[test]
fn possible_hits_are_counted(rt: HostRuntime) {
    check_first_judgements(&rt, rt.alloc());
    check_second_judgements(&rt, rt.alloc());
}

const FIRST_IMPOSSIBLE: [Row<'static>; 3] = [
    Row {
        shows: "a capacity that is one byte too small",
        words: "judge t h format=webcache capacity=4",
        status: Status::Impossible {
            cause: Impossible::Load { step: 1, load: 5 },
            capacity: 4,
        },
        report: Text(b"impossible step 1: load 5 above 4\n"),
        ..JUDGED
    },
    Row {
        shows: "an object that was never asked for",
        cert: b"0\n1\n0\n0\n",
        status: Status::Impossible {
            cause: Impossible::First { request: 1 },
            capacity: 5,
        },
        report: Text(b"impossible request 1: first of its object\n"),
        ..JUDGED
    },
    Row {
        shows: "an object above the capacity",
        words: "judge t h format=webcache capacity=2",
        status: Status::Impossible {
            cause: Impossible::Size {
                request: 3,
                size: 3,
            },
            capacity: 2,
        },
        report: Text(b"impossible request 3: size 3 above 2\n"),
        ..JUDGED
    },
];

const SECOND_IMPOSSIBLE: [Row<'static>; 2] = [
    Row {
        shows: "of a first request above the capacity the size is named",
        words: "judge t h format=webcache capacity=1",
        cert: b"1\n0\n0\n0\n",
        status: Status::Impossible {
            cause: Impossible::Size {
                request: 0,
                size: 2,
            },
            capacity: 1,
        },
        report: Text(b"impossible request 0: size 2 above 1\n"),
        ..JUDGED
    },
    Row {
        shows: "a hit in the warm-up must be possible",
        words: "judge t h format=webcache capacity=4 warmup=4",
        status: Status::Impossible {
            cause: Impossible::Load { step: 1, load: 5 },
            capacity: 4,
        },
        report: Text(b"impossible step 1: load 5 above 4\n"),
        ..JUDGED
    },
];

fn check_first_impossible(rt: &impl Abort, alloc: Global) {
    check_all(alloc, &FIRST_IMPOSSIBLE).expect(rt, "a row");
}

fn check_second_impossible(rt: &impl Abort, alloc: Global) {
    check_all(alloc, &SECOND_IMPOSSIBLE).expect(rt, "a row");
}

#[test]
fn impossible_hits_are_named(rt: HostRuntime) {
    check_first_impossible(&rt, rt.alloc());
    check_second_impossible(&rt, rt.alloc());
}

const BAD_LINE: Status = Status::BadLine {
    line: 2,
    kind: LineKind::TooFewWords,
};

const FIRST_REFUSED: [Row<'static>; 4] = [
    Row {
        shows: "flags that end early",
        cert: b"0\n0\n1\n",
        status: Status::FlagCount {
            flags: 3,
            requests: 4,
        },
        report: Text(b"invalid line 4: request count 3 4\n"),
        ..JUDGED
    },
    Row {
        shows: "flags that go on",
        cert: b"0\n0\n1\n1\n0\n0\n",
        status: Status::FlagCount {
            flags: 5,
            requests: 4,
        },
        report: Text(b"invalid line 5: request count 5 4\n"),
        ..JUDGED
    },
    Row {
        shows: "what follows the last flag is none",
        cert: b"0\n0\n1\n1\n\n",
        status: Status::NotFlag { line: 5 },
        report: Text(b"invalid line 5: flag\n"),
        ..JUDGED
    },
    Row {
        shows: "a carriage return",
        cert: b"0\r\n0\r\n1\r\n1\r\n",
        status: Status::NotFlag { line: 1 },
        report: Text(b"invalid line 1: flag\n"),
        ..JUDGED
    },
];

const SECOND_REFUSED: [Row<'static>; 4] = [
    Row {
        shows: "another byte",
        cert: b"0\n2\n1\n1\n",
        status: Status::NotFlag { line: 2 },
        report: Text(b"invalid line 2: flag\n"),
        ..JUDGED
    },
    Row {
        shows: "a request is read before its flag",
        trace: b"1 1 2\n2 2\n",
        cert: b"0\nx\n",
        status: BAD_LINE,
        report: Text(b"bad line 2: too few words\n"),
        ..JUDGED
    },
    Row {
        shows: "a flag is read before the next request",
        trace: b"1 1 2\n2 2\n",
        cert: b"x\n",
        status: Status::NotFlag { line: 1 },
        report: Text(b"invalid line 1: flag\n"),
        ..JUDGED
    },
    Row {
        shows: "a missing flag comes before the next request",
        trace: b"1 1 2\n2 2\n",
        cert: b"",
        status: Status::FlagCount {
            flags: 0,
            requests: 1,
        },
        report: Text(b"invalid line 1: request count 0 1\n"),
        ..JUDGED
    },
];

const THIRD_REFUSED: [Row<'static>; 2] = [
    Row {
        shows: "no capacity",
        words: "judge t h format=webcache",
        status: Status::Words(WordFault {
            place: 5,
            kind: WordKind::Missing,
        }),
        report: Text(b"words: place 5: missing\n"),
        ..JUDGED
    },
    Row {
        shows: "one standard input for both",
        words: "judge - - format=webcache capacity=5",
        status: Status::Words(WordFault {
            place: 3,
            kind: WordKind::BadValue,
        }),
        report: Text(b"words: place 3: bad value\n"),
        ..JUDGED
    },
];

fn check_first_refused(rt: &impl Abort, alloc: Global) {
    check_all(alloc, &FIRST_REFUSED).expect(rt, "a row");
}

fn check_second_refused(rt: &impl Abort, alloc: Global) {
    check_all(alloc, &SECOND_REFUSED).expect(rt, "a row");
}

fn check_third_refused(rt: &impl Abort, alloc: Global) {
    check_all(alloc, &THIRD_REFUSED).expect(rt, "a row");
}

#[test]
fn claims_are_refused_at_their_first_fault(rt: HostRuntime) {
    check_first_refused(&rt, rt.alloc());
    check_second_refused(&rt, rt.alloc());
    check_third_refused(&rt, rt.alloc());
}

#[test]
fn a_failed_read_of_the_flags_is_theirs(rt: HostRuntime) {
    let failing = Row {
        status: Status::CertFault,
        report: Text(b"certificate fault\n"),
        ..JUDGED
    };
    check_reads(rt.alloc(), Device::Cert, JUDGED.cert.len() + 1, &failing).expect(&rt, "a row");
}

#[test]
fn a_failed_read_is_the_traces_fault(rt: HostRuntime) {
    let failing = Row {
        status: Status::TraceFault,
        report: Text(b"trace fault\n"),
        ..JUDGED
    };
    check_reads(rt.alloc(), Device::Trace, JUDGED.trace.len() + 1, &failing).expect(&rt, "a row");
}

#[test]
fn a_failed_write_is_the_reports_fault(rt: HostRuntime) {
    let failing = Row {
        status: Status::ReportFault,
        ..JUDGED
    };
    check_report_writes(rt.alloc(), &failing).expect(&rt, "a row");
}
