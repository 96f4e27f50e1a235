//! Runs in mode flow. The numbers were worked out by hand. Which of several best flows is written is free, so the
//! certificate is tried by its check.
use crate::bounds::APART;
use compared::{holds, same};
use std::alloc::Global;
use std::process::Abort;
use std::str;
use whole_runs::Said::Bounds;
use whole_runs::{CYCLE_TRACE, GOOD, Row, check, check_accepted, done};

// What is asked for, the form of the trace first, and what the report says. The value of the flows may be any.
#[derive(Clone, Copy)]
struct FlowRow<'a> {
    shows: &'a str,
    words: &'a str,
    trace: &'a [u8],
    report: &'a str,
}

// Sizes 2 and 3 by turns.
const TURNS: &[u8] = b"1 1 2\n2 2 3\n3 1 2\n4 2 3\n";

const FIRST_ROWS: [FlowRow<'static>; 4] = [
    FlowRow {
        shows: "three objects in turn, of which two fit",
        words: "bounds t c format=webcache capacity=2",
        trace: CYCLE_TRACE,
        report: "6 3 0, 2 object, flow window all form exact, 1 2 1, 3, 2/1 2, 2/1, 2",
    },
    FlowRow {
        shows: "one window of as many steps",
        words: "bounds t c format=webcache capacity=2 window=6",
        trace: CYCLE_TRACE,
        report: "6 3 0, 2 object, flow window 6 form exact, 1 2 1, 3, 2/1 2, 2/1, 2",
    },
    FlowRow {
        shows: "two windows",
        words: "bounds t c format=webcache capacity=2 window=3",
        trace: CYCLE_TRACE,
        report: "6 3 0, 2 object, flow window 3 form plain, 1 2 1, 3, 3/1 3, any, 2",
    },
    FlowRow {
        shows: "two objects of one size, of which one fits",
        words: "bounds t c format=webcache capacity=3",
        trace: b"1 1 2\n2 2 2\n3 1 2\n4 2 2\n",
        report: "4 2 0, 3 object, flow window all form exact, 2 1 1, 2, 1/1 1, 1/1, 1",
    },
];

const SECOND_ROWS: [FlowRow<'static>; 4] = [
    FlowRow {
        shows: "a bound that is a fraction",
        words: "bounds t c format=webcache capacity=4",
        trace: TURNS,
        report: "4 2 0, 4 object, flow window all form exact, 1 4 6, 2, 10/6 1, 10/6, 1",
    },
    FlowRow {
        shows: "costs that are rounded",
        words: "bounds t c format=webcache capacity=4 denominator=4",
        trace: TURNS,
        report: "4 2 0, 4 object, flow window all form plain, 1 4 4, 2, 8/4 2, any, 1",
    },
    FlowRow {
        shows: "bytes of two objects that fit together",
        words: "bounds t c format=webcache capacity=5 objective=bytes",
        trace: TURNS,
        report: "4 2 0, 5 bytes, flow window all form exact, 1 5 1, 2, 5/1 5, 5/1, 5",
    },
    FlowRow {
        shows: "no request",
        words: "bounds t c format=webcache capacity=10",
        trace: b"",
        report: "0 0 0, 10 object, flow window all form exact, 1 10 1, 0, 0/1 0, 0/1, 0",
    },
];

const THIRD_ROWS: [FlowRow<'static>; 4] = [
    FlowRow {
        shows: "an object above the capacity",
        words: "bounds t c format=webcache capacity=5",
        trace: b"1 1 10\n2 1 10\n",
        report: "2 1 0, 5 object, flow window all form exact, 1 5 1, 0, 0/1 0, 0/1, 0",
    },
    FlowRow {
        shows: "one id with two sizes",
        words: "bounds t c format=webcache capacity=10",
        trace: b"1 1 2\n2 1 3\n",
        report: "2 2 0, 10 object, flow window all form exact, 1 10 1, 0, 0/1 0, 0/1, 0",
    },
    FlowRow {
        shows: "ranges of blocks",
        words: "bounds t c format=arc capacity=1024",
        trace: b"10 3 0 1\n11 2 0 2\n",
        report: "5 3 0, 1024 object, flow window all form exact, 512 2 1, 2, 2/1 2, 2/1, 2",
    },
    FlowRow {
        shows: "the blocks of two reads",
        words: "bounds t c format=msr capacity=12288",
        trace: b"128166372003061629,usr,0,Read,7014609920,24576,41286\n\
128166372003061629,usr,0,Read,7014609920,24576,41286\n",
        report: "14 7 0, 12288 object, flow window all form exact, 4096 3 1, 7, 3/1 3, 3/1, 3",
    },
];

const FOURTH_ROWS: [FlowRow<'static>; 3] = [
    FlowRow {
        shows: "an object that is requested once",
        words: "bounds t c format=webcache capacity=5",
        trace: b"1 1 2\n2 2 2\n3 1 2\n4 3 3\n5 1 2\n6 2 2\n",
        report: "6 3 0, 5 object, flow window all form exact, 2 2 1, 3, 3/1 3, 3/1, 3",
    },
    FlowRow {
        shows: "bytes of large objects",
        words: "bounds t c format=webcache capacity=128 objective=bytes",
        trace: b"1 1 120\n2 2 64\n3 1 120\n4 3 14\n4 1 120\n",
        report: "5 3 0, 128 bytes, flow window all form exact, 120 1 1, 2, 240/1 240, 240/1, 240",
    },
    FlowRow {
        shows: "a least denominator past 2^48",
        words: "bounds t c format=webcache capacity=100000",
        trace: APART,
        report: "6 3 0, 100000 object, flow window all form plain, 1 100000 281474976710656, 3, 844424930131968/281474976710656 3, 844424930034135/281474976710656, 3",
    },
];

// Whether a line is the one that is wanted.
fn is_wanted(got: &str, want: &str) -> bool {
    if want == "flow any" {
        got.starts_with("flow ")
    } else {
        got == want
    }
}

// Whether the report says it, line by line. The last piece is empty, behind the last line's end.
fn check_report(rt: &impl Abort, alloc: Global, row: &FlowRow<'_>, report: &[u8]) {
    let want = Bounds(row.report).text(alloc).expect(rt, "a report");
    let report = str::from_utf8(report).expect(rt, "ASCII");
    let pieces = want.split('\n').count();
    same(row.shows, report.split('\n').count(), pieces).expect(rt, "a row");
    for (got, want) in report.split('\n').zip(want.split('\n')) {
        holds(row.shows, is_wanted(got, want)).expect(rt, "a row");
    }
}

// Runs the row, and checks the certificate that it makes.
fn check_row(rt: &impl Abort, alloc: Global, row: &FlowRow<'_>) {
    let run = Row {
        shows: row.shows,
        words: row.words,
        trace: row.trace,
        ..GOOD
    };
    let ended = done(alloc, &run).expect(rt, "a run");
    check_report(rt, alloc, row, &ended.report);
    let format = row.words.split(' ').nth(3).unwrap_or("");
    let words = format!(in alloc; "check t c {format}").expect(rt, "memory");
    check_accepted(alloc, words.as_str(), row.trace, &ended.made).expect(rt, "a row");
    drop(ended);
}

fn check_first_rows(rt: &impl Abort, alloc: Global) {
    for row in &FIRST_ROWS {
        check_row(rt, alloc, row);
    }
}

fn check_second_rows(rt: &impl Abort, alloc: Global) {
    for row in &SECOND_ROWS {
        check_row(rt, alloc, row);
    }
}

fn check_third_rows(rt: &impl Abort, alloc: Global) {
    for row in &THIRD_ROWS {
        check_row(rt, alloc, row);
    }
}

fn check_fourth_rows(rt: &impl Abort, alloc: Global) {
    for row in &FOURTH_ROWS {
        check_row(rt, alloc, row);
    }
}

#[test]
fn flows_give_their_bounds(rt: HostRuntime) {
    check_first_rows(&rt, rt.alloc());
    check_second_rows(&rt, rt.alloc());
    check_third_rows(&rt, rt.alloc());
    check_fourth_rows(&rt, rt.alloc());
}

const USUAL: Row<'static> = Row {
    shows: "two requests of one object",
    words: "bounds t c format=webcache capacity=10",
    report: Bounds("2 1 0, 10 object, flow window all form exact, 4 2 1, 1, 1/1 1, 1/1, 1"),
    made: b"cache-bound-certificate 1\nobjective object\ncapacity 10\nrequests 2\nunit 4\n\
denominator 1\nform exact\nupper 1\nflow 1\nlower 1\nrecords\n0 1 1\n0 0 0\nend\n",
    ..GOOD
};

#[test]
fn the_flow_is_the_usual_mode(rt: HostRuntime) {
    check(rt.alloc(), &USUAL).expect(&rt, "a row");
}
