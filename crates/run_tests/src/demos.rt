//! Demos: what they print, and how they end.
use bound_base::read_u64;
use bound_report::LimitName;
use bound_run::Status;
use compared::{holds, same};
use std::process::Abort;
use std::str;
use whole_runs::Said::Text;
use whole_runs::{Device, GOOD, Row, check, check_report_writes, done};

// Every request is of one object of size 1, whatever the generator draws.
const ONE_OBJECT: Row<'static> = Row {
    shows: "a thousand requests of one object",
    words: "demo requests=1000 objects=1",
    trace: b"",
    report: Text(
        b"demo seed 1 requests 1000 objects 1 capacity 65536\ntrace requests 1000 objects 1 dropped 0\n\
capacity 65536 objective object\nmode flow window all form exact\nunit 1 units 65536 denominator 1\n\
intervals 999\nupper 999/1 floor 999\nflow 999/1\nlower 999\ncheck valid\n\
replay lru hits 999 bytes 999\nreplay fifo hits 999 bytes 999\nreplay clock hits 999 bytes 999\n\
replay lfu hits 999 bytes 999\nreplay belady hits 999 bytes 999\n",
    ),
    made: b"",
    ..GOOD
};

#[test]
fn a_demo_shows_bounds_check_and_replays(rt: HostRuntime) {
    check(rt.alloc(), &ONE_OBJECT).expect(&rt, "a row");
}

#[test]
fn a_demo_reads_nothing(rt: HostRuntime) {
    let failing = Row {
        fails: Some((Device::Trace, 1)),
        ..ONE_OBJECT
    };
    check(rt.alloc(), &failing).expect(&rt, "a row");
    let failing = Row {
        fails: Some((Device::Made, 1)),
        ..ONE_OBJECT
    };
    check(rt.alloc(), &failing).expect(&rt, "a row");
}

#[test]
fn a_failed_write_is_the_reports_fault(rt: HostRuntime) {
    let failing = Row {
        words: "demo requests=1 objects=1 mode=infinite",
        report: Text(b"demo seed 1 requests 1 objects 1 capacity 65536\n"),
        status: Status::ReportFault,
        ..ONE_OBJECT
    };
    check_report_writes(rt.alloc(), &failing).expect(&rt, "a row");
}

#[test]
fn a_denominator_past_its_limit_is_refused(rt: HostRuntime) {
    let refused = Row {
        words: "demo denominator=exact",
        report: Text(b"limit: denominator 281474976710656\n"),
        status: Status::Limit(LimitName::Denominator),
        ..ONE_OBJECT
    };
    check(rt.alloc(), &refused).expect(&rt, "a row");
}

// The hits of the usual demo, as a program in another language counted them, which draws the words by itself.
const USUAL_REPLAYS: &[u8] = b"check valid\nreplay lru hits 445 bytes 848448\n\
replay fifo hits 445 bytes 861591\nreplay clock hits 472 bytes 907809\n\
replay lfu hits 486 bytes 961435\nreplay belady hits 1085 bytes 2109414\n";

#[test]
fn the_usual_demo_has_these_hits(rt: HostRuntime) {
    let usual = Row {
        shows: "the usual demo, but for the mode",
        words: "demo mode=infinite",
        ..ONE_OBJECT
    };
    let ended = done(rt.alloc(), &usual).expect(&rt, "a run");
    let begins =
        b"demo seed 1 requests 2000 objects 200 capacity 65536\ntrace requests 2000 objects 186 dropped 0\n";
    holds("what is asked", ended.report.starts_with(begins)).expect(&rt, "a row");
    holds("the hits", ended.report.ends_with(USUAL_REPLAYS)).expect(&rt, "a row");
    holds("nothing is made", ended.made.is_empty()).expect(&rt, "a row");
    drop(ended);
}

const WINDOWED: Row<'static> = Row {
    shows: "a demo in windows",
    words: "demo window=100",
    ..ONE_OBJECT
};

// The number that stands after a word of a line, or 0 if the line has no such word.
fn number_after(line: &str, word: &str) -> u64 {
    let Some((_, rest)) = line.split_once(word) else {
        return 0;
    };
    let number = rest.split(' ').next().unwrap_or("");
    read_u64(number.as_bytes()).unwrap_or(0)
}

// The greatest number after a word in the lines of a report.
fn greatest_after(report: &[u8], word: &str) -> u64 {
    let mut greatest = 0;
    for line in str::from_utf8(report).unwrap_or("").lines() {
        greatest = greatest.max(number_after(line, word));
    }
    greatest
}

#[test]
fn a_demo_is_the_same_again_and_its_hits_are_within_the_bound(rt: HostRuntime) {
    let first = done(rt.alloc(), &WINDOWED).expect(&rt, "a run");
    let second = done(rt.alloc(), &WINDOWED).expect(&rt, "a run");
    same(
        "two demos",
        second.report.as_slice(),
        first.report.as_slice(),
    )
    .expect(&rt, "a row");
    let floor = greatest_after(&first.report, " floor ");
    let hits = greatest_after(&first.report, " hits ");
    holds("some hits", hits > 0).expect(&rt, "a row");
    holds("hits within the bound", hits <= floor).expect(&rt, "a row");
    drop(first);
    drop(second);
}
