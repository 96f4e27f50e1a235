//! Runs of some size, whose numbers follow from the shape of their traces.
use bound_report::LimitName;
use bound_run::Status;
use compared::{holds, same};
use whole_runs::Said::{Bounds, Text};
use whole_runs::{GOOD, Row, check, done};

// Each interval covers the step between the two rounds, where 500,000 blocks fit.
const TWICE: Row<'static> = Row {
    shows: "600,000 blocks in order, and once more",
    words: "bounds t c format=arc capacity=256000000 mode=infinite",
    trace: b"0 600000\n0 600000\n",
    report: Bounds(
        "1200000 600000 0, 256000000 object, infinite form plain, 512 500000 1, 600000, 600000/1 600000, 0/1, 500000",
    ),
    room: 1 << 24,
    ..GOOD
};

// A schedule that goes through each step of each interval that it keeps would take hours.
#[test]
fn a_schedule_does_not_go_through_each_step(rt: HostRuntime) {
    let ended = done(rt.alloc(), &TWICE).expect(&rt, "a run");
    let report = TWICE.report.text(rt.alloc()).expect(&rt, "a report");
    same(TWICE.shows, ended.report.as_slice(), report.as_bytes()).expect(&rt, "a row");
    drop(ended);
}

#[test]
fn a_demo_of_some_size_ends_in_windows(rt: HostRuntime) {
    let large = Row {
        shows: "40 windows",
        words: "demo requests=20000 objects=1000 window=500",
        trace: b"",
        ..GOOD
    };
    let begins = b"demo seed 1 requests 20000 objects 1000 capacity 65536\n";
    let ended = done(rt.alloc(), &large).expect(&rt, "a run");
    holds(large.shows, ended.report.starts_with(begins)).expect(&rt, "a row");
    drop(ended);
}

// 2^61 blocks, of which none is numbered.
const TOO_MANY: Row<'static> = Row {
    shows: "a line that asks for more blocks than a trace may have",
    words: "replay t format=arc capacity=512 policy=lru",
    trace: b"0 2305843009213693952\n",
    status: Status::Limit(LimitName::Requests),
    report: Text(b"limit: requests 33554432\n"),
    made: b"",
    ..GOOD
};

#[test]
fn a_line_past_the_limit_is_refused_at_once(rt: HostRuntime) {
    check(rt.alloc(), &TOO_MANY).expect(&rt, "a row");
}
