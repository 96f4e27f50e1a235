//! Runs over devices of which a call fails.
ghost use Rattle.std.specs.Prelude.{◌≡◌};

use crate::bounds::CYCLE;
use bound_io::{CalmSource, MemSink};
use bound_run::{Status, run};
use compared::same;
use std::alloc::Global;
use trace_lines::LineKind;
use whole_runs::Said::Text;
use whole_runs::{
    CYCLE_TRACE, Device, GOOD, PAIR, PAIR_CERT, Row, WORDS, check_all, check_made_writes,
    check_reads, check_report_writes, done, words_of,
};

// Three objects in turn, of which two fit, in the mode where none is named.
const FLOW: Row<'static> = Row {
    shows: "a call that fails",
    words: "bounds t c format=webcache capacity=2",
    trace: CYCLE_TRACE,
    ..GOOD
};

const ROWS: [Row<'static>; 4] = [
    Row {
        shows: "the second read fails",
        fails: Some((Device::Trace, 2)),
        status: Status::TraceFault,
        report: Text(b"trace fault\n"),
        made: b"",
        ..CYCLE
    },
    Row {
        shows: "the first write of the report fails",
        fails: Some((Device::Report, 1)),
        status: Status::ReportFault,
        report: Text(b""),
        ..CYCLE
    },
    Row {
        shows: "the third write of the certificate fails",
        fails: Some((Device::Made, 3)),
        status: Status::MadeFault,
        report: Text(b"made fault\n"),
        made: b"ca",
        ..CYCLE
    },
    Row {
        shows: "a sink of the certificate without room",
        status: Status::MadeFault,
        report: Text(b"made fault\n"),
        made: b"",
        room: 0,
        ..FLOW
    },
];

#[test]
fn faults_end_the_run(rt: HostRuntime) {
    check_all(rt.alloc(), &ROWS).expect(&rt, "a row");
}

const FAILED_READ: Row<'static> = Row {
    status: Status::TraceFault,
    report: Text(b"trace fault\n"),
    made: b"",
    ..FLOW
};

#[test]
fn a_read_that_fails_is_a_trace_fault(rt: HostRuntime) {
    let reads = CYCLE_TRACE.len() + 1;
    check_reads(rt.alloc(), Device::Trace, reads, &FAILED_READ).expect(&rt, "a row");
}

#[test]
fn a_write_of_the_certificate_that_fails_is_a_made_fault(rt: HostRuntime) {
    let whole = done(rt.alloc(), &FLOW).expect(&rt, "a run");
    let row = Row {
        status: Status::MadeFault,
        report: Text(b"made fault\n"),
        made: &whole.made,
        ..FLOW
    };
    check_made_writes(rt.alloc(), &row).expect(&rt, "a row");
    drop(whole);
}

#[test]
fn a_write_of_the_report_that_fails_is_a_report_fault(rt: HostRuntime) {
    let whole = done(rt.alloc(), &FLOW).expect(&rt, "a run");
    let row = Row {
        status: Status::ReportFault,
        report: Text(&whole.report),
        made: &whole.made,
        ..FLOW
    };
    check_report_writes(rt.alloc(), &row).expect(&rt, "a row");
    drop(whole);
}

const REFUSAL: Row<'static> = Row {
    shows: "a refusal that is cut short",
    trace: b"no trace\n",
    status: Status::BadLine {
        line: 1,
        kind: LineKind::TooFewWords,
    },
    report: Text(b"bad line 1: too few words\n"),
    made: b"",
    ..GOOD
};

#[test]
fn a_refusal_that_is_cut_short_keeps_its_status(rt: HostRuntime) {
    check_report_writes(rt.alloc(), &REFUSAL).expect(&rt, "a row");
}

// Over a trace source that never fails no run answers a fault of it.
fn run_over_calm(
    alloc: Global,
    words: &[String],
    trace: &mut CalmSource,
    cert: &mut CalmSource,
    report: &mut MemSink,
    made: &mut MemSink,
) -> Status
    ensures { result ≡ Status.TraceFault → ⊥ }
{
    run(alloc, words, trace, cert, report, made)
}

#[test]
fn a_calm_source_gives_no_fault(rt: HostRuntime) {
    let alloc = rt.alloc();
    let words = words_of(alloc, WORDS).expect(&rt, "memory");
    let mut trace = CalmSource::new(PAIR.to_vec(alloc).expect(&rt, "memory"));
    let mut cert = CalmSource::new(Vec::new(alloc));
    let mut report = MemSink::new(alloc, 4096, Vec::new(alloc), 7).expect(&rt, "memory");
    let mut made = MemSink::new(alloc, 4096, Vec::new(alloc), 1).expect(&rt, "memory");
    let status = run_over_calm(alloc, &words, &mut trace, &mut cert, &mut report, &mut made);
    same("the status", status, Status::Done).expect(&rt, "a row");
    same("the certificate", made.written(), PAIR_CERT).expect(&rt, "a row");
    drop(made);
    drop(report);
}
