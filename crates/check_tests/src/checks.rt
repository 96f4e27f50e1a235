//! Checks of certificates: valid ones, and such of which a line is spoilt. The answers were worked out by hand.
ghost use Rattle.std.specs.Prelude.{◌≤◌};

use bound_report::InvalidKind;
use bound_run::Status;
use events::{Checked, EXACT_CYCLE, EXACT_PAIR, HEADERS, PAIR_VERDICT};
use records::RECORDS;
use std::alloc::Global;
use std::process::Abort;
use whole_runs::Said::{Text, Yes};
use whole_runs::{
    CYCLE_TRACE, Device, GOOD, PAIR, Row, Said, check_accepted, check_at, check_reads,
    check_report_writes, done,
};

mod events;
mod long;
mod records;

const WORDS: &str = "check t c format=webcache";

const CHECK: Row<'static> = Row {
    shows: "a valid certificate",
    words: WORDS,
    made: b"",
    ..GOOD
};

// The text, of which one line has another text.
fn spoilt(rt: &impl Abort, alloc: Global, cert: &[u8], at: usize, text: &str) -> Vec<u8> {
    let mut bytes = Vec::new(alloc);
    for (before, line) in cert.split_inclusive(|byte| *byte == b'\n').enumerate() {
        if before + 1 == at {
            bytes
                .extend_from_slice(text.as_bytes())
                .expect(rt, "memory");
            bytes.push(b'\n').expect(rt, "memory");
        } else {
            bytes.extend_from_slice(line).expect(rt, "memory");
        }
    }
    bytes
}

// A check, by reads of a byte and of many.
fn expect(rt: &impl Abort, alloc: Global, row: &Row<'_>) {
    check_at(alloc, row, 1).expect(rt, "a row");
    check_at(alloc, row, 65536).expect(rt, "a row");
}

// A check of a certificate, and what comes of it.
fn expect_of<'x>(
    rt: &impl Abort,
    alloc: Global,
    shows: &'x str,
    trace: &'x [u8],
    cert: &'x [u8],
    status: Status,
    report: Said<'x>,
) {
    let row = Row {
        shows,
        trace,
        cert,
        status,
        report,
        ..CHECK
    };
    expect(rt, alloc, &row);
}

fn expect_all(rt: &impl Abort, alloc: Global, rows: &[Checked<'_>]) {
    for row in rows {
        let of = row.of;
        let cert = spoilt(rt, alloc, of.cert(), row.at, row.text);
        let (status, report) = (row.status, row.report);
        expect_of(rt, alloc, row.shows, of.trace(), &cert, status, report);
    }
}

#[test]
fn a_check_ends_at_its_first_event(rt: HostRuntime) {
    expect_all(&rt, rt.alloc(), &HEADERS);
    expect_all(&rt, rt.alloc(), &RECORDS);
}

// The line of the certificate that its first bytes end in.
fn line_at(bytes: &[u8]) -> u64 {
    bytes.iter().filter(|byte| **byte == b'\n').count() as u64 + 1
}

// The check of the first bytes of a certificate.
fn check_prefix(rt: &impl Abort, alloc: Global, prefix: &[u8]) {
    let line = line_at(prefix);
    let report = format!(in alloc; "invalid line {line}: truncated\n").expect(rt, "memory");
    let kind = InvalidKind::Truncated;
    let status = Status::Invalid { line, kind };
    let shows = "a certificate that is cut";
    expect_of(
        rt,
        alloc,
        shows,
        CYCLE_TRACE,
        prefix,
        status,
        Text(report.as_bytes()),
    );
}

#[test]
fn a_certificate_that_is_cut_is_truncated(rt: HostRuntime) {
    for taken in 0..EXACT_CYCLE.len() {
        check_prefix(&rt, rt.alloc(), &EXACT_CYCLE[..taken]);
    }
}

// The check of a certificate of six requests beside the first of them, of which a line has six bytes.
fn check_cut(rt: &impl Abort, alloc: Global, trace: &[u8]) {
    let read = trace.len() as u64 / 6;
    let line = 11 + read;
    let report = format!(in alloc; "invalid line {line}: request count 6 {read}\n").expect(
        rt, "memory",
    );
    let kind = InvalidKind::RequestCount { written: 6, read };
    let status = Status::Invalid { line, kind };
    let shows = "a trace that is cut";
    expect_of(
        rt,
        alloc,
        shows,
        trace,
        EXACT_CYCLE,
        status,
        Text(report.as_bytes()),
    );
}

#[test]
fn a_trace_that_is_cut_has_too_few_requests(rt: HostRuntime) {
    for taken in [0, 6, 12, 18, 24, 30] {
        check_cut(&rt, rt.alloc(), &CYCLE_TRACE[..taken]);
    }
}

// A price of 2^126, which is the greatest.
const DEAR_CERT: &[u8] =
    b"cache-bound-certificate 1\nobjective object\ncapacity 4\nrequests 2\nunit 4\n\
denominator 1\nform plain\nupper 85070591730234615865843651857942052864\nflow 0\nlower 1\nrecords\n\
85070591730234615865843651857942052864 1 0\n0 0 0\nend\n";

const DEAR_VERDICT: Said<'static> = Yes(
    "2 1 0, 4 object, plain, 4 1 1, 85070591730234615865843651857942052864/1 \
85070591730234615865843651857942052864, 0/1, 1, valid",
);

const DEAR_PRICE: &str = "85070591730234615865843651857942052865 1 0";

#[test]
fn a_price_may_be_2_to_the_126_and_no_more(rt: HostRuntime) {
    let alloc = rt.alloc();
    let shows = "a price of 2^126";
    expect_of(
        &rt,
        alloc,
        shows,
        PAIR,
        DEAR_CERT,
        Status::Done,
        DEAR_VERDICT,
    );
    let cert = spoilt(&rt, alloc, DEAR_CERT, 12, DEAR_PRICE);
    let kind = InvalidKind::Range;
    let status = Status::Invalid { line: 12, kind };
    let report = Text(b"invalid line 12: range\n");
    expect_of(&rt, alloc, "one more", PAIR, &cert, status, report);
}

// The check of a certificate with a line that is too long.
fn check_long(rt: &impl Abort, alloc: Global, line: &str) {
    let cert = spoilt(rt, alloc, EXACT_PAIR, 12, line);
    let kind = InvalidKind::TooLong;
    let status = Status::Invalid { line: 12, kind };
    let report = Text(b"invalid line 12: line too long\n");
    let shows = "a line that is too long";
    expect_of(rt, alloc, shows, PAIR, &cert, status, report);
}

#[test]
fn a_line_of_65536_bytes_is_too_long(rt: HostRuntime) {
    let ones = "1".repeat(rt.alloc(), 65532).expect(&rt, "memory");
    let line = format!(in rt.alloc(); "0 1 {ones}").expect(&rt, "memory");
    check_long(&rt, rt.alloc(), &line);
}

const FAILED_READ: Row<'static> = Row {
    shows: "a read that fails",
    trace: CYCLE_TRACE,
    cert: EXACT_CYCLE,
    status: Status::CertFault,
    report: Text(b"certificate fault\n"),
    ..CHECK
};

#[test]
fn a_failed_read_of_the_certificate_is_its_fault(rt: HostRuntime) {
    let reads = EXACT_CYCLE.len() + 1;
    check_reads(rt.alloc(), Device::Cert, reads, &FAILED_READ).expect(&rt, "a row");
}

const FAILED_WRITE: Row<'static> = Row {
    shows: "a write of the verdict that fails",
    cert: EXACT_PAIR,
    status: Status::ReportFault,
    report: PAIR_VERDICT,
    ..CHECK
};

#[test]
fn a_verdict_that_is_cut_short_is_a_report_fault(rt: HostRuntime) {
    check_report_writes(rt.alloc(), &FAILED_WRITE).expect(&rt, "a row");
}

// Sizes of which none divides another, in the webcache form, and blocks of three disks.
const TURNS: &[u8] = b"1 1 2\n2 2 3\n3 1 2\n4 2 3\n5 3 9\n6 3 0\n7 3 9\n";

const BLOCKS: &[u8] = b"1,h,0,Read,0,8192,9\n2,h,1,Write,0,4096,9\n3,h,0,Read,4096,8192,9\n";

// Has a trace bounded, and the certificate checked.
fn expect_accepted<'x>(
    rt: &impl Abort,
    alloc: Global,
    bounds: &'x str,
    check: &'x str,
    trace: &'x [u8],
) {
    let row = Row {
        words: bounds,
        trace,
        ..GOOD
    };
    let ended = done(alloc, &row).expect(rt, "a run");
    check_accepted(alloc, check, trace, &ended.made).expect(rt, "a row");
    drop(ended);
}

const MODES: [&str; 4] = ["mode=constant", "mode=infinite", "mode=flow", "window=2"];

const ASKED: [&str; 6] = [
    "capacity=4 objective=object",
    "capacity=4 objective=bytes",
    "capacity=5 objective=object",
    "capacity=5 objective=bytes",
    "capacity=8192 objective=object",
    "capacity=8192 objective=bytes",
];

// Has the traces of both forms bounded in a mode, and the certificates checked.
fn check_asked(rt: &impl Abort, alloc: Global, mode: &str, asked: &str) {
    let words = format!(in alloc; "bounds t c format=webcache {mode} {asked}").expect(rt, "memory");
    expect_accepted(rt, alloc, &words, "check t c format=webcache", TURNS);
    let words = format!(in alloc; "bounds t c format=msr {mode} {asked}").expect(rt, "memory");
    expect_accepted(rt, alloc, &words, "check t c format=msr", BLOCKS);
}

fn check_mode(rt: &impl Abort, alloc: Global, mode: &str) {
    for asked in &ASKED {
        check_asked(rt, alloc, mode, asked);
    }
}

#[test]
fn what_bounds_write_is_accepted(rt: HostRuntime) {
    for mode in &MODES {
        check_mode(&rt, rt.alloc(), mode);
    }
}
