//! `cert_format`, `cert_checker`: certificates of both versions, with a warm-up and without. The texts and the answers
//! were made by hand.
ghost use Rattle.std.specs.Prelude.{◌≤◌};

use bound_io::{Failed, MemSink, MemSource};
use cache_model::{CERT_VERSION, Header, Objective, Record, SHORT_VERSION};
use cert_checker::{CheckFault, InvalidKind, Verdict, check_streams};
use cert_format::{CertReader, write_end, write_header, write_record};
use compared::{holds, same};
use std::alloc::Global;
use std::process::Abort;
use trace_any::{Format, Layout, Limits, RequestReader};

// Three objects of 1 byte, each asked for twice, at a capacity of 2.
const TRACE: &[u8] = b"1 1 1\n2 2 1\n3 3 1\n4 1 1\n5 2 1\n6 3 1\n";

const FULL: &[u8] =
    b"cache-bound-certificate 1\nobjective object\ncapacity 2\nrequests 6\nunit 1\ndenominator 1\nform exact\nupper 2\nflow 2\nlower 2\n";

const SHORT: &[u8] =
    b"cache-bound-certificate 2\nobjective object\ncapacity 2\nrequests 6\nunit 1\ndenominator 1\nform exact\nupper 2\nflow 2\nlower 2\n";

// The bounds where only the last request counts.
const LATE: &[u8] =
    b"cache-bound-certificate 1\nobjective object\ncapacity 2\nrequests 6\nunit 1\ndenominator 1\nform exact\nupper 1\nflow 1\nlower 1\n";

const FULL_RECORDS: &[u8] = b"records\n0 1 1\n0 1 1\n1 0 0\n0 0 0\n0 0 0\n0 0 0\nend\n";

const SHORT_RECORDS: &[u8] = b"records\n1 1\n1 1\n1 0 0\n0 0 0\n0 0\n0 0\nend\n";

const LATE_RECORDS: &[u8] = b"warmup 5\nrecords\n0 0 0\n0 0 0\n0 1 1\n0 0 0\n0 0 0\n0 0 0\nend\n";

const HEADER: Header = Header {
    objective: Objective::Object,
    capacity: 2,
    requests: 6,
    unit: 1,
    denominator: 1,
    exact: true,
    upper: 2,
    flow: 2,
    lower: 2,
    warmup: 0,
    version: CERT_VERSION,
};

const SHORT_HEADER: Header = Header {
    version: SHORT_VERSION,
    ..HEADER
};

const LATE_HEADER: Header = Header {
    upper: 1,
    flow: 1,
    lower: 1,
    warmup: 5,
    ..HEADER
};

// The lines up to the lower bound, those from the eleventh on, and the header of the verdict.
const VALID: [(&[u8], &[u8], Header); 3] = [
    (FULL, FULL_RECORDS, HEADER),
    (SHORT, SHORT_RECORDS, SHORT_HEADER),
    (LATE, LATE_RECORDS, LATE_HEADER),
];

// The same, and the line and the kind of the fault.
const INVALID: [(&[u8], &[u8], u64, InvalidKind); 23] = [
    (SHORT, b"records\n0 1 1\n", 12, InvalidKind::Range),
    (
        SHORT,
        b"records\n1 1\n1 1\n1 0 0\n1 0 0\n",
        15,
        InvalidKind::Range,
    ),
    (SHORT, b"records\n0 1 00\n", 12, InvalidKind::Range),
    (SHORT, b"records\n00 1 00\n", 12, InvalidKind::Number),
    (SHORT, b"records\n1 01\n", 12, InvalidKind::Number),
    (
        SHORT,
        b"records\n1 281474976710657\n",
        12,
        InvalidKind::Range,
    ),
    (SHORT, b"records\n2 1\n", 12, InvalidKind::Shape),
    (SHORT, b"records\n1 \n", 12, InvalidKind::Shape),
    (SHORT, b"records\n1\n", 12, InvalidKind::Shape),
    (SHORT, b"records\n1 1 1 1\n", 12, InvalidKind::Shape),
    (SHORT, b"records\n1 1", 12, InvalidKind::Truncated),
    (FULL, b"records\n1 1\n", 12, InvalidKind::Shape),
    (FULL, b"record\n", 11, InvalidKind::Shape),
    (FULL, b"warmup\n", 11, InvalidKind::Shape),
    (FULL, b"warmup  5\n", 11, InvalidKind::Shape),
    (FULL, b"warmup 05\n", 11, InvalidKind::Number),
    (SHORT, b"warmup 0\n", 11, InvalidKind::Range),
    (SHORT, b"warmup 33554433\n", 11, InvalidKind::Range),
    (SHORT, b"warmup 5", 11, InvalidKind::Truncated),
    (LATE, b"warmup 5\nwarmup 5\n", 12, InvalidKind::Shape),
    (
        LATE,
        b"warmup 5\nrecords\n0 0 1\n0 0 0\n0 1 1\n0 0 0\n",
        16,
        InvalidKind::Unused { number: 0 },
    ),
    (
        LATE,
        b"warmup 4\nrecords\n0 0 0\n0 0 0\n0 1 1\n0 0 0\n0 0 0\n0 0 0\nend\n",
        19,
        InvalidKind::UpperDiffers {
            written: 1,
            counted: 2,
        },
    ),
    (
        LATE,
        b"warmup 5\nrecords\n0 0 0\n0 0 0\n0 1 1\n0 0 0\n0 0 0\n0 0 0\nend\n\n",
        20,
        InvalidKind::Trailing,
    ),
];

fn text(rt: &impl Abort, alloc: Global, head: &[u8], rest: &[u8]) -> Vec<u8> {
    let mut bytes = head.to_vec(alloc).expect(rt, "memory");
    bytes.extend_from_slice(rest).expect(rt, "memory");
    bytes
}

// What a check of the trace says of a certificate.
fn answer(rt: &impl Abort, alloc: Global, head: &[u8], rest: &[u8]) -> Result<Verdict, CheckFault> {
    let mut trace = MemSource::new(text(rt, alloc, TRACE, b""), Vec::new(alloc), 7);
    let mut certificate = MemSource::new(text(rt, alloc, head, rest), Vec::new(alloc), 7);
    let reader = RequestReader::new(alloc, Format::lasting(Layout::Webcache), Limits::full());
    let mut reader = reader.expect(rt, "memory");
    let mut cert = CertReader::new(alloc).expect(rt, "memory");
    let answer = check_streams(alloc, &mut reader, &mut trace, &mut cert, &mut certificate);
    drop(reader);
    drop(trace);
    drop(cert);
    drop(certificate);
    answer
}

#[test]
fn both_versions_are_checked(rt: HostRuntime) {
    for (row, (head, rest, header)) in VALID.iter().enumerate() {
        let verdict = Verdict {
            header: *header,
            objects: 3,
        };
        holds(row, answer(&rt, rt.alloc(), head, rest) == Ok(verdict)).expect(&rt, "a row");
    }
}

#[test]
fn each_fault_has_its_line_in_both_versions(rt: HostRuntime) {
    for (row, (head, rest, line, kind)) in INVALID.iter().enumerate() {
        let fault = CheckFault::Invalid {
            line: *line,
            kind: *kind,
        };
        holds(row, answer(&rt, rt.alloc(), head, rest) == Err(fault)).expect(&rt, "a row");
    }
}

const NONE: Record = Record {
    price: 0,
    keep: false,
    flow: 0,
};

const KEPT: Record = Record {
    price: 0,
    keep: true,
    flow: 1,
};

const PRICED: Record = Record { price: 1, ..NONE };

// The records of the cycle, with their prices.
fn write_cycle(sink: &mut MemSink, version: u8) -> Result<(), Failed>
    requires { (1 ≤ version) × (version ≤ 2) }
{
    write_record(sink, version, 0, &KEPT)?;
    write_record(sink, version, 0, &KEPT)?;
    write_record(sink, version, 0, &PRICED)?;
    write_record(sink, version, 1, &NONE)?;
    write_record(sink, version, 0, &NONE)?;
    write_record(sink, version, 0, &NONE)?;
    write_end(sink)
}

// The records where only the last request counts.
fn write_late(sink: &mut MemSink) -> Result<(), Failed> {
    write_header(sink, &LATE_HEADER)?;
    write_record(sink, CERT_VERSION, 0, &NONE)?;
    write_record(sink, CERT_VERSION, 0, &NONE)?;
    write_record(sink, CERT_VERSION, 0, &KEPT)?;
    write_record(sink, CERT_VERSION, 0, &NONE)?;
    write_record(sink, CERT_VERSION, 0, &NONE)?;
    write_record(sink, CERT_VERSION, 0, &NONE)?;
    write_end(sink)
}

fn sink(rt: &impl Abort, alloc: Global) -> MemSink {
    MemSink::new(alloc, 1000, Vec::new(alloc), 1000).expect(rt, "memory")
}

#[test]
fn both_versions_are_written(rt: HostRuntime) {
    let mut full = sink(&rt, rt.alloc());
    let written = write_header(&mut full, &HEADER).is_ok() && write_cycle(&mut full, 1).is_ok();
    holds("the first version", written).expect(&rt, "a row");
    let want = text(&rt, rt.alloc(), FULL, FULL_RECORDS);
    same("the first version", full.written(), &want[..]).expect(&rt, "a row");
    drop(full);
    let mut short = sink(&rt, rt.alloc());
    let written = write_header(&mut short, &SHORT_HEADER).is_ok()
        && write_cycle(&mut short, 2).is_ok();
    holds("the second version", written).expect(&rt, "a row");
    let want = text(&rt, rt.alloc(), SHORT, SHORT_RECORDS);
    same("the second version", short.written(), &want[..]).expect(&rt, "a row");
    drop(short);
}

#[test]
fn a_warmup_is_written(rt: HostRuntime) {
    let mut late = sink(&rt, rt.alloc());
    same("a warm-up", write_late(&mut late), Ok(())).expect(&rt, "a row");
    let want = text(&rt, rt.alloc(), LATE, LATE_RECORDS);
    same("a warm-up", late.written(), &want[..]).expect(&rt, "a row");
    drop(late);
}
