//! `cert_checker`: small traces and certificates of them, checked side by side.
use bound_io::MemSource;
use cache_model::{CERT_VERSION, Object, Objective};
use cert_checker::{
    CheckFault, Header, InvalidKind, Kept, Record, Verdict, check_and_keep, check_streams,
};
use cert_format::CertReader;
use compared::{holds, same};
use std::alloc::Global;
use std::process::Abort;
use trace_any::{Format, Layout, Limits, RequestReader, TraceFault};
use trace_lines::LineKind;

// Two requests of one object of 4 bytes, and the header and the other lines of a certificate for them. The answers
// were worked out by hand.
const TRACE: &[u8] = b"1 7 4\n2 7 4\n";

const HEAD: &[u8] =
    b"cache-bound-certificate 1\nobjective object\ncapacity 10\nrequests 2\nunit 4\ndenominator 1\nform exact\nupper 1\nflow 1\nlower 1\nrecords\n";

const REST: &[u8] = b"0 1 1\n0 0 0\nend\n";

const VERDICT: Verdict = Verdict {
    header: Header {
        objective: Objective::Object,
        capacity: 10,
        requests: 2,
        unit: 4,
        denominator: 1,
        exact: true,
        upper: 1,
        flow: 1,
        lower: 1,
        warmup: 0,
        version: CERT_VERSION,
    },
    objects: 1,
};

const RECORDS: [Record; 2] = [
    Record {
        price: 0,
        keep: true,
        flow: 1,
    },
    Record {
        price: 0,
        keep: false,
        flow: 0,
    },
];

const OBJECT: Object = Object {
    volume: 0,
    id: 7,
    size: 4,
};

// A trace, its read that fails, or 0 for none, the other lines of the certificate, its read that fails, and the answer.
type Row = (
    &'static [u8],
    u64,
    &'static [u8],
    u64,
    Result<Verdict, CheckFault>,
);

const ROWS: [Row; 10] = [
    (TRACE, 0, REST, 0, Ok(VERDICT)),
    (
        TRACE,
        0,
        b"0 1 1\n0 0 0\nend\nx",
        0,
        Err(CheckFault::Invalid {
            line: 15,
            kind: InvalidKind::Trailing,
        }),
    ),
    (
        TRACE,
        0,
        b"0 1 1\nend\n",
        0,
        Err(CheckFault::Invalid {
            line: 13,
            kind: InvalidKind::Shape,
        }),
    ),
    (
        TRACE,
        0,
        b"0 1 1\n0 0 0\n0 0 0\nend\n",
        0,
        Err(CheckFault::Invalid {
            line: 14,
            kind: InvalidKind::Shape,
        }),
    ),
    (
        TRACE,
        0,
        b"0 1 1\n5 0 0\nend\n",
        0,
        Err(CheckFault::Invalid {
            line: 13,
            kind: InvalidKind::LastPrice { price: 5 },
        }),
    ),
    (
        b"1 7 4\n",
        0,
        REST,
        0,
        Err(CheckFault::Invalid {
            line: 12,
            kind: InvalidKind::RequestCount {
                written: 2,
                read: 1,
            },
        }),
    ),
    (
        b"1 7 4\n2 7 4\n3 7 4\n4 7 4\n",
        0,
        b"0 1 1\n0 0 0\nx",
        0,
        Err(CheckFault::Invalid {
            line: 13,
            kind: InvalidKind::RequestCount {
                written: 2,
                read: 3,
            },
        }),
    ),
    (
        b"1 7 4\n2 7\n3 7 4\n",
        0,
        b"0 1 1\nx",
        0,
        Err(CheckFault::Trace(TraceFault::BadLine {
            line: 2,
            kind: LineKind::TooFewWords,
        })),
    ),
    (
        TRACE,
        2,
        REST,
        0,
        Err(CheckFault::Trace(TraceFault::ReadFault)),
    ),
    (TRACE, 0, REST, 19, Err(CheckFault::CertReadFault)),
];

fn source(rt: &impl Abort, alloc: Global, prefix: &[u8], rest: &[u8], failing: u64) -> MemSource {
    let mut bytes = prefix.to_vec(alloc).expect(rt, "memory");
    bytes.extend_from_slice(rest).expect(rt, "memory");
    let fails = vec![in alloc; failing].expect(rt, "memory");
    MemSource::new(bytes, fails, 7)
}

// What a check says of the two sources.
fn answer(rt: &impl Abort, alloc: Global, row: &Row) -> Result<Verdict, CheckFault> {
    let mut trace = source(rt, alloc, row.0, b"", row.1);
    let mut certificate = source(rt, alloc, HEAD, row.2, row.3);
    let reader = RequestReader::new(alloc, Format::lasting(Layout::Webcache), Limits::full());
    let mut reader = reader.expect(rt, "memory");
    let mut cert = CertReader::new(alloc).expect(rt, "memory");
    let answer = check_streams(alloc, &mut reader, &mut trace, &mut cert, &mut certificate);
    drop(reader);
    drop(trace);
    drop(cert);
    drop(certificate);
    answer
}

#[test]
fn says_yes_or_names_the_first_event_of_the_walk(rt: HostRuntime) {
    for (place, row) in ROWS.iter().enumerate() {
        holds(place, answer(&rt, rt.alloc(), row) == row.4).expect(&rt, "a row");
    }
}

// What a check that keeps says of the two sources.
fn kept(rt: &impl Abort, alloc: Global, row: &Row) -> Result<Kept, CheckFault> {
    let mut trace = source(rt, alloc, row.0, b"", row.1);
    let mut certificate = source(rt, alloc, HEAD, row.2, row.3);
    let reader = RequestReader::new(alloc, Format::lasting(Layout::Webcache), Limits::full());
    let mut reader = reader.expect(rt, "memory");
    let mut cert = CertReader::new(alloc).expect(rt, "memory");
    let kept = check_and_keep(alloc, &mut reader, &mut trace, &mut cert, &mut certificate);
    drop(reader);
    drop(trace);
    drop(cert);
    drop(certificate);
    kept
}

#[test]
fn keeps_the_requests_and_the_records_of_a_yes(rt: HostRuntime) {
    let kept = kept(&rt, rt.alloc(), &ROWS[0]).expect(&rt, "a yes");
    holds("the verdict", *kept.verdict() == VERDICT).expect(&rt, "a row");
    same("the records", kept.records(), &RECORDS[..]).expect(&rt, "a row");
    same("the requests", kept.trace().len(), 2).expect(&rt, "a row");
    same("the objects", kept.trace().objects(), 1).expect(&rt, "a row");
    if kept.trace().objects() > 0 {
        same("the object", kept.trace().object(0), OBJECT).expect(&rt, "a row");
    }
    drop(kept);
}

#[test]
fn names_the_fault_of_the_check_that_keeps_nothing(rt: HostRuntime) {
    for (place, row) in ROWS.iter().enumerate().skip(1) {
        if let Err(fault) = kept(&rt, rt.alloc(), row) {
            same(place, Err(fault), row.4).expect(&rt, "a row");
        } else {
            holds(place, false).expect(&rt, "a row");
        }
    }
}
