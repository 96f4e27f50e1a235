//! `cert_checker`: certificates of small marked traces, and what they are worth without the marks.
use bound_io::MemSource;
use cert_checker::{CheckFault, InvalidKind, Kept, check_and_keep, check_streams};
use cert_format::CertReader;
use compared::{holds, same};
use std::alloc::Global;
use std::process::Abort;
use trace_any::{Format, Layout, Limits, RequestReader};

// One object of 4 bytes: the second request only fills, so that one interval counts.
const ONE: &[u8] = b"1 7 4 r\n2 7 4 w\n3 7 4 r\n";

// The object of 3 bytes has no request that counts but its first, so that 4 bytes may be the unit.
const TWO: &[u8] = b"1 7 4 r\n2 8 3 r\n3 8 3 w\n4 7 4 r\n";

const OF_ONE: &[u8] =
    b"cache-bound-certificate 1\nobjective object\ncapacity 10\nrequests 3\nunit 4\ndenominator 1\nform exact\nupper 1\nflow 1\nlower 1\nrecords\n0 1 0\n0 1 1\n0 0 0\nend\n";

const OF_TWO: &[u8] =
    b"cache-bound-certificate 1\nobjective object\ncapacity 10\nrequests 4\nunit 4\ndenominator 1\nform exact\nupper 1\nflow 1\nlower 1\nrecords\n0 1 1\n0 0 0\n0 0 0\n0 0 0\nend\n";

// The certificate of the first trace if all its requests count.
const OF_ALL: &[u8] =
    b"cache-bound-certificate 1\nobjective object\ncapacity 10\nrequests 3\nunit 4\ndenominator 1\nform exact\nupper 2\nflow 2\nlower 2\nrecords\n0 1 1\n0 1 1\n0 0 0\nend\n";

type Answer = Result<(), CheckFault>;

// A trace and a certificate, and the answers with the marks and without them, worked out by hand.
type Row = (&'static [u8], &'static [u8], Answer, Answer);

const ROWS: [Row; 3] = [
    (
        ONE,
        OF_ONE,
        Ok(()),
        Err(CheckFault::Invalid {
            line: 15,
            kind: InvalidKind::UpperDiffers {
                written: 1,
                counted: 2,
            },
        }),
    ),
    (
        TWO,
        OF_TWO,
        Ok(()),
        Err(CheckFault::Invalid {
            line: 14,
            kind: InvalidKind::UnitNotDivisor { unit: 4, size: 3 },
        }),
    ),
    (
        ONE,
        OF_ALL,
        Err(CheckFault::Invalid {
            line: 13,
            kind: InvalidKind::Unused { number: 0 },
        }),
        Ok(()),
    ),
];

fn source(rt: &impl Abort, alloc: Global, text: &[u8]) -> MemSource {
    let bytes = text.to_vec(alloc).expect(rt, "memory");
    MemSource::new(bytes, Vec::new(alloc), 7)
}

// What a check says of the two texts.
fn answer(rt: &impl Abort, alloc: Global, marked: bool, row: &Row) -> Answer {
    let mut trace = source(rt, alloc, row.0);
    let mut certificate = source(rt, alloc, row.1);
    let format = if marked {
        Format::lasting(Layout::MarkedWebcache)
    } else {
        Format::lasting(Layout::Webcache)
    };
    let reader = RequestReader::new(alloc, format, Limits::full());
    let mut reader = reader.expect(rt, "memory");
    let mut cert = CertReader::new(alloc).expect(rt, "memory");
    let answer = check_streams(alloc, &mut reader, &mut trace, &mut cert, &mut certificate);
    drop(reader);
    drop(trace);
    drop(cert);
    drop(certificate);
    match answer {
        Ok(_) => Ok(()),
        Err(fault) => Err(fault),
    }
}

#[test]
fn the_marks_decide_what_is_valid(rt: HostRuntime) {
    for (place, row) in ROWS.iter().enumerate() {
        same(place, answer(&rt, rt.alloc(), true, row), row.2).expect(&rt, "with marks");
        same(place, answer(&rt, rt.alloc(), false, row), row.3).expect(&rt, "without marks");
    }
}

// What a check that keeps says of the two texts.
fn kept(rt: &impl Abort, alloc: Global, marked: bool, row: &Row) -> Result<Kept, CheckFault> {
    let mut trace = source(rt, alloc, row.0);
    let mut certificate = source(rt, alloc, row.1);
    let format = if marked {
        Format::lasting(Layout::MarkedWebcache)
    } else {
        Format::lasting(Layout::Webcache)
    };
    let reader = RequestReader::new(alloc, format, Limits::full());
    let mut reader = reader.expect(rt, "memory");
    let mut cert = CertReader::new(alloc).expect(rt, "memory");
    let kept = check_and_keep(alloc, &mut reader, &mut trace, &mut cert, &mut certificate);
    drop(reader);
    drop(trace);
    drop(cert);
    drop(certificate);
    kept
}

// What a check that keeps says, and the mark that it keeps of request 1.
fn check_kept(rt: &impl Abort, alloc: Global, marked: bool, place: usize, row: &Row) {
    let want = if marked { row.2 } else { row.3 };
    match kept(rt, alloc, marked, row) {
        Ok(kept) => {
            let fills = kept.trace().only_fills(1);
            drop(kept);
            same(place, Ok(()), want).expect(rt, "a yes");
            same(place, fills, marked && place == 0).expect(rt, "the mark of request 1");
        }
        Err(fault) => same(place, Err(fault), want).expect(rt, "a fault"),
    }
}

#[test]
fn a_check_that_keeps_goes_by_the_marks_and_keeps_them(rt: HostRuntime) {
    for (place, row) in ROWS.iter().enumerate() {
        check_kept(&rt, rt.alloc(), true, place, row);
        check_kept(&rt, rt.alloc(), false, place, row);
    }
}
