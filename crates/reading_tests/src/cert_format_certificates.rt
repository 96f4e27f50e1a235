//! `cert_format`: certificates over sources and sinks in memory. The expected texts, numbers and faults were made by hand.
ghost use Rattle.std.specs.Prelude.{◌≡◌, ◌≤◌};
ghost use Rattle.cert_format.specs.declared.reader.Stage.TheVariants.{AtHeader};

use bound_io::{Failed, MemSink, MemSource, Source};
use cache_model::{CERT_VERSION, Header, Objective, Record, SHORT_VERSION};
use cert_format::{CertFault, CertReader, TextKind, write_end, write_header, write_record};
use compared::{holds, same};
use std::alloc::Global;
use std::fmt::Debug;
use std::process::Abort;

// The certificate of two requests of one object of 4 bytes, at a capacity of 10.
const LINES: [&[u8]; 14] = [
    b"cache-bound-certificate 1",
    b"objective object",
    b"capacity 10",
    b"requests 2",
    b"unit 4",
    b"denominator 1",
    b"form exact",
    b"upper 1",
    b"flow 1",
    b"lower 1",
    b"records",
    b"0 1 1",
    b"0 0 0",
    b"end",
];

const HEADER: Header = Header {
    objective: Objective::Object,
    capacity: 10,
    requests: 2,
    unit: 4,
    denominator: 1,
    exact: true,
    upper: 1,
    flow: 1,
    lower: 1,
    warmup: 0,
    version: CERT_VERSION,
};

const FIRST: Record = Record {
    price: 0,
    keep: true,
    flow: 1,
};

const LAST: Record = Record {
    price: 0,
    keep: false,
    flow: 0,
};

const STEPS: [usize; 3] = [1, 7, 100000];

// The text of the certificate, of which this line, from 1, is another one. Line 0 is none.
fn text_with(rt: &impl Abort, alloc: Global, line: usize, other: &[u8]) -> Vec<u8> {
    let mut text = Vec::new(alloc);
    for (place, words) in LINES.iter().enumerate() {
        let words = if place + 1 == line { other } else { *words };
        text.extend_from_slice(words).expect(rt, "memory");
        text.push(b'\n').expect(rt, "memory");
    }
    text
}

// The header, the first and the last record of a text, or its fault.
type Read = Result<(Header, Record, Record), CertFault>;

const WHOLE: Read = Ok((HEADER, FIRST, LAST));

fn same_read<P: Copy + Debug>(rt: &impl Abort, at: P, read: Read, want: Read) {
    same(at, read, want).expect(rt, "a row");
}

// What is read from a source, from the header to the end.
fn read_through(reader: &mut CertReader, source: &mut MemSource) -> Read
    requires { reader.old.stage ≡ AtHeader }
{
    let header = reader.header(source)?;
    let (mut first, mut last) = (LAST, FIRST);
    for place in 0..header.requests {
        last = reader.next_record(source)?;
        if place == 0 {
            first = last;
        }
    }
    reader.finish_text(source)?;
    Ok((header, first, last))
}

fn read_all(rt: &impl Abort, alloc: Global, text: &[u8], step: usize) -> Read
    requires { 1 ≤ step }
{
    let bytes = text.to_vec(alloc).expect(rt, "memory");
    let mut source = MemSource::new(bytes, Vec::new(alloc), step);
    let mut reader = CertReader::new(alloc).expect(rt, "memory");
    let read = read_through(&mut reader, &mut source);
    drop(reader);
    drop(source);
    read
}

// The same of the certificate with another line.
fn read_with(rt: &impl Abort, alloc: Global, line: usize, other: &[u8], step: usize) -> Read
    requires { 1 ≤ step }
{
    read_all(rt, alloc, &text_with(rt, alloc, line, other), step)
}

fn bad_text(line: u64, kind: TextKind) -> Read {
    Err(CertFault::BadText { line, kind })
}

#[test]
fn a_certificate_is_read_however_it_is_cut(rt: HostRuntime) {
    for step in STEPS {
        let read = read_with(&rt, rt.alloc(), 0, b"", step);
        same_read(&rt, step, read, WHOLE);
    }
}

const REFUSED: [(usize, &[u8], TextKind); 24] = [
    (1, b"cache-bound-certificate 3", TextKind::Shape),
    (2, b"objective Object", TextKind::Shape),
    (2, b"objective", TextKind::Shape),
    (3, b"capacity 010", TextKind::Number),
    (3, b"capacity 72057594037927937", TextKind::Range),
    (3, b"capacity 0", TextKind::Range),
    (4, b"requests 33554433", TextKind::Range),
    (4, b"requests -2", TextKind::Number),
    (5, b"unit 11", TextKind::Range),
    (5, b"unit  4", TextKind::Shape),
    (6, b"denominator 281474976710657", TextKind::Range),
    (7, b"form exact ", TextKind::Shape),
    (
        8,
        b"upper 170141183460469231731687303715884105728",
        TextKind::Range,
    ),
    (
        9,
        b"flow 99999999999999999999999999999999999999999",
        TextKind::Range,
    ),
    (10, b"lower 1\r", TextKind::Number),
    (11, b"records 2", TextKind::Shape),
    (12, b"0  1 1", TextKind::Shape),
    (12, b"x 2 1", TextKind::Shape),
    (
        12,
        b"85070591730234615865843651857942052865 1 00",
        TextKind::Range,
    ),
    (12, b"1x 1 281474976710657", TextKind::Number),
    (13, b"0 0 281474976710657", TextKind::Range),
    (13, b"0 0 0 0", TextKind::Shape),
    (13, b"", TextKind::Shape),
    (14, b"0 0 0", TextKind::Shape),
];

#[test]
fn a_line_is_refused_for_its_first_fault(rt: HostRuntime) {
    for (line, text, kind) in &REFUSED {
        let read = read_with(&rt, rt.alloc(), *line, text, 50);
        same_read(&rt, *text, read, bad_text(*line as u64, *kind));
    }
}

const AT_THE_END: [(usize, &[u8]); 7] = [
    (3, b"capacity 72057594037927936"),
    (5, b"unit 10"),
    (6, b"denominator 281474976710656"),
    (8, b"upper 170141183460469231731687303715884105727"),
    (9, b"flow 0"),
    (
        12,
        b"85070591730234615865843651857942052864 1 281474976710656",
    ),
    (2, b"objective bytes"),
];

#[test]
fn a_number_at_the_end_of_its_range_is_read(rt: HostRuntime) {
    for (line, text) in &AT_THE_END {
        let read = read_with(&rt, rt.alloc(), *line, text, 50);
        holds(*text, read.is_ok()).expect(&rt, "a row");
    }
}

#[test]
fn a_prefix_is_truncated_at_the_line_where_it_ends(rt: HostRuntime) {
    let text = text_with(&rt, rt.alloc(), 0, b"");
    let mut line = 1;
    for (end, byte) in text.iter().enumerate() {
        let read = read_all(&rt, rt.alloc(), &text[..end], 9);
        let want = Err(CertFault::Truncated { line });
        same_read(&rt, end, read, want);
        if *byte == b'\n' && line < 20 {
            line += 1;
        }
    }
}

// A byte this many times, and what follows it.
fn repeated(rt: &impl Abort, alloc: Global, byte: u8, count: usize, end: &[u8]) -> Vec<u8> {
    let mut text = vec![in alloc; byte; count].expect(rt, "memory");
    text.extend_from_slice(end).expect(rt, "memory");
    text
}

// What is read of the certificate with more bytes after it.
fn read_before(rt: &impl Abort, alloc: Global, more: &[u8]) -> Read {
    let mut text = text_with(rt, alloc, 0, b"");
    text.extend_from_slice(more).expect(rt, "memory");
    read_all(rt, alloc, &text, 1000)
}

const MORE: [&[u8]; 4] = [b"\n", b"x", b"end\n", b"\r\n"];

#[test]
fn whatever_follows_the_end_is_trailing(rt: HostRuntime) {
    let want = Err(CertFault::Trailing { line: 15 });
    for more in &MORE {
        same_read(&rt, *more, read_before(&rt, rt.alloc(), more), want);
    }
    let long = repeated(&rt, rt.alloc(), b'x', 70000, b"");
    let read = read_before(&rt, rt.alloc(), &long);
    same_read(&rt, "70000 bytes", read, want);
}

const LONG_LINES: [(usize, &[u8], CertFault); 4] = [
    (65535, b"", CertFault::Truncated { line: 1 }),
    (
        65536,
        b"",
        CertFault::BadText {
            line: 1,
            kind: TextKind::TooLong,
        },
    ),
    (
        65535,
        b"\n",
        CertFault::BadText {
            line: 1,
            kind: TextKind::Shape,
        },
    ),
    (
        65536,
        b"\n",
        CertFault::BadText {
            line: 1,
            kind: TextKind::TooLong,
        },
    ),
];

#[test]
fn a_long_line_is_told_from_a_cut_one(rt: HostRuntime) {
    for (count, end, fault) in &LONG_LINES {
        let text = repeated(&rt, rt.alloc(), b'9', *count, end);
        let read = read_all(&rt, rt.alloc(), &text, 4096);
        same_read(&rt, *count, read, Err(*fault));
    }
}

#[test]
fn a_number_of_60000_digits_is_out_of_range(rt: HostRuntime) {
    let mut words = b"upper 1".to_vec(rt.alloc()).expect(&rt, "memory");
    words
        .resize(words.len() + 60000, b'0')
        .expect(&rt, "memory");
    let read = read_with(&rt, rt.alloc(), 8, &words, 4096);
    same_read(&rt, "60000 digits", read, bad_text(8, TextKind::Range));
}

// The faults of a first call and of three more.
fn faults(reader: &mut CertReader, source: &mut MemSource) -> Option<[CertFault; 4]>
    requires { reader.old.stage ≡ AtHeader }
{
    let first = reader.header(source).err()?;
    let header = reader.header(source).err()?;
    let record = reader.next_record(source).err()?;
    let end = reader.finish_text(source).err()?;
    Some([first, header, record, end])
}

#[test]
fn a_failed_read_is_answered_again_and_nothing_more_is_read(rt: HostRuntime) {
    let text = text_with(&rt, rt.alloc(), 0, b"");
    let fails = vec![in rt.alloc(); 3].expect(&rt, "memory");
    let mut source = MemSource::new(text, fails, 50);
    let mut reader = CertReader::new(rt.alloc()).expect(&rt, "memory");
    let found = faults(&mut reader, &mut source);
    let counts = [reader.line(), reader.consumed(), reader.taken()];
    drop(reader);
    let left = source.read(&mut [0; 100]);
    drop(source);
    same("a failed read", found, Some([CertFault::ReadFault; 4])).expect(&rt, "a row");
    same("the counts", counts, [7, 98, 100]).expect(&rt, "a row");
    same("what is left", left, Ok(45)).expect(&rt, "a row");
}

const LONG_HEADER: Header = Header {
    requests: 20000,
    exact: false,
    ..HEADER
};

fn write_long(sink: &mut MemSink) -> Result<(), Failed> {
    write_header(sink, &LONG_HEADER)?;
    for _ in 0..20000 {
        write_record(sink, CERT_VERSION, 0, &FIRST)?;
    }
    Ok(())
}

fn long_text(rt: &impl Abort, alloc: Global) -> Vec<u8> {
    let mut sink = MemSink::new(alloc, 200000, Vec::new(alloc), 1000).expect(rt, "memory");
    same("a long text", write_long(&mut sink), Ok(())).expect(rt, "a row");
    sink.into_bytes()
}

// The header and the first record of a text, which is the last where there is none.
fn read_prefix(
    reader: &mut CertReader,
    source: &mut MemSource,
) -> Result<(Header, Record), CertFault>
    requires { reader.old.stage ≡ AtHeader }
{
    let header = reader.header(source)?;
    let mut record = LAST;
    if header.requests >= 1 {
        record = reader.next_record(source)?;
    }
    Ok((header, record))
}

#[test]
fn at_most_a_buffer_is_taken_ahead(rt: HostRuntime) {
    let text = long_text(&rt, rt.alloc());
    let mut source = MemSource::new(text, Vec::new(rt.alloc()), 100000);
    let mut reader = CertReader::new(rt.alloc()).expect(&rt, "memory");
    let prefix = read_prefix(&mut reader, &mut source);
    let counts = [reader.line(), reader.consumed(), reader.taken()];
    drop(reader);
    drop(source);
    same("the prefix", prefix, Ok((LONG_HEADER, FIRST))).expect(&rt, "a row");
    // The lines of the header have 133 bytes, that of the record 6.
    same("the counts", counts, [12, 139, 65536]).expect(&rt, "a row");
}

const HEADERS: [(Header, bool); 8] = [
    (HEADER, true),
    (Header { unit: 11, ..HEADER }, false),
    (
        Header {
            capacity: (1 << 56) + 1,
            ..HEADER
        },
        false,
    ),
    (
        Header {
            lower: 1 << 127,
            ..HEADER
        },
        false,
    ),
    (
        Header {
            warmup: 1 << 25,
            version: SHORT_VERSION,
            ..HEADER
        },
        true,
    ),
    (
        Header {
            warmup: (1 << 25) + 1,
            ..HEADER
        },
        false,
    ),
    (
        Header {
            version: 3,
            ..HEADER
        },
        false,
    ),
    (
        Header {
            version: 0,
            ..HEADER
        },
        false,
    ),
];

const DEAR: Record = Record {
    price: (1 << 126) + 1,
    ..FIRST
};

#[test]
fn numbers_are_in_range_or_not(rt: HostRuntime) {
    for (row, (header, want)) in HEADERS.iter().enumerate() {
        same(row, header.in_range(), *want).expect(&rt, "a row");
    }
    holds("records", FIRST.in_range() && !DEAR.in_range()).expect(&rt, "a row");
}

fn write(sink: &mut MemSink) -> Result<(), Failed> {
    write_header(sink, &HEADER)?;
    write_record(sink, CERT_VERSION, 0, &FIRST)?;
    write_record(sink, CERT_VERSION, 0, &LAST)?;
    write_end(sink)
}

// Writes the certificate to a sink that fails at one call, or at none if its number is 0.
fn check_written(
    rt: &impl Abort,
    alloc: Global,
    failing: u64,
    step: usize,
    want: Result<(), Failed>,
    text: &[u8],
)
    requires { 1 ≤ step }
{
    let fails = vec![in alloc; failing].expect(rt, "memory");
    let mut sink = MemSink::new(alloc, 1000, fails, step).expect(rt, "memory");
    same((failing, step), write(&mut sink), want).expect(rt, "a row");
    same((failing, step), sink.written(), text).expect(rt, "a row");
    drop(sink);
}

#[test]
fn what_is_written_is_the_text(rt: HostRuntime) {
    let text = text_with(&rt, rt.alloc(), 0, b"");
    for step in STEPS {
        check_written(&rt, rt.alloc(), 0, step, Ok(()), &text);
    }
    check_written(&rt, rt.alloc(), 3, 1, Err(Failed), b"ca");
}
