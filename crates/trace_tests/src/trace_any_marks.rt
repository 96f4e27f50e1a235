//! `trace_any`: the marks of requests over sources in memory, worked out by hand.
ghost use Rattle.std.specs.Prelude.{◌≡◌};
ghost use Rattle.trace_any.specs.Readings.{full_limits};

use crate::trace_any_requests::is_format;
use bound_io::MemSource;
use cache_rules::{Object, Trace};
use compared::{holds, same};
use std::alloc::Global;
use std::process::Abort;
use trace_any::{Format, Layout, Limits, RequestReader, load};

// A layout, a trace of it, and of each request the volume, id and size, and whether it only fills.
type Row = (Layout, &'static [u8], &'static [(u32, u64, u64, bool)]);

const LINES: &[u8] = b"1 7 4 r\n2 8 5 w and more\n3 7 4\tw\r\n\n4 8 5 r\n5 9 0 w\n6 7 4 r\n7 7 4 w";

// The second line writes two blocks, and the third none.
const FIELDS: &[u8] =
    b"1,h,0,Read,0,8192,9\n2,h,0,Write,4096,8192,9\n3,g,0,write,0,0\n4,g,0,rEAD,0,1\n5,h,0,WRITE,0,1";

const ROWS: [Row; 4] = [
    (
        Layout::MarkedWebcache,
        LINES,
        &[
            (0, 7, 4, false),
            (0, 8, 5, true),
            (0, 7, 4, true),
            (0, 8, 5, false),
            (0, 7, 4, false),
            (0, 7, 4, true),
        ],
    ),
    (
        Layout::Webcache,
        LINES,
        &[
            (0, 7, 4, false),
            (0, 8, 5, false),
            (0, 7, 4, false),
            (0, 8, 5, false),
            (0, 7, 4, false),
            (0, 7, 4, false),
        ],
    ),
    (
        Layout::MsrReads { block: 4096 },
        FIELDS,
        &[
            (1, 0, 4096, false),
            (1, 1, 4096, false),
            (1, 1, 4096, true),
            (1, 2, 4096, true),
            (2, 0, 4096, false),
            (1, 0, 4096, true),
        ],
    ),
    (
        Layout::Msr { block: 4096 },
        FIELDS,
        &[
            (1, 0, 4096, false),
            (1, 1, 4096, false),
            (1, 1, 4096, false),
            (1, 2, 4096, false),
            (2, 0, 4096, false),
            (1, 0, 4096, false),
        ],
    ),
];

// A reader of the form, which has given nothing.
fn reader_of(rt: &impl Abort, alloc: Global, format: Format) -> RequestReader
    ensures { result.limits ≡ full_limits }
{
    holds("a form", is_format(format)).expect(rt, "a row");
    RequestReader::new(alloc, format, Limits::full()).expect(rt, "memory")
}

fn source_of(rt: &impl Abort, alloc: Global, trace: &[u8]) -> MemSource {
    let bytes = trace.to_vec(alloc).expect(rt, "memory");
    MemSource::new(bytes, Vec::new(alloc), 7)
}

fn object_of(wanted: (u32, u64, u64, bool)) -> Object {
    let (volume, id, size, _) = wanted;
    Object { volume, id, size }
}

// Each request of the row by a reader, and its mark after it.
fn check_reader(rt: &impl Abort, alloc: Global, row: &Row) {
    let mut source = source_of(rt, alloc, row.1);
    let mut reader = reader_of(rt, alloc, Format::lasting(row.0));
    for (place, wanted) in row.2.iter().enumerate() {
        let found = reader.next(alloc, &mut source);
        holds(place, found == Ok(Some(object_of(*wanted)))).expect(rt, "a request");
        same(place, reader.last_fills(), wanted.3).expect(rt, "a mark");
    }
    let end = reader.next(alloc, &mut source);
    drop(reader);
    drop(source);
    holds("the end", end == Ok(None)).expect(rt, "a row");
}

#[test]
fn a_reader_has_the_mark_of_each_request(rt: HostRuntime) {
    for row in &ROWS {
        check_reader(&rt, rt.alloc(), row);
    }
}

// What is loaded of the row.
fn loaded(rt: &impl Abort, alloc: Global, row: &Row) -> Trace {
    let mut source = source_of(rt, alloc, row.1);
    let mut reader = reader_of(rt, alloc, Format::lasting(row.0));
    let (trace, dropped) = load(alloc, &mut reader, &mut source).expect(rt, "memory");
    drop(reader);
    drop(source);
    same("lines that ask for nothing", dropped, 1).expect(rt, "a row");
    trace
}

// A request of the trace, and its mark.
fn check_request(rt: &impl Abort, trace: &Trace, t: u32, wanted: (u32, u64, u64, bool)) {
    holds(t, t < trace.len()).expect(rt, "a row");
    let found = trace.object(trace.request(t));
    same(t, found, object_of(wanted)).expect(rt, "an object");
    same(t, trace.only_fills(t), wanted.3).expect(rt, "a mark");
}

// Each request that is loaded of the row.
fn check_load(rt: &impl Abort, alloc: Global, row: &Row) {
    let trace = loaded(rt, alloc, row);
    same("requests", trace.len() as usize, row.2.len()).expect(rt, "a row");
    for t in 0..trace.len() {
        let wanted = row.2.get(t as usize).expect(rt, "a row");
        check_request(rt, &trace, t, *wanted);
    }
    drop(trace);
}

#[test]
fn a_load_keeps_the_objects_and_the_marks(rt: HostRuntime) {
    for row in &ROWS {
        check_load(&rt, rt.alloc(), row);
    }
}
