//! `trace_any`: requests over sources in memory. The expected requests and refusals were made by hand.
ghost use Rattle.std.specs.Prelude.{◌≡◌, ◌≤◌, ◌^◌, true};
ghost use Rattle.trace_any.specs.Readings.{IsFormat, IsLayout};

use bound_io::MemSource;
use cache_rules::Object;
use compared::{holds, same};
use std::alloc::Global;
use std::process::Abort;
use trace_any::{Format, Layout, Limits, RequestReader, TraceFault};
use trace_lines::LineKind;

const STEPS: [usize; 6] = [1, 2, 7, 65535, 65536, 65537];

// A form and a trace of it, the limits of its reading, the volumes, ids and sizes of the requests, and how it ends.
#[derive(Clone, Copy)]
pub struct Row<'a> {
    pub layout: Layout,
    pub trace: &'a [u8],
    pub requests: u32,
    pub bytes: u64,
    pub given: &'a [[u64; 3]],
    pub dropped: u64,
    pub end: Result<Option<Object>, TraceFault>,
}

const PAIR: Row<'static> = Row {
    layout: Layout::Webcache,
    trace: b"1 7 4\n2 7 4\n",
    requests: 1000,
    bytes: 1000000,
    given: &[[0, 7, 4], [0, 7, 4]],
    dropped: 0,
    end: Ok(None),
};

const ROWS: [Row<'static>; 5] = [
    PAIR,
    Row {
        trace: b"1 7 4\r\n2 7 4",
        ..PAIR
    },
    Row {
        trace: b"1 7 4\n5 7 0\n6 7 4\n9 9 00\n",
        dropped: 2,
        ..PAIR
    },
    Row {
        trace: b"\n\t\n\r\n1\t7\t4\n \r\n2 7 4 and more\n ",
        ..PAIR
    },
    Row {
        trace: b"",
        given: &[],
        ..PAIR
    },
];

// Traces that pass a limit, or have a line that is refused.
const REFUSED_ROWS: [Row<'static>; 8] = [
    Row {
        trace: b"1 1 1\n2 2 1\n3 3 1\n4 x 1\n",
        requests: 2,
        given: &[[0, 1, 1], [0, 2, 1]],
        end: Err(TraceFault::TooManyRequests),
        ..PAIR
    },
    Row {
        trace: b"1 1 1\n2 2 1\n",
        requests: 2,
        given: &[[0, 1, 1], [0, 2, 1]],
        ..PAIR
    },
    Row {
        requests: 0,
        given: &[],
        end: Err(TraceFault::TooManyRequests),
        ..PAIR
    },
    Row { bytes: 12, ..PAIR },
    Row {
        bytes: 11,
        given: &[[0, 7, 4]],
        end: Err(TraceFault::InputTooLong),
        ..PAIR
    },
    Row {
        trace: b"1 7 4\n2 x 4\n",
        bytes: 11,
        given: &[[0, 7, 4]],
        end: Err(TraceFault::InputTooLong),
        ..PAIR
    },
    Row {
        trace: b"1 18446744073709551615 281474976710656\n\n2 7 281474976710657\n",
        given: &[[0, 18446744073709551615, 281474976710656]],
        end: Err(TraceFault::BadLine {
            line: 3,
            kind: LineKind::SizeTooLarge,
        }),
        ..PAIR
    },
    Row {
        trace: b"1 7 4\n5 7 0\n1 7\n",
        given: &[[0, 7, 4]],
        dropped: 1,
        end: Err(TraceFault::BadLine {
            line: 3,
            kind: LineKind::TooFewWords,
        }),
        ..PAIR
    },
];

const ARC: Row<'static> = Row {
    layout: Layout::Arc,
    trace: b"10 3 0 1\n11 2 0 2\n",
    given: &[
        [0, 10, 512],
        [0, 11, 512],
        [0, 12, 512],
        [0, 11, 512],
        [0, 12, 512],
    ],
    ..PAIR
};

const ARC_ROWS: [Row<'static>; 5] = [
    ARC,
    Row {
        trace: b"0 18446744073709551615 0 1\n",
        requests: 3,
        given: &[[0, 0, 512], [0, 1, 512], [0, 2, 512]],
        end: Err(TraceFault::TooManyRequests),
        ..ARC
    },
    Row {
        trace: b"18446744073709551615 1\r\n7 0\n\n18446744073709551615 2 0 1\n",
        given: &[[0, 18446744073709551615, 512]],
        dropped: 1,
        end: Err(TraceFault::BadLine {
            line: 4,
            kind: LineKind::BadRange,
        }),
        ..ARC
    },
    Row {
        trace: b"x 0\n",
        given: &[],
        end: Err(TraceFault::BadLine {
            line: 1,
            kind: LineKind::BadNumber { word: 1 },
        }),
        ..ARC
    },
    Row {
        trace: b"10",
        given: &[],
        end: Err(TraceFault::BadLine {
            line: 1,
            kind: LineKind::TooFewWords,
        }),
        ..ARC
    },
];

const MSR: Row<'static> = Row {
    layout: Layout::Msr { block: 4096 },
    trace: b"1,h,0,read,0,4096,9\n2,h,1,WRITE,0,4096\n3,h,0,Read,0,0,9\n",
    given: &[[1, 0, 4096], [2, 0, 4096]],
    dropped: 1,
    ..PAIR
};

const MSR_ROWS: [Row<'static>; 7] = [
    MSR,
    Row {
        trace: b"1,h,0,Read,0,1\n1,h,1,Read,0,1\n1,g,0,Read,0,1\n1,h,0,Read,0,1\n1,,0,Read,0,1\n\
1,g,0,Read,0,1\n1,g,18446744073709551615,Read,0,1\n",
        given: &[
            [1, 0, 4096],
            [2, 0, 4096],
            [3, 0, 4096],
            [1, 0, 4096],
            [4, 0, 4096],
            [3, 0, 4096],
            [5, 0, 4096],
        ],
        dropped: 0,
        ..MSR
    },
    Row {
        trace: b"9,g,7,Read,5,0,9\n1,h,0,Read,4095,2,9\n2,,0,Read,8192,1\n3,h,0,Read,0,1,9",
        given: &[[1, 0, 4096], [1, 1, 4096], [2, 2, 4096], [1, 0, 4096]],
        ..MSR
    },
    Row {
        trace: b"128166372003061629,usr,0,Read,7014609920,24576,41286\n",
        given: &[
            [1, 1712551, 4096],
            [1, 1712552, 4096],
            [1, 1712553, 4096],
            [1, 1712554, 4096],
            [1, 1712555, 4096],
            [1, 1712556, 4096],
            [1, 1712557, 4096],
        ],
        dropped: 0,
        ..MSR
    },
    Row {
        trace: b"1,h,0,Trim,0,512,1\n",
        given: &[],
        dropped: 0,
        end: Err(TraceFault::BadLine {
            line: 1,
            kind: LineKind::BadType,
        }),
        ..MSR
    },
    Row {
        trace: b" \n1,\"h\",0,Read,0,512,1\n",
        given: &[],
        dropped: 0,
        end: Err(TraceFault::BadLine {
            line: 2,
            kind: LineKind::QuoteByte,
        }),
        ..MSR
    },
    Row {
        layout: Layout::Msr { block: 1 },
        trace: b"1,h,0,Read,18446744073709551614,2\n1,h,0,Read,18446744073709551615,2",
        given: &[[1, 18446744073709551614, 1], [1, 18446744073709551615, 1]],
        dropped: 0,
        end: Err(TraceFault::BadLine {
            line: 2,
            kind: LineKind::BadRange,
        }),
        ..MSR
    },
];

// Marked lines, of which the last is refused.
const MARKED: Row<'static> = Row {
    layout: Layout::MarkedWebcache,
    trace: b"1 7 4 r\n2 7 4 w\n3 7 0 w\n4 7 4\n",
    dropped: 1,
    end: Err(TraceFault::BadLine {
        line: 4,
        kind: LineKind::TooFewWords,
    }),
    ..PAIR
};

const MARKED_ROWS: [Row<'static>; 2] = [
    MARKED,
    Row {
        trace: b"1 7 4 w\n2 7 4 r\n\n4 7 0 x\n",
        dropped: 0,
        end: Err(TraceFault::BadLine {
            line: 4,
            kind: LineKind::BadType,
        }),
        ..MARKED
    },
];

/// Whether blocks of the form are in their range.
pub fn is_format(format: Format) -> bool
    ensures { result ≡ true → IsFormat format }
{
    let block = match format.layout {
        Layout::Msr { block } | Layout::MsrReads { block } => block,
        _ => 1,
    };
    block >= 1 && block <= 1 << 48
}

// Whether the form and the limits are such that a reader takes.
fn is_readable(row: &Row<'_>) -> bool
    ensures { result ≡ true → IsLayout row.now.layout × (row.now.requests ≤ 2 ^ 25) × (row.now.bytes ≤ 2 ^ 36) }
{
    is_format(Format::lasting(row.layout)) && row.requests <= 1 << 25 && row.bytes <= 1 << 36
}

/// Whether this is the next answer.
pub fn gives(
    alloc: Global,
    reader: &mut RequestReader,
    source: &mut MemSource,
    want: Result<Option<Object>, TraceFault>,
) -> bool
    ensures { reader.new.limits ≡ reader.old.limits }
{
    reader.next(alloc, source) == want
}

/// A source of the trace, whose reads give this many bytes, and of which one fails, or none if its number is 0.
pub fn source_of(
    rt: &impl Abort,
    alloc: Global,
    trace: &[u8],
    failing: u64,
    step: usize,
) -> MemSource
    requires { 1 ≤ step }
{
    let bytes = trace.to_vec(alloc).expect(rt, "memory");
    let fails = vec![in alloc; failing].expect(rt, "memory");
    MemSource::new(bytes, fails, step)
}

// The requests of the row, and the end of it twice.
fn check_answers(
    rt: &impl Abort,
    alloc: Global,
    reader: &mut RequestReader,
    source: &mut MemSource,
    row: &Row<'_>,
    step: usize,
) {
    for given in row.given {
        let [volume, id, size] = *given;
        holds(step, volume < 10).expect(rt, "a row");
        let volume = volume as u32;
        let object = Object { volume, id, size };
        holds(step, gives(alloc, reader, source, Ok(Some(object)))).expect(rt, "a row");
    }
    let ends = gives(alloc, reader, source, row.end);
    let ends_again = gives(alloc, reader, source, row.end);
    holds(step, ends && ends_again).expect(rt, "a row");
    same(step, reader.dropped(), row.dropped).expect(rt, "a row");
}

// The answers, where a read gives this many bytes.
pub fn check_at(rt: &impl Abort, alloc: Global, row: &Row<'_>, step: usize)
    requires { 1 ≤ step }
{
    holds(row.trace, is_readable(row)).expect(rt, "a row");
    let limits = Limits {
        requests: row.requests,
        bytes: row.bytes,
    };
    let mut source = source_of(rt, alloc, row.trace, 0, step);
    let mut reader = RequestReader::new(alloc, Format::lasting(row.layout), limits).expect(
        rt, "memory",
    );
    check_answers(rt, alloc, &mut reader, &mut source, row, step);
    drop(reader);
    drop(source);
}

// The answers, however the bytes are cut.
fn check(rt: &impl Abort, alloc: Global, row: &Row<'_>) {
    for step in STEPS {
        check_at(rt, alloc, row, step);
    }
}

// The rows of a form.
fn check_all(rt: &impl Abort, alloc: Global, rows: &[Row<'_>]) {
    for row in rows {
        check(rt, alloc, row);
    }
}

#[test]
fn gives_the_requests_of_webcache_lines(rt: HostRuntime) {
    check_all(&rt, rt.alloc(), &ROWS);
    check_all(&rt, rt.alloc(), &REFUSED_ROWS);
    check_all(&rt, rt.alloc(), &MARKED_ROWS);
}

#[test]
fn gives_a_request_for_each_block_of_arc_lines(rt: HostRuntime) {
    check_all(&rt, rt.alloc(), &ARC_ROWS);
}

#[test]
fn numbers_the_volumes_of_msr_lines(rt: HostRuntime) {
    check_all(&rt, rt.alloc(), &MSR_ROWS);
}

const LONG: Row<'static> = Row {
    bytes: 100,
    given: &[[0, 7, 4]],
    end: Err(TraceFault::BadLine {
        line: 2,
        kind: LineKind::TooLong,
    }),
    ..PAIR
};

#[test]
fn a_long_line_is_refused_before_its_bytes_are_counted(rt: HostRuntime) {
    let mut trace = b"1 7 4\n".to_vec(rt.alloc()).expect(&rt, "memory");
    trace
        .resize(trace.len() + 65536, b' ')
        .expect(&rt, "memory");
    let row = Row {
        trace: &trace,
        ..LONG
    };
    check(&rt, rt.alloc(), &row);
}
