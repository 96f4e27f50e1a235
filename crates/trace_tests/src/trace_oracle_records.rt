//! `trace_any` and `trace_oracle`: traces of records of 24 bytes, in memory. The bytes were written by Python's `struct`
//! with the form `<IQIq`, and the requests are those that it was given.
ghost use Rattle.std.specs.Prelude.{◌≤◌};

use crate::trace_any_requests::{Row, check_at};
use bound_io::MemSource;
use compared::same;
use std::alloc::Global;
use std::process::Abort;
use trace_any::{Format, Layout, Limits, RequestReader, TraceFault, load};
use trace_lines::{LineKind, Span};

const PAIR: Row<'static> = Row {
    layout: Layout::Oracle,
    trace: b"\x01\0\0\0\x07\0\0\0\0\0\0\0\x04\0\0\0\x01\0\0\0\0\0\0\0\
\x02\0\0\0\x07\0\0\0\0\0\0\0\x04\0\0\0\xff\xff\xff\xff\xff\xff\xff\xff",
    requests: 1000,
    bytes: 1000000,
    given: &[[0, 7, 4], [0, 7, 4]],
    dropped: 0,
    end: Ok(None),
};

// The first record asks for no byte.
const DROPPED: Row<'static> = Row {
    trace: b"\x01\0\0\0\x07\0\0\0\0\0\0\0\0\0\0\0\x01\0\0\0\0\0\0\0\
\x02\0\0\0\x07\0\0\0\0\0\0\0\x04\0\0\0\xff\xff\xff\xff\xff\xff\xff\xff",
    given: &[[0, 7, 4]],
    dropped: 1,
    ..PAIR
};

// Two records, of which the second lacks its last byte.
const PART: Row<'static> = Row {
    trace: b"\x01\0\0\0\x07\0\0\0\0\0\0\0\x04\0\0\0\x01\0\0\0\0\0\0\0\
\x02\0\0\0\x07\0\0\0\0\0\0\0\x04\0\0\0\xff\xff\xff\xff\xff\xff\xff",
    given: &[[0, 7, 4]],
    end: Err(TraceFault::BadLine {
        line: 2,
        kind: LineKind::PartRecord { bytes: 23 },
    }),
    ..PAIR
};

const ROWS: [Row<'static>; 13] = [
    PAIR,
    DROPPED,
    PART,
    Row {
        trace: b"",
        given: &[],
        ..PAIR
    },
    Row {
        trace: b"\n",
        given: &[],
        end: Err(TraceFault::BadLine {
            line: 1,
            kind: LineKind::PartRecord { bytes: 1 },
        }),
        ..PAIR
    },
    Row {
        trace: b"\xfc\xfd\xfe\xff\x80\x90\xa0\xb0\xc0\xd0\xe0\xf0\x50\x60\x70\x80\0\0\0\0\0\0\0\xc0",
        given: &[[0, 17357102489901502592, 2154848336]],
        ..PAIR
    },
    Row {
        trace: b"                        \r\n\r\n\r\n\r\n\r\n\r\n\r\n\r\n\r\n\r\n\r\n\r\n",
        given: &[
            [0, 2314885530818453536, 538976288],
            [0, 724246166195997197, 168626701],
        ],
        ..PAIR
    },
    Row { bytes: 48, ..PAIR },
    Row {
        bytes: 47,
        given: &[[0, 7, 4]],
        end: Err(TraceFault::InputTooLong),
        ..PAIR
    },
    Row { bytes: 47, ..PART },
    Row {
        bytes: 46,
        end: Err(TraceFault::InputTooLong),
        ..PART
    },
    Row {
        requests: 1,
        given: &[[0, 7, 4]],
        end: Err(TraceFault::TooManyRequests),
        ..PAIR
    },
    Row {
        requests: 1,
        ..DROPPED
    },
];

#[test]
fn gives_the_requests_of_records(rt: HostRuntime) {
    for row in &ROWS {
        for step in 1..51 {
            check_at(&rt, rt.alloc(), row, step);
        }
    }
}

// What a load of the trace gives, where a read gives this many bytes: how many requests and objects there are, and how
// many records were dropped.
fn loaded_at(
    rt: &impl Abort,
    alloc: Global,
    trace: &[u8],
    step: usize,
) -> Result<(u32, u32, u64), TraceFault>
    requires { 1 ≤ step }
{
    let bytes = trace.to_vec(alloc).expect(rt, "memory");
    let mut source = MemSource::new(bytes, Vec::new(alloc), step);
    let reader = RequestReader::new(alloc, Format::lasting(Layout::Oracle), Limits::full());
    let mut reader = reader.expect(rt, "memory");
    let loaded = load(alloc, &mut reader, &mut source);
    drop(reader);
    drop(source);
    let (trace, dropped) = loaded?;
    Ok((trace.len(), trace.objects(), dropped))
}

#[test]
fn loads_the_records(rt: HostRuntime) {
    let part = TraceFault::BadLine {
        line: 2,
        kind: LineKind::PartRecord { bytes: 23 },
    };
    for step in [1, 7, 24, 48] {
        let pair = loaded_at(&rt, rt.alloc(), PAIR.trace, step);
        same(step, pair, Ok((2, 1, 0))).expect(&rt, "a row");
        let dropped = loaded_at(&rt, rt.alloc(), DROPPED.trace, step);
        same(step, dropped, Ok((1, 1, 1))).expect(&rt, "a row");
        let refused = loaded_at(&rt, rt.alloc(), PART.trace, step);
        same(step, refused, Err(part)).expect(&rt, "a row");
    }
}

#[test]
fn a_record_asks_for_its_id_and_size(rt: HostRuntime) {
    let first = trace_oracle::parse(b"\x01\0\0\0\x07\0\0\0\0\0\0\0\x04\0\0\0\x01\0\0\0\0\0\0\0");
    same("a record", first, Span::One { id: 7, size: 4 }).expect(&rt, "a row");
    let none = trace_oracle::parse(b"\x01\0\0\0\x07\0\0\0\0\0\0\0\0\0\0\0\x01\0\0\0\0\0\0\0");
    same("no byte", none, Span::Nothing).expect(&rt, "a row");
}
