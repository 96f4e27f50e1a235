//! `trace_any`: which requests are stale, in all traces of four requests out of few, against a second writing of the rule,
//! and in rows worked out by hand.
use crate::trace_any_requests::is_format;
use bound_io::MemSource;
use compared::{holds, same};
use std::alloc::Global;
use std::process::Abort;
use trace_any::{Format, Freshness, Layout, Limits, RequestReader, TraceFault};
use trace_lines::LineKind;

// A time, an id and a size.
type Asked = (u8, u8, u8);

const OBJECTS: [(u8, u8); 3] = [(1, 1), (1, 2), (2, 1)];

const RULES: [Freshness; 5] = [
    Freshness {
        idle: Some(0),
        ttl: None,
        replace: false,
    },
    Freshness {
        idle: Some(1),
        ttl: None,
        replace: false,
    },
    Freshness {
        idle: None,
        ttl: None,
        replace: true,
    },
    Freshness {
        idle: Some(1),
        ttl: None,
        replace: true,
    },
    Freshness {
        idle: Some(2),
        ttl: Some(1),
        replace: false,
    },
];

// Whether more than a time passed, if one is given.
fn is_past(limit: Option<u64>, passed: u8) -> bool {
    limit.is_some_and(|limit| u64::from(passed) > limit)
}

// Whether a request after these is stale, found by going over all of them.
fn is_stale(fresh: Freshness, before: &[Asked], asked: Asked) -> bool {
    let mut clock = 0;
    let mut last = None;
    let mut size = None;
    for (time, id, bytes) in before.iter().copied() {
        clock = time.max(clock);
        if id == asked.1 {
            size = Some(bytes);
            if bytes == asked.2 {
                last = Some(clock);
            }
        }
    }
    let passed = last.map(|last| asked.0.max(clock).saturating_sub(last));
    let expired = passed.is_some_and(|passed| is_past(fresh.idle, passed)
        || is_past(fresh.ttl, passed));
    expired || (fresh.replace && passed.is_some() && size != Some(asked.2))
}

// The request of this number, at one of three times.
fn asked_of(number: u32) -> Asked {
    let time = (number % 3) as u8;
    let (id, size) = OBJECTS[(number / 3 % 3) as usize];
    (time, id, size)
}

// The four requests of this number.
fn requests_of(number: u32) -> [Asked; 4] {
    [
        asked_of(number % 9),
        asked_of(number / 9 % 9),
        asked_of(number / 81 % 9),
        asked_of(number / 729 % 9),
    ]
}

// The lines of some requests.
fn lines_of(rt: &impl Abort, alloc: Global, requests: &[Asked]) -> MemSource {
    let mut text = Vec::new(alloc);
    for (time, id, size) in requests.iter().copied() {
        for byte in [
            b'0' + time % 10,
            b' ',
            b'0' + id % 10,
            b' ',
            b'0' + size % 10,
            b'\n',
        ] {
            text.push(byte).expect(rt, "memory");
        }
    }
    MemSource::new(text, Vec::new(alloc), 5)
}

// Each request of the trace of this number only fills exactly if it is stale.
fn check(rt: &impl Abort, alloc: Global, fresh: Freshness, number: u32) {
    let requests = requests_of(number);
    let mut source = lines_of(rt, alloc, &requests);
    let format = Format {
        layout: Layout::Webcache,
        fresh,
    };
    let mut reader = RequestReader::new(alloc, format, Limits::full()).expect(rt, "memory");
    for (place, asked) in requests.iter().enumerate() {
        let found = reader.next(alloc, &mut source);
        holds(number, matches!(found, Ok(Some(_)))).expect(rt, "a request");
        let before = requests.get(..place).unwrap_or(&[]);
        same(number, reader.last_fills(), is_stale(fresh, before, *asked)).expect(rt, "a mark");
    }
    drop(reader);
    drop(source);
}

#[test]
fn a_request_fills_exactly_if_it_is_stale(rt: HostRuntime) {
    for fresh in RULES {
        for number in 0..6561 {
            check(&rt, rt.alloc(), fresh, number);
        }
    }
}

// The form of a layout whose objects expire after this time.
fn after(layout: Layout, idle: u64) -> Format {
    Format {
        layout,
        fresh: Freshness {
            idle: Some(idle),
            ttl: None,
            replace: false,
        },
    }
}

// A layout, the time after which objects expire, a trace, whether each of its requests only fills, and the line that is refused and for what, if one is.
type Row = (
    (Layout, u64),
    &'static [u8],
    &'static [bool],
    Option<(u64, LineKind)>,
);

const ROWS: [Row; 9] = [
    // A time that goes back is no time passed.
    (
        (Layout::Webcache, 3),
        b"5 7 4\n3 7 4\n9 7 4\n",
        &[false, false, true],
        None,
    ),
    // A line of size 0 is dropped, and its time is none of the clock.
    (
        (Layout::Webcache, 3),
        b"5 7 4\n100 7 0\n8 7 4\n",
        &[false, false],
        None,
    ),
    // A mark of its own stays.
    (
        (Layout::MarkedWebcache, 2),
        b"5 7 4 w\n7 7 4 w\n9 7 4 r\n12 7 4 r\n",
        &[true, true, false, true],
        None,
    ),
    // The time is refused after the words are counted, and before the id.
    (
        (Layout::Webcache, 3),
        b"5 7 4\nx y 4\n",
        &[false],
        Some((2, LineKind::BadNumber { word: 1 })),
    ),
    (
        (Layout::Webcache, 3),
        b"5 7 4\nx y\n",
        &[false],
        Some((2, LineKind::TooFewWords)),
    ),
    (
        (Layout::Webcache, 3),
        b"5 7 4\n1.5 7 0\n",
        &[false],
        Some((2, LineKind::BadNumber { word: 1 })),
    ),
    // Each block of a line has its time.
    (
        (Layout::Msr { block: 512 }, 10),
        b"100,h,0,Read,0,1024,9\n110,h,0,Write,512,1024,9\n111,h,0,Read,0,1024,9\n",
        &[false, false, false, false, true, false],
        None,
    ),
    (
        (Layout::Msr { block: 512 }, 10),
        b"-1,h,x,Read,0,1024,9\n",
        &[],
        Some((1, LineKind::BadNumber { word: 1 })),
    ),
    // The first four bytes of a record are its time.
    (
        (Layout::Oracle, 255),
        b"\x00\x01\x00\x00idididid\x04\x00\x00\x00nextnext\x00\x02\x00\x00idididid\x04\x00\x00\x00nextnext",
        &[false, true],
        None,
    ),
];

// The requests of a row, and how it ends.
fn check_row(rt: &impl Abort, alloc: Global, place: usize, row: &Row) {
    let (layout, idle) = row.0;
    let format = after(layout, idle);
    holds(place, is_format(format)).expect(rt, "a form");
    let bytes = row.1.to_vec(alloc).expect(rt, "memory");
    let mut source = MemSource::new(bytes, Vec::new(alloc), 7);
    let mut reader = RequestReader::new(alloc, format, Limits::full()).expect(rt, "memory");
    for fills in row.2 {
        let found = reader.next(alloc, &mut source);
        holds(place, matches!(found, Ok(Some(_)))).expect(rt, "a request");
        same(place, reader.last_fills(), *fills).expect(rt, "a mark");
    }
    let end = reader.next(alloc, &mut source);
    let wanted = match row.3 {
        Some((line, kind)) => Err(TraceFault::BadLine { line, kind }),
        None => Ok(None),
    };
    drop(reader);
    drop(source);
    holds(place, end == wanted).expect(rt, "the end");
}

#[test]
fn times_are_read_where_objects_expire(rt: HostRuntime) {
    for (place, row) in ROWS.iter().enumerate() {
        check_row(&rt, rt.alloc(), place, row);
    }
}
