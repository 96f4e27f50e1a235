//! `bound_io`: pieces of bytes in memory, counted by hand.
ghost use Rattle.std.specs.Prelude.{◌≡◌, ◌≤◌, ◌^◌};

use bound_io::{LineFault, LineReader, MemSource};
use compared::{holds, same};
use std::alloc::Global;
use std::process::Abort;

// Bytes, the limit of the reader, how many bytes are asked for, the pieces that are given, and the answer after them.
#[derive(Clone, Copy)]
struct Row {
    bytes: &'static [u8],
    limit: u64,
    count: usize,
    pieces: &'static [&'static [u8]],
    end: Result<&'static [u8], LineFault>,
}

const THIRTY: Row = Row {
    bytes: b"abcdefghijklmnopqrstuvwxyz\n\n\r\n",
    limit: 1 << 36,
    count: 24,
    pieces: &[b"abcdefghijklmnopqrstuvwx", b"yz\n\n\r\n"],
    end: Ok(b""),
};

const ROWS: [Row; 9] = [
    THIRTY,
    Row {
        limit: 30,
        ..THIRTY
    },
    Row {
        limit: 29,
        pieces: &[b"abcdefghijklmnopqrstuvwx"],
        end: Err(LineFault::InputTooLong),
        ..THIRTY
    },
    Row {
        limit: 23,
        pieces: &[],
        end: Err(LineFault::InputTooLong),
        ..THIRTY
    },
    Row {
        count: 30,
        pieces: &[b"abcdefghijklmnopqrstuvwxyz\n\n\r\n"],
        ..THIRTY
    },
    Row {
        count: 65536,
        pieces: &[b"abcdefghijklmnopqrstuvwxyz\n\n\r\n"],
        ..THIRTY
    },
    Row {
        bytes: b"xyz",
        count: 1,
        pieces: &[b"x", b"y", b"z"],
        ..THIRTY
    },
    Row {
        bytes: b"",
        limit: 0,
        pieces: &[],
        ..THIRTY
    },
    Row {
        bytes: b"x",
        limit: 0,
        pieces: &[],
        end: Err(LineFault::InputTooLong),
        ..THIRTY
    },
];

// Whether this is the next answer.
fn gives(
    reader: &mut LineReader,
    source: &mut MemSource,
    count: usize,
    want: Result<&[u8], LineFault>,
) -> bool
    requires some { 1 ≤ count }
    requires room { count ≤ 65536 }
{
    reader.next_bytes(source, count) == want
}

// The pieces of the row, and the answer after them twice.
fn check_answers(rt: &impl Abort, reader: &mut LineReader, source: &mut MemSource, row: &Row)
    requires some { 1 ≤ row.now.count }
    requires room { row.now.count ≤ 65536 }
{
    for piece in row.pieces {
        holds(*piece, gives(reader, source, row.count, Ok(*piece))).expect(rt, "a row");
    }
    let ends = gives(reader, source, row.count, row.end);
    let ends_again = gives(reader, source, row.count, row.end);
    holds(row.bytes, ends && ends_again).expect(rt, "a row");
    same(row.bytes, reader.line(), row.pieces.len() as u64).expect(rt, "a row");
}

// The answers, however the bytes are cut.
fn check(rt: &impl Abort, alloc: Global, row: &Row) {
    holds(row.bytes, row.limit <= 1 << 36).expect(rt, "a row");
    holds(row.bytes, row.count >= 1 && row.count <= 65536).expect(rt, "a row");
    for step in 1..51 {
        let bytes = row.bytes.to_vec(alloc).expect(rt, "memory");
        let mut source = MemSource::new(bytes, Vec::new(alloc), step);
        let mut reader = LineReader::new(alloc, row.limit).expect(rt, "memory");
        check_answers(rt, &mut reader, &mut source, row);
        drop(reader);
        drop(source);
    }
}

#[test]
fn gives_the_bytes_by_pieces(rt: HostRuntime) {
    for row in &ROWS {
        check(&rt, rt.alloc(), row);
    }
}

// A piece, and then the fault twice.
fn check_failed(rt: &impl Abort, reader: &mut LineReader, source: &mut MemSource) {
    holds(1, gives(reader, source, 2, Ok(b"ab"))).expect(rt, "a row");
    let failed = Err(LineFault::ReadFault);
    holds(2, gives(reader, source, 2, failed)).expect(rt, "a row");
    holds(3, gives(reader, source, 2, failed)).expect(rt, "a row");
    let counts = [reader.taken(), reader.consumed(), reader.line()];
    same("the counts", counts, [3, 2, 1]).expect(rt, "a row");
}

#[test]
fn a_failed_read_of_a_piece_is_answered_again(rt: HostRuntime) {
    let bytes = b"abcd".to_vec(rt.alloc()).expect(&rt, "memory");
    let fails = vec![in rt.alloc(); 4].expect(&rt, "memory");
    let mut source = MemSource::new(bytes, fails, 1);
    let mut reader = LineReader::new(rt.alloc(), 100).expect(&rt, "memory");
    check_failed(&rt, &mut reader, &mut source);
    drop(reader);
    drop(source);
}
