//! `bound_io`: lines of bytes in memory, counted by hand.
ghost use Rattle.std.specs.Prelude.{◌≡◌, ◌≤◌, ◌^◌, None, Err};

use bound_io::{CalmSource, LineFault, LineReader, MemSource, Source, WholeLine};
use compared::{holds, same};
use std::alloc::Global;
use std::process::Abort;

const STEPS: [usize; 6] = [1, 2, 7, 65535, 65536, 65537];

// Whether this is the next answer.
fn gives(
    reader: &mut LineReader,
    source: &mut MemSource,
    want: Result<WholeLine<'_>, LineFault>,
) -> bool {
    reader.next_whole_line(source) == want
}

// The lines that a reader gives, and how it ends, twice.
fn check_answers(
    rt: &impl Abort,
    reader: &mut LineReader,
    source: &mut MemSource,
    step: usize,
    lines: &[WholeLine<'_>],
    end: Result<WholeLine<'_>, LineFault>,
) {
    for line in lines {
        holds(step, gives(reader, source, Ok(*line))).expect(rt, "a row");
    }
    let ends = gives(reader, source, end) && gives(reader, source, end);
    holds(step, ends).expect(rt, "a row");
    same(step, reader.line(), lines.len() as u64).expect(rt, "a row");
}

// The lines that a reader with this limit gives of the bytes, and how it ends, whatever the step.
fn check(
    rt: &impl Abort,
    alloc: Global,
    bytes: &[u8],
    limit: u64,
    lines: &[WholeLine<'_>],
    end: Result<WholeLine<'_>, LineFault>,
)
    requires { limit ≤ 2 ^ 36 }
{
    for step in STEPS {
        let bytes = bytes.to_vec(alloc).expect(rt, "memory");
        let mut source = MemSource::new(bytes, Vec::new(alloc), step);
        let mut reader = LineReader::new(alloc, limit).expect(rt, "memory");
        check_answers(rt, &mut reader, &mut source, step, lines, end);
        drop(reader);
        drop(source);
    }
}

const ROWS: [(&[u8], &[WholeLine<'static>]); 6] = [
    (b"", &[]),
    (b"\n", &[WholeLine::Whole(b"")]),
    (
        b"\n\nx",
        &[
            WholeLine::Whole(b""),
            WholeLine::Whole(b""),
            WholeLine::Unended(b"x"),
        ],
    ),
    (
        b"ab\r\ncd\n",
        &[WholeLine::Whole(b"ab\r"), WholeLine::Whole(b"cd")],
    ),
    (
        b"one\ntwo",
        &[WholeLine::Whole(b"one"), WholeLine::Unended(b"two")],
    ),
    (
        b"one\n \n",
        &[WholeLine::Whole(b"one"), WholeLine::Whole(b" ")],
    ),
];

#[test]
fn gives_the_lines_of_the_bytes(rt: HostRuntime) {
    for (bytes, lines) in &ROWS {
        check(&rt, rt.alloc(), bytes, 100, lines, Ok(WholeLine::AtEnd));
    }
}

#[test]
fn refuses_what_passes_the_limit(rt: HostRuntime) {
    let ab = [WholeLine::Whole(b"ab")];
    let abcd = [WholeLine::Whole(b"ab"), WholeLine::Whole(b"cd")];
    let unended = [WholeLine::Whole(b"ab"), WholeLine::Unended(b"cd")];
    let past = Err(LineFault::InputTooLong);
    let end = Ok(WholeLine::AtEnd);
    check(&rt, rt.alloc(), b"ab\ncd\n", 5, &ab, past);
    check(&rt, rt.alloc(), b"ab\ncd\n", 6, &abcd, end);
    check(&rt, rt.alloc(), b"ab\ncd", 5, &unended, end);
    check(&rt, rt.alloc(), b"ab\ncd", 4, &ab, past);
    check(&rt, rt.alloc(), b"\n", 0, &[], past);
    check(&rt, rt.alloc(), b"", 0, &[], end);
}

#[test]
fn a_text_has_at_most_65535_bytes(rt: HostRuntime) {
    let alloc = rt.alloc();
    let mut bytes = vec![in alloc; b'x'; 65535].expect(&rt, "memory");
    let whole = bytes.to_vec(alloc).expect(&rt, "memory");
    let unended = [WholeLine::Unended(whole.as_slice())];
    check(&rt, alloc, &bytes, 65535, &unended, Ok(WholeLine::AtEnd));
    bytes.push(b'\n').expect(&rt, "memory");
    let line = [WholeLine::Whole(whole.as_slice())];
    check(&rt, alloc, &bytes, 65536, &line, Ok(WholeLine::AtEnd));
    check(&rt, alloc, &bytes, 65535, &[], Err(LineFault::InputTooLong));
    bytes.insert(0, b'x').expect(&rt, "memory");
    let first = Err(LineFault::LineTooLong { line: 1 });
    check(&rt, alloc, &bytes, 10, &[], first);
    bytes.insert(0, b'\n').expect(&rt, "memory");
    let second = Err(LineFault::LineTooLong { line: 2 });
    check(&rt, alloc, &bytes, 100000, &[WholeLine::Whole(b"")], second);
}

// Whether this is the answer that tells no line without its end.
fn gives_line(
    reader: &mut LineReader,
    source: &mut MemSource,
    want: Result<Option<&[u8]>, LineFault>,
) -> bool {
    reader.next_line(source) == want
}

// A line, and then the fault twice.
fn check_failed(rt: &impl Abort, reader: &mut LineReader, source: &mut MemSource) {
    holds(1, gives_line(reader, source, Ok(Some(b"ab")))).expect(rt, "a row");
    let failed = Err(LineFault::ReadFault);
    holds(2, gives_line(reader, source, failed)).expect(rt, "a row");
    holds(3, gives_line(reader, source, failed)).expect(rt, "a row");
    let counts = [reader.taken(), reader.consumed(), reader.line()];
    same("the counts", counts, [3, 3, 1]).expect(rt, "a row");
    same("the next read", source.read(&mut [0; 10]), Ok(1)).expect(rt, "a row");
}

#[test]
fn a_failed_read_is_answered_again_and_nothing_more_is_read(rt: HostRuntime) {
    let bytes = b"ab\ncd\n".to_vec(rt.alloc()).expect(&rt, "memory");
    let fails = vec![in rt.alloc(); 4].expect(&rt, "memory");
    let mut source = MemSource::new(bytes, fails, 1);
    let mut reader = LineReader::new(rt.alloc(), 100).expect(&rt, "memory");
    check_failed(&rt, &mut reader, &mut source);
    drop(reader);
    drop(source);
}

// Over a source that never fails, no fault of it can be answered.
fn read_calmly(reader: &mut LineReader, source: &mut CalmSource) -> Result<bool, LineFault>
    requires { reader.old.fault ≡ None }
    ensures { result ≡ Err LineFault.ReadFault → ⊥ }
{
    Ok(reader.next_line(source)?.is_some())
}

#[test]
fn reads_at_most_a_buffer_ahead(rt: HostRuntime) {
    let bytes = vec![in rt.alloc(); b'\n'; 65540].expect(&rt, "memory");
    let mut source = CalmSource::new(bytes);
    let mut reader = LineReader::new(rt.alloc(), 1 << 36).expect(&rt, "memory");
    let read = read_calmly(&mut reader, &mut source);
    same("a line", read, Ok(true)).expect(&rt, "a row");
    let counts = [reader.taken(), reader.consumed()];
    drop(reader);
    same("taken", counts, [65536, 1]).expect(&rt, "a row");
}
