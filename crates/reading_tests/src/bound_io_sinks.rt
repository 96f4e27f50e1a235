//! `bound_io`: sinks in memory and over files.
ghost use Rattle.std.specs.Prelude.{◌≤◌};

use bound_io::{Failed, FileSink, GrowSink, MemSink, Sink, write_all};
use compared::same;
use std::alloc::Global;
use std::process::Abort;

// A piece, and what a write of it answers.
type Row = (&'static [u8], Result<usize, Failed>);

fn write_each<K: Sink>(rt: &impl Abort, sink: &mut K, rows: &[Row]) {
    for (piece, want) in rows {
        same(*piece, sink.write(piece), *want).expect(rt, "a row");
    }
}

// A sink for this many bytes, which takes at most `step` of them a call and fails at one call, or at none if its
// number is 0.
fn sink_of(rt: &impl Abort, alloc: Global, room: usize, failing: u64, step: usize) -> MemSink
    requires { 1 ≤ step }
{
    let fails = vec![in alloc; failing].expect(rt, "memory");
    MemSink::new(alloc, room, fails, step).expect(rt, "memory")
}

const INTO_SEVEN_BYTES: [Row; 8] = [
    (b"abcdefgh", Ok(3)),
    (b"defgh", Err(Failed)),
    (b"defgh", Ok(3)),
    (b"", Ok(0)),
    (b"gh", Ok(1)),
    (b"h", Err(Failed)),
    (b"", Ok(0)),
    (b"h", Err(Failed)),
];

#[test]
fn a_failed_write_takes_nothing_and_a_full_sink_fails(rt: HostRuntime) {
    let mut sink = sink_of(&rt, rt.alloc(), 7, 2, 3);
    write_each(&rt, &mut sink, &INTO_SEVEN_BYTES);
    let want = b"abcdefg".as_slice();
    same("written", sink.written(), want).expect(&rt, "a row");
    same("the bytes", sink.into_bytes().as_slice(), want).expect(&rt, "a row");
}

const WHOLE: [Row; 3] = [(b"two ", Ok(4)), (b"", Ok(0)), (b"pieces", Ok(6))];

#[test]
fn keeps_each_piece_whole(rt: HostRuntime) {
    let mut sink = GrowSink::new(rt.alloc());
    write_each(&rt, &mut sink, &WHOLE);
    let bytes = sink.into_bytes();
    same("the bytes", bytes.as_slice(), b"two pieces".as_slice()).expect(&rt, "a row");
}

#[test]
fn a_full_device_is_a_fault(rt: HostRuntime) {
    let mut sink = FileSink::new(&rt, rt.alloc(), "/dev/full").expect(&rt, "memory");
    write_each(&rt, &mut sink, &[(b"x", Err(Failed)), (b"x", Err(Failed))]);
}

// The room, the call that fails, two pieces, whether each is written whole, and what stands in the sink after them.
type BothRow = (
    usize,
    u64,
    &'static [u8],
    &'static [u8],
    [bool; 2],
    &'static [u8],
);

const BOTH: [BothRow; 6] = [
    (20, 0, b"seven b", b"", [true, true], b"seven b"),
    (7, 0, b"seven b", b"", [true, true], b"seven b"),
    (20, 1, b"seven b", b"", [false, true], b""),
    (20, 3, b"seven b", b"", [false, true], b"seve"),
    (5, 0, b"seven b", b"", [false, true], b"seven"),
    (20, 2, b"four", b"more", [false, true], b"fomore"),
];

// Whether each piece was written whole, and what stands in the sink.
fn write_both(rt: &impl Abort, alloc: Global, row: &BothRow) -> ([bool; 2], Vec<u8>) {
    let (room, failing, first, second, _, _) = *row;
    let mut sink = sink_of(rt, alloc, room, failing, 2);
    let first = write_all(&mut sink, first).is_ok();
    let second = write_all(&mut sink, second).is_ok();
    ([first, second], sink.into_bytes())
}

#[test]
fn writes_all_or_stops_at_the_first_fault_and_goes_on_after_it(rt: HostRuntime) {
    for (place, row) in BOTH.iter().enumerate() {
        let (whole, bytes) = write_both(&rt, rt.alloc(), row);
        same(place, whole, row.4).expect(&rt, "a row");
        same(place, bytes.as_slice(), row.5).expect(&rt, "a row");
    }
}
