//! `trace_any`: answers after a fault, and loads of what is still to come. The answers were made by hand.
ghost use Rattle.std.specs.Prelude.{◌≡◌, ◌≤◌, ◌^◌, None, Err};

use crate::trace_any_requests::{gives, source_of};
use bound_io::{CalmSource, MemSource};
use cache_rules::Object;
use compared::{holds, same};
use std::alloc::Global;
use std::process::Abort;
use trace_any::{Format, Layout, Limits, RequestReader, TraceFault, load};
use trace_lines::LineKind;

// What a load gives: how many requests and objects there are, and how many lines were dropped.
fn sizes_loaded(
    alloc: Global,
    reader: &mut RequestReader,
    source: &mut MemSource,
) -> Result<(u32, u32, u64), TraceFault>
    requires { reader.old.limits.requests ≤ 2 ^ 25 }
{
    let (trace, dropped) = load(alloc, reader, source)?;
    Ok((trace.len(), trace.objects(), dropped))
}

// A trace, how many bytes a read gives, the read that fails, or 0 for none, the answers to the first calls, and what
// is loaded after them.
#[derive(Drop)]
struct Part<'a> {
    trace: &'a [u8],
    step: usize,
    failing: u64,
    first: &'a [Result<Option<Object>, TraceFault>],
    loaded: Result<(u32, u32, u64), TraceFault>,
}

fn check_part(rt: &impl Abort, alloc: Global, part: &Part<'_>) {
    holds(part.step, part.step >= 1).expect(rt, "a row");
    let mut source = source_of(rt, alloc, part.trace, part.failing, part.step);
    let reader = RequestReader::new(alloc, Format::lasting(Layout::Webcache), Limits::full());
    let mut reader = reader.expect(rt, "memory");
    for want in part.first {
        let given = gives(alloc, &mut reader, &mut source, *want);
        holds("a request", given).expect(rt, "a row");
    }
    let loaded = sizes_loaded(alloc, &mut reader, &mut source);
    drop(reader);
    drop(source);
    same("what is loaded", loaded, part.loaded).expect(rt, "a row");
}

const SEVEN: Object = Object {
    volume: 0,
    id: 7,
    size: 4,
};

const FAILING: Part<'static> = Part {
    trace: b"1 7 4\n2 7 4\n",
    step: 1,
    failing: 7,
    first: &[
        Ok(Some(SEVEN)),
        Err(TraceFault::ReadFault),
        Err(TraceFault::ReadFault),
    ],
    loaded: Err(TraceFault::ReadFault),
};

const LETTER: TraceFault = TraceFault::BadLine {
    line: 2,
    kind: LineKind::BadNumber { word: 2 },
};

// A request that would be given stands after the line that is refused.
const REFUSED: Part<'static> = Part {
    trace: b"1 7 4\n2 x 4\n3 7 4\n",
    step: 1,
    failing: 0,
    first: &[Ok(Some(SEVEN)), Err(LETTER), Err(LETTER), Err(LETTER)],
    loaded: Err(LETTER),
};

#[test]
fn a_fault_is_answered_again_and_nothing_more_is_read(rt: HostRuntime) {
    check_part(&rt, rt.alloc(), &FAILING);
    check_part(&rt, rt.alloc(), &REFUSED);
}

const TO_COME: Part<'static> = Part {
    trace: b"1 7 4\n5 7 0\n6 8 4\n7 7 4",
    step: 3,
    failing: 0,
    first: &[Ok(Some(SEVEN))],
    loaded: Ok((2, 2, 1)),
};

#[test]
fn loads_what_is_still_to_come(rt: HostRuntime) {
    check_part(&rt, rt.alloc(), &TO_COME);
}

// Over a source that never fails, no fault of it can be answered.
fn next_calmly(
    alloc: Global,
    reader: &mut RequestReader,
    source: &mut CalmSource,
) -> Result<Option<Object>, TraceFault>
    requires { reader.old.fault ≡ None }
    ensures { result ≡ Err TraceFault.ReadFault → ⊥ }
{
    reader.next(alloc, source)
}

const FEW: TraceFault = TraceFault::BadLine {
    line: 1,
    kind: LineKind::TooFewWords,
};

#[test]
fn a_calm_source_gives_no_fault(rt: HostRuntime) {
    let mut source = CalmSource::new(b"x".to_vec(rt.alloc()).expect(&rt, "memory"));
    let reader = RequestReader::new(
        rt.alloc(),
        Format::lasting(Layout::Webcache),
        Limits::full(),
    );
    let mut reader = reader.expect(&rt, "memory");
    let answer = next_calmly(rt.alloc(), &mut reader, &mut source);
    drop(reader);
    same("a line", answer, Err(FEW)).expect(&rt, "a row");
}
