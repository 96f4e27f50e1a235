//! A check that also says how many requests count.
ghost use Rattle.std.specs.Prelude.{◌≡◌, ◌≤◌, ◌^◌, count_by, false, slice_index_or, true, IfOk, IfErr};
ghost use Rattle.std.specs.List.{range_with_len};
ghost use Rattle.bit_list.specs.Bits.{bits_of};
ghost use Rattle.bound_io.specs.Devices.{seen};
ghost use Rattle.bound_io.specs.Reading.{LosesPrefix};
ghost use Rattle.cache_model.specs.Claim.{counts_past};
ghost use Rattle.freshness.specs.Stale.{can_end};
ghost use Rattle.trace_any.specs.Readings.{IsFormat, has_marks};
ghost use Rattle.cert_checker.specs.Counting.{PassesCounted};
ghost use Rattle.cert_checker.specs.Whole.{Fails};

use crate::keeper::Keeper;
use crate::verdict::Verdict;
use crate::walking::{CheckFault, Nothing};
use crate::whole::check_new;
use bit_list::BitList;
use bound_base::NoMemory;
use bound_io::Source;
use cache_model::Object;
use cert_format::{Header, Record};
use std::alloc::Global;
use trace_any::Format;

/// A yes, how many lines of the trace were dropped, how many requests count by their own marks from the warm-up on, if the
/// form of the trace has marks, how many had a time below the clock before them, and how many were stale, if any can be.
#[derive(Clone, Copy, Debug)]
pub struct Passed {
    pub verdict: Verdict,
    pub dropped: u64,
    pub counted: Option<u32>,
    pub late: u64,
    pub stale: Option<u32>,
}

// Whether each request that passes only fills the cache.
#[derive(Drop)]
struct Marks {
    fills: BitList,
}

impl Keeper for Marks {
    ghost use Rattle.std.specs.Prelude.{◌≡◌, true};
    ghost use Rattle.bit_list.specs.Bits.{bits_of};

    ghost has = { λ kept given records. (given.marks ≡ true) × (bits_of kept.fills ≡ given.requests.fills) };

    fn keep(&mut self, _object: Object, only: bool, _entry: Record) -> Result<(), NoMemory> {
        self.fills.make_room()?;
        self.fills.push_reserved(only);
        Ok(())
    }
}

// How many requests from the warm-up on don't only fill the cache.
fn count_from(header: &Header, fills: &BitList) -> u32
    requires { header.now.requests ≤ 2 ^ 25 }
    ensures { result ≡ count_by (counts_past header.now.warmup (bits_of fills.now)) (range_with_len 0 header.now.requests) }
{
    (0..header.requests)
        .filter(|t| *t >= header.warmup && !fills.get(*t as usize))
        .count() as u32
}

// How many requests are stale.
fn count_stale(header: &Header, stale: &BitList) -> u32
    requires { header.now.requests ≤ 2 ^ 25 }
    ensures { result ≡ count_by (λ t. slice_index_or (bits_of stale.now) t false) (range_with_len 0 header.now.requests) }
{
    (0..header.requests)
        .filter(|t| stale.get(*t as usize))
        .count() as u32
}

// The check of `check_counted`, of a form of which requests can be stale.
fn check_stale<T: Source, Q: Source>(
    alloc: Global,
    format: Format,
    trace: &mut T,
    certificate: &mut Q,
) -> Result<Passed, CheckFault>
    requires format { IsFormat format }
    requires can_end { can_end format.fresh ≡ true }
    ensures yes { IfOk result (PassesCounted format
        (seen T.left T.faults trace.old trace.new) (seen Q.left Q.faults certificate.old certificate.new)) }
    ensures no { IfErr result (Fails format
        (seen T.left T.faults trace.old trace.new) (seen Q.left Q.faults certificate.old certificate.new)) }
    ensures trace_source { LosesPrefix (T.left trace.old) (T.left trace.new) }
    ensures cert_source { LosesPrefix (Q.left certificate.old) (Q.left certificate.new) }
{
    let (verdict, dropped, noted) = check_new(alloc, format, trace, certificate, &mut Nothing)?;
    let counted = count_from(&verdict.header, &noted.own);
    let stale = count_stale(&verdict.header, &noted.stale);
    Ok(Passed {
        verdict,
        dropped,
        counted: format.layout.has_marks().then_some(counted),
        late: noted.late,
        stale: Some(stale),
    })
}

// The check of `check_counted`, of a form that has marks and of which no request can be stale.
fn check_marked<T: Source, Q: Source>(
    alloc: Global,
    format: Format,
    trace: &mut T,
    certificate: &mut Q,
) -> Result<Passed, CheckFault>
    requires format { IsFormat format }
    requires marked { has_marks format.layout ≡ true }
    requires lasting { can_end format.fresh ≡ false }
    ensures yes { IfOk result (PassesCounted format
        (seen T.left T.faults trace.old trace.new) (seen Q.left Q.faults certificate.old certificate.new)) }
    ensures no { IfErr result (Fails format
        (seen T.left T.faults trace.old trace.new) (seen Q.left Q.faults certificate.old certificate.new)) }
    ensures trace_source { LosesPrefix (T.left trace.old) (T.left trace.new) }
    ensures cert_source { LosesPrefix (Q.left certificate.old) (Q.left certificate.new) }
{
    let mut marks = Marks {
        fills: BitList::new(alloc),
    };
    let (verdict, dropped, noted) = check_new(alloc, format, trace, certificate, &mut marks)?;
    let counted = count_from(&verdict.header, &marks.fills);
    Ok(Passed {
        verdict,
        dropped,
        counted: Some(counted),
        late: noted.late,
        stale: None,
    })
}

/// The check of `check_all`, which counts the requests if the form of the trace has marks, and takes a bit for each then. It
/// counts those that are stale if any can be.
pub fn check_counted<T: Source, Q: Source>(
    alloc: Global,
    format: Format,
    trace: &mut T,
    certificate: &mut Q,
) -> Result<Passed, CheckFault>
    requires { IsFormat format }
    ensures yes { IfOk result (PassesCounted format
        (seen T.left T.faults trace.old trace.new) (seen Q.left Q.faults certificate.old certificate.new)) }
    ensures no { IfErr result (Fails format
        (seen T.left T.faults trace.old trace.new) (seen Q.left Q.faults certificate.old certificate.new)) }
    ensures trace_source { LosesPrefix (T.left trace.old) (T.left trace.new) }
    ensures cert_source { LosesPrefix (Q.left certificate.old) (Q.left certificate.new) }
{
    if format.fresh.can_end() {
        return check_stale(alloc, format, trace, certificate);
    }
    if format.layout.has_marks() {
        return check_marked(alloc, format, trace, certificate);
    }
    let (verdict, dropped, noted) = check_new(alloc, format, trace, certificate, &mut Nothing)?;
    Ok(Passed {
        verdict,
        dropped,
        counted: None,
        late: noted.late,
        stale: None,
    })
}
