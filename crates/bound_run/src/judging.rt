//! The judgement of hits that a simulator claims, and its report.
ghost use Rattle.std.specs.Prelude.{◌≡◌, ◌↔◌, IfErr, IfOk, IsOk, OnOk};
ghost use Rattle.std.specs.Result.{result_err};
ghost use Rattle.bit_list.specs.Bits.{bits_of};
ghost use Rattle.bound_io.specs.Devices.{seen};
ghost use Rattle.bound_io.specs.Reading.{LosesPrefix};
ghost use Rattle.cache_model.specs.declared.objects.Objective.TheVariants.{Object as Hits, Bytes};
ghost use Rattle.hit_judge.specs.Causes.{first_cause};
ghost use Rattle.hit_judge.specs.Possible.{IsPossibleFresh};
ghost use Rattle.trace_any.specs.Readings.{IsFormat};
ghost use Rattle.bound_run.specs.Judgements.{IsJudged, claimed_by, judged_report, written_for};
ghost use Rattle.bound_run.specs.Refusals.{RefusesJudge};

use crate::status::refusal_of_flags;
use bit_list::BitList;
use bound_base::NoMemory;
use bound_io::Source;
use bound_report::{JudgedFacts, Refusal, render};
use bound_words::JudgeSettings;
use cache_rules::Trace;
use hit_flags::{Claims, read_claims};
use hit_judge::{Claimed, Impossible, judge};
use run_counts::{counting_from, if_counted};
use std::alloc::Global;
use trace_any::{Format, TraceNotes};

// The report of possible hits, of a trace of this form.
fn judged_report(
    alloc: Global,
    format: Format,
    asked: JudgeSettings,
    claims: &Claims,
    notes: &TraceNotes,
    claimed: Claimed,
) -> Result<Vec<u8>, NoMemory>
    requires notes { notes.now ≡ claims.now.notes }
    requires hits { claimed.hits ≡ claimed_by Hits asked claims.now.trace (bits_of claims.now.flags) }
    requires bytes { claimed.bytes ≡ claimed_by Bytes asked claims.now.trace (bits_of claims.now.flags) }
    requires written { claimed.written ≡ written_for asked claims.now.trace (bits_of claims.now.flags) }
    ensures { IfOk result (λ text. text.items ≡ judged_report format asked claims.now.trace claims.now.notes (bits_of claims.now.flags)) }
{
    let facts = JudgedFacts {
        requests: claims.trace.len(),
        objects: claims.trace.objects(),
        dropped: notes.dropped,
        capacity: asked.capacity,
        claimed,
        written: if_counted(asked.writes, claimed.written),
    };
    render(
        alloc,
        &facts,
        counting_from(format, asked.warmup, &claims.trace, &notes.noted),
    )
}

// Whether flags are possible hits.
fn judge_flags(
    asked: JudgeSettings,
    trace: &Trace,
    notes: &TraceNotes,
    flags: &BitList,
) -> Result<Claimed, Impossible>
    ensures possible { IsOk result ↔ IsPossibleFresh asked.capacity trace.now.objects notes.now.noted.stale (bits_of flags.now) }
    ensures hits { IfOk result (λ c. c.hits ≡ claimed_by Hits asked trace.now (bits_of flags.now)) }
    ensures bytes { IfOk result (λ c. c.bytes ≡ claimed_by Bytes asked trace.now (bits_of flags.now)) }
    ensures written { IfOk result (λ c. c.written ≡ written_for asked trace.now (bits_of flags.now)) }
    ensures cause { result_err result ≡ first_cause asked.capacity trace.now.objects notes.now.noted.stale (bits_of flags.now) }
{
    judge(
        trace,
        &notes.noted.stale,
        flags,
        asked.capacity,
        asked.warmup,
    )
}

/// The report of the claimed hits of all that the two sources have left, if they are possible.
pub(crate) fn judge_all<T: Source, H: Source>(
    alloc: Global,
    format: Format,
    asked: JudgeSettings,
    trace: &mut T,
    hits: &mut H,
) -> Result<Vec<u8>, Refusal>
    requires format { IsFormat format }
    ensures judged { IfOk result (λ text. IsJudged format asked (seen T.left T.faults trace.old trace.new) (seen H.left H.faults hits.old hits.new) text.items) }
    ensures refused { IfErr result (RefusesJudge format asked (seen T.left T.faults trace.old trace.new) (seen H.left H.faults hits.old hits.new)) }
    ensures trace_source { LosesPrefix (T.left trace.old) (T.left trace.new) }
    ensures hits_source { LosesPrefix (H.left hits.old) (H.left hits.new) }
    ensures none_failed { OnOk result ((T.faults trace.new ≡ T.faults trace.old) × (H.faults hits.new ≡ H.faults hits.old)) }
{
    let claims = match read_claims(alloc, format, trace, hits) {
        Ok(claims) => claims,
        Err(fault) => return Err(refusal_of_flags(fault)),
    };
    match judge_flags(asked, &claims.trace, &claims.notes, &claims.flags) {
        Ok(claimed) => Ok(judged_report(alloc, format, asked, &claims, &claims.notes, claimed)?),
        Err(cause) => Err(Refusal::Impossible {
            cause,
            capacity: asked.capacity,
        }),
    }
}
