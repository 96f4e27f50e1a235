//! All that the program does, over any sources and sinks.
ghost use Rattle.std.specs.Prelude.{◌≡◌, ◌≤◌, ◌^◌, map, string_bytes, Result, Ok, Some, IfOk};
ghost use Rattle.bound_io.specs.Devices.{seen};
ghost use Rattle.bound_io.specs.Reading.{LosesPrefix};
ghost use Rattle.trace_any.specs.Readings.{IsFormat};
ghost use Rattle.bound_run.specs.Headline.{Headline};
ghost use Rattle.bound_run.specs.Run.{BoundsEnd, CapacityCurveEnds, CheckEnds, Completes, CurveEnds, DemoEnds};
ghost use Rattle.bound_run.specs.Run.{IsCalm, JudgeEnds, RefineEnds, ReplayEnds, RunEnds, SweepEnds, TtlBoundsEnd, UpgradeEnds, devices};
ghost use Rattle.bound_run.specs.Statuses.{ending_of};
ghost use Rattle.bound_run.specs.Sweeps.{names_of};
ghost use Rattle.bound_words.specs.Capacities.{capacities_in};
ghost use Rattle.bound_words.specs.Plans.{IsPlanInRange};
ghost use Rattle.bound_words.specs.Words.{plan};

use crate::checking::verdict_of;
use crate::demos::demo_report;
use crate::judging::judge_all;
use crate::loading::{capacity_curve_all, curve_all, prepare, replay_all};
use crate::refined::refine_all;
use crate::status::Status;
use crate::sweeps::sweep_all;
use crate::timed::prepare_with_ttl;
use crate::upgrades::upgrade_all;
use crate::writing::{refuse, write_out, write_report};
use bound_io::{Sink, Source};
use bound_report::Refusal;
use bound_words::{
    BoundSettings, CapacityList, DrawSettings, JudgeSettings, Plan, PolicyList, ReplaySettings,
    Settings, SweepSettings, WordFault, plan_of, settings_of,
};
use capacity_curve::CurveTerms;
use std::alloc::Global;
use trace_any::Format;

// Reads the trace, and writes its bounds and their certificate.
fn run_bounds<T: Source, R: Sink, K: Sink>(
    alloc: Global,
    format: Format,
    asked: &BoundSettings,
    trace: &mut T,
    report: &mut R,
    made: &mut K,
) -> Status
    requires format { IsFormat format }
    ensures ends { BoundsEnd format asked.now
        (seen T.left T.faults trace.old trace.new)
        (seen R.written R.faults report.old report.new)
        (seen K.written K.faults made.old made.new) (ending_of result) }
    ensures source { LosesPrefix (T.left trace.old) (T.left trace.new) }
    ensures none_failed { result ≡ Status.Done → (T.faults trace.new ≡ T.faults trace.old) × (R.faults report.new ≡ R.faults report.old) × (K.faults made.new ≡ K.faults made.old) }
{
    match prepare(alloc, format, asked, trace) {
        Ok(texts) => write_out(report, made, &texts),
        Err(refusal) => refuse(report, refusal),
    }
}

// Reads the trace, and writes its bounds with the time to live of the form, and their certificate.
fn run_ttl_bounds<T: Source, R: Sink, K: Sink>(
    alloc: Global,
    format: Format,
    ttl: u64,
    asked: &BoundSettings,
    trace: &mut T,
    report: &mut R,
    made: &mut K,
) -> Status
    requires format { IsFormat format }
    requires ttl { format.fresh.ttl ≡ Some ttl }
    ensures ends { TtlBoundsEnd format ttl asked.now
        (seen T.left T.faults trace.old trace.new)
        (seen R.written R.faults report.old report.new)
        (seen K.written K.faults made.old made.new) (ending_of result) }
    ensures source { LosesPrefix (T.left trace.old) (T.left trace.new) }
    ensures none_failed { result ≡ Status.Done → (T.faults trace.new ≡ T.faults trace.old) × (R.faults report.new ≡ R.faults report.old) × (K.faults made.new ≡ K.faults made.old) }
{
    match prepare_with_ttl(alloc, format, ttl, asked, trace) {
        Ok(texts) => write_out(report, made, &texts),
        Err(refusal) => refuse(report, refusal),
    }
}

// Reads the trace and the certificate, and writes what a check says of them.
fn run_check<T: Source, Q: Source, R: Sink>(
    alloc: Global,
    format: Format,
    trace: &mut T,
    cert: &mut Q,
    report: &mut R,
) -> Status
    requires { IsFormat format }
    ensures ends { CheckEnds format
        (seen T.left T.faults trace.old trace.new)
        (seen Q.left Q.faults cert.old cert.new)
        (seen R.written R.faults report.old report.new) (ending_of result) }
    ensures trace_source { LosesPrefix (T.left trace.old) (T.left trace.new) }
    ensures cert_source { LosesPrefix (Q.left cert.old) (Q.left cert.new) }
    ensures none_failed { result ≡ Status.Done → (T.faults trace.new ≡ T.faults trace.old) × (Q.faults cert.new ≡ Q.faults cert.old) × (R.faults report.new ≡ R.faults report.old) }
{
    match verdict_of(alloc, format, trace, cert) {
        Ok(text) => write_report(report, &text),
        Err(refusal) => refuse(report, refusal),
    }
}

// Reads the trace, and writes the report of its replay.
fn run_replay<T: Source, R: Sink>(
    alloc: Global,
    format: Format,
    asked: ReplaySettings,
    trace: &mut T,
    report: &mut R,
) -> Status
    requires format { IsFormat format }
    ensures ends { ReplayEnds format asked
        (seen T.left T.faults trace.old trace.new)
        (seen R.written R.faults report.old report.new) (ending_of result) }
    ensures source { LosesPrefix (T.left trace.old) (T.left trace.new) }
    ensures none_failed { result ≡ Status.Done → (T.faults trace.new ≡ T.faults trace.old) × (R.faults report.new ≡ R.faults report.old) }
{
    match replay_all(alloc, format, asked, trace) {
        Ok(replayed) => write_report(report, &replayed),
        Err(refusal) => refuse(report, refusal),
    }
}

// Reads the trace, and writes the report of its curve.
fn run_curve<T: Source, R: Sink>(
    alloc: Global,
    format: Format,
    trace: &mut T,
    report: &mut R,
) -> Status
    requires format { IsFormat format }
    ensures ends { CurveEnds format
        (seen T.left T.faults trace.old trace.new)
        (seen R.written R.faults report.old report.new) (ending_of result) }
    ensures source { LosesPrefix (T.left trace.old) (T.left trace.new) }
    ensures none_failed { result ≡ Status.Done → (T.faults trace.new ≡ T.faults trace.old) × (R.faults report.new ≡ R.faults report.old) }
{
    match curve_all(alloc, format, trace) {
        Ok(curved) => write_report(report, &curved),
        Err(refusal) => refuse(report, refusal),
    }
}

// Reads the trace, and writes the report of its curve over these capacities.
fn run_capacity_curve<T: Source, R: Sink>(
    alloc: Global,
    format: Format,
    asked: &CurveTerms,
    capacities: &CapacityList<'_>,
    trace: &mut T,
    report: &mut R,
) -> Status
    requires format { IsFormat format }
    requires denominator { (1 ≤ asked.now.denominator) × (asked.now.denominator ≤ 2 ^ 48) }
    ensures ends { CapacityCurveEnds format asked.now (capacities_in capacities.now)
        (seen T.left T.faults trace.old trace.new)
        (seen R.written R.faults report.old report.new) (ending_of result) }
    ensures source { LosesPrefix (T.left trace.old) (T.left trace.new) }
    ensures none_failed { result ≡ Status.Done → (T.faults trace.new ≡ T.faults trace.old) × (R.faults report.new ≡ R.faults report.old) }
{
    match capacity_curve_all(alloc, format, asked, capacities, trace) {
        Ok(curved) => write_report(report, &curved),
        Err(refusal) => refuse(report, refusal),
    }
}

// Goes once over the trace, and writes the bounds at these capacities, and what the policies count there.
fn run_sweep<T: Source, R: Sink>(
    alloc: Global,
    format: Format,
    asked: SweepSettings,
    capacities: &CapacityList<'_>,
    policies: &Option<PolicyList<'_>>,
    trace: &mut T,
    report: &mut R,
) -> Status
    requires format { IsFormat format }
    ensures ends { SweepEnds format asked (capacities_in capacities.now) (names_of policies.now)
        (seen T.left T.faults trace.old trace.new)
        (seen R.written R.faults report.old report.new) (ending_of result) }
    ensures source { LosesPrefix (T.left trace.old) (T.left trace.new) }
    ensures none_failed { result ≡ Status.Done → (T.faults trace.new ≡ T.faults trace.old) × (R.faults report.new ≡ R.faults report.old) }
{
    match sweep_all(alloc, format, asked, capacities, policies, trace) {
        Ok(swept) => write_report(report, &swept),
        Err(refusal) => refuse(report, refusal),
    }
}

// Reads the trace and the flags of its requests, and writes what they claim if it is possible.
fn run_judge<T: Source, H: Source, R: Sink>(
    alloc: Global,
    format: Format,
    asked: JudgeSettings,
    trace: &mut T,
    hits: &mut H,
    report: &mut R,
) -> Status
    requires format { IsFormat format }
    ensures ends { JudgeEnds format asked
        (seen T.left T.faults trace.old trace.new)
        (seen H.left H.faults hits.old hits.new)
        (seen R.written R.faults report.old report.new) (ending_of result) }
    ensures trace_source { LosesPrefix (T.left trace.old) (T.left trace.new) }
    ensures hits_source { LosesPrefix (H.left hits.old) (H.left hits.new) }
    ensures none_failed { result ≡ Status.Done → (T.faults trace.new ≡ T.faults trace.old) × (H.faults hits.new ≡ H.faults hits.old) × (R.faults report.new ≡ R.faults report.old) }
{
    match judge_all(alloc, format, asked, trace, hits) {
        Ok(judged) => write_report(report, &judged),
        Err(refusal) => refuse(report, refusal),
    }
}

// Writes the report of a demo.
fn run_demo<R: Sink>(
    alloc: Global,
    drawing: DrawSettings,
    asked: &BoundSettings,
    report: &mut R,
) -> Status
    ensures ends { DemoEnds drawing asked.now (seen R.written R.faults report.old report.new) (ending_of result) }
    ensures none_failed { result ≡ Status.Done → R.faults report.new ≡ R.faults report.old }
{
    match demo_report(alloc, drawing, asked) {
        Ok(shown) => write_report(report, &shown),
        Err(refusal) => refuse(report, refusal),
    }
}

// Reads a certificate, and writes it in the second version of its text.
fn run_upgrade<Q: Source, R: Sink, K: Sink>(
    alloc: Global,
    cert: &mut Q,
    report: &mut R,
    made: &mut K,
) -> Status
    ensures ends { UpgradeEnds
        (seen Q.left Q.faults cert.old cert.new)
        (seen R.written R.faults report.old report.new)
        (seen K.written K.faults made.old made.new) (ending_of result) }
    ensures source { LosesPrefix (Q.left cert.old) (Q.left cert.new) }
    ensures none_failed { result ≡ Status.Done → (Q.faults cert.new ≡ Q.faults cert.old) × (R.faults report.new ≡ R.faults report.old) × (K.faults made.new ≡ K.faults made.old) }
{
    match upgrade_all(alloc, cert) {
        Ok(rewritten) => write_out(report, made, &rewritten),
        Err(refusal) => refuse(report, refusal),
    }
}

// Reads the trace and the certificate, and writes the certificate with refined prices.
fn run_refine<T: Source, Q: Source, R: Sink, K: Sink>(
    alloc: Global,
    format: Format,
    width: u32,
    trace: &mut T,
    cert: &mut Q,
    report: &mut R,
    made: &mut K,
) -> Status
    requires format { IsFormat format }
    requires width { 1 ≤ width }
    ensures ends { RefineEnds format width
        (seen T.left T.faults trace.old trace.new)
        (seen Q.left Q.faults cert.old cert.new)
        (seen R.written R.faults report.old report.new)
        (seen K.written K.faults made.old made.new) (ending_of result) }
    ensures trace_source { LosesPrefix (T.left trace.old) (T.left trace.new) }
    ensures cert_source { LosesPrefix (Q.left cert.old) (Q.left cert.new) }
    ensures none_failed { result ≡ Status.Done → (T.faults trace.new ≡ T.faults trace.old) × (Q.faults cert.new ≡ Q.faults cert.old) × (R.faults report.new ≡ R.faults report.old) × (K.faults made.new ≡ K.faults made.old) }
{
    match refine_all(alloc, format, width, trace, cert) {
        Ok(refined) => write_out(report, made, &refined),
        Err(refusal) => refuse(report, refusal),
    }
}

// Does what the words ask for, or says why they are refused.
fn run_plan<T: Source, Q: Source, R: Sink, K: Sink>(
    alloc: Global,
    plan: Result<Plan<'_>, WordFault>,
    trace: &mut T,
    beside: &mut Q,
    report: &mut R,
    made: &mut K,
) -> Status
    requires { IfOk plan IsPlanInRange }
    ensures ends { RunEnds plan.entry (devices
        (seen T.left T.faults trace.old trace.new) (seen Q.left Q.faults beside.old beside.new)
        (seen R.written R.faults report.old report.new) (seen K.written K.faults made.old made.new)) result }
    ensures none_failed { result ≡ Status.Done → IsCalm (devices
        (seen T.left T.faults trace.old trace.new) (seen Q.left Q.faults beside.old beside.new)
        (seen R.written R.faults report.old report.new) (seen K.written K.faults made.old made.new)) }
{
    let plan = match plan {
        Ok(plan) => plan,
        Err(WordFault { place, kind }) => return refuse(report, Refusal::Words { place, kind }),
    };
    match settings_of(plan) {
        Settings::Bounds(format, asked) => run_bounds(alloc, format, &asked, trace, report, made),
        Settings::TtlBounds(format, ttl, asked) => {
            run_ttl_bounds(alloc, format, ttl, &asked, trace, report, made)
        }
        Settings::Check(format) => run_check(alloc, format, trace, beside, report),
        Settings::Replay(format, asked) => run_replay(alloc, format, asked, trace, report),
        Settings::Curve(format) => run_curve(alloc, format, trace, report),
        Settings::CapacityCurve(format, capacities, asked) => {
            run_capacity_curve(alloc, format, &asked, &capacities, trace, report)
        }
        Settings::Sweep(format, capacities, policies, asked) => run_sweep(
            alloc,
            format,
            asked,
            &capacities,
            &policies,
            trace,
            report,
        ),
        Settings::Judge(format, asked) => run_judge(alloc, format, asked, trace, beside, report),
        Settings::Demo(drawing, asked) => run_demo(alloc, drawing, &asked, report),
        Settings::Upgrade => run_upgrade(alloc, beside, report, made),
        Settings::Refine(format, width) => {
            run_refine(alloc, format, width, trace, beside, report, made)
        }
    }
}

/// Does all that the program does. It reads the words, and for bounds the trace, and writes the certificate and then
/// the report; for a check it reads the trace and the certificate side by side, for a replay, a curve or a sweep the trace, and
/// writes the report; for claimed hits it reads the trace and their flags by turns, and writes the report; for a demo it
/// reads nothing and writes the report; for an upgrade it reads the certificate, and writes it in the second version of
/// its text and then the report; for a refinement it reads the trace and the certificate, and writes the certificate with
/// refined prices and then the report. What is read beside the trace, a certificate or flags, comes from `beside`.
/// The words are those after the program's name. All memory is taken before the first byte is written.
pub fn run<T: Source, Q: Source, R: Sink, K: Sink>(
    alloc: Global,
    words: &[String],
    trace: &mut T,
    beside: &mut Q,
    report: &mut R,
    made: &mut K,
) -> Status
    ensures headline { result ≡ Status.Done → Headline (plan (map string_bytes words.now)) (devices
        (seen T.left T.faults trace.old trace.new) (seen Q.left Q.faults beside.old beside.new)
        (seen R.written R.faults report.old report.new) (seen K.written K.faults made.old made.new)) }
    ensures explains { RunEnds (plan (map string_bytes words.now)) (devices
        (seen T.left T.faults trace.old trace.new) (seen Q.left Q.faults beside.old beside.new)
        (seen R.written R.faults report.old report.new) (seen K.written K.faults made.old made.new)) result }
    ensures completes { Completes (plan (map string_bytes words.now)) (devices
        (seen T.left T.faults trace.old trace.new) (seen Q.left Q.faults beside.old beside.new)
        (seen R.written R.faults report.old report.new) (seen K.written K.faults made.old made.new)) result }
    ensures none_failed { result ≡ Status.Done → IsCalm (devices
        (seen T.left T.faults trace.old trace.new) (seen Q.left Q.faults beside.old beside.new)
        (seen R.written R.faults report.old report.new) (seen K.written K.faults made.old made.new)) }
{
    run_plan(alloc, plan_of(words), trace, beside, report, made)
}
