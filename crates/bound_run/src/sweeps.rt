//! A sweep over a trace, and its report.
ghost use Rattle.std.specs.Prelude.{◌≡◌, ◌≢◌, All, IfOk, IfErr, OnOk};
ghost use Rattle.bound_io.specs.Devices.{seen};
ghost use Rattle.bound_io.specs.Reading.{LosesPrefix};
ghost use Rattle.trace_any.specs.Readings.{IsFormat};
ghost use Rattle.trace_sweep.specs.Swept.{IsSwept};
ghost use Rattle.policy_model.specs.declared.names.PolicyName.TheVariants.{Belady};
ghost use Rattle.policy_stream.specs.Streams.{settings_of};
ghost use Rattle.bound_words.specs.Capacities.{capacities_in};
ghost use Rattle.bound_run.specs.Statuses.{refusal_of_pass, refusal_of_sweep};
ghost use Rattle.bound_report.specs.Rendering.{rendered};
ghost use Rattle.bound_report.specs.Sweeps.{sweep_lines};
ghost use Rattle.trace_sweep.specs.Points.{HasEdges};
ghost use Rattle.bound_run.specs.Sweeps.{IsSweepText, RefusesSweep, counting_of_swept, names_of, swept_facts};

use bound_base::NoMemory;
use bound_io::Source;
use bound_report::{Counting, LimitName, Refusal, StaleCounts, SweepFacts, SweepReport, render};
use bound_words::{CapacityList, PolicyList, SweepSettings};
use policy_model::PolicyName;
use std::alloc::Global;
use trace_any::{Format, TraceFault};
use trace_sweep::{SweepFault, Swept, sweep};

// The refusal that a fault of a trace that is read in one pass leads to.
fn refusal_of_pass(fault: TraceFault) -> Refusal
    ensures { result ≡ refusal_of_pass fault }
{
    match fault {
        TraceFault::BadLine { line, kind } => Refusal::BadLine { line, kind },
        TraceFault::ReadFault => Refusal::TraceFault,
        TraceFault::InputTooLong => Refusal::Limit(LimitName::PassBytes),
        TraceFault::TooManyRequests => Refusal::Limit(LimitName::PassRequests),
        TraceFault::NoMemory => Refusal::NoMemory,
    }
}

// The refusal that a fault of a sweep leads to.
fn refusal_of_sweep(fault: SweepFault) -> Refusal
    ensures { result ≡ refusal_of_sweep fault }
{
    match fault {
        SweepFault::Trace(fault) => refusal_of_pass(fault),
        SweepFault::TooManyObjects => Refusal::Limit(LimitName::PassObjects),
        SweepFault::PolicyMemory { policy, capacity } => Refusal::PolicyMemory { policy, capacity },
    }
}

// How the requests count that a sweep passed.
fn counting_of_sweep(format: Format, warmup: u32, swept: &Swept) -> Counting
    ensures { result ≡ counting_of_swept format warmup swept.now }
{
    Counting {
        warmup,
        counted: swept.counted,
        stale: StaleCounts {
            idle: format.fresh.idle,
            ttl: format.fresh.ttl,
            late: swept.late,
            stale: swept.stale,
        },
    }
}

// The report of what a sweep found.
fn sweep_report(
    alloc: Global,
    format: Format,
    asked: SweepSettings,
    capacities: u64,
    policies: u64,
    swept: &Swept,
) -> Result<Vec<u8>, NoMemory>
    requires edges { All HasEdges swept.now.points.items }
    ensures { IfOk result (λ text. text.items ≡ rendered (counting_of_swept format asked.warmup swept.now)
        (sweep_lines (swept_facts asked capacities policies swept.now) swept.now.points.items swept.now.replays.items)) }
{
    let report = SweepReport {
        facts: SweepFacts {
            requests: swept.requests,
            objects: swept.objects,
            dropped: swept.dropped,
            capacities,
            policies,
            delay: asked.delay,
        },
        points: &swept.points,
        replays: &swept.replays,
    };
    render(
        alloc,
        &report,
        counting_of_sweep(format, asked.warmup, swept),
    )
}

// The policies that are named, if some are.
fn names_of(alloc: Global, policies: &Option<PolicyList<'_>>) -> Result<Vec<PolicyName>, NoMemory>
    ensures named { IfOk result (λ names. names.items ≡ names_of policies.now) }
    ensures ahead_of { IfOk result (λ names. All (λ n. n ≢ Belady) names.items) }
{
    match policies {
        Some(list) => list.policies(alloc),
        None => Ok(Vec::new(alloc)),
    }
}

/// The report of a sweep at these capacities, with these policies if some are named, over all that the source has left.
pub(crate) fn sweep_all<T: Source>(
    alloc: Global,
    format: Format,
    asked: SweepSettings,
    capacities: &CapacityList<'_>,
    policies: &Option<PolicyList<'_>>,
    trace: &mut T,
) -> Result<Vec<u8>, Refusal>
    requires format { IsFormat format }
    ensures swept { IfOk result (λ text. IsSweepText format asked (capacities_in capacities.now) (names_of policies.now) (seen T.left T.faults trace.old trace.new) text.items) }
    ensures refused { IfErr result (RefusesSweep format (settings_of (names_of policies.now) (capacities_in capacities.now)) (seen T.left T.faults trace.old trace.new)) }
    ensures source { LosesPrefix (T.left trace.old) (T.left trace.new) }
    ensures none_failed { OnOk result (T.faults trace.new ≡ T.faults trace.old) }
{
    let capacities = capacities.capacities(alloc)?;
    let names = names_of(alloc, policies)?;
    match sweep(
        alloc,
        format,
        &capacities,
        &names,
        asked.warmup,
        asked.delay,
        trace,
    ) {
        Ok(swept) => Ok(sweep_report(
            alloc,
            format,
            asked,
            capacities.len() as u64,
            names.len() as u64,
            &swept,
        )?),
        Err(fault) => Err(refusal_of_sweep(fault)),
    }
}
