//! The curves of a trace, and their reports.
ghost use Rattle.std.specs.Prelude.{◌≤◌, ◌^◌, All, IfOk, IfErr};
ghost use Rattle.stack_curve.specs.Curves.{IsCause};
ghost use Rattle.std.specs.List.Sorted.{IsNonDecreasing};
ghost use Rattle.capacity_curve.specs.Points.{IsInRange};
ghost use Rattle.bound_run.specs.CapacityCurves.{IsCapacityCurveText};
ghost use Rattle.bound_run.specs.Curves.{IsCurveText};

use bound_base::NoMemory;
use bound_report::{CapacityCurveFacts, CapacityCurveReport, CurveFacts, CurveReport, render};
use cache_rules::Trace;
use capacity_curve::{CurveTerms, points_at};
use run_counts::counting_from;
use stack_curve::{CurveFault, curve};
use std::alloc::Global;
use trace_any::{Format, TraceNotes};

/// The report of the curve of a trace of this form, with what is told beside it. It takes 8 bytes
/// for each request while it counts, and a line for each number of slots that adds hits.
pub(crate) fn curve_report(
    alloc: Global,
    format: Format,
    trace: &Trace,
    notes: &TraceNotes,
) -> Result<Vec<u8>, CurveFault>
    ensures report { IfOk result (λ text. IsCurveText format trace.now notes.now text.items) }
    ensures cause { IfErr result (IsCause trace.now.objects) }
{
    let curve = curve(alloc, trace)?;
    let facts = CurveFacts {
        requests: trace.len(),
        objects: trace.objects(),
        dropped: notes.dropped,
    };
    let report = CurveReport {
        facts,
        curve: &curve,
    };
    Ok(render(
        alloc,
        &report,
        counting_from(format, 0, trace, &notes.noted),
    )?)
}

/// The report of the curve over capacities of a trace of this form, with what is told beside it.
pub(crate) fn capacity_curve_report(
    alloc: Global,
    format: Format,
    asked: &CurveTerms,
    capacities: &[u64],
    trace: &Trace,
    notes: &TraceNotes,
) -> Result<Vec<u8>, NoMemory>
    requires ascending { IsNonDecreasing capacities.now }
    requires range { All IsInRange capacities.now }
    requires denominator { (1 ≤ asked.now.denominator) × (asked.now.denominator ≤ 2 ^ 48) }
    ensures { IfOk result (λ text. IsCapacityCurveText format asked.now capacities.now trace.now notes.now text.items) }
{
    let points = points_at(alloc, trace, capacities, asked)?;
    let facts = CapacityCurveFacts {
        requests: trace.len(),
        objects: trace.objects(),
        dropped: notes.dropped,
        asked: *asked,
    };
    let report = CapacityCurveReport {
        facts,
        points: &points,
    };
    render(
        alloc,
        &report,
        counting_from(format, asked.warmup, trace, &notes.noted),
    )
}
