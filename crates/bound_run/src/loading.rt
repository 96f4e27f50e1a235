//! What comes of reading the whole trace.
ghost use Rattle.std.specs.Prelude.{◌≡◌, ◌≤◌, ◌^◌, IfOk, IfErr, OnOk};
ghost use Rattle.bound_io.specs.Devices.{seen};
ghost use Rattle.bound_io.specs.Reading.{LosesPrefix};
ghost use Rattle.trace_any.specs.Readings.{IsFormat};
ghost use Rattle.trace_any.specs.Loads.{IsLoaded};
ghost use Rattle.bound_words.specs.Capacities.{capacities_in};
ghost use Rattle.bound_run.specs.Readings.{IsCapacityCurved, IsCurved, IsReady, IsReplayed};
ghost use Rattle.bound_run.specs.Refusals.{RefusesBounds, RefusesCurve, RefusesLoading};

use crate::bounds::texts_of;
use crate::curves::{capacity_curve_report, curve_report};
use crate::replays::replay_text;
use crate::status::{refusal_of, refusal_of_curve};
use crate::writing::Texts;
use bound_io::Source;
use bound_report::Refusal;
use bound_words::{BoundSettings, CapacityList, ReplaySettings};
use cache_rules::Trace;
use capacity_curve::CurveTerms;
use std::alloc::Global;
use trace_any::{Format, Limits, RequestReader, TraceNotes, load};

// The requests of all that the source has left, and what is told beside them.
fn load_all<T: Source>(
    alloc: Global,
    format: Format,
    trace: &mut T,
) -> Result<(Trace, TraceNotes), Refusal>
    requires { IsFormat format }
    ensures loaded { IfOk result (λ read. IsLoaded format (seen T.left T.faults trace.old trace.new) read.0 read.1) }
    ensures refused { IfErr result (RefusesLoading format (seen T.left T.faults trace.old trace.new)) }
    ensures source { LosesPrefix (T.left trace.old) (T.left trace.new) }
    ensures none_failed { OnOk result (T.faults trace.new ≡ T.faults trace.old) }
{
    let mut reader = RequestReader::new(alloc, format, Limits::full())?;
    match load(alloc, &mut reader, trace) {
        Ok((requests, _)) => Ok((requests, reader.into_notes())),
        Err(fault) => Err(refusal_of(fault)),
    }
}

/// The certificate and the report of all that the source has left.
pub(crate) fn prepare<T: Source>(
    alloc: Global,
    format: Format,
    asked: &BoundSettings,
    trace: &mut T,
) -> Result<Texts, Refusal>
    requires format { IsFormat format }
    ensures ready { IfOk result (λ texts. IsReady format asked.now (seen T.left T.faults trace.old trace.new) texts.cert.items texts.report.items) }
    ensures refused { IfErr result (RefusesBounds format asked.now (seen T.left T.faults trace.old trace.new)) }
    ensures source { LosesPrefix (T.left trace.old) (T.left trace.new) }
    ensures none_failed { OnOk result (T.faults trace.new ≡ T.faults trace.old) }
{
    // Dropped here, for the proof.
    let texts = {
        let (requests, notes) = load_all(alloc, format, trace)?;
        texts_of(alloc, format, asked, &requests, &notes)
    };
    Ok(texts?)
}

/// The report of the replay of all that the source has left.
pub(crate) fn replay_all<T: Source>(
    alloc: Global,
    format: Format,
    r: ReplaySettings,
    trace: &mut T,
) -> Result<Vec<u8>, Refusal>
    requires format { IsFormat format }
    ensures replayed { IfOk result (λ text. IsReplayed format r (seen T.left T.faults trace.old trace.new) text.items) }
    ensures refused { IfErr result (RefusesLoading format (seen T.left T.faults trace.old trace.new)) }
    ensures source { LosesPrefix (T.left trace.old) (T.left trace.new) }
    ensures none_failed { OnOk result (T.faults trace.new ≡ T.faults trace.old) }
{
    // Dropped here, for the proof.
    let text = {
        let (requests, notes) = load_all(alloc, format, trace)?;
        replay_text(alloc, format, r, &requests, &notes)
    };
    Ok(text?)
}

/// The report of the curve of all that the source has left.
pub(crate) fn curve_all<T: Source>(
    alloc: Global,
    format: Format,
    trace: &mut T,
) -> Result<Vec<u8>, Refusal>
    requires format { IsFormat format }
    ensures curved { IfOk result (λ text. IsCurved format (seen T.left T.faults trace.old trace.new) text.items) }
    ensures refused { IfErr result (RefusesCurve format (seen T.left T.faults trace.old trace.new)) }
    ensures source { LosesPrefix (T.left trace.old) (T.left trace.new) }
    ensures none_failed { OnOk result (T.faults trace.new ≡ T.faults trace.old) }
{
    // Dropped here, for the proof.
    let text = {
        let (requests, notes) = load_all(alloc, format, trace)?;
        curve_report(alloc, format, &requests, &notes)
    };
    match text {
        Ok(text) => Ok(text),
        Err(fault) => Err(refusal_of_curve(fault)),
    }
}

/// The report of the curve over these capacities, of all that the source has left.
pub(crate) fn capacity_curve_all<T: Source>(
    alloc: Global,
    format: Format,
    asked: &CurveTerms,
    capacities: &CapacityList<'_>,
    trace: &mut T,
) -> Result<Vec<u8>, Refusal>
    requires format { IsFormat format }
    requires denominator { (1 ≤ asked.now.denominator) × (asked.now.denominator ≤ 2 ^ 48) }
    ensures curved { IfOk result (λ text. IsCapacityCurved format asked.now (capacities_in capacities.now)
        (seen T.left T.faults trace.old trace.new) text.items) }
    ensures refused { IfErr result (RefusesLoading format (seen T.left T.faults trace.old trace.new)) }
    ensures source { LosesPrefix (T.left trace.old) (T.left trace.new) }
    ensures none_failed { OnOk result (T.faults trace.new ≡ T.faults trace.old) }
{
    let capacities = capacities.capacities(alloc)?;
    // Dropped here, for the proof.
    let text = {
        let (requests, notes) = load_all(alloc, format, trace)?;
        capacity_curve_report(alloc, format, asked, &capacities, &requests, &notes)
    };
    Ok(text?)
}
