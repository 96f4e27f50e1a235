//! The unit of the intervals, and the denominator.
ghost use Rattle.std.specs.Prelude.{◌≡◌, ◌≤◌, ◌/◌, All, IfOk, IfErr};
ghost use Rattle.cache_model.specs.Claim.{marked};
ghost use Rattle.cache_model.specs.Units.{IsUnit};
ghost use Rattle.interval_maker.specs.Timelines.{IsTimeline, timeline_of};
ghost use Rattle.relaxation.specs.Denominators.{IsChosen};
ghost use Rattle.ttl_bounds.specs.declared.faults.TtlBoundsFault.TheVariants.{Denominator};
ghost use Rattle.ttl_bounds.specs.Faults.{FailsTtlBounds};

use crate::asked::TtlAsked;
use crate::faults::TtlBoundsFault;
use cache_rules::Trace;
use interval_maker::Intervals;
use relaxation::{Scale, denominator_for, unit_of};

/// The greatest unit, and the denominator that is asked for.
pub(crate) fn scale_of(
    asked: &TtlAsked,
    trace: &Trace,
    intervals: &Intervals,
) -> Result<Scale, TtlBoundsFault>
    requires intervals { intervals.now ≡ timeline_of (marked asked.now.terms trace.now.fills) trace.now.objects }
    requires timeline { IsTimeline intervals.now }
    requires fit { All (λ i. i.size ≤ asked.now.terms.capacity) intervals.now.items }
    ensures unit { IfOk result (λ s. IsUnit intervals.now.items s.unit) }
    ensures units { IfOk result (λ s. s.units ≡ asked.now.terms.capacity / s.unit) }
    ensures chosen { IfOk result (λ s. IsChosen asked.now.denominator intervals.now.items s.unit s.denominator) }
    ensures fault { IfErr result (λ fault. fault ≡ Denominator) }
    ensures refused { IfErr result (FailsTtlBounds asked.now trace.now) }
{
    let unit = unit_of(intervals);
    let units = asked.terms.capacity / unit;
    match denominator_for(intervals, unit, asked.denominator) {
        Ok(denominator) => Ok(Scale {
            unit,
            units,
            denominator: denominator.value,
        }),
        Err(_) => Err(TtlBoundsFault::Denominator),
    }
}
