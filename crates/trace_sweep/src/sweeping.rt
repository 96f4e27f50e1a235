//! A sweep over all that a source has left.
ghost use Rattle.std.specs.Prelude.{◌≡◌, ◌≢◌, ◌≤◌, List, Bool, [], All, IfOk, IfErr};
ghost use Rattle.area_sums.specs.Groups.{AreCapacities};
ghost use Rattle.bound_io.specs.Devices.{seen};
ghost use Rattle.bound_io.specs.Reading.{ReadsSource};
ghost use Rattle.policy_model.specs.declared.names.PolicyName.TheVariants.{Belady};
ghost use Rattle.policy_sweep.specs.Running.{Setting};
ghost use Rattle.policy_stream.specs.Streams.{HasBegun, settings_of};
ghost use Rattle.sweep_bounds.specs.Sweep.{HasSeen};
ghost use Rattle.trace_any.specs.Readings.{IsFormat};
ghost use Rattle.trace_any.specs.Readers.{fresh};
ghost use Rattle.trace_sweep.specs.Faults.{Stops};
ghost use Rattle.trace_sweep.specs.Swept.{HasSweptAll, IsNotSwept, IsSwept};

use crate::fault::SweepFault;
use crate::points::{SweepPoint, points_of};
use crate::tally::{Tally, is_counted};
use crate::telling::tell;
use bound_io::Source;
use policy_model::PolicyName;
use policy_stream::{PolicyStream, Request};
use policy_sweep::PolicyReplay;
use std::alloc::Global;
use sweep_bounds::SweepBounds;
use trace_any::{Format, Limits, RequestStream, TraceFault};

/// What one pass over a trace finds: how many requests and different objects it has and how many lines were dropped; how
/// many requests from the warm-up on count by their own marks, if the form of the trace has marks; how many had a time
/// below the clock before them, and how many were stale, if any can be; the bounds at each capacity; and what each
/// policy has counted at each capacity, those of the first capacity first.
#[derive(Debug, Drop)]
pub struct Swept {
    pub requests: u32,
    pub objects: u32,
    pub dropped: u64,
    pub counted: Option<u32>,
    pub late: u64,
    pub stale: Option<u32>,
    pub points: Vec<SweepPoint>,
    pub replays: Vec<PolicyReplay>,
}

// Tells the bounds and the policies each request that the stream has to give.
fn sweep_all<S: Source>(
    alloc: Global,
    stream: &mut RequestStream,
    bounds: &mut SweepBounds,
    policies: &mut PolicyStream,
    source: &mut S,
) -> Result<Tally, SweepFault>
    requires begins { stream.old ≡ fresh stream.old.format stream.old.limits }
    requires nothing { (fills : List Bool) → HasSeen [] fills bounds.old }
    requires begun { (settings : List Setting) × HasBegun settings policies.old }
    requires replace { policies.old.replace ≡ stream.old.format.fresh.replace }
    ensures kept { (bounds.new.warmup ≡ bounds.old.warmup) × (bounds.new.delay ≡ bounds.old.delay) × (bounds.new.sums.capacities ≡ bounds.old.sums.capacities) }
    ensures swept { IfOk result (HasSweptAll bounds.old.warmup stream.old stream.new (seen S.left S.faults source.old source.new) bounds.new policies.old policies.new) }
    ensures stops { IfErr result (λ fault. (settings : List Setting) → HasBegun settings policies.old → Stops stream.old (seen S.left S.faults source.old source.new) settings fault) }
    ensures reads { ReadsSource (SweepFault.Trace TraceFault.ReadFault) (seen S.left S.faults source.old source.new) result }
{
    let warmup = bounds.warmup();
    let mut tally = Tally::NONE;
    while let Some(object) = stream.next(alloc, source)? {
        if stream.passes_limit() {
            return Err(SweepFault::Trace(TraceFault::TooManyRequests));
        }
        let counts = is_counted(warmup, bounds.requests(), stream.last_own());
        tally = tally.with(counts, stream.last_stale());
        bounds.request(object, stream.last_fills())?;
        let request = Request {
            object,
            is_past: bounds.requests() > warmup,
            only_fills: stream.last_fills(),
            is_stale: stream.last_stale(),
        };
        tell(alloc, policies, bounds, &request)?;
    }
    Ok(tally)
}

// The same for bounds and policies that were told nothing, and what they find.
fn sweep_with<S: Source>(
    alloc: Global,
    format: Format,
    capacities: &[u64],
    names: &[PolicyName],
    bounds: &mut SweepBounds,
    policies: &mut PolicyStream,
    source: &mut S,
) -> Result<Swept, SweepFault>
    requires format { IsFormat format }
    requires capacities { AreCapacities capacities.now }
    requires positive { All (λ c. 1 ≤ c) capacities.now }
    requires ahead_of { All (λ n. n ≢ Belady) names.now }
    requires same { bounds.old.sums.capacities ≡ capacities.now }
    requires nothing { (fills : List Bool) → HasSeen [] fills bounds.old }
    requires begun { HasBegun [] policies.old }
    requires replace { policies.old.replace ≡ format.fresh.replace }
    ensures swept { IfOk result (IsSwept format capacities.now names.now bounds.old.warmup bounds.old.delay (seen S.left S.faults source.old source.new)) }
    ensures refused { IfErr result (IsNotSwept format (settings_of names.now capacities.now) (seen S.left S.faults source.old source.new)) }
    ensures reads { ReadsSource (SweepFault.Trace TraceFault.ReadFault) (seen S.left S.faults source.old source.new) result }
{
    policies.add_all(alloc, names, capacities)?;
    let mut stream = RequestStream::new(alloc, format, Limits::of_one_pass())?;
    let tally = sweep_all(alloc, &mut stream, bounds, policies, source)?;
    let marked = format.layout.has_marks();
    let can_end = format.fresh.can_end();
    let least = bounds.bounds(alloc)?;
    Ok(Swept {
        requests: bounds.requests(),
        objects: bounds.objects(),
        dropped: stream.dropped(),
        counted: marked.then_some(tally.counted),
        late: stream.late(),
        stale: can_end.then_some(tally.stale),
        points: points_of(alloc, capacities, &least)?,
        replays: policies.finish(alloc)?,
    })
}

/// Goes once over all that the source has left, within the limits of one pass, and tells the least bounds that follow from
/// areas at each of the capacities, in bytes, and what policies of these rules count there. Requests of the warm-up don't
/// count, and for the bounds objects may enter the cache as late as the delay, in requests.
///
/// It takes an entry of a hash map for each object, and two if requests can be stale, and what each policy takes at each
/// capacity, and none for a request. A line that asks for more requests than there is room for is refused before any but its
/// first is told, and if there are policies so is the first request for more different objects than they know. A fault names
/// the policy that lacks memory, and its capacity.
pub fn sweep<S: Source>(
    alloc: Global,
    format: Format,
    capacities: &[u64],
    names: &[PolicyName],
    warmup: u32,
    delay: u32,
    source: &mut S,
) -> Result<Swept, SweepFault>
    requires format { IsFormat format }
    requires capacities { AreCapacities capacities.now }
    requires positive { All (λ c. 1 ≤ c) capacities.now }
    requires ahead_of { All (λ n. n ≢ Belady) names.now }
    ensures swept { IfOk result (IsSwept format capacities.now names.now warmup delay (seen S.left S.faults source.old source.new)) }
    ensures refused { IfErr result (IsNotSwept format (settings_of names.now capacities.now) (seen S.left S.faults source.old source.new)) }
    ensures reads { ReadsSource (SweepFault.Trace TraceFault.ReadFault) (seen S.left S.faults source.old source.new) result }
{
    let mut bounds = SweepBounds::new(alloc, capacities, warmup, delay)?;
    let mut policies = PolicyStream::new(alloc, format.fresh.replace);
    sweep_with(
        alloc,
        format,
        capacities,
        names,
        &mut bounds,
        &mut policies,
        source,
    )
}
