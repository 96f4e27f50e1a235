//! What policies are told of a request that is read.
ghost use Rattle.std.specs.Prelude.{◌≡◌, ◌≤◌, ◌^◌, ◌++◌, ◌∷◌, [], List, Bool, IsTrue, IfErr, OnOk};
ghost use Rattle.policy_sweep.specs.Running.{Setting, Told};
ghost use Rattle.policy_stream.specs.Streams.{HasBeenTold, IsOneMore};
ghost use Rattle.sweep_bounds.specs.Sweep.{HasSeen};
ghost use Rattle.trace_sweep.specs.Faults.{StopsPolicies};
ghost use Rattle.trace_sweep.specs.Online.{IsNextRead};
ghost use Rattle.trace_sweep.specs.Swept.{AreKnown};

use crate::fault::SweepFault;
use policy_stream::{MOST_OBJECTS, PolicyStream, Request};
use std::alloc::Global;
use sweep_bounds::SweepBounds;

/// Tells the policies a request, once the bounds have seen it. If there is no policy, its object isn't looked up.
pub(crate) fn tell(
    alloc: Global,
    policies: &mut PolicyStream,
    bounds: &SweepBounds,
    request: &Request,
) -> Result<(), SweepFault>
    requires next { IsNextRead policies.old bounds.now request.now }
    requires size { (1 ≤ request.now.object.size) × (request.now.object.size ≤ 2 ^ 48) }
    requires stale_fills { IsTrue request.now.is_stale → IsTrue request.now.only_fills }
    ensures replace { policies.new.replace ≡ policies.old.replace }
    ensures told { OnOk result ((told next : Told) (settings : List Setting) (fills : List Bool) → HasSeen next.trace fills bounds.now → IsOneMore told next request.now
        → HasBeenTold told settings policies.old → HasBeenTold next settings policies.new) }
    ensures known { OnOk result ((told next : Told) (settings : List Setting) (fills : List Bool) → HasSeen next.trace fills bounds.now
        → HasBeenTold told settings policies.old → AreKnown settings next.trace) }
    ensures fault { IfErr result (λ fault. (told next : Told) (settings : List Setting) (fills : List Bool) → HasSeen next.trace fills bounds.now → IsOneMore told next request.now
        → HasBeenTold told settings policies.old → StopsPolicies settings next.trace fault) }
{
    if policies.is_idle() {
        return Ok(());
    }
    if bounds.objects() > MOST_OBJECTS {
        return Err(SweepFault::TooManyObjects);
    }
    if let Some(number) = bounds.number_of(request.object) {
        policies.request(alloc, request, number)?;
    }
    Ok(())
}
