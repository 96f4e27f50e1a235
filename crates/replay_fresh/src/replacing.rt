//! Which object a request replaces: the last of its volume and id, if that has another size.
ghost use Rattle.std.specs.Prelude.{◌≡◌, ◌≢◌, ℕ, ◌<◌, ◌+◌, [], List, length, IsTrue, IfOk, IfSome, OnOk, option_to_list, if◌then◌else◌};
ghost use Rattle.cache_model.specs.declared.objects.Object.{Object};
ghost use Rattle.cache_model.specs.Objects.{objects_of};
ghost use Rattle.policy_model.specs.Asks.{ask_at};
ghost use Rattle.replay_fresh.specs.Fresh.{replaced};
ghost use Rattle.replay_fresh.specs.Latest.{AreLatest, IsRequestOf, other_than};

use bound_base::NoMemory;
use cache_rules::{Object, Trace};
use freshness::Id;
use indexmap::IndexMap;

// The number that is given, unless it is this one.
fn other_than(number: u32, given: Option<u32>) -> Option<u32>
    ensures { result ≡ other_than number given }
{
    match given {
        Some(other) if other != number => Some(other),
        _ => None,
    }
}

/// The number of the object that a request replaces: the last of its volume and id before it, if that has another size. From
/// here on its own object, whose number is given, is the last of them.
pub fn replaced_by(
    latest: &mut IndexMap<Id, u32>,
    object: Object,
    number: u32,
) -> Result<Option<u32>, NoMemory>
    ensures latest { OnOk result ((trace : List Object) (t : ℕ) → IsRequestOf trace t object number → AreLatest latest.old.entries trace t → AreLatest latest.new.entries trace (t + 1)) }
    ensures replaced { IfOk result (λ r. (trace : List Object) (t : ℕ) → IsRequestOf trace t object number → AreLatest latest.old.entries trace t → option_to_list r ≡ replaced trace t) }
    ensures known { IfOk result (λ r. (trace : List Object) (t : ℕ) → IsRequestOf trace t object number → AreLatest latest.old.entries trace t → IfSome r (λ k. k < length (objects_of trace))) }
    ensures other { IfOk result (λ r. IfSome r (λ k. k ≢ number)) }
{
    let before = latest.insert(Id::of(object), number)?;
    Ok(other_than(number, before))
}

// The number of the object that request `t` replaces. From here on that of the request is the last of its volume and id.
fn replaced(latest: &mut IndexMap<Id, u32>, trace: &Trace, t: u32) -> Result<Option<u32>, NoMemory>
    requires within { t < length trace.now.objects }
    requires latest { AreLatest latest.old.entries trace.now.objects t }
    ensures latest { OnOk result (AreLatest latest.new.entries trace.now.objects (t + 1)) }
    ensures replaced { IfOk result (λ r. option_to_list r ≡ replaced trace.now.objects t) }
    ensures known { IfOk result (λ r. IfSome r (λ k. k < length (objects_of trace.now.objects))) }
    ensures other { IfOk result (λ r. IfSome r (λ k. k ≢ (ask_at trace.now.objects t).object)) }
{
    let number = trace.request(t);
    replaced_by(latest, trace.object(number), number)
}

/// The same if objects are replaced. If not, nothing is kept of the requests.
pub(crate) fn replaced_if(
    replace: bool,
    latest: &mut IndexMap<Id, u32>,
    trace: &Trace,
    t: u32,
) -> Result<Option<u32>, NoMemory>
    requires within { t < length trace.now.objects }
    requires latest { IsTrue replace → AreLatest latest.old.entries trace.now.objects t }
    ensures latest { OnOk result (IsTrue replace → AreLatest latest.new.entries trace.now.objects (t + 1)) }
    ensures replaced { IfOk result (λ r. option_to_list r ≡ (if replace then replaced trace.now.objects t else [])) }
    ensures known { IfOk result (λ r. IfSome r (λ k. k < length (objects_of trace.now.objects))) }
    ensures other { IfOk result (λ r. IfSome r (λ k. k ≢ (ask_at trace.now.objects t).object)) }
{
    if replace {
        replaced(latest, trace, t)
    } else {
        Ok(None)
    }
}
