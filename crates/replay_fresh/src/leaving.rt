//! What leaves a policy before a request.
ghost use Rattle.std.specs.Prelude.{◌≡◌, ◌<◌, ◌≤◌, ◌+◌, false, length, IsTrue, IfSome, OnOk, option_to_list};
ghost use Rattle.bit_list.specs.Bits.{bits_of};
ghost use Rattle.cache_model.specs.Objects.{objects_of};
ghost use Rattle.policy_model.specs.Asks.{ask_at};
ghost use Rattle.replay_fresh.specs.Fresh.{is_stale, leaving, own_if_stale};
ghost use Rattle.replay_fresh.specs.FreshRuns.{LetsGoAll, SameHeld, members_without};
ghost use Rattle.replay_fresh.specs.Latest.{AreLatest};

use crate::replacing::replaced_if;
use bit_list::BitList;
use bound_base::NoMemory;
use cache_rules::Trace;
use freshness::Id;
use indexmap::IndexMap;
use replay_core::{LetGo, Policy};

/// Lets go of the object of this number, if there is one.
pub fn let_go_of<P: LetGo>(policy: &mut P, object: Option<u32>)
    requires known { IfSome object (λ k. k < P.objects policy.old) }
    ensures contents { P.contents policy.new ≡ members_without (P.contents policy.old) (option_to_list object) }
    ensures same_capacity { P.room policy.new ≡ P.room policy.old }
    ensures same_objects { P.objects policy.new ≡ P.objects policy.old }
    ensures same_tally { P.tally policy.new ≡ P.tally policy.old }
    ensures state { LetsGoAll (P.known_state policy.old) (P.known_state policy.new) (option_to_list object) }
{
    if let Some(object) = object {
        policy.let_go(object);
    }
}

// The number of the object of request `t`, if that is stale.
fn own_if_stale(trace: &Trace, stale: &BitList, t: u32) -> Option<u32>
    requires within { t < length trace.now.objects }
    ensures own { option_to_list result ≡ own_if_stale (bits_of stale.now) trace.now.objects t }
    ensures known { IfSome result (λ k. k < length (objects_of trace.now.objects)) }
{
    if stale.get(t as usize) {
        Some(trace.request(t))
    } else {
        None
    }
}

/// Lets go of what leaves before request `t`: its own object if it is stale, and then the one that it replaces.
pub fn let_leave<P: LetGo>(
    trace: &Trace,
    stale: &BitList,
    replace: bool,
    t: u32,
    latest: &mut IndexMap<Id, u32>,
    policy: &mut P,
) -> Result<(), NoMemory>
    requires within { t < length trace.now.objects }
    requires objects { length (objects_of trace.now.objects) ≤ P.objects policy.old }
    requires latest { IsTrue replace → AreLatest latest.old.entries trace.now.objects t }
    ensures latest { OnOk result (IsTrue replace → AreLatest latest.new.entries trace.now.objects (t + 1)) }
    ensures contents { OnOk result (P.contents policy.new ≡ members_without (P.contents policy.old) (leaving (bits_of stale.now) replace trace.now.objects t)) }
    ensures own_stays { OnOk result (is_stale (bits_of stale.now) t ≡ false → SameHeld (ask_at trace.now.objects t).object (P.contents policy.old) (P.contents policy.new)) }
    ensures same_capacity { P.room policy.new ≡ P.room policy.old }
    ensures same_objects { P.objects policy.new ≡ P.objects policy.old }
    ensures same_tally { P.tally policy.new ≡ P.tally policy.old }
    ensures state { OnOk result (LetsGoAll (P.known_state policy.old) (P.known_state policy.new) (leaving (bits_of stale.now) replace trace.now.objects t)) }
{
    let own = own_if_stale(trace, stale, t);
    let replaced = replaced_if(replace, latest, trace, t)?;
    let_go_of(policy, own);
    let_go_of(policy, replaced);
    Ok(())
}
