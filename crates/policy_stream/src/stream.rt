//! Policies side by side, and what is kept of the requests so far.
ghost use Rattle.std.specs.Prelude.{◌≡◌, ◌≢◌, ◌+◌, ◌<◌, ◌≤◌, ◌^◌, ◌++◌, ◌∷◌, [], ℕ, true, List, All, length, IsTrue, IfOk, IfErr, IfSome, OnOk, option_to_list, if◌then◌else◌};
ghost use Rattle.cache_model.specs.declared.objects.Object.{Object};
ghost use Rattle.cache_model.specs.Objects.{objects_of};
ghost use Rattle.policy_model.specs.declared.names.PolicyName.TheVariants.{Belady};
ghost use Rattle.replay_fresh.specs.Fresh.{replaced};
ghost use Rattle.replay_fresh.specs.Latest.{AreLatest, IsRequestOf};
ghost use Rattle.policy_sweep.specs.Running.{Setting, Told};
ghost use Rattle.policy_sweep.specs.Replays.{AreReplays, NamesSetting, is_idle};
ghost use Rattle.policy_stream.specs.Streams.{HasBeenTold, HasBegun, IsNextOfSome, IsNumber, IsOneMore, at_capacity, settings_of};

use crate::request::Request;
use bound_base::NoMemory;
use cache_model::Object;
use freshness::Id;
use indexmap::IndexMap;
use policy_model::PolicyName;
use policy_sweep::{PolicyReplay, PolicyReplays, ReplayFault};
use replay_fresh::replaced_by;
use std::alloc::Global;

/// Policies know at most so many different objects.
pub const MOST_OBJECTS: u32 = 1 << 31;

/// Policies that are told the requests of a trace one after another. It takes memory for what each of them takes, for a batch
/// of requests, and, if objects are replaced, for an entry of each volume and id.
#[derive(Drop)]
pub struct PolicyStream {
    replays: PolicyReplays,
    latest: IndexMap<Id, u32>,
    replace: bool,
}

impl PolicyStream {
    /// No policy so far. Objects are replaced, or they aren't.
    pub fn new(alloc: Global, replace: bool) -> Self
        ensures begun { HasBegun [] result }
        ensures replace { result.replace ≡ replace }
    {
        PolicyStream {
            replays: PolicyReplays::new(alloc),
            latest: IndexMap::new(alloc),
            replace,
        }
    }

    // One policy more, before the first request, with its capacity in bytes.
    fn add(&mut self, alloc: Global, policy: PolicyName, capacity: u64) -> Result<(), ReplayFault>
        requires range { (1 ≤ capacity) × (capacity ≤ 2 ^ 56) }
        requires ahead_of { policy ≢ Belady }
        ensures replace { self.new.replace ≡ self.old.replace }
        ensures added { OnOk result ((settings : List Setting) → HasBegun settings self.old
            → HasBegun (settings ++ record { name = policy; capacity = capacity } ∷ []) self.new) }
        ensures named { IfErr result (NamesSetting (record { name = policy; capacity = capacity } ∷ [])) }
    {
        match self.replays.add(alloc, policy, capacity, MOST_OBJECTS) {
            Ok(()) => Ok(()),
            Err(NoMemory) => Err(ReplayFault::PolicyMemory { policy, capacity }),
        }
    }

    // Policies of these rules, with this capacity.
    fn add_each(
        &mut self,
        alloc: Global,
        names: &[PolicyName],
        capacity: u64,
    ) -> Result<(), ReplayFault>
        requires range { (1 ≤ capacity) × (capacity ≤ 2 ^ 56) }
        requires ahead_of { All (λ n. n ≢ Belady) names.now }
        ensures replace { self.new.replace ≡ self.old.replace }
        ensures added { OnOk result ((settings : List Setting) → HasBegun settings self.old → HasBegun (settings ++ at_capacity names.now capacity) self.new) }
        ensures named { IfErr result (NamesSetting (at_capacity names.now capacity)) }
    {
        for name in names {
            self.add(alloc, *name, capacity)?;
        }
        Ok(())
    }

    /// Policies of these rules at each of the capacities in bytes, before the first request: all of the first capacity, and then
    /// those of the next. A fault names the policy that lacks memory, and its capacity.
    pub fn add_all(
        &mut self,
        alloc: Global,
        names: &[PolicyName],
        capacities: &[u64],
    ) -> Result<(), ReplayFault>
        requires range { All (λ c. (1 ≤ c) × (c ≤ 2 ^ 56)) capacities.now }
        requires ahead_of { All (λ n. n ≢ Belady) names.now }
        ensures replace { self.new.replace ≡ self.old.replace }
        ensures added { OnOk result (HasBegun [] self.old → HasBegun (settings_of names.now capacities.now) self.new) }
        ensures named { IfErr result (NamesSetting (settings_of names.now capacities.now)) }
    {
        for capacity in capacities {
            self.add_each(alloc, names, *capacity)?;
        }
        Ok(())
    }

    /// Whether there is no policy.
    pub fn is_idle(&self) -> bool
        ensures { result ≡ is_idle self.now.replays }
    {
        self.replays.is_idle()
    }

    // The number of the object that the request replaces, if objects are replaced.
    fn replaced(&mut self, object: Object, number: u32) -> Result<Option<u32>, NoMemory>
        ensures replays { self.new.replays ≡ self.old.replays }
        ensures replace { self.new.replace ≡ self.old.replace }
        ensures latest { OnOk result (IsTrue self.old.replace → (trace : List Object) (t : ℕ) → IsRequestOf trace t object number
            → AreLatest self.old.latest.entries trace t → AreLatest self.new.latest.entries trace (t + 1)) }
        ensures replaced { IfOk result (λ r. (trace : List Object) (t : ℕ) → IsRequestOf trace t object number
            → (IsTrue self.old.replace → AreLatest self.old.latest.entries trace t) → option_to_list r ≡ (if self.old.replace then replaced trace t else [])) }
        ensures known { IfOk result (λ r. (trace : List Object) (t : ℕ) → IsRequestOf trace t object number
            → (IsTrue self.old.replace → AreLatest self.old.latest.entries trace t) → IfSome r (λ k. k < length (objects_of trace))) }
        ensures other { IfOk result (λ r. IfSome r (λ k. k ≢ number)) }
    {
        if self.replace {
            replaced_by(&mut self.latest, object, number)
        } else {
            Ok(None)
        }
    }

    /// Tells the policies one request more, of whatever trace it is the next one. Its object has this number, in the order of
    /// the first requests of objects. A fault names the policy and its capacity, if it is one that lacks memory.
    ///
    /// It can be called as long as there is no policy, or the requests are for at most `MOST_OBJECTS` different objects.
    pub fn request(
        &mut self,
        alloc: Global,
        request: &Request,
        number: u32,
    ) -> Result<(), ReplayFault>
        requires of_some { IsNextOfSome self.old request.now number }
        requires size { (1 ≤ request.now.object.size) × (request.now.object.size ≤ 2 ^ 48) }
        requires stale_fills { IsTrue request.now.is_stale → IsTrue request.now.only_fills }
        ensures replace { self.new.replace ≡ self.old.replace }
        ensures told { OnOk result ((told next : Told) (settings : List Setting) → IsOneMore told next request.now → IsNumber next request.now.object number
            → HasBeenTold told settings self.old → HasBeenTold next settings self.new) }
        ensures idle { is_idle self.old.replays ≡ true → self.new ≡ self.old }
        ensures named { IfErr result (λ fault. (told next : Told) (settings : List Setting) → IsOneMore told next request.now → IsNumber next request.now.object number
            → HasBeenTold told settings self.old → NamesSetting settings fault) }
    {
        if self.replays.is_idle() {
            return Ok(());
        }
        let replaced = self.replaced(request.object, number)?;
        self.replays.request(alloc, request.asked(number, replaced))
    }

    /// What each of the policies has counted, once they were told all requests. A fault names the policy and its capacity, if it
    /// is one that lacks memory.
    pub fn finish(&mut self, alloc: Global) -> Result<Vec<PolicyReplay>, ReplayFault>
        requires of_some { (told : Told) × (settings : List Setting) × HasBeenTold told settings self.old }
        ensures replays { IfOk result (λ replays. (told : Told) (settings : List Setting) → HasBeenTold told settings self.old
            → AreReplays told settings replays.items) }
        ensures named { IfErr result (λ fault. (told : Told) (settings : List Setting) → HasBeenTold told settings self.old → NamesSetting settings fault) }
    {
        self.replays.finish(alloc)
    }
}
