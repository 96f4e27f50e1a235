//! The policies at all capacities, and the requests that they have not gone through yet.
ghost use Rattle.std.specs.Prelude.{◌≡◌, ◌≢◌, ◌+◌, ◌<◌, ◌≤◌, ◌^◌, ◌++◌, ◌∷◌, [], ℕ, List, length, map, slice_index_or, IfOk, IfErr, OnOk};
ghost use Rattle.policy_model.specs.declared.names.PolicyName.TheVariants.{Belady};
ghost use Rattle.policy_sweep.specs.declared.running.Running.{Running};
ghost use Rattle.policy_sweep.specs.Running.{Advances, IsAnyRunning, IsToldRequest, Setting, Told};
ghost use Rattle.policy_sweep.specs.Replays.{AreReplays, HasGone, HasGoneSome, IsNextOfSome, NamesOneOf, NamesSetting, is_idle};

use crate::fault::ReplayFault;
use crate::running::{PolicyReplay, Running};
use bound_base::NoMemory;
use policy_model::PolicyName;
use replay_steps::Asked;
use std::alloc::Global;

// How many requests a batch has. It takes 160 KiB.
const BATCH: usize = 4096;

/// Policies that are replayed side by side over requests that come one after another. It takes memory for what each of
/// them takes, and for a batch of requests.
#[derive(Drop)]
pub struct PolicyReplays {
    running: Vec<Running>,
    batch: Vec<Asked>,
}

// Each of the policies goes through the requests.
fn go_through_all(
    alloc: Global,
    running: &mut Vec<Running>,
    batch: &[Asked],
) -> Result<(), ReplayFault>
    requires of_some { (i : ℕ) (d : Running) → i < length running.old.items → IsAnyRunning (slice_index_or running.old.items i d) batch.now }
    ensures each { length running.new.items ≡ length running.old.items }
    ensures more { OnOk result ((i : ℕ) (d : Running) → i < length running.old.items → Advances batch.now (slice_index_or running.old.items i d) (slice_index_or running.new.items i d)) }
    ensures named { IfErr result (NamesOneOf running.old.items) }
{
    for place in 0..running.len() {
        let PolicyReplay {
            policy,
            capacity,
            ..
        } = running[place].so_far;
        let one = &mut running[place];
        if let Err(NoMemory) = one.go_through(alloc, batch) {
            return Err(ReplayFault::PolicyMemory { policy, capacity });
        }
    }
    Ok(())
}

// What each of the policies has counted.
fn replays_of(alloc: Global, running: &[Running]) -> Result<Vec<PolicyReplay>, NoMemory>
    ensures { IfOk result (λ replays. replays.items ≡ map (λ r. r.so_far) running.now) }
{
    let mut replays = Vec::with_capacity(alloc, running.len())?;
    for one in running {
        replays.push(one.so_far)?;
    }
    Ok(replays)
}

impl PolicyReplays {
    /// No policy so far.
    pub fn new(alloc: Global) -> Self
        ensures { (told : Told) (objects : ℕ) → HasGone told objects [] 0 result }
    {
        PolicyReplays {
            running: Vec::new(alloc),
            batch: Vec::new(alloc),
        }
    }

    /// One policy more, before the first request, with its capacity in bytes, for objects numbered below this.
    pub fn add(
        &mut self,
        alloc: Global,
        name: PolicyName,
        capacity: u64,
        objects: u32,
    ) -> Result<(), NoMemory>
        requires range { (1 ≤ capacity) × (capacity ≤ 2 ^ 56) }
        requires few { objects ≤ 2 ^ 31 }
        requires ahead_of { name ≢ Belady }
        ensures added { OnOk result ((told : Told) (settings : List Setting) → HasGone told objects settings 0 self.old
            → HasGone told objects (settings ++ record { name = name; capacity = capacity } ∷ []) 0 self.new) }
    {
        let one = Running::new(alloc, name, capacity, objects)?;
        self.running.push(one)?;
        Ok(())
    }

    /// Whether there is no policy.
    pub fn is_idle(&self) -> bool
        ensures { result ≡ is_idle self.now }
    {
        self.running.is_empty() && self.batch.is_empty()
    }

    // All policies go through the batch.
    fn flush(&mut self, alloc: Global) -> Result<(), ReplayFault>
        requires of_some { HasGoneSome self.old }
        ensures gone { OnOk result ((told : Told) (objects : ℕ) (settings : List Setting) (t : ℕ) → HasGone told objects settings t self.old → HasGone told objects settings t self.new) }
        ensures none { OnOk result (self.new.batch.items ≡ []) }
        ensures named { IfErr result (λ fault. (told : Told) (objects : ℕ) (settings : List Setting) (t : ℕ) → HasGone told objects settings t self.old → NamesSetting settings fault) }
    {
        go_through_all(alloc, &mut self.running, &self.batch)?;
        self.batch.clear();
        Ok(())
    }

    // One request more in the batch.
    fn keep(&mut self, asked: Asked) -> Result<(), NoMemory>
        ensures running { self.new.running ≡ self.old.running }
        ensures batch { OnOk result (self.new.batch.items ≡ self.old.batch.items ++ asked ∷ []) }
    {
        self.batch.push(asked)?;
        Ok(())
    }

    /// Tells the policies one request more. They go through it with those of its batch. A fault names the policy and its
    /// capacity, if it is one that lacks memory.
    pub fn request(&mut self, alloc: Global, asked: Asked) -> Result<(), ReplayFault>
        requires of_some { IsNextOfSome self.old asked }
        ensures gone { OnOk result ((told : Told) (objects : ℕ) (settings : List Setting) (t : ℕ) → IsToldRequest told objects t asked → t + 1 < 2 ^ 32
            → HasGone told objects settings t self.old → HasGone told objects settings (t + 1) self.new) }
        ensures named { IfErr result (λ fault. (told : Told) (objects : ℕ) (settings : List Setting) (t : ℕ) → IsToldRequest told objects t asked → t + 1 < 2 ^ 32
            → HasGone told objects settings t self.old → NamesSetting settings fault) }
    {
        self.keep(asked)?;
        if self.batch.len() >= BATCH {
            self.flush(alloc)?;
        }
        Ok(())
    }

    /// What each of the policies has counted, once it has gone through all requests. A fault names the policy and its capacity,
    /// if it is one that lacks memory.
    pub fn finish(&mut self, alloc: Global) -> Result<Vec<PolicyReplay>, ReplayFault>
        requires of_some { HasGoneSome self.old }
        ensures replays { IfOk result (λ replays. (told : Told) (objects : ℕ) (settings : List Setting) → HasGone told objects settings (length told.trace) self.old
            → AreReplays told settings replays.items) }
        ensures named { IfErr result (λ fault. (told : Told) (objects : ℕ) (settings : List Setting) (t : ℕ) → HasGone told objects settings t self.old → NamesSetting settings fault) }
    {
        self.flush(alloc)?;
        Ok(replays_of(alloc, &self.running)?)
    }
}
