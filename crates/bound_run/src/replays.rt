//! Replays of a trace, and what they print.
ghost use Rattle.std.specs.Prelude.{◌≡◌, ◌≤◌, ◌&&◌, [], length, false, None, Some, slice_index_or, IfOk, IfSome, OnOk};
ghost use Rattle.bit_list.specs.Bits.{bits_of};
ghost use Rattle.cache_model.specs.Claim.{only_fills};
ghost use Rattle.cache_model.specs.Objects.{objects_of};
ghost use Rattle.policy_model.specs.Runs.{AreScores, IsPlayed};
ghost use Rattle.replay_core.specs.Laws.{IsFresh, IsRunOf, IsStateAfter, IsTallied};
ghost use Rattle.freshness.specs.Seen.{noted_of};
ghost use Rattle.replay_fresh.specs.FreshRuns.{IsFreshRunOf, IsFreshlyPlayed, OnlyFill};
ghost use Rattle.bound_run.specs.Replays.{AreCountsOf, AreHitsOf, BeginsAs, IsAnswered, IsCountsText, IsFreshReplay, IsReplay, IsReplayText, IsWithinBounds, leaves, leaving_of, stale_flags};

use bit_list::BitList;
use bound_base::NoMemory;
use bound_report::{ReplayFacts, render};
use bound_words::ReplaySettings;
use cache_rules::Trace;
use freshness::{Freshness, StaleRequests};
use hit_flags::flags_text;
use policy_model::PolicyName;
use replay_core::{LetGo, Policy, Replay, replay};
use replay_fresh::replay_fresh;
use replay_hits::{fresh_hits, replay_hits};
use replay_queues::{Clock, S3Fifo, Sieve};
use replay_rank::{Belady, Gdsf, Gdsf98, Lfu, Lfuda};
use replay_recency::{Fifo, Lru};
use replay_tinylfu::WTinyLfu;
use run_counts::{counting_from, if_counted};
use std::alloc::Global;
use trace_any::{Format, TraceNotes};

/// What leaves a policy before requests: the objects of those that are flagged stale, and earlier versions of what is asked
/// for, if objects are replaced.
#[derive(Clone, Copy)]
pub struct Leaving<'a> {
    pub stale: &'a BitList,
    pub replace: bool,
}

/// What a replay answers: its counts, or a flag for each request, whether it is a hit.
#[derive(Drop)]
pub(crate) enum Answered {
    Counts(Replay),
    Flags(BitList),
}

/// Replays the trace, and counts the hits and the written bytes from request `warmup` on. Whatever the policy, no
/// certificate that is valid for the trace, of the same capacity and no longer warm-up, has a smaller upper bound. It
/// takes what a replay takes.
pub fn bounded_replay<P: Policy>(
    alloc: Global,
    trace: &Trace,
    warmup: u32,
    policy: &mut P,
) -> Result<Replay, NoMemory>
    requires objects { length (objects_of trace.now.objects) ≤ P.objects policy.old }
    requires empty { P.contents policy.old ≡ [] }
    requires fresh { IsFresh (P.known_state policy.old) }
    ensures scores { IfOk result (λ r. AreScores (P.room policy.old) warmup trace.now.fills trace.now.objects r.hits r.bytes) }
    ensures written { IfOk result (λ r. IsPlayed (P.known_state policy.old) (P.room policy.old) warmup trace.now.fills trace.now.objects r.hits r.bytes r.written) }
    ensures run { IfOk result (λ r. IsRunOf (P.known_state policy.old) trace.now.objects warmup trace.now.fills r.hits r.bytes) }
    ensures counted { IfOk result (λ r. IfSome (P.tally policy.old) (λ n. IsTallied n (P.tally policy.new) (length trace.now.objects) warmup trace.now.fills r.hits)) }
    ensures state { OnOk result (IsStateAfter (P.known_state policy.old) (P.known_state policy.new) trace.now.objects warmup trace.now.fills) }
    ensures bounded { IfOk result (λ r. IsWithinBounds (P.room policy.old) warmup trace.now r.hits r.bytes) }
{
    replay(alloc, trace, warmup, policy)
}

/// The same of a replay from which objects leave: the stale ones before their requests, and if objects are replaced also an
/// earlier version of what is asked for.
pub fn bounded_fresh_replay<P: LetGo>(
    alloc: Global,
    trace: &Trace,
    leaving: Leaving<'_>,
    warmup: u32,
    policy: &mut P,
) -> Result<Replay, NoMemory>
    requires objects { length (objects_of trace.now.objects) ≤ P.objects policy.old }
    requires empty { P.contents policy.old ≡ [] }
    requires fresh { IsFresh (P.known_state policy.old) }
    requires only_fill { OnlyFill (bits_of leaving.stale.now) trace.now.fills trace.now.objects }
    ensures scores { IfOk result (λ r. AreScores (P.room policy.old) warmup trace.now.fills trace.now.objects r.hits r.bytes) }
    ensures written { IfOk result (λ r. IsFreshlyPlayed (P.known_state policy.old) (P.room policy.old) warmup trace.now.fills (bits_of leaving.entry.stale.now) leaving.entry.replace trace.now.objects r.hits r.bytes r.written) }
    ensures run { IfOk result (λ r. IsFreshRunOf (P.known_state policy.old) trace.now.objects warmup trace.now.fills (bits_of leaving.entry.stale.now) leaving.entry.replace r.hits r.bytes) }
    ensures bounded { IfOk result (λ r. IsWithinBounds (P.room policy.old) warmup trace.now r.hits r.bytes) }
{
    replay_fresh(alloc, trace, leaving.stale, leaving.replace, warmup, policy)
}

// The counts of a policy that was made for the trace. It begins as the rule of the settings does.
fn counts_as<P: Policy + Drop>(
    alloc: Global,
    trace: &Trace,
    r: ReplaySettings,
    made: Result<P, NoMemory>,
) -> Result<Replay, NoMemory>
    requires { IfOk made (λ policy. BeginsAs r.policy r.capacity (length (objects_of trace.now.objects)) (P.objects policy) (P.room policy) (P.contents policy) (P.known_state policy)) }
    ensures { IfOk result (IsReplay r.policy r.capacity r.warmup trace.now) }
{
    let mut policy = made?;
    bounded_replay(alloc, trace, r.warmup, &mut policy)
}

// The same of a replay from which objects leave.
fn fresh_counts_as<P: LetGo + Drop>(
    alloc: Global,
    trace: &Trace,
    r: ReplaySettings,
    leaving: Leaving<'_>,
    made: Result<P, NoMemory>,
) -> Result<Replay, NoMemory>
    requires begins { IfOk made (λ policy. BeginsAs r.policy r.capacity (length (objects_of trace.now.objects)) (P.objects policy) (P.room policy) (P.contents policy) (P.known_state policy)) }
    requires only_fill { OnlyFill (bits_of leaving.stale.now) trace.now.fills trace.now.objects }
    ensures { IfOk result (IsFreshReplay r.policy r.capacity r.warmup trace.now (bits_of leaving.entry.stale.now) leaving.entry.replace) }
{
    let mut policy = made?;
    bounded_fresh_replay(alloc, trace, leaving, r.warmup, &mut policy)
}

// The hits of a policy that was made for the trace. It begins as the rule of the settings does.
fn hits_as<P: Policy + Drop>(
    alloc: Global,
    trace: &Trace,
    _r: ReplaySettings,
    made: Result<P, NoMemory>,
) -> Result<BitList, NoMemory>
    requires { IfOk made (λ policy. BeginsAs _r.policy _r.capacity (length (objects_of trace.now.objects)) (P.objects policy) (P.room policy) (P.contents policy) (P.known_state policy)) }
    ensures { IfOk result (λ flags. AreHitsOf None _r trace.now (bits_of flags)) }
{
    let mut policy = made?;
    replay_hits(alloc, trace, &mut policy)
}

// The same of a replay from which objects leave.
fn fresh_hits_as<P: LetGo + Drop>(
    alloc: Global,
    trace: &Trace,
    _r: ReplaySettings,
    leaving: Leaving<'_>,
    made: Result<P, NoMemory>,
) -> Result<BitList, NoMemory>
    requires begins { IfOk made (λ policy. BeginsAs _r.policy _r.capacity (length (objects_of trace.now.objects)) (P.objects policy) (P.room policy) (P.contents policy) (P.known_state policy)) }
    ensures { IfOk result (λ flags. AreHitsOf (Some (bits_of leaving.entry.stale.now, leaving.entry.replace)) _r trace.now (bits_of flags)) }
{
    let mut policy = made?;
    fresh_hits(alloc, trace, leaving.stale, leaving.replace, &mut policy)
}

// What a policy answers that was made for the trace. It begins as the rule of the settings does.
fn replay_as<P: LetGo + Drop>(
    alloc: Global,
    trace: &Trace,
    r: ReplaySettings,
    leaving: Option<Leaving<'_>>,
    made: Result<P, NoMemory>,
) -> Result<Answered, NoMemory>
    requires begins { IfOk made (λ policy. BeginsAs r.policy r.capacity (length (objects_of trace.now.objects)) (P.objects policy) (P.room policy) (P.contents policy) (P.known_state policy)) }
    requires only_fill { IfSome leaving (λ l. OnlyFill (bits_of l.stale.now) trace.now.fills trace.now.objects) }
    ensures { IfOk result (IsAnswered (leaves leaving.entry) r trace.now) }
{
    match (r.flags, leaving) {
        (true, None) => Ok(Answered::Flags(hits_as(alloc, trace, r, made)?)),
        (true, Some(leaving)) => Ok(Answered::Flags(fresh_hits_as(
            alloc, trace, r, leaving, made,
        )?)),
        (false, None) => Ok(Answered::Counts(counts_as(alloc, trace, r, made)?)),
        (false, Some(leaving)) => Ok(Answered::Counts(fresh_counts_as(
            alloc, trace, r, leaving, made,
        )?)),
    }
}

/// What the replay of a policy answers, from which this leaves.
pub(crate) fn replay_by(
    alloc: Global,
    trace: &Trace,
    r: ReplaySettings,
    leaving: Option<Leaving<'_>>,
) -> Result<Answered, NoMemory>
    requires only_fill { IfSome leaving (λ l. OnlyFill (bits_of l.stale.now) trace.now.fills trace.now.objects) }
    ensures { IfOk result (IsAnswered (leaves leaving.entry) r trace.now) }
{
    let n = trace.objects();
    let c = r.capacity;
    let l = leaving;
    match r.policy {
        PolicyName::Lru => replay_as(alloc, trace, r, l, Lru::new(alloc, c, n)),
        PolicyName::Fifo => replay_as(alloc, trace, r, l, Fifo::new(alloc, c, n)),
        PolicyName::Clock => replay_as(alloc, trace, r, l, Clock::new(alloc, c, n)),
        PolicyName::Lfu => replay_as(alloc, trace, r, l, Lfu::new(alloc, c, n)),
        PolicyName::Belady => replay_as(alloc, trace, r, l, Belady::new(alloc, c, n)),
        PolicyName::Sieve => replay_as(alloc, trace, r, l, Sieve::new(alloc, c, n)),
        PolicyName::S3Fifo => replay_as(alloc, trace, r, l, S3Fifo::new(alloc, c, n)),
        PolicyName::Gdsf => replay_as(alloc, trace, r, l, Gdsf::new(alloc, c, n)),
        PolicyName::Lfuda => replay_as(alloc, trace, r, l, Lfuda::new(alloc, c, n)),
        PolicyName::Gdsf98 => replay_as(alloc, trace, r, l, Gdsf98::new(alloc, c, n)),
        PolicyName::WTinyLfu => replay_as(alloc, trace, r, l, WTinyLfu::new(alloc, c, n)),
    }
}

// Whether request `t` is stale, which only fills then.
fn is_stale(trace: &Trace, stale: &BitList, t: u32) -> bool
    ensures { result ≡ (slice_index_or (bits_of stale.now) t false && only_fills trace.now.fills t) }
{
    stale.get(t as usize) && trace.only_fills(t)
}

// A flag for each request that is stale. Each of them only fills.
fn stale_flags(alloc: Global, trace: &Trace, stale: &BitList) -> Result<BitList, NoMemory>
    ensures { IfOk result (λ flags. bits_of flags ≡ stale_flags trace.now (bits_of stale.now)) }
{
    let mut flags = BitList::new(alloc);
    for t in 0..trace.len() {
        flags.make_room()?;
        flags.push_reserved(is_stale(trace, stale, t));
    }
    Ok(flags)
}

// What the replay of a trace answers whose objects stay fresh so long.
fn replay_while(
    alloc: Global,
    fresh: Freshness,
    r: ReplaySettings,
    trace: &Trace,
    noted: &StaleRequests,
) -> Result<Answered, NoMemory>
    ensures { IfOk result (IsAnswered (leaving_of fresh trace.now (noted_of noted.now)) r trace.now) }
{
    if !fresh.can_end() {
        return replay_by(alloc, trace, r, None);
    }
    let stale = stale_flags(alloc, trace, &noted.stale)?;
    let leaving = Leaving {
        stale: &stale,
        replace: fresh.replace,
    };
    replay_by(alloc, trace, r, Some(leaving))
}

// The report of the counts of a replay.
fn counts_text(
    alloc: Global,
    format: Format,
    r: ReplaySettings,
    trace: &Trace,
    notes: &TraceNotes,
    replay: Replay,
) -> Result<Vec<u8>, NoMemory>
    requires { AreCountsOf (leaving_of format.fresh trace.now notes.now.noted) r trace.now replay }
    ensures { IfOk result (λ text. IsCountsText format r trace.now notes.now text.items) }
{
    let facts = ReplayFacts {
        requests: trace.len(),
        objects: trace.objects(),
        dropped: notes.dropped,
        policy: r.policy,
        capacity: r.capacity,
        replay,
        written: if_counted(r.writes, replay.written),
    };
    render(
        alloc,
        &facts,
        counting_from(format, r.warmup, trace, &notes.noted),
    )
}

/// What the replay of a trace of this form prints, with what is told beside it.
pub(crate) fn replay_text(
    alloc: Global,
    format: Format,
    r: ReplaySettings,
    trace: &Trace,
    notes: &TraceNotes,
) -> Result<Vec<u8>, NoMemory>
    ensures { IfOk result (λ text. IsReplayText format r trace.now notes.now text.items) }
{
    match replay_while(alloc, format.fresh, r, trace, &notes.noted)? {
        Answered::Counts(replay) => counts_text(alloc, format, r, trace, notes, replay),
        Answered::Flags(flags) => flags_text(alloc, &flags, trace.len()),
    }
}
