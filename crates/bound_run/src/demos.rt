//! A demo: bounds of a trace that is drawn, their check, and the replay of each policy.
ghost use Rattle.std.specs.Prelude.{◌≡◌, None, IfOk, IfErr};
ghost use Rattle.freshness.specs.Seen.{nothing_noted};
ghost use Rattle.trace_any.specs.Readings.{full_limits, reading, webcache_form};
ghost use Rattle.bound_run.specs.Demos.{AreReplays, IsDemoText};
ghost use Rattle.bound_run.specs.Refusals.{RefusesDemo};
ghost use Rattle.bound_run.specs.Readings.{IsCertified};
ghost use Rattle.bound_run.specs.Replays.{IsReplay};

use crate::bounds::texts_of;
use crate::checking::verdict_of;
use crate::replays::{Answered, replay_by};
use bound_base::NoMemory;
use bound_io::CalmSource;
use bound_report::{DemoFacts, PolicyReplays, Refusal, demo_text};
use bound_words::{BoundSettings, DrawSettings, ReplaySettings};
use cache_rules::Trace;
use demo_trace::{demo_trace, webcache_text};
use policy_model::PolicyName;
use replay_core::Replay;
use std::alloc::Global;
use trace_any::{Format, Layout, StaleRequests, TraceNotes};

// Checks a certificate against the lines of a trace, both in memory. No read fails and the certificate is valid, so
// there is a refusal only if memory runs out.
fn check_made(alloc: Global, lines: Vec<u8>, cert: Vec<u8>) -> Result<(), Refusal>
    requires trace { (reading webcache_form full_limits lines.items).refused ≡ None }
    requires certified { IsCertified webcache_form lines.items cert.items }
    ensures { IfErr result (λ refusal. refusal ≡ Refusal.NoMemory) }
{
    let mut trace = CalmSource::new(lines);
    let mut cert = CalmSource::new(cert);
    match verdict_of(
        alloc,
        Format::lasting(Layout::Webcache),
        &mut trace,
        &mut cert,
    ) {
        Ok(_) => Ok(()),
        Err(refusal) => Err(refusal),
    }
}

// No line is dropped, and no request can be stale.
fn no_notes(alloc: Global) -> TraceNotes
    ensures { result ≡ record { dropped = 0; noted = nothing_noted } }
{
    TraceNotes {
        dropped: 0,
        noted: StaleRequests::new(alloc),
    }
}

// The replay of a policy at the capacity of the bounds. Every request counts.
fn replay_whole(
    alloc: Global,
    trace: &Trace,
    policy: PolicyName,
    asked: &BoundSettings,
) -> Result<Replay, NoMemory>
    ensures { IfOk result (IsReplay policy asked.now.terms.capacity 0 trace.now) }
{
    let settings = ReplaySettings::new(policy, asked.terms.capacity, 0, false, false);
    match replay_by(alloc, trace, settings, None)? {
        Answered::Counts(replay) => Ok(replay),
        Answered::Flags(_) => unreachable!(),
    }
}

// The replay of each policy.
fn replays_of(
    alloc: Global,
    trace: &Trace,
    asked: &BoundSettings,
) -> Result<PolicyReplays, NoMemory>
    ensures { IfOk result (AreReplays asked.now.terms.capacity trace.now) }
{
    Ok(PolicyReplays {
        lru: replay_whole(alloc, trace, PolicyName::Lru, asked)?,
        fifo: replay_whole(alloc, trace, PolicyName::Fifo, asked)?,
        clock: replay_whole(alloc, trace, PolicyName::Clock, asked)?,
        lfu: replay_whole(alloc, trace, PolicyName::Lfu, asked)?,
        belady: replay_whole(alloc, trace, PolicyName::Belady, asked)?,
    })
}

/// The report of a demo. Its certificate stays in memory, and is checked against the lines of the trace before anything
/// is reported.
pub(crate) fn demo_report(
    alloc: Global,
    drawing: DrawSettings,
    asked: &BoundSettings,
) -> Result<Vec<u8>, Refusal>
    ensures shown { IfOk result (λ text. IsDemoText drawing asked.now text.items) }
    ensures refused { IfErr result (RefusesDemo drawing asked.now) }
{
    let trace = demo_trace(alloc, drawing.seed, drawing.requests, drawing.objects)?;
    let texts = texts_of(
        alloc,
        Format::lasting(Layout::Webcache),
        asked,
        &trace,
        &no_notes(alloc),
    )?;
    let lines = webcache_text(alloc, &trace)?;
    check_made(alloc, lines, texts.cert)?;
    let replays = replays_of(alloc, &trace, asked)?;
    let facts = DemoFacts {
        seed: drawing.seed,
        requests: drawing.requests,
        objects: drawing.objects,
        capacity: asked.terms.capacity,
    };
    Ok(demo_text(alloc, &facts, &texts.report, &replays)?)
}
