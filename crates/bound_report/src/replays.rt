//! The report of a replay.
ghost use Rattle.std.specs.Prelude.{◌≡◌, IfOk};
ghost use Rattle.cache_model.specs.Texts.{line};
ghost use Rattle.bound_report.specs.Replays.{hits_line, policy_line, replay_text};

use crate::rendering::{Counting, Report, render};
use crate::report::{Line, append, append_trace, append_written};
use bound_base::NoMemory;
use line_text::LineText;
use policy_model::PolicyName;
use replay_core::Replay;
use std::alloc::Global;

/// What a report of a replay states: the counts of the trace, the policy and its capacity in bytes, its hits and their
/// bytes, and the bytes that it writes, if they are counted.
#[derive(Clone, Copy, Debug, PartialEq, Eq)]
pub struct ReplayFacts {
    pub requests: u32,
    pub objects: u32,
    pub dropped: u64,
    pub policy: PolicyName,
    pub capacity: u64,
    pub replay: Replay,
    pub written: Option<u128>,
}

fn policy_line(policy: PolicyName, capacity: u64) -> Line
    ensures { result ≡ line (policy_line policy capacity) }
{
    let mut text = LineText::new();
    text.push(b"policy ");
    text.push(policy.word().as_bytes());
    text.push_entry_line(b" capacity", capacity);
    text
}

/// The hits and their bytes.
pub(crate) fn hits_line(hits: u64, bytes: u128) -> Line
    ensures { result ≡ line (hits_line hits bytes) }
{
    let mut text = LineText::new();
    text.push_entry(b"hits", hits);
    text.push_entry_line(b" bytes", bytes);
    text
}

impl Report for ReplayFacts {
    ghost use Rattle.bound_report.specs.Replays.{replay_lines};

    ghost lines = { λ facts. replay_lines facts };

    ghost is_sound = { λ facts. Unit {0} };

    fn append_front(&self, text: &mut Vec<u8>) -> Result<(), NoMemory> {
        append_trace(text, self.requests, self.objects, self.dropped)
    }

    fn append_head(&self, text: &mut Vec<u8>) -> Result<(), NoMemory> {
        append(text, &policy_line(self.policy, self.capacity))
    }

    fn append_back(&self, text: &mut Vec<u8>) -> Result<(), NoMemory> {
        append(text, &hits_line(self.replay.hits, self.replay.bytes))?;
        append_written(text, self.written)
    }
}

/// The report of a replay without warm-up, marks and stale requests.
pub fn replay_text(alloc: Global, facts: &ReplayFacts) -> Result<Vec<u8>, NoMemory>
    ensures { IfOk result (λ text. text.items ≡ replay_text facts.now) }
{
    render(alloc, facts, Counting::every())
}
