//! The text of a demo.
ghost use Rattle.std.specs.Prelude.{◌≡◌, ◌++◌, ◌∷◌, codes, IfOk, OnOk};
ghost use Rattle.cache_model.specs.Texts.{line, text_of};
ghost use Rattle.bound_report.specs.Demos.{demo_line, demo_text, replay_line, replay_lines};

use crate::report::{Line, append};
use bound_base::NoMemory;
use line_text::LineText;
use policy_model::PolicyName;
use replay_core::Replay;
use std::alloc::Global;

/// What is asked of a demo: the seed of its generator, how many requests, from how many objects they are drawn, and
/// the capacity in bytes.
#[derive(Clone, Copy, Debug, PartialEq, Eq)]
pub struct DemoFacts {
    pub seed: u64,
    pub requests: u32,
    pub objects: u32,
    pub capacity: u64,
}

/// What the replay of each policy counts.
#[derive(Clone, Copy, Debug, PartialEq, Eq)]
pub struct PolicyReplays {
    pub lru: Replay,
    pub fifo: Replay,
    pub clock: Replay,
    pub lfu: Replay,
    pub belady: Replay,
}

fn demo_line(facts: &DemoFacts) -> Line
    ensures { result ≡ line (demo_line facts.now) }
{
    let mut text = LineText::new();
    text.push_entry(b"demo seed", facts.seed);
    text.push_entry(b" requests", facts.requests);
    text.push_entry(b" objects", facts.objects);
    text.push_entry_line(b" capacity", facts.capacity);
    text
}

fn replay_line(policy: PolicyName, replay: Replay) -> Line
    ensures { result ≡ line (replay_line policy replay) }
{
    let mut text = LineText::new();
    text.push(b"replay ");
    text.push(policy.word().as_bytes());
    text.push_entry(b" hits", replay.hits);
    text.push_entry_line(b" bytes", replay.bytes);
    text
}

// Appends a line for each policy.
fn append_replays(text: &mut Vec<u8>, replays: &PolicyReplays) -> Result<(), NoMemory>
    ensures { OnOk result (text.new.items ≡ text.old.items ++ text_of (replay_lines replays.now)) }
{
    append(text, &replay_line(PolicyName::Lru, replays.lru))?;
    append(text, &replay_line(PolicyName::Fifo, replays.fifo))?;
    append(text, &replay_line(PolicyName::Clock, replays.clock))?;
    append(text, &replay_line(PolicyName::Lfu, replays.lfu))?;
    append(text, &replay_line(PolicyName::Belady, replays.belady))?;
    Ok(())
}

/// The report of a demo whose bounds have this report. It says that the certificate of these is valid, whatever they are: its
/// caller has checked that.
pub fn demo_text(
    alloc: Global,
    facts: &DemoFacts,
    bounds: &[u8],
    replays: &PolicyReplays,
) -> Result<Vec<u8>, NoMemory>
    ensures { IfOk result (λ text. text.items ≡ demo_text facts.now bounds.now replays.now) }
{
    let mut text = Vec::new(alloc);
    append(&mut text, &demo_line(facts))?;
    text.extend_from_slice(bounds)?;
    text.extend_from_slice(b"check valid\n")?;
    append_replays(&mut text, replays)?;
    Ok(text)
}
