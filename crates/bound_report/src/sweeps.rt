//! The report of a sweep.
ghost use Rattle.std.specs.Prelude.{◌≡◌, ◌<◌, ◌++◌, ◌∷◌, [], All, flat_map, OnOk};
ghost use Rattle.cache_model.specs.Texts.{line, text_of};
ghost use Rattle.trace_sweep.specs.Points.{HasEdges};
ghost use Rattle.bound_report.specs.Sweeps.{bound_line, bound_lines, capacity_lines, counts_line, counts_lines, delay_lines, sweep_line};

use crate::rendering::Report;
use crate::report::{Line, append, append_trace, entry_line, word_of_objective};
use area_sums::EdgeBound;
use bound_base::NoMemory;
use cache_model::Objective;
use line_text::LineText;
use policy_sweep::PolicyReplay;
use trace_sweep::SweepPoint;

/// What a sweep is of: the counts of the trace, how many capacities and policies there are, and by how many requests an
/// object may enter the cache late.
#[derive(Clone, Copy, Debug, PartialEq, Eq)]
pub struct SweepFacts {
    pub requests: u32,
    pub objects: u32,
    pub dropped: u64,
    pub capacities: u64,
    pub policies: u64,
    pub delay: u32,
}

/// What a sweep states: what it is of, the bounds at each capacity, and what each policy counts at one of them.
#[derive(Drop)]
pub struct SweepReport<'a> {
    pub facts: SweepFacts,
    pub points: &'a [SweepPoint],
    pub replays: &'a [PolicyReplay],
}

fn sweep_line(capacities: u64, policies: u64) -> Line
    ensures { result ≡ line (sweep_line capacities policies) }
{
    let mut text = LineText::new();
    text.push_entry(b"sweep capacities", capacities);
    text.push_entry_line(b" policies", policies);
    text
}

fn bound_line(capacity: u64, objective: Objective, bound: EdgeBound) -> Line
    requires { 0 < bound.edge }
    ensures { result ≡ line (bound_line capacity objective bound) }
{
    let mut text = LineText::new();
    text.push_entry(b"capacity", capacity);
    text.push(b" ");
    text.push(word_of_objective(objective));
    text.push_entry(b" upper", bound.upper);
    text.push(b"/");
    text.push_number(bound.edge);
    text.push_entry_line(b" floor", bound.floor());
    text
}

fn counts_line(replay: &PolicyReplay) -> Line
    ensures { result ≡ line (counts_line replay.now) }
{
    let mut text = LineText::new();
    text.push_entry(b"capacity", replay.capacity);
    text.push(b" policy ");
    text.push(replay.policy.word().as_bytes());
    text.push_entry(b" hits", replay.counts.hits);
    text.push_entry(b" bytes", replay.counts.bytes);
    text.push_entry_line(b" writes", replay.counts.written);
    text
}

// Appends the delay, if there is one.
fn append_delay(text: &mut Vec<u8>, delay: u32) -> Result<(), NoMemory>
    ensures { OnOk result (text.new.items ≡ text.old.items ++ text_of (delay_lines delay)) }
{
    if delay == 0 {
        return Ok(());
    }
    append(text, &entry_line(b"delay", u128::from(delay)))
}

// Appends the two lines of a capacity.
fn append_point(text: &mut Vec<u8>, point: &SweepPoint) -> Result<(), NoMemory>
    requires { HasEdges point.now }
    ensures { OnOk result (text.new.items ≡ text.old.items ++ text_of (bound_lines point.now)) }
{
    let SweepPoint { capacity, bounds } = *point;
    append(text, &bound_line(capacity, Objective::Object, bounds.hits))?;
    append(text, &bound_line(capacity, Objective::Bytes, bounds.bytes))
}

// Appends a line of what a policy counts, if that is at this capacity.
fn append_counts(text: &mut Vec<u8>, capacity: u64, replay: &PolicyReplay) -> Result<(), NoMemory>
    ensures { OnOk result (text.new.items ≡ text.old.items ++ text_of (counts_lines capacity replay.now)) }
{
    if replay.capacity == capacity {
        append(text, &counts_line(replay))
    } else {
        Ok(())
    }
}

// Appends those of each policy.
fn append_replays(
    text: &mut Vec<u8>,
    capacity: u64,
    replays: &[PolicyReplay],
) -> Result<(), NoMemory>
    ensures { OnOk result (text.new.items ≡ text.old.items ++ text_of (flat_map (counts_lines capacity) replays.now)) }
{
    for replay in replays {
        append_counts(text, capacity, replay)?;
    }
    Ok(())
}

// Appends the lines of a capacity.
fn append_capacity(
    text: &mut Vec<u8>,
    point: &SweepPoint,
    replays: &[PolicyReplay],
) -> Result<(), NoMemory>
    requires { HasEdges point.now }
    ensures { OnOk result (text.new.items ≡ text.old.items ++ text_of (capacity_lines replays.now point.now)) }
{
    append_point(text, point)?;
    append_replays(text, point.capacity, replays)
}

// Appends those of each capacity.
fn append_points(
    text: &mut Vec<u8>,
    points: &[SweepPoint],
    replays: &[PolicyReplay],
) -> Result<(), NoMemory>
    requires { All HasEdges points.now }
    ensures { OnOk result (text.new.items ≡ text.old.items ++ text_of (flat_map (capacity_lines replays.now) points.now)) }
{
    for point in points {
        append_capacity(text, point, replays)?;
    }
    Ok(())
}

impl<'a> Report for SweepReport<'a> {
    ghost use Rattle.std.specs.Prelude.{All};
    ghost use Rattle.trace_sweep.specs.Points.{HasEdges};
    ghost use Rattle.bound_report.specs.Sweeps.{sweep_lines};

    ghost lines = { λ r. sweep_lines r.facts r.points.now r.replays.now };

    ghost is_sound = { λ r. All HasEdges r.points.now };

    fn append_front(&self, text: &mut Vec<u8>) -> Result<(), NoMemory> {
        let facts = &self.facts;
        append_trace(text, facts.requests, facts.objects, facts.dropped)
    }

    fn append_head(&self, text: &mut Vec<u8>) -> Result<(), NoMemory> {
        let facts = &self.facts;
        append(text, &sweep_line(facts.capacities, facts.policies))?;
        append_delay(text, facts.delay)
    }

    fn append_back(&self, text: &mut Vec<u8>) -> Result<(), NoMemory> {
        append_points(text, self.points, self.replays)
    }
}
