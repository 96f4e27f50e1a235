//! The report of a curve over capacities.
ghost use Rattle.std.specs.Prelude.{◌≡◌, ◌<◌, ◌++◌, ◌∷◌, map, OnOk};
ghost use Rattle.cache_model.specs.Texts.{line, text_of};
ghost use Rattle.bound_report.specs.CapacityCurves.{asked_line, point_line};

use crate::rendering::Report;
use crate::report::{Line, append, append_trace, push_ratio, word_of_objective};
use bound_base::NoMemory;
use capacity_curve::{CurveTerms, Point};
use line_text::LineText;

/// What a curve over capacities is of: the counts of the trace, and what is asked for at each capacity.
#[derive(Clone, Copy, Debug, PartialEq, Eq)]
pub struct CapacityCurveFacts {
    pub requests: u32,
    pub objects: u32,
    pub dropped: u64,
    pub asked: CurveTerms,
}

/// What a curve over capacities states: what it is of, and a point at each capacity.
#[derive(Drop)]
pub struct CapacityCurveReport<'a> {
    pub facts: CapacityCurveFacts,
    pub points: &'a [Point],
}

fn asked_line(asked: &CurveTerms) -> Line
    ensures { result ≡ line (asked_line asked.now) }
{
    let mut text = LineText::new();
    text.push(b"curve objective ");
    text.push(word_of_objective(asked.objective));
    text.push_entry_line(b" denominator", asked.denominator);
    text
}

fn point_line(point: &Point, denominator: u64) -> Line
    requires { 0 < denominator }
    ensures { result ≡ line (point_line denominator point.now) }
{
    let mut text = LineText::new();
    text.push_entry(b"capacity", point.capacity);
    text.push_entry(b" lru", point.hits);
    text.push_entry(b" bytes", point.bytes);
    push_ratio(&mut text, b" upper", point.upper, denominator);
    text.push_entry_line(b" floor", point.upper / u128::from(denominator));
    text
}

// Appends a line for each point.
fn append_points(text: &mut Vec<u8>, points: &[Point], denominator: u64) -> Result<(), NoMemory>
    requires { 0 < denominator }
    ensures { OnOk result (text.new.items ≡ text.old.items ++ text_of (map (point_line denominator) points.now)) }
{
    for point in points {
        append(text, &point_line(point, denominator))?;
    }
    Ok(())
}

impl<'a> Report for CapacityCurveReport<'a> {
    ghost use Rattle.std.specs.Prelude.{◌<◌};
    ghost use Rattle.bound_report.specs.CapacityCurves.{capacity_curve_lines};

    ghost lines = { λ r. capacity_curve_lines r.facts r.points.now };

    ghost is_sound = { λ r. 0 < r.facts.asked.denominator };

    fn append_front(&self, text: &mut Vec<u8>) -> Result<(), NoMemory> {
        let facts = &self.facts;
        append_trace(text, facts.requests, facts.objects, facts.dropped)
    }

    fn append_head(&self, text: &mut Vec<u8>) -> Result<(), NoMemory> {
        append(text, &asked_line(&self.facts.asked))
    }

    fn append_back(&self, text: &mut Vec<u8>) -> Result<(), NoMemory> {
        append_points(text, self.points, self.facts.asked.denominator)
    }
}
