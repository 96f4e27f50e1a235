//! The report of a curve.
ghost use Rattle.std.specs.Prelude.{◌≡◌, ◌++◌, IfOk, OnOk};
ghost use Rattle.cache_model.specs.Texts.{line, text_of};
ghost use Rattle.stack_curve.specs.Curves.{hits_with};
ghost use Rattle.bound_report.specs.Curves.{curve_text, slots_line, slots_lines};

use crate::rendering::{Counting, Report, render};
use crate::report::{Line, append, append_trace, entry_line};
use bound_base::NoMemory;
use line_text::LineText;
use stack_curve::Curve;
use std::alloc::Global;

/// The counts of the trace that a curve is of.
#[derive(Clone, Copy, Debug, PartialEq, Eq)]
pub struct CurveFacts {
    pub requests: u32,
    pub objects: u32,
    pub dropped: u64,
}

/// What a curve states: the counts of the trace, and the hits at each number of slots.
#[derive(Drop)]
pub struct CurveReport<'a> {
    pub facts: CurveFacts,
    pub curve: &'a Curve,
}

fn slots_line(slots: u32, hits: u64) -> Line
    ensures { result ≡ line (slots_line slots hits) }
{
    let mut text = LineText::new();
    text.push_entry(b"slots", slots);
    text.push_entry_line(b" hits", hits);
    text
}

// Appends a line for each number of slots up to the most that has more hits than one slot less.
fn append_slots(text: &mut Vec<u8>, most: u32, curve: &Curve) -> Result<(), NoMemory>
    ensures { OnOk result (text.new.items ≡ text.old.items ++ text_of (slots_lines (hits_with curve.now) most)) }
{
    for fewer in 0..most {
        let hits = curve.hits(fewer + 1);
        if hits > curve.hits(fewer) {
            append(text, &slots_line(fewer + 1, hits))?;
        }
    }
    Ok(())
}

impl<'a> Report for CurveReport<'a> {
    ghost use Rattle.stack_curve.specs.Curves.{hits_with};
    ghost use Rattle.bound_report.specs.Curves.{curve_lines};

    ghost lines = { λ r. curve_lines r.facts r.curve.now.size (hits_with r.curve.now) };

    ghost is_sound = { λ r. Unit {0} };

    fn append_front(&self, text: &mut Vec<u8>) -> Result<(), NoMemory> {
        let facts = &self.facts;
        append_trace(text, facts.requests, facts.objects, facts.dropped)
    }

    fn append_head(&self, text: &mut Vec<u8>) -> Result<(), NoMemory> {
        append(text, &entry_line(b"size", u128::from(self.curve.size())))
    }

    fn append_back(&self, text: &mut Vec<u8>) -> Result<(), NoMemory> {
        append_slots(text, self.facts.objects, self.curve)
    }
}

/// The report of a curve without marks and stale requests.
pub fn curve_text(alloc: Global, facts: &CurveFacts, curve: &Curve) -> Result<Vec<u8>, NoMemory>
    ensures { IfOk result (λ text. text.items ≡ curve_text facts.now curve.now.size (hits_with curve.now)) }
{
    let report = CurveReport {
        facts: *facts,
        curve,
    };
    render(alloc, &report, Counting::every())
}
