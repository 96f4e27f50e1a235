//! The report of a check's yes.
ghost use Rattle.std.specs.Prelude.{◌≡◌, ◌<◌, ◌++◌, codes, IfOk};
ghost use Rattle.bound_report.specs.Verdicts.{verdict_text};
ghost use Rattle.cache_model.specs.Texts.{form_word, line};

use crate::rendering::{Counting, Report, render};
use crate::report::{
    Line, append, append_trace, append_value_lines, capacity_line, unit_line, word_of_form,
};
use bound_base::NoMemory;
use cert_checker::Verdict;
use line_text::LineText;
use std::alloc::Global;

/// What a yes states: the verdict, and how many lines of the trace were dropped.
#[derive(Clone, Copy, Debug, PartialEq, Eq)]
pub struct CheckFacts {
    pub verdict: Verdict,
    pub dropped: u64,
}

fn form_line(exact: bool) -> Line
    ensures { result ≡ line (codes "form " ++ form_word exact) }
{
    let mut text = LineText::new();
    text.push(b"form ");
    text.push_line(word_of_form(exact));
    text
}

impl Report for CheckFacts {
    ghost use Rattle.std.specs.Prelude.{◌<◌};
    ghost use Rattle.bound_report.specs.Verdicts.{verdict_lines};

    ghost lines = { λ facts. verdict_lines facts.verdict facts.dropped };

    ghost is_sound = { λ facts. (0 < facts.verdict.header.unit) × (0 < facts.verdict.header.denominator) };

    fn append_front(&self, text: &mut Vec<u8>) -> Result<(), NoMemory> {
        let verdict = &self.verdict;
        append_trace(text, verdict.header.requests, verdict.objects, self.dropped)
    }

    fn append_head(&self, text: &mut Vec<u8>) -> Result<(), NoMemory> {
        let header = &self.verdict.header;
        append(text, &capacity_line(header.capacity, header.objective))
    }

    fn append_back(&self, text: &mut Vec<u8>) -> Result<(), NoMemory> {
        let header = &self.verdict.header;
        append(text, &form_line(header.exact))?;
        append(text, &unit_line(header))?;
        append_value_lines(text, header)?;
        text.extend_from_slice(b"valid\n")?;
        Ok(())
    }
}

/// What a check without warm-up, marks and stale requests says of a valid certificate, if the trace has this number of dropped lines.
pub fn verdict_text(alloc: Global, verdict: &Verdict, dropped: u64) -> Result<Vec<u8>, NoMemory>
    requires unit { 0 < verdict.now.header.unit }
    requires denominator { 0 < verdict.now.header.denominator }
    ensures { IfOk result (λ text. text.items ≡ verdict_text verdict.now dropped) }
{
    let facts = CheckFacts {
        verdict: *verdict,
        dropped,
    };
    render(alloc, &facts, Counting::every())
}
