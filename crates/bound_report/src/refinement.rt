//! The report of a refinement.
ghost use Rattle.std.specs.Prelude.{◌≡◌};
ghost use Rattle.bound_report.specs.Refinements.{refined_line};
ghost use Rattle.cache_model.specs.Texts.{line};

use crate::rendering::Report;
use crate::report::{Line, append, push_ratio};
use crate::verdict::CheckFacts;
use bound_base::NoMemory;
use cache_model::Header;
use line_text::LineText;

/// What a refinement states: the numerator of the bound that was read, and a yes of the certificate that is written.
#[derive(Clone, Copy, Debug, PartialEq, Eq)]
pub struct RefinementFacts {
    pub read_upper: u128,
    pub check: CheckFacts,
}

// The bound that was read and the refined one.
fn refined_line(read_upper: u128, header: &Header) -> Line
    ensures { result ≡ line (refined_line read_upper header.now) }
{
    let mut text = LineText::new();
    push_ratio(&mut text, b"refined from", read_upper, header.denominator);
    push_ratio(&mut text, b" to", header.upper, header.denominator);
    text.push_line(b"");
    text
}

impl Report for RefinementFacts {
    ghost use Rattle.std.specs.Prelude.{◌<◌};
    ghost use Rattle.bound_report.specs.Refinements.{refined_lines};

    ghost lines = { λ facts. refined_lines facts.read_upper facts.check.verdict facts.check.dropped };

    ghost is_sound = { λ facts. (0 < facts.check.verdict.header.unit) × (0 < facts.check.verdict.header.denominator) };

    fn append_front(&self, text: &mut Vec<u8>) -> Result<(), NoMemory> {
        let header = &self.check.verdict.header;
        append(text, &refined_line(self.read_upper, header))?;
        self.check.append_front(text)
    }

    fn append_head(&self, text: &mut Vec<u8>) -> Result<(), NoMemory> {
        self.check.append_head(text)
    }

    fn append_back(&self, text: &mut Vec<u8>) -> Result<(), NoMemory> {
        self.check.append_back(text)
    }
}
