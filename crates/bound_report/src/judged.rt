//! The report of hits that a simulator claims.
ghost use Rattle.std.specs.Prelude.{◌≡◌};
ghost use Rattle.cache_model.specs.Texts.{line};
ghost use Rattle.bound_report.specs.Judged.{possible_line};

use crate::rendering::Report;
use crate::replays::hits_line;
use crate::report::{Line, append, append_trace, append_written, entry_line};
use bound_base::NoMemory;
use hit_judge::Claimed;
use line_text::LineText;

/// What a report of possible hits states: the counts of the trace, the capacity in bytes, the claimed hits with their
/// bytes, and the bytes that they must write, if they are counted.
#[derive(Clone, Copy, Debug, PartialEq, Eq)]
pub struct JudgedFacts {
    pub requests: u32,
    pub objects: u32,
    pub dropped: u64,
    pub capacity: u64,
    pub claimed: Claimed,
    pub written: Option<u128>,
}

fn possible_line() -> Line
    ensures { result ≡ line possible_line }
{
    let mut text = LineText::new();
    text.push(b"possible\n");
    text
}

impl Report for JudgedFacts {
    ghost use Rattle.bound_report.specs.Judged.{judged_lines};

    ghost lines = { λ facts. judged_lines facts };

    ghost is_sound = { λ facts. Unit {0} };

    fn append_front(&self, text: &mut Vec<u8>) -> Result<(), NoMemory> {
        append_trace(text, self.requests, self.objects, self.dropped)
    }

    fn append_head(&self, text: &mut Vec<u8>) -> Result<(), NoMemory> {
        append(
            text,
            &entry_line(b"judged capacity", u128::from(self.capacity)),
        )
    }

    fn append_back(&self, text: &mut Vec<u8>) -> Result<(), NoMemory> {
        append(text, &hits_line(self.claimed.hits, self.claimed.bytes))?;
        append_written(text, self.written)?;
        append(text, &possible_line())
    }
}
