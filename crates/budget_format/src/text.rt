//! The lines of a certificate with a budget, as they are written.
ghost use Rattle.std.specs.Prelude.{◌≡◌, ◌≤◌, ◌+◌, ◌++◌, length, decimal};
ghost use Rattle.cache_model.specs.Texts.{keep_digit, line, text_of};
ghost use Rattle.budget_format.specs.Texts.{budget_line, header_lines, record_line, warmup_lines};

use crate::certificates::{BudgetHeader, BudgetRecord};
use cert_format::objective_line;
use line_text::LineText;

/// The lines before the records have fewer bytes.
pub(crate) const HEADER_ROOM: usize = 448;

/// The line of a record has fewer bytes.
pub(crate) const RECORD_ROOM: usize = 64;

// Appends the line of the warm-up, if there is one.
fn push_warmup(text: &mut LineText<HEADER_ROOM>, warmup: u32)
    requires { length text.old + 32 ≤ HEADER_ROOM }
    ensures text { text.new ≡ text.old ++ text_of (warmup_lines warmup) }
    ensures short { length text.new ≤ length text.old + 32 }
{
    if warmup != 0 {
        text.push_entry_line(b"warmup", warmup);
    }
}

// Appends the line of a budget and its price.
fn push_budget(text: &mut LineText<HEADER_ROOM>, budget: u128, price: u128)
    requires { length text.old + 104 ≤ HEADER_ROOM }
    ensures text { text.new ≡ text.old ++ line (budget_line budget price) }
    ensures short { length text.new ≤ length text.old + 104 }
{
    text.push_entry(b"budget", budget);
    text.push(b" ");
    text.push_entry_line(b"price", price);
}

/// The lines before the records.
pub(crate) fn header_text(header: &BudgetHeader) -> LineText<HEADER_ROOM>
    ensures { result ≡ text_of (header_lines header.now) }
{
    let mut text = LineText::new();
    text.push_line(b"cache-bound-certificate 3");
    text.push_line(objective_line(header.objective));
    text.push_entry_line(b"capacity", header.capacity);
    text.push_entry_line(b"requests", header.requests);
    text.push_entry_line(b"unit", header.unit);
    text.push_entry_line(b"denominator", header.denominator);
    text.push_line(b"form plain");
    text.push_entry_line(b"upper", header.upper);
    text.push_entry_line(b"lower", header.lower);
    push_warmup(&mut text, header.warmup);
    push_budget(&mut text, header.budget, header.price);
    text.push_line(b"records");
    text
}

fn keep_word(keep: bool) -> &'static [u8]
    ensures text { result.now ≡ decimal (keep_digit keep) }
    ensures short { length result.now ≤ 1 }
{
    if keep { b"1" } else { b"0" }
}

/// The line of a record after one of this price.
pub(crate) fn record_text(before: u128, entry: &BudgetRecord) -> LineText<RECORD_ROOM>
    ensures { result ≡ line (record_line before entry.now) }
{
    let mut text = LineText::new();
    if entry.price != before {
        text.push_number(entry.price);
        text.push(b" ");
    }
    text.push_line(keep_word(entry.keep));
    text
}
