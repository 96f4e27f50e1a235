//! The lines of a certificate, as they are written.
ghost use Rattle.std.specs.Prelude.{◌≡◌, ◌≤◌, ◌+◌, ◌++◌, codes, length, decimal};
ghost use Rattle.cache_model.specs.Texts.{form_word, full_line, header_lines, keep_digit, last_lines};
ghost use Rattle.cache_model.specs.Texts.{line, objective_word, record_line, short_line, text_of};

use cache_model::{Header, Objective, Record, SHORT_VERSION};
use line_text::LineText;

/// The lines before the records have fewer bytes.
pub(crate) const HEADER_ROOM: usize = 384;

/// The line of a record has fewer bytes. The room is small, since it is made anew for each record.
pub(crate) const RECORD_ROOM: usize = 64;

// Appends the lines from the warm-up on.
fn push_last(text: &mut LineText<HEADER_ROOM>, warmup: u32)
    requires { length text.old + 64 ≤ HEADER_ROOM }
    ensures { text.new ≡ text.old ++ text_of (last_lines warmup) }
{
    if warmup == 0 {
        text.push_line(b"records");
    } else {
        text.push_entry_line(b"warmup", warmup);
        text.push_line(b"records");
    }
}

/// The lines before the records.
pub(crate) fn header_text(header: &Header) -> LineText<HEADER_ROOM>
    ensures { result ≡ text_of (header_lines header.now) }
{
    let mut text = LineText::new();
    text.push_entry_line(b"cache-bound-certificate", header.version);
    text.push_line(objective_line(header.objective));
    text.push_entry_line(b"capacity", header.capacity);
    text.push_entry_line(b"requests", header.requests);
    text.push_entry_line(b"unit", header.unit);
    text.push_entry_line(b"denominator", header.denominator);
    text.push_line(form_line(header.exact));
    text.push_entry_line(b"upper", header.upper);
    text.push_entry_line(b"flow", header.flow);
    text.push_entry_line(b"lower", header.lower);
    push_last(&mut text, header.warmup);
    text
}

// The line of a record, with its price.
fn full_text(entry: &Record) -> LineText<RECORD_ROOM>
    ensures { result ≡ line (full_line entry.now) }
{
    let mut text = LineText::new();
    text.push_number(entry.price);
    text.push(keep_word(entry.keep));
    text.push_number(entry.flow);
    text.push(b"\n");
    text
}

// The line of a record, without its price.
fn short_text(entry: &Record) -> LineText<RECORD_ROOM>
    ensures { result ≡ line (short_line entry.now) }
{
    let mut text = LineText::new();
    text.push(keep_first(entry.keep));
    text.push_number(entry.flow);
    text.push(b"\n");
    text
}

/// The line of a record after one of this price.
pub(crate) fn record_text(version: u8, before: u128, entry: &Record) -> LineText<RECORD_ROOM>
    ensures { result ≡ line (record_line version before entry.now) }
{
    if version == SHORT_VERSION && entry.price == before {
        short_text(entry)
    } else {
        full_text(entry)
    }
}

/// The line of an objective, without its end.
pub fn objective_line(objective: Objective) -> &'static [u8]
    ensures text { result.now ≡ codes "objective " ++ objective_word objective }
    ensures short { length result.now ≤ 20 }
{
    match objective {
        Objective::Object => b"objective object",
        Objective::Bytes => b"objective bytes",
    }
}

fn form_line(exact: bool) -> &'static [u8]
    ensures text { result.now ≡ codes "form " ++ form_word exact }
    ensures short { length result.now ≤ 20 }
{
    if exact { b"form exact" } else { b"form plain" }
}

// A keep, and the space after it.
fn keep_first(keep: bool) -> &'static [u8]
    ensures text { result.now ≡ decimal (keep_digit keep) ++ codes " " }
    ensures short { length result.now ≤ 2 }
{
    if keep { b"1 " } else { b"0 " }
}

// A keep, between two spaces.
fn keep_word(keep: bool) -> &'static [u8]
    ensures text { result.now ≡ codes " " ++ decimal (keep_digit keep) ++ codes " " }
    ensures short { length result.now ≤ 3 }
{
    if keep { b" 1 " } else { b" 0 " }
}
