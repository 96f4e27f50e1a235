//! The report of bounds, and the lines that it shares with other reports.
ghost use Rattle.std.specs.Prelude.{◌≡◌, ◌<◌, ◌≤◌, ◌+◌, ◌++◌, codes, length, OnErr, OnOk, IfOk};
ghost use Rattle.bound_report.specs.Reports.{capacity_line, flow_line, mode_line, ratio, report_text};
ghost use Rattle.bound_report.specs.Reports.{trace_line, unit_line, upper_line, value_lines, window_word, written_lines};
ghost use Rattle.cache_model.specs.Texts.{entry, form_word, line, objective_word, text_of};

use crate::facts::BoundFacts;
use crate::rendering::{Counting, Report, render};
use bound_base::NoMemory;
use bound_terms::{Mode, Window};
use cache_model::{Header, Objective};
use line_text::LineText;
use std::alloc::Global;

/// The most bytes that a line of a report has.
const ROOM: usize = 256;

/// A line of a report, with its end.
pub(crate) type Line = LineText<ROOM>;

/// The word of an objective.
pub(crate) fn word_of_objective(objective: Objective) -> &'static [u8]
    ensures word { result.now ≡ objective_word objective }
    ensures short { length result.now ≤ 6 }
{
    match objective {
        Objective::Object => b"object",
        Objective::Bytes => b"bytes",
    }
}

/// The word of the form.
pub(crate) fn word_of_form(exact: bool) -> &'static [u8]
    ensures word { result.now ≡ form_word exact }
    ensures short { length result.now ≤ 5 }
{
    if exact { b"exact" } else { b"plain" }
}

fn trace_line(requests: u32, objects: u32, dropped: u64) -> Line
    ensures { result ≡ line (trace_line requests objects dropped) }
{
    let mut text = LineText::new();
    text.push_entry(b"trace requests", requests);
    text.push_entry(b" objects", objects);
    text.push_entry_line(b" dropped", dropped);
    text
}

/// The capacity and the objective.
pub(crate) fn capacity_line(capacity: u64, objective: Objective) -> Line
    ensures { result ≡ line (capacity_line capacity objective) }
{
    let mut text = LineText::new();
    text.push_entry(b"capacity", capacity);
    text.push(b" objective ");
    text.push_line(word_of_objective(objective));
    text
}

fn push_window(text: &mut Line, window: Window)
    requires { length text.old ≤ 100 }
    ensures text { text.new ≡ text.old ++ window_word window }
    ensures short { length text.new ≤ length text.old + 10 }
{
    match window {
        Window::All => text.push(b"all"),
        Window::Steps(width) => text.push_number(width),
    }
}

fn push_mode_line(text: &mut Line, mode: Mode, price: u128, exact: bool)
    requires { length text.old ≤ 50 }
    ensures { text.new ≡ text.old ++ line (mode_line mode price exact) }
{
    match mode {
        Mode::Flow { window } => {
            text.push(b"mode flow window ");
            push_window(text, window);
            text.push(b" form ");
            text.push_line(word_of_form(exact));
        }
        Mode::Constant => {
            text.push_entry(b"mode constant price", price);
            text.push_line(b" form plain");
        }
        Mode::Infinite => text.push_line(b"mode infinite form plain"),
    }
}

fn mode_line(facts: &BoundFacts) -> Line
    ensures { result ≡ line (mode_line facts.now.mode facts.now.price facts.now.header.exact) }
{
    let mut text = LineText::new();
    push_mode_line(&mut text, facts.mode, facts.price, facts.header.exact);
    text
}

/// The unit, how many of them the capacity has, and the denominator.
pub(crate) fn unit_line(header: &Header) -> Line
    requires { 0 < header.now.unit }
    ensures { result ≡ line (unit_line header.now) }
{
    let mut text = LineText::new();
    text.push_entry(b"unit", header.unit);
    text.push_entry(b" units", header.capacity / header.unit);
    text.push_entry_line(b" denominator", header.denominator);
    text
}

/// A word and a value over the denominator.
pub(crate) fn push_ratio(text: &mut Line, word: &[u8], value: u128, denominator: u64)
    requires { length text.old + length word.now ≤ 180 }
    ensures text { text.new ≡ text.old ++ ratio word.now value denominator }
    ensures short { length text.new ≤ length text.old + length word.now + 61 }
{
    text.push_entry(word, value);
    text.push(b"/");
    text.push_number(denominator);
}

fn upper_line(header: &Header) -> Line
    requires { 0 < header.now.denominator }
    ensures { result ≡ line (upper_line header.now) }
{
    let mut text = LineText::new();
    push_ratio(&mut text, b"upper", header.upper, header.denominator);
    text.push_entry_line(b" floor", header.upper / header.denominator as u128);
    text
}

fn flow_line(header: &Header) -> Line
    ensures { result ≡ line (flow_line header.now) }
{
    let mut text = LineText::new();
    push_ratio(&mut text, b"flow", header.flow, header.denominator);
    text.push_line(b"");
    text
}

/// A line of a word and a number.
pub(crate) fn entry_line(word: &[u8], number: u128) -> Line
    requires { length word.now ≤ 100 }
    ensures { result ≡ line (entry word.now number) }
{
    let mut text = LineText::new();
    text.push_entry_line(word, number);
    text
}

/// Appends a line.
pub(crate) fn append(text: &mut Vec<u8>, line: &Line) -> Result<(), NoMemory>
    ensures text { OnOk result (text.new.items ≡ text.old.items ++ line.now) }
    ensures kept { OnErr result (text.new.items ≡ text.old.items) }
{
    text.extend_from_slice(line.as_bytes())?;
    Ok(())
}

/// Appends the line of a trace: its counts.
pub(crate) fn append_trace(
    text: &mut Vec<u8>,
    requests: u32,
    objects: u32,
    dropped: u64,
) -> Result<(), NoMemory>
    ensures { OnOk result (text.new.items ≡ text.old.items ++ line (trace_line requests objects dropped)) }
{
    append(text, &trace_line(requests, objects, dropped))
}

/// Appends the upper bound, the value of the flows, and the lower bound.
pub(crate) fn append_value_lines(text: &mut Vec<u8>, header: &Header) -> Result<(), NoMemory>
    requires { 0 < header.now.denominator }
    ensures { OnOk result (text.new.items ≡ text.old.items ++ text_of (value_lines header.now)) }
{
    append(text, &upper_line(header))?;
    append(text, &flow_line(header))?;
    append(text, &entry_line(b"lower", header.lower))?;
    Ok(())
}

/// Appends the bytes that are written, if they are counted.
pub(crate) fn append_written(text: &mut Vec<u8>, written: Option<u128>) -> Result<(), NoMemory>
    ensures { OnOk result (text.new.items ≡ text.old.items ++ text_of (written_lines written)) }
{
    match written {
        Some(written) => append(text, &entry_line(b"writes", written)),
        None => Ok(()),
    }
}

impl Report for BoundFacts {
    ghost use Rattle.std.specs.Prelude.{◌<◌};
    ghost use Rattle.bound_report.specs.Reports.{bound_lines};

    ghost lines = { λ facts. bound_lines facts };

    ghost is_sound = { λ facts. (0 < facts.header.unit) × (0 < facts.header.denominator) };

    fn append_front(&self, text: &mut Vec<u8>) -> Result<(), NoMemory> {
        append_trace(text, self.header.requests, self.objects, self.dropped)
    }

    fn append_head(&self, text: &mut Vec<u8>) -> Result<(), NoMemory> {
        let header = &self.header;
        append(text, &capacity_line(header.capacity, header.objective))
    }

    fn append_back(&self, text: &mut Vec<u8>) -> Result<(), NoMemory> {
        let header = &self.header;
        append(text, &mode_line(self))?;
        append(text, &unit_line(header))?;
        append(text, &entry_line(b"intervals", u128::from(self.intervals)))?;
        append_value_lines(text, header)?;
        append_written(text, self.written)?;
        Ok(())
    }
}

/// The report of bounds without warm-up, marks and stale requests.
pub fn report_text(alloc: Global, facts: &BoundFacts) -> Result<Vec<u8>, NoMemory>
    requires unit { 0 < facts.now.header.unit }
    requires denominator { 0 < facts.now.header.denominator }
    ensures { IfOk result (λ text. text.items ≡ report_text facts.now) }
{
    render(alloc, facts, Counting::every())
}
