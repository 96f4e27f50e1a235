//! The words of the command line.
ghost use Rattle.std.specs.Prelude.{◌≡◌, ◌≤◌, [], map, slice_get, string_bytes, IfOk};
ghost use Rattle.std.specs.Option.{option_copied};
ghost use Rattle.bound_words.specs.Faults.{passed};
ghost use Rattle.bound_words.specs.Plans.{IsPlanInRange};
ghost use Rattle.bound_words.specs.Commands.{operands_of, places_of};
ghost use Rattle.bound_words.specs.Words.{HasNeeded, beside_fault, block_fault, command_asked, command_of, command_with};
ghost use Rattle.bound_words.specs.Words.{count_fault, earlier, form_fault, has_no_writes, operand_fault, operands_fault, time_fault};
ghost use Rattle.bound_words.specs.Words.{path, paths, plan, plan_of_operands, replace_fault, takes_no_window, times_fault, ttl_fault, unknown_operand, window_fault, writes_fault};

use crate::commands::{Command, command_named, has_operand};
use crate::given::{flags_given, reads_given, ttl_given, writes_given};
use crate::kinds::takes_value;
use crate::making::plan_of_command;
use crate::named::{has_equals, name_of, place_given, value_given, value_of};
use crate::plans::Plan;
use crate::values::{USUAL_BLOCK, is, layout_of};
use bound_terms::WordKind;

/// The first word that is refused. Places count from 1, the command being at place 1.
#[derive(Clone, Copy, Debug, PartialEq, Eq)]
pub struct WordFault {
    pub place: u64,
    pub kind: WordKind,
}

pub(crate) fn refuse<T: Drop>(place: u64, kind: WordKind) -> Result<T, WordFault>
    ensures { result ≡ Err (record { place = place; kind = kind }) }
{
    Err(WordFault { place, kind })
}

pub(crate) fn word_at(words: &[String], at: usize) -> Option<&str>
    ensures { option_copied result ≡ slice_get (map string_bytes words.now) at }
{
    let word = words.get(at)?;
    Some(word.as_str())
}

fn command_of(word: Option<&str>) -> Result<Command, WordFault>
    ensures { result ≡ command_of (option_copied word.entry) }
{
    match word {
        None => refuse(1, WordKind::Missing),
        Some(word) => match command_named(word) {
            Some(command) => Ok(command),
            None => refuse(1, WordKind::Unknown),
        },
    }
}

// What is asked for by a command with these operands.
fn command_with(named: Command, operands: &[String]) -> Command
    ensures { result ≡ command_with named (map string_bytes operands.now) }
{
    match named {
        Command::Curve if value_given("capacities", operands).is_some() => Command::CapacityCurve,
        _ => named,
    }
}

/// What the words ask for, if they begin with a command.
pub fn command_asked(words: &[String]) -> Option<Command>
    ensures { result ≡ command_asked (map string_bytes words.now) }
{
    let named = command_named(word_at(words, 0)?)?;
    Some(command_with(named, operands_of(named, words)))
}

fn expect_path(place: u64, word: Option<&str>) -> Result<(), WordFault>
    ensures { result ≡ path place (option_copied word.entry) }
{
    match word {
        None => refuse(place, WordKind::Missing),
        Some(word) if word.is_empty() => refuse(place, WordKind::BadValue),
        Some(_) => Ok(()),
    }
}

// Why a word is refused that stands after these operands.
fn operand_fault(command: Command, before: &[String], word: &str) -> Option<WordKind>
    ensures { result ≡ operand_fault command (map string_bytes before.now) word.now }
{
    let name = name_of(word);
    if !(has_equals(word) && has_operand(command, name)) {
        return Some(WordKind::Unknown);
    }
    if value_given(name, before).is_some() {
        return Some(WordKind::Twice);
    }
    if !takes_value(command, name, value_of(word)) {
        return Some(WordKind::BadValue);
    }
    None
}

// Looks at the paths of a command, which are the words after it.
fn check_paths(command: Command, words: &[String]) -> Result<(), WordFault>
    ensures { result ≡ paths 1 (places_of command).count (map string_bytes words.now) }
{
    for at in 0..command.places().count {
        expect_path(at as u64 + 2, word_at(words, at + 1))?;
    }
    Ok(())
}

/// The words behind a command and its paths.
pub fn operands_of(command: Command, words: &[String]) -> &[String]
    ensures { map string_bytes result.now ≡ operands_of command (map string_bytes words.now) }
{
    words.get(command.operands_at()..).unwrap_or(&[])
}

// Looks at the operands from left to right, of which the first is at a place. Names come from a fixed set, so few are
// looked at.
fn check_operands(command: Command, first: u64, operands: &[String]) -> Result<(), WordFault>
    requires { first ≤ 10 }
    ensures { result ≡ passed (operands_fault command first [] (map string_bytes operands.now)) }
{
    for (at, word) in operands.iter().enumerate() {
        if let Some(kind) = operand_fault(command, &operands[..at], word.as_str()) {
            return refuse(at as u64 + first, kind);
        }
    }
    Ok(())
}

// An operand that may not stand there, if it is given.
fn unknown_operand(first: u64, name: &str, operands: &[String]) -> Option<WordFault>
    requires { first ≤ 10 }
    ensures { result ≡ unknown_operand first name.now (map string_bytes operands.now) }
{
    let place = place_given(first, name, operands)?;
    Some(WordFault {
        place,
        kind: WordKind::Unknown,
    })
}

// A block may stand only if the trace isn't of another form than msr.
fn block_fault(first: u64, operands: &[String]) -> Option<WordFault>
    requires { first ≤ 10 }
    ensures { result ≡ block_fault first (map string_bytes operands.now) }
{
    match value_given("format", operands) {
        Some(format) if !is(format, "msr") => unknown_operand(first, "block", operands),
        _ => None,
    }
}

// An operand that is a time may stand only if the lines of the trace have times.
fn time_fault(first: u64, name: &str, operands: &[String]) -> Option<WordFault>
    requires { first ≤ 10 }
    ensures { result ≡ time_fault first name.now (map string_bytes operands.now) }
{
    match value_given("format", operands) {
        Some(format) if is(format, "arc") => unknown_operand(first, name, operands),
        _ => None,
    }
}

// The first of the times for which objects stay fresh that may not stand.
fn times_fault(first: u64, operands: &[String]) -> Option<WordFault>
    requires { first ≤ 10 }
    ensures { result ≡ times_fault first (map string_bytes operands.now) }
{
    let of_idle = time_fault(first, "idle", operands);
    earlier(of_idle, time_fault(first, "ttl", operands))
}

// That objects are replaced may stand only if the trace isn't of blocks.
fn replace_fault(first: u64, operands: &[String]) -> Option<WordFault>
    requires { first ≤ 10 }
    ensures { result ≡ replace_fault first (map string_bytes operands.now) }
{
    match value_given("format", operands) {
        Some(format) if is(format, "arc") || is(format, "msr") => {
            unknown_operand(first, "replace", operands)
        }
        _ => None,
    }
}

// Whether a form of the trace is given that has no marks if only reads count.
fn has_no_writes(format: Option<&str>) -> bool
    ensures { result ≡ has_no_writes (option_copied format.entry) }
{
    match format {
        Some(format) => match layout_of(format, USUAL_BLOCK, true) {
            Some(layout) => !layout.has_marks(),
            None => true,
        },
        None => false,
    }
}

// That only reads count may stand only if the trace isn't of a form that has no writes.
fn count_fault(first: u64, operands: &[String]) -> Option<WordFault>
    requires { first ≤ 10 }
    ensures { result ≡ count_fault first (map string_bytes operands.now) }
{
    if reads_given(operands) && has_no_writes(value_given("format", operands)) {
        return unknown_operand(first, "count", operands);
    }
    None
}

// That objects expire a time after they were written may stand only if the mode isn't flow.
fn ttl_fault(first: u64, operands: &[String]) -> Option<WordFault>
    requires { first ≤ 10 }
    ensures { result ≡ ttl_fault first (map string_bytes operands.now) }
{
    match value_given("mode", operands) {
        Some(mode) if is(mode, "flow") => unknown_operand(first, "ttl", operands),
        _ => None,
    }
}

// Whether the mode takes no window: one that is given and isn't flow, or one price, which is usual beside a ttl.
fn takes_no_window(mode: Option<&str>, has_ttl: bool) -> bool
    ensures { result ≡ takes_no_window (option_copied mode.entry) has_ttl }
{
    match mode {
        Some(mode) => !is(mode, "flow"),
        None => has_ttl,
    }
}

// A window may stand only if the mode takes one.
fn window_fault(first: u64, operands: &[String]) -> Option<WordFault>
    requires { first ≤ 10 }
    ensures { result ≡ window_fault first (map string_bytes operands.now) }
{
    if takes_no_window(value_given("mode", operands), ttl_given(operands).is_some()) {
        return unknown_operand(first, "window", operands);
    }
    None
}

// That written bytes are counted is unknown beside flags that are printed.
fn writes_fault(first: u64, operands: &[String]) -> Option<WordFault>
    requires { first ≤ 10 }
    ensures { result ≡ writes_fault first (map string_bytes operands.now) }
{
    if writes_given(operands) && flags_given(operands) {
        return unknown_operand(first, "writes", operands);
    }
    None
}

// The fault at the lesser place.
fn earlier(first: Option<WordFault>, second: Option<WordFault>) -> Option<WordFault>
    ensures { result ≡ earlier first second }
{
    match (first, second) {
        (Some(a), Some(b)) if b.place < a.place => Some(b),
        (Some(a), _) => Some(a),
        (None, other) => other,
    }
}

// The first operand that the form of the trace doesn't have.
fn form_fault(first: u64, operands: &[String]) -> Option<WordFault>
    requires { first ≤ 10 }
    ensures { result ≡ form_fault first (map string_bytes operands.now) }
{
    let of_times = earlier(block_fault(first, operands), times_fault(first, operands));
    earlier(of_times, replace_fault(first, operands))
}

// The first operand that may not stand beside another.
fn beside_fault(first: u64, operands: &[String]) -> Option<WordFault>
    requires { first ≤ 10 }
    ensures { result ≡ beside_fault first (map string_bytes operands.now) }
{
    let of_trace = earlier(form_fault(first, operands), count_fault(first, operands));
    let of_ttl = earlier(of_trace, ttl_fault(first, operands));
    let of_mode = earlier(of_ttl, window_fault(first, operands));
    earlier(of_mode, writes_fault(first, operands))
}

pub(crate) fn passed(fault: Option<WordFault>) -> Result<(), WordFault>
    ensures { result ≡ passed fault }
{
    match fault {
        None => Ok(()),
        Some(fault) => Err(fault),
    }
}

// What the operands of a command ask for, or the first fault in them.
fn plan_of_operands<'a>(
    command: Command,
    first: u64,
    words: &[String],
    operands: &'a [String],
) -> Result<Plan<'a>, WordFault>
    requires { first ≤ 10 }
    ensures plan { result ≡ plan_of_operands command first (map string_bytes words.now) (map string_bytes operands.now) }
    ensures range { IfOk result IsPlanInRange }
{
    check_operands(command, first, operands)?;
    passed(beside_fault(first, operands))?;
    plan_of_command(command, words, operands)
}

/// What the words ask for, or the first fault in them. The words are those after the program's name.
#[tactic(auto, unfolding(crate::specs::Words::plan))]
pub fn plan_of(words: &[String]) -> Result<Plan<'_>, WordFault>
    ensures plan { result ≡ plan (map string_bytes words.now) }
    ensures range { IfOk result IsPlanInRange }
    ensures needed { IfOk result (λ plan. HasNeeded (map string_bytes words.now)) }
{
    let named = command_of(word_at(words, 0))?;
    check_paths(named, words)?;
    let first = named.operands_at() as u64 + 1;
    let operands = operands_of(named, words);
    plan_of_operands(command_with(named, operands), first, words, operands)
}
