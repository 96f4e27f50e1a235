//! What the operands of each command ask for, once they are accepted.
ghost use Rattle.std.specs.Prelude.{◌≡◌, ◌≤◌, map, string_bytes, IfOk};
ghost use Rattle.std.specs.Option.{ForSome, option_copied};
ghost use Rattle.bound_words.specs.Faults.{required};
ghost use Rattle.bound_words.specs.Plans.{IsPlanInRange, bounds_plan, capacity_curve_plan, check_plan, curve_plan};
ghost use Rattle.bound_words.specs.Plans.{demo_plan, inputs_fault, is_dash, judge_plan, plan_of_command};
ghost use Rattle.bound_words.specs.Plans.{refine_plan, replay_plan, sweep_plan};

use crate::commands::{Command, PathPlaces};
use crate::given::{
    capacities_given, capacity_given, capacity_or_usual, delay_given, denominator_given,
    flags_given, format_given, long_warmup_given, mode_given, number_given, objective_given,
    objects_given, policies_given, policy_given, requests_given, seed_given, version_given,
    warmup_given, width_given, writes_given,
};
use crate::plans::Plan;
use crate::values::is;
use crate::words::{WordFault, passed, refuse, word_at};
use bound_terms::WordKind;

fn required<T: Drop>(end: u64, given: Option<T>) -> Result<T, WordFault>
    ensures { result ≡ required end given }
{
    match given {
        Some(it) => Ok(it),
        None => refuse(end, WordKind::Missing),
    }
}

// The plan that accepted operands give, if the words end before a place.
fn bounds_plan(end: u64, operands: &[String]) -> Result<Plan<'_>, WordFault>
    ensures plan { result ≡ bounds_plan end (map string_bytes operands.now) }
    ensures range { IfOk result IsPlanInRange }
{
    let format = required(end, format_given(operands))?;
    let capacity = required(end, capacity_given(operands))?;
    let mode = mode_given(operands);
    Ok(Plan::Bounds {
        format,
        capacity,
        objective: objective_given(operands),
        mode,
        denominator: denominator_given(mode, operands),
        warmup: warmup_given(operands),
        version: version_given(operands),
        writes: writes_given(operands),
    })
}

fn is_dash(word: Option<&str>) -> bool
    ensures { result ≡ is_dash (option_copied word.entry) }
{
    match word {
        Some(word) => is(word, "-"),
        None => false,
    }
}

// Standard input holds the trace, or the other file that is read, and not both.
fn inputs_fault(places: PathPlaces, words: &[String]) -> Option<WordFault>
    requires { ForSome places.beside (λ at. at ≤ 9) }
    ensures { result ≡ inputs_fault places.trace places.beside (map string_bytes words.now) }
{
    match (places.trace, places.beside) {
        (Some(trace), Some(beside))
            if is_dash(word_at(words, trace)) && is_dash(word_at(words, beside)) => {
            Some(WordFault {
                place: beside as u64 + 1,
                kind: WordKind::BadValue,
            })
        }
        _ => None,
    }
}

// The plan that these words give, of which the operands are accepted.
fn check_plan<'a>(
    places: PathPlaces,
    words: &[String],
    operands: &'a [String],
) -> Result<Plan<'a>, WordFault>
    requires { ForSome places.beside (λ at. at ≤ 9) }
    ensures plan { result ≡ check_plan places (map string_bytes words.now) (map string_bytes operands.now) }
    ensures range { IfOk result IsPlanInRange }
{
    let format = required(words.len() as u64 + 1, format_given(operands))?;
    passed(inputs_fault(places, words))?;
    Ok(Plan::Check { format })
}

// The plan of claimed hits that these words give, of which the operands are accepted.
fn judge_plan<'a>(
    places: PathPlaces,
    words: &[String],
    operands: &'a [String],
) -> Result<Plan<'a>, WordFault>
    requires { ForSome places.beside (λ at. at ≤ 9) }
    ensures plan { result ≡ judge_plan places (map string_bytes words.now) (map string_bytes operands.now) }
    ensures range { IfOk result IsPlanInRange }
{
    let format = required(words.len() as u64 + 1, format_given(operands))?;
    let capacity = required(words.len() as u64 + 1, capacity_given(operands))?;
    passed(inputs_fault(places, words))?;
    Ok(Plan::Judge {
        format,
        capacity,
        warmup: warmup_given(operands),
        writes: writes_given(operands),
    })
}

// The plan of a refinement that these words give, of which the operands are accepted.
fn refine_plan<'a>(
    places: PathPlaces,
    words: &[String],
    operands: &'a [String],
) -> Result<Plan<'a>, WordFault>
    requires { ForSome places.beside (λ at. at ≤ 9) }
    ensures plan { result ≡ refine_plan places (map string_bytes words.now) (map string_bytes operands.now) }
    ensures range { IfOk result IsPlanInRange }
{
    let format = required(words.len() as u64 + 1, format_given(operands))?;
    let width = required(words.len() as u64 + 1, width_given(operands))?;
    passed(inputs_fault(places, words))?;
    Ok(Plan::Refine { format, width })
}

// The plan of a replay that accepted operands give, if the words end before a place.
fn replay_plan(end: u64, operands: &[String]) -> Result<Plan<'_>, WordFault>
    ensures plan { result ≡ replay_plan end (map string_bytes operands.now) }
    ensures range { IfOk result IsPlanInRange }
{
    let format = required(end, format_given(operands))?;
    let capacity = required(end, capacity_given(operands))?;
    let policy = required(end, policy_given(operands))?;
    Ok(Plan::Replay {
        format,
        capacity,
        policy,
        warmup: warmup_given(operands),
        writes: writes_given(operands),
        flags: flags_given(operands),
    })
}

// The plan of a curve that accepted operands give, if the words end before a place.
fn curve_plan(end: u64, operands: &[String]) -> Result<Plan<'_>, WordFault>
    ensures plan { result ≡ curve_plan end (map string_bytes operands.now) }
    ensures range { IfOk result IsPlanInRange }
{
    let format = required(end, format_given(operands))?;
    Ok(Plan::Curve { format })
}

// The plan of a curve over capacities that accepted operands give, if the words end before a place.
fn capacity_curve_plan(end: u64, operands: &[String]) -> Result<Plan<'_>, WordFault>
    ensures plan { result ≡ capacity_curve_plan end (map string_bytes operands.now) }
    ensures range { IfOk result IsPlanInRange }
{
    let format = required(end, format_given(operands))?;
    let capacities = required(end, capacities_given(operands))?;
    Ok(Plan::CapacityCurve {
        format,
        capacities,
        objective: objective_given(operands),
        denominator: number_given(operands),
        warmup: warmup_given(operands),
    })
}

// The plan of a sweep that accepted operands give, if the words end before a place.
fn sweep_plan(end: u64, operands: &[String]) -> Result<Plan<'_>, WordFault>
    ensures plan { result ≡ sweep_plan end (map string_bytes operands.now) }
    ensures range { IfOk result IsPlanInRange }
{
    let format = required(end, format_given(operands))?;
    let capacities = required(end, capacities_given(operands))?;
    Ok(Plan::Sweep {
        format,
        capacities,
        policies: policies_given(operands),
        warmup: long_warmup_given(operands),
        delay: delay_given(operands),
    })
}

// The plan of a demo that accepted operands give. Each has a usual value.
fn demo_plan(operands: &[String]) -> Plan<'_>
    ensures plan { result ≡ demo_plan (map string_bytes operands.now) }
    ensures range { IsPlanInRange result }
{
    let mode = mode_given(operands);
    Plan::Demo {
        seed: seed_given(operands),
        requests: requests_given(operands),
        objects: objects_given(operands),
        capacity: capacity_or_usual(operands),
        objective: objective_given(operands),
        mode,
        denominator: denominator_given(mode, operands),
    }
}

/// The plan of a command, whose operands are accepted.
pub(crate) fn plan_of_command<'a>(
    command: Command,
    words: &[String],
    operands: &'a [String],
) -> Result<Plan<'a>, WordFault>
    ensures plan { result ≡ plan_of_command command (map string_bytes words.now) (map string_bytes operands.now) }
    ensures range { IfOk result IsPlanInRange }
{
    match command {
        Command::Bounds => bounds_plan(words.len() as u64 + 1, operands),
        Command::Check => check_plan(command.places(), words, operands),
        Command::Replay => replay_plan(words.len() as u64 + 1, operands),
        Command::Curve => curve_plan(words.len() as u64 + 1, operands),
        Command::CapacityCurve => capacity_curve_plan(words.len() as u64 + 1, operands),
        Command::Sweep => sweep_plan(words.len() as u64 + 1, operands),
        Command::Judge => judge_plan(command.places(), words, operands),
        Command::Demo => Ok(demo_plan(operands)),
        Command::Upgrade => Ok(Plan::Upgrade),
        Command::Refine => refine_plan(command.places(), words, operands),
    }
}
