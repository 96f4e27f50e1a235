//! The kinds of values that operands have, and which values are of each.
ghost use Rattle.std.specs.Prelude.{◌≡◌, List, ℕ};
ghost use Rattle.bound_words.specs.declared.commands.Command.{Command};
ghost use Rattle.bound_words.specs.Kinds.{accepts, is_operand, kind_of, takes, takes_value, usual_kind};

use crate::capacities::CapacityList;
use crate::commands::{Command, has_operand};
use crate::policies::PolicyList;
use crate::values::{
    MOST_BLOCK, MOST_CAPACITY, MOST_DENOMINATOR, MOST_DRAWN, MOST_REQUESTS, MOST_WINDOW,
    USUAL_BLOCK, block_of, capacity_of, count_of, denominator_of, drawn_of, flags_of, is,
    layout_of, long_count_of, mode_of, number_of, objective_of, reads_of, replaced_of, version_of,
    whole_of, width_of, window_of, writes_of,
};
use bound_terms::Window;
use cache_model::SHORT_VERSION;
use policy_model::PolicyName;

/// What an operand has for its value.
#[derive(Clone, Copy, Debug, PartialEq, Eq)]
pub enum Kind {
    /// The form of a trace.
    Form,
    /// The bytes of a block.
    Block,
    /// Whether all requests count, or reads alone.
    Counted,
    /// A time, in the unit of the trace.
    Time,
    /// Whether objects are replaced by others of their id.
    Replaced,
    /// A capacity, in bytes.
    Capacity,
    /// A list of capacities.
    Capacities,
    /// What a hit gains.
    Objective,
    /// How the prices of a bound are made.
    Mode,
    /// One window for all steps, or a number of steps.
    Window,
    /// The steps of a window, or of a block of a refinement.
    Width,
    /// What prices are over: a number, or how it is chosen.
    Denominator,
    /// A denominator that is a number.
    Number,
    /// The rule of a replay.
    Policy,
    /// A list of policies, each once, none of which looks ahead.
    Policies,
    /// How many requests, which may be none.
    Warmup,
    /// How many requests of a trace of any length, which may be none.
    Requests,
    /// The version of a certificate's text.
    Version,
    /// Whether written bytes are counted.
    Writes,
    /// What a replay prints.
    Print,
    /// What the random numbers of a demo begin with.
    Seed,
    /// How many requests or objects are drawn.
    Drawn,
}

/// What a value may be, in words. A number is one of digits alone.
#[derive(Clone, Copy)]
pub enum Values {
    /// One of these words.
    Words(&'static [&'static str]),
    /// A number in this range.
    Number {
        least: u64,
        most: u64,
    },
    /// One of these words, or a number from 1 on.
    WordOrNumber {
        words: &'static [&'static str],
        most: u64,
    },
    /// The word of a policy.
    Policy,
    /// Words of policies but `belady`, with commas between, each once.
    Policies,
    /// At most `MOST_CAPACITIES` capacities with commas between, each greater than the one before it.
    Capacities,
}

impl Kind {
    /// Whether a value is of this kind.
    pub(crate) fn takes(self, value: &str) -> bool
        ensures { result ≡ takes self value.now }
    {
        match self {
            Kind::Form => layout_of(value, USUAL_BLOCK, false).is_some(),
            Kind::Block => block_of(value).is_some(),
            Kind::Counted => reads_of(value).is_some(),
            Kind::Time => whole_of(value).is_some(),
            Kind::Replaced => replaced_of(value).is_some(),
            Kind::Capacity => capacity_of(value).is_some(),
            Kind::Capacities => CapacityList::of(value).is_some(),
            Kind::Objective => objective_of(value).is_some(),
            Kind::Mode => mode_of(value, Window::All).is_some(),
            Kind::Window => window_of(value).is_some(),
            Kind::Width => width_of(value).is_some(),
            Kind::Denominator => denominator_of(value).is_some(),
            Kind::Number => number_of(value).is_some(),
            Kind::Policy => PolicyName::named(value).is_some(),
            Kind::Policies => PolicyList::of(value).is_some(),
            Kind::Warmup => count_of(value).is_some(),
            Kind::Requests => long_count_of(value).is_some(),
            Kind::Version => version_of(value).is_some(),
            Kind::Writes => writes_of(value).is_some(),
            Kind::Print => flags_of(value).is_some(),
            Kind::Seed => whole_of(value).is_some(),
            Kind::Drawn => drawn_of(value).is_some(),
        }
    }

    /// Which values are of this kind, for those that say it.
    pub fn values(self) -> Values
        ensures { (value : List ℕ) → accepts result value ≡ takes self value }
    {
        match self {
            Kind::Form => Values::Words(&["webcache", "arc", "msr", "oracle"]),
            Kind::Block => up_to(MOST_BLOCK),
            Kind::Counted => Values::Words(&["all", "reads"]),
            Kind::Time => from_0(u64::MAX),
            Kind::Replaced => Values::Words(&["no", "yes"]),
            Kind::Capacity => up_to(MOST_CAPACITY),
            Kind::Capacities => Values::Capacities,
            Kind::Objective => Values::Words(&["object", "bytes"]),
            Kind::Mode => Values::Words(&["flow", "constant", "infinite"]),
            Kind::Window => Values::WordOrNumber {
                words: &["all"],
                most: MOST_WINDOW,
            },
            Kind::Width => up_to(MOST_WINDOW),
            Kind::Denominator => Values::WordOrNumber {
                words: &["auto", "exact"],
                most: MOST_DENOMINATOR,
            },
            Kind::Number => up_to(MOST_DENOMINATOR),
            Kind::Policy => Values::Policy,
            Kind::Policies => Values::Policies,
            Kind::Warmup => from_0(MOST_REQUESTS),
            Kind::Requests => from_0(u64::from(u32::MAX)),
            Kind::Version => up_to(u64::from(SHORT_VERSION)),
            Kind::Writes => Values::Words(&["none", "count"]),
            Kind::Print => Values::Words(&["report", "flags"]),
            Kind::Seed => from_0(u64::MAX),
            Kind::Drawn => up_to(MOST_DRAWN),
        }
    }
}

// A number from 1 on.
fn up_to(most: u64) -> Values
    ensures { result ≡ Values.Number 1 most }
{
    Values::Number { least: 1, most }
}

// A number that may be 0.
fn from_0(most: u64) -> Values
    ensures { result ≡ Values.Number 0 most }
{
    Values::Number { least: 0, most }
}

// What the operand of a name has for its value in most commands.
fn usual_kind(name: &str) -> Option<Kind>
    ensures { result ≡ usual_kind name.now }
{
    if is(name, "format") {
        Some(Kind::Form)
    } else if is(name, "block") {
        Some(Kind::Block)
    } else if is(name, "count") {
        Some(Kind::Counted)
    } else if is(name, "idle") || is(name, "ttl") {
        Some(Kind::Time)
    } else if is(name, "replace") {
        Some(Kind::Replaced)
    } else if is(name, "capacity") {
        Some(Kind::Capacity)
    } else if is(name, "objective") {
        Some(Kind::Objective)
    } else if is(name, "mode") {
        Some(Kind::Mode)
    } else if is(name, "window") {
        Some(Kind::Window)
    } else if is(name, "denominator") {
        Some(Kind::Denominator)
    } else if is(name, "policy") {
        Some(Kind::Policy)
    } else if is(name, "warmup") {
        Some(Kind::Warmup)
    } else if is(name, "delay") {
        Some(Kind::Requests)
    } else if is(name, "version") {
        Some(Kind::Version)
    } else if is(name, "writes") {
        Some(Kind::Writes)
    } else if is(name, "print") {
        Some(Kind::Print)
    } else if is(name, "seed") {
        Some(Kind::Seed)
    } else if is(name, "requests") || is(name, "objects") {
        Some(Kind::Drawn)
    } else {
        None
    }
}

// What the operand of a name has for its value in a curve over capacities.
fn kind_over_capacities(name: &str) -> Option<Kind>
    ensures { result ≡ kind_of Command.CapacityCurve name.now }
{
    if is(name, "capacities") {
        Some(Kind::Capacities)
    } else if is(name, "denominator") {
        Some(Kind::Number)
    } else {
        usual_kind(name)
    }
}

// What the operand of a name has for its value in a sweep.
fn kind_in_sweep(name: &str) -> Option<Kind>
    ensures { result ≡ kind_of Command.Sweep name.now }
{
    if is(name, "capacities") {
        Some(Kind::Capacities)
    } else if is(name, "policies") {
        Some(Kind::Policies)
    } else if is(name, "warmup") {
        Some(Kind::Requests)
    } else {
        usual_kind(name)
    }
}

/// What the operand of a name has for its value in a command. A refinement has a number of steps for its window, a curve
/// over capacities has a number for its denominator, and a sweep may have a warm-up of any length and a list of policies.
pub fn kind_of(command: Command, name: &str) -> Option<Kind>
    ensures { result ≡ kind_of command name.now }
{
    match command {
        Command::Refine if is(name, "window") => Some(Kind::Width),
        Command::CapacityCurve => kind_over_capacities(name),
        Command::Sweep => kind_in_sweep(name),
        _ => usual_kind(name),
    }
}

/// Whether a name is that of an operand of some command.
pub fn is_operand(name: &str) -> bool
    ensures { result ≡ is_operand name.now }
{
    let mut commands = Command::ALL.iter().copied();
    commands.any(|command| has_operand(command, name))
}

/// Whether an operand of a command may have this value.
pub(crate) fn takes_value(command: Command, name: &str, value: &str) -> bool
    ensures { result ≡ takes_value command name.now value.now }
{
    match kind_of(command, name) {
        Some(kind) => kind.takes(value),
        None => false,
    }
}
