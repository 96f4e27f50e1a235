//! What is wrong with a word of the command line, and what may stand there.
ghost use Rattle.std.specs.Prelude.{◌≡◌, map, string_bytes};
ghost use Rattle.bound_words.specs.Words.{command_asked};
ghost use Rattle.bound_advice.specs.GivenWords.{form_given, operands_behind};

use crate::sizes::size_of;
use bound_report::PolicyName;
use bound_terms::WordKind;
use bound_words::{
    Command, Kind, MOST_CAPACITIES, MOST_CAPACITY, Values, command_asked, format_given, has_equals,
    is_operand, kind_of, name_of, operands_of, value_given, value_of,
};
use std::alloc::{AllocError, Global};
use trace_any::{Format, Layout};

// Names with commas between, and a word before the last.
fn listed(alloc: Global, names: &[&str], before_last: &str) -> Result<String, AllocError> {
    let mut list = String::new(alloc);
    for (at, name) in names.iter().enumerate() {
        let gap = if at == 0 {
            ""
        } else if at + 1 == names.len() {
            before_last
        } else {
            ", "
        };
        list.push_str(gap)?;
        list.push_str(name)?;
    }
    Ok(list)
}

// The commands, with a word before the last.
fn commands_listed(alloc: Global, before_last: &str) -> Result<String, AllocError> {
    let mut names = Vec::new(alloc);
    for command in Command::ALL {
        names.push(command.word())?;
    }
    listed(alloc, &names, before_last)
}

// The words of the policies.
fn policies_listed(alloc: Global) -> Result<String, AllocError> {
    let mut names = Vec::new(alloc);
    for policy in PolicyName::ALL {
        names.push(policy.word())?;
    }
    listed(alloc, &names, " or ")
}

// Those that don't look ahead.
fn pass_policies_listed(alloc: Global) -> Result<String, AllocError> {
    let mut names = Vec::new(alloc);
    for policy in PolicyName::ALL {
        if policy != PolicyName::Belady {
            names.push(policy.word())?;
        }
    }
    listed(alloc, &names, ", ")
}

/// The words of a command line, and the command that they ask for, if they begin with one.
#[derive(Clone, Copy)]
pub struct Words<'a> {
    words: &'a [String],
    command: Option<Command>,
}

impl<'a> Words<'a> {
    /// Those of a command line, without the program's name. The command is sought here, once.
    pub fn new(words: &'a [String]) -> Self
        ensures words { result.words.now ≡ words.now }
        ensures command { result.command ≡ command_asked (map string_bytes words.now) }
    {
        Words {
            words,
            command: command_asked(words),
        }
    }

    /// The command that they ask for.
    pub fn command(&self) -> Option<Command>
        ensures { result ≡ self.now.command }
    {
        self.command
    }

    // The word at a place, counted from 1.
    fn at(&self, place: u64) -> &'a str {
        match self.words.get(place.saturating_sub(1) as usize) {
            Some(word) => word.as_str(),
            None => "",
        }
    }

    /// The word of the command.
    pub(crate) fn command_word(&self) -> &'static str {
        self.command.map_or("", |command| command.word())
    }

    // What the paths of the command are called, in their order.
    fn paths(&self) -> &'static [&'static str] {
        match self.command {
            Some(command) => command.paths(),
            None => &[],
        }
    }

    // The names of the operands that the command may have, those that it needs first.
    fn operand_names(&self) -> &'static [&'static str] {
        match self.command {
            Some(Command::Curve) => Command::CapacityCurve.operands(),
            Some(command) => command.operands(),
            None => &[],
        }
    }

    // The words behind the command and its paths.
    fn operands(&self) -> &'a [String]
        ensures { map string_bytes result.now ≡ operands_behind self.now.command (map string_bytes self.now.words.now) }
    {
        match self.command {
            Some(command) => operands_of(command, self.words),
            None => &[],
        }
    }

    /// The form of the trace, if one is given.
    pub(crate) fn form(&self) -> Option<Format>
        ensures { result ≡ form_given self.now }
    {
        format_given(self.operands())
    }

    // Whether they say that the trace is of the form arc.
    fn are_of_arc(&self) -> bool {
        matches!(
            self.form(),
            Some(Format {
                layout: Layout::Arc,
                ..
            })
        )
    }

    // The first operand that the command needs and that isn't given.
    fn first_missing(&self) -> Option<&'static str> {
        let command = self.command?;
        let needed = command.operands().iter().take(command.needed());
        needed
            .copied()
            .find(|name| value_given(name, self.operands()).is_none())
    }

    // What an operand of the command has for its value.
    fn kind_of(&self, name: &str) -> Option<Kind> {
        kind_of(self.command?, name)
    }

    // What the path at a place is called.
    fn path_at(&self, place: u64) -> Option<&'static str> {
        let at = place.checked_sub(2)?;
        self.paths().get(at as usize).copied()
    }

    // The first place of a path where an operand stands.
    fn operand_as_path(&self) -> Option<u64> {
        let paths = self.words.iter().skip(1).take(self.paths().len());
        let at = paths.map(|word| word.as_str()).position(may_be_operand)?;
        Some(at as u64 + 2)
    }
}

// Whether a word may be an operand of some command.
fn may_be_operand(word: &str) -> bool {
    has_equals(word) && is_operand(name_of(word))
}

// Which values are of a kind, as it is said.
fn values_said(alloc: Global, kind: Kind) -> Result<String, AllocError> {
    match kind.values() {
        Values::Words(words) => listed(alloc, words, " or "),
        Values::Number { least, most } if most.saturating_sub(least) == 1 => {
            format!(in alloc; "{least} or {most}")
        }
        Values::Number { least, most } => {
            format!(in alloc; "digits alone, from {least} to {most}")
        }
        Values::WordOrNumber { words, most } => {
            let words = listed(alloc, words, ", ")?;
            let words = words.as_str();
            format!(in alloc; "{words}, or digits alone, from 1 to {most}")
        }
        Values::Policy => policies_listed(alloc),
        Values::Policies => {
            let words = pass_policies_listed(alloc)?;
            let words = words.as_str();
            format!(in alloc; "words with commas between, each once, of {words}")
        }
        Values::Capacities => format!(in alloc;
            "1 to {MOST_CAPACITIES} numbers from 1 to {MOST_CAPACITY} with commas between, each more than the one before"
        ),
    }
}

// What the value of an operand of the command may be, as it is said.
fn values_named(alloc: Global, words: Words<'_>, name: &str) -> Result<String, AllocError> {
    match words.kind_of(name) {
        Some(kind) => values_said(alloc, kind),
        None => Ok(String::new(alloc)),
    }
}

// What is missing at a place: the command, a path, or an operand after the last word.
fn missing(alloc: Global, words: Words<'_>, place: u64) -> Result<String, AllocError> {
    if place == 1 {
        let commands = commands_listed(alloc, " or ")?;
        let commands = commands.as_str();
        return format!(in alloc; "a command is missing: {commands}");
    }
    if let Some(path) = words.path_at(place) {
        return format!(in alloc; "the path of the {path} is missing");
    }
    let name = words.first_missing().unwrap_or("format");
    let values = values_named(alloc, words, name)?;
    let values = values.as_str();
    format!(in alloc; "{name} is missing: {values}")
}

// Why a ttl may not stand beside the others.
fn unsuited_ttl(alloc: Global, words: Words<'_>, word: &str) -> Result<String, AllocError> {
    if words.are_of_arc() {
        return format!(in alloc; "{word}: a trace of format=arc has no times");
    }
    format!(in alloc; "{word}: it goes with mode=constant or mode=infinite alone")
}

// Why an operand may not stand beside the others.
fn unsuited(alloc: Global, words: Words<'_>, word: &str) -> Result<String, AllocError> {
    let command = words.command_word();
    let names = words.operand_names();
    match name_of(word) {
        "block" if names.contains(&"block") => {
            format!(in alloc; "{word}: a block goes with format=msr alone")
        }
        "count" if names.contains(&"count") => {
            format!(in alloc;
                "{word}: reads are told apart with format=webcache or format=msr alone"
            )
        }
        "idle" if names.contains(&"idle") => {
            format!(in alloc; "{word}: a trace of format=arc has no times")
        }
        "ttl" if names.contains(&"ttl") => unsuited_ttl(alloc, words, word),
        "replace" if names.contains(&"replace") => format!(in alloc;
            "{word}: objects are replaced with format=webcache or format=oracle alone"
        ),
        "writes" if names.contains(&"print") => {
            format!(in alloc; "{word}: print=flags prints flags in place of the report")
        }
        "objective" | "denominator" | "warmup" if words.command == Some(Command::Curve) => {
            format!(in alloc; "{word}: it goes with capacities=LIST alone")
        }
        "window" if matches!(words.command, Some(Command::Bounds | Command::Demo)) => {
            format!(in alloc; "{word}: a window goes with mode=flow alone")
        }
        _ if words.command == Some(Command::Upgrade) => format!(in alloc;
            "{word}: an upgrade has no operands"
        ),
        _ => {
            let operands = listed(alloc, names, " and ")?;
            let operands = operands.as_str();
            format!(in alloc; "{word}: no operand of {command}, which are {operands}")
        }
    }
}

// Why a word stands for nothing.
fn unknown(alloc: Global, words: Words<'_>, place: u64) -> Result<String, AllocError> {
    let word = words.at(place);
    if place == 1 {
        let commands = commands_listed(alloc, " and ")?;
        let commands = commands.as_str();
        return format!(in alloc; "{word}: no command; the commands are {commands}");
    }
    if word.starts_with('-') && word != "-" {
        return format!(in alloc; "{word}: operands have no dashes, as format=webcache");
    }
    if !word.contains('=') && words.operand_names().contains(&word) {
        return format!(in alloc; "{word}: its value follows after = without a space, as {word}=..");
    }
    unsuited(alloc, words, word)
}

// The most bytes that a value of a kind may be, if it is a number of bytes.
fn most_bytes(kind: Kind) -> Option<u64> {
    match (kind, kind.values()) {
        (Kind::Capacity | Kind::Block, Values::Number { most, .. }) => Some(most),
        _ => None,
    }
}

// Why a value may not stand there.
fn bad_value(alloc: Global, words: Words<'_>, place: u64) -> Result<String, AllocError> {
    let word = words.at(place);
    if word.is_empty() {
        return String::from_str(alloc, "a path is empty");
    }
    if let Some(path) = words.path_at(place) {
        return format!(in alloc; "trace and {path} can't both be the standard input");
    }
    let name = name_of(word);
    let values = values_named(alloc, words, name)?;
    let values = values.as_str();
    let most = words.kind_of(name).and_then(most_bytes).unwrap_or(0);
    match size_of(value_of(word)) {
        Some(size) if size >= 1 && size <= most => {
            format!(in alloc; "{word}: {values}, as {name}={size}")
        }
        _ => format!(in alloc; "{word}: {values}"),
    }
}

// That an operand stands at the place of a path.
fn path_forgotten(alloc: Global, words: Words<'_>) -> Result<String, AllocError> {
    let place = words.operand_as_path().unwrap_or(2);
    let path = words.path_at(place).unwrap_or("trace");
    let word = words.at(place);
    let none = if path == "certificate" && words.command == Some(Command::Bounds) {
        "; /dev/null stands for none"
    } else {
        ""
    };
    format!(in alloc; "the path of the {path} is missing before {word}{none}")
}

/// What is wrong with a word of the command line, and what may stand there.
pub(crate) fn word_advice(
    alloc: Global,
    words: Words<'_>,
    place: u64,
    kind: WordKind,
) -> Result<String, AllocError> {
    match kind {
        WordKind::Missing | WordKind::Unknown if words.operand_as_path().is_some() => {
            path_forgotten(alloc, words)
        }
        WordKind::Missing => missing(alloc, words, place),
        WordKind::Unknown => unknown(alloc, words, place),
        WordKind::Twice => {
            let word = words.at(place);
            let name = name_of(word);
            format!(in alloc; "{word}: {name} is given twice")
        }
        WordKind::BadValue => bad_value(alloc, words, place),
    }
}
