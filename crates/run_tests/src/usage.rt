//! How a command is called, beside the names of its operands.
use bound_words::Command;
use compared::same;
use std::process::Abort;
use std::slice;

// The name of the operand that a word states, and whether the command needs it.
fn operand_in(word: &str) -> Option<(&str, bool)> {
    let (name, _) = word.split_once('=')?;
    match name.strip_prefix('[') {
        Some(name) => Some((name, false)),
        None => Some((name, true)),
    }
}

// Whether an operand is one of those that a command needs.
fn is_needed(command: Command, name: &str) -> bool {
    let mut needed = command.operands().iter().take(command.needed());
    needed.any(|operand| *operand == name)
}

// Takes the operands that a line states from those that are still to come.
fn take_stated(
    rt: &impl Abort,
    command: Command,
    line: &str,
    to_come: &mut slice::Iter<'_, &'static str>,
) {
    for word in line.split(' ') {
        if let Some((name, stands_bare)) = operand_in(word) {
            let next = to_come.next().copied();
            same(word, next, Some(name)).expect(rt, "the next operand");
            same(word, stands_bare, is_needed(command, name)).expect(rt, "brackets");
        }
    }
}

// The command that has every operand which a command's word may have.
fn fullest(command: Command) -> Command {
    match command {
        Command::Curve => Command::CapacityCurve,
        _ => command,
    }
}

#[test]
fn the_usage_of_a_command_states_its_operands_in_their_order(rt: HostRuntime) {
    for command in Command::ALL {
        let mut to_come = fullest(command).operands().iter();
        for line in command.usage() {
            take_stated(&rt, command, line, &mut to_come);
        }
        same(command.word(), to_come.next(), None).expect(&rt, "an operand more");
    }
}
