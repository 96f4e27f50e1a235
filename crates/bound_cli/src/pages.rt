//! The pages that are printed in place of a run.
ghost use Rattle.std.specs.Prelude.{◌≡◌, ◌⊎◌, is_ok};
ghost use Rattle.bound_cli.specs.Exits.{page_status};

use bound_advice::{EXAMPLES, PURPOSE, Page, VERSION};
use bound_report::PolicyName;
use bound_run::Status;
use bound_words::{Command, Kind, Values};
use std::io;

// What stands for which values, and what is printed behind them.
const CHOICES: [(&str, Kind, &str); 9] = [
    ("FORM", Kind::Form, ", "),
    ("OBJECTIVE", Kind::Objective, ", "),
    ("MODE", Kind::Mode, ",\n"),
    ("VERSION", Kind::Version, ", "),
    ("WRITTEN", Kind::Writes, ",\n"),
    ("PRINTED", Kind::Print, ", "),
    ("COUNTED", Kind::Counted, ",\n"),
    (
        "REPLACED",
        Kind::Replaced,
        ", TIME is a whole number in the unit of the trace,\nLIST is BYTES,BYTES,.. from the smallest to the largest.\n",
    ),
    ("POLICY", Kind::Policy, ".\n"),
];

// How a command is called.
fn print_usage<R: Print>(rt: &R, start: &str, command: Command) -> io::Result<()> {
    let mut start = start;
    for line in command.usage() {
        println!(rt; "{start}{line}")?;
        start = "       ";
    }
    Ok(())
}

// A word of a choice among several, which stands at a place, counted from 0.
fn print_word<R: Print>(rt: &R, at: usize, count: usize, word: &str) -> io::Result<()> {
    let gap = match at {
        0 => "",
        at if at.saturating_add(1) == count => " or ",
        _ => ", ",
    };
    print!(rt; "{gap}{word}")
}

// The words of the policies.
fn print_policies<R: Print>(rt: &R) -> io::Result<()> {
    for (at, policy) in PolicyName::ALL.iter().enumerate() {
        print_word(rt, at, PolicyName::ALL.len(), policy.word())?;
    }
    Ok(())
}

// Words between which one chooses.
fn print_words<R: Print>(rt: &R, words: &[&str]) -> io::Result<()> {
    for (at, word) in words.iter().enumerate() {
        print_word(rt, at, words.len(), word)?;
    }
    Ok(())
}

// The values of a kind that has few, or between which numbers they are.
fn print_values<R: Print>(rt: &R, kind: Kind) -> io::Result<()> {
    match kind.values() {
        Values::Words(words) => print_words(rt, words),
        Values::Policy => print_policies(rt),
        Values::Number { least, most } if most.saturating_sub(least) == 1 => {
            print!(rt; "{least} or {most}")
        }
        Values::Number { least, most } => print!(rt; "{least} to {most}"),
        _ => Ok(()),
    }
}

// What stands for what.
fn print_choices<R: Print>(rt: &R) -> io::Result<()> {
    for (name, kind, end) in &CHOICES {
        print!(rt; "{name} is ")?;
        print_values(rt, *kind)?;
        print!(rt; "{end}")?;
    }
    Ok(())
}

// How the program is called.
fn print_help<R: Print>(rt: &R) -> io::Result<()> {
    println!(rt; "{PURPOSE}")?;
    for (at, command) in Command::ALL.iter().enumerate() {
        let start = if at == 0 { "usage: " } else { "       " };
        print_usage(rt, start, *command)?;
    }
    println!(rt; "       bound_cli help\n")?;
    print_choices(rt)?;
    println!(rt; "{EXAMPLES}")
}

// The status of printing a page. That it can't be printed is a fault of the report.
fn status_of_page(printed: &io::Result<()>) -> Status
    ensures { result ≡ page_status (is_ok printed.now) }
{
    match printed {
        Ok(()) => Status::Done,
        Err(_) => Status::ReportFault,
    }
}

/// Prints a page.
pub fn print_page<R: Print>(rt: &R, page: Page) -> Status
    ensures { (result ≡ Status.Done) ⊎ (result ≡ Status.ReportFault) }
{
    let printed = match page {
        Page::Help => print_help(rt),
        Page::Version => println!(rt; "{VERSION}"),
    };
    status_of_page(&printed)
}
