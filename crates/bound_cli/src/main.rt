//! Bounds on the score of offline caching, in hits or in bytes, with certificates.
//!
//! The words, the files and the texts are described in docs/REFERENCE.md, and what a run does stands in bound_run.
#![tactic(auto)]

ghost use Rattle.std.specs.Prelude.{◌≡◌, ◌⊎◌, is_ok, map, string_bytes, IfErr};
ghost use Rattle.std.specs.Option.{option_map_or};
ghost use Rattle.bound_cli.specs.Exits.{is_whole, settled};
ghost use Rattle.bound_run.specs.Statuses.{code_of};
ghost use Rattle.bound_words.specs.Words.{plan};

use crate::pages::print_page;
use crate::saying::{say, say_oddities, say_refusal, say_report_fault, say_unplaced};
use crate::streams::{fill_closed, spared_files};
use bound_advice::{Devices, Seen, Told, Watched, Words, page_of};
use bound_io::{FileSink, FileSource, Unplaced};
use bound_report::numbers_in;
use bound_run::{Status, paths_of, run};
use std::alloc::Global;
use std::io::ErrorKind;
use std::process::ExitCode;
use std::rt::{Env, Files};
use std::{env, io};

mod pages;
mod saying;
mod streams;

// The exit status where the system doesn't give what a run begins with: the words of the command line, or the standard
// streams.
const NO_START: u8 = 11;

/// What the standard input is called.
const STANDARD_INPUT: &str = "standard input";

/// What the standard output is called.
const STANDARD_OUTPUT: &str = "standard output";

// What is known of a source for a message.
fn seen_source<'a, R: Files + Input>(path: &'a str, source: &FileSource<'_, R>) -> Seen<'a> {
    Seen {
        path,
        standard: STANDARD_INPUT,
        reason: source.reason(),
    }
}

// What is known of a sink for a message.
fn seen_sink<'a, R: Files + Print>(sink: &'a FileSink<'_, R>) -> Seen<'a> {
    Seen {
        path: sink.blamed(),
        standard: STANDARD_OUTPUT,
        reason: sink.reason(),
    }
}

// The line of the trace that is refused, if one is.
fn refused_line<'a, R: Files + Input>(
    trace: &'a Watched<FileSource<'_, R>>,
    words: Words<'_>,
    status: Status,
) -> Option<&'a [u8]> {
    match status {
        Status::BadLine { .. } => trace.refused_line(words),
        _ => None,
    }
}

// Whether a run came to its end, so that the certificate it made is whole.
fn is_whole(status: Status) -> bool
    ensures { result ≡ is_whole status }
{
    matches!(status, Status::Done | Status::ReportFault)
}

// The status once the certificate was placed, or not. That a whole one has no place is a fault of its sink.
fn settled(placed: bool, status: Status) -> Status
    ensures { result ≡ settled placed status }
{
    if !placed && is_whole(status) {
        Status::MadeFault
    } else {
        status
    }
}

// Says that the certificate has no place, if it has none, and gives the status then.
fn settle<R: Eprint>(
    rt: &R,
    alloc: Global,
    path: &str,
    placed: Result<(), Unplaced>,
    status: Status,
) -> Status
    ensures { result ≡ settled (is_ok placed) status }
{
    if let Err(unplaced) = &placed {
        say_unplaced(rt, alloc, path, unplaced, is_whole(status));
    }
    settled(placed.is_ok(), status)
}

// Makes the real sources and sinks, and runs.
fn run_files<R: Files + Input + Print + Eprint>(rt: &R, alloc: Global, words: &[String]) -> Status
    ensures { IfErr (plan (map string_bytes words.now)) (λ fault. (result ≡ Status.Words fault) ⊎ (result ≡ Status.NoMemory)) }
{
    let paths = paths_of(words);
    let asked = Words::new(words);
    let Ok(trace) = FileSource::new(rt, alloc, paths.trace) else {
        return Status::NoMemory;
    };
    let Ok(mut trace) = Watched::new(alloc, trace) else {
        return Status::NoMemory;
    };
    let Ok(mut cert) = FileSource::new(rt, alloc, paths.cert) else {
        return Status::NoMemory;
    };
    let Ok(report) = FileSink::new(rt, alloc, "-") else {
        return Status::NoMemory;
    };
    let Ok(mut made) = FileSink::new(rt, alloc, paths.made) else {
        return Status::NoMemory;
    };
    let mut report = Told::new(report);
    made.spare(spared_files(rt, asked.command(), paths));
    let status = run(alloc, words, &mut trace, &mut cert, &mut report, &mut made);
    let devices = Devices {
        trace: seen_source(paths.trace, trace.source()),
        cert: seen_source(paths.cert, &cert),
        made: seen_sink(&made),
        start: trace.source().start(),
        cert_start: cert.start(),
        line: refused_line(&trace, asked, status),
    };
    match status {
        Status::Done => say_oddities(rt, alloc, asked, devices, numbers_in(report.start_lines())),
        Status::ReportFault => say_report_fault(rt, alloc, seen_sink(report.sink())),
        _ => say_refusal(rt, alloc, asked, devices, status),
    }
    let placed = made.finish(is_whole(status));
    settle(rt, alloc, paths.made, placed, status)
}

// Runs with the words after the program's name, if the system gives them.
fn run_words<R: Files + Input + Print + Eprint + Env + AllocGlobal>(rt: &R) -> Option<Status> {
    let alloc = rt.alloc();
    let words = match env::args(rt) {
        Ok(words) => words.skip(1).collect(alloc),
        Err(error) if error.kind() == ErrorKind::OutOfMemory => return Some(Status::NoMemory),
        Err(_) => return None,
    };
    let words: Result<Vec<String>, _> = words;
    let Ok(words) = words else {
        return Some(Status::NoMemory);
    };
    let page = words.first().and_then(|word| page_of(word.as_str()));
    Some(match page {
        Some(page) => print_page(rt, page),
        None => run_files(rt, alloc, &words),
    })
}

// The exit status of a run, or that of none.
fn exit_status(ended: Option<Status>) -> u8
    ensures { result ≡ option_map_or code_of ended NO_START }
{
    match ended {
        Some(status) => status.code(),
        None => NO_START,
    }
}

// Says why a closed standard stream can't be opened.
fn say_closed(rt: &HostRuntime, error: io::Error) {
    let alloc = rt.alloc();
    if let Ok(text) = format!(in alloc; "a closed standard stream: {error}") {
        say(rt, alloc, text.as_str());
    }
}

fn main(rt: HostRuntime) -> ExitCode {
    if let Err(error) = fill_closed(&rt) {
        say_closed(&rt, error);
        return ExitCode::from(exit_status(None));
    }
    ExitCode::from(exit_status(run_words(&rt)))
}
