//! What the program says on the standard error. That it can't be written changes nothing.
use bound_advice::{
    Devices, Seen, Words, advice_on, device_advice, escaped, oddities_of, refusal_line, usage_of,
};
use bound_io::Unplaced;
use bound_report::{Numbers, Refusal};
use bound_run::Status;
use std::alloc::Global;

/// Says a text on a line of its own.
pub fn say<R: Eprint>(rt: &R, alloc: Global, text: &str) {
    if let Ok(text) = escaped(alloc, text) {
        let text = text.as_str();
        let _ = eprintln!(rt; "bound_cli: {text}");
    }
}

// Says how the command of the words is called.
fn say_usage<R: Eprint>(rt: &R, words: Words<'_>) {
    let mut start = "usage: ";
    for line in usage_of(words.command()) {
        let _ = eprintln!(rt; "bound_cli: {start}{line}");
        start = "       ";
    }
}

/// Says why a run was refused, and what to do about it. Nothing is said to who has gone.
pub fn say_refusal<R: Eprint>(
    rt: &R,
    alloc: Global,
    words: Words<'_>,
    devices: Devices<'_>,
    status: Status,
) {
    let Some(refusal) = status.refusal() else {
        return;
    };
    if refusal == Refusal::MadeFault && devices.made.is_left() {
        return;
    }
    if let Ok(line) = refusal_line(alloc, &refusal) {
        say(rt, alloc, line.as_str());
    }
    if let Ok(Some(text)) = advice_on(alloc, words, devices, &refusal) {
        say(rt, alloc, text.as_str());
    }
    if let Status::Words(_) = status {
        say_usage(rt, words);
    }
}

/// Says why the report can't be written, unless its reader has gone.
pub fn say_report_fault<R: Eprint>(rt: &R, alloc: Global, report: Seen<'_>) {
    if let Ok(Some(text)) = device_advice(alloc, report) {
        say(rt, alloc, text.as_str());
    }
}

/// Says what looks odd in a run that ended well.
pub fn say_oddities<R: Eprint>(
    rt: &R,
    alloc: Global,
    words: Words<'_>,
    devices: Devices<'_>,
    report: Numbers,
) {
    let Ok(oddities) = oddities_of(alloc, words, devices.trace, devices.start, report) else {
        return;
    };
    for text in oddities.into_iter().flatten() {
        say(rt, alloc, text.as_str());
    }
}

/// Says that a certificate isn't in its place, and where it is, or that a part of one is left.
pub fn say_unplaced<R: Eprint>(
    rt: &R,
    alloc: Global,
    path: &str,
    unplaced: &Unplaced,
    is_whole: bool,
) {
    let reason = unplaced.reason;
    let aside = unplaced.aside.as_str();
    let text = match (is_whole, unplaced.is_left) {
        (true, true) => {
            format!(in alloc;
                "{path}: {reason}; what was written stands in {aside}, and may not be whole"
            )
        }
        (true, false) => format!(in alloc; "{path}: {reason}"),
        (false, _) => {
            format!(in alloc; "{aside}: {reason}; it is part of a certificate, and of no use")
        }
    };
    if let Ok(text) = text {
        say(rt, alloc, text.as_str());
    }
}
