//! What reports say: their numbers and words, and the names that their lines have.
use crate::fault::RowFault;
use bound_base::NoMemory;
use std::alloc::Global;
use std::str;

/// What a report says. The numbers and words of its lines stand between commas.
#[derive(Clone, Copy)]
pub enum Said<'a> {
    /// Its text.
    Text(&'a [u8]),
    /// A report of bounds.
    Bounds(&'a str),
    /// A yes.
    Yes(&'a str),
    /// A refinement.
    Refined(&'a str),
}

const BOUND_LINES: [&[&str]; 8] = [
    &["trace requests", "objects", "dropped"],
    &["capacity", "objective"],
    &["mode"],
    &["unit", "units", "denominator"],
    &["intervals"],
    &["upper", "floor"],
    &["flow"],
    &["lower"],
];

// Behind the first one stand those of a yes.
const REFINED_LINES: [&[&str]; 8] = [
    &["refined from", "to"],
    &["trace requests", "objects", "dropped"],
    &["capacity", "objective"],
    &["form"],
    &["unit", "units", "denominator"],
    &["upper", "floor"],
    &["flow"],
    &["lower"],
];

// Appends a line: each name with its word, of which the last one may have spaces.
fn push_line(text: &mut String, names: &[&str], words: &str) -> Result<(), NoMemory> {
    let words = words.splitn(names.len(), ' ');
    for (place, (name, word)) in names.iter().zip(words).enumerate() {
        let space = if place == 0 { "" } else { " " };
        for part in [space, *name, " ", word] {
            text.push_str(part)?;
        }
    }
    text.push('\n')?;
    Ok(())
}

// Whether a line has its name with it: that the certificate is valid, how many requests count, were late or were stale, the
// times for which objects stay fresh, the written bytes, or the warm-up.
fn is_named(words: &str) -> bool {
    words == "valid"
        || words.starts_with("counted ")
        || words.starts_with("idle ")
        || words.starts_with("ttl ")
        || words.starts_with("late ")
        || words.starts_with("stale ")
        || words.starts_with("writes ")
        || words.starts_with("warmup ")
}

// The lines, of which those that aren't named have these names in turn.
fn text_of<'a>(alloc: Global, names: &[&[&str]], lines: &'a str) -> Result<String, RowFault<'a>> {
    let mut text = String::new(alloc);
    let mut names = names.iter();
    for line in lines.split(',') {
        let words = line.trim_start();
        if is_named(words) {
            text.push_str(words)?;
            text.push('\n')?;
        } else if let Some(names) = names.next() {
            push_line(&mut text, names, words)?;
        } else {
            return Err(RowFault::NoReport);
        }
    }
    Ok(text)
}

impl<'a> Said<'a> {
    /// The text.
    pub fn text(&self, alloc: Global) -> Result<String, RowFault<'a>> {
        match self {
            Said::Text(bytes) => match str::from_utf8(bytes) {
                Ok(text) => Ok(String::from_str(alloc, text)?),
                Err(_) => Err(RowFault::NoReport),
            },
            Said::Bounds(lines) => text_of(alloc, &BOUND_LINES, lines),
            Said::Yes(lines) => text_of(alloc, &REFINED_LINES[1..], lines),
            Said::Refined(lines) => text_of(alloc, &REFINED_LINES, lines),
        }
    }
}
