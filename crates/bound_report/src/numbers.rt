//! The numbers of a report, read from its text, for those that look at a run from outside.
ghost use Rattle.std.specs.Prelude.{◌≡◌, ◌≤◌, nat_eq, find};
ghost use Rattle.std.specs.List.{slice_split, starts_with};
ghost use Rattle.std.specs.Option.{option_copied};
ghost use Rattle.bound_report.specs.Numbers.{line_with, number_at, number_named, numbers_of};

use bound_base::read_u64;
use trace_lines::word;

/// The numbers that a report states, of those that it has a line for. Sizes are in bytes.
#[derive(Clone, Copy, Debug, PartialEq, Eq)]
pub struct Numbers {
    pub requests: Option<u64>,
    pub objects: Option<u64>,
    pub dropped: Option<u64>,
    pub capacity: Option<u64>,
    /// How long objects stay fresh after they were asked for, if that has an end.
    pub idle: Option<u64>,
    /// How long they stay fresh after they were written, if that has an end.
    pub ttl: Option<u64>,
    pub stale: Option<u64>,
    /// The steps of a window, if the steps are cut into windows.
    pub window: Option<u64>,
    pub denominator: Option<u64>,
    pub intervals: Option<u64>,
    pub warmup: Option<u64>,
}

// The first line of a text that begins so.
fn line_with<'a>(text: &'a [u8], start: &[u8]) -> Option<&'a [u8]>
    ensures { option_copied result ≡ line_with text.now start.now }
{
    let mut lines = text.split(|byte| *byte == b'\n');
    lines.find(|line| line.starts_with(start))
}

// The number that a word names.
fn number_named(word: &[u8]) -> Option<u64>
    ensures { result ≡ number_named word.now }
{
    match read_u64(word) {
        Ok(number) => Some(number),
        Err(_) => None,
    }
}

// The number at a word, counted from 1, of the first line that begins so.
fn number_at(text: &[u8], start: &[u8], place: usize) -> Option<u64>
    requires { 1 ≤ place }
    ensures { result ≡ number_at text.now start.now place }
{
    let line = line_with(text, start)?;
    number_named(word(line, place)?)
}

/// The numbers of a report, as far as its text goes.
pub fn numbers_in(text: &[u8]) -> Numbers
    ensures { result ≡ numbers_of text.now }
{
    Numbers {
        requests: number_at(text, b"trace requests ", 3),
        objects: number_at(text, b"trace requests ", 5),
        dropped: number_at(text, b"trace requests ", 7),
        capacity: number_at(text, b"capacity ", 2),
        idle: number_at(text, b"idle ", 2),
        ttl: number_at(text, b"ttl ", 2),
        stale: number_at(text, b"stale ", 2),
        window: number_at(text, b"mode flow window ", 4),
        denominator: number_at(text, b"unit ", 6),
        intervals: number_at(text, b"intervals ", 2),
        warmup: number_at(text, b"warmup ", 2),
    }
}
