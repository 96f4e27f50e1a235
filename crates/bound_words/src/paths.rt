//! The paths that the words name.
ghost use Rattle.std.specs.Prelude.{◌≡◌, map, slice_get, string_bytes};
ghost use Rattle.bound_words.specs.Words.{cert_path, made_path, path_at, places_in, trace_path, word_or_dash};

use crate::commands::{Command, PathPlaces, command_named};
use crate::words::word_at;

/// The paths of a command. A dash stands for the standard input or output and for a path that it lacks.
#[derive(Clone, Copy, Debug, PartialEq, Eq)]
pub struct Paths<'a> {
    pub trace: &'a str,
    pub cert: &'a str,
    pub made: &'a str,
}

// The word at a place, counted from 0, or a dash if there is none.
fn word_or_dash(words: &[String], at: usize) -> &str
    ensures { result.now ≡ word_or_dash (slice_get (map string_bytes words.now) at) }
{
    word_at(words, at).unwrap_or("-")
}

// Where the paths stand, if the words begin with a command.
fn places_in(command: Option<Command>) -> PathPlaces
    ensures { result ≡ places_in command }
{
    match command {
        Some(command) => command.places(),
        None => PathPlaces {
            count: 0,
            trace: None,
            beside: None,
            made: None,
        },
    }
}

// The path at a word, or a dash if the command has no such path.
fn path_at(at: Option<usize>, words: &[String]) -> &str
    ensures { result.now ≡ path_at at (map string_bytes words.now) }
{
    match at {
        Some(at) => word_or_dash(words, at),
        None => "-",
    }
}

/// The paths that the words name.
pub fn paths_of(words: &[String]) -> Paths<'_>
    ensures trace { result.trace.now ≡ trace_path (map string_bytes words.now) }
    ensures cert { result.cert.now ≡ cert_path (map string_bytes words.now) }
    ensures made { result.made.now ≡ made_path (map string_bytes words.now) }
{
    let places = places_in(command_named(word_or_dash(words, 0)));
    Paths {
        trace: path_at(places.trace, words),
        cert: path_at(places.beside, words),
        made: path_at(places.made, words),
    }
}
