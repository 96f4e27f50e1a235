//! The pages that the program prints in place of a run: how it is called, and its version.
ghost use Rattle.std.specs.Prelude.{◌≡◌, map, length, IfSome, IsSome, IsTrue};
ghost use Rattle.std.specs.Str.{bytes_eq};
ghost use Rattle.bound_words.specs.Commands.{command_named, is_usage_of};
ghost use Rattle.bound_advice.specs.Pages.{page_named};

use bound_words::Command;

/// The program and its version.
pub const VERSION: &str = "bound_cli 1.0.0";

/// What the program is for.
pub const PURPOSE: &str =
    "bound_cli computes how well any cache could do on a trace of requests: an upper bound that no
replacement policy can exceed, a schedule that reaches the lower bound, and a certificate of both.
";

/// What else is to know, and eight examples.
pub const EXAMPLES: &str =
    "A path - is the standard input or output. The report goes to the standard output.
HITS has a line for each request: 1 if a simulator of your own counted a hit, and 0 if not.
A curve takes an objective, a denominator and a warm-up with capacities alone.
A sweep has bounds at many capacities, in one pass over a trace of up to 4294967295 requests, and what the policies count
there that are named. With a delay the bounds are of caches, too, that let an object in up to that many requests later.

A demo draws a trace of its own and shows its bounds, that they are checked, and the hits of five policies.

examples:
  bound_cli demo
  bound_cli bounds examples/build-files.webcache build.cert format=webcache capacity=8388608
  bound_cli check examples/build-files.webcache build.cert format=webcache
  bound_cli replay examples/build-files.webcache format=webcache capacity=8388608 policy=lru
  bound_cli curve examples/database-blocks.msr format=msr block=8192
  bound_cli curve examples/build-files.webcache format=webcache capacities=4194304,8388608,16777216
  bound_cli sweep examples/build-files.webcache format=webcache capacities=4194304,8388608,16777216
  bound_cli judge examples/build-files.webcache hits format=webcache capacity=8388608

docs/GUIDE.md goes from a trace to a decision, docs/REFERENCE.md and man -l docs/bound_cli.1 have every operand.";

/// How a command is called, a line each; of no command one line on where to look.
pub fn usage_of(command: Option<Command>) -> &'static [&'static str]
    ensures command { IfSome command (λ named. IsTrue (is_usage_of named (map (λ line. line.now) result.now))) }
    ensures no_command { command ≡ None → length result.now ≡ 1 }
{
    match command {
        Some(command) => command.usage(),
        None => &["bound_cli COMMAND ..; bound_cli help has the commands and their words"],
    }
}

/// What is asked for in place of a run.
#[derive(Clone, Copy, Debug, PartialEq, Eq)]
pub enum Page {
    Help,
    Version,
}

// Whether a word is this one.
fn is(word: &str, other: &str) -> bool
    ensures { result ≡ bytes_eq word.now other.now }
{
    word == other
}

/// The page that a first word asks for: none if it names a command.
pub fn page_of(word: &str) -> Option<Page>
    ensures page { result ≡ page_named word.now }
    ensures command { IsSome (command_named word.now) → result ≡ None }
{
    if is(word, "help") || is(word, "--help") || is(word, "-h") {
        Some(Page::Help)
    } else if is(word, "--version") {
        Some(Page::Version)
    } else {
        None
    }
}
