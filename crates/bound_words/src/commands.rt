//! The commands: their words, their paths and the names of their operands.
ghost use Rattle.std.specs.Prelude.{◌≡◌, ◌≤◌, length, map, is_some, IsTrue, Some};
ghost use Rattle.std.specs.List.{list_any};
ghost use Rattle.std.specs.Str.{bytes_eq};
ghost use Rattle.bound_words.specs.Commands.{command_named, command_word, has_operand, needed_names, operand_names, operands_at, path_names, places_of, plain, remakes};
ghost use Rattle.bound_words.specs.Commands.{is_usage_of};

use crate::values::is;

/// What the first word asks for.
#[derive(Clone, Copy, Debug, PartialEq, Eq)]
pub enum Command {
    /// Bounds on the best score on a trace, and their certificate.
    Bounds,
    /// Whether a certificate is valid for a trace.
    Check,
    /// The hits of a policy on a trace.
    Replay,
    /// LRU's hits on a trace at every number of slots.
    Curve,
    /// LRU's hits on a trace, and a bound, at each of some capacities: a curve with the operand `capacities`.
    CapacityCurve,
    /// Bounds on the best scores at each of some capacities, in one pass over a trace of any length.
    Sweep,
    /// Whether the hits that a simulator claims on a trace are possible.
    Judge,
    /// Bounds, their check and replays on a trace that is made.
    Demo,
    /// A certificate in the second version of its text.
    Upgrade,
    /// A certificate with prices that are settled, block by block.
    Refine,
}

/// Where the paths of a command stand among its words, of which the command is word 0, and how many there are: that of
/// the trace, that of a certificate or of flags that are read beside it, and that of a certificate which is made.
#[derive(Clone, Copy)]
pub(crate) struct PathPlaces {
    pub count: usize,
    pub trace: Option<usize>,
    pub beside: Option<usize>,
    pub made: Option<usize>,
}

impl Command {
    /// Each command that a word names, in the order of the help.
    pub const ALL: [Command; 9] = [
        Command::Bounds,
        Command::Check,
        Command::Replay,
        Command::Curve,
        Command::Sweep,
        Command::Judge,
        Command::Demo,
        Command::Upgrade,
        Command::Refine,
    ];

    /// Its word.
    pub fn word(self) -> &'static str
        ensures word { result.now ≡ command_word self }
        ensures names { command_named result.now ≡ Some (plain self) }
    {
        match self {
            Command::Bounds => "bounds",
            Command::Check => "check",
            Command::Replay => "replay",
            Command::Curve | Command::CapacityCurve => "curve",
            Command::Sweep => "sweep",
            Command::Judge => "judge",
            Command::Demo => "demo",
            Command::Upgrade => "upgrade",
            Command::Refine => "refine",
        }
    }

    /// What each of its paths is called, in their order.
    pub fn paths(self) -> &'static [&'static str]
        ensures names { map (λ name. name.now) result.now ≡ path_names self }
        ensures count { length result.now ≡ (places_of self).count }
    {
        match self {
            Command::Bounds | Command::Check => &["trace", "certificate"],
            Command::Replay | Command::Curve | Command::CapacityCurve | Command::Sweep => &[
                "trace",
            ],
            Command::Judge => &["trace", "hits"],
            Command::Demo => &[],
            Command::Upgrade => &["certificate", "new certificate"],
            Command::Refine => &["trace", "certificate", "new certificate"],
        }
    }

    /// The names of its operands, those that it needs first.
    pub fn operands(self) -> &'static [&'static str]
        ensures { map (λ name. name.now) result.now ≡ operand_names self }
    {
        match self {
            Command::Bounds => &[
                "format",
                "capacity",
                "block",
                "count",
                "idle",
                "ttl",
                "replace",
                "objective",
                "mode",
                "window",
                "denominator",
                "warmup",
                "version",
                "writes",
            ],
            Command::Check => &["format", "block", "count", "idle", "replace"],
            Command::Curve => &["format", "block", "count", "idle"],
            Command::Replay => &[
                "format", "capacity", "policy", "block", "count", "idle", "replace", "warmup",
                "writes", "print",
            ],
            Command::CapacityCurve => &[
                "format",
                "capacities",
                "block",
                "count",
                "idle",
                "objective",
                "denominator",
                "warmup",
            ],
            Command::Sweep => &[
                "format",
                "capacities",
                "block",
                "count",
                "idle",
                "replace",
                "policies",
                "warmup",
                "delay",
            ],
            Command::Judge => &[
                "format", "capacity", "block", "count", "idle", "replace", "warmup", "writes",
            ],
            Command::Demo => &[
                "seed",
                "requests",
                "objects",
                "capacity",
                "objective",
                "mode",
                "window",
                "denominator",
            ],
            Command::Upgrade => &[],
            Command::Refine => &["format", "window", "block", "count", "idle", "replace"],
        }
    }

    /// How many of its operands it needs.
    pub fn needed(self) -> usize
        ensures { result ≡ length (needed_names self) }
    {
        match self {
            Command::Bounds
            | Command::CapacityCurve
            | Command::Sweep
            | Command::Judge
            | Command::Refine => 2,
            Command::Check | Command::Curve => 1,
            Command::Replay => 3,
            Command::Demo | Command::Upgrade => 0,
        }
    }

    /// How it is called, a line each.
    pub fn usage(self) -> &'static [&'static str]
        ensures { IsTrue (is_usage_of self (map (λ line. line.now) result.now)) }
    {
        match self {
            Command::Bounds => &[
                "bound_cli bounds TRACE CERT format=FORM capacity=BYTES [block=BYTES] [count=COUNTED]",
                "    [idle=TIME] [ttl=TIME] [replace=REPLACED] [objective=OBJECTIVE] [mode=MODE]",
                "    [window=STEPS] [denominator=NUMBER] [warmup=REQUESTS] [version=VERSION]",
                "    [writes=WRITTEN]",
            ],
            Command::Check => &[
                "bound_cli check TRACE CERT format=FORM [block=BYTES] [count=COUNTED] [idle=TIME]",
                "    [replace=REPLACED]",
            ],
            Command::Replay => &[
                "bound_cli replay TRACE format=FORM capacity=BYTES policy=POLICY [block=BYTES]",
                "    [count=COUNTED] [idle=TIME] [replace=REPLACED] [warmup=REQUESTS] [writes=WRITTEN]",
                "    [print=PRINTED]",
            ],
            Command::Curve | Command::CapacityCurve => &[
                "bound_cli curve TRACE format=FORM [capacities=LIST] [block=BYTES] [count=COUNTED]",
                "    [idle=TIME] [objective=OBJECTIVE] [denominator=NUMBER] [warmup=REQUESTS]",
            ],
            Command::Sweep => &[
                "bound_cli sweep TRACE format=FORM capacities=LIST [block=BYTES] [count=COUNTED]",
                "    [idle=TIME] [replace=REPLACED] [policies=NAMES] [warmup=REQUESTS]",
                "    [delay=REQUESTS]",
            ],
            Command::Judge => &[
                "bound_cli judge TRACE HITS format=FORM capacity=BYTES [block=BYTES] [count=COUNTED]",
                "    [idle=TIME] [replace=REPLACED] [warmup=REQUESTS] [writes=WRITTEN]",
            ],
            Command::Demo => &[
                "bound_cli demo [seed=NUMBER] [requests=NUMBER] [objects=NUMBER] [capacity=BYTES]",
                "    [objective=OBJECTIVE] [mode=MODE] [window=STEPS] [denominator=NUMBER]",
            ],
            Command::Upgrade => &["bound_cli upgrade CERT MADE"],
            Command::Refine => &[
                "bound_cli refine TRACE CERT MADE format=FORM window=STEPS [block=BYTES]",
                "    [count=COUNTED] [idle=TIME] [replace=REPLACED]",
            ],
        }
    }

    /// Whether it reads a trace.
    pub fn reads_trace(self) -> bool
        ensures { result ≡ is_some (places_of self).trace }
    {
        self.places().trace.is_some()
    }

    /// Whether it reads a certificate and makes another one.
    pub fn remakes_certificate(self) -> bool
        ensures { result ≡ remakes (places_of self).beside (places_of self).made }
    {
        let places = self.places();
        match (places.beside, places.made) {
            (Some(read), Some(made)) => read != made,
            _ => false,
        }
    }

    /// Where its paths stand. The certificate of bounds is made, and has the path of one that is read as well.
    pub(crate) fn places(self) -> PathPlaces
        ensures { result ≡ places_of self }
    {
        match self {
            Command::Bounds => PathPlaces {
                count: 2,
                trace: Some(1),
                beside: Some(2),
                made: Some(2),
            },
            Command::Check | Command::Judge => PathPlaces {
                count: 2,
                trace: Some(1),
                beside: Some(2),
                made: None,
            },
            Command::Replay | Command::Curve | Command::CapacityCurve | Command::Sweep =>
                PathPlaces {
                    count: 1,
                    trace: Some(1),
                    beside: None,
                    made: None,
                },
            Command::Demo => PathPlaces {
                count: 0,
                trace: None,
                beside: None,
                made: None,
            },
            Command::Upgrade => PathPlaces {
                count: 2,
                trace: None,
                beside: Some(1),
                made: Some(2),
            },
            Command::Refine => PathPlaces {
                count: 3,
                trace: Some(1),
                beside: Some(2),
                made: Some(3),
            },
        }
    }

    /// Which word is the first operand.
    pub(crate) fn operands_at(self) -> usize
        ensures value { result ≡ operands_at self }
        ensures few { result ≤ 9 }
    {
        self.places().count + 1
    }
}

fn is_among(names: &[&str], name: &str) -> bool
    ensures { result ≡ list_any (λ known. bytes_eq name.now known.now) names.now }
{
    names.iter().any(|known| is(name, known))
}

/// Whether a command has an operand of this name.
pub(crate) fn has_operand(command: Command, name: &str) -> bool
    ensures { result ≡ has_operand command name.now }
{
    is_among(command.operands(), name)
}

/// The command that a word names.
pub fn command_named(word: &str) -> Option<Command>
    ensures { result ≡ command_named word.now }
{
    let mut commands = Command::ALL.iter().copied();
    commands.find(|command| is(word, command.word()))
}
