//! The flags of a simulator, line by line.
ghost use Rattle.std.specs.Prelude.{◌≡◌, ◌+◌, ◌≤◌, ◌^◌, None, Some, IfOk, IfErr, OnOk};
ghost use Rattle.bound_io.specs.Devices.{seen};
ghost use Rattle.bound_io.specs.Reading.{ReadsSource};
ghost use Rattle.hit_flags.specs.Flags.{flag_of};
ghost use Rattle.hit_flags.specs.Lines.{GivesFlag, IsAtItsEnd, IsCount, IsGoing, IsNextLine, ReadsFlag, StopsEnd, StopsTurn};
ghost use Rattle.hit_flags.specs.Nearness.{GoesLine, IsAtTurn};

use crate::fault::FlagFault;
use bound_io::{LineFault, LineReader, Source};

// The flag of a text, if it is one.
fn flag_of(text: &[u8]) -> Option<bool>
    ensures { result ≡ flag_of text.now }
{
    match text {
        [b'1'] => Some(true),
        [b'0'] => Some(false),
        _ => None,
    }
}

// The flag of the next line, or None at the end.
fn next_flag<H: Source>(lines: &mut LineReader, hits: &mut H) -> Result<Option<bool>, FlagFault>
    requires going { IsGoing lines.old }
    requires few { lines.old.line ≤ 2 ^ 25 }
    ensures next { ReadsFlag lines.old lines.new (seen H.left H.faults hits.old hits.new) result }
    ensures reads { ReadsSource FlagFault.ReadFault (seen H.left H.faults hits.old hits.new) result }
    ensures lines { GoesLine lines.old lines.new (seen H.left H.faults hits.old hits.new) }
    ensures turn { IfErr result (IsAtTurn (lines.old.line + 1)) }
{
    let flag = match lines.next_line(hits) {
        Ok(Some(text)) => flag_of(text),
        Ok(None) => return Ok(None),
        Err(LineFault::ReadFault) => return Err(FlagFault::ReadFault),
        Err(LineFault::LineTooLong { line }) => return Err(FlagFault::NotFlag { line }),
        Err(LineFault::InputTooLong) => {
            return Err(FlagFault::NotFlag {
                line: lines.line() + 1,
            });
        }
    };
    match flag {
        Some(flag) => Ok(Some(flag)),
        None => Err(FlagFault::NotFlag { line: lines.line() }),
    }
}

/// The flag of the next request: the one before it had the flag of the last line.
pub(crate) fn flag_for<H: Source>(lines: &mut LineReader, hits: &mut H) -> Result<bool, FlagFault>
    requires going { IsGoing lines.old }
    requires few { lines.old.line ≤ 2 ^ 25 }
    ensures given { IfOk result (GivesFlag lines.old lines.new (seen H.left H.faults hits.old hits.new)) }
    ensures line { OnOk result (IsNextLine lines.old lines.new) }
    ensures stopped { IfErr result (StopsTurn lines.old (seen H.left H.faults hits.old hits.new)) }
    ensures count { IfErr result (IsCount lines.old.line (lines.old.line + 1)) }
    ensures reads { ReadsSource FlagFault.ReadFault (seen H.left H.faults hits.old hits.new) result }
    ensures lines { GoesLine lines.old lines.new (seen H.left H.faults hits.old hits.new) }
    ensures turn { IfErr result (IsAtTurn (lines.old.line + 1)) }
{
    let before = lines.line();
    match next_flag(lines, hits)? {
        Some(flag) => Ok(flag),
        None => Err(FlagFault::Count {
            flags: before,
            requests: before + 1,
        }),
    }
}

/// Finds that no line follows, once each request has its flag.
pub(crate) fn no_more<H: Source>(lines: &mut LineReader, hits: &mut H) -> Result<(), FlagFault>
    requires going { IsGoing lines.old }
    requires few { lines.old.line ≤ 2 ^ 25 }
    ensures end { OnOk result (IsAtItsEnd lines.old lines.new (seen H.left H.faults hits.old hits.new)) }
    ensures stopped { IfErr result (StopsEnd lines.old (seen H.left H.faults hits.old hits.new)) }
    ensures count { IfErr result (IsCount (lines.old.line + 1) lines.old.line) }
    ensures reads { ReadsSource FlagFault.ReadFault (seen H.left H.faults hits.old hits.new) result }
    ensures lines { GoesLine lines.old lines.new (seen H.left H.faults hits.old hits.new) }
    ensures turn { IfErr result (IsAtTurn (lines.old.line + 1)) }
{
    let before = lines.line();
    match next_flag(lines, hits)? {
        Some(_) => Err(FlagFault::Count {
            flags: before + 1,
            requests: before,
        }),
        None => Ok(()),
    }
}
