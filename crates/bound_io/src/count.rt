//! Counting faults.
ghost use Rattle.std.specs.Prelude.{◌≡◌, ◌≤◌, ◌<◌, Some, length, IfOk, IsSome, MatchResult, OnOk, OnErr};
ghost use Rattle.std.specs.Io.{ReadsAtMost};
ghost use Rattle.std.specs.Io.KnownBytes.{ReadConsumes, WriteAppends};
ghost use Rattle.std.specs.Result.{result_ok};
ghost use Rattle.bound_io.specs.Causes.{HasCause, count_after};

use crate::device::Failed;
use std::io;
use std::io::{ErrorKind, Read, Write};

// The answer of the system, if there is one, and else a fault that is counted.
pub(crate) fn count_fault(answer: Option<usize>, faults: &mut u64) -> Result<usize, Failed>
    ensures value { result_ok result ≡ answer }
    ensures cause { HasCause faults.old faults.new result }
    ensures count { faults.new ≡ count_after result faults.old }
{
    match answer {
        Some(count) => Ok(count),
        None => {
            *faults = faults.saturating_add(1);
            Err(Failed)
        }
    }
}

// The answer of the system, of which the reason is kept where it is an error.
fn keep_reason(answer: io::Result<usize>, reason: &mut Option<io::Error>) -> Option<usize>
    ensures value { result ≡ result_ok answer }
    ensures reason { MatchResult answer (λ _. reason.new ≡ reason.old) (λ error. reason.new ≡ Some error) }
{
    match answer {
        Ok(count) => Some(count),
        Err(error) => {
            *reason = Some(error);
            None
        }
    }
}

// Reads once, where a read that fails is a fault, and keeps the system's reason.
pub(crate) fn read_once<R: Read>(
    input: &mut R,
    buf: &mut [u8],
    faults: &mut u64,
    reason: &mut Option<io::Error>,
) -> Result<usize, Failed>
    ensures bound { ReadsAtMost result buf.new }
    ensures bytes { ReadConsumes (R.remaining input.old) (R.remaining input.new) result buf.new }
    ensures cause { HasCause faults.old faults.new result }
    ensures none_failed { OnOk result (faults.new ≡ faults.old) }
    ensures reason { OnErr result (IsSome reason.new) }
    ensures no_reason { OnOk result (reason.new ≡ reason.old) }
{
    let answer = input.read(buf);
    count_fault(keep_reason(answer, reason), faults)
}

// Writes once, where a write that fails is a fault, and one that takes none of a piece that has some; and keeps the
// reason.
pub(crate) fn write_once<W: Write>(
    output: &mut W,
    bytes: &[u8],
    faults: &mut u64,
    reason: &mut Option<io::Error>,
) -> Result<usize, Failed>
    ensures bound { IfOk result (λ n. n ≤ length bytes.now) }
    ensures progress { IfOk result (λ n. 0 < length bytes.now → 0 < n) }
    ensures bytes { WriteAppends (W.contents output.old) (W.contents output.new) result bytes.now }
    ensures cause { HasCause faults.old faults.new result }
    ensures none_failed { OnOk result (faults.new ≡ faults.old) }
    ensures reason { OnErr result (IsSome reason.new) }
    ensures no_reason { OnOk result (reason.new ≡ reason.old) }
{
    let answer = match output.write(bytes) {
        Ok(0) if !bytes.is_empty() => Err(io::Error::new(
            ErrorKind::WriteZero,
            "no byte was taken",
        )),
        answer => answer,
    };
    count_fault(keep_reason(answer, reason), faults)
}
