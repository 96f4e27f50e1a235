//! What a refusal means, and what to do about it.
ghost use Rattle.std.specs.Prelude.{◌≡◌, ◌++◌, codes, is_some, string_bytes, IfOk, IsSomeAnd};
ghost use Rattle.bound_report.specs.Refusals.{refusal_line};
ghost use Rattle.policy_model.specs.Names.{policy_word};
ghost use Rattle.bound_advice.specs.Advices.{IsAdviceOn, IsAsciiLine, IsPolicyAdvice, has_advice};

use crate::certificates::certificate_advice;
use crate::devices::{Seen, device_advice};
use crate::starts::{Looks, looks_of, packed_by};
use crate::traces::BadLine;
use crate::words::{Words, word_advice};
use bound_report::{Impossible, InvalidKind, LimitName, Refusal, refusal_text};
use bound_words::Command;
use policy_model::PolicyName;
use std::alloc::{AllocError, Global};
use trace_any::{Format, Layout};
use trace_lines::LineKind;

/// What was seen of a run beside its words: its devices, how the trace begins, and the refused line if there is one.
#[derive(Clone, Copy)]
pub struct Devices<'a> {
    pub trace: Seen<'a>,
    pub cert: Seen<'a>,
    pub made: Seen<'a>,
    /// The first bytes of the trace.
    pub start: &'a [u8],
    /// The first bytes of the certificate, or of the hits, that are read.
    pub cert_start: &'a [u8],
    /// The line of the trace that is refused, as far as it is known.
    pub line: Option<&'a [u8]>,
}

// A line of ASCII letters without its end.
fn without_end(text: &[u8]) -> &str
    requires { IsAsciiLine text.now }
    ensures { text.now ≡ result.now ++ codes "\n" }
{
    match str::from_utf8(&text[..text.len() - 1]) {
        Ok(line) => line,
        Err(_) => "",
    }
}

/// The line of a refusal as the report has it, without its end.
pub fn refusal_line(alloc: Global, refusal: &Refusal) -> Result<String, AllocError>
    ensures { IfOk result (λ line. refusal_line refusal.now ≡ string_bytes line ++ codes "\n") }
{
    let text = refusal_text(refusal);
    String::from_str(alloc, without_end(text.as_bytes()))
}

// What may be done about a limit.
fn limit_advice(name: LimitName) -> &'static str {
    match name {
        LimitName::Requests => {
            "a trace has at most 33554432 requests here; examples/parts cuts a longer one of webcache lines, and examples/long adds the bounds of its parts; sweep reads up to 4294967295 in one pass"
        }
        LimitName::TraceBytes => {
            "a trace has at most 68719476736 bytes here; cut it, or leave out words that are not looked at; sweep reads up to 17592186044416 in one pass"
        }
        LimitName::PassRequests => {
            "a trace has at most 4294967295 requests in a sweep; examples/parts cuts a longer one of webcache lines, and examples/long adds the bounds of its parts, without a delay"
        }
        LimitName::PassBytes => {
            "a trace has at most 17592186044416 bytes in a sweep; cut it, or leave out words that are not looked at"
        }
        LimitName::PassObjects => {
            "policies know at most 2147483648 different objects in a sweep; without policies=.. it tells the bounds of any number"
        }
        LimitName::Denominator => {
            "no denominator up to 281474976710656 leaves each cost whole; without denominator=exact costs are rounded up"
        }
    }
}

// What a simulator may do wrong whose hits are not possible.
fn impossible_advice(cause: Impossible) -> &'static str {
    match cause {
        Impossible::First { .. } => {
            "nothing is held before it is asked for: an object of another size is another object, and one that is fetched ahead is no hit"
        }
        Impossible::Size { .. } => {
            "an object above the capacity can't be held: compare the capacity and the sizes in bytes of the simulator"
        }
        Impossible::Stale { .. } => {
            "an object that is stale when it is asked for is no hit: compare the time after which it expires in the simulator, and whether another size of an id replaces it"
        }
        Impossible::Age { .. } => {
            "an object that was written longer ago than the ttl is no hit, and a hit does not write it anew: compare the ttl of the simulator, its unit, and from when it counts"
        }
        Impossible::Load { .. } => {
            "what these hits need does not fit in the capacity at this step: look for a size that is left out, an object that entered when it was not asked for, or one that is stored once its fetch completes: give that moment a line with w, and count=reads"
        }
    }
}

// What is said of a policy.
fn of_policy(alloc: Global, policy: PolicyName, text: &str) -> Result<String, AllocError>
    ensures { IfOk result (λ said. string_bytes said ≡ policy_word policy ++ codes " at " ++ text.now) }
{
    let word = policy.word();
    format!(in alloc; "{word} at {text}")
}

// Which policy lacks memory, and at which capacity.
fn policy_advice(
    alloc: Global,
    policy: PolicyName,
    capacity: u64,
) -> Result<Option<String>, AllocError>
    ensures { IfOk result (λ advice. IsPolicyAdvice policy advice) }
{
    let text = format!(in alloc;
        "{capacity} bytes: there was not enough memory for what it holds; name fewer policies or smaller capacities at once"
    )?;
    Ok(Some(of_policy(alloc, policy, text.as_str())?))
}

// A text that is said.
fn said(alloc: Global, text: &str) -> Result<Option<String>, AllocError>
    ensures { IfOk result (λ advice. IsSomeAnd advice (λ said. string_bytes said ≡ text.now)) }
{
    Ok(Some(String::from_str(alloc, text)?))
}

// What to do about a refused line of the trace.
fn line_advice(
    alloc: Global,
    words: Words<'_>,
    devices: Devices<'_>,
    number: u64,
    kind: LineKind,
) -> Result<String, AllocError> {
    let bad = BadLine {
        command: words.command_word(),
        form: words.form().unwrap_or(Format::lasting(Layout::Webcache)),
        trace: devices.trace,
        start: devices.start,
        number,
        kind,
        text: devices.line,
    };
    bad.advice(alloc)
}

// What a file may be whose first line is none of a certificate.
fn no_certificate_advice(
    alloc: Global,
    words: Words<'_>,
    devices: Devices<'_>,
) -> Result<String, AllocError> {
    let name = devices.cert.name();
    match looks_of(devices.cert_start) {
        Looks::Packed { by, unpack } => {
            format!(in alloc; "{name}: it is packed by {by}; unpack it first, by {unpack}")
        }
        Looks::Certificate => {
            format!(in alloc; "{name}: it is a certificate of a version that is not known here")
        }
        _ if words.command().is_some_and(Command::reads_trace) => {
            format!(in alloc;
                "{name}: it begins as no certificate does; the path of the trace comes before it"
            )
        }
        _ => format!(in alloc; "{name}: it begins as no certificate does"),
    }
}

// What to look at if a certificate isn't valid, if something is known to look at.
fn invalid_advice(
    alloc: Global,
    words: Words<'_>,
    devices: Devices<'_>,
    line: u64,
    kind: InvalidKind,
) -> Result<Option<String>, AllocError>
    ensures { IfOk result (λ advice. is_some advice ≡ has_advice line kind) }
{
    let is_none = match kind {
        InvalidKind::Shape | InvalidKind::TooLong => line == 1,
        InvalidKind::Truncated => packed_by(devices.cert_start).is_some(),
        _ => false,
    };
    if is_none {
        return Ok(Some(no_certificate_advice(alloc, words, devices)?));
    }
    match certificate_advice(kind) {
        Some(text) => Ok(Some(String::from_str(alloc, text)?)),
        None => Ok(None),
    }
}

/// What to do about a refusal, if something is known to do.
pub fn advice_on(
    alloc: Global,
    words: Words<'_>,
    devices: Devices<'_>,
    refusal: &Refusal,
) -> Result<Option<String>, AllocError>
    ensures { IfOk result (λ advice. IsAdviceOn devices.entry refusal.now advice) }
{
    match *refusal {
        Refusal::Words { place, kind } => Ok(Some(word_advice(alloc, words, place, kind)?)),
        Refusal::BadLine { line, kind } => {
            Ok(Some(line_advice(alloc, words, devices, line, kind)?))
        }
        Refusal::TraceFault => device_advice(alloc, devices.trace),
        Refusal::CertFault => device_advice(alloc, devices.cert),
        Refusal::MadeFault => device_advice(alloc, devices.made),
        Refusal::Unequal { .. } => said(
            alloc,
            "a curve without capacities needs one size; give capacities=LIST, or cut the objects into blocks",
        ),
        Refusal::Limit(name) => said(alloc, limit_advice(name)),
        Refusal::NotFlag { .. } => said(
            alloc,
            "each line of the hits is 1 or 0, without a blank or a carriage return",
        ),
        Refusal::FlagCount { .. } => said(
            alloc,
            "the hits need a line for each request of the trace, and none for a line of size 0",
        ),
        Refusal::Impossible { cause, .. } => said(alloc, impossible_advice(cause)),
        Refusal::Invalid { line, kind } => invalid_advice(alloc, words, devices, line, kind),
        Refusal::PolicyMemory { policy, capacity } => policy_advice(alloc, policy, capacity),
        Refusal::NoMemory => Ok(None),
    }
}
