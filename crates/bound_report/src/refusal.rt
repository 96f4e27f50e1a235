//! The line that says why a run stopped. It takes no memory.
ghost use Rattle.std.specs.Prelude.{◌≡◌, ◌+◌, ◌≤◌, ◌++◌, length};
ghost use Rattle.cache_model.specs.Texts.{entry};
ghost use Rattle.bound_report.specs.Refusals.{impossible_text, invalid_kind_text, limit_text, line_kind_text, refusal_line, word_kind_text};

use bound_base::NoMemory;
use bound_terms::WordKind;
use cert_checker::InvalidKind;
use hit_judge::Impossible;
use line_text::LineText;
use policy_model::PolicyName;
use trace_lines::LineKind;

/// A limit of the program.
#[derive(Clone, Copy, Debug, PartialEq, Eq)]
pub enum LimitName {
    /// 2^25 requests of a trace.
    Requests,
    /// 2^36 bytes of a trace.
    TraceBytes,
    /// 2^32 - 1 requests of a trace that is read in one pass.
    PassRequests,
    /// 2^44 bytes of a trace that is read in one pass.
    PassBytes,
    /// 2^31 different objects of a trace that policies go through in one pass.
    PassObjects,
    /// 2^48 of a denominator.
    Denominator,
}

/// Why a run stopped.
#[derive(Clone, Copy, Debug, PartialEq, Eq)]
pub enum Refusal {
    /// The certificate isn't valid for the trace. Lines of it count from 1.
    Invalid { line: u64, kind: InvalidKind },
    /// A line of the flags is none. Lines of them count from 1.
    NotFlag { line: u64 },
    /// There are this many flags and requests, where the first of the two ends.
    FlagCount { flags: u64, requests: u64 },
    /// The flagged requests are no possible hits at this capacity, in bytes.
    Impossible { cause: Impossible, capacity: u64 },
    /// A word of the command line is refused. Places count from 1.
    Words { place: u64, kind: WordKind },
    /// A line of the trace is refused. Lines count from 1.
    BadLine { line: u64, kind: LineKind },
    /// The trace passes a limit, or the least denominator that rounds no cost does.
    Limit(LimitName),
    /// Two objects of the trace differ in size: the size of its first object, and that of the first object which differs,
    /// in bytes.
    Unequal { first: u64, other: u64 },
    /// A read of the trace failed.
    TraceFault,
    /// A read of the certificate failed.
    CertFault,
    /// A write of the certificate failed.
    MadeFault,
    /// There was not enough memory for what the policy of this rule holds, at its capacity in bytes, in one pass over the trace.
    PolicyMemory { policy: PolicyName, capacity: u64 },
    /// There was not enough memory.
    NoMemory,
}

impl From<NoMemory> for Refusal {
    ghost use Rattle.std.specs.Prelude.{◌≡◌};
    ghost use Rattle.bound_report.specs.declared.refusal.Refusal.TheVariants.{NoMemory};

    ghost from_gives = { λ _ r. r ≡ NoMemory };

    fn from(_: NoMemory) -> Self {
        Refusal::NoMemory
    }
}

/// The most bytes that the line of a refusal has.
const ROOM: usize = 192;

/// A line in a buffer of its own, of at most 192 bytes.
pub type RefusalText = LineText<ROOM>;

// A word and two numbers.
fn push_pair(text: &mut RefusalText, word: &[u8], first: u128, second: u128)
    requires { length text.old + length word.now + 80 ≤ 192 }
    ensures text { text.new ≡ text.old ++ entry (entry word.now first) second }
    ensures short { length text.new ≤ length text.old + length word.now + 80 }
{
    text.push_entry(word, first);
    text.push_entry(b"", second);
}

fn word_text(kind: WordKind) -> &'static [u8]
    ensures text { result.now ≡ word_kind_text kind }
    ensures short { length result.now ≤ 20 }
{
    match kind {
        WordKind::Missing => b"missing\n",
        WordKind::Unknown => b"unknown\n",
        WordKind::Twice => b"twice\n",
        WordKind::BadValue => b"bad value\n",
    }
}

fn limit_text(name: LimitName) -> &'static [u8]
    ensures text { result.now ≡ limit_text name }
    ensures short { length result.now ≤ 30 }
{
    match name {
        LimitName::Requests => b"requests 33554432\n",
        LimitName::TraceBytes => b"trace bytes 68719476736\n",
        LimitName::PassRequests => b"requests 4294967295\n",
        LimitName::PassBytes => b"trace bytes 17592186044416\n",
        LimitName::PassObjects => b"objects 2147483648\n",
        LimitName::Denominator => b"denominator 281474976710656\n",
    }
}

// Why a line is refused.
fn push_line_kind(text: &mut RefusalText, kind: LineKind)
    requires { length text.old ≤ 100 }
    ensures { text.new ≡ text.old ++ line_kind_text kind }
{
    match kind {
        LineKind::TooFewWords => text.push(b"too few words\n"),
        LineKind::BadNumber { word } => {
            text.push(b"number in word ");
            text.push_number(word as u128);
            text.push(b"\n");
        }
        LineKind::SizeTooLarge => text.push(b"size too large\n"),
        LineKind::BadRange => text.push(b"block range\n"),
        LineKind::BadType => text.push(b"type\n"),
        LineKind::QuoteByte => text.push(b"quote\n"),
        LineKind::TooLong => text.push(b"line too long\n"),
        LineKind::PartRecord { bytes } => {
            text.push(b"part record ");
            text.push_number(bytes as u128);
            text.push(b"\n");
        }
    }
}

// Why a certificate isn't valid.
fn push_invalid_kind(text: &mut RefusalText, kind: InvalidKind)
    requires { length text.old ≤ 60 }
    ensures text { text.new ≡ text.old ++ invalid_kind_text kind }
    ensures short { length text.new ≤ length text.old + 110 }
{
    match kind {
        InvalidKind::Shape => text.push(b"shape"),
        InvalidKind::Number => text.push(b"number"),
        InvalidKind::Range => text.push(b"range"),
        InvalidKind::TooLong => text.push(b"line too long"),
        InvalidKind::Truncated => text.push(b"truncated"),
        InvalidKind::Trailing => text.push(b"trailing"),
        InvalidKind::RequestCount { written, read } => {
            push_pair(text, b"request count", written, read as u128)
        }
        InvalidKind::SumLimit => text.push(b"sum limit"),
        InvalidKind::LastPrice { price } => text.push_entry(b"last price", price),
        InvalidKind::UnitNotDivisor { unit, size } => {
            text.push_entry(b"unit", unit as u128);
            text.push_entry(b" size", size as u128);
        }
        InvalidKind::NotDivisible { weight } => text.push_entry(b"not divisible", weight as u128),
        InvalidKind::Overfull { load, capacity } => {
            push_pair(text, b"overfull", load, capacity as u128)
        }
        InvalidKind::FlowAboveWeight { flow, weight } => {
            push_pair(text, b"flow above weight", flow, weight as u128)
        }
        InvalidKind::FlowOverfull { load, units } => {
            push_pair(text, b"flow overfull", load, units as u128)
        }
        InvalidKind::Unused { number } => text.push_entry(b"unused flow", number as u128),
        InvalidKind::UpperDiffers { written, counted } => {
            push_pair(text, b"upper differs", written, counted)
        }
        InvalidKind::FlowDiffers { written, counted } => {
            push_pair(text, b"flow differs", written, counted)
        }
        InvalidKind::LowerDiffers { written, counted } => {
            push_pair(text, b"lower differs", written, counted)
        }
        InvalidKind::ExactGap { upper, flow } => push_pair(text, b"exact gap", upper, flow),
    }
}

// Why flagged requests are no possible hits.
fn push_impossible(text: &mut RefusalText, cause: Impossible, capacity: u64)
    requires { length text.old ≤ 20 }
    ensures { text.new ≡ text.old ++ impossible_text cause capacity }
{
    match cause {
        Impossible::First { request } => {
            text.push_entry(b"request", request as u128);
            text.push(b": first of its object\n");
        }
        Impossible::Size { request, size } => {
            text.push_entry(b"request", request as u128);
            text.push_entry(b": size", size as u128);
            text.push_entry(b" above", capacity as u128);
            text.push(b"\n");
        }
        Impossible::Stale { request } => {
            text.push_entry(b"request", request as u128);
            text.push(b": stale\n");
        }
        Impossible::Age { request, age, ttl } => {
            text.push_entry(b"request", request as u128);
            text.push_entry(b": age", age as u128);
            text.push_entry(b" above", ttl as u128);
            text.push(b"\n");
        }
        Impossible::Load { step, load } => {
            text.push_entry(b"step", step as u128);
            text.push_entry(b": load", load);
            text.push_entry(b" above", capacity as u128);
            text.push(b"\n");
        }
    }
}

/// The line that says why a run stopped, with its end.
pub fn refusal_text(refusal: &Refusal) -> RefusalText
    ensures { result ≡ refusal_line refusal.now }
{
    let mut text = RefusalText::new();
    match refusal {
        Refusal::Invalid { line, kind } => {
            text.push(b"invalid line ");
            text.push_number(*line as u128);
            text.push(b": ");
            push_invalid_kind(&mut text, *kind);
            text.push(b"\n");
        }
        Refusal::NotFlag { line } => {
            text.push_entry(b"invalid line", *line as u128);
            text.push(b": flag\n");
        }
        Refusal::FlagCount { flags, requests } => {
            text.push_entry(b"invalid line", (*flags).max(*requests) as u128);
            push_pair(
                &mut text,
                b": request count",
                *flags as u128,
                *requests as u128,
            );
            text.push(b"\n");
        }
        Refusal::Impossible { cause, capacity } => {
            text.push(b"impossible ");
            push_impossible(&mut text, *cause, *capacity);
        }
        Refusal::Words { place, kind } => {
            text.push(b"words: place ");
            text.push_number(*place as u128);
            text.push(b": ");
            text.push(word_text(*kind));
        }
        Refusal::BadLine { line, kind } => {
            text.push(b"bad line ");
            text.push_number(*line as u128);
            text.push(b": ");
            push_line_kind(&mut text, *kind);
        }
        Refusal::Limit(name) => {
            text.push(b"limit: ");
            text.push(limit_text(*name));
        }
        Refusal::Unequal { first, other } => {
            push_pair(&mut text, b"unequal sizes", *first as u128, *other as u128);
            text.push(b"\n");
        }
        Refusal::TraceFault => text.push(b"trace fault\n"),
        Refusal::CertFault => text.push(b"certificate fault\n"),
        Refusal::MadeFault => text.push(b"made fault\n"),
        Refusal::PolicyMemory { .. } | Refusal::NoMemory => text.push(b"no memory\n"),
    }
    text
}
