//! How a run ends.
ghost use Rattle.std.specs.Prelude.{◌≡◌, ◌⊎◌, MatchOption};
ghost use Rattle.bound_run.specs.Statuses.{code_of, refusal_of, refusal_of_check, refusal_of_curve, refusal_of_flags, refusal_of_ttl_bounds, status_of};

use crate::bounds::BoundsFault;
use bound_report::{Impossible, InvalidKind, LimitName, Refusal};
use bound_words::WordFault;
use cert_checker::CheckFault;
use hit_flags::FlagFault;
use policy_model::PolicyName;
use stack_curve::CurveFault;
use trace_any::TraceFault;
use trace_lines::LineKind;
use ttl_bounds::TtlBoundsFault;

/// How a run ends, each with the exit status of the program.
#[derive(Clone, Copy, Debug, PartialEq, Eq)]
pub enum Status {
    /// All was read to its end, and written.
    Done,
    /// The certificate isn't valid for the trace. Lines of it count from 1.
    Invalid { line: u64, kind: InvalidKind },
    /// A word of the command line is refused.
    Words(WordFault),
    /// A line of the trace is refused. Lines count from 1.
    BadLine { line: u64, kind: LineKind },
    /// The trace passes a limit, or the least denominator that rounds no cost does.
    Limit(LimitName),
    /// A read of the trace failed.
    TraceFault,
    /// A read of the certificate failed.
    CertFault,
    /// A write of the report failed.
    ReportFault,
    /// A write of the certificate failed.
    MadeFault,
    /// There was not enough memory.
    NoMemory,
    /// There was not enough memory for what the policy of this rule holds, at its capacity in bytes, in one pass over the trace.
    PolicyMemory { policy: PolicyName, capacity: u64 },
    /// Two objects of the trace differ in size: the size of its first object, and that of the first object which differs,
    /// in bytes.
    Unequal { first: u64, other: u64 },
    /// A line of the flags is none. Lines of them count from 1.
    NotFlag { line: u64 },
    /// There are this many flags and requests, where the first of the two ends.
    FlagCount { flags: u64, requests: u64 },
    /// The flagged requests are no possible hits at this capacity, in bytes.
    Impossible { cause: Impossible, capacity: u64 },
}

impl Status {
    /// The exit status of the program.
    pub fn code(&self) -> u8
        ensures { result ≡ code_of self.now }
    {
        match self {
            Status::Done => 0,
            Status::Invalid { .. } | Status::NotFlag { .. } | Status::FlagCount { .. } => 1,
            Status::Words(_) => 2,
            Status::BadLine { .. } => 3,
            Status::Limit(_) => 4,
            Status::TraceFault => 5,
            Status::CertFault => 6,
            Status::ReportFault => 7,
            Status::MadeFault => 8,
            Status::NoMemory | Status::PolicyMemory { .. } => 9,
            Status::Unequal { .. } => 10,
            Status::Impossible { .. } => 13,
        }
    }

    /// The refusal that it is of, if the run was refused.
    pub fn refusal(self) -> Option<Refusal>
        ensures { MatchOption result ((self ≡ Status.Done) ⊎ (self ≡ Status.ReportFault)) (λ refusal. status_of refusal ≡ self) }
    {
        match self {
            Status::Done | Status::ReportFault => None,
            Status::Invalid { line, kind } => Some(Refusal::Invalid { line, kind }),
            Status::Words(WordFault { place, kind }) => Some(Refusal::Words { place, kind }),
            Status::BadLine { line, kind } => Some(Refusal::BadLine { line, kind }),
            Status::Limit(name) => Some(Refusal::Limit(name)),
            Status::TraceFault => Some(Refusal::TraceFault),
            Status::CertFault => Some(Refusal::CertFault),
            Status::MadeFault => Some(Refusal::MadeFault),
            Status::NoMemory => Some(Refusal::NoMemory),
            Status::PolicyMemory { policy, capacity } => {
                Some(Refusal::PolicyMemory { policy, capacity })
            }
            Status::Unequal { first, other } => Some(Refusal::Unequal { first, other }),
            Status::NotFlag { line } => Some(Refusal::NotFlag { line }),
            Status::FlagCount { flags, requests } => Some(Refusal::FlagCount { flags, requests }),
            Status::Impossible { cause, capacity } => Some(Refusal::Impossible { cause, capacity }),
        }
    }
}

impl From<Refusal> for Status {
    ghost use Rattle.std.specs.Prelude.{◌≡◌};
    ghost use Rattle.bound_run.specs.Statuses.{status_of};

    ghost from_gives = { λ r s. s ≡ status_of r };

    fn from(refusal: Refusal) -> Self {
        match refusal {
            Refusal::Invalid { line, kind } => Status::Invalid { line, kind },
            Refusal::NotFlag { line } => Status::NotFlag { line },
            Refusal::FlagCount { flags, requests } => Status::FlagCount { flags, requests },
            Refusal::Impossible { cause, capacity } => Status::Impossible { cause, capacity },
            Refusal::Words { place, kind } => Status::Words(WordFault { place, kind }),
            Refusal::BadLine { line, kind } => Status::BadLine { line, kind },
            Refusal::Limit(name) => Status::Limit(name),
            Refusal::Unequal { first, other } => Status::Unequal { first, other },
            Refusal::TraceFault => Status::TraceFault,
            Refusal::CertFault => Status::CertFault,
            Refusal::MadeFault => Status::MadeFault,
            Refusal::NoMemory => Status::NoMemory,
            Refusal::PolicyMemory { policy, capacity } => Status::PolicyMemory { policy, capacity },
        }
    }
}

impl From<BoundsFault> for Refusal {
    ghost use Rattle.std.specs.Prelude.{◌≡◌};
    ghost use Rattle.bound_run.specs.Statuses.{refusal_of_bounds};

    ghost from_gives = { λ f r. r ≡ refusal_of_bounds f };

    fn from(fault: BoundsFault) -> Self {
        match fault {
            BoundsFault::Denominator => Refusal::Limit(LimitName::Denominator),
            BoundsFault::NoMemory => Refusal::NoMemory,
        }
    }
}

/// The refusal that a fault of the trace leads to.
pub(crate) fn refusal_of(fault: TraceFault) -> Refusal
    ensures { result ≡ refusal_of fault }
{
    match fault {
        TraceFault::BadLine { line, kind } => Refusal::BadLine { line, kind },
        TraceFault::ReadFault => Refusal::TraceFault,
        TraceFault::InputTooLong => Refusal::Limit(LimitName::TraceBytes),
        TraceFault::TooManyRequests => Refusal::Limit(LimitName::Requests),
        TraceFault::NoMemory => Refusal::NoMemory,
    }
}

/// The refusal that a fault of bounds with a time to live leads to.
pub(crate) fn refusal_of_ttl_bounds(fault: TtlBoundsFault) -> Refusal
    ensures { result ≡ refusal_of_ttl_bounds fault }
{
    match fault {
        TtlBoundsFault::Denominator => Refusal::Limit(LimitName::Denominator),
        TtlBoundsFault::NoMemory => Refusal::NoMemory,
    }
}

/// The refusal that a fault of a check leads to.
pub(crate) fn refusal_of_check(fault: CheckFault) -> Refusal
    ensures { result ≡ refusal_of_check fault }
{
    match fault {
        CheckFault::Invalid { line, kind } => Refusal::Invalid { line, kind },
        CheckFault::Trace(fault) => refusal_of(fault),
        CheckFault::CertReadFault => Refusal::CertFault,
        CheckFault::NoMemory => Refusal::NoMemory,
    }
}

/// The refusal that a fault of a curve leads to.
pub(crate) fn refusal_of_curve(fault: CurveFault) -> Refusal
    ensures { result ≡ refusal_of_curve fault }
{
    match fault {
        CurveFault::Unequal { first, other } => Refusal::Unequal { first, other },
        CurveFault::NoMemory => Refusal::NoMemory,
    }
}

/// The refusal that a fault of claimed hits leads to.
pub(crate) fn refusal_of_flags(fault: FlagFault) -> Refusal
    ensures { result ≡ refusal_of_flags fault }
{
    match fault {
        FlagFault::Trace(fault) => refusal_of(fault),
        FlagFault::NotFlag { line } => Refusal::NotFlag { line },
        FlagFault::Count { flags, requests } => Refusal::FlagCount { flags, requests },
        FlagFault::ReadFault => Refusal::CertFault,
        FlagFault::NoMemory => Refusal::NoMemory,
    }
}
