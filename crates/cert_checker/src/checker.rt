//! A checker, which is given the requests and the records one by one.
ghost use Rattle.std.specs.Prelude.{◌≡◌, ◌≤◌, ◌<◌, ◌+◌, ◌^◌, Bool, List, true, false, [], length, None, IfErr, IfOk, IsOk, OnErr, OnOk};
ghost use Rattle.cache_model.specs.Certificates.{IsHeaderInRange, IsRecordInRange};
ghost use Rattle.cache_model.specs.Objects.{objects_of};

use crate::end_check::check_end;
use crate::entries::{find, put};
use crate::invalid::InvalidKind;
use crate::record_check::check_record;
use crate::rules::units;
use crate::stepping::{added, counts, figures, seen_of, sums_with};
use crate::summary::{Seen, Sums};
use crate::verdict::{Counted, Verdict};
use bound_base::NoMemory;
use cache_model::Object;
use cert_format::{Header, Record};
use indexmap::IndexMap;
use std::alloc::Global;
use std::marker::Model;

/// Why a step is not taken. The checker stays as it was.
#[derive(Clone, Copy, Debug, PartialEq, Eq)]
pub enum StepFault {
    /// The first rule that the record fails.
    Rule(InvalidKind),
    /// There was not enough memory.
    NoMemory,
}

impl From<NoMemory> for StepFault {
    ghost use Rattle.std.specs.Prelude.{◌≡◌};
    ghost use Rattle.cert_checker.specs.declared.checker.StepFault.TheVariants.{NoMemory as OutOfMemory};

    ghost from_gives = { λ _ f. f ≡ OutOfMemory };

    fn from(_: NoMemory) -> Self {
        StepFault::NoMemory
    }
}

impl From<InvalidKind> for StepFault {
    ghost use Rattle.std.specs.Prelude.{◌≡◌};
    ghost use Rattle.cert_checker.specs.declared.checker.StepFault.TheVariants.{Rule};

    ghost from_gives = { λ kind f. f ≡ Rule kind };

    fn from(kind: InvalidKind) -> Self {
        StepFault::Rule(kind)
    }
}

/// Checks a certificate against a trace, request by request. It keeps one entry for each object, and a few sums.
#[derive(Debug, Drop)]
pub struct Checker {
    header: Header,
    seen: IndexMap<Object, Seen>,
    sums: Sums,
}

impl Model for Checker {
    ghost use Rattle.cert_checker.specs.Summaries.{IsChecker, Summary};

    ghost Value = { Summary };

    ghost view = { λ c. record { header = c.header; entries = c.seen.entries; sums = c.sums } };

    ghost invariant = { λ c. IsChecker (record { header = c.header; entries = c.seen.entries; sums = c.sums }) };
}

// The sums of no requests.
const NOTHING: Sums = Sums {
    steps: 0,
    prices: 0,
    load: 0,
    flows: 0,
    surpluses: 0,
    values: 0,
    score: 0,
};

impl Checker {
    ghost use Rattle.std.specs.Map.{lookup};
    ghost use Rattle.cache_model.specs.Claim.{only_fills, same_object};
    ghost use Rattle.cert_checker.specs.declared.checker.StepFault.TheVariants.{NoMemory as OutOfMemory};
    ghost use Rattle.cert_checker.specs.Answers.{IsFinished, IsStepped};
    ghost use Rattle.cert_checker.specs.Rules.{counted_of, first_unused};
    ghost use Rattle.cert_checker.specs.Summaries.{HoldsOfAll, StandsFor};

    /// A checker that was given nothing. It takes memory with the first request, and so it is never refused here.
    pub fn new(alloc: Global, header: Header) -> Result<Self, NoMemory>
        requires range { IsHeaderInRange header }
        ensures succeeds { IsOk result }
        ensures nothing { IfOk result (λ checker. (fills : List Bool) → StandsFor header fills [] [] checker) }
        ensures counts { IfOk result (λ checker. (checker.header ≡ header) × (checker.sums.steps ≡ 0)) }
    {
        Ok(Checker {
            header,
            seen: IndexMap::new(alloc),
            sums: NOTHING,
        })
    }

    /// The next request, which only fills the cache or counts, and its record. The walk has this one call, so that all of a
    /// step is compiled into it.
    #[inline(always)]
    pub(crate) fn take(
        &mut self,
        object: Object,
        only: bool,
        entry: Record,
    ) -> Result<(), StepFault>
        requires fewer { self.old.sums.steps < self.old.header.requests }
        requires size { (1 ≤ object.size) × (object.size ≤ 2 ^ 48) }
        requires range { IsRecordInRange entry }
        ensures stepped { HoldsOfAll self.old (λ h fills trace records. only_fills fills (length trace) ≡ only
            → IsStepped h fills trace records object entry self.new result) }
        ensures counts { OnOk result ((self.new.header ≡ self.old.header) × (self.new.sums.steps ≡ self.old.sums.steps + 1)) }
        ensures kept { OnErr result (self.new ≡ self.old) }
        ensures only_if_new { IfErr result (λ fault. fault ≡ OutOfMemory → lookup (same_object object) self.old.entries ≡ None) }
    {
        let counts = counts(&self.header, &self.sums, only);
        let (place, before) = find(&self.seen, &object);
        let now = figures(&self.header, counts, &self.sums, &object, &entry, before);
        check_record(&self.header, &object, &entry, &now)?;
        let added = added(&self.header, counts, &object, self.sums.prices, before);
        put(&mut self.seen, place, object, seen_of(&self.sums, &entry))?;
        self.sums = sums_with(&self.sums, &now, &added);
        Ok(())
    }

    /// The next request, which counts, and its record. There were fewer steps than the header says. It takes constant
    /// time on average, with one look-up by hash, or two if the object is new.
    #[inline(always)]
    pub fn step(&mut self, _alloc: Global, object: Object, entry: Record) -> Result<(), StepFault>
        requires fewer { self.old.sums.steps < self.old.header.requests }
        requires size { (1 ≤ object.size) × (object.size ≤ 2 ^ 48) }
        requires range { IsRecordInRange entry }
        ensures stepped { HoldsOfAll self.old (λ h fills trace records. only_fills fills (length trace) ≡ false
            → IsStepped h fills trace records object entry self.new result) }
        ensures counts { OnOk result ((self.new.header ≡ self.old.header) × (self.new.sums.steps ≡ self.old.sums.steps + 1)) }
        ensures kept { OnErr result (self.new ≡ self.old) }
        ensures only_if_new { IfErr result (λ fault. fault ≡ OutOfMemory → lookup (same_object object) self.old.entries ≡ None) }
    {
        self.take(object, false, entry)
    }

    /// The next request, which only fills the cache, and its record, as in `step`.
    #[inline(always)]
    pub fn step_filling(
        &mut self,
        _alloc: Global,
        object: Object,
        entry: Record,
    ) -> Result<(), StepFault>
        requires fewer { self.old.sums.steps < self.old.header.requests }
        requires size { (1 ≤ object.size) × (object.size ≤ 2 ^ 48) }
        requires range { IsRecordInRange entry }
        ensures stepped { HoldsOfAll self.old (λ h fills trace records. only_fills fills (length trace) ≡ true
            → IsStepped h fills trace records object entry self.new result) }
        ensures counts { OnOk result ((self.new.header ≡ self.old.header) × (self.new.sums.steps ≡ self.old.sums.steps + 1)) }
        ensures kept { OnErr result (self.new ≡ self.old) }
        ensures only_if_new { IfErr result (λ fault. fault ≡ OutOfMemory → lookup (same_object object) self.old.entries ≡ None) }
    {
        self.take(object, true, entry)
    }

    // The first request that is the latest of its object and has a flow.
    fn first_unused(&self) -> Option<u32>
        ensures { HoldsOfAll self.now (λ h fills trace records. result ≡ first_unused trace records) }
    {
        self.seen
            .values()
            .filter(|seen| seen.flow > 0)
            .map(|seen| seen.latest)
            .min()
    }

    // The bound of the prices, the value of the flows and the score of the keeps.
    fn counted(&self) -> Counted
        ensures { HoldsOfAll self.now (λ h fills trace records. result ≡ counted_of h fills trace records) }
    {
        Counted {
            upper: units(&self.header) as u128 * self.sums.prices + self.sums.surpluses,
            flow: self.sums.values,
            lower: self.sums.score,
        }
    }

    /// What `finish` says, of a checker that is kept.
    pub(crate) fn verdict(&self) -> Result<Verdict, InvalidKind>
        requires all { self.now.sums.steps ≡ self.now.header.requests }
        ensures { HoldsOfAll self.now (λ h fills trace records. IsFinished h fills trace records result) }
    {
        check_end(&self.header, self.first_unused(), &self.counted())?;
        Ok(Verdict {
            header: self.header,
            objects: self.entries(),
        })
    }

    /// The rules of the end. There were as many steps as the header says.
    pub fn finish(self) -> Result<Verdict, InvalidKind>
        requires all { self.sums.steps ≡ self.header.requests }
        ensures { HoldsOfAll self (λ h fills trace records. IsFinished h fills trace records result) }
    {
        self.verdict()
    }

    /// How many different objects were requested.
    pub fn entries(&self) -> u32
        ensures objects { HoldsOfAll self.now (λ h fills trace records. result ≡ length (objects_of trace)) }
    {
        self.seen.len() as u32
    }
}
