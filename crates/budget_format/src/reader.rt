//! A reader of certificates with a budget.
ghost use Rattle.std.specs.Prelude.{◌≡◌, ◌⊎◌, ◌+◌, ◌^◌, ◌<◌, ◌≤◌, IfOk, IfErr, IfSome, OnErr, OnOk, length, None, Err};
ghost use Rattle.bound_io.specs.Devices.{seen};
ghost use Rattle.bound_io.specs.Reading.{ReadsSource};
ghost use Rattle.cert_format.specs.Lines.{IsPast, IsTaken, IsWithin, known};
ghost use Rattle.budget_format.specs.Budgets.{IsBudgetHeader, IsBudgetRecord};

use crate::certificates::{BudgetHeader, BudgetRecord};
use crate::header::read_header;
use crate::lines::read_record;
use bound_base::NoMemory;
use bound_io::{LineReader, Source};
use cert_format::{CertFault, read_end};
use std::alloc::Global;
use std::marker::Model;

/// What a reader reads next.
#[derive(Clone, Copy, PartialEq, Eq)]
pub(crate) enum Stage {
    /// The lines before the records.
    AtHeader,
    /// A record, or the end if none is left.
    InRecords,
    /// Nothing.
    AtEnd,
}

/// Reads a certificate with a budget line by line, through a buffer of 65,536 bytes.
///
/// It doesn't keep the source: each reading call is given it. Over one source it reads what all its bytes say, in
/// whatever pieces it gives them. A reader that has answered a fault answers the same from then on, and reads nothing
/// more.
#[derive(Drop)]
pub struct BudgetReader {
    lines: LineReader,
    stage: Stage,
    left: u32,
    price: u128,
    fault: Option<CertFault>,
}

impl Model for BudgetReader {
    ghost use Rattle.std.specs.Prelude.{◌≡◌, ◌+◌, ◌<◌, ◌≤◌, ◌^◌, None, length};
    ghost use Rattle.budget_format.specs.declared.reader.Stage.TheVariants.{AtHeader, InRecords};
    ghost use Rattle.budget_format.specs.Readers.{Reader};

    ghost Value = { Reader };

    ghost view = { λ r. record { lines = r.lines; stage = r.stage; left = r.left; price = r.price; fault = r.fault } };

    ghost invariant = { λ r.
        (r.lines.limit ≡ 2 ^ 36) × (length r.lines.held ≤ 65536) × (r.fault ≡ None → r.lines.fault ≡ None)
        × (r.fault ≡ None → r.stage ≡ InRecords → r.lines.line + r.left + 1 < 2 ^ 26)
        × (r.fault ≡ None → r.stage ≡ AtHeader → r.lines.line ≡ 0) × (r.price ≤ 2 ^ 126) };
}

impl BudgetReader {
    ghost use Rattle.budget_format.specs.declared.reader.Stage.TheVariants.{AtHeader, InRecords};
    ghost use Rattle.cert_format.specs.Readers.{err_of};
    ghost use Rattle.budget_format.specs.Readers.{AnswersAgain, EndRead, HeaderRead, RecordRead, fresh};

    /// A reader that has read nothing. It takes all its memory here.
    pub fn new(alloc: Global) -> Result<Self, NoMemory>
        ensures { IfOk result (λ reader. reader ≡ fresh) }
    {
        Ok(BudgetReader {
            lines: LineReader::new(alloc, 1 << 36)?,
            stage: Stage::AtHeader,
            left: 0,
            price: 0,
            fault: None,
        })
    }

    /// How many bytes were taken from the source.
    pub fn taken(&self) -> u64
        ensures taken { result ≡ self.now.lines.consumed + length self.now.lines.held }
        ensures ahead { result ≤ self.now.lines.consumed + 65536 }
    {
        self.lines.taken()
    }

    /// How many bytes the lines given have, with their LFs.
    pub fn consumed(&self) -> u64
        ensures { result ≡ self.now.lines.consumed }
    {
        self.lines.consumed()
    }

    /// How many lines were given.
    pub fn line(&self) -> u64
        ensures { result ≡ self.now.lines.line }
    {
        self.lines.line()
    }

    /// How many records are still to be read, once the header was.
    pub fn left(&self) -> u32
        ensures { result ≡ self.now.left }
    {
        self.left
    }

    /// The header. This is the first call.
    pub fn header<Q: Source>(&mut self, source: &mut Q) -> Result<BudgetHeader, CertFault>
        requires { self.old.fault ≡ None → self.old.stage ≡ AtHeader }
        ensures read { self.old.fault ≡ None → HeaderRead self.old self.new (seen Q.left Q.faults source.old source.new) result }
        ensures range { IfOk result IsBudgetHeader }
        ensures fault { self.old.fault ≡ None → self.new.fault ≡ err_of result }
        ensures again { AnswersAgain self.old self.new result (seen Q.left Q.faults source.old source.new) }
        ensures left { OnErr result (self.new.left ≡ self.old.left) }
        ensures within { self.old.fault ≡ None → IfErr result (IsWithin self.new.lines.line) }
        ensures past { IfSome (known self.old.lines (Q.left source.old)) (IsPast self.old.lines self.new.lines) }
        ensures taken { IsTaken self.old.lines self.new.lines (Q.left source.old) (Q.left source.new) }
        ensures ahead { length self.new.lines.held ≤ 65536 }
        ensures reads { ReadsSource CertFault.ReadFault (seen Q.left Q.faults source.old source.new) result }
    {
        if let Some(fault) = self.fault {
            return Err(fault);
        }
        let found = read_header(&mut self.lines, source);
        match found {
            Ok(header) => {
                self.stage = Stage::InRecords;
                self.left = header.requests;
                self.price = 0;
            }
            Err(fault) => self.fault = Some(fault),
        }
        found
    }

    /// The next record. Fewer records were read than the header says.
    pub fn next_record<Q: Source>(&mut self, source: &mut Q) -> Result<BudgetRecord, CertFault>
        requires { self.old.fault ≡ None → (self.old.stage ≡ InRecords) × (0 < self.old.left) }
        ensures read { self.old.fault ≡ None → RecordRead self.old self.new (seen Q.left Q.faults source.old source.new) result }
        ensures range { IfOk result IsBudgetRecord }
        ensures fault { self.old.fault ≡ None → self.new.fault ≡ err_of result }
        ensures again { AnswersAgain self.old self.new result (seen Q.left Q.faults source.old source.new) }
        ensures left { OnErr result (self.new.left ≡ self.old.left) }
        ensures within { self.old.fault ≡ None → IfErr result (IsWithin self.new.lines.line) }
        ensures past { IfSome (known self.old.lines (Q.left source.old)) (IsPast self.old.lines self.new.lines) }
        ensures taken { IsTaken self.old.lines self.new.lines (Q.left source.old) (Q.left source.new) }
        ensures ahead { length self.new.lines.held ≤ 65536 }
        ensures reads { ReadsSource CertFault.ReadFault (seen Q.left Q.faults source.old source.new) result }
    {
        if let Some(fault) = self.fault {
            return Err(fault);
        }
        let found = read_record(&mut self.lines, source, self.price);
        match found {
            Ok(entry) => {
                self.left -= 1;
                self.price = entry.price;
            }
            Err(fault) => self.fault = Some(fault),
        }
        found
    }

    /// Reads the end, once all records were read, and looks whether nothing follows it. It is the last call.
    pub fn finish_text<Q: Source>(&mut self, source: &mut Q) -> Result<(), CertFault>
        requires { self.old.fault ≡ None → (self.old.stage ≡ InRecords) × (self.old.left ≡ 0) }
        ensures lines { self.old.fault ≡ None → OnOk result (self.new.lines.line ≡ self.old.lines.line + 1) }
        ensures read { self.old.fault ≡ None → EndRead self.old self.new (seen Q.left Q.faults source.old source.new) result }
        ensures fault { self.old.fault ≡ None → self.new.fault ≡ err_of result }
        ensures again { AnswersAgain self.old self.new result (seen Q.left Q.faults source.old source.new) }
        ensures left { OnErr result (self.new.left ≡ self.old.left) }
        ensures within { self.old.fault ≡ None → IfErr result (IsWithin self.new.lines.line) }
        ensures past { IfSome (known self.old.lines (Q.left source.old)) (IsPast self.old.lines self.new.lines) }
        ensures taken { IsTaken self.old.lines self.new.lines (Q.left source.old) (Q.left source.new) }
        ensures ahead { length self.new.lines.held ≤ 65536 }
        ensures reads { ReadsSource CertFault.ReadFault (seen Q.left Q.faults source.old source.new) result }
    {
        if let Some(fault) = self.fault {
            return Err(fault);
        }
        let finished = read_end(&mut self.lines, source);
        match finished {
            Ok(()) => self.stage = Stage::AtEnd,
            Err(fault) => self.fault = Some(fault),
        }
        finished
    }
}
