//! A writer of certificates with a budget.
ghost use Rattle.std.specs.Prelude.{◌≡◌, codes, IfOk, OnErr, OnOk, ℕ};
ghost use Rattle.std.specs.Io.KnownBytes.{Appends};
ghost use Rattle.bound_io.specs.Causes.{HasCause};
ghost use Rattle.bound_io.specs.Writing.{AppendsProperPrefix};
ghost use Rattle.cache_model.specs.Texts.{line, text_of};
ghost use Rattle.budget_format.specs.Budgets.{IsBudgetHeader, IsBudgetRecord};
ghost use Rattle.budget_format.specs.Texts.{header_lines, record_line};

use crate::certificates::{BudgetHeader, BudgetRecord};
use crate::writing::{write_header, write_record};
use bound_io::{Failed, Sink};
use cert_format::write_end;
use std::marker::Model;

/// Writes a certificate with a budget record by record, and knows the price of the last record, as which it is seen.
///
/// It doesn't keep the sink: each call is given it.
#[derive(Debug, Drop)]
pub struct BudgetWriter {
    price: u128,
}

impl Model for BudgetWriter {
    ghost Value = { ℕ };

    ghost view = { λ w. w.price };
}

impl BudgetWriter {
    /// Writes the lines before the records, and gives the writer of the others. The price before the first is 0.
    pub fn begin<K: Sink>(sink: &mut K, header: &BudgetHeader) -> Result<Self, Failed>
        requires { IsBudgetHeader header.now }
        ensures first { IfOk result (λ writer. writer ≡ 0) }
        ensures all { OnOk result (Appends (K.written sink.old) (K.written sink.new) (text_of (header_lines header.now))) }
        ensures prefix { OnErr result (AppendsProperPrefix (K.written sink.old) (K.written sink.new) (text_of (header_lines header.now))) }
        ensures cause { HasCause (K.faults sink.old) (K.faults sink.new) result }
        ensures none_failed { OnOk result (K.faults sink.new ≡ K.faults sink.old) }
    {
        match write_header(sink, header) {
            Ok(()) => Ok(BudgetWriter { price: 0 }),
            Err(fault) => Err(fault),
        }
    }

    /// Writes the line of the next record.
    pub fn push<K: Sink>(&mut self, sink: &mut K, entry: &BudgetRecord) -> Result<(), Failed>
        requires { IsBudgetRecord entry.now }
        ensures after { OnOk result (self.new ≡ entry.now.price) }
        ensures kept { OnErr result (self.new ≡ self.old) }
        ensures all { OnOk result (Appends (K.written sink.old) (K.written sink.new) (line (record_line self.old entry.now))) }
        ensures prefix { OnErr result (AppendsProperPrefix (K.written sink.old) (K.written sink.new) (line (record_line self.old entry.now))) }
        ensures cause { HasCause (K.faults sink.old) (K.faults sink.new) result }
        ensures none_failed { OnOk result (K.faults sink.new ≡ K.faults sink.old) }
    {
        let written = write_record(sink, self.price, entry);
        if written.is_ok() {
            self.price = entry.price;
        }
        written
    }

    /// Writes the line after the records. It is the last call.
    pub fn end<K: Sink>(self, sink: &mut K) -> Result<(), Failed>
        ensures all { OnOk result (Appends (K.written sink.old) (K.written sink.new) (line (codes "end"))) }
        ensures prefix { OnErr result (AppendsProperPrefix (K.written sink.old) (K.written sink.new) (line (codes "end"))) }
        ensures cause { HasCause (K.faults sink.old) (K.faults sink.new) result }
        ensures none_failed { OnOk result (K.faults sink.new ≡ K.faults sink.old) }
    {
        write_end(sink)
    }
}
