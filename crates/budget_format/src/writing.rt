//! Writing a certificate with a budget.
ghost use Rattle.std.specs.Prelude.{◌≡◌, OnErr, OnOk};
ghost use Rattle.std.specs.Io.KnownBytes.{Appends};
ghost use Rattle.bound_io.specs.Causes.{HasCause};
ghost use Rattle.bound_io.specs.Writing.{AppendsProperPrefix};
ghost use Rattle.cache_model.specs.Texts.{line, text_of};
ghost use Rattle.budget_format.specs.Budgets.{IsBudgetHeader, IsBudgetRecord};
ghost use Rattle.budget_format.specs.Texts.{header_lines, record_line};

use crate::certificates::{BudgetHeader, BudgetRecord};
use crate::text::{header_text, record_text};
use bound_io::{Failed, Sink, write_all};

/// Writes the lines before the records.
pub fn write_header<K: Sink>(sink: &mut K, header: &BudgetHeader) -> Result<(), Failed>
    requires { IsBudgetHeader header.now }
    ensures all { OnOk result (Appends (K.written sink.old) (K.written sink.new) (text_of (header_lines header.now))) }
    ensures prefix { OnErr result (AppendsProperPrefix (K.written sink.old) (K.written sink.new) (text_of (header_lines header.now))) }
    ensures cause { HasCause (K.faults sink.old) (K.faults sink.new) result }
    ensures none_failed { OnOk result (K.faults sink.new ≡ K.faults sink.old) }
{
    write_all(sink, header_text(header).as_bytes())
}

/// Writes the line of a record, after one of the price `before`, which is 0 for the first record.
pub fn write_record<K: Sink>(sink: &mut K, before: u128, entry: &BudgetRecord) -> Result<(), Failed>
    requires { IsBudgetRecord entry.now }
    ensures all { OnOk result (Appends (K.written sink.old) (K.written sink.new) (line (record_line before entry.now))) }
    ensures prefix { OnErr result (AppendsProperPrefix (K.written sink.old) (K.written sink.new) (line (record_line before entry.now))) }
    ensures cause { HasCause (K.faults sink.old) (K.faults sink.new) result }
    ensures none_failed { OnOk result (K.faults sink.new ≡ K.faults sink.old) }
{
    write_all(sink, record_text(before, entry).as_bytes())
}
