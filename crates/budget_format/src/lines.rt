//! Reading the lines of a certificate with a budget from a source.
ghost use Rattle.std.specs.Prelude.{◌≡◌, ◌+◌, ◌<◌, ◌≤◌, ◌^◌, None, IfOk};
ghost use Rattle.bound_io.specs.Devices.{seen};
ghost use Rattle.cert_format.specs.Lines.{ReadsNext};
ghost use Rattle.budget_format.specs.Budgets.{IsBudgetRecord};
ghost use Rattle.budget_format.specs.Parts.{IsBudgetInRange, IsTenthInRange, ReadsWide, budget_fault, first_budget, first_tenth, tenth_fault};
ghost use Rattle.budget_format.specs.Readings.{first_record, record_fault};

use crate::certificates::{Budget, BudgetRecord, TenthLine};
use crate::line::{budget_after, record_after, tenth_after};
use bound_io::{LineReader, Source};
use cert_format::{CertFault, in_line, whole_text};

/// Reads the line of a record, after one of the price `before`.
pub fn read_record<S: Source>(
    lines: &mut LineReader,
    source: &mut S,
    before: u128,
) -> Result<BudgetRecord, CertFault>
    requires limit { lines.old.limit ≡ 2 ^ 36 }
    requires few { lines.old.line < 2 ^ 26 }
    requires no_fault { lines.old.fault ≡ None }
    requires price { before ≤ 2 ^ 126 }
    ensures range { IfOk result IsBudgetRecord }
    ensures read { ReadsNext (record_fault before) 1 (first_record before) lines.old lines.new (seen S.left S.faults source.old source.new) result }
{
    let line = lines.line() + 1;
    let text = whole_text(line, lines.next_whole_line(source))?;
    in_line(line, record_after(text, before))
}

/// Reads the line of a budget.
pub(crate) fn read_budget<S: Source>(
    lines: &mut LineReader,
    source: &mut S,
) -> Result<Budget, CertFault>
    requires limit { lines.old.limit ≡ 2 ^ 36 }
    requires few { lines.old.line < 2 ^ 26 }
    requires no_fault { lines.old.fault ≡ None }
    ensures range { IfOk result IsBudgetInRange }
    ensures read { ReadsWide budget_fault first_budget lines.old lines.new (seen S.left S.faults source.old source.new) result }
{
    let line = lines.line() + 1;
    let text = whole_text(line, lines.next_whole_line(source))?;
    in_line(line, budget_after(text))
}

/// Reads the line where a warm-up may stand, which is that of the budget if there is none.
pub(crate) fn read_tenth<S: Source>(
    lines: &mut LineReader,
    source: &mut S,
) -> Result<TenthLine, CertFault>
    requires limit { lines.old.limit ≡ 2 ^ 36 }
    requires few { lines.old.line < 2 ^ 26 }
    requires no_fault { lines.old.fault ≡ None }
    ensures range { IfOk result IsTenthInRange }
    ensures read { ReadsWide tenth_fault first_tenth lines.old lines.new (seen S.left S.faults source.old source.new) result }
{
    let line = lines.line() + 1;
    let text = whole_text(line, lines.next_whole_line(source))?;
    in_line(line, tenth_after(text))
}
