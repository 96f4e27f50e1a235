//! Reading the lines before the records.
ghost use Rattle.std.specs.Prelude.{◌≡◌, ◌+◌, ◌<◌, ◌^◌, None, IfOk};
ghost use Rattle.bound_io.specs.Devices.{seen};
ghost use Rattle.cert_format.specs.Lines.{Reads, ReadsNext};
ghost use Rattle.budget_format.specs.Budgets.{IsBudgetHeader};
ghost use Rattle.budget_format.specs.Parts.{IsTailInRange, lines_read, tail_fault, tail_in, tail_len};
ghost use Rattle.budget_format.specs.Readings.{header_fault, header_in};

use crate::certificates::{Budget, BudgetHeader, TenthLine};
use crate::lines::{read_budget, read_tenth};
use bound_io::{LineReader, Source};
use cert_format::{CertFault, objective_of, read_choice, read_counts, read_fixed, read_number};

// What the lines from the lower bound on state.
#[derive(Clone, Copy)]
struct Tail {
    lower: u128,
    warmup: u32,
    budget: Budget,
}

fn read_tail<S: Source>(lines: &mut LineReader, source: &mut S) -> Result<Tail, CertFault>
    requires limit { lines.old.limit ≡ 2 ^ 36 }
    requires few { lines.old.line + 4 < 2 ^ 26 }
    requires no_fault { lines.old.fault ≡ None }
    ensures range { IfOk result IsTailInRange }
    ensures read { ReadsNext tail_fault (tail_len result) tail_in lines.old lines.new (seen S.left S.faults source.old source.new) result }
{
    let lower = read_number(lines, source, b"lower", 0, (1 << 127) - 1)?;
    match read_tenth(lines, source)? {
        TenthLine::Budget(budget) => {
            read_fixed(lines, source, b"records")?;
            Ok(Tail {
                lower,
                warmup: 0,
                budget,
            })
        }
        TenthLine::Warmup(warmup) => {
            let budget = read_budget(lines, source)?;
            read_fixed(lines, source, b"records")?;
            Ok(Tail {
                lower,
                warmup,
                budget,
            })
        }
    }
}

/// Reads the lines before the records, which are the first ones.
pub fn read_header<S: Source>(
    lines: &mut LineReader,
    source: &mut S,
) -> Result<BudgetHeader, CertFault>
    requires limit { lines.old.limit ≡ 2 ^ 36 }
    requires first { lines.old.line ≡ 0 }
    requires no_fault { lines.old.fault ≡ None }
    ensures range { IfOk result IsBudgetHeader }
    ensures read { Reads header_fault (lines_read result) header_in lines.old lines.new (seen S.left S.faults source.old source.new) result }
{
    read_fixed(lines, source, b"cache-bound-certificate 3")?;
    let of_objects = read_choice(lines, source, b"objective", b"object", b"bytes")?;
    let counts = read_counts(lines, source)?;
    read_fixed(lines, source, b"form plain")?;
    let upper = read_number(lines, source, b"upper", 0, (1 << 127) - 1)?;
    let tail = read_tail(lines, source)?;
    Ok(BudgetHeader {
        objective: objective_of(of_objects),
        capacity: counts.capacity,
        requests: counts.requests,
        unit: counts.unit,
        denominator: counts.denominator,
        upper,
        lower: tail.lower,
        warmup: tail.warmup,
        budget: tail.budget.bytes,
        price: tail.budget.price,
    })
}
