//! Reading the lines before the records.
ghost use Rattle.std.specs.Prelude.{◌≡◌, ◌+◌, ◌<◌, ◌≤◌, ◌^◌, None, IfOk, if◌then◌else◌};
ghost use Rattle.bound_io.specs.Devices.{seen};
ghost use Rattle.cache_model.specs.Certificates.{IsHeaderInRange};
ghost use Rattle.cache_model.specs.declared.version.TheConstants.{CERT_VERSION, SHORT_VERSION};
ghost use Rattle.cert_format.specs.Lines.{Reads, ReadsNext};
ghost use Rattle.cert_format.specs.Parts.{IsCountsInRange, IsValuesInRange, counts_fault, counts_in};
ghost use Rattle.cert_format.specs.Parts.{first_warmup, last_fault, last_len, values_fault, values_in};
ghost use Rattle.cert_format.specs.Readers.{lines_read};
ghost use Rattle.cert_format.specs.Readings.{header_fault, header_in};

use crate::fault::CertFault;
use crate::lines::{read_choice, read_fixed, read_number, read_warmup};
use bound_io::{LineReader, Source};
use cache_model::{CERT_VERSION, Header, Objective, SHORT_VERSION};

/// The counts of a header.
#[derive(Clone, Copy)]
pub struct Counts {
    pub capacity: u64,
    pub requests: u32,
    pub unit: u64,
    pub denominator: u64,
}

/// The values of a header, numerators over its denominator but for the last.
#[derive(Clone, Copy)]
struct Values {
    upper: u128,
    flow: u128,
    lower: u128,
}

/// Reads the lines of the counts.
pub fn read_counts<S: Source>(lines: &mut LineReader, source: &mut S) -> Result<Counts, CertFault>
    requires limit { lines.old.limit ≡ 2 ^ 36 }
    requires few { lines.old.line + 4 < 2 ^ 26 }
    requires no_fault { lines.old.fault ≡ None }
    ensures range { IfOk result IsCountsInRange }
    ensures read { ReadsNext counts_fault 4 counts_in lines.old lines.new (seen S.left S.faults source.old source.new) result }
{
    let capacity = read_number(lines, source, b"capacity", 1, 1 << 56)?;
    let requests = read_number(lines, source, b"requests", 0, 1 << 25)?;
    let unit = read_number(lines, source, b"unit", 1, capacity)?;
    let denominator = read_number(lines, source, b"denominator", 1, 1 << 48)?;
    Ok(Counts {
        capacity: capacity as u64,
        requests: requests as u32,
        unit: unit as u64,
        denominator: denominator as u64,
    })
}

fn read_values<S: Source>(lines: &mut LineReader, source: &mut S) -> Result<Values, CertFault>
    requires limit { lines.old.limit ≡ 2 ^ 36 }
    requires few { lines.old.line + 3 < 2 ^ 26 }
    requires no_fault { lines.old.fault ≡ None }
    ensures range { IfOk result IsValuesInRange }
    ensures read { ReadsNext values_fault 3 values_in lines.old lines.new (seen S.left S.faults source.old source.new) result }
{
    let most = (1 << 127) - 1;
    Ok(Values {
        upper: read_number(lines, source, b"upper", 0, most)?,
        flow: read_number(lines, source, b"flow", 0, most)?,
        lower: read_number(lines, source, b"lower", 0, most)?,
    })
}

// Reads the last lines, and says the warm-up.
fn read_last<S: Source>(lines: &mut LineReader, source: &mut S) -> Result<u128, CertFault>
    requires limit { lines.old.limit ≡ 2 ^ 36 }
    requires few { lines.old.line + 1 < 2 ^ 26 }
    requires no_fault { lines.old.fault ≡ None }
    ensures range { IfOk result (λ warmup. warmup ≤ 2 ^ 25) }
    ensures read { ReadsNext last_fault (last_len result) first_warmup lines.old lines.new (seen S.left S.faults source.old source.new) result }
{
    let warmup = read_warmup(lines, source)?;
    if warmup == 0 {
        return Ok(0);
    }
    read_fixed(lines, source, b"records")?;
    Ok(warmup)
}

// The version whose number is the first or the second word.
fn version_of(is_first: bool) -> u8
    ensures { result ≡ (if is_first then CERT_VERSION else SHORT_VERSION) }
{
    if is_first {
        CERT_VERSION
    } else {
        SHORT_VERSION
    }
}

/// The objective whose word is the first or the second.
pub fn objective_of(of_objects: bool) -> Objective
    ensures { result ≡ (if of_objects then Objective.Object else Objective.Bytes) }
{
    if of_objects {
        Objective::Object
    } else {
        Objective::Bytes
    }
}

/// Reads the lines before the records, which are the first ones.
pub(crate) fn read_header<S: Source>(
    lines: &mut LineReader,
    source: &mut S,
) -> Result<Header, CertFault>
    requires limit { lines.old.limit ≡ 2 ^ 36 }
    requires first { lines.old.line ≡ 0 }
    requires no_fault { lines.old.fault ≡ None }
    ensures range { IfOk result IsHeaderInRange }
    ensures read { Reads header_fault (lines_read result) header_in lines.old lines.new (seen S.left S.faults source.old source.new) result }
{
    let is_first = read_choice(lines, source, b"cache-bound-certificate", b"1", b"2")?;
    let of_objects = read_choice(lines, source, b"objective", b"object", b"bytes")?;
    let counts = read_counts(lines, source)?;
    let exact = read_choice(lines, source, b"form", b"exact", b"plain")?;
    let values = read_values(lines, source)?;
    let warmup = read_last(lines, source)?;
    Ok(Header {
        objective: objective_of(of_objects),
        capacity: counts.capacity,
        requests: counts.requests,
        unit: counts.unit,
        denominator: counts.denominator,
        exact,
        upper: values.upper,
        flow: values.flow,
        lower: values.lower,
        warmup: warmup as u32,
        version: version_of(is_first),
    })
}
