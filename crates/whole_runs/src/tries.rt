//! What tries rows: as they are, and with each call of a device failing in turn.
ghost use Rattle.std.specs.Prelude.{◌≤◌};

use crate::fault::RowFault;
use crate::rows::{Device, Ended, GOOD, Row};
use bound_run::Status;
use compared::{holds, same};
use std::alloc::Global;

/// Runs over memory, a byte a call.
pub fn check<'a>(alloc: Global, row: &Row<'a>) -> Result<(), RowFault<'a>> {
    check_at(alloc, row, 1)
}

/// Runs over memory, where a read gives this many bytes, and compares the status and what the sinks got.
pub fn check_at<'a>(alloc: Global, row: &Row<'a>, step: usize) -> Result<(), RowFault<'a>>
    requires { 1 ≤ step }
{
    let report = row.report.text(alloc)?;
    check_said(alloc, row, step, report.as_bytes())
}

// The same, beside this report.
fn check_said<'a>(
    alloc: Global,
    row: &Row<'a>,
    step: usize,
    report: &[u8],
) -> Result<(), RowFault<'a>>
    requires { 1 ≤ step }
{
    let ended = row.run_at(alloc, step)?;
    let compared = ended.compare(row, report);
    drop(ended);
    compared
}

/// Runs each row over memory, a byte a call.
pub fn check_all<'a>(alloc: Global, rows: &[Row<'a>]) -> Result<(), RowFault<'a>> {
    for row in rows {
        check(alloc, row)?;
    }
    Ok(())
}

/// Runs the row with each of the first reads of a device failing in turn.
pub fn check_reads<'a>(
    alloc: Global,
    device: Device,
    reads: usize,
    row: &Row<'a>,
) -> Result<(), RowFault<'a>> {
    for read in 0..reads {
        let mut failing = *row;
        failing.fails = Some((device, read as u64 + 1));
        check(alloc, &failing)?;
    }
    Ok(())
}

/// Runs the row with each write of the report failing in turn, so that the report has what was written before it.
pub fn check_report_writes<'a>(alloc: Global, row: &Row<'a>) -> Result<(), RowFault<'a>> {
    let report = row.report.text(alloc)?;
    for taken in 0..report.len() {
        let mut failing = *row;
        failing.fails = Some((Device::Report, taken as u64 + 1));
        check_said(alloc, &failing, 1, &report.as_bytes()[..taken])?;
    }
    Ok(())
}

/// Runs the row with each write of the certificate failing in turn, so that it has what was written before it.
pub fn check_made_writes<'a>(alloc: Global, row: &Row<'a>) -> Result<(), RowFault<'a>> {
    for taken in 0..row.made.len() {
        let mut failing = *row;
        failing.fails = Some((Device::Made, taken as u64 + 1));
        failing.made = &row.made[..taken];
        check(alloc, &failing)?;
    }
    Ok(())
}

/// What comes of a run that is to end well.
pub fn done<'a>(alloc: Global, row: &Row<'a>) -> Result<Ended, RowFault<'a>> {
    let ended = row.run_at(alloc, 4096)?;
    same(row.shows, ended.status, Status::Done)?;
    Ok(ended)
}

/// Checks a certificate that bounds made.
pub fn check_accepted<'a>(
    alloc: Global,
    words: &'a str,
    trace: &'a [u8],
    cert: &'a [u8],
) -> Result<(), RowFault<'a>> {
    let row = Row {
        shows: words,
        words,
        trace,
        cert,
        ..GOOD
    };
    let ended = done(alloc, &row)?;
    let is_yes = ended.report.ends_with(b"\nvalid\n") && ended.made.is_empty();
    drop(ended);
    holds(words, is_yes)?;
    Ok(())
}
