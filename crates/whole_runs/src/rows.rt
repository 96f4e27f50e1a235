//! Rows, and what comes of their runs.
ghost use Rattle.std.specs.Prelude.{◌≤◌};

use crate::fault::RowFault;
use crate::said::Said;
use bound_base::NoMemory;
use bound_io::{MemSink, MemSource};
use bound_run::{Status, run};
use compared::same;
use std::alloc::Global;

/// The words of bounds in the mode that has no flow.
pub const WORDS: &str = "bounds t c format=webcache capacity=10 mode=infinite";

/// Two requests of one object.
pub const PAIR: &[u8] = b"1 7 4\n2 7 4\n";

/// The certificate of the bounds of the two requests.
pub const PAIR_CERT: &[u8] =
    b"cache-bound-certificate 1\nobjective object\ncapacity 10\nrequests 2\nunit 4\n\
denominator 1\nform plain\nupper 1\nflow 0\nlower 1\nrecords\n0 1 0\n0 0 0\nend\n";

const PAIR_REPORT: Said<'static> = Said::Bounds(
    "2 1 0, 10 object, infinite form plain, 4 2 1, 1, 1/1 1, 0/1, 1",
);

/// Three objects in turn, twice.
pub const CYCLE_TRACE: &[u8] = b"1 1 1\n2 2 1\n3 3 1\n4 1 1\n5 2 1\n6 3 1\n";

/// A device of a run.
#[derive(Clone, Copy, Debug, PartialEq, Eq)]
pub enum Device {
    /// The source of the trace.
    Trace,
    /// The source of the certificate, or of the flags.
    Cert,
    /// The sink of the report.
    Report,
    /// The sink of the certificate.
    Made,
}

/// A run, of which a call of one device may fail, and what comes of it. Calls count from 1.
#[derive(Clone, Copy)]
pub struct Row<'a> {
    pub shows: &'a str,
    pub words: &'a str,
    pub trace: &'a [u8],
    pub cert: &'a [u8],
    pub fails: Option<(Device, u64)>,
    pub status: Status,
    pub report: Said<'a>,
    pub made: &'a [u8],
    /// How many bytes may be made.
    pub room: usize,
}

/// The bounds of two requests of one object.
pub const GOOD: Row<'static> = Row {
    shows: "two requests of one object",
    words: WORDS,
    trace: PAIR,
    cert: b"",
    fails: None,
    status: Status::Done,
    report: PAIR_REPORT,
    made: PAIR_CERT,
    room: 4096,
};

/// How a run ended, and what its sinks got.
#[derive(Drop)]
pub struct Ended {
    pub status: Status,
    pub report: Vec<u8>,
    pub made: Vec<u8>,
}

/// The words of a text, with one space between them, of which one may be empty. An empty text has none.
pub fn words_of(alloc: Global, text: &str) -> Result<Vec<String>, NoMemory> {
    let mut words = Vec::new(alloc);
    if !text.is_empty() {
        for word in text.split(' ') {
            let word = String::from_str(alloc, word)?;
            words.push(word)?;
        }
    }
    Ok(words)
}

fn run_over(
    alloc: Global,
    words: &[String],
    mut trace: MemSource,
    mut cert: MemSource,
    mut report: MemSink,
    mut made: MemSink,
) -> Ended {
    let status = run(alloc, words, &mut trace, &mut cert, &mut report, &mut made);
    drop(trace);
    drop(cert);
    Ended {
        status,
        report: report.into_bytes(),
        made: made.into_bytes(),
    }
}

impl Row<'_> {
    // The calls of a device that fail.
    fn fails_of(&self, alloc: Global, device: Device) -> Result<Vec<u64>, NoMemory> {
        let mut calls = Vec::new(alloc);
        if let Some((failing, call)) = self.fails {
            if failing == device {
                calls.push(call)?;
            }
        }
        Ok(calls)
    }

    fn source(
        &self,
        alloc: Global,
        device: Device,
        bytes: &[u8],
        step: usize,
    ) -> Result<MemSource, NoMemory>
        requires { 1 ≤ step }
    {
        let fails = self.fails_of(alloc, device)?;
        let bytes = bytes.to_vec(alloc)?;
        Ok(MemSource::new(bytes, fails, step))
    }

    fn sink(&self, alloc: Global, device: Device) -> Result<MemSink, NoMemory> {
        let fails = self.fails_of(alloc, device)?;
        let room = if device == Device::Made {
            self.room
        } else {
            4096
        };
        MemSink::new(alloc, room, fails, 1)
    }

    /// Runs over memory, where a read gives this many bytes and a write takes one.
    pub fn run_at(&self, alloc: Global, step: usize) -> Result<Ended, NoMemory>
        requires { 1 ≤ step }
    {
        let words = words_of(alloc, self.words)?;
        let trace = self.source(alloc, Device::Trace, self.trace, step)?;
        let cert = self.source(alloc, Device::Cert, self.cert, step)?;
        let report = self.sink(alloc, Device::Report)?;
        let made = self.sink(alloc, Device::Made)?;
        Ok(run_over(alloc, &words, trace, cert, report, made))
    }
}

// Compares what a sink got with what is wanted, a byte at a time.
fn same_bytes<'a>(
    shows: &'a str,
    device: Device,
    found: &[u8],
    want: &[u8],
) -> Result<(), RowFault<'a>> {
    for place in 0..found.len().max(want.len()) {
        let (found, want) = (found.get(place).copied(), want.get(place).copied());
        same((shows, device, place), found, want)?;
    }
    Ok(())
}

impl Ended {
    /// Compares it with what is to come of a row, and with this report.
    pub(crate) fn compare<'a>(&self, row: &Row<'a>, report: &[u8]) -> Result<(), RowFault<'a>> {
        same(row.shows, self.status, row.status)?;
        same_bytes(row.shows, Device::Report, &self.report, report)?;
        same_bytes(row.shows, Device::Made, &self.made, row.made)
    }
}
