//! A certificate that fails early, of 20,000 records beside as many requests: how much is read of either.
use super::*;
use bound_io::{MemSink, MemSource, Source};
use bound_run::run;
use compared::{holds, same};
use whole_runs::words_of;

const HEAD: &str =
    "cache-bound-certificate 1\nobjective object\ncapacity 10\nrequests 20000\nunit 4\n\
denominator 1\nform plain\nupper 0\nflow 0\nlower 0\nrecords\n0 1 9\n";

// Of either source all but 19,999 lines of 6 bytes is needed, and a buffer of 65,536 bytes may be read beyond that.
const LEAST_LEFT: usize = 119994 - 65536;

// A source of a beginning and a line that is repeated, which gives all that fits at once.
fn source_of(rt: &impl Abort, alloc: Global, begins: &str, line: &str, times: usize) -> MemSource {
    let more = line.repeat(alloc, times).expect(rt, "memory");
    let mut bytes = begins.as_bytes().to_vec(alloc).expect(rt, "memory");
    bytes
        .extend_from_slice(more.as_bytes())
        .expect(rt, "memory");
    MemSource::new(bytes, Vec::new(alloc), 200000)
}

// How many bytes a source has left.
fn left_in(rt: &impl Abort, alloc: Global, mut source: MemSource) -> usize {
    let mut rest = vec![in alloc; 0; 200000].expect(rt, "memory");
    let left = source.read(&mut rest).unwrap_or(0);
    drop(source);
    left
}

#[test]
fn little_is_read_beyond_the_line_that_fails(rt: HostRuntime) {
    let alloc = rt.alloc();
    let words = words_of(alloc, WORDS).expect(&rt, "memory");
    let mut trace = source_of(&rt, alloc, "", "1 7 4\n", 20000);
    let mut cert = source_of(&rt, alloc, HEAD, "0 0 0\n", 19999);
    let mut report = MemSink::new(alloc, 4096, Vec::new(alloc), 1).expect(&rt, "memory");
    let mut made = MemSink::new(alloc, 4096, Vec::new(alloc), 1).expect(&rt, "memory");
    let status = run(alloc, &words, &mut trace, &mut cert, &mut report, &mut made);
    let kind = InvalidKind::FlowAboveWeight { flow: 9, weight: 1 };
    same("the status", status, Status::Invalid { line: 12, kind }).expect(&rt, "a row");
    drop(made);
    drop(report);
    holds("the trace", left_in(&rt, alloc, trace) >= LEAST_LEFT).expect(&rt, "a row");
    holds("the certificate", left_in(&rt, alloc, cert) >= LEAST_LEFT).expect(&rt, "a row");
}
