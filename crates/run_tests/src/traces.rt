//! Lines of traces that are read, skipped or refused.
ghost use Rattle.std.specs.Prelude.{◌≤◌};

use bound_run::Status;
use compared::same;
use std::alloc::Global;
use std::process::Abort;
use trace_lines::LineKind;
use whole_runs::Said::{Bounds, Text};
use whole_runs::{GOOD, Row, check_at};

const MSR_WORDS: &str = "bounds t c format=msr capacity=12288 mode=infinite";

// Traces with all that a line may have, and the lines that are refused.
const FIRST_TRACE_ROWS: [Row<'static>; 3] = [
    Row {
        shows: "a CR before the LF, and no LF at the end",
        trace: b"1 7 4\r\n2 7 4",
        ..GOOD
    },
    Row {
        shows: "a line that asks for no byte",
        trace: b"1 7 4\n5 7 0\n6 7 4\n",
        report: Bounds("2 1 1, 10 object, infinite form plain, 4 2 1, 1, 1/1 1, 0/1, 1"),
        ..GOOD
    },
    Row {
        shows: "tabs, further words, leading zeros, a time that is no number, and blank lines",
        trace: b"\n \t\nnoon\t7  04 GET\n\r\n\t2 007\t4\t\r\n",
        ..GOOD
    },
];

const SECOND_TRACE_ROWS: [Row<'static>; 3] = [
    Row {
        shows: "a hit gains its bytes",
        words: "bounds t c objective=bytes format=webcache capacity=5 mode=infinite",
        trace: b"1 1 2\n2 2 3\n3 1 2\n4 2 3\n",
        report: Bounds("4 2 0, 5 bytes, infinite form plain, 1 5 1, 2, 5/1 5, 0/1, 5"),
        made: b"cache-bound-certificate 1\nobjective bytes\ncapacity 5\nrequests 4\nunit 1\n\
denominator 1\nform plain\nupper 5\nflow 0\nlower 5\nrecords\n0 1 0\n0 1 0\n0 0 0\n0 0 0\nend\n",
        ..GOOD
    },
    Row {
        shows: "the largest size, above the capacity",
        trace: b"1 7 281474976710656\n",
        report: Bounds("1 1 0, 10 object, infinite form plain, 1 10 1, 0, 0/1 0, 0/1, 0"),
        made: b"cache-bound-certificate 1\nobjective object\ncapacity 10\nrequests 1\nunit 1\n\
denominator 1\nform plain\nupper 0\nflow 0\nlower 0\nrecords\n0 0 0\nend\n",
        ..GOOD
    },
    Row {
        shows: "a size past the largest",
        trace: b"1 7 281474976710657\n",
        status: Status::BadLine {
            line: 1,
            kind: LineKind::SizeTooLarge,
        },
        report: Text(b"bad line 1: size too large\n"),
        made: b"",
        ..GOOD
    },
];

const THIRD_TRACE_ROWS: [Row<'static>; 3] = [
    Row {
        shows: "an id that is no number",
        trace: b"1 7 4\n2 x 4\n",
        status: Status::BadLine {
            line: 2,
            kind: LineKind::BadNumber { word: 2 },
        },
        report: Text(b"bad line 2: number in word 2\n"),
        made: b"",
        ..GOOD
    },
    Row {
        shows: "a size that is no number, after a line that is skipped",
        trace: b"1 7 4\n\n3 7 4x\n4 x 4\n",
        status: Status::BadLine {
            line: 3,
            kind: LineKind::BadNumber { word: 3 },
        },
        report: Text(b"bad line 3: number in word 3\n"),
        made: b"",
        ..GOOD
    },
    Row {
        shows: "a line of two words",
        trace: b"1 7",
        status: Status::BadLine {
            line: 1,
            kind: LineKind::TooFewWords,
        },
        report: Text(b"bad line 1: too few words\n"),
        made: b"",
        ..GOOD
    },
];

// Block traces, and the lines of them that are refused.
const FIRST_BLOCK_ROWS: [Row<'static>; 3] = [
    Row {
        shows: "ranges of blocks",
        words: "bounds t c format=arc capacity=1024 mode=infinite",
        trace: b"10 3 0 1\n11 2 0 2\n",
        report: Bounds("5 3 0, 1024 object, infinite form plain, 512 2 1, 2, 2/1 2, 0/1, 2"),
        made: b"cache-bound-certificate 1\nobjective object\ncapacity 1024\nrequests 5\nunit 512\n\
denominator 1\nform plain\nupper 2\nflow 0\nlower 2\nrecords\n0 0 0\n0 1 0\n0 1 0\n0 0 0\n0 0 0\nend\n",
        ..GOOD
    },
    Row {
        shows: "the blocks of two reads, of the usual size",
        words: MSR_WORDS,
        trace: b"128166372003061629,usr,0,Read,7014609920,24576,41286\n\
128166372003061629,usr,0,Read,7014609920,24576,41286\n",
        report: Bounds("14 7 0, 12288 object, infinite form plain, 4096 3 1, 7, 7/1 7, 0/1, 3"),
        made: b"cache-bound-certificate 1\nobjective object\ncapacity 12288\nrequests 14\nunit 4096\n\
denominator 1\nform plain\nupper 7\nflow 0\nlower 3\nrecords\n0 1 0\n0 1 0\n0 1 0\n0 0 0\n0 0 0\n0 0 0\n\
0 0 0\n0 0 0\n0 0 0\n0 0 0\n0 0 0\n0 0 0\n0 0 0\n0 0 0\nend\n",
        ..GOOD
    },
    Row {
        shows: "a range past the last block",
        words: "bounds t c format=arc capacity=1024 mode=infinite",
        trace: b"18446744073709551615 2 0 1\n",
        status: Status::BadLine {
            line: 1,
            kind: LineKind::BadRange,
        },
        report: Text(b"bad line 1: block range\n"),
        made: b"",
        ..GOOD
    },
];

const SECOND_BLOCK_ROWS: [Row<'static>; 2] = [
    Row {
        shows: "a type that is none",
        words: MSR_WORDS,
        trace: b"1,h,0,Trim,0,512,1\n",
        status: Status::BadLine {
            line: 1,
            kind: LineKind::BadType,
        },
        report: Text(b"bad line 1: type\n"),
        made: b"",
        ..GOOD
    },
    Row {
        shows: "a quote",
        words: MSR_WORDS,
        trace: b"1,\"h\",0,Read,0,512,1\n",
        status: Status::BadLine {
            line: 1,
            kind: LineKind::QuoteByte,
        },
        report: Text(b"bad line 1: quote\n"),
        made: b"",
        ..GOOD
    },
];

// The same, however the bytes of the trace are cut.
fn check_steps(rt: &impl Abort, alloc: Global, row: &Row<'_>) {
    for step in [1, 2, 7, 65535, 65536, 65537] {
        check_at(alloc, row, step).expect(rt, "a row");
    }
}

fn check_first_trace_rows(rt: &impl Abort, alloc: Global) {
    for row in &FIRST_TRACE_ROWS {
        check_steps(rt, alloc, row);
    }
}

fn check_second_trace_rows(rt: &impl Abort, alloc: Global) {
    for row in &SECOND_TRACE_ROWS {
        check_steps(rt, alloc, row);
    }
}

fn check_third_trace_rows(rt: &impl Abort, alloc: Global) {
    for row in &THIRD_TRACE_ROWS {
        check_steps(rt, alloc, row);
    }
}

#[test]
fn traces_are_read_or_refused_at_their_line(rt: HostRuntime) {
    check_first_trace_rows(&rt, rt.alloc());
    check_second_trace_rows(&rt, rt.alloc());
    check_third_trace_rows(&rt, rt.alloc());
}

fn check_first_block_rows(rt: &impl Abort, alloc: Global) {
    for row in &FIRST_BLOCK_ROWS {
        check_steps(rt, alloc, row);
    }
}

fn check_second_block_rows(rt: &impl Abort, alloc: Global) {
    for row in &SECOND_BLOCK_ROWS {
        check_steps(rt, alloc, row);
    }
}

#[test]
fn block_traces_are_read_or_refused_at_their_line(rt: HostRuntime) {
    check_first_block_rows(&rt, rt.alloc());
    check_second_block_rows(&rt, rt.alloc());
}

// A line of one request, whose text has this many bytes.
fn padded(rt: &impl Abort, alloc: Global, bytes: usize) -> Vec<u8> {
    let mut text = b"1 7 4".to_vec(alloc).expect(rt, "memory");
    for _ in text.len()..bytes {
        text.push(b' ').expect(rt, "memory");
    }
    text.push(b'\n').expect(rt, "memory");
    text
}

// A run over a trace of one line with this many bytes of text, read in steps.
fn check_long(rt: &impl Abort, alloc: Global, bytes: usize, step: usize, status: Status)
    requires { 1 ≤ step }
{
    let trace = padded(rt, alloc, bytes);
    let row = Row {
        trace: &trace,
        ..GOOD
    };
    let ended = row.run_at(alloc, step).expect(rt, "memory");
    same((bytes, step), ended.status, status).expect(rt, "a row");
    drop(ended);
}

const LONG: Status = Status::BadLine {
    line: 1,
    kind: LineKind::TooLong,
};

#[test]
fn a_text_has_at_most_65535_bytes(rt: HostRuntime) {
    for step in [7, 65535, 65536, 65537] {
        check_long(&rt, rt.alloc(), 65535, step, Status::Done);
        check_long(&rt, rt.alloc(), 65536, step, LONG);
    }
}
