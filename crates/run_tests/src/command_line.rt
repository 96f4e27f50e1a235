//! Runs whose words are taken or refused.
use bound_run::{Status, WordFault};
use bound_terms::WordKind;
use std::alloc::Global;
use std::process::Abort;
use whole_runs::Said::Text;
use whole_runs::{Device, GOOD, Row, check_all};

const FIRST_ROWS: [Row<'static>; 4] = [
    Row {
        shows: "no words",
        words: "",
        status: Status::Words(WordFault {
            place: 1,
            kind: WordKind::Missing,
        }),
        report: Text(b"words: place 1: missing\n"),
        made: b"",
        ..GOOD
    },
    Row {
        shows: "a capacity is missing",
        words: "bounds t c format=webcache",
        status: Status::Words(WordFault {
            place: 5,
            kind: WordKind::Missing,
        }),
        report: Text(b"words: place 5: missing\n"),
        made: b"",
        ..GOOD
    },
    Row {
        shows: "a capacity of 0, before a word that is missing and a trace that would fail",
        words: "bounds t c format=webcache capacity=0",
        fails: Some((Device::Trace, 1)),
        status: Status::Words(WordFault {
            place: 5,
            kind: WordKind::BadValue,
        }),
        report: Text(b"words: place 5: bad value\n"),
        made: b"",
        ..GOOD
    },
    Row {
        shows: "an empty path",
        words: "bounds t  format=webcache capacity=0",
        status: Status::Words(WordFault {
            place: 3,
            kind: WordKind::BadValue,
        }),
        report: Text(b"words: place 3: bad value\n"),
        made: b"",
        ..GOOD
    },
];

const SECOND_ROWS: [Row<'static>; 4] = [
    Row {
        shows: "a block beside a form of the trace that takes none, before a word that is missing",
        words: "bounds t c block=512 format=webcache",
        fails: Some((Device::Trace, 1)),
        status: Status::Words(WordFault {
            place: 4,
            kind: WordKind::Unknown,
        }),
        report: Text(b"words: place 4: unknown\n"),
        made: b"",
        ..GOOD
    },
    Row {
        shows: "a mode that is none",
        words: "bounds t c format=webcache capacity=10 mode=flows",
        status: Status::Words(WordFault {
            place: 6,
            kind: WordKind::BadValue,
        }),
        report: Text(b"words: place 6: bad value\n"),
        made: b"",
        ..GOOD
    },
    Row {
        shows: "a seventh word",
        words: "bounds t c format=webcache capacity=10 mode=infinite more",
        status: Status::Words(WordFault {
            place: 7,
            kind: WordKind::Unknown,
        }),
        report: Text(b"words: place 7: unknown\n"),
        made: b"",
        ..GOOD
    },
    Row {
        shows: "a capacity that stood before",
        words: "bounds t c format=webcache capacity=10 capacity=10",
        status: Status::Words(WordFault {
            place: 6,
            kind: WordKind::Twice,
        }),
        report: Text(b"words: place 6: twice\n"),
        made: b"",
        ..GOOD
    },
];

const THIRD_ROWS: [Row<'static>; 2] = [
    Row {
        shows: "a capacity is missing after the last word",
        words: "bounds t c mode=infinite format=webcache",
        status: Status::Words(WordFault {
            place: 6,
            kind: WordKind::Missing,
        }),
        report: Text(b"words: place 6: missing\n"),
        made: b"",
        ..GOOD
    },
    Row {
        shows: "operands in another order, with the objective",
        words: "bounds t c objective=object mode=infinite capacity=010 format=webcache",
        ..GOOD
    },
];

fn check_first_rows(rt: &impl Abort, alloc: Global) {
    check_all(alloc, &FIRST_ROWS).expect(rt, "a row");
}

fn check_second_rows(rt: &impl Abort, alloc: Global) {
    check_all(alloc, &SECOND_ROWS).expect(rt, "a row");
}

fn check_third_rows(rt: &impl Abort, alloc: Global) {
    check_all(alloc, &THIRD_ROWS).expect(rt, "a row");
}

#[test]
fn words_are_taken_or_refused_at_their_place(rt: HostRuntime) {
    check_first_rows(&rt, rt.alloc());
    check_second_rows(&rt, rt.alloc());
    check_third_rows(&rt, rt.alloc());
}
