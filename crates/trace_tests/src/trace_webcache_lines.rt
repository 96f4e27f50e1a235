//! `trace_webcache`: lines of webcache traces, read by hand.
use compared::same;
use trace_lines::{LineKind, Span};
use trace_webcache::{MarkedSpan, parse, parse_marked};

type Answer = Result<Span, LineKind>;

const PAIR: Answer = Ok(Span::One { id: 7, size: 4 });

const FEW: Answer = Err(LineKind::TooFewWords);

const BAD_ID: Answer = Err(LineKind::BadNumber { word: 2 });

const BAD_SIZE: Answer = Err(LineKind::BadNumber { word: 3 });

const ROWS: [(&[u8], Answer); 27] = [
    (b"1 7 4", PAIR),
    (b"1\t7\t4", PAIR),
    (b" \t1  7 \t4\t ", PAIR),
    (b"1 7 4 get 200", PAIR),
    (b"x 7 4", PAIR),
    (b"1.5 007 0004", PAIR),
    (b"1 0 1", Ok(Span::One { id: 0, size: 1 })),
    (
        b"1 18446744073709551615 4",
        Ok(Span::One {
            id: 18446744073709551615,
            size: 4,
        }),
    ),
    (
        b"1 7 281474976710656",
        Ok(Span::One {
            id: 7,
            size: 281474976710656,
        }),
    ),
    (b"1 7 0", Ok(Span::Nothing)),
    (b"1 7 000", Ok(Span::Nothing)),
    (b"", FEW),
    (b"  ", FEW),
    (b"1", FEW),
    (b"1 7", FEW),
    (b"1 x ", FEW),
    (b"1 x 4", BAD_ID),
    (b"1 x y", BAD_ID),
    (b"1 -7 4", BAD_ID),
    (b"1 18446744073709551616 4", BAD_ID),
    (b"1 18446744073709551616 0", BAD_ID),
    (b"1 7 y", BAD_SIZE),
    (b"1 7 4,5", BAD_SIZE),
    (b"1 7 4\r", BAD_SIZE),
    (b"1 7 18446744073709551616", BAD_SIZE),
    (b"1 7 281474976710657", Err(LineKind::SizeTooLarge)),
    (b"1 7 18446744073709551615", Err(LineKind::SizeTooLarge)),
];

#[test]
fn gives_an_id_and_a_size_or_the_first_fault(rt: HostRuntime) {
    for (line, want) in &ROWS {
        same(*line, parse(line), *want).expect(&rt, "a row");
    }
}

type MarkedAnswer = Result<MarkedSpan, LineKind>;

const COUNTS: MarkedAnswer = Ok(MarkedSpan {
    span: Span::One { id: 7, size: 4 },
    fills: false,
});

const FILLS: MarkedAnswer = Ok(MarkedSpan {
    span: Span::One { id: 7, size: 4 },
    fills: true,
});

const NO_MARK: MarkedAnswer = Err(LineKind::BadType);

const MARKED_ROWS: [(&[u8], MarkedAnswer); 27] = [
    (b"1 7 4 r", COUNTS),
    (b"1 7 4 w", FILLS),
    (b" x\t007  4 \tw\t ", FILLS),
    (b"1 7 4 r w", COUNTS),
    (b"1 7 4 w r 200", FILLS),
    (
        b"1 7 0 r",
        Ok(MarkedSpan {
            span: Span::Nothing,
            fills: false,
        }),
    ),
    (
        b"1 7 00 w",
        Ok(MarkedSpan {
            span: Span::Nothing,
            fills: true,
        }),
    ),
    (
        b"1 18446744073709551615 281474976710656 w",
        Ok(MarkedSpan {
            span: Span::One {
                id: 18446744073709551615,
                size: 281474976710656,
            },
            fills: true,
        }),
    ),
    (b"", Err(LineKind::TooFewWords)),
    (b"1 7", Err(LineKind::TooFewWords)),
    (b"1 7 4", Err(LineKind::TooFewWords)),
    (b"1 7 0 ", Err(LineKind::TooFewWords)),
    (b"1 x y", Err(LineKind::TooFewWords)),
    (b"1 x y z", Err(LineKind::BadNumber { word: 2 })),
    (
        b"1 18446744073709551616 4 r",
        Err(LineKind::BadNumber { word: 2 }),
    ),
    (b"1 7 y z", Err(LineKind::BadNumber { word: 3 })),
    (b"1 7 4,5 w", Err(LineKind::BadNumber { word: 3 })),
    (b"1 7 r w", Err(LineKind::BadNumber { word: 3 })),
    (b"1 7 281474976710657 r", Err(LineKind::SizeTooLarge)),
    (b"1 7 281474976710657 x", Err(LineKind::SizeTooLarge)),
    (b"1 7 4 x", NO_MARK),
    (b"1 7 4 R", NO_MARK),
    (b"1 7 4 W", NO_MARK),
    (b"1 7 4 rw", NO_MARK),
    (b"1 7 4 get r", NO_MARK),
    (b"1 7 4 w\r", NO_MARK),
    (b"1 7 0 x", NO_MARK),
];

#[test]
fn gives_a_mark_beside_them_or_the_first_fault(rt: HostRuntime) {
    for (line, want) in &MARKED_ROWS {
        same(*line, parse_marked(line), *want).expect(&rt, "a row");
    }
}
