//! `trace_arc`: lines of ARC traces, read by hand.
use compared::same;
use trace_arc::parse;
use trace_lines::{LineKind, Span};

// A line, its first block, and the number of its blocks.
const READ: [(&[u8], u64, u64); 12] = [
    (b"10 3", 10, 3),
    (b"10\t3", 10, 3),
    (b" \t10 \t 3\t ", 10, 3),
    (b"10 3 0 1", 10, 3),
    (b"10 3 x", 10, 3),
    (b"0010 0003", 10, 3),
    (b"0 1", 0, 1),
    (b"18446744073709551615 1", 18446744073709551615, 1),
    (b"18446744073709551614 2", 18446744073709551614, 2),
    (
        b"9223372036854775808 9223372036854775808",
        9223372036854775808,
        9223372036854775808,
    ),
    (b"0 18446744073709551615", 0, 18446744073709551615),
    (b"1 18446744073709551615", 1, 18446744073709551615),
];

#[test]
fn gives_a_first_block_and_a_count(rt: HostRuntime) {
    for (line, first, count) in &READ {
        let span = Span::Blocks {
            first: *first,
            count: *count,
            size: 512,
        };
        same(*line, parse(line), Ok(span)).expect(&rt, "a row");
    }
}

type Answer = Result<Span, LineKind>;

const FEW: Answer = Err(LineKind::TooFewWords);

const BAD_FIRST: Answer = Err(LineKind::BadNumber { word: 1 });

const BAD_COUNT: Answer = Err(LineKind::BadNumber { word: 2 });

const PAST_64_BITS: Answer = Err(LineKind::BadRange);

const WITHOUT_BLOCKS: [(&[u8], Answer); 23] = [
    (b"5 0", Ok(Span::Nothing)),
    (b"0 0 7", Ok(Span::Nothing)),
    (b"5\t000", Ok(Span::Nothing)),
    (b"18446744073709551615 0", Ok(Span::Nothing)),
    (b"", FEW),
    (b" \t ", FEW),
    (b"10", FEW),
    (b"\tx ", FEW),
    (b"10,3", FEW),
    (b"x 0", BAD_FIRST),
    (b"x y", BAD_FIRST),
    (b"-10 3", BAD_FIRST),
    (b"18446744073709551616 0", BAD_FIRST),
    (b"18446744073709551616 y", BAD_FIRST),
    (b"0 x", BAD_COUNT),
    (b"10 +3", BAD_COUNT),
    (b"10 3\r", BAD_COUNT),
    (b"18446744073709551615 2x", BAD_COUNT),
    (b"10 18446744073709551616", BAD_COUNT),
    (b"18446744073709551615 2", PAST_64_BITS),
    (b"2 18446744073709551615", PAST_64_BITS),
    (b"9223372036854775808 9223372036854775809 1", PAST_64_BITS),
    (b"18446744073709551615 18446744073709551615", PAST_64_BITS),
];

#[test]
fn asks_for_nothing_or_names_the_first_check_that_fails(rt: HostRuntime) {
    for (line, want) in &WITHOUT_BLOCKS {
        same(*line, parse(line), *want).expect(&rt, "a row");
    }
}
