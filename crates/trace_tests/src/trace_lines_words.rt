//! `trace_lines`: words and fields of lines, taken apart by hand.
use compared::{holds, same};
use trace_lines::{field, first_field, first_word, is_blank, trim_cr, word};

// The field with that number where the mark is a comma, else the word.
fn part(mark: u8, line: &[u8], number: usize) -> Option<&[u8]> {
    if number == 0 {
        None
    } else if mark == b',' {
        field(line, number)
    } else {
        word(line, number)
    }
}

const FOUND: [(u8, &[u8], usize, &[u8]); 18] = [
    (b',', b"1,7,4", 1, b"1"),
    (b',', b"1,7,4", 2, b"7"),
    (b',', b"1,7,4", 3, b"4"),
    (b',', b",a,", 1, b""),
    (b',', b",a,", 2, b"a"),
    (b',', b",a,", 3, b""),
    (b',', b"a,,b", 2, b""),
    (b',', b"a,,b", 3, b"b"),
    (b',', b" a\t,b", 1, b" a\t"),
    (b',', b"", 1, b""),
    (b' ', b"1 7 4", 1, b"1"),
    (b' ', b"1 7 4", 3, b"4"),
    (b' ', b"time\tid\tsize", 2, b"id"),
    (b' ', b"time\t \tid  \t size", 2, b"id"),
    (b' ', b"time\t \tid  \t size", 3, b"size"),
    (b' ', b" \ta b\t ", 1, b"a"),
    (b' ', b" \ta b\t ", 2, b"b"),
    (b' ', b"a\rb\n c", 1, b"a\rb\n"),
];

#[test]
fn finds_fields_and_words_by_number(rt: HostRuntime) {
    for (mark, line, number, found) in &FOUND {
        let part = part(*mark, line, *number);
        same(*line, part, Some(*found)).expect(&rt, "a row");
    }
}

const MISSING: [(u8, &[u8], usize); 7] = [
    (b',', b"1,7,4", 4),
    (b',', b",a,", 4),
    (b',', b"", 2),
    (b' ', b"1 7 4", 4),
    (b' ', b" \ta b\t ", 3),
    (b' ', b" \t ", 1),
    (b' ', b"", 1),
];

#[test]
fn finds_no_field_or_word_past_the_last(rt: HostRuntime) {
    for (mark, line, number) in &MISSING {
        holds(*line, *number >= 1).expect(&rt, "a row");
        holds(*line, part(*mark, line, *number).is_none()).expect(&rt, "a row");
    }
}

const FIRST_FIELDS: [(&[u8], &[u8], &[u8]); 5] = [
    (b"1,7,4", b"1", b"7,4"),
    (b" a\t,b", b" a\t", b"b"),
    (b",a", b"", b"a"),
    (b",,", b"", b","),
    (b"12,", b"12", b""),
];

#[test]
fn takes_the_first_field_off(rt: HostRuntime) {
    for (line, first, rest) in &FIRST_FIELDS {
        same(*line, first_field(line), (*first, Some(*rest))).expect(&rt, "a row");
    }
}

const ONE_FIELD: [&[u8]; 2] = [b"12", b""];

#[test]
fn leaves_nothing_after_the_last_field(rt: HostRuntime) {
    for line in &ONE_FIELD {
        same(*line, first_field(line), (*line, None)).expect(&rt, "a row");
    }
}

const FIRST_WORDS: [(&[u8], &[u8], &[u8]); 5] = [
    (b"1 7 4", b"1", b" 7 4"),
    (b" \t12\t 7", b"12", b"\t 7"),
    (b"12", b"12", b""),
    (b"12  ", b"12", b"  "),
    (b"  12", b"12", b""),
];

#[test]
fn takes_the_first_word_off(rt: HostRuntime) {
    for (line, first, rest) in &FIRST_WORDS {
        same(*line, first_word(line), Some((*first, *rest))).expect(&rt, "a row");
    }
}

const BLANKS: [(&[u8], bool); 8] = [
    (b"", true),
    (b" ", true),
    (b" \t", true),
    (b"\t \t", true),
    (b"a", false),
    (b"  a ", false),
    (b"\r", false),
    (b"\0", false),
];

#[test]
fn knows_a_blank_line_which_has_no_first_word(rt: HostRuntime) {
    for (line, blank) in &BLANKS {
        let found = (is_blank(line), first_word(line).is_none());
        same(*line, found, (*blank, *blank)).expect(&rt, "a row");
    }
}

const TRIMMED: [(&[u8], &[u8]); 7] = [
    (b"a\r", b"a"),
    (b"a\r\r", b"a\r"),
    (b"\r", b""),
    (b"", b""),
    (b"a\rb", b"a\rb"),
    (b"a", b"a"),
    (b"\ra", b"\ra"),
];

#[test]
fn drops_one_last_cr(rt: HostRuntime) {
    for (line, text) in &TRIMMED {
        same(*line, trim_cr(line), *text).expect(&rt, "a row");
    }
}
