//! What the program says to a person: the text of a stranger, and what is remembered of a report.
use bound_advice::{Told, escaped};
use bound_io::{MemSink, Sink};
use compared::same;

// Texts, and what a terminal is sent of them.
const TEXTS: [(&str, &str); 3] = [
    ("a title \x1b]0;x\x07", "a title \\x1b]0;x\\x07"),
    ("a line\r\nand another", "a line\\x0d\\x0aand another"),
    ("ä\u{7f}\u{9b}[2J", "ä\\x7f\\x9b[2J"),
];

#[test]
fn control_characters_stand_as_their_codes(rt: HostRuntime) {
    for (text, shown) in &TEXTS {
        let found = escaped(rt.alloc(), text).expect(&rt, "memory");
        same(*text, found.as_str(), *shown).expect(&rt, "a row");
    }
}

#[test]
fn a_report_that_is_taken_in_part_is_remembered_in_part(rt: HostRuntime) {
    let alloc = rt.alloc();
    let sink = MemSink::new(alloc, 16, Vec::new(alloc), 2).expect(&rt, "memory");
    let mut told = Told::new(sink);
    same("what is taken", told.write(b"abc"), Ok(2)).expect(&rt, "a row");
    same("what is remembered", told.start(), b"ab").expect(&rt, "a row");
    drop(told);
}
