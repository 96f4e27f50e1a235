//! `trace_msr`: lines of MSR traces, read by hand.
use compared::{holds, same};
use trace_lines::{LineKind, Span};
use trace_msr::{MsrLine, parse};

// The bytes of a block, a line, its host and disk, its first block, the number of its blocks, which may be none, and
// whether they only fill.
type Row = (u64, &'static [u8], &'static [u8], u64, u64, u64, bool);

const ROWS: [Row; 30] = [
    (
        4096,
        b"128166372003061629,usr,0,Read,0,1,41286",
        b"usr",
        0,
        0,
        1,
        false,
    ),
    (4096, b"1,h,1,WRITE,0,1", b"h", 1, 0, 1, true),
    (4096, b"1,h,1,rEaD,0,1,9", b"h", 1, 0, 1, false),
    (4096, b"1,h,1,write,0,1,9", b"h", 1, 0, 1, true),
    (4096, b"1,h,0012,Read,0,1,x,y,z", b"h", 12, 0, 1, false),
    (
        4096,
        b"1,h,18446744073709551615,Read,0,1,",
        b"h",
        18446744073709551615,
        0,
        1,
        false,
    ),
    (4096, b"1,,2,Read,0,1,9", b"", 2, 0, 1, false),
    (4096, b",h,2,Read,0,1,9", b"h", 2, 0, 1, false),
    (4096, b"x, a\tb ,2,Read,0,1,9", b" a\tb ", 2, 0, 1, false),
    (
        4096,
        b"1,h,0,Read,7014609920,24576,41286",
        b"h",
        0,
        1712551,
        7,
        false,
    ),
    (4096, b"1,h,0,Read,0,1,9", b"h", 0, 0, 1, false),
    (4096, b"1,h,0,Read,0,4096,9", b"h", 0, 0, 1, false),
    (4096, b"1,h,0,Read,0,4097,9", b"h", 0, 0, 2, false),
    (4096, b"1,h,0,Read,4095,1,9", b"h", 0, 0, 1, false),
    (4096, b"1,h,0,Read,4095,2,9", b"h", 0, 0, 2, false),
    (4096, b"1,h,0,Read,4096,4096,9", b"h", 0, 1, 1, false),
    (4096, b"1,h,0,Read,100,8192,9", b"h", 0, 0, 3, false),
    (
        4096,
        b"1,h,0,Read,18446744073709551615,1,9",
        b"h",
        0,
        4503599627370495,
        1,
        false,
    ),
    (
        4096,
        b"1,h,0,Read,0,18446744073709551615,9",
        b"h",
        0,
        0,
        4503599627370496,
        false,
    ),
    (3, b"1,h,0,Read,0002,0002,9", b"h", 0, 0, 2, false),
    (1, b"1,h,0,Read,5,3,9", b"h", 0, 5, 3, false),
    (
        1,
        b"1,h,0,Read,0,18446744073709551615,9",
        b"h",
        0,
        0,
        18446744073709551615,
        false,
    ),
    (
        1,
        b"1,h,0,Read,1,18446744073709551615,9",
        b"h",
        0,
        1,
        18446744073709551615,
        false,
    ),
    (
        281474976710656,
        b"1,h,0,Read,281474976710655,1,9",
        b"h",
        0,
        0,
        1,
        false,
    ),
    (
        281474976710656,
        b"1,h,0,Read,281474976710655,2,9",
        b"h",
        0,
        0,
        2,
        false,
    ),
    (
        281474976710656,
        b"1,h,0,Read,18446744073709551615,1,9",
        b"h",
        0,
        65535,
        1,
        false,
    ),
    (4096, b"3,h,7,Read,0,0,9", b"h", 7, 0, 0, false),
    (4096, b"3,h,7,Read,4095,000,9", b"h", 7, 0, 0, false),
    (4096, b"3,h,7,Write,1,0", b"h", 7, 0, 0, true),
    (
        4096,
        b"3,h,7,Write,18446744073709551615,0",
        b"h",
        7,
        0,
        0,
        true,
    ),
];

// What a line of the row is read as.
fn line_of(row: &Row) -> MsrLine<'static> {
    let (size, _, host, disk, first, count, fills) = *row;
    let span = if count == 0 {
        Span::Nothing
    } else {
        Span::Blocks { first, count, size }
    };
    MsrLine {
        host,
        disk,
        span,
        fills,
    }
}

#[test]
fn gives_a_host_a_disk_and_each_block_that_is_touched(rt: HostRuntime) {
    for row in &ROWS {
        let (block, line) = (row.0, row.1);
        holds(line, block >= 1 && block <= 1 << 48).expect(&rt, "a row");
        same((line, block), parse(line, block), Ok(line_of(row))).expect(&rt, "a row");
    }
}

const QUOTE: LineKind = LineKind::QuoteByte;

const FEW: LineKind = LineKind::TooFewWords;

const BAD_DISK: LineKind = LineKind::BadNumber { word: 3 };

const BAD_TYPE: LineKind = LineKind::BadType;

const BAD_OFFSET: LineKind = LineKind::BadNumber { word: 5 };

const BAD_SIZE: LineKind = LineKind::BadNumber { word: 6 };

const PAST_64_BITS: LineKind = LineKind::BadRange;

const REFUSED: [(&[u8], LineKind); 35] = [
    (b"\"", QUOTE),
    (b"1,\"h\",0,Read,0,512,1", QUOTE),
    (b"1,h,x,Trim,y,z,\"", QUOTE),
    (b"\"1,h,0,Read,0", QUOTE),
    (b"", FEW),
    (b"1 h 0 Read 0 512 1", FEW),
    (b"1,h,0,Read,0", FEW),
    (b"1,h,x,Trim,y", FEW),
    (b",,,,", FEW),
    (b",,,,,", BAD_DISK),
    (b"1,h,x,Trim,y,z,9", BAD_DISK),
    (b"1,h,-1,Read,0,512,9", BAD_DISK),
    (b"1,h, 1,Read,0,512,9", BAD_DISK),
    (b"1,h,18446744073709551616,Read,0,0,9", BAD_DISK),
    (b"1,h,0,Trim,0,512,1", BAD_TYPE),
    (b"1,h,0,Trim,x,y,9", BAD_TYPE),
    (b"1,h,0,,0,512,9", BAD_TYPE),
    (b"1,h,0,R,0,512,9", BAD_TYPE),
    (b"1,h,0,Reads,0,512,9", BAD_TYPE),
    (b"1,h,0,Writ,0,512,9", BAD_TYPE),
    (b"1,h,0,Read ,0,512,9", BAD_TYPE),
    (b"1,h,0,Trim,0,0,9", BAD_TYPE),
    (b"1,h,0,Read,x,y,9", BAD_OFFSET),
    (b"1,h,0,Read,,512,9", BAD_OFFSET),
    (b"1,h,0,Read,0x10,512,9", BAD_OFFSET),
    (b"1,h,0,Read,18446744073709551616,0,9", BAD_OFFSET),
    (b"1,h,0,Read,0,y,9", BAD_SIZE),
    (b"1,h,0,Read,0,,9", BAD_SIZE),
    (b"1,h,0,Read,0,512\r", BAD_SIZE),
    (b"1,h,0,Read,18446744073709551615,2x,9", BAD_SIZE),
    (b"1,h,0,Read,1,18446744073709551616,9", BAD_SIZE),
    (b"1,h,0,Read,18446744073709551615,2,9", PAST_64_BITS),
    (b"1,h,0,Read,2,18446744073709551615,9", PAST_64_BITS),
    (
        b"1,h,0,Write,9223372036854775808,9223372036854775809",
        PAST_64_BITS,
    ),
    (
        b"1,h,0,Write,18446744073709551615,18446744073709551615",
        PAST_64_BITS,
    ),
];

#[test]
fn names_the_first_check_that_fails(rt: HostRuntime) {
    for (line, kind) in &REFUSED {
        same(*line, parse(line, 4096), Err(*kind)).expect(&rt, "a row");
    }
}
