//! Runs that print a flag for each request. They were worked out by hand.
use whole_runs::Said::Text;
use whole_runs::{GOOD, Row, check_all};

// Sizes 2, 2, 2, 3, 2, 2 of objects 1, 2, 1, 3, 1, 2.
const SIZES: Row<'static> = Row {
    shows: "LRU hits twice",
    words: "replay t format=webcache capacity=5 policy=lru print=flags",
    trace: b"1 1 2\n2 2 2\n3 1 2\n4 3 3\n5 1 2\n6 2 2\n",
    report: Text(b"0\n0\n1\n0\n1\n0\n"),
    made: b"",
    ..GOOD
};

const FLAGS: [Row<'static>; 6] = [
    SIZES,
    Row {
        shows: "Belady's rule hits three times",
        words: "replay t format=webcache capacity=5 policy=belady print=flags",
        report: Text(b"0\n0\n1\n0\n1\n1\n"),
        ..SIZES
    },
    Row {
        shows: "a hit in the warm-up has a flag",
        words: "replay t format=webcache capacity=5 policy=lru print=flags warmup=5",
        ..SIZES
    },
    Row {
        shows: "so has one of a request that only fills",
        words: "replay t format=webcache capacity=5 policy=lru count=reads print=flags",
        trace: b"1 1 2 r\n2 1 2 w\n3 2 3 w\n4 1 2 r\n",
        report: Text(b"0\n1\n0\n1\n"),
        ..SIZES
    },
    Row {
        shows: "a dropped line has none",
        trace: b"1 1 2\n2 2 0\n3 1 2\n",
        report: Text(b"0\n1\n"),
        ..SIZES
    },
    Row {
        shows: "no request has no flag",
        trace: b"",
        report: Text(b""),
        ..SIZES
    },
];

#[test]
fn replays_print_flags(rt: HostRuntime) {
    check_all(rt.alloc(), &FLAGS).expect(&rt, "a row");
}
