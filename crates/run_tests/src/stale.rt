//! Runs in which requests are stale, and what they print. The numbers were worked out by hand.
use bound_run::Status;
use std::alloc::Global;
use std::process::Abort;
use trace_lines::LineKind;
use whole_runs::Said::{Bounds, Text};
use whole_runs::{GOOD, Row, check_all};

// One object of 2 bytes, whose second request comes 2 after the first, and whose third 7 after that.
const EXPIRED: Row<'static> = Row {
    shows: "what is asked for just as its time ends is fresh, and what is asked for later is stale",
    words: "bounds t c format=webcache capacity=10 mode=infinite idle=2",
    trace: b"0 1 2\n2 1 2\n9 1 2\n",
    report: Bounds(
        "3 1 0, 10 object, idle 2, stale 1, infinite form plain, 2 5 1, 1, 1/1 1, 0/1, 1",
    ),
    made: b"cache-bound-certificate 1\nobjective object\ncapacity 10\nrequests 3\nunit 2\n\
denominator 1\nform plain\nupper 1\nflow 0\nlower 1\nrecords\n0 1 0\n0 0 0\n0 0 0\nend\n",
    ..GOOD
};

const BOUNDS: [Row<'static>; 3] = [
    EXPIRED,
    Row {
        shows: "a time that goes back is no time passed",
        words: "bounds t c format=webcache capacity=10 mode=infinite idle=3",
        trace: b"5 1 2\n3 1 2\n9 1 2\n",
        report: Bounds(
            "3 1 0, 10 object, idle 3, late 1, stale 1, infinite form plain, 2 5 1, 1, 1/1 1, 0/1, 1",
        ),
        ..EXPIRED
    },
    Row {
        shows: "a line whose time is no number is refused if times are asked for",
        trace: b"0 1 2\nx 1 2\n",
        status: Status::BadLine {
            line: 2,
            kind: LineKind::BadNumber { word: 1 },
        },
        report: Text(b"bad line 2: number in word 1\n"),
        made: b"",
        ..EXPIRED
    },
];

// One object of 2 bytes, every two seconds. A hit does not renew it, so that every other request is one.
const WRITTEN: Row<'static> = Row {
    shows: "what was written longer ago than the ttl is no hit, and is written anew",
    words: "bounds t c format=webcache capacity=10 mode=infinite ttl=3",
    trace: b"0 1 2\n2 1 2\n4 1 2\n6 1 2\n8 1 2\n",
    report: Bounds(
        "5 1 0, 10 object, ttl 3, stale 0, infinite form plain, 2 5 1, 4, 2/1 2, 0/1, 2",
    ),
    made: b"cache-bound-certificate 1\nobjective object\ncapacity 10\nrequests 5\nunit 2\n\
denominator 1\nform plain\nupper 2\nflow 0\nlower 2\nrecords\n0 1 0\n0 1 0\n0 1 0\n0 1 0\n0 0 0\nend\n",
    ..GOOD
};

const WRITTEN_BOUNDS: [Row<'static>; 4] = [
    WRITTEN,
    Row {
        shows: "one price is sought if no mode is given, and the schedule writes twice",
        words: "bounds t c format=webcache capacity=10 ttl=3 writes=count",
        report: Bounds(
            "5 1 0, 10 object, ttl 3, stale 0, constant price 0 form plain, 2 5 281474976710656, 4, 562949953421312/281474976710656 2, 0/281474976710656, 2, writes 4",
        ),
        made: b"cache-bound-certificate 1\nobjective object\ncapacity 10\nrequests 5\nunit 2\n\
denominator 281474976710656\nform plain\nupper 562949953421312\nflow 0\nlower 2\nrecords\n\
0 1 0\n0 1 0\n0 1 0\n0 1 0\n0 0 0\nend\n",
        ..WRITTEN
    },
    Row {
        shows: "a request that only fills renews what it keeps",
        words: "bounds t c format=webcache capacity=10 mode=infinite ttl=3 count=reads",
        trace: b"0 7 1 r\n1 8 1 r\n3 7 1 r\n4 7 1 w\n4 8 1 r\n6 7 1 r\n9 8 1 r\n9 7 1 r\n",
        report: Bounds(
            "8 2 0, counted 7, 10 object, ttl 3, stale 1, infinite form plain, 1 10 1, 4, 3/1 3, 0/1, 3",
        ),
        made: b"cache-bound-certificate 1\nobjective object\ncapacity 10\nrequests 8\nunit 1\n\
denominator 1\nform plain\nupper 3\nflow 0\nlower 3\nrecords\n\
0 1 0\n0 1 0\n0 0 0\n0 1 0\n0 0 0\n0 1 0\n0 0 0\n0 0 0\nend\n",
        ..WRITTEN
    },
    Row {
        shows: "a time that goes back is no time passed",
        words: "bounds t c format=webcache capacity=10 mode=infinite ttl=3",
        trace: b"5 1 2\n3 1 2\n9 1 2\n",
        report: Bounds(
            "3 1 0, 10 object, ttl 3, late 1, stale 1, infinite form plain, 2 5 1, 1, 1/1 1, 0/1, 1",
        ),
        ..EXPIRED
    },
];

#[test]
fn bounds_of_objects_that_expire_since_they_were_written(rt: HostRuntime) {
    check_all(rt.alloc(), &WRITTEN_BOUNDS).expect(&rt, "a row");
}

#[test]
fn bounds_of_objects_that_expire(rt: HostRuntime) {
    check_all(rt.alloc(), &BOUNDS).expect(&rt, "a row");
}

const REPLAYED: Row<'static> = Row {
    shows: "a stale object leaves before it is asked for",
    words: "replay t format=webcache capacity=10 policy=lru idle=2",
    report: Text(
        b"trace requests 3 objects 1 dropped 0\npolicy lru capacity 10\nidle 2\nstale 1\nhits 1 bytes 2\n",
    ),
    made: b"",
    ..EXPIRED
};

const FIRST_REPLAYS: [Row<'static>; 3] = [
    REPLAYED,
    Row {
        shows: "it is written anew",
        words: "replay t format=webcache capacity=10 policy=lru idle=2 writes=count",
        report: Text(
            b"trace requests 3 objects 1 dropped 0\npolicy lru capacity 10\nidle 2\nstale 1\nhits 1 bytes 2\nwrites 4\n",
        ),
        ..REPLAYED
    },
    Row {
        shows: "a stale read counts by its mark, and is missed",
        words: "replay t format=webcache capacity=10 policy=sieve idle=2 count=reads",
        trace: b"0 1 2 r\n2 1 2 w\n9 1 2 r\n",
        report: Text(
            b"trace requests 3 objects 1 dropped 0\ncounted 2\npolicy sieve capacity 10\nidle 2\nstale 1\nhits 0 bytes 0\n",
        ),
        ..REPLAYED
    },
];

const SECOND_REPLAYS: [Row<'static>; 4] = [
    Row {
        shows: "another size of an id replaces the value",
        words: "replay t format=webcache capacity=10 policy=lru replace=yes",
        trace: b"1 7 4\n2 7 5\n3 7 4\n4 7 4\n",
        report: Text(
            b"trace requests 4 objects 2 dropped 0\npolicy lru capacity 10\nstale 1\nhits 1 bytes 4\n",
        ),
        ..REPLAYED
    },
    Row {
        shows: "if objects aren't replaced both sizes are held",
        words: "replay t format=webcache capacity=10 policy=lru replace=no",
        trace: b"1 7 4\n2 7 5\n3 7 4\n4 7 4\n",
        report: Text(
            b"trace requests 4 objects 2 dropped 0\npolicy lru capacity 10\nhits 2 bytes 8\n",
        ),
        ..REPLAYED
    },
    Row {
        shows: "no stale request is flagged a hit",
        words: "replay t format=webcache capacity=10 policy=belady idle=2 print=flags",
        report: Text(b"0\n1\n0\n"),
        ..REPLAYED
    },
    Row {
        shows: "a curve counts no stale request",
        words: "curve t format=webcache idle=2",
        report: Text(
            b"trace requests 3 objects 1 dropped 0\nsize 2\nidle 2\nstale 1\nslots 1 hits 1\n",
        ),
        ..REPLAYED
    },
];

fn check_first_replays(rt: &impl Abort, alloc: Global) {
    check_all(alloc, &FIRST_REPLAYS).expect(rt, "a row");
}

fn check_second_replays(rt: &impl Abort, alloc: Global) {
    check_all(alloc, &SECOND_REPLAYS).expect(rt, "a row");
}

#[test]
fn replays_from_which_objects_leave(rt: HostRuntime) {
    check_first_replays(&rt, rt.alloc());
    check_second_replays(&rt, rt.alloc());
}
