//! Words that are refused.
use bound_terms::WordKind;

pub(super) const MISSING: WordKind = WordKind::Missing;

pub(super) const UNKNOWN: WordKind = WordKind::Unknown;

pub(super) const TWICE: WordKind = WordKind::Twice;

pub(super) const BAD_VALUE: WordKind = WordKind::BadValue;

// The place and the kind of the first fault, and words that have it, a command on each line.
pub(super) const REFUSED: [(u64, WordKind, &str); 24] = [
    (1, MISSING, ""),
    (
        1,
        UNKNOWN,
        "demos\n\
Bounds t c\n\
format=webcache capacity=2 mode=infinite\n t c",
    ),
    (
        2,
        MISSING,
        "check\n\
replay\n\
bounds",
    ),
    (
        2,
        BAD_VALUE,
        "bounds \n\
replay \n\
bounds  \n\
bounds  c more",
    ),
    (
        2,
        UNKNOWN,
        "demo t\n\
demo -\n\
demo \n\
demo seed\n\
demo format=webcache\n\
demo block=512\n\
demo policy=lru\n\
demo warmup=1\n\
demo window=3 mode=constant",
    ),
    (
        2,
        BAD_VALUE,
        "demo seed=\n\
demo seed=-1\n\
demo seed=18446744073709551616\n\
demo requests=0\n\
demo requests=33554433\n\
demo objects=0\n\
demo objects=33554433\n\
demo capacity=0\n\
demo window=0",
    ),
    (
        3,
        MISSING,
        "replay t\n\
bounds t",
    ),
    (
        3,
        UNKNOWN,
        "demo mode=infinite window=3\n\
demo seed=1 t\n\
replay t objective=bytes\n\
replay t window=3\n\
replay t c",
    ),
    (
        3,
        TWICE,
        "demo seed=1 seed=2\n\
demo objects=1 objects=x",
    ),
    (
        3,
        BAD_VALUE,
        "check t \n\
replay t policy=mru\n\
replay t warmup=33554433\n\
replay t capacity=0\n\
check - - format=webcache\n\
bounds t \n\
bounds t  more",
    ),
    (
        4,
        MISSING,
        "check t c\n\
replay t format=arc\n\
replay t policy=lru\n\
check - -\n\
bounds t c",
    ),
    (
        4,
        UNKNOWN,
        "replay t format=arc mode=flow\n\
bounds t c block=512 format=arc capacity=1 mode=infinite\n\
bounds t c block=512 format=webcache\n\
bounds t c block\n\
check t c mode=infinite\n\
check t c block=512 format=arc\n\
bounds t c \n\
bounds t c =\n\
bounds t c =x\n\
bounds t c =format=webcache\n\
bounds t c format\n\
bounds t c Format=webcache\n\
bounds t c forma=webcache\n\
bounds t c formats=webcache\n\
bounds t c format =webcache\n\
bounds t c blocks=4096\n\
bounds t c windows=3\n\
bounds t c denominators=2\n\
bounds t c more capacity=0 mode=flow\n\
bounds t c window=all mode=infinite\n\
bounds t c window=2 block=1 mode=infinite format=arc\n\
bounds t c block=1 window=2 mode=infinite format=arc\n\
bounds t c block=1 window=2 format=arc",
    ),
    (
        4,
        BAD_VALUE,
        "bounds t c block=0 format=arc\n\
bounds t c block=\n\
bounds t c block=0\n\
bounds t c block=4k\n\
bounds t c block=18446744073709551616\n\
bounds t c format=Msr block=512\n\
bounds t c format=arcs\n\
check - - format=x\n\
bounds t c capacity=0 more\n\
bounds t c format=\n\
bounds t c format==webcache\n\
bounds t c format=webcache=\n\
bounds t c format=infinite\n\
bounds t c capacity=\n\
bounds t c capacity=0\n\
bounds t c capacity=+2\n\
bounds t c capacity=2k\n\
bounds t c capacity=72057594037927937\n\
bounds t c capacity=18446744073709551616\n\
bounds t c objective=\n\
bounds t c objective=Bytes\n\
bounds t c mode=flows\n\
bounds t c denominator=0\n\
bounds t c denominator=\n\
bounds t c denominator=281474976710657\n\
bounds t c denominator=Auto\n\
bounds t c mode=constants\n\
bounds t c window=0\n\
bounds t c window=33554433\n\
bounds t c window=All",
    ),
    (
        5,
        MISSING,
        "bounds t c block=512\n\
bounds t c format=webcache",
    ),
    (
        5,
        UNKNOWN,
        "bounds t c format=arc block=512 capacity=1 mode=infinite\n\
check - - format=webcache capacity=2\n\
bounds t c format=webcache more\n\
bounds t c format=webcache format\n\
bounds t c format=arc count=reads\n\
check t c format=oracle count=reads\n\
bounds t c mode=constant window=3\n\
bounds t c block=1 window=2 mode=infinite",
    ),
    (
        5,
        TWICE,
        "bounds t c block=512 block=512\n\
check t c format=arc format=arc\n\
bounds t c capacity=2 capacity=x\n\
bounds t c format=webcache format=webcache capacity=0 more\n\
bounds t c denominator=1 denominator=2\n\
bounds t c mode=constant mode=infinite\n\
bounds t c window=2 window=all",
    ),
    (
        5,
        BAD_VALUE,
        "bounds t c format=arc block=0\n\
bounds t c format=msr block=281474976710657",
    ),
    (
        6,
        MISSING,
        "bounds t c block=512 capacity=2\n\
bounds t c block=512 format=msr\n\
bounds t c mode=infinite format=webcache",
    ),
    (
        6,
        UNKNOWN,
        "bounds t c capacity=1 mode=infinite block=512 format=arc\n\
bounds t c block=512 format=webcache x=1\n\
bounds t c format=webcache capacity=2 window=3 mode=constant",
    ),
    (
        6,
        TWICE,
        "bounds t c block=512 format=arc block=512\n\
bounds t c block=512 format=arc format=msr\n\
bounds t c block=512 format=msr block=x\n\
bounds t c capacity=2 mode=infinite capacity=x\n\
bounds t c format=webcache capacity=2 capacity=2\n\
bounds t c objective=bytes mode=infinite objective=bytes",
    ),
    (
        6,
        BAD_VALUE,
        "bounds t c block=512 format=webcache capacity=0\n\
bounds t c mode=infinite format=webcache capacity=x",
    ),
    (
        7,
        MISSING,
        "bounds t c block=512 capacity=2 mode=infinite\n\
bounds t c capacity=2 mode=infinite objective=bytes\n\
bounds t c format=webcache mode=infinite objective=bytes",
    ),
    (
        7,
        UNKNOWN,
        "bounds t c format=webcache capacity=1 mode=infinite block=4096\n\
bounds t c block=512 format=webcache mode=infinite mode\n\
bounds t c format=webcache capacity=2 mode=infinite block=1",
    ),
    (
        7,
        TWICE,
        "bounds t c format=webcache capacity=2 mode=infinite mode=flow",
    ),
];

// The same of the words of a refinement.
pub(super) const REFUSED_REFINEMENTS: [(u64, WordKind, &str); 10] = [
    (2, MISSING, "refine"),
    (3, MISSING, "refine t"),
    (3, BAD_VALUE, "refine - - m format=webcache window=3"),
    (4, MISSING, "refine t c"),
    (4, BAD_VALUE, "refine t c  format=webcache window=3"),
    (
        5,
        MISSING,
        "refine t c m\n\
refine - - m",
    ),
    (
        5,
        UNKNOWN,
        "refine t c m capacity=1\n\
refine t c m mode=flow\n\
refine t c m warmup=0\n\
refine t c m block=512 format=arc window=3",
    ),
    (
        5,
        BAD_VALUE,
        "refine t c m window=all\n\
refine t c m window=0\n\
refine t c m window=33554433\n\
refine t c m window=x",
    ),
    (
        6,
        MISSING,
        "refine t c m format=webcache\n\
refine t c m window=3\n\
refine - - m format=arc",
    ),
    (6, TWICE, "refine t c m window=3 window=all"),
];
