//! `cert_checker`: certificates that fail a rule. The numbers were worked out by hand.
use crate::cert_checker_steps::{
    Answer, CYCLE, CYCLE_HEADER, KEPT, LATE_HEADER, LATE_RECORDS, NONE, PAIR, PAIR_HEADER, Row,
    THIRD, WARM_HEADER,
};
use cache_model::Object;
use cert_checker::{InvalidKind, StepFault};
use cert_format::{Header, Record};

// Those of the cycle, then those of the pair, then those with a warm-up.
pub const INVALID: [Row<'static>; 16] = [
    Row {
        name: "two units that pay 2^126 each",
        records: &[
            Record {
                price: 1 << 126,
                ..KEPT
            },
            KEPT,
            THIRD,
            NONE,
            NONE,
            NONE,
        ],
        answer: Answer::Refused {
            step: 0,
            fault: StepFault::Rule(InvalidKind::SumLimit),
        },
        ..CYCLE
    },
    Row {
        name: "a third keep",
        records: &[
            KEPT,
            KEPT,
            Record {
                keep: true,
                ..THIRD
            },
            NONE,
            NONE,
            NONE,
        ],
        answer: Answer::Refused {
            step: 2,
            fault: StepFault::Rule(InvalidKind::Overfull {
                load: 3,
                capacity: 2,
            }),
        },
        ..CYCLE
    },
    Row {
        name: "a third flow",
        records: &[KEPT, KEPT, Record { flow: 1, ..THIRD }, NONE, NONE, NONE],
        answer: Answer::Refused {
            step: 2,
            fault: StepFault::Rule(InvalidKind::FlowOverfull { load: 3, units: 2 }),
        },
        ..CYCLE
    },
    Row {
        name: "an upper bound greater than that of the prices",
        header: Header {
            upper: 3,
            ..CYCLE_HEADER
        },
        answer: Answer::RefusedAtEnd(InvalidKind::UpperDiffers {
            written: 3,
            counted: 2,
        }),
        ..CYCLE
    },
    Row {
        name: "a price at the end",
        records: &[KEPT, Record { price: 5, ..NONE }],
        answer: Answer::Refused {
            step: 1,
            fault: StepFault::Rule(InvalidKind::LastPrice { price: 5 }),
        },
        ..PAIR
    },
    Row {
        name: "a unit that doesn't divide",
        header: Header {
            unit: 3,
            ..PAIR_HEADER
        },
        answer: Answer::Refused {
            step: 1,
            fault: StepFault::Rule(InvalidKind::UnitNotDivisor { unit: 3, size: 4 }),
        },
        ..PAIR
    },
    Row {
        name: "a cost that isn't whole",
        header: Header {
            unit: 2,
            ..PAIR_HEADER
        },
        answer: Answer::Refused {
            step: 1,
            fault: StepFault::Rule(InvalidKind::NotDivisible { weight: 2 }),
        },
        ..PAIR
    },
    Row {
        name: "a flow above the weight",
        records: &[Record { flow: 2, ..KEPT }, NONE],
        answer: Answer::Refused {
            step: 0,
            fault: StepFault::Rule(InvalidKind::FlowAboveWeight { flow: 2, weight: 1 }),
        },
        ..PAIR
    },
    Row {
        name: "a flow where no interval starts",
        records: &[KEPT, Record { flow: 1, ..NONE }],
        answer: Answer::RefusedAtEnd(InvalidKind::Unused { number: 1 }),
        ..PAIR
    },
    Row {
        name: "another value of the flows",
        header: Header {
            flow: 2,
            ..PAIR_HEADER
        },
        answer: Answer::RefusedAtEnd(InvalidKind::FlowDiffers {
            written: 2,
            counted: 1,
        }),
        ..PAIR
    },
    Row {
        name: "another score",
        header: Header {
            lower: 0,
            ..PAIR_HEADER
        },
        answer: Answer::RefusedAtEnd(InvalidKind::LowerDiffers {
            written: 0,
            counted: 1,
        }),
        ..PAIR
    },
    Row {
        name: "no flow in the form exact",
        header: Header {
            flow: 0,
            ..PAIR_HEADER
        },
        records: &[Record { flow: 0, ..KEPT }, NONE],
        answer: Answer::RefusedAtEnd(InvalidKind::ExactGap { upper: 1, flow: 0 }),
        ..PAIR
    },
    Row {
        name: "a flow whose interval ends within the warm-up",
        header: LATE_HEADER,
        records: &[KEPT, NONE, KEPT, NONE, NONE, NONE],
        answer: Answer::Refused {
            step: 3,
            fault: StepFault::Rule(InvalidKind::Unused { number: 0 }),
        },
        ..CYCLE
    },
    Row {
        name: "a warm-up of one request fewer",
        header: Header {
            warmup: 4,
            ..LATE_HEADER
        },
        records: &LATE_RECORDS,
        answer: Answer::RefusedAtEnd(InvalidKind::UpperDiffers {
            written: 1,
            counted: 2,
        }),
        ..CYCLE
    },
    Row {
        name: "a warm-up of all requests",
        header: Header {
            warmup: 6,
            ..LATE_HEADER
        },
        records: &LATE_RECORDS,
        answer: Answer::Refused {
            step: 5,
            fault: StepFault::Rule(InvalidKind::Unused { number: 2 }),
        },
        ..CYCLE
    },
    Row {
        name: "the unit is asked for at the end of the warm-up",
        header: Header {
            warmup: 1,
            ..WARM_HEADER
        },
        records: &[NONE, NONE],
        answer: Answer::Refused {
            step: 1,
            fault: StepFault::Rule(InvalidKind::UnitNotDivisor { unit: 3, size: 4 }),
        },
        ..PAIR
    },
];
