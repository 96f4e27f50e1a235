//! Words that ask for bounds.
use bound_run::Plan;
use bound_terms::{Mode, Window};
use cache_rules::Objective;
use relaxation::DenominatorChoice;
use trace_any::{Format, Layout};

// Words that ask for bounds, and what they ask for.
#[derive(Clone, Copy)]
pub(super) struct Bounds<'a> {
    pub(super) text: &'a str,
    pub(super) layout: Layout,
    pub(super) capacity: u64,
    pub(super) objective: Objective,
    pub(super) mode: Mode,
    pub(super) denominator: DenominatorChoice,
}

impl Bounds<'_> {
    pub(super) fn plan(&self) -> Plan<'static> {
        Plan::Bounds {
            format: Format::lasting(self.layout),
            capacity: self.capacity,
            objective: self.objective,
            mode: self.mode,
            denominator: self.denominator,
            warmup: 0,
            version: 1,
            writes: false,
        }
    }
}

pub(super) const INFINITE: Bounds<'static> = Bounds {
    text: "bounds t c format=webcache capacity=1 mode=infinite",
    layout: Layout::Webcache,
    capacity: 1,
    objective: Objective::Object,
    mode: Mode::Infinite,
    denominator: DenominatorChoice::Given(1),
};

pub(super) const FLOW: Bounds<'static> = Bounds {
    text: "bounds t c format=arc capacity=1",
    layout: Layout::Arc,
    mode: Mode::Flow {
        window: Window::All,
    },
    denominator: DenominatorChoice::Auto,
    ..INFINITE
};

pub(super) const TAKEN: [Bounds<'static>; 38] = [
    Bounds {
        text: "bounds t c format=webcache capacity=1 mode=infinite",
        ..INFINITE
    },
    Bounds {
        text: "bounds t c mode=infinite format=webcache capacity=010",
        capacity: 10,
        ..INFINITE
    },
    Bounds {
        text: "bounds t c objective=object capacity=2 mode=infinite format=webcache",
        capacity: 2,
        ..INFINITE
    },
    Bounds {
        text: "bounds t c mode=infinite format=webcache capacity=3 objective=bytes",
        capacity: 3,
        objective: Objective::Bytes,
        ..INFINITE
    },
    Bounds {
        text: "bounds t c format=webcache capacity=72057594037927935 mode=infinite",
        capacity: (1 << 56) - 1,
        ..INFINITE
    },
    Bounds {
        text: "bounds t c format=webcache capacity=72057594037927936 mode=infinite",
        capacity: 1 << 56,
        ..INFINITE
    },
    Bounds {
        text: "bounds = format=webcache format=webcache capacity=1 mode=infinite",
        ..INFINITE
    },
    Bounds {
        text: "bounds = format=webcache mode=infinite format=webcache capacity=010",
        capacity: 10,
        ..INFINITE
    },
    Bounds {
        text: "bounds = format=webcache objective=object capacity=2 mode=infinite format=webcache",
        capacity: 2,
        ..INFINITE
    },
    Bounds {
        text: "bounds = format=webcache mode=infinite format=webcache capacity=3 objective=bytes",
        capacity: 3,
        objective: Objective::Bytes,
        ..INFINITE
    },
    Bounds {
        text: "bounds = format=webcache format=webcache capacity=72057594037927935 mode=infinite",
        capacity: (1 << 56) - 1,
        ..INFINITE
    },
    Bounds {
        text: "bounds = format=webcache format=webcache capacity=72057594037927936 mode=infinite",
        capacity: 1 << 56,
        ..INFINITE
    },
    Bounds {
        text: "bounds t c format=webcache capacity=1 mode=infinite",
        ..INFINITE
    },
    Bounds {
        text: "bounds t c format=arc capacity=1 mode=infinite",
        layout: Layout::Arc,
        ..INFINITE
    },
    Bounds {
        text: "bounds t c mode=infinite capacity=1 format=arc",
        layout: Layout::Arc,
        ..INFINITE
    },
    Bounds {
        text: "bounds t c format=msr capacity=1 mode=infinite",
        layout: Layout::Msr { block: 4096 },
        ..INFINITE
    },
    Bounds {
        text: "bounds t c mode=infinite capacity=1 format=msr",
        layout: Layout::Msr { block: 4096 },
        ..INFINITE
    },
    Bounds {
        text: "bounds t c format=msr block=8192 capacity=1 mode=infinite",
        layout: Layout::Msr { block: 8192 },
        ..INFINITE
    },
    Bounds {
        text: "bounds t c block=8192 format=msr capacity=1 mode=infinite",
        layout: Layout::Msr { block: 8192 },
        ..INFINITE
    },
    Bounds {
        text: "bounds t c block=8192 capacity=1 mode=infinite format=msr",
        layout: Layout::Msr { block: 8192 },
        ..INFINITE
    },
    Bounds {
        text: "bounds t c format=msr capacity=1 mode=infinite block=0512",
        layout: Layout::Msr { block: 512 },
        ..INFINITE
    },
    Bounds {
        text: "bounds t c format=msr block=1 capacity=1 mode=infinite",
        layout: Layout::Msr { block: 1 },
        ..INFINITE
    },
    Bounds {
        text: "bounds t c format=msr block=281474976710655 capacity=1 mode=infinite",
        layout: Layout::Msr {
            block: (1 << 48) - 1,
        },
        ..INFINITE
    },
    Bounds {
        text: "bounds t c format=msr block=281474976710656 capacity=1 mode=infinite",
        layout: Layout::Msr { block: 1 << 48 },
        ..INFINITE
    },
    Bounds {
        text: "bounds t c format=arc capacity=1 mode=constant",
        mode: Mode::Constant,
        denominator: DenominatorChoice::Given(1 << 48),
        ..FLOW
    },
    Bounds {
        text: "bounds t c format=arc capacity=1 mode=infinite",
        mode: Mode::Infinite,
        denominator: DenominatorChoice::Given(1),
        ..FLOW
    },
    Bounds {
        text: "bounds t c format=arc capacity=1 denominator=03 mode=constant",
        mode: Mode::Constant,
        denominator: DenominatorChoice::Given(3),
        ..FLOW
    },
    Bounds {
        text: "bounds t c format=arc capacity=1 mode=infinite denominator=5",
        mode: Mode::Infinite,
        denominator: DenominatorChoice::Given(5),
        ..FLOW
    },
    Bounds {
        text: "bounds t c format=arc capacity=1 mode=infinite denominator=281474976710656",
        mode: Mode::Infinite,
        denominator: DenominatorChoice::Given(1 << 48),
        ..FLOW
    },
    Bounds {
        text: "bounds t c format=arc capacity=1 mode=infinite denominator=auto",
        mode: Mode::Infinite,
        ..FLOW
    },
    Bounds {
        text: "bounds t c format=arc capacity=1 denominator=auto mode=constant",
        mode: Mode::Constant,
        ..FLOW
    },
    Bounds {
        text: "bounds t c format=arc capacity=1 mode=constant denominator=exact",
        mode: Mode::Constant,
        denominator: DenominatorChoice::Exact,
        ..FLOW
    },
    Bounds {
        text: "bounds t c format=arc capacity=1 window=all",
        ..FLOW
    },
    Bounds {
        text: "bounds t c format=arc capacity=1 mode=flow",
        ..FLOW
    },
    Bounds {
        text: "bounds t c format=arc capacity=1 window=1",
        mode: Mode::Flow {
            window: Window::Steps(1),
        },
        ..FLOW
    },
    Bounds {
        text: "bounds t c format=arc capacity=1 window=33554432 mode=flow",
        mode: Mode::Flow {
            window: Window::Steps(1 << 25),
        },
        ..FLOW
    },
    Bounds {
        text: "bounds t c format=arc capacity=1 denominator=5",
        denominator: DenominatorChoice::Given(5),
        ..FLOW
    },
    Bounds {
        text: "bounds t c format=arc capacity=1 denominator=exact window=03",
        mode: Mode::Flow {
            window: Window::Steps(3),
        },
        denominator: DenominatorChoice::Exact,
        ..FLOW
    },
];
