//! Spans in groups.
ghost use Rattle.std.specs.Prelude.{◌≡◌, ◌+◌, ◌<◌, ◌^◌};
ghost use Rattle.area_sums.specs.Groups.{both};

/// The gains and the areas of spans, summed.
#[derive(Clone, Copy, Debug, PartialEq, Eq)]
pub(crate) struct Group {
    pub(crate) gain: u128,
    pub(crate) area: u128,
}

impl Group {
    /// Of no span.
    pub(crate) const EMPTY: Group = Group { gain: 0, area: 0 };

    /// Two groups as one.
    pub(crate) fn plus(self, other: Group) -> Group
        requires gain { self.gain + other.gain < 2 ^ 128 }
        requires area { self.area + other.area < 2 ^ 128 }
        ensures { result ≡ both self other }
    {
        Group {
            gain: self.gain + other.gain,
            area: self.area + other.area,
        }
    }
}
