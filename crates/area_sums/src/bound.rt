//! Bounds of edges.
ghost use Rattle.std.specs.Prelude.{◌≡◌, ◌/◌, ◌<◌, ◌≤◌, ◌⊎◌};
ghost use Rattle.area_sums.specs.Bounds.{IsNoWorse, floor_of};

/// The bound of an edge: a numerator over the edge. Edge 1 stands for no price.
#[derive(Clone, Copy, Debug, PartialEq, Eq)]
pub struct EdgeBound {
    pub upper: u128,
    pub edge: u128,
}

/// The least bounds at a capacity, for hits and for bytes.
#[derive(Clone, Copy, Debug, PartialEq, Eq)]
pub struct CapacityBounds {
    pub hits: EdgeBound,
    pub bytes: EdgeBound,
}

impl EdgeBound {
    /// The whole number at or next below the bound.
    pub fn floor(self) -> u128
        requires { 0 < self.edge }
        ensures { result ≡ floor_of self }
    {
        self.upper / self.edge
    }

    // The one with the lesser floor, and of equal floors with the lesser edge.
    pub(crate) fn lesser(self, other: EdgeBound) -> EdgeBound
        requires edge { 0 < self.edge }
        requires other_edge { 0 < other.edge }
        ensures either { (result ≡ self) ⊎ (result ≡ other) }
        ensures no_worse { IsNoWorse result self }
        ensures no_worse_than_other { IsNoWorse result other }
    {
        if (other.floor(), other.edge) < (self.floor(), self.edge) {
            other
        } else {
            self
        }
    }
}
