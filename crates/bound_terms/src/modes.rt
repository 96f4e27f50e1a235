//! How the prices of a bound are made.

/// Into which windows the steps are cut before they are solved.
#[derive(Clone, Copy, Debug, PartialEq, Eq)]
pub enum Window {
    /// One window of all steps.
    All,
    /// Windows of this number of steps.
    Steps(u32),
}

/// Where the prices come from.
#[derive(Clone, Copy, Debug, PartialEq, Eq)]
pub enum Mode {
    /// From a flow of greatest cost, in one window or in several.
    Flow { window: Window },
    /// One price for all steps but the last.
    Constant,
    /// Every price is 0, as in a cache that holds all that fits.
    Infinite,
}
