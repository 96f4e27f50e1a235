//! A block of steps.

/// The steps from `first` to the one before `end`, with what sizes and gains are counted in.
#[derive(Clone, Copy)]
pub(crate) struct Block {
    pub(crate) unit: u64,
    pub(crate) units: u64,
    pub(crate) denominator: u64,
    pub(crate) first: u32,
    pub(crate) end: u32,
}
