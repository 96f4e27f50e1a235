//! Objects, and what a hit on one earns.

/// What a request asks for. One id with two sizes, or in two volumes, is two objects. The size is in bytes.
#[derive(Clone, Copy, Debug, PartialEq, Eq, Hash)]
pub struct Object {
    pub volume: u32,
    pub id: u64,
    pub size: u64,
}

/// What a hit earns.
#[derive(Clone, Copy, Debug, PartialEq, Eq)]
pub enum Objective {
    /// One hit.
    Object,
    /// The bytes of the object.
    Bytes,
}
