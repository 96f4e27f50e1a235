//! What a request asks of a policy.

/// A request: the number of its object and its size in bytes, and what leaves before it and what it counts for.
#[derive(Clone, Copy, Debug)]
pub struct Asked {
    pub object: u32,
    pub size: u64,
    /// The number of the object's next request, if there is one that is not stale. The rule of Belady alone goes by it.
    pub next: Option<u32>,
    /// Whether it is stale, so that its object leaves before it.
    pub is_stale: bool,
    /// The object that it replaces, if there is one.
    pub replaced: Option<u32>,
    /// Whether it is past the warm-up.
    pub is_past: bool,
    pub only_fills: bool,
}
