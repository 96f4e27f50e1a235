//! What a checker keeps of the requests and records so far.

/// What is kept of an object: its latest request, the sum of the prices of the steps before it, its keep and its flow.
#[derive(Clone, Copy, Debug)]
pub(crate) struct Seen {
    pub latest: u32,
    pub price_before: u128,
    pub keep: bool,
    pub flow: u64,
}

/// What is kept of all requests and records so far: how many there were, the sum of all prices, the sizes of the kept
/// objects and the flows of all objects, and of the intervals that have ended the surpluses, the values of the flows
/// and the gains of the hits.
#[derive(Clone, Copy, Debug)]
pub(crate) struct Sums {
    pub steps: u32,
    pub prices: u128,
    pub load: u64,
    pub flows: u64,
    pub surpluses: u128,
    pub values: u128,
    pub score: u128,
}

/// What the interval that ends at a request adds: its surplus, the value of its flow, and the gain if it is a hit.
#[derive(Clone, Copy)]
pub(crate) struct Added {
    pub surplus: u128,
    pub value: u128,
    pub gain: u64,
}
