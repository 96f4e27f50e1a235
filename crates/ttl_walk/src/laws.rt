//! What the walk over a trace is: a law is the contract of a function that does nothing.
ghost use Rattle.ttl_walk.specs.Requests.{WalksOverRequests};

/// The walk of an object over a trace is that over its own requests, with the prices of the steps between summed.
pub fn walks_over_requests()
    ensures { WalksOverRequests }
{}
