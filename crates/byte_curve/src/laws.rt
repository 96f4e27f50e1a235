//! What is proved of distances in bytes: the law is the contract of a function that does nothing.
ghost use Rattle.byte_curve.specs.Laws.{DistancesAreOfLru};

/// Whatever the sizes, LRU's hits and their bytes are those of the requests whose distance in bytes is within the
/// capacity.
pub fn distances_are_of_lru()
    ensures { DistancesAreOfLru }
{}
