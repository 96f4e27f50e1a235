//! What is proved of these replays: each law is the contract of a function that does nothing.
ghost use Rattle.replay_fresh.specs.Laws.{AreContentsOfRule, IsRunOfRule};

/// If no request is stale and objects are not replaced, nothing leaves, and a rule is replayed as ever.
pub fn nothing_leaves()
    ensures run { IsRunOfRule }
    ensures contents { AreContentsOfRule }
{}
