//! What is proved of the lines: each law is the contract of a function that does nothing.
ghost use Rattle.demo_trace.specs.Laws.{WrittenIsRead};

/// Requests that are written as the lines of a webcache trace are read back, each one and no other.
pub fn written_is_read()
    ensures { WrittenIsRead }
{}
