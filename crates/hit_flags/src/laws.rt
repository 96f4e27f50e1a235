//! What is proved of flags.
ghost use Rattle.hit_flags.specs.Laws.{FlagsAreRead};

/// What is written as flags is read as those flags. It does nothing.
pub fn flags_are_read()
    ensures { FlagsAreRead }
{}
