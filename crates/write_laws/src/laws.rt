//! What is proved of written bytes: each law is the contract of a function that does nothing.
ghost use Rattle.write_laws.specs.Laws.{WriteJust, WriteNoFewer};

/// Allowed contents that hit at the flagged requests, and at no other that counts, write no fewer bytes than the flags
/// must.
pub fn claimed_hits_write_no_fewer()
    ensures { WriteNoFewer }
{}

/// If the flags are possible, some allowed contents hit exactly there and write just what the flags must.
pub fn claimed_hits_write_just()
    ensures { WriteJust }
{}
