//! What is proved of the rules and of the walk: each law is the contract of a function that does nothing.
ghost use Rattle.cert_checker.specs.Laws.{FaultlessIsValid, PassingIsValid};

/// A certificate passes all rules exactly if it is valid.
pub fn faultless_is_valid()
    ensures { FaultlessIsValid }
{}

/// A trace and the bytes of a certificate pass the walk of a check exactly if the certificate is valid for the trace.
pub fn passing_is_valid()
    ensures { PassingIsValid }
{}
