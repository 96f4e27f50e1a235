//! What is proved of the text of certificates with a budget: each law is the contract of a function that does nothing.
ghost use Rattle.budget_format.specs.Laws.{ReadIsInRange, ReadIsWritten, WrittenIsRead};

/// The text of a certificate with a budget is read as that certificate.
pub fn written_is_read()
    ensures { WrittenIsRead }
{}

/// Bytes that are read without a fault are the text of the certificate that is read, so it has no second spelling.
pub fn read_is_written()
    ensures { ReadIsWritten }
{}

/// The numbers that are read are in range, also those before a fault.
pub fn read_is_in_range()
    ensures { ReadIsInRange }
{}
