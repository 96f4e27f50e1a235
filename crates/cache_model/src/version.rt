//! The versions of the text of a certificate.

/// The version whose every record states its price. It is written if no other is asked for.
pub const CERT_VERSION: u8 = 1;

/// The version whose records leave out a price that is equal to the one before.
pub const SHORT_VERSION: u8 = 2;
