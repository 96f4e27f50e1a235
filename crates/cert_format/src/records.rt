//! The text of a certificate whose records are made one by one, as they are written.
ghost use Rattle.std.specs.Prelude.{◌≡◌, ◌<◌, List, Some, IfOk, OnOk, length, slice_get};
ghost use Rattle.std.specs.Io.KnownBytes.{Appends};
ghost use Rattle.cache_model.specs.declared.certificates.Record.{Record as Entry};
ghost use Rattle.cache_model.specs.Certificates.{IsCertificate};
ghost use Rattle.cache_model.specs.Texts.{cert_text};

use crate::writer::CertWriter;
use bound_base::NoMemory;
use bound_io::{Failed, GrowSink, Sink};
use cache_model::{Header, Record};
use std::alloc::Global;

/// The records of a certificate, each of which is made when it is asked for.
pub trait Records {
    /// The records.
    ghost list: { Self → List Entry };

    /// What the value that makes them has to be.
    ghost is_sound: { Self → Type 0 };

    /// The record of a request.
    fn record_at(&self, t: u32) -> Record
        requires sound { is_sound self.now }
        requires within { t < length (list self.now) }
        ensures { slice_get (list self.now) t ≡ Some result };
}

// Writes a certificate.
fn write_cert<K: Sink, R: Records>(sink: &mut K, header: &Header, records: &R) -> Result<(), Failed>
    requires sound { R.is_sound records.now }
    requires certificate { IsCertificate header.now (R.list records.now) }
    ensures { OnOk result (Appends (K.written sink.old) (K.written sink.new) (cert_text header.now (R.list records.now))) }
{
    let mut writer = CertWriter::begin(sink, header)?;
    for t in 0..header.requests {
        writer.push(sink, &records.record_at(t))?;
    }
    writer.end(sink)
}

/// The text of a certificate, in memory that grows with it by doubling.
pub fn cert_of<R: Records>(alloc: Global, header: &Header, records: &R) -> Result<Vec<u8>, NoMemory>
    requires sound { R.is_sound records.now }
    requires certificate { IsCertificate header.now (R.list records.now) }
    ensures { IfOk result (λ text. text.items ≡ cert_text header.now (R.list records.now)) }
{
    let mut sink = GrowSink::new(alloc);
    match write_cert(&mut sink, header, records) {
        Ok(()) => Ok(sink.into_bytes()),
        Err(Failed) => Err(NoMemory),
    }
}
