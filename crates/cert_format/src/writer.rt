//! A writer of certificates.
ghost use Rattle.std.specs.Prelude.{◌≡◌, codes, IfOk, OnErr, OnOk};
ghost use Rattle.std.specs.Io.KnownBytes.{Appends};
ghost use Rattle.bound_io.specs.Causes.{HasCause};
ghost use Rattle.bound_io.specs.Writing.{AppendsProperPrefix};
ghost use Rattle.cache_model.specs.Certificates.{IsHeaderInRange, IsRecordInRange};
ghost use Rattle.cache_model.specs.Texts.{header_lines, line, record_line, text_of};

use crate::writing::{write_end, write_header, write_record};
use bound_io::{Failed, Sink};
use cache_model::{Header, Record};
use std::marker::Model;

/// Writes a certificate record by record, and knows the version of its text and the price of the last record.
///
/// It doesn't keep the sink: each call is given it.
#[derive(Debug, Drop)]
pub struct CertWriter {
    version: u8,
    price: u128,
}

impl Model for CertWriter {
    ghost use Rattle.std.specs.Prelude.{◌≤◌};
    ghost use Rattle.cache_model.specs.declared.version.TheConstants.{CERT_VERSION, SHORT_VERSION};
    ghost use Rattle.cert_format.specs.Writers.{Writer};

    ghost Value = { Writer };

    ghost view = { λ w. record { version = w.version; price = w.price } };

    ghost invariant = { λ w. (CERT_VERSION ≤ w.version) × (w.version ≤ SHORT_VERSION) };
}

impl CertWriter {
    ghost use Rattle.cert_format.specs.Writers.{first_writer, writer_after};

    /// Writes the lines before the records, and gives the writer of the others.
    pub fn begin<K: Sink>(sink: &mut K, header: &Header) -> Result<Self, Failed>
        requires { IsHeaderInRange header.now }
        ensures first { IfOk result (λ writer. writer ≡ first_writer header.now.version) }
        ensures all { OnOk result (Appends (K.written sink.old) (K.written sink.new) (text_of (header_lines header.now))) }
        ensures prefix { OnErr result (AppendsProperPrefix (K.written sink.old) (K.written sink.new) (text_of (header_lines header.now))) }
        ensures cause { HasCause (K.faults sink.old) (K.faults sink.new) result }
        ensures none_failed { OnOk result (K.faults sink.new ≡ K.faults sink.old) }
    {
        match write_header(sink, header) {
            Ok(()) => Ok(CertWriter {
                version: header.version,
                price: 0,
            }),
            Err(fault) => Err(fault),
        }
    }

    /// Writes the line of the next record.
    pub fn push<K: Sink>(&mut self, sink: &mut K, entry: &Record) -> Result<(), Failed>
        requires { IsRecordInRange entry.now }
        ensures after { OnOk result (self.new ≡ writer_after self.old entry.now) }
        ensures kept { OnErr result (self.new ≡ self.old) }
        ensures all { OnOk result (Appends (K.written sink.old) (K.written sink.new) (line (record_line self.old.version self.old.price entry.now))) }
        ensures prefix { OnErr result (AppendsProperPrefix (K.written sink.old) (K.written sink.new)
            (line (record_line self.old.version self.old.price entry.now))) }
        ensures cause { HasCause (K.faults sink.old) (K.faults sink.new) result }
        ensures none_failed { OnOk result (K.faults sink.new ≡ K.faults sink.old) }
    {
        let written = write_record(sink, self.version, self.price, entry);
        if written.is_ok() {
            self.price = entry.price;
        }
        written
    }

    /// Writes the line after the records. It is the last call.
    pub fn end<K: Sink>(self, sink: &mut K) -> Result<(), Failed>
        ensures all { OnOk result (Appends (K.written sink.old) (K.written sink.new) (line (codes "end"))) }
        ensures prefix { OnErr result (AppendsProperPrefix (K.written sink.old) (K.written sink.new) (line (codes "end"))) }
        ensures cause { HasCause (K.faults sink.old) (K.faults sink.new) result }
        ensures none_failed { OnOk result (K.faults sink.new ≡ K.faults sink.old) }
    {
        write_end(sink)
    }
}
