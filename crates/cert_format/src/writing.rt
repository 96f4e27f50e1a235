//! Writing a certificate.
ghost use Rattle.std.specs.Prelude.{◌≡◌, codes, ◌≤◌, OnErr, OnOk};
ghost use Rattle.std.specs.Io.KnownBytes.{Appends};
ghost use Rattle.bound_io.specs.Causes.{HasCause};
ghost use Rattle.bound_io.specs.Writing.{AppendsProperPrefix};
ghost use Rattle.cache_model.specs.Certificates.{IsHeaderInRange, IsRecordInRange};
ghost use Rattle.cache_model.specs.declared.version.TheConstants.{CERT_VERSION, SHORT_VERSION};
ghost use Rattle.cache_model.specs.Texts.{header_lines, line, record_line, text_of};

use crate::text::{header_text, record_text};
use bound_io::{Failed, Sink, write_all};
use cache_model::{Header, Record};

/// Writes the lines before the records.
pub fn write_header<K: Sink>(sink: &mut K, header: &Header) -> Result<(), Failed>
    requires { IsHeaderInRange header.now }
    ensures all { OnOk result (Appends (K.written sink.old) (K.written sink.new) (text_of (header_lines header.now))) }
    ensures prefix { OnErr result (AppendsProperPrefix (K.written sink.old) (K.written sink.new) (text_of (header_lines header.now))) }
    ensures cause { HasCause (K.faults sink.old) (K.faults sink.new) result }
    ensures none_failed { OnOk result (K.faults sink.new ≡ K.faults sink.old) }
{
    write_all(sink, header_text(header).as_bytes())
}

/// Writes the line of a record in this version, after one of the price `before`, which is 0 for the first record.
pub fn write_record<K: Sink>(
    sink: &mut K,
    version: u8,
    before: u128,
    entry: &Record,
) -> Result<(), Failed>
    requires version { (CERT_VERSION ≤ version) × (version ≤ SHORT_VERSION) }
    requires range { IsRecordInRange entry.now }
    ensures all { OnOk result (Appends (K.written sink.old) (K.written sink.new) (line (record_line version before entry.now))) }
    ensures prefix { OnErr result (AppendsProperPrefix (K.written sink.old) (K.written sink.new) (line (record_line version before entry.now))) }
    ensures cause { HasCause (K.faults sink.old) (K.faults sink.new) result }
    ensures none_failed { OnOk result (K.faults sink.new ≡ K.faults sink.old) }
{
    write_all(sink, record_text(version, before, entry).as_bytes())
}

/// Writes the line after the records.
pub fn write_end<K: Sink>(sink: &mut K) -> Result<(), Failed>
    ensures all { OnOk result (Appends (K.written sink.old) (K.written sink.new) (line (codes "end"))) }
    ensures prefix { OnErr result (AppendsProperPrefix (K.written sink.old) (K.written sink.new) (line (codes "end"))) }
    ensures cause { HasCause (K.faults sink.old) (K.faults sink.new) result }
    ensures none_failed { OnOk result (K.faults sink.new ≡ K.faults sink.old) }
{
    write_all(sink, b"end\n")
}
