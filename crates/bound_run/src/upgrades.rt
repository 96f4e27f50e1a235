//! A certificate that is read, and written again in the second version of its text.
ghost use Rattle.std.specs.Prelude.{◌≡◌, [], IfOk, IfErr, OnOk};
ghost use Rattle.bound_io.specs.Devices.{seen};
ghost use Rattle.bound_io.specs.GrowSink.{bytes_written};
ghost use Rattle.bound_io.specs.Reading.{LosesPrefix};
ghost use Rattle.cert_format.specs.Readers.{fresh};
ghost use Rattle.bound_run.specs.Statuses.{refusal_of_check};
ghost use Rattle.bound_run.specs.Upgrades.{IsRewritten, IsUpgraded, upgraded};
ghost use Rattle.bound_run.specs.Refusals.{RefusesUpgrade};

use crate::status::refusal_of_check;
use crate::writing::Texts;
use bound_base::NoMemory;
use bound_io::{Failed, GrowSink, Source};
use bound_report::{Refusal, upgrade_text};
use cache_model::{Header, SHORT_VERSION};
use cert_checker::CheckFault;
use cert_format::{CertReader, CertWriter};
use std::alloc::Global;

// The header, in the second version.
fn upgraded(header: &Header) -> Header
    ensures { result ≡ upgraded header.now }
{
    let mut changed = *header;
    changed.version = SHORT_VERSION;
    changed
}

// A sink in memory fails only if memory runs out.
fn grown<T>(written: Result<T, Failed>) -> Result<T, NoMemory>
    ensures { IfOk result (λ value. written ≡ Ok value) }
{
    match written {
        Ok(value) => Ok(value),
        Err(Failed) => Err(NoMemory),
    }
}

// Reads a certificate to its end, and writes it in the second version as it goes along. Nothing of it was read before.
fn rewrite<Q: Source>(
    reader: &mut CertReader,
    source: &mut Q,
    sink: &mut GrowSink,
) -> Result<Header, CheckFault>
    requires fresh { reader.old ≡ fresh }
    requires empty { bytes_written sink.old ≡ [] }
    ensures rewritten { IfOk result (λ h. IsRewritten (seen Q.left Q.faults source.old source.new) h (bytes_written sink.new)) }
    ensures refused { IfErr result (λ fault. RefusesUpgrade (seen Q.left Q.faults source.old source.new) (refusal_of_check fault)) }
    ensures source { LosesPrefix (Q.left source.old) (Q.left source.new) }
    ensures none_failed { OnOk result (Q.faults source.new ≡ Q.faults source.old) }
{
    let header = reader.header(source)?;
    let mut writer = grown(CertWriter::begin(sink, &upgraded(&header)))?;
    for _ in 0..header.requests {
        let entry = reader.next_record(source)?;
        grown(writer.push(sink, &entry))?;
    }
    reader.finish_text(source)?;
    grown(writer.end(sink))?;
    Ok(header)
}

/// The certificate that the source has left, in the second version of its text, and the report of that.
pub(crate) fn upgrade_all<Q: Source>(alloc: Global, cert: &mut Q) -> Result<Texts, Refusal>
    ensures upgraded { IfOk result (λ texts. IsUpgraded (seen Q.left Q.faults cert.old cert.new) texts.cert.items texts.report.items) }
    ensures refused { IfErr result (RefusesUpgrade (seen Q.left Q.faults cert.old cert.new)) }
    ensures source { LosesPrefix (Q.left cert.old) (Q.left cert.new) }
    ensures none_failed { OnOk result (Q.faults cert.new ≡ Q.faults cert.old) }
{
    let mut sink = GrowSink::new(alloc);
    // Dropped here, for the proof.
    let rewritten = {
        let mut reader = CertReader::new(alloc)?;
        rewrite(&mut reader, cert, &mut sink)
    };
    match rewritten {
        Ok(header) => Ok(Texts {
            cert: sink.into_bytes(),
            report: upgrade_text(alloc, header.requests)?,
        }),
        Err(fault) => Err(refusal_of_check(fault)),
    }
}
