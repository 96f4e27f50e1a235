//! A trace in memory is read.
ghost use Rattle.std.specs.Prelude.{IfOk, IfErr};
ghost use Rattle.library_uses.specs.Uses.{IsRefused, IsTraceOf};

use bound_io::CalmSource;
use cache_rules::Trace;
use std::alloc::Global;
use trace_any::{Format, Layout, Limits, RequestReader, TraceFault, load};

/// The trace of a text in the form webcache, or why the text is refused.
pub fn trace_in(alloc: Global, text: Vec<u8>) -> Result<Trace, TraceFault>
    ensures trace { IfOk result (IsTraceOf text.items) }
    ensures refused { IfErr result (IsRefused text.items) }
{
    let mut source = CalmSource::new(text);
    let mut reader = RequestReader::new(alloc, Format::lasting(Layout::Webcache), Limits::full())?;
    let (trace, _dropped) = load(alloc, &mut reader, &mut source)?;
    Ok(trace)
}
