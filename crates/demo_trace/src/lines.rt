//! Writing the lines.
ghost use Rattle.std.specs.Prelude.{◌≡◌, All, IfOk};
ghost use Rattle.cache_model.specs.Texts.{line};
ghost use Rattle.trace_any.specs.Readings.{full_limits, reading};
ghost use Rattle.trace_any.specs.Readings.{webcache_form};
ghost use Rattle.demo_trace.specs.Laws.{read_whole};
ghost use Rattle.demo_trace.specs.Lines.{IsWritable, webcache_line, webcache_text};

use bound_base::NoMemory;
use cache_model::Object;
use cache_rules::Trace;
use line_text::LineText;
use std::alloc::Global;

/// The most bytes that a line has: three numbers, the spaces between them, and its end.
const ROOM: usize = 64;

/// The bytes that most lines need. The text starts with this room for each.
const USUAL: usize = 24;

// The line of a request, with its end.
fn line_of(number: u32, object: &Object) -> LineText<ROOM>
    ensures { result ≡ line (webcache_line number object.now) }
{
    let mut text = LineText::new();
    text.push_number(number);
    text.push_entry(b"", object.id);
    text.push_entry_line(b"", object.size);
    text
}

/// The lines of a webcache trace that ask for these requests, which are numbered from 1. If a line can say what each
/// request asks for, they are read back as this trace.
pub fn webcache_text(alloc: Global, trace: &Trace) -> Result<Vec<u8>, NoMemory>
    ensures text { IfOk result (λ text. text.items ≡ webcache_text trace.now.objects) }
    ensures read { All IsWritable trace.now.objects → IfOk result (λ text. reading webcache_form full_limits text.items ≡ read_whole trace.now.objects) }
{
    let mut text = Vec::with_capacity(alloc, trace.len() as usize * USUAL)?;
    for t in 0..trace.len() {
        let object = trace.object(trace.request(t));
        text.extend_from_slice(line_of(t + 1, &object).as_bytes())?;
    }
    Ok(text)
}
