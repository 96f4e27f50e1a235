//! The last byte of a line.
ghost use Rattle.std.specs.Prelude.{◌≡◌};
ghost use Rattle.trace_lines.specs.Lines.{without_cr};

/// The line without one last CR, if it has one.
pub fn trim_cr(line: &[u8]) -> &[u8]
    ensures { result.now ≡ without_cr line.now }
{
    match line.split_last() {
        Some((b'\r', text)) => text,
        _ => line,
    }
}
