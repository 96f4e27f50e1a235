//! Whether an arc passes through a window.
ghost use Rattle.std.specs.Prelude.{◌≡◌, ◌<◌};
ghost use Rattle.window_arcs.specs.Passing.{passes, passes_some};

use flow_model::OuterArc;

/// Whether the arc covers all of a window and ends after it.
pub(crate) fn passes(arc: &OuterArc, width: u32, number: u32) -> bool
    ensures { result ≡ passes width number arc.now }
{
    let start = width as u64 * number as u64;
    arc.start as u64 <= start && start + (width as u64) < arc.end as u64
}

/// Whether the arc passes through some window. Then it passes through the first that begins no earlier than it.
pub(crate) fn passes_some(arc: &OuterArc, width: u32) -> bool
    requires { 0 < width }
    ensures { result ≡ passes_some width arc.now }
{
    passes(arc, width, arc.start.div_ceil(width))
}
