//! What may be the matter with a certificate.
ghost use Rattle.std.specs.Prelude.{◌≡◌, is_some};
ghost use Rattle.bound_advice.specs.Advices.{has_look};

use cert_checker::InvalidKind;

/// What to look at if a certificate isn't valid for a trace, if something is known to look at.
pub(crate) fn certificate_advice(kind: InvalidKind) -> Option<&'static str>
    ensures { is_some result ≡ has_look kind }
{
    match kind {
        InvalidKind::RequestCount { .. }
        | InvalidKind::UnitNotDivisor { .. }
        | InvalidKind::FlowAboveWeight { .. }
        | InvalidKind::Unused { .. }
        | InvalidKind::LowerDiffers { .. } => {
            Some(
                "is it the certificate of this trace, in this form, with this block, count, idle and replace?",
            )
        }
        InvalidKind::Truncated => Some("it ends too early; copy it again"),
        _ => None,
    }
}
