//! The check of the end.
ghost use Rattle.std.specs.Prelude.{◌≡◌};
ghost use Rattle.cert_checker.specs.Rules.{end_rules, first_some, unless_fault};

use crate::invalid::InvalidKind;
use crate::verdict::Counted;
use cert_format::Header;

/// The first rule that the end fails, if this request is the first that has a flow it may not have.
pub(crate) fn check_end(
    header: &Header,
    unused: Option<u32>,
    counted: &Counted,
) -> Result<(), InvalidKind>
    ensures { result ≡ unless_fault (first_some (end_rules header.now unused counted.now)) }
{
    if let Some(number) = unused {
        return Err(InvalidKind::Unused {
            number: number as u64,
        });
    }
    if header.upper != counted.upper {
        return Err(InvalidKind::UpperDiffers {
            written: header.upper,
            counted: counted.upper,
        });
    }
    if header.flow != counted.flow {
        return Err(InvalidKind::FlowDiffers {
            written: header.flow,
            counted: counted.flow,
        });
    }
    if header.lower != counted.lower {
        return Err(InvalidKind::LowerDiffers {
            written: header.lower,
            counted: counted.lower,
        });
    }
    if header.exact && counted.upper != counted.flow {
        return Err(InvalidKind::ExactGap {
            upper: counted.upper,
            flow: counted.flow,
        });
    }
    Ok(())
}
