//! The text of an upgrade.
ghost use Rattle.std.specs.Prelude.{◌≡◌, IfOk};
ghost use Rattle.cache_model.specs.Texts.{line};
ghost use Rattle.bound_report.specs.Upgrades.{upgrade_line, upgrade_text};

use crate::report::{Line, append};
use bound_base::NoMemory;
use cache_model::SHORT_VERSION;
use line_text::LineText;
use std::alloc::Global;

fn upgrade_line(requests: u32) -> Line
    ensures { result ≡ line (upgrade_line requests) }
{
    let mut text = LineText::new();
    text.push_entry(b"upgraded requests", requests);
    text.push_entry_line(b" version", SHORT_VERSION);
    text
}

/// The report of an upgrade of a certificate of this number of requests.
pub fn upgrade_text(alloc: Global, requests: u32) -> Result<Vec<u8>, NoMemory>
    ensures { IfOk result (λ text. text.items ≡ upgrade_text requests) }
{
    let mut text = Vec::new(alloc);
    append(&mut text, &upgrade_line(requests))?;
    Ok(text)
}
