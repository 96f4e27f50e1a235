//! Why a call of a device failed.
ghost use Rattle.std.specs.Prelude.{◌≡◌, ◌↔◌, ◌++◌, codes, string_bytes, IfOk, IsTrue};
ghost use Rattle.bound_advice.specs.Devices.{IsDeviceAdvice, IsLeft, name_of};

use crate::escape::quoted;
use std::alloc::{AllocError, Global};
use std::io;
use std::io::ErrorKind;

/// What was seen of a device: its path, what it is called if that is `-`, and why a call of it failed last.
#[derive(Clone, Copy)]
pub struct Seen<'a> {
    pub path: &'a str,
    pub standard: &'static str,
    pub reason: Option<io::Error>,
}

impl<'a> Seen<'a> {
    /// What it is called in a message.
    pub(crate) fn name(&self) -> &'a str
        ensures { result.now ≡ name_of self.now }
    {
        if self.path == "-" {
            self.standard
        } else {
            self.path
        }
    }

    /// Whether nobody reads any more what it writes.
    pub fn is_left(&self) -> bool
        ensures { IsTrue result ↔ IsLeft self.now }
    {
        match self.reason {
            Some(reason) => matches!(reason.kind(), ErrorKind::BrokenPipe),
            None => false,
        }
    }

    /// A command that has what stands there go through a filter and into the program.
    pub(crate) fn piped(
        &self,
        alloc: Global,
        filter: &str,
        command: &str,
    ) -> Result<String, AllocError> {
        if self.path == "-" {
            return format!(in alloc; "{filter} | bound_cli {command} - ..");
        }
        let path = if self.path.starts_with('-') {
            let path = self.path;
            quoted(alloc, format!(in alloc; "./{path}")?.as_str())?
        } else {
            quoted(alloc, self.path)?
        };
        let path = path.as_str();
        format!(in alloc; "{filter} {path} | bound_cli {command} - ..")
    }
}

// What is said of a device.
fn named(alloc: Global, name: &str, reason: &str) -> Result<String, AllocError>
    ensures { IfOk result (λ text. string_bytes text ≡ name.now ++ codes ": " ++ reason.now) }
{
    format!(in alloc; "{name}: {reason}")
}

/// Why a call of a device failed, in the system's words, if anybody is there to hear it.
pub fn device_advice(alloc: Global, seen: Seen<'_>) -> Result<Option<String>, AllocError>
    ensures { IfOk result (λ advice. IsDeviceAdvice seen.entry advice) }
{
    if seen.is_left() {
        return Ok(None);
    }
    match seen.reason {
        Some(reason) => {
            let reason = format!(in alloc; "{reason}")?;
            Ok(Some(named(alloc, seen.name(), reason.as_str())?))
        }
        None => Ok(Some(named(alloc, seen.name(), "it took no more bytes")?)),
    }
}
