//! What stands where a certificate is to be written.
use crate::file_id::{Spared, refused};
use std::fs::{File, Metadata, OpenOptions, Permissions};
use std::io;
use std::io::{ErrorKind, Read};
use std::os::unix::fs::FileTypeExt;
use std::rt::Files;

// How every certificate begins, of whatever version.
const CERT_BEGINS: &[u8; 24] = b"cache-bound-certificate ";

/// What stands at the end of a path, if a certificate may be written there.
#[derive(Drop)]
pub(crate) enum Standing {
    /// No file.
    Nothing,
    /// An empty file or a certificate, or the beginning of one, with these permissions.
    Old(Permissions),
    /// What keeps no bytes, as a pipe or a terminal.
    Stream,
}

// Whether a file of this length begins as a certificate does, as far as it goes.
fn is_certificate<R: Files>(rt: &R, path: &str, len: u64) -> io::Result<bool> {
    let mut start = [0; 24];
    let count = len.min(24) as usize;
    File::open(rt, path)?.read_exact(&mut start[..count])?;
    Ok(start[..count] == CERT_BEGINS[..count])
}

// Refuses a file with bytes that are not those of a certificate, and one that may not be written.
fn check_old<R: Files>(rt: &R, path: &str, found: &Metadata) -> io::Result<()> {
    if !is_certificate(rt, path, found.len())? {
        return Err(refused("a file that is no certificate stands there, and is left as it is"));
    }
    if found.permissions().readonly() {
        return Err(io::Error::new(
            ErrorKind::PermissionDenied,
            "it is write protected, and is left as it is",
        ));
    }
    OpenOptions::new().write(true).open(rt, path)?;
    Ok(())
}

fn standing_of<R: Files>(
    rt: &R,
    path: &str,
    found: &Metadata,
    spared: &Spared,
) -> io::Result<Standing> {
    spared.check(found)?;
    if found.is_file() {
        check_old(rt, path, found)?;
        Ok(Standing::Old(found.permissions()))
    } else if found.file_type().is_block_device() {
        Err(refused("it is a block device, and is left as it is"))
    } else {
        Ok(Standing::Stream)
    }
}

/// What stands at the end of a path, or why no certificate may be written there.
pub(crate) fn standing_at<R: Files>(rt: &R, path: &str, spared: &Spared) -> io::Result<Standing> {
    match rt.metadata(path) {
        Ok(found) => standing_of(rt, path, &found, spared),
        Err(error) if error.kind() == ErrorKind::NotFound => Ok(Standing::Nothing),
        Err(error) => Err(error),
    }
}
