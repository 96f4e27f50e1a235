//! Which file a path leads to, and which files of a run stay as they are.
use std::fs::Metadata;
use std::io;
use std::io::ErrorKind;
use std::os::unix::fs::{FileTypeExt, MetadataExt};

/// A file, by its device and its number there. Two paths lead to one file if both are equal.
#[derive(Clone, Copy, Debug, PartialEq, Eq)]
pub struct FileId {
    device: u64,
    number: u64,
}

impl FileId {
    /// The file that this is the metadata of.
    pub fn of(found: &Metadata) -> FileId {
        FileId {
            device: found.dev(),
            number: found.ino(),
        }
    }
}

/// The files of a run whose place no certificate takes, whatever they hold.
#[derive(Clone, Copy, Debug, PartialEq, Eq, Default)]
pub struct Spared {
    /// Where the report goes.
    pub output: Option<FileId>,
    /// Where the messages go.
    pub errors: Option<FileId>,
    /// Where the trace comes from.
    pub trace: Option<FileId>,
    /// The pipe from which a certificate comes, if it comes from one.
    pub pipe: Option<FileId>,
    /// Whether the system doesn't tell where the output and the messages go. Then no file is written over at all.
    pub is_unsure: bool,
}

impl Spared {
    // Why a certificate may not go to this file: it is one of those that are spared. A terminal and /dev/null may be two
    // of them at once.
    pub(crate) fn check(&self, found: &Metadata) -> io::Result<()> {
        if found.file_type().is_char_device() {
            return Ok(());
        }
        let id = Some(FileId::of(found));
        if id == self.output {
            Err(refused("it is the standard output; write - in its place"))
        } else if id == self.errors {
            Err(refused("it is the standard error"))
        } else if id == self.trace {
            Err(refused("it is the trace, and is left as it is"))
        } else if id == self.pipe {
            Err(refused("the certificate is read from it"))
        } else if self.is_unsure && found.is_file() {
            Err(refused("the system doesn't tell whether it is the standard output"))
        } else {
            Ok(())
        }
    }
}

/// The reason why a file is left as it is.
pub(crate) fn refused(why: &str) -> io::Error {
    io::Error::new(ErrorKind::AlreadyExists, why)
}
