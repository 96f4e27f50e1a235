//! The standard streams of the process: that no file takes the place of a closed one, and which files they are.
use bound_io::{FileId, Spared};
use bound_run::Paths;
use bound_words::Command;
use std::fs::{File, OpenOptions};
use std::io;
use std::os::fd::{AsRawFd, IntoRawFd};
use std::rt::Files;

// A file that is there on every system.
const NOWHERE: &str = "/dev/null";

// What is there if that one isn't. A folder can't be read or written either.
const ROOT: &str = "/";

// Where the system says which file the standard input is.
const STANDARD_INPUT: &str = "/proc/self/fd/0";

// The standard input and output, and the standard error.
const INPUT: i32 = 0;

const ERRORS: i32 = 2;

// The system's number for a process that has as many files open as it may.
const TOO_MANY: i32 = 24;

fn open_any(rt: &HostRuntime) -> io::Result<File> {
    File::open(rt, NOWHERE).or_else(|_| File::open(rt, ROOT))
}

// Opens a file for writing alone.
fn open_unreadable(rt: &HostRuntime) -> io::Result<File> {
    let opened = OpenOptions::new().write(true).open(rt, NOWHERE);
    opened.or_else(|_| File::open(rt, ROOT))
}

// Opens a file, which the system puts in the place of the first stream that is closed, if one is. The input gets one that
// can't be read, and an output one that can't be written. Says whether there was a closed one.
fn fill_first(rt: &HostRuntime) -> io::Result<bool> {
    let file = open_any(rt)?;
    let number = file.as_raw_fd();
    if number > ERRORS {
        return Ok(false);
    }
    if number == INPUT {
        drop(file);
        let _open = open_unreadable(rt)?.into_raw_fd();
    } else {
        let _open = file.into_raw_fd();
    }
    Ok(true)
}

/// Has each of the three streams open, so that no file which is opened later becomes one of them: a read of a closed
/// input and a write of a closed output stay failures.
pub fn fill_closed(rt: &HostRuntime) -> io::Result<()> {
    for _ in 0..3 {
        match fill_first(rt) {
            Ok(true) => {}
            Ok(false) => return Ok(()),
            Err(error) if error.raw_os_error() == Some(TOO_MANY) => return Ok(()),
            Err(error) => return Err(error),
        }
    }
    Ok(())
}

// The file that a path leads to.
fn id_at<R: Files>(rt: &R, path: &str) -> Option<FileId> {
    match rt.metadata(path) {
        Ok(found) => Some(FileId::of(&found)),
        Err(_) => None,
    }
}

// The file of a trace at this path, if the command reads one. That of a certificate alone may be replaced.
fn trace_id<R: Files>(rt: &R, command: Command, trace: &str) -> Option<FileId> {
    match trace {
        _ if !command.reads_trace() => None,
        "-" => id_at(rt, STANDARD_INPUT),
        trace => id_at(rt, trace),
    }
}

// The pipe from which a certificate at this path is read, if it is one and the command reads a certificate and makes one.
fn pipe_id<R: Files>(rt: &R, command: Command, cert: &str) -> Option<FileId> {
    if !command.remakes_certificate() {
        return None;
    }
    let path = if cert == "-" { STANDARD_INPUT } else { cert };
    match rt.metadata(path) {
        Ok(found) if !found.is_file() => Some(FileId::of(&found)),
        _ => None,
    }
}

/// The files of a run that no certificate may take the place of: those of the output and the messages, of the trace, and
/// the pipe of a certificate, at these paths.
pub fn spared_files<R: Files>(rt: &R, command: Option<Command>, paths: Paths<'_>) -> Spared {
    let output = id_at(rt, "/proc/self/fd/1");
    let errors = id_at(rt, "/proc/self/fd/2");
    Spared {
        output,
        errors,
        trace: command.and_then(|command| trace_id(rt, command, paths.trace)),
        pipe: command.and_then(|command| pipe_id(rt, command, paths.cert)),
        is_unsure: output.is_none() || errors.is_none(),
    }
}
