//! `bound_io`: sources in memory and over files.
use bound_io::{
    CalmSource, Failed, FileSink, FileSource, LineReader, MemSource, Sink, Source, write_all,
};
use compared::{holds, same};
use std::alloc::Global;
use std::fs;
use std::process::Abort;
use std::rt::Files;

// What a read gives, and its answer.
type Row = (&'static [u8], Result<usize, Failed>);

// Reads into a buffer of this many bytes.
fn read_each<S: Source>(rt: &impl Abort, source: &mut S, room: usize, rows: &[Row]) {
    holds(room, room <= 5).expect(rt, "a row");
    for (prefix, want) in rows {
        let mut buf = [0; 5];
        same(*prefix, source.read(&mut buf[..room]), *want).expect(rt, "a row");
        holds(*prefix, buf.starts_with(prefix)).expect(rt, "a row");
    }
}

const CALM: [Row; 3] = [(b"abcde", Ok(5)), (b"fg", Ok(2)), (b"", Ok(0))];

#[test]
fn gives_what_fits_up_to_the_end(rt: HostRuntime) {
    let bytes = b"abcdefg".to_vec(rt.alloc()).expect(&rt, "memory");
    let mut source = CalmSource::new(bytes);
    read_each(&rt, &mut source, 5, &CALM);
}

const FAILING: [Row; 6] = [
    (b"abc", Ok(3)),
    (b"", Err(Failed)),
    (b"def", Ok(3)),
    (b"", Err(Failed)),
    (b"g", Ok(1)),
    (b"", Ok(0)),
];

#[test]
fn a_failed_read_gives_nothing_and_the_next_goes_on(rt: HostRuntime) {
    let bytes = b"abcdefg".to_vec(rt.alloc()).expect(&rt, "memory");
    let fails = vec![in rt.alloc(); 2, 4].expect(&rt, "memory");
    let mut source = MemSource::new(bytes, fails, 3);
    read_each(&rt, &mut source, 5, &FAILING);
    drop(source);
}

#[test]
fn a_small_buffer_is_filled(rt: HostRuntime) {
    let bytes = b"abcdefg".to_vec(rt.alloc()).expect(&rt, "memory");
    let mut source = MemSource::new(bytes, Vec::new(rt.alloc()), 100);
    read_each(&rt, &mut source, 2, &[(b"ab", Ok(2))]);
    drop(source);
}

fn write_pieces<K: Sink>(sink: &mut K, pieces: &[&[u8]]) -> Result<(), Failed> {
    for piece in pieces {
        write_all(sink, piece)?;
    }
    Ok(())
}

fn write_file<R: Files + Print + Abort>(
    rt: &R,
    alloc: Global,
    path: &str,
    pieces: &[&[u8]],
) -> Result<(), Failed> {
    let mut sink = FileSink::new(rt, alloc, path).expect(rt, "memory");
    let written = write_pieces(&mut sink, pieces);
    holds(path, sink.finish(written.is_ok()).is_ok()).expect(rt, "a row");
    written
}

fn read_file<R: Files + Input + Abort>(rt: &R, alloc: Global, path: &str) -> Result<usize, Failed> {
    let mut source = FileSource::new(rt, alloc, path).expect(rt, "memory");
    source.read(&mut [0; 10])
}

// Whether this is the next line, or the end.
fn gives<S: Source>(lines: &mut LineReader, source: &mut S, want: Option<&[u8]>) -> bool {
    lines.next_line(source) == Ok(want)
}

// The answers of a reader of lines over a file.
fn check_lines<R: Files + Input + Abort>(
    rt: &R,
    alloc: Global,
    path: &str,
    wants: &[Option<&[u8]>],
) {
    let mut source = FileSource::new(rt, alloc, path).expect(rt, "memory");
    let mut lines = LineReader::new(alloc, 100).expect(rt, "memory");
    for (place, want) in wants.iter().enumerate() {
        holds(place, gives(&mut lines, &mut source, *want)).expect(rt, "a row");
    }
    drop(lines);
}

const PATH: &str = "bound_io_reads_what_was_written";

const LINES: [Option<&[u8]>; 3] = [Some(b"one line"), Some(b"and one"), None];

#[test]
fn reads_what_was_written(rt: HostRuntime) {
    let empty = fs::write(&rt, PATH, b"".as_slice());
    holds("an empty file", empty.is_ok()).expect(&rt, "a row");
    let written = write_file(&rt, rt.alloc(), PATH, &[b"one line\n", b"and one"]);
    same("the file", written, Ok(())).expect(&rt, "a row");
    check_lines(&rt, rt.alloc(), PATH, &LINES);
    holds("its removal", fs::remove_file(&rt, PATH).is_ok()).expect(&rt, "a row");
}

const NOTES: &str = "bound_io_leaves_what_is_no_certificate";

#[test]
fn leaves_a_file_that_is_no_certificate(rt: HostRuntime) {
    let notes = fs::write(&rt, NOTES, b"notes".as_slice());
    holds("a file of notes", notes.is_ok()).expect(&rt, "a row");
    let written = write_file(&rt, rt.alloc(), NOTES, &[b"one line\n"]);
    same("the file", written, Err(Failed)).expect(&rt, "a row");
    check_lines(&rt, rt.alloc(), NOTES, &[Some(b"notes"), None]);
    holds("its removal", fs::remove_file(&rt, NOTES).is_ok()).expect(&rt, "a row");
}

const OLD: &str = "bound_io_replaces_a_certificate";

// Writes the certificate anew, up to its end or not.
fn write_anew<R: Files + Print + Abort>(rt: &R, alloc: Global, is_whole: bool) {
    let mut sink = FileSink::new(rt, alloc, OLD).expect(rt, "memory");
    let written = write_pieces(&mut sink, &[b"cache-bound-certificate 1\n", b"new\n"]);
    same("the file", written, Ok(())).expect(rt, "a row");
    holds("its end", sink.finish(is_whole).is_ok()).expect(rt, "a row");
}

#[test]
fn replaces_a_certificate_by_a_whole_one(rt: HostRuntime) {
    let old = fs::write(&rt, OLD, b"cache-bound-certificate 1\nold\n".as_slice());
    holds("an old certificate", old.is_ok()).expect(&rt, "a row");
    let first: &[u8] = b"cache-bound-certificate 1";
    write_anew(&rt, rt.alloc(), false);
    check_lines(&rt, rt.alloc(), OLD, &[Some(first), Some(b"old"), None]);
    write_anew(&rt, rt.alloc(), true);
    check_lines(&rt, rt.alloc(), OLD, &[Some(first), Some(b"new"), None]);
    holds("its removal", fs::remove_file(&rt, OLD).is_ok()).expect(&rt, "a row");
}

#[test]
fn a_missing_file_and_a_folder_are_faults(rt: HostRuntime) {
    for path in ["no_such_folder/no_such_file", "."] {
        let read = read_file(&rt, rt.alloc(), path);
        same(path, read, Err(Failed)).expect(&rt, "a row");
        let written = write_file(&rt, rt.alloc(), path, &[b"x"]);
        same(path, written, Err(Failed)).expect(&rt, "a row");
    }
}
