//! `bound_io`: where a certificate is made, and what it takes the place of.
use bound_io::{FileId, FileSink, Spared, write_all};
use compared::{holds, same};
use std::alloc::Global;
use std::fs;
use std::fs::Permissions;
use std::io::Read;
use std::os::unix::fs::{PermissionsExt, symlink};
use std::process::Abort;
use std::rt::Files;

const OLD: &[u8] = b"cache-bound-certificate 1\nold\n";

const NEW: &[u8] = b"cache-bound-certificate 1\nnew\n";

// The bytes of a small file, or none if there is no such file.
fn bytes_at<R: Files + Abort>(rt: &R, path: &str) -> ([u8; 40], usize) {
    let mut held = [0; 40];
    let Ok(mut file) = fs::open(rt, path) else {
        return (held, 0);
    };
    let count = file.read(&mut held).expect(rt, "a read");
    (held, count)
}

// Whether a file holds these bytes; none are those of no file, and of an empty one.
fn holds_bytes<R: Files + Abort>(rt: &R, path: &str, want: &[u8]) {
    let (held, count) = bytes_at(rt, path);
    holds(path, count <= 40).expect(rt, "a row");
    same(path, &held[..count], want).expect(rt, "a row");
}

fn put<R: Files + Abort>(rt: &R, path: &str, bytes: &[u8]) {
    holds(path, fs::write(rt, path, bytes).is_ok()).expect(rt, "a row");
}

fn remove<R: Files + Abort>(rt: &R, path: &str) {
    holds(path, fs::remove_file(rt, path).is_ok()).expect(rt, "a row");
}

// Writes a new certificate to its end, and says whether it took its place.
fn makes<R: Files + Print + Abort>(rt: &R, alloc: Global, path: &str, spared: Spared) -> bool {
    let mut sink = FileSink::new(rt, alloc, path).expect(rt, "memory");
    sink.spare(spared);
    let is_written = write_all(&mut sink, NEW).is_ok();
    sink.finish(is_written).is_ok() && is_written
}

#[test]
fn stands_aside_until_it_is_whole(rt: HostRuntime) {
    let mut sink = FileSink::new(&rt, rt.alloc(), "fresh").expect(&rt, "memory");
    let written = write_all(&mut sink, NEW);
    same("the writing", written.is_ok(), true).expect(&rt, "a row");
    holds_bytes(&rt, "fresh", b"");
    holds_bytes(&rt, "fresh.part", NEW);
    holds("its end", sink.finish(true).is_ok()).expect(&rt, "a row");
    holds_bytes(&rt, "fresh", NEW);
    holds_bytes(&rt, "fresh.part", b"");
    remove(&rt, "fresh");
}

#[test]
fn leaves_what_stands_aside(rt: HostRuntime) {
    put(&rt, "beside.part", b"notes");
    let linked = symlink(&rt, "beside.part", "beside.part1");
    holds("a link", linked.is_ok()).expect(&rt, "a row");
    let made = makes(&rt, rt.alloc(), "beside", Spared::default());
    same("the certificate", made, true).expect(&rt, "a row");
    holds_bytes(&rt, "beside", NEW);
    holds_bytes(&rt, "beside.part", b"notes");
    remove(&rt, "beside.part1");
    remove(&rt, "beside.part");
    remove(&rt, "beside");
}

// A certificate with these permissions, and whether a new one may take its place.
const MODES: [(u32, bool); 3] = [(0o600, true), (0o640, true), (0o444, false)];

#[test]
fn keeps_permissions_and_refuses_a_protected_file(rt: HostRuntime) {
    for (mode, is_taken) in MODES {
        put(&rt, "guarded", OLD);
        let kept = fs::set_permissions(&rt, "guarded", Permissions::from_mode(mode));
        holds(mode, kept.is_ok()).expect(&rt, "a row");
        let made = makes(&rt, rt.alloc(), "guarded", Spared::default());
        same(mode, made, is_taken).expect(&rt, "a row");
        holds_bytes(&rt, "guarded", if is_taken { NEW } else { OLD });
        let found = fs::metadata(&rt, "guarded").expect(&rt, "a file");
        same(mode, found.permissions().mode() & 0o777, mode).expect(&rt, "a row");
        remove(&rt, "guarded");
    }
}

// What stands at a path, and whether a certificate may take its place.
const STANDING: [(&[u8], bool); 5] = [
    (b"", true),
    (b"cache-bo", true),
    (OLD, true),
    (b"cache-bored", false),
    (b"1 7 4\n", false),
];

#[test]
fn takes_the_place_of_a_certificate_alone(rt: HostRuntime) {
    for (bytes, is_taken) in STANDING {
        put(&rt, "standing", bytes);
        let made = makes(&rt, rt.alloc(), "standing", Spared::default());
        same(bytes, made, is_taken).expect(&rt, "a row");
        holds_bytes(&rt, "standing", if is_taken { NEW } else { bytes });
        remove(&rt, "standing");
    }
}

#[test]
fn a_link_stays_a_link(rt: HostRuntime) {
    let linked = symlink(&rt, "far_end", "near_end");
    holds("a link", linked.is_ok()).expect(&rt, "a row");
    for shows in ["to no file", "to a certificate"] {
        let made = makes(&rt, rt.alloc(), "near_end", Spared::default());
        same(shows, made, true).expect(&rt, "a row");
        holds_bytes(&rt, "far_end", NEW);
        let found = fs::symlink_metadata(&rt, "near_end").expect(&rt, "a link");
        same(shows, found.is_symlink(), true).expect(&rt, "a row");
    }
    remove(&rt, "near_end");
    remove(&rt, "far_end");
}

// A path, of which `y` is a link to `x.part`, and whether a certificate may be put there.
const NAMES: [(&str, bool); 12] = [
    ("x.part", false),
    ("x.part1", false),
    ("x.part7", false),
    ("x.part9", false),
    (".part", false),
    ("y", false),
    ("x.part0", true),
    ("x.part10", true),
    ("x.parts", true),
    ("x.part.cert", true),
    ("xpart", true),
    ("part", true),
];

#[test]
fn refuses_the_names_under_which_certificates_are_made(rt: HostRuntime) {
    let linked = symlink(&rt, "x.part", "y");
    holds("a link", linked.is_ok()).expect(&rt, "a row");
    for (path, is_taken) in NAMES {
        let made = makes(&rt, rt.alloc(), path, Spared::default());
        same(path, made, is_taken).expect(&rt, "a row");
        same(path, fs::metadata(&rt, path).is_ok(), is_taken).expect(&rt, "a row");
        if is_taken {
            remove(&rt, path);
        }
    }
    holds_bytes(&rt, "x.part.part", b"");
    remove(&rt, "y");
}

#[test]
fn leaves_the_files_of_the_run(rt: HostRuntime) {
    put(&rt, "spared", b"");
    let found = fs::metadata(&rt, "spared").expect(&rt, "a file");
    let id = Some(FileId::of(&found));
    let none = Spared::default();
    for spared in [
        Spared { output: id, ..none },
        Spared { errors: id, ..none },
        Spared { trace: id, ..none },
        Spared {
            is_unsure: true,
            ..none
        },
    ] {
        let made = makes(&rt, rt.alloc(), "spared", spared);
        same(spared.is_unsure, made, false).expect(&rt, "a row");
        holds_bytes(&rt, "spared", b"");
    }
    let free = makes(&rt, rt.alloc(), "spared", none);
    same("of no run", free, true).expect(&rt, "a row");
    remove(&rt, "spared");
}
