//! Where a certificate is made: aside, until it is whole.
ghost use Rattle.std.specs.Prelude.{◌≡◌, ◌+◌, ◌≤◌, ◌++◌, IfOk, false, length, string_len, true};
ghost use Rattle.std.specs.String.{string_bytes, string_capacity};
ghost use Rattle.bound_io.specs.Asides.{is_aside_name};

use crate::asides::{ENDINGS, is_aside_name};
use crate::file_id::{FileId, Spared, refused};
use crate::standing::{Standing, standing_at};
use std::alloc::Global;
use std::fs::{OpenFile, OpenOptions, Permissions};
use std::io;
use std::io::ErrorKind;
use std::os::unix::fs::OpenOptionsExt;
use std::rt::Files;

// The length of the longest ending.
const LONGEST: usize = 6;

// How many links are followed.
const MOST_LINKS: u32 = 40;

// The permissions of a file that nobody else may read.
const PRIVATE: u32 = 0o600;

// Those that a new file has, less what the user's mask takes away.
const USUAL: u32 = 0o666;

/// A file that is opened to write a certificate.
#[derive(Drop)]
pub(crate) struct Opened<F> {
    pub(crate) file: F,
    /// Whether it stands aside.
    pub(crate) is_aside: bool,
}

/// Why a certificate can't be written.
#[derive(Clone, Copy)]
pub(crate) struct Trouble {
    pub(crate) reason: io::Error,
    /// Whether it is of the file that stands aside.
    pub(crate) of_aside: bool,
}

/// Why a certificate isn't in its place.
#[derive(Drop)]
pub struct Unplaced {
    pub reason: io::Error,
    /// Where the file was made.
    pub aside: String,
    /// Whether it still stands there.
    pub is_left: bool,
}

/// What a path leads to, and the name beside it under which its certificate is made. Both have their memory from the
/// start. No certificate is made under the name at which another is to stand.
#[derive(Drop)]
pub(crate) struct Place {
    target: String,
    aside: String,
    ghost is_apart: { is_aside_name (string_bytes target) ≡ false },
    ghost has_room: { string_len target + 6 ≤ string_capacity aside },
}

// What stands before the last name of a path.
fn folder_of(path: &str) -> &str {
    match path.rsplit_once('/') {
        Some((folder, _)) => folder,
        None => ".",
    }
}

// Where a link leads.
fn follow_link<R: Files>(rt: &R, alloc: Global, path: &str) -> io::Result<String> {
    let link = rt.read_link(alloc, path)?.into_string();
    if link.as_str().starts_with('/') {
        return Ok(link);
    }
    let folder = folder_of(path);
    Ok(format!(in alloc; "{folder}/{}", link.as_str())?)
}

fn is_link<R: Files>(rt: &R, path: &str) -> bool {
    match rt.symlink_metadata(path) {
        Ok(found) => found.is_symlink(),
        Err(_) => false,
    }
}

// Where a path leads through the links at its end, of which the last may lead to no file.
fn follow_links<R: Files>(rt: &R, alloc: Global, path: &str) -> io::Result<String> {
    let mut target = String::from_str(alloc, path)?;
    for _ in 0..MOST_LINKS {
        if !is_link(rt, target.as_str()) {
            return Ok(target);
        }
        target = follow_link(rt, alloc, target.as_str())?;
    }
    Err(io::Error::from(ErrorKind::FilesystemLoop))
}

impl Place {
    /// Follows the links at the end of a path, and takes the memory for the names. A path under which another run may make
    /// its certificate is refused, and a link to one too: else the one run could rename the file of the other.
    pub(crate) fn of<R: Files>(rt: &R, alloc: Global, path: &str) -> io::Result<Place>
        ensures { IfOk result (λ place. is_aside_name path.now ≡ false) }
    {
        let target = follow_links(rt, alloc, path)?;
        if is_aside_name(path) || is_aside_name(target.as_str()) {
            return Err(refused(
                "names in .part or .part1 to .part9 are for certificates that are being made",
            ));
        }
        let aside = String::with_capacity(alloc, target.len() + LONGEST)?;
        Ok(Place { target, aside })
    }

    /// The name under which the certificate is made.
    pub(crate) fn aside(&self) -> &str {
        self.aside.as_str()
    }

    // Takes the name with this ending, for which it needs no memory.
    fn name_aside(&mut self, ending: &str)
        requires short { length ending.now ≤ 6 }
        requires listed { is_aside_name ending.now ≡ true }
        ensures name { string_bytes self.new.aside ≡ string_bytes self.old.target ++ ending.now }
        ensures is_aside_name { is_aside_name (string_bytes self.new.aside) ≡ true }
    {
        self.aside.clear();
        self.aside.push_str(self.target.as_str()).unwrap();
        self.aside.push_str(ending).unwrap();
    }

    // Makes a file under the first name that is free.
    fn create_aside<R: Files>(&mut self, rt: &R, mode: u32) -> io::Result<R::File> {
        for ending in ENDINGS {
            self.name_aside(ending);
            let made = OpenOptions::new()
                .write(true)
                .create_new(true)
                .mode(mode)
                .open(rt, self.aside.as_str());
            match made {
                Err(error) if error.kind() == ErrorKind::AlreadyExists => {}
                made => return made,
            }
        }
        Err(refused("it stands there, as do the names before it; remove those that no run writes"))
    }

    // Makes a file aside with the permissions of an old one.
    fn create_like<R: Files>(&mut self, rt: &R, old: Permissions) -> io::Result<R::File> {
        let file = self.create_aside(rt, PRIVATE)?;
        match file.set_permissions(old) {
            Ok(()) => Ok(file),
            Err(error) => {
                drop(file);
                let _ = rt.remove_file(self.aside.as_str());
                Err(error)
            }
        }
    }

    // Whether the file that a path leads to is the one at the end of its links. A file that is open and has no name any
    // more can't be replaced.
    fn is_found<R: Files>(&self, rt: &R, path: &str) -> bool {
        match (rt.metadata(path), rt.symlink_metadata(self.target.as_str())) {
            (Ok(led_to), Ok(found)) => FileId::of(&led_to) == FileId::of(&found),
            (Err(_), Err(_)) => true,
            _ => false,
        }
    }

    // Makes the file aside that is to take the place of what stands.
    fn open_aside<R: Files>(
        &mut self,
        rt: &R,
        path: &str,
        old: Option<Permissions>,
    ) -> Result<Opened<R::File>, Trouble> {
        if !self.is_found(rt, path) {
            return Err(Trouble {
                reason: refused("its link leads to a file without a name"),
                of_aside: false,
            });
        }
        let made = match old {
            Some(old) => self.create_like(rt, old),
            None => self.create_aside(rt, USUAL),
        };
        match made {
            Ok(file) => Ok(Opened {
                file,
                is_aside: true,
            }),
            Err(reason) => Err(Trouble {
                reason,
                of_aside: true,
            }),
        }
    }

    /// Opens what a path stands for, to write a certificate: a pipe or a terminal as it is, and for all else a new file
    /// aside.
    pub(crate) fn open<R: Files>(
        &mut self,
        rt: &R,
        path: &str,
        spared: &Spared,
    ) -> Result<Opened<R::File>, Trouble> {
        let of_path = |reason| Trouble {
            reason,
            of_aside: false,
        };
        match standing_at(rt, path, spared).map_err(of_path)? {
            Standing::Nothing => self.open_aside(rt, path, None),
            Standing::Old(old) => self.open_aside(rt, path, Some(old)),
            Standing::Stream => {
                let opened = OpenOptions::new().write(true).open(rt, path);
                let file = opened.map_err(of_path)?;
                Ok(Opened {
                    file,
                    is_aside: false,
                })
            }
        }
    }

    // Whether the file that was made still stands where it was made. Another program may have replaced it.
    fn is_left<R: Files>(&self, rt: &R, file: &R::File) -> bool {
        match (file.metadata(), rt.symlink_metadata(self.aside.as_str())) {
            (Ok(made), Ok(found)) => FileId::of(&made) == FileId::of(&found),
            _ => false,
        }
    }

    // Puts the certificate into its place, once it is on the disk. What came to stand there meanwhile is looked at as
    // before.
    fn put<R: Files>(&self, rt: &R, file: &R::File, spared: &Spared) -> io::Result<()> {
        file.sync_all()?;
        standing_at(rt, self.target.as_str(), spared)?;
        if !self.is_left(rt, file) {
            return Err(refused("another program took away the file in which it was made"));
        }
        rt.rename(self.aside.as_str(), self.target.as_str())
    }

    // Removes a part of a certificate, if it still stands where it was made.
    fn remove<R: Files>(&self, rt: &R, file: &R::File) -> io::Result<()> {
        if self.is_left(rt, file) {
            rt.remove_file(self.aside.as_str())
        } else {
            Ok(())
        }
    }

    /// Puts what was made into its place if it is whole, and else removes it.
    pub(crate) fn end<R: Files>(
        self,
        rt: &R,
        file: R::File,
        is_whole: bool,
        spared: &Spared,
    ) -> Result<(), Unplaced> {
        let ended = if is_whole {
            self.put(rt, &file, spared)
        } else {
            self.remove(rt, &file)
        };
        match ended {
            Ok(()) => Ok(()),
            Err(reason) => Err(Unplaced {
                reason,
                is_left: self.is_left(rt, &file),
                aside: self.aside,
            }),
        }
    }
}
