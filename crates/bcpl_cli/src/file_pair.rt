//! Two files that are written together, such as a text and its certificate.

use crate::Failure;
use crate::atomic_file::{AtomicFile, Links, NAMES, PathKind, path_kind, unfinished_path};
use crate::file_identity::parts;
use bc_word::Memory;
use std::alloc::Global;
use std::io::Write;
use std::os::unix::fs::MetadataExt;
use std::rt::Files;
use std::{fs, io};

/// The bit of a folder's mode in which only the owner of a file may remove or rename it.
const STICKY: u32 = 0o1000;

/// What had a path before a new file was given it.
#[derive(Drop)]
enum Earlier {
    /// Nothing.
    Nothing,
    /// A file that also has this path until the new one is there to stay.
    Linked(String),
    /// Something that can't be restored.
    Lost,
}

/// Whether a further name for the file with this path could be removed again. In a sticky folder it can't if the file
/// belongs to another user than the new file `beside`, which is the caller's.
fn is_removable<F: Files>(rt: &F, path: &str, beside: &str) -> bool {
    let (folder, _) = parts(path);
    let Ok(folder) = fs::metadata(rt, folder) else {
        return false;
    };
    match (
        fs::symlink_metadata(rt, path),
        fs::symlink_metadata(rt, beside),
    ) {
        (Ok(old), Ok(new)) => folder.mode() & STICKY == 0 || old.uid() == new.uid(),
        _ => false,
    }
}

/// A further name for the regular file with this path.
fn linked<F: Files>(rt: &F, alloc: Global, path: &str) -> Result<Earlier, Memory> {
    for number in 0..NAMES {
        let name = unfinished_path(alloc, path, number)?;
        match fs::hard_link(rt, path, name.as_str()) {
            Ok(()) => return Ok(Earlier::Linked(name)),
            Err(error) if error.kind() == io::ErrorKind::AlreadyExists => {}
            Err(_) => return Ok(Earlier::Lost),
        }
    }
    Ok(Earlier::Lost)
}

impl Earlier {
    /// What has the path of a file that is being written, before that file is put there.
    fn of<W: Write + Drop, F: Files>(
        rt: &F,
        alloc: Global,
        written: &AtomicFile<W>,
        path: &str,
    ) -> Result<Earlier, Memory> {
        let Some(beside) = written.beside() else {
            return Ok(Earlier::Lost);
        };
        match path_kind(rt, path) {
            PathKind::Nothing => Ok(Earlier::Nothing),
            PathKind::Plain(_) if is_removable(rt, path, beside) => linked(rt, alloc, path),
            PathKind::Plain(_) | PathKind::Other => Ok(Earlier::Lost),
        }
    }

    /// Gives the path back to what had it.
    fn restore<F: Files>(self, rt: &F, path: &str) {
        let _ = match &self {
            Earlier::Nothing => fs::remove_file(rt, path),
            Earlier::Linked(name) => fs::rename(rt, name.as_str(), path),
            Earlier::Lost => Ok(()),
        };
        self.forget(rt);
    }

    /// Removes the further name.
    fn forget<F: Files>(self, rt: &F) {
        if let Earlier::Linked(name) = &self {
            let _ = fs::remove_file(rt, name.as_str());
        }
    }
}

/// Two files that are written together: if one of them can't be completed, the other keeps its content too, unless it is
/// written in place or directly.
#[derive(Drop)]
pub struct FilePair<'p, W: Write + Drop> {
    pub first: AtomicFile<W>,
    pub second: AtomicFile<W>,
    paths: (&'p str, &'p str),
}

impl<'p, W: Write + Drop> FilePair<'p, W> {
    /// Begins to write the files with these paths, as `AtomicFile::begin` does. Fails if one of them can't be written;
    /// both then keep their content.
    pub fn begin<F: Files<File = W>>(
        rt: &F,
        alloc: Global,
        paths: (&'p str, &'p str),
        links: Links,
    ) -> Result<FilePair<'p, W>, Failure> {
        let first = AtomicFile::open(rt, alloc, paths.0, links)?;
        match AtomicFile::open(rt, alloc, paths.1, links) {
            Ok(second) => {
                let pair = FilePair {
                    first,
                    second,
                    paths,
                };
                pair.started(rt, alloc)
            }
            Err(failure) => {
                first.abandon(rt);
                Err(failure)
            }
        }
    }

    /// This pair, after `start`. If that fails, the unfinished files are removed.
    fn started<F: Files<File = W>>(
        self,
        rt: &F,
        alloc: Global,
    ) -> Result<FilePair<'p, W>, Failure> {
        match self.start(rt, alloc) {
            Ok(()) => Ok(self),
            Err(failure) => {
                self.abandon(rt);
                Err(failure)
            }
        }
    }

    /// Removes the content of those files that are written in place.
    fn start<F: Files<File = W>>(&self, rt: &F, alloc: Global) -> Result<(), Failure> {
        self.first.start(rt, alloc, self.paths.0)?;
        self.second.start(rt, alloc, self.paths.1)
    }

    /// Gives up: removes the unfinished files.
    pub fn abandon<F: Files>(self, rt: &F) {
        self.first.remove(rt);
        self.second.remove(rt);
    }

    /// Writes what is in the buffers.
    fn flush(&mut self, alloc: Global) -> Result<(), Failure> {
        let (first, second) = self.paths;
        self.first.flush(alloc, first)?;
        self.second.flush(alloc, second)
    }

    /// Gives both files their names. If the second can't be given its name, the first is restored.
    fn put<F: Files>(&self, rt: &F, alloc: Global) -> Result<(), Failure> {
        let (path, _) = self.paths;
        let earlier = Earlier::of(rt, alloc, &self.first, path)?;
        match self.first.put(rt, alloc, path) {
            Ok(()) => self.put_second(rt, alloc, earlier),
            Err(failure) => {
                earlier.forget(rt);
                Err(failure)
            }
        }
    }

    /// Gives the second file its name. If that fails, the first path gets back what it had earlier.
    fn put_second<F: Files>(&self, rt: &F, alloc: Global, earlier: Earlier) -> Result<(), Failure> {
        let (first, second) = self.paths;
        let done = self.second.put(rt, alloc, second);
        if done.is_ok() {
            earlier.forget(rt);
        } else {
            earlier.restore(rt, first);
        }
        done
    }

    /// Completes both files and gives them their names. Fails if one of them can't be flushed or renamed; the other is
    /// then restored, and the unfinished files are removed.
    pub fn finish<F: Files>(self, rt: &F, alloc: Global) -> Result<(), Failure> {
        let mut pair = self;
        let done = match pair.flush(alloc) {
            Ok(()) => pair.put(rt, alloc),
            Err(failure) => Err(failure),
        };
        if done.is_err() {
            pair.abandon(rt);
        }
        done
    }
}
