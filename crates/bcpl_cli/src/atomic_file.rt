//! Files that are either written completely or left as they were, as far as their folders allow it.

use crate::failure::{Cause, Failure};
use crate::file_identity::parts;
use crate::read_file::contents;
use bc_word::Memory;
use std::alloc::Global;
use std::fs::{File, Metadata, OpenOptions, Permissions};
use std::io::{BufWriter, Write};
use std::os::unix::fs::{MetadataExt, PermissionsExt};
use std::rt::Files;
use std::{fs, io};

/// The suffix of a file's name while it is written; a number follows if such a file exists.
const UNFINISHED: &str = ".unfinished";

/// How many names are tried.
pub(crate) const NAMES: usize = 100;

/// The number of seconds after which an unfinished file that nothing writes is taken for one that a killed run left.
const A_DAY: u64 = 86_400;

/// The permissions that a new file takes from the one that it replaces: who may read, write and run it. It may belong to
/// another user, so it never takes the right to run as its owner.
const RIGHTS: u32 = 0o777;

/// What happens to a regular file with several names.
#[derive(Clone, Copy, PartialEq, Eq)]
pub enum Links {
    /// Only the given name gets the new content.
    Apart,
    /// The file is written in place, so all its names have the new content.
    Kept,
}

/// Where the bytes of a file go while it is written.
#[derive(Drop)]
enum Destination {
    /// To a new file with this path, which is renamed at the end.
    Beside(String),
    /// Into the regular file itself.
    InPlace,
    /// To a device, a pipe or the target of a link.
    Direct,
}

/// A file that is being written. To replace a regular file, or to create one, the bytes go to a new file beside it,
/// which is renamed at the end. If no file can be made beside a regular one that can be written, or if its names must
/// stay together, it is written in place, and a failure can leave a part of the new text. A device, a pipe or the target
/// of a link is written directly.
#[derive(Drop)]
pub struct AtomicFile<W: Write + Drop> {
    out: BufWriter<W>,
    to: Destination,
}

/// What a path refers to.
#[derive(Drop)]
pub(crate) enum PathKind {
    /// Nothing.
    Nothing,
    /// A regular file.
    Plain(Metadata),
    /// A device, a pipe, a folder or a link.
    Other,
}

/// What the path refers to now, without following links.
pub(crate) fn path_kind<F: Files>(rt: &F, path: &str) -> PathKind {
    match fs::symlink_metadata(rt, path) {
        Ok(found) if found.is_file() => PathKind::Plain(found),
        Ok(_) => PathKind::Other,
        Err(_) => PathKind::Nothing,
    }
}

/// How many bytes of a file's name its unfinished file has: with the suffix, no name may have more than 255.
const NAME_PART: usize = 240;

/// This path, with a long name cut.
fn with_short_name(path: &str) -> &str {
    let (_, name) = parts(path);
    let end = path
        .len()
        .saturating_sub(name.len().saturating_sub(NAME_PART));
    for back in 0..4 {
        if let Some(short) = path.get(..end.saturating_sub(back)) {
            return short;
        }
    }
    path
}

/// The path of an unfinished file beside the one with this path.
pub(crate) fn unfinished_path(alloc: Global, path: &str, number: usize) -> Result<String, Memory> {
    let path = with_short_name(path);
    Ok(if number == 0 {
        format!(in alloc; "{path}{UNFINISHED}")?
    } else {
        format!(in alloc; "{path}{UNFINISHED}{number}")?
    })
}

/// Whether the file `old` was last written more than a day before the file `new`.
fn is_stale(old: &Metadata, new: &Metadata) -> bool {
    match (old.modified(), new.modified()) {
        (Ok(old), Ok(new)) => match new.duration_since(old) {
            Ok(age) => age.as_secs() > A_DAY,
            Err(_) => false,
        },
        _ => false,
    }
}

/// Removes the file with this path if it is stale at the time when the file `new` was made.
fn remove_if_stale<F: Files>(rt: &F, path: &str, new: &Metadata) {
    if let Ok(old) = fs::symlink_metadata(rt, path)
        && old.is_file()
        && is_stale(&old, new)
    {
        let _ = fs::remove_file(rt, path);
    }
}

/// Removes unfinished files beside this path that a killed run left long ago: those with numbers below `number`, which
/// is that of the new file `beside`.
fn remove_stale_files<F: Files>(
    rt: &F,
    alloc: Global,
    path: &str,
    beside: &str,
    number: usize,
) -> Result<(), Memory> {
    if let Ok(new) = fs::metadata(rt, beside) {
        for earlier in 0..number {
            let earlier = unfinished_path(alloc, path, earlier)?;
            remove_if_stale(rt, earlier.as_str(), &new);
        }
    }
    Ok(())
}

/// Why there is no new file beside another one.
#[derive(Drop)]
struct NoneBeside {
    failure: Failure,
    /// Whether the folder doesn't allow it.
    is_denied: bool,
}

/// A new file with this path, made beside the one with path `path`; `None` if there is such a file already.
fn created<F: Files>(
    rt: &F,
    alloc: Global,
    path: &str,
    beside: &str,
) -> Result<Option<F::File>, NoneBeside> {
    match File::create_new(rt, beside) {
        Ok(file) => Ok(Some(file)),
        Err(error) if error.kind() == io::ErrorKind::AlreadyExists => Ok(None),
        Err(error) => Err(NoneBeside {
            failure: Failure::io(alloc, &error, path),
            is_denied: error.kind() == io::ErrorKind::PermissionDenied,
        }),
    }
}

/// The new file with this number beside the one with this path, and its path; `None` if there is such a file already.
fn new_numbered<F: Files>(
    rt: &F,
    alloc: Global,
    path: &str,
    number: usize,
) -> Result<Option<(String, F::File)>, NoneBeside> {
    let Ok(beside) = unfinished_path(alloc, path, number) else {
        return Err(NoneBeside {
            failure: Failure::new(Cause::Memory),
            is_denied: false,
        });
    };
    match created(rt, alloc, path, beside.as_str())? {
        Some(file) => {
            let _ = remove_stale_files(rt, alloc, path, beside.as_str(), number);
            Ok(Some((beside, file)))
        }
        None => Ok(None),
    }
}

/// A new file beside the one with this path, and the new file's path.
fn new_beside<F: Files>(
    rt: &F,
    alloc: Global,
    path: &str,
) -> Result<(String, F::File), NoneBeside> {
    for number in 0..NAMES {
        if let Some(found) = new_numbered(rt, alloc, path, number)? {
            return Ok(found);
        }
    }
    Err(NoneBeside {
        failure: Failure::file_since(alloc, path, "there are too many unfinished files beside it"),
        is_denied: false,
    })
}

/// Opens this regular file to write over it. If `is_emptied`, its content is removed.
fn opened_in_place<F: Files>(
    rt: &F,
    alloc: Global,
    path: &str,
    is_emptied: bool,
) -> Result<F::File, Failure> {
    match OpenOptions::new()
        .write(true)
        .truncate(is_emptied)
        .open(rt, path)
    {
        Ok(file) => Ok(file),
        Err(error) => Err(Failure::io(alloc, &error, path)),
    }
}

/// Where the bytes of a regular file that exists go, opened for writing.
fn opened_plain<F: Files>(
    rt: &F,
    alloc: Global,
    path: &str,
    found: &Metadata,
    links: Links,
) -> Result<(F::File, Destination), Failure> {
    let file = opened_in_place(rt, alloc, path, false)?;
    if links == Links::Kept && found.nlink() > 1 {
        return Ok((file, Destination::InPlace));
    }
    match new_beside(rt, alloc, path) {
        Ok((beside, new)) => {
            let rights = Permissions::from_mode(found.mode() & RIGHTS);
            let _ = fs::set_permissions(rt, beside.as_str(), rights);
            Ok((new, Destination::Beside(beside)))
        }
        Err(none) if none.is_denied => Ok((file, Destination::InPlace)),
        Err(none) => Err(none.failure),
    }
}

/// Where the bytes of the file with this path go, opened for writing.
fn opened<F: Files>(
    rt: &F,
    alloc: Global,
    path: &str,
    links: Links,
) -> Result<(F::File, Destination), Failure> {
    match path_kind(rt, path) {
        PathKind::Other => match fs::create(rt, path) {
            Ok(file) => Ok((file, Destination::Direct)),
            Err(error) => Err(Failure::io(alloc, &error, path)),
        },
        PathKind::Nothing => match new_beside(rt, alloc, path) {
            Ok((beside, file)) => Ok((file, Destination::Beside(beside))),
            Err(none) => Err(none.failure),
        },
        PathKind::Plain(found) => opened_plain(rt, alloc, path, &found, links),
    }
}

/// Removes what a run that was killed left of this file while it wrote these bytes: an unfinished file with their beginning.
///
/// # Errors
///
/// `Memory` if an allocation failed.
pub fn remove_unfinished<F: Files>(
    rt: &F,
    alloc: Global,
    path: &str,
    bytes: &[u8],
) -> Result<(), Memory> {
    let unfinished = unfinished_path(alloc, path, 0)?;
    if is_regular(rt, unfinished.as_str())
        && let Ok(found) = contents(rt, alloc, unfinished.as_str())
        && bytes.starts_with(found.as_slice())
    {
        let _ = fs::remove_file(rt, unfinished.as_str());
    }
    Ok(())
}

/// Whether there is a regular file with this path. A link is none.
pub fn is_regular<F: Files>(rt: &F, path: &str) -> bool {
    matches!(path_kind(rt, path), PathKind::Plain(_))
}

/// Copies the new file `beside` over the content of the file with this path, and removes the new one.
fn copy_over<F: Files>(rt: &F, alloc: Global, beside: &str, path: &str) -> Result<(), Failure> {
    let mut from = match fs::open(rt, beside) {
        Ok(from) => from,
        Err(error) => return Err(Failure::io(alloc, &error, path)),
    };
    let mut to = opened_in_place(rt, alloc, path, true)?;
    match io::copy(&mut from, &mut to) {
        Ok(_) => {
            let _ = fs::remove_file(rt, beside);
            Ok(())
        }
        Err(error) => Err(Failure::io(alloc, &error, path)),
    }
}

/// Gives the new file `beside` this path. In a sticky folder the system may deny that for a file of another user; its
/// content is then written over if that is allowed.
fn put<F: Files>(rt: &F, alloc: Global, beside: &str, path: &str) -> Result<(), Failure> {
    let Err(error) = fs::rename(rt, beside, path) else {
        return Ok(());
    };
    let is_denied = error.kind() == io::ErrorKind::PermissionDenied;
    let failure = Failure::io(alloc, &error, path);
    match path_kind(rt, path) {
        PathKind::Plain(_) if is_denied => copy_over(rt, alloc, beside, path),
        _ => Err(failure),
    }
}

impl<W: Write + Drop> AtomicFile<W> {
    /// Opens the file with this path for writing. Until `start` is called, it keeps its content, unless it is the target
    /// of a link. An existing regular file keeps who may read, write and run it. `links` says what happens to its other
    /// names.
    ///
    /// # Errors
    ///
    /// A failure of this file if it can't be written or no new file can be created, and one of `Memory` if an
    /// allocation fails.
    pub(crate) fn open<F: Files<File = W>>(
        rt: &F,
        alloc: Global,
        path: &str,
        links: Links,
    ) -> Result<AtomicFile<W>, Failure> {
        let (file, to) = opened(rt, alloc, path, links)?;
        match BufWriter::new(alloc, file) {
            Ok(out) => Ok(AtomicFile { out, to }),
            Err(error) => {
                if let Destination::Beside(beside) = &to {
                    let _ = fs::remove_file(rt, beside.as_str());
                }
                Err(Failure::io(alloc, &error, path))
            }
        }
    }

    /// Removes the content of a file that is written in place. Fails if the system doesn't allow it.
    pub(crate) fn start<F: Files<File = W>>(
        &self,
        rt: &F,
        alloc: Global,
        path: &str,
    ) -> Result<(), Failure> {
        match &self.to {
            Destination::InPlace => match opened_in_place(rt, alloc, path, true) {
                Ok(_) => Ok(()),
                Err(failure) => Err(failure),
            },
            Destination::Beside(_) | Destination::Direct => Ok(()),
        }
    }

    /// Begins to write the file with this path. An existing regular file keeps who may read, write and run it. `links`
    /// says what happens to its other names.
    ///
    /// # Errors
    ///
    /// A failure of this file if it can't be written or no new file can be created, and one of `Memory` if an
    /// allocation fails.
    pub fn begin<F: Files<File = W>>(
        rt: &F,
        alloc: Global,
        path: &str,
        links: Links,
    ) -> Result<AtomicFile<W>, Failure> {
        let written = AtomicFile::open(rt, alloc, path, links)?;
        match written.start(rt, alloc, path) {
            Ok(()) => Ok(written),
            Err(failure) => Err(failure),
        }
    }

    /// The buffered file.
    pub fn out(&mut self) -> &mut BufWriter<W> {
        &mut self.out
    }

    /// The failure of the file with this path after a failed write. It includes the reason if the system still
    /// reports one when the buffer is flushed once more.
    pub fn failure(&mut self, alloc: Global, path: &str) -> Failure {
        match self.out.flush() {
            Ok(()) => Failure::file(alloc, path),
            Err(error) => Failure::io(alloc, &error, path),
        }
    }

    /// Removes the unfinished file, if there is one.
    pub(crate) fn remove<F: Files>(&self, rt: &F) {
        if let Destination::Beside(beside) = &self.to {
            let _ = fs::remove_file(rt, beside.as_str());
        }
    }

    /// Gives up: removes the unfinished file. A file that is written in place keeps what has been written.
    pub fn abandon<F: Files>(self, rt: &F) {
        self.remove(rt);
    }

    /// Writes what is in the buffer.
    pub(crate) fn flush(&mut self, alloc: Global, path: &str) -> Result<(), Failure> {
        match self.out.flush() {
            Ok(()) => Ok(()),
            Err(error) => Err(Failure::io(alloc, &error, path)),
        }
    }

    /// Gives the file its name. If that fails, the unfinished file is removed.
    pub(crate) fn put<F: Files>(&self, rt: &F, alloc: Global, path: &str) -> Result<(), Failure> {
        let done = match &self.to {
            Destination::Beside(beside) => put(rt, alloc, beside.as_str(), path),
            Destination::InPlace | Destination::Direct => Ok(()),
        };
        if done.is_err() {
            self.remove(rt);
        }
        done
    }

    /// The path of the new file that is renamed at the end, if there is one.
    pub(crate) fn beside(&self) -> Option<&str> {
        match &self.to {
            Destination::Beside(beside) => Some(beside.as_str()),
            Destination::InPlace | Destination::Direct => None,
        }
    }

    /// Completes the file and gives it its name. Fails if it can't be flushed or renamed; the unfinished file is then
    /// removed.
    pub fn finish<F: Files>(self, rt: &F, alloc: Global, path: &str) -> Result<(), Failure> {
        let mut written = self;
        match written.flush(alloc, path) {
            Ok(()) => written.put(rt, alloc, path),
            Err(failure) => {
                written.abandon(rt);
                Err(failure)
            }
        }
    }
}

/// Whether two paths lead to the same file, following links. If one of them can't be read, whether the paths are
/// equal.
pub fn is_one_file<F: Files>(rt: &F, one: &str, other: &str) -> bool {
    match (fs::metadata(rt, one), fs::metadata(rt, other)) {
        (Ok(one), Ok(other)) => one.dev() == other.dev() && one.ino() == other.ino(),
        _ => one == other,
    }
}

/// The first path that leads to the same file as an earlier one; `None` if all files differ.
pub fn named_twice<'a, F: Files>(rt: &F, paths: &[&'a str]) -> Option<&'a str> {
    for (number, path) in paths.iter().enumerate() {
        for other in paths.iter().take(number) {
            if is_one_file(rt, path, other) {
                return Some(path);
            }
        }
    }
    None
}
