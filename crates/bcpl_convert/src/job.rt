//! One source of the command: its conversion, and where that goes.

use crate::rounds::Converted;
use bcpl_cli::{AtomicFile, ConvertTo, EscapedText, Failure, Links};
use std::alloc::{AllocError, Global};
use std::io::Write;
use std::rt::Files;

/// The extension of the file that keeps the old text of a source converted in place.
const KEPT: &str = ".old";

/// Where the conversion of a source goes.
#[derive(Drop)]
pub enum Target {
    /// To standard output.
    Standard,
    /// To the file of this path.
    File(String),
    /// To the source's own file, while the file with this path keeps the old text.
    Place(String),
    /// Nowhere: the source stays as it is.
    Nowhere,
}

impl Target {
    /// Where the conversion of a file goes, which changes it or doesn't.
    pub fn of(
        alloc: Global,
        to: ConvertTo<'_>,
        file: &str,
        is_changed: bool,
    ) -> Result<Target, AllocError> {
        match to {
            ConvertTo::Standard => Ok(Target::Standard),
            ConvertTo::File(path) => Ok(Target::File(String::from_str(alloc, path)?)),
            ConvertTo::Folder(folder) => {
                let name = name_of(file);
                Ok(Target::File(format!(in alloc; "{folder}/{name}")?))
            }
            ConvertTo::Source if is_changed => Ok(Target::Place(format!(in alloc;
                "{file}{KEPT}"
            )?)),
            ConvertTo::Source => Ok(Target::Nowhere),
        }
    }
}

/// The last part of a path.
pub fn name_of(path: &str) -> &str {
    path.rsplit('/').next().unwrap_or(path)
}

/// A source, its conversion, and where that goes.
pub struct Job<'a> {
    /// The path of the source.
    pub file: &'a str,
    /// The old text.
    pub old: Vec<u8>,
    pub converted: Converted,
    pub to: Target,
    /// What happens to further names of the target.
    pub links: Links,
}

impl Drop for Job<'_> {
    fn drop(self) {
        let Job {
            file: _,
            old: _,
            converted: _,
            to: _,
            links: _,
        } = self;
    }
}

impl Job<'_> {
    /// The path of the file that has the old text once the new one is written.
    pub fn old_path(&self) -> &str {
        match &self.to {
            Target::Place(kept) => kept.as_str(),
            Target::Standard | Target::File(_) | Target::Nowhere => self.file,
        }
    }
}

/// Writes a file, as `AtomicFile` does.
///
/// # Errors
///
/// Fails if the file can't be written.
pub fn write_file<F: Files>(
    rt: &F,
    alloc: Global,
    path: &str,
    links: Links,
    bytes: &[u8],
) -> Result<(), Failure> {
    let mut written = AtomicFile::begin(rt, alloc, path, links)?;
    match written.out().write_all(bytes) {
        Ok(()) => written.finish(rt, alloc, path),
        Err(error) => {
            written.abandon(rt);
            Err(Failure::io(alloc, &error, path))
        }
    }
}

/// Writes to standard output.
fn print<O: Write + Drop>(alloc: Global, bytes: &[u8], out: &mut O) -> Result<(), Failure> {
    if out.write_all(bytes).is_ok() && out.flush().is_ok() {
        Ok(())
    } else {
        Err(Failure::file(alloc, "SYSPRINT"))
    }
}

/// Writes to a terminal, with control characters as escapes.
fn show<O: Write + Drop>(alloc: Global, bytes: &[u8], out: &mut O) -> Result<(), Failure> {
    let text = EscapedText(bytes);
    let shown = format!(in alloc; "{text}")?;
    print(alloc, shown.as_bytes(), out)
}

/// Writes the conversion of a source to its target. `is_terminal` says whether `out` is a terminal.
///
/// # Errors
///
/// Fails if a file can't be written or if an allocation fails.
pub fn write_job<F: Files, O: Write + Drop>(
    rt: &F,
    alloc: Global,
    job: &Job<'_>,
    is_terminal: bool,
    out: &mut O,
) -> Result<(), Failure> {
    let text = job.converted.text();
    match &job.to {
        Target::Standard if is_terminal => show(alloc, text, out),
        Target::Standard => print(alloc, text, out),
        Target::File(path) => write_file(rt, alloc, path.as_str(), job.links, text),
        Target::Place(kept) => {
            write_file(rt, alloc, kept.as_str(), Links::Apart, job.old.as_slice())?;
            write_file(rt, alloc, job.file, job.links, text)
        }
        Target::Nowhere => Ok(()),
    }
}
