//! Refuses to write over files that would be lost.

use crate::job::{Job, Target};
use bc_word::Memory;
use bcpl_cli::{ConvertOrder, ConvertTo, Failure, contents, is_one_file};
use indexmap::IndexSet;
use std::alloc::Global;
use std::fs;
use std::os::unix::fs::MetadataExt;
use std::rt::Files;

/// Files by their paths, so that many paths can be compared with them.
#[derive(Drop)]
struct Known<'p> {
    /// The device and the number of each file that exists.
    files: IndexSet<(u64, u64)>,
    /// All paths.
    paths: IndexSet<&'p str>,
}

impl<'p> Known<'p> {
    /// No files.
    fn new(alloc: Global) -> Known<'p> {
        Known {
            files: IndexSet::new(alloc),
            paths: IndexSet::new(alloc),
        }
    }

    /// Adds a file.
    fn add<F: Files>(&mut self, rt: &F, path: &'p str) -> Result<(), Memory> {
        if let Ok(found) = fs::metadata(rt, path) {
            self.files.insert((found.dev(), found.ino()))?;
        }
        self.paths.insert(path)?;
        Ok(())
    }

    /// Whether a path leads to one of the files, following links. If it can't be read, whether it is one of the paths.
    fn has<F: Files>(&self, rt: &F, path: &str) -> bool {
        match fs::metadata(rt, path) {
            Ok(found) => self.files.contains(&(found.dev(), found.ino())),
            Err(_) => self.paths.contains(path),
        }
    }
}

/// The files that can't be written again.
#[derive(Drop)]
struct Taken<'p> {
    /// All sources.
    sources: Known<'p>,
    /// The conversions of earlier sources.
    written: Known<'p>,
    /// The earlier sources.
    earlier: Known<'p>,
}

/// Refuses to write over a source, the list of names, or the conversion of an earlier source.
fn spare_file<F: Files>(
    rt: &F,
    alloc: Global,
    order: &ConvertOrder<'_>,
    taken: &Taken<'_>,
    path: &str,
) -> Result<(), Failure> {
    if taken.sources.has(rt, path) {
        let reason = "this is a source, which would be lost; use --in-place, which keeps a copy";
        return Err(Failure::file_since(alloc, path, reason));
    }
    if let Some(library) = order.library
        && is_one_file(rt, path, library)
    {
        return Err(Failure::file_since(
            alloc,
            path,
            "this is the list of names, which would be lost; choose another file",
        ));
    }
    if taken.written.has(rt, path) {
        return Err(Failure::file_since(
            alloc,
            path,
            "two sources would be written to this file; convert them to different folders",
        ));
    }
    Ok(())
}

/// Refuses to convert a source in place if it isn't a plain file or is named twice.
fn spare_place<F: Files>(
    rt: &F,
    alloc: Global,
    taken: &Taken<'_>,
    file: &str,
) -> Result<(), Failure> {
    if let Ok(found) = fs::metadata(rt, file)
        && !found.is_file()
    {
        let reason = "this isn't a plain file and can't be converted in place; use --out";
        return Err(Failure::file_since(alloc, file, reason));
    }
    if taken.earlier.has(rt, file) {
        return Err(Failure::file_since(alloc, file, "this file is named twice; name it once"));
    }
    Ok(())
}

/// Whether a file is what an earlier run of the command kept of a source before it was killed: a plain file other than
/// the source, with the source's text.
fn is_kept<F: Files>(rt: &F, alloc: Global, kept: &str, job: &Job<'_>) -> bool {
    let Ok(found) = fs::symlink_metadata(rt, kept) else {
        return false;
    };
    if !found.is_file() || is_one_file(rt, kept, job.file) {
        return false;
    }
    match contents(rt, alloc, kept) {
        Ok(text) => text.as_slice() == job.old.as_slice(),
        Err(_) => false,
    }
}

/// Refuses to keep the old text of a source in an existing file, unless an earlier run kept it there.
fn spare_kept<F: Files>(rt: &F, alloc: Global, kept: &str, job: &Job<'_>) -> Result<(), Failure> {
    if fs::symlink_metadata(rt, kept).is_err() || is_kept(rt, alloc, kept, job) {
        return Ok(());
    }
    let reason = "this file exists and would be lost; rename it first";
    Err(Failure::file_since(alloc, kept, reason))
}

/// The sources, before any of them is looked at.
fn taken_by<'p, F: Files>(
    rt: &F,
    alloc: Global,
    order: &'p ConvertOrder<'_>,
) -> Result<Taken<'p>, Memory> {
    let mut taken = Taken {
        sources: Known::new(alloc),
        written: Known::new(alloc),
        earlier: Known::new(alloc),
    };
    for file in &order.files {
        taken.sources.add(rt, *file)?;
    }
    Ok(taken)
}

/// Refuses to write the file of a job that would be lost.
fn spare_job<F: Files>(
    rt: &F,
    alloc: Global,
    order: &ConvertOrder<'_>,
    taken: &Taken<'_>,
    job: &Job<'_>,
) -> Result<(), Failure> {
    if let ConvertTo::Source = order.to {
        spare_place(rt, alloc, taken, job.file)?;
    }
    match &job.to {
        Target::File(path) => spare_file(rt, alloc, order, taken, path.as_str()),
        Target::Place(kept) => spare_kept(rt, alloc, kept.as_str(), job),
        Target::Standard | Target::Nowhere => Ok(()),
    }
}

/// Refuses to write a file that would be lost. Called before any file is written.
///
/// # Errors
///
/// A failure that names the file.
pub fn spare<'p, F: Files>(
    rt: &F,
    alloc: Global,
    order: &'p ConvertOrder<'_>,
    jobs: &'p [Job<'_>],
) -> Result<(), Failure> {
    let mut taken = taken_by(rt, alloc, order)?;
    for job in jobs {
        spare_job(rt, alloc, order, &taken, job)?;
        taken.earlier.add(rt, job.file)?;
        if let Target::File(path) = &job.to {
            taken.written.add(rt, path.as_str())?;
        }
    }
    Ok(())
}
