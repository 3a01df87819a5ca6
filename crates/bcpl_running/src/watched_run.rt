//! What `run` records of a run: the trace, the profile, and how much of the store it used.

use bcpl_cli::{AtomicFile, Failure, Links, WatchOrder};
use bcpl_trace::{Watch, Window, use_lines};
use std::alloc::Global;
use std::io::Write;
use std::rt::Files;

/// The files for the records of a run.
#[derive(Drop)]
pub struct RecordFiles<W: Write + Drop> {
    pub trace: Option<AtomicFile<W>>,
    profile: Option<AtomicFile<W>>,
}

/// What there is to write after a run.
#[derive(Clone, Copy)]
pub struct Records<'t> {
    /// Whether every line of the trace was written.
    pub is_whole: bool,
    /// The text of the profile.
    pub profile: &'t str,
}

/// The instructions to trace, if any.
pub fn window_of(order: &WatchOrder<'_>) -> Option<Window> {
    match order.trace {
        Some(_) => Some(Window {
            from: order.from,
            count: order.count,
        }),
        None => None,
    }
}

/// Whether the run is recorded in any way.
pub fn is_watched(order: &WatchOrder<'_>) -> bool {
    order.trace.is_some() || order.profile.is_some() || order.high
}

/// How much of the store a recorded run used, as lines; empty if that is not to be reported, or if memory runs out.
/// `base` is where the stack began.
pub fn used_by(alloc: Global, order: &WatchOrder<'_>, watch: &Watch, base: u16) -> String {
    if !order.high {
        return String::new(alloc);
    }
    match use_lines(alloc, watch, base) {
        Ok(lines) => lines,
        Err(_) => String::new(alloc),
    }
}

/// Begins a file, if there is a path.
fn begun<W: Write + Drop, F: Files<File = W>>(
    rt: &F,
    alloc: Global,
    path: Option<&str>,
) -> Result<Option<AtomicFile<W>>, Failure> {
    match path {
        Some(path) => match AtomicFile::begin(rt, alloc, path, Links::Apart) {
            Ok(written) => Ok(Some(written)),
            Err(failure) => Err(failure),
        },
        None => Ok(None),
    }
}

/// Leaves a file that was begun as it was before.
fn abandon<W: Write + Drop, F: Files<File = W>>(rt: &F, written: Option<AtomicFile<W>>) {
    if let Some(written) = written {
        written.abandon(rt);
    }
}

/// Completes the file with this path, unless writing it failed.
fn end<W: Write + Drop, F: Files<File = W>>(
    rt: &F,
    alloc: Global,
    written: AtomicFile<W>,
    path: &str,
    failure: Option<Failure>,
) -> Result<(), Failure> {
    match failure {
        None => written.finish(rt, alloc, path),
        Some(failure) => {
            written.abandon(rt);
            Err(failure)
        }
    }
}

/// Completes the trace, if there is one, unless one of its lines could not be written.
fn end_trace<W: Write + Drop, F: Files<File = W>>(
    rt: &F,
    alloc: Global,
    trace: Option<AtomicFile<W>>,
    order: &WatchOrder<'_>,
    is_whole: bool,
) -> Result<(), Failure> {
    let Some(mut written) = trace else {
        return Ok(());
    };
    let path = order.trace.unwrap_or("");
    let failure = if is_whole {
        None
    } else {
        Some(written.failure(alloc, path))
    };
    end(rt, alloc, written, path, failure)
}

/// Writes the profile, if there is one.
fn end_profile<W: Write + Drop, F: Files<File = W>>(
    rt: &F,
    alloc: Global,
    profile: Option<AtomicFile<W>>,
    order: &WatchOrder<'_>,
    text: &str,
) -> Result<(), Failure> {
    let Some(mut written) = profile else {
        return Ok(());
    };
    let path = order.profile.unwrap_or("");
    let failure = match written.out().write_all(text.as_bytes()) {
        Ok(()) => None,
        Err(error) => Some(Failure::io(alloc, &error, path)),
    };
    end(rt, alloc, written, path, failure)
}

impl<W: Write + Drop> RecordFiles<W> {
    /// Begins the files that are ordered.
    pub fn begin<F: Files<File = W>>(
        rt: &F,
        alloc: Global,
        order: &WatchOrder<'_>,
    ) -> Result<RecordFiles<W>, Failure> {
        let trace = begun(rt, alloc, order.trace)?;
        match begun(rt, alloc, order.profile) {
            Ok(profile) => Ok(RecordFiles { trace, profile }),
            Err(failure) => {
                abandon(rt, trace);
                Err(failure)
            }
        }
    }

    /// Completes the files, unless a line of the trace could not be written.
    pub fn finish<F: Files<File = W>>(
        self,
        rt: &F,
        alloc: Global,
        order: &WatchOrder<'_>,
        last: Records<'_>,
    ) -> Result<(), Failure> {
        let RecordFiles { trace, profile } = self;
        end_trace(rt, alloc, trace, order, last.is_whole)?;
        end_profile(rt, alloc, profile, order, last.profile)
    }
}
