//! Whether the stack is large enough for whatever a command reads.

use crate::failure::{Cause, Failure};
use crate::numbers::number_of;
use crate::read_file::contents;
use std::alloc::Global;
use std::rt::Files;

/// Where Linux lists the limits of this process.
const LIMITS: &str = "/proc/self/limits";

/// The soft limit on the stack, in bytes, in this list of limits; `None` if there is none.
fn soft_limit(limits: &str) -> Option<u64> {
    for line in limits.lines() {
        if let Some(values) = line.strip_prefix("Max stack size") {
            return number_of(values.trim().split(' ').next()?);
        }
    }
    None
}

/// The failure because of this limit.
fn too_small(alloc: Global, limit: u64, needed: u64) -> Failure {
    let failure = Failure::new(Cause::Memory);
    let told = format!(in alloc;
        "the stack may have {limit} bytes only, and this command needs up to {needed}\n  help: ulimit -s 8192 raises the limit\n"
    );
    match told {
        Ok(told) => failure.with(told),
        Err(_) => failure,
    }
}

/// Refuses to work if the stack may have fewer bytes than `needed`, so that no command is killed by a signal. Where the
/// system lists no limits, there is no refusal.
///
/// # Errors
///
/// The failure `Memory`, with the limit.
pub fn check_stack<F: Files>(rt: &F, alloc: Global, needed: u64) -> Result<(), Failure> {
    let Ok(bytes) = contents(rt, alloc, LIMITS) else {
        return Ok(());
    };
    let Ok(limits) = std::str::from_utf8(bytes.as_slice()) else {
        return Ok(());
    };
    match soft_limit(limits) {
        Some(limit) if limit < needed => Err(too_small(alloc, limit, needed)),
        _ => Ok(()),
    }
}
