//! Messages for streams whose names are refused.

use crate::report::{Fill, Report};
use bc_word::Memory;
use std::alloc::Global;

/// The maximum length of a stream's name in bytes.
const MOST: usize = 255;

/// The first name that occurs twice.
fn repeated<'a>(names: &[&'a str]) -> Option<&'a str> {
    for (index, name) in names.iter().enumerate() {
        for other in names.get(..index).unwrap_or(&[]) {
            if *other == *name {
                return Some(*name);
            }
        }
    }
    None
}

/// Adds the name that occurs twice, if one does.
fn add_repeated<'a>(report: &mut Report, names: &[&'a str], side: &'a str) -> Result<(), Memory> {
    match repeated(names) {
        Some(name) => report.line(
            "two {} have the name {}",
            &[Fill::Text(side), Fill::Front(name)],
        ),
        None => Ok(()),
    }
}

/// Reports a name that is too long.
fn add_long<'a>(report: &mut Report, name: &'a str, side: &'a str) -> Result<(), Memory> {
    if name.len() <= MOST {
        return Ok(());
    }
    report.line(
        "the name {} of one of the {} has {} bytes; the limit is {}",
        &[
            Fill::Front(name),
            Fill::Text(side),
            Fill::Number(name.len() as u128),
            Fill::Number(MOST as u128),
        ],
    )
}

/// Adds what is wrong with the names of one side; `side` is what its streams are called.
fn add_names<'a>(report: &mut Report, names: &[&'a str], side: &'a str) -> Result<(), Memory> {
    add_repeated(report, names, side)?;
    for name in names {
        add_long(report, name, side)?;
    }
    Ok(())
}

/// Adds what is wrong with the names of both sides.
fn add_sides(report: &mut Report, inputs: &[&str], outputs: &[&str]) -> Result<(), Memory> {
    add_names(report, inputs, "inputs")?;
    add_names(report, outputs, "outputs")?;
    report.help(
        "standard input is named SYSIN and standard output SYSPRINT; name others by --in NAME=PATH and --to NAME=PATH",
    )
}

/// The lines on streams of a run whose names are refused. The first input is SYSIN, and the first output SYSPRINT.
/// Returns `Memory` if an allocation fails.
pub fn stream_lines(alloc: Global, inputs: &[&str], outputs: &[&str]) -> Result<String, Memory> {
    let mut report = Report::new(alloc);
    add_sides(&mut report, inputs, outputs)?;
    Ok(report.into_text())
}
