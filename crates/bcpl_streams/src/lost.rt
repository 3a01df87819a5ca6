//! What a run lost on one side, and the lines about it.

use crate::stream_name::StreamName;
use bc_machine_defs::Side;
use bc_word::Memory;
use std::alloc::Global;

/// What a run lost where it read, or where it wrote.
#[derive(Clone, Copy)]
pub struct Lost {
    /// How many bytes went to no stream, or how often something was read from none.
    pub nowhere: u64,
    /// The name that was asked for before, if the selected stream is the one that wasn't found.
    pub unknown: StreamName,
    /// How many bytes went to an ended stream, or how often something was read from one.
    pub ended: u64,
    /// The name of that stream, if it was found by it.
    pub again: StreamName,
}

impl Lost {
    /// Nothing.
    pub fn nothing() -> Lost {
        Lost {
            nowhere: 0,
            unknown: StreamName::none(),
            ended: 0,
            again: StreamName::none(),
        }
    }

    /// Adds the lines about it.
    pub fn add_lines(&self, alloc: Global, lines: &mut String, side: Side) -> Result<(), Memory> {
        let unknown = self.unknown.text(alloc)?;
        let unknown = unknown.as_str();
        let again = self.again.text(alloc)?;
        let again = again.as_str();
        if self.nowhere > 0 {
            let count = self.nowhere;
            match side {
                Side::Input => add_unread(lines, unknown)?,
                Side::Output => add_unwritten(lines, count, unknown)?,
            }
        }
        if self.ended > 0 {
            match side {
                Side::Input => add_read_again(lines, again)?,
                Side::Output => add_written_again(lines, self.ended, again)?,
            }
        }
        Ok(())
    }
}

/// Adds the lines about an input that isn't there.
fn add_unread(lines: &mut String, name: &str) -> Result<(), Memory> {
    if name.is_empty() {
        lines.push_str("the run read while no input was selected, and got the end of an input\n")?;
        lines.push_str(
            "  help: after ENDREAD select another input, as by SELECTINPUT(1) for standard input\n",
        )?;
        return Ok(());
    }
    write!(
        lines,
        "the run read the input {name}, which nothing connects, and got the end of an input\n"
    )?;
    write!(
        lines,
        "  help: give --in {name}=FILE; FINDINPUT gives 0 for a name that no --in has\n"
    )?;
    Ok(())
}

/// The word for this many bytes.
fn bytes_of(count: u64) -> &'static str {
    if count == 1 { "byte" } else { "bytes" }
}

/// Adds the lines about an output that isn't there.
fn add_unwritten(lines: &mut String, count: u64, name: &str) -> Result<(), Memory> {
    let bytes = bytes_of(count);
    if name.is_empty() {
        write!(
            lines,
            "the run lost {count} {bytes} that it wrote while no output was selected\n"
        )?;
        lines.push_str(
            "  help: after ENDWRITE select another output, as by SELECTOUTPUT(1) for standard output\n",
        )?;
        return Ok(());
    }
    write!(
        lines,
        "the run lost {count} {bytes} that it wrote to the output {name}, which nothing connects\n"
    )?;
    write!(
        lines,
        "  help: give --to {name}=FILE; FINDOUTPUT gives 0 for a name that no --to has\n"
    )?;
    Ok(())
}

/// Adds the lines about an input that was ended.
fn add_read_again(lines: &mut String, name: &str) -> Result<(), Memory> {
    let name = if name.is_empty() { "SYSIN" } else { name };
    write!(
        lines,
        "the run read the input {name} again after ENDREAD had ended it, and got the end of an input\n"
    )?;
    write!(
        lines,
        "  help: connect its file once more, as --in {name}.2=FILE; the FINDINPUT of EXTHDR goes on to that by itself\n"
    )?;
    Ok(())
}

/// Adds the lines about an output that was ended.
fn add_written_again(lines: &mut String, count: u64, name: &str) -> Result<(), Memory> {
    let bytes = bytes_of(count);
    let name = if name.is_empty() { "SYSPRINT" } else { name };
    write!(
        lines,
        "the run lost {count} {bytes} that it wrote to the output {name} after ENDWRITE had ended it\n"
    )?;
    lines.push_str(
        "  help: an ended output stays ended; write to another name, or end it later\n",
    )?;
    Ok(())
}
