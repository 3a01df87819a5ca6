//! The command `asm`.

use crate::image_formats::print_image;
use bcpl_cli::{AssembleOrder, Failure};
use bcpl_sources::{LinkedProgram, of_output, program_of, read_texts};
use std::alloc::Global;
use std::io::Write;
use std::rt::Files;

/// Links the texts.
fn assembled<F: Files>(
    rt: &F,
    alloc: Global,
    order: &AssembleOrder<'_>,
    explains: bool,
) -> Result<LinkedProgram, Failure> {
    let files = read_texts(rt, alloc, order.texts.as_slice())?;
    program_of(alloc, files.as_slice(), explains)
}

/// Runs `asm`: prints the image in the format of the order. If `explains`, explains a refusal.
pub fn assemble<F: Files, O: Write + Drop>(
    rt: &F,
    alloc: Global,
    order: &AssembleOrder<'_>,
    explains: bool,
    out: &mut O,
) -> Result<(), Failure> {
    match assembled(rt, alloc, order, explains) {
        Ok(program) => of_output(alloc, print_image(alloc, &program.image, order, out)),
        Err(failure) => Err(failure),
    }
}
