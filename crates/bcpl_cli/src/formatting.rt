//! The arguments of `format`.

use crate::argument_reader::ArgumentReader;
use crate::arguments::{Places, links_option, places_option};
use crate::atomic_file::Links;
use crate::failure::Failure;
use crate::standard_input::StandardInput;
use std::alloc::Global;
use std::io::Read;

/// What happens to the layouts.
#[derive(Clone, Copy, PartialEq, Eq)]
pub enum FormatTo {
    /// They are written to standard output.
    Standard,
    /// They replace the sources.
    Source,
    /// The paths of sources that aren't laid out are printed.
    Check,
}

/// The arguments of `format`.
#[derive(Drop)]
pub struct FormatOrder<'a> {
    /// The files of the sources.
    pub files: Vec<&'a str>,
    pub to: FormatTo,
    /// How many columns a line should have at most.
    pub width: usize,
    /// What happens to further names of the files that are written.
    pub links: Links,
    pub places: Places,
    /// What is read for `-`.
    pub standard: StandardInput,
}

impl FormatOrder<'_> {
    /// Reads standard input if one of the sources is `-`. Fails like `StandardInput::of`.
    pub(crate) fn read_standard_input<R: Read + Drop>(
        &mut self,
        alloc: Global,
        input: R,
    ) -> Result<(), Failure> {
        self.standard = StandardInput::of(alloc, self.files.as_slice(), input)?;
        Ok(())
    }
}

/// The width of lines if none is given.
const WIDTH: u64 = 100;

/// What happens to the layouts.
fn destination(reader: &ArgumentReader<'_, '_>) -> FormatTo {
    if reader.flag("check") {
        FormatTo::Check
    } else if reader.flag("in-place") {
        FormatTo::Source
    } else {
        FormatTo::Standard
    }
}

/// Reads the arguments of `format`.
pub fn format_order<'a>(reader: &mut ArgumentReader<'_, 'a>) -> FormatOrder<'a> {
    let width = reader.number("width", WIDTH);
    FormatOrder {
        files: reader.values("FILE"),
        to: destination(reader),
        width: usize::try_from(width).unwrap_or(usize::MAX),
        links: links_option(reader),
        places: places_option(reader),
        standard: StandardInput::none(),
    }
}
