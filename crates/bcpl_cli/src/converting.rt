//! The arguments of `convert`.

use crate::argument_reader::ArgumentReader;
use crate::arguments::{Places, is_standard_output, links_option, places_option};
use crate::atomic_file::Links;
use crate::failure::Failure;
use crate::standard_input::StandardInput;
use std::alloc::Global;
use std::io::Read;

/// Where the results of `convert` go.
#[derive(Clone, Copy)]
pub enum ConvertTo<'a> {
    /// To standard output. There is one source.
    Standard,
    /// To the file with this path. There is one source.
    File(&'a str),
    /// To files of the same names in this folder.
    Folder(&'a str),
    /// To the paths of the sources themselves. The originals are kept beside them.
    Source,
}

/// Which header of the library the sources get.
#[derive(Clone, Copy)]
pub enum ConvertHeader {
    /// LIBHDR.
    Basic,
    /// EXTHDR.
    Further,
    /// The one that the sources need together.
    Needed,
}

/// The system for which the sources were written, if it is named.
#[derive(Clone, Copy)]
pub enum ConvertDialect {
    /// None: a source that builds as it is stays, and others show their dialect.
    Shown,
    /// The compilers of 1967.
    Of1967,
    /// Those of 1979.
    Of1979,
    /// The Alto's.
    Alto,
}

/// The arguments of `convert`.
#[derive(Drop)]
pub struct ConvertOrder<'a> {
    /// The files of the old sources, which belong to one program.
    pub files: Vec<&'a str>,
    pub to: ConvertTo<'a>,
    /// Whether the files are a project: the result has a script that builds it, and a report.
    pub is_project: bool,
    /// Whether the result of a project replaces files that were edited by hand, which are kept beside it.
    pub overwrites: bool,
    /// The file that maps names of an old library, if any.
    pub library: Option<&'a str>,
    pub header: ConvertHeader,
    pub dialect: ConvertDialect,
    /// The tags of conditional compilation that are set.
    pub defines: Vec<&'a str>,
    /// What happens to further names of the files that are written.
    pub links: Links,
    pub places: Places,
    /// What is read for `-`.
    pub standard: StandardInput,
}

impl ConvertOrder<'_> {
    /// Reads standard input if one of the sources is `-`. A project is a folder, so it is none. Fails like
    /// `StandardInput::of`.
    pub(crate) fn read_standard_input<R: Read + Drop>(
        &mut self,
        alloc: Global,
        input: R,
    ) -> Result<(), Failure> {
        if !self.is_project {
            self.standard = StandardInput::of(alloc, self.files.as_slice(), input)?;
        }
        Ok(())
    }
}

/// What `--header` accepts.
const HEADER_ACCEPTS: &str = "--header takes libhdr or exthdr, for example --header exthdr";

/// The value of `--header`. An invalid value is noted in `reader`.
fn header_of(reader: &mut ArgumentReader<'_, '_>) -> ConvertHeader {
    match reader.value("header") {
        None => {}
        Some("libhdr") => return ConvertHeader::Basic,
        Some("exthdr") => return ConvertHeader::Further,
        Some(value) => reader.refuse(value, HEADER_ACCEPTS),
    }
    ConvertHeader::Needed
}

/// What `--dialect` accepts.
const DIALECT_ACCEPTS: &str =
    "--dialect takes 1967 or mit, 1979, cambridge, tripos or bbc, or alto, for example --dialect 1979";

/// What `--project` accepts.
const PROJECT_ACCEPTS: &str =
    "--project needs a folder for the result, for example bcpl convert --project old --out new";

/// The value of `--dialect`. An invalid value is noted in `reader`.
fn dialect_of(reader: &mut ArgumentReader<'_, '_>) -> ConvertDialect {
    match reader.value("dialect") {
        None => {}
        Some("1967" | "mit") => return ConvertDialect::Of1967,
        Some("1979" | "cambridge" | "tripos" | "bbc") => return ConvertDialect::Of1979,
        Some("alto") => return ConvertDialect::Alto,
        Some(value) => reader.refuse(value, DIALECT_ACCEPTS),
    }
    ConvertDialect::Shown
}

/// Whether the files are a project. One without a folder for the result is noted in `reader`.
fn is_project(reader: &mut ArgumentReader<'_, '_>, to: ConvertTo<'_>) -> bool {
    let is_project = reader.flag("project");
    if is_project && matches!(to, ConvertTo::Standard | ConvertTo::Source) {
        reader.refuse("--project", PROJECT_ACCEPTS);
    }
    is_project
}

/// Where the results go.
fn destination<'a>(reader: &ArgumentReader<'_, 'a>) -> ConvertTo<'a> {
    match (reader.value("out"), reader.value("out-dir")) {
        (Some(path), _) if is_standard_output(path) => ConvertTo::Standard,
        (Some(path), _) => ConvertTo::File(path),
        (None, Some(path)) => ConvertTo::Folder(path),
        (None, None) if reader.flag("in-place") => ConvertTo::Source,
        (None, None) => ConvertTo::Standard,
    }
}

/// All source files, the first one and the others.
fn files_of<'a>(reader: &mut ArgumentReader<'_, 'a>) -> Vec<&'a str> {
    let mut files = reader.values("FILE");
    reader.add_values(&mut files, "FURTHER");
    files
}

/// Reads the arguments of `convert`.
pub fn convert_order<'a>(reader: &mut ArgumentReader<'_, 'a>) -> ConvertOrder<'a> {
    let to = destination(reader);
    ConvertOrder {
        files: files_of(reader),
        to,
        is_project: is_project(reader, to),
        overwrites: reader.flag("overwrite"),
        library: reader.value("library"),
        header: header_of(reader),
        dialect: dialect_of(reader),
        defines: reader.values("define"),
        links: links_option(reader),
        places: places_option(reader),
        standard: StandardInput::none(),
    }
}
