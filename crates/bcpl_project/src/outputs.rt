//! The folder of a result. Files in it that were edited by hand are found by a list of digests, and aren't lost.

use crate::folder::{SCRIPT, path_in};
use bc_word::Memory;
use bcpl_cli::{ConvertOrder, Escaped, Failure, Links, is_regular, remove_unfinished};
use bcpl_convert::write_file;
use indexmap::IndexMap;
use sha2::{Digest, Sha256};
use std::alloc::Global;
use std::fs;
use std::fs::Permissions;
use std::io::Read;
use std::os::unix::fs::PermissionsExt;
use std::rt::Files;

/// The name of the list. Its lines are those of `sha256sum`.
pub const LIST: &str = ".bcpl-convert";

/// How many bytes of a line come before the name: a digest and two blanks.
const BEFORE_NAME: usize = 66;

/// A file of the result.
#[derive(Clone, Copy)]
pub struct Output<'o> {
    pub name: &'o str,
    pub text: &'o [u8],
}

/// Where the text of a file goes.
#[derive(Clone, Copy, PartialEq, Eq)]
pub enum Fate {
    /// To the file.
    Written,
    /// To the file, which was edited by hand and is kept as NAME.old.
    Replaced,
    /// To NAME.new, since the file was edited by hand.
    Beside,
    /// Nowhere, since NAME.new was edited by hand too.
    Kept,
}

/// The folder of a result.
#[derive(Drop)]
pub struct ResultFolder<'f> {
    alloc: Global,
    path: &'f str,
    links: Links,
    /// Whether files that were edited by hand are replaced.
    overwrites: bool,
    /// The lines of the list, and whether they are of this conversion.
    lines: IndexMap<Vec<u8>, bool>,
    /// The names in the lines of this conversion.
    names: IndexMap<Vec<u8>, bool>,
}

/// The line of the list for a file with this name and these bytes.
fn line_of(alloc: Global, name: &str, bytes: &[u8]) -> Result<String, Memory> {
    let mut line = String::new(alloc);
    for byte in &Sha256::digest(bytes) {
        write!(line, "{byte:02x}")?;
    }
    let name = Escaped(name);
    write!(line, "  {name}")?;
    Ok(line)
}

/// The content of the file with this path. A report may be larger than the files that are read otherwise.
fn whole<F: Files>(rt: &F, alloc: Global, path: &str) -> Result<Vec<u8>, Failure> {
    let mut bytes = Vec::new(alloc);
    let read = match fs::open(rt, path) {
        Ok(mut file) => file.read_to_end(&mut bytes),
        Err(error) => Err(error),
    };
    match read {
        Ok(_) => Ok(bytes),
        Err(error) => Err(Failure::io(alloc, &error, path)),
    }
}

/// The name in a line of the list.
fn name_in(line: &[u8]) -> &[u8] {
    line.get(BEFORE_NAME..).unwrap_or(&[])
}

/// The lines about those of these files that were edited by hand and stay.
///
/// # Errors
///
/// `Memory` if an allocation failed.
pub fn edited_lines(
    alloc: Global,
    outputs: &[Output<'_>],
    fates: &[Fate],
) -> Result<String, Memory> {
    let mut lines = String::new(alloc);
    for (output, fate) in outputs.iter().zip(fates) {
        let new_text = match fate {
            Fate::Written | Fate::Replaced => continue,
            Fate::Beside => "the new text is in",
            Fate::Kept => "the new text isn't written over the edited",
        };
        let name = Escaped(output.name);
        writeln!(
            lines,
            "{name} was edited by hand, and stays; {new_text} {name}.new"
        )?;
    }
    Ok(lines)
}

impl<'f> ResultFolder<'f> {
    /// The folder with this path, whose list is read.
    ///
    /// # Errors
    ///
    /// Fails if the list can't be read.
    pub fn open<F: Files>(
        rt: &F,
        alloc: Global,
        order: &ConvertOrder<'_>,
        path: &'f str,
    ) -> Result<ResultFolder<'f>, Failure> {
        let mut lines = IndexMap::new(alloc);
        let list = path_in(alloc, path, LIST)?;
        if is_regular(rt, list.as_str()) {
            let text = whole(rt, alloc, list.as_str())?;
            for line in text.as_slice().split(|byte| *byte == b'\n') {
                lines.insert(Vec::from_slice(alloc, line)?, false)?;
            }
        }
        Ok(ResultFolder {
            alloc,
            path,
            links: order.links,
            overwrites: order.overwrites,
            lines,
            names: IndexMap::new(alloc),
        })
    }

    /// Whether the file with this name was edited by hand: neither is its digest in the list, nor has it this text.
    fn is_edited<F: Files>(&self, rt: &F, name: &str, text: &[u8]) -> Result<bool, Failure> {
        let path = path_in(self.alloc, self.path, name)?;
        match fs::metadata(rt, path.as_str()) {
            Ok(found) if found.is_file() => {}
            _ => return Ok(false),
        }
        let found = whole(rt, self.alloc, path.as_str())?;
        let line = line_of(self.alloc, name, found.as_slice())?;
        let is_known = self.lines.get(line.as_str().as_bytes()).is_some();
        Ok(!is_known && found.as_slice() != text)
    }

    /// Refuses a further name for an edited file if a file of the result has it, or if NAME.old exists.
    fn spare<F: Files>(&self, rt: &F, outputs: &[Output<'_>], name: &str) -> Result<(), Failure> {
        let path = path_in(self.alloc, self.path, name)?;
        let mut is_taken = self.overwrites && fs::symlink_metadata(rt, path.as_str()).is_ok();
        for output in outputs {
            is_taken |= output.name == name;
        }
        if is_taken {
            let reason =
                "this name is needed for a file that was edited by hand; rename what has it";
            return Err(Failure::file_since(self.alloc, path.as_str(), reason));
        }
        Ok(())
    }

    /// Where the text of one of these files goes.
    fn fate<F: Files>(
        &self,
        rt: &F,
        outputs: &[Output<'_>],
        output: Output<'_>,
    ) -> Result<Fate, Failure> {
        if !self.is_edited(rt, output.name, output.text)? {
            return Ok(Fate::Written);
        }
        let name = output.name;
        let ending = if self.overwrites { "old" } else { "new" };
        let further = format!(in self.alloc; "{name}.{ending}")?;
        self.spare(rt, outputs, further.as_str())?;
        Ok(if self.overwrites {
            Fate::Replaced
        } else if self.is_edited(rt, further.as_str(), output.text)? {
            Fate::Kept
        } else {
            Fate::Beside
        })
    }

    /// Where the texts of these files go. Nothing is written.
    ///
    /// # Errors
    ///
    /// Fails if a file can't be read, or if one would be lost.
    pub fn fates<F: Files>(&self, rt: &F, outputs: &[Output<'_>]) -> Result<Vec<Fate>, Failure> {
        let mut fates = Vec::new(self.alloc);
        for output in outputs {
            fates.push(self.fate(rt, outputs, *output)?)?;
        }
        Ok(fates)
    }

    /// Adds the line for a file with this name and this text.
    fn add_line(&mut self, name: &str, text: &[u8]) -> Result<(), Memory> {
        let line = line_of(self.alloc, name, text)?;
        let line = line.as_str().as_bytes();
        let name = Vec::from_slice(self.alloc, name_in(line))?;
        self.names.insert(name, true)?;
        self.lines.insert(Vec::from_slice(self.alloc, line)?, true)?;
        Ok(())
    }

    /// Writes the list. Until all files are written it has the old lines too, since a file may still be as it was; then those
    /// of other files.
    fn write_list<F: Files>(&self, rt: &F, is_done: bool) -> Result<(), Failure> {
        let mut list = Vec::new(self.alloc);
        for (line, is_new) in &self.lines {
            let line = line.as_slice();
            let is_past = is_done && !*is_new && self.names.get(name_in(line)).is_some();
            if !is_past && !line.is_empty() {
                list.extend_from_slice(line)?;
                list.push(b'\n')?;
            }
        }
        self.write_file(rt, LIST, list.as_slice())
    }

    /// Writes the file with this name.
    fn write_file<F: Files>(&self, rt: &F, name: &str, bytes: &[u8]) -> Result<(), Failure> {
        let path = path_in(self.alloc, self.path, name)?;
        remove_unfinished(rt, self.alloc, path.as_str(), bytes)?;
        write_file(rt, self.alloc, path.as_str(), self.links, bytes)
    }

    /// Keeps an edited file as NAME.old.
    fn keep_old<F: Files>(&self, rt: &F, name: &str) -> Result<(), Failure> {
        let path = path_in(self.alloc, self.path, name)?;
        let old = format!(in self.alloc; "{path}.old")?;
        match fs::rename(rt, path.as_str(), old.as_str()) {
            Ok(()) => Ok(()),
            Err(error) => Err(Failure::io(self.alloc, &error, old.as_str())),
        }
    }

    /// Writes the text of a file to where it goes. A script that is written can be run.
    fn write_output<F: Files>(
        &self,
        rt: &F,
        output: Output<'_>,
        fate: Fate,
    ) -> Result<(), Failure> {
        let name = output.name;
        match fate {
            Fate::Written => {}
            Fate::Replaced => self.keep_old(rt, name)?,
            Fate::Beside => {
                let new = format!(in self.alloc; "{name}.new")?;
                return self.write_file(rt, new.as_str(), output.text);
            }
            Fate::Kept => return Ok(()),
        }
        self.write_file(rt, name, output.text)?;
        if name == SCRIPT {
            let path = path_in(self.alloc, self.path, SCRIPT)?;
            // On a file system without such permissions the script is run by `sh build.sh`.
            let _ = fs::set_permissions(rt, path.as_str(), Permissions::from_mode(0o755));
        }
        Ok(())
    }

    /// Writes the texts of these files to where they go. The list has their digests before the first one is written, so a
    /// conversion that was killed can be repeated.
    ///
    /// # Errors
    ///
    /// Fails if a file can't be written.
    pub fn write<F: Files>(
        &mut self,
        rt: &F,
        outputs: &[Output<'_>],
        fates: &[Fate],
    ) -> Result<(), Failure> {
        for (output, fate) in outputs.iter().zip(fates) {
            let name = output.name;
            self.add_line(name, output.text)?;
            if *fate == Fate::Beside {
                let new = format!(in self.alloc; "{name}.new")?;
                self.add_line(new.as_str(), output.text)?;
            }
        }
        self.write_list(rt, false)?;
        for (output, fate) in outputs.iter().zip(fates) {
            self.write_output(rt, *output, *fate)?;
        }
        self.write_list(rt, true)
    }
}
