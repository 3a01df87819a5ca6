//! The script that builds the result.

use crate::headers::Alias;
use crate::new_files::NewFile;
use crate::programs::{ProjectProgram, is_part};
use bc_word::Memory;
use std::alloc::Global;

/// How the script begins.
const HEAD: &str = "#!/bin/sh
# Builds what `bcpl convert --project` wrote here. The variable BCPL names the compiler, by a path from the root; the default is bcpl.
cd \"$(dirname \"$0\")\" || exit
unbuilt=
failed() { unbuilt=\"$unbuilt $1\"; }
";

/// How the script ends.
const TAIL: &str =
    "test -z \"$unbuilt\" || { printf 'build.sh: not built:%s\\n' \"$unbuilt\" >&2; exit 1; }
";

/// Adds text between single quotes, in which the shell takes each sign as it is.
fn add_quoted(script: &mut String, text: &str) -> Result<(), Memory> {
    script.push_str(" '")?;
    for character in text.chars() {
        if character == '\'' {
            script.push_str("'\\''")?;
        } else {
            script.push(character)?;
        }
    }
    script.push('\'')?;
    Ok(())
}

/// Adds the path of a file, which must not begin as an option does.
fn add_path(alloc: Global, script: &mut String, name: &str) -> Result<(), Memory> {
    if name.starts_with('-') {
        let path = format!(in alloc; "./{name}")?;
        add_quoted(script, path.as_str())
    } else {
        add_quoted(script, name)
    }
}

/// Adds the option for a header.
fn add_get(alloc: Global, script: &mut String, name: &str, file: &str) -> Result<(), Memory> {
    let binding = format!(in alloc; "{name}={file}")?;
    script.push_str(" --get")?;
    add_quoted(script, binding.as_str())
}

/// Adds the options for all headers.
fn add_gets(
    alloc: Global,
    script: &mut String,
    files: &[NewFile],
    aliases: &[Alias],
) -> Result<(), Memory> {
    for file in files {
        if file.is_header && !bc_convert::is_library_header(file.name().as_bytes()) {
            add_get(alloc, script, file.name(), file.name())?;
        }
    }
    for alias in aliases {
        if let Some(file) = files.get(alias.file) {
            add_get(alloc, script, alias.name.as_str(), file.name())?;
        }
    }
    Ok(())
}

/// What the programs of a project are built from.
#[derive(Clone, Copy)]
pub struct Parts<'p> {
    pub files: &'p [NewFile],
    pub aliases: &'p [Alias],
    /// Whether they are built with EXTLIB.
    pub is_further: bool,
}

/// Adds the line that builds a program.
fn add_build(
    alloc: Global,
    script: &mut String,
    program: &ProjectProgram,
    parts: Parts<'_>,
) -> Result<(), Memory> {
    let name = program.name.as_str();
    let text = format!(in alloc; "{name}.int")?;
    let library = if parts.is_further {
        " --library ext"
    } else {
        ""
    };
    let lean = if program.is_lean { " --lean" } else { "" };
    write!(script, "\"${{BCPL:-bcpl}}\" build{library}{lean} --out")?;
    add_path(alloc, script, text.as_str())?;
    add_gets(alloc, script, parts.files, parts.aliases)?;
    for (index, file) in parts.files.iter().enumerate() {
        if is_part(program, parts.files, index) {
            add_path(alloc, script, file.name())?;
        }
    }
    script.push_str(" || failed")?;
    add_path(alloc, script, text.as_str())?;
    Ok(script.push('\n')?)
}

/// The script that builds these programs.
///
/// # Errors
///
/// `Memory` if an allocation failed.
pub fn script_of(
    alloc: Global,
    programs: &[ProjectProgram],
    parts: Parts<'_>,
) -> Result<String, Memory> {
    let mut script = String::from_str(alloc, HEAD)?;
    for program in programs {
        add_build(alloc, &mut script, program, parts)?;
    }
    script.push_str(TAIL)?;
    Ok(script)
}
