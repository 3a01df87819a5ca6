//! The files of a command. An output that would overwrite another of them is refused before anything is written.

use crate::arguments::{
    Binding, BuildOrder, DebugOrder, ExplainOrder, ProgramOrder, RunOrder, STANDARD_OUTPUT,
};
use crate::failure::{Cause, Failure};
use crate::file_identity::is_same_file;
use crate::loaded_sources::LoadedSource;
use std::alloc::Global;
use std::rt::Files;

/// The path of standard input.
pub(crate) const STANDARD_INPUT: &str = "/dev/stdin";

/// What a command does with a file.
#[derive(Clone, Copy, PartialEq, Eq)]
enum FileUse {
    /// It reads a source, or what a source gets.
    Source,
    /// It reads a text.
    Text,
    /// A run reads it.
    Input,
    /// Standard input is read from it.
    StandardInput,
    /// Standard output goes to it.
    StandardOutput,
    /// `debug` reads commands from it.
    Script,
    /// A run writes it.
    Output,
    /// `build` writes the text to it.
    BuiltText,
    /// `build` writes the certificate to it.
    Certificate,
    /// `run` writes the trace to it.
    Trace,
    /// `run` writes the profile to it.
    Profile,
    /// `explain` or `debug` writes the page to it.
    Page,
}

impl FileUse {
    /// Whether the command replaces the file.
    fn is_replaced(self) -> bool {
        matches!(
            self,
            FileUse::Output
                | FileUse::BuiltText
                | FileUse::Certificate
                | FileUse::Trace
                | FileUse::Profile
                | FileUse::Page
        )
    }

    /// Why a file with this use can't be replaced by another output.
    fn reason(self) -> &'static str {
        match self {
            FileUse::Source => "this is one of the sources, so it can't be an output too",
            FileUse::Text => "this is one of the texts, so it can't be an output too",
            FileUse::Input => "the run reads this file, so it can't be an output too",
            FileUse::StandardInput => {
                "standard input is read from this file, so it can't be an output too"
            }
            FileUse::StandardOutput => {
                "standard output goes to this file; each output needs its own file"
            }
            FileUse::Script => "commands are read from this file, so it can't be an output too",
            FileUse::Output => "two outputs can't be the same file",
            FileUse::BuiltText | FileUse::Certificate => {
                "the text and the certificate can't be the same file"
            }
            FileUse::Trace | FileUse::Profile => {
                "the trace or the profile goes to this file; each output needs its own file"
            }
            FileUse::Page => "the page goes to this file; each output needs its own file",
        }
    }
}

/// A file of a command.
#[derive(Clone, Copy)]
struct CommandFile<'a> {
    path: &'a str,
    usage: FileUse,
    /// The name of its stream, if it is one of a run.
    stream: &'a str,
}

impl CommandFile<'_> {
    /// Whether this output must not be the file of `other`, which comes before it or is read. Two streams with the same
    /// name are refused elsewhere.
    fn excludes(&self, other: &CommandFile<'_>) -> bool {
        !(other.usage == FileUse::Output
            && self.usage == FileUse::Output
            && other.stream == self.stream)
    }
}

/// The files of a command: those that it reads, then those that it writes. It remembers a failed allocation; once one has
/// failed, `protect` fails.
#[derive(Drop)]
struct CommandFiles<'a> {
    alloc: Global,
    files: Vec<CommandFile<'a>>,
    /// Whether an allocation failed.
    is_refused: bool,
}

impl<'a> CommandFiles<'a> {
    /// No files.
    fn new(alloc: Global) -> CommandFiles<'a> {
        CommandFiles {
            alloc,
            files: Vec::new(alloc),
            is_refused: false,
        }
    }

    /// Adds the file of a stream, or a file for GET. The name of another file is empty.
    fn add_named(&mut self, path: &'a str, usage: FileUse, stream: &'a str) {
        let file = CommandFile {
            path,
            usage,
            stream,
        };
        if self.files.push(file).is_err() {
            self.is_refused = true;
        }
    }

    /// Adds a file.
    fn add(&mut self, path: &'a str, usage: FileUse) {
        self.add_named(path, usage, "");
    }

    /// Adds files.
    fn add_all(&mut self, paths: &[&'a str], usage: FileUse) {
        for path in paths {
            self.add(*path, usage);
        }
    }

    /// Adds the files of streams, or those for GET.
    fn add_bindings(&mut self, bindings: &[Binding<'a>], usage: FileUse) {
        for binding in bindings {
            let Binding { name, path } = *binding;
            self.add_named(path, usage, name);
        }
    }

    /// Adds the sources.
    fn add_sources(&mut self, sources: &'a [LoadedSource]) {
        for source in sources {
            self.add(source.path.as_str(), FileUse::Source);
        }
    }

    /// Adds the streams of a run.
    fn add_streams(&mut self, inputs: &[Binding<'a>], outputs: &[Binding<'a>]) {
        self.add_bindings(inputs, FileUse::Input);
        self.add(STANDARD_INPUT, FileUse::StandardInput);
        self.add(STANDARD_OUTPUT, FileUse::StandardOutput);
        self.add_bindings(outputs, FileUse::Output);
    }

    /// Adds a file if there is one.
    fn add_if_given(&mut self, path: Option<&'a str>, usage: FileUse) {
        if let Some(path) = path {
            self.add(path, usage);
        }
    }

    /// Refuses this output if it is one of these files.
    fn protect_from<F: Files>(
        &self,
        rt: &F,
        file: &CommandFile<'a>,
        others: &[CommandFile<'a>],
    ) -> Result<(), Failure> {
        for other in others {
            if file.excludes(other) && is_same_file(rt, self.alloc, file.path, other.path)? {
                return Err(Failure::file_since(self.alloc, file.path, other.usage.reason()));
            }
        }
        Ok(())
    }

    /// Refuses an output that is the file of an earlier one, or a file that the command reads. Fails if an allocation has failed.
    fn protect<F: Files>(&self, rt: &F) -> Result<(), Failure> {
        if self.is_refused {
            return Err(Failure::new(Cause::Memory));
        }
        let files = self.files.as_slice();
        for (number, file) in files.iter().enumerate() {
            if file.usage.is_replaced() {
                self.protect_from(rt, file, files.get(..number).unwrap_or(&[]))?;
            }
        }
        Ok(())
    }
}

impl BuildOrder<'_> {
    /// Refuses an output that would overwrite a source or the other output.
    ///
    /// # Errors
    ///
    /// The failure of the output's file, or one of `Memory`.
    pub fn protect_files<F: Files>(
        &self,
        rt: &F,
        alloc: Global,
        sources: &[LoadedSource],
    ) -> Result<(), Failure> {
        let mut files = CommandFiles::new(alloc);
        files.add_sources(sources);
        files.add(self.out, FileUse::BuiltText);
        files.add_if_given(self.certificate, FileUse::Certificate);
        files.protect(rt)
    }
}

impl ExplainOrder<'_> {
    /// Refuses a page that would overwrite a source, like `BuildOrder::protect_files`.
    pub fn protect_files<F: Files>(
        &self,
        rt: &F,
        alloc: Global,
        sources: &[LoadedSource],
    ) -> Result<(), Failure> {
        let mut files = CommandFiles::new(alloc);
        files.add_sources(sources);
        files.add_if_given(self.out, FileUse::Page);
        files.protect(rt)
    }
}

impl DebugOrder<'_> {
    /// Refuses a page or an output of the run that would overwrite a source, an input, the commands or another output, like
    /// `BuildOrder::protect_files`.
    pub fn protect_files<F: Files>(
        &self,
        rt: &F,
        alloc: Global,
        sources: &[LoadedSource],
    ) -> Result<(), Failure> {
        let mut files = CommandFiles::new(alloc);
        files.add_sources(sources);
        files.add_if_given(self.input, FileUse::Input);
        files.add_if_given(self.script, FileUse::Script);
        files.add_streams(self.inputs.as_slice(), self.outputs.as_slice());
        files.add_if_given(self.out, FileUse::Page);
        files.protect(rt)
    }
}

impl ProgramOrder<'_> {
    /// Refuses an output of a run that would overwrite a source, an input or another output, like
    /// `BuildOrder::protect_files`.
    pub fn protect_files<F: Files>(
        &self,
        rt: &F,
        alloc: Global,
        sources: &[LoadedSource],
    ) -> Result<(), Failure> {
        let mut files = CommandFiles::new(alloc);
        files.add_sources(sources);
        files.add_streams(self.inputs.as_slice(), self.outputs.as_slice());
        files.protect(rt)
    }
}

impl RunOrder<'_> {
    /// Refuses an output, a trace or a profile that would overwrite a text, a source, an input or another output, like
    /// `BuildOrder::protect_files`.
    pub fn protect_files<F: Files>(&self, rt: &F, alloc: Global) -> Result<(), Failure> {
        let mut files = CommandFiles::new(alloc);
        files.add_all(self.texts.as_slice(), FileUse::Text);
        files.add_all(self.sources.files.as_slice(), FileUse::Source);
        files.add_bindings(self.sources.gets.as_slice(), FileUse::Source);
        files.add_streams(self.inputs.as_slice(), self.outputs.as_slice());
        files.add_if_given(self.watch.trace, FileUse::Trace);
        files.add_if_given(self.watch.profile, FileUse::Profile);
        files.protect(rt)
    }
}
