//! The arguments of `lsp`.

use crate::argument_reader::ArgumentReader;
use crate::grammar::{Argument, CommandSpec, Constraint, Form};

/// The arguments of `lsp`.
#[derive(Drop)]
pub struct ServeOrder<'a> {
    /// The folders in which a file for GET is looked for, after that of the source.
    pub includes: Vec<&'a str>,
}

/// The command `lsp`.
pub(crate) const LSP: CommandSpec = CommandSpec {
    name: "lsp",
    about: "Serves an editor: errors as one types, what names mean, completion, renaming",
    more: "Speaks the Language Server Protocol on standard input and output. An editor starts it; docs/editors.md says what\n\
           to write in the settings of Neovim, Emacs and VS Code.\n\n\
           A GET finds the headers of the library, files in the folder of the source, and then those in the folders of\n\
           --include.\n\n\
           Exit status: 0 the editor ended the session, 1 it was cut off, 3 invalid arguments.",
    arguments: &[
        Argument {
            name: "include",
            form: Form::LetteredRepeated("DIR", 'I'),
            constraint: Constraint::Free,
            help: "Look in folder DIR for a GET \"NAME\" that the folder of the source doesn't have",
        },
        Argument {
            name: "stdio",
            form: Form::Flag,
            constraint: Constraint::Free,
            help: "Use standard input and output, which is the only way; some editors add this option",
        },
    ],
};

/// Reads the arguments of `lsp`.
pub(crate) fn serve_order<'a>(reader: &mut ArgumentReader<'_, 'a>) -> ServeOrder<'a> {
    ServeOrder {
        includes: reader.values("include"),
    }
}
