//! The warnings on an accepted program: which ones there are, in which order they are tried, and their texts.

use crate::arguments::{Missing, is_called, missing_arguments};
use crate::comments::{commented_division, has_comment_before, swallowed_do};
use crate::declared::Declarations;
use crate::flow::Flow;
use crate::formats::{Lacking, lacking_arguments, unknown_format};
use crate::globals::{is_library_assigned, library_global, number_twice};
use crate::kinds::Kinds;
use crate::known::Known;
use crate::labels::{Idle, idle_label};
use crate::main_warnings::{may_be_warned_of, warn_of_use};
use crate::mixed::is_mixed;
use crate::separated::{Looks, is_repeat_in_front, misread, seeming_head};
use crate::starts::{Likeness, likeness_at};
use crate::strings::has_backslash;
use crate::tokens::{is_at, symbol_at};
use crate::unreachable::unreached;
use crate::unset::{Settings, foreign_global, unset_global};
use crate::values::is_used;
use crate::vectors::is_vector_called;
use bc_build::Parsed;
use bc_lex::Source;
use bc_lex_tokens::{Symbol, Token, TokenKind};
use bc_library::is_of_library;
use bc_word::Memory;
use bcpl_index::{Interned, Tree};
use bcpl_messages::{Draft, Fill, Message};
use bcpl_places::Span;
use indexmap::IndexSet;
use std::alloc::Global;

/// For an assignment to a routine of the library. This and the next constants have a sentence and a help each, in which
/// `{}` is the token.
const ASSIGNMENT: (&str, &str) = (
    "{} is a routine of the library, and this assignment replaces it",
    "all calls of it are changed, also those in the library; declare a variable of your own with LET",
);

/// For a call of a routine of LIBHDR in a program of which another file gets EXTHDR.
const MIXED: (&str, &str) = (
    "this {} is LIBHDR's, but another file of the program gets EXTHDR, whose routine remembers what LIBHDR's doesn't",
    "write GET \"EXTHDR\" in all files of the program",
);

/// For a routine without a value that is called for its value.
const VALUE: (&str, &str) = (
    "the value of {} is used, but it is declared with BE and has no meaningful value",
    "declare a routine that returns a value with =, as in LET F(X) = VALOF $( .. RESULTIS E $)",
);

/// For a backslash in a string.
const BACKSLASH: (&str, &str) = (
    "a backslash in a string has no special meaning",
    "write *N for a line break, and *T for a tab",
);

/// For a vector that is called.
const VECTOR: (&str, &str) = (
    "{} is a vector, and this calls it as a routine",
    "its elements are {}!0, {}!1 and so on",
);

/// For a label that is probably meant as DEFAULT.
const DEFAULT: (&str, &str) = (
    "{} is a label here; the reserved word is DEFAULT",
    "a SWITCHON goes only to its CASEs and its DEFAULT, not to a label",
);

/// For a label that no GOTO names.
const LABEL: (&str, &str) = (
    "nothing goes to the label {}",
    "add a GOTO that names it, or remove the label",
);

/// For a REPEAT before the command that it seems to repeat.
const REPEAT: (&str, &str) = (
    "this REPEAT repeats the command on the line before it forever",
    "write the repeated command before it, as in $( .. $) REPEATUNTIL E",
);

/// For a line that looks like a separate command and isn't.
const APART: (&str, &str) = (
    "this line continues the expression of the line before",
    "no command begins with `-`; if you mean to continue the line before, indent this one",
);

/// For a line that looks like a continuation and isn't.
const TOGETHER: (&str, &str) = (
    "a new command begins here; it doesn't continue the line before",
    "to continue a line, end it with an operator, a comma or an open parenthesis",
);

/// What is known about a main.
#[derive(Clone, Copy)]
struct Main<'m, 'p, 's> {
    sources: &'p [Source<'s>],
    /// How many of the sources are the library's.
    library: usize,
    tokens: &'m [Token<'s>],
    declarations: &'m Declarations<'s>,
    /// The globals that the whole program may set.
    settings: &'m Settings<'s>,
}

impl<'s> Main<'_, '_, 's> {
    /// The text of the token with this index; empty if there is none.
    fn text(&self, at: usize) -> &'s [u8] {
        match self.tokens.get(at) {
            Some(token) => token.text,
            None => b"",
        }
    }
}

/// Begins a warning at the token with this index.
fn begin(draft: &mut Draft, tokens: &[Token<'_>], at: usize) {
    if let Some(token) = tokens.get(at) {
        draft.place(Span {
            file: token.file,
            start: token.start,
            end: token.end,
        });
    }
    draft.say("warning: ", &[]);
}

/// Warns if the token with this index declares a library's global under another name. Returns whether it does.
fn warns_of_library_global(draft: &mut Draft, main: &Main<'_, '_, '_>, at: usize) -> bool {
    let Some((number, name)) = library_global(main.tokens, main.declarations, main.library, at)
    else {
        return false;
    };
    begin(draft, main.tokens, at);
    draft.say(
        "the global {} is {} of the library, but here it is named {}",
        &[
            Fill::Number(u64::from(number)),
            Fill::Shown(name),
            Fill::Shown(main.text(at)),
        ],
    );
    draft.help(
        "use a number that the library doesn't use; the numbers from 100 on are free",
        &[],
    );
    true
}

/// Warns if the token with this index gives a global a second name. Returns whether it does.
fn warns_of_number(draft: &mut Draft, main: &Main<'_, '_, '_>, at: usize) -> bool {
    let Some((number, name)) = number_twice(main.tokens, main.declarations, at) else {
        return false;
    };
    begin(draft, main.tokens, at);
    draft.say(
        "the global {} is already named {} in this file, and here {}",
        &[
            Fill::Number(u64::from(number)),
            Fill::Shown(name),
            Fill::Shown(main.text(at)),
        ],
    );
    draft.help(
        "two names with one number share one cell; for two cells, use another number",
        &[],
    );
    true
}

/// Warns if the token with this index calls a global that nothing sets. Returns whether it does.
fn warns_of_unset(draft: &mut Draft, main: &Main<'_, '_, '_>, at: usize) -> bool {
    let unset = unset_global(main.tokens, main.declarations, main.settings, at);
    let Some(number) = unset else {
        return false;
    };
    begin(draft, main.tokens, at);
    draft.say(
        "{} is called here, but nothing in the program sets the global {}",
        &[Fill::Shown(main.text(at)), Fill::Number(u64::from(number))],
    );
    draft.help(
        if is_of_library(main.text(at)) {
            "the library has a routine of this name; replace the declaration here by GET \"LIBHDR\""
        } else {
            "a routine sets it if it is declared while its name means the global; is a file of the program missing?"
        },
        &[],
    );
    true
}

/// Warns if the token with this index calls a global that only the library sets, under another name. Returns whether it
/// does.
fn warns_of_foreign(draft: &mut Draft, main: &Main<'_, '_, '_>, at: usize) -> bool {
    let foreign = foreign_global(
        main.tokens,
        main.declarations,
        main.settings,
        main.library,
        at,
    );
    let Some((number, name)) = foreign else {
        return false;
    };
    begin(draft, main.tokens, at);
    draft.say(
        "the global {} is {} of the library, and nothing in the program sets it to its {}",
        &[
            Fill::Number(u64::from(number)),
            Fill::Shown(name),
            Fill::Shown(main.text(at)),
        ],
    );
    draft.help(
        "GET \"EXTHDR\" declares the library's routines; for your own, the numbers from 100 on are free",
        &[],
    );
    true
}

/// Warns if the token with this index is called with fewer arguments than it has parameters. Returns whether it is.
fn warns_of_arguments(draft: &mut Draft, main: &Main<'_, '_, '_>, at: usize) -> bool {
    let Some(missing) = missing_arguments(main.tokens, main.declarations, at) else {
        return false;
    };
    let Missing {
        arguments,
        parameters,
    } = missing;
    begin(draft, main.tokens, at);
    draft.say(
        if arguments == 1 {
            "this call passes {} argument, but "
        } else {
            "this call passes {} arguments, but "
        },
        &[Fill::Number(arguments as u64)],
    );
    draft.say(
        if parameters == 1 {
            "{} has {} parameter"
        } else {
            "{} has {} parameters"
        },
        &[Fill::Shown(main.text(at)), Fill::Number(parameters as u64)],
    );
    draft.help("a parameter without an argument has no value", &[]);
    true
}

/// Warns if the token with this index is a format that WRITEF doesn't know. Returns whether it is.
fn warns_of_format(draft: &mut Draft, main: &Main<'_, '_, '_>, at: usize) -> bool {
    let unknown = unknown_format(main.tokens, main.declarations, main.library, at);
    let Some((letter, is_further)) = unknown else {
        return false;
    };
    let sign = [letter];
    let letter = Fill::Shown(&sign);
    begin(draft, main.tokens, at);
    draft.say(
        "WRITEF doesn't know %{}, and writes {} instead",
        &[letter, letter],
    );
    draft.help(
        if is_further {
            "it knows %N, %C, %S, %P, %+, %- and %%, and with a width %I, %U, %O, %X and %T, as in %I4"
        } else {
            "it knows %N, %C and %S, in upper case; for a width, as in %I4, use GET \"EXTHDR\" and --library ext"
        },
        &[],
    );
    true
}

/// Warns if the token with this index is a format that takes more arguments than follow it. Returns whether it is.
fn warns_of_lacking(draft: &mut Draft, main: &Main<'_, '_, '_>, at: usize) -> bool {
    let lacking = lacking_arguments(main.tokens, main.declarations, main.library, at);
    let Some(Lacking { taken, given }) = lacking else {
        return false;
    };
    begin(draft, main.tokens, at);
    draft.say(
        if taken == 1 {
            "this format takes {} argument"
        } else {
            "this format takes {} arguments"
        },
        &[Fill::Number(taken as u64)],
    );
    draft.say(
        match given {
            0 => ", but none follows it",
            1 => ", but only {} follows it",
            _ => ", but only {} follow it",
        },
        &[Fill::Number(given as u64)],
    );
    draft.help(
        "each % with its letter writes the next argument; a missing argument has no value",
        &[],
    );
    true
}

/// Warns if the command after the one at this index is never reached. Returns whether that is so.
fn warns_of_unreached(draft: &mut Draft, main: &Main<'_, '_, '_>, at: usize) -> bool {
    let Some(following) = unreached(main.tokens, at) else {
        return false;
    };
    begin(draft, main.tokens, following);
    draft.say(
        "this command is never reached: the {} before it goes elsewhere",
        &[Fill::Shown(main.text(at))],
    );
    draft.help(
        "put a label, a CASE or a DEFAULT before it, or remove it",
        &[],
    );
    true
}

/// Warns if the line that begins at this index seems to belong to a body, and doesn't. Returns whether that is so.
fn warns_of_body(draft: &mut Draft, main: &Main<'_, '_, '_>, at: usize) -> bool {
    let Some(word) = seeming_head(main.sources, main.tokens, at) else {
        return false;
    };
    begin(draft, main.tokens, at);
    draft.say(
        "this line comes after the {} above, not in it: the line before is the only command of its body",
        &[Fill::Shown(word)],
    );
    draft.help("write a body of several commands as $( .. $)", &[]);
    true
}

/// Warns if a comment contains the THEN or DO before the command at this index. Returns whether one does.
fn warns_of_comment(draft: &mut Draft, main: &Main<'_, '_, '_>, at: usize) -> bool {
    let Some(span) = swallowed_do(main.sources, main.tokens, at) else {
        return false;
    };
    draft.place(span);
    draft.say("warning: `||` begins a comment; write `|` for or", &[]);
    draft.help(
        "the THEN or DO in the comment is ignored, and the command on the next line depends on the condition",
        &[],
    );
    true
}

/// Warns if the `//` before the line that begins at this index is meant as a division. Returns whether it is.
fn warns_of_division(draft: &mut Draft, main: &Main<'_, '_, '_>, at: usize) -> bool {
    let Some(span) = commented_division(main.sources, main.tokens, at) else {
        return false;
    };
    draft.place(span);
    draft.say(
        "warning: // begins a comment here, and divides nothing",
        &[],
    );
    draft.help("the quotient is written /, as in N / 2", &[]);
    true
}

/// Warns of a comment before the line that begins at this index. Returns whether it does.
fn warns_of_gap(draft: &mut Draft, main: &Main<'_, '_, '_>, at: usize) -> bool {
    has_comment_before(main.sources, main.tokens, at)
        && (warns_of_comment(draft, main, at) || warns_of_division(draft, main, at))
}

/// The sentence and the help on a called name that is probably wrong. A `{}` is the name.
fn call_oddity(main: &Main<'_, '_, '_>, at: usize) -> Option<(&'static str, &'static str)> {
    if is_used(main.tokens, main.declarations, at) {
        Some(VALUE)
    } else if is_vector_called(main.tokens, main.declarations, at) {
        Some(VECTOR)
    } else if is_mixed(
        main.tokens,
        main.declarations,
        main.settings.gets_further,
        at,
    ) {
        Some(MIXED)
    } else {
        None
    }
}

/// The sentence and the help on a label.
fn label_oddity(main: &Main<'_, '_, '_>, at: usize) -> Option<(&'static str, &'static str)> {
    match idle_label(main.tokens, main.declarations, at)? {
        Idle::Default => Some(DEFAULT),
        Idle::Label => Some(LABEL),
    }
}

/// The sentence and the help on a line that is read otherwise than it looks, and begins with the token at this index.
fn line_oddity(main: &Main<'_, '_, '_>, at: usize) -> Option<(&'static str, &'static str)> {
    if is_repeat_in_front(main.sources, main.tokens, at) {
        return Some(REPEAT);
    }
    match misread(main.sources, main.tokens, at)? {
        Looks::Apart => Some(APART),
        Looks::Together => Some(TOGETHER),
    }
}

/// Warns of the token with this index, if a sentence and a help are given. Returns whether they are.
fn warns_by(
    draft: &mut Draft,
    main: &Main<'_, '_, '_>,
    at: usize,
    said: Option<(&str, &str)>,
) -> bool {
    let Some((sentence, help)) = said else {
        return false;
    };
    let token = Fill::Shown(main.text(at));
    begin(draft, main.tokens, at);
    draft.say(sentence, &[token]);
    draft.help(help, &[token, token]);
    true
}

/// Warns of a call of the name at this index. Returns whether it does.
fn warns_of_call(draft: &mut Draft, main: &Main<'_, '_, '_>, at: usize) -> bool {
    is_called(main.tokens, at)
        && (warns_of_unset(draft, main, at)
            || warns_of_foreign(draft, main, at)
            || warns_of_arguments(draft, main, at)
            || warns_by(draft, main, at, call_oddity(main, at)))
}

/// Warns of the name at this index, by the symbol that follows it. Returns whether it does.
fn warns_of_name(draft: &mut Draft, main: &Main<'_, '_, '_>, at: usize) -> bool {
    match symbol_at(main.tokens, at.saturating_add(1)) {
        Some(Symbol::Colon | Symbol::Equal) => {
            warns_of_library_global(draft, main, at) || warns_of_number(draft, main, at)
        }
        Some(Symbol::OpenBracket) => warns_of_call(draft, main, at),
        Some(Symbol::Assign) => {
            is_library_assigned(main.tokens, main.declarations, main.library, at)
                && warns_by(draft, main, at, Some(ASSIGNMENT))
        }
        _ => false,
    }
}

/// Warns of the string at this index. Returns whether it does.
fn warns_of_string(draft: &mut Draft, main: &Main<'_, '_, '_>, at: usize) -> bool {
    warns_of_format(draft, main, at)
        || warns_of_lacking(draft, main, at)
        || has_backslash(main.tokens, at) && warns_by(draft, main, at, Some(BACKSLASH))
}

/// Warns of what the token with this index is, wherever its line begins. Returns whether it does.
fn warns_of_kind(
    draft: &mut Draft,
    main: &Main<'_, '_, '_>,
    at: usize,
    kind: TokenKind<'_>,
) -> bool {
    match kind {
        TokenKind::Name(_) => warns_of_name(draft, main, at),
        TokenKind::String(_) => warns_of_string(draft, main, at),
        TokenKind::Symbol(_) => warns_of_unreached(draft, main, at),
        TokenKind::Number(_) | TokenKind::Character(_) => false,
    }
}

/// Adds the first warning that applies to this token, which has this index.
fn warn_at(draft: &mut Draft, main: &Main<'_, '_, '_>, at: usize, token: &Token<'_>) {
    if warns_of_kind(draft, main, at, token.kind) {
        return;
    }
    if token.line_before
        && (warns_of_gap(draft, main, at)
            || warns_of_body(draft, main, at)
            || warns_by(draft, main, at, line_oddity(main, at)))
    {
        return;
    }
    if is_at(main.tokens, at.saturating_add(1), Symbol::Colon) {
        warns_by(draft, main, at, label_oddity(main, at));
    }
}

/// The warnings on an accepted program, as they are being collected.
#[derive(Drop)]
struct WarningList<'p, 's> {
    alloc: Global,
    sources: &'p [Source<'s>],
    /// How many of the sources are the library's.
    library: usize,
    /// The places that have a warning: the file, the offset of the first byte, and the offset after the last one.
    places: IndexSet<(usize, usize, usize)>,
    /// The warnings.
    messages: Vec<Message>,
}

impl<'p, 's> WarningList<'p, 's> {
    /// No warnings yet.
    fn new(alloc: Global, sources: &'p [Source<'s>], library: usize) -> WarningList<'p, 's> {
        WarningList {
            alloc,
            sources,
            library,
            places: IndexSet::new(alloc),
            messages: Vec::new(alloc),
        }
    }

    /// Adds a warning, unless it is in the library, or its place already has one.
    fn add(&mut self, message: Message) -> Result<(), Memory> {
        let Some(span) = message.span else {
            return Ok(());
        };
        let is_new = span.file >= self.library
            && self.places.insert((span.file, span.start, span.end))?;
        if is_new {
            self.messages.push(message)?;
        }
        Ok(())
    }

    /// Adds the warning that was drafted, if one was.
    fn add_draft(&mut self, draft: Draft) -> Result<(), Memory> {
        match draft.end()? {
            Some(message) => self.add(message),
            None => Ok(()),
        }
    }

    /// Adds the warning that was drafted, and returns an empty draft.
    fn renewed(&mut self, main: usize, draft: Draft) -> Result<Draft, Memory> {
        self.add_draft(draft)?;
        Ok(Draft::new(self.alloc, main))
    }

    /// Adds the warnings on a main with these tokens, in text order.
    fn add_tokens<'m>(
        &mut self,
        settings: &'m Settings<'s>,
        declarations: &'m Declarations<'s>,
        main: usize,
        tokens: &'m [Token<'s>],
    ) -> Result<(), Memory> {
        let known = Main {
            sources: self.sources,
            library: self.library,
            tokens,
            declarations,
            settings,
        };
        let mut draft = Draft::new(self.alloc, main);
        for (at, token) in tokens.iter().enumerate() {
            if token.file >= self.library {
                warn_at(&mut draft, &known, at, token);
                if !draft.is_empty() {
                    draft = self.renewed(main, draft)?;
                }
            }
        }
        self.add_draft(draft)
    }

    /// Adds the warnings on how values are used in a main of which this is known.
    fn add_known(&mut self, main: usize, known: &Known<'_, '_>) -> Result<(), Memory> {
        let mut draft = Draft::new(self.alloc, main);
        for (at, node) in known.tree.nodes().iter().enumerate() {
            if may_be_warned_of(node.form) {
                warn_of_use(&mut draft, known, at, node.form);
                if !draft.is_empty() {
                    draft = self.renewed(main, draft)?;
                }
            }
        }
        self.add_draft(draft)
    }

    /// Adds the warnings on how values are used in a main that was parsed to this, and whose names are `interned`.
    fn add_uses(
        &mut self,
        interned: &Interned<'s>,
        main: usize,
        read: &Parsed<'s>,
    ) -> Result<(), Memory> {
        let tree = Tree::of(self.alloc, read.tokens.as_slice(), interned, &read.section)?;
        let mut kinds = Kinds::of(self.alloc, &tree, self.library)?;
        let flow = Flow::of(self.alloc, &tree, &mut kinds)?;
        let known = Known {
            sources: self.sources,
            library: self.library,
            tree: &tree,
            kinds: &kinds,
            flow: &flow,
        };
        self.add_known(main, &known)
    }

    /// Adds the warnings on a main that was parsed to this, first those that the tokens show.
    fn add_main(
        &mut self,
        settings: &Settings<'s>,
        declarations: &Declarations<'s>,
        main: usize,
        read: &Parsed<'s>,
    ) -> Result<(), Memory> {
        self.add_tokens(settings, declarations, main, read.tokens.as_slice())?;
        self.add_uses(&declarations.interned, main, read)
    }

    /// Adds the warnings on these mains, which were parsed to `parsed`, but not on the library's.
    fn add_mains(
        &mut self,
        settings: &Settings<'s>,
        mains: &[usize],
        parsed: &[Parsed<'s>],
    ) -> Result<(), Memory> {
        for ((main, read), declarations) in mains.iter().zip(parsed).zip(&settings.declarations) {
            if *main >= self.library {
                self.add_main(settings, declarations, *main, read)?;
            }
        }
        Ok(())
    }

    /// Adds a warning if the routine at the token with this index is probably meant to be START.
    fn add_start(&mut self, main: usize, tokens: &[Token<'_>], at: usize) -> Result<(), Memory> {
        let mut draft = Draft::new(self.alloc, main);
        warn_of_start(&mut draft, tokens, at);
        match draft.end()? {
            Some(message) => Ok(self.messages.push(message)?),
            None => Ok(()),
        }
    }

    /// Adds the warnings on routines of a main with these tokens that are probably meant to be START.
    fn add_starts(&mut self, main: usize, tokens: &[Token<'_>]) -> Result<(), Memory> {
        for at in 0..tokens.len() {
            self.add_start(main, tokens, at)?;
        }
        Ok(())
    }
}

/// The warnings on the mains of an accepted program, main by main, first those that the tokens show. `parsed` is what the
/// mains were parsed to, in their order. The first `library` sources are the library's, and get no warnings. Returns
/// `Memory` if an allocation fails.
pub(crate) fn warnings<'s>(
    alloc: Global,
    sources: &[Source<'s>],
    library: usize,
    mains: &[usize],
    parsed: &[Parsed<'s>],
) -> Result<Vec<Message>, Memory> {
    let settings = Settings::of(alloc, library, mains, parsed)?;
    let mut warnings = WarningList::new(alloc, sources, library);
    warnings.add_mains(&settings, mains, parsed)?;
    Ok(warnings.messages)
}

/// Warns if the routine defined at the token with this index is probably meant to be START.
fn warn_of_start(draft: &mut Draft, tokens: &[Token<'_>], at: usize) {
    let (sentence, help) = match likeness_at(tokens, at) {
        Some(Likeness::Undeclared) => (
            "START is not a global here, so this routine sets none",
            "write GET \"LIBHDR\" before it to make START the global 1",
        ),
        Some(Likeness::Misnamed) => (
            "a run begins with START, but this routine has another name",
            "name it START, in upper case, in a file that has GET \"LIBHDR\"",
        ),
        None => return,
    };
    begin(draft, tokens, at);
    draft.say(sentence, &[]);
    draft.help(help, &[]);
}

/// The warnings on routines that are probably meant to be START, for an accepted program in which no
/// routine sets START. `parsed` is what the mains were parsed to, in their order. The first `library` sources are the
/// library's, and get no warnings. Returns `Memory` if an allocation fails.
pub fn likely_starts(
    alloc: Global,
    library: usize,
    mains: &[usize],
    parsed: &[Parsed<'_>],
) -> Result<Vec<Message>, Memory> {
    let mut warnings = WarningList::new(alloc, &[], library);
    for (main, read) in mains.iter().zip(parsed) {
        if *main >= library {
            warnings.add_starts(*main, read.tokens.as_slice())?;
        }
    }
    Ok(warnings.messages)
}
