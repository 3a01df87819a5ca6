//! Messages for faults of the scopes: names without a meaning, misplaced commands, expressions that must be constant or
//! assignable, and exceeded limits.

use crate::constants::{Reason, reason_of};
use crate::declared::{Declared, declaration_of, meaning_of};
use crate::draft::{Draft, Fill};
use crate::likeness::nearest;
use crate::neighbours::{POINTER, VECTOR_WITHOUT_SIZE, is_after_star};
use crate::read::Read;
use crate::syntax::{is_heading, list_word, name_of};
use crate::trial_parse::replaced;
use crate::words::{back, is_at, is_symbol};
use bc_build::ScopeFault;
use bc_lex::{Source, lex};
use bc_lex_tokens::{Symbol, Token, TokenKind};
use bc_library::is_of_library;
use bc_library_ext::is_of_further_library;
use bc_parse::parse;
use bc_scope::resolve;
use bc_scope_places::{Also, FaultPlace, Span as TokenSpan, fault_place};
use bc_word::Memory;
use bcpl_places::gets_of;
use std::alloc::Global;

/// What is said of a fault: the sentence before and after a name, and the help.
#[derive(Clone, Copy)]
struct Said<'a> {
    front: &'static str,
    /// The name; empty if there is none.
    name: &'a [u8],
    following: &'static str,
    help: Option<&'static str>,
}

impl<'a> Said<'a> {
    /// A sentence without a name, with a help.
    fn plain(sentence: &'static str, help: &'static str) -> Said<'a> {
        Said {
            front: sentence,
            name: b"",
            following: "",
            help: Some(help),
        }
    }

    /// Adds the sentence to a draft, and sets the help.
    fn say(&self, draft: &mut Draft) {
        draft.say(
            "{}{}{}",
            &[
                Fill::Text(self.front),
                Fill::Shown(self.name),
                Fill::Text(self.following),
            ],
        );
        if let Some(help) = self.help {
            draft.help(help, &[]);
        }
    }
}

/// Words that are misplaced: the word, the sentence and the help.
const MISPLACED: [(Symbol, &str, &str); 8] = [
    (
        Symbol::Break,
        "this BREAK is not in a loop",
        "BREAK leaves the innermost loop of the same routine and VALOF; leave a SWITCHON with ENDCASE",
    ),
    (
        Symbol::Loop,
        "this LOOP is not in a loop",
        "LOOP starts the next iteration of the innermost loop of the same routine and VALOF",
    ),
    (
        Symbol::EndCase,
        "this ENDCASE is not in a SWITCHON",
        "ENDCASE leaves the innermost SWITCHON of the same routine and VALOF",
    ),
    (
        Symbol::ResultIs,
        "this RESULTIS is not in a VALOF",
        "to return a value, declare the routine as F(..) = VALOF $( .. RESULTIS E $)",
    ),
    (
        Symbol::Return,
        "this RETURN is not in a routine declared with BE",
        "leave a VALOF with RESULTIS",
    ),
    (
        Symbol::Case,
        "this CASE is not directly in the list of a SWITCHON",
        "put each CASE directly in the list of a SWITCHON, not in a block within it",
    ),
    (
        Symbol::Default,
        "this DEFAULT is not directly in the list of a SWITCHON",
        "put each DEFAULT directly in the list of a SWITCHON, not in a block within it",
    ),
    (
        Symbol::Goto,
        "this GOTO names no label that it can reach",
        "a GOTO can reach the labels of the command lists around it, in the same routine, but can't leave a VALOF",
    ),
];

/// The sentence on a variable or a vector that is declared outside routines.
const OUTSIDE: &str = "variables and vectors can't be declared outside routines";

/// The help for it.
const INSTEAD: &str =
    "outside routines, LET can declare only routines; write STATIC $( N = 0 $) for a cell that lasts the whole run, which can also hold a vector's address";

/// Names that are misplaced after a word: the word, the sentence and the help.
const MISNAMED: [(Symbol, &str, &str); 3] = [
    (
        Symbol::Goto,
        "this is not a label that GOTO can reach from here",
        "a GOTO can reach the labels of the command lists around it, in the same routine, but can't leave a VALOF",
    ),
    (Symbol::Let, OUTSIDE, INSTEAD),
    (Symbol::And, OUTSIDE, INSTEAD),
];

/// What these rows say about a token, if it is in one.
fn said_in_rows<'a>(
    rows: &[(Symbol, &'static str, &'static str)],
    token: Option<&Token<'_>>,
) -> Option<Said<'a>> {
    let token = token?;
    for (symbol, sentence, help) in rows {
        if is_symbol(token, *symbol) {
            return Some(Said::plain(*sentence, *help));
        }
    }
    None
}

/// What is said where the token with this index, a word or a name, is misplaced.
fn misplaced<'a>(tokens: &[Token<'_>], index: usize) -> Said<'a> {
    let of_word = said_in_rows(&MISPLACED, tokens.get(index));
    match of_word.or(said_in_rows(&MISNAMED, back(tokens, index, 1))) {
        Some(said) => said,
        None => Said::plain(
            "a label is not a value and has no address",
            "use a label only after GOTO; only a routine can be called",
        ),
    }
}

/// What is said of a fault that has a name; `None` for other faults.
fn said_of_name(fault: &ScopeFault) -> Option<Said<'_>> {
    let (front, name, following, help) = match fault {
        ScopeFault::Undeclared(name) => ("no declaration of ", name, " is in scope here", None),
        ScopeFault::DeclaredTwice(name) => (
            "",
            name,
            " is declared twice in one declaration",
            Some(
                "LET .. AND .. is one declaration; so are a parameter list, and the labels of one command list",
            ),
        ),
        ScopeFault::DynamicFree(name) => (
            "",
            name,
            " belongs to an enclosing routine, which may not be active here",
            Some("pass it as an argument, or declare it as STATIC or GLOBAL"),
        ),
        ScopeFault::GlobalNumber(name) => (
            "the number of the global ",
            name,
            " is greater than 511",
            None,
        ),
        _ => return None,
    };
    Some(Said {
        front,
        name: name.as_slice(),
        following,
        help,
    })
}

/// What is said of a fault without a name, at the token with this index.
fn said_of<'a>(fault: &ScopeFault, tokens: &[Token<'_>], index: usize) -> Option<Said<'a>> {
    let (sentence, help) = match fault {
        ScopeFault::NotConstant => (
            "this is not a constant",
            "use only numbers, characters, TRUE, FALSE, MANIFEST names and operators in a constant, and no division by 0",
        ),
        ScopeFault::NotAssignable => (
            "this has no cell, so it can't be assigned to and has no address",
            "variables, statics, globals, !E and E1!E2 have a cell; manifest constants, routines and the values of expressions have none",
        ),
        ScopeFault::FrameTooLarge => (
            "a routine of this file has more than 32768 cells in its frame",
            "share large vectors between routines: declare each once, and keep its address in a global",
        ),
        ScopeFault::CaseTwice => (
            "this SWITCHON already has a CASE with this value, or a DEFAULT",
            "give each value one CASE, and each list one DEFAULT",
        ),
        ScopeFault::TooManyPlaces => (
            "the file has more than 8000 routines, statics, tables and strings",
            "split it into several files that share routines by GLOBAL",
        ),
        ScopeFault::Misplaced => return Some(misplaced(tokens, index)),
        _ => return None,
    };
    Some(Said::plain(sentence, help))
}

/// Whether the text of the main gets the library's header.
fn gets_library(draft: &mut Draft, read: Read<'_, '_>) -> bool {
    let alloc = draft.alloc();
    let gets = gets_of(alloc, read.source(read.main));
    let gets = draft.found(gets, Vec::new(alloc));
    gets.iter().any(|get| get.name == b"LIBHDR".as_slice())
}

/// The place of the first fault of these tokens; `None` if they have none, or the place isn't known.
fn first_fault(alloc: Global, tokens: &[Token<'_>]) -> Result<Option<FaultPlace>, Memory> {
    if tokens.len() > 60_000 {
        return Ok(None);
    }
    let Ok(section) = parse(alloc, tokens) else {
        return Ok(None)
    };
    match resolve(alloc, &section) {
        Ok(_) => Ok(None),
        Err(refused) => fault_place(alloc, tokens, &section, refused),
    }
}

/// Whether changed tokens have no fault, or their first fault is at another index.
fn is_mended(draft: &mut Draft, changed: &[Token<'_>], place: usize) -> bool {
    let fault = first_fault(draft.alloc(), changed);
    match draft.found(fault, None) {
        Some(found) => found.at.first != place,
        None => true,
    }
}

/// Whether a name would be in scope at an index where another one isn't. No fault comes before the index.
fn is_known<'s>(draft: &mut Draft, tokens: &[Token<'s>], place: usize, name: &'s [u8]) -> bool {
    let alloc = draft.alloc();
    let changed = replaced(alloc, tokens, place, TokenKind::Name(name));
    let changed = draft.found(changed, Vec::new(alloc));
    is_mended(draft, changed.as_slice(), place)
}

/// Adds the second place of a fault as a related place, or the number that belongs to it as a help.
fn add_second(draft: &mut Draft, read: Read<'_, '_>, second: Also) {
    let (sentence, number) = match second {
        Also::Nothing => return,
        Also::First(span) => return draft.note(read.stretch(span), "the first one", &[]),
        Also::Declared(span) => return draft.note(read.stretch(span), "it is declared here", &[]),
        Also::Number(number) => (
            "its number is {}; globals are numbered from 0 to 511",
            u64::from(number),
        ),
        Also::Cells(cells) => (
            "it has {} cells: vectors, variables, parameters and intermediate values",
            cells,
        ),
        Also::Places(places) => (
            "it has {}; split it into several files that share routines by GLOBAL",
            places,
        ),
    };
    draft.help(sentence, &[Fill::Number(number)]);
}

/// The help on where names are in scope.
const KNOWN: &str =
    "a name is in scope in the block, routine or FOR that declares it, from its declaration on";

/// The same for a routine that is declared after its use.
const KNOWN_ROUTINE: &str =
    "a name is in scope from its declaration on; declare routines that call each other together, as LET F() .. AND G() ..";

/// The help on where a MANIFEST name has a value.
const BEHIND_ITS_ENTRY: &str =
    "a MANIFEST name is a constant only after its own entry; put that entry before its use";

/// At most this many similar names are tried for one that isn't in scope.
const MOST_LIKE: usize = 4;

/// Adds the place of a declaration, with a sentence on the name.
fn add_found(draft: &mut Draft, read: Read<'_, '_>, name: &[u8], found: Declared) {
    draft.note(
        read.place(found.index),
        "{} {}",
        &[Fill::Shown(name), Fill::Text(found.sentence)],
    );
}

/// Adds the place where a name is declared, and a help. Returns whether it is declared anywhere.
fn add_declared(draft: &mut Draft, read: Read<'_, '_>, place: usize, name: &[u8]) -> bool {
    let declaration = declaration_of(draft.alloc(), read.tokens, place, name);
    let Some(found) = draft.found(declaration, None) else {
        return false;
    };
    add_found(draft, read, name, found);
    let is_routine = is_heading(read.tokens, found.index.saturating_sub(1));
    let help = if is_routine && found.index > place {
        KNOWN_ROUTINE
    } else {
        KNOWN
    };
    draft.help(help, &[]);
    true
}

/// The names among the tokens that resemble one which isn't in scope.
#[derive(Clone, Copy)]
struct Like<'s> {
    /// The most similar name.
    first: Option<&'s [u8]>,
    /// The most similar name that is in scope there.
    known: Option<&'s [u8]>,
}

/// The most similar name that isn't in `passed`, to which it is then added.
fn next_like<'s>(
    draft: &mut Draft,
    read: Read<'_, 's>,
    name: &[u8],
    passed: &mut Vec<&'s [u8]>,
) -> Option<&'s [u8]> {
    let near = nearest(draft.alloc(), read.tokens, name, passed.as_slice());
    let near = draft.found(near, None)?;
    if passed.push(near).is_err() {
        draft.refuse();
    }
    Some(near)
}

/// The most similar name that is in scope at an index. Each name that is tried is added to `passed`.
fn known_like<'s>(
    draft: &mut Draft,
    read: Read<'_, 's>,
    place: usize,
    name: &[u8],
    passed: &mut Vec<&'s [u8]>,
) -> Option<&'s [u8]> {
    for _ in 0..MOST_LIKE {
        let near = next_like(draft, read, name, passed)?;
        if is_known(draft, read.tokens, place, near) {
            return Some(near);
        }
    }
    None
}

/// Finds the names that resemble one which isn't in scope.
fn like_names<'s>(draft: &mut Draft, read: Read<'_, 's>, place: usize, name: &[u8]) -> Like<'s> {
    let mut passed: Vec<&'s [u8]> = Vec::new(draft.alloc());
    let known = known_like(draft, read, place, name, &mut passed);
    Like {
        first: passed.first().copied(),
        known,
    }
}

/// Suggests a similar name that is in scope. If there is none, shows where the most similar one is declared.
fn add_like(draft: &mut Draft, read: Read<'_, '_>, place: usize, name: &[u8]) {
    let like = like_names(draft, read, place, name);
    if let Some(near) = like.known {
        return draft.help(
            "did you mean {}? Names are case-sensitive",
            &[Fill::Shown(near)],
        );
    }
    if let Some(near) = like.first {
        if add_declared(draft, read, place, near) {
            return;
        }
    }
    draft.help(
        "declare it before you use it; names are case-sensitive",
        &[],
    );
}

/// Adds what is known about a name that isn't in scope.
fn add_undeclared(draft: &mut Draft, read: Read<'_, '_>, place: usize, name: &[u8]) {
    if is_of_library(name) && !gets_library(draft, read) {
        return draft.help(
            "the library declares it; write GET \"LIBHDR\" at the top of the file",
            &[],
        );
    }
    if add_declared(draft, read, place, name) {
        return;
    }
    if is_of_further_library(name) {
        return draft.help(
            "the further library declares it; write GET \"EXTHDR\", and build with --library ext",
            &[],
        );
    }
    add_like(draft, read, place, name);
}

/// Whether the token with this index follows this symbol.
fn is_after(tokens: &[Token<'_>], index: usize, symbol: Symbol) -> bool {
    match back(tokens, index, 1) {
        Some(token) => is_symbol(token, symbol),
        None => false,
    }
}

/// The help for a vector's size that isn't a constant and begins at this token.
fn help_for_size(tokens: &[Token<'_>], index: usize) -> &'static str {
    match tokens.get(index) {
        Some(token) if token.line_before => VECTOR_WITHOUT_SIZE,
        _ =>
            "the size of a vector must be a constant; use the largest that you need, perhaps as a MANIFEST",
    }
}

/// Adds why a name, used at the token with this index, isn't a constant.
fn add_name(draft: &mut Draft, read: Read<'_, '_>, used: usize, declared: Declared) {
    if declared.index > used {
        draft.help(BEHIND_ITS_ENTRY, &[]);
    }
    add_found(draft, read, read.text(used), declared);
}

/// Adds why an expression isn't a constant, if that is visible, and what to do.
fn add_reason(draft: &mut Draft, read: Read<'_, '_>, at: TokenSpan) {
    if is_after(read.tokens, at.first, Symbol::Vector) {
        draft.help(help_for_size(read.tokens, at.first), &[]);
    } else if is_after(read.tokens, at.first, Symbol::Case) {
        draft.help(
            "a CASE has one constant value; write any other condition as TEST E THEN .. ELSE ..",
            &[],
        );
    }
    match reason_of(draft, read.tokens, at.first, at.last) {
        Some(Reason::Name(used, declared)) => add_name(draft, read, used, declared),
        Some(Reason::Division) => draft.help("a division or a remainder by 0 has no value", &[]),
        None => {}
    }
}

/// The name of the last routine whose heading begins before an index.
fn last_routine<'s>(tokens: &[Token<'s>], place: usize) -> Option<&'s [u8]> {
    let mut name = None;
    for index in 0..place {
        if is_heading(tokens, index) {
            name = name_of(tokens.get(index.saturating_add(1)));
        }
    }
    name
}

/// Whether an expression is the name of the last routine whose heading begins before it.
fn is_result(tokens: &[Token<'_>], at: TokenSpan) -> bool {
    let name = name_of(tokens.get(at.first));
    match (last_routine(tokens, at.first), name) {
        (Some(routine), Some(name)) => at.first == at.last && routine == name,
        _ => false,
    }
}

/// Whether an expression is a name followed by parentheses.
fn is_call(tokens: &[Token<'_>], at: TokenSpan) -> bool {
    name_of(tokens.get(at.first)).is_some()
        && is_at(tokens, at.first.saturating_add(1), Symbol::OpenBracket)
        && is_at(tokens, at.last, Symbol::CloseBracket)
}

/// Whether a sum or a difference begins with a cell of a vector, as in `V!I + 1`.
fn is_sum_of_cell(tokens: &[Token<'_>], at: TokenSpan) -> bool {
    let sign = at.first.saturating_add(3);
    name_of(tokens.get(at.first)).is_some()
        && is_at(tokens, at.first.saturating_add(1), Symbol::Indirection)
        && (is_at(tokens, sign, Symbol::Plus) || is_at(tokens, sign, Symbol::Minus))
}

/// What may have been meant by an expression without a cell.
fn help_for_cell(tokens: &[Token<'_>], at: TokenSpan) -> Option<&'static str> {
    let following = at.last.saturating_add(1);
    let is_assigned = is_at(tokens, following, Symbol::Assign);
    if is_assigned && is_after_star(tokens, following) {
        Some(POINTER)
    } else if is_assigned && is_sum_of_cell(tokens, at) {
        Some("! binds tighter than + and -: write the next cell as V!(I + 1)")
    } else if is_call(tokens, at) {
        Some("write an element of a vector as V!0, as in V!0 := 1; parentheses call a routine")
    } else if is_assigned && is_result(tokens, at) {
        Some("a function returns its value by RESULTIS in VALOF $( .. $), or as LET F(X) = E")
    } else {
        None
    }
}

/// Where the only token of an expression is declared by MANIFEST, if it is a name of such a list.
fn manifest_entry(draft: &mut Draft, read: Read<'_, '_>, at: TokenSpan) -> Option<usize> {
    if at.first != at.last {
        return None;
    }
    let name = name_of(read.tokens.get(at.first))?;
    let meaning = meaning_of(draft.alloc(), read.tokens, at.first, name);
    let declared = draft.found(meaning, None)?;
    let word = list_word(draft, read.tokens, declared.index);
    matches!(word, Some(Symbol::Manifest)).then_some(declared.index)
}

/// Adds where a name without a cell is declared by MANIFEST, or what else may have been meant, if that is visible.
fn add_cell(draft: &mut Draft, read: Read<'_, '_>, at: TokenSpan) {
    if let Some(index) = manifest_entry(draft, read, at) {
        let name = Fill::Shown(read.text(index));
        draft.note(
            read.place(index),
            "{} is declared here by MANIFEST, so it is a constant",
            &[name],
        );
        draft.help(
            "a name whose value changes is declared by LET in a routine, or by STATIC, as in STATIC $( {} = 0 $)",
            &[name],
        );
    } else if let Some(help) = help_for_cell(read.tokens, at) {
        draft.help(help, &[]);
    }
}

/// Adds related places and helps to the sentence on a fault.
fn add_more(draft: &mut Draft, read: Read<'_, '_>, fault: &ScopeFault, found: FaultPlace) {
    add_second(draft, read, found.also);
    let place = found.at.first;
    match fault {
        ScopeFault::Undeclared(name) => add_undeclared(draft, read, place, name.as_slice()),
        ScopeFault::NotConstant => add_reason(draft, read, found.at),
        ScopeFault::NotAssignable => add_cell(draft, read, found.at),
        _ => {}
    }
}

/// Describes a fault whose place isn't known.
fn tell_anywhere(draft: &mut Draft, read: Read<'_, '_>, fault: &ScopeFault) {
    let end = read.tokens.len();
    if let Some(said) = said_of_name(fault).or(said_of(fault, read.tokens, end)) {
        said.say(draft);
    }
}

/// Describes a fault at a place.
fn tell_at(draft: &mut Draft, read: Read<'_, '_>, fault: &ScopeFault, found: FaultPlace) {
    let index = found.at.first;
    if let Some(said) = said_of_name(fault).or(said_of(fault, read.tokens, index)) {
        draft.place(read.stretch(found.at));
        said.say(draft);
        add_more(draft, read, fault, found);
    }
}

/// Describes a fault of the scopes of a main.
pub fn tell_scope(draft: &mut Draft, sources: &[Source<'_>], main: usize, fault: &ScopeFault) {
    if main >= sources.len() {
        return;
    }
    let Ok(tokens) = lex(draft.alloc(), sources, main) else {
        return;
    };
    let read = Read {
        sources,
        main,
        tokens: tokens.as_slice(),
    };
    let found = first_fault(draft.alloc(), read.tokens);
    match draft.found(found, None) {
        Some(found) => tell_at(draft, read, fault, found),
        None => tell_anywhere(draft, read, fault),
    }
}
