//! Messages for faults of the parser: the refused token, what could appear there, and a guess of what was meant.
//! Guesses come from known mistakes, and from changes after which the parser gets further.

ghost use Rattle.std.specs.Prelude.{slice_get};
ghost use Rattle.bcpl_messages.specs.Spans.{IsSpanOf};

use crate::brackets::{closed_by, help_for_round, open_at, say_blank, says_tag, tag_at};
use crate::draft::{Draft, Fill};
use crate::expected::{could_be, could_be_name, say_wanted};
use crate::hidden::hidden_between;
use crate::indents::{Closing, stray_closing, surplus_closing};
use crate::likeness::reserved_word;
use crate::neighbours::{help_for_name, help_for_neighbours, help_for_token};
use crate::read::Read;
use crate::sides::{is_one_of, says_sides};
use crate::trial_parse::{Change, reached};
use crate::words::{back, is_at, is_symbol, symbol_at};
use bc_lex::{Source, lex};
use bc_lex_tokens::{Symbol, Token, TokenKind};
use bc_parse::ParseError;
use bcpl_places::Span;

/// A change that is tried, and the help if it makes the parser get further.
struct Remedy {
    /// The symbol in the source.
    found: Symbol,
    /// The symbol that may have been meant.
    meant: Symbol,
    /// The help.
    help: &'static str,
}

/// The replacements that are tried at the refused token and the ones before it.
const REMEDIES: [Remedy; 4] = [
    Remedy {
        found: Symbol::Equal,
        meant: Symbol::Assign,
        help: "= compares; to assign, write :=",
    },
    Remedy {
        found: Symbol::Assign,
        meant: Symbol::Equal,
        help: ":= assigns; to compare or to declare, write =",
    },
    Remedy {
        found: Symbol::Colon,
        meant: Symbol::Equal,
        help: "declare a variable with =, as in LET N = 0",
    },
    Remedy {
        found: Symbol::Comma,
        meant: Symbol::Semicolon,
        help: "separate commands by ; or a line break; LET A, B = 1, 2 declares two variables",
    },
];

/// An empty span after the last token of a main; the end of the main if the last token is in another file.
fn after_last(tokens: &[Token<'_>], sources: &[Source<'_>], main: usize) -> Span {
    let length = sources.get(main).map_or(0, |source| source.text.len());
    let end = match tokens.last() {
        Some(token) if token.file == main => token.end,
        _ => length,
    };
    Span {
        file: main,
        start: end,
        end,
    }
}

/// The span of a token; the end of the main if there is no token with this index.
pub fn span_of(tokens: &[Token<'_>], sources: &[Source<'_>], main: usize, index: usize) -> Span
    ensures { IsSpanOf (slice_get tokens.now index) result }
{
    match tokens.get(index) {
        Some(token) => Span {
            file: token.file,
            start: token.start,
            end: token.end,
        },
        None => after_last(tokens, sources, main),
    }
}

/// Whether applying a remedy at the token `at` makes the parser get past the token `refused`. False if the remedy isn't
/// for that token.
fn is_remedy(
    draft: &mut Draft,
    tokens: &[Token<'_>],
    refused: usize,
    at: usize,
    remedy: &Remedy,
) -> bool {
    if !is_at(tokens, at, remedy.found) {
        return false;
    }
    let kind = TokenKind::Symbol(remedy.meant);
    reached(draft, tokens, at, Change::Replace(kind)).is_after(refused)
}

/// At how many tokens, from the refused one backwards, a remedy is tried.
const LOOK_BACK: usize = 12;

/// The help of the first remedy that makes the parser get further, if there is one.
fn remedied(draft: &mut Draft, tokens: &[Token<'_>], index: usize) -> Option<&'static str> {
    for back in 0..LOOK_BACK {
        for remedy in &REMEDIES {
            if index >= back && is_remedy(draft, tokens, index, index - back, remedy) {
                return Some(remedy.help);
            }
        }
    }
    None
}

/// What must be at an index, and before it, for a guess to apply.
#[derive(Clone, Copy)]
enum Site {
    /// No condition.
    Any,
    /// This symbol is there.
    At(Symbol),
    /// A name comes before it.
    AfterName,
    /// It isn't the first token of its line.
    OnLine,
    /// It isn't the first token of its line, and a name comes before it.
    OnLineAfterName,
    /// It is a name that begins its line, and a name comes before it.
    BetweenNames,
    /// DEFAULT comes before it, or CASE and a constant of one token.
    AfterCase,
}

/// What is tried with the parser.
#[derive(Clone, Copy)]
enum Trial {
    /// This symbol could appear before the token.
    Stands(Symbol),
    /// A declaration could appear there, but no command.
    StandsOutside,
    /// With this symbol inserted before it, the parser gets past the token.
    After(Symbol),
    /// With a pair of parentheses inserted before it, the parser gets past the token.
    AfterBrackets,
    /// With a pair of parentheses inserted before it, the parser accepts the token.
    AtBrackets,
    /// With parentheses around the token, the parser gets past it.
    Enclosed,
}

/// A guess of what was meant: where it applies, how it is tried, and the help.
struct Guess {
    site: Site,
    trial: Trial,
    help: &'static str,
}

/// The guesses that are tried first, in this order.
const FIRST_GUESSES: [Guess; 4] = [
    Guess {
        site: Site::At(Symbol::Do),
        trial: Trial::Stands(Symbol::Return),
        help: "no command begins with DO; write a loop that tests after its command as $( .. $) REPEATWHILE E",
    },
    Guess {
        site: Site::OnLine,
        trial: Trial::After(Symbol::Semicolon),
        help: "separate commands and declarations by ; or a line break",
    },
    Guess {
        site: Site::OnLineAfterName,
        trial: Trial::Enclosed,
        help: "put the arguments of a call in parentheses, as in WRITEN(X)",
    },
    Guess {
        site: Site::Any,
        trial: Trial::Stands(Symbol::Into),
        help: "write SWITCHON E INTO $( CASE 1: .. DEFAULT: .. $)",
    },
];

/// The guesses that are tried next.
const NEXT_GUESSES: [Guess; 5] = [
    Guess {
        site: Site::Any,
        trial: Trial::Stands(Symbol::Else),
        help: "TEST needs two commands, as in TEST E THEN C ELSE D; for one command, write IF E DO C",
    },
    Guess {
        site: Site::At(Symbol::Comma),
        trial: Trial::Stands(Symbol::Colon),
        help: "give each value its own entry, as in CASE 1: CASE 2: .. or GLOBAL $( N:K; M:L $)",
    },
    Guess {
        site: Site::AfterName,
        trial: Trial::AfterBrackets,
        help: "write parentheses after the name of a routine, as in NEWLINE()",
    },
    Guess {
        site: Site::BetweenNames,
        trial: Trial::AtBrackets,
        help: "write parentheses after the name of a routine, as in NEWLINE()",
    },
    Guess {
        site: Site::Any,
        trial: Trial::StandsOutside,
        help: "only declarations are allowed outside routines; put commands in a routine, as in LET START() BE $( .. $)",
    },
];

/// The guesses that are tried last.
const LAST_GUESSES: [Guess; 5] = [
    Guess {
        site: Site::OnLine,
        trial: Trial::After(Symbol::Comma),
        help: "separate arguments, names and values by commas, as in F(A, B)",
    },
    Guess {
        site: Site::Any,
        trial: Trial::Stands(Symbol::To),
        help: "FOR counts from one value to another, as in FOR I = 1 TO 9 DO .. or FOR I = 9 TO 1 BY -1 DO ..",
    },
    Guess {
        site: Site::Any,
        trial: Trial::Stands(Symbol::Be),
        help: "declare a routine as LET F(X) BE .., or as LET F(X) = E if it returns a value",
    },
    Guess {
        site: Site::AfterCase,
        trial: Trial::After(Symbol::Colon),
        help: "write a colon after it, as in CASE 1: WRITES(\"A\")",
    },
    Guess {
        site: Site::At(Symbol::CloseSection),
        trial: Trial::Stands(Symbol::Do),
        help: "a command must follow, as in UNTIL E DO C; write a loop that tests after its command as $( .. $) REPEATUNTIL E",
    },
];

/// Whether a name comes before an index.
fn is_after_name(tokens: &[Token<'_>], index: usize) -> bool {
    match back(tokens, index, 1) {
        Some(token) => matches!(token.kind, TokenKind::Name(_)),
        None => false,
    }
}

/// Whether the token at an index is a name that begins its line, and a name comes before it.
fn is_between_names(tokens: &[Token<'_>], index: usize) -> bool {
    let begins_line = match tokens.get(index) {
        Some(token) => token.line_before && matches!(token.kind, TokenKind::Name(_)),
        None => false,
    };
    begins_line && is_after_name(tokens, index)
}

/// Whether DEFAULT comes before an index, or CASE and one token.
fn is_after_case(tokens: &[Token<'_>], index: usize) -> bool {
    let is_default = match back(tokens, index, 1) {
        Some(token) => is_symbol(token, Symbol::Default),
        None => false,
    };
    is_default
        || match back(tokens, index, 2) {
            Some(token) => is_symbol(token, Symbol::Case),
            None => false,
        }
}

/// Whether there is a token at an index which isn't the first of its line.
fn is_on_line(tokens: &[Token<'_>], index: usize) -> bool {
    match tokens.get(index) {
        Some(token) => index > 0 && !token.line_before,
        None => false,
    }
}

/// Whether a guess for this site applies at an index.
fn is_site(tokens: &[Token<'_>], index: usize, site: Site) -> bool {
    match site {
        Site::Any => true,
        Site::At(symbol) => is_at(tokens, index, symbol),
        Site::AfterName => is_after_name(tokens, index),
        Site::OnLine => is_on_line(tokens, index),
        Site::OnLineAfterName => is_on_line(tokens, index) && is_after_name(tokens, index),
        Site::BetweenNames => is_between_names(tokens, index),
        Site::AfterCase => is_after_case(tokens, index),
    }
}

/// Whether a declaration could appear at an index, but no command.
fn is_outside(draft: &mut Draft, tokens: &[Token<'_>], index: usize) -> bool {
    could_be(draft, tokens, index, Symbol::Let) && !could_be(draft, tokens, index, Symbol::Return)
}

/// Whether a change makes the parser get past the token at an index.
fn gets_further(draft: &mut Draft, tokens: &[Token<'_>], index: usize, change: Change) -> bool {
    reached(draft, tokens, index, change).is_after(index)
}

/// Whether the parser accepts the token at an index with a pair of parentheses before it.
fn is_read_with_brackets(draft: &mut Draft, tokens: &[Token<'_>], index: usize) -> bool {
    reached(draft, tokens, index, Change::InsertBrackets).is_past(index)
}

/// Whether a trial succeeds at an index.
fn is_taken(draft: &mut Draft, tokens: &[Token<'_>], index: usize, trial: Trial) -> bool {
    let change = match trial {
        Trial::Stands(symbol) => return could_be(draft, tokens, index, symbol),
        Trial::StandsOutside => return is_outside(draft, tokens, index),
        Trial::AtBrackets => return is_read_with_brackets(draft, tokens, index),
        Trial::After(symbol) => Change::Insert(TokenKind::Symbol(symbol)),
        Trial::AfterBrackets => Change::InsertBrackets,
        Trial::Enclosed => Change::Enclose,
    };
    gets_further(draft, tokens, index, change)
}

/// The help of the first of these guesses that applies and succeeds.
fn first_right(
    draft: &mut Draft,
    tokens: &[Token<'_>],
    index: usize,
    guesses: &[Guess],
) -> Option<&'static str> {
    for guess in guesses {
        if is_site(tokens, index, guess.site) && is_taken(draft, tokens, index, guess.trial) {
            return Some(guess.help);
        }
    }
    None
}

/// The help of the last guesses.
fn last_guess(draft: &mut Draft, tokens: &[Token<'_>], index: usize) -> Option<&'static str> {
    first_right(draft, tokens, index, &LAST_GUESSES)
}

/// The help of the guesses after the first ones.
fn next_guess(draft: &mut Draft, tokens: &[Token<'_>], index: usize) -> Option<&'static str> {
    match first_right(draft, tokens, index, &NEXT_GUESSES) {
        Some(help) => Some(help),
        None => last_guess(draft, tokens, index),
    }
}

/// The help for a refused token, from the guesses.
fn help_for_place(draft: &mut Draft, tokens: &[Token<'_>], index: usize) -> Option<&'static str> {
    match first_right(draft, tokens, index, &FIRST_GUESSES) {
        Some(help) => Some(help),
        None => next_guess(draft, tokens, index),
    }
}

/// The words that precede a list of names.
const LISTS: [Symbol; 3] = [Symbol::Manifest, Symbol::Static, Symbol::Global];

/// The word of the list of names that is open before an index: MANIFEST, STATIC or GLOBAL, if there is one.
pub fn list_word(draft: &mut Draft, tokens: &[Token<'_>], index: usize) -> Option<Symbol> {
    let bracket = *open_at(draft, tokens, index).last()?;
    let token = back(tokens, bracket, 1)?;
    for symbol in &LISTS {
        if is_symbol(token, *symbol) {
            return Some(*symbol);
        }
    }
    None
}

/// The help for a refused token in a list of names.
fn help_for_list(draft: &mut Draft, tokens: &[Token<'_>], index: usize) -> Option<&'static str> {
    let word = list_word(draft, tokens, index)?;
    if is_at(tokens, index, Symbol::Comma) {
        Some(if word.is(Symbol::Global) {
            "a ; or a line break separates the entries of a list, as in GLOBAL $( N:100; M:101 $)"
        } else if word.is(Symbol::Static) {
            "a ; or a line break separates the entries of a list, as in STATIC $( N = 0; M = 0 $)"
        } else {
            "a ; or a line break separates the entries of a list, as in MANIFEST $( N = 10; M = 20 $)"
        })
    } else if is_at(tokens, index, Symbol::Vector) {
        Some(
            "a name in this list needs a constant; declare the vector in a routine, as LET V = VEC 10, and keep its address in a static or a global",
        )
    } else if !is_after_name(tokens, index) {
        None
    } else if word.is(Symbol::Global) {
        Some("give each name a number, as in GLOBAL $( N:100 $)")
    } else if word.is(Symbol::Static) {
        Some("give each name a value, as in STATIC $( N = 0 $)")
    } else {
        Some("give each name a value, as in MANIFEST $( N = 10 $)")
    }
}

/// The name that a token is, if it is one.
pub fn name_of<'s>(token: Option<&Token<'s>>) -> Option<&'s [u8]> {
    match token?.kind {
        TokenKind::Name(name) => Some(name),
        _ => None,
    }
}

/// Sets the help for a name that is this reserved word in another case. `is_first` says that it is the first token, as
/// in an old source.
fn say_reserved<'a>(draft: &mut Draft, name: &'a [u8], word: &'a str, is_first: bool) {
    let old = if is_first {
        "; use bcpl convert for old sources"
    } else {
        ""
    };
    draft.help(
        "{} is a name; the reserved word is {}{}",
        &[Fill::Shown(name), Fill::Text(word), Fill::Text(old)],
    );
}

/// If a name is a reserved word in another case, or an operator or bracket of other languages, sets a help that says
/// so. Returns whether it is.
fn says_name(draft: &mut Draft, name: &[u8], is_first: bool) -> bool {
    let reserved = reserved_word(draft.alloc(), name);
    if let Some(word) = draft.found(reserved, None) {
        say_reserved(draft, name, word.as_str(), is_first);
        return true;
    }
    match help_for_name(name) {
        Some(help) => {
            draft.help(help, &[]);
            true
        }
        None => false,
    }
}

/// The same for a token, if it is a name.
fn says_word(draft: &mut Draft, token: Option<&Token<'_>>, is_first: bool) -> bool {
    match name_of(token) {
        Some(name) => says_name(draft, name, is_first),
        None => false,
    }
}

/// Whether there is a reserved word at an index which isn't the first token of its line.
fn is_word_on_line(tokens: &[Token<'_>], index: usize) -> bool {
    let begins_word = match tokens.get(index) {
        Some(token) => token
            .text
            .first()
            .is_some_and(|byte| byte.is_ascii_alphabetic()),
        None => false,
    };
    begins_word && symbol_at(tokens, index).is_some() && is_on_line(tokens, index)
}

/// If a reserved word appears where a name is needed, and a name there would make the parser get further, sets a help
/// that says so. Returns whether it does.
fn says_reserved(draft: &mut Draft, tokens: &[Token<'_>], index: usize) -> bool {
    let Some(token) = tokens.get(index) else {
        return false;
    };
    let name = Change::Replace(TokenKind::Name(b"N"));
    if !is_word_on_line(tokens, index)
        || !could_be_name(draft, tokens, index)
        || !gets_further(draft, tokens, index, name)
    {
        return false;
    }
    draft.help(
        "{} is a reserved word and can't be a name; choose another name",
        &[Fill::Shown(token.text)],
    );
    true
}

/// Whether the help for the token itself takes precedence over all guesses.
fn says_all(tokens: &[Token<'_>], index: usize) -> bool {
    is_at(tokens, index, Symbol::Else) || is_at(tokens, index, Symbol::And)
}

/// The help for a refused token, if it is a fixed text.
fn help_in_words(draft: &mut Draft, tokens: &[Token<'_>], index: usize) -> Option<&'static str> {
    if !says_all(tokens, index) {
        let guessed = guessed(draft, tokens, index);
        if guessed.is_some() {
            return guessed;
        }
    }
    help_for_token(tokens.get(index))
}

/// The help found by trying changes, or from the list or the parentheses around the token.
fn guessed(draft: &mut Draft, tokens: &[Token<'_>], index: usize) -> Option<&'static str> {
    let help = help_for_list(draft, tokens, index);
    if help.is_some() && is_at(tokens, index, Symbol::Comma) {
        return help;
    }
    let of_remedy = remedied(draft, tokens, index);
    if of_remedy.is_some() {
        return of_remedy;
    }
    if help.is_some() {
        return help;
    }
    let help = help_for_round(draft, tokens, index);
    if help.is_some() {
        return help;
    }
    help_for_place(draft, tokens, index)
}

/// Sets the help where no known mistake surrounds the refused token.
fn help_by_trying(draft: &mut Draft, tokens: &[Token<'_>], index: usize) {
    if says_reserved(draft, tokens, index)
        || says_tag(draft, tokens, index)
        || says_sides(draft, tokens, index)
    {
        return;
    }
    if let Some(help) = help_in_words(draft, tokens, index) {
        draft.help(help, &[]);
    }
}

/// Sets the help for a refused token.
fn help_for(draft: &mut Draft, tokens: &[Token<'_>], index: usize) {
    let is_first = index == 0;
    if says_word(draft, tokens.get(index), is_first)
        || says_word(draft, back(tokens, index, 1), is_first)
    {
        return;
    }
    match help_for_neighbours(tokens, index) {
        Some(help) => draft.help(help, &[]),
        None => help_by_trying(draft, tokens, index),
    }
}

/// The symbols that begin a command whose condition ends at DO or THEN.
const HEADS: [Symbol; 5] = [
    Symbol::If,
    Symbol::Unless,
    Symbol::While,
    Symbol::Until,
    Symbol::Test,
];

/// Whether a condition comes before an index, on the line of the token before it.
fn is_after_condition(tokens: &[Token<'_>], index: usize) -> bool {
    for count in 1..LOOK_BACK {
        let Some(token) = back(tokens, index, count) else {
            return false;
        };
        if is_one_of(token, &HEADS) {
            return true;
        }
        if token.line_before || is_symbol(token, Symbol::Do) {
            return false;
        }
    }
    false
}

/// Whether a comment that begins with `||` follows a token that ends its line.
fn is_before_bars(read: Read<'_, '_>, token: &Token<'_>) -> bool {
    let text = read.source(token.file);
    for byte in text.get(token.end..).unwrap_or(b"") {
        if *byte != b' ' {
            return *byte == b'|';
        }
    }
    false
}

/// Whether the refused token begins a line, and the line before it has a condition followed by a `||` comment.
fn is_after_bars(read: Read<'_, '_>, index: usize) -> bool {
    let is_commented = match back(read.tokens, index, 1) {
        Some(token) => is_before_bars(read, token),
        None => false,
    };
    is_commented && is_after_condition(read.tokens, index)
}

/// Describes a token that can't appear where it is.
fn tell_expected(draft: &mut Draft, read: Read<'_, '_>, index: usize) {
    draft.place(read.place(index));
    match read.tokens.get(index) {
        Some(token) => draft.say("{} can't appear here", &[Fill::Shown(token.text)]),
        None => draft.say("the file ends too early", &[]),
    }
    say_wanted(draft, read.tokens, index);
    if is_after_bars(read, index) {
        draft.help(
            "|| begins a comment, which ends with its line; write | for or",
            &[],
        );
    } else {
        help_for(draft, read.tokens, index);
    }
}

/// Adds a sentence on an unclosed section bracket, shown with its tag. `count` brackets are open in all.
fn say_unclosed(draft: &mut Draft, bracket: Option<&Token<'_>>, count: usize) {
    let text: &[u8] = match bracket {
        Some(token) => token.text,
        None => b"$(",
    };
    let others = count.saturating_sub(1);
    let sentence = match others {
        0 => "this {} is not closed",
        1 => "this {} is not closed, nor is another one around it",
        _ => "this {} is not closed, nor are {} others around it",
    };
    draft.say(sentence, &[Fill::Shown(text), Fill::Number(others as u64)]);
}

/// Whether a token is in the first column of its line.
fn is_at_margin(read: Read<'_, '_>, token: &Token<'_>) -> bool {
    match read.sources.get(token.file) {
        Some(source) => match token.start.checked_sub(1) {
            Some(before) => source.text.get(before).is_some_and(|byte| *byte == b'\n'),
            None => true,
        },
        None => false,
    }
}

/// Whether a routine's heading begins at an index: LET or AND, a name and a parenthesis.
pub fn is_heading(tokens: &[Token<'_>], index: usize) -> bool {
    let bracket = index.saturating_add(2);
    (is_at(tokens, index, Symbol::Let) || is_at(tokens, index, Symbol::And))
        && is_after_name(tokens, bracket)
        && is_at(tokens, bracket, Symbol::OpenBracket)
}

/// The first routine after an index whose heading begins in the first column.
fn routine_at_margin(read: Read<'_, '_>, place: usize) -> Option<usize> {
    for (index, token) in read.tokens.iter().enumerate() {
        if index > place && is_heading(read.tokens, index) && is_at_margin(read, token) {
            return Some(index);
        }
    }
    None
}

/// If a routine probably wasn't meant to be inside the section that this bracket opens, points it out.
fn note_routine(draft: &mut Draft, read: Read<'_, '_>, outermost: usize) {
    if let Some(index) = routine_at_margin(read, outermost) {
        draft.note(
            read.place(index),
            "a routine begins here, inside it: perhaps a $) is missing before this line",
            &[],
        );
    }
}

/// Describes a section that is probably not closed, as the indentation of a later `$)` shows.
fn tell_stray(draft: &mut Draft, read: Read<'_, '_>, closing: Closing) {
    draft.place(read.place(closing.open));
    draft.say(
        "this {} is probably the one that is not closed",
        &[Fill::Shown(read.text(closing.open))],
    );
    draft.note(
        read.place(closing.index),
        "this $) closes it, but is indented like the $( around it",
        &[],
    );
    draft.help(
        "add a $) before that one; a $) without a tag closes the innermost $(",
        &[],
    );
}

/// Describes sections that are open at the end.
fn tell_unclosed(draft: &mut Draft, read: Read<'_, '_>) {
    let stray = stray_closing(draft.alloc(), read);
    match draft.found(stray, None) {
        Some(closing) => tell_stray(draft, read, closing),
        None => tell_open(draft, read),
    }
}

/// Describes sections that are open at the end, whatever their indentation.
fn tell_open(draft: &mut Draft, read: Read<'_, '_>) {
    let end = read.tokens.len();
    let open = open_at(draft, read.tokens, end);
    let innermost = open.last().copied().unwrap_or(end);
    let count = open.len();
    draft.place(read.place(innermost));
    say_unclosed(draft, read.tokens.get(innermost), count);
    let outermost = open.first().copied().unwrap_or(end);
    if count > 1 {
        draft.note(read.place(outermost), "the outermost open bracket", &[]);
    }
    note_routine(draft, read, outermost);
    if let Some(span) = hidden_between(read, innermost, end, "$)") {
        draft.note(span, "this $) is in a comment", &[]);
    }
    draft.help(
        "a $) without a tag closes the innermost $( ; a $) with a tag closes all up to the $( with that tag",
        &[],
    );
}

/// Whether the tag of the `$)` at an index was probably meant as a word: it is a reserved word, or `(` or `:=` follows
/// it.
fn is_word_after(tokens: &[Token<'_>], index: usize, name: &[u8]) -> bool {
    let next = index.saturating_add(1);
    Symbol::spelled(name).is_some()
        || is_at(tokens, next, Symbol::OpenBracket)
        || is_at(tokens, next, Symbol::Assign)
}

/// Describes a `$)` whose tag no open section has. `innermost` is the innermost open one.
fn tell_tag(draft: &mut Draft, read: Read<'_, '_>, index: usize, innermost: usize) {
    let name = tag_at(read.tokens, index);
    draft.say("no open $( has the tag {}", &[Fill::Shown(name)]);
    draft.note(read.place(innermost), "the innermost open bracket", &[]);
    if is_word_after(read.tokens, index, name) {
        say_blank(draft, read.tokens, index);
    }
}

/// Describes a `$)` that closes nothing.
fn tell_not_open(draft: &mut Draft, read: Read<'_, '_>, index: usize) {
    draft.place(read.place(index));
    match open_at(draft, read.tokens, index).last() {
        Some(innermost) => tell_tag(draft, read, index, *innermost),
        None => {
            draft.say("this $) closes nothing: no $( is open here", &[]);
            if let Some(span) = hidden_between(read, 0, index, "$(") {
                draft.note(span, "this $( is in a comment", &[]);
            }
            if !notes_tag(draft, read, index) {
                note_surplus(draft, read, index);
            }
        }
    }
}

/// The last `$(` before an index that has this tag.
fn opened_with(tokens: &[Token<'_>], index: usize, name: &[u8]) -> Option<usize> {
    let mut found = None;
    for place in 0..index.min(tokens.len()) {
        if is_at(tokens, place, Symbol::OpenSection) && tag_at(tokens, place) == name {
            found = Some(place);
        }
    }
    found
}

/// If the `$)` at an index has a tag, and the `$(` with this tag is already closed, points out by what. Returns whether
/// that is so.
fn notes_tag(draft: &mut Draft, read: Read<'_, '_>, index: usize) -> bool {
    let name = tag_at(read.tokens, index);
    let Some(opened) = opened_with(read.tokens, index, name) else {
        return false;
    };
    if name.is_empty() {
        return false;
    }
    let closer = closed_by(draft.alloc(), read.tokens, opened, index);
    let Some(closer) = draft.found(closer, None) else {
        return false;
    };
    draft.note(
        read.place(closer),
        "this {} already closed the $( with the tag {}",
        &[Fill::Shown(read.text(closer)), Fill::Shown(name)],
    );
    draft.help(
        "a $) with a tag closes all brackets up to the $( with that tag; close the inner bracket first",
        &[],
    );
    true
}

/// If the indentation of an earlier `$)` shows that it is too many, so that the one at an index closes nothing, points
/// it out.
fn note_surplus(draft: &mut Draft, read: Read<'_, '_>, index: usize) {
    let surplus = surplus_closing(draft.alloc(), read, index);
    if let Some(closing) = draft.found(surplus, None) {
        draft.note(
            read.place(closing.index),
            "perhaps this $) is one too many: it closes a $( of another indentation",
            &[],
        );
        draft.help(
            "remove a $) that closes nothing, or open its block with $(",
            &[],
        );
    }
}

/// Describes a token at which the nesting is too deep.
fn tell_too_deep(draft: &mut Draft, read: Read<'_, '_>, index: usize) {
    draft.place(read.place(index));
    draft.say(
        "the nesting is too deep here: more than 200 definitions, commands and expressions inside one another, or 400 open parentheses",
        &[],
    );
    draft.help("move a part of it to a separate routine or variable", &[]);
}

/// Describes a fault of the parser in a main that was read.
pub fn tell_refused(draft: &mut Draft, read: Read<'_, '_>, fault: ParseError) {
    match fault {
        ParseError::Expected(index) => tell_expected(draft, read, index),
        ParseError::Unclosed => tell_unclosed(draft, read),
        ParseError::NotOpen(index) => tell_not_open(draft, read, index),
        ParseError::TooDeep(index) => tell_too_deep(draft, read, index),
        ParseError::Memory => {}
    }
}

/// Describes a fault of the parser.
pub fn tell_syntax(draft: &mut Draft, sources: &[Source<'_>], main: usize, fault: ParseError) {
    if main >= sources.len() {
        return;
    }
    let Ok(tokens) = lex(draft.alloc(), sources, main) else {
        return;
    };
    let read = Read {
        sources,
        main,
        tokens: tokens.as_slice(),
    };
    tell_refused(draft, read, fault);
}
