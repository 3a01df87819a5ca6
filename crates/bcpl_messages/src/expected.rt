//! What could appear instead of a refused token. The answer comes from trying candidates with the parser itself.

use crate::draft::Draft;
use crate::trial_parse::{Change, is_whole, reached};
use bc_lex_tokens::{Symbol, Token, TokenKind};

/// The symbols that are listed where they could appear, each as a sentence quotes it, the most informative ones first.
const TOLD: [(Symbol, &str); 16] = [
    (Symbol::Assign, "`:=`"),
    (Symbol::Do, "DO"),
    (Symbol::Else, "ELSE"),
    (Symbol::Be, "BE"),
    (Symbol::To, "TO"),
    (Symbol::By, "BY"),
    (Symbol::Into, "INTO"),
    (Symbol::Equal, "`=`"),
    (Symbol::CloseBracket, "`)`"),
    (Symbol::Comma, "`,`"),
    (Symbol::Colon, "`:`"),
    (Symbol::OpenBracket, "`(`"),
    (Symbol::Arrow, "`->`"),
    (Symbol::And, "AND"),
    (Symbol::Let, "LET"),
    (Symbol::Semicolon, "`;`"),
];

/// At most this many things are listed.
const MOST: usize = 4;

/// Whether a token of this kind could appear before the token at an index.
fn could_stand(
    draft: &mut Draft,
    tokens: &[Token<'_>],
    index: usize,
    kind: TokenKind<'static>,
) -> bool {
    reached(draft, tokens, index, Change::Insert(kind)).is_read()
}

/// Whether a symbol could appear before the token at an index.
pub fn could_be(draft: &mut Draft, tokens: &[Token<'_>], index: usize, symbol: Symbol) -> bool {
    could_stand(draft, tokens, index, TokenKind::Symbol(symbol))
}

/// Whether a name could appear before the token at an index, but no other expression and no command.
pub fn could_be_name(draft: &mut Draft, tokens: &[Token<'_>], index: usize) -> bool {
    could_stand(draft, tokens, index, TokenKind::Name(b"N"))
        && !could_stand(draft, tokens, index, TokenKind::Number(0))
        && !could_be(draft, tokens, index, Symbol::Return)
}

/// The kinds of constructs that could begin before a token.
#[derive(Clone, Copy)]
struct Beginnings {
    declaration: bool,
    command: bool,
    expression: bool,
    name: bool,
    /// An operator: the expression before it could continue.
    operator: bool,
}

/// The kinds of constructs that could begin before the token at an index.
fn what_begins(draft: &mut Draft, tokens: &[Token<'_>], index: usize) -> Beginnings {
    Beginnings {
        declaration: could_be(draft, tokens, index, Symbol::Let),
        command: could_be(draft, tokens, index, Symbol::Return),
        expression: could_stand(draft, tokens, index, TokenKind::Number(0)),
        name: could_stand(draft, tokens, index, TokenKind::Name(b"N")),
        operator: could_be(draft, tokens, index, Symbol::Multiply),
    }
}

/// Whether a symbol need not be listed, given the constructs that could begin there.
fn is_hidden(symbol: Symbol, begun: Beginnings) -> bool {
    match symbol {
        Symbol::Let => begun.declaration,
        Symbol::OpenBracket => begun.expression || begun.command || begun.operator,
        Symbol::Equal | Symbol::Arrow => begun.operator,
        Symbol::And => begun.declaration || begun.command || begun.operator,
        Symbol::Semicolon => begun.declaration || begun.command,
        _ => false,
    }
}

/// Appends a thing to the list if it belongs there.
fn add(draft: &mut Draft, things: &mut Vec<&'static str>, is_wanted: bool, thing: &'static str) {
    if is_wanted && things.push(thing).is_err() {
        draft.refuse();
    }
}

/// Appends the symbols that could appear before the token at an index.
fn add_symbols(
    draft: &mut Draft,
    things: &mut Vec<&'static str>,
    tokens: &[Token<'_>],
    index: usize,
    begun: Beginnings,
) {
    for (symbol, told) in &TOLD {
        let is_wanted = things.len() < MOST
            && !is_hidden(*symbol, begun)
            && could_be(draft, tokens, index, *symbol);
        add(draft, things, is_wanted, *told);
    }
}

/// Whether a pair of section brackets could appear before the token at an index, but no command.
fn could_be_section(
    draft: &mut Draft,
    tokens: &[Token<'_>],
    index: usize,
    begun: Beginnings,
) -> bool {
    !begun.command && reached(draft, tokens, index, Change::InsertSection).is_read()
}

/// Appends the constructs that could begin before the token.
fn add_constructs(draft: &mut Draft, things: &mut Vec<&'static str>, begun: Beginnings) {
    let is_expression = begun.expression && !begun.command;
    let is_name = begun.name && !begun.expression && !begun.command;
    add(draft, things, begun.declaration, "a declaration");
    add(draft, things, begun.command, "a command");
    add(draft, things, is_expression, "an expression");
    add(draft, things, is_name, "a name");
}

/// The things that could appear before the token at an index, in words.
fn things(draft: &mut Draft, tokens: &[Token<'_>], index: usize) -> Vec<&'static str> {
    let mut things: Vec<&'static str> = Vec::new(draft.alloc());
    let begun = what_begins(draft, tokens, index);
    add_constructs(draft, &mut things, begun);
    let is_section = could_be_section(draft, tokens, index, begun);
    add(draft, &mut things, is_section, "`$(`");
    add_symbols(draft, &mut things, tokens, index, begun);
    add(draft, &mut things, begun.operator, "an operator");
    let is_end = index > 0 && is_whole(draft, tokens, index);
    add(draft, &mut things, is_end, "the end of the file");
    things
}

/// Adds to the sentence what could appear before the token at an index, as "; expected an expression or `)`". Adds
/// nothing if nothing is known.
pub fn say_wanted(draft: &mut Draft, tokens: &[Token<'_>], index: usize) {
    let things = things(draft, tokens, index);
    let count = things.len();
    for (number, thing) in things.iter().enumerate() {
        let front = if number == 0 {
            "; expected "
        } else if number.saturating_add(1) == count {
            " or "
        } else {
            ", "
        };
        draft.say(front, &[]);
        draft.say(*thing, &[]);
    }
}
