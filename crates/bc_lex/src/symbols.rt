//! The symbol that a text spells. Single-byte signs, and texts whose first two bytes begin no symbol, are decided without searching
//! the table of spellings.

ghost use Rattle.std.specs.Prelude.{◌≡◌, ◌∷◌, []};
ghost use Rattle.bc_lex_tokens.specs.Spelling.{symbol_of};
ghost use Rattle.bc_lex.specs.Spelled.{symbol_by_byte, begins_spelling, may_spell};

use bc_lex_tokens::Symbol;

/// The symbol whose spelling is this single byte.
fn one(byte: u8) -> Option<Symbol>
    ensures { result ≡ symbol_by_byte byte }
{
    match byte {
        b'(' => Some(Symbol::OpenBracket),
        b')' => Some(Symbol::CloseBracket),
        b',' => Some(Symbol::Comma),
        b';' => Some(Symbol::Semicolon),
        b':' => Some(Symbol::Colon),
        b'!' => Some(Symbol::Indirection),
        b'@' => Some(Symbol::AddressOf),
        b'+' => Some(Symbol::Plus),
        b'-' => Some(Symbol::Minus),
        b'*' => Some(Symbol::Multiply),
        b'/' => Some(Symbol::Divide),
        b'=' => Some(Symbol::Equal),
        b'<' => Some(Symbol::Less),
        b'>' => Some(Symbol::Greater),
        b'&' => Some(Symbol::LogicalAnd),
        b'|' => Some(Symbol::LogicalOr),
        b'~' => Some(Symbol::Not),
        _ => None,
    }
}

/// Whether some spelling begins with these two bytes.
fn begins(first: u8, second: u8) -> bool
    ensures { result ≡ begins_spelling first second }
{
    match first {
        b'A' | b'U' => second == b'N',
        b'B' => matches!(second, b'E' | b'R' | b'Y'),
        b'C' | b'M' => second == b'A',
        b'D' | b'N' => matches!(second, b'E' | b'O'),
        b'E' => matches!(second, b'L' | b'N' | b'Q'),
        b'F' => matches!(second, b'A' | b'I' | b'O'),
        b'G' => matches!(second, b'E' | b'L' | b'O' | b'R'),
        b'I' => matches!(second, b'F' | b'N'),
        b'L' => matches!(second, b'E' | b'O' | b'S'),
        b'O' => second == b'R',
        b'R' => matches!(second, b'E' | b'S'),
        b'S' => matches!(second, b'T' | b'W'),
        b'T' => matches!(second, b'A' | b'E' | b'H' | b'O' | b'R'),
        b'V' => matches!(second, b'A' | b'E'),
        b'W' => second == b'H',
        b':' | b'~' => second == b'=',
        b'<' => matches!(second, b'<' | b'='),
        b'>' => matches!(second, b'=' | b'>'),
        b'-' => second == b'>',
        b'$' => matches!(second, b'(' | b')'),
        b'/' => second == b'\\',
        b'\\' => second == b'/',
        _ => false,
    }
}

/// Whether the first two bytes of a text allow that it is a spelling.
fn fits(text: &[u8]) -> bool
    ensures { result ≡ may_spell text.now }
{
    match text {
        [first, second, ..] => begins(*first, *second),
        _ => true,
    }
}

/// The symbol that a text spells, or `None`. Returns the same as `Symbol::spelled`, without a search where that is possible.
pub fn spelled(text: &[u8]) -> Option<Symbol>
    ensures { result ≡ symbol_of text.now }
{
    if text.len() == 1 {
        return one(text[0]);
    }
    if fits(text) {
        Symbol::spelled(text)
    } else {
        None
    }
}
