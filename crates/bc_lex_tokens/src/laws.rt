//! A law of all symbols, for crates that write source text.
ghost use Rattle.std.specs.Prelude.{◌≡◌, Some};
ghost use Rattle.bc_lex_tokens.specs.declared.symbol.Symbol.{Symbol};
ghost use Rattle.bc_lex_tokens.specs.Spelling.{spelling_of, symbol_of};

/// The main spelling of every symbol is read as this symbol.
pub fn spelling_spells_the_symbol()
    ensures { (s : Symbol) → symbol_of (spelling_of s) ≡ Some s }
{}
