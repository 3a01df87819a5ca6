//! Symbols, and the table of their spellings.
ghost use Rattle.std.specs.Prelude.{◌≡◌};
ghost use Rattle.std.specs.Prelude.{◌↔◌, IsTrue};
ghost use Rattle.bc_lex_tokens.specs.Table.{rows};
ghost use Rattle.bc_lex_tokens.specs.Numbers.{number_of, same};
ghost use Rattle.bc_lex_tokens.specs.Spelling.{spelling_of, symbol_of, symbol_in};

/// A reserved word or a sign of the language, however it is spelled: `DO` and `THEN` are the same symbol.
#[derive(Clone, Copy, Debug, PartialEq, Eq, Hash)]
pub enum Symbol {
    /// `AND`
    And,
    /// `BE`
    Be,
    /// `BREAK`
    Break,
    /// `BY`
    By,
    /// `CASE`
    Case,
    /// `DEFAULT`
    Default,
    /// `DO` or `THEN`
    Do,
    /// `ELSE` or `OR`
    Else,
    /// `ENDCASE`
    EndCase,
    /// `EQV`
    Equivalent,
    /// `FALSE`
    False,
    /// `FINISH`
    Finish,
    /// `FOR`
    For,
    /// `GET`
    Get,
    /// `GLOBAL`
    Global,
    /// `GOTO`
    Goto,
    /// `IF`
    If,
    /// `INTO`
    Into,
    /// `LET`
    Let,
    /// `LOOP`
    Loop,
    /// `MANIFEST`
    Manifest,
    /// `NEQV`
    NotEquivalent,
    /// `NOT` or `~`
    Not,
    /// `REM`
    Remainder,
    /// `REPEAT`
    Repeat,
    /// `REPEATUNTIL`
    RepeatUntil,
    /// `REPEATWHILE`
    RepeatWhile,
    /// `RESULTIS`
    ResultIs,
    /// `RETURN`
    Return,
    /// `STATIC`
    Static,
    /// `SWITCHON`
    SwitchOn,
    /// `TABLE`
    Table,
    /// `TEST`
    Test,
    /// `TO`
    To,
    /// `TRUE`
    True,
    /// `UNLESS`
    Unless,
    /// `UNTIL`
    Until,
    /// `VALOF`
    ValueOf,
    /// `VEC`
    Vector,
    /// `WHILE`
    While,
    /// `:=`
    Assign,
    /// `~=` or `NE`
    NotEqual,
    /// `<=` or `LE`
    LessEqual,
    /// `>=` or `GE`
    GreaterEqual,
    /// `<<` or `LSHIFT`
    ShiftLeft,
    /// `>>` or `RSHIFT`
    ShiftRight,
    /// `->`
    Arrow,
    /// `$(`
    OpenSection,
    /// `$)`
    CloseSection,
    /// `(`
    OpenBracket,
    /// `)`
    CloseBracket,
    /// `,`
    Comma,
    /// `;`
    Semicolon,
    /// `:`
    Colon,
    /// `!`
    Indirection,
    /// `@`
    AddressOf,
    /// `+`
    Plus,
    /// `-`
    Minus,
    /// `*`
    Multiply,
    /// `/`
    Divide,
    /// `=` or `EQ`
    Equal,
    /// `<` or `LS`
    Less,
    /// `>` or `GR`
    Greater,
    /// `&` or `/\` or `LOGAND`
    LogicalAnd,
    /// `|` or `\/` or `LOGOR`
    LogicalOr,
}

/// One spelling of a symbol.
struct Spelling {
    text: &'static [u8],
    symbol: Symbol,
}

/// All spellings: first the main spelling of each symbol, in the order of the symbols, then the other ones.
static SPELLINGS: [Spelling; 80] = [
    Spelling {
        text: b"AND",
        symbol: Symbol::And,
    },
    Spelling {
        text: b"BE",
        symbol: Symbol::Be,
    },
    Spelling {
        text: b"BREAK",
        symbol: Symbol::Break,
    },
    Spelling {
        text: b"BY",
        symbol: Symbol::By,
    },
    Spelling {
        text: b"CASE",
        symbol: Symbol::Case,
    },
    Spelling {
        text: b"DEFAULT",
        symbol: Symbol::Default,
    },
    Spelling {
        text: b"DO",
        symbol: Symbol::Do,
    },
    Spelling {
        text: b"ELSE",
        symbol: Symbol::Else,
    },
    Spelling {
        text: b"ENDCASE",
        symbol: Symbol::EndCase,
    },
    Spelling {
        text: b"EQV",
        symbol: Symbol::Equivalent,
    },
    Spelling {
        text: b"FALSE",
        symbol: Symbol::False,
    },
    Spelling {
        text: b"FINISH",
        symbol: Symbol::Finish,
    },
    Spelling {
        text: b"FOR",
        symbol: Symbol::For,
    },
    Spelling {
        text: b"GET",
        symbol: Symbol::Get,
    },
    Spelling {
        text: b"GLOBAL",
        symbol: Symbol::Global,
    },
    Spelling {
        text: b"GOTO",
        symbol: Symbol::Goto,
    },
    Spelling {
        text: b"IF",
        symbol: Symbol::If,
    },
    Spelling {
        text: b"INTO",
        symbol: Symbol::Into,
    },
    Spelling {
        text: b"LET",
        symbol: Symbol::Let,
    },
    Spelling {
        text: b"LOOP",
        symbol: Symbol::Loop,
    },
    Spelling {
        text: b"MANIFEST",
        symbol: Symbol::Manifest,
    },
    Spelling {
        text: b"NEQV",
        symbol: Symbol::NotEquivalent,
    },
    Spelling {
        text: b"NOT",
        symbol: Symbol::Not,
    },
    Spelling {
        text: b"REM",
        symbol: Symbol::Remainder,
    },
    Spelling {
        text: b"REPEAT",
        symbol: Symbol::Repeat,
    },
    Spelling {
        text: b"REPEATUNTIL",
        symbol: Symbol::RepeatUntil,
    },
    Spelling {
        text: b"REPEATWHILE",
        symbol: Symbol::RepeatWhile,
    },
    Spelling {
        text: b"RESULTIS",
        symbol: Symbol::ResultIs,
    },
    Spelling {
        text: b"RETURN",
        symbol: Symbol::Return,
    },
    Spelling {
        text: b"STATIC",
        symbol: Symbol::Static,
    },
    Spelling {
        text: b"SWITCHON",
        symbol: Symbol::SwitchOn,
    },
    Spelling {
        text: b"TABLE",
        symbol: Symbol::Table,
    },
    Spelling {
        text: b"TEST",
        symbol: Symbol::Test,
    },
    Spelling {
        text: b"TO",
        symbol: Symbol::To,
    },
    Spelling {
        text: b"TRUE",
        symbol: Symbol::True,
    },
    Spelling {
        text: b"UNLESS",
        symbol: Symbol::Unless,
    },
    Spelling {
        text: b"UNTIL",
        symbol: Symbol::Until,
    },
    Spelling {
        text: b"VALOF",
        symbol: Symbol::ValueOf,
    },
    Spelling {
        text: b"VEC",
        symbol: Symbol::Vector,
    },
    Spelling {
        text: b"WHILE",
        symbol: Symbol::While,
    },
    Spelling {
        text: b":=",
        symbol: Symbol::Assign,
    },
    Spelling {
        text: b"~=",
        symbol: Symbol::NotEqual,
    },
    Spelling {
        text: b"<=",
        symbol: Symbol::LessEqual,
    },
    Spelling {
        text: b">=",
        symbol: Symbol::GreaterEqual,
    },
    Spelling {
        text: b"<<",
        symbol: Symbol::ShiftLeft,
    },
    Spelling {
        text: b">>",
        symbol: Symbol::ShiftRight,
    },
    Spelling {
        text: b"->",
        symbol: Symbol::Arrow,
    },
    Spelling {
        text: b"$(",
        symbol: Symbol::OpenSection,
    },
    Spelling {
        text: b"$)",
        symbol: Symbol::CloseSection,
    },
    Spelling {
        text: b"(",
        symbol: Symbol::OpenBracket,
    },
    Spelling {
        text: b")",
        symbol: Symbol::CloseBracket,
    },
    Spelling {
        text: b",",
        symbol: Symbol::Comma,
    },
    Spelling {
        text: b";",
        symbol: Symbol::Semicolon,
    },
    Spelling {
        text: b":",
        symbol: Symbol::Colon,
    },
    Spelling {
        text: b"!",
        symbol: Symbol::Indirection,
    },
    Spelling {
        text: b"@",
        symbol: Symbol::AddressOf,
    },
    Spelling {
        text: b"+",
        symbol: Symbol::Plus,
    },
    Spelling {
        text: b"-",
        symbol: Symbol::Minus,
    },
    Spelling {
        text: b"*",
        symbol: Symbol::Multiply,
    },
    Spelling {
        text: b"/",
        symbol: Symbol::Divide,
    },
    Spelling {
        text: b"=",
        symbol: Symbol::Equal,
    },
    Spelling {
        text: b"<",
        symbol: Symbol::Less,
    },
    Spelling {
        text: b">",
        symbol: Symbol::Greater,
    },
    Spelling {
        text: b"&",
        symbol: Symbol::LogicalAnd,
    },
    Spelling {
        text: b"|",
        symbol: Symbol::LogicalOr,
    },
    Spelling {
        text: b"THEN",
        symbol: Symbol::Do,
    },
    Spelling {
        text: b"OR",
        symbol: Symbol::Else,
    },
    Spelling {
        text: b"~",
        symbol: Symbol::Not,
    },
    Spelling {
        text: b"NE",
        symbol: Symbol::NotEqual,
    },
    Spelling {
        text: b"LE",
        symbol: Symbol::LessEqual,
    },
    Spelling {
        text: b"GE",
        symbol: Symbol::GreaterEqual,
    },
    Spelling {
        text: b"LSHIFT",
        symbol: Symbol::ShiftLeft,
    },
    Spelling {
        text: b"RSHIFT",
        symbol: Symbol::ShiftRight,
    },
    Spelling {
        text: b"EQ",
        symbol: Symbol::Equal,
    },
    Spelling {
        text: b"LS",
        symbol: Symbol::Less,
    },
    Spelling {
        text: b"GR",
        symbol: Symbol::Greater,
    },
    Spelling {
        text: b"/\\",
        symbol: Symbol::LogicalAnd,
    },
    Spelling {
        text: b"LOGAND",
        symbol: Symbol::LogicalAnd,
    },
    Spelling {
        text: b"\\/",
        symbol: Symbol::LogicalOr,
    },
    Spelling {
        text: b"LOGOR",
        symbol: Symbol::LogicalOr,
    },
];

impl Symbol {
    /// The index of the symbol in the order of `Symbol`, from 0 to 64.
    pub fn number(self) -> u8
        ensures { result ≡ number_of self }
    {
        self as u8
    }

    /// Whether two symbols are the same.
    pub fn is(self, other: Symbol) -> bool
        ensures computed { result ≡ same self other }
        ensures equal { IsTrue result ↔ (self ≡ other) }
    {
        self.number() == other.number()
    }

    /// The main spelling of the symbol, with which the compiler writes it.
    pub fn spelling(self) -> &'static [u8]
        ensures { result.now ≡ spelling_of self }
    {
        SPELLINGS[self as usize].text
    }

    /// The symbol with this spelling, or `None` if the text is not a spelling. Spellings are case-sensitive.
    #[tactic(auto, unfolding(crate::specs::Spelling::symbol_of))]
    pub fn spelled(text: &[u8]) -> Option<Symbol>
        ensures { result ≡ symbol_of text.now }
    {
        symbol_in(&SPELLINGS, text)
    }
}

/// The symbol of the first row of `table` with this text.
fn symbol_in(table: &[Spelling], text: &[u8]) -> Option<Symbol>
    ensures { result ≡ symbol_in (rows table.now) text.now }
{
    for spelling in table {
        if spelling.text == text {
            return Some(spelling.symbol);
        }
    }
    None
}
