//! The kinds of tokens of old sources.

/// What a token of an old source is, as far as a conversion needs to know.
#[derive(Clone, Copy)]
pub enum Kind {
    /// A word that isn't classified yet.
    Word,
    /// A name.
    Name,
    /// A whole number.
    Number,
    /// A number with a fraction or an exponent, or an operator for such numbers.
    Floating,
    /// A character constant.
    Character,
    /// A string.
    Text,
    /// TRUE, FALSE or NIL.
    Constant,
    /// `?`, an undefined value.
    Query,
    /// `(`
    OpenRound,
    /// `)`
    CloseRound,
    /// `[`, not classified yet.
    OpenSquare,
    /// `]`, not classified yet.
    CloseSquare,
    /// `$(` with its tag, or `{`.
    OpenSection,
    /// `$)` with its tag, or `}`.
    CloseSection,
    /// `,`
    Comma,
    /// `;`
    Semicolon,
    /// `:`
    Colon,
    /// `:=`
    Assign,
    /// `_` alone, which means `:=` in some dialects.
    Underline,
    /// `->`
    Arrow,
    /// `=`
    Equal,
    /// Another relation.
    Relation,
    /// `+` or `-`
    Add,
    /// `*`
    Star,
    /// `/`, REM or MOD.
    Divide,
    /// `<<`, `>>`, LSHIFT or RSHIFT.
    Shift,
    /// NOT, `~` or `\`.
    Not,
    /// `&`, `/\` or LOGAND.
    Conjunction,
    /// `|`, `\/` or LOGOR.
    Disjunction,
    /// EQV, NEQV or XOR.
    Equivalence,
    /// `!`
    Bang,
    /// `%`
    Percent,
    /// `@` or LV.
    Address,
    /// RV
    Content,
    /// ABS
    Abs,
    /// LET
    Let,
    /// AND
    And,
    /// BE
    Be,
    /// VEC
    Vec,
    /// VALOF
    Valof,
    /// TABLE
    Table,
    /// STATIC
    Static,
    /// MANIFEST
    Manifest,
    /// GLOBAL
    Global,
    /// FOR
    For,
    /// CASE
    Case,
    /// DEFAULT
    Default,
    /// TO
    To,
    /// GOTO
    Goto,
    /// GET
    Get,
    /// SECTION or NEEDS.
    Header,
    /// Another word with which a command begins.
    Command,
    /// A whole command: BREAK, LOOP, ENDCASE, RETURN, FINISH.
    Jump,
    /// REPEAT
    Repeat,
    /// REPEATWHILE or REPEATUNTIL.
    RepeatTest,
    /// A word between the parts of a command: DO, THEN, ELSE, INTO, BY and others.
    Joint,
    /// OF, SLCT and other words and signs that have no counterpart.
    Foreign,
    /// `$$`, `$<`, `$>` or `$~` with a tag, a sign of conditional compilation.
    Condition,
    /// A comment, a string or a character constant that isn't closed.
    Unclosed,
    /// A byte with which no token begins.
    Unknown,
    /// The end of the source.
    End,
}

impl Kind {
    /// Whether a command can end with such a token. Then a line break after it can separate two commands.
    pub fn can_end(self) -> bool {
        matches!(
            self,
            Kind::Name
                | Kind::Number
                | Kind::Floating
                | Kind::Character
                | Kind::Text
                | Kind::Constant
                | Kind::Query
                | Kind::CloseRound
                | Kind::CloseSection
                | Kind::Jump
                | Kind::Repeat
        )
    }

    /// Whether a command can begin with such a token. Then a line break before it can separate two commands.
    pub fn can_begin(self) -> bool {
        matches!(
            self,
            Kind::Name
                | Kind::Number
                | Kind::Character
                | Kind::Text
                | Kind::OpenRound
                | Kind::OpenSection
                | Kind::Bang
                | Kind::Content
                | Kind::Let
                | Kind::Static
                | Kind::Manifest
                | Kind::Global
                | Kind::For
                | Kind::Case
                | Kind::Default
                | Kind::Goto
                | Kind::Header
                | Kind::Get
                | Kind::Command
                | Kind::Jump
        )
    }

    /// Whether an operand can begin with such a token.
    pub fn can_be_operand(self) -> bool {
        matches!(
            self,
            Kind::Name
                | Kind::Number
                | Kind::Floating
                | Kind::Character
                | Kind::Text
                | Kind::Constant
                | Kind::Query
                | Kind::OpenRound
                | Kind::Add
                | Kind::Not
                | Kind::Bang
                | Kind::Percent
                | Kind::Address
                | Kind::Content
                | Kind::Abs
                | Kind::Valof
                | Kind::Table
        )
    }

    /// How tightly a dyadic operator binds, from 1 (`->`) and 2 (EQV) to 9 (`*`); 0 for any other token.
    pub fn level(self) -> u8 {
        match self {
            Kind::Arrow => 1,
            Kind::Equivalence => 2,
            Kind::Disjunction => 3,
            Kind::Conjunction => 4,
            Kind::Shift => 6,
            Kind::Equal | Kind::Relation => 7,
            Kind::Add => 8,
            Kind::Star | Kind::Divide => 9,
            _ => 0,
        }
    }
}
