//! Which symbols begin which construct, and the levels of operators. The parser decides by these tables.
ghost use Rattle.std.specs.Prelude.{◌≡◌};
ghost use Rattle.bc_parse_defs.specs.Reading.{start_of, command_word_of, simple_word_of, repeat_word_of, declaration_word_of, binary_of};
ghost use Rattle.bc_parse_tree.specs.Operators.{level_of, left_level, own_level, operand_level};

use bc_lex_tokens::Symbol;
use bc_parse_tree::{BinaryOp, Storage, UnaryOp};

/// What begins an operand of more than one part.
#[derive(Clone, Copy)]
pub enum Start {
    /// `(`
    Bracket,
    /// TABLE
    Table,
    /// VALOF
    Valof,
    /// A unary operator.
    Unary(UnaryOp),
}

/// A command with a test and one body.
#[derive(Clone, Copy)]
pub enum Tested {
    /// IF
    If,
    /// UNLESS
    Unless,
    /// WHILE
    While,
    /// UNTIL
    Until,
}

/// What begins a command that REPEAT can't follow.
#[derive(Clone, Copy)]
pub enum CommandWord {
    /// IF, UNLESS, WHILE or UNTIL.
    Tested(Tested),
    /// TEST
    Test,
    /// FOR
    For,
    /// SWITCHON
    SwitchOn,
}

/// What begins a command that REPEAT can follow, other than an assignment or a call.
#[derive(Clone, Copy)]
pub enum SimpleWord {
    /// `$(`
    Block,
    /// BREAK
    Break,
    /// LOOP
    Loop,
    /// ENDCASE
    EndCase,
    /// RETURN
    Return,
    /// FINISH
    Finish,
    /// RESULTIS
    ResultIs,
    /// GOTO
    Goto,
}

/// What repeats the command before it.
#[derive(Clone, Copy)]
pub enum RepeatWord {
    /// REPEAT
    Repeat,
    /// REPEATWHILE
    While,
    /// REPEATUNTIL
    Until,
}

/// What begins a declaration.
#[derive(Clone, Copy)]
pub enum DeclarationWord {
    /// LET
    Let,
    /// MANIFEST, STATIC or GLOBAL.
    Constants(Storage),
}

/// A kind of list whose elements are separated by semicolons.
#[derive(Clone, Copy)]
pub enum Places {
    /// Declarations, up to the end of all parts.
    Section,
    /// Declarations, then items, up to `$)`.
    Block,
    /// Items, up to `$)`.
    Cases,
}

/// The operand that this symbol begins, if it begins one of more than one part.
pub fn start_word(symbol: Symbol) -> Option<Start>
    ensures { result ≡ start_of symbol }
{
    match symbol {
        Symbol::OpenBracket => Some(Start::Bracket),
        Symbol::Table => Some(Start::Table),
        Symbol::ValueOf => Some(Start::Valof),
        Symbol::Not => Some(Start::Unary(UnaryOp::Not)),
        Symbol::Minus => Some(Start::Unary(UnaryOp::Neg)),
        Symbol::Indirection => Some(Start::Unary(UnaryOp::Load)),
        Symbol::AddressOf => Some(Start::Unary(UnaryOp::Address)),
        _ => None,
    }
}

/// The command that this symbol begins, if it begins one that REPEAT can't follow.
pub fn command_word(symbol: Symbol) -> Option<CommandWord>
    ensures { result ≡ command_word_of symbol }
{
    match symbol {
        Symbol::If => Some(CommandWord::Tested(Tested::If)),
        Symbol::Unless => Some(CommandWord::Tested(Tested::Unless)),
        Symbol::While => Some(CommandWord::Tested(Tested::While)),
        Symbol::Until => Some(CommandWord::Tested(Tested::Until)),
        Symbol::Test => Some(CommandWord::Test),
        Symbol::For => Some(CommandWord::For),
        Symbol::SwitchOn => Some(CommandWord::SwitchOn),
        _ => None,
    }
}

/// The command that this symbol begins, if it begins one that REPEAT can follow.
pub fn simple_word(symbol: Symbol) -> Option<SimpleWord>
    ensures { result ≡ simple_word_of symbol }
{
    match symbol {
        Symbol::OpenSection => Some(SimpleWord::Block),
        Symbol::Break => Some(SimpleWord::Break),
        Symbol::Loop => Some(SimpleWord::Loop),
        Symbol::EndCase => Some(SimpleWord::EndCase),
        Symbol::Return => Some(SimpleWord::Return),
        Symbol::Finish => Some(SimpleWord::Finish),
        Symbol::ResultIs => Some(SimpleWord::ResultIs),
        Symbol::Goto => Some(SimpleWord::Goto),
        _ => None,
    }
}

/// The repetition that this symbol is, if it is one.
pub fn repeat_word(symbol: Symbol) -> Option<RepeatWord>
    ensures { result ≡ repeat_word_of symbol }
{
    match symbol {
        Symbol::Repeat => Some(RepeatWord::Repeat),
        Symbol::RepeatWhile => Some(RepeatWord::While),
        Symbol::RepeatUntil => Some(RepeatWord::Until),
        _ => None,
    }
}

/// The declaration that this symbol begins, if it begins one.
pub fn declaration_word(symbol: Symbol) -> Option<DeclarationWord>
    ensures { result ≡ declaration_word_of symbol }
{
    match symbol {
        Symbol::Let => Some(DeclarationWord::Let),
        Symbol::Manifest => Some(DeclarationWord::Constants(Storage::Manifest)),
        Symbol::Static => Some(DeclarationWord::Constants(Storage::Static)),
        Symbol::Global => Some(DeclarationWord::Constants(Storage::Global)),
        _ => None,
    }
}

/// The binary operator that this symbol is, if it is one.
pub fn binary(symbol: Symbol) -> Option<BinaryOp>
    ensures { result ≡ binary_of symbol }
{
    match symbol {
        Symbol::Equivalent => Some(BinaryOp::Equivalent),
        Symbol::NotEquivalent => Some(BinaryOp::NotEquivalent),
        Symbol::LogicalOr => Some(BinaryOp::Or),
        Symbol::LogicalAnd => Some(BinaryOp::And),
        Symbol::ShiftLeft => Some(BinaryOp::ShiftLeft),
        Symbol::ShiftRight => Some(BinaryOp::ShiftRight),
        Symbol::Equal => Some(BinaryOp::Equal),
        Symbol::NotEqual => Some(BinaryOp::NotEqual),
        Symbol::Less => Some(BinaryOp::Less),
        Symbol::GreaterEqual => Some(BinaryOp::GreaterEqual),
        Symbol::Greater => Some(BinaryOp::Greater),
        Symbol::LessEqual => Some(BinaryOp::LessEqual),
        Symbol::Plus => Some(BinaryOp::Add),
        Symbol::Minus => Some(BinaryOp::Subtract),
        Symbol::Multiply => Some(BinaryOp::Multiply),
        Symbol::Divide => Some(BinaryOp::Divide),
        Symbol::Remainder => Some(BinaryOp::Remainder),
        Symbol::Indirection => Some(BinaryOp::Index),
        _ => None,
    }
}

/// The level of an expression with this operator, from 2 to 11.
pub fn level(op: BinaryOp) -> usize
    ensures { result ≡ level_of op }
{
    match op {
        BinaryOp::Equivalent | BinaryOp::NotEquivalent => 2,
        BinaryOp::Or => 3,
        BinaryOp::And => 4,
        BinaryOp::ShiftLeft | BinaryOp::ShiftRight => 6,
        BinaryOp::Equal
        | BinaryOp::NotEqual
        | BinaryOp::Less
        | BinaryOp::GreaterEqual
        | BinaryOp::Greater
        | BinaryOp::LessEqual => 7,
        BinaryOp::Add | BinaryOp::Subtract => 8,
        BinaryOp::Multiply | BinaryOp::Divide | BinaryOp::Remainder => 9,
        BinaryOp::Index => 11,
    }
}

/// The least level of the left operand: that of the operator, except that relations don't group.
pub fn level_before(op: BinaryOp) -> usize
    ensures { result ≡ left_level op }
{
    match op {
        BinaryOp::Equal
        | BinaryOp::NotEqual
        | BinaryOp::Less
        | BinaryOp::GreaterEqual
        | BinaryOp::Greater
        | BinaryOp::LessEqual => 8,
        other => level(other),
    }
}

/// The level of an expression with this unary operator.
pub fn unary_level(op: UnaryOp) -> usize
    ensures { result ≡ own_level op }
{
    match op {
        UnaryOp::Not => 5,
        UnaryOp::Neg => 8,
        UnaryOp::Load | UnaryOp::Address => 10,
    }
}

/// The least level of the operand of this unary operator.
pub fn level_after(op: UnaryOp) -> usize
    ensures { result ≡ operand_level op }
{
    match op {
        UnaryOp::Not => 6,
        UnaryOp::Neg => 9,
        UnaryOp::Load | UnaryOp::Address => 10,
    }
}
