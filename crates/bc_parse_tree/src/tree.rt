//! The syntax tree. Names and strings are slices of the source.
use bc_word::Word;

/// What a list of constants declares.
#[derive(Clone, Copy, Debug, PartialEq, Eq)]
pub enum Storage {
    /// Names of constants.
    Manifest,
    /// Cells with an initial value, which live as long as the run.
    Static,
    /// Cells of the global vector.
    Global,
}

/// An operator with one operand, which follows it.
#[derive(Clone, Copy, Debug, PartialEq, Eq)]
pub enum UnaryOp {
    /// NOT: every bit inverted.
    Not,
    /// `-`: the negative of the operand.
    Neg,
    /// `!`: the content of the cell whose address is the operand.
    Load,
    /// `@`: the address of the operand.
    Address,
}

/// An operator with two operands, which is written between them.
#[derive(Clone, Copy, Debug, PartialEq, Eq)]
pub enum BinaryOp {
    /// EQV
    Equivalent,
    /// NEQV
    NotEquivalent,
    /// `|`
    Or,
    /// `&`
    And,
    /// `<<`
    ShiftLeft,
    /// `>>`
    ShiftRight,
    /// `=`
    Equal,
    /// `NE`
    NotEqual,
    /// `<`
    Less,
    /// `GE`
    GreaterEqual,
    /// `>`
    Greater,
    /// `LE`
    LessEqual,
    /// `+`
    Add,
    /// `-`
    Subtract,
    /// `*`
    Multiply,
    /// `/`
    Divide,
    /// REM
    Remainder,
    /// `l ! r`: the content of the cell at the sum of both.
    Index,
}

/// An expression.
#[cycle(trees)]
#[derive(Drop)]
pub enum Exp<'s> {
    /// A name.
    Name(&'s [u8]),
    /// A number.
    Num(Word),
    /// A character constant, by its value.
    Character(Word),
    /// A string, with its quotes.
    String(&'s [u8]),
    /// TRUE
    True,
    /// FALSE
    False,
    /// TABLE and its constants.
    Table(Vec<Exp<'s>>),
    /// VALOF and its body.
    Valof(Block<'s>),
    /// A unary operator and its operand.
    Unary(UnaryOp, Box<Exp<'s>>),
    /// A binary operator with its left and right operand.
    Bin(BinaryOp, Box<Exp<'s>>, Box<Exp<'s>>),
    /// `test -> this, that`: `this` is the value if the test is true, `that` if it is false.
    Cond {
        test: Box<Exp<'s>>,
        this: Box<Exp<'s>>,
        that: Box<Exp<'s>>,
    },
    /// A call: the routine and its arguments.
    Call(Box<Exp<'s>>, Vec<Exp<'s>>),
}

/// Declarations, followed by items.
#[cycle(trees)]
#[derive(Drop)]
pub struct Block<'s> {
    pub declarations: Vec<Declaration<'s>>,
    pub items: Vec<Item<'s>>,
}

/// A declaration.
#[cycle(trees)]
#[derive(Drop)]
pub enum Declaration<'s> {
    /// A list of constants: MANIFEST, STATIC or GLOBAL.
    Constants(Storage, Vec<Constant<'s>>),
    /// The definitions of one LET, which AND joins.
    Let(Vec<Definition<'s>>),
}

/// A name and its constant, in a list of constants.
#[cycle(trees)]
#[derive(Drop)]
pub struct Constant<'s> {
    pub name: &'s [u8],
    pub value: Exp<'s>,
}

/// One definition of a LET.
#[cycle(trees)]
#[derive(Drop)]
pub enum Definition<'s> {
    /// Names of variables and their initialisers; there are as many of one as of the other.
    Variables(Vec<&'s [u8]>, Vec<Exp<'s>>),
    /// `N = VEC K`: a vector of K+1 cells.
    Vector(&'s [u8], Exp<'s>),
    /// A function: its name, its parameters, and its value.
    Function(&'s [u8], Vec<&'s [u8]>, Exp<'s>),
    /// A routine: its name, its parameters, and its body.
    Routine(&'s [u8], Vec<&'s [u8]>, Block<'s>),
}

/// An item of a command list: labels, and the command they label. Either may be missing, but not both.
#[cycle(trees)]
#[derive(Drop)]
pub struct Item<'s> {
    pub labels: Vec<Label<'s>>,
    pub command: Option<Command<'s>>,
}

/// A label of an item.
#[cycle(trees)]
#[derive(Drop)]
pub enum Label<'s> {
    /// `CASE K:`
    Case(Exp<'s>),
    /// `DEFAULT:`
    Default,
    /// `N:`
    Name(&'s [u8]),
}

/// A command. TEST and FOR, the largest variants, hold their expressions in boxes, which keeps the type small enough
/// to pass by value.
#[cycle(trees)]
#[derive(Drop)]
pub enum Command<'s> {
    /// The left sides and the right sides of an assignment; there are as many of one as of the other.
    Assign(Vec<Exp<'s>>, Vec<Exp<'s>>),
    /// A call: the routine and its arguments.
    Call(Box<Exp<'s>>, Vec<Exp<'s>>),
    /// A block as a command.
    Block(Block<'s>),
    /// BREAK
    Break,
    /// LOOP
    Loop,
    /// ENDCASE
    EndCase,
    /// RETURN
    Return,
    /// FINISH
    Finish,
    /// RESULTIS and its value.
    ResultIs(Exp<'s>),
    /// GOTO and the name of the label.
    Goto(&'s [u8]),
    /// `C REPEAT`
    Repeat(Box<Command<'s>>),
    /// `C REPEATWHILE E`
    RepeatWhile(Box<Command<'s>>, Exp<'s>),
    /// `C REPEATUNTIL E`
    RepeatUntil(Box<Command<'s>>, Exp<'s>),
    /// `IF E DO B`
    If(Exp<'s>, Block<'s>),
    /// `UNLESS E DO B`
    Unless(Exp<'s>, Block<'s>),
    /// `WHILE E DO B`
    While(Exp<'s>, Block<'s>),
    /// `UNTIL E DO B`
    Until(Exp<'s>, Block<'s>),
    /// `TEST test THEN this OR that`: `this` is done if the test is true, `that` if it is false.
    Test {
        test: Box<Exp<'s>>,
        this: Block<'s>,
        that: Block<'s>,
    },
    /// `FOR variable = start TO limit BY step DO body`; BY and the step may be missing.
    For {
        variable: &'s [u8],
        start: Box<Exp<'s>>,
        limit: Box<Exp<'s>>,
        step: Option<Box<Exp<'s>>>,
        body: Block<'s>,
    },
    /// SWITCHON with its value and its items.
    SwitchOn(Exp<'s>, Vec<Item<'s>>),
}

/// A section: the declarations of a source.
#[derive(Drop)]
pub struct Section<'s> {
    pub declarations: Vec<Declaration<'s>>,
}
