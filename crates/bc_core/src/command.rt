//! Resolved commands, routines and the other things that a section consists of.
use crate::expression::CoreExp;
use bc_word::Word;

/// The condition of a conditional command or of a loop.
#[derive(Debug, Drop)]
pub struct Condition {
    /// The truth of the test for which the condition holds: false for UNLESS, UNTIL and REPEATUNTIL, true for IF,
    /// WHILE and REPEATWHILE.
    pub sense: bool,
    /// The test.
    pub test: CoreExp,
}

/// A command.
#[derive(Debug, Drop)]
#[cycle(commands)]
pub enum Command {
    /// A call whose value is dropped.
    Call(CoreExp),
    /// Stores a value in the cell at an address. A list of assignments is one such command per pair.
    Assign {
        /// What is stored.
        value: CoreExp,
        /// Where it is stored.
        address: CoreExp,
    },
    /// IF or UNLESS.
    If(Condition, Block),
    /// TEST: its test, the block for true, and the block for false.
    Test(CoreExp, Block, Block),
    /// WHILE or UNTIL.
    While(Condition, Block),
    /// REPEAT.
    Repeat(Block),
    /// REPEATWHILE or REPEATUNTIL.
    RepeatWhile(Block, Condition),
    /// FOR. Its variable is at the next free offset of the frame, and its limit is right after it.
    For {
        /// What the variable is set to first.
        start: CoreExp,
        /// The limit, which is computed once.
        limit: CoreExp,
        /// What is added to the variable after each round. From 32,768 on it is negative.
        by: Word,
        /// What is done in each round.
        body: Block,
    },
    /// SWITCHON: its value and its command list.
    SwitchOn(CoreExp, Vec<ListItem>),
    /// BREAK, which leaves the innermost loop.
    Break,
    /// LOOP, which goes on with the next round of the innermost loop.
    Loop,
    /// ENDCASE, which leaves the innermost SWITCHON.
    EndCase,
    /// RETURN, which leaves a routine of BE.
    Return,
    /// RESULTIS, which leaves the innermost VALOF with a value.
    ResultIs(CoreExp),
    /// FINISH, which ends the run.
    Finish,
    /// GOTO: goes to the label with this number, in the innermost list around that has it.
    Goto(u16),
    /// A block as a command.
    Nested(Block),
}

/// An element of a command list: a command, or a place where control can enter the list.
#[derive(Debug, Drop)]
#[cycle(commands)]
pub enum ListItem {
    /// The next command.
    Command(Command),
    /// CASE with its value.
    Case(Word),
    /// DEFAULT.
    Default,
    /// The label with this number.
    Label(u16),
}

/// A block: its declarations, and its command list.
#[derive(Debug, Drop)]
#[cycle(commands)]
pub struct Block {
    /// The declarations, each of which is one LET.
    pub declarations: Vec<Declaration>,
    /// The command list.
    pub list: Vec<ListItem>,
}

/// What one `LET .. AND ..` declares: its variables in text order. Their cells are side by side, from the next free
/// offset of the frame on.
#[derive(Debug, Drop)]
pub struct Declaration {
    /// The variables, in text order.
    pub variables: Vec<Variable>,
}

/// A variable, and what its cell is set to.
#[derive(Debug, Drop)]
pub enum Variable {
    /// The value of this initialiser.
    Value(CoreExp),
    /// The address of a vector with the cells 0 to this number, which are right after the variable's own cell.
    Vector(Word),
}

/// The body of a routine.
#[derive(Debug, Drop)]
pub enum Body {
    /// `= E`: the routine's value is that of the expression.
    Value(CoreExp),
    /// `BE C`: the routine performs commands, and its value is 0.
    Commands(Block),
}

/// A routine. Its parameters are at the offsets from 2 on.
#[derive(Debug, Drop)]
pub struct Routine {
    /// The global, 0 to 511, that is set to the routine's address before the run, if there is one.
    pub global: Option<u16>,
    /// The number of parameters.
    pub parameters: u16,
    /// What the routine does.
    pub body: Body,
}

/// What a label of a section denotes.
#[derive(Debug, Drop)]
pub enum Place {
    /// A routine.
    Routine(Routine),
    /// The cell of a static, with its initial word.
    Static(Word),
    /// The words of a TABLE.
    Table(Vec<Word>),
    /// The bytes of a string, at most 255. The length isn't among them.
    Text(Vec<u8>),
}

/// The body of a VALOF.
#[derive(Debug, Drop)]
pub struct Valof {
    /// The level of the VALOF, which is the next free offset of the frame when its body begins.
    pub level: u16,
    /// The body.
    pub body: Block,
}
