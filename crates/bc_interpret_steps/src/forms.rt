//! The machine's work and the outcome of a step, and the small types that they use.

use crate::sections::Section;
use bc_core::{Block, Command, Condition, CoreExp, Declaration, ListItem, Variable};
use bc_interpret_pure::Cause;
use bc_machine_defs::Side;

/// Where a part of the source is evaluated.
#[derive(Clone, Copy)]
pub struct Site<'c> {
    /// The section that contains the part.
    pub section: &'c Section<'c>,
    /// The number of the first VALOF inside the part.
    pub first: u32,
    /// The address of the frame.
    pub frame: u32,
    /// The level: the first free offset of the frame.
    pub level: u32,
}

/// How control leaves a command.
#[derive(Clone, Copy)]
pub enum Exit {
    /// It goes on after the command.
    Past,
    /// By BREAK.
    Broke,
    /// By LOOP.
    Looped,
    /// By ENDCASE.
    LeftCases,
    /// By RETURN.
    Returned,
    /// By RESULTIS, with this value.
    Resulted(u16),
    /// By a GOTO to this label.
    Jumped(u16),
}

/// Where a list of items is entered.
#[derive(Clone, Copy)]
pub enum Entry {
    /// At its first item.
    Beginning,
    /// At the CASE with this value.
    AtCase(u16),
    /// At DEFAULT.
    AtDefault,
    /// At this label.
    AtLabel(u16),
}

/// A call whose arguments are being evaluated.
#[derive(Clone, Copy)]
pub struct Arguments<'c> {
    /// Where the call is evaluated, at the level of the call.
    pub site: Site<'c>,
    /// The remaining arguments.
    pub left: &'c [CoreExp],
    /// The level of the first remaining argument.
    pub level: u32,
    /// The expression whose value is called.
    pub routine: &'c CoreExp,
    /// The number of arguments of the whole call.
    pub count: u32,
    /// Whether no argument has been evaluated yet.
    pub fresh: bool,
}

/// A FOR whose limit is known.
#[derive(Clone, Copy)]
pub struct Rounds<'c> {
    /// The limit.
    pub limit: u16,
    /// The step.
    pub by: u16,
    /// The body.
    pub body: &'c Block,
}

/// The current work: what to do next, or the answer to give to the innermost continuation.
#[derive(Clone, Copy)]
pub enum Work<'c> {
    /// Evaluates an expression for its value.
    Evaluate(Site<'c>, &'c CoreExp),
    /// Evaluates an expression for its truth.
    Decide(Site<'c>, &'c CoreExp),
    /// Evaluates the remaining arguments of a call, and then calls.
    Argue(Arguments<'c>),
    /// Assigns: the value, and the address.
    Store(Site<'c>, &'c CoreExp, &'c CoreExp),
    /// Performs a command.
    Perform(Site<'c>, &'c Command),
    /// Performs a WHILE or UNTIL. After a round its continuation has only its parts and not the command, so this isn't `Perform`.
    While(Site<'c>, &'c Condition, &'c Block),
    /// Performs a REPEAT, likewise.
    Repeat(Site<'c>, &'c Block),
    /// Performs a REPEATWHILE or REPEATUNTIL, likewise.
    RepeatWhile(Site<'c>, &'c Block, &'c Condition),
    /// Performs a block.
    Enter(Site<'c>, &'c Block),
    /// Makes the remaining declarations, and then performs the list, at this level.
    Declare(Site<'c>, &'c [Declaration], &'c [ListItem], u32),
    /// Initialises the remaining variables; the first is at this offset of the frame, and the level is after all of them.
    Initialise(Site<'c>, &'c [Variable], u32),
    /// Performs a list, from where it is entered.
    Listing(Site<'c>, &'c [ListItem], Entry),
    /// Performs a round of a FOR, beginning with its test.
    Round(Site<'c>, Rounds<'c>),
    /// Gives a number.
    Number(u16),
    /// Gives a truth.
    Verdict(bool),
    /// Gives the answer of an assignment or an initialiser.
    Nothing,
    /// Gives an exit: control has left a command.
    Left(Exit),
}

/// A routine of the library that works on streams.
#[derive(Clone, Copy, Debug, PartialEq, Eq)]
pub enum Primitive {
    /// Selects a stream.
    Select(Side),
    /// Reads a byte from the selected input.
    ReadByte,
    /// Writes a byte to the selected output.
    WriteByte,
    /// Finds a stream by its name.
    Find(Side),
    /// Ends the selected stream.
    EndStream(Side),
}

/// A call that is open: it was begun and isn't over.
#[derive(Clone, Copy)]
pub struct OpenCall {
    /// The address that was called.
    pub routine: u16,
    /// The address of the call's frame.
    pub frame: u32,
}

/// How a run ended by itself.
#[derive(Clone, Copy, Debug, PartialEq, Eq)]
pub enum Ending {
    /// By FINISH, or because START returned.
    Finished,
    /// By a division by zero.
    ZeroDivide,
}

/// The outcome of a step.
#[derive(Clone, Copy)]
pub enum Progress<'c> {
    /// The run goes on with this work.
    On(Work<'c>),
    /// A primitive is called by this call. The caller of `step` must carry it out: its turn has been taken, and its argument has been
    /// passed.
    Serve(Primitive, OpenCall),
    /// The run is over because START returned.
    Answered,
    /// The run has ended.
    Ended(Ending),
    /// The run stops because no turn remains.
    Going,
    /// The step is wild.
    Wild(Cause),
}
