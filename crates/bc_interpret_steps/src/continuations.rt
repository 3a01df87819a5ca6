//! The rests. A rest is what is usually called a continuation frame: what is left to do with an answer. Comments call it a continuation,
//! since a frame here is that of a routine. The continuations are in a vector, with the innermost last.
//!
//! Each kind of answer has its own enum.

ghost use Rattle.std.specs.Prelude.{◌≡◌, ◌+◌, OnOk, IfOk};
ghost use Rattle.bc_interpret_steps.specs.Code.{stack, given, stacked, then_given, Taken};

use crate::forms::{Arguments, OpenCall, Rounds, Site};
use bc_core::{Block, Condition, CoreExp, Declaration, ListItem, Variable};
use bc_word::{Memory, Op};

/// A continuation inside an expression, which takes a number.
#[derive(Clone, Copy)]
pub enum NumberRest<'c> {
    /// Reads the cell at the address that is the number.
    Loads,
    /// Negates the number.
    Negates,
    /// Complements the number.
    Complements,
    /// Turns the number into a truth.
    Tests,
    /// The number is an operator's first operand; evaluates the second one, this expression, next.
    Operates(Site<'c>, Op, &'c CoreExp),
    /// The number is an operator's second operand; the first one is stored here. Applies the operator.
    Operated(Op, u16),
    /// The number is an argument of a call; goes on with the remaining arguments.
    Argues(Arguments<'c>),
}

/// A continuation of a command or declaration, which takes the number of its expression.
#[derive(Clone, Copy)]
pub enum ValueRest<'c> {
    /// The number is to be assigned; evaluates the address, this expression, next.
    Stores(Site<'c>, &'c CoreExp),
    /// The number is the address of an assignment; writes this word there.
    Stored(u16),
    /// Writes the number to the cell at this address.
    StoresAt(u16),
    /// Drops the number: the command was a call.
    Drops,
    /// The number is the limit of a FOR with this step and body; begins its first round.
    Fors(Site<'c>, u16, &'c Block),
    /// Enters the list of a SWITCHON at the case with this number.
    Switches(Site<'c>, &'c [ListItem]),
    /// Leaves a VALOF with the number as its value.
    Leaves,
}

/// A continuation that takes a truth.
#[derive(Clone, Copy)]
pub enum TruthRest<'c> {
    /// Negates the truth.
    Opposes,
    /// The truth is the first operand of `&`; decides the second one if it is true.
    Conjoins(Site<'c>, &'c CoreExp),
    /// The truth is the first operand of `|`; decides the second one if it is false.
    Disjoins(Site<'c>, &'c CoreExp),
    /// Evaluates the first expression if the truth is true, else the second.
    Selects(Site<'c>, &'c CoreExp, &'c CoreExp),
    /// Enters the body of an IF or UNLESS if the truth is this one.
    Ifs(Site<'c>, bool, &'c Block),
    /// Enters the first block of a TEST if the truth is true, else the second.
    Chooses(Site<'c>, &'c Block, &'c Block),
    /// Enters the body of a WHILE or UNTIL if its condition holds.
    Whiles(Site<'c>, &'c Condition, &'c Block),
    /// Repeats the body of a REPEATWHILE or REPEATUNTIL if its condition holds.
    RepeatWhiles(Site<'c>, &'c Block, &'c Condition),
}

/// A continuation that follows an assignment or an initialiser.
#[derive(Clone, Copy)]
pub enum NothingRest<'c> {
    /// Leaves the assignment.
    Passes,
    /// The variable of a FOR is set; evaluates its limit, this expression, next. The number is the step.
    Limits(Site<'c>, &'c CoreExp, u16, &'c Block),
    /// Goes on with the remaining declarations, and then with the list, at this level.
    Declares(Site<'c>, &'c [Declaration], &'c [ListItem], u32),
    /// Goes on with the remaining variables; the first is at this offset of the frame.
    Initialises(Site<'c>, &'c [Variable], u32),
}

/// A continuation that takes an exit: how control leaves a command.
#[derive(Clone, Copy)]
pub enum ExitRest<'c> {
    /// Returns from a routine whose body is a command.
    Returns,
    /// Returns the value of the VALOF with this number.
    Results(u32),
    /// Skips the second branch of a TEST after its first one.
    Skips(&'c Block),
    /// Goes on with a WHILE or UNTIL after its body.
    WhileBody(Site<'c>, &'c Condition, &'c Block),
    /// Goes on with a REPEAT after its body.
    RepeatBody(Site<'c>, &'c Block),
    /// Decides the condition of a REPEATWHILE or REPEATUNTIL after its body.
    RepeatWhileBody(Site<'c>, &'c Block, &'c Condition),
    /// Steps the variable of a FOR after its body.
    ForBody(Site<'c>, Rounds<'c>),
    /// Leaves a SWITCHON.
    Cases,
    /// Goes on with the items after a command.
    Follows(Site<'c>, &'c [ListItem]),
    /// A whole list, which a jump to one of its labels enters again.
    Listed(Site<'c>, &'c [ListItem]),
}

/// A continuation: what is left to do with an answer.
#[derive(Clone, Copy)]
pub enum Rest<'c> {
    /// Takes a number inside an expression.
    Number(NumberRest<'c>),
    /// Takes the number of an expression in a command.
    Value(ValueRest<'c>),
    /// Takes the routine's address, and calls it: whether the call has no argument, and the address of its frame.
    Calls(bool, u32),
    /// Takes a truth.
    Truth(TruthRest<'c>),
    /// Follows an assignment or an initialiser.
    Nothing(NothingRest<'c>),
    /// Takes an exit.
    Exit(ExitRest<'c>),
    /// Frees this many cells from this address on, and passes the answer on. If they are the parameters of a routine, its call is over.
    Closes(Option<OpenCall>, u32, u32),
    /// Not a continuation, but an evaluated argument of the call whose continuation is pushed after it, and whether it is the first one.
    Given(u16, bool),
}

/// Pushes a continuation.
///
/// `Memory` if an allocation fails.
#[inline(always)]
#[tactic(auto, using(crate::proofs::Piles::stack_more, crate::proofs::Piles::given_more))]
pub fn push<'c>(rest: Rest<'c>, rests: &mut Vec<Rest<'c>>) -> Result<(), Memory>
    ensures stack { OnOk result (stack rests.new.items ≡ stacked (stack rests.old.items) (given rests.old.items) rest.entry) }
    ensures given { OnOk result (given rests.new.items ≡ then_given (given rests.old.items) rest.entry) }
{
    rests.push(rest)?;
    Ok(())
}

/// Pops the innermost continuation; `None` if there is none. Arguments that no call has taken are dropped.
#[tactic(auto, using(crate::proofs::Piles::stack_more, crate::proofs::Piles::given_more))]
pub(crate) fn pop<'c>(rests: &mut Vec<Rest<'c>>) -> Option<Rest<'c>>
    ensures { Taken result rests.old.items rests.new.items }
{
    while let Some(rest) = rests.pop() {
        match rest {
            Rest::Given(_, _) => {}
            Rest::Number(_)
            | Rest::Value(_)
            | Rest::Calls(_, _)
            | Rest::Truth(_)
            | Rest::Nothing(_)
            | Rest::Exit(_)
            | Rest::Closes(_, _, _) => return Some(rest),
        }
    }
    None
}

/// The level `n` cells above `s`.
///
/// `Memory` if the sum overflows, which no level of a frame does.
#[inline(always)]
pub(crate) fn level_above(s: u32, n: u32) -> Result<u32, Memory>
    ensures { IfOk result (λ r. r ≡ s + n) }
{
    s.checked_add(n).ok_or(Memory)
}
