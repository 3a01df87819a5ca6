//! Expanding one part of a routine: returns how far the part itself extends the frame, and pushes its sub-parts, each with its level,
//! onto the list of waiting parts.
//!
//! In this file `s` is the level of a part: the first free offset of the frame. Results are counted in cells from the start of the
//! frame. Every function returns `Memory` if an allocation fails.

ghost use Rattle.std.specs.Prelude.{◌≡◌, ◌∷◌, map, IfOk};
ghost use Rattle.bc_core.specs.Level.{cells_of as cells_of_variable, cells_of_all as cells_of_variables, cells_declared as cells_of_declarations};
ghost use Rattle.bc_core.specs.View.{exp, variable, declarations as declarations_view};
ghost use Rattle.bc_core.specs.Commands as forms;
ghost use Rattle.bc_interpret_frames.specs.declared.part.Construct.TheVariants as parts;
ghost use Rattle.bc_interpret_frames.specs.Parts.{bodies, weights, ExpandedTo, IsExpanded, IsCommandExpanded, AreExpanded};

use crate::part::{Construct, Within, above, put, put_both};
use bc_core::{Block, Command, CoreExp, Declaration, ListItem, Variable, operand};
use bc_word::Memory;

/// Expands an expression.
#[tactic(auto, using(bc_core::proofs::Rows::call_view, crate::proofs::Waits::count_args))]
fn expression<'c>(
    within: Within<'c>,
    e: &'c CoreExp,
    s: usize,
    waiting: &mut Vec<Construct<'c>>,
) -> Result<usize, Memory>
    ensures { IsExpanded (parts.Expression within.entry e.entry s) result waiting.old.items waiting.new.items }
{
    match e {
        CoreExp::Num(_) | CoreExp::Frame(_) | CoreExp::Glob(_) | CoreExp::Place(_) => Ok(0),
        CoreExp::Load(part) | CoreExp::Neg(part) | CoreExp::Not(part) => {
            put(Construct::Expression(within, part, s), waiting)?;
            Ok(0)
        }
        CoreExp::Bin(_, left, right) => {
            let level = above(s, 1)?;
            put(Construct::Expression(within, left, level), waiting)?;
            put(Construct::Expression(within, right, level), waiting)?;
            above(s, 2)
        }
        CoreExp::Cond(condition, this, that) => {
            put(Construct::Expression(within, condition, s), waiting)?;
            put(Construct::Expression(within, this, s), waiting)?;
            put(Construct::Expression(within, that, s), waiting)?;
            Ok(0)
        }
        CoreExp::Call(arguments, routine) => {
            let first = above(s, 2)?;
            let following = above(first, arguments.len())?;
            put(Construct::Arguments(within, arguments, first), waiting)?;
            put(Construct::Expression(within, routine, following), waiting)?;
            Ok(following)
        }
        CoreExp::Valof(number) => valof(within, *number as usize, s, waiting),
    }
}

/// Expands the VALOF with this number to its body; one that isn't within this part takes no cells.
fn valof<'c>(
    within: Within<'c>,
    number: usize,
    s: usize,
    waiting: &mut Vec<Construct<'c>>,
) -> Result<usize, Memory>
    ensures { ExpandedTo (bodies within.entry number s) (weights within.entry number) result waiting.old.items waiting.new.items }
{
    if number < within.first {
        return Ok(0);
    }
    let index = number - within.first;
    if index >= within.valofs.len() {
        return Ok(0);
    }
    let inner = Within {
        first: above(number, 1)?,
        valofs: &within.valofs[index + 1..],
    };
    put(
        Construct::Block(inner, &within.valofs[index].body, s),
        waiting,
    )?;
    Ok(0)
}

/// Expands a list of arguments, the first at level `s` and each further one a cell higher.
fn arguments<'c>(
    within: Within<'c>,
    all: &'c [CoreExp],
    s: usize,
    waiting: &mut Vec<Construct<'c>>,
) -> Result<usize, Memory>
    ensures { IsExpanded (parts.Arguments within.entry all.entry s) result waiting.old.items waiting.new.items }
{
    if let [first, left @ ..] = all {
        put(Construct::Expression(within, first, s), waiting)?;
        put(Construct::Arguments(within, left, above(s, 1)?), waiting)?;
    }
    Ok(0)
}

/// Expands an assignment.
fn assignment<'c>(
    within: Within<'c>,
    value: &'c CoreExp,
    address: &'c CoreExp,
    s: usize,
    waiting: &mut Vec<Construct<'c>>,
) -> Result<usize, Memory>
    ensures { IsCommandExpanded within.entry (forms.Assign (exp value.now) (exp address.now)) s result waiting.old.items waiting.new.items }
{
    if operand(address).is_some() {
        put(Construct::Expression(within, value, s), waiting)?;
        put(Construct::Expression(within, address, s), waiting)?;
        return Ok(0);
    }
    let level = above(s, 1)?;
    put(Construct::Expression(within, value, level), waiting)?;
    put(Construct::Expression(within, address, level), waiting)?;
    above(s, 2)
}

/// Expands a command.
fn command<'c>(
    within: Within<'c>,
    command: &'c Command,
    s: usize,
    waiting: &mut Vec<Construct<'c>>,
) -> Result<usize, Memory>
    ensures { IsExpanded (parts.Command within.entry command.entry s) result waiting.old.items waiting.new.items }
{
    match command {
        Command::Call(e) | Command::ResultIs(e) => {
            put(Construct::Expression(within, e, s), waiting)?;
            Ok(0)
        }
        Command::Assign { value, address } => assignment(within, value, address, s, waiting),
        Command::If(condition, body)
        | Command::While(condition, body)
        | Command::RepeatWhile(body, condition) => {
            put(Construct::Expression(within, &condition.test, s), waiting)?;
            put(Construct::Block(within, body, s), waiting)?;
            Ok(0)
        }
        Command::Test(test, this, that) => {
            put(Construct::Expression(within, test, s), waiting)?;
            put(Construct::Block(within, this, s), waiting)?;
            put(Construct::Block(within, that, s), waiting)?;
            Ok(0)
        }
        Command::Repeat(body) | Command::Nested(body) => {
            put(Construct::Block(within, body, s), waiting)?;
            Ok(0)
        }
        Command::For {
            start,
            limit,
            body,
            ..
        } => {
            let level = above(s, 2)?;
            put(Construct::Expression(within, start, level), waiting)?;
            put(Construct::Expression(within, limit, level), waiting)?;
            put(Construct::Block(within, body, level), waiting)?;
            Ok(above(level, 2)?)
        }
        Command::SwitchOn(value, items) => {
            put(Construct::Expression(within, value, s), waiting)?;
            put(Construct::Items(within, items, s), waiting)?;
            Ok(0)
        }
        Command::Break
        | Command::Loop
        | Command::EndCase
        | Command::Return
        | Command::Finish
        | Command::Goto(_) => Ok(0),
    }
}

/// The cells of one variable: its own, and those of its vector.
fn cells_of_one(declared: &Variable) -> usize
    ensures { result ≡ cells_of_variable (variable declared.now) }
{
    match declared {
        Variable::Value(_) => 1,
        Variable::Vector(greatest) => greatest.get() as usize + 2,
    }
}

/// The cells of all these variables.
fn cells_of_all(variables: &[Variable]) -> Result<usize, Memory>
    ensures { IfOk result (λ cells. cells ≡ cells_of_variables (map variable variables.now)) }
{
    let mut cells = 0usize;
    let mut left = variables;
    while let [first, rest @ ..] = left {
        cells = above(cells, cells_of_one(first))?;
        left = rest;
    }
    Ok(cells)
}

/// The cells of all these declarations.
fn cells_declared(declarations: &[Declaration]) -> Result<usize, Memory>
    ensures { IfOk result (λ cells. cells ≡ cells_of_declarations (declarations_view declarations.now)) }
{
    let mut cells = 0usize;
    let mut left = declarations;
    while let [first, rest @ ..] = left {
        cells = above(cells, cells_of_all(&first.variables)?)?;
        left = rest;
    }
    Ok(cells)
}

/// Expands a block.
fn block<'c>(
    within: Within<'c>,
    block: &'c Block,
    s: usize,
    waiting: &mut Vec<Construct<'c>>,
) -> Result<usize, Memory>
    ensures { IsExpanded (parts.Block within.entry block.entry s) result waiting.old.items waiting.new.items }
{
    let level = above(s, cells_declared(&block.declarations)?)?;
    put(
        Construct::Declarations(within, &block.declarations, s),
        waiting,
    )?;
    put(Construct::Items(within, &block.list, level), waiting)?;
    Ok(0)
}

/// Expands a list of declarations.
fn declarations<'c>(
    within: Within<'c>,
    all: &'c [Declaration],
    s: usize,
    waiting: &mut Vec<Construct<'c>>,
) -> Result<usize, Memory>
    ensures { IsExpanded (parts.Declarations within.entry all.entry s) result waiting.old.items waiting.new.items }
{
    match all {
        [] => Ok(0),
        [first, left @ ..] => {
            let level = above(s, cells_of_all(&first.variables)?)?;
            put(
                Construct::Variables(within, &first.variables, level),
                waiting,
            )?;
            put(Construct::Declarations(within, left, level), waiting)?;
            Ok(level)
        }
    }
}

/// Expands a list of variables that begins with this one. `s` is the level after all of them.
fn first_variable<'c>(
    within: Within<'c>,
    first: &'c Variable,
    left: &'c [Variable],
    s: usize,
    waiting: &mut Vec<Construct<'c>>,
) -> Result<usize, Memory>
    ensures { AreExpanded within.entry (variable first.now ∷ map variable left.now) s result waiting.old.items waiting.new.items }
{
    match first {
        Variable::Value(e) => {
            put_both(
                Construct::Expression(within, e, s),
                Construct::Variables(within, left, s),
                waiting,
            )?;
            Ok(0)
        }
        Variable::Vector(_) => {
            put(Construct::Variables(within, left, s), waiting)?;
            Ok(0)
        }
    }
}

/// Expands a list of variables. `s` is the level after all of them.
fn variables<'c>(
    within: Within<'c>,
    all: &'c [Variable],
    s: usize,
    waiting: &mut Vec<Construct<'c>>,
) -> Result<usize, Memory>
    ensures { IsExpanded (parts.Variables within.entry all.entry s) result waiting.old.items waiting.new.items }
{
    match all {
        [] => Ok(0),
        [first, left @ ..] => Ok(first_variable(within, first, left, s, waiting)?),
    }
}

/// Expands a list of items.
fn items<'c>(
    within: Within<'c>,
    all: &'c [ListItem],
    s: usize,
    waiting: &mut Vec<Construct<'c>>,
) -> Result<usize, Memory>
    ensures { IsExpanded (parts.Items within.entry all.entry s) result waiting.old.items waiting.new.items }
{
    match all {
        [] => Ok(0),
        [ListItem::Command(command), left @ ..] => {
            put(Construct::Command(within, command, s), waiting)?;
            put(Construct::Items(within, left, s), waiting)?;
            Ok(0)
        }
        [ListItem::Case(_), left @ ..] => {
            put(Construct::Items(within, left, s), waiting)?;
            Ok(0)
        }
        [ListItem::Default, left @ ..] => {
            put(Construct::Items(within, left, s), waiting)?;
            Ok(0)
        }
        [ListItem::Label(_), left @ ..] => {
            put(Construct::Items(within, left, s), waiting)?;
            Ok(0)
        }
    }
}

/// Expands a part: pushes its sub-parts onto `waiting`, and returns how far the part itself extends the frame.
pub(crate) fn expand<'c>(
    part: Construct<'c>,
    waiting: &mut Vec<Construct<'c>>,
) -> Result<usize, Memory>
    ensures { IsExpanded part.entry result waiting.old.items waiting.new.items }
{
    match part {
        Construct::Expression(within, e, s) => Ok(expression(within, e, s, waiting)?),
        Construct::Arguments(within, all, s) => Ok(arguments(within, all, s, waiting)?),
        Construct::Command(within, all, s) => Ok(command(within, all, s, waiting)?),
        Construct::Block(within, all, s) => Ok(block(within, all, s, waiting)?),
        Construct::Declarations(within, all, s) => Ok(declarations(within, all, s, waiting)?),
        Construct::Variables(within, all, s) => Ok(variables(within, all, s, waiting)?),
        Construct::Items(within, all, s) => Ok(items(within, all, s, waiting)?),
    }
}
