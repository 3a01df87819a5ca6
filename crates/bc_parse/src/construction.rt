//! The constructors of the parser's trees. Each takes the result of reading the last part, and passes on its fault.
//!
//! They call no reader, so they are outside the cycle of readers and each is proved by itself. This keeps the cycle's
//! proof small.
ghost use Rattle.std.specs.Prelude.{◌≡◌, ◌+◌, ◌-◌, ◌<◌, ◌≤◌, true, false, max, Result, Ok};
ghost use Rattle.bc_lex_tokens.specs.declared.symbol.Symbol.TheVariants as sign;
ghost use Rattle.bc_parse_tree.specs.Operators.{own_level, level_of};
ghost use Rattle.bc_parse_tree.specs.Spelling.{add_exp, add_declaration, add_definition, add_entry, add_item, add_label};
ghost use Rattle.bc_parse_tree.specs.Tree as tree;
ghost use Rattle.bc_parse_tree.specs.View.{exp_view, exps_view, command_view, block_view, declaration_view, declarations_view};
ghost use Rattle.bc_parse_tree.specs.View.{definition_view, definitions_view, entries_view, items_view, labels_view};
ghost use Rattle.bc_parse_defs.specs.Reading.{Fault, Piece, piece, on, after_of, expect_of, moved, next_exp};
ghost use Rattle.bc_parse_defs.specs.Reading.{tested_command};
ghost use Rattle.bc_parse.specs.Names.{names_view};
ghost use Rattle.bc_parse.specs.Seen.{◌~>◌, seen, read_view, box_view, list_view, levelled_view, parts_view, Reads};
ghost use Rattle.bc_parse.specs.Seen.{Made, MadeOperand, MadeTurn, Nests, NestsTurn, Takes};
ghost use Rattle.bc_parse.specs.Partial.{around, joined, joined_so_far, body_of_command, assignment_to, variables_of};

use crate::blocks::{Parts, body_from};
use crate::commands::{switch_of, test_of, tested_of};
use crate::cursor::Rest;
use crate::expressions::{Levelled, exp_count};
use crate::fault::ReadFault;
use crate::levels::{CHOICE, PRIMARY};
use crate::names::name_count;
use crate::read::{Limits, Read, ReadResult, Step};
use crate::{boxes, cursor};
use bc_lex_tokens::Symbol;
use bc_parse_defs::words;
use bc_parse_defs::words::Tested;
use bc_parse_tree::{
    BinaryOp, Block, Command, Constant, Declaration, Definition, Exp, Label, Storage, UnaryOp,
};

/// Puts an expression into a box.
pub fn exp_boxed<'s, 't>(
    room: Limits,
    found: ReadResult<'s, 't, Exp<'s>>,
) -> ReadResult<'s, 't, Box<Exp<'s>>>
    requires { Nests found room.nest }
    ensures read { (r : Result (Piece tree.Exp) Fault) → Reads exp_view found.entry r → Reads (box_view exp_view) result r }
    ensures low { Nests result room.nest }
{
    let found = found?;
    let tree = boxes::exp(room.alloc, found.tree)?;
    Ok(Read {
        tree,
        height: found.height,
        rest: found.rest,
    })
}

/// An operand with its level.
fn operand<'s, 't>(
    exp: Exp<'s>,
    level: usize,
    height: usize,
    rest: Rest<'s, 't>,
) -> Read<'s, 't, Levelled<'s>>
    ensures read { read_view levelled_view result ≡ piece (exp_view exp.entry, level) height (seen rest.entry) }
    ensures height { result.height ≡ height }
{
    let tree = Levelled { exp, level };
    Read { tree, height, rest }
}

/// A TABLE.
pub fn table_of<'s, 't>(
    room: Limits,
    found: ReadResult<'s, 't, Vec<Exp<'s>>>,
) -> ReadResult<'s, 't, Levelled<'s>>
    requires room { 0 < room.nest }
    requires found { Nests found (room.nest - 1) }
    ensures read { MadeOperand (list_view exps_view) found.entry result (around tree.Table) 12 }
    ensures low { Nests result room.nest }
{
    let found = found?;
    Ok(operand(
        Exp::Table(found.tree),
        PRIMARY,
        found.height + 1,
        found.rest,
    ))
}

/// A VALOF.
pub fn valof_of<'s, 't>(
    room: Limits,
    found: ReadResult<'s, 't, Block<'s>>,
) -> ReadResult<'s, 't, Levelled<'s>>
    requires room { 0 < room.nest }
    requires found { Nests found (room.nest - 1) }
    ensures read { MadeOperand block_view found.entry result (around tree.Valof) 12 }
    ensures low { Nests result room.nest }
{
    let found = found?;
    Ok(operand(
        Exp::Valof(found.tree),
        PRIMARY,
        found.height + 1,
        found.rest,
    ))
}

/// A unary operator and its operand.
pub fn unary_of<'s, 't>(
    room: Limits,
    op: UnaryOp,
    found: ReadResult<'s, 't, Box<Exp<'s>>>,
) -> ReadResult<'s, 't, Levelled<'s>>
    requires room { 0 < room.nest }
    requires found { Nests found (room.nest - 1) }
    ensures read { MadeOperand (box_view exp_view) found.entry result (around (tree.Unary op)) (own_level op) }
    ensures low { Nests result room.nest }
{
    let found = found?;
    let exp = Exp::Unary(op, found.tree);
    Ok(operand(exp, words::unary_level(op), found.height + 1, found.rest))
}

/// An expression in parentheses, whose `)` is read here.
pub fn bracket_of<'s, 't>(
    room: Limits,
    found: ReadResult<'s, 't, Exp<'s>>,
) -> ReadResult<'s, 't, Levelled<'s>>
    requires { Nests found room.nest }
    ensures read { MadeOperand exp_view found.entry result (λ e. expect_of sign.CloseBracket e.rest ~> λ rest. Ok (moved e rest)) 12 }
    ensures low { Nests result room.nest }
{
    let found = found?;
    let found = boxes::followed_by(Symbol::CloseBracket, found)?;
    Ok(operand(found.tree, PRIMARY, found.height, found.rest))
}

/// A binary operator and its operands. `height` is how deep the left one nests.
pub fn binary_of<'s, 't>(
    room: Limits,
    op: BinaryOp,
    height: usize,
    left: Box<Exp<'s>>,
    right: ReadResult<'s, 't, Box<Exp<'s>>>,
) -> ReadResult<'s, 't, Levelled<'s>>
    requires room { height < room.nest }
    requires right { Nests right (room.nest - 1) }
    ensures read { MadeOperand (box_view exp_view) right.entry result
        (joined height (tree.Bin op (exp_view left.entry.value))) (level_of op) }
    ensures low { Nests result room.nest }
{
    let right = right?;
    let exp = Exp::Bin(op, left, right.tree);
    Ok(operand(
        exp,
        words::level(op),
        height.max(right.height) + 1,
        right.rest,
    ))
}

/// A call. `height` is how deep the routine nests.
pub fn call_from<'s, 't>(
    room: Limits,
    height: usize,
    routine: Box<Exp<'s>>,
    found: ReadResult<'s, 't, Vec<Exp<'s>>>,
) -> ReadResult<'s, 't, Levelled<'s>>
    requires room { height < room.nest }
    requires found { Nests found (room.nest - 1) }
    ensures read { MadeOperand (list_view exps_view) found.entry result
        (joined height (tree.Call (exp_view routine.entry.value))) 12 }
    ensures low { Nests result room.nest }
{
    let found = found?;
    let exp = Exp::Call(routine, found.tree);
    Ok(operand(exp, PRIMARY, height.max(found.height) + 1, found.rest))
}

/// A choice. `height` is how deep the test and the first value nest.
pub fn condition_of<'s, 't>(
    room: Limits,
    height: usize,
    test: Box<Exp<'s>>,
    this: Box<Exp<'s>>,
    that: ReadResult<'s, 't, Box<Exp<'s>>>,
) -> ReadResult<'s, 't, Levelled<'s>>
    requires room { height < room.nest }
    requires that { Nests that (room.nest - 1) }
    ensures read { MadeOperand (box_view exp_view) that.entry result
        (joined height (tree.Cond (exp_view test.entry.value) (exp_view this.entry.value))) 1 }
    ensures low { Nests result room.nest }
{
    let found = that?;
    let that = found.tree;
    let exp = Exp::Cond { test, this, that };
    Ok(operand(exp, CHOICE, height.max(found.height) + 1, found.rest))
}

/// A longer operand, which may be continued.
pub fn extended<'s, 't>(
    room: Limits,
    next: ReadResult<'s, 't, Levelled<'s>>,
) -> Result<Step<'s, 't, Levelled<'s>>, ReadFault>
    requires { Nests next room.nest }
    ensures read { MadeTurn levelled_view next.entry levelled_view result (λ t. Ok (t, false)) }
    ensures low { NestsTurn result room.nest }
{
    Ok(Step::More(next?))
}

/// Expressions with one more. It is the last if there are `limit` of them, or if no comma follows.
pub fn exps_more<'s, 't>(
    room: Limits,
    limit: usize,
    next: ReadResult<'s, 't, Exp<'s>>,
    list: Read<'s, 't, Vec<Exp<'s>>>,
) -> Result<Step<'s, 't, Vec<Exp<'s>>>, ReadFault>
    requires list { list.height ≤ room.nest }
    requires next { Nests next room.nest }
    ensures read { MadeTurn exp_view next.entry (list_view exps_view) result (λ e. next_exp limit
        (piece (add_exp (exps_view list.entry.tree.items) e.tree) (max list.entry.height e.height) e.rest)) }
    ensures low { NestsTurn result room.nest }
{
    let next = next?;
    let tree = boxes::exp_added(list.tree, next.tree)?;
    let height = list.height.max(next.height);
    let rest = next.rest;
    if exp_count(&tree) == limit {
        return Ok(Step::Last(Read { tree, height, rest }));
    }
    Ok(match cursor::after(Symbol::Comma, rest) {
        None => Step::Last(Read { tree, height, rest }),
        Some(rest) => Step::More(Read { tree, height, rest }),
    })
}

/// A command with REPEAT. `height` is how deep the command nests.
pub fn repeated<'s, 't>(
    room: Limits,
    height: usize,
    body: Box<Command<'s>>,
    rest: Rest<'s, 't>,
) -> Result<Step<'s, 't, Command<'s>>, ReadFault>
    requires { height < room.nest }
    ensures read { Takes command_view result (Ok (piece (tree.Repeat (command_view body.entry.value)) (height + 1) (seen rest.entry), false)) }
    ensures low { NestsTurn result room.nest }
{
    Ok(Step::More(Read {
        tree: Command::Repeat(body),
        height: height + 1,
        rest,
    }))
}

/// A command with REPEATWHILE and its test. `height` is how deep the command nests.
pub fn repeated_while<'s, 't>(
    room: Limits,
    height: usize,
    body: Box<Command<'s>>,
    test: ReadResult<'s, 't, Exp<'s>>,
) -> Result<Step<'s, 't, Command<'s>>, ReadFault>
    requires room { height < room.nest }
    requires test { Nests test (room.nest - 1) }
    ensures read { MadeTurn exp_view test.entry command_view result (joined_so_far height (tree.RepeatWhile (command_view body.entry.value))) }
    ensures low { NestsTurn result room.nest }
{
    let test = test?;
    Ok(Step::More(Read {
        tree: Command::RepeatWhile(body, test.tree),
        height: height.max(test.height) + 1,
        rest: test.rest,
    }))
}

/// A command with REPEATUNTIL and its test. `height` is how deep the command nests.
pub fn repeated_until<'s, 't>(
    room: Limits,
    height: usize,
    body: Box<Command<'s>>,
    test: ReadResult<'s, 't, Exp<'s>>,
) -> Result<Step<'s, 't, Command<'s>>, ReadFault>
    requires room { height < room.nest }
    requires test { Nests test (room.nest - 1) }
    ensures read { MadeTurn exp_view test.entry command_view result (joined_so_far height (tree.RepeatUntil (command_view body.entry.value))) }
    ensures low { NestsTurn result room.nest }
{
    let test = test?;
    Ok(Step::More(Read {
        tree: Command::RepeatUntil(body, test.tree),
        height: height.max(test.height) + 1,
        rest: test.rest,
    }))
}

/// An assignment. Expected, if there are fewer values than targets.
#[tactic(auto, using(crate::proofs::Views::assign_view))]
pub fn assignment<'s, 't>(
    room: Limits,
    targets: Read<'s, 't, Vec<Exp<'s>>>,
    values: ReadResult<'s, 't, Vec<Exp<'s>>>,
) -> ReadResult<'s, 't, Command<'s>>
    requires room { targets.height < room.nest }
    requires values { Nests values (room.nest - 1) }
    ensures read { Made (list_view exps_view) values.entry command_view result
        (assignment_to (exps_view targets.entry.tree.items) targets.entry.height) }
    ensures low { Nests result room.nest }
{
    let values = values?;
    if exp_count(&values.tree) != exp_count(&targets.tree) {
        return Err(ReadFault::Expected(values.rest.parts.len()));
    }
    Ok(Read {
        tree: Command::Assign(targets.tree, values.tree),
        height: targets.height.max(values.height) + 1,
        rest: values.rest,
    })
}

/// A block as a command.
pub fn compound<'s, 't>(
    room: Limits,
    inner: ReadResult<'s, 't, Block<'s>>,
) -> ReadResult<'s, 't, Command<'s>>
    requires room { 0 < room.nest }
    requires inner { Nests inner (room.nest - 1) }
    ensures read { Made block_view inner.entry command_view result (around tree.Compound) }
    ensures low { Nests result room.nest }
{
    let inner = inner?;
    Ok(Read {
        tree: Command::Block(inner.tree),
        height: inner.height + 1,
        rest: inner.rest,
    })
}

/// RESULTIS and its value.
pub fn result_of<'s, 't>(
    room: Limits,
    value: ReadResult<'s, 't, Exp<'s>>,
) -> ReadResult<'s, 't, Command<'s>>
    requires room { 0 < room.nest }
    requires value { Nests value (room.nest - 1) }
    ensures read { Made exp_view value.entry command_view result (around tree.ResultIs) }
    ensures low { Nests result room.nest }
{
    let value = value?;
    Ok(Read {
        tree: Command::ResultIs(value.tree),
        height: value.height + 1,
        rest: value.rest,
    })
}

/// IF, UNLESS, WHILE or UNTIL, with its test and its body.
pub fn tested<'s, 't>(
    room: Limits,
    word: Tested,
    test: Read<'s, 't, Box<Exp<'s>>>,
    found: ReadResult<'s, 't, Block<'s>>,
) -> ReadResult<'s, 't, Command<'s>>
    requires room { test.height < room.nest }
    requires found { Nests found (room.nest - 1) }
    ensures read { Made block_view found.entry command_view result
        (joined test.entry.height (tested_command word (exp_view test.entry.tree.value))) }
    ensures low { Nests result room.nest }
{
    let found = found?;
    Ok(Read {
        tree: tested_of(word, test.tree, found.tree),
        height: test.height.max(found.height) + 1,
        rest: found.rest,
    })
}

/// TEST with its test and both bodies.
pub fn test<'s, 't>(
    room: Limits,
    test: Read<'s, 't, Box<Exp<'s>>>,
    this: Read<'s, 't, Block<'s>>,
    that: ReadResult<'s, 't, Block<'s>>,
) -> ReadResult<'s, 't, Command<'s>>
    requires room { test.height < room.nest }
    requires this { this.height < room.nest }
    requires that { Nests that (room.nest - 1) }
    ensures read { Made block_view that.entry command_view result
        (joined (max test.entry.height this.entry.height) (tree.Test (exp_view test.entry.tree.value) (block_view this.entry.tree))) }
    ensures low { Nests result room.nest }
{
    let that = that?;
    Ok(Read {
        tree: test_of(test.tree, this.tree, that.tree),
        height: test.height.max(this.height).max(that.height) + 1,
        rest: that.rest,
    })
}

/// SWITCHON with its value and its items.
pub fn switch<'s, 't>(
    room: Limits,
    value: Read<'s, 't, Box<Exp<'s>>>,
    found: ReadResult<'s, 't, Parts<'s>>,
) -> ReadResult<'s, 't, Command<'s>>
    requires room { value.height < room.nest }
    requires found { Nests found (room.nest - 1) }
    ensures read { Made parts_view found.entry command_view result
        (joined value.entry.height (λ p. tree.SwitchOn (exp_view value.entry.tree.value) p.1)) }
    ensures low { Nests result room.nest }
{
    let found = found?;
    Ok(Read {
        tree: switch_of(value.tree, found.tree),
        height: value.height.max(found.height) + 1,
        rest: found.rest,
    })
}

/// A block of these declarations and items.
pub fn block_from<'s, 't>(
    room: Limits,
    found: ReadResult<'s, 't, Parts<'s>>,
) -> ReadResult<'s, 't, Block<'s>>
    requires { Nests found room.nest }
    ensures read { Made parts_view found.entry block_view result (λ p. Ok (piece (tree.block p.tree.0 p.tree.1) p.height p.rest)) }
    ensures low { Nests result room.nest }
{
    let found = found?;
    let Parts {
        declarations,
        items,
    } = found.tree;
    let tree = Block {
        declarations,
        items,
    };
    Ok(Read {
        tree,
        height: found.height,
        rest: found.rest,
    })
}

/// A command as a body.
pub fn body_of<'s, 't>(
    room: Limits,
    whole: ReadResult<'s, 't, Command<'s>>,
) -> ReadResult<'s, 't, Block<'s>>
    requires { Nests whole room.nest }
    ensures read { Made command_view whole.entry block_view result body_of_command }
    ensures low { Nests result room.nest }
{
    body_from(room.alloc, whole?)
}

/// Labels with one more, `CASE value:`, whose colon is read here.
pub fn case_of<'s, 't>(
    room: Limits,
    value: ReadResult<'s, 't, Box<Exp<'s>>>,
    list: Read<'s, 't, Vec<Label<'s>>>,
) -> Result<Step<'s, 't, Vec<Label<'s>>>, ReadFault>
    requires list { list.height ≤ room.nest }
    requires value { Nests value room.nest }
    ensures read { MadeTurn (box_view exp_view) value.entry (list_view labels_view) result (λ k. expect_of sign.Colon k.rest ~> λ rest. Ok
        (piece (add_label (labels_view list.entry.tree.items) (tree.Case k.tree)) (max list.entry.height k.height) rest, false)) }
    ensures low { NestsTurn result room.nest }
{
    let value = value?;
    let rest = cursor::expect(Symbol::Colon, value.rest)?;
    let tree = boxes::case_added(list.tree, value.tree)?;
    Ok(Step::More(Read {
        tree,
        height: list.height.max(value.height),
        rest,
    }))
}

/// One more item, with these labels and this command.
pub fn command_item<'s, 't>(
    room: Limits,
    remaining: ReadResult<'s, 't, Command<'s>>,
    list: Read<'s, 't, Parts<'s>>,
    found: Read<'s, 't, Vec<Label<'s>>>,
) -> ReadResult<'s, 't, Parts<'s>>
    requires list { list.height ≤ room.nest }
    requires found { found.height ≤ room.nest }
    requires remaining { Nests remaining room.nest }
    ensures read { (r : Result (Piece tree.Command) Fault) → Reads command_view remaining.entry r → Reads parts_view result
        ((r ~> λ c. Ok (piece (tree.Labelled (labels_view found.entry.tree.items) c.tree) (max found.entry.height c.height) c.rest)) ~> λ i. Ok
        (piece (declarations_view list.entry.tree.declarations.items, add_item (items_view list.entry.tree.items.items) i.tree)
        (max list.entry.height i.height) i.rest)) }
    ensures low { Nests result room.nest }
{
    let remaining = remaining?;
    let Parts {
        declarations,
        items,
    } = list.tree;
    let items = boxes::command_added(items, found.tree, remaining.tree)?;
    let tree = Parts {
        declarations,
        items,
    };
    let height = found.height.max(remaining.height);
    Ok(Read {
        tree,
        height: list.height.max(height),
        rest: remaining.rest,
    })
}

/// One more declaration.
pub fn declared<'s, 't>(
    room: Limits,
    found: ReadResult<'s, 't, Declaration<'s>>,
    list: Read<'s, 't, Parts<'s>>,
) -> ReadResult<'s, 't, Parts<'s>>
    requires list { list.height ≤ room.nest }
    requires found { Nests found room.nest }
    ensures read { Made declaration_view found.entry parts_view result (λ d. Ok (piece
        (add_declaration (declarations_view list.entry.tree.declarations.items) d.tree, items_view list.entry.tree.items.items)
        (max list.entry.height d.height) d.rest)) }
    ensures low { Nests result room.nest }
{
    let found = found?;
    let Parts {
        declarations,
        items,
    } = list.tree;
    let declarations = boxes::declaration_added(declarations, found.tree)?;
    let tree = Parts {
        declarations,
        items,
    };
    Ok(Read {
        tree,
        height: list.height.max(found.height),
        rest: found.rest,
    })
}

/// A LET.
pub fn let_of<'s, 't>(
    room: Limits,
    found: ReadResult<'s, 't, Vec<Definition<'s>>>,
) -> ReadResult<'s, 't, Declaration<'s>>
    requires { Nests found room.nest }
    ensures read { Made (list_view definitions_view) found.entry declaration_view result (λ ds. Ok (piece (tree.Let ds.tree) ds.height ds.rest)) }
    ensures low { Nests result room.nest }
{
    let found = found?;
    Ok(Read {
        tree: Declaration::Let(found.tree),
        height: found.height,
        rest: found.rest,
    })
}

/// A list of constants of this storage.
pub fn constants<'s, 't>(
    room: Limits,
    storage: Storage,
    found: ReadResult<'s, 't, Vec<Constant<'s>>>,
) -> ReadResult<'s, 't, Declaration<'s>>
    requires { Nests found room.nest }
    ensures read { Made (list_view entries_view) found.entry declaration_view result (λ es. Ok (piece (tree.Constants storage es.tree) es.height es.rest)) }
    ensures low { Nests result room.nest }
{
    let found = found?;
    Ok(Read {
        tree: Declaration::Constants(storage, found.tree),
        height: found.height,
        rest: found.rest,
    })
}

/// One more constant, with this name.
pub fn constant<'s, 't>(
    room: Limits,
    name: &'s [u8],
    value: ReadResult<'s, 't, Exp<'s>>,
    list: Read<'s, 't, Vec<Constant<'s>>>,
) -> ReadResult<'s, 't, Vec<Constant<'s>>>
    requires list { list.height ≤ room.nest }
    requires value { Nests value room.nest }
    ensures read { Made exp_view value.entry (list_view entries_view) result (λ k. Ok
        (piece (add_entry (entries_view list.entry.tree.items) name.entry.now k.tree) (max list.entry.height k.height) k.rest)) }
    ensures low { Nests result room.nest }
{
    let value = value?;
    let tree = boxes::constant_added(list.tree, name, value.tree)?;
    Ok(Read {
        tree,
        height: list.height.max(value.height),
        rest: value.rest,
    })
}

/// Definitions with one more. It is the last if no AND follows.
pub fn definitions_more<'s, 't>(
    room: Limits,
    next: ReadResult<'s, 't, Definition<'s>>,
    list: Read<'s, 't, Vec<Definition<'s>>>,
) -> Result<Step<'s, 't, Vec<Definition<'s>>>, ReadFault>
    requires list { list.height ≤ room.nest }
    requires next { Nests next room.nest }
    ensures read { MadeTurn definition_view next.entry (list_view definitions_view) result (λ d.
        on (after_of sign.And d.rest)
        (Ok (piece (add_definition (definitions_view list.entry.tree.items) d.tree) (max list.entry.height d.height) d.rest, true))
        (λ after. Ok (piece (add_definition (definitions_view list.entry.tree.items) d.tree) (max list.entry.height d.height) after, false))) }
    ensures low { NestsTurn result room.nest }
{
    let next = next?;
    let tree = boxes::definition_added(list.tree, next.tree)?;
    let height = list.height.max(next.height);
    let rest = next.rest;
    Ok(match cursor::after(Symbol::And, rest) {
        None => Step::Last(Read { tree, height, rest }),
        Some(rest) => Step::More(Read { tree, height, rest }),
    })
}

/// A vector with this name.
pub fn vector<'s, 't>(
    room: Limits,
    name: &'s [u8],
    size: ReadResult<'s, 't, Exp<'s>>,
) -> ReadResult<'s, 't, Definition<'s>>
    requires room { 0 < room.nest }
    requires size { Nests size (room.nest - 1) }
    ensures read { Made exp_view size.entry definition_view result (around (tree.Vector name.entry.now)) }
    ensures low { Nests result room.nest }
{
    let size = size?;
    Ok(Read {
        tree: Definition::Vector(name, size.tree),
        height: size.height + 1,
        rest: size.rest,
    })
}

/// Variables and their initialisers. Expected, if there are fewer initialisers than names.
pub fn variables<'s, 't>(
    room: Limits,
    found: Vec<&'s [u8]>,
    values: ReadResult<'s, 't, Vec<Exp<'s>>>,
) -> ReadResult<'s, 't, Definition<'s>>
    requires room { 0 < room.nest }
    requires values { Nests values (room.nest - 1) }
    ensures read { Made (list_view exps_view) values.entry definition_view result
        (variables_of (names_view found.entry.items)) }
    ensures low { Nests result room.nest }
{
    let values = values?;
    if exp_count(&values.tree) != name_count(&found) {
        return Err(ReadFault::Expected(values.rest.parts.len()));
    }
    Ok(Read {
        tree: Definition::Variables(found, values.tree),
        height: values.height + 1,
        rest: values.rest,
    })
}

/// A function with this name and these parameters.
pub fn function<'s, 't>(
    room: Limits,
    name: &'s [u8],
    found: Vec<&'s [u8]>,
    value: ReadResult<'s, 't, Exp<'s>>,
) -> ReadResult<'s, 't, Definition<'s>>
    requires room { 0 < room.nest }
    requires value { Nests value (room.nest - 1) }
    ensures read { Made exp_view value.entry definition_view result
        (around (tree.Function name.entry.now (names_view found.entry.items))) }
    ensures low { Nests result room.nest }
{
    let value = value?;
    Ok(Read {
        tree: Definition::Function(name, found, value.tree),
        height: value.height + 1,
        rest: value.rest,
    })
}

/// A routine with this name and these parameters.
pub fn routine<'s, 't>(
    room: Limits,
    name: &'s [u8],
    found: Vec<&'s [u8]>,
    body: ReadResult<'s, 't, Block<'s>>,
) -> ReadResult<'s, 't, Definition<'s>>
    requires room { 0 < room.nest }
    requires body { Nests body (room.nest - 1) }
    ensures read { Made block_view body.entry definition_view result
        (around (tree.Routine name.entry.now (names_view found.entry.items))) }
    ensures low { Nests result room.nest }
{
    let body = body?;
    Ok(Read {
        tree: Definition::Routine(name, found, body.tree),
        height: body.height + 1,
        rest: body.rest,
    })
}
