//! The readers of commands.
//!
//! One construct is often read by several functions. Each member of the cycle is expensive to prove, and more so the
//! more trees it holds by value, so a function reads little, and a tree that waits for another one is in a box.
ghost use Rattle.std.specs.Prelude.{◌≡◌, ◌+◌, ◌<◌, ◌≤◌, ℕ, max, IfOk};
ghost use Rattle.std.specs.Prelude.{option_map};
ghost use Rattle.bc_parse_tree.specs.View.{exp_view, exps_view, command_view, block_view, items_view};
ghost use Rattle.bc_parse_tree.specs.Tree as tree;
ghost use Rattle.bc_parse_defs.specs.Reading.{piece, exp_of};
ghost use Rattle.bc_parse_defs.specs.Reading.{command_of, definition_of, repeat_turn, repeats_read};
ghost use Rattle.bc_parse_defs.specs.Reading.{assigned_read, simple_read, tested_read, test_read, step_read, for_read};
ghost use Rattle.bc_parse_defs.specs.Reading.{switch_read, compound_read, repeatable_read, command_read, call_in};
ghost use Rattle.bc_parse_defs.specs.Reading.{tested_command};
ghost use Rattle.bc_parse.specs.Seen.{seen, read_view, list_view, Reads, Takes, turn_height, exp_option};
ghost use Rattle.bc_parse.specs.Partial.{call_alone, goto_rest, unrepeated_read, else_rest, for_by_rest, for_to_rest, cases_rest};

use crate::blocks::{Parts, block, body, do_body, places};
use crate::cursor::Rest;
use crate::expressions::{boxed_exp, exp, exp_count, exps};
use crate::fault::ReadFault;
use crate::levels::{CHOICE, CONSTANT};
use crate::read::{Limits, Read, ReadResult, Step};
use crate::{boxes, construction, cursor};
use bc_lex_tokens::Symbol;
use bc_parse_defs::words;
use bc_parse_defs::words::{CommandWord, Places, RepeatWord, SimpleWord, Tested};
use bc_parse_tree::{Block, Command, Exp};

/// A command, unless it would nest too deep.
#[cycle(parser)]
#[tactic(auto, unfolding(bc_parse_defs::specs::Reading::command_of))]
pub fn command<'s, 't>(room: Limits, rest: Rest<'s, 't>) -> ReadResult<'s, 't, Command<'s>>
    ensures read { (n : ℕ) → room.nest + room.round ≤ n → Reads command_view result (command_of n room.nest room.round (seen rest.entry)) }
    ensures low { IfOk result (λ x. x.height ≤ room.nest) }
{
    if room.nest == 0 {
        return Err(ReadFault::TooDeep(rest.parts.len()));
    }
    command_by_word(room, rest)
}

/// A command, by its first word.
#[cycle(parser)]
#[tactic(auto, unfolding(bc_parse_defs::specs::Reading::command_read))]
fn command_by_word<'s, 't>(room: Limits, rest: Rest<'s, 't>) -> ReadResult<'s, 't, Command<'s>>
    requires { 0 < room.nest }
    ensures read { (n : ℕ) → room.nest + room.round ≤ n + 1 →
        Reads command_view result (command_read (exp_of n) (command_of n) (definition_of n) room.nest room.round (seen rest.entry)) }
    ensures low { IfOk result (λ x. x.height ≤ room.nest) }
{
    match cursor::command_word(rest) {
        None => repeatable(room, rest),
        Some((word, remaining)) => compound(room, word, remaining),
    }
}

/// A command that REPEAT can follow, with its repetitions.
#[cycle(parser)]
#[tactic(auto, unfolding(bc_parse_defs::specs::Reading::repeatable_read))]
fn repeatable<'s, 't>(room: Limits, rest: Rest<'s, 't>) -> ReadResult<'s, 't, Command<'s>>
    requires { 0 < room.nest }
    ensures read { (n : ℕ) → room.nest + room.round ≤ n + 1 →
        Reads command_view result (repeatable_read (exp_of n) (command_of n) (definition_of n) room.nest room.round (seen rest.entry)) }
    ensures low { IfOk result (λ x. x.height ≤ room.nest) }
{
    let first = simple_command(room, rest)?;
    repeats(room, first)
}

/// A command that REPEAT can follow, without its repetitions.
#[cycle(parser)]
fn simple_command<'s, 't>(room: Limits, rest: Rest<'s, 't>) -> ReadResult<'s, 't, Command<'s>>
    requires { 0 < room.nest }
    ensures read { (n : ℕ) → room.nest + room.round ≤ n + 1 →
        Reads command_view result (unrepeated_read (exp_of n) (command_of n) (definition_of n) room.nest room.round (seen rest.entry)) }
    ensures low { IfOk result (λ x. x.height ≤ room.nest) }
{
    match cursor::simple_word(rest) {
        None => assigned(room, rest),
        Some((word, remaining)) => simple(room, word, remaining),
    }
}

/// A command with the repetitions that follow it.
#[cycle(parser)]
#[tactic(auto, unfolding(bc_parse_defs::specs::Reading::repeats_read))]
pub fn repeats<'s, 't>(
    room: Limits,
    first: Read<'s, 't, Command<'s>>,
) -> ReadResult<'s, 't, Command<'s>>
    requires { first.height ≤ room.nest }
    ensures read { (n : ℕ) → room.nest + room.round ≤ n + 1 →
        Reads command_view result (repeats_read (exp_of n) room.nest room.round (read_view command_view first.entry)) }
    ensures low { IfOk result (λ x. x.height ≤ room.nest) }
{
    let turns = first.rest.parts.len() + 1;
    let mut whole = first;
    for _ in 0..turns {
        match repeat_step(room, whole)? {
            Step::Last(found) => return Ok(found),
            Step::More(found) => whole = found,
        }
    }
    Err(boxes::no_turn_left(whole))
}

/// One repetition, if one follows.
#[cycle(parser)]
#[tactic(auto, unfolding(bc_parse_defs::specs::Reading::repeat_turn, bc_parse_defs::specs::Reading::repeated))]
fn repeat_step<'s, 't>(
    room: Limits,
    whole: Read<'s, 't, Command<'s>>,
) -> Result<Step<'s, 't, Command<'s>>, ReadFault>
    requires { whole.height ≤ room.nest }
    ensures read { (n : ℕ) → room.nest + room.round ≤ n + 1 →
        Takes command_view result (repeat_turn (exp_of n) room.nest room.round (read_view command_view whole.entry)) }
    ensures low { IfOk result (λ x. turn_height x ≤ room.nest) }
{
    match cursor::repeat_word(whole.rest) {
        None => Ok(Step::Last(whole)),
        Some((word, rest)) => {
            if whole.height >= room.nest {
                return Err(boxes::too_deep(whole));
            }
            let inner = Limits {
                nest: room.nest - 1,
                ..room
            };
            let height = whole.height;
            let body = boxes::command(room.alloc, whole.tree)?;
            match word {
                RepeatWord::Repeat => construction::repeated(room, height, body, rest),
                RepeatWord::While => construction::repeated_while(
                    room,
                    height,
                    body,
                    exp(inner, CHOICE, rest),
                ),
                RepeatWord::Until => construction::repeated_until(
                    room,
                    height,
                    body,
                    exp(inner, CHOICE, rest),
                ),
            }
        }
    }
}

/// An assignment or a call.
#[cycle(parser)]
#[tactic(auto, unfolding(bc_parse_defs::specs::Reading::assigned_read))]
fn assigned<'s, 't>(room: Limits, rest: Rest<'s, 't>) -> ReadResult<'s, 't, Command<'s>>
    requires { 0 < room.nest }
    ensures read { (n : ℕ) → room.nest + room.round ≤ n + 1 →
        Reads command_view result (assigned_read (exp_of n) (command_of n) (definition_of n) room.nest room.round (seen rest.entry)) }
    ensures low { IfOk result (λ x. x.height ≤ room.nest) }
{
    let inner = Limits {
        nest: room.nest - 1,
        ..room
    };
    let targets = exps(inner, CHOICE, rest.parts.len() + 1, rest)?;
    match cursor::after(Symbol::Assign, targets.rest) {
        None => call_of(room, targets),
        Some(then) => {
            let limit = exp_count(&targets.tree);
            construction::assignment(room, targets, exps(inner, CHOICE, limit, then))
        }
    }
}

/// A command without `:=`: one call, or a fault.
#[tactic(auto, using(crate::proofs::Views::call_view))]
fn call_of<'s, 't>(
    room: Limits,
    found: Read<'s, 't, Vec<Exp<'s>>>,
) -> ReadResult<'s, 't, Command<'s>>
    requires { found.height < room.nest }
    ensures read { Reads command_view result (call_alone (read_view (list_view exps_view) found.entry)) }
    ensures low { IfOk result (λ x. x.height ≤ room.nest) }
{
    match one_call(found.tree) {
        None => Err(ReadFault::Expected(found.rest.parts.len())),
        Some((routine, arguments)) => Ok(Read {
            tree: Command::Call(routine, arguments),
            height: found.height + 1,
            rest: found.rest,
        }),
    }
}

/// The routine and the arguments, if the list is one call.
fn one_call<'s>(list: Vec<Exp<'s>>) -> Option<(Box<Exp<'s>>, Vec<Exp<'s>>)>
    ensures { option_map (λ x. (exp_view x.0.value, exps_view x.1.items)) result ≡ call_in (exps_view list.entry.items) }
{
    let mut list = list;
    if list.len() != 1 {
        return None;
    }
    match list.pop() {
        Some(Exp::Call(routine, arguments)) => Some((routine, arguments)),
        _ => None,
    }
}

/// A command that REPEAT can follow, after its first word.
#[cycle(parser)]
#[tactic(auto, unfolding(bc_parse_defs::specs::Reading::simple_read))]
fn simple<'s, 't>(
    room: Limits,
    word: SimpleWord,
    rest: Rest<'s, 't>,
) -> ReadResult<'s, 't, Command<'s>>
    requires { 0 < room.nest }
    ensures read { (n : ℕ) → room.nest + room.round ≤ n + 1 →
        Reads command_view result (simple_read (exp_of n) (command_of n) (definition_of n) room.nest room.round word (seen rest.entry)) }
    ensures low { IfOk result (λ x. x.height ≤ room.nest) }
{
    let inner = Limits {
        nest: room.nest - 1,
        ..room
    };
    match word {
        SimpleWord::Block => construction::compound(room, block(inner, rest)),
        SimpleWord::Break => Ok(alone(Command::Break, rest)),
        SimpleWord::Loop => Ok(alone(Command::Loop, rest)),
        SimpleWord::EndCase => Ok(alone(Command::EndCase, rest)),
        SimpleWord::Return => Ok(alone(Command::Return, rest)),
        SimpleWord::Finish => Ok(alone(Command::Finish, rest)),
        SimpleWord::ResultIs => construction::result_of(room, exp(inner, CHOICE, rest)),
        SimpleWord::Goto => goto(rest),
    }
}

/// A command without further trees.
fn alone<'s, 't>(tree: Command<'s>, rest: Rest<'s, 't>) -> Read<'s, 't, Command<'s>>
    ensures read { read_view command_view result ≡ piece (command_view tree.entry) 1 (seen rest.entry) }
    ensures height { result.height ≡ 1 }
{
    Read {
        tree,
        height: 1,
        rest,
    }
}

/// GOTO, after its word.
fn goto<'s, 't>(rest: Rest<'s, 't>) -> ReadResult<'s, 't, Command<'s>>
    ensures read { Reads command_view result (goto_rest (seen rest.entry)) }
    ensures low { (m : ℕ) → 0 < m → IfOk result (λ x. x.height ≤ m) }
{
    let (name, rest) = cursor::name(rest)?;
    Ok(alone(Command::Goto(name), rest))
}

/// A command that REPEAT can't follow, after its first word.
#[cycle(parser)]
#[tactic(auto, unfolding(bc_parse_defs::specs::Reading::compound_read))]
fn compound<'s, 't>(
    room: Limits,
    word: CommandWord,
    rest: Rest<'s, 't>,
) -> ReadResult<'s, 't, Command<'s>>
    requires { 0 < room.nest }
    ensures read { (n : ℕ) → room.nest + room.round ≤ n + 1 →
        Reads command_view result (compound_read (exp_of n) (command_of n) (definition_of n) room.nest room.round word (seen rest.entry)) }
    ensures low { IfOk result (λ x. x.height ≤ room.nest) }
{
    match word {
        CommandWord::Tested(word) => tested(room, word, rest),
        CommandWord::Test => test(room, rest),
        CommandWord::For => for_command(room, rest),
        CommandWord::SwitchOn => switch_on(room, rest),
    }
}

/// IF, UNLESS, WHILE or UNTIL, after its word.
#[cycle(parser)]
#[tactic(auto, unfolding(bc_parse_defs::specs::Reading::tested_read))]
fn tested<'s, 't>(room: Limits, word: Tested, rest: Rest<'s, 't>) -> ReadResult<'s, 't, Command<'s>>
    requires { 0 < room.nest }
    ensures read { (n : ℕ) → room.nest + room.round ≤ n + 1 →
        Reads command_view result (tested_read (exp_of n) (command_of n) (definition_of n) word room.nest room.round (seen rest.entry)) }
    ensures low { IfOk result (λ x. x.height ≤ room.nest) }
{
    let inner = Limits {
        nest: room.nest - 1,
        ..room
    };
    let test = boxed_exp(inner, CHOICE, rest)?;
    let remaining = test.rest;
    construction::tested(room, word, test, do_body(inner, remaining))
}

/// IF, UNLESS, WHILE or UNTIL, as a tree.
pub fn tested_of<'s>(word: Tested, test: Box<Exp<'s>>, body: Block<'s>) -> Command<'s>
    ensures { command_view result ≡ tested_command word (exp_view test.entry.value) (block_view body.entry) }
{
    let test = Box::into_inner(test);
    match word {
        Tested::If => Command::If(test, body),
        Tested::Unless => Command::Unless(test, body),
        Tested::While => Command::While(test, body),
        Tested::Until => Command::Until(test, body),
    }
}

/// TEST, after its word.
#[cycle(parser)]
#[tactic(auto, unfolding(bc_parse_defs::specs::Reading::test_read))]
fn test<'s, 't>(room: Limits, rest: Rest<'s, 't>) -> ReadResult<'s, 't, Command<'s>>
    requires { 0 < room.nest }
    ensures read { (n : ℕ) → room.nest + room.round ≤ n + 1 →
        Reads command_view result (test_read (exp_of n) (command_of n) (definition_of n) room.nest room.round (seen rest.entry)) }
    ensures low { IfOk result (λ x. x.height ≤ room.nest) }
{
    let inner = Limits {
        nest: room.nest - 1,
        ..room
    };
    let test = boxed_exp(inner, CHOICE, rest)?;
    let this = do_body(inner, test.rest)?;
    test_else(room, test, this)
}

/// ELSE and the second body of a TEST.
#[cycle(parser)]
fn test_else<'s, 't>(
    room: Limits,
    test: Read<'s, 't, Box<Exp<'s>>>,
    this: Read<'s, 't, Block<'s>>,
) -> ReadResult<'s, 't, Command<'s>>
    requires test { test.height < room.nest }
    requires this { this.height < room.nest }
    ensures read { (n : ℕ) → room.nest + room.round ≤ n + 1 →
        Reads command_view result (else_rest (exp_of n) (command_of n) (definition_of n) room.nest room.round
        (max test.entry.height this.entry.height) (exp_view test.entry.tree.value) (block_view this.entry.tree) (seen this.entry.rest)) }
    ensures low { IfOk result (λ x. x.height ≤ room.nest) }
{
    let inner = Limits {
        nest: room.nest - 1,
        ..room
    };
    let rest = cursor::expect(Symbol::Else, this.rest)?;
    construction::test(room, test, this, body(inner, rest))
}

/// TEST, as a tree.
pub fn test_of<'s>(test: Box<Exp<'s>>, this: Block<'s>, that: Block<'s>) -> Command<'s>
    ensures { command_view result ≡ tree.Test (exp_view test.entry.value) (block_view this.entry) (block_view that.entry) }
{
    Command::Test { test, this, that }
}

/// The step of a FOR: BY and its constant, which may be missing.
#[cycle(parser)]
#[tactic(auto, unfolding(bc_parse_defs::specs::Reading::step_read))]
fn step<'s, 't>(room: Limits, rest: Rest<'s, 't>) -> ReadResult<'s, 't, Option<Box<Exp<'s>>>>
    ensures read { (n : ℕ) → room.nest + room.round ≤ n →
        Reads exp_option result (step_read (exp_of n) (command_of n) (definition_of n) room.nest room.round (seen rest.entry)) }
    ensures low { IfOk result (λ x. x.height ≤ room.nest) }
{
    match cursor::after(Symbol::By, rest) {
        None => Ok(Read {
            tree: None,
            height: 0,
            rest,
        }),
        Some(then) => {
            let value = boxed_exp(room, CONSTANT, then)?;
            Ok(Read {
                tree: Some(value.tree),
                height: value.height,
                rest: value.rest,
            })
        }
    }
}

/// FOR, after its word.
#[cycle(parser)]
#[tactic(auto, unfolding(bc_parse_defs::specs::Reading::for_read))]
fn for_command<'s, 't>(room: Limits, rest: Rest<'s, 't>) -> ReadResult<'s, 't, Command<'s>>
    requires { 0 < room.nest }
    ensures read { (n : ℕ) → room.nest + room.round ≤ n + 1 →
        Reads command_view result (for_read (exp_of n) (command_of n) (definition_of n) room.nest room.round (seen rest.entry)) }
    ensures low { IfOk result (λ x. x.height ≤ room.nest) }
{
    let inner = Limits {
        nest: room.nest - 1,
        ..room
    };
    let (variable, rest) = cursor::name(rest)?;
    let rest = cursor::expect(Symbol::Equal, rest)?;
    let start = boxed_exp(inner, CHOICE, rest)?;
    for_to(room, variable, start)
}

/// The rest of a FOR from TO on.
#[cycle(parser)]
fn for_to<'s, 't>(
    room: Limits,
    variable: &'s [u8],
    start: Read<'s, 't, Box<Exp<'s>>>,
) -> ReadResult<'s, 't, Command<'s>>
    requires { start.height < room.nest }
    ensures read { (n : ℕ) → room.nest + room.round ≤ n + 1 →
        Reads command_view result (for_to_rest (exp_of n) (command_of n) (definition_of n) room.nest room.round
        start.entry.height variable.entry.now (exp_view start.entry.tree.value) (seen start.entry.rest)) }
    ensures low { IfOk result (λ x. x.height ≤ room.nest) }
{
    let inner = Limits {
        nest: room.nest - 1,
        ..room
    };
    let rest = cursor::expect(Symbol::To, start.rest)?;
    let limit = boxed_exp(inner, CHOICE, rest)?;
    for_by(room, variable, start, limit)
}

/// The rest of a FOR from BY on.
#[cycle(parser)]
fn for_by<'s, 't>(
    room: Limits,
    variable: &'s [u8],
    start: Read<'s, 't, Box<Exp<'s>>>,
    limit: Read<'s, 't, Box<Exp<'s>>>,
) -> ReadResult<'s, 't, Command<'s>>
    requires start { start.height < room.nest }
    requires limit { limit.height < room.nest }
    ensures read { (n : ℕ) → room.nest + room.round ≤ n + 1 →
        Reads command_view result (for_by_rest (exp_of n) (command_of n) (definition_of n) room.nest room.round
        (max start.entry.height limit.entry.height) variable.entry.now (exp_view start.entry.tree.value)
        (exp_view limit.entry.tree.value) (seen limit.entry.rest)) }
    ensures low { IfOk result (λ x. x.height ≤ room.nest) }
{
    let inner = Limits {
        nest: room.nest - 1,
        ..room
    };
    let step = step(inner, limit.rest)?;
    let found = do_body(inner, step.rest)?;
    let height = start.height.max(limit.height).max(step.height);
    let tree = Command::For {
        variable,
        start: start.tree,
        limit: limit.tree,
        step: step.tree,
        body: found.tree,
    };
    Ok(Read {
        tree,
        height: height.max(found.height) + 1,
        rest: found.rest,
    })
}

/// SWITCHON, after its word.
#[cycle(parser)]
#[tactic(auto, unfolding(bc_parse_defs::specs::Reading::switch_read))]
fn switch_on<'s, 't>(room: Limits, rest: Rest<'s, 't>) -> ReadResult<'s, 't, Command<'s>>
    requires { 0 < room.nest }
    ensures read { (n : ℕ) → room.nest + room.round ≤ n + 1 →
        Reads command_view result (switch_read (exp_of n) (command_of n) (definition_of n) room.nest room.round (seen rest.entry)) }
    ensures low { IfOk result (λ x. x.height ≤ room.nest) }
{
    let inner = Limits {
        nest: room.nest - 1,
        ..room
    };
    let value = boxed_exp(inner, CHOICE, rest)?;
    let rest = cursor::expect(Symbol::Into, value.rest)?;
    switch_cases(room, value, rest)
}

/// The items of a SWITCHON, from `$(` on.
#[cycle(parser)]
fn switch_cases<'s, 't>(
    room: Limits,
    value: Read<'s, 't, Box<Exp<'s>>>,
    rest: Rest<'s, 't>,
) -> ReadResult<'s, 't, Command<'s>>
    requires { value.height < room.nest }
    ensures read { (n : ℕ) → room.nest + room.round ≤ n + 1 →
        Reads command_view result (cases_rest (exp_of n) (command_of n) (definition_of n) room.nest room.round
        value.entry.height (exp_view value.entry.tree.value) (seen rest.entry)) }
    ensures low { IfOk result (λ x. x.height ≤ room.nest) }
{
    let inner = Limits {
        nest: room.nest - 1,
        ..room
    };
    let rest = cursor::expect(Symbol::OpenSection, rest)?;
    construction::switch(room, value, places(inner, Places::Cases, rest))
}

/// SWITCHON, as a tree.
pub fn switch_of<'s>(value: Box<Exp<'s>>, found: Parts<'s>) -> Command<'s>
    ensures { command_view result ≡ tree.SwitchOn (exp_view value.entry.value) (items_view found.entry.items.items) }
{
    Command::SwitchOn(Box::into_inner(value), found.items)
}
