//! The readers of expressions.
ghost use Rattle.std.specs.Prelude.{◌≡◌, ◌+◌, ◌<◌, ◌≤◌, ℕ, length, IfOk};
ghost use Rattle.bc_parse_tree.specs.Spelling.{count};
ghost use Rattle.bc_parse_tree.specs.Tree as tree;
ghost use Rattle.bc_parse_tree.specs.View.{exp_view, exps_view};
ghost use Rattle.bc_parse_defs.specs.Reading.{exp_of, command_of, definition_of, exps_read};
ghost use Rattle.bc_parse_defs.specs.Reading.{arguments_read, suffix_read, grow_turn, grow_read, started_read};
ghost use Rattle.bc_parse_defs.specs.Reading.{operand_read, Operator, Arguments, Choice};
ghost use Rattle.bc_parse_defs.specs.declared.words.Start.TheVariants as start;
ghost use Rattle.bc_parse.specs.Seen.{seen, read_view, list_view, box_view, levelled_view, Reads, Takes};
ghost use Rattle.bc_parse.specs.Seen.{turn_height};
ghost use Rattle.bc_parse.specs.Partial.{choice_rest};

use crate::blocks::body;
use crate::cursor::{FollowingPart, Rest};
use crate::fault::ReadFault;
use crate::levels::{CHOICE, CONSTANT, PRIMARY};
use crate::read::{Limits, Read, ReadResult, Step};
use crate::{boxes, construction, cursor};
use bc_lex_tokens::Symbol;
use bc_parse_defs::words;
use bc_parse_defs::words::Start;
use bc_parse_tree::{BinaryOp, Exp, UnaryOp};

/// An expression as far as it was read, with its level.
#[derive(Drop)]
pub struct Levelled<'s> {
    /// The expression.
    pub exp: Exp<'s>,
    /// Its level, from 1 to 12.
    pub level: usize,
}

/// An expression of at least this level.
#[cycle(parser)]
#[tactic(auto, unfolding(bc_parse_defs::specs::Reading::exp_of))]
pub fn exp<'s, 't>(room: Limits, level: usize, rest: Rest<'s, 't>) -> ReadResult<'s, 't, Exp<'s>>
    ensures read { (n : ℕ) → room.nest + room.round ≤ n → Reads exp_view result (exp_of n room.nest room.round level (seen rest.entry)) }
    ensures low { IfOk result (λ x. x.height ≤ room.nest) }
{
    if room.nest == 0 {
        return Err(ReadFault::TooDeep(rest.parts.len()));
    }
    let first = operand(room, rest)?;
    suffixes(room, level, rest.parts.len(), first)
}

/// An expression of at least this level, in a box.
#[cycle(parser)]
pub fn boxed_exp<'s, 't>(
    room: Limits,
    level: usize,
    rest: Rest<'s, 't>,
) -> ReadResult<'s, 't, Box<Exp<'s>>>
    ensures read { (n : ℕ) → room.nest + room.round ≤ n → Reads (box_view exp_view) result (exp_of n room.nest room.round level (seen rest.entry)) }
    ensures low { IfOk result (λ x. x.height ≤ room.nest) }
{
    construction::exp_boxed(room, exp(room, level, rest))
}

/// An operand.
#[cycle(parser)]
#[tactic(auto, unfolding(bc_parse_defs::specs::Reading::operand_read))]
fn operand<'s, 't>(room: Limits, rest: Rest<'s, 't>) -> ReadResult<'s, 't, Levelled<'s>>
    requires { 0 < room.nest }
    ensures read { (n : ℕ) → room.nest + room.round ≤ n + 1 →
        Reads levelled_view result (operand_read (exp_of n) (command_of n) (definition_of n) room.nest room.round (seen rest.entry)) }
    ensures low { IfOk result (λ x. x.height ≤ room.nest) }
{
    if let Some((exp, rest)) = cursor::leaf(rest) {
        let tree = Levelled {
            exp,
            level: PRIMARY,
        };
        return Ok(Read {
            tree,
            height: 1,
            rest,
        });
    }
    match cursor::start_word(rest) {
        None => Err(ReadFault::Expected(rest.parts.len())),
        Some((word, remaining)) => operand_rest(room, rest.parts.len(), word, remaining),
    }
}

/// An operand, after its first part, whose place is `place`.
#[cycle(parser)]
#[tactic(auto, unfolding(bc_parse_defs::specs::Reading::started_read, bc_parse_defs::specs::Reading::table_read, bc_parse_defs::specs::Reading::valof_read, bc_parse_defs::specs::Reading::unary_read))]
fn operand_rest<'s, 't>(
    room: Limits,
    place: usize,
    word: Start,
    rest: Rest<'s, 't>,
) -> ReadResult<'s, 't, Levelled<'s>>
    requires { 0 < room.nest }
    ensures read { (n : ℕ) → room.nest + room.round ≤ n + 1 →
        Reads levelled_view result (started_read (exp_of n) (command_of n) (definition_of n) room.nest room.round place word (seen rest.entry)) }
    ensures low { IfOk result (λ x. x.height ≤ room.nest) }
{
    let inner = Limits {
        nest: room.nest - 1,
        ..room
    };
    match word {
        Start::Bracket => bracket(room, place, rest),
        Start::Table => construction::table_of(
            room,
            exps(inner, CONSTANT, rest.parts.len() + 1, rest),
        ),
        Start::Valof => construction::valof_of(room, body(inner, rest)),
        Start::Unary(op) => {
            construction::unary_of(room, op, boxed_exp(inner, words::level_after(op), rest))
        }
    }
}

/// An expression in parentheses, after its `(`, whose place is `place`.
#[cycle(parser)]
#[tactic(auto, unfolding(bc_parse_defs::specs::Reading::started_read, bc_parse_defs::specs::Reading::bracket_read))]
fn bracket<'s, 't>(
    room: Limits,
    place: usize,
    rest: Rest<'s, 't>,
) -> ReadResult<'s, 't, Levelled<'s>>
    ensures read { (n : ℕ) → room.nest + room.round ≤ n + 1 →
        Reads levelled_view result (started_read (exp_of n) (command_of n) (definition_of n) room.nest room.round place start.Bracket (seen rest.entry)) }
    ensures low { IfOk result (λ x. x.height ≤ room.nest) }
{
    if room.round == 0 {
        return Err(ReadFault::TooDeep(place));
    }
    let inner = Limits {
        round: room.round - 1,
        ..room
    };
    construction::bracket_of(room, exp(inner, CHOICE, rest))
}

/// An expression from its first operand on: the operators, calls and choices that follow. `begin` is the place where
/// it begins.
#[cycle(parser)]
#[tactic(auto, unfolding(bc_parse_defs::specs::Reading::grow_read))]
fn suffixes<'s, 't>(
    room: Limits,
    level: usize,
    begin: usize,
    first: Read<'s, 't, Levelled<'s>>,
) -> ReadResult<'s, 't, Exp<'s>>
    requires { first.height ≤ room.nest }
    ensures read { (n : ℕ) → room.nest + room.round ≤ n + 1 →
        Reads exp_view result (grow_read (exp_of n) room.nest room.round begin level (read_view levelled_view first.entry)) }
    ensures low { IfOk result (λ x. x.height ≤ room.nest) }
{
    let turns = first.rest.parts.len() + 1;
    let mut left = first;
    for _ in 0..turns {
        match suffix_step(room, level, begin, left)? {
            Step::Last(whole) => {
                return Ok(Read {
                    tree: whole.tree.exp,
                    height: whole.height,
                    rest: whole.rest,
                });
            }
            Step::More(longer) => left = longer,
        }
    }
    Err(boxes::no_turn_left(left))
}

/// One step of an expression: its end, or one operator, call or choice.
#[cycle(parser)]
#[tactic(auto, unfolding(bc_parse_defs::specs::Reading::grow_turn))]
fn suffix_step<'s, 't>(
    room: Limits,
    level: usize,
    begin: usize,
    left: Read<'s, 't, Levelled<'s>>,
) -> Result<Step<'s, 't, Levelled<'s>>, ReadFault>
    requires { left.height ≤ room.nest }
    ensures read { (n : ℕ) → room.nest + room.round ≤ n + 1 →
        Takes levelled_view result (grow_turn (exp_of n) room.nest room.round begin level (read_view levelled_view left.entry)) }
    ensures low { IfOk result (λ x. turn_height x ≤ room.nest) }
{
    match cursor::following_at(level, left.tree.level, left.rest) {
        FollowingPart::Ends => Ok(Step::Last(left)),
        FollowingPart::Operator(op, rest) => construction::extended(
            room,
            operated(room, op, left, rest),
        ),
        FollowingPart::Arguments(rest) => construction::extended(room, called(room, left, rest)),
        FollowingPart::Choice(rest) => construction::extended(
            room,
            chosen(room, begin, left, rest),
        ),
    }
}

/// The operand `left`, with a binary operator and its right operand.
#[cycle(parser)]
#[tactic(auto, unfolding(bc_parse_defs::specs::Reading::suffix_read, bc_parse_defs::specs::Reading::with_operator))]
fn operated<'s, 't>(
    room: Limits,
    op: BinaryOp,
    left: Read<'s, 't, Levelled<'s>>,
    rest: Rest<'s, 't>,
) -> ReadResult<'s, 't, Levelled<'s>>
    ensures read { (n : ℕ) → room.nest + room.round ≤ n + 1 → (begin : ℕ) →
        Reads levelled_view result (suffix_read (exp_of n) room.nest room.round begin (Operator op (seen rest.entry))
        (exp_view left.entry.tree.exp) left.entry.height (length (seen left.entry.rest))) }
    ensures low { IfOk result (λ x. x.height ≤ room.nest) }
{
    if left.height >= room.nest {
        return Err(boxes::too_deep(left));
    }
    let inner = Limits {
        nest: room.nest - 1,
        ..room
    };
    let level = words::level(op);
    let height = left.height;
    let left = boxes::exp(room.alloc, left.tree.exp)?;
    construction::binary_of(room, op, height, left, boxed_exp(inner, level + 1, rest))
}

/// A call of the routine `left`.
#[cycle(parser)]
#[tactic(auto, unfolding(bc_parse_defs::specs::Reading::suffix_read, bc_parse_defs::specs::Reading::with_arguments))]
fn called<'s, 't>(
    room: Limits,
    left: Read<'s, 't, Levelled<'s>>,
    rest: Rest<'s, 't>,
) -> ReadResult<'s, 't, Levelled<'s>>
    ensures read { (n : ℕ) → room.nest + room.round ≤ n + 1 → (begin : ℕ) →
        Reads levelled_view result (suffix_read (exp_of n) room.nest room.round begin (Arguments (seen rest.entry))
        (exp_view left.entry.tree.exp) left.entry.height (length (seen left.entry.rest))) }
    ensures low { IfOk result (λ x. x.height ≤ room.nest) }
{
    if left.height >= room.nest || room.round == 0 {
        return Err(boxes::too_deep(left));
    }
    let inner = Limits {
        nest: room.nest - 1,
        round: room.round - 1,
        ..room
    };
    let height = left.height;
    let routine = boxes::exp(room.alloc, left.tree.exp)?;
    construction::call_from(room, height, routine, arguments(inner, rest))
}

/// A choice with the test `left`.
#[cycle(parser)]
#[tactic(auto, unfolding(bc_parse_defs::specs::Reading::suffix_read, bc_parse_defs::specs::Reading::with_choice))]
fn chosen<'s, 't>(
    room: Limits,
    begin: usize,
    left: Read<'s, 't, Levelled<'s>>,
    rest: Rest<'s, 't>,
) -> ReadResult<'s, 't, Levelled<'s>>
    ensures read { (n : ℕ) → room.nest + room.round ≤ n + 1 → (place : ℕ) →
        Reads levelled_view result (suffix_read (exp_of n) room.nest room.round begin (Choice (seen rest.entry))
        (exp_view left.entry.tree.exp) left.entry.height place) }
    ensures low { IfOk result (λ x. x.height ≤ room.nest) }
{
    if left.height >= room.nest {
        return Err(boxes::too_deep_at(begin, left));
    }
    let inner = Limits {
        nest: room.nest - 1,
        ..room
    };
    let height = left.height;
    let test = boxes::exp(room.alloc, left.tree.exp)?;
    let this = boxed_exp(inner, CHOICE, rest)?;
    choice_rest(room, height.max(this.height), test, this)
}

/// The second value of a choice, after its comma. `height` is how deep the test and the first value nest.
#[cycle(parser)]
fn choice_rest<'s, 't>(
    room: Limits,
    height: usize,
    test: Box<Exp<'s>>,
    this: Read<'s, 't, Box<Exp<'s>>>,
) -> ReadResult<'s, 't, Levelled<'s>>
    requires { height < room.nest }
    ensures read { (n : ℕ) → room.nest + room.round ≤ n + 1 →
        Reads levelled_view result (choice_rest (exp_of n) room.nest room.round height
        (exp_view test.entry.value) (exp_view this.entry.tree.value) (seen this.entry.rest)) }
    ensures low { IfOk result (λ x. x.height ≤ room.nest) }
{
    let inner = Limits {
        nest: room.nest - 1,
        ..room
    };
    let rest = cursor::expect(Symbol::Comma, this.rest)?;
    construction::condition_of(
        room,
        height,
        test,
        this.tree,
        boxed_exp(inner, CHOICE, rest),
    )
}

/// The arguments of a call, after `(`. The `)` is read too.
#[cycle(parser)]
#[tactic(auto, unfolding(bc_parse_defs::specs::Reading::arguments_read))]
fn arguments<'s, 't>(room: Limits, rest: Rest<'s, 't>) -> ReadResult<'s, 't, Vec<Exp<'s>>>
    ensures read { (n : ℕ) → room.nest + room.round ≤ n →
        Reads (list_view exps_view) result (arguments_read (exp_of n) room.nest room.round (seen rest.entry)) }
    ensures low { IfOk result (λ x. x.height ≤ room.nest) }
{
    if let Some(rest) = cursor::after(Symbol::CloseBracket, rest) {
        let tree = Vec::new(room.alloc);
        return Ok(Read {
            tree,
            height: 0,
            rest,
        });
    }
    let found = exps(room, CHOICE, rest.parts.len() + 1, rest)?;
    let rest = cursor::expect(Symbol::CloseBracket, found.rest)?;
    Ok(Read { rest, ..found })
}

/// One or more expressions of at least this level, but at most `limit`, separated by commas.
#[cycle(parser)]
#[tactic(auto, unfolding(bc_parse_defs::specs::Reading::exps_read))]
pub fn exps<'s, 't>(
    room: Limits,
    level: usize,
    limit: usize,
    rest: Rest<'s, 't>,
) -> ReadResult<'s, 't, Vec<Exp<'s>>>
    ensures read { (n : ℕ) → room.nest + room.round ≤ n →
        Reads (list_view exps_view) result (exps_read (exp_of n) room.nest room.round level limit (seen rest.entry)) }
    ensures low { IfOk result (λ x. x.height ≤ room.nest) }
{
    let mut found = Read {
        tree: Vec::new(room.alloc),
        height: 0,
        rest,
    };
    for _ in 0..rest.parts.len() + 1 {
        match construction::exps_more(room, limit, exp(room, level, found.rest), found)? {
            Step::Last(list) => return Ok(list),
            Step::More(list) => found = list,
        }
    }
    Err(boxes::no_turn_left(found))
}

/// The number of expressions in a list.
#[tactic(auto, using(crate::proofs::Lists::count_exps_view))]
pub fn exp_count(list: &Vec<Exp<'_>>) -> usize
    ensures { result ≡ count (exps_view list.now.items) }
{
    list.len()
}
