//! The position of the parser in the closed list, and what the first parts there are. No function here needs a proof
//! file.
ghost use Rattle.std.specs.Prelude.{◌≡◌, ◌||◌, ℕ, [], ◌∷◌, length, option_map, Some, None, MatchOption};
ghost use Rattle.bc_parse_tree.specs.Parts.{part};
ghost use Rattle.bc_parse_tree.specs.View.{exp_view};
ghost use Rattle.bc_parse.specs.Seen.{seen, Gives};
ghost use Rattle.bc_parse.specs.SeenFollow.{follow_view, label_at_view, shape_view};
ghost use Rattle.bc_parse_defs.specs.Reading.{after_of, expect_of, separator_of, name_in, name_of, leaf_of, word_in, start_of, command_word_of, simple_word_of, repeat_word_of, declaration_word_of, following, operator_of, label_start, shape_of, past_do, past_line, end_of, is_place_end, constant_sign_of};

use crate::fault::ReadFault;
use crate::levels::{CHOICE, CONSTANT, PRIMARY};
use bc_lex_tokens::Symbol;
use bc_parse_defs::words;
use bc_parse_defs::words::{CommandWord, DeclarationWord, Places, RepeatWord, SimpleWord, Start};
use bc_parse_tree::{BinaryOp, Exp, Part};
use bc_word::Word;

/// The remaining parts.
#[derive(Clone, Copy)]
pub struct Rest<'s, 't> {
    /// The parts from here to the end.
    pub parts: &'t [Part<'s>],
}

/// The first part, and the parts after it; None at the end.
fn first<'s, 't>(rest: Rest<'s, 't>) -> Option<(&'t Part<'s>, Rest<'s, 't>)>
    ensures { MatchOption result (seen rest.entry ≡ []) (λ x. seen rest.entry ≡ part x.0.now ∷ seen x.1) }
{
    let (part, parts) = rest.parts.split_first()?;
    Some((part, Rest { parts }))
}

/// The symbol that comes first, and the parts after it.
fn symbol<'s, 't>(rest: Rest<'s, 't>) -> Option<(Symbol, Rest<'s, 't>)>
    ensures { option_map (λ x. (x.0, seen x.1)) result ≡ word_in Some (seen rest.entry) }
{
    match first(rest) {
        Some((Part::Symbol(symbol), remaining)) => Some((*symbol, remaining)),
        _ => None,
    }
}

/// The parts after this symbol, if it comes first.
pub fn after<'s, 't>(wanted: Symbol, rest: Rest<'s, 't>) -> Option<Rest<'s, 't>>
    ensures { option_map (λ x. seen x) result ≡ after_of wanted (seen rest.entry) }
{
    match first(rest) {
        Some((Part::Symbol(symbol), remaining)) => if symbol.is(wanted) {
            Some(remaining)
        } else {
            None
        },
        _ => None,
    }
}

/// The parts after a semicolon, or after a line break that counts as one, if it comes first.
pub fn separator<'s, 't>(rest: Rest<'s, 't>) -> Option<Rest<'s, 't>>
    ensures { option_map (λ x. seen x) result ≡ separator_of (seen rest.entry) }
{
    match first(rest) {
        Some((Part::NewLine, remaining)) => Some(remaining),
        _ => after(Symbol::Semicolon, rest),
    }
}

/// The parts after this symbol, which must come first.
pub fn expect<'s, 't>(wanted: Symbol, rest: Rest<'s, 't>) -> Result<Rest<'s, 't>, ReadFault>
    ensures { Gives (λ x. seen x) result (expect_of wanted (seen rest.entry)) }
{
    match after(wanted, rest) {
        Some(rest) => Ok(rest),
        None => Err(ReadFault::Expected(rest.parts.len())),
    }
}

/// The name that comes first, and the parts after it; anything else is a fault.
pub fn name<'s, 't>(rest: Rest<'s, 't>) -> Result<(&'s [u8], Rest<'s, 't>), ReadFault>
    ensures { Gives (λ x. (x.0.now, seen x.1)) result (name_of (seen rest.entry)) }
{
    match first(rest) {
        Some((Part::Name(name), remaining)) => Ok((*name, remaining)),
        _ => Err(ReadFault::Expected(rest.parts.len())),
    }
}

/// The expression of one part that comes first, and the parts after it; None if there is none.
pub fn leaf<'s, 't>(rest: Rest<'s, 't>) -> Option<(Exp<'s>, Rest<'s, 't>)>
    ensures { option_map (λ x. (exp_view x.0, seen x.1)) result ≡ leaf_of (seen rest.entry) }
{
    match first(rest) {
        Some((Part::Name(name), remaining)) => Some((Exp::Name(*name), remaining)),
        Some((Part::Number(word), remaining)) => Some((Exp::Num(Word::new(*word)), remaining)),
        Some((Part::Character(word), remaining)) => Some((
            Exp::Character(Word::new(*word)),
            remaining,
        )),
        Some((Part::String(text), remaining)) => Some((Exp::String(*text), remaining)),
        Some((Part::Symbol(Symbol::True), remaining)) => Some((Exp::True, remaining)),
        Some((Part::Symbol(Symbol::False), remaining)) => Some((Exp::False, remaining)),
        _ => None,
    }
}

/// The beginning of an operand of more than one part, if it comes first, and the parts after it.
pub fn start_word<'s, 't>(rest: Rest<'s, 't>) -> Option<(Start, Rest<'s, 't>)>
    ensures { option_map (λ x. (x.0, seen x.1)) result ≡ word_in start_of (seen rest.entry) }
{
    let (symbol, remaining) = symbol(rest)?;
    Some((words::start_word(symbol)?, remaining))
}

/// The first word of a command that REPEAT can't follow, if it comes first, and the parts after it.
pub fn command_word<'s, 't>(rest: Rest<'s, 't>) -> Option<(CommandWord, Rest<'s, 't>)>
    ensures { option_map (λ x. (x.0, seen x.1)) result ≡ word_in command_word_of (seen rest.entry) }
{
    let (symbol, remaining) = symbol(rest)?;
    Some((words::command_word(symbol)?, remaining))
}

/// The first word of a command that REPEAT can follow, if it comes first, and the parts after it.
pub fn simple_word<'s, 't>(rest: Rest<'s, 't>) -> Option<(SimpleWord, Rest<'s, 't>)>
    ensures { option_map (λ x. (x.0, seen x.1)) result ≡ word_in simple_word_of (seen rest.entry) }
{
    let (symbol, remaining) = symbol(rest)?;
    Some((words::simple_word(symbol)?, remaining))
}

/// REPEAT, REPEATWHILE or REPEATUNTIL, if it comes first, and the parts after it.
pub fn repeat_word<'s, 't>(rest: Rest<'s, 't>) -> Option<(RepeatWord, Rest<'s, 't>)>
    ensures { option_map (λ x. (x.0, seen x.1)) result ≡ word_in repeat_word_of (seen rest.entry) }
{
    let (symbol, remaining) = symbol(rest)?;
    Some((words::repeat_word(symbol)?, remaining))
}

/// The first word of a declaration, if it comes first, and the parts after it.
pub fn declaration_word<'s, 't>(rest: Rest<'s, 't>) -> Option<(DeclarationWord, Rest<'s, 't>)>
    ensures { option_map (λ x. (x.0, seen x.1)) result ≡ word_in declaration_word_of (seen rest.entry) }
{
    let (symbol, remaining) = symbol(rest)?;
    Some((words::declaration_word(symbol)?, remaining))
}

/// What follows an operand in an expression.
#[derive(Clone, Copy)]
pub enum FollowingPart<'s, 't> {
    /// Nothing that belongs to the expression.
    Ends,
    /// A binary operator; the remaining parts begin with its right operand.
    Operator(BinaryOp, Rest<'s, 't>),
    /// `(`; the remaining parts begin with the arguments of a call.
    Arguments(Rest<'s, 't>),
    /// `->`; the remaining parts begin with the value for a true test.
    Choice(Rest<'s, 't>),
}

/// What follows an operand of the level `top` in an expression of the level `level`.
pub fn following_at<'s, 't>(level: usize, top: usize, rest: Rest<'s, 't>) -> FollowingPart<'s, 't>
    ensures { follow_view result ≡ following level top (seen rest.entry) }
{
    match first(rest) {
        Some((Part::Symbol(Symbol::OpenBracket), remaining)) => {
            if top < PRIMARY {
                FollowingPart::Ends
            } else {
                FollowingPart::Arguments(remaining)
            }
        }
        Some((Part::Symbol(Symbol::Arrow), remaining)) => {
            if CHOICE < level || top < CONSTANT {
                FollowingPart::Ends
            } else {
                FollowingPart::Choice(remaining)
            }
        }
        Some((Part::Symbol(symbol), remaining)) => match words::binary(*symbol) {
            Some(op) => operator(level, top, op, remaining),
            None => FollowingPart::Ends,
        },
        _ => FollowingPart::Ends,
    }
}

/// What an operator at this place is: part of the expression, or its end.
fn operator<'s, 't>(
    level: usize,
    top: usize,
    op: BinaryOp,
    rest: Rest<'s, 't>,
) -> FollowingPart<'s, 't>
    ensures { follow_view result ≡ operator_of level top (seen rest.entry) (Some op) }
{
    if words::level(op) < level || top < words::level_before(op) {
        FollowingPart::Ends
    } else {
        FollowingPart::Operator(op, rest)
    }
}

/// What begins a label.
#[derive(Clone, Copy)]
pub enum LabelStartAt<'s, 't> {
    /// No label begins here.
    No,
    /// CASE; the remaining parts begin with its constant.
    Case(Rest<'s, 't>),
    /// DEFAULT; the remaining parts begin with the colon.
    Default(Rest<'s, 't>),
    /// A name and a colon.
    Name(&'s [u8], Rest<'s, 't>),
}

/// The label that begins here, if any.
pub fn label_at<'s, 't>(rest: Rest<'s, 't>) -> LabelStartAt<'s, 't>
    ensures { label_at_view result ≡ label_start (seen rest.entry) }
{
    match first(rest) {
        Some((Part::Symbol(Symbol::Case), remaining)) => LabelStartAt::Case(remaining),
        Some((Part::Symbol(Symbol::Default), remaining)) => LabelStartAt::Default(remaining),
        Some((Part::Name(name), remaining)) => match after(Symbol::Colon, remaining) {
            Some(then) => LabelStartAt::Name(*name, then),
            None => LabelStartAt::No,
        },
        _ => LabelStartAt::No,
    }
}

/// What follows the first name of a definition.
#[derive(Clone, Copy)]
pub enum DefinitionShape<'s, 't> {
    /// `(`; the remaining parts begin with the parameters.
    Parameters(Rest<'s, 't>),
    /// `= VEC`; the remaining parts begin with the constant.
    Size(Rest<'s, 't>),
    /// Anything else: the names of variables may go on, or `=` follows.
    Values,
}

/// The shape of a definition, by the parts after its first name.
pub fn shape_at<'s, 't>(rest: Rest<'s, 't>) -> DefinitionShape<'s, 't>
    ensures { shape_view result ≡ shape_of (seen rest.entry) }
{
    match first(rest) {
        Some((Part::Symbol(Symbol::OpenBracket), remaining)) => DefinitionShape::Parameters(
            remaining,
        ),
        _ => match after(Symbol::Equal, rest) {
            None => DefinitionShape::Values,
            Some(then) => match after(Symbol::Vector, then) {
                None => DefinitionShape::Values,
                Some(size) => DefinitionShape::Size(size),
            },
        },
    }
}

/// The parts after a line break and DO. Each may be missing.
pub fn skip_do<'s, 't>(rest: Rest<'s, 't>) -> Rest<'s, 't>
    ensures { seen result ≡ past_do (seen rest.entry) }
{
    let line = skip_line(rest);
    match after(Symbol::Do, line) {
        Some(remaining) => remaining,
        None => line,
    }
}

/// The parts after a line break, which may be missing.
fn skip_line<'s, 't>(rest: Rest<'s, 't>) -> Rest<'s, 't>
    ensures { seen result ≡ past_line (seen rest.entry) }
{
    match first(rest) {
        Some((Part::NewLine, remaining)) => remaining,
        _ => rest,
    }
}

/// The parts after the end of such a list, if it ends here.
pub fn end<'s, 't>(places: Places, rest: Rest<'s, 't>) -> Option<Rest<'s, 't>>
    ensures { option_map (λ x. seen x) result ≡ end_of places (seen rest.entry) }
{
    match places {
        Places::Section => match first(rest) {
            None => Some(rest),
            _ => None,
        },
        Places::Block => after(Symbol::CloseSection, rest),
        Places::Cases => after(Symbol::CloseSection, rest),
    }
}

/// Whether an item ends here: a semicolon or `$)` comes first.
pub fn is_item_end(rest: Rest<'_, '_>) -> bool
    ensures { result ≡ is_place_end (seen rest.entry) }
{
    separator(rest).is_some() || after(Symbol::CloseSection, rest).is_some()
}

/// The parts after `=` or `:`, one of which must come first.
pub fn constant_sign<'s, 't>(rest: Rest<'s, 't>) -> Result<Rest<'s, 't>, ReadFault>
    ensures { Gives (λ x. seen x) result (constant_sign_of (seen rest.entry)) }
{
    match after(Symbol::Equal, rest) {
        Some(remaining) => Ok(remaining),
        None => expect(Symbol::Colon, rest),
    }
}
