//! The readers of declarations and definitions.
ghost use Rattle.std.specs.Prelude.{◌+◌, ◌<◌, ◌≤◌, ℕ, Ok, IfOk};
ghost use Rattle.bc_parse_defs.specs.declared.words.Places.TheVariants as places_mode;
ghost use Rattle.bc_parse_tree.specs.View.{declaration_view, definition_view, definitions_view, entries_view};
ghost use Rattle.bc_parse_defs.specs.Reading.{moved, place_end, exp_of, command_of};
ghost use Rattle.bc_parse_defs.specs.Reading.{definition_of, entry_read, entry_turn, entries_read};
ghost use Rattle.bc_parse_defs.specs.Reading.{definitions_read, declaration_read, variables_read};
ghost use Rattle.bc_parse_defs.specs.Reading.{routine_read, defined_read};
ghost use Rattle.bc_parse_defs.specs.declared.words.DeclarationWord.TheVariants as declaration_word;
ghost use Rattle.bc_parse.specs.Names.{names_view};
ghost use Rattle.bc_parse.specs.Partial.{be_rest};
ghost use Rattle.bc_parse.specs.Seen.{◌~>◌, seen, read_view, list_view, Reads, Takes, turn_height};

use crate::blocks::{ElementEnd, body, place_end_at};
use crate::cursor::{DefinitionShape, Rest};
use crate::expressions::{exp, exps};
use crate::fault::ReadFault;
use crate::levels::{CHOICE, CONSTANT};
use crate::names::{name_count, names, parameters};
use crate::read::{Limits, Read, ReadResult, Step};
use crate::{boxes, construction, cursor};
use bc_lex_tokens::Symbol;
use bc_parse_defs::words::{DeclarationWord, Places};
use bc_parse_tree::{Constant, Declaration, Definition, Storage};

/// A declaration, after its first word.
#[cycle(parser)]
#[tactic(auto, unfolding(bc_parse_defs::specs::Reading::declaration_read))]
pub fn declaration<'s, 't>(
    room: Limits,
    word: DeclarationWord,
    rest: Rest<'s, 't>,
) -> ReadResult<'s, 't, Declaration<'s>>
    ensures read { (n : ℕ) → room.nest + room.round ≤ n →
        Reads declaration_view result (declaration_read (exp_of n) (command_of n) (definition_of n) room.nest room.round word (seen rest.entry)) }
    ensures low { IfOk result (λ x. x.height ≤ room.nest) }
{
    match word {
        DeclarationWord::Let => construction::let_of(room, definitions(room, rest)),
        DeclarationWord::Constants(storage) => constants(room, storage, rest),
    }
}

/// A list of constants of this storage, from its `$(` on.
#[cycle(parser)]
#[tactic(auto, unfolding(bc_parse_defs::specs::Reading::declaration_read))]
fn constants<'s, 't>(
    room: Limits,
    storage: Storage,
    rest: Rest<'s, 't>,
) -> ReadResult<'s, 't, Declaration<'s>>
    ensures read { (n : ℕ) → room.nest + room.round ≤ n →
        Reads declaration_view result
        (declaration_read (exp_of n) (command_of n) (definition_of n) room.nest room.round (declaration_word.Constants storage) (seen rest.entry)) }
    ensures low { IfOk result (λ x. x.height ≤ room.nest) }
{
    let rest = cursor::expect(Symbol::OpenSection, rest)?;
    construction::constants(room, storage, entries(room, rest))
}

/// Names with their constants, up to and including `$)`.
#[cycle(parser)]
#[tactic(auto, unfolding(bc_parse_defs::specs::Reading::entries_read))]
fn entries<'s, 't>(room: Limits, rest: Rest<'s, 't>) -> ReadResult<'s, 't, Vec<Constant<'s>>>
    ensures read { (n : ℕ) → room.nest + room.round ≤ n →
        Reads (list_view entries_view) result (entries_read (exp_of n) room.nest room.round (seen rest.entry)) }
    ensures low { IfOk result (λ x. x.height ≤ room.nest) }
{
    let mut found = Read {
        tree: Vec::new(room.alloc),
        height: 0,
        rest,
    };
    for _ in 0..rest.parts.len() + 1 {
        match entry_step(room, found)? {
            Step::Last(list) => return Ok(list),
            Step::More(list) => found = list,
        }
    }
    Err(boxes::no_turn_left(found))
}

/// One element of a list of constants: its end, an empty place, or a name and its constant.
#[cycle(parser)]
#[tactic(auto, unfolding(bc_parse_defs::specs::Reading::entry_turn))]
fn entry_step<'s, 't>(
    room: Limits,
    list: Read<'s, 't, Vec<Constant<'s>>>,
) -> Result<Step<'s, 't, Vec<Constant<'s>>>, ReadFault>
    requires { list.height ≤ room.nest }
    ensures read { (n : ℕ) → room.nest + room.round ≤ n →
        Takes (list_view entries_view) result (entry_turn (exp_of n) room.nest room.round (read_view (list_view entries_view) list.entry)) }
    ensures low { IfOk result (λ x. turn_height x ≤ room.nest) }
{
    if let Some(rest) = cursor::after(Symbol::CloseSection, list.rest) {
        return Ok(Step::Last(Read { rest, ..list }));
    }
    if let Some(rest) = cursor::separator(list.rest) {
        return Ok(Step::More(Read { rest, ..list }));
    }
    let found = entry(room, list)?;
    turn_of(found)
}

/// A turn, which is the last if the list ends after what was read.
fn turn_of<'s, 't>(
    found: Read<'s, 't, Vec<Constant<'s>>>,
) -> Result<Step<'s, 't, Vec<Constant<'s>>>, ReadFault>
    ensures read { Takes (list_view entries_view) result (place_end places_mode.Block (seen found.entry.rest) ~> λ e.
        Ok (moved (read_view (list_view entries_view) found.entry) e.0, e.1)) }
    ensures low { (m : ℕ) → found.entry.height ≤ m → IfOk result (λ x. turn_height x ≤ m) }
{
    Ok(match place_end_at(Places::Block, found.rest)? {
        ElementEnd::Last(rest) => Step::Last(Read { rest, ..found }),
        ElementEnd::More(rest) => Step::More(Read { rest, ..found }),
    })
}

/// A name and its constant, appended to the list.
#[cycle(parser)]
#[tactic(auto, unfolding(bc_parse_defs::specs::Reading::entry_read))]
fn entry<'s, 't>(
    room: Limits,
    list: Read<'s, 't, Vec<Constant<'s>>>,
) -> ReadResult<'s, 't, Vec<Constant<'s>>>
    requires { list.height ≤ room.nest }
    ensures read { (n : ℕ) → room.nest + room.round ≤ n →
        Reads (list_view entries_view) result (entry_read (exp_of n) room.nest room.round (read_view (list_view entries_view) list.entry)) }
    ensures low { IfOk result (λ x. x.height ≤ room.nest) }
{
    let (name, rest) = cursor::name(list.rest)?;
    let rest = cursor::constant_sign(rest)?;
    construction::constant(room, name, exp(room, CONSTANT, rest), list)
}

/// The definitions of a LET, separated by AND.
#[cycle(parser)]
#[tactic(auto, unfolding(bc_parse_defs::specs::Reading::definitions_read))]
fn definitions<'s, 't>(room: Limits, rest: Rest<'s, 't>) -> ReadResult<'s, 't, Vec<Definition<'s>>>
    ensures read { (n : ℕ) → room.nest + room.round ≤ n →
        Reads (list_view definitions_view) result (definitions_read (exp_of n) (command_of n) (definition_of n) room.nest room.round (seen rest.entry)) }
    ensures low { IfOk result (λ x. x.height ≤ room.nest) }
{
    let mut found = Read {
        tree: Vec::new(room.alloc),
        height: 0,
        rest,
    };
    for _ in 0..rest.parts.len() + 1 {
        match construction::definitions_more(room, definition(room, found.rest), found)? {
            Step::Last(list) => return Ok(list),
            Step::More(list) => found = list,
        }
    }
    Err(boxes::no_turn_left(found))
}

/// A definition, unless it would nest too deep.
#[cycle(parser)]
#[tactic(auto, unfolding(bc_parse_defs::specs::Reading::definition_of))]
fn definition<'s, 't>(room: Limits, rest: Rest<'s, 't>) -> ReadResult<'s, 't, Definition<'s>>
    ensures read { (n : ℕ) → room.nest + room.round ≤ n → Reads definition_view result (definition_of n room.nest room.round (seen rest.entry)) }
    ensures low { IfOk result (λ x. x.height ≤ room.nest) }
{
    if room.nest == 0 {
        return Err(ReadFault::TooDeep(rest.parts.len()));
    }
    defined(room, rest)
}

/// A definition, by what follows its first name.
#[cycle(parser)]
#[tactic(auto, unfolding(bc_parse_defs::specs::Reading::defined_read, bc_parse_defs::specs::Reading::shaped_read, bc_parse_defs::specs::Reading::vector_read))]
fn defined<'s, 't>(room: Limits, rest: Rest<'s, 't>) -> ReadResult<'s, 't, Definition<'s>>
    requires { 0 < room.nest }
    ensures read { (n : ℕ) → room.nest + room.round ≤ n + 1 →
        Reads definition_view result (defined_read (exp_of n) (command_of n) (definition_of n) room.nest room.round (seen rest.entry)) }
    ensures low { IfOk result (λ x. x.height ≤ room.nest) }
{
    let inner = Limits {
        nest: room.nest - 1,
        ..room
    };
    let (name, remaining) = cursor::name(rest)?;
    match cursor::shape_at(remaining) {
        DefinitionShape::Parameters(then) => routine(room, name, remaining.parts.len(), then),
        DefinitionShape::Size(then) => construction::vector(room, name, exp(inner, CONSTANT, then)),
        DefinitionShape::Values => variables(room, rest),
    }
}

/// A definition of variables: their names, `=`, and as many initialisers.
#[cycle(parser)]
#[tactic(auto, unfolding(bc_parse_defs::specs::Reading::variables_read))]
fn variables<'s, 't>(room: Limits, rest: Rest<'s, 't>) -> ReadResult<'s, 't, Definition<'s>>
    requires { 0 < room.nest }
    ensures read { (n : ℕ) → room.nest + room.round ≤ n + 1 →
        Reads definition_view result (variables_read (exp_of n) (command_of n) (definition_of n) room.nest room.round (seen rest.entry)) }
    ensures low { IfOk result (λ x. x.height ≤ room.nest) }
{
    let inner = Limits {
        nest: room.nest - 1,
        ..room
    };
    let found = names(room.alloc, rest)?;
    let rest = cursor::expect(Symbol::Equal, found.rest)?;
    let limit = name_count(&found.tree);
    construction::variables(room, found.tree, exps(inner, CHOICE, limit, rest))
}

/// A function or a routine, after its `(`, whose place is `place`.
#[cycle(parser)]
#[tactic(auto, unfolding(bc_parse_defs::specs::Reading::routine_read))]
fn routine<'s, 't>(
    room: Limits,
    name: &'s [u8],
    place: usize,
    rest: Rest<'s, 't>,
) -> ReadResult<'s, 't, Definition<'s>>
    requires { 0 < room.nest }
    ensures read { (n : ℕ) → room.nest + room.round ≤ n + 1 →
        Reads definition_view result
        (routine_read (exp_of n) (command_of n) (definition_of n) room.nest room.round name.entry.now place (seen rest.entry)) }
    ensures low { IfOk result (λ x. x.height ≤ room.nest) }
{
    if room.round == 0 {
        return Err(ReadFault::TooDeep(place));
    }
    let inner = Limits {
        nest: room.nest - 1,
        ..room
    };
    let found = parameters(room.alloc, rest)?;
    match cursor::after(Symbol::Equal, found.rest) {
        Some(then) => construction::function(room, name, found.tree, exp(inner, CHOICE, then)),
        None => procedure(room, name, found.tree, found.rest),
    }
}

/// BE and the body of a routine.
#[cycle(parser)]
fn procedure<'s, 't>(
    room: Limits,
    name: &'s [u8],
    found: Vec<&'s [u8]>,
    rest: Rest<'s, 't>,
) -> ReadResult<'s, 't, Definition<'s>>
    requires { 0 < room.nest }
    ensures read { (n : ℕ) → room.nest + room.round ≤ n + 1 →
        Reads definition_view result (be_rest (exp_of n) (command_of n) (definition_of n) room.nest room.round
        name.entry.now (names_view found.entry.items) (seen rest.entry)) }
    ensures low { IfOk result (λ x. x.height ≤ room.nest) }
{
    let inner = Limits {
        nest: room.nest - 1,
        ..room
    };
    let rest = cursor::expect(Symbol::Be, rest)?;
    construction::routine(room, name, found, body(inner, rest))
}
