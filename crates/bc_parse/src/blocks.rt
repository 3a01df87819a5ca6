//! The readers of blocks, bodies and sections: lists of declarations and items, and what ends them.
ghost use Rattle.std.specs.Prelude.{◌≡◌, ◌+◌, ◌≤◌, ℕ, max, option_map, Ok, IfOk};
ghost use Rattle.bc_parse_tree.specs.Spelling.{add_item};
ghost use Rattle.bc_parse_tree.specs.Tree.{Labels_alone};
ghost use Rattle.bc_parse_tree.specs.View.{command_view, block_view, declarations_view, labels_view};
ghost use Rattle.bc_parse_tree.specs.View.{items_view};
ghost use Rattle.bc_parse_defs.specs.Reading.{piece, exp_of, command_of, definition_of, label_read};
ghost use Rattle.bc_parse_defs.specs.Reading.{labels_read, DefaultLabel, NameLabel};
ghost use Rattle.bc_parse_defs.specs.Reading.{part_read, place_turn, places_read};
ghost use Rattle.bc_parse_defs.specs.Reading.{block_read, body_of_block, body_read, do_read, section_of, moved};
ghost use Rattle.bc_parse_defs.specs.Reading.{label_start, place_end, declares, no_item_yet, some_label};
ghost use Rattle.bc_parse_defs.specs.Reading.{may_command};
ghost use Rattle.bc_parse.specs.Seen.{◌~>◌, seen, Gives, read_view, list_view, parts_view, Reads, Takes};
ghost use Rattle.bc_parse.specs.Seen.{turn_height};
ghost use Rattle.bc_parse.specs.SeenFollow.{end_view};
ghost use Rattle.bc_parse.specs.Partial.{body_of_command, item_more};

use crate::commands::{command, repeats};
use crate::cursor::{LabelStartAt, Rest};
use crate::declarations::declaration;
use crate::expressions::boxed_exp;
use crate::fault::ReadFault;
use crate::levels::CONSTANT;
use crate::read::{Limits, Read, ReadResult, Step};
use crate::{boxes, construction, cursor};
use bc_lex_tokens::Symbol;
use bc_parse_defs::words::{DeclarationWord, Places};
use bc_parse_tree::{Block, Command, Declaration, Item, Label, Section};
use std::alloc::Global;

/// The declarations and items of a list.
#[derive(Drop)]
pub struct Parts<'s> {
    /// The declarations, which come first.
    pub declarations: Vec<Declaration<'s>>,
    /// The items.
    pub items: Vec<Item<'s>>,
}

/// A block, after `$(`.
#[cycle(parser)]
#[tactic(auto, unfolding(bc_parse_defs::specs::Reading::block_read))]
pub fn block<'s, 't>(room: Limits, rest: Rest<'s, 't>) -> ReadResult<'s, 't, Block<'s>>
    ensures read { (n : ℕ) → room.nest + room.round ≤ n →
        Reads block_view result (block_read (exp_of n) (command_of n) (definition_of n) room.nest room.round (seen rest.entry)) }
    ensures low { IfOk result (λ x. x.height ≤ room.nest) }
{
    construction::block_from(room, places(room, Places::Block, rest))
}

/// A block as a body. If a repetition follows, the body is the block of the repeated command.
#[cycle(parser)]
#[tactic(auto, unfolding(bc_parse_defs::specs::Reading::body_of_block))]
fn block_body<'s, 't>(room: Limits, inner: Read<'s, 't, Block<'s>>) -> ReadResult<'s, 't, Block<'s>>
    requires { inner.height ≤ room.nest }
    ensures read { (n : ℕ) → room.nest + room.round ≤ n →
        Reads block_view result (body_of_block (exp_of n) (command_of n) (definition_of n) room.nest room.round (read_view block_view inner.entry)) }
    ensures low { IfOk result (λ x. x.height ≤ room.nest) }
{
    if cursor::repeat_word(inner.rest).is_none() {
        return Ok(inner);
    }
    if inner.height >= room.nest {
        return Err(boxes::too_deep(inner));
    }
    let first = Read {
        tree: Command::Block(inner.tree),
        height: inner.height + 1,
        rest: inner.rest,
    };
    construction::body_of(room, repeats(room, first))
}

/// A body: a block, or the block of one command.
#[cycle(parser)]
#[tactic(auto, unfolding(bc_parse_defs::specs::Reading::body_read))]
pub fn body<'s, 't>(room: Limits, rest: Rest<'s, 't>) -> ReadResult<'s, 't, Block<'s>>
    ensures read { (n : ℕ) → room.nest + room.round ≤ n →
        Reads block_view result (body_read (exp_of n) (command_of n) (definition_of n) room.nest room.round (seen rest.entry)) }
    ensures low { IfOk result (λ x. x.height ≤ room.nest) }
{
    if let Some(then) = cursor::after(Symbol::OpenSection, rest) {
        let inner = block(room, then)?;
        return block_body(room, inner);
    }
    construction::body_of(room, command(room, rest))
}

/// A body that a line break and DO may precede.
#[cycle(parser)]
#[tactic(auto, unfolding(bc_parse_defs::specs::Reading::do_read))]
pub fn do_body<'s, 't>(room: Limits, rest: Rest<'s, 't>) -> ReadResult<'s, 't, Block<'s>>
    ensures read { (n : ℕ) → room.nest + room.round ≤ n →
        Reads block_view result (do_read (exp_of n) (command_of n) (definition_of n) room.nest room.round (seen rest.entry)) }
    ensures low { IfOk result (λ x. x.height ≤ room.nest) }
{
    body(room, cursor::skip_do(rest))
}

/// A command as a body, and how deep that nests.
pub fn body_from<'s, 't>(
    alloc: Global,
    whole: Read<'s, 't, Command<'s>>,
) -> ReadResult<'s, 't, Block<'s>>
    ensures read { Reads block_view result (body_of_command (read_view command_view whole.entry)) }
    ensures low { (m : ℕ) → whole.entry.height ≤ m → IfOk result (λ x. x.height ≤ m) }
{
    let Read { tree, height, rest } = whole;
    match tree {
        Command::Block(tree) => Ok(Read {
            tree,
            height: height.saturating_sub(1),
            rest,
        }),
        other => {
            let tree = boxes::block_of(alloc, other)?;
            Ok(Read { tree, height, rest })
        }
    }
}

/// The labels of an item.
#[cycle(parser)]
#[tactic(auto, unfolding(bc_parse_defs::specs::Reading::labels_read))]
fn labels<'s, 't>(room: Limits, rest: Rest<'s, 't>) -> ReadResult<'s, 't, Vec<Label<'s>>>
    ensures read { (n : ℕ) → room.nest + room.round ≤ n →
        Reads (list_view labels_view) result (labels_read (exp_of n) room.nest room.round (seen rest.entry)) }
    ensures low { IfOk result (λ x. x.height ≤ room.nest) }
{
    let mut found = Read {
        tree: Vec::new(room.alloc),
        height: 0,
        rest,
    };
    for _ in 0..rest.parts.len() + 1 {
        match label_step(room, found)? {
            Step::Last(list) => return Ok(list),
            Step::More(list) => found = list,
        }
    }
    Err(boxes::no_turn_left(found))
}

/// One label, if one follows.
#[cycle(parser)]
#[tactic(auto, unfolding(bc_parse_defs::specs::Reading::label_read))]
fn label_step<'s, 't>(
    room: Limits,
    list: Read<'s, 't, Vec<Label<'s>>>,
) -> Result<Step<'s, 't, Vec<Label<'s>>>, ReadFault>
    requires { list.height ≤ room.nest }
    ensures read { (n : ℕ) → room.nest + room.round ≤ n →
        Takes (list_view labels_view) result
        (label_read (exp_of n) room.nest room.round (read_view (list_view labels_view) list.entry) (label_start (seen list.entry.rest))) }
    ensures low { IfOk result (λ x. turn_height x ≤ room.nest) }
{
    match cursor::label_at(list.rest) {
        LabelStartAt::No => Ok(Step::Last(list)),
        LabelStartAt::Case(rest) => construction::case_of(
            room,
            boxed_exp(room, CONSTANT, rest),
            list,
        ),
        LabelStartAt::Default(rest) => default_label(list, rest),
        LabelStartAt::Name(name, rest) => name_label(list, name, rest),
    }
}

/// `DEFAULT:`, after its word.
#[tactic(auto, unfolding(bc_parse_defs::specs::Reading::label_read))]
fn default_label<'s, 't>(
    list: Read<'s, 't, Vec<Label<'s>>>,
    rest: Rest<'s, 't>,
) -> Result<Step<'s, 't, Vec<Label<'s>>>, ReadFault>
    ensures read { (n nest round : ℕ) →
        Takes (list_view labels_view) result
        (label_read (exp_of n) nest round (read_view (list_view labels_view) list.entry) (DefaultLabel (seen rest.entry))) }
    ensures low { (m : ℕ) → list.entry.height ≤ m → IfOk result (λ x. turn_height x ≤ m) }
{
    let rest = cursor::expect(Symbol::Colon, rest)?;
    let tree = boxes::default_added(list.tree)?;
    Ok(Step::More(Read {
        tree,
        height: list.height,
        rest,
    }))
}

/// `name:`, after its colon.
#[tactic(auto, unfolding(bc_parse_defs::specs::Reading::label_read))]
fn name_label<'s, 't>(
    list: Read<'s, 't, Vec<Label<'s>>>,
    name: &'s [u8],
    rest: Rest<'s, 't>,
) -> Result<Step<'s, 't, Vec<Label<'s>>>, ReadFault>
    ensures read { (n nest round : ℕ) →
        Takes (list_view labels_view) result
        (label_read (exp_of n) nest round (read_view (list_view labels_view) list.entry) (NameLabel name.entry.now (seen rest.entry))) }
    ensures low { (m : ℕ) → list.entry.height ≤ m → IfOk result (λ x. turn_height x ≤ m) }
{
    let tree = boxes::name_added(list.tree, name)?;
    Ok(Step::More(Read {
        tree,
        height: list.height,
        rest,
    }))
}

/// One more item, if lists of this kind have items.
#[cycle(parser)]
#[tactic(auto, unfolding(bc_parse_defs::specs::Reading::item_read))]
fn item_part<'s, 't>(
    room: Limits,
    mode: Places,
    list: Read<'s, 't, Parts<'s>>,
) -> ReadResult<'s, 't, Parts<'s>>
    requires { list.height ≤ room.nest }
    ensures read { (n : ℕ) → room.nest + room.round ≤ n →
        Reads parts_view result
        (item_more (exp_of n) (command_of n) (definition_of n) room.nest room.round mode (read_view parts_view list.entry)) }
    ensures low { IfOk result (λ x. x.height ≤ room.nest) }
{
    if !has_items(mode) {
        return Err(ReadFault::Expected(list.rest.parts.len()));
    }
    let found = labels(room, list.rest)?;
    if has_label(&found.tree) && cursor::is_item_end(found.rest) {
        return labels_part(list, found);
    }
    construction::command_item(room, command(room, found.rest), list, found)
}

/// One more item that has only these labels.
fn labels_part<'s, 't>(
    list: Read<'s, 't, Parts<'s>>,
    found: Read<'s, 't, Vec<Label<'s>>>,
) -> ReadResult<'s, 't, Parts<'s>>
    ensures read { Reads parts_view result (Ok (piece (
      declarations_view list.entry.tree.declarations.items,
      add_item (items_view list.entry.tree.items.items) (Labels_alone (labels_view found.entry.tree.items)),
    )
        (max list.entry.height found.entry.height) (seen found.entry.rest))) }
    ensures low { (m : ℕ) → list.entry.height ≤ m → found.entry.height ≤ m → IfOk result (λ x. x.height ≤ m) }
{
    let Parts {
        declarations,
        items,
    } = list.tree;
    let items = boxes::labels_added(items, found.tree)?;
    let tree = Parts {
        declarations,
        items,
    };
    Ok(Read {
        tree,
        height: list.height.max(found.height),
        rest: found.rest,
    })
}

/// One more declaration or item.
#[cycle(parser)]
#[tactic(auto, unfolding(bc_parse_defs::specs::Reading::part_read))]
fn add_element<'s, 't>(
    room: Limits,
    mode: Places,
    list: Read<'s, 't, Parts<'s>>,
) -> ReadResult<'s, 't, Parts<'s>>
    requires { list.height ≤ room.nest }
    ensures read { (n : ℕ) → room.nest + room.round ≤ n →
        Reads parts_view result
        (part_read (exp_of n) (command_of n) (definition_of n) mode room.nest room.round (read_view parts_view list.entry)) }
    ensures low { IfOk result (λ x. x.height ≤ room.nest) }
{
    match declared(mode, has_no_item(&list.tree.items), list.rest) {
        Some((word, then)) => construction::declared(room, declaration(room, word, then), list),
        None => item_part(room, mode, list),
    }
}

/// One element of a list: its end, an empty place, or a declaration or item.
#[cycle(parser)]
#[tactic(auto, unfolding(bc_parse_defs::specs::Reading::place_turn))]
fn place_step<'s, 't>(
    room: Limits,
    mode: Places,
    list: Read<'s, 't, Parts<'s>>,
) -> Result<Step<'s, 't, Parts<'s>>, ReadFault>
    requires { list.height ≤ room.nest }
    ensures read { (n : ℕ) → room.nest + room.round ≤ n →
        Takes parts_view result
        (place_turn (exp_of n) (command_of n) (definition_of n) mode room.nest room.round (read_view parts_view list.entry)) }
    ensures low { IfOk result (λ x. turn_height x ≤ room.nest) }
{
    if let Some(rest) = cursor::end(mode, list.rest) {
        return Ok(Step::Last(Read { rest, ..list }));
    }
    if let Some(rest) = cursor::separator(list.rest) {
        return Ok(Step::More(Read { rest, ..list }));
    }
    let found = add_element(room, mode, list)?;
    turn_of(mode, found)
}

/// A turn, which is the last if the list ends after what was read.
fn turn_of<'s, 't>(
    mode: Places,
    found: Read<'s, 't, Parts<'s>>,
) -> Result<Step<'s, 't, Parts<'s>>, ReadFault>
    ensures read { Takes parts_view result (place_end mode (seen found.entry.rest) ~> λ e.
        Ok (moved (read_view parts_view found.entry) e.0, e.1)) }
    ensures low { (m : ℕ) → found.entry.height ≤ m → IfOk result (λ x. turn_height x ≤ m) }
{
    Ok(match place_end_at(mode, found.rest)? {
        ElementEnd::Last(rest) => Step::Last(Read { rest, ..found }),
        ElementEnd::More(rest) => Step::More(Read { rest, ..found }),
    })
}

/// Declarations and items, separated by semicolons, up to and including the end of the list.
#[cycle(parser)]
#[tactic(auto, unfolding(bc_parse_defs::specs::Reading::places_read))]
pub fn places<'s, 't>(
    room: Limits,
    mode: Places,
    rest: Rest<'s, 't>,
) -> ReadResult<'s, 't, Parts<'s>>
    ensures read { (n : ℕ) → room.nest + room.round ≤ n →
        Reads parts_view result
        (places_read (exp_of n) (command_of n) (definition_of n) mode room.nest room.round (seen rest.entry)) }
    ensures low { IfOk result (λ x. x.height ≤ room.nest) }
{
    let tree = Parts {
        declarations: Vec::new(room.alloc),
        items: Vec::new(room.alloc),
    };
    let mut found = Read {
        tree,
        height: 0,
        rest,
    };
    for _ in 0..rest.parts.len() + 1 {
        match place_step(room, mode, found)? {
            Step::Last(list) => return Ok(list),
            Step::More(list) => found = list,
        }
    }
    Err(boxes::no_turn_left(found))
}

/// Whether the list has a label.
#[tactic(auto, using(crate::proofs::Lists::some_label_view))]
fn has_label(list: &Vec<Label<'_>>) -> bool
    ensures { result ≡ some_label (labels_view list.now.items) }
{
    !list.is_empty()
}

/// Whether the list has no item.
#[tactic(auto, using(crate::proofs::Lists::no_item_view))]
fn has_no_item(list: &Vec<Item<'_>>) -> bool
    ensures { result ≡ no_item_yet (items_view list.now.items) }
{
    list.is_empty()
}

/// Whether lists of this kind may have items.
fn has_items(mode: Places) -> bool
    ensures { result ≡ may_command mode }
{
    match mode {
        Places::Section => false,
        Places::Block => true,
        Places::Cases => true,
    }
}

/// The first word of a declaration, if it comes first and a declaration may be here.
fn declared<'s, 't>(
    mode: Places,
    is_first: bool,
    rest: Rest<'s, 't>,
) -> Option<(DeclarationWord, Rest<'s, 't>)>
    ensures { option_map (λ x. (x.0, seen x.1)) result ≡ declares mode is_first (seen rest.entry) }
{
    match mode {
        Places::Cases => None,
        _ => if is_first {
            cursor::declaration_word(rest)
        } else {
            None
        },
    }
}

/// What follows an element of a list.
#[derive(Clone, Copy)]
pub enum ElementEnd<'s, 't> {
    /// A separator; the list goes on.
    More(Rest<'s, 't>),
    /// The end of the list.
    Last(Rest<'s, 't>),
}

/// What follows an element of a list of this kind. Anything but a separator and the end is a fault.
pub fn place_end_at<'s, 't>(
    mode: Places,
    rest: Rest<'s, 't>,
) -> Result<ElementEnd<'s, 't>, ReadFault>
    ensures { Gives end_view result (place_end mode (seen rest.entry)) }
{
    match cursor::separator(rest) {
        Some(then) => Ok(ElementEnd::More(then)),
        None => match cursor::end(mode, rest) {
            Some(then) => Ok(ElementEnd::Last(then)),
            None => Err(ReadFault::Expected(rest.parts.len())),
        },
    }
}

/// A section: its tree nests at most 200 deep, and at most 400 parentheses are open at once.
#[tactic(auto, unfolding(bc_parse_defs::specs::Reading::section_of))]
pub fn section_in<'s, 't>(alloc: Global, rest: Rest<'s, 't>) -> Result<Section<'s>, ReadFault>
    ensures read { Gives (λ x. declarations_view x.declarations.items) result (section_of (seen rest.entry)) }
{
    let room = Limits {
        alloc,
        nest: 200,
        round: 400,
    };
    let found = places(room, Places::Section, rest)?;
    Ok(Section {
        declarations: found.tree.declarations,
    })
}
