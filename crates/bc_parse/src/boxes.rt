//! Trees in boxes, and lists with one more element.
//!
//! These are the only functions that may have to drop a tree, after a failed allocation or a fault. Drops are
//! expensive to prove, so they are kept here, and those of trees by value are in generic functions.
ghost use Rattle.std.specs.Prelude.{◌≡◌, ◌∷◌, [], ◌++◌, IfOk, IfErr, Ok, length};
ghost use Rattle.bc_parse_tree.specs.Tree as tree;
ghost use Rattle.bc_parse_tree.specs.Spelling.{add_exp, add_entry, add_definition, add_declaration, add_label};
ghost use Rattle.bc_parse_tree.specs.Spelling.{add_item};
ghost use Rattle.bc_parse_tree.specs.View.{block_view, exp_view, exps_view, command_view, definition_view};
ghost use Rattle.bc_parse_tree.specs.View.{definitions_view, declaration_view, declarations_view, label_view};
ghost use Rattle.bc_parse_tree.specs.View.{labels_view, item_view, items_view, constant_view, entries_view};
ghost use Rattle.bc_parse_defs.specs.Reading.{expect_of, alone};
ghost use Rattle.bc_parse.specs.declared.fault.ReadFault.TheVariants.{Memory, Expected, TooDeep};
ghost use Rattle.bc_parse.specs.Seen.{seen, Gives, box_view, list_view};

use crate::cursor;
use crate::fault::ReadFault;
use crate::read::{Read, ReadResult};
use bc_lex_tokens::Symbol;
use bc_parse_tree::{Block, Command, Constant, Declaration, Definition, Exp, Item, Label};
use std::alloc::Global;

/// A value in a box.
fn boxed<T: Drop>(alloc: Global, value: T) -> Result<Box<T>, ReadFault>
    ensures value { IfOk result (λ x. x.value ≡ value) }
    ensures memory { IfErr result (λ e. e ≡ Memory) }
{
    Ok(Box::new(alloc, value)?)
}

/// A list with one more element.
fn pushed<T: Drop>(list: Vec<T>, element: T) -> Result<Vec<T>, ReadFault>
    ensures items { IfOk result (λ x. x.items ≡ list.items ++ element ∷ []) }
    ensures memory { IfErr result (λ e. e ≡ Memory) }
{
    let mut longer = list;
    longer.push(element)?;
    Ok(longer)
}

/// What was read, if this symbol follows it.
pub fn followed_by<'s, 't, T: Drop>(wanted: Symbol, found: Read<'s, 't, T>) -> ReadResult<'s, 't, T>
    ensures tree { IfOk result (λ x. x.tree ≡ found.entry.tree) }
    ensures height { IfOk result (λ x. x.height ≡ found.entry.height) }
    ensures rest { Gives (λ x. seen x.rest) result (expect_of wanted (seen found.entry.rest)) }
{
    let rest = cursor::expect(wanted, found.rest)?;
    Ok(Read { rest, ..found })
}

/// The fault of a loop whose turns are used up, as in the definition.
pub fn no_turn_left<'s, 't, T: Drop>(found: Read<'s, 't, T>) -> ReadFault
    ensures { result ≡ Expected (length (seen found.entry.rest)) }
{
    ReadFault::Expected(found.rest.parts.len())
}

/// The fault of exceeding a bound at the part after what was read.
pub fn too_deep<'s, 't, T: Drop>(found: Read<'s, 't, T>) -> ReadFault
    ensures { result ≡ TooDeep (length (seen found.entry.rest)) }
{
    ReadFault::TooDeep(found.rest.parts.len())
}

/// The fault of exceeding a bound at this place.
pub fn too_deep_at<'s, 't, T: Drop>(place: usize, _found: Read<'s, 't, T>) -> ReadFault
    ensures { result ≡ TooDeep place }
{
    ReadFault::TooDeep(place)
}

/// An expression in a box.
pub fn exp<'s>(alloc: Global, tree: Exp<'s>) -> Result<Box<Exp<'s>>, ReadFault>
    ensures { Gives (box_view exp_view) result (Ok (exp_view tree.entry)) }
{
    Ok(boxed(alloc, tree)?)
}

/// A command in a box.
pub fn command<'s>(alloc: Global, tree: Command<'s>) -> Result<Box<Command<'s>>, ReadFault>
    ensures { Gives (box_view command_view) result (Ok (command_view tree.entry)) }
{
    Ok(boxed(alloc, tree)?)
}

/// Expressions, and one more.
#[tactic(auto, using(crate::proofs::Lists::exps_view_push))]
pub fn exp_added<'s>(list: Vec<Exp<'s>>, tree: Exp<'s>) -> Result<Vec<Exp<'s>>, ReadFault>
    ensures { Gives (list_view exps_view) result (Ok (add_exp (exps_view list.entry.items) (exp_view tree.entry))) }
{
    Ok(pushed(list, tree)?)
}

/// Definitions, and one more.
#[tactic(auto, using(crate::proofs::Lists::definitions_view_push))]
pub fn definition_added<'s>(
    list: Vec<Definition<'s>>,
    tree: Definition<'s>,
) -> Result<Vec<Definition<'s>>, ReadFault>
    ensures { Gives (list_view definitions_view) result (Ok (add_definition (definitions_view list.entry.items) (definition_view tree.entry))) }
{
    Ok(pushed(list, tree)?)
}

/// Declarations, and one more.
#[tactic(auto, using(crate::proofs::Lists::declarations_view_push))]
pub fn declaration_added<'s>(
    list: Vec<Declaration<'s>>,
    tree: Declaration<'s>,
) -> Result<Vec<Declaration<'s>>, ReadFault>
    ensures { Gives (list_view declarations_view) result (Ok (add_declaration (declarations_view list.entry.items) (declaration_view tree.entry))) }
{
    Ok(pushed(list, tree)?)
}

/// Constants, and one more.
#[tactic(auto, using(crate::proofs::Lists::entries_view_push))]
pub fn constant_added<'s>(
    list: Vec<Constant<'s>>,
    name: &'s [u8],
    value: Exp<'s>,
) -> Result<Vec<Constant<'s>>, ReadFault>
    ensures { Gives (list_view entries_view) result (Ok (add_entry (entries_view list.entry.items) name.entry.now (exp_view value.entry))) }
{
    Ok(pushed(list, Constant { name, value })?)
}

/// Labels, and `CASE value:`.
#[tactic(auto, using(crate::proofs::Views::case_view))]
pub fn case_added<'s>(
    list: Vec<Label<'s>>,
    value: Box<Exp<'s>>,
) -> Result<Vec<Label<'s>>, ReadFault>
    ensures { Gives (list_view labels_view) result (Ok (add_label (labels_view list.entry.items) (tree.Case (exp_view value.entry.value)))) }
{
    label_added(list, Label::Case(Box::into_inner(value)))
}

/// Labels, and `DEFAULT:`.
#[tactic(auto, using(crate::proofs::Views::default_view))]
pub fn default_added<'s>(list: Vec<Label<'s>>) -> Result<Vec<Label<'s>>, ReadFault>
    ensures { Gives (list_view labels_view) result (Ok (add_label (labels_view list.entry.items) tree.Default)) }
{
    label_added(list, Label::Default)
}

/// Labels, and `name:`.
#[tactic(auto, using(crate::proofs::Views::named_view))]
pub fn name_added<'s>(list: Vec<Label<'s>>, name: &'s [u8]) -> Result<Vec<Label<'s>>, ReadFault>
    ensures { Gives (list_view labels_view) result (Ok (add_label (labels_view list.entry.items) (tree.Named name.entry.now))) }
{
    label_added(list, Label::Name(name))
}

/// Labels, and one more.
#[tactic(auto, using(crate::proofs::Lists::labels_view_push))]
fn label_added<'s>(list: Vec<Label<'s>>, tree: Label<'s>) -> Result<Vec<Label<'s>>, ReadFault>
    ensures { Gives (list_view labels_view) result (Ok (add_label (labels_view list.entry.items) (label_view tree.entry))) }
{
    Ok(pushed(list, tree)?)
}

/// Items, and one more.
#[tactic(auto, using(crate::proofs::Lists::items_view_push))]
fn item_added<'s>(list: Vec<Item<'s>>, tree: Item<'s>) -> Result<Vec<Item<'s>>, ReadFault>
    ensures { Gives (list_view items_view) result (Ok (add_item (items_view list.entry.items) (item_view tree.entry))) }
{
    Ok(pushed(list, tree)?)
}

/// Items, and one more with these labels and this command.
pub fn command_added<'s>(
    list: Vec<Item<'s>>,
    labels: Vec<Label<'s>>,
    command: Command<'s>,
) -> Result<Vec<Item<'s>>, ReadFault>
    ensures { Gives (list_view items_view) result
        (Ok (add_item (items_view list.entry.items) (tree.Labelled (labels_view labels.entry.items) (command_view command.entry)))) }
{
    let command = Some(command);
    item_added(list, Item { labels, command })
}

/// Items, and one more that has only these labels.
pub fn labels_added<'s>(
    list: Vec<Item<'s>>,
    labels: Vec<Label<'s>>,
) -> Result<Vec<Item<'s>>, ReadFault>
    ensures { Gives (list_view items_view) result (Ok (add_item (items_view list.entry.items) (tree.Labels_alone (labels_view labels.entry.items)))) }
{
    let command = None;
    item_added(list, Item { labels, command })
}

/// The block of one command.
pub fn block_of<'s>(alloc: Global, command: Command<'s>) -> Result<Block<'s>, ReadFault>
    ensures { Gives block_view result (Ok (alone (command_view command.entry))) }
{
    let items = command_added(Vec::new(alloc), Vec::new(alloc), command)?;
    Ok(Block {
        declarations: Vec::new(alloc),
        items,
    })
}
