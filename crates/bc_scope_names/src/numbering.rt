//! Moves a section's numbers past trees, in text order: each tree takes as many numbers as it contains places, VALOFs and labels.
//! All calls fail with `Memory` if a number exceeds 64 bits.
ghost use Rattle.std.specs.Prelude.{◌≡◌, IfOk};
ghost use Rattle.bc_parse_tree.specs.View.{exp_view, exps_view, command_view, block_view, declaration_view, declarations_view, definition_view, definitions_view, label_view, labels_view, item_view, items_view, entries_view};
ghost use Rattle.bc_scope_defs.specs.Numbering.{labels_named, labels_of, labels_in, after_entry, after_entries, following, after_all, after_block, after_declarations, after_declaration, after_definitions, after_definition, after_items, after_item, after_command};
ghost use Rattle.bc_scope_names.specs.View.{numbers_view};

use crate::numbers::{Numbers, sum};
use bc_parse_tree::{Block, Command, Constant, Declaration, Definition, Exp, Item, Label, Storage};
use bc_word::Memory;

/// The number of named labels before an item's command. Fails with `Memory` where it exceeds 64 bits.
pub fn labels_of(labels: &[Label<'_>]) -> Result<u64, Memory>
    ensures { IfOk result (λ n. n ≡ labels_of (labels_view labels.now)) }
{
    let mut count = 0;
    for label in labels {
        count = sum(count, labels_named(label))?;
    }
    Ok(count)
}

/// 1 for a named label, 0 for CASE and DEFAULT.
pub fn labels_named(label: &Label<'_>) -> u64
    ensures { result ≡ labels_named (label_view label.now) }
{
    match label {
        Label::Name(_) => 1,
        Label::Case(_) | Label::Default => 0,
    }
}

/// The number of named labels of a command list, without those of lists inside it. Fails with `Memory` where it exceeds 64
/// bits.
pub fn labels_in(items: &[Item<'_>]) -> Result<u64, Memory>
    ensures { IfOk result (λ n. n ≡ labels_in (items_view items.now)) }
{
    let mut count = 0;
    for item in items {
        count = sum(count, labels_of(&item.labels)?)?;
    }
    Ok(count)
}

/// The numbers after one entry of a MANIFEST, STATIC or GLOBAL declaration: a static takes a place. Fails with `Memory` where
/// a number exceeds 64 bits.
pub fn after_entry(storage: Storage, at: Numbers) -> Result<Numbers, Memory>
    ensures { IfOk result (λ n. numbers_view n ≡ after_entry storage (numbers_view at)) }
{
    match storage {
        Storage::Static => at.after_place(),
        Storage::Manifest | Storage::Global => Ok(at),
    }
}

/// Moves the numbers past the entries of one declaration.
fn after_entries(storage: Storage, at: &mut Numbers, entries: &[Constant<'_>]) -> Result<(), Memory>
    ensures { IfOk result (λ _. numbers_view at.new ≡ after_entries storage (numbers_view at.old) (entries_view entries.now)) }
{
    for _each in entries {
        *at = after_entry(storage, *at)?;
    }
    Ok(())
}

/// Moves the numbers past an expression.
#[cycle(numbering)]
fn following(at: &mut Numbers, e: &Exp<'_>) -> Result<(), Memory>
    ensures { IfOk result (λ _. numbers_view at.new ≡ following (numbers_view at.old) (exp_view e.now)) }
{
    match e {
        Exp::String(_) | Exp::Table(_) => {
            *at = at.after_place()?;
            Ok(())
        }
        Exp::Valof(body) => {
            *at = at.after_valof()?;
            after_block(at, body)
        }
        Exp::Unary(_, operand) => following(at, operand),
        Exp::Bin(_, left, right) => {
            following(at, left)?;
            following(at, right)
        }
        Exp::Cond { test, this, that } => {
            following(at, test)?;
            following(at, this)?;
            following(at, that)
        }
        Exp::Call(routine, arguments) => {
            following(at, routine)?;
            after_all(at, arguments)
        }
        Exp::Name(_) | Exp::Num(_) | Exp::Character(_) | Exp::True | Exp::False => Ok(()),
    }
}

/// Moves the numbers past a list of expressions.
#[cycle(numbering)]
fn after_all(at: &mut Numbers, list: &[Exp<'_>]) -> Result<(), Memory>
    ensures { IfOk result (λ _. numbers_view at.new ≡ after_all (numbers_view at.old) (exps_view list.now)) }
{
    for e in list {
        following(at, e)?;
    }
    Ok(())
}

/// Moves the numbers past a block. Fails with `Memory` where a number exceeds 64 bits.
#[cycle(numbering)]
pub fn after_block(at: &mut Numbers, block: &Block<'_>) -> Result<(), Memory>
    ensures { IfOk result (λ _. numbers_view at.new ≡ after_block (numbers_view at.old) (block_view block.now)) }
{
    after_declarations(at, &block.declarations)?;
    *at = at.after_labels(labels_in(&block.items)?)?;
    after_items(at, &block.items)
}

/// Moves the numbers past declarations.
#[cycle(numbering)]
fn after_declarations(at: &mut Numbers, list: &[Declaration<'_>]) -> Result<(), Memory>
    ensures { IfOk result (λ _. numbers_view at.new ≡ after_declarations (numbers_view at.old) (declarations_view list.now)) }
{
    for declaration in list {
        after_declaration(at, declaration)?;
    }
    Ok(())
}

/// Moves the numbers past one declaration.
#[cycle(numbering)]
fn after_declaration(at: &mut Numbers, declaration: &Declaration<'_>) -> Result<(), Memory>
    ensures { IfOk result (λ _. numbers_view at.new ≡ after_declaration (numbers_view at.old) (declaration_view declaration.now)) }
{
    match declaration {
        Declaration::Constants(storage, entries) => after_entries(*storage, at, entries),
        Declaration::Let(definitions) => after_definitions(at, definitions),
    }
}

/// Moves the numbers past the definitions of a LET.
#[cycle(numbering)]
fn after_definitions(at: &mut Numbers, list: &[Definition<'_>]) -> Result<(), Memory>
    ensures { IfOk result (λ _. numbers_view at.new ≡ after_definitions (numbers_view at.old) (definitions_view list.now)) }
{
    for definition in list {
        after_definition(at, definition)?;
    }
    Ok(())
}

/// Moves the numbers past one definition. Fails with `Memory` where a number exceeds 64 bits.
#[cycle(numbering)]
pub fn after_definition(at: &mut Numbers, definition: &Definition<'_>) -> Result<(), Memory>
    ensures { IfOk result (λ _. numbers_view at.new ≡ after_definition (numbers_view at.old) (definition_view definition.now)) }
{
    match definition {
        Definition::Variables(_, values) => after_all(at, values),
        Definition::Vector(_, _) => Ok(()),
        Definition::Function(_, _, value) => {
            *at = at.after_place()?;
            following(at, value)
        }
        Definition::Routine(_, _, body) => {
            *at = at.after_place()?;
            after_block(at, body)
        }
    }
}

/// Moves the numbers past the items of a list, whose labels are already counted.
#[cycle(numbering)]
fn after_items(at: &mut Numbers, list: &[Item<'_>]) -> Result<(), Memory>
    ensures { IfOk result (λ _. numbers_view at.new ≡ after_items (numbers_view at.old) (items_view list.now)) }
{
    for item in list {
        after_item(at, item)?;
    }
    Ok(())
}

/// Moves the numbers past the command of an item.
#[cycle(numbering)]
fn after_item(at: &mut Numbers, item: &Item<'_>) -> Result<(), Memory>
    ensures { IfOk result (λ _. numbers_view at.new ≡ after_item (numbers_view at.old) (item_view item.now)) }
{
    match &item.command {
        Some(command) => after_command(at, command),
        None => Ok(()),
    }
}

/// Moves the numbers past a command.
#[cycle(numbering)]
fn after_command(at: &mut Numbers, command: &Command<'_>) -> Result<(), Memory>
    ensures { IfOk result (λ _. numbers_view at.new ≡ after_command (numbers_view at.old) (command_view command.now)) }
{
    match command {
        Command::Assign(places, values) => {
            after_all(at, places)?;
            after_all(at, values)
        }
        Command::Call(routine, arguments) => {
            following(at, routine)?;
            after_all(at, arguments)
        }
        Command::Block(block) => after_block(at, block),
        Command::ResultIs(value) => following(at, value),
        Command::Repeat(repeated) => after_command(at, repeated),
        Command::RepeatWhile(repeated, test) | Command::RepeatUntil(repeated, test) => {
            after_command(at, repeated)?;
            following(at, test)
        }
        Command::If(test, body)
        | Command::Unless(test, body)
        | Command::While(test, body)
        | Command::Until(test, body) => {
            following(at, test)?;
            after_block(at, body)
        }
        Command::Test { test, this, that } => {
            following(at, test)?;
            after_block(at, this)?;
            after_block(at, that)
        }
        Command::For {
            start,
            limit,
            body,
            ..
        } => {
            following(at, start)?;
            following(at, limit)?;
            after_block(at, body)
        }
        Command::SwitchOn(value, items) => {
            following(at, value)?;
            *at = at.after_labels(labels_in(items)?)?;
            after_items(at, items)
        }
        Command::Break
        | Command::Loop
        | Command::EndCase
        | Command::Return
        | Command::Finish
        | Command::Goto(_) => Ok(()),
    }
}
