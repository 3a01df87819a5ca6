//! The walk that collects the places and VALOFs of a section in text order, each with its translation, and the public call.
//!
//! Each function adds to `found` and moves its numbers past the part. It fails with `Memory` when an allocation fails or a number
//! is too large. The scope is the same afterwards, except after `declarations`, `declaration` and `entries`, which add names,
//! and after an error.
ghost use Rattle.std.specs.Prelude.{◌≡◌, ◌+◌, ◌∷◌, [], map, length, drop, IfOk};
ghost use Rattle.bc_core.specs.View.{section};
ghost use Rattle.bc_core.specs.Level.{level_in_for, level_after_parameters};
ghost use Rattle.bc_parse_tree.specs.Tree.{Valof as Valof_tree};
ghost use Rattle.bc_parse_tree.specs.View.{exp_view, exps_view, command_view, block_view, declaration_view, declarations_view, definition_view, definitions_view, entries_view, item_view, items_view};
ghost use Rattle.bc_scope_defs.specs.Characters.{decoded as decoded_of};
ghost use Rattle.bc_scope_defs.specs.Scope.{after_valof, after_labels, after_place};
ghost use Rattle.bc_scope_defs.specs.Scoping.{in_entries, in_declaration, in_declarations, in_list, in_for, cells_in, level_after};
ghost use Rattle.bc_scope_defs.specs.Numbering.{labels_in as labels_in_of, after_entry as after_entry_of, after_entries, following, after_all, after_block, after_declarations, after_definitions, after_declaration, after_definition, after_items, after_item, after_command};
ghost use Rattle.bc_scope_defs.specs.Found.{Data, AText, ATable, Gives, Does, words_of_table as words_of, found_entry, found_in_entries, found as found_in, found_in_arguments, found_in_sides, found_in_initials, found_in_declaration, found_in_declarations, found_in_block, found_in_command, in_parameters as names_in};
ghost use Rattle.bc_scope_defs.specs.Translation.{core_of};
ghost use Rattle.bc_scope_names.specs.View.{scope_view, numbers_view, Declares};
ghost use Rattle.bc_scope_translate.specs.Definitions.{routine_setting, found_in_definition_by, found_in_definitions_by};
ghost use Rattle.bc_scope_translate.specs.Finding.{Gathers, GathersWithin, core_view, found_after, found_items, item_found, head_level};

use crate::blocks;
use crate::characters::decoded;
use crate::expressions::value;
use crate::gathered::Gathered;
use crate::numbering::NextNumbers;
use bc_core::{Body, Place, Routine, Valof};
use bc_parse_tree::{Block, Command, Constant, Declaration, Definition, Exp, Item, Storage};
use bc_scope_names::{
    Meant, Priors, Scope, constant, count, declare_entry, declare_let, declare_list,
    declare_parameters, declare_pending, labels_in, priors_of_let, short, side_levels, sum,
};
use bc_word::{Memory, Word};
use std::alloc::Global;

/// The words of a TABLE.
fn words_of_table<'s>(scope: &Scope<'s>, values: &[Exp<'s>]) -> Result<Vec<Word>, Memory>
    ensures { IfOk result (λ ws. ws.items ≡ words_of (scope_view scope.now) (exps_view values.now)) }
{
    let mut words = Vec::with_capacity(scope.alloc(), values.len())?;
    for e in values {
        words.push(constant(scope, e))?;
    }
    Ok(words)
}

/// Adds the place of an entry if it is a static, whose cell begins with `value`.
fn entry(found: &mut Gathered, storage: Storage, value: Word) -> Result<(), Memory>
    ensures { Gathers result found.old found.new (after_entry_of storage (numbers_view found.old.at)) (found_entry storage (numbers_view found.old.at) value) }
{
    match storage {
        Storage::Static => found.place(Place::Static(value)),
        Storage::Manifest | Storage::Global => Ok(()),
    }
}

/// Adds the place of a string, by its spelling with the quotes.
#[inline(never)]
fn text(alloc: Global, found: &mut Gathered, spelling: &[u8]) -> Result<(), Memory>
    ensures { Gathers result found.old found.new (after_place (numbers_view found.old.at)) (Data found.old.at.place (AText (decoded_of spelling.now)) ∷ []) }
{
    let bytes = decoded(alloc, spelling)?;
    found.place(Place::Text(bytes))
}

/// Adds the place of a TABLE.
#[inline(never)]
fn table<'s>(scope: &Scope<'s>, found: &mut Gathered, values: &[Exp<'s>]) -> Result<(), Memory>
    ensures { Gathers result found.old found.new (after_place (numbers_view found.old.at))
        (Data found.old.at.place (ATable (words_of (scope_view scope.now) (exps_view values.now))) ∷ []) }
{
    let words = words_of_table(scope, values)?;
    found.place(Place::Table(words))
}

/// The level of pair `i` of an assignment, counted from 0; 0 if there are no more than `i` levels.
#[tactic(auto, using(std::proofs::lemmas::List::drop_more, std::proofs::lemmas::List::drop_all))]
fn level_at(levels: &[u64], i: u64) -> u64
    ensures { result ≡ head_level (drop i levels.now) }
{
    let i = i as usize;
    if i < levels.len() { levels[i] } else { 0 }
}

/// Adds the statics and the names of the entries of a MANIFEST, STATIC or GLOBAL.
#[inline(never)]
fn entries<'s>(
    scope: &mut Scope<'s>,
    found: &mut Gathered,
    storage: Storage,
    list: &[Constant<'s>],
) -> Result<(), Memory>
    ensures { IfOk result (λ _. (core_view found.new
        ≡ found_after (core_view found.old) (found_in_entries storage (numbers_view found.old.at) (entries_view list.now) (scope_view scope.old)))
        × (numbers_view found.new.at ≡ after_entries storage (numbers_view found.old.at) (entries_view list.now))
        × Declares scope.old scope.new (in_entries storage (numbers_view found.old.at) (entries_view list.now) (scope_view scope.old))) }
{
    for tree in list {
        let value = constant(scope, &tree.value);
        declare_entry(scope, storage, found.at, tree)?;
        entry(found, storage, value)?;
    }
    Ok(())
}

/// Collects from an expression at `level`.
#[cycle(finding)]
fn expression<'s>(
    scope: &mut Scope<'s>,
    found: &mut Gathered,
    e: &Exp<'s>,
    level: u64,
) -> Result<(), Memory>
    ensures { GathersWithin result found.old found.new (following (numbers_view found.old.at) (exp_view e.now))
        (found_in (scope_view scope.old) (numbers_view found.old.at) (exp_view e.now) level) scope.old scope.new }
{
    match e {
        Exp::Name(_) | Exp::Num(_) | Exp::Character(_) | Exp::True | Exp::False => Ok(()),
        Exp::String(spelling) => text(scope.alloc(), found, spelling),
        Exp::Table(values) => table(scope, found, values),
        Exp::Valof(body) => valof(scope, found, body, level),
        Exp::Unary(_, operand) => expression(scope, found, operand, level),
        Exp::Bin(_, left, right) => {
            let above = sum(level, 1)?;
            expression(scope, found, left, above)?;
            expression(scope, found, right, above)
        }
        Exp::Cond { test, this, that } => {
            expression(scope, found, test, level)?;
            expression(scope, found, this, level)?;
            expression(scope, found, that, level)
        }
        Exp::Call(routine, values) => {
            let first = sum(level, 2)?;
            expression(scope, found, routine, sum(first, count(values))?)?;
            arguments(scope, found, values, first)
        }
    }
}

/// Adds a VALOF with its translation, and then collects from its body.
#[inline(never)]
#[tactic(auto, using(bc_scope_names::proofs::Extends::left))]
#[cycle(finding)]
fn valof<'s>(
    scope: &mut Scope<'s>,
    found: &mut Gathered,
    body: &Block<'s>,
    level: u64,
) -> Result<(), Memory>
    ensures { GathersWithin result found.old found.new (after_block (after_valof (numbers_view found.old.at)) (block_view body.now))
        (found_in (scope_view scope.old) (numbers_view found.old.at) (Valof_tree (block_view body.now)) level) scope.old scope.new }
{
    let outside = scope.mark();
    scope.enter_valof()?;
    let inside = found.at.after_valof()?;
    found.go_on_at(inside);
    let mut at = NextNumbers::new(inside);
    let translated = blocks::block(scope, &mut at, body, level)?;
    found.valof(Valof {
        level: short(level)?,
        body: translated,
    })?;
    block(scope, found, body, level)?;
    scope.leave(outside);
    Ok(())
}

/// Collects from arguments, each one level above the one before.
#[cycle(finding)]
fn arguments<'s>(
    scope: &mut Scope<'s>,
    found: &mut Gathered,
    list: &[Exp<'s>],
    level: u64,
) -> Result<(), Memory>
    ensures { GathersWithin result found.old found.new (after_all (numbers_view found.old.at) (exps_view list.now))
        (found_in_arguments (scope_view scope.old) (numbers_view found.old.at) (exps_view list.now) level) scope.old scope.new }
{
    let mut above = level;
    for e in list {
        expression(scope, found, e, above)?;
        above = sum(above, 1)?;
    }
    Ok(())
}

/// Collects from one side of an assignment, each expression at its level in `levels`.
#[cycle(finding)]
fn sides<'s>(
    scope: &mut Scope<'s>,
    found: &mut Gathered,
    list: &[Exp<'s>],
    levels: &[u64],
) -> Result<(), Memory>
    ensures { GathersWithin result found.old found.new (after_all (numbers_view found.old.at) (exps_view list.now))
        (found_in_sides (scope_view scope.old) (numbers_view found.old.at) (exps_view list.now) levels.now) scope.old scope.new }
{
    let mut i = 0u64;
    for e in list {
        expression(scope, found, e, level_at(levels, i))?;
        i = sum(i, 1)?;
    }
    Ok(())
}

/// Collects from the initial values of variables, all at the same level.
#[cycle(finding)]
fn initials<'s>(
    scope: &mut Scope<'s>,
    found: &mut Gathered,
    list: &[Exp<'s>],
    level: u64,
) -> Result<(), Memory>
    ensures { GathersWithin result found.old found.new (after_all (numbers_view found.old.at) (exps_view list.now))
        (found_in_initials (scope_view scope.old) (numbers_view found.old.at) (exps_view list.now) level) scope.old scope.new }
{
    for e in list {
        expression(scope, found, e, level)?;
    }
    Ok(())
}

/// Collects from a definition. `global` is the global that it sets, if it is a routine that sets one.
#[cycle(finding)]
fn definition<'s>(
    scope: &mut Scope<'s>,
    found: &mut Gathered,
    global: Option<u16>,
    tree: &Definition<'s>,
    level: u64,
) -> Result<(), Memory>
    ensures { GathersWithin result found.old found.new (after_definition (numbers_view found.old.at) (definition_view tree.now))
        (found_in_definition_by global (scope_view scope.old) (numbers_view found.old.at) (definition_view tree.now) level) scope.old scope.new }
{
    match tree {
        Definition::Variables(_, values) => initials(scope, found, values, level),
        Definition::Vector(_, _) => Ok(()),
        Definition::Function(_, parameters, given) => {
            function(scope, found, global, parameters, given)
        }
        Definition::Routine(_, parameters, body) => {
            routine(scope, found, global, parameters, body)
        }
    }
}

/// Adds a routine that is an expression, and then collects from its value. It sets `global`, if there is one.
#[inline(never)]
#[cycle(finding)]
fn function<'s>(
    scope: &mut Scope<'s>,
    found: &mut Gathered,
    global: Option<u16>,
    parameters: &[&'s [u8]],
    given: &Exp<'s>,
) -> Result<(), Memory>
    ensures { GathersWithin result found.old found.new (following (after_place (numbers_view found.old.at)) (exp_view given.now))
        (routine_setting global (scope_view scope.old) (numbers_view found.old.at) (map (λ n. n.now) parameters.now) (Gives (exp_view given.now))
        ∷ found_in (names_in (map (λ n. n.now) parameters.now) (scope_view scope.old)) (after_place (numbers_view found.old.at)) (exp_view given.now)
        (level_after_parameters (length (map (λ n. n.now) parameters.now)))) scope.old scope.new }
{
    let outside = scope.mark();
    declare_parameters(scope, parameters)?;
    let count = parameters.len() as u64;
    let mut at = NextNumbers::new(found.at.after_place()?);
    let given_value = value(scope, &mut at, given)?;
    found.place(Place::Routine(Routine {
        global,
        parameters: short(count)?,
        body: Body::Value(given_value),
    }))?;
    expression(scope, found, given, sum(2, count)?)?;
    scope.leave(outside);
    Ok(())
}

/// Adds a routine that is a block, and then collects from its body. It sets `global`, if there is one.
#[cycle(finding)]
fn routine<'s>(
    scope: &mut Scope<'s>,
    found: &mut Gathered,
    global: Option<u16>,
    parameters: &[&'s [u8]],
    body: &Block<'s>,
) -> Result<(), Memory>
    ensures { GathersWithin result found.old found.new (after_block (after_place (numbers_view found.old.at)) (block_view body.now))
        (routine_setting global (scope_view scope.old) (numbers_view found.old.at) (map (λ n. n.now) parameters.now) (Does (block_view body.now))
        ∷ found_in_block (names_in (map (λ n. n.now) parameters.now) (scope_view scope.old)) (after_place (numbers_view found.old.at))
        (block_view body.now) (level_after_parameters (length (map (λ n. n.now) parameters.now)))) scope.old scope.new }
{
    let outside = scope.mark();
    declare_parameters(scope, parameters)?;
    let count = parameters.len() as u64;
    let level = sum(2, count)?;
    let mut at = NextNumbers::new(found.at.after_place()?);
    let commands = blocks::block(scope, &mut at, body, level)?;
    found.place(Place::Routine(Routine {
        global,
        parameters: short(count)?,
        body: Body::Commands(commands),
    }))?;
    block(scope, found, body, level)?;
    scope.leave(outside);
    Ok(())
}

/// Collects from the definitions of a LET whose names are already in scope. `priors` has the globals that its routines set.
#[cycle(finding)]
fn definitions<'s>(
    scope: &mut Scope<'s>,
    priors: &Priors,
    found: &mut Gathered,
    list: &[Definition<'s>],
    level: u64,
) -> Result<(), Memory>
    ensures { GathersWithin result found.old found.new (after_definitions (numbers_view found.old.at) (definitions_view list.now))
        (found_in_definitions_by priors.now.globals.items (scope_view scope.old) (numbers_view found.old.at)
        (definitions_view list.now) level) scope.old scope.new }
{
    let mut i = 0u64;
    for tree in list {
        definition(scope, found, priors.at(i).global, tree, level)?;
        i = sum(i, 1)?;
    }
    Ok(())
}

/// Collects from a declaration whose first free offset is `level`, and adds its names. Returns the next free offset.
#[cycle(finding)]
fn declaration<'s>(
    scope: &mut Scope<'s>,
    found: &mut Gathered,
    tree: &Declaration<'s>,
    level: u64,
) -> Result<u64, Memory>
    ensures { IfOk result (λ s. (s ≡ level + cells_in (scope_view scope.old) (declaration_view tree.now))
        × Declares scope.old scope.new (in_declaration (scope_view scope.old) (numbers_view found.old.at) level (declaration_view tree.now))
        × (core_view found.new ≡ found_after (core_view found.old)
        (found_in_declaration (scope_view scope.old) (numbers_view found.old.at) (declaration_view tree.now) level))
        × (numbers_view found.new.at ≡ after_declaration (numbers_view found.old.at) (declaration_view tree.now))) }
{
    match tree {
        Declaration::Constants(storage, list) => {
            declare_pending(scope, *storage, list)?;
            entries(scope, found, *storage, list)?;
            Ok(level)
        }
        Declaration::Let(list) => {
            let priors = priors_of_let(scope, list)?;
            let following = declare_let(scope, &priors, found.at, level, list)?;
            definitions(scope, &priors, found, list, following)?;
            Ok(following)
        }
    }
}

/// Collects from declarations from the free offset `level` on, and adds their names. Returns the next free offset.
#[inline(never)]
#[cycle(finding)]
fn declarations<'s>(
    scope: &mut Scope<'s>,
    found: &mut Gathered,
    list: &[Declaration<'s>],
    level: u64,
) -> Result<u64, Memory>
    ensures { IfOk result (λ s. (s ≡ level_after (scope_view scope.old) (numbers_view found.old.at) level (declarations_view list.now))
        × Declares scope.old scope.new (in_declarations (scope_view scope.old) (numbers_view found.old.at) level (declarations_view list.now))
        × (core_view found.new ≡ found_after (core_view found.old)
        (found_in_declarations (scope_view scope.old) (numbers_view found.old.at) (declarations_view list.now) level))
        × (numbers_view found.new.at ≡ after_declarations (numbers_view found.old.at) (declarations_view list.now))) }
{
    let mut following = level;
    for tree in list {
        following = declaration(scope, found, tree, following)?;
    }
    Ok(following)
}

/// Collects from a block.
#[cycle(finding)]
fn block<'s>(
    scope: &mut Scope<'s>,
    found: &mut Gathered,
    tree: &Block<'s>,
    level: u64,
) -> Result<(), Memory>
    ensures { GathersWithin result found.old found.new (after_block (numbers_view found.old.at) (block_view tree.now))
        (found_in_block (scope_view scope.old) (numbers_view found.old.at) (block_view tree.now) level) scope.old scope.new }
{
    let outside = scope.mark();
    let level = declarations(scope, found, &tree.declarations, level)?;
    command_list(scope, found, &tree.items, level)?;
    scope.leave(outside);
    Ok(())
}

/// Collects from a command list, with its labels in scope.
#[tactic(auto, using(bc_scope_names::proofs::Extends::left))]
#[cycle(finding)]
fn command_list<'s>(
    scope: &mut Scope<'s>,
    found: &mut Gathered,
    trees: &[Item<'s>],
    level: u64,
) -> Result<(), Memory>
    ensures { GathersWithin result found.old found.new (after_items (after_labels (numbers_view found.old.at) (labels_in_of (items_view trees.now)))
        (items_view trees.now)) (found_items (in_list found.old.at.label (items_view trees.now) (scope_view scope.old))
        (after_labels (numbers_view found.old.at) (labels_in_of (items_view trees.now))) (items_view trees.now) level) scope.old scope.new }
{
    let before_labels = scope.mark();
    declare_list(scope, found.at.label, trees)?;
    let inside = found.at.after_labels(labels_in(trees)?)?;
    found.go_on_at(inside);
    items(scope, found, trees, level)?;
    scope.leave(before_labels);
    Ok(())
}

/// Collects from the items of a list whose labels are already in scope and numbered.
#[cycle(finding)]
fn items<'s>(
    scope: &mut Scope<'s>,
    found: &mut Gathered,
    trees: &[Item<'s>],
    level: u64,
) -> Result<(), Memory>
    ensures { GathersWithin result found.old found.new (after_items (numbers_view found.old.at) (items_view trees.now))
        (found_items (scope_view scope.old) (numbers_view found.old.at) (items_view trees.now) level) scope.old scope.new }
{
    for tree in trees {
        one_item(scope, found, tree, level)?;
    }
    Ok(())
}

/// Collects from the command of an item, if it has one.
#[cycle(finding)]
fn one_item<'s>(
    scope: &mut Scope<'s>,
    found: &mut Gathered,
    tree: &Item<'s>,
    level: u64,
) -> Result<(), Memory>
    ensures { GathersWithin result found.old found.new (after_item (numbers_view found.old.at) (item_view tree.now))
        (item_found (scope_view scope.old) (numbers_view found.old.at) (item_view tree.now) level) scope.old scope.new }
{
    match &tree.command {
        Some(labelled) => command(scope, found, labelled, level),
        None => Ok(()),
    }
}

/// Collects from the body of a FOR with this variable at `level`; the limit is in the next cell.
#[inline(never)]
#[tactic(auto, using(bc_scope_names::proofs::Extends::left))]
#[cycle(finding)]
fn counted<'s>(
    scope: &mut Scope<'s>,
    found: &mut Gathered,
    variable: &'s [u8],
    body: &Block<'s>,
    level: u64,
) -> Result<(), Memory>
    ensures { GathersWithin result found.old found.new (after_block (numbers_view found.old.at) (block_view body.now))
        (found_in_block (in_for (scope_view scope.old) variable.entry.now level) (numbers_view found.old.at) (block_view body.now)
        (level_in_for level)) scope.old scope.new }
{
    let before_variable = scope.mark();
    scope.declare(variable, Meant::Variable(level))?;
    block(scope, found, body, sum(level, 2)?)?;
    scope.leave(before_variable);
    Ok(())
}

/// Collects from a command at `level`.
#[cycle(finding)]
fn command<'s>(
    scope: &mut Scope<'s>,
    found: &mut Gathered,
    tree: &Command<'s>,
    level: u64,
) -> Result<(), Memory>
    ensures { GathersWithin result found.old found.new (after_command (numbers_view found.old.at) (command_view tree.now))
        (found_in_command (scope_view scope.old) (numbers_view found.old.at) (command_view tree.now) level) scope.old scope.new }
{
    match tree {
        Command::Assign(places, values) => {
            let levels = side_levels(scope.alloc(), scope, places, level)?;
            sides(scope, found, places, &levels)?;
            sides(scope, found, values, &levels)
        }
        Command::Call(routine, values) => {
            let first = sum(level, 2)?;
            expression(scope, found, routine, sum(first, count(values))?)?;
            arguments(scope, found, values, first)
        }
        Command::Block(tree) => block(scope, found, tree, level),
        Command::Break
        | Command::Loop
        | Command::EndCase
        | Command::Return
        | Command::Finish
        | Command::Goto(_) => Ok(()),
        Command::ResultIs(result) => expression(scope, found, result, level),
        Command::Repeat(repeated) => command(scope, found, repeated, level),
        Command::RepeatWhile(repeated, test) | Command::RepeatUntil(repeated, test) => {
            command(scope, found, repeated, level)?;
            expression(scope, found, test, level)
        }
        Command::If(test, body)
        | Command::Unless(test, body)
        | Command::While(test, body)
        | Command::Until(test, body) => {
            expression(scope, found, test, level)?;
            block(scope, found, body, level)
        }
        Command::Test { test, this, that } => {
            expression(scope, found, test, level)?;
            block(scope, found, this, level)?;
            block(scope, found, that, level)
        }
        Command::For {
            variable,
            start,
            limit,
            body,
            ..
        } => {
            let above = sum(level, 2)?;
            expression(scope, found, start, above)?;
            expression(scope, found, limit, above)?;
            counted(scope, found, variable, body, level)
        }
        Command::SwitchOn(of, list) => {
            expression(scope, found, of, level)?;
            command_list(scope, found, list, level)
        }
    }
}

/// The translation of a section.
#[derive(Debug, Drop)]
pub struct Translated {
    /// The places, labelled from 1 in text order.
    pub places: Vec<Place>,
    /// The VALOFs, numbered from 0 in text order.
    pub valofs: Vec<Valof>,
}

/// Translates the declarations of a section.
///
/// `scope` must be empty. The section should have no fault: otherwise the result is still what the definitions say, but it has no
/// meaning. Fails with `Memory` when an allocation fails, or when a label, offset or number exceeds 65,535, which can't happen in
/// a section without fault.
#[tactic(auto, using(crate::proofs::Finding::found_whole), unfolding(crate::specs::Finding::core_view, bc_scope_names::specs::View::scope_view))]
pub fn translate<'s>(scope: &mut Scope<'s>, list: &[Declaration<'s>]) -> Result<Translated, Memory>
    requires { scope.old ≡ [] }
    ensures { IfOk result (λ t. section (t.places.items, t.valofs.items) ≡ core_of (declarations_view list.now)) }
{
    let mut found = Gathered::new(scope.alloc());
    declarations(scope, &mut found, list, 0)?;
    let Gathered { places, valofs, .. } = found;
    Ok(Translated { places, valofs })
}
