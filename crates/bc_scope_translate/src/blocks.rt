//! The translation of blocks and commands. Each function moves the numbers `at` past the part that it translates, and fails with
//! `Memory` when an allocation fails or a number is too large. The scope is the same afterwards, except after `declarations`,
//! `declaration` and `entries`, which add names, and after an error.
//!
//! Functions that build one form of command are never inlined. Otherwise their locals would be on the stack of `command` while
//! inner blocks are translated, and each level of nesting would take about twice as much stack.
ghost use Rattle.std.specs.Prelude.{◌≡◌, ◌+◌, ◌++◌, ◌∷◌, [], map, IfOk};
ghost use Rattle.bc_core.specs.Commands.{Call, Goto, If, Nested, ResultIs, Test, While, Repeat, RepeatWhile, For, SwitchOn};
ghost use Rattle.bc_core.specs.Tree.{Call as call_of};
ghost use Rattle.bc_core.specs.View.{variable, declarations as declarations_of, command as command_of, items as items_of, block_of as core_block_of};
ghost use Rattle.bc_parse_tree.specs.View.{exp_view, exps_view, command_view, block_view, declaration_view, declarations_view, definition_view, definitions_view, entries_view, label_view, labels_view, item_view, items_view};
ghost use Rattle.bc_scope_defs.specs.Meaning.{label_number as label_number_of};
ghost use Rattle.bc_scope_defs.specs.Scoping.{in_entries, in_declaration, in_declarations, in_list, in_for, cells_in, level_after};
ghost use Rattle.bc_scope_defs.specs.Scope.{after_labels, meant_by};
ghost use Rattle.bc_scope_defs.specs.Numbering.{labels_of, labels_in as labels_in_of, after_entries, following, after_all, after_block, after_declarations, after_definitions, after_declaration, after_definition as after_definition_of, after_items, after_item, after_command};
ghost use Rattle.bc_scope_defs.specs.Translation.{forms, forms_of_all, initials as initials_of, core_declaration, core_declarations, core_block, core_items, core_command, core_arguments, block_of as block_of_one};
ghost use Rattle.bc_core.specs.Level.{level_in_for};
ghost use Rattle.bc_scope_names.specs.View.{meant_view, scope_view, Declares};
ghost use Rattle.bc_scope_translate.specs.Next.{next_numbers};
ghost use Rattle.bc_scope_translate.specs.Seen.{Translates, TranslatesWithin, entry_view, label_entries, labels_before, command_entry, ACommand, condition_view, branch_view};
ghost use Rattle.bc_scope_translate.specs.Definitions.{core_definition_by, core_definitions_by};

use crate::assignments::assigned;
use crate::commands::{chosen, conditional, counting, forever, looped, nested, repeated, switch};
use crate::expressions::{call, value};
use crate::forms::block_of;
use crate::numbering::NextNumbers;
use bc_core::{
    Block as CoreBlock, Command as CoreCommand, Condition, CoreExp, Declaration as CoreDeclaration,
    ListItem, Variable,
};
use bc_parse_tree::{Block, Command, Constant, Declaration, Definition, Exp, Item, Label, Storage};
use bc_scope_names::{
    Meant, Priors, Scope, after_entry, constant, declare_entry, declare_let, declare_list,
    declare_pending, labels_in, priors_of_let, short, sum,
};
use bc_word::{Memory, Word};

/// The first part of a TEST: its condition, and the branch taken if it holds. TEST is translated by two functions with one block
/// each, because a function with two trees of the cycle would need a measure to prove that it returns.
#[derive(Drop)]
struct Branch {
    test: CoreExp,
    this: CoreBlock,
}

/// Translates the initial values of variables.
fn initials<'t, 's>(
    scope: &Scope<'s>,
    at: &mut NextNumbers<'t, 's>,
    variables: &mut Vec<Variable>,
    list: &'t [Exp<'s>],
) -> Result<(), Memory>
    ensures { Translates (λ _. map variable variables.new.items) result (map variable variables.old.items
        ++ initials_of (forms_of_all (scope_view scope.now) (next_numbers at.old) (exps_view list.now))) at.new
        (after_all (next_numbers at.old) (exps_view list.now)) }
{
    for e in list {
        variables.push(Variable::Value(value(scope, at, e)?))?;
    }
    Ok(())
}

/// Translates one definition to variables. `greatest` is the greatest index of a vector.
fn definition<'t, 's>(
    scope: &Scope<'s>,
    greatest: u16,
    at: &mut NextNumbers<'t, 's>,
    variables: &mut Vec<Variable>,
    tree: &'t Definition<'s>,
) -> Result<(), Memory>
    ensures { Translates (λ _. map variable variables.new.items) result (map variable variables.old.items
        ++ core_definition_by greatest (scope_view scope.now) (next_numbers at.old) (definition_view tree.now)) at.new
        (after_definition_of (next_numbers at.old) (definition_view tree.now)) }
{
    match tree {
        Definition::Variables(_, values) => initials(scope, at, variables, values),
        Definition::Vector(_, _) => Ok(variables.push(Variable::Vector(Word::new(greatest)))?),
        Definition::Function(_, _, _) | Definition::Routine(_, _, _) => at.pass(tree),
    }
}

/// The number of variables that a LET declares, at most the greatest `usize`. It is only used to reserve room.
fn variables_in(list: &[Definition<'_>]) -> usize {
    let mut variables = 0usize;
    for tree in list {
        variables = variables.saturating_add(match tree {
            Definition::Variables(_, values) => values.len(),
            Definition::Vector(_, _) => 1,
            Definition::Function(_, _, _) | Definition::Routine(_, _, _) => 0,
        });
    }
    variables
}

/// Translates the definitions of a LET whose names are already in scope. `priors` has the sizes of its vectors.
fn definitions<'t, 's>(
    scope: &Scope<'s>,
    priors: &Priors,
    at: &mut NextNumbers<'t, 's>,
    list: &'t [Definition<'s>],
) -> Result<Vec<Variable>, Memory>
    ensures { Translates (λ vs. map variable vs.items) result (core_definitions_by priors.now.greatest.items (scope_view scope.now) (next_numbers at.old)
        (definitions_view list.now)) at.new (after_definitions (next_numbers at.old) (definitions_view list.now)) }
{
    let mut variables = Vec::with_capacity(scope.alloc(), variables_in(list))?;
    let mut i = 0u64;
    for tree in list {
        definition(scope, priors.at(i).greatest, at, &mut variables, tree)?;
        i = sum(i, 1)?;
    }
    Ok(variables)
}

/// Adds the names of the entries of a MANIFEST, STATIC or GLOBAL with their final meanings.
#[inline(never)]
fn entries<'t, 's>(
    scope: &mut Scope<'s>,
    at: &mut NextNumbers<'t, 's>,
    storage: Storage,
    list: &[Constant<'s>],
) -> Result<(), Memory>
    ensures { IfOk result (λ _. Declares scope.old scope.new (in_entries storage (next_numbers at.old) (entries_view list.now) (scope_view scope.old))
        × (next_numbers at.new ≡ after_entries storage (next_numbers at.old) (entries_view list.now))) }
{
    for entry in list {
        let numbers = at.count()?;
        declare_entry(scope, storage, numbers, entry)?;
        *at = NextNumbers::new(after_entry(storage, numbers)?);
    }
    Ok(())
}

/// Translates a declaration whose first free offset is `level`, and adds its names. Returns the next free offset.
fn declaration<'t, 's>(
    scope: &mut Scope<'s>,
    at: &mut NextNumbers<'t, 's>,
    declarations: &mut Vec<CoreDeclaration>,
    tree: &'t Declaration<'s>,
    level: u64,
) -> Result<u64, Memory>
    ensures { IfOk result (λ s. (s ≡ level + cells_in (scope_view scope.old) (declaration_view tree.now))
        × Declares scope.old scope.new (in_declaration (scope_view scope.old) (next_numbers at.old) level (declaration_view tree.now))
        × (next_numbers at.new ≡ after_declaration (next_numbers at.old) (declaration_view tree.now))
        × (declarations_of declarations.new.items ≡ declarations_of declarations.old.items
        ++ core_declaration (scope_view scope.old) (next_numbers at.old) level (declaration_view tree.now))) }
{
    match tree {
        Declaration::Constants(storage, list) => {
            declare_pending(scope, *storage, list)?;
            entries(scope, at, *storage, list)?;
            Ok(level)
        }
        Declaration::Let(list) => {
            let priors = priors_of_let(scope, list)?;
            let numbers = at.settle()?;
            let following = declare_let(scope, &priors, numbers, level, list)?;
            let variables = definitions(scope, &priors, at, list)?;
            declarations.push(CoreDeclaration { variables })?;
            Ok(following)
        }
    }
}

/// Translates declarations from the free offset `level` on, and adds their names. Returns the next free offset.
#[inline(never)]
fn declarations<'t, 's>(
    scope: &mut Scope<'s>,
    at: &mut NextNumbers<'t, 's>,
    declarations: &mut Vec<CoreDeclaration>,
    list: &'t [Declaration<'s>],
    level: u64,
) -> Result<u64, Memory>
    ensures { IfOk result (λ s. (s ≡ level_after (scope_view scope.old) (next_numbers at.old) level (declarations_view list.now))
        × Declares scope.old scope.new (in_declarations (scope_view scope.old) (next_numbers at.old) level (declarations_view list.now))
        × (next_numbers at.new ≡ after_declarations (next_numbers at.old) (declarations_view list.now))
        × (declarations_of declarations.new.items ≡ declarations_of declarations.old.items
        ++ core_declarations (scope_view scope.old) (next_numbers at.old) level (declarations_view list.now))) }
{
    let mut following = level;
    for tree in list {
        following = declaration(scope, at, declarations, tree, following)?;
    }
    Ok(following)
}

/// Adds the labels before a command to `list`, named ones numbered from `number`, and returns the next number.
#[inline(never)]
fn labels<'s>(
    scope: &Scope<'s>,
    list: &mut Vec<ListItem>,
    number: u64,
    trees: &[Label<'s>],
) -> Result<u64, Memory>
    ensures { IfOk result (λ n. (n ≡ number + labels_of (labels_view trees.now))
        × (map entry_view list.new.items ≡ map entry_view list.old.items ++ label_entries (scope_view scope.now) number (labels_view trees.now))) }
{
    let mut number = number;
    for tree in trees {
        match tree {
            Label::Case(value) => list.push(ListItem::Case(constant(scope, value)))?,
            Label::Default => list.push(ListItem::Default)?,
            Label::Name(_) => {
                list.push(ListItem::Label(short(number)?))?;
                number = sum(number, 1)?;
            }
        }
    }
    Ok(number)
}

/// Translates the test of a command; `sense` is the truth value for which the body is executed.
fn condition<'t, 's>(
    scope: &Scope<'s>,
    at: &mut NextNumbers<'t, 's>,
    sense: bool,
    test: &'t Exp<'s>,
) -> Result<Condition, Memory>
    ensures { Translates condition_view result (sense, (forms (scope_view scope.now) (next_numbers at.old) (exp_view test.now)).content) at.new
        (following (next_numbers at.old) (exp_view test.now)) }
{
    let test = value(scope, at, test)?;
    Ok(Condition { sense, test })
}

/// The number of a label; 0 for any other meaning.
fn label_number(meant: Meant) -> u64
    ensures { result ≡ label_number_of (meant_view meant) }
{
    match meant {
        Meant::Label(number) => number,
        _ => 0,
    }
}

/// The list item that is this command.
fn entry(labelled: CoreCommand) -> ListItem
    ensures { entry_view result ≡ ACommand (command_of labelled) }
{
    ListItem::Command(labelled)
}

/// Appends a command to a list.
#[inline(never)]
fn push_command(list: &mut Vec<ListItem>, labelled: CoreCommand) -> Result<(), Memory>
    ensures { IfOk result (λ _. map entry_view list.new.items ≡ map entry_view list.old.items ++ ACommand (command_of labelled) ∷ []) }
{
    Ok(list.push(entry(labelled))?)
}

/// Translates a block at `level`, the first free offset of its frame.
#[cycle(blocks)]
pub fn block<'t, 's>(
    scope: &mut Scope<'s>,
    at: &mut NextNumbers<'t, 's>,
    tree: &'t Block<'s>,
    level: u64,
) -> Result<CoreBlock, Memory>
    ensures { TranslatesWithin core_block_of result (core_block (scope_view scope.old) (next_numbers at.old) (block_view tree.now) level) at.new
        (after_block (next_numbers at.old) (block_view tree.now)) scope.old scope.new }
{
    let outside = scope.mark();
    let mut opened = Vec::new(scope.alloc());
    let level = declarations(scope, at, &mut opened, &tree.declarations, level)?;
    let list = command_list(scope, at, &tree.items, level)?;
    scope.leave(outside);
    Ok(CoreBlock {
        declarations: opened,
        list,
    })
}

/// Translates a command list, with its labels in scope.
#[tactic(auto, using(crate::proofs::Unlabelled::unlabelled, crate::proofs::Unlabelled::after_unlabelled))]
#[cycle(blocks)]
fn command_list<'t, 's>(
    scope: &mut Scope<'s>,
    at: &mut NextNumbers<'t, 's>,
    trees: &'t [Item<'s>],
    level: u64,
) -> Result<Vec<ListItem>, Memory>
    ensures { TranslatesWithin (λ is. items_of is.items) result
        (core_items (in_list (next_numbers at.old).label (items_view trees.now) (scope_view scope.old)) (next_numbers at.old).label
        (after_labels (next_numbers at.old) (labels_in_of (items_view trees.now))) (items_view trees.now) level) at.new
        (after_items (after_labels (next_numbers at.old) (labels_in_of (items_view trees.now))) (items_view trees.now)) scope.old scope.new }
{
    let labels = labels_in(trees)?;
    if labels == 0 {
        // Without labels nothing needs the numbers, so they are not counted.
        return items(scope, at, 0, trees, level);
    }
    let numbers = at.count()?;
    *at = NextNumbers::new(numbers.after_labels(labels)?);
    labelled_list(scope, at, numbers.label, trees, level)
}

/// Translates a command list with its labels in scope, numbered from `number`.
#[tactic(auto, using(bc_scope_names::proofs::Extends::left))]
#[cycle(blocks)]
fn labelled_list<'t, 's>(
    scope: &mut Scope<'s>,
    at: &mut NextNumbers<'t, 's>,
    number: u64,
    trees: &'t [Item<'s>],
    level: u64,
) -> Result<Vec<ListItem>, Memory>
    ensures { TranslatesWithin (λ is. items_of is.items) result (core_items (in_list number (items_view trees.now) (scope_view scope.old)) number
        (next_numbers at.old) (items_view trees.now) level) at.new (after_items (next_numbers at.old) (items_view trees.now)) scope.old scope.new }
{
    let before_labels = scope.mark();
    declare_list(scope, number, trees)?;
    let list = items(scope, at, number, trees, level)?;
    scope.leave(before_labels);
    Ok(list)
}

/// Translates the items of a list whose labels are already in scope, numbered from `number`.
#[cycle(blocks)]
fn items<'t, 's>(
    scope: &mut Scope<'s>,
    at: &mut NextNumbers<'t, 's>,
    number: u64,
    trees: &'t [Item<'s>],
    level: u64,
) -> Result<Vec<ListItem>, Memory>
    ensures { TranslatesWithin (λ is. items_of is.items) result
        (core_items (scope_view scope.old) number (next_numbers at.old) (items_view trees.now) level) at.new
        (after_items (next_numbers at.old) (items_view trees.now)) scope.old scope.new }
{
    let mut list = Vec::with_capacity(scope.alloc(), trees.len())?;
    let mut number = number;
    for tree in trees {
        number = item(scope, at, number, tree, level, &mut list)?;
    }
    Ok(list)
}

/// Translates an item and appends it to `list`. Its labels are numbered from `number`; returns the next number.
#[cycle(blocks)]
fn item<'t, 's>(
    scope: &mut Scope<'s>,
    at: &mut NextNumbers<'t, 's>,
    number: u64,
    tree: &'t Item<'s>,
    level: u64,
    list: &mut Vec<ListItem>,
) -> Result<u64, Memory>
    ensures { IfOk result (λ n. (map entry_view list.new.items ≡ map entry_view list.old.items
        ++ (label_entries (scope_view scope.old) number (labels_before (item_view tree.now)) ++ command_entry (scope_view scope.old) (next_numbers at.old)
        (item_view tree.now) level)) × (next_numbers at.new ≡ after_item (next_numbers at.old) (item_view tree.now))
        × (n ≡ number + labels_of (labels_before (item_view tree.now))) × (scope.new ≡ scope.old)) }
{
    let following = labels(scope, list, number, &tree.labels)?;
    match &tree.command {
        Some(labelled) => {
            push_command(list, command(scope, at, labelled, level)?)?;
            Ok(following)
        }
        None => Ok(following),
    }
}

/// Translates the body of REPEAT, REPEATWHILE or REPEATUNTIL, to a block of one command.
#[inline(never)]
#[cycle(blocks)]
fn body<'t, 's>(
    scope: &mut Scope<'s>,
    at: &mut NextNumbers<'t, 's>,
    tree: &'t Command<'s>,
    level: u64,
) -> Result<CoreBlock, Memory>
    ensures { TranslatesWithin core_block_of result
        (block_of_one (core_command (scope_view scope.old) (next_numbers at.old) (command_view tree.now) level)) at.new
        (after_command (next_numbers at.old) (command_view tree.now)) scope.old scope.new }
{
    let repeated = command(scope, at, tree, level)?;
    block_of(scope.alloc(), repeated)
}

/// Translates the body of a FOR with this variable at `level`; the limit is in the next cell.
#[inline(never)]
#[tactic(auto, using(bc_scope_names::proofs::Extends::left))]
#[cycle(blocks)]
fn counted<'t, 's>(
    scope: &mut Scope<'s>,
    at: &mut NextNumbers<'t, 's>,
    variable: &'s [u8],
    tree: &'t Block<'s>,
    level: u64,
) -> Result<CoreBlock, Memory>
    ensures { TranslatesWithin core_block_of result (core_block (in_for (scope_view scope.old) variable.entry.now level) (next_numbers at.old)
        (block_view tree.now) (level_in_for level)) at.new (after_block (next_numbers at.old) (block_view tree.now)) scope.old scope.new }
{
    let before_variable = scope.mark();
    scope.declare(variable, Meant::Variable(level))?;
    let body = block(scope, at, tree, sum(level, 2)?)?;
    scope.leave(before_variable);
    Ok(body)
}

/// IF or UNLESS.
#[inline(never)]
#[cycle(blocks)]
fn guarded<'t, 's>(
    scope: &mut Scope<'s>,
    at: &mut NextNumbers<'t, 's>,
    tree: &'t Block<'s>,
    sense: bool,
    test: &'t Exp<'s>,
    level: u64,
) -> Result<CoreCommand, Memory>
    ensures { TranslatesWithin command_of result (If sense (forms (scope_view scope.old) (next_numbers at.old) (exp_view test.now)).content
        (core_block (scope_view scope.old) (following (next_numbers at.old) (exp_view test.now)) (block_view tree.now) level)) at.new
        (after_block (following (next_numbers at.old) (exp_view test.now)) (block_view tree.now)) scope.old scope.new }
{
    let test = condition(scope, at, sense, test)?;
    Ok(conditional(test, block(scope, at, tree, level)?))
}

/// WHILE or UNTIL.
#[inline(never)]
#[cycle(blocks)]
fn guarded_loop<'t, 's>(
    scope: &mut Scope<'s>,
    at: &mut NextNumbers<'t, 's>,
    tree: &'t Block<'s>,
    sense: bool,
    test: &'t Exp<'s>,
    level: u64,
) -> Result<CoreCommand, Memory>
    ensures { TranslatesWithin command_of result (While sense (forms (scope_view scope.old) (next_numbers at.old) (exp_view test.now)).content
        (core_block (scope_view scope.old) (following (next_numbers at.old) (exp_view test.now)) (block_view tree.now) level)) at.new
        (after_block (following (next_numbers at.old) (exp_view test.now)) (block_view tree.now)) scope.old scope.new }
{
    let test = condition(scope, at, sense, test)?;
    Ok(looped(test, block(scope, at, tree, level)?))
}

/// REPEAT.
#[inline(never)]
#[cycle(blocks)]
fn endless_loop<'t, 's>(
    scope: &mut Scope<'s>,
    at: &mut NextNumbers<'t, 's>,
    tree: &'t Command<'s>,
    level: u64,
) -> Result<CoreCommand, Memory>
    ensures { TranslatesWithin command_of result
        (Repeat (block_of_one (core_command (scope_view scope.old) (next_numbers at.old) (command_view tree.now) level))) at.new
        (after_command (next_numbers at.old) (command_view tree.now)) scope.old scope.new }
{
    Ok(forever(body(scope, at, tree, level)?))
}

/// REPEATWHILE or REPEATUNTIL.
#[inline(never)]
#[cycle(blocks)]
fn tested_loop<'t, 's>(
    scope: &mut Scope<'s>,
    at: &mut NextNumbers<'t, 's>,
    tree: &'t Command<'s>,
    sense: bool,
    test: &'t Exp<'s>,
    level: u64,
) -> Result<CoreCommand, Memory>
    ensures { TranslatesWithin command_of result
        (RepeatWhile (block_of_one (core_command (scope_view scope.old) (next_numbers at.old) (command_view tree.now) level)) sense
        (forms (scope_view scope.old) (after_command (next_numbers at.old) (command_view tree.now)) (exp_view test.now)).content) at.new
        (following (after_command (next_numbers at.old) (command_view tree.now)) (exp_view test.now)) scope.old scope.new }
{
    let body = body(scope, at, tree, level)?;
    Ok(repeated(body, condition(scope, at, sense, test)?))
}

/// SWITCHON.
#[inline(never)]
#[cycle(blocks)]
fn switched<'t, 's>(
    scope: &mut Scope<'s>,
    at: &mut NextNumbers<'t, 's>,
    trees: &'t [Item<'s>],
    of: &'t Exp<'s>,
    level: u64,
) -> Result<CoreCommand, Memory>
    ensures { TranslatesWithin command_of result (SwitchOn (forms (scope_view scope.old) (next_numbers at.old) (exp_view of.now)).content
        (core_items (in_list (following (next_numbers at.old) (exp_view of.now)).label (items_view trees.now) (scope_view scope.old))
        (following (next_numbers at.old) (exp_view of.now)).label
        (after_labels (following (next_numbers at.old) (exp_view of.now)) (labels_in_of (items_view trees.now))) (items_view trees.now) level)) at.new
        (after_items (after_labels (following (next_numbers at.old) (exp_view of.now)) (labels_in_of (items_view trees.now)))
        (items_view trees.now)) scope.old scope.new }
{
    let of = value(scope, at, of)?;
    let list = command_list(scope, at, trees, level)?;
    Ok(switch(of, list))
}

/// Translates the condition of a TEST and its first branch.
#[inline(never)]
#[cycle(blocks)]
fn first_branch<'t, 's>(
    scope: &mut Scope<'s>,
    at: &mut NextNumbers<'t, 's>,
    tree: &'t Block<'s>,
    test: &'t Exp<'s>,
    level: u64,
) -> Result<Branch, Memory>
    ensures { TranslatesWithin branch_view result (
      (forms (scope_view scope.old) (next_numbers at.old) (exp_view test.now)).content,
      core_block (scope_view scope.old) (following (next_numbers at.old) (exp_view test.now)) (block_view tree.now) level,
    ) at.new
        (after_block (following (next_numbers at.old) (exp_view test.now)) (block_view tree.now)) scope.old scope.new }
{
    let test = value(scope, at, test)?;
    let this = block(scope, at, tree, level)?;
    Ok(Branch { test, this })
}

/// Translates the second branch of a TEST, and builds the command.
#[inline(never)]
#[cycle(blocks)]
fn second_branch<'t, 's>(
    scope: &mut Scope<'s>,
    at: &mut NextNumbers<'t, 's>,
    tree: &'t Block<'s>,
    first: Branch,
    level: u64,
) -> Result<CoreCommand, Memory>
    ensures { TranslatesWithin command_of result
        (Test (branch_view first).0 (branch_view first).1 (core_block (scope_view scope.old) (next_numbers at.old) (block_view tree.now) level)) at.new
        (after_block (next_numbers at.old) (block_view tree.now)) scope.old scope.new }
{
    let that = block(scope, at, tree, level)?;
    let Branch { test, this } = first;
    Ok(chosen(test, this, that))
}

/// FOR. Takes the parts one by one: the borrow checker does not accept a record of references in this cycle.
#[inline(never)]
#[cycle(blocks)]
fn counted_loop<'t, 's>(
    scope: &mut Scope<'s>,
    at: &mut NextNumbers<'t, 's>,
    tree: &'t Block<'s>,
    variable: &'s [u8],
    start: &'t Exp<'s>,
    limit: &'t Exp<'s>,
    by: Word,
    level: u64,
) -> Result<CoreCommand, Memory>
    ensures { TranslatesWithin command_of result (For (forms (scope_view scope.old) (next_numbers at.old) (exp_view start.now)).content
        (forms (scope_view scope.old) (following (next_numbers at.old) (exp_view start.now)) (exp_view limit.now)).content by
        (core_block (in_for (scope_view scope.old) variable.entry.now level)
        (following (following (next_numbers at.old) (exp_view start.now)) (exp_view limit.now)) (block_view tree.now) (level_in_for level))) at.new
        (after_block (following (following (next_numbers at.old) (exp_view start.now)) (exp_view limit.now)) (block_view tree.now)) scope.old scope.new }
{
    let start = value(scope, at, start)?;
    let limit = value(scope, at, limit)?;
    let body = counted(scope, at, variable, tree, level)?;
    Ok(counting(start, limit, by, body))
}

/// A call as a command.
#[inline(never)]
fn called<'t, 's>(
    scope: &Scope<'s>,
    at: &mut NextNumbers<'t, 's>,
    routine: &'t Exp<'s>,
    values: &'t [Exp<'s>],
) -> Result<CoreCommand, Memory>
    ensures { Translates command_of result (Call
        (call_of (core_arguments (scope_view scope.now) (following (next_numbers at.old) (exp_view routine.now)) (exps_view values.now))
        (forms (scope_view scope.now) (next_numbers at.old) (exp_view routine.now)).content)) at.new
        (after_all (following (next_numbers at.old) (exp_view routine.now)) (exps_view values.now)) }
{
    Ok(CoreCommand::Call(call(scope, at, routine, values)?))
}

/// RESULTIS.
#[inline(never)]
fn given<'t, 's>(
    scope: &Scope<'s>,
    at: &mut NextNumbers<'t, 's>,
    tree: &'t Exp<'s>,
) -> Result<CoreCommand, Memory>
    ensures { Translates command_of result (ResultIs (forms (scope_view scope.now) (next_numbers at.old) (exp_view tree.now)).content) at.new
        (following (next_numbers at.old) (exp_view tree.now)) }
{
    Ok(CoreCommand::ResultIs(value(scope, at, tree)?))
}

/// GOTO.
fn jump(scope: &Scope<'_>, name: &[u8]) -> Result<CoreCommand, Memory>
    ensures { IfOk result (λ c. command_of c ≡ Goto (label_number_of (meant_by (scope_view scope.now) name.now))) }
{
    let number = short(label_number(scope.meant_by(name)))?;
    Ok(CoreCommand::Goto(number))
}

/// A block as a command.
#[inline(never)]
#[cycle(blocks)]
fn inner_block<'t, 's>(
    scope: &mut Scope<'s>,
    at: &mut NextNumbers<'t, 's>,
    tree: &'t Block<'s>,
    level: u64,
) -> Result<CoreCommand, Memory>
    ensures { TranslatesWithin command_of result (Nested (core_block (scope_view scope.old) (next_numbers at.old) (block_view tree.now) level)) at.new
        (after_block (next_numbers at.old) (block_view tree.now)) scope.old scope.new }
{
    Ok(nested(block(scope, at, tree, level)?))
}

/// Translates a command.
#[cycle(blocks)]
fn command<'t, 's>(
    scope: &mut Scope<'s>,
    at: &mut NextNumbers<'t, 's>,
    tree: &'t Command<'s>,
    level: u64,
) -> Result<CoreCommand, Memory>
    ensures { TranslatesWithin command_of result (core_command (scope_view scope.old) (next_numbers at.old) (command_view tree.now) level) at.new
        (after_command (next_numbers at.old) (command_view tree.now)) scope.old scope.new }
{
    match tree {
        Command::Assign(places, values) => assigned(scope, at, places, values),
        Command::Call(routine, values) => called(scope, at, routine, values),
        Command::Block(tree) => inner_block(scope, at, tree, level),
        Command::Break => Ok(CoreCommand::Break),
        Command::Loop => Ok(CoreCommand::Loop),
        Command::EndCase => Ok(CoreCommand::EndCase),
        Command::Return => Ok(CoreCommand::Return),
        Command::Finish => Ok(CoreCommand::Finish),
        Command::ResultIs(result) => given(scope, at, result),
        Command::Goto(name) => jump(scope, name),
        Command::Repeat(tree) => endless_loop(scope, at, tree, level),
        Command::RepeatWhile(tree, test) => tested_loop(scope, at, tree, true, test, level),
        Command::RepeatUntil(tree, test) => tested_loop(scope, at, tree, false, test, level),
        Command::If(test, tree) => guarded(scope, at, tree, true, test, level),
        Command::Unless(test, tree) => guarded(scope, at, tree, false, test, level),
        Command::While(test, tree) => guarded_loop(scope, at, tree, true, test, level),
        Command::Until(test, tree) => guarded_loop(scope, at, tree, false, test, level),
        Command::Test { test, this, that } => {
            let first = first_branch(scope, at, this, test, level)?;
            second_branch(scope, at, that, first, level)
        }
        Command::For {
            variable,
            start,
            limit,
            step,
            body,
        } => {
            let by = match step {
                Some(by) => constant(scope, by),
                None => Word::new(1),
            };
            counted_loop(scope, at, body, variable, start, limit, by, level)
        }
        Command::SwitchOn(of, list) => switched(scope, at, list, of, level),
    }
}
