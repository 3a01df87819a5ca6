//! The first fault of a block or a command list, and the frame size that it needs.
//!
//! `blocks.rt`, `commands.rt`, `declarations.rt` and `expressions.rt` hold one cycle of functions, one for each kind of part. Each
//! takes the level at which the part is executed, mostly in a context (`context.rt`), and moves `progress` past the part. It returns
//! the frame size that the part needs, in cells; or it fails with the part's first fault, or with `Memory` when an allocation fails
//! or a number exceeds 64 bits. The scope is then the same as before, or has the names that declarations added; after an error it is
//! unspecified.
ghost use Rattle.std.specs.Prelude.{◌≡◌};
ghost use Rattle.bc_parse_tree.specs.View.{block_view, declarations_view, label_view, labels_view, item_view, items_view};
ghost use Rattle.bc_scope_defs.specs.Faults.{met_label, met_labels};
ghost use Rattle.bc_scope_defs.specs.FaultsAlong.{label_fault, labels_fault};
ghost use Rattle.bc_scope_names.specs.View.{scope_view, numbers_view};
ghost use Rattle.bc_scope_faults.specs.Judged.{Judges};
ghost use Rattle.bc_scope_faults.specs.Kept.{Keeps};
ghost use Rattle.bc_scope_faults.specs.Seen.{allowed_view, met_view};
ghost use Rattle.bc_scope_faults.specs.Walked.{Walks, ItemWalks};
ghost use Rattle.bc_scope_defs.specs.Meaning.{labels_of_that};
ghost use Rattle.bc_scope_faults.specs.Walk.{here};
ghost use Rattle.bc_scope_faults.specs.Parts.{of_block, of_items, of_body, of_item};

use crate::commands::command;
use crate::context::{CommandContext, ListContext};
use crate::declarations::declarations;
use crate::expressions::check_constant;
use crate::judging::Met;
use crate::progress::Progress;
use bc_parse_tree::{Block, Declaration, Item, Label};
use bc_scope_names::{Scope, ScopeError, constant, declare_list, labels_in};

/// Walks a block.
#[cycle(faults)]
#[tactic(auto, using(crate::proofs::Kept::keeping))]
pub fn block<'s>(
    scope: &mut Scope<'s>,
    progress: &mut Progress,
    context: CommandContext,
    tree: &Block<'s>,
) -> Result<u64, ScopeError<'s>>
    ensures answer { Walks result progress.old progress.new
        (of_block (allowed_view context.allowed) (block_view tree.now) context.level (here scope.old progress.old)) }
    ensures kept { Keeps result scope.old scope.new }
{
    declared_then_done(scope, progress, context, &tree.declarations, &tree.items)
}

/// The declarations of a block, and the items after them.
#[cycle(faults)]
#[tactic(auto, using(crate::proofs::Numberless::numberless, bc_scope_names::proofs::Extends::left, crate::proofs::Kept::keeping))]
fn declared_then_done<'s>(
    scope: &mut Scope<'s>,
    progress: &mut Progress,
    context: CommandContext,
    declared: &[Declaration<'s>],
    trees: &[Item<'s>],
) -> Result<u64, ScopeError<'s>>
    ensures answer { Walks result progress.old progress.new
        (of_body (allowed_view context.allowed) (declarations_view declared.now) (items_view trees.now) context.level (here scope.old progress.old)) }
    ensures kept { Keeps result scope.old scope.new }
{
    let mark = scope.mark();
    let extent = declarations(scope, progress, declared, context.level)?;
    declare_list(scope, progress.at.label, trees)?;
    progress.at = progress.at.after_labels(labels_in(trees)?)?;
    let list = ListContext {
        cases: false,
        commands: CommandContext {
            allowed: context.allowed,
            level: extent.level,
        },
    };
    let width = items(scope, progress, list, trees)?;
    scope.leave(mark);
    Ok(extent.width.max(width))
}

/// One label, checked against those of its list in `met`, to which it is added.
#[inline(never)]
#[cycle(faults)]
#[tactic(auto, using(crate::proofs::Frames::along, crate::proofs::Kept::keeping))]
fn label<'s>(
    scope: &mut Scope<'s>,
    progress: Progress,
    in_cases: bool,
    met: &mut Met<'s>,
    tree: &Label<'s>,
) -> Result<(), ScopeError<'s>>
    ensures answer { Judges result (label_fault in_cases (met_view met.old) (scope_view scope.old) (numbers_view progress.at) (label_view tree.now))
        (λ _. met_view met.new ≡ met_label (scope_view scope.old) (met_view met.old) (label_view tree.now)) }
    ensures kept { Keeps result scope.old scope.new }
{
    match tree {
        Label::Case(value) => {
            check_constant(scope, progress, value)?;
            met.case(in_cases, constant(scope, value))
        }
        Label::Default => met.default(in_cases),
        Label::Name(name) => met.name(name),
    }
}

/// All labels of an item.
#[cycle(faults)]
#[tactic(auto, using(crate::proofs::Frames::along, crate::proofs::Kept::keeping))]
fn labels<'s>(
    scope: &mut Scope<'s>,
    progress: Progress,
    in_cases: bool,
    met: &mut Met<'s>,
    list: &[Label<'s>],
) -> Result<(), ScopeError<'s>>
    ensures answer { Judges result (labels_fault in_cases (met_view met.old) (scope_view scope.old) (numbers_view progress.at) (labels_view list.now))
        (λ _. met_view met.new ≡ met_labels (scope_view scope.old) (met_view met.old) (labels_view list.now)) }
    ensures kept { Keeps result scope.old scope.new }
{
    for tree in list {
        label(scope, progress, in_cases, met, tree)?;
    }
    Ok(())
}

/// Walks the items of a command list, whose labels are already in scope and numbered.
#[cycle(faults)]
#[tactic(auto, using(crate::proofs::Kept::keeping))]
pub fn items<'s>(
    scope: &mut Scope<'s>,
    progress: &mut Progress,
    list: ListContext,
    trees: &[Item<'s>],
) -> Result<u64, ScopeError<'s>>
    ensures answer { Walks result progress.old progress.new
        (of_items list.cases (allowed_view list.commands.allowed) 0 (items_view trees.now) list.commands.level (here scope.old progress.old)) }
    ensures kept { Keeps result scope.old scope.new }
{
    let mut met = Met::new(scope.alloc());
    let mut width = 0u64;
    for tree in trees {
        width = width.max(one_item(scope, progress, list, &mut met, tree)?);
    }
    Ok(width)
}

/// One item: its labels, then its command if it has one.
#[cycle(faults)]
#[tactic(auto, using(crate::proofs::Kept::keeping))]
fn one_item<'s>(
    scope: &mut Scope<'s>,
    progress: &mut Progress,
    list: ListContext,
    met: &mut Met<'s>,
    tree: &Item<'s>,
) -> Result<u64, ScopeError<'s>>
    ensures answer { ItemWalks result progress.old progress.new
        (of_item list.cases (met_view met.old) (allowed_view list.commands.allowed) (item_view tree.now) list.commands.level (here scope.old progress.old))
        (met_view met.new) (met_labels (scope_view scope.old) (met_view met.old) (labels_of_that (item_view tree.now))) }
    ensures kept { Keeps result scope.old scope.new }
{
    match &tree.command {
        Some(labelled) => {
            labels(scope, *progress, list.cases, met, &tree.labels)?;
            command(scope, progress, list.commands, labelled)
        }
        None => {
            labels(scope, *progress, list.cases, met, &tree.labels)?;
            Ok(0)
        }
    }
}
