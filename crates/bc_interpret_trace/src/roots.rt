//! Counts the roots of a tree: the expressions, tests and assignments for which code is chosen. Those inside VALOFs aren't counted. A count
//! that doesn't fit stays at the greatest number.

ghost use Rattle.std.specs.Prelude.{◌≡◌, map, sum_by};
ghost use Rattle.std.specs.Io.Iter.{u64_saturate};
ghost use Rattle.bc_core.specs.Commands.{no_item};
ghost use Rattle.bc_core.specs.View.{variable as variable_view, declarations as declarations_view, command as command_view, items as items_view, items_before, block_of};
ghost use Rattle.bc_interpret_defs.specs.Trails as trails;

use bc_core::{Block, Command, Declaration, ListItem, Variable};

/// The number of roots (expressions, tests and assignments) in a block, not counting those inside VALOFs.
#[cycle(roots)]
pub(crate) fn roots_of_block(block: &Block) -> u64
    ensures { result ≡ u64_saturate (trails.roots_of_block (block_of block.now)) }
{
    roots_of_declarations(&block.declarations).saturating_add(roots_of_items(&block.list))
}

/// The roots of declarations: one for each variable with an initial value.
#[tactic(auto, using(crate::proofs::Counts::declarations_more))]
pub(crate) fn roots_of_declarations(declarations: &[Declaration]) -> u64
    ensures { result ≡ u64_saturate (trails.roots_of_declarations (declarations_view declarations.now)) }
{
    let mut roots = 0u64;
    for declaration in declarations {
        roots = roots.saturating_add(roots_of_variables(&declaration.variables));
    }
    roots
}

/// The roots of variables.
#[tactic(auto, using(crate::proofs::Counts::variables_more))]
pub(crate) fn roots_of_variables(variables: &[Variable]) -> u64
    ensures { result ≡ u64_saturate (sum_by trails.roots_of_variable (map variable_view variables.now)) }
{
    let mut roots = 0u64;
    for variable in variables {
        roots = roots.saturating_add(match variable {
            Variable::Value(_) => 1,
            Variable::Vector(_) => 0,
        });
    }
    roots
}

/// The roots of a list of items.
#[cycle(roots)]
#[tactic(auto, using(crate::proofs::Counts::items_more))]
pub(crate) fn roots_of_items(items: &[ListItem]) -> u64
    ensures { result ≡ u64_saturate (trails.roots_of_items (items_view items.now)) }
{
    let mut roots = 0u64;
    for item in items {
        roots = roots.saturating_add(roots_of_item(item));
    }
    roots
}

#[cycle(roots)]
fn roots_of_item(item: &ListItem) -> u64
    ensures { result ≡ u64_saturate (trails.roots_of_items (items_before item.now no_item)) }
{
    match item {
        ListItem::Command(command) => roots_of_command(command),
        ListItem::Case(_) | ListItem::Default | ListItem::Label(_) => 0,
    }
}

#[cycle(roots)]
fn roots_of_command(command: &Command) -> u64
    ensures { result ≡ u64_saturate (trails.roots_of_command (command_view command.now)) }
{
    match command {
        Command::Call(_) | Command::Assign { .. } | Command::ResultIs(_) => 1,
        Command::If(_, body) => roots_of_block(body).saturating_add(1),
        Command::Test(_, this, that) => roots_of_block(this)
            .saturating_add(roots_of_block(that))
            .saturating_add(1),
        Command::While(_, body) => roots_of_block(body).saturating_add(1),
        Command::Repeat(body) => roots_of_block(body),
        Command::RepeatWhile(body, _) => roots_of_block(body).saturating_add(1),
        Command::For { body, .. } => roots_of_block(body).saturating_add(2),
        Command::SwitchOn(_, items) => roots_of_items(items).saturating_add(1),
        Command::Nested(body) => roots_of_block(body),
        Command::Break
        | Command::Loop
        | Command::EndCase
        | Command::Return
        | Command::Finish
        | Command::Goto(_) => 0,
    }
}
