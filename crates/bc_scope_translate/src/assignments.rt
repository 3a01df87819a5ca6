//! The translation of assignments. These functions are outside the cycle of `blocks.rt`: an assignment contains blocks only in
//! VALOFs, and the bodies of VALOFs are skipped.
ghost use Rattle.std.specs.Prelude.{◌≡◌, [], IfOk};
ghost use Rattle.bc_core.specs.Commands.{Assign, Nested, block};
ghost use Rattle.bc_core.specs.View.{command as command_of, items as items_of};
ghost use Rattle.bc_parse_tree.specs.View.{exp_view, exps_view};
ghost use Rattle.bc_scope_defs.specs.Numbering.{following, after_all};
ghost use Rattle.bc_scope_defs.specs.Translation.{forms, forms_of_all, assignment, assignments};
ghost use Rattle.bc_scope_names.specs.View.{scope_view};
ghost use Rattle.bc_scope_translate.specs.Next.{next_numbers};
ghost use Rattle.bc_scope_translate.specs.Seen.{Translates, formed_list};

use crate::commands::nested;
use crate::expressions::{expression, value};
use crate::forms::Formed;
use crate::numbering::NextNumbers;
use bc_core::{Block as CoreBlock, Command as CoreCommand, ListItem};
use bc_parse_tree::Exp;
use bc_scope_names::Scope;
use bc_word::Memory;
use std::alloc::Global;

/// Translates all expressions on one side of an assignment.
fn side<'t, 's>(
    scope: &Scope<'s>,
    at: &mut NextNumbers<'t, 's>,
    list: &'t [Exp<'s>],
) -> Result<Vec<Formed>, Memory>
    ensures { Translates (λ fs. formed_list fs.items) result (forms_of_all (scope_view scope.now) (next_numbers at.old) (exps_view list.now)) at.new
        (after_all (next_numbers at.old) (exps_view list.now)) }
{
    let mut formed = Vec::with_capacity(scope.alloc(), list.len())?;
    for e in list {
        formed.push(expression(scope, at, e)?)?;
    }
    Ok(formed)
}

/// The commands that assign `values` to `places`, pair by pair, up to the end of the shorter list.
fn pairs(alloc: Global, places: Vec<Formed>, values: Vec<Formed>) -> Result<Vec<ListItem>, Memory>
    ensures { IfOk result (λ is. items_of is.items ≡ assignments (formed_list places.items) (formed_list values.items)) }
{
    let mut list = Vec::with_capacity(alloc, places.len())?;
    for (place, value) in places.into_iter().zip(values) {
        list.push(ListItem::Command(CoreCommand::Assign {
            value: value.content(alloc)?,
            address: place.address(),
        }))?;
    }
    Ok(list)
}

/// Translates an assignment of one value, to one command.
fn single<'t, 's>(
    scope: &Scope<'s>,
    at: &mut NextNumbers<'t, 's>,
    place: &'t Exp<'s>,
    assigned: &'t Exp<'s>,
) -> Result<CoreCommand, Memory>
    ensures { Translates command_of result
        (Assign (forms (scope_view scope.now) (following (next_numbers at.old) (exp_view place.now)) (exp_view assigned.now)).content
        (forms (scope_view scope.now) (next_numbers at.old) (exp_view place.now)).address) at.new
        (following (following (next_numbers at.old) (exp_view place.now)) (exp_view assigned.now)) }
{
    let place = expression(scope, at, place)?;
    Ok(CoreCommand::Assign {
        value: value(scope, at, assigned)?,
        address: place.address(),
    })
}

/// Translates an assignment of several values, to a block of commands.
#[inline(never)]
fn several<'t, 's>(
    scope: &Scope<'s>,
    at: &mut NextNumbers<'t, 's>,
    places: &'t [Exp<'s>],
    values: &'t [Exp<'s>],
) -> Result<CoreCommand, Memory>
    ensures { Translates command_of result
        (Nested (block [] (assignments (forms_of_all (scope_view scope.now) (next_numbers at.old) (exps_view places.now))
        (forms_of_all (scope_view scope.now) (after_all (next_numbers at.old) (exps_view places.now)) (exps_view values.now))))) at.new
        (after_all (after_all (next_numbers at.old) (exps_view places.now)) (exps_view values.now)) }
{
    let places = side(scope, at, places)?;
    let values = side(scope, at, values)?;
    let list = pairs(scope.alloc(), places, values)?;
    Ok(nested(CoreBlock {
        declarations: Vec::new(scope.alloc()),
        list,
    }))
}

/// Translates an assignment, and moves the numbers past it. One pair becomes a command, several become a block of commands.
/// Fails with `Memory` when an allocation fails or a number is too large.
#[inline(never)]
#[tactic(auto, using(crate::proofs::Pairs::single_is, crate::proofs::Pairs::several_addresses, crate::proofs::Pairs::several_values))]
pub fn assigned<'t, 's>(
    scope: &Scope<'s>,
    at: &mut NextNumbers<'t, 's>,
    places: &'t [Exp<'s>],
    values: &'t [Exp<'s>],
) -> Result<CoreCommand, Memory>
    ensures { Translates command_of result (assignment (forms_of_all (scope_view scope.now) (next_numbers at.old) (exps_view places.now))
        (forms_of_all (scope_view scope.now) (after_all (next_numbers at.old) (exps_view places.now)) (exps_view values.now))) at.new
        (after_all (after_all (next_numbers at.old) (exps_view places.now)) (exps_view values.now)) }
{
    if places.len() != 1 {
        return several(scope, at, places, values);
    }
    if values.len() != 1 {
        return several(scope, at, places, values);
    }
    single(scope, at, &places[0], &values[0])
}
