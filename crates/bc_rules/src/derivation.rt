//! Whether a tree of rule names is a derivation of a root.

ghost use Rattle.std.specs.Prelude.{◌≡◌, ◌↔◌, IsTrue};
ghost use Rattle.bc_core.specs.View.{exp, root as root_of};
ghost use Rattle.bc_rules_defs.specs.View.{derivation as tree};
ghost use Rattle.bc_rules_defs.specs.declared.rule.Table.TheVariants.{Two};
ghost use Rattle.bc_rules.specs.Derivation.{IsDerivation};
ghost use Rattle.bc_rules.specs.Fits.{root_fits, assignment_fits, sides_turn as sides_turn_of};

use crate::applying::assignment_parts;
use crate::check::{derives, parts_derive, turns};
use crate::exchange::direct;
use bc_core::{CoreExp, Root};
use bc_rules_defs::{Aim, Derivation, Mode, Rule, Table};

/// Whether this is a derivation of the root by table 2. Allocates nothing; takes time in proportion to the root.
#[tactic(auto, using(crate::proofs::Bridge::decides))]
pub fn is_derivation(root: &Root, derivation: &Derivation) -> bool
    ensures { IsTrue result ↔ IsDerivation Two (root_of root.now) (tree derivation.now) }
{
    root_derives(Table::Two, root, derivation)
}

/// Whether this is a derivation of the root by the given table. Allocates nothing; takes time in proportion to the root.
#[tactic(auto, using(crate::proofs::Bridge::decides))]
pub fn is_derivation_by(table: Table, root: &Root, derivation: &Derivation) -> bool
    ensures { IsTrue result ↔ IsDerivation table (root_of root.now) (tree derivation.now) }
{
    root_derives(table, root, derivation)
}

/// The check for both public calls.
#[tactic(auto, using(crate::proofs::Fitting::is_found))]
fn root_derives(table: Table, root: &Root, derivation: &Derivation) -> bool
    ensures { result ≡ root_fits table (root_of root.now) (tree derivation.now) }
{
    match root {
        Root::Value { expression, .. } => {
            derives(table, derivation, Aim::Gets(Mode::Any), expression).is_some()
        }
        Root::Test {
            sense,
            expression,
            ..
        } => derives(table, derivation, Aim::Jumps(*sense), expression).is_some(),
        Root::Assign { value, address, .. } => assigns(table, derivation, value, address),
    }
}

/// Whether this is a derivation of an assignment.
#[tactic(auto, using(crate::proofs::Fitting::not_assigned, crate::proofs::Fitting::assigned))]
fn assigns(table: Table, derivation: &Derivation, value: &CoreExp, address: &CoreExp) -> bool
    ensures { result ≡ assignment_fits table (tree derivation.now) (exp value.now) (exp address.now) }
{
    match parts_derive(
        table,
        &derivation.parts,
        assignment_parts(derivation.rule, value, address),
    ) {
        Some(calls) => sides_turn(derivation.rule, calls, value, address),
        None => false,
    }
}

/// Whether the sides of an assignment may be evaluated in the order of its rule.
fn sides_turn(rule: Rule, calls: bool, value: &CoreExp, address: &CoreExp) -> bool
    ensures { result ≡ sides_turn_of rule calls (exp value.now) (exp address.now) }
{
    !(turns(rule) && calls) || direct(value) || direct(address)
}
