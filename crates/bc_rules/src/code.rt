//! The code of a root's derivation, and the next free label.

ghost use Rattle.std.specs.Prelude.{◌≡◌, IfOk, IfErr, Some};
ghost use Rattle.bc_core.specs.Tree.{Assign};
ghost use Rattle.bc_core.specs.View.{exp, root as root_of};
ghost use Rattle.bc_rules_defs.specs.View.{derivation as tree, derivations};
ghost use Rattle.bc_rules_defs.specs.Parts.{single as single_of, pair as pair_of};
ghost use Rattle.bc_rules_defs.specs.ByShape.{labels_of_sides, code_of_sides, root_labels_by, root_code_by};
ghost use Rattle.bc_rules.specs.declared.code_fault.CodeFault.TheVariants.{NoRoom};
ghost use Rattle.bc_rules.specs.Code.{IsCodeOf, IsNextLabel, LacksRoom, cells_of_root};
ghost use Rattle.bc_rules.specs.Levels.{cells_of_sides};
ghost use Rattle.bc_rules.specs.Adds.{WritesOrLacks};
ghost use Rattle.bc_rules.specs.View.{parts};

use crate::applying::assignment_parts;
use crate::code_fault::CodeFault;
use crate::counting::root_labels;
use crate::emission::{after_sides, operate};
use crate::parts::{Part, Parts};
use crate::writer::{Writer, more};
use crate::writing::{CodeContext, Sides, write};
use bc_core::{CoreExp, Root, operand};
use bc_rules_defs::{Aim, Derivation, Mode, Piece, Rule};
use bc_text_items::Function;
use bc_word::Memory;
use std::alloc::Global;

/// The first label after those of a derivation of the root whose labels are numbered from `first` on. It is between
/// `first` and 65,536.
///
/// Returns None if a label of the derivation would be over 65,535. For a tree that is no derivation of the root, the result
/// is unspecified.
#[tactic(auto, using(crate::proofs::Labels::next_some, crate::proofs::Labels::next_none))]
pub fn next_label(root: &Root, derivation: &Derivation, first: u16) -> Option<u32>
    ensures { IsNextLabel (root_of root.now) (tree derivation.now) first result }
{
    let next = first as u32 + root_labels(root, derivation);
    if next <= 65_536 { Some(next) } else { None }
}

/// The code of a derivation of the root, by either table. The code of a test jumps to the label `target`. The derivation's own
/// labels are numbered from `first` on, a rule's before those of its parts. The body of a VALOF is one piece. For a tree that is no
/// derivation of the root, the result is unspecified.
///
/// Returns `Memory` if an allocation failed, or if a label or an offset of the frame would be over 65,535. Use
/// `code_with_labels` to distinguish the two.
pub fn code_of(
    alloc: Global,
    root: &Root,
    derivation: &Derivation,
    target: u16,
    first: u16,
) -> Result<Vec<Piece>, Memory>
    ensures { IfOk result (λ pieces. IsCodeOf (root_of root.now) (tree derivation.now) target first pieces.items) }
{
    let coded = code_with_labels(alloc, root, derivation, target, first).map_err(|_| Memory)?;
    Ok(coded.pieces)
}

/// The code of a derivation and the first label after its own.
#[derive(Debug, Drop)]
pub struct Coded {
    /// The code, as `code_of` returns it.
    pub pieces: Vec<Piece>,
    /// The first label after those of the derivation, as `next_label` returns it.
    pub next: u32,
}

/// The results of `code_of` and `next_label`, in one walk over the derivation.
///
/// Returns `Memory` if an allocation failed. Returns `NoRoom` only if a label of the derivation, or an offset of the frame that the
/// evaluation of the root uses, would be over 65,535.
#[tactic(auto, using(crate::proofs::Labels::fault_lacks, crate::proofs::Labels::label_lacks))]
pub fn code_with_labels(
    alloc: Global,
    root: &Root,
    derivation: &Derivation,
    target: u16,
    first: u16,
) -> Result<Coded, CodeFault>
    ensures code { IfOk result (λ c. IsCodeOf (root_of root.now) (tree derivation.now) target first c.pieces.items) }
    ensures next { IfOk result (λ c. IsNextLabel (root_of root.now) (tree derivation.now) first (Some c.next)) }
    ensures no_room { IfErr result (λ fault. fault ≡ NoRoom → LacksRoom (root_of root.now) (tree derivation.now) first) }
{
    let mut w = Writer::new(alloc, first);
    write_root(&mut w, root, derivation, target)?;
    if w.next > 65_536 {
        return Err(CodeFault::NoRoom);
    }
    Ok(Coded {
        pieces: w.pieces,
        next: w.next,
    })
}

/// Writes the code of a root's derivation.
fn write_root(w: &mut Writer, root: &Root, d: &Derivation, target: u16) -> Result<(), CodeFault>
    ensures { WritesOrLacks result w.old w.new (root_code_by (root_of root.now) (tree d.now) target w.old.next)
        (root_labels_by (root_of root.now) (tree d.now)) (cells_of_root (root_of root.now)) }
{
    match root {
        Root::Value { level, expression } => {
            let level = *level as u32;
            let aim = Aim::Gets(Mode::Any);
            write(
                w,
                d,
                Part {
                    aim,
                    of: expression,
                },
                CodeContext { level, target },
            )
        }
        Root::Test {
            level,
            sense,
            expression,
        } => {
            let level = *level as u32;
            let aim = Aim::Jumps(*sense);
            write(
                w,
                d,
                Part {
                    aim,
                    of: expression,
                },
                CodeContext { level, target },
            )
        }
        Root::Assign {
            level,
            value,
            address,
        } => {
            let level = *level as u32;
            assign(
                w,
                d,
                Assignment { value, address },
                CodeContext { level, target },
            )
        }
    }
}

/// The two sides of an assignment.
#[derive(Clone, Copy)]
struct Assignment<'a> {
    value: &'a CoreExp,
    address: &'a CoreExp,
}

/// Writes the code of an assignment's derivation.
#[tactic(auto, using(crate::proofs::Written::assignment_writes))]
fn assign(
    w: &mut Writer,
    d: &Derivation,
    of: Assignment,
    place: CodeContext,
) -> Result<(), CodeFault>
    ensures { WritesOrLacks result w.old w.new
        (root_code_by (Assign place.level (exp of.entry.value.now) (exp of.entry.address.now)) (tree d.now) place.target w.old.next)
        (root_labels_by (Assign place.level (exp of.entry.value.now) (exp of.entry.address.now)) (tree d.now))
        (cells_of_root (Assign place.level (exp of.entry.value.now) (exp of.entry.address.now))) }
{
    let to = To {
        rule: d.rule,
        address: of.address,
        place,
    };
    write_sides(
        w,
        &d.parts,
        to,
        assignment_parts(d.rule, of.value, of.address),
    )
}

/// The target of an assignment, with the rule of its code.
#[derive(Clone, Copy)]
struct To<'a> {
    rule: Rule,
    address: &'a CoreExp,
    place: CodeContext,
}

/// Writes the code of an assignment whose rule has these parts.
#[tactic(auto, using(crate::proofs::Written::nothing))]
fn write_sides(w: &mut Writer, trees: &[Derivation], to: To, of: Parts) -> Result<(), CodeFault>
    ensures { WritesOrLacks result w.old w.new
        (code_of_sides to.entry.rule (exp to.entry.address.now) (parts of.entry)
        (derivations trees.now) to.entry.place.level to.entry.place.target w.old.next)
        (labels_of_sides (parts of.entry) (derivations trees.now)) (cells_of_sides (parts of.entry) to.entry.place.level) }
{
    match of {
        Parts::Single(a) => one_side(w, trees, to, a),
        Parts::Pair(a, b) => two_sides(w, trees, to, Sides { a, b }),
        Parts::NoRule | Parts::Leaf(_) | Parts::Triple(_, _, _) | Parts::Call(_, _) => Ok(()),
    }
}

/// Writes the code of A1.
#[tactic(auto, using(crate::proofs::Written::side_writes, crate::proofs::Counts::one_side_labels))]
fn one_side(w: &mut Writer, trees: &[Derivation], to: To, a: Part) -> Result<(), CodeFault>
    ensures { WritesOrLacks result w.old w.new
        (code_of_sides to.entry.rule (exp to.entry.address.now) (single_of a.entry.aim (exp a.entry.of.now))
        (derivations trees.now) to.entry.place.level to.entry.place.target w.old.next)
        (labels_of_sides (single_of a.entry.aim (exp a.entry.of.now)) (derivations trees.now))
        (cells_of_sides (single_of a.entry.aim (exp a.entry.of.now)) to.entry.place.level) }
{
    if trees.len() != 1 {
        return Ok(());
    }
    write(w, &trees[0], a, to.place)?;
    operate(w, Function::Store, operand(to.address))?;
    Ok(())
}

/// Writes the code of A2 or A3.
#[tactic(auto, using(crate::proofs::Written::sides_write, crate::proofs::Counts::two_sides_labels))]
fn two_sides(w: &mut Writer, trees: &[Derivation], to: To, of: Sides) -> Result<(), CodeFault>
    ensures { WritesOrLacks result w.old w.new
        (code_of_sides to.entry.rule (exp to.entry.address.now) (pair_of of.entry.a.aim (exp of.entry.a.of.now) of.entry.b.aim (exp of.entry.b.of.now))
        (derivations trees.now) to.entry.place.level to.entry.place.target w.old.next)
        (labels_of_sides (pair_of of.entry.a.aim (exp of.entry.a.of.now) of.entry.b.aim (exp of.entry.b.of.now)) (derivations trees.now))
        (cells_of_sides (pair_of of.entry.a.aim (exp of.entry.a.of.now) of.entry.b.aim (exp of.entry.b.of.now)) to.entry.place.level) }
{
    if trees.len() != 2 {
        return Ok(());
    }
    let level = more(to.place.level, 1)?;
    let above = CodeContext {
        level,
        target: to.place.target,
    };
    write(w, &trees[0], of.a, above)?;
    w.cell(Function::Store, false, to.place.level)?;
    write(w, &trees[1], of.b, above)?;
    after_sides(w, to.rule, to.place.level)?;
    Ok(())
}
