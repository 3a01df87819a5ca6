//! A rule's own pieces of code: those between its parts and after them, and the code of rules without parts.

ghost use Rattle.std.specs.Prelude.{◌≡◌, ◌+◌, max, cond, [], OnOk};
ghost use Rattle.bc_core.specs.View.{exp};
ghost use Rattle.bc_core.specs.Value.{has_call};
ghost use Rattle.bc_rules_defs.specs.ByShape.{left_operand as left_operand_of, right_operand as right_operand_of, right_constant as right_constant_of, operator_mirror, leaf_code, after_single as after_single_of, between as between_of, after_pair as after_pair_of, after_sides as after_sides_of, with_operand, less_constant, operator_number, own_labels};
ghost use Rattle.bc_rules_defs.specs.Piece.{on};
ghost use Rattle.bc_rules.specs.Adds.{Adds, OkOrLacks};

use crate::code_fault::CodeFault;
use crate::parts::Part;
use crate::writer::{Writer, more};
use bc_core::{CoreExp, Operand, constant, operand};
use bc_rules_defs::{Aim, Piece, Rule, jumps};
use bc_text_items::Function;
use bc_word::{Memory, Word, mirror};

/// The left side of a binary operator, if it is an operand.
fn left_operand(e: &CoreExp) -> Option<Operand>
    ensures { result ≡ left_operand_of (exp e.now) }
{
    match e {
        CoreExp::Bin(_, a, _) => operand(a),
        _ => None,
    }
}

/// The right side of a binary operator, if it is an operand.
fn right_operand(e: &CoreExp) -> Option<Operand>
    ensures { result ≡ right_operand_of (exp e.now) }
{
    match e {
        CoreExp::Bin(_, _, b) => operand(b),
        _ => None,
    }
}

/// The right side of a binary operator, if it is a number.
fn right_constant(e: &CoreExp) -> Option<Word>
    ensures { result ≡ right_constant_of (exp e.now) }
{
    match e {
        CoreExp::Bin(_, _, b) => constant(b),
        _ => None,
    }
}

/// Writes an operation on an operand, or nothing if there is no operand.
pub fn operate(w: &mut Writer, function: Function, operand: Option<Operand>) -> Result<(), Memory>
    ensures { OnOk result (Adds w.old w.new (with_operand (on function) operand [])) }
{
    match operand {
        Some(o) => w.operate(function, o),
        None => Ok(()),
    }
}

/// Writes `A` with the negation of a number, or nothing if there is no number.
fn less(w: &mut Writer, constant: Option<Word>) -> Result<(), Memory>
    ensures { OnOk result (Adds w.old w.new (less_constant constant)) }
{
    match constant {
        Some(n) => w.number(Function::Add, n.negated()),
        None => Ok(()),
    }
}

/// Writes the operation of the expression's operator.
fn apply(w: &mut Writer, e: &CoreExp) -> Result<(), Memory>
    ensures { OnOk result (Adds w.old w.new (operator_number (exp e.now))) }
{
    match e {
        CoreExp::Bin(op, _, _) => w.number(Function::Execute, Word::from(*op)),
        _ => Ok(()),
    }
}

/// Writes the operation of the mirror of the expression's operator.
fn apply_mirror(w: &mut Writer, e: &CoreExp) -> Result<(), Memory>
    ensures { OnOk result (Adds w.old w.new (operator_mirror (exp e.now))) }
{
    match e {
        CoreExp::Bin(op, _, _) => match mirror(*op) {
            Some(q) => w.number(Function::Execute, Word::from(q)),
            None => Ok(()),
        },
        _ => Ok(()),
    }
}

/// Writes the code of a rule without parts. `first` is the label after the body of a VALOF.
pub fn leaf(
    w: &mut Writer,
    rule: Rule,
    node: Part,
    target: u16,
    first: u32,
) -> Result<(), CodeFault>
    ensures { OkOrLacks result (λ _. Adds w.old w.new (leaf_code rule node.entry.aim (exp node.entry.of.now) target first))
        (first + cond (has_call (exp node.entry.of.now)) 1 0) }
{
    match rule {
        Rule::V1 => Ok(operate(w, Function::Load, operand(node.of))?),
        _ => match node.of {
            CoreExp::Num(n) => match node.aim {
                Aim::Jumps(sense) => {
                    if jumps(sense, *n) {
                        Ok(w.jump(Function::Jump, target)?)
                    } else {
                        Ok(())
                    }
                }
                Aim::Gets(_) => Ok(()),
            },
            CoreExp::Valof(n) => {
                w.add(Piece::Body(*n as u64))?;
                w.label(first)
            }
            _ => Ok(()),
        },
    }
}

/// Writes what follows the part of a rule with one part.
pub fn after_single(w: &mut Writer, rule: Rule, node: Part, target: u16) -> Result<(), Memory>
    ensures { OnOk result (Adds w.old w.new (after_single_of rule node.entry.aim (exp node.entry.of.now) target)) }
{
    match rule {
        Rule::V2 => w.execute(1),
        Rule::V3 => w.execute(2),
        Rule::V4 => w.execute(3),
        Rule::V6 => operate(w, Function::Add, right_operand(node.of)),
        Rule::V7 => operate(w, Function::Add, left_operand(node.of)),
        Rule::V9 => less(w, right_constant(node.of)),
        Rule::V10 => {
            w.execute(2)?;
            operate(w, Function::Add, right_operand(node.of))?;
            w.execute(2)
        }
        Rule::V11 => {
            w.execute(2)?;
            operate(w, Function::Add, left_operand(node.of))
        }
        Rule::J6 | Rule::J9 => match node.aim {
            Aim::Jumps(sense) => w.jump_if(sense, target),
            Aim::Gets(_) => Ok(()),
        },
        Rule::J8 => match node.aim {
            Aim::Jumps(sense) => w.jump_if(!sense, target),
            Aim::Gets(_) => Ok(()),
        },
        _ => Ok(()),
    }
}

/// Writes what comes between the parts of a rule with two parts.
pub fn between(w: &mut Writer, rule: Rule, level: u32) -> Result<(), CodeFault>
    ensures { OkOrLacks result (λ _. Adds w.old w.new (between_of rule level)) (level + 1) }
{
    match rule {
        Rule::V15 | Rule::V16 | Rule::V17 | Rule::V18 | Rule::V19 => {
            w.cell(Function::Store, false, level)
        }
        _ => Ok(()),
    }
}

/// Writes what follows the parts of a rule with two parts.
pub fn after_pair(
    w: &mut Writer,
    rule: Rule,
    e: &CoreExp,
    level: u32,
    first: u32,
) -> Result<(), CodeFault>
    ensures { OkOrLacks result (λ _. Adds w.old w.new (after_pair_of rule (exp e.now) level first)) (max (first + own_labels rule) (level + 2)) }
{
    match rule {
        Rule::V12 => Ok(apply(w, e)?),
        Rule::V13 => Ok(apply_mirror(w, e)?),
        Rule::V14 => {
            w.execute(9)?;
            Ok(w.execute(2)?)
        }
        Rule::V15 => {
            w.cell(Function::Load, true, level)?;
            Ok(apply_mirror(w, e)?)
        }
        Rule::V16 => {
            w.cell(Function::Load, true, level)?;
            Ok(apply(w, e)?)
        }
        Rule::V17 => {
            let next = more(level, 1)?;
            w.cell(Function::Store, false, next)?;
            w.cell(Function::Load, true, level)?;
            w.cell(Function::Load, true, next)?;
            Ok(apply(w, e)?)
        }
        Rule::V18 => w.cell(Function::Add, true, level),
        Rule::V19 => {
            w.execute(2)?;
            w.cell(Function::Add, true, level)
        }
        Rule::J3 | Rule::J5 => w.label(first),
        _ => Ok(()),
    }
}

/// Writes what follows the two sides of an assignment.
pub fn after_sides(w: &mut Writer, rule: Rule, level: u32) -> Result<(), CodeFault>
    ensures { OkOrLacks result (λ _. Adds w.old w.new (after_sides_of rule level)) (level + 2) }
{
    match rule {
        Rule::A2 => w.cell(Function::Store, true, level),
        _ => {
            let next = more(level, 1)?;
            w.cell(Function::Store, false, next)?;
            w.cell(Function::Load, true, level)?;
            w.cell(Function::Store, true, next)
        }
    }
}
