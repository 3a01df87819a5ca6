//! Writes the code of an expression's or test's derivation, by the number of parts of each rule.
//!
//! The rules' own pieces are written by `emission.rt`.

ghost use Rattle.std.specs.Prelude.{◌≡◌, ◌+◌};
ghost use Rattle.bc_core.specs.View.{exp, args};
ghost use Rattle.bc_rules_defs.specs.View.{derivation, derivations};
ghost use Rattle.bc_rules_defs.specs.Parts.{leaf as leaf_of, single as single_of, pair as pair_of, triple as triple_of, called, parts_of as parts_by};
ghost use Rattle.bc_rules_defs.specs.ByShape.{own_labels as own_labels_of, part_level as part_level_of, first_target as first_target_of, labels_by, labels_of_parts, code_by, code_of_parts};
ghost use Rattle.bc_rules.specs.View.{parts};
ghost use Rattle.bc_rules.specs.Levels.{cells, held_cells, cells_of_parts};
ghost use Rattle.bc_rules.specs.Adds.{OkOrLacks, WritesOrLacks};

use crate::applying::parts_of;
use crate::code_fault::CodeFault;
use crate::counting::own_labels;
use crate::emission::{after_pair, after_single, between, leaf};
use crate::parts::{Part, Parts};
use crate::writer::{Writer, as_word, more};
use bc_core::CoreExp;
use bc_rules_defs::{Aim, Derivation, Mode, Rule};
use bc_text_items::Function;
use bc_word::Word;

/// The level of a part, and the label to which its code jumps.
#[derive(Clone, Copy)]
pub struct CodeContext {
    /// The first free offset of the frame.
    pub level: u32,
    /// The target of a test; values don't use it.
    pub target: u16,
}

/// The level of the part of a rule with one part.
fn part_level(rule: Rule, level: u32) -> Result<u32, CodeFault>
    ensures { OkOrLacks result (λ it. it ≡ part_level_of rule level) (held_cells rule level) }
{
    match rule {
        Rule::V0 | Rule::V2 | Rule::V3 | Rule::V4 | Rule::J1 | Rule::J6 => Ok(level),
        _ => more(level, 1),
    }
}

/// The label to which the first of two parts jumps.
fn first_target(rule: Rule, target: u16, first: u32) -> Result<u16, CodeFault>
    ensures { OkOrLacks result (λ it. it ≡ first_target_of rule target first) (first + own_labels_of rule) }
{
    match rule {
        Rule::J3 | Rule::J5 => as_word(first),
        _ => Ok(target),
    }
}

/// An expression for which code is written, with its aim, rule, level and target.
#[derive(Clone, Copy)]
struct Node<'a> {
    rule: Rule,
    aim: Aim,
    of: &'a CoreExp,
    level: u32,
    target: u16,
}

/// Two parts, in the order of the code.
#[derive(Clone, Copy)]
pub struct Sides<'a> {
    /// The first part.
    pub a: Part<'a>,
    /// The second part.
    pub b: Part<'a>,
}

/// Three parts, in the order of the code.
#[derive(Clone, Copy)]
struct Three<'a> {
    a: Part<'a>,
    b: Part<'a>,
    c: Part<'a>,
}

/// The arguments of a call and the routine.
#[derive(Clone, Copy)]
struct CallOf<'a> {
    arguments: &'a [CoreExp],
    routine: &'a CoreExp,
}

/// Writes the code of a derivation `d` of the part, at this level and with this target. Trees that are no derivation give
/// incomplete code, as `code_by` defines it.
#[cycle(writing)]
#[tactic(auto, using(crate::proofs::Written::tree_writes))]
pub fn write(
    w: &mut Writer,
    d: &Derivation,
    part: Part,
    place: CodeContext,
) -> Result<(), CodeFault>
    ensures { WritesOrLacks result w.old w.new
        (code_by (derivation d.now) part.entry.aim (exp part.entry.of.now) place.level place.target w.old.next)
        (labels_by (derivation d.now) part.entry.aim (exp part.entry.of.now)) (cells (exp part.entry.of.now) place.level) }
{
    let node = Node {
        rule: d.rule,
        aim: part.aim,
        of: part.of,
        level: place.level,
        target: place.target,
    };
    write_parts(w, &d.parts, node, parts_of(d.rule, part.aim, part.of))
}

/// Writes the code of a rule, given its parts at the node.
#[cycle(writing)]
#[tactic(auto, using(crate::proofs::Written::none_writes))]
fn write_parts(w: &mut Writer, trees: &[Derivation], node: Node, of: Parts) -> Result<(), CodeFault>
    requires { parts of ≡ parts_by node.rule node.aim (exp node.of.now) }
    ensures { WritesOrLacks result w.old w.new
        (code_of_parts node.entry.rule node.entry.aim (exp node.entry.of.now) (parts of.entry)
        (derivations trees.now) node.entry.level node.entry.target w.old.next)
        (labels_of_parts node.entry.rule (parts of.entry) (derivations trees.now)) (cells_of_parts node.entry.rule (parts of.entry) node.entry.level) }
{
    match of {
        Parts::NoRule => Ok(()),
        Parts::Leaf(valof) => no_parts(w, trees, node, valof),
        Parts::Single(a) => one_part(w, trees, node, a),
        Parts::Pair(a, b) => two_parts(w, trees, node, Sides { a, b }),
        Parts::Triple(a, b, c) => three_parts(w, trees, node, Three { a, b, c }),
        Parts::Call(arguments, routine) => call(w, trees, node, CallOf { arguments, routine }),
    }
}

/// Writes the code of a rule without parts.
#[tactic(auto, using(crate::proofs::Written::leaf_writes, crate::proofs::Counts::leaf_labels))]
fn no_parts(w: &mut Writer, trees: &[Derivation], node: Node, valof: bool) -> Result<(), CodeFault>
    requires { leaf_of valof ≡ parts_by node.rule node.aim (exp node.of.now) }
    ensures { WritesOrLacks result w.old w.new
        (code_of_parts node.entry.rule node.entry.aim (exp node.entry.of.now) (leaf_of valof)
        (derivations trees.now) node.entry.level node.entry.target w.old.next)
        (labels_of_parts node.entry.rule (leaf_of valof) (derivations trees.now)) 0 }
{
    if !trees.is_empty() {
        return Ok(());
    }
    let first = w.take(if valof { 1 } else { 0 })?;
    let part = Part {
        aim: node.aim,
        of: node.of,
    };
    leaf(w, node.rule, part, node.target, first)?;
    Ok(())
}

/// Writes the code of a rule with one part.
#[cycle(writing)]
#[tactic(auto, using(crate::proofs::Counts::one_labels))]
fn one_part(w: &mut Writer, trees: &[Derivation], node: Node, a: Part) -> Result<(), CodeFault>
    ensures { WritesOrLacks result w.old w.new
        (code_of_parts node.entry.rule node.entry.aim (exp node.entry.of.now) (single_of a.entry.aim (exp a.entry.of.now))
        (derivations trees.now) node.entry.level node.entry.target w.old.next)
        (labels_of_parts node.entry.rule (single_of a.entry.aim (exp a.entry.of.now)) (derivations trees.now))
        (cells_of_parts node.entry.rule (single_of a.entry.aim (exp a.entry.of.now)) node.entry.level) }
{
    if trees.len() != 1 {
        return Ok(());
    }
    let level = part_level(node.rule, node.level)?;
    write(
        w,
        &trees[0],
        a,
        CodeContext {
            level,
            target: node.target,
        },
    )?;
    let part = Part {
        aim: node.aim,
        of: node.of,
    };
    after_single(w, node.rule, part, node.target)?;
    Ok(())
}

/// Writes the code of a rule with two parts.
#[cycle(writing)]
#[tactic(auto, using(crate::proofs::Counts::two_own, crate::proofs::Counts::two_labels))]
fn two_parts(w: &mut Writer, trees: &[Derivation], node: Node, of: Sides) -> Result<(), CodeFault>
    ensures { WritesOrLacks result w.old w.new
        (code_of_parts node.entry.rule node.entry.aim (exp node.entry.of.now)
        (pair_of of.entry.a.aim (exp of.entry.a.of.now) of.entry.b.aim (exp of.entry.b.of.now))
        (derivations trees.now) node.entry.level node.entry.target w.old.next)
        (labels_of_parts node.entry.rule (pair_of of.entry.a.aim (exp of.entry.a.of.now) of.entry.b.aim (exp of.entry.b.of.now)) (derivations trees.now))
        (cells_of_parts node.entry.rule (pair_of of.entry.a.aim (exp of.entry.a.of.now) of.entry.b.aim (exp of.entry.b.of.now)) node.entry.level) }
{
    if trees.len() != 2 {
        return Ok(());
    }
    let first = w.take(own_labels(node.rule))?;
    let level = more(node.level, 1)?;
    let target = first_target(node.rule, node.target, first)?;
    write(w, &trees[0], of.a, CodeContext { level, target })?;
    between(w, node.rule, node.level)?;
    write(
        w,
        &trees[1],
        of.b,
        CodeContext {
            level,
            target: node.target,
        },
    )?;
    after_pair(w, node.rule, node.of, node.level, first)?;
    Ok(())
}

/// Writes the code of a rule with three parts, V20 or V21.
#[cycle(writing)]
#[tactic(auto, using(crate::proofs::Counts::three_own, crate::proofs::Counts::three_labels))]
fn three_parts(w: &mut Writer, trees: &[Derivation], node: Node, of: Three) -> Result<(), CodeFault>
    ensures { WritesOrLacks result w.old w.new
        (code_of_parts node.entry.rule node.entry.aim (exp node.entry.of.now)
        (triple_of of.entry.a.aim (exp of.entry.a.of.now) of.entry.b.aim (exp of.entry.b.of.now) of.entry.c.aim (exp of.entry.c.of.now))
        (derivations trees.now) node.entry.level node.entry.target w.old.next)
        (labels_of_parts node.entry.rule (triple_of of.entry.a.aim (exp of.entry.a.of.now) of.entry.b.aim (exp of.entry.b.of.now) of.entry.c.aim
        (exp of.entry.c.of.now)) (derivations trees.now))
        (cells_of_parts node.entry.rule (triple_of of.entry.a.aim (exp of.entry.a.of.now) of.entry.b.aim (exp of.entry.b.of.now) of.entry.c.aim
        (exp of.entry.c.of.now)) node.entry.level) }
{
    if trees.len() != 3 {
        return Ok(());
    }
    let first = w.take(2)?;
    let here = CodeContext {
        level: node.level,
        target: node.target,
    };
    let level = node.level;
    let target = as_word(first)?;
    write(w, &trees[0], of.a, CodeContext { level, target })?;
    write(w, &trees[1], of.b, here)?;
    let second = more(first, 1)?;
    w.jump(Function::Jump, as_word(second)?)?;
    w.label(first)?;
    write(w, &trees[2], of.c, here)?;
    w.label(second)?;
    Ok(())
}

/// Writes the code of a call.
#[cycle(writing)]
#[tactic(auto, using(crate::proofs::Counts::count_args, crate::proofs::Counts::call_labels_next, crate::proofs::Counts::call_labels_last, crate::proofs::Counts::argument_cells))]
fn call(w: &mut Writer, trees: &[Derivation], node: Node, of: CallOf) -> Result<(), CodeFault>
    ensures { WritesOrLacks result w.old w.new
        (code_of_parts node.entry.rule node.entry.aim (exp node.entry.of.now) (called 0 (args of.entry.arguments.now) (exp of.entry.routine.now))
        (derivations trees.now) node.entry.level node.entry.target w.old.next)
        (labels_of_parts node.entry.rule (called 0 (args of.entry.arguments.now) (exp of.entry.routine.now)) (derivations trees.now))
        (cells_of_parts node.entry.rule (called 0 (args of.entry.arguments.now) (exp of.entry.routine.now)) node.entry.level) }
{
    let aim = Aim::Gets(Mode::Any);
    let mut level = more(node.level, 2)?;
    for (i, argument) in of.arguments.iter().enumerate() {
        if i >= trees.len() {
            return Ok(());
        }
        let here = CodeContext {
            level,
            target: node.target,
        };
        write(w, &trees[i], Part { aim, of: argument }, here)?;
        w.cell(Function::Store, false, level)?;
        level = more(level, 1)?;
    }
    let n = of.arguments.len();
    if trees.len() <= n || trees.len() - n != 1 {
        return Ok(());
    }
    let here = CodeContext {
        level,
        target: node.target,
    };
    write(
        w,
        &trees[n],
        Part {
            aim,
            of: of.routine,
        },
        here,
    )?;
    let number = Word::new(as_word(node.level)?);
    w.number(Function::Call, number)?;
    Ok(())
}
