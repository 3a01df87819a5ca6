//! Cases about roots: derivations and their code, operands, expressions that may change places, and copies.

use crate::answer::Answer;
use crate::derivations::derivation_of;
use crate::expressions::{expression_of, read_expressions, root_of};
use crate::number::{next, short};
use bc_core::{CoreExp, Operand, Root, constant, copy, copy_expression, operand};
use bc_rules::{code_of, free, is_derivation, is_derivation_by, next_label, words};
use bc_rules_defs::{Derivation, Piece, Table};
use bc_text_items::Base;
use bc_word::{Memory, Word};
use bcpl_show::{ShownExpression, ShownPiece, ShownRoot};

/// A question about a root.
#[derive(Clone, Copy)]
pub enum OfRoot {
    /// Whether a derivation is one of the root by each rule table, and its code.
    Derivation,
    /// Copies of the root and its expression, and whether they are equal to the originals.
    Copied,
}

/// The word for a truth value.
fn yes_or_no(yes: bool) -> &'static str {
    if yes { "yes" } else { "no" }
}

/// The line of an input with this index, or an empty text.
fn line(input: &str, index: usize) -> &str {
    input.lines().nth(index).unwrap_or("")
}

/// The number that follows `word` in a line, or 0.
fn following(line: &str, word: &str) -> u16 {
    match line.split_once(word) {
        Some((_, rest)) => short(next(&mut rest.split_whitespace())),
        None => 0,
    }
}

/// Appends the answer about the root in the first line of an input.
pub fn add_told(answer: &mut Answer, what: OfRoot, input: &str) {
    if let Some(root) = root_of(&mut answer.growth, line(input, 0)) {
        add_of_root(answer, what, &root, input);
    }
}

/// Appends the answer about a root.
fn add_of_root(answer: &mut Answer, what: OfRoot, root: &Root, input: &str) {
    match what {
        OfRoot::Derivation => add_judged(answer, root, input),
        OfRoot::Copied => add_copies(answer, root, line(input, 1)),
    }
}

/// Appends whether the derivation in the second line is one of the root by each table, and its code from the labels of the third line on.
fn add_judged(answer: &mut Answer, root: &Root, input: &str) {
    if let Some(derivation) = derivation_of(&mut answer.growth, line(input, 1)) {
        add_judgement(answer, root, &derivation, line(input, 2));
    }
}

/// Appends whether this is a derivation of the root by each table, and its code with these labels.
fn add_judgement(answer: &mut Answer, root: &Root, derivation: &Derivation, labels: &str) {
    answer.say("by table 1 ");
    answer.say(yes_or_no(is_derivation_by(Table::One, root, derivation)));
    answer.say(", by table 2 ");
    answer.say(yes_or_no(is_derivation_by(Table::Two, root, derivation)));
    if is_derivation(root, derivation) {
        add_code(answer, root, derivation, labels);
    }
}

/// Appends the code of a derivation with these labels, and the first label after its own.
fn add_code(answer: &mut Answer, root: &Root, derivation: &Derivation, labels: &str) {
    let first = following(labels, "first ");
    let target = following(labels, "target ");
    let code = code_of(answer.alloc(), root, derivation, target, first);
    add_made(answer, code);
    add_label(answer, next_label(root, derivation, first));
}

/// Appends code, or that there is none.
fn add_made(answer: &mut Answer, code: Result<Vec<Piece>, Memory>) {
    match code {
        Ok(code) => add_pieces(answer, code.as_slice()),
        Err(_) => answer.say("\nno code"),
    }
}

/// Appends the first label after a derivation's own.
fn add_label(answer: &mut Answer, label: Option<u32>) {
    match label {
        Some(label) => answer.numbered("\nnext label ", u64::from(label)),
        None => answer.say("\nno next label"),
    }
}

/// Appends a piece of code.
fn add_piece(answer: &mut Answer, piece: &Piece) {
    let piece = ShownPiece(piece);
    answer.say(" ");
    answer.show(&piece);
}

/// Appends code and its number of words.
fn add_pieces(answer: &mut Answer, code: &[Piece]) {
    answer.say("\ncode");
    for piece in code {
        add_piece(answer, piece);
    }
    add_words(answer, code);
}

/// Appends the number of words of code.
fn add_words(answer: &mut Answer, code: &[Piece]) {
    if code.len() < 1 << 32 {
        answer.sentence("\n{} words", &[words(code)]);
    }
}

/// The letter of a base, as in a text of INTCODE.
fn base_letter(base: Base) -> &'static str {
    match base {
        Base::Number => "",
        Base::P => "P",
        Base::G => "G",
        Base::Label => "L",
    }
}

/// Appends the operand that the expression in the first line is, and its number.
pub fn add_operands(answer: &mut Answer, input: &str) {
    if let Some(e) = expression_of(&mut answer.growth, line(input, 0)) {
        add_operand(answer, &e);
    }
}

/// Appends the operand that an expression is, and its number.
fn add_operand(answer: &mut Answer, e: &CoreExp) {
    add_found(answer, operand(e));
    add_constant(answer, constant(e));
}

/// Appends an operand, or that there is none.
fn add_found(answer: &mut Answer, found: Option<Operand>) {
    match found {
        Some(found) => add_parts(answer, &found),
        None => answer.say("no operand"),
    }
}

/// Appends an operand.
fn add_parts(answer: &mut Answer, found: &Operand) {
    answer.say(if found.direct {
        "operand "
    } else {
        "operand I"
    });
    answer.say(base_letter(found.base));
    answer.number(u64::from(found.n.get()));
}

/// Appends a number, or that there is none.
fn add_constant(answer: &mut Answer, constant: Option<Word>) {
    match constant {
        Some(word) => answer.numbered(", constant ", u64::from(word.get())),
        None => answer.say(", no constant"),
    }
}

/// Appends whether the two expressions in the first line may change places.
pub fn add_freedom(answer: &mut Answer, input: &str) {
    let mut pair = Vec::new(answer.alloc());
    read_expressions(&mut answer.growth, &mut pair, line(input, 0));
    match pair.as_slice() {
        [first, second] => answer.say(yes_or_no(free(first, second))),
        _ => answer.say("not two expressions"),
    }
}

/// Appends a copy of the root and whether it equals the root and the one in another line; then a copy of its expression.
fn add_copies(answer: &mut Answer, root: &Root, other: &str) {
    if let Some(other) = root_of(&mut answer.growth, other) {
        add_copy(answer, root, &other);
    }
    add_inner_copy(answer, root);
}

/// Appends a copy of a root, and whether it equals the root and another one.
fn add_copy(answer: &mut Answer, root: &Root, other: &Root) {
    match copy(answer.alloc(), root) {
        Ok(new) => add_compared(answer, root, other, &new),
        Err(_) => answer.refuse(),
    }
}

/// Appends a copy of a root's expression if the root is a value.
fn add_inner_copy(answer: &mut Answer, root: &Root) {
    match root {
        Root::Value { expression, .. } => add_copy_of(answer, expression),
        Root::Test { .. } | Root::Assign { .. } => {}
    }
}

/// Appends `new`, the copy of a root, and whether it equals the root and another one.
fn add_compared(answer: &mut Answer, root: &Root, other: &Root, new: &Root) {
    let shown = ShownRoot(new);
    answer.show(&shown);
    answer.truth(", the same: ", new == root);
    answer.truth(", the other: ", new == other);
}

/// Appends a copy of an expression, and whether it equals the expression.
fn add_copy_of(answer: &mut Answer, e: &CoreExp) {
    match copy_expression(answer.alloc(), e) {
        Ok(new) => add_same(answer, e, &new),
        Err(_) => answer.refuse(),
    }
}

/// Appends `new`, the copy of an expression, and whether it equals the expression.
fn add_same(answer: &mut Answer, e: &CoreExp, new: &CoreExp) {
    let shown = ShownExpression(new);
    answer.say("\n");
    answer.show(&shown);
    answer.truth(", the same: ", new == e);
}
