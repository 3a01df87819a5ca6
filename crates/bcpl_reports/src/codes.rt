//! Explains code of a certificate, or its number of words, that isn't that of its derivation.

use crate::certificate::Entry;
use crate::derived::rooted_of;
use crate::fields::piece_text;
use crate::placed::Placed;
use crate::report::{Fill, Report};
use bc_cert_read::{RootLine, Rooted, Stack, code_line};
use bc_rules::{code_of, next_label, words};
use bc_rules_defs::Piece;
use bc_word::Memory;

/// Whether two pieces are equal, disregarding the contents of bodies.
fn are_alike(piece: &Piece, other: &Piece) -> bool {
    match (piece, other) {
        (Piece::Item(one), Piece::Item(other)) => one == other,
        (Piece::Body(_), Piece::Body(_)) => true,
        _ => false,
    }
}

/// The index of the first piece in which two codes differ.
fn first_difference(code: &[Piece], right: &[Piece]) -> usize {
    let mut index: usize = 0;
    for piece in code {
        match right.get(index) {
            Some(other) if are_alike(piece, other) => index = index.saturating_add(1),
            _ => break,
        }
    }
    index
}

/// Adds the right code as a certificate's line would have it.
fn add_whole(report: &mut Report, right: &[Piece]) -> Result<(), Memory> {
    report.text("  the whole code: C")?;
    for piece in right {
        report.say(" {}", &[piece_text(piece)])?;
    }
    report.text("\n")
}

/// Adds the place where the code differs; `right` is the right piece there.
fn add_difference(
    report: &mut Report,
    placed: Placed<'_>,
    right: Option<&Piece>,
) -> Result<(), Memory> {
    match right {
        Some(piece) => report.place(
            placed,
            "the code of these rules has {} here",
            &[piece_text(piece)],
        ),
        None => report.place(placed, "the code of these rules ends before this", &[]),
    }
}

/// Describes code that isn't that of the derivation.
fn add_code(report: &mut Report, entry: &Entry<'_>, right: &[Piece]) -> Result<(), Memory> {
    let index = entry.root_index().saturating_add(1);
    let Some(code) = code_line(report.alloc(), entry.lined.line(index))? else {
        return Ok(())
    };
    let differs = first_difference(code.as_slice(), right);
    let placed = entry.lined.field(index, differs.saturating_add(1));
    add_difference(report, placed, right.get(differs))?;
    add_whole(report, right)
}

/// Describes a wrong number of words; the code has `count`.
fn add_words(report: &mut Report, entry: &Entry<'_>, count: u64) -> Result<(), Memory> {
    report.place(
        entry.lined.field(entry.index, 5),
        "the code has {} words, but {} is written here",
        &[
            Fill::Number(u128::from(count)),
            Fill::Number(u128::from(entry.head.words)),
        ],
    )
}

/// Describes wrong code of a root, or its wrong number of words.
fn add_wrong(
    report: &mut Report,
    entry: &Entry<'_>,
    rooted: &Rooted,
    is_of_words: bool,
) -> Result<(), Memory> {
    let head = entry.head;
    let right = code_of(
        report.alloc(),
        &rooted.root,
        &rooted.derivation,
        head.target,
        head.first,
    )?;
    if is_of_words {
        add_words(report, entry, words(right.as_slice()))
    } else {
        add_code(report, entry, right.as_slice())
    }
}

/// Describes a derivation whose labels would be too large.
fn add_labels(report: &mut Report, entry: &Entry<'_>) -> Result<(), Memory> {
    let sentence = "with this first label, the labels of the derivation would exceed 65535";
    report.place(entry.lined.field(entry.index, 4), sentence, &[])
}

/// Whether the labels of a root's derivation are too large.
fn goes_over(entry: &Entry<'_>, rooted: &Rooted) -> bool {
    next_label(&rooted.root, &rooted.derivation, entry.head.first).is_none()
}

/// Describes wrong code or a wrong number of words for this root line.
fn add_rooted(
    report: &mut Report,
    trees: &mut Stack,
    entry: &Entry<'_>,
    root: RootLine,
    is_of_words: bool,
) -> Result<(), Memory> {
    match rooted_of(trees, report.alloc(), entry.table, entry.nodes, root)? {
        Some(rooted) if !is_of_words && goes_over(entry, &rooted) => add_labels(report, entry),
        Some(rooted) => add_wrong(report, entry, &rooted, is_of_words),
        None => Ok(()),
    }
}

/// Describes an entry whose code isn't that of the derivation or, if `is_of_words`, whose number of words isn't that of
/// the code. Returns `Memory` if an allocation fails.
pub fn wrong_code(
    report: &mut Report,
    trees: &mut Stack,
    entry: &Entry<'_>,
    is_of_words: bool,
) -> Result<(), Memory> {
    match entry.root() {
        Some(root) => add_rooted(report, trees, entry, root, is_of_words),
        None => Ok(()),
    }
}
