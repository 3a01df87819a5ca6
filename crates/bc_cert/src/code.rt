//! Judges the code line of an entry: the code must be that of the derivation that the node lines show.

ghost use Rattle.std.specs.Prelude.{◌≡◌, IfOk};
ghost use Rattle.bc_cert_defs.specs.View.{judged as judged_of};
ghost use Rattle.bc_core.specs.View.{root as root_of};
ghost use Rattle.bc_rules_defs.specs.View.{derivation as tree};
ghost use Rattle.bc_rules.specs.Fits.{root_fits};
ghost use Rattle.bc_cert_read.specs.TreeView.{rooted as rooted_of, Gives};
ghost use Rattle.bc_cert_read.specs.Lines.{code_of_line};
ghost use Rattle.bc_cert_read.specs.View.{code};
ghost use Rattle.bc_cert_read.specs.Stacks.{with_whole};
ghost use Rattle.bc_cert_laws.specs.Judging.{same_item, same_piece, same_code, right_of, code_against, code_fits, pieces_judged, judged_with, code_judged};
ghost use Rattle.bc_cert.specs.View.{IsDerived};

use bc_cert_defs::{CheckFault, Head, Judged};
use bc_cert_read::{Position, Rooted, code_line};
use bc_core::Root;
use bc_rules::{code_of, is_derivation_by, next_label, words};
use bc_rules_defs::{Derivation, Piece, Table};
use bc_text_items::Item;
use bc_word::Memory;
use std::alloc::Global;

/// What comes before the code line of an entry.
#[derive(Clone, Copy)]
pub struct Heading {
    /// The rule table that the header names.
    pub table: Table,
    /// The `E` line of the entry.
    pub head: Head,
    /// The place of the code line.
    pub place: Position,
}

/// Whether two items are equal.
fn is_same(item: Item, other: Item) -> bool
    ensures { result ≡ same_item item other }
{
    item == other
}

/// Whether two pieces are equal, except for the numbers of bodies.
fn are_alike(piece: Piece, other: Piece) -> bool
    ensures { result ≡ same_piece piece other }
{
    match piece {
        Piece::Item(item) => match other {
            Piece::Item(other) => is_same(item, other),
            Piece::Body(_) => false,
        },
        Piece::Body(_) => match other {
            Piece::Item(_) => false,
            Piece::Body(_) => true,
        },
    }
}

/// Whether two codes are equal, except for the numbers of bodies. A body's number is that of its items in a certificate, and that of
/// the VALOF in a derivation's code.
fn has_code(code: &[Piece], right: &[Piece]) -> bool
    ensures { result ≡ same_code code.now right.now }
{
    if code.len() != right.len() {
        return false;
    }
    for at in 0..code.len() {
        if !are_alike(code[at], right[at]) {
            return false;
        }
    }
    true
}

/// Whether the rules are a derivation of the root by this table.
fn derives(table: Table, root: &Root, derivation: &Derivation) -> bool
    ensures { result ≡ root_fits table (root_of root.now) (tree derivation.now) }
{
    is_derivation_by(table, root, derivation)
}

/// The code of the root's derivation. None if one of its labels would be over 65,535. Returns `Memory` if an allocation fails.
fn right_code(alloc: Global, head: Head, rooted: &Rooted) -> Result<Option<Vec<Piece>>, Memory>
    requires { IsDerived (rooted_of rooted.now) }
    ensures { IfOk result (λ found. code found ≡ right_of head (rooted_of rooted.now)) }
{
    match next_label(&rooted.root, &rooted.derivation, head.first) {
        Some(_) => {
            let pieces = code_of(
                alloc,
                &rooted.root,
                &rooted.derivation,
                head.target,
                head.first,
            )?;
            Ok(Some(pieces))
        }
        None => Ok(None),
    }
}

/// Compares a code with the right one and its words with the stated ones. Returns `WrongCode` or `WrongWords` if they differ.
fn compared(
    head: Head,
    least: u128,
    code: &[Piece],
    right: &[Piece],
    place: Position,
) -> Result<(), CheckFault>
    ensures { Gives (λ _. tt) result (code_against head least code.now place right.now) }
{
    if has_code(code, right) {
        if words(right) == head.words && least == u128::from(head.words) {
            Ok(())
        } else {
            Err(CheckFault::WrongWords(place.entry))
        }
    } else {
        Err(CheckFault::WrongCode(place.entry))
    }
}

/// Whether a code is that of the root's rules.
///
/// `code_of` and `next_label` require a derivation, so that is checked first. The check always succeeds, as `bc_cert_laws` shows: the
/// rules that judged node lines show make a derivation. So `WrongRule` is never returned here.
fn fits(alloc: Global, heading: Heading, rooted: &Rooted, code: &[Piece]) -> Result<(), CheckFault>
    ensures { Gives (λ _. tt) result (code_fits heading.table heading.head (rooted_of rooted.now) heading.place code.now) }
{
    let Heading { table, head, place } = heading;
    if derives(table, &rooted.root, &rooted.derivation) {
        match right_code(alloc, head, rooted)? {
            Some(right) => compared(head, rooted.words, code, right.as_slice(), place),
            None => Err(CheckFault::WrongCode(place.entry)),
        }
    } else {
        Err(CheckFault::WrongRule(place.entry, place.node))
    }
}

/// The pieces of a code line. Returns `Line` if it isn't one.
fn read_code(alloc: Global, line: &[u8], place: Position) -> Result<Vec<Piece>, CheckFault>
    ensures { Gives (λ v. v.items) result (with_whole place (code_of_line line.now)) }
{
    match code_line(alloc, line)? {
        Some(code) => Ok(code),
        None => Err(CheckFault::Line(place.line)),
    }
}

/// The pieces of a code line, if they are the code of the root's rules.
fn judged_line(
    alloc: Global,
    heading: Heading,
    rooted: &Rooted,
    line: &[u8],
) -> Result<Vec<Piece>, CheckFault>
    ensures { Gives (λ v. v.items) result (pieces_judged heading.table heading.head (rooted_of rooted.now) line.now heading.place) }
{
    let code = read_code(alloc, line, heading.place)?;
    fits(alloc, heading, rooted, code.as_slice())?;
    Ok(code)
}

/// The accepted entry.
fn accepted(head: Head, rooted: Box<Rooted>, code: Vec<Piece>) -> Judged
    ensures { judged_of result ≡ judged_with head (rooted_of rooted.value) code.items }
{
    let rooted = Box::into_inner(rooted);
    Judged {
        segment: head.segment,
        item: head.item,
        root: rooted.root,
        target: head.target,
        first: head.first,
        code,
        words: head.words,
    }
}

/// Judges the code line of an entry and returns the accepted entry.
///
/// Returns `Line` if it isn't a code line, `WrongCode` if the code isn't that of the rules or one of its labels would be over 65,535,
/// `WrongWords` if the stated words aren't those of the code, and `Memory` if an allocation fails.
pub fn judge_code(
    alloc: Global,
    heading: Heading,
    rooted: Box<Rooted>,
    line: &[u8],
) -> Result<Judged, CheckFault>
    ensures { Gives judged_of result (code_judged heading.table heading.head (rooted_of rooted.value) line.now heading.place) }
{
    let code = judged_line(alloc, heading, &rooted, line)?;
    Ok(accepted(heading.head, rooted, code))
}
