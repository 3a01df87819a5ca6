//! Appends the lines of an entry to a text. All functions return `Memory` if an allocation fails.

ghost use Rattle.std.specs.Prelude.{◌≡◌, ◌++◌, ◌∷◌, OnOk, []};
ghost use Rattle.bc_core.specs.View.{root as root_of};
ghost use Rattle.bc_rules_defs.specs.View.{derivation as tree};
ghost use Rattle.bc_cert_write.specs.Lines.{entry_line as text_of_entry, code_line as text_of_code};
ghost use Rattle.bc_cert_write.specs.Printed.{mark_line, mark_lines, line_of_root};

use crate::fields::{form_field, item_field, named, rules_field, words_field};
use crate::mark::NodeMark;
use crate::text::Text;
use bc_core::Root;
use bc_rules_defs::{Derivation, Entry, Piece};
use bc_select::Row;
use bc_text_items::Item;
use bc_word::Memory;

/// Appends the `E` line. `words` is the number of words of the entry's code.
#[tactic(auto, using(crate::proofs::Joined::of_five))]
pub fn entry_line(text: &mut Text, entry: &Entry, words: u64) -> Result<(), Memory>
    ensures { OnOk result (text.new.bytes.items ≡ text.old.bytes.items
        ++ text_of_entry entry.now.segment entry.now.item entry.now.target entry.now.first words) }
{
    text.lettered(b"E ", entry.segment)?;
    text.lettered(b" ", entry.item)?;
    text.lettered(b" ", u64::from(entry.target))?;
    text.lettered(b" ", u64::from(entry.first))?;
    text.lettered(b" ", words)?;
    text.push(b"\n")
}

/// Appends the line of a node, with the least words from its row.
pub fn node_line(text: &mut Text, mark: &NodeMark, row: &Row) -> Result<(), Memory>
    ensures { OnOk result (text.new.bytes.items ≡ text.old.bytes.items ++ mark_line mark.now row.now) }
{
    text.number(mark.level)?;
    form_field(text, mark.form)?;
    words_field(text, row.costs[0])?;
    words_field(text, row.costs[1])?;
    words_field(text, row.costs[2])?;
    words_field(text, row.costs[3])?;
    rules_field(text, mark.rules)?;
    text.push(b"\n")
}

/// Appends the lines of these nodes: the n-th has the n-th row. Nodes without a row have no line.
pub fn node_lines(text: &mut Text, marks: &[NodeMark], rows: &[Row]) -> Result<(), Memory>
    ensures { OnOk result (text.new.bytes.items ≡ text.old.bytes.items ++ mark_lines marks.now rows.now) }
{
    for (i, mark) in marks.iter().enumerate() {
        if i >= rows.len() {
            return Ok(());
        }
        node_line(text, mark, &rows[i])?;
    }
    Ok(())
}

/// Appends the root line. The rule of an assignment is that of the derivation.
pub fn root_line(text: &mut Text, root: &Root, derivation: &Derivation) -> Result<(), Memory>
    ensures { OnOk result (text.new.bytes.items ≡ text.old.bytes.items ++ line_of_root (root_of root.now) (tree derivation.now)) }
{
    match root {
        Root::Value { .. } => text.push(b"R V\n"),
        Root::Test { sense, .. } => text.push(if *sense { b"R T\n" } else { b"R F\n" }),
        Root::Assign { level, .. } => {
            named(text, b"R ", derivation.rule)?;
            text.lettered(b" ", u64::from(*level))?;
            text.push(b"\n")
        }
    }
}

/// Appends the code line. The n-th body of a VALOF has the n-th of these numbers of items, or 0 if there are fewer numbers.
pub fn code_line(text: &mut Text, code: &[Piece], bodies: &[u64]) -> Result<(), Memory>
    ensures { OnOk result (text.new.bytes.items ≡ text.old.bytes.items ++ text_of_code code.now bodies.now) }
{
    text.push(b"C")?;
    let mut body = 0;
    for piece in code {
        match piece {
            Piece::Item(item) => item_field(text, item)?,
            Piece::Body(_) => {
                if body < bodies.len() {
                    text.lettered(b" ?", bodies[body])?;
                    body += 1;
                } else {
                    text.lettered(b" ?", 0)?;
                }
            }
        }
    }
    text.push(b"\n")
}
