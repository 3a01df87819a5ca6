//! Messages for certificates that the checker refuses.

use crate::certificate::{Entry, Lined, head_of, lines_of, node_lines};
use crate::codes::wrong_code;
use crate::costs::wrong_cost;
use crate::placed::{Placed, Text};
use crate::report::{Fill, Report};
use crate::rules::wrong_rule;
use bc_cert_defs::CheckFault;
use bc_cert_read::{Stack, end_line, node_line, root_line};
use bc_word::Memory;
use std::alloc::Global;

/// The help for a malformed line.
const FORMS: &str = "docs/certificate.md describes the form of each line";

/// What is wrong with a line after another one, where a fixed sentence says it.
fn fixed_sentence(before: &[u8], line: &[u8]) -> Option<&'static str> {
    match before.first() {
        Some(b'B' | b'C') if end_line(line).is_some() => {
            Some("the number on the end line is not the number of entries")
        }
        Some(b'B' | b'C') => Some(
            "expected an entry, `E segment item target first words`, or the end line, `Z entries`",
        ),
        Some(b'R') => Some("expected a code line: `C`, then a field for each piece"),
        Some(b'Z') => Some("nothing may follow the end line"),
        _ => None,
    }
}

/// What is wrong with a line that isn't a node line, where a node line or a root line is expected.
fn no_node(line: &[u8]) -> &'static str {
    if root_line(line).is_some() {
        "a root line needs one tree before it, or two for an assignment, at its level"
    } else {
        "expected a node line, `level form any push false true rules`, or a root line, `R ..`"
    }
}

/// Describes a line where a node line or a root line is expected.
fn add_no_node(report: &mut Report, placed: Placed<'_>, line: &[u8]) -> Result<(), Memory> {
    match node_line(line) {
        Some(node) => report.fault(
            placed,
            "the trees of a node's parts, each at its level, must come before it, and here they don't; this node's number of parts: {}",
            &[Fill::Number(node.form.parts() as u128)],
            FORMS,
        ),
        None => report.fault(placed, no_node(line), &[], FORMS),
    }
}

/// Describes a line that is wrong where it is.
fn wrong_line(report: &mut Report, lined: Lined<'_>, index: usize) -> Result<(), Memory> {
    let line = lined.line(index);
    match fixed_sentence(lined.line_before(index), line) {
        Some(sentence) => report.fault(lined.place(index), sentence, &[], FORMS),
        None => add_no_node(report, lined.place(index), line),
    }
}

/// A line's number as an index; 0 if it is none.
fn index_of(line: u64) -> usize {
    if line > 0 && line < 4_294_967_296 {
        (line - 1) as usize
    } else {
        0
    }
}

/// A node's number as an index.
fn node_index(node: u64) -> usize {
    if node < 4_294_967_296 {
        node as usize
    } else {
        usize::MAX
    }
}

/// Describes a fault of an entry.
fn at_entry(
    report: &mut Report,
    trees: &mut Stack,
    entry: &Entry<'_>,
    fault: CheckFault,
) -> Result<(), Memory> {
    match fault {
        CheckFault::WrongCost(_, node) => wrong_cost(report, entry, node_index(node)),
        CheckFault::WrongRule(_, node) => wrong_rule(report, trees, entry, node_index(node)),
        CheckFault::WrongCode(_) => wrong_code(report, trees, entry, false),
        CheckFault::WrongWords(_) => wrong_code(report, trees, entry, true),
        _ => Ok(()),
    }
}

/// Describes a fault of the entry with this number.
fn in_entry(
    report: &mut Report,
    lined: Lined<'_>,
    number: u64,
    fault: CheckFault,
) -> Result<(), Memory> {
    let Some(index) = lined.entry_index(number) else {
        return Ok(())
    };
    let Some(head) = head_of(lined, index) else {
        return Ok(())
    };
    let nodes = node_lines(report.alloc(), lined, index.saturating_add(1))?;
    let entry = Entry {
        lined,
        table: lined.table(),
        index,
        head,
        nodes: nodes.as_slice(),
    };
    let mut trees = Stack::new(report.alloc());
    at_entry(report, &mut trees, &entry, fault)
}

/// Describes a fault. Adds nothing if nothing more is known.
fn add_fault(report: &mut Report, lined: Lined<'_>, fault: CheckFault) -> Result<(), Memory> {
    match fault {
        CheckFault::Header => report.fault(
            lined.place(0),
            "the first line of a certificate must be `BCPLCERT 2`, or `BCPLCERT 1` for the first rule table",
            &[],
            "name the certificate before the texts: bcpl check CERT TEXT",
        ),
        CheckFault::Line(line) => wrong_line(report, lined, index_of(line)),
        CheckFault::Truncated => report.fault(
            lined.place(lined.lines.len().saturating_sub(1)),
            "the certificate ends with this line, which is not its end line or has no line feed",
            &[],
            "the last line must be `Z` and the number of entries; perhaps the end of the file is missing",
        ),
        CheckFault::TooDeep(line) => report.fault(
            lined.place(index_of(line)),
            "the nesting is too deep: more than 400 nodes inside one another up to this one",
            &[],
            "no build makes such a tree, since the parser refuses it",
        ),
        CheckFault::WrongCost(entry, _)
        | CheckFault::WrongRule(entry, _)
        | CheckFault::WrongCode(entry)
        | CheckFault::WrongWords(entry) => in_entry(report, lined, entry, fault),
        CheckFault::Read | CheckFault::Memory => Ok(()),
    }
}

/// Describes a fault of this certificate.
fn add_check(report: &mut Report, text: Text<'_>, fault: CheckFault) -> Result<(), Memory> {
    let lines = lines_of(report.alloc(), text.bytes)?;
    let lined = Lined {
        text,
        lines: lines.as_slice(),
    };
    add_fault(report, lined, fault)
}

/// The lines on the refusal of a certificate: its line, what is there and what should be. Empty if nothing more is
/// known. Returns `Memory` if an allocation fails.
pub fn check_lines(alloc: Global, text: Text<'_>, fault: CheckFault) -> Result<String, Memory> {
    let mut report = Report::new(alloc);
    add_check(&mut report, text, fault)?;
    Ok(report.into_text())
}
