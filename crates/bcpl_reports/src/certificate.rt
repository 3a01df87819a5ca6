//! The lines and entries of a certificate.

use crate::fields::field_of;
use crate::placed::{Placed, Stretch, Text, is_byte};
use bc_cert_defs::Head;
use bc_cert_read::{Form, NodeLine, RootLine, entry_line, header, node_line, root_line};
use bc_rules_defs::Table;
use bc_word::Memory;
use std::alloc::Global;

/// The lines of a text, without their line feeds. Bytes after the last line feed are a line, too. Returns `Memory` if
/// an allocation fails.
pub fn lines_of(alloc: Global, bytes: &[u8]) -> Result<Vec<Stretch>, Memory> {
    let mut lines = Vec::new(alloc);
    let mut start: usize = 0;
    for (at, byte) in bytes.iter().enumerate() {
        if *byte == b'\n' {
            lines.push(Stretch { start, end: at })?;
            start = at.saturating_add(1);
        }
    }
    if start < bytes.len() {
        lines.push(Stretch {
            start,
            end: bytes.len(),
        })?;
    }
    Ok(lines)
}

/// The bytes of a stretch.
pub fn bytes_at(bytes: &[u8], stretch: Stretch) -> &[u8] {
    bytes
        .get(stretch.start..stretch.end)
        .unwrap_or(b"".as_slice())
}

/// A certificate with its lines.
#[derive(Clone, Copy)]
pub struct Lined<'a> {
    /// The file.
    pub text: Text<'a>,
    /// The stretch of each line.
    pub lines: &'a [Stretch],
}

impl<'a> Lined<'a> {
    /// The bytes of the line with this index; empty if there is none.
    pub fn line(&self, index: usize) -> &'a [u8] {
        match self.lines.get(index) {
            Some(stretch) => bytes_at(self.text.bytes, *stretch),
            None => b"",
        }
    }

    /// The bytes of the line before the one with this index; empty if there is none.
    pub fn line_before(&self, index: usize) -> &'a [u8] {
        match index.checked_sub(1) {
            Some(before) => self.line(before),
            None => b"",
        }
    }

    /// The stretch of the line with this index; the end of the text if there is none.
    fn stretch(&self, index: usize) -> Stretch {
        match self.lines.get(index) {
            Some(stretch) => *stretch,
            None => {
                let end = self.text.bytes.len();
                Stretch { start: end, end }
            }
        }
    }

    /// The place of the line with this index.
    pub fn place(&self, index: usize) -> Placed<'a> {
        Placed {
            text: self.text,
            stretch: self.stretch(index),
        }
    }

    /// The place of the field with this index in a line.
    pub fn field(&self, index: usize, field: usize) -> Placed<'a> {
        Placed {
            text: self.text,
            stretch: field_of(self.text.bytes, self.stretch(index), field),
        }
    }

    /// The bytes of a line before the field with this index.
    pub fn front(&self, index: usize, field: usize) -> &'a [u8] {
        let start = self.stretch(index).start;
        let end = self.field(index, field).stretch.start;
        bytes_at(self.text.bytes, Stretch { start, end })
    }

    /// The rule table that the certificate uses; the second one if its header is malformed.
    pub fn table(&self) -> Table {
        header(self.line(0)).unwrap_or(Table::Two)
    }

    /// The index of the `E` line of an entry; `None` if there is none.
    pub fn entry_index(&self, entry: u64) -> Option<usize> {
        let mut left = entry;
        for (index, line) in self.lines.iter().enumerate() {
            if is_byte(self.text.bytes, line.start, b'E') {
                if left == 0 {
                    return Some(index);
                }
                left -= 1;
            }
        }
        None
    }
}

/// An entry of a certificate, as far as its lines are well formed.
#[derive(Clone, Copy)]
pub struct Entry<'a> {
    /// The certificate.
    pub lined: Lined<'a>,
    /// Its rule table.
    pub table: Table,
    /// The index of its `E` line.
    pub index: usize,
    /// The contents of its `E` line.
    pub head: Head,
    /// Its node lines.
    pub nodes: &'a [NodeLine],
}

impl<'a> Entry<'a> {
    /// The index of the line of the node with this index. After the last node comes the root line.
    pub fn line(&self, node: usize) -> usize {
        self.index.saturating_add(1).saturating_add(node)
    }

    /// The index of its root line.
    pub fn root_index(&self) -> usize {
        self.line(self.nodes.len())
    }

    /// The contents of its root line, if that is well formed.
    pub fn root(&self) -> Option<RootLine> {
        root_line(self.lined.line(self.root_index()))
    }
}

/// Appends a line if it is a node line, and returns whether it is one. Returns `Memory` if an allocation fails.
fn add_node(nodes: &mut Vec<NodeLine>, line: &[u8]) -> Result<bool, Memory> {
    let Some(node) = node_line(line) else {
        return Ok(false)
    };
    // The type is named because the borrow checker doesn't find its place otherwise.
    let form: Form = node.form;
    nodes.push(NodeLine { form, ..node })?;
    Ok(true)
}

/// The node lines from the line with this index up to the first line that isn't one. Returns `Memory` if an allocation
/// fails.
pub fn node_lines(alloc: Global, lined: Lined<'_>, index: usize) -> Result<Vec<NodeLine>, Memory> {
    let mut nodes = Vec::new(alloc);
    for at in index..lined.lines.len() {
        if !add_node(&mut nodes, lined.line(at))? {
            break;
        }
    }
    Ok(nodes)
}

/// The contents of the `E` line with this index; `None` if it is malformed.
pub fn head_of(lined: Lined<'_>, index: usize) -> Option<Head> {
    entry_line(lined.line(index))
}
