//! The listing `tree`: the tree of a section with places, as indented lines, as a graph for dot, or as JSON.

use crate::lines::{Files, Lines};
use crate::page::{Field, Page, WIDTH};
use crate::syntax::{SyntaxNode, syntax_of};
use bc_lex_tokens::Token;
use bc_parse_tree::{Section, leaves_of};
use bc_word::Memory;
use bcpl_places::ColumnCounter;
use std::alloc::Global;
use std::str;

/// The form of the listing `tree`.
#[derive(Clone, Copy, Debug, PartialEq, Eq)]
pub enum TreeForm {
    /// Indented lines.
    Lines,
    /// A graph in the language of dot.
    Dot,
    /// JSON.
    Json,
}

/// A node's place: its file, its line and its column, counted from 1.
#[derive(Clone, Copy)]
struct NodePlace<'p> {
    path: &'p str,
    /// Whether the file is another one than the source.
    is_elsewhere: bool,
    line: u64,
    column: u64,
}

/// A node with its text and its place.
#[derive(Clone, Copy)]
struct PlacedNode<'p, 's> {
    depth: usize,
    kind: &'static str,
    text: &'s [u8],
    place: Option<NodePlace<'p>>,
}

/// What the nodes of a section are shown from.
#[derive(Drop)]
struct TreeGround<'p, 's> {
    files: Files<'p, 's>,
    main: usize,
    lines: Vec<Lines>,
    leaves: Vec<Token<'s>>,
}

impl<'p, 's> TreeGround<'p, 's> {
    /// The lines of all sources and the leaves of a section. `Memory` if an allocation fails.
    fn new(
        alloc: Global,
        files: Files<'p, 's>,
        main: usize,
        tokens: &[Token<'s>],
    ) -> Result<TreeGround<'p, 's>, Memory> {
        let mut lines = Vec::new(alloc);
        for source in files.sources {
            lines.push(Lines::new(alloc, source.text)?)?;
        }
        let leaves = leaves_of(alloc, tokens)?;
        Ok(TreeGround {
            files,
            main,
            lines,
            leaves,
        })
    }

    /// The place of a leaf.
    fn place_of(&self, columns: &mut ColumnCounter, leaf: &Token<'s>) -> Option<NodePlace<'p>> {
        let lines = self.lines.get(leaf.file)?;
        let column = lines.column_of(columns, self.files.text(leaf.file), leaf);
        Some(NodePlace {
            path: self.files.path(leaf.file),
            is_elsewhere: leaf.file != self.main,
            line: lines.number_at(leaf.start) as u64,
            column: column as u64,
        })
    }

    /// Whether a node belongs to a file of the library.
    fn is_of_library(&self, node: &SyntaxNode) -> bool {
        match self.leaves.get(node.leaf) {
            Some(leaf) => self.files.is_of_library(leaf.file),
            None => false,
        }
    }

    /// A node with its text and its place.
    fn shown(&self, columns: &mut ColumnCounter, node: &SyntaxNode) -> PlacedNode<'p, 's> {
        let Some(leaf) = self.leaves.get(node.leaf) else {
            return PlacedNode {
                depth: node.depth,
                kind: node.kind,
                text: b"",
                place: None,
            };
        };
        PlacedNode {
            depth: node.depth,
            kind: node.kind,
            text: if node.has_text { leaf.text } else { b"" },
            place: self.place_of(columns, leaf),
        }
    }

    /// A GET of the library's file to which a node belongs.
    fn got(&self, node: &SyntaxNode) -> PlacedNode<'p, 's> {
        let text = match self.leaves.get(node.leaf) {
            Some(leaf) => self.files.name(leaf.file),
            None => b"",
        };
        PlacedNode {
            depth: 0,
            kind: "GET",
            text,
            place: None,
        }
    }

    /// The nodes to show: those of the source and of other files. One GET takes the place of consecutive declarations
    /// of the library.
    fn all_shown(
        &self,
        alloc: Global,
        nodes: &[SyntaxNode],
    ) -> Result<Vec<PlacedNode<'p, 's>>, Memory> {
        let mut shown = Vec::new(alloc);
        let mut is_got = false;
        let mut columns = ColumnCounter::new();
        for node in nodes {
            let was_got = is_got;
            is_got = self.is_of_library(node);
            if !is_got {
                shown.push(self.shown(&mut columns, node))?;
            } else if !was_got {
                shown.push(self.got(node))?;
            }
        }
        Ok(shown)
    }
}

/// The least column of the nodes' kinds in indented lines.
const KINDS: usize = 10;

/// Adds a place as `line:column`, after the path if the file is another one.
fn add_place(page: &mut Page, place: Option<NodePlace<'_>>) {
    let Some(place) = place else {
        return;
    };
    if place.is_elsewhere {
        page.add_all(&[Field::Text(place.path), Field::Text(":")]);
    }
    page.add_all(&[
        Field::Number(place.line, 0),
        Field::Text(":"),
        Field::Number(place.column, 0),
    ]);
}

/// The column of the nodes' kinds in indented lines, which is after all places.
fn kinds_column(alloc: Global, nodes: &[PlacedNode<'_, '_>]) -> usize {
    let mut column = KINDS;
    for node in nodes {
        let mut place = Page::new(alloc);
        add_place(&mut place, node.place);
        column = column.max(place.column().saturating_add(1));
    }
    column
}

/// Adds a node as an indented line, with its kind from this column on.
fn add_line(page: &mut Page, node: &PlacedNode<'_, '_>, kinds: usize) {
    add_place(page, node.place);
    page.fill_to(kinds.saturating_add(node.depth.saturating_mul(2)));
    page.add_text(node.kind);
    if !node.text.is_empty() {
        page.add_text(" ");
        let room = WIDTH.saturating_sub(page.column()).saturating_sub(1);
        page.add_front(visible(node.text), room);
    }
    page.end_line();
}

/// The bytes before the first control character.
fn visible(bytes: &[u8]) -> &[u8] {
    for (at, byte) in bytes.iter().enumerate() {
        if *byte < 32 {
            return bytes.get(..at).unwrap_or(bytes);
        }
    }
    bytes
}

/// Adds bytes between quotes, for dot and JSON. A control character is a question mark, and so is each byte from 128 on
/// if the bytes are not valid UTF-8.
fn add_quoted(page: &mut Page, bytes: &[u8]) {
    let is_text = str::from_utf8(bytes).is_ok();
    for byte in bytes {
        match *byte {
            b'"' => page.add_text("\\\""),
            b'\\' => page.add_text("\\\\"),
            32..=126 => page.add(&[*byte]),
            128..=255 if is_text => page.add(&[*byte]),
            _ => page.add_text("?"),
        }
    }
}

/// The node above each node: the index of the last one before it with a smaller depth, and 1; or 0 for none.
fn parents_of(alloc: Global, nodes: &[PlacedNode<'_, '_>]) -> Result<Vec<usize>, Memory> {
    let mut open: Vec<usize> = Vec::new(alloc);
    let mut parents = Vec::new(alloc);
    for (index, node) in nodes.iter().enumerate() {
        open.truncate(node.depth);
        parents.push(open.last().copied().unwrap_or(0))?;
        open.push(index.saturating_add(1))?;
    }
    Ok(parents)
}

/// Adds a node of a graph, and the edge to it from its parent; node 0 is the section.
fn add_vertex(page: &mut Page, index: usize, node: &PlacedNode<'_, '_>, parent: usize) {
    let number = (index as u64).saturating_add(1);
    page.add_all(&[
        Field::Text("  n"),
        Field::Number(number, 0),
        Field::Text(" [label=\""),
    ]);
    add_quoted(page, node.kind.as_bytes());
    if !node.text.is_empty() {
        page.add_text(" ");
        add_quoted(page, node.text);
    }
    if node.place.is_some() {
        page.add_text("\\n");
        add_place(page, node.place);
    }
    page.add_line(&[
        Field::Text("\"]; n"),
        Field::Number(parent as u64, 0),
        Field::Text(" -> n"),
        Field::Number(number, 0),
        Field::Text(";"),
    ]);
}

/// Adds the graph.
fn add_graph(page: &mut Page, nodes: &[PlacedNode<'_, '_>]) {
    let Ok(parents) = parents_of(page.alloc(), nodes) else {
        return page.refuse();
    };
    page.add_lines(
        "digraph tree {\n  node [shape=box, fontname=monospace, style=rounded];\n  n0 [label=section];\n",
    );
    for (index, node) in nodes.iter().enumerate() {
        let parent = parents.get(index).copied().unwrap_or(0);
        add_vertex(page, index, node, parent);
    }
    page.add_lines("}\n");
}

/// Adds the members of a JSON object that give a node's place.
fn add_json_place(page: &mut Page, place: Option<NodePlace<'_>>) {
    let Some(place) = place else {
        return;
    };
    if place.is_elsewhere {
        page.add_text(",\"file\":\"");
        add_quoted(page, place.path.as_bytes());
        page.add_text("\"");
    }
    page.add_all(&[
        Field::Text(",\"line\":"),
        Field::Number(place.line, 0),
        Field::Text(",\"column\":"),
        Field::Number(place.column, 0),
    ]);
}

/// Ends the objects of nodes that are open, down to this depth.
fn close_objects(page: &mut Page, open: usize, depth: usize) {
    for _ in depth..open {
        page.add_text("]}");
    }
}

/// Begins the object of a node; its parts follow.
fn open_object(page: &mut Page, node: &PlacedNode<'_, '_>) {
    page.add_text("{\"kind\":\"");
    add_quoted(page, node.kind.as_bytes());
    page.add_text("\"");
    if !node.text.is_empty() {
        page.add_text(",\"text\":\"");
        add_quoted(page, node.text);
        page.add_text("\"");
    }
    add_json_place(page, node.place);
    page.add_text(",\"parts\":[");
}

/// Adds the tree as JSON, a node per line.
fn add_json(page: &mut Page, nodes: &[PlacedNode<'_, '_>]) {
    page.add_text("{\"kind\":\"section\",\"parts\":[");
    let mut open: usize = 0;
    for node in nodes {
        close_objects(page, open, node.depth);
        if node.depth < open {
            page.add_text(",");
        }
        page.end_line();
        open_object(page, node);
        open = node.depth.saturating_add(1);
    }
    close_objects(page, open, 0);
    page.add_text("]}");
    page.end_line();
}

/// The listing `tree` of a section in this form. `Memory` if an allocation fails.
pub fn syntax_listing<'s>(
    alloc: Global,
    files: Files<'_, 's>,
    source: (usize, &[Token<'s>]),
    section: &Section<'s>,
    form: TreeForm,
) -> Result<Vec<u8>, Memory> {
    let (main, tokens) = source;
    let nodes = syntax_of(alloc, section)?;
    let ground = TreeGround::new(alloc, files, main, tokens)?;
    let shown = ground.all_shown(alloc, nodes.as_slice())?;
    let mut page = Page::new(alloc);
    match form {
        TreeForm::Lines => {
            let kinds = kinds_column(alloc, shown.as_slice());
            for node in &shown {
                add_line(&mut page, node, kinds);
            }
        }
        TreeForm::Dot => add_graph(&mut page, shown.as_slice()),
        TreeForm::Json => add_json(&mut page, shown.as_slice()),
    }
    page.into_text()
}
