//! A section as a list of nodes with their tokens, and how to move around in it. An index that is out of range names
//! a node of the form `Nothing`.

use crate::flatten::{Flat, Marks, flatten};
use crate::interned::Interned;
use crate::node::{Form, Node};
use bc_lex_tokens::Token;
use bc_parse_tree::Section;
use bc_word::Memory;
use bcpl_places::Span;
use std::alloc::Global;

/// The nodes of a section, with its leaves.
#[derive(Drop)]
pub struct Tree<'s> {
    flat: Flat,
    tokens: &'s [Token<'s>],
    /// The names and the leaves among the tokens.
    interned: &'s Interned<'s>,
}

impl<'s> Tree<'s> {
    /// The nodes of the section that was parsed from these tokens, whose names and leaves are `interned`. Returns `Memory`
    /// if an allocation fails.
    pub fn of(
        alloc: Global,
        tokens: &'s [Token<'s>],
        interned: &'s Interned<'s>,
        section: &Section<'_>,
    ) -> Result<Tree<'s>, Memory> {
        Ok(Tree {
            flat: flatten(alloc, section, tokens.len())?,
            tokens,
            interned,
        })
    }

    /// The leaf with this number.
    fn leaf_at(&self, number: usize) -> Option<&'s Token<'s>> {
        self.tokens.get(*self.interned.leaves().get(number)?)
    }

    /// The number of the name that is the first leaf of a node; `None` if that isn't a name.
    pub fn name(&self, at: usize) -> Option<usize> {
        let leaf = self.interned.leaves().get(self.leaves_before(at))?;
        self.interned.number_at(*leaf)
    }

    /// The number of this name, if the main has it.
    pub fn number_of(&self, name: &[u8]) -> Option<usize> {
        self.interned.number_of(name)
    }

    /// How many names there are.
    pub fn names(&self) -> usize {
        self.interned.len()
    }

    /// How many nodes there are.
    pub fn len(&self) -> usize {
        self.flat.nodes.len()
    }

    /// The indexes of expressions, and of what gives names their values, children before parents.
    pub fn valued(&self) -> &[usize] {
        self.flat.valued.as_slice()
    }

    /// The indexes of commands, blocks, items and DEFAULTs, children before parents.
    pub fn commands(&self) -> &[usize] {
        self.flat.commands.as_slice()
    }

    /// The nodes of some forms.
    pub fn marks(&self) -> &Marks {
        &self.flat.marks
    }

    /// The nodes.
    pub fn nodes(&self) -> &[Node] {
        self.flat.nodes.as_slice()
    }

    /// The form of a node.
    pub fn form(&self, at: usize) -> Form {
        match self.flat.nodes.get(at) {
            Some(node) => node.form,
            None => Form::Nothing,
        }
    }

    /// The index after the last descendant of a node.
    pub fn end(&self, at: usize) -> usize {
        match self.flat.nodes.get(at) {
            Some(node) => node.end,
            None => at,
        }
    }

    /// The parent of a node.
    pub fn parent(&self, at: usize) -> usize {
        match self.flat.nodes.get(at) {
            Some(node) => node.parent,
            None => 0,
        }
    }

    /// The number of leaves before a node.
    fn leaves_before(&self, at: usize) -> usize {
        match self.flat.nodes.get(at) {
            Some(node) => node.first,
            None => 0,
        }
    }

    /// The number of leaves up to a node's end.
    fn leaves_up_to(&self, at: usize) -> usize {
        match self.flat.nodes.get(at) {
            Some(node) => node.last,
            None => 0,
        }
    }

    /// The form of a node's parent.
    pub fn form_of_parent(&self, at: usize) -> Form {
        self.form(self.parent(at))
    }

    /// The first child of a node that has children.
    pub fn first(&self, at: usize) -> usize {
        at.saturating_add(1)
    }

    /// The second child of a node that has two or more.
    pub fn second(&self, at: usize) -> usize {
        self.end(self.first(at))
    }

    /// The third child of a node that has three or more.
    pub fn third(&self, at: usize) -> usize {
        self.end(self.second(at))
    }

    /// Whether this is the first child of its parent.
    pub fn is_first(&self, at: usize) -> bool {
        self.first(self.parent(at)) == at
    }

    /// Whether the second is within the first.
    pub fn contains(&self, outer: usize, inner: usize) -> bool {
        outer < inner && inner < self.end(outer)
    }

    /// The first leaf of a node, or the one after it if it has none.
    pub fn leaf(&self, at: usize) -> Option<Token<'s>> {
        self.leaf_at(self.leaves_before(at)).copied()
    }

    /// The text of the first leaf of a node.
    pub fn text(&self, at: usize) -> &'s [u8] {
        match self.leaf_at(self.leaves_before(at)) {
            Some(token) => token.text,
            None => b"",
        }
    }

    /// The leaf before a node.
    pub fn leaf_before(&self, at: usize) -> Option<Token<'s>> {
        self.leaf_at(self.leaves_before(at).checked_sub(1)?)
            .copied()
    }

    /// The stretch of the source from the first leaf of one node to the last one of another.
    pub fn span(&self, from: usize, to: usize) -> Option<Span> {
        let first = self.leaf(from)?;
        let last = self.leaf_at(self.leaves_up_to(to).checked_sub(1)?)?;
        let end = if last.file == first.file {
            last.end.max(first.end)
        } else {
            first.end
        };
        Some(Span {
            file: first.file,
            start: first.start,
            end,
        })
    }

    /// The number of leaves before the first one of a place; `None` if no leaf follows its start in its file.
    pub fn leaf_from(&self, place: Span) -> Option<usize> {
        for number in 0..self.interned.leaves().len() {
            if let Some(token) = self.leaf_at(number)
                && token.file == place.file
                && token.start >= place.start
            {
                return Some(number);
            }
        }
        None
    }

    /// Whether a node has the leaf with this number.
    pub fn has_leaf(&self, at: usize, leaf: usize) -> bool {
        self.leaves_before(at) <= leaf && leaf < self.leaves_up_to(at)
    }

    /// The file of a node's first leaf.
    pub fn file(&self, at: usize) -> usize {
        match self.leaf_at(self.leaves_before(at)) {
            Some(token) => token.file,
            None => 0,
        }
    }
}
