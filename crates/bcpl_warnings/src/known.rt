//! What the checks of a main look at.

use crate::flow::Flow;
use crate::kinds::Kinds;
use bc_lex::Source;
use bc_parse_tree::{BinaryOp, UnaryOp};
use bc_word::Word;
use bcpl_index::{Form, Kind, Sort, Tree};
use bcpl_messages::{Draft, Fill};
use bcpl_places::Span;

/// A main, and what was found out about it.
#[derive(Clone, Copy)]
pub struct Known<'m, 's> {
    /// The sources of the program.
    pub sources: &'m [Source<'s>],
    /// How many of them are the library's.
    pub library: usize,
    /// The nodes of the main.
    pub tree: &'m Tree<'s>,
    /// What they are.
    pub kinds: &'m Kinds,
    /// Where control goes.
    pub flow: &'m Flow,
}

/// How far up in the tree a search goes.
const HIGHEST: usize = 100;

/// How many parentheses a text closes without opening them, and how many it opens without closing them.
fn unpaired(text: &[u8]) -> (usize, usize) {
    let mut closed: usize = 0;
    let mut open: usize = 0;
    for byte in text {
        if *byte == b'(' {
            open = open.saturating_add(1);
        } else if *byte == b')' && open > 0 {
            open = open.saturating_sub(1);
        } else if *byte == b')' {
            closed = closed.saturating_add(1);
        }
    }
    (closed, open)
}

/// The offset of the first of so many opening parentheses directly before an offset.
fn before_parentheses(text: &[u8], start: usize, count: usize) -> usize {
    let mut at = start;
    let mut left = count;
    for _ in 0..start {
        if left == 0 {
            break;
        }
        let Some(before) = at.checked_sub(1) else {
            break;
        };
        let Some(byte) = text.get(before) else {
            break;
        };
        if *byte == b'(' {
            left = left.saturating_sub(1);
        } else if *byte != b' ' {
            break;
        }
        at = before;
    }
    at
}

/// The offset after the last of so many closing parentheses directly after an offset.
fn after_parentheses(text: &[u8], end: usize, count: usize) -> usize {
    let mut at = end;
    let mut left = count;
    for _ in end..text.len() {
        if left == 0 {
            break;
        }
        let Some(byte) = text.get(at) else {
            break;
        };
        if *byte == b')' {
            left = left.saturating_sub(1);
        } else if *byte != b' ' {
            break;
        }
        at = at.saturating_add(1);
    }
    at
}

/// Whether a byte is a blank, a tab or part of a line break.
fn is_blank(byte: u8) -> bool {
    matches!(byte, b' ' | b'\t' | b'\n' | b'\r')
}

/// The sign before an offset, apart from blanks and line breaks.
fn sign_before(text: &[u8], offset: usize) -> Option<u8> {
    let mut at = offset;
    for _ in 0..offset {
        at = at.checked_sub(1)?;
        let byte = *text.get(at)?;
        if !is_blank(byte) {
            return Some(byte);
        }
    }
    None
}

/// The sign at an offset or after it, apart from blanks and line breaks.
fn sign_from(text: &[u8], offset: usize) -> Option<u8> {
    for at in offset..text.len() {
        let byte = *text.get(at)?;
        if !is_blank(byte) {
            return Some(byte);
        }
    }
    None
}

/// Whether the text between two offsets, with the parentheses that belong to it, has others directly around it.
fn is_enclosed(text: &[u8], start: usize, end: usize) -> bool {
    let Some(inside) = text.get(start..end) else {
        return false;
    };
    let (closed, open) = unpaired(inside);
    let first = before_parentheses(text, start, closed);
    let last = after_parentheses(text, end, open);
    sign_before(text, first) == Some(b'(') && sign_from(text, last) == Some(b')')
}

/// The text between two offsets, with the parentheses around it that belong to others in it.
fn balanced(text: &[u8], start: usize, end: usize) -> &[u8] {
    let Some(inside) = text.get(start..end) else {
        return b"";
    };
    let (closed, open) = unpaired(inside);
    if closed == 0 && open == 0 {
        return inside;
    }
    let first = before_parentheses(text, start, closed);
    match text.get(first..after_parentheses(text, end, open)) {
        Some(whole) => whole,
        None => inside,
    }
}

impl<'s> Known<'_, 's> {
    /// The text of the source from the first leaf of one node to the last one of another, and the parentheses around it
    /// that belong to others in it.
    pub fn text(&self, from: usize, to: usize) -> &'s [u8] {
        let Some(span) = self.tree.span(from, to) else {
            return b"";
        };
        match self.sources.get(span.file) {
            Some(source) => balanced(source.text, span.start, span.end),
            None => b"",
        }
    }

    /// Whether a node begins with a sign of one operand, as NOT or `-`.
    fn begins_with_sign(&self, at: usize) -> bool {
        let mut node = at;
        for _ in 0..HIGHEST {
            match self.tree.form(node) {
                Form::Unary(_) => return true,
                Form::Bin(_) | Form::Cond | Form::Call => node = self.tree.first(node),
                _ => return false,
            }
        }
        true
    }

    /// Whether a VALOF is in a node.
    fn has_valof(&self, at: usize) -> bool {
        for node in at..self.tree.end(at) {
            if matches!(self.tree.form(node), Form::Valof) {
                return true;
            }
        }
        false
    }

    /// Whether the source has parentheses around a node, besides those of its operands. A node that begins with a sign of one
    /// operand, has a VALOF, or ends with a call without arguments counts as one that has them: where its text begins or ends
    /// isn't known.
    pub fn is_parenthesised(&self, at: usize) -> bool {
        if self.begins_with_sign(at) || self.has_valof(at) {
            return true;
        }
        let last = self.tree.end(at).saturating_sub(1);
        if matches!(self.tree.form_of_parent(last), Form::Call) && self.tree.is_first(last) {
            return true;
        }
        let Some(span) = self.tree.span(at, at) else {
            return false;
        };
        match self.sources.get(span.file) {
            Some(source) => is_enclosed(source.text, span.start, span.end),
            None => false,
        }
    }

    /// Whether a node is constant and written out, without names.
    pub fn is_written(&self, at: usize) -> bool {
        for node in at..self.tree.end(at) {
            if matches!(self.tree.form(node), Form::Name) {
                return false;
            }
        }
        self.kinds.value(at).is_some()
    }

    /// The form of a node.
    pub fn form(&self, at: usize) -> Form {
        self.tree.form(at)
    }

    /// The first two nodes in a node.
    pub fn sides(&self, at: usize) -> (usize, usize) {
        (self.tree.first(at), self.tree.second(at))
    }

    /// What the value of a node is.
    pub fn kind(&self, at: usize) -> Kind {
        self.kinds.kind(at)
    }

    /// Whether the value of a node is of this kind.
    pub fn is(&self, at: usize, kind: Kind) -> bool {
        self.kinds.kind(at) == kind
    }

    /// The value of a node, if it is known.
    pub fn value(&self, at: usize) -> Option<Word> {
        self.kinds.value(at)
    }

    /// Whether a node is known to have this value.
    pub fn has_value(&self, at: usize, value: u16) -> bool {
        match self.kinds.value(at) {
            Some(word) => word.get() == value,
            None => false,
        }
    }

    /// The place of the first leaf of a node.
    pub fn first_leaf(&self, at: usize) -> Option<Span> {
        let token = self.tree.leaf(at)?;
        Some(Span {
            file: token.file,
            start: token.start,
            end: token.end,
        })
    }

    /// A node's text, as a part of a sentence.
    pub fn shown(&self, at: usize) -> Fill<'s> {
        Fill::Shown(self.text(at, at))
    }

    /// Begins a warning at these nodes.
    pub fn begin(&self, draft: &mut Draft, from: usize, to: usize) {
        if let Some(span) = self.tree.span(from, to) {
            draft.place(span);
        }
        draft.say("warning: ", &[]);
    }

    /// Whether a node is the test of a command or of a conditional expression.
    fn is_test(&self, at: usize) -> bool {
        let tree = self.tree;
        match tree.form_of_parent(at) {
            Form::If | Form::Unless | Form::While | Form::Until | Form::Test | Form::Cond =>
                tree.is_first(at),
            Form::RepeatWhile | Form::RepeatUntil => !tree.is_first(at),
            _ => false,
        }
    }

    /// Whether a node is a condition: a test, or a part of one that `&`, `|` and NOT join.
    pub fn is_condition(&self, at: usize) -> bool {
        let mut node = at;
        for _ in 0..HIGHEST {
            if self.is_test(node) {
                return true;
            }
            match self.tree.form_of_parent(node) {
                Form::Bin(BinaryOp::And | BinaryOp::Or) | Form::Unary(UnaryOp::Not) => {
                    node = self.tree.parent(node);
                }
                _ => return false,
            }
        }
        false
    }

    /// Whether a node uses no names but those of constants.
    pub fn is_constant(&self, at: usize) -> bool {
        for node in at..self.tree.end(at) {
            if matches!(self.tree.form(node), Form::Name) && !self.is_manifest(node) {
                return false;
            }
        }
        true
    }

    /// Whether a node is the name of a constant.
    fn is_manifest(&self, at: usize) -> bool {
        match self.kinds.names.at(at) {
            Some(declared) => declared.sort == Sort::Constant,
            None => false,
        }
    }

    /// Whether the value that is known of a node is its value wherever it is computed: it is constant, or the node is
    /// under no condition that may depend on it.
    pub fn is_certain(&self, at: usize) -> bool {
        if self.is_constant(at) {
            return true;
        }
        match self.routine_of(at) {
            Some(routine) => self.is_in_each_round(routine, at),
            None => false,
        }
    }

    /// The nearest node above that is a VALOF.
    pub fn valof_of(&self, at: usize) -> Option<usize> {
        let mut node = at;
        for _ in 0..HIGHEST {
            node = self.tree.parent(node);
            match self.tree.form(node) {
                Form::Valof => return Some(node),
                Form::Function | Form::Routine | Form::Nothing => return None,
                _ => {}
            }
        }
        None
    }

    /// The routine that a node is in.
    pub fn routine_of(&self, at: usize) -> Option<usize> {
        let mut node = at;
        for _ in 0..HIGHEST {
            node = self.tree.parent(node);
            match self.tree.form(node) {
                Form::Function | Form::Routine => return Some(node),
                Form::Nothing => return None,
                _ => {}
            }
        }
        None
    }

    /// Whether each round of a FOR, or each call of a routine, does what is in this node, as far as one can see.
    pub fn is_in_each_round(&self, outer: usize, at: usize) -> bool {
        if self.flow.has_jump(self.tree, outer) {
            return false;
        }
        let mut node = at;
        for _ in 0..HIGHEST {
            node = self.tree.parent(node);
            if node == outer {
                return true;
            }
            let is_always_done = matches!(
                self.tree.form(node),
                Form::Block
                    | Form::Item
                    | Form::Do
                    | Form::Call
                    | Form::Assign
                    | Form::Places
                    | Form::Values
                    | Form::Let
                    | Form::Variables
                    | Form::Unary(_)
                    | Form::Bin(_)
            );
            if !is_always_done
                || matches!(
                    self.tree.form(node),
                    Form::Bin(BinaryOp::And | BinaryOp::Or)
                )
            {
                return false;
            }
        }
        false
    }
}

/// How an operator is written.
pub fn sign_of(sign: BinaryOp) -> &'static str {
    match sign {
        BinaryOp::Equivalent => "EQV",
        BinaryOp::NotEquivalent => "NEQV",
        BinaryOp::Or => "|",
        BinaryOp::And => "&",
        BinaryOp::ShiftLeft => "<<",
        BinaryOp::ShiftRight => ">>",
        BinaryOp::Equal => "=",
        BinaryOp::NotEqual => "~=",
        BinaryOp::Less => "<",
        BinaryOp::GreaterEqual => ">=",
        BinaryOp::Greater => ">",
        BinaryOp::LessEqual => "<=",
        BinaryOp::Add => "+",
        BinaryOp::Subtract => "-",
        BinaryOp::Multiply => "*",
        BinaryOp::Divide => "/",
        BinaryOp::Remainder => "REM",
        BinaryOp::Index => "!",
    }
}
