//! What is open at a place of a source: sections, parentheses and commands, each with the columns of its lines.

/// What is open.
#[derive(Clone, Copy, PartialEq, Eq)]
pub enum FrameKind {
    /// A section of commands, or the whole source.
    Block,
    /// A section of MANIFEST, STATIC or GLOBAL.
    Entries,
    /// A parenthesis.
    Parenthesis,
    /// A command, a definition, or an entry of MANIFEST, STATIC or GLOBAL.
    Command(Phase),
}

/// How far a command is read.
#[derive(Clone, Copy, PartialEq, Eq)]
pub enum Phase {
    /// In its test, or in what FOR and SWITCHON have before their body.
    Test,
    /// The next token begins its body.
    Body,
    /// In a part that nothing depends on.
    Other,
}

/// Something that is open.
#[derive(Clone, Copy)]
pub struct Frame {
    pub kind: FrameKind,
    /// The column in which its lines begin: those of a section's commands, those after a parenthesis, or the line in
    /// which a command begins.
    pub column: usize,
    /// Of a section, the column of its `$)`.
    pub close: usize,
    /// Of a section, the column of the commands after a CASE, if there was one. Of a command, the column of the
    /// expression that it is in, if that doesn't begin a line.
    pub inner: Option<usize>,
    /// Of a section, the column from which commands were indented before it.
    pub outer: usize,
    /// Where the tag of a section is in the source.
    pub tag: (usize, usize),
    /// Whether it is a TEST that has had no ELSE.
    pub is_test: bool,
}

impl Frame {
    /// What is open at the start of a source.
    pub const WHOLE: Frame = Frame {
        kind: FrameKind::Block,
        column: 0,
        close: 0,
        inner: None,
        outer: 0,
        tag: (0, 0),
        is_test: false,
    };

    /// A frame whose lines begin in this column.
    pub fn new(kind: FrameKind, column: usize) -> Frame {
        Frame {
            kind,
            column,
            close: column,
            inner: None,
            outer: column,
            tag: (0, 0),
            is_test: false,
        }
    }

    /// Whether it is a section.
    pub fn is_section(&self) -> bool {
        matches!(self.kind, FrameKind::Block | FrameKind::Entries)
    }

    /// Whether it is a command in this phase.
    pub fn is_command(&self, phase: Phase) -> bool {
        self.kind == FrameKind::Command(phase)
    }
}
