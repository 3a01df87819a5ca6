//! The context of each atom: what is open there. The indentation of a line follows from it.

use crate::atom::{Atom, Shape};
use crate::frame::{Frame, FrameKind, Phase};
use bc_lex::Symbol;
use bc_word::Memory;
use std::alloc::Global;

/// How far the body of a command is indented that begins a line and is no section.
const BODY: usize = 2;
/// How far what is in a section is indented if nothing follows its `$(` in the line.
const SECTION: usize = 3;
/// How far a line is indented that continues a command, unless there is something to align it with.
const CONTINUED: usize = 4;
/// How many frames are searched for a parenthesis or a command. The bound keeps hostile sources from quadratic time.
const SEARCHED: usize = 64;
/// Lines aren't broken where more frames are open, since each place where one may be broken is kept with its frames.
const DEEP: usize = 250;

/// Where an atom is in its line.
#[derive(Clone, Copy)]
pub struct Spot {
    /// The column in which it begins.
    pub column: usize,
    /// Whether it begins the line.
    pub is_first: bool,
    /// Whether other atoms than comments follow it in the line.
    pub is_followed: bool,
}

/// What is searched among the frames.
#[derive(Clone, Copy)]
enum Wanted {
    /// A command that is in its test.
    Tested,
    /// A TEST without ELSE.
    Test,
    /// A parenthesis.
    Parenthesis,
}

/// What is open before the next atom, and what matters about the atoms before it.
#[derive(Drop)]
pub struct Context {
    frames: Vec<Frame>,
    /// The last atom that is no comment.
    previous: Option<Shape>,
    /// Whether that is a monadic sign.
    is_prefix: bool,
    /// Whether a command may begin here.
    is_start: bool,
    /// Whether a CASE or DEFAULT waits for its colon.
    is_case: bool,
    /// Whether the next atom begins an expression, with which later lines are aligned.
    is_expression: bool,
    /// The column from which commands that begin in this line are indented.
    base: usize,
}

/// Whether a line may be broken after this sign if it is dyadic.
fn is_breakable_after(symbol: Symbol) -> bool {
    matches!(
        symbol,
        Symbol::Comma
            | Symbol::Semicolon
            | Symbol::Assign
            | Symbol::Arrow
            | Symbol::Equivalent
            | Symbol::NotEquivalent
            | Symbol::LogicalOr
            | Symbol::LogicalAnd
            | Symbol::Plus
            | Symbol::Minus
            | Symbol::Multiply
            | Symbol::Divide
            | Symbol::Remainder
    )
}

/// Whether a frame is what is searched.
fn is_wanted(wanted: Wanted, frame: &Frame) -> bool {
    match wanted {
        Wanted::Tested => frame.is_command(Phase::Test),
        Wanted::Test => frame.is_test,
        Wanted::Parenthesis => frame.kind == FrameKind::Parenthesis,
    }
}

/// Whether an expression that ends with `previous` can't go on with `next`, so that a body begins there.
fn is_boundary(previous: Option<Shape>, next: Shape) -> bool {
    let is_after_operand = match previous {
        Some(previous) => previous.is_operand_end(),
        None => false,
    };
    let is_dyadic = matches!(
        next,
        Shape::Symbol(Symbol::OpenBracket) | Shape::Symbol(Symbol::Indirection)
    );
    is_after_operand && next.is_beginning() && !is_dyadic
}

/// Whether no command begins with this, even where one may begin.
fn is_no_command(shape: Shape) -> bool {
    match shape {
        Shape::Symbol(symbol) => matches!(
            symbol,
            Symbol::Semicolon
                | Symbol::CloseSection
                | Symbol::CloseBracket
                | Symbol::Do
                | Symbol::Else
                | Symbol::Into
                | Symbol::Repeat
                | Symbol::RepeatWhile
                | Symbol::RepeatUntil
                | Symbol::Get
        ),
        Shape::Operand => false,
        Shape::Comment => true,
    }
}

/// Whether a line that begins with these two atoms begins with a label.
fn is_label(first: Shape, second: Option<Atom>) -> bool {
    let has_colon = match second {
        Some(atom) => matches!(atom.shape, Shape::Symbol(Symbol::Colon)),
        None => false,
    };
    has_colon && matches!(first, Shape::Operand)
}

/// The tag of a section bracket.
fn tag_of(atom: Atom, source: &[u8]) -> &[u8] {
    atom.text(source).get(2..).unwrap_or(&[])
}

impl Context {
    /// The context at the start of a source.
    pub fn new(alloc: Global) -> Context {
        Context {
            frames: Vec::new(alloc),
            previous: None,
            is_prefix: false,
            is_start: true,
            is_case: false,
            is_expression: false,
            base: 0,
        }
    }

    /// A copy.
    ///
    /// # Errors
    ///
    /// `Memory` if an allocation failed.
    pub fn copy(&self, alloc: Global) -> Result<Context, Memory> {
        Ok(Context {
            frames: Vec::from_slice(alloc, self.frames.as_slice())?,
            previous: self.previous,
            is_prefix: self.is_prefix,
            is_start: self.is_start,
            is_case: self.is_case,
            is_expression: self.is_expression,
            base: self.base,
        })
    }

    /// Whether a line may be broken here: nothing can end with the last atom, so that no semicolon comes of it, and it is
    /// no monadic sign, bracket or word.
    pub fn is_breakable(&self) -> bool {
        match self.previous {
            Some(Shape::Symbol(symbol)) => {
                is_breakable_after(symbol) && !self.is_prefix && self.frames.len() < DEEP
            }
            _ => false,
        }
    }

    /// Whether a line may be broken between a label CASE 1: and the word CASE or DEFAULT after it.
    pub fn is_between_labels(&self, next: Shape) -> bool {
        let is_label = matches!(next, Shape::Symbol(Symbol::Case | Symbol::Default));
        let is_colon = matches!(self.previous, Some(Shape::Symbol(Symbol::Colon)));
        is_label && is_colon && self.frames.len() < DEEP
    }

    /// Whether the last atom that is no comment is a monadic sign.
    pub fn is_after_prefix(&self) -> bool {
        self.is_prefix
    }

    /// Whether the innermost section is one of MANIFEST, STATIC or GLOBAL.
    fn is_in_entries(&self) -> bool {
        self.section().kind == FrameKind::Entries
    }

    /// The column of a command that begins a line of the innermost section, or of a comment there.
    pub fn command_column(&self) -> usize {
        let section = self.section();
        section.inner.unwrap_or(section.column)
    }

    /// The innermost frame.
    fn top(&self) -> Frame {
        self.frames.last().copied().unwrap_or(Frame::WHOLE)
    }

    /// Changes the innermost frame.
    fn set_top(&mut self, frame: Frame) {
        if let Some(top) = self.frames.last_mut() {
            *top = frame;
        }
    }

    /// Changes the phase of the innermost frame, if it is a command.
    fn set_phase(&mut self, phase: Phase) {
        let mut top = self.top();
        if let FrameKind::Command(_) = top.kind {
            top.kind = FrameKind::Command(phase);
            self.set_top(top);
        }
    }

    /// Drops the innermost frames, so many of them.
    fn drop_frames(&mut self, count: usize) {
        self.frames
            .truncate(self.frames.len().saturating_sub(count));
    }

    /// The innermost section.
    fn section(&self) -> Frame {
        for frame in self.frames.iter().rev().take(SEARCHED) {
            if frame.is_section() {
                return *frame;
            }
        }
        Frame::WHOLE
    }

    /// Ends all that is open in the innermost section.
    fn end_commands(&mut self) {
        let mut count: usize = 0;
        for frame in self.frames.iter().rev() {
            if frame.is_section() {
                break;
            }
            count = count.saturating_add(1);
        }
        self.drop_frames(count);
        self.is_case = false;
    }

    /// How many frames are inside of the innermost wanted one of this section; `None` if there is none.
    fn frames_inside(&self, wanted: Wanted) -> Option<usize> {
        for (count, frame) in self.frames.iter().rev().take(SEARCHED).enumerate() {
            if is_wanted(wanted, frame) {
                return Some(count);
            }
            if frame.is_section() {
                return None;
            }
        }
        None
    }

    /// Ends what is inside of the innermost wanted frame of this section, if there is one.
    fn end_inside(&mut self, wanted: Wanted) {
        if let Some(count) = self.frames_inside(wanted) {
            self.drop_frames(count);
        }
    }

    /// How many frames a `$)` with this tag closes: all, if no section has the tag.
    fn closed_count(&self, source: &[u8], tag: &[u8]) -> usize {
        for (inside, frame) in self.frames.iter().rev().enumerate() {
            let opening = source.get(frame.tag.0..frame.tag.1).unwrap_or(&[]);
            if frame.is_section() && (tag.is_empty() || opening == tag) {
                return inside.saturating_add(1);
            }
        }
        self.frames.len()
    }

    /// The frame that a `$)` closes.
    fn closed_frame(&self, source: &[u8], atom: Atom) -> Frame {
        let count = self.closed_count(source, tag_of(atom, source));
        match self.frames.len().checked_sub(count) {
            Some(index) => self.frames.get(index).copied().unwrap_or(Frame::WHOLE),
            None => Frame::WHOLE,
        }
    }

    /// Whether a line break before this atom counts as a semicolon.
    fn is_break(&self, next: Shape) -> bool {
        match self.previous {
            Some(previous) => previous.is_end() && next.is_beginning(),
            None => true,
        }
    }

    /// The column of a line that continues a command.
    fn continued_column(&self) -> usize {
        let top = self.top();
        match top.kind {
            FrameKind::Parenthesis => top.column,
            _ => top.inner.unwrap_or(top.column.saturating_add(CONTINUED)),
        }
    }

    /// The column of a line that begins with the body of the innermost command.
    fn body_column(&mut self, next: Shape) -> usize {
        let column = self.top().column;
        self.set_phase(Phase::Other);
        self.is_start = true;
        match next {
            Shape::Symbol(Symbol::OpenSection) => column,
            _ => column.saturating_add(BODY),
        }
    }

    /// The column of a line that begins with this sign or word, unless a command begins there.
    fn column_before(&mut self, source: &[u8], atom: Atom, symbol: Symbol) -> usize {
        match symbol {
            Symbol::CloseSection => self.closed_frame(source, atom).close,
            Symbol::Else => {
                self.end_inside(Wanted::Test);
                self.top().column
            }
            Symbol::Do | Symbol::Into => {
                self.end_inside(Wanted::Tested);
                self.top().column
            }
            Symbol::Be | Symbol::Repeat | Symbol::RepeatWhile | Symbol::RepeatUntil => {
                self.top().column
            }
            _ => self.continued_column(),
        }
    }

    /// Whether the innermost command has its body here, at the beginning of a line.
    fn is_body(&self, next: Shape) -> bool {
        let top = self.top();
        let is_here = top.is_command(Phase::Body)
            || (top.is_command(Phase::Test) && self.is_break(next));
        is_here && !is_no_command(next)
    }

    /// The column of a line that begins with a command of the innermost section.
    fn new_column(&mut self, next: Shape) -> usize {
        self.end_commands();
        self.is_start = true;
        match next {
            Shape::Symbol(Symbol::Case | Symbol::Default | Symbol::And | Symbol::Get) => {
                self.section().column
            }
            _ => self.command_column(),
        }
    }

    /// Begins a line with a label, which is in the column of the section's `$)`. Returns that column.
    fn begin_label(&mut self) -> usize {
        self.end_commands();
        self.is_start = true;
        self.base = self.command_column();
        self.section().close
    }

    /// Begins a line with this atom, which is no comment and is followed by `second`. Returns its column.
    pub fn begin_line(&mut self, source: &[u8], atom: Atom, second: Option<Atom>) -> usize {
        let next = atom.shape;
        if is_label(next, second)
            && (self.is_start || self.is_break(next))
            && !self.is_in_entries()
        {
            return self.begin_label();
        }
        let is_new = matches!(next, Shape::Symbol(Symbol::And | Symbol::Get))
            || self.is_break(next)
            || (self.is_start && !is_no_command(next));
        let column = if self.is_body(next) {
            self.body_column(next)
        } else if is_new {
            self.new_column(next)
        } else {
            match next {
                Shape::Symbol(symbol) => self.column_before(source, atom, symbol),
                _ => self.continued_column(),
            }
        };
        self.base = column;
        column
    }

    /// Begins a command with this atom, if one begins here.
    fn begin_command(&mut self, next: Shape) -> Result<(), Memory> {
        let top = self.top();
        let is_body = top.is_command(Phase::Body)
            || (top.is_command(Phase::Test) && is_boundary(self.previous, next));
        if is_no_command(next) || !(self.is_start || is_body) {
            return Ok(());
        }
        if is_body {
            self.set_phase(Phase::Other);
        }
        self.is_start = false;
        self.frames
            .push(Frame::new(FrameKind::Command(Phase::Other), self.base))?;
        Ok(())
    }

    /// Opens a section.
    fn open_section(&mut self, atom: Atom, spot: Spot) -> Result<(), Memory> {
        let width = atom.end.saturating_sub(atom.start);
        let (column, close) = if spot.is_followed {
            (
                spot.column.saturating_add(width).saturating_add(1),
                spot.column,
            )
        } else if spot.is_first {
            (spot.column.saturating_add(SECTION), spot.column)
        } else {
            (self.base.saturating_add(SECTION), self.base)
        };
        let kind = match self.previous {
            Some(Shape::Symbol(Symbol::Manifest | Symbol::Static | Symbol::Global)) => {
                FrameKind::Entries
            }
            _ => FrameKind::Block,
        };
        self.frames.push(Frame {
            kind,
            column,
            close,
            inner: None,
            outer: self.base,
            tag: (atom.start.saturating_add(2), atom.end),
            is_test: false,
        })?;
        if spot.is_followed {
            self.base = column;
        }
        self.is_start = true;
        Ok(())
    }

    /// Closes the section that a `$)` closes.
    fn close_section(&mut self, source: &[u8], atom: Atom) {
        self.base = self.closed_frame(source, atom).outer;
        let count = self.closed_count(source, tag_of(atom, source));
        self.drop_frames(count);
        self.is_start = false;
        self.is_case = false;
    }

    /// Ends a label, a CASE or DEFAULT at its colon.
    fn end_label(&mut self, spot: Spot) {
        if self.is_in_entries() {
            return;
        }
        let is_case = self.is_case;
        self.end_commands();
        self.is_start = true;
        if is_case {
            let mut section = self.top();
            if spot.is_followed {
                self.base = spot.column.saturating_add(2);
                section.inner = Some(self.base);
            } else {
                section.inner = Some(section.column.saturating_add(BODY));
            }
            self.set_top(section);
        }
    }

    /// Begins the test of a command.
    fn begin_test(&mut self, symbol: Symbol) {
        let mut top = self.top();
        top.kind = FrameKind::Command(Phase::Test);
        top.is_test = symbol.is(Symbol::Test);
        top.inner = None;
        self.set_top(top);
        self.is_expression = true;
    }

    /// Notes an ELSE: the innermost TEST has it.
    fn begin_else(&mut self) {
        self.end_inside(Wanted::Test);
        let mut top = self.top();
        top.is_test = false;
        self.set_top(top);
        self.set_phase(Phase::Body);
    }

    /// Notes that definitions follow whose lines aren't aligned with the expression before.
    fn end_expression(&mut self) {
        let mut top = self.top();
        if let FrameKind::Command(_) = top.kind {
            top.inner = None;
            self.set_top(top);
        }
    }

    /// Notes a `=`: what follows the first one of a definition is its expression.
    fn note_equal(&mut self) {
        let top = self.top();
        if top.is_command(Phase::Other) && top.inner.is_none() {
            self.is_expression = true;
        }
    }

    /// Opens a parenthesis.
    fn open_parenthesis(&mut self, spot: Spot) -> Result<(), Memory> {
        let column = if spot.is_followed {
            spot.column.saturating_add(1)
        } else {
            self.base.saturating_add(CONTINUED)
        };
        self.frames
            .push(Frame::new(FrameKind::Parenthesis, column))?;
        Ok(())
    }

    /// Begins a VALOF. If its body begins a line, that is indented within a test or parentheses.
    fn begin_valof(&mut self) -> Result<(), Memory> {
        let top = self.top();
        let is_inside = top.is_command(Phase::Test) || top.kind == FrameKind::Parenthesis;
        let column = if is_inside {
            self.base.saturating_add(BODY)
        } else {
            self.base
        };
        self.frames
            .push(Frame::new(FrameKind::Command(Phase::Body), column))?;
        Ok(())
    }

    /// Closes the innermost parenthesis.
    fn close_parenthesis(&mut self) {
        if let Some(count) = self.frames_inside(Wanted::Parenthesis) {
            self.drop_frames(count.saturating_add(1));
        }
    }

    /// What a sign or word opens and ends.
    fn pass_symbol(
        &mut self,
        source: &[u8],
        atom: Atom,
        symbol: Symbol,
        spot: Spot,
    ) -> Result<(), Memory> {
        match symbol {
            Symbol::OpenSection => self.open_section(atom, spot)?,
            Symbol::CloseSection => self.close_section(source, atom),
            Symbol::OpenBracket => self.open_parenthesis(spot)?,
            Symbol::CloseBracket => self.close_parenthesis(),
            Symbol::ValueOf => self.begin_valof()?,
            Symbol::Colon => self.end_label(spot),
            Symbol::Semicolon => {
                self.end_commands();
                self.is_start = true;
            }
            _ => self.pass_word(symbol),
        }
        Ok(())
    }

    /// What a word means for the command that it is in.
    fn pass_word(&mut self, symbol: Symbol) {
        match symbol {
            Symbol::If
            | Symbol::Unless
            | Symbol::Test
            | Symbol::While
            | Symbol::Until
            | Symbol::For
            | Symbol::SwitchOn => self.begin_test(symbol),
            Symbol::Do | Symbol::Into => {
                self.end_inside(Wanted::Tested);
                self.set_phase(Phase::Body);
            }
            Symbol::Be => self.set_phase(Phase::Body),
            Symbol::Else => self.begin_else(),
            Symbol::Case | Symbol::Default => self.is_case = true,
            Symbol::And => self.end_expression(),
            Symbol::Equal => self.note_equal(),
            Symbol::Assign
            | Symbol::Table
            | Symbol::ResultIs
            | Symbol::RepeatWhile
            | Symbol::RepeatUntil => self.is_expression = true,
            _ => {}
        }
    }

    /// Aligns later lines with this atom, if it begins an expression and doesn't begin its line.
    fn note_expression(&mut self, spot: Spot) {
        if self.is_expression && !spot.is_first {
            let mut top = self.top();
            if let FrameKind::Command(_) = top.kind {
                top.inner = Some(spot.column);
                self.set_top(top);
            }
        }
        self.is_expression = false;
    }

    /// Goes on past an atom.
    ///
    /// # Errors
    ///
    /// `Memory` if an allocation failed.
    pub fn pass(&mut self, source: &[u8], atom: Atom, spot: Spot) -> Result<(), Memory> {
        if atom.is_comment() {
            return Ok(());
        }
        let is_after_operand = match self.previous {
            Some(previous) => previous.is_operand_end(),
            None => false,
        };
        let is_begun = spot.is_first && self.is_break(atom.shape);
        self.note_expression(spot);
        self.begin_command(atom.shape)?;
        if let Shape::Symbol(symbol) = atom.shape {
            self.pass_symbol(source, atom, symbol, spot)?;
        }
        self.is_prefix = atom.shape.is_prefix_sign() && (is_begun || !is_after_operand);
        self.previous = Some(atom.shape);
        Ok(())
    }
}
