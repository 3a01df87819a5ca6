//! Chains of relations, such as `A<=B<=C`, are split into relations joined by `&`.

use crate::complaint::Fault;
use crate::kind::Kind;
use crate::notes::Notes;
use crate::operands::{is_plain, is_too_long, take_out};
use crate::source::TokenizedText;

/// The part of a chain of relations read up to here: where it begins, the range of its last operand, and its state.
#[derive(Clone, Copy)]
pub struct Chain {
    /// The first token of the chain.
    pub at: usize,
    /// The first token of the last operand.
    pub from: usize,
    /// The token after the last operand.
    pub to: usize,
    pub state: ChainState,
}

/// How a chain has been rewritten up to here.
#[derive(Clone, Copy)]
pub enum ChainState {
    /// One relation, which needs no change.
    Single,
    /// Relations joined by `&`, in parentheses.
    Joined,
    /// The same, in a second pair of parentheses.
    Wrapped,
    /// The same, inside a VALOF.
    Valof,
}

impl Chain {
    /// Adds a relation whose operator is at `to`. `is_inner` says whether the chain is an operand of an operator that
    /// binds more tightly than `&`.
    pub fn join(self, source: TokenizedText<'_>, notes: &mut Notes, is_inner: bool) -> ChainState {
        if let Some(percent) = self.percent(source) {
            notes.complain(source, percent, Fault::PercentOr);
        }
        if is_plain(source, self.from, self.to) {
            self.join_plain(source, notes, is_inner)
        } else if self.state == ChainState::Single && is_plain(source, self.at, self.from) {
            self.keep(source, notes)
        } else {
            notes.complain(source, self.at, Fault::CallInChain);
            self.state
        }
    }

    /// The index of the first `%` in the last operand, if `=` comes before or after that operand.
    fn percent(self, source: TokenizedText<'_>) -> Option<usize> {
        let is_equality = source.kind(self.to) == Kind::Equal
            || source.kind(self.from.saturating_sub(1)) == Kind::Equal;
        let percent = (self.from..self.to).find(|index| source.kind(*index) == Kind::Percent);
        if is_equality { percent } else { None }
    }

    /// Adds a relation after an operand that may be evaluated twice.
    fn join_plain(
        self,
        source: TokenizedText<'_>,
        notes: &mut Notes,
        is_inner: bool,
    ) -> ChainState {
        let middle = notes.rendered(source, self.from, self.to);
        if is_too_long(middle.as_slice()) {
            notes.complain(source, self.from, Fault::TooLongToRepeat);
            return self.state;
        }
        self.link(source, notes, middle.as_slice());
        self.open(notes, is_inner)
    }

    /// Puts `&` and the middle operand before the operator.
    fn link(self, source: TokenizedText<'_>, notes: &mut Notes, middle: &[u8]) {
        let gap: &[u8] = if source.gap(self.to).is_empty() {
            b""
        } else {
            b" "
        };
        notes.put_all_before(self.to, &[gap, middle, b")&("]);
        notes.take_gap(source, self.to);
    }

    /// Puts the opening parenthesis before the chain, unless it already has one.
    fn open(self, notes: &mut Notes, is_inner: bool) -> ChainState {
        match (self.state, is_inner) {
            (ChainState::Single, false) => {
                notes.put_before(self.at, b"(");
                ChainState::Joined
            }
            (ChainState::Single, true) => {
                notes.put_before(self.at, b"((");
                ChainState::Wrapped
            }
            (state, _) => state,
        }
    }

    /// Stores the value of the middle operand in a variable of a VALOF.
    fn keep(self, source: TokenizedText<'_>, notes: &mut Notes) -> ChainState {
        let middle = notes.rendered(source, self.from, self.to);
        let name = notes.fresh_name(source);
        self.put_name(source, notes, name.as_slice());
        let texts: [&[u8]; 5] = [
            b"; RESULTIS (",
            middle.as_slice(),
            b" = ",
            name.as_slice(),
            b"(VALOF $( LET ",
        ];
        notes.put_all_before(self.at, &texts);
        ChainState::Valof
    }

    /// Replaces the middle operand by a variable.
    fn put_name(self, source: TokenizedText<'_>, notes: &mut Notes, name: &[u8]) {
        take_out(source, notes, self.from.saturating_add(1), self.to);
        notes.clear(self.from);
        notes.replace(self.from, name);
        self.link(source, notes, name);
    }
}

/// Puts after a chain the closing brackets that its state needs.
pub fn close_chain(notes: &mut Notes, end: usize, state: ChainState) {
    match state {
        ChainState::Single => {}
        ChainState::Joined => notes.put_after(end, b")"),
        ChainState::Wrapped => notes.put_after(end, b"))"),
        ChainState::Valof => notes.put_after(end, b") $))"),
    }
}
