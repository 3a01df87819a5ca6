//! Walks over the constructs of a source and rewrites those that take more than one token. The functions call one
//! another in a cycle. Each takes a `Walk` by value, stops at depth 0 and passes on `walk.deeper()`, so the depth is
//! the measure of the cycle and no function must prove that the rest of the source shrinks.

ghost use Rattle.std.specs.Prelude.{◌≡◌, ◌+◌, ◌<◌, ◌≤◌};

use crate::bytes::is_name_byte;
use crate::chain::{Chain, ChainState, close_chain};
use crate::commands::{put_byte_of, put_compound};
use crate::complaint::Fault;
use crate::declarations::{Values, continued, put_entry, put_values};
use crate::dialect::Dialect;
use crate::doubts::tell_star;
use crate::fields::is_selection;
use crate::kind::Kind;
use crate::magnitudes::{put_absolute, tell_absolutes};
use crate::names::is_number;
use crate::notes::{LateBlock, Notes};
use crate::operands::{Operand, finish, is_adjacent, is_compound, is_plain, level_at};
use crate::ranges::{case_constant, cases_between, replace_apart};
use crate::source::TokenizedText;

/// The limit on nesting. Each construct takes several of these levels.
pub const MOST_DEPTH: usize = 3000;

/// The source, its dialect, and how much deeper the walk may go.
#[derive(Clone, Copy)]
pub struct Walk<'s> {
    pub source: TokenizedText<'s>,
    pub dialect: Dialect,
    pub depth: usize,
}

impl<'s> Walk<'s> {
    /// The walk one level deeper.
    fn deeper(self) -> Walk<'s>
        requires { 0 < self.depth }
        ensures { result.depth + 1 ≡ self.entry.depth }
    {
        Walk {
            depth: self.depth - 1,
            ..self
        }
    }
}

/// An operand that was read: its first token, the index after it, and the index at which the walk ends.
#[derive(Clone, Copy)]
struct Part {
    at: usize,
    end: usize,
    to: usize,
}

/// The index of the token that closes the bracket at an index, at most `to`.
fn inside_end(source: TokenizedText<'_>, index: usize, to: usize) -> usize
    ensures { result ≤ to }
{
    source.partner(index).min(to)
}

/// The next index, at most `to`.
fn following(index: usize, to: usize) -> usize
    ensures { result ≤ to }
{
    if index < to { index + 1 } else { to }
}

/// Whether the list that begins at an index may have declarations: it is in section brackets and not the body of a
/// SWITCHON. `None` if it isn't in section brackets.
fn is_block(source: TokenizedText<'_>, from: usize) -> Option<bool> {
    if from == 0 || source.kind(from - 1) != Kind::OpenSection {
        return None;
    }
    let is_switch = from > 1 && source.bytes(from - 2).eq_ignore_ascii_case(b"INTO");
    Some(!is_switch)
}

/// Whether a declaration begins with such a token.
fn begins_declaration(kind: Kind) -> bool {
    matches!(
        kind,
        Kind::Let | Kind::Static | Kind::Manifest | Kind::Global
    )
}

/// Whether an item that begins with such a token isn't a command.
fn is_no_command(kind: Kind) -> bool {
    begins_declaration(kind)
        || matches!(kind, Kind::And | Kind::Semicolon | Kind::Get | Kind::Header)
}

/// Whether an item of a list begins at an index: the first one, or after a separator, or after the colon of a case or
/// a label.
fn begins_item(source: TokenizedText<'_>, from: usize, at: usize) -> bool {
    at == from || source.is_separated(at) || at > 0 && source.kind(at - 1) == Kind::Colon
}

/// The items of a list. A declaration after commands begins a block of its own, which ends with the list.
#[cycle(walk)]
pub fn items(walk: Walk<'_>, notes: &mut Notes, from: usize, to: usize) {
    if walk.depth == 0 {
        return notes.complain(walk.source, from, Fault::TooDeep);
    }
    let source = walk.source;
    let mut at = from;
    let mut has_commands = false;
    for _ in from..to {
        if at >= to {
            return;
        }
        if begins_item(source, from, at) {
            let kind = source.kind(at);
            if has_commands && begins_declaration(kind) {
                put_block(source, notes, from, at, to);
                has_commands = false;
            }
            has_commands = has_commands || !is_no_command(kind);
        }
        at = item(walk.deeper(), notes, at, to);
    }
}

/// Puts the items from `at` on into a block, if this is a list of commands.
fn put_block(source: TokenizedText<'_>, notes: &mut Notes, from: usize, at: usize, to: usize) {
    match is_block(source, from) {
        None => {}
        Some(false) => notes.complain(source, at, Fault::LateDeclaration),
        Some(true) => {
            notes.note_block(LateBlock { from, at, to });
            notes.put_before(at, b"$( ");
            notes.put_before(to, b"$) ")
        }
    }
}

/// The part of an item that begins at an index. Returns the index after it.
#[cycle(walk)]
fn item(walk: Walk<'_>, notes: &mut Notes, at: usize, to: usize) -> usize {
    if walk.depth == 0 {
        notes.complain(walk.source, at, Fault::TooDeep);
        return to;
    }
    let source = walk.source;
    let next = following(at, to);
    match source.kind(at) {
        Kind::Let | Kind::And => definition(walk.deeper(), notes, next, to),
        Kind::Global | Kind::Manifest | Kind::Static => entries(walk.deeper(), notes, at, to),
        Kind::Case => cases(walk.deeper(), notes, next, to),
        Kind::Goto => destination(source, notes, next, to),
        Kind::Header => header(source, notes, at, to),
        Kind::Get => following(next, to),
        Kind::OpenSection => bracket(walk.deeper(), notes, at, to),
        Kind::Name if source.kind(next) == Kind::Colon => {
            notes.note_label(source, at);
            following(next, to)
        }
        kind if kind.can_be_operand() => command(walk.deeper(), notes, at, to),
        _ => next,
    }
}

/// A bracket with its content. Returns the index after the closing bracket.
#[cycle(walk)]
fn bracket(walk: Walk<'_>, notes: &mut Notes, at: usize, to: usize) -> usize {
    if walk.depth == 0 {
        notes.complain(walk.source, at, Fault::TooDeep);
        return to;
    }
    let source = walk.source;
    if source.partner(at) >= source.tokens.len() {
        notes.complain(source, at, Fault::OpenBracket);
    }
    let closing = inside_end(source, at, to);
    items(walk.deeper(), notes, following(at, to), closing);
    following(closing, to)
}

/// SECTION or NEEDS with its names, which become a comment.
fn header(source: TokenizedText<'_>, notes: &mut Notes, at: usize, to: usize) -> usize {
    let mut end = following(at, to);
    for _ in at..to {
        let next = following(end, to);
        if source.kind(end) == Kind::Text && source.kind(next) == Kind::Comma {
            end = following(next, to);
        } else {
            end = next;
            break;
        }
    }
    notes.put_before(at, b"/* ");
    notes.put_after(end, b" */");
    end
}

/// The destination of a GOTO, which must be a name.
fn destination(source: TokenizedText<'_>, notes: &mut Notes, at: usize, to: usize) -> usize {
    let next = following(at, to);
    let goes_on = !source.is_separated(next)
        && matches!(
            source.kind(next),
            Kind::OpenRound | Kind::Bang | Kind::Percent
        );
    if source.kind(at) == Kind::Name && !goes_on && level_at(source, next) == 0 {
        notes.note_destination(at);
        return next;
    }
    notes.complain(source, at, Fault::GotoOfValue);
    at
}

/// A definition after LET or AND, up to the body of a routine or a single value.
#[cycle(walk)]
fn definition(walk: Walk<'_>, notes: &mut Notes, at: usize, to: usize) -> usize {
    if walk.depth == 0 {
        notes.complain(walk.source, at, Fault::TooDeep);
        return to;
    }
    let source = walk.source;
    let next = following(at, to);
    if source.kind(at) != Kind::Name {
        return at;
    }
    if source.kind(next) == Kind::OpenRound {
        let closing = inside_end(source, next, to);
        return following(following(closing, to), to);
    }
    let values = Values::of(source, at, to);
    if values.count == 1 || source.kind(values.equal) != Kind::Equal {
        return following(values.equal, to);
    }
    definitions(walk.deeper(), notes, values, to)
}

/// The values of a definition of several names. If one is a vector, each name gets a definition of its own.
#[cycle(walk)]
fn definitions(walk: Walk<'_>, notes: &mut Notes, values: Values, to: usize) -> usize {
    if walk.depth == 0 {
        notes.complain(walk.source, values.equal, Fault::TooDeep);
        return to;
    }
    let source = walk.source;
    let mut commas = Vec::new(notes.alloc());
    let mut has_vector = false;
    let mut start = following(values.equal, to);
    for _ in 0..values.count {
        if source.kind(start) == Kind::Vec {
            has_vector = true;
            start = following(start, to);
        }
        start = expression(walk.deeper(), notes, 1, start, to);
        if source.kind(start) != Kind::Comma || commas.len().saturating_add(1) >= values.count {
            break;
        }
        if commas.push(start).is_err() {
            notes.refuse();
            break;
        }
        start = following(start, to);
    }
    if has_vector {
        put_values(source, notes, values, commas.as_slice(), b" AND ");
    }
    start
}

/// Whether an entry without a value ends before an index.
fn ends_entry(source: TokenizedText<'_>, index: usize, closing: usize) -> bool {
    index >= closing
        || matches!(source.kind(index), Kind::Comma | Kind::Semicolon)
        || source.is_separated(index)
}

/// GLOBAL, MANIFEST or STATIC with its entries. Returns the index after the closing bracket.
#[cycle(walk)]
fn entries(walk: Walk<'_>, notes: &mut Notes, at: usize, to: usize) -> usize {
    if walk.depth == 0 {
        notes.complain(walk.source, at, Fault::TooDeep);
        return to;
    }
    let source = walk.source;
    let opening = following(at, to);
    if source.kind(opening) != Kind::OpenSection {
        return opening;
    }
    let closing = inside_end(source, opening, to);
    let mut entry = following(opening, to);
    let mut last = None;
    for _ in at..to {
        if entry >= closing {
            break;
        }
        let next = following(entry, closing);
        if source.kind(entry) != Kind::Name {
            if source.kind(entry) == Kind::Comma {
                notes.replace(entry, b";");
            }
            entry = next;
        } else if matches!(source.kind(next), Kind::Equal | Kind::Colon) {
            let start = following(next, closing);
            let end = expression(walk.deeper(), notes, 2, start, closing);
            tell_absolutes(source, notes, start, end);
            last = continued(source, start, end);
            entry = end.max(start);
        } else {
            if ends_entry(source, next, closing) {
                last = put_entry(source, notes, at, entry, last);
            }
            entry = next;
        }
    }
    following(closing, to)
}

/// The constants of a CASE. Returns the index after them.
#[cycle(walk)]
fn cases(walk: Walk<'_>, notes: &mut Notes, at: usize, to: usize) -> usize {
    if walk.depth == 0 {
        notes.complain(walk.source, at, Fault::TooDeep);
        return to;
    }
    let source = walk.source;
    let mut start = at;
    for _ in at..to {
        let mut end = expression(walk.deeper(), notes, 2, start, to);
        if source.kind(end) == Kind::To {
            let from = following(end, to);
            let last = expression(walk.deeper(), notes, 2, from, to);
            put_range(source, notes, (start, end), (from, last));
            end = last;
        }
        tell_absolutes(source, notes, start, end);
        if source.kind(end) != Kind::Comma {
            return end;
        }
        replace_apart(source, notes, end, b": CASE");
        start = following(end, to);
    }
    start
}

/// Writes out a range of cases. The constants are in these two ranges of tokens.
fn put_range(
    source: TokenizedText<'_>,
    notes: &mut Notes,
    first: (usize, usize),
    last: (usize, usize),
) {
    let low = case_constant(source, first.0, first.1);
    let high = case_constant(source, last.0, last.1);
    let text = cases_between(notes.alloc(), low, high);
    match notes.made(text) {
        Some(Some(text)) => {
            notes.take_gap(source, first.1);
            replace_apart(source, notes, first.1, text.as_slice());
        }
        _ => notes.complain(source, first.0, Fault::CaseRange),
    }
}

/// A construct that begins with an operand: an assignment, a call, or expressions separated by commas. Returns the
/// index after it.
#[cycle(walk)]
fn command(walk: Walk<'_>, notes: &mut Notes, at: usize, to: usize) -> usize {
    if walk.depth == 0 {
        notes.complain(walk.source, at, Fault::TooDeep);
        return to;
    }
    let source = walk.source;
    let left = operand(walk.deeper(), notes, at, to, false);
    if is_compound(source, left.end) {
        return compound(walk.deeper(), notes, at, left, to);
    }
    if matches!(source.kind(left.end), Kind::Assign | Kind::Underline) {
        return assignment(walk.deeper(), notes, at, left, to);
    }
    finish(notes, at, left);
    let first = Part {
        at,
        end: left.end,
        to,
    };
    let mut end = operators(walk.deeper(), notes, 0, first);
    let mut has_byte = left.byte.is_some();
    for _ in at..to {
        if source.kind(end) != Kind::Comma || end >= to {
            break;
        }
        let start = following(end, to);
        let further = operand(walk.deeper(), notes, start, to, false);
        has_byte = has_byte || further.byte.is_some();
        finish(notes, start, further);
        let part = Part {
            at: start,
            end: further.end,
            to,
        };
        end = operators(walk.deeper(), notes, 0, part);
    }
    if is_compound(source, end) {
        notes.complain(source, end, Fault::OperatorInList);
        end = following(following(end, to), to);
    } else if has_byte && source.kind(end) == Kind::Assign {
        notes.complain(source, at, Fault::ByteInList);
    }
    end.max(following(at, to))
}

/// An assignment to `left`, whose `:=` follows it.
#[cycle(walk)]
fn assignment(walk: Walk<'_>, notes: &mut Notes, at: usize, left: Operand, to: usize) -> usize {
    if walk.depth == 0 {
        notes.complain(walk.source, at, Fault::TooDeep);
        return to;
    }
    let source = walk.source;
    let start = following(left.end, to);
    if let Some(percent) = left.byte {
        let end = expression(walk.deeper(), notes, 1, start, to);
        put_byte_of(source, notes, at, percent, left.end);
        notes.put_after(end, b")");
        return end;
    }
    start
}

/// Whether the token before an index has no counterpart here, as OF.
fn is_after_foreign(source: TokenizedText<'_>, index: usize) -> bool {
    index > 0 && source.kind(index - 1) == Kind::Foreign
}

/// An assignment with an operator to `left`. The operator follows it.
#[cycle(walk)]
fn compound(walk: Walk<'_>, notes: &mut Notes, at: usize, left: Operand, to: usize) -> usize {
    if walk.depth == 0 {
        notes.complain(walk.source, at, Fault::TooDeep);
        return to;
    }
    let source = walk.source;
    let start = following(following(left.end, to), to);
    let right = operand(walk.deeper(), notes, start, to, false);
    finish(notes, start, right);
    let part = Part {
        at: start,
        end: right.end,
        to,
    };
    let end = operators(walk.deeper(), notes, 1, part);
    if is_after_foreign(source, at) {
        return end;
    }
    if !is_plain(source, at, left.end) {
        notes.complain(source, at, Fault::CallOnTheLeft);
        return end;
    }
    if end != right.end || matches!(source.kind(start), Kind::Add | Kind::Not) {
        notes.put_before(start, b"(");
        notes.put_after(end, b")");
    }
    put_compound(source, notes, at, left, end);
    end
}

/// The expression that begins at an index, with operators that bind at least as tightly as `level`. Returns the index
/// after it.
#[cycle(walk)]
fn expression(walk: Walk<'_>, notes: &mut Notes, level: u8, at: usize, to: usize) -> usize {
    if walk.depth == 0 {
        notes.complain(walk.source, at, Fault::TooDeep);
        return to;
    }
    let left = operand(walk.deeper(), notes, at, to, false);
    if left.end <= at {
        return at;
    }
    finish(notes, at, left);
    let part = Part {
        at,
        end: left.end,
        to,
    };
    operators(walk.deeper(), notes, level, part)
}

/// The operators after an operand, with their right operands, that bind at least as tightly as `level`. Returns the index
/// after them.
#[cycle(walk)]
fn operators(walk: Walk<'_>, notes: &mut Notes, level: u8, part: Part) -> usize {
    let Part { at, end, to } = part;
    if walk.depth == 0 {
        notes.complain(walk.source, at, Fault::TooDeep);
        return to;
    }
    let source = walk.source;
    let mut end = end;
    let mut chain: Option<Chain> = None;
    for _ in at..to {
        let operator = level_at(source, end);
        if end >= to || operator == 0 || operator < level {
            break;
        }
        let start = following(end, to);
        let next = if operator == 1 {
            choice(walk.deeper(), notes, start, to)
        } else {
            expression(walk.deeper(), notes, operator.saturating_add(1), start, to)
        };
        if operator == 7 {
            let state = match chain {
                None => ChainState::Single,
                Some(chain) => chain.join(source, notes, level > 4),
            };
            chain = Some(Chain {
                at,
                from: start,
                to: next,
                state,
            });
        } else if operator < 7 {
            close(notes, end, chain);
            chain = None;
        }
        end = next;
    }
    close(notes, end, chain);
    end
}

/// Closes a chain of relations.
fn close(notes: &mut Notes, end: usize, chain: Option<Chain>) {
    match chain {
        None => {}
        Some(chain) => close_chain(notes, end, chain.state),
    }
}

/// The two parts after `->`.
#[cycle(walk)]
fn choice(walk: Walk<'_>, notes: &mut Notes, at: usize, to: usize) -> usize {
    if walk.depth == 0 {
        notes.complain(walk.source, at, Fault::TooDeep);
        return to;
    }
    let end = expression(walk.deeper(), notes, 1, at, to);
    if walk.source.kind(end) != Kind::Comma {
        return end;
    }
    expression(walk.deeper(), notes, 1, following(end, to), to)
}

/// The operand that begins at an index. Calls may follow it, and `!` and `%` unless `calls_only`.
#[cycle(walk)]
fn operand(walk: Walk<'_>, notes: &mut Notes, at: usize, to: usize, calls_only: bool) -> Operand {
    if walk.depth == 0 || at >= to {
        return Operand::plain(at);
    }
    let source = walk.source;
    let next = following(at, to);
    match source.kind(at) {
        Kind::Add => {
            drop_plus(source, notes, at);
            Operand::plain(expression(walk.deeper(), notes, 9, next, to))
        }
        Kind::Not => Operand::plain(expression(walk.deeper(), notes, 6, next, to)),
        Kind::Abs => Operand::plain(absolute(walk.deeper(), notes, at, to)),
        Kind::Bang | Kind::Address | Kind::Content => {
            let inner = operand(walk.deeper(), notes, next, to, false);
            finish(notes, next, inner);
            Operand::plain(inner.end)
        }
        Kind::Valof if source.kind(next) == Kind::OpenSection => {
            Operand::plain(bracket(walk.deeper(), notes, next, to))
        }
        Kind::Valof | Kind::Table => Operand::plain(next),
        Kind::OpenRound => {
            let end = bracket(walk.deeper(), notes, at, to);
            selected(walk.deeper(), notes, Part { at, end, to }, calls_only)
        }
        kind if kind.can_be_operand() => {
            selected(walk.deeper(), notes, Part { at, end: next, to }, calls_only)
        }
        _ => Operand::plain(at),
    }
}

/// Whether a token ends with a byte of a name.
fn ends_a_word(bytes: &[u8]) -> bool {
    matches!(bytes.last(), Some(byte) if is_name_byte(*byte))
}

/// Removes a `+` that isn't a dyadic operator.
fn drop_plus(source: TokenizedText<'_>, notes: &mut Notes, at: usize) {
    if source.bytes(at) != b"+".as_slice() {
        return;
    }
    let runs_on = at > 0 && source.gap(at).is_empty() && ends_a_word(source.bytes(at - 1));
    let blank: &[u8] = if runs_on { b" " } else { b"" };
    notes.replace(at, blank)
}

/// Whether `*(` after an operand is a subscript.
fn is_star_subscript(walk: Walk<'_>, index: usize) -> bool {
    let source = walk.source;
    walk.dialect.has_star_subscripts
        && source.kind(index) == Kind::Star
        && source.kind(index.saturating_add(1)) == Kind::OpenRound
        && is_adjacent(source, index)
}

/// Whether a range of tokens is a single constant other than a string.
fn is_constant_alone(source: TokenizedText<'_>, at: usize, end: usize) -> bool {
    end == at.saturating_add(1)
        && matches!(
            source.kind(at),
            Kind::Number | Kind::Character | Kind::Constant
        )
}

/// Whether a range of tokens is a number: a constant, or a name that is used as a number.
fn is_number_alone(source: TokenizedText<'_>, at: usize, end: usize) -> bool {
    let is_name = end == at.saturating_add(1) && source.kind(at) == Kind::Name;
    is_constant_alone(source, at, end) || is_name && is_number(source, at)
}

/// Whether a range of tokens is in parentheses and has a relation but no choice, and so is a truth value.
fn is_truth(source: TokenizedText<'_>, from: usize, to: usize) -> bool {
    if source.kind(from) != Kind::OpenRound || source.partner(from).saturating_add(1) != to {
        return false;
    }
    let mut has_relation = false;
    for index in from..to {
        match source.kind(index) {
            Kind::Arrow => return false,
            Kind::Equal | Kind::Relation => has_relation = true,
            _ => {}
        }
    }
    has_relation
}

/// Why the sign at `sign` isn't taken for a subscript of the operand that begins at `at`, although it looks like one.
fn subscript_fault(walk: Walk<'_>, at: usize, sign: usize) -> Option<Fault> {
    let source = walk.source;
    if is_star_subscript(walk, sign) && is_number_alone(source, at, sign) {
        return Some(Fault::StarProduct);
    }
    let following = sign.saturating_add(1);
    let is_or = source.kind(sign) == Kind::Percent
        && (is_constant_alone(source, at, sign)
            || is_truth(source, at, sign)
            || is_truth(
                source,
                following,
                source.partner(following).saturating_add(1),
            ));
    if is_or { Some(Fault::PercentOr) } else { None }
}

/// The calls and subscripts after an operand.
#[cycle(walk)]
fn selected(walk: Walk<'_>, notes: &mut Notes, part: Part, calls_only: bool) -> Operand {
    let Part { at, end, to } = part;
    if walk.depth == 0 {
        return Operand::plain(end);
    }
    let source = walk.source;
    let mut whole = Operand::plain(end);
    for _ in at..to {
        let here = whole.end;
        if here >= to || source.is_separated(here) || is_compound(source, here) {
            break;
        }
        let kind = source.kind(here);
        if kind == Kind::OpenRound {
            finish(notes, at, whole);
            whole = Operand::plain(bracket(walk.deeper(), notes, here, to));
        } else if calls_only {
            break;
        } else if let Some(fault) = subscript_fault(walk, at, here) {
            notes.complain(source, here, fault);
            break;
        } else if is_star_subscript(walk, here) {
            finish(notes, at, whole);
            tell_star(source, notes, at, here);
            notes.replace(here, b"!");
            whole = Operand::plain(bracket(walk.deeper(), notes, following(here, to), to));
        } else if kind == Kind::Bang || kind == Kind::Percent || is_selection(source, here) {
            finish(notes, at, whole);
            let start = following(here, to);
            let inner = operand(walk.deeper(), notes, start, to, true);
            finish(notes, start, inner);
            let byte = if kind == Kind::Percent {
                Some(here)
            } else {
                None
            };
            whole = Operand {
                end: inner.end,
                byte,
            };
        } else {
            break;
        }
    }
    whole
}

/// ABS and its operand.
#[cycle(walk)]
fn absolute(walk: Walk<'_>, notes: &mut Notes, at: usize, to: usize) -> usize {
    if walk.depth == 0 {
        notes.complain(walk.source, at, Fault::TooDeep);
        return to;
    }
    let source = walk.source;
    let start = following(at, to);
    let end = expression(walk.deeper(), notes, 10, start, to);
    if end <= start {
        return start;
    }
    put_absolute(source, notes, at, end);
    end
}
