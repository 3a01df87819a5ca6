//! CASE and DEFAULT that aren't directly in the list of their SWITCHON: after IF or UNLESS, or in a block. The first are
//! skipped by a GOTO, and brackets around the others are removed, or moved, if that changes nothing else. What is left is
//! reported.

use crate::complaint::Fault;
use crate::kind::Kind;
use crate::names::declares;
use crate::notes::Notes;
use crate::source::TokenizedText;

/// Whether a CASE or DEFAULT is at an index.
fn is_case(source: TokenizedText<'_>, index: usize) -> bool {
    matches!(source.kind(index), Kind::Case | Kind::Default)
}

/// The kind of the token before an index.
fn kind_before(source: TokenizedText<'_>, index: usize) -> Kind {
    match index.checked_sub(1) {
        Some(before) => source.kind(before),
        None => Kind::End,
    }
}

/// Whether the section bracket at an index opens the list of a SWITCHON.
fn opens_list(source: TokenizedText<'_>, index: usize) -> bool {
    index > 0 && source.bytes(index - 1).eq_ignore_ascii_case(b"INTO")
}

/// Whether the token at an index is directly in the list of a SWITCHON.
fn is_in_list(source: TokenizedText<'_>, index: usize) -> bool {
    matches!(source.context(index).section, Some(section) if opens_list(source, section))
}

/// Whether a command begins at an index that is no part of another one: after a bracket, a separator or a colon.
fn begins_command(source: TokenizedText<'_>, index: usize) -> bool {
    source.is_separated(index)
        || matches!(
            kind_before(source, index),
            Kind::OpenSection | Kind::Colon | Kind::Semicolon
        )
}

/// Whether a command ends before an index.
fn ends_command(source: TokenizedText<'_>, index: usize) -> bool {
    source.is_separated(index)
        || matches!(
            source.kind(index),
            Kind::CloseSection | Kind::Semicolon | Kind::End
        )
}

/// Whether a command that is a single call, assignment or jump may have such a token.
fn is_of_simple_command(kind: Kind) -> bool {
    kind.can_be_operand()
        || kind.level() > 0
        || matches!(
            kind,
            Kind::Comma | Kind::Assign | Kind::Underline | Kind::Jump | Kind::Goto
        )
}

/// The index after the call, assignment or jump that begins at an index.
fn simple_end(source: TokenizedText<'_>, from: usize) -> Option<usize> {
    let is_result = source.bytes(from).eq_ignore_ascii_case(b"RESULTIS");
    let mut at = if is_result {
        from.saturating_add(1)
    } else {
        from
    };
    for _ in from..source.tokens.len() {
        let kind = source.kind(at);
        if at > from && ends_command(source, at) {
            return Some(at);
        }
        if !is_of_simple_command(kind) || kind == Kind::Valof {
            return None;
        }
        at = match kind {
            Kind::OpenRound => source.partner(at).saturating_add(1),
            _ => at.saturating_add(1),
        };
    }
    Some(at)
}

/// The index after the command that begins at an index, if that is a block or a simple command.
fn command_end(source: TokenizedText<'_>, from: usize) -> Option<usize> {
    if source.kind(from) != Kind::OpenSection {
        return simple_end(source, from);
    }
    let end = source.partner(from).saturating_add(1);
    if ends_command(source, end) {
        Some(end)
    } else {
        None
    }
}

/// The index after the colon that follows an index.
fn after_colon(source: TokenizedText<'_>, index: usize) -> usize {
    let mut signs = index..source.tokens.len();
    let colon = signs.find(|at| source.kind(*at) == Kind::Colon);
    colon.unwrap_or(source.tokens.len()).saturating_add(1)
}

/// The index after the cases that begin at an index.
fn after_cases(source: TokenizedText<'_>, index: usize) -> usize {
    let mut at = index;
    for _ in index..source.tokens.len() {
        if !is_case(source, at) {
            break;
        }
        at = after_colon(source, at);
    }
    at
}

/// Whether nothing between two indices belongs to another command.
fn is_condition(source: TokenizedText<'_>, from: usize, to: usize) -> bool {
    for index in from..to {
        if matches!(
            source.kind(index),
            Kind::Joint | Kind::Command | Kind::For | Kind::Valof | Kind::OpenSection
        ) {
            return false;
        }
    }
    true
}

/// The index of the last command that begins before an index.
fn command_before(source: TokenizedText<'_>, index: usize) -> Option<usize> {
    for back in 1..=index {
        let at = index - back;
        if begins_command(source, at) {
            return Some(at);
        }
    }
    None
}

/// The IF or UNLESS directly in the list of a SWITCHON whose DO is at an index.
fn head_of(source: TokenizedText<'_>, joint: usize) -> Option<usize> {
    let head = command_before(source, joint)?;
    let word = source.bytes(head);
    let is_head = word.eq_ignore_ascii_case(b"IF") || word.eq_ignore_ascii_case(b"UNLESS");
    let condition = head.saturating_add(1);
    if is_head && is_in_list(source, head) && is_condition(source, condition, joint) {
        Some(head)
    } else {
        None
    }
}

/// Puts a label after the command that ends before an index, and after the semicolon that follows it, if one does.
fn put_label(source: TokenizedText<'_>, notes: &mut Notes, end: usize, name: &[u8]) {
    if source.kind(end) == Kind::Semicolon {
        notes.put_all_after(end.saturating_add(1), &[b" ", name, b":"]);
    } else {
        notes.put_all_after(end, &[b"; ", name, b":"]);
    }
}

/// Turns the condition whose word is at `head` and whose DO is at `joint` round, with a GOTO to a label after the command
/// that ends before `end`.
fn put_skip(source: TokenizedText<'_>, notes: &mut Notes, head: usize, joint: usize, end: usize) {
    let name = notes.fresh_name(source);
    let is_if = source.bytes(head).eq_ignore_ascii_case(b"IF");
    let word: &[u8] = if is_if { b"UNLESS" } else { b"IF" };
    notes.replace(head, word);
    notes.put_all_after(joint.saturating_add(1), &[b" GOTO ", name.as_slice(), b";"]);
    put_label(source, notes, end, name.as_slice());
}

/// Rewrites the condition whose DO is before the CASE at an index, or reports the CASE.
fn put_after_condition(source: TokenizedText<'_>, notes: &mut Notes, index: usize) {
    let joint = index.saturating_sub(1);
    let body = after_cases(source, index);
    match (head_of(source, joint), command_end(source, body)) {
        (Some(head), Some(end)) => put_skip(source, notes, head, joint, end),
        _ => notes.complain(source, index, Fault::NestedCase),
    }
}

/// Whether the token at an index, directly in the block with the bracket at `block`, is a label.
fn is_label_in(source: TokenizedText<'_>, block: usize, index: usize) -> bool {
    source.kind(index) == Kind::Name
        && source.kind(index.saturating_add(1)) == Kind::Colon
        && begins_command(source, index)
        && source.context(index).section == Some(block)
}

/// Whether the token at an index, directly in the block with the bracket at `block`, declares a name or a label.
fn declares_in(source: TokenizedText<'_>, block: usize, index: usize) -> bool {
    let is_declaration = matches!(
        source.kind(index),
        Kind::Let | Kind::Static | Kind::Manifest | Kind::Global
    );
    is_declaration && source.context(index).section == Some(block)
        || is_label_in(source, block, index)
}

/// Whether the brackets of a block may be moved: only its own bracket closes it, which has no underlines in its tag.
fn is_movable(source: TokenizedText<'_>, block: usize) -> bool {
    let closing = source.partner(block);
    let outer = source.context(block).section;
    closing < source.tokens.len()
        && ends_command(source, closing.saturating_add(1))
        && matches!(outer, Some(outer) if source.partner(outer) > closing)
        && !source.bytes(block).contains(&b'_')
        && !source.bytes(closing).contains(&b'_')
}

/// Whether the brackets of a block may be removed: it has no names of its own.
fn is_removable(source: TokenizedText<'_>, block: usize) -> bool {
    let closing = source.partner(block);
    if !is_movable(source, block) {
        return false;
    }
    for index in block..closing {
        if declares_in(source, block, index) {
            return false;
        }
    }
    true
}

/// Whether the token at an index declares a name that is also between two further indices.
fn is_used_between(source: TokenizedText<'_>, index: usize, from: usize, to: usize) -> bool {
    if source.kind(index) != Kind::Name || !declares(source, index) {
        return false;
    }
    for other in from..to {
        if source.is_same(index, other) {
            return true;
        }
    }
    false
}

/// Whether a block may end before the CASE at an index: it has no labels, and the names that it declares aren't used from there
/// on.
fn may_end_before(source: TokenizedText<'_>, block: usize, index: usize) -> bool {
    let closing = source.partner(block);
    if !is_movable(source, block) {
        return false;
    }
    for at in index..closing {
        if declares_in(source, block, at) {
            return false;
        }
    }
    for at in block..index {
        if is_label_in(source, block, at) || is_used_between(source, at, index, closing) {
            return false;
        }
    }
    true
}

/// Ends the block at `block`, which is directly in the list of a SWITCHON, before the CASE at an index. Returns whether that is
/// possible.
fn end_before(source: TokenizedText<'_>, notes: &mut Notes, block: usize, index: usize) -> bool {
    let closing = source.partner(block);
    if !is_in_list(source, block)
        || !begins_command(source, block)
        || notes.ends_late_block(closing)
        || !may_end_before(source, block, index)
    {
        return false;
    }
    notes.put_before(index, b"$); ");
    notes.replace(closing, b"");
    true
}

/// Removes the brackets of the block at an index, which is directly in the list of a SWITCHON, or after a condition there.
/// Returns whether that is possible.
fn flatten(source: TokenizedText<'_>, notes: &mut Notes, block: usize) -> bool {
    if !is_removable(source, block) || !is_in_list(source, block) {
        return false;
    }
    let closing = source.partner(block);
    if !begins_command(source, block) {
        let joint = block.saturating_sub(1);
        let head = head_of(source, joint);
        let Some(head) = head else {
            return false;
        };
        if source.kind(joint) != Kind::Joint {
            return false;
        }
        put_skip(source, notes, head, joint, closing.saturating_add(1));
    }
    notes.replace(block, b"");
    notes.replace(closing, b"");
    true
}

/// Whether an earlier CASE or DEFAULT is directly in the block with the bracket at an index.
fn has_case_before(source: TokenizedText<'_>, block: usize, index: usize) -> bool {
    for at in block..index {
        if is_case(source, at) && source.context(at).section == Some(block) {
            return true;
        }
    }
    false
}

/// Rewrites or reports the CASE or DEFAULT at an index, if it isn't directly in the list of its SWITCHON.
fn place_case(source: TokenizedText<'_>, notes: &mut Notes, index: usize) {
    let Some(block) = source.context(index).section else {
        return notes.complain(source, index, Fault::NestedCase);
    };
    let is_after_condition = kind_before(source, index) == Kind::Joint;
    if opens_list(source, block) {
        if is_after_condition {
            put_after_condition(source, notes, index);
        }
    } else if is_after_condition
        || !has_case_before(source, block, index)
            && !flatten(source, notes, block)
            && !end_before(source, notes, block, index)
    {
        notes.complain(source, index, Fault::NestedCase);
    }
}

/// Rewrites each CASE and DEFAULT that isn't directly in the list of its SWITCHON, or reports it.
pub fn find_nested_cases(source: TokenizedText<'_>, notes: &mut Notes) {
    for index in 0..source.tokens.len() {
        if is_case(source, index) {
            place_case(source, notes, index);
        }
    }
}
