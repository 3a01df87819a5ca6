//! The loop around a place where a run used up its turns, and what its condition depends on.

use bc_lex::{Source, lex};
use bc_lex_tokens::Token;
use bc_parse::parse;
use bc_parse_tree::{BinaryOp, Section, UnaryOp};
use bc_word::Memory;
use bcpl_index::{Form, Interned, Names, Sort, Tree};
use bcpl_messages::{Note, shown};
use bcpl_places::Span;
use std::alloc::Global;

/// What is said of a REPEAT.
const REPEAT: &str =
    "the run was in this REPEAT, which has no condition: leave it by BREAK, RETURN, RESULTIS or FINISH";

/// What is said of a loop whose condition has no variable and can't change.
const CONSTANT: &str = "the run was in this loop, whose condition is constant";

/// What is said of a loop whose condition has no variable, but calls a routine or reads a cell.
const UNKNOWN: &str = "the run was in this loop";

/// What the condition of a loop depends on.
#[derive(Drop)]
pub struct Dependence<'s> {
    /// The variables in it.
    pub names: Vec<&'s [u8]>,
    /// Whether something in the loop may change it.
    pub may_change: bool,
}

/// Whether a form is a loop.
fn is_loop(form: Form) -> bool {
    matches!(
        form,
        Form::While | Form::Until | Form::For | Form::Repeat | Form::RepeatWhile | Form::RepeatUntil
    )
}

/// The innermost loop around a leaf in its routine.
fn loop_of(tree: &Tree<'_>, leaf: usize) -> Option<usize> {
    let mut found = None;
    for at in 0..tree.len() {
        if tree.has_leaf(at, leaf) {
            if is_loop(tree.form(at)) {
                found = Some(at);
            } else if matches!(tree.form(at), Form::Function | Form::Routine) {
                found = None;
            }
        }
    }
    found
}

/// The condition of a loop that has one, except of a FOR.
pub fn condition_of(tree: &Tree<'_>, at: usize) -> Option<usize> {
    match tree.form(at) {
        Form::While | Form::Until => Some(tree.first(at)),
        Form::RepeatWhile | Form::RepeatUntil => Some(tree.second(at)),
        _ => None,
    }
}

/// Whether a declaration of this sort has a cell with a value that can change.
fn is_variable(sort: Sort) -> bool {
    matches!(
        sort,
        Sort::Variable | Sort::Counter | Sort::Parameter | Sort::Static | Sort::Global
    )
}

/// Whether a node reads a cell or calls a routine, so that its value may change without an assignment to a name in it.
fn reads_cell(form: Form) -> bool {
    matches!(
        form,
        Form::Call | Form::Valof | Form::Bin(BinaryOp::Index) | Form::Unary(UnaryOp::Load)
    )
}

/// Whether a node is an assignment's left side that is the variable of this declaration.
fn is_assigned_at(tree: &Tree<'_>, names: &Names, at: usize, index: usize) -> bool {
    let is_place = matches!(tree.form_of_parent(at), Form::Places);
    match names.index_at(at) {
        Some(other) => is_place && other == index,
        None => false,
    }
}

/// Whether something in the loop `at` may change the variable of this declaration.
fn may_change(tree: &Tree<'_>, names: &Names, at: usize, index: usize) -> bool {
    let Some(declared) = names.get(index) else {
        return true;
    };
    if declared.is_addressed || matches!(declared.sort, Sort::Static | Sort::Global) {
        return true;
    }
    for node in at..tree.end(at) {
        if is_assigned_at(tree, names, node, index) {
            return true;
        }
    }
    false
}

/// Whether a list has this name.
fn has_name(names: &[&[u8]], name: &[u8]) -> bool {
    for other in names {
        if *other == name {
            return true;
        }
    }
    false
}

/// What the condition of the loop `at` depends on. Returns `Memory` if an allocation fails.
pub fn condition_terms<'s>(
    alloc: Global,
    tree: &Tree<'s>,
    names: &Names,
    at: usize,
    condition: usize,
) -> Result<Dependence<'s>, Memory> {
    let mut found = Dependence {
        names: Vec::new(alloc),
        may_change: false,
    };
    for node in condition..tree.end(condition) {
        if reads_cell(tree.form(node)) {
            found.may_change = true;
        }
        if let Some(index) = names.index_at(node)
            && let Some(declared) = names.get(index)
            && is_variable(declared.sort)
        {
            let name = tree.text(declared.node);
            if !has_name(found.names.as_slice(), name) {
                found.names.push(name)?;
            }
            if may_change(tree, names, at, index) {
                found.may_change = true;
            }
        }
    }
    Ok(found)
}

/// These names, separated by commas. Returns `Memory` if an allocation fails.
pub fn listed(alloc: Global, names: &[&[u8]]) -> Result<String, Memory> {
    let mut text = String::new(alloc);
    for name in names {
        if !text.is_empty() {
            text.push_str(", ")?;
        }
        let name = shown(alloc, *name)?;
        text.push_str(name.as_str())?;
    }
    Ok(text)
}

/// What is said of a loop whose condition depends on this.
fn sentence_on(alloc: Global, on: &Dependence<'_>) -> Result<String, Memory> {
    let list = listed(alloc, on.names.as_slice())?;
    let list = list.as_str();
    Ok(match (on.names.is_empty(), on.may_change) {
        (true, true) => String::from_str(alloc, UNKNOWN)?,
        (true, false) => String::from_str(alloc, CONSTANT)?,
        (false, true) => {
            format!(in alloc; "the run was in this loop, whose condition depends on {list}")?
        }
        (false, false) => {
            format!(in alloc; "the run was in this loop, and nothing in it changes {list}")?
        }
    })
}

/// The note at these nodes.
fn note_at(tree: &Tree<'_>, from: usize, to: usize, sentence: String) -> Option<Note> {
    let span = tree.span(from, to)?;
    Some(Note { span, sentence })
}

/// The note on a FOR.
fn note_on_for(alloc: Global, tree: &Tree<'_>, at: usize) -> Result<Option<Note>, Memory> {
    let variable = shown(alloc, tree.text(tree.first(at)))?;
    let variable = variable.as_str();
    let sentence = format!(in alloc; "the run was in this FOR, whose variable is {variable}")?;
    Ok(note_at(tree, tree.first(at), tree.third(at), sentence))
}

/// The note on a loop with this condition.
fn note_on_condition(
    alloc: Global,
    tree: &Tree<'_>,
    at: usize,
    condition: usize,
) -> Result<Option<Note>, Memory> {
    let names = Names::of(alloc, tree, 0)?;
    let on = condition_terms(alloc, tree, &names, at, condition)?;
    let sentence = sentence_on(alloc, &on)?;
    Ok(note_at(tree, condition, condition, sentence))
}

/// The note on a loop.
fn note_on(alloc: Global, tree: &Tree<'_>, at: usize) -> Result<Option<Note>, Memory> {
    if let Some(condition) = condition_of(tree, at) {
        return note_on_condition(alloc, tree, at, condition);
    }
    match tree.form(at) {
        Form::For => note_on_for(alloc, tree, at),
        _ => {
            let sentence = String::from_str(alloc, REPEAT)?;
            Ok(note_at(tree, at, at, sentence))
        }
    }
}

/// The innermost loop around a place of this tree, if there is one.
fn loop_in_tree(alloc: Global, tree: &Tree<'_>, place: Span) -> Result<Option<Note>, Memory> {
    let Some(leaf) = tree.leaf_from(place) else {
        return Ok(None);
    };
    match loop_of(tree, leaf) {
        Some(at) => note_on(alloc, tree, at),
        None => Ok(None),
    }
}

/// The innermost loop around a place of this section, if there is one.
fn loop_in_section(
    alloc: Global,
    tokens: &[Token<'_>],
    interned: &Interned<'_>,
    section: &Section<'_>,
    place: Span,
) -> Result<Option<Note>, Memory> {
    let tree = Tree::of(alloc, tokens, interned, section)?;
    loop_in_tree(alloc, &tree, place)
}

/// The innermost loop around a place of these tokens, if they are a section and there is one.
fn loop_in(alloc: Global, tokens: &[Token<'_>], place: Span) -> Result<Option<Note>, Memory> {
    let Ok(section) = parse(alloc, tokens) else {
        return Ok(None);
    };
    let interned = Interned::of(alloc, tokens)?;
    loop_in_section(alloc, tokens, &interned, &section, place)
}

/// The innermost loop around a place, if this main has the place and it is in a loop: the loop's condition, and what it
/// depends on. Returns `Memory` if an allocation fails.
pub fn loop_around(
    alloc: Global,
    sources: &[Source<'_>],
    main: usize,
    place: Span,
) -> Result<Option<Note>, Memory> {
    if main >= sources.len() {
        return Ok(None);
    }
    match lex(alloc, sources, main) {
        Ok(tokens) => loop_in(alloc, tokens.as_slice(), place),
        Err(_) => Ok(None),
    }
}
