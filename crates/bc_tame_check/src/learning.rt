//! What is known of vectors after commands that set their cells.

ghost use Rattle.std.specs.Prelude.{◌≡◌, true, false, Some, None, IfOk, IfSome};
ghost use Rattle.bc_core.specs.Commands as forms;
ghost use Rattle.bc_core.specs.View.{exp, command as command_view, items as items_view, items_before, block_of};
ghost use Rattle.bc_tame.specs.Tame as tame;
ghost use Rattle.bc_tame.specs.Tame.{Held as HeldAs, Knows, and_where, is_only};
ghost use Rattle.bc_tame_check.specs.Views.{bounds_found, held_of, listed, is_assign, is_nested, set_over, env_at, reads_at, IsLearned};

use crate::at::At;
use crate::bounds::offsets_at;
use crate::held::{Bounds, Entry, Held, TooLarge};
use crate::lookup::text_of;
use crate::not_tame::NotTame;
use bc_core::{Block, Command, CoreExp, ListItem};

/// Whether an item is a command, before which nothing can enter the list.
fn is_command(item: &ListItem) -> bool
    ensures yes { result ≡ true → (is : forms.Items) → tame.has_no_entry (items_before item.now is) ≡ tame.has_no_entry is }
    ensures no { result ≡ false → (is : forms.Items) → tame.has_no_entry (items_before item.now is) ≡ false }
{
    match item {
        ListItem::Command(_) => true,
        ListItem::Case(_) | ListItem::Default | ListItem::Label(_) => false,
    }
}

/// Whether a list can be entered only at its beginning.
pub(crate) fn has_no_entry(list: &[ListItem]) -> bool
    ensures { result ≡ tame.has_no_entry (items_view list.now) }
{
    let mut left = list;
    while let [first, rest @ ..] = left {
        if !is_command(first) {
            return false;
        }
        left = rest;
    }
    true
}

/// The value and the address of an assignment.
pub(crate) fn assignment<'a>(form: &'a Command) -> Option<(&'a CoreExp, &'a CoreExp)>
    ensures found { IfSome result (λ p. command_view form.now ≡ forms.Assign (exp p.0.now) (exp p.1.now)) }
    ensures none { result ≡ None → is_assign (command_view form.now) ≡ false }
{
    match form {
        Command::Assign { value, address } => Some((value, address)),
        Command::Call(_) | Command::If(_, _) | Command::Test(_, _, _) => None,
        Command::While(_, _) | Command::Repeat(_) | Command::RepeatWhile(_, _) => None,
        Command::For { .. } | Command::SwitchOn(_, _) => None,
        Command::Break | Command::Loop | Command::EndCase | Command::Return => None,
        Command::ResultIs(_) | Command::Finish | Command::Goto(_) | Command::Nested(_) => None,
    }
}

/// The block that is a command.
fn nested<'a>(form: &'a Command) -> Option<&'a Block>
    ensures found { IfSome result (λ b. command_view form.now ≡ forms.Nested (block_of b.now)) }
    ensures none { result ≡ None → is_nested (command_view form.now) ≡ false }
{
    match form {
        Command::Nested(block) => Some(block),
        Command::Assign { .. } => None,
        Command::Call(_) | Command::If(_, _) | Command::Test(_, _, _) => None,
        Command::While(_, _) | Command::Repeat(_) | Command::RepeatWhile(_, _) => None,
        Command::For { .. } | Command::SwitchOn(_, _) => None,
        Command::Break | Command::Loop | Command::EndCase | Command::Return => None,
        Command::ResultIs(_) | Command::Finish | Command::Goto(_) => None,
    }
}

/// Whether an item is an assignment.
fn is_assignment(item: &ListItem) -> bool
    ensures yes { result ≡ true → (is : forms.Items) → tame.are_assignments (items_before item.now is) ≡ tame.are_assignments is }
    ensures no { result ≡ false → (is : forms.Items) → tame.are_assignments (items_before item.now is) ≡ false }
{
    match item {
        ListItem::Command(form) => is_assigning(form),
        ListItem::Case(_) | ListItem::Default | ListItem::Label(_) => false,
    }
}

/// Whether a command is an assignment.
#[tactic(auto, using(crate::proofs::Lessons::assigning, crate::proofs::Lessons::not_assigning))]
fn is_assigning(form: &Command) -> bool
    ensures yes { result ≡ true → (is : forms.Items) → tame.are_assignments (forms.command (command_view form.now) is) ≡ tame.are_assignments is }
    ensures no { result ≡ false → (is : forms.Items) → tame.are_assignments (forms.command (command_view form.now) is) ≡ false }
{
    match assignment(form) {
        Some(_) => true,
        None => false,
    }
}

/// Whether a list consists of assignments.
fn are_assignments(list: &[ListItem]) -> bool
    ensures { result ≡ tame.are_assignments (items_view list.now) }
{
    let mut left = list;
    while let [first, rest @ ..] = left {
        if !is_assignment(first) {
            return false;
        }
        left = rest;
    }
    true
}

/// What a cell holds after this value is assigned to it.
#[tactic(auto, using(crate::proofs::Lessons::string_held, crate::proofs::Lessons::word_held))]
fn held_after(at: At<'_>, value: &CoreExp) -> Held
    ensures { held_of result ≡ tame.held_after ((env_at at.entry).text) (exp value.now) }
{
    match value {
        CoreExp::Place(label) => {
            let label = *label as usize;
            match text_of(at.around.places, label) {
                Some(_) => Held::StringAt(label),
                None => Held::Word,
            }
        }
        CoreExp::Num(_) | CoreExp::Frame(_) | CoreExp::Glob(_) | CoreExp::Valof(_) => Held::Word,
        CoreExp::Load(_) | CoreExp::Neg(_) | CoreExp::Not(_) => Held::Word,
        CoreExp::Bin(_, _, _) | CoreExp::Cond(_, _, _) | CoreExp::Call(_, _) => Held::Word,
    }
}

/// The only offset within bounds, if there is one.
#[tactic(auto, using(crate::proofs::Lessons::only_offset, crate::proofs::Lessons::no_offset, crate::proofs::Lessons::many_offsets))]
fn only_in(cells: Option<Bounds>) -> Option<usize>
    ensures found { IfSome result (λ k. (h : HeldAs) (R : Knows)
        → and_where (is_only (Some (tame.bounds k k))) h R ≡ and_where (is_only (bounds_found cells)) h R) }
    ensures none { result ≡ None → (h : HeldAs) (R : Knows) → R ≡ and_where (is_only (bounds_found cells)) h R }
{
    match cells {
        Some(cells) => {
            if cells.least == cells.greatest {
                Some(cells.least)
            } else {
                None
            }
        }
        None => None,
    }
}

/// What is learned from an assignment.
#[tactic(auto, using(crate::proofs::Lessons::one_learned, crate::proofs::Lessons::none_learned))]
fn learned_one(at: At<'_>, value: &CoreExp, address: &CoreExp) -> Result<Option<Entry>, TooLarge>
    ensures { IfOk result (λ o. set_over (reads_at at.entry) (listed o)
        ≡ and_where (is_only (tame.offsets_at (reads_at at.entry) (exp address.now))) (tame.held_after ((env_at at.entry).text) (exp value.now))
        (reads_at at.entry)) }
{
    let cells = offsets_at(at, address)?;
    match only_in(cells) {
        Some(offset) => Ok(Some(Entry::Only(offset, held_after(at, value)))),
        None => Ok(None),
    }
}

/// What is learned from an item that is an assignment.
#[tactic(auto, using(crate::proofs::Lessons::item_learned))]
fn learned_item(at: At<'_>, item: &ListItem) -> Result<Option<Entry>, NotTame>
    ensures { IfOk result (λ o. (is : forms.Items) → tame.learned_all (env_at at.entry) (set_over (reads_at at.entry) (listed o)) is
        ≡ tame.learned_all (env_at at.entry) (reads_at at.entry) (items_before item.now is)) }
{
    match item {
        ListItem::Command(form) => match assignment(form) {
            Some((value, address)) => Ok(learned_one(at, value, address)?),
            None => Err(NotTame::Memory),
        },
        ListItem::Case(_) | ListItem::Default | ListItem::Label(_) => Err(NotTame::Memory),
    }
}

/// What is learned from assignments, one after the other.
fn learned_all(at: At<'_>, list: &[ListItem]) -> Result<Vec<Entry>, NotTame>
    ensures { IfOk result (λ more. set_over (reads_at at.entry) more.items ≡ tame.learned_all (env_at at.entry) (reads_at at.entry) (items_view list.now)) }
{
    let mut reads = Vec::from_slice(at.around.alloc, at.reads)?;
    let mut more = Vec::new(at.around.alloc);
    let mut left = list;
    while let [first, rest @ ..] = left {
        let inside = At {
            reads: reads.as_slice(),
            ..at
        };
        if let Some(entry) = learned_item(inside, first)? {
            reads.push(entry)?;
            more.push(entry)?;
        }
        left = rest;
    }
    Ok(more)
}

/// What is learned from a block that is a command.
#[tactic(auto, using(crate::proofs::Lessons::nested_all, crate::proofs::Lessons::nested_other, crate::proofs::Lessons::nested_declares))]
fn learned_nested(at: At<'_>, block: &Block) -> Result<Vec<Entry>, NotTame>
    ensures { IfOk result (λ more. set_over (reads_at at.entry) more.items
        ≡ tame.learned (env_at at.entry) (reads_at at.entry) (forms.Nested (block_of block.now))) }
{
    if !block.declarations.is_empty() {
        return Ok(Vec::new(at.around.alloc));
    }
    if !are_assignments(&block.list) {
        return Ok(Vec::new(at.around.alloc));
    }
    learned_all(at, &block.list)
}

/// What is learned from a command, if nothing can enter the rest of its list.
#[tactic(auto, using(crate::proofs::Lessons::assignment_learned, crate::proofs::Lessons::block_learned, crate::proofs::Lessons::nothing_learned))]
fn learned_openly(at: At<'_>, form: &Command) -> Result<Vec<Entry>, NotTame>
    ensures { IfOk result (λ more. set_over (reads_at at.entry) more.items ≡ tame.learned (env_at at.entry) (reads_at at.entry) (command_view form.now)) }
{
    if let Some((value, address)) = assignment(form) {
        let mut more = Vec::new(at.around.alloc);
        if let Some(entry) = learned_one(at, value, address)? {
            more.push(entry)?;
        }
        return Ok(more);
    }
    match nested(form) {
        Some(block) => learned_nested(at, block),
        None => Ok(Vec::new(at.around.alloc)),
    }
}

/// What is learned from a command, before the rest of its list.
#[tactic(auto, using(crate::proofs::Lessons::learned_nothing, crate::proofs::Lessons::learned_open, crate::proofs::Lessons::learned_closed))]
pub(crate) fn learned(at: At<'_>, form: &Command, rest: &[ListItem]) -> Result<Vec<Entry>, NotTame>
    ensures { IfOk result (λ more. IsLearned at.entry (command_view form.now) (items_view rest.now) more.items) }
{
    let more = learned_openly(at, form)?;
    if more.is_empty() {
        return Ok(more);
    }
    if has_no_entry(rest) {
        return Ok(more);
    }
    Ok(Vec::new(at.around.alloc))
}
