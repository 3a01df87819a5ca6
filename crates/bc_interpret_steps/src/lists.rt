//! Lists of items: commands, and the cases and labels at which control enters the list.

ghost use Rattle.std.specs.Prelude.{ℕ, ◌≡◌, List, ◌∷◌, ◌||◌};
ghost use Rattle.bc_core.specs.Commands.{Items};
ghost use Rattle.bc_core.specs.View.{command as command_view, items as items_view, items_before};
ghost use Rattle.bc_core.specs.Lists.{has_case as has_case_of, has_label as has_label_of};
ghost use Rattle.bc_interpret_defs.specs.Machine as machine;
ghost use Rattle.bc_interpret_defs.specs.Machine.{next_command as next_command_of};
ghost use Rattle.bc_interpret_defs.specs.Trails.{trail_in, trail_of};
ghost use Rattle.bc_interpret_steps.specs.declared.state.State.{State as StateValue};
ghost use Rattle.bc_interpret_steps.specs.Code.{spot_of, entry_of};
ghost use Rattle.bc_interpret_steps.specs.Came.{Went};
ghost use Rattle.bc_interpret_steps.specs.Assigns.{IsNext, found_of};
ghost use Rattle.bc_interpret_steps.specs.Stepped.{ProceedsAt};

use crate::assign::{Assigned, command_at_once};
use crate::continuations::{ExitRest, Rest};
use crate::forms::{Ending, Entry, Exit, Progress, Site, Work};
use crate::state::{Stacks, State, put_after};
use bc_core::{Command, ListItem};
use bc_word::Memory;

/// Whether an item is a CASE with this value.
fn is_case(item: &ListItem, v: u16) -> bool
    ensures { (following : Items) → has_case_of (items_before item.now following) v ≡ (result || has_case_of following v) }
{
    match item {
        ListItem::Case(k) => k.get() == v,
        ListItem::Command(_) | ListItem::Default | ListItem::Label(_) => false,
    }
}

/// Whether an item is this label.
fn is_label(item: &ListItem, label: u16) -> bool
    ensures { (following : Items) → has_label_of (items_before item.now following) label ≡ (result || has_label_of following label) }
{
    match item {
        ListItem::Label(k) => *k == label,
        ListItem::Command(_) | ListItem::Case(_) | ListItem::Default => false,
    }
}

/// Whether a list has a CASE with this value.
pub(crate) fn has_case(items: &[ListItem], v: u16) -> bool
    ensures { result ≡ has_case_of (items_view items.now) v }
{
    let mut left = items;
    while let [first, rest @ ..] = left {
        if is_case(first, v) {
            return true;
        }
        left = rest;
    }
    false
}

/// Whether a list has this label.
pub(crate) fn has_label(items: &[ListItem], label: u16) -> bool
    ensures { result ≡ has_label_of (items_view items.now) label }
{
    let mut left = items;
    while let [first, rest @ ..] = left {
        if is_label(first, label) {
            return true;
        }
        left = rest;
    }
    false
}

/// What an item of a list does.
#[derive(Clone, Copy)]
enum Next<'c> {
    /// Nothing: the items after it are entered here.
    Passes(Entry),
    /// The item is this command, and it is performed.
    Does(&'c Command),
}

/// What an item does if the list that begins with it is entered at `at`.
#[inline(always)]
fn next_of(item: &ListItem, at: Entry) -> Next<'_>
    ensures { IsNext result item.now at }
{
    match item {
        ListItem::Command(command) => match at {
            Entry::Beginning => Next::Does(command),
            Entry::AtCase(_) | Entry::AtDefault | Entry::AtLabel(_) => Next::Passes(at),
        },
        ListItem::Case(k) => {
            let met = matches!(at, Entry::AtCase(v) if v == k.get());
            Next::Passes(if met { Entry::Beginning } else { at })
        }
        ListItem::Default => {
            let met = matches!(at, Entry::AtDefault);
            Next::Passes(if met { Entry::Beginning } else { at })
        }
        ListItem::Label(k) => {
            let met = matches!(at, Entry::AtLabel(l) if l == *k);
            Next::Passes(if met { Entry::Beginning } else { at })
        }
    }
}

/// A command of a list, and the items after it.
#[derive(Clone, Copy)]
struct Found<'c> {
    command: &'c Command,
    following: &'c [ListItem],
}

/// The command with which a list goes on that is entered at `entry`; `None` if no command follows there.
fn next_command<'c>(items: &'c [ListItem], entry: Entry) -> Option<Found<'c>>
    ensures { found_of result ≡ next_command_of (items_view items.now) (entry_of entry) }
{
    let mut left = items;
    let mut at = entry;
    while let [first, following @ ..] = left {
        match next_of(first, at) {
            Next::Does(command) => return Some(Found { command, following }),
            Next::Passes(next) => at = next,
        }
        left = following;
    }
    None
}

/// What comes after a command of a list that these items follow. The list is left if there is none.
#[inline(always)]
#[tactic(auto, using(crate::proofs::Listings::leaves))]
fn after_command<'c>(site: Site<'c>, following: &'c [ListItem]) -> Progress<'c>
    ensures { (st : StateValue) (rs : List machine.Rest) (vs : List ℕ) → Went (machine.go_on (spot_of site.entry) (items_view following.now) site.entry.level
        rs) st result rs vs st }
{
    match following {
        [] => Progress::On(Work::Left(Exit::Past)),
        [_, ..] => Progress::On(Work::Listing(site, following, Entry::Beginning)),
    }
}

/// Begins a command of a list; a pure assignment is performed within this step. If that fails, the continuation that goes on with the list is
/// pushed all the same: the trail of the run needs it.
fn begin<'c>(
    site: Site<'c>,
    found: Found<'c>,
    stacks: &mut Stacks<'c>,
    state: &mut State,
) -> Result<(), Memory>
    ensures { ProceedsAt (λ rs. trail_in (machine.Follows (spot_of site.entry) (items_view found.entry.following.now) site.entry.level ∷ rs))
        (machine.first_command (spot_of site.entry) (command_view found.entry.command.now) (items_view found.entry.following.now) site.entry.level)
        stacks.old.rests state.old result stacks.new.next stacks.new.rests state.new }
{
    let rest = Rest::Exit(ExitRest::Follows(site, found.following));
    match command_at_once(&site, found.command, &mut stacks.room, state)? {
        Some(Assigned::Done) => {
            stacks.next = after_command(site, found.following);
            Ok(())
        }
        Some(Assigned::Divides) => put_after(rest, Progress::Ended(Ending::ZeroDivide), stacks),
        Some(Assigned::Fails(cause)) => put_after(rest, Progress::Wild(cause), stacks),
        None => put_after(
            rest,
            Progress::On(Work::Perform(site, found.command)),
            stacks,
        ),
    }
}

/// One step along a list that is entered at `entry`: begins its next command, or leaves the list if there is none.
pub(crate) fn listing<'c>(
    site: Site<'c>,
    items: &'c [ListItem],
    entry: Entry,
    stacks: &mut Stacks<'c>,
    state: &mut State,
) -> Result<(), Memory>
    ensures { ProceedsAt (trail_of (machine.Listing (spot_of site.entry) (items_view items.now) site.entry.level (entry_of entry))) (machine.list_step (spot_of
        site.entry) (items_view items.now) site.entry.level (entry_of entry)) stacks.old.rests state.old result stacks.new.next stacks.new.rests state.new }
{
    match next_command(items, entry) {
        Some(found) => begin(site, found, stacks, state),
        None => {
            stacks.next = Progress::On(Work::Left(Exit::Past));
            Ok(())
        }
    }
}
