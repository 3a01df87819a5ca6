//! Giving a number to a continuation.

ghost use Rattle.std.specs.Prelude.{◌≡◌, IfOk};
ghost use Rattle.bc_core.specs.Level.{side_level as level_of_side};
ghost use Rattle.bc_core.specs.Lists.{has_case as has_case_of, entry_of as entry_of_switch};
ghost use Rattle.bc_core.specs.View.{exp, items as items_view};
ghost use Rattle.bc_interpret_defs.specs.Machine as machine;
ghost use Rattle.bc_interpret_steps.specs.declared.continuations.NumberRest.TheVariants as number_rests;
ghost use Rattle.bc_interpret_steps.specs.declared.state.State.{State as StateValue};
ghost use Rattle.bc_interpret_steps.specs.Code.{number_rest, value_rest, given, spot_of, entry_of};
ghost use Rattle.bc_interpret_steps.specs.Stepped.{Takes, Gives};

use crate::continuations::{ExitRest, NumberRest, Rest, ValueRest, level_above, push};
use crate::forms::{Arguments, Ending, Entry, Exit, Progress, Rounds, Site, Work};
use crate::lists::has_case;
use crate::state::{Stacks, State, put_word};
use bc_core::{CoreExp, ListItem, operand};
use bc_interpret_pure::Cause;
use bc_interpret_store::Cell;
use bc_word::{Memory, Op, Word, apply};

/// Reads the cell at this address; the step is wild if it is dead or unset.
#[inline(always)]
#[tactic(auto, using(crate::proofs::Loads::loaded_dead, crate::proofs::Loads::loaded_unset, crate::proofs::Loads::loaded_by_dead, crate::proofs::Loads::loaded_by_unset, crate::proofs::Loads::loaded_set))]
fn load<'c>(v: u16, state: &State) -> Progress<'c>
    ensures { Gives machine.Loads (machine.Number v) state.now result state.now }
{
    match state.store.at(v) {
        Cell::Dead => Progress::Wild(Cause::Dead(v)),
        Cell::Unset => Progress::Wild(Cause::Unset(v)),
        Cell::Set(word) => Progress::On(Work::Number(word)),
    }
}

/// Gives an operator its first operand: evaluates the second one next.
#[inline(always)]
fn operates<'c>(
    site: Site<'c>,
    operator: (Op, &'c CoreExp),
    v: u16,
    stacks: &mut Stacks<'c>,
) -> Result<(), Memory>
    ensures { (st : StateValue) → Takes (machine.Operates (spot_of site.entry) operator.entry.0 (exp operator.entry.1.now) site.entry.level) (machine.Number
        v) stacks.old.rests st result stacks.new.next stacks.new.rests st }
{
    let (op, second) = operator;
    let level = level_above(site.level, 1)?;
    push(Rest::Number(NumberRest::Operated(op, v)), &mut stacks.rests)?;
    stacks.next = Progress::On(Work::Evaluate(Site { level, ..site }, second));
    Ok(())
}

/// Applies an operator to both operands.
#[inline(always)]
#[tactic(auto, using(crate::proofs::Loads::operated, crate::proofs::Loads::not_operated))]
fn operated<'c>(op: Op, x: u16, v: u16) -> Progress<'c>
    ensures { (st : StateValue) → Gives (machine.Operated op x) (machine.Number v) st result st }
{
    match apply(op, Word::new(x), Word::new(v)) {
        Some(w) => Progress::On(Work::Number(w.get())),
        None => Progress::Ended(Ending::ZeroDivide),
    }
}

/// Stores an evaluated argument, and goes on with the remaining ones.
#[inline(always)]
fn argues<'c>(arguments: &Arguments<'c>, v: u16, stacks: &mut Stacks<'c>) -> Result<(), Memory>
    ensures { (st : StateValue) → Takes (number_rest (given stacks.old.rests.items) (number_rests.Argues arguments.now)) (machine.Number v)
        stacks.old.rests st result stacks.new.next stacks.new.rests st }
{
    let level = level_above(arguments.level, 1)?;
    push(Rest::Given(v, arguments.fresh), &mut stacks.rests)?;
    stacks.next = Progress::On(Work::Argue(Arguments {
        level,
        fresh: false,
        ..*arguments
    }));
    Ok(())
}

/// Gives a number to this continuation inside an expression, which was popped.
///
/// `Memory` if an allocation fails.
pub(crate) fn number_taken<'c>(
    rest: &NumberRest<'c>,
    v: u16,
    stacks: &mut Stacks<'c>,
    state: &State,
) -> Result<(), Memory>
    ensures { Takes (number_rest (given stacks.old.rests.items) rest.now)
        (machine.Number v) stacks.old.rests state.now result stacks.new.next stacks.new.rests state.now }
{
    match rest {
        NumberRest::Loads => {
            stacks.next = load(v, state);
            Ok(())
        }
        NumberRest::Negates => {
            stacks.next = Progress::On(Work::Number(Word::new(v).negated().get()));
            Ok(())
        }
        NumberRest::Complements => {
            stacks.next = Progress::On(Work::Number(Word::new(v).complemented().get()));
            Ok(())
        }
        NumberRest::Tests => {
            stacks.next = Progress::On(Work::Verdict(v != 0));
            Ok(())
        }
        NumberRest::Operates(site, op, e) => operates(*site, (*op, e), v, stacks),
        NumberRest::Operated(op, x) => {
            stacks.next = operated(*op, *x, v);
            Ok(())
        }
        NumberRest::Argues(arguments) => argues(arguments, v, stacks),
    }
}

/// Writes a word to the cell at this address; the step is wild if it is dead.
#[inline(always)]
#[tactic(auto, using(crate::proofs::Loads::stored, crate::proofs::Loads::not_stored, crate::proofs::Loads::stored_by))]
fn store<'c>(address: u16, word: u16, state: &mut State) -> Progress<'c>
    ensures { Gives (machine.StoresAt address) (machine.Number word) state.old result state.new }
{
    match put_word(state, address, word) {
        None => Progress::On(Work::Nothing),
        Some(cause) => Progress::Wild(cause),
    }
}

/// The level at which both sides of an assignment to this address are evaluated.
#[inline(always)]
pub(crate) fn side_level(address: &CoreExp, s: u32) -> Result<u32, Memory>
    ensures { IfOk result (λ level. level ≡ level_of_side (exp address.now) s) }
{
    if operand(address).is_some() {
        Ok(s)
    } else {
        level_above(s, 1)
    }
}

/// Gives an assignment its value: evaluates the address next.
#[inline(always)]
fn stores<'c>(
    site: Site<'c>,
    address: &'c CoreExp,
    v: u16,
    stacks: &mut Stacks<'c>,
) -> Result<(), Memory>
    ensures { (st : StateValue) → Takes (machine.Stores (spot_of site.entry) (exp address.now) site.entry.level) (machine.Number v) stacks.old.rests st
        result stacks.new.next stacks.new.rests st }
{
    let level = side_level(address, site.level)?;
    push(Rest::Value(ValueRest::Stored(v)), &mut stacks.rests)?;
    stacks.next = Progress::On(Work::Evaluate(Site { level, ..site }, address));
    Ok(())
}

/// Where a SWITCHON on this number enters its list.
#[inline(always)]
fn case_of(items: &[ListItem], v: u16) -> Entry
    ensures { entry_of result ≡ entry_of_switch (has_case_of (items_view items.now)) v }
{
    if has_case(items, v) {
        Entry::AtCase(v)
    } else {
        Entry::AtDefault
    }
}

/// Gives a SWITCHON its number: enters its list next.
#[inline(always)]
fn switches<'c>(
    site: Site<'c>,
    items: &'c [ListItem],
    v: u16,
    stacks: &mut Stacks<'c>,
) -> Result<(), Memory>
    ensures { (st : StateValue) → Takes (machine.Switches (spot_of site.entry) (items_view items.now) site.entry.level) (machine.Number v) stacks.old.rests
        st result stacks.new.next stacks.new.rests st }
{
    push(Rest::Exit(ExitRest::Cases), &mut stacks.rests)?;
    push(Rest::Exit(ExitRest::Listed(site, items)), &mut stacks.rests)?;
    stacks.next = Progress::On(Work::Listing(site, items, case_of(items, v)));
    Ok(())
}

/// Gives the value of an expression in a command to this continuation, which was popped.
///
/// `Memory` if an allocation fails.
pub(crate) fn value_taken<'c>(
    rest: &ValueRest<'c>,
    v: u16,
    stacks: &mut Stacks<'c>,
    state: &mut State,
) -> Result<(), Memory>
    ensures { Takes (value_rest rest.now) (machine.Number v) stacks.old.rests state.old result stacks.new.next stacks.new.rests state.new }
{
    match rest {
        ValueRest::Stores(site, address) => stores(*site, address, v, stacks),
        ValueRest::Stored(word) => {
            stacks.next = store(v, *word, state);
            Ok(())
        }
        ValueRest::StoresAt(address) => {
            stacks.next = store(*address, v, state);
            Ok(())
        }
        ValueRest::Drops => {
            stacks.next = Progress::On(Work::Left(Exit::Past));
            Ok(())
        }
        ValueRest::Fors(site, by, body) => {
            let rounds = Rounds {
                limit: v,
                by: *by,
                body,
            };
            stacks.next = Progress::On(Work::Round(*site, rounds));
            Ok(())
        }
        ValueRest::Switches(site, items) => switches(*site, items, v, stacks),
        ValueRest::Leaves => {
            stacks.next = Progress::On(Work::Left(Exit::Resulted(v)));
            Ok(())
        }
    }
}
