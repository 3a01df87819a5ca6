//! What watches a run. It can make the store keep its past, and can't change the cells, so a run that is observed has the outcome of one that
//! isn't.

ghost use Rattle.std.specs.Prelude.{◌≡◌};

use bc_interpret_steps::Stacks;
use bc_interpret_store::Store;
use bc_word::Memory;

/// Watches a run, and sees its store before and after each step. The cells stay what they are.
pub trait Observer {
    /// Is called before each step: `stacks.next` has the work of the step.
    ///
    /// `Memory` if an allocation fails; the run ends with it.
    fn before(&mut self, stacks: &Stacks<'_>, store: &mut Store) -> Result<(), Memory>
        ensures { store.new ≡ store.old };

    /// Is called after each step, before a primitive that the step called is carried out.
    ///
    /// `Memory` if an allocation fails; the run ends with it.
    fn after(&mut self, stacks: &Stacks<'_>, store: &mut Store) -> Result<(), Memory>
        ensures { store.new ≡ store.old };

    /// Is called once, after the run.
    fn over(&mut self, store: &mut Store);
}

/// An observer that does nothing.
#[derive(Clone, Copy)]
pub struct Unobserved;

impl Observer for Unobserved {
    #[inline(always)]
    fn before(&mut self, _stacks: &Stacks<'_>, _store: &mut Store) -> Result<(), Memory> {
        Ok(())
    }

    #[inline(always)]
    fn after(&mut self, _stacks: &Stacks<'_>, _store: &mut Store) -> Result<(), Memory> {
        Ok(())
    }

    #[inline(always)]
    fn over(&mut self, _store: &mut Store) {}
}
