//! The next numbers of a translation, counted only when they are needed.
ghost use Rattle.std.specs.Prelude.{◌≡◌, IfOk};
ghost use Rattle.bc_parse_tree.specs.View.{block_view, definition_view};
ghost use Rattle.bc_scope_defs.specs.Numbering.{after_block as after_block_of, after_definition as after_definition_of};
ghost use Rattle.bc_scope_names.specs.View.{numbers_view};
ghost use Rattle.bc_scope_translate.specs.Next.{next_numbers};

use bc_parse_tree::{Block, Definition};
use bc_scope_names::{Numbers, after_block, after_definition};
use bc_word::Memory;

/// The tree that was skipped since the numbers were last counted.
#[derive(Clone, Copy)]
enum Passed<'t, 's> {
    /// No tree.
    Nothing,
    /// A routine definition.
    Routine(&'t Definition<'s>),
    /// The body of a VALOF.
    Body(&'t Block<'s>),
}

/// The next numbers, as numbers that were counted and a tree that was skipped since.
///
/// The translation of a body skips the routines and VALOFs inside it. Counting the numbers after one walks over all of it, so
/// they are counted only when a string, TABLE, VALOF, declaration or labelled list needs them. Otherwise a routine would be
/// walked once for each routine around it.
#[derive(Clone, Copy)]
pub struct NextNumbers<'t, 's> {
    counted: Numbers,
    passed: Passed<'t, 's>,
}

#[tactic(auto, unfolding(crate::specs::Next::next_numbers))]
impl<'t, 's> NextNumbers<'t, 's> {
    /// These numbers, with nothing skipped since.
    pub fn new(counted: Numbers) -> NextNumbers<'t, 's>
        ensures { next_numbers result ≡ numbers_view counted }
    {
        NextNumbers {
            counted,
            passed: Passed::Nothing,
        }
    }

    /// The numbers after the body of a VALOF that begins at `counted`.
    pub fn after_body(counted: Numbers, body: &'t Block<'s>) -> NextNumbers<'t, 's>
        ensures { next_numbers result ≡ after_block_of (numbers_view counted) (block_view body.now) }
    {
        NextNumbers {
            counted,
            passed: Passed::Body(body),
        }
    }

    /// The numbers after a routine that begins at `counted`.
    fn after_routine(counted: Numbers, routine: &'t Definition<'s>) -> NextNumbers<'t, 's>
        ensures { next_numbers result ≡ after_definition_of (numbers_view counted) (definition_view routine.now) }
    {
        NextNumbers {
            counted,
            passed: Passed::Routine(routine),
        }
    }

    /// Counts the numbers. Fails with `Memory` if one exceeds 64 bits.
    pub fn count(self) -> Result<Numbers, Memory>
        ensures { IfOk result (λ n. numbers_view n ≡ next_numbers self.entry) }
    {
        let mut numbers = self.counted;
        match self.passed {
            Passed::Nothing => {}
            Passed::Routine(routine) => after_definition(&mut numbers, routine)?,
            Passed::Body(body) => after_block(&mut numbers, body)?,
        }
        Ok(numbers)
    }

    /// Counts the numbers, and keeps the result. Fails with `Memory` if one exceeds 64 bits.
    pub fn settle(&mut self) -> Result<Numbers, Memory>
        ensures { IfOk result (λ n. (numbers_view n ≡ next_numbers self.old) × (next_numbers self.new ≡ next_numbers self.old)) }
    {
        let numbers = self.count()?;
        *self = NextNumbers::new(numbers);
        Ok(numbers)
    }

    /// Skips a routine. Fails with `Memory` if a number exceeds 64 bits.
    pub fn pass(&mut self, routine: &'t Definition<'s>) -> Result<(), Memory>
        ensures { IfOk result (λ _. next_numbers self.new ≡ after_definition_of (next_numbers self.old) (definition_view routine.now)) }
    {
        let counted = self.count()?;
        *self = NextNumbers::after_routine(counted, routine);
        Ok(())
    }
}
