//! The observer that sees the accesses of a run of the copied sections, and ends the run at a mistake.

use crate::objects::{Mistake, Objects};
use crate::tags::{DeclaredVectors, Tags};
use bc_core::{Block, Command};
use bc_interpret::{Observer, Stacks, Trail};
use bc_interpret_steps::{NumberRest, Progress, Rest, Site, ValueRest, Work};
use bc_interpret_store::Store;
use bc_interpret_trace::trail_in;
use bc_word::{Memory, Op, Word};
use std::alloc::Global;

/// A mistake, and where the run was.
#[derive(Drop)]
pub(crate) struct Found {
    pub mistake: Mistake,
    pub trail: Trail,
}

/// Watches a run.
#[derive(Drop)]
pub(crate) struct Watcher {
    alloc: Global,
    objects: Objects,
    tags: Tags,
    /// Whether START was called.
    is_begun: bool,
    /// The number of turns that the run has taken.
    pub turns: u64,
    /// The mistake that ended the run, once there is one.
    pub found: Option<Found>,
}

/// The number of continuations without those at their end that free cells.
fn count_without_closes(rests: &[Rest<'_>]) -> usize {
    let mut count = rests.len();
    for rest in rests.iter().rev() {
        if !matches!(rest, Rest::Closes(_, _, _)) {
            return count;
        }
        count = count.saturating_sub(1);
    }
    count
}

/// These continuations without those at their end that free cells.
fn without_closes<'r, 'c>(rests: &'r [Rest<'c>]) -> &'r [Rest<'c>] {
    rests.get(..count_without_closes(rests)).unwrap_or(rests)
}

/// Whether the innermost continuation takes an address, to read or to write there.
fn takes_address(rests: &[Rest<'_>]) -> bool {
    matches!(
        rests.last(),
        Some(Rest::Number(NumberRest::Loads) | Rest::Value(ValueRest::Stored(_)))
    )
}

/// Whether the step before took a turn that isn't a GOTO's, or began the first round of a FOR, which takes none.
fn took_turn(stacks: &Stacks<'_>) -> bool {
    stacks.called.least > 0
        || matches!(
            stacks.next,
            Progress::Serve(_, _)
                | Progress::On(
                    Work::While(_, _, _)
                        | Work::Repeat(_, _)
                        | Work::RepeatWhile(_, _, _)
                        | Work::Round(_, _)
                )
        )
}

impl Watcher {
    /// A watcher of a run that hasn't begun.
    pub fn new(alloc: Global, objects: Objects, tags: Tags) -> Watcher {
        Watcher {
            alloc,
            objects,
            tags,
            is_begun: false,
            turns: 0,
            found: None,
        }
    }

    /// Sees that these vectors of a block exist. The block's cells end before the address `end`, and there are `depth` continuations.
    fn see_vectors(
        &mut self,
        vectors: DeclaredVectors,
        end: u32,
        depth: usize,
    ) -> Result<(), Memory> {
        // the innermost continuation follows the tag in the block's list
        let least = depth.saturating_sub(1);
        self.objects.leave(least.saturating_sub(1));
        for number in 0..vectors.count {
            let index = vectors.first.saturating_add(number);
            if let Some(declared) = self.tags.vectors.get(index).copied() {
                self.objects.add_vector(declared, end, least)?;
            }
        }
        Ok(())
    }

    /// Sees the beginning of a block that is a command, which may be a tag.
    fn see_block(&mut self, at: &Site<'_>, block: &Block, depth: usize) -> Result<(), Memory> {
        match self.tags.of_block(block) {
            Some(vectors) => {
                let end = at.frame.saturating_add(at.level);
                self.see_vectors(vectors, end, depth)
            }
            None => Ok(()),
        }
    }

    /// The mistake that is made if a number is given to these continuations, if it is one.
    fn see_number(&mut self, number: u16, rests: &[Rest<'_>]) -> Option<Mistake> {
        let [before @ .., last] = rests else {
            return None;
        };
        match last {
            Rest::Number(NumberRest::Loads) => self.objects.read(number),
            Rest::Value(ValueRest::Stored(_)) => self.objects.write(number),
            Rest::Number(NumberRest::Operated(Op::Add, base)) if takes_address(before) => {
                self.objects.outside(*base, number)
            }
            Rest::Number(NumberRest::Operated(Op::Subtract, base)) if takes_address(before) => {
                self.objects
                    .outside(*base, Word::new(number).negated().get())
            }
            // The first round of a FOR takes no turn.
            Rest::Value(ValueRest::Fors(_, _, _)) => {
                self.turns = self.turns.saturating_sub(1);
                None
            }
            _ => None,
        }
    }

    /// Ends the run if a number that is given to these continuations is a mistake.
    fn check(&mut self, number: u16, rests: &[Rest<'_>]) -> Result<(), Memory> {
        // the number of a call leaves the call before it is given
        let left = without_closes(rests);
        let Some(mistake) = self.see_number(number, left) else {
            return Ok(());
        };
        let trail = trail_in(self.alloc, left)?;
        self.found = Some(Found { mistake, trail });
        Err(Memory)
    }
}

impl Observer for Watcher {
    fn before(&mut self, stacks: &Stacks<'_>, _store: &mut Store) -> Result<(), Memory> {
        let depth = stacks.rests.len();
        self.objects.leave(depth);
        match &stacks.next {
            Progress::On(Work::Perform(at, Command::Nested(block))) => {
                self.see_block(at, block, depth)
            }
            Progress::On(Work::Perform(_, Command::Goto(_))) => {
                self.turns = self.turns.saturating_add(1);
                Ok(())
            }
            Progress::On(Work::Number(number)) if self.is_begun => {
                self.check(*number, stacks.rests.as_slice())
            }
            _ => Ok(()),
        }
    }

    fn after(&mut self, stacks: &Stacks<'_>, _store: &mut Store) -> Result<(), Memory> {
        self.is_begun = self.is_begun || stacks.called.least > 0;
        if took_turn(stacks) {
            self.turns = self.turns.saturating_add(1);
        }
        Ok(())
    }

    fn over(&mut self, _store: &mut Store) {}
}
