//! Where the check is: the section around, the level, what is known of the frame there, and which jumps are allowed.

ghost use Rattle.std.specs.Prelude.{◌≡◌, ◌+◌, ◌≤◌, true, Some, IfOk, OnOk};
ghost use Rattle.bc_tame.specs.Tame.{fits_call};
ghost use Rattle.bc_tame.specs.Programs.{known};

use crate::held::Entry;
use crate::not_tame::{BodyOf, Cause, NotTame, RoutineAt, Spot};
use bc_core::{Place, Valof};
use std::alloc::Global;

/// A routine that sets a global.
#[derive(Clone, Copy)]
pub(crate) struct Setter {
    /// The global.
    pub global: u16,
    /// The number of its arguments.
    pub arguments: usize,
    /// The number of cells that it may use, together with all that it calls; 0 if that isn't known yet.
    pub room: usize,
    /// Which routine it is.
    pub routine: RoutineAt,
}

/// A section, with a guess of how many cells each routine may use together with all that it calls.
#[derive(Clone, Copy)]
pub(crate) struct Around<'a> {
    /// The allocator for what the check needs.
    pub alloc: Global,
    /// The places of the section.
    pub places: &'a [Place],
    /// For each place, the number of cells that its routine may use; 0 if that isn't known yet.
    pub rooms: &'a [usize],
    /// The routines of all sections that set globals.
    pub setters: &'a [Setter],
    /// The index of the section, among those that are checked.
    pub section: usize,
    /// The number of cells that the routine being checked may use.
    pub size: usize,
}

/// Which jumps are allowed.
#[derive(Clone, Copy)]
pub(crate) struct Exits<'a> {
    /// BREAK and LOOP.
    pub in_loop: bool,
    /// ENDCASE.
    pub in_cases: bool,
    /// RESULTIS.
    pub in_valof: bool,
    /// RETURN.
    pub may_return: bool,
    /// The labels for GOTO.
    pub labels: &'a [u16],
}

/// Where the check is.
#[derive(Clone, Copy)]
pub(crate) struct At<'a> {
    /// The section around.
    pub around: Around<'a>,
    /// The number of the first VALOF that can be here.
    pub first: usize,
    /// The VALOFs from this one on.
    pub valofs: &'a [Valof],
    /// The number of parameters of the routine.
    pub parameters: usize,
    /// What is known of the frame, besides the parameters. A later entry counts more than an earlier one.
    pub reads: &'a [Entry],
    /// The jumps that are allowed.
    pub exits: Exits<'a>,
    /// The next free offset of the frame.
    pub level: usize,
    /// How much deeper the text may nest.
    pub depth: usize,
}

/// How a routine can be called.
#[derive(Clone, Copy)]
pub(crate) struct Known {
    /// The number of its arguments.
    pub arguments: usize,
    /// The number of cells that it may use, together with all that it calls.
    pub room: usize,
}

/// What the check keeps for messages and for guesses. No contract speaks of it.
#[derive(Drop)]
pub(crate) struct Walk {
    /// Where it is.
    pub spot: Spot,
    /// The number of cells that were needed up to here.
    pub need: usize,
    /// The offset of a variable whose assignment stopped the check, if it may pass where less is known of the variable.
    pub assigned: Option<usize>,
    /// Whether a jump stopped the check.
    pub jumped: bool,
    /// How many more times a part may be checked again in another way.
    pub tries: usize,
}

impl Walk {
    /// The error for what is here.
    pub(crate) fn stop(&self, cause: Cause) -> Result<(), NotTame>
        ensures { OnOk result ⊥ }
    {
        Err(NotTame::Unknown(cause, self.spot))
    }

    /// Whether to check a part again, after a variable from this level on was assigned. If so, goes back to where the part began.
    pub(crate) fn goes_back(&mut self, level: usize, began: Spot) -> bool {
        match self.assigned {
            Some(offset) if offset >= level => self.tries_again(began),
            _ => false,
        }
    }

    /// Whether to check a FOR again that may not fill cells, since it can be left or its variable is assigned. If so, goes back to
    /// where it began.
    pub(crate) fn gives_up_filling(&mut self, level: usize, began: Spot) -> bool {
        if self.jumped {
            self.tries_again(began)
        } else {
            self.goes_back(level, began)
        }
    }

    /// Goes back to where a part began, unless that was done too often.
    fn tries_again(&mut self, began: Spot) -> bool {
        if self.tries == 0 {
            return false;
        }
        self.tries -= 1;
        self.spot = began;
        self.assigned = None;
        self.jumped = false;
        true
    }

    /// Passes a whole expression, test or assignment.
    pub(crate) fn passed(&mut self) {
        self.spot.before = self.spot.before.saturating_add(1);
    }

    /// Enters a body. Returns where the check was.
    pub(crate) fn enter(&mut self, body: BodyOf) -> Spot {
        let outside = self.spot;
        self.spot = Spot {
            section: outside.section,
            body,
            before: 0,
        };
        outside
    }

    /// Notes that so many cells are needed, and checks that there are so many.
    pub(crate) fn needs(&mut self, cells: usize, size: usize) -> Result<(), NotTame>
        ensures { OnOk result (cells ≤ size) }
    {
        if cells > self.need {
            self.need = cells;
        }
        if cells > size {
            return Err(NotTame::Unknown(Cause::Size, self.spot));
        }
        Ok(())
    }

    /// The depth for a part. An error if the text nests too deep.
    pub(crate) fn deeper(&self, depth: usize) -> Result<usize, NotTame>
        ensures { IfOk result (λ r. r + 1 ≡ depth) }
    {
        if depth == 0 {
            return Err(NotTame::Unknown(Cause::Size, self.spot));
        }
        Ok(depth - 1)
    }

    /// The level `n` cells above another. An error if the sum overflows.
    pub(crate) fn above(&self, level: usize, n: usize) -> Result<usize, NotTame>
        ensures { IfOk result (λ r. r ≡ level + n) }
    {
        level
            .checked_add(n)
            .ok_or(NotTame::Unknown(Cause::Size, self.spot))
    }

    /// Checks a call of a routine with this number of arguments at this level.
    #[tactic(auto, using(crate::proofs::Tests::fits_true))]
    pub(crate) fn fits(
        &mut self,
        routine: Known,
        arguments: usize,
        level: usize,
        size: usize,
    ) -> Result<(), NotTame>
        ensures { OnOk result (fits_call (Some (known routine.arguments routine.room)) arguments level size ≡ true) }
    {
        if arguments != routine.arguments {
            return Err(NotTame::Unknown(Cause::Arguments, self.spot));
        }
        let cells = self.above(level, routine.room)?;
        self.needs(cells, size)
    }
}
