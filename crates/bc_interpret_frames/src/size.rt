//! The public call: the size of a routine's frame.

ghost use Rattle.std.specs.Prelude.{◌≡◌, map, IfOk};
ghost use Rattle.bc_core.specs.View.{valof_of, routine_of, body_of};
ghost use Rattle.bc_core.specs.Layout.{frame_size as size_of_frame, cells_of_body};
ghost use Rattle.bc_interpret_frames.specs.Parts.{bodies, cells_of, greatest};

use crate::expand::expand;
use crate::part::{Construct, Within, above};
use bc_core::{Body, Routine, Valof};
use bc_word::Memory;
use std::alloc::Global;

/// The greatest extent of the frame that one of the waiting parts or their sub-parts needs, in cells.
#[tactic(auto, using(crate::proofs::Waits::greatest_more, crate::proofs::Waits::weight_more))]
fn most<'c>(waiting: &mut Vec<Construct<'c>>) -> Result<usize, Memory>
    ensures { IfOk result (λ most. most ≡ greatest waiting.old.items) }
{
    let mut most = 0;
    while let Some(part) = waiting.pop() {
        let own = expand(part, waiting)?;
        if own > most {
            most = own;
        }
    }
    Ok(most)
}

/// The body of a routine as a part.
fn whole<'c>(within: Within<'c>, body: &'c Body, level: usize) -> Construct<'c>
    ensures { cells_of result ≡ cells_of_body (bodies within.entry) (body_of body.now) level }
{
    match body {
        Body::Value(e) => Construct::Expression(within, e, level),
        Body::Commands(block) => Construct::Block(within, block, level),
    }
}

/// The number of cells in the frame of a routine, in a section with these VALOFs: its links, its parameters, its variables and its
/// temporary values. Uses no native stack for the depth of the tree.
///
/// `Memory` if an allocation fails.
pub fn frame_size(alloc: Global, valofs: &[Valof], routine: &Routine) -> Result<usize, Memory>
    ensures { IfOk result (λ size. size ≡ size_of_frame (map valof_of valofs.now) (routine_of routine.now)) }
{
    let level = above(2, routine.parameters as usize)?;
    let within = Within { first: 0, valofs };
    let mut waiting = Vec::new(alloc);
    waiting.push(whole(within, &routine.body, level))?;
    let cells = most(&mut waiting)?;
    Ok(if cells > level { cells } else { level })
}
