//! The public call `judge`.
ghost use Rattle.std.specs.Prelude.{◌≡◌, [], OnOk};
ghost use Rattle.bc_scope_defs.specs.Scope.{nothing_known};
ghost use Rattle.bc_parse_tree.specs.View.{declarations_view};
ghost use Rattle.bc_scope_defs.specs.Found.{section_start, found_in_section};
ghost use Rattle.bc_scope_defs.specs.Faults.{or_else};
ghost use Rattle.bc_scope_defs.specs.FaultsAlong.{declarations_fault, frames_fault};
ghost use Rattle.bc_scope_faults.specs.Judged.{Passes};

use crate::declarations::declarations;
use crate::progress::Progress;
use bc_parse_tree::Declaration;
use bc_scope_names::{Numbers, Scope, ScopeError};

/// Finds the first fault of a section: first the faults of its declarations in text order, then `FrameTooLarge` if a frame has
/// more than 32,768 cells.
///
/// `scope` must be empty. Without a fault it is empty again after the call. Fails with the fault, or with `Memory` when an
/// allocation fails or a number exceeds 64 bits. Doesn't check the number of places.
#[tactic(auto, using(crate::proofs::Frames::frames_judged, crate::proofs::Scopes::nothing_known, crate::proofs::Scopes::nothing_left))]
pub fn judge<'s>(scope: &mut Scope<'s>, list: &[Declaration<'s>]) -> Result<(), ScopeError<'s>>
    requires { scope.old ≡ [] }
    ensures answer { Passes result
        (or_else (declarations_fault nothing_known section_start (declarations_view list.now) 0)
        (frames_fault (found_in_section (declarations_view list.now)))) }
    ensures emptied { OnOk result (scope.new ≡ []) }
{
    let mark = scope.mark();
    let mut progress = Progress {
        at: Numbers::start(),
        fits: true,
    };
    let _extent = declarations(scope, &mut progress, list, 0)?;
    scope.leave(mark);
    if progress.fits {
        Ok(())
    } else {
        Err(ScopeError::FrameTooLarge)
    }
}
