//! Labels and globals that are set twice.

ghost use Rattle.std.specs.Prelude.{◌≡◌, ℕ, List, ◌++◌, IfOk};
ghost use Rattle.bc_link.specs.Labels.{labels_of};
ghost use Rattle.bc_link.specs.Refusals.{first_of, first_repeated, repeated_after, globals_set, repeated_global_of};

use bc_text_items::{GlobalNumber, Item, Segment};
use bc_word::{Memory, Word};
use indexmap::IndexSet;
use std::alloc::Global;

/// The first label of the items that has been set before. `Memory` if an allocation fails.
pub fn repeated_label(alloc: Global, items: &[Item]) -> Result<Option<Word>, Memory>
    ensures { IfOk result (λ label. label ≡ first_repeated (labels_of items.now)) }
{
    let mut seen = IndexSet::new(alloc);
    for item in items {
        if let Item::Label(label) = item {
            if !seen.insert(*label)? {
                return Ok(Some(*label));
            }
        }
    }
    Ok(None)
}

/// The first global of the items that is in `seen` already. If there is none, all globals of the items are in `seen` afterwards.
///
/// `Memory` if an allocation fails.
fn note_globals(
    seen: &mut IndexSet<GlobalNumber>,
    items: &[Item],
) -> Result<Option<GlobalNumber>, Memory>
    ensures { IfOk result (λ global. (rest : List ℕ) → repeated_after seen.old.keys (globals_set items.now ++ rest)
        ≡ first_of global (repeated_after seen.new.keys rest)) }
{
    for item in items {
        if let Item::Global { number, .. } = item {
            if !seen.insert(*number)? {
                return Ok(Some(*number));
            }
        }
    }
    Ok(None)
}

/// The first global that the segments set twice. `Memory` if an allocation fails.
pub fn repeated_global(alloc: Global, segments: &[Segment]) -> Result<Option<GlobalNumber>, Memory>
    ensures { IfOk result (λ global. global ≡ repeated_global_of segments.now) }
{
    let mut seen = IndexSet::new(alloc);
    for segment in segments {
        if let Some(global) = note_globals(&mut seen, segment.items())? {
            return Ok(Some(global));
        }
    }
    Ok(None)
}
