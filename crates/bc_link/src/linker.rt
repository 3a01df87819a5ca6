//! The public call: links segments into an image.

ghost use Rattle.std.specs.Prelude.{◌≡◌, None, OnOk, IfOk, IfErr};
ghost use Rattle.bc_link.specs.Linked.{image_of, IsRefusal};
ghost use Rattle.bc_link.specs.Refusals.{refusal_of, label_twice_from};

use crate::draft::Draft;
use crate::layout::stack_base;
use crate::link_error::LinkError;
use crate::repeats::{repeated_global, repeated_label};
use bc_machine_defs::Image;
use bc_text_items::Segment;
use std::alloc::Global;

/// `LabelTwice` for the first segment that sets a label twice; `Memory` if an allocation fails.
fn refuse_repeated_labels(alloc: Global, segments: &[Segment]) -> Result<(), LinkError>
    ensures ok { OnOk result (label_twice_from 0 segments.now ≡ None) }
    ensures err { IfErr result (IsRefusal (label_twice_from 0 segments.now)) }
{
    for (number, segment) in segments.iter().enumerate() {
        if let Some(label) = repeated_label(alloc, segment.items())? {
            return Err(LinkError::LabelTwice(number, label));
        }
    }
    Ok(())
}

/// Assembles the segments one after another from address 520 on, and returns the image from which the machine starts: the boot words at 0
/// to 2, the cells of the globals at 8 to 519, and 0 everywhere else. Each segment has its own labels. A global that no segment sets
/// holds 0, even global 1 (START).
///
/// If there are several errors, `LabelTwice` takes precedence, then `GlobalTwice`, then `TooLarge`, then `LabelUnset`. Within one kind, the
/// first in the order of segments and items is reported; a repetition counts at the item that repeats. `Memory` if an allocation fails.
pub fn link(alloc: Global, segments: &[Segment]) -> Result<Image, LinkError>
    ensures accepted { OnOk result (refusal_of segments.now ≡ None) }
    ensures image { IfOk result (λ image. image ≡ image_of segments.now) }
    ensures refused { IfErr result (IsRefusal (refusal_of segments.now)) }
{
    refuse_repeated_labels(alloc, segments)?;
    if let Some(global) = repeated_global(alloc, segments)? {
        return Err(LinkError::GlobalTwice(global));
    }
    let Some(stack_base) = stack_base(segments) else {
        return Err(LinkError::TooLarge);
    };
    let draft = Draft::of(alloc, segments)?;
    Ok(draft.into_image(alloc, stack_base)?)
}
