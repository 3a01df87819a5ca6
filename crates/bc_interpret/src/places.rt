//! The sections with the addresses of their places, which are taken from an image. A place is a routine, static, table or string.

ghost use Rattle.std.specs.Prelude.{◌≡◌, ◌==◌, ℕ, cond, drop, map, slice_index, slice_index_or, OnOk, IfOk};
ghost use Rattle.bc_core.specs.Map.{placed};
ghost use Rattle.bc_core.specs.View.{section as section_view};
ghost use Rattle.bc_link.specs.Labels.{label_address};
ghost use Rattle.bc_interpret_steps.specs.Sections.{program_of};
ghost use Rattle.bc_interpret.specs.Placing.{IsAddressed, addresses_of as addresses_by_label, label_addresses};

use bc_core::Core;
use bc_interpret_steps::Section;
use bc_machine::SegmentPlace;
use bc_word::{Memory, Word};
use std::alloc::Global;

/// Gives a label an address.
///
/// `Memory` if an allocation fails.
fn put_address(addresses: &mut Vec<u16>, label: Word, address: Word) -> Result<(), Memory>
    ensures { OnOk result ((l : ℕ) → slice_index addresses.new.items l ≡ cond (l == label) address (slice_index addresses.old.items l)) }
{
    let index = usize::from(label.get());
    while addresses.len() <= index {
        addresses.push(0)?;
    }
    addresses[index] = address.get();
    Ok(())
}

/// The addresses of the labels of a segment, indexed by label; 0 for a number that isn't a label.
///
/// `Memory` if an allocation fails.
#[tactic(auto, using(crate::proofs::Placing::labels_more, crate::proofs::Placing::no_label_left))]
fn addresses_of(alloc: Global, place: &SegmentPlace) -> Result<Vec<u16>, Memory>
    ensures { IfOk result (λ addresses. IsAddressed place.now.labels addresses.items) }
{
    let mut addresses = Vec::new(alloc);
    let mut left = place.labels.as_slice();
    // of several pairs with one label the first counts, so it is put in last
    while let Some((pair, before)) = left.split_last() {
        put_address(&mut addresses, pair.0, pair.1)?;
        left = before;
    }
    Ok(addresses)
}

/// The addresses of the labels of each of these segments.
///
/// `Memory` if an allocation fails.
#[tactic(auto, using(crate::proofs::Placing::addresses_more))]
pub fn all_addresses(alloc: Global, places: &[SegmentPlace]) -> Result<Vec<Vec<u16>>, Memory>
    ensures { IfOk result (λ all. addresses_by_label all.items ≡ label_addresses places.now) }
{
    let mut all = Vec::new(alloc);
    let mut left = places;
    while let [place, following @ ..] = left {
        all.push(addresses_of(alloc, place)?)?;
        left = following;
    }
    Ok(all)
}

/// All segments but the first, which has the primitives.
pub fn after_first(places: &[SegmentPlace]) -> &[SegmentPlace]
    ensures { result.now ≡ drop 1 places.now }
{
    match places {
        [_, following @ ..] => following,
        [] => places,
    }
}

/// The sections, each with the addresses of its labels. Stops at the end of the shorter list.
///
/// `Memory` if an allocation fails.
#[tactic(auto, using(crate::proofs::Placing::core_more, crate::proofs::Placing::no_core, crate::proofs::Placing::no_place))]
pub(crate) fn sections_of<'c>(
    alloc: Global,
    cores: &'c [Core],
    addresses: &'c [Vec<u16>],
) -> Result<Vec<Section<'c>>, Memory>
    ensures { IfOk result (λ sections. program_of sections.items ≡ placed (map section_view cores.now) (addresses_by_label addresses.now)) }
{
    let mut sections = Vec::new(alloc);
    let mut left = cores;
    let mut others = addresses;
    while let Some((core, following)) = left.split_first() {
        let Some((all, further)) = others.split_first() else {
            return Ok(sections);
        };
        sections.push(Section {
            places: core.places(),
            valofs: core.valofs(),
            addresses: all.as_slice(),
        })?;
        left = following;
        others = further;
    }
    Ok(sections)
}
