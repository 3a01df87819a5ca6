//! The table of a program's routines, with their addresses and frame sizes.

ghost use Rattle.std.specs.Prelude.{◌≡◌, ◌+◌, OnOk, IfOk};
ghost use Rattle.bc_interpret_steps.specs.Sections.{placed_of, program_of, IsTable};
ghost use Rattle.bc_core.specs.View.{place_of};
ghost use Rattle.bc_interpret.specs.Tables.{Adds, AddsPlace};

use bc_core::Place;
use bc_interpret_frames::frame_size;
use bc_interpret_steps::{Callable, Section};
use bc_word::Memory;
use std::alloc::Global;

/// The address of a label of the section; 0 if there is none.
pub(crate) fn address_of(section: &Section<'_>, label: usize) -> u16
    ensures { result ≡ (placed_of section.now).address label }
{
    match section.addresses.get(label) {
        Some(address) => *address,
        None => 0,
    }
}

/// The number of the next label.
///
/// `Memory` if the sum overflows, which no label's number does.
pub(crate) fn label_after(label: usize) -> Result<usize, Memory>
    ensures { IfOk result (λ r. r ≡ label + 1) }
{
    label.checked_add(1).ok_or(Memory)
}

/// Appends the place with this label to the table if it is a routine.
///
/// `Memory` if an allocation fails.
#[tactic(auto, using(crate::proofs::Tables::of_a_place))]
fn add_routine<'c>(
    alloc: Global,
    section: &'c Section<'c>,
    label: usize,
    place: &'c Place,
    table: &mut Vec<Callable<'c>>,
) -> Result<(), Memory>
    ensures { OnOk result (AddsPlace (placed_of section.now) label (place_of place.now) table.old.items table.new.items) }
{
    match place {
        Place::Routine(routine) => {
            let frame = frame_size(alloc, section.valofs, routine)?;
            table.push(Callable {
                address: address_of(section, label),
                section,
                routine,
                frame,
            })?;
            Ok(())
        }
        Place::Static(_) | Place::Table(_) | Place::Text(_) => Ok(()),
    }
}

/// Appends the routines of a section to the table.
///
/// `Memory` if an allocation fails.
#[tactic(auto, using(crate::proofs::Tables::of_a_section))]
fn add_routines<'c>(
    alloc: Global,
    section: &'c Section<'c>,
    table: &mut Vec<Callable<'c>>,
) -> Result<(), Memory>
    ensures { OnOk result (Adds (placed_of section.now) table.old.items table.new.items) }
{
    let mut label = 1;
    let mut left = section.places;
    while let Some((place, following)) = left.split_first() {
        add_routine(alloc, section, label, place, table)?;
        label = label_after(label)?;
        left = following;
    }
    Ok(())
}

/// The routines of all sections, each with the size of its frame.
///
/// `Memory` if an allocation fails.
#[tactic(auto, using(crate::proofs::Tables::section_added))]
pub(crate) fn table_of<'c>(
    alloc: Global,
    sections: &'c [Section<'c>],
) -> Result<Vec<Callable<'c>>, Memory>
    ensures { IfOk result (λ table. IsTable (program_of sections.now) table.items) }
{
    let mut table = Vec::new(alloc);
    let mut left = sections;
    while let [section, following @ ..] = left {
        add_routines(alloc, section, &mut table)?;
        left = following;
    }
    Ok(table)
}
