//! What the sources call the vectors, tables and strings of a run, and which globals they name.

use crate::message::WildProgram;
use crate::owner::main_of;
use crate::placed::{LabelOf, labelled, read};
use bc_interpret_trace::Standing;
use bc_word::Memory;
use bcpl_messages::{Draft, Fill};
use std::alloc::Global;

/// The number of globals.
const COUNT: usize = 512;

/// The newest call whose frame begins at or before an address.
fn standing_at(standings: &[Standing], address: u16) -> Option<&Standing> {
    standings
        .iter()
        .find(|standing| standing.frame <= usize::from(address))
}

/// The vector whose variable has this address, as a part of a sentence.
pub(crate) fn vector_at(
    draft: &mut Draft,
    program: &WildProgram<'_, '_>,
    standings: &[Standing],
    address: u16,
) -> Option<String> {
    let standing = standing_at(standings, address)?;
    let offset = usize::from(address).saturating_sub(standing.frame) as u64;
    let LabelOf { segment, label } = labelled(program.image, standing.routine)?;
    let read = main_of(draft, program, segment)?;
    let root = read.root(label, standing);
    let variable = read.sites.variable(label, offset, root)?;
    let name = Fill::Shown(read.text(variable.leaf)?);
    let routine = Fill::Shown(read.text(read.sites.label(label)?)?);
    Some(draft.filled("the vector {} of {}", &[name, routine]))
}

/// The string that begins at an address, or the word TABLE.
pub(crate) fn constant_at<'s>(
    draft: &mut Draft,
    program: &WildProgram<'_, 's>,
    address: u16,
) -> Option<&'s [u8]> {
    let LabelOf { segment, label } = labelled(program.image, address)?;
    let read = main_of(draft, program, segment)?;
    read.text(read.sites.label(label)?)
}

/// For each global whether a source names it: whether a main declares it, with the files that it gets. Returns `Memory` if an allocation
/// fails.
pub fn named_globals(alloc: Global, program: &WildProgram<'_, '_>) -> Result<Vec<bool>, Memory> {
    let mut draft = Draft::new(alloc, 0);
    let mut named = Vec::new(alloc);
    named.resize(COUNT, false)?;
    for main in program.mains {
        if let Some(read) = read(&mut draft, program.sources, *main) {
            for site in &read.sites.globals {
                if let Some(entry) = named.get_mut(usize::from(site.number)) {
                    *entry = true;
                }
            }
        }
    }
    let _message = draft.into_message()?;
    Ok(named)
}
