//! Names for the addresses of an image.

use bc_machine_defs::Image;
use bc_word::Memory;
use bcpl_places::library_name;
use std::alloc::Global;

/// A routine of the sources, and the address at which it begins.
#[derive(Clone, Copy)]
pub struct NamedRoutine<'r> {
    pub address: u16,
    /// Its name and where it is declared, as the profile shows them.
    pub name: &'r str,
}

/// The address of global 0.
const GLOBALS: usize = 8;

/// The address of the first segment.
const FIRST_SEGMENT: usize = 520;

/// A label of a segment.
#[derive(Clone, Copy)]
struct CodePlace {
    segment: usize,
    label: u16,
}

/// The first label at this address.
fn label_at(image: &Image, address: u16) -> Option<CodePlace> {
    for (segment, place) in image.places.as_slice().iter().enumerate() {
        for (label, at) in place.labels.as_slice() {
            if at.get() == address {
                return Some(CodePlace {
                    segment,
                    label: label.get(),
                });
            }
        }
    }
    None
}

/// The first global with this address, unless the address is before the segments.
fn global_at(image: &Image, address: u16) -> Option<u16> {
    if usize::from(address) < FIRST_SEGMENT {
        return None;
    }
    for number in 1..512u16 {
        let cell = GLOBALS.saturating_add(usize::from(number));
        if let Some(word) = image.words.as_slice().get(cell) {
            if word.get() == address {
                return Some(number);
            }
        }
    }
    None
}

/// The segment that begins at this address.
fn segment_at(image: &Image, address: u16) -> Option<usize> {
    for (segment, place) in image.places.as_slice().iter().enumerate() {
        if place.start.get() == address {
            return Some(segment);
        }
    }
    None
}

/// The number of addresses of a store.
const ADDRESSES: usize = 65_536;

/// Notes that a part of the image begins at this address.
fn note_part(begins: &mut [bool], address: usize) {
    if let Some(begin) = begins.get_mut(address) {
        *begin = true;
    }
}

/// For each address, whether a part of the image begins there: the globals, a segment, or the stack. `Memory` if an
/// allocation fails.
pub fn part_beginnings(alloc: Global, image: &Image) -> Result<Vec<bool>, Memory> {
    let mut begins = vec![in alloc; false; ADDRESSES]?;
    note_part(begins.as_mut_slice(), GLOBALS);
    note_part(begins.as_mut_slice(), usize::from(image.stack_base.get()));
    for place in image.places.as_slice() {
        note_part(begins.as_mut_slice(), usize::from(place.start.get()));
    }
    Ok(begins)
}

/// The name of the part of the image at this address, if no label is there.
fn part_at(alloc: Global, image: &Image, address: u16) -> Result<String, Memory> {
    if let Some(segment) = segment_at(image, address) {
        return Ok(format!(in alloc; "segment {segment}, before the first call")?);
    }
    let at = usize::from(address);
    let said = if at < GLOBALS {
        "the boot code"
    } else if at < FIRST_SEGMENT {
        "the globals"
    } else if address == image.stack_base.get() {
        "the stack"
    } else {
        "no label"
    };
    Ok(String::from_str(alloc, said)?)
}

/// The name of the first of these routines that begins at this address.
fn named_at<'r>(routines: &[NamedRoutine<'r>], address: u16) -> Option<&'r str> {
    for routine in routines {
        if routine.address == address {
            return Some(routine.name);
        }
    }
    None
}

/// The name of the routine at this address: its segment and label, the global that has the address, and its name among
/// `routines` or, if it isn't one of them, the global's name in LIBHDR. Without a label, the name of the part of the
/// image. `Memory` if an allocation fails.
pub fn name_at(
    alloc: Global,
    image: &Image,
    routines: &[NamedRoutine<'_>],
    address: u16,
) -> Result<String, Memory> {
    let mut name = match label_at(image, address) {
        Some(place) => {
            let segment = place.segment;
            let label = place.label;
            format!(in alloc; "{segment}.{label}")?
        }
        None => part_at(alloc, image, address)?,
    };
    let mut known = named_at(routines, address);
    if let Some(global) = global_at(image, address) {
        write!(name, ", global {global}")?;
        known = known.or(library_name(global));
    }
    if let Some(known) = known {
        write!(name, ", {known}")?;
    }
    Ok(name)
}
