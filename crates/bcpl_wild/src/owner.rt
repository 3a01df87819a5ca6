//! Which variable, global, static or routine an address belongs to.

use crate::extent::is_indexed;
use crate::message::WildProgram;
use crate::placed::{LabelOf, ReadMain, labelled, read};
use bc_interpret_trace::Standing;
use bc_machine_defs::Image;
use bc_scope_places::VariableSite;
use bcpl_messages::{Draft, Fill};

/// The address of the cell of global 0.
pub const GLOBALS: u16 = 8;

/// The address after the globals' cells, where the primitives begin.
const SEGMENTS: u16 = 520;

/// What an address belongs to.
#[derive(Drop)]
pub struct Owner {
    /// Its description, as a part of a sentence.
    pub text: String,
    /// What is at the address.
    pub kind: OwnerKind,
}

/// What is at an address.
#[derive(Clone, Copy)]
pub enum OwnerKind {
    /// A cell, other than that of a local variable.
    Cell,
    /// The cell of a variable whose name has this leaf, in the call that is `back` calls older than the newest one.
    Variable { back: usize, leaf: u64 },
    /// A cell of a vector, in the same way.
    Element { back: usize, leaf: u64 },
    /// No cell: the description says what it comes after.
    After,
    /// The first word of a routine's code.
    Code,
    /// Code after a routine's first word.
    WithinCode,
}

/// What this address belongs to; `None` if nothing near it is known.
pub fn owner_of(
    draft: &mut Draft,
    program: &WildProgram<'_, '_>,
    standings: &[Standing],
    address: u16,
) -> Option<Owner> {
    if address < GLOBALS {
        return None;
    }
    if address < SEGMENTS {
        return Some(global(draft, program, address - GLOBALS));
    }
    if address >= program.image.stack_base.get() {
        return of_frames(draft, program, standings, address);
    }
    match of_segments(draft, program, address) {
        Some(owner) => Some(owner),
        None => Some(of_primitives(draft, program, address)),
    }
}

/// A global, described by its number and the first name that a main gives it.
fn global(draft: &mut Draft, program: &WildProgram<'_, '_>, number: u16) -> Owner {
    let name = name_of_global(draft, program, number);
    let sentence = match name {
        Some(_) => "global {} {}",
        None => "global {}",
    };
    let name = Fill::Shown(name.unwrap_or(b""));
    Owner {
        text: draft.filled(sentence, &[Fill::Number(u64::from(number)), name]),
        kind: OwnerKind::Cell,
    }
}

/// The first name that a main gives a global.
fn name_in<'s>(read: &ReadMain<'s>, number: u16) -> Option<&'s [u8]> {
    for site in &read.sites.globals {
        if site.number == number
            && let Some(name) = read.text(site.leaf)
        {
            return Some(name);
        }
    }
    None
}

/// The first name that any main gives a global.
pub(crate) fn name_of_global<'s>(
    draft: &mut Draft,
    program: &WildProgram<'_, 's>,
    number: u16,
) -> Option<&'s [u8]> {
    for main in program.mains {
        if let Some(read) = read(draft, program.sources, *main) {
            let name = name_in(&read, number);
            if name.is_some() {
                return name;
            }
        }
    }
    None
}

/// The global whose initial value is this address.
fn global_of(image: &Image, address: u16) -> Option<u16> {
    let globals = image.words.as_slice().iter().skip(usize::from(GLOBALS));
    for (number, word) in (0..SEGMENTS - GLOBALS).zip(globals) {
        if word.get() == address {
            return Some(number);
        }
    }
    None
}

/// The name of the primitive whose code begins at an address.
fn name_of_primitive<'s>(
    draft: &mut Draft,
    program: &WildProgram<'_, 's>,
    address: u16,
) -> Option<&'s [u8]> {
    let number = global_of(program.image, address)?;
    name_of_global(draft, program, number)
}

/// The code of a primitive, described by the global that it sets.
fn of_primitives(draft: &mut Draft, program: &WildProgram<'_, '_>, address: u16) -> Owner {
    match name_of_primitive(draft, program, address) {
        Some(name) => Owner {
            text: draft.filled("{}", &[Fill::Shown(name)]),
            kind: OwnerKind::Code,
        },
        None => Owner {
            text: draft.filled("the library's own routines", &[]),
            kind: OwnerKind::WithinCode,
        },
    }
}

/// The main of a segment.
pub(crate) fn main_of<'s>(
    draft: &mut Draft,
    program: &WildProgram<'_, 's>,
    segment: usize,
) -> Option<ReadMain<'s>> {
    let main = program.mains.get(segment)?;
    read(draft, program.sources, *main)
}

/// What is `back` words after a label.
fn after_label(
    draft: &mut Draft,
    program: &WildProgram<'_, '_>,
    label: LabelOf,
    back: u16,
) -> Option<Owner> {
    let LabelOf { segment, label } = label;
    let read = main_of(draft, program, segment)?;
    let name = read.text(read.sites.label(label)?)?;
    let is_code = read.is_routine(label);
    let kind = match (is_code, back) {
        (true, 0) => OwnerKind::Code,
        (true, _) => OwnerKind::WithinCode,
        (false, _) => OwnerKind::Cell,
    };
    Some(Owner {
        text: if back == 0 || is_code {
            draft.filled("{}", &[Fill::Shown(name)])
        } else {
            let back = Fill::Number(u64::from(back));
            draft.filled("cell {} after that of {}", &[back, Fill::Shown(name)])
        },
        kind,
    })
}

/// A routine, static, table or string, found by the nearest label at or before an address.
fn of_segments(draft: &mut Draft, program: &WildProgram<'_, '_>, address: u16) -> Option<Owner> {
    for back in 0..=address {
        if let Some(label) = labelled(program.image, address - back) {
            return after_label(draft, program, label, back);
        }
    }
    None
}

/// A call whose frame begins `offset` words before an address, or at it. It is `back` calls older than the newest one.
#[derive(Clone, Copy)]
struct Begun<'m> {
    standing: &'m Standing,
    back: usize,
    offset: usize,
}

/// How many cells of a frame link it to the caller. They are before the parameters, and follow the caller's variables.
const LINK: usize = 2;

/// The innermost call whose variables begin at or before an address.
fn begun_before(standings: &[Standing], address: u16) -> Option<Begun<'_>> {
    for (back, standing) in standings.iter().enumerate() {
        if let Some(offset) = usize::from(address).checked_sub(standing.frame)
            && (offset >= LINK || back.saturating_add(1) == standings.len())
        {
            return Some(Begun {
                standing,
                back,
                offset,
            });
        }
    }
    None
}

/// A variable in the frame of the innermost call whose variables begin at or before an address.
fn of_frames(
    draft: &mut Draft,
    program: &WildProgram<'_, '_>,
    standings: &[Standing],
    address: u16,
) -> Option<Owner> {
    let begun = begun_before(standings, address)?;
    let called = labelled(program.image, begun.standing.routine)?;
    let read = main_of(draft, program, called.segment)?;
    let frame = Frame {
        read: &read,
        back: begun.back,
        label: called.label,
        root: read.root(called.label, begun.standing),
    };
    frame.owner(draft, begun.offset as u64, address)
}

/// The frame of a call: the main that has the routine, the number of newer calls, the routine's label, and the root at
/// which the call is.
#[derive(Clone, Copy)]
struct Frame<'f, 's> {
    read: &'f ReadMain<'s>,
    back: usize,
    label: u64,
    root: Option<usize>,
}

impl<'s> Frame<'_, 's> {
    /// What the cell at this offset of the frame belongs to; its address is `address`.
    fn owner(&self, draft: &mut Draft, offset: u64, address: u16) -> Option<Owner> {
        if let Some(site) = self.read.sites.variable(self.label, offset, self.root) {
            return self.within(draft, site, offset);
        }
        match self.vector_before(offset) {
            Some(site) => Some(self.after_vector(draft, site, offset)),
            None => Some(self.after_all(draft, offset, address)),
        }
    }

    /// The variable whose cells include this offset.
    fn within(&self, draft: &mut Draft, site: VariableSite, offset: u64) -> Option<Owner> {
        let name = Fill::Shown(self.read.text(site.leaf)?);
        let routine = Fill::Shown(self.routine());
        Some(match offset.saturating_sub(site.offset).checked_sub(1) {
            None => Owner {
                text: draft.filled("{} of {}", &[name, routine]),
                kind: OwnerKind::Variable {
                    back: self.back,
                    leaf: site.leaf,
                },
            },
            Some(index) => Owner {
                text: draft.filled(
                    "cell {} of the vector {} of {}",
                    &[Fill::Number(index), name, routine],
                ),
                kind: OwnerKind::Element {
                    back: self.back,
                    leaf: site.leaf,
                },
            },
        })
    }

    /// A cell after a vector.
    fn after_vector(&self, draft: &mut Draft, site: VariableSite, offset: u64) -> Owner {
        let count = site.cells.saturating_sub(1);
        let sentence = if count == 1 {
            "{} cells after the start of the vector {} of {}, which has {} cell"
        } else {
            "{} cells after the start of the vector {} of {}, which has {} cells"
        };
        let distance = offset.saturating_sub(site.offset).saturating_sub(1);
        let name = self.read.text(site.leaf).unwrap_or(b"");
        Owner {
            text: draft.filled(
                sentence,
                &[
                    Fill::Number(distance),
                    Fill::Shown(name),
                    Fill::Shown(self.routine()),
                    Fill::Number(count),
                ],
            ),
            kind: OwnerKind::After,
        }
    }

    /// A cell after all variables. If only one vector of another routine can have been there, it is named.
    fn after_all(&self, draft: &mut Draft, offset: u64, address: u16) -> Owner {
        let address = Fill::Number(u64::from(address));
        let routine = Fill::Shown(self.routine());
        let text = match self.returned_vector(offset) {
            Some(site) => draft.filled(
                "at the address {}, after all variables of {}, where the vector {} of {} may have been",
                &[
                    address,
                    routine,
                    Fill::Shown(self.read.text(site.leaf).unwrap_or(b"")),
                    Fill::Shown(self.name_of(site.routine)),
                ],
            ),
            None => draft.filled(
                "at the address {}, after all variables of {}",
                &[address, routine],
            ),
        };
        Owner {
            text,
            kind: OwnerKind::After,
        }
    }

    /// The only vector of the main's other routines that may have begun before this offset, if there is only one.
    fn returned_vector(&self, offset: u64) -> Option<VariableSite> {
        let mut found: Option<VariableSite> = None;
        for site in &self.read.sites.variables {
            if site.routine != self.label && site.cells > 1 && site.offset < offset {
                if found.is_some() {
                    return None;
                }
                found = Some(*site);
            }
        }
        found
    }

    /// The name of the routine; empty if it isn't known.
    fn routine(&self) -> &'s [u8] {
        self.name_of(self.label)
    }

    /// The name of the routine with this label; empty if it isn't known.
    fn name_of(&self, label: u64) -> &'s [u8] {
        match self.read.sites.label(label) {
            Some(leaf) => self.read.text(leaf).unwrap_or(b""),
            None => b"",
        }
    }

    /// Whether a variable is a vector of this routine that exists now and begins before this offset.
    fn is_vector_before(&self, site: &VariableSite, offset: u64) -> bool {
        let is_there = match self.root {
            Some(root) => site.from <= root && root < site.to,
            None => false,
        };
        is_there && site.routine == self.label && site.cells > 1 && site.offset < offset
    }

    /// The vector that an access after it was probably meant for: the only one that is indexed at the call's root, or
    /// else the nearest one before the offset.
    fn vector_before(&self, offset: u64) -> Option<VariableSite> {
        let extent = self.read.extent_of_root(self.root?)?;
        let mut nearest: Option<VariableSite> = None;
        let mut indexed: Option<VariableSite> = None;
        let mut count: usize = 0;
        for site in &self.read.sites.variables {
            if self.is_vector_before(site, offset) {
                let is_nearer = match nearest {
                    Some(other) => other.offset < site.offset,
                    None => true,
                };
                if is_nearer {
                    nearest = Some(*site);
                }
                let name = self.read.text(site.leaf).unwrap_or(b"");
                if is_indexed(self.read.tokens.as_slice(), extent, name) {
                    indexed = Some(*site);
                    count = count.saturating_add(1);
                }
            }
        }
        if count == 1 { indexed } else { nearest }
    }
}
