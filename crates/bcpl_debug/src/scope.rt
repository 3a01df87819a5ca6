//! What names mean at a stop, in one of the calls that the run is in.

use crate::manifests::Manifest;
use crate::names::{Names, Variable};
use crate::places::{SitePlace, is_rooted};
use crate::program::DebugProgram;
use bc_interpret_record::{Cell, Frame, Moment, StopKind};

/// A call at a stop: its names, and the cells.
#[derive(Clone, Copy)]
pub struct DebugScope<'v, 's> {
    /// The program.
    pub program: &'v DebugProgram<'v, 's>,
    /// Its names.
    pub names: &'v Names<'s>,
    /// The state at the stop.
    pub moment: &'v Moment,
    /// The call.
    pub frame: Option<Frame>,
}

/// What a name means.
#[derive(Clone, Copy, Debug, PartialEq, Eq)]
pub enum Meaning {
    /// The cell at this address.
    Cell(u16),
    /// This value.
    Value(u16),
}

/// An element of a vector.
#[derive(Clone, Copy)]
pub struct Element<'s> {
    /// The name of the vector.
    pub vector: &'s [u8],
    /// The name of the routine that declares it.
    pub routine: &'s [u8],
    /// The index of the element.
    pub index: u64,
    /// The number of elements from this one on.
    pub rest: u64,
}

/// How many calls are searched for a vector.
const MOST_CALLS: usize = 200;

/// The address of the cell of global 0.
pub const GLOBALS: u16 = 8;

/// The address of a cell of a frame.
pub fn cell_in(base: u32, offset: u64) -> u16 {
    let address = u64::from(base).saturating_add(offset) % 65536;
    u16::try_from(address).unwrap_or(0)
}

/// Whether a name is declared after the end of a place, in the same file.
fn is_declared_after(place: SitePlace, variable: &Variable<'_>) -> bool {
    match (place.span, variable.span) {
        (Some(text), Some(name)) => name.file == text.file && name.start >= text.end,
        _ => false,
    }
}

/// How many roots after that of a place the scope of a name may begin that is declared there or before it.
fn roots_ahead(kind: StopKind) -> usize {
    match kind {
        // A FOR has two roots before its body: the first value and the limit. If one of them has a VALOF, there are more, and the FOR's
        // variable counts only in the body.
        StopKind::For => 2,
        // The root of these is the one before them, and a vector may be declared in between.
        _ if !is_rooted(kind) => 1,
        _ => 0,
    }
}

/// Whether a variable is in scope at a place. A LET and a FOR count what they declare, which has a cell only after it is declared.
fn is_in_scope_at(place: SitePlace, variable: &Variable<'_>) -> bool {
    if place.root == usize::MAX {
        return variable.is_parameter;
    }
    variable.from <= place.root.saturating_add(roots_ahead(place.kind))
        && place.root < variable.to
        && !is_declared_after(place, variable)
}

impl<'v, 's> DebugScope<'v, 's> {
    /// The index of the routine of the call.
    pub fn routine(&self) -> Option<usize> {
        self.names.routine_at(self.frame?.routine)
    }

    /// The index of the section of the call's routine.
    pub fn section(&self) -> Option<usize> {
        Some(self.names.routines.get(self.routine()?)?.section)
    }

    /// Whether a variable is in scope.
    fn is_in_scope(&self, variable: &Variable<'s>) -> bool {
        let Some(frame) = self.frame else {
            return variable.is_parameter;
        };
        match self.names.place(frame.site) {
            Some(place) => is_in_scope_at(place, variable),
            None => variable.is_parameter,
        }
    }

    /// The variable with this index, if it is in scope and has a cell, and the address of the cell. The oldest is the first; where several
    /// have one name, the last one counts.
    pub fn variable(&self, index: usize) -> Option<(Variable<'s>, u16)> {
        let routine = self.names.routines.get(self.routine()?)?;
        let variable = routine.variables.get(index)?;
        let frame = self.frame?;
        let address = cell_in(frame.base, variable.offset);
        if self.is_in_scope(variable) && self.cell(address) != Cell::Dead {
            Some((*variable, address))
        } else {
            None
        }
    }

    /// The number of variables of the call's routine, in scope or not.
    pub fn count(&self) -> usize {
        match self.routine() {
            Some(routine) => self
                .names
                .routines
                .get(routine)
                .map_or(0, |routine| routine.variables.len()),
            None => 0,
        }
    }

    /// The newest variable in scope with this name, and the address of its cell. A manifest may hide it.
    fn newest(&self, name: &[u8]) -> Option<(Variable<'s>, u16)> {
        for index in (0..self.count()).rev() {
            if let Some((variable, address)) = self.variable(index)
                && variable.name == name
            {
                return Some((variable, address));
            }
        }
        None
    }

    /// The variable that this name means, and the address of its cell. Of a variable and a manifest around a place, the one that is declared
    /// later in the text is the inner one.
    pub fn local(&self, name: &[u8]) -> Option<(Variable<'s>, u16)> {
        let (variable, address) = self.newest(name)?;
        match self.own_manifest(name) {
            Some(manifest) if manifest.leaf > variable.leaf => None,
            _ => Some((variable, address)),
        }
    }

    /// The address of the newest variable in scope with this name.
    pub fn address_of_local(&self, name: &[u8]) -> Option<u16> {
        let (_, address) = self.newest(name)?;
        Some(address)
    }

    /// Whether a name of this section counts: names of the call's own section come first.
    fn counts(&self, section: usize, is_own: bool) -> bool {
        !is_own || Some(section) == self.section()
    }

    /// What a name outside routines means.
    fn outside(&self, name: &[u8], is_own: bool) -> Option<Meaning> {
        for found in &self.names.statics {
            if found.name == name && self.counts(found.section, is_own) {
                return Some(Meaning::Cell(found.address));
            }
        }
        for found in &self.names.manifests {
            if found.name == name && found.is_outer() && self.counts(found.section, is_own) {
                return Some(Meaning::Value(found.value));
            }
        }
        for found in &self.names.globals {
            if found.name == name && self.counts(found.section, is_own) {
                return Some(Meaning::Cell(GLOBALS.saturating_add(found.number)));
            }
        }
        for found in &self.names.routines {
            if found.name == name && self.counts(found.section, is_own) {
                return Some(Meaning::Value(found.address));
            }
        }
        None
    }

    /// The innermost manifest with this name that a block around the call's place declares.
    fn own_manifest(&self, name: &[u8]) -> Option<Manifest<'s>> {
        let place = self.names.place(self.frame?.site)?;
        for found in self.names.manifests.iter().rev() {
            if found.name == name
                && found.section == place.section
                && !found.is_outer()
                && found.is_known_at(place.leaf)
            {
                return Some(*found);
            }
        }
        None
    }

    /// What a name means.
    pub fn meaning(&self, name: &[u8]) -> Option<Meaning> {
        if let Some((_, address)) = self.local(name) {
            return Some(Meaning::Cell(address));
        }
        if let Some(manifest) = self.own_manifest(name) {
            return Some(Meaning::Value(manifest.value));
        }
        match self.outside(name, true) {
            Some(meaning) => Some(meaning),
            None => self.outside(name, false),
        }
    }

    /// The element at this address of a vector of this call.
    fn element_in(&self, frame: Frame, address: u16) -> Option<Element<'s>> {
        let routine = self
            .names
            .routines
            .get(self.names.routine_at(frame.routine)?)?;
        for variable in &routine.variables {
            let cell = cell_in(frame.base, variable.offset);
            let first = cell.wrapping_add(1);
            let index = u64::from(address.wrapping_sub(first));
            if let Some(count) = variable.cells.checked_sub(1)
                && index < count
                && self.cell(cell) == Cell::Set(first)
            {
                return Some(Element {
                    vector: variable.name,
                    routine: routine.name,
                    index,
                    rest: count - index,
                });
            }
        }
        None
    }

    /// The element at this address of a vector of one of the newest calls.
    pub fn element_at(&self, address: u16) -> Option<Element<'s>> {
        let frames = self.moment.frames.as_slice();
        for number in 1..=MOST_CALLS {
            let frame = frames.get(frames.len().checked_sub(number)?)?;
            if let Some(element) = self.element_in(*frame, address) {
                return Some(element);
            }
        }
        None
    }

    /// The cell at this address.
    pub fn cell(&self, address: u16) -> Cell {
        self.moment.cell(address)
    }
}
