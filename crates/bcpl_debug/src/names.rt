//! The names of a program: its routines with their variables, globals, statics, and constant data.

use crate::manifests::{Manifest, manifests_of};
use crate::places::{SitePlace, places_of, read_all};
use crate::program::DebugProgram;
use bc_core::{Core, Place};
use bc_interpret::{after_first, all_addresses};
use bc_interpret_record::StopSite;
use bc_word::Memory;
use bcpl_places::Span;
use bcpl_wild::ReadMain;
use std::alloc::Global as Alloc;

/// A variable or parameter of a routine.
#[derive(Clone, Copy)]
pub struct Variable<'s> {
    /// Its name.
    pub name: &'s [u8],
    /// Its offset in the frame.
    pub offset: u64,
    /// The number of its cells: 1, and for a vector 1 more than its elements.
    pub cells: u64,
    /// Whether it is a parameter.
    pub is_parameter: bool,
    /// Where it is declared.
    pub span: Option<Span>,
    /// The leaf of its name.
    pub leaf: u64,
    /// The index of the first root in its scope.
    pub from: usize,
    /// The index after the last root in its scope.
    pub to: usize,
}

/// A routine.
#[derive(Drop)]
pub struct Routine<'s> {
    /// Its name.
    pub name: &'s [u8],
    /// The index of its section.
    pub section: usize,
    /// Its address.
    pub address: u16,
    /// Where it is declared.
    pub span: Option<Span>,
    /// The global that it sets.
    pub global: Option<u16>,
    /// Its parameters and variables, in the order of their declarations.
    pub variables: Vec<Variable<'s>>,
}

/// A name of a global.
#[derive(Clone, Copy)]
pub struct GlobalName<'s> {
    /// Its number.
    pub number: u16,
    /// Its name.
    pub name: &'s [u8],
    /// Where it is declared.
    pub span: Option<Span>,
    /// The index of the section that declares it.
    pub section: usize,
}

impl GlobalName<'_> {
    /// Whether the program's own sources declare it.
    pub fn is_own(&self, program: &DebugProgram<'_, '_>) -> bool {
        let is_in_library = match self.span {
            Some(span) => span.file < program.library,
            None => true,
        };
        !is_in_library && !program.is_library(self.section)
    }
}

/// A static.
#[derive(Clone, Copy)]
pub struct StaticName<'s> {
    /// Its name.
    pub name: &'s [u8],
    /// Its address.
    pub address: u16,
    /// Where it is declared.
    pub span: Option<Span>,
    /// The index of its section.
    pub section: usize,
}

/// A string or a table.
#[derive(Clone, Copy)]
pub struct Datum {
    /// Whether it is a string.
    pub is_string: bool,
    /// Its address.
    pub address: u16,
    /// The number of its words.
    pub cells: usize,
    /// Where it is written.
    pub span: Option<Span>,
}

/// The names of a program, and the places of its stops.
#[derive(Drop)]
pub struct Names<'s> {
    /// The places of the sites, by their numbers.
    pub places: Vec<SitePlace>,
    /// The routines.
    pub routines: Vec<Routine<'s>>,
    /// The names of globals.
    pub globals: Vec<GlobalName<'s>>,
    /// The statics.
    pub statics: Vec<StaticName<'s>>,
    /// The strings and tables.
    pub data: Vec<Datum>,
    /// The manifests, in the order of the text.
    pub manifests: Vec<Manifest<'s>>,
}

/// What a label of a section names.
#[derive(Clone, Copy)]
struct NamedLabel<'s> {
    name: &'s [u8],
    address: u16,
    span: Option<Span>,
}

/// A section, for gathering its names.
#[derive(Clone, Copy)]
struct Gathering<'g, 's> {
    program: &'g DebugProgram<'g, 's>,
    read: &'g ReadMain<'s>,
    core: &'g Core,
    addresses: &'g [u16],
    section: usize,
}

impl<'s> Gathering<'_, 's> {
    /// The span of a leaf.
    fn span(&self, leaf: u64) -> Option<Span> {
        let program = self.program;
        let sources = program.named.sources;
        self.read.span(sources, leaf)
    }

    /// The text of a leaf; empty if there is none.
    fn text(&self, leaf: u64) -> &'s [u8] {
        self.read.text(leaf).unwrap_or(b"")
    }

    /// The address of a label; 0 if there is none.
    fn address(&self, label: u64) -> u16 {
        self.addresses.get(label as usize).copied().unwrap_or(0)
    }

    /// What a label names, if its name is known.
    fn named_label(&self, label: u64) -> Option<NamedLabel<'s>> {
        let leaf = self.read.sites.label(label)?;
        Some(NamedLabel {
            name: self.text(leaf),
            address: self.address(label),
            span: self.span(leaf),
        })
    }

    /// The variables of the routine with this label and this number of parameters.
    fn variables(
        &self,
        alloc: Alloc,
        label: u64,
        parameters: u16,
    ) -> Result<Vec<Variable<'s>>, Memory> {
        let mut variables = Vec::new(alloc);
        let above = u64::from(parameters).saturating_add(2);
        for site in &self.read.sites.variables {
            if site.routine == label {
                variables.push(Variable {
                    name: self.text(site.leaf),
                    offset: site.offset,
                    cells: site.cells,
                    is_parameter: site.offset < above,
                    span: self.span(site.leaf),
                    leaf: site.leaf,
                    from: site.from,
                    to: site.to,
                })?;
            }
        }
        Ok(variables)
    }
}

impl<'s> Names<'s> {
    /// No names.
    fn none(alloc: Alloc) -> Names<'s> {
        Names {
            places: Vec::new(alloc),
            routines: Vec::new(alloc),
            globals: Vec::new(alloc),
            statics: Vec::new(alloc),
            data: Vec::new(alloc),
            manifests: Vec::new(alloc),
        }
    }

    /// Adds a string or a table of this number of words.
    fn add_datum(
        &mut self,
        is_string: bool,
        cells: usize,
        at: NamedLabel<'s>,
    ) -> Result<(), Memory> {
        let NamedLabel { address, span, .. } = at;
        Ok(
            self.data.push(Datum {
                is_string,
                address,
                cells,
                span,
            })?,
        )
    }

    /// Adds a static.
    fn add_static(&mut self, section: usize, at: NamedLabel<'s>) -> Result<(), Memory> {
        let NamedLabel {
            name,
            address,
            span,
        } = at;
        Ok(
            self.statics.push(StaticName {
                name,
                address,
                span,
                section,
            })?,
        )
    }

    /// Adds a routine with these variables.
    fn add_routine(
        &mut self,
        section: usize,
        at: NamedLabel<'s>,
        global: Option<u16>,
        variables: Vec<Variable<'s>>,
    ) -> Result<(), Memory> {
        let NamedLabel {
            name,
            address,
            span,
        } = at;
        Ok(
            self.routines.push(Routine {
                name,
                section,
                address,
                span,
                global,
                variables,
            })?,
        )
    }

    /// Adds the place with this label.
    fn add_place(
        &mut self,
        alloc: Alloc,
        from: &Gathering<'_, 's>,
        label: u64,
        place: &Place,
    ) -> Result<(), Memory> {
        let Some(at) = from.named_label(label) else {
            return Ok(());
        };
        match place {
            Place::Routine(routine) => {
                let variables = from.variables(alloc, label, routine.parameters)?;
                self.add_routine(from.section, at, routine.global, variables)
            }
            Place::Static(_) => self.add_static(from.section, at),
            Place::Table(words) => self.add_datum(false, words.len(), at),
            Place::Text(bytes) => self.add_datum(true, (bytes.len() / 2).saturating_add(1), at),
        }
    }

    /// Adds the names of globals of a section.
    fn add_globals(&mut self, from: &Gathering<'_, 's>) -> Result<(), Memory> {
        for site in &from.read.sites.globals {
            self.globals.push(GlobalName {
                number: site.number,
                name: from.text(site.leaf),
                span: from.span(site.leaf),
                section: from.section,
            })?;
        }
        Ok(())
    }

    /// Adds the names of a section.
    fn add_section(&mut self, alloc: Alloc, from: &Gathering<'_, 's>) -> Result<(), Memory> {
        let mut label = 1u64;
        for place in from.core.places() {
            self.add_place(alloc, from, label, place)?;
            label = label.saturating_add(1);
        }
        self.add_globals(from)
    }

    /// Adds the names of all sections. `reads` has their mains.
    fn add_sections(
        &mut self,
        alloc: Alloc,
        program: &DebugProgram<'_, 's>,
        reads: &[ReadMain<'s>],
    ) -> Result<(), Memory> {
        let addresses = all_addresses(alloc, after_first(program.image.places.as_slice()))?;
        for (section, read) in reads.iter().enumerate() {
            if let Some(core) = program.cores.get(section)
                && let Some(labels) = addresses.get(section)
            {
                let from = Gathering {
                    program: &*program,
                    read,
                    core,
                    addresses: labels.as_slice(),
                    section,
                };
                self.add_section(alloc, &from)?;
            }
        }
        Ok(())
    }

    /// The names of a program with these mains, and the places of these sites.
    fn of_mains(
        alloc: Alloc,
        program: &DebugProgram<'_, 's>,
        reads: &[ReadMain<'s>],
        sites: &[StopSite],
    ) -> Result<Names<'s>, Memory> {
        let mut names = Names::none(alloc);
        names.add_sections(alloc, program, reads)?;
        names.manifests = manifests_of(alloc, reads)?;
        names.places = places_of(alloc, reads, sites)?;
        Ok(names)
    }

    /// The names of a program, and the places of these sites. `Memory` if an allocation fails.
    pub fn new(
        alloc: Alloc,
        program: &DebugProgram<'_, 's>,
        sites: &[StopSite],
    ) -> Result<Names<'s>, Memory> {
        match read_all(alloc, program)? {
            Some(reads) => Names::of_mains(alloc, program, reads.as_slice(), sites),
            None => Ok(Names::none(alloc)),
        }
    }

    /// The index of the routine at this address.
    pub fn routine_at(&self, address: u16) -> Option<usize> {
        self.routines
            .iter()
            .position(|routine| routine.address == address)
    }

    /// The place of a site.
    pub fn place(&self, site: u32) -> Option<SitePlace> {
        self.places.get(site as usize).copied()
    }
}
