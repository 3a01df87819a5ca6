//! The manifests of a program.

use crate::evaluate::constant_value;
use bc_parse::parse;
use bc_parse_tree::{Constant, Section, Storage};
use bc_word::Memory;
use bcpl_places::{PartVisit, TreePart, visits_of};
use bcpl_wild::ReadMain;
use std::alloc::Global;

/// A manifest.
#[derive(Clone, Copy)]
pub struct Manifest<'s> {
    /// Its name.
    pub name: &'s [u8],
    /// Its value.
    pub value: u16,
    /// The index of its section.
    pub section: usize,
    /// The leaf of its name.
    pub leaf: u64,
    /// The leaf after the end of the block that declares it. `u64::MAX` before the end is known, and outside routines.
    pub end: u64,
}

impl Manifest<'_> {
    /// Whether it is declared outside routines.
    pub fn is_outer(&self) -> bool {
        self.end == u64::MAX
    }

    /// Whether it is in scope at a leaf of its section.
    pub fn is_known_at(&self, leaf: u64) -> bool {
        self.leaf <= leaf && leaf < self.end
    }
}

/// The manifests up to here, and where the visits are.
#[derive(Drop)]
struct ManifestList<'s> {
    /// The manifests, in the order of the text.
    manifests: Vec<Manifest<'s>>,
    /// The index of the section.
    section: usize,
    /// Whether an allocation failed. Then the rest is void.
    is_refused: bool,
}

impl<'s> ManifestList<'s> {
    /// Adds a manifest whose name is at a leaf. A value that can't be computed here is left out.
    fn add(&mut self, constant: &Constant<'s>, leaf: u64) {
        let section = self.section;
        let known = self.manifests.as_slice();
        let Some(value) = constant_value(known, section, &constant.value) else {
            return;
        };
        let manifest = Manifest {
            name: constant.name,
            value,
            section,
            leaf,
            end: u64::MAX,
        };
        if self.manifests.push(manifest).is_err() {
            self.is_refused = true;
        }
    }

    /// Ends the scopes that began in a block.
    fn leave(&mut self, first: u64, end: u64) {
        for manifest in self.manifests.iter_mut() {
            let is_inside = manifest.section == self.section && manifest.leaf >= first;
            if is_inside && manifest.is_outer() {
                manifest.end = end;
            }
        }
    }

    /// The beginning or the end of a part.
    fn visit(&mut self, visit: PartVisit<'_, 's>) {
        match visit.part {
            TreePart::Constant(Storage::Manifest, constant) if !visit.is_end => {
                self.add(constant, visit.leaves as u64);
            }
            TreePart::Block if visit.is_end => {
                self.leave(visit.first as u64, visit.leaves as u64);
            }
            _ => {}
        }
    }

    /// A section.
    fn section(&mut self, alloc: Global, tree: &Section<'s>) -> Result<(), Memory> {
        let visits = visits_of(alloc, tree)?;
        for visit in &visits {
            self.visit(*visit);
        }
        Ok(())
    }
}

/// The manifests of all mains, in the order of the text.
pub(crate) fn manifests_of<'s>(
    alloc: Global,
    reads: &[ReadMain<'s>],
) -> Result<Vec<Manifest<'s>>, Memory> {
    let mut list = ManifestList {
        manifests: Vec::new(alloc),
        section: 0,
        is_refused: false,
    };
    for read in reads {
        if let Ok(tree) = parse(alloc, read.tokens.as_slice()) {
            list.section(alloc, &tree)?;
        }
        list.section = list.section.saturating_add(1);
    }
    if list.is_refused {
        return Err(Memory);
    }
    Ok(list.manifests)
}
