//! One map of renamed names for all files of a project: names with underlines that would otherwise become the same, or get
//! different numbers in different files.

use crate::files::OldFile;
use crate::texts::Tokens;
use bc_convert::OldNames;
use bc_word::Memory;
use indexmap::IndexMap;
use std::alloc::Global;

/// A name that is renamed in all files alike.
#[derive(Drop)]
pub struct Renamed {
    pub old: Vec<u8>,
    pub new: Vec<u8>,
}

/// The names of a project, in the order of their first places, each once.
#[derive(Drop)]
struct AllNames {
    names: Vec<Vec<u8>>,
    /// How many of them become each spelling with dots.
    spellings: IndexMap<Vec<u8>, usize>,
}

/// A name with dots for its underlines.
fn dotted(alloc: Global, name: &[u8]) -> Result<Vec<u8>, Memory> {
    let mut text = Vec::new(alloc);
    for byte in name {
        text.push(if *byte == b'_' { b'.' } else { *byte })?;
    }
    Ok(text)
}

/// Adds the names of a text. `known` has those that were added.
fn add_names(
    alloc: Global,
    all: &mut AllNames,
    known: &mut IndexMap<Vec<u8>, usize>,
    text: &[u8],
) -> Result<(), Memory> {
    let tokens = Tokens::of(alloc, text)?;
    for index in 0..tokens.count() {
        let bytes = tokens.bytes(index);
        let is_name = bytes
            .first()
            .is_some_and(|first| first.is_ascii_alphabetic());
        if !is_name || known.get(bytes).is_some() {
            continue;
        }
        known.insert(Vec::from_slice(alloc, bytes)?, 0)?;
        all.names.push(Vec::from_slice(alloc, bytes)?)?;
        let spelling = dotted(alloc, bytes)?;
        let count = all.spellings.get(&spelling).copied().unwrap_or(0);
        all.spellings.insert(spelling, count.saturating_add(1))?;
    }
    Ok(())
}

/// The names of all files.
fn all_names(alloc: Global, files: &[OldFile]) -> Result<AllNames, Memory> {
    let mut all = AllNames {
        names: Vec::new(alloc),
        spellings: IndexMap::new(alloc),
    };
    let mut known = IndexMap::new(alloc);
    for file in files {
        add_names(alloc, &mut all, &mut known, file.text.as_slice())?;
    }
    Ok(all)
}

/// A spelling with the first number from 2 on with which no name of the project is spelled so.
fn numbered(
    alloc: Global,
    spellings: &IndexMap<Vec<u8>, usize>,
    spelling: &[u8],
) -> Result<Vec<u8>, Memory> {
    for number in 2..spellings.len().saturating_add(3) {
        let mut name = Vec::from_slice(alloc, spelling)?;
        let digits = format!(in alloc; "{number}")?;
        name.extend_from_slice(digits.as_str().as_bytes())?;
        if spellings.get(&name).is_none() {
            return Ok(name);
        }
    }
    Ok(Vec::from_slice(alloc, spelling)?)
}

/// The spellings of a project.
#[derive(Drop)]
struct Spellings {
    /// How many names become each spelling with dots.
    counts: IndexMap<Vec<u8>, usize>,
    /// Those that a name has.
    taken: IndexMap<Vec<u8>, usize>,
}

impl Spellings {
    /// Adds a spelling that a name has.
    fn add_taken(&mut self, alloc: Global, spelling: &[u8]) -> Result<(), Memory> {
        self.taken.insert(Vec::from_slice(alloc, spelling)?, 0)?;
        Ok(())
    }

    /// Takes a spelling, with a number if a name has it. Returns it.
    fn take(&mut self, alloc: Global, spelling: Vec<u8>) -> Result<Vec<u8>, Memory> {
        let new = if self.taken.get(&spelling).is_some() {
            numbered(alloc, &self.counts, spelling.as_slice())?
        } else {
            spelling
        };
        self.add_taken(alloc, new.as_slice())?;
        if self.counts.get(&new).is_none() {
            self.counts
                .insert(Vec::from_slice(alloc, new.as_slice())?, 1)?;
        }
        Ok(new)
    }
}

/// The new name of a name, if it needs one.
fn new_name(
    alloc: Global,
    spellings: &mut Spellings,
    name: &[u8],
) -> Result<Option<Vec<u8>>, Memory> {
    let spelling = dotted(alloc, name)?;
    let count = spellings.counts.get(&spelling).copied().unwrap_or(0);
    if count < 2 || !name.contains(&b'_') {
        return Ok(None);
    }
    Ok(Some(spellings.take(alloc, spelling)?))
}

/// The new names of those that would become the same: the one without underlines keeps its spelling, or else the first one gets it
/// with dots; the others get numbers.
///
/// # Errors
///
/// `Memory` if an allocation failed.
pub fn shared_names(alloc: Global, files: &[OldFile]) -> Result<Vec<Renamed>, Memory> {
    let AllNames {
        names,
        spellings: counts,
    } = all_names(alloc, files)?;
    let mut spellings = Spellings {
        counts,
        taken: IndexMap::new(alloc),
    };
    for name in &names {
        if !name.as_slice().contains(&b'_') {
            spellings.add_taken(alloc, name.as_slice())?;
        }
    }
    let mut shared = Vec::new(alloc);
    for name in &names {
        if let Some(new) = new_name(alloc, &mut spellings, name.as_slice())? {
            shared.push(Renamed {
                old: Vec::from_slice(alloc, name.as_slice())?,
                new,
            })?;
        }
    }
    Ok(shared)
}

/// Adds these names to a list of names of an old library, except for those that it has.
///
/// # Errors
///
/// `Memory` if an allocation failed.
pub fn add_shared<'o>(list: &mut OldNames<'o>, shared: &'o [Renamed]) -> Result<(), Memory> {
    for renamed in shared {
        let old = renamed.old.as_slice();
        if list.renamed(old).is_none() {
            list.add_exact(old, renamed.new.as_slice())?;
        }
    }
    Ok(())
}
