//! Conversions in rounds. A source that is so broken that its conversion doesn't build may show more once it is converted: a name beside
//! a bracket that was put in, for example. So each result is converted as a second command would do it, until that changes nothing.

use crate::lawful::{Given, lawful_files};
use bc_convert::{
    Conversion, Header, Lawful, OldNames, Options, Program, Replacement, SharedNames, System,
    compiled_text, convert,
};
use bc_word::Memory;
use bcpl_cli::{ConvertDialect, ConvertHeader, ConvertOrder};
use std::alloc::Global;
use std::rt::Files;

/// The greatest number of rounds after the first one. No broken source was found that needs more than two: one that changes
/// something, and one that changes nothing.
pub const MOST_ROUNDS: usize = 8;

/// How the sources are read in a round.
#[derive(Clone, Copy)]
pub struct Round<'d> {
    /// The library's header that they get.
    pub header: Option<Header>,
    /// The system for which they were written.
    pub system: Option<System>,
    /// The tags of conditional compilation that are set.
    pub defines: &'d [&'d str],
}

/// The system for which the sources were written.
fn system_of(dialect: ConvertDialect) -> Option<System> {
    match dialect {
        ConvertDialect::Shown => None,
        ConvertDialect::Of1967 => Some(System::Of1967),
        ConvertDialect::Of1979 => Some(System::Of1979),
        ConvertDialect::Alto => Some(System::Alto),
    }
}

/// The library's header that sources get.
fn header_of(header: ConvertHeader) -> Option<Header> {
    match header {
        ConvertHeader::Basic => Some(Header::Basic),
        ConvertHeader::Further => Some(Header::Further),
        ConvertHeader::Needed => None,
    }
}

impl<'d> Round<'d> {
    /// The first round, as the command says.
    pub fn first(order: &'d ConvertOrder<'_>) -> Round<'d> {
        Round {
            header: header_of(order.header),
            system: system_of(order.dialect),
            defines: order.defines.as_slice(),
        }
    }

    /// The round after this one. Its sources have the signs of this dialect, in which `*(` may still be a product, and no tags.
    pub fn next(self) -> Round<'d> {
        Round {
            header: self.header,
            system: match self.system {
                Some(System::Of1979) => Some(System::Of1979),
                Some(System::Of1967 | System::Alto) | None => None,
            },
            defines: &[],
        }
    }

    /// Whether the round after this one is like it, and so changes nothing if this one doesn't.
    pub fn is_like_next(self) -> bool {
        self.defines.is_empty() && matches!(self.system, Some(System::Of1979) | None)
    }
}

/// What the sources of a program show together.
pub struct Shown {
    /// `None` if there is no source.
    program: Option<Program>,
    /// The names that they share: none if there is only one source.
    shared: SharedNames,
}

impl Drop for Shown {
    fn drop(self) {
        let Shown {
            program: _,
            shared: _,
        } = self;
    }
}

/// What sources show together.
fn program_of(
    alloc: Global,
    texts: &[Vec<u8>],
    library: &OldNames<'_>,
) -> Result<Option<Program>, Memory> {
    let mut whole: Option<Program> = None;
    for text in texts {
        let program = Program::of(alloc, text.as_slice(), library)?;
        whole = Some(match whole {
            Some(whole) => whole.with(program),
            None => program,
        });
    }
    Ok(whole)
}

/// The names that sources share.
fn shared_by(alloc: Global, texts: &[Vec<u8>]) -> Result<SharedNames, Memory> {
    let mut shared = SharedNames::new(alloc);
    if texts.len() < 2 {
        return Ok(shared);
    }
    for text in texts {
        shared.add(alloc, text.as_slice())?;
    }
    Ok(shared)
}

impl Shown {
    /// What sources with these texts show, from which the parts that conditional compilation leaves out are removed.
    ///
    /// # Errors
    ///
    /// `Memory` if an allocation failed.
    pub fn by(
        alloc: Global,
        compiled: &[Vec<u8>],
        library: &OldNames<'_>,
    ) -> Result<Shown, Memory> {
        Ok(Shown {
            program: program_of(alloc, compiled, library)?,
            shared: shared_by(alloc, compiled)?,
        })
    }

    /// How sources that show this are converted in a round, of which none is known to build as it is.
    pub fn options<'o, 'd>(
        &'o self,
        round: Round<'d>,
        library: &'o OldNames<'o>,
    ) -> Options<'o, 'd> {
        Options {
            library,
            header: round.header,
            program: self.program,
            lawful: Lawful::No,
            system: round.system,
            shared: Some(&self.shared),
            defines: round.defines,
        }
    }
}

/// These texts without the parts that conditional compilation leaves out.
///
/// # Errors
///
/// `Memory` if an allocation failed.
pub fn compiled_texts(
    alloc: Global,
    defines: &[&str],
    texts: &[Vec<u8>],
) -> Result<Vec<Vec<u8>>, Memory> {
    let mut compiled = Vec::new(alloc);
    for text in texts {
        compiled.push(compiled_text(alloc, text.as_slice(), defines)?)?;
    }
    Ok(compiled)
}

/// For each of some files whether it builds as it is. None does where the system is named.
///
/// # Errors
///
/// `Memory` if an allocation failed.
pub fn lawful_in<F: Files>(
    rt: &F,
    alloc: Global,
    given: Given<'_, '_>,
    round: Round<'_>,
) -> Result<Vec<Lawful>, Memory> {
    if round.system.is_none() {
        return lawful_files(rt, alloc, given, round.header.is_some());
    }
    let mut lawful = Vec::new(alloc);
    for _ in given.texts {
        lawful.push(Lawful::No)?;
    }
    Ok(lawful)
}

/// Whether a source may be changed by a conversion.
fn may_change(lawful: Lawful) -> bool {
    match lawful {
        Lawful::No | Lawful::Header => true,
        Lawful::Whole | Lawful::Unseen => false,
    }
}

/// Whether any of these sources may be changed by a conversion.
pub fn may_change_any(lawful: &[Lawful]) -> bool {
    lawful.iter().any(|one| may_change(*one))
}

/// A source that was converted in rounds.
#[derive(Drop)]
pub struct Converted {
    /// The complaints of the first round, the replacements of the first one that changed something, and the text of the last one.
    pub conversion: Conversion,
    /// The replacements of each later round that changed something.
    pub later: Vec<Vec<Replacement>>,
}

impl Converted {
    /// Its text.
    pub fn text(&self) -> &[u8] {
        self.conversion.text.as_slice()
    }

    /// Converts the text once more. Returns whether that changes it.
    fn again(&mut self, alloc: Global, options: Options<'_, '_>) -> Result<bool, Memory> {
        let conversion = convert(alloc, self.conversion.text.as_slice(), options)?;
        let Conversion {
            text,
            replacements,
            ..
        } = conversion;
        if replacements.is_empty() {
            return Ok(false);
        }
        self.conversion.text = text;
        if self.conversion.replacements.is_empty() {
            self.conversion.replacements = replacements;
        } else {
            self.later.push(replacements)?;
        }
        Ok(true)
    }
}

/// The first round.
///
/// # Errors
///
/// `Memory` if an allocation failed.
pub fn first_round(
    alloc: Global,
    texts: &[Vec<u8>],
    lawful: &[Lawful],
    options: Options<'_, '_>,
) -> Result<Vec<Converted>, Memory> {
    let mut converted = Vec::new(alloc);
    for (text, lawful) in texts.iter().zip(lawful) {
        let options = Options {
            lawful: *lawful,
            ..options
        };
        let conversion = convert(alloc, text.as_slice(), options)?;
        converted.push(Converted {
            conversion,
            later: Vec::new(alloc),
        })?;
    }
    Ok(converted)
}

/// A further round. Returns whether it changes a text.
///
/// # Errors
///
/// `Memory` if an allocation failed.
pub fn further_round(
    alloc: Global,
    converted: &mut [Converted],
    lawful: &[Lawful],
    options: Options<'_, '_>,
) -> Result<bool, Memory> {
    let mut is_changed = false;
    for (one, lawful) in converted.iter_mut().zip(lawful) {
        let options = Options {
            lawful: *lawful,
            ..options
        };
        if may_change(*lawful) && one.again(alloc, options)? {
            is_changed = true;
        }
    }
    Ok(is_changed)
}

/// Whether the round after a first one may change something.
pub fn needs_another_round(first: Round<'_>, converted: &[Converted]) -> bool {
    !first.is_like_next()
        || converted
            .iter()
            .any(|one| !one.conversion.replacements.is_empty())
}

/// The texts up to here.
///
/// # Errors
///
/// `Memory` if an allocation failed.
pub fn texts_up_to_here(alloc: Global, converted: &[Converted]) -> Result<Vec<Vec<u8>>, Memory> {
    let mut texts = Vec::new(alloc);
    for one in converted {
        texts.push(Vec::from_slice(alloc, one.text())?)?;
    }
    Ok(texts)
}
