//! What the sources of a program show together: the dialect, and the library's header that they need.

use crate::dialect::Dialect;
use crate::formats::{Format, bit_at, format_at, gets_header, is_further_string};
use crate::kind::Kind;
use crate::names::{declares, declares_routine, is_called, is_declared, is_entry, is_for};
use crate::old_names::OldNames;
use crate::options::{Header, System};
use crate::own_globals::OwnGlobals;
use crate::pools::body_of_start;
use crate::reading::Reading;
use crate::sized_vectors::takes_vector;
use crate::source::TokenizedText;
use bc_word::Memory;
use std::alloc::Global;

/// What the sources of a program show together about their dialect and library.
#[derive(Clone, Copy)]
pub struct Program {
    /// The dialect. Only the case of the library's names is the same in all sources.
    pub dialect: Dialect,
    /// A source gets EXTHDR, or has a call that only EXTHDR's WRITEF supports.
    needs_further: bool,
    /// WRITEF is called with a format that isn't a string.
    hides_format: bool,
    /// There is a string that would need EXTHDR if it is a format.
    has_further_string: bool,
    /// In a source something is assigned to a subscript with a star.
    pub has_stars: bool,
    /// A source gets the library's header.
    pub gets_library: bool,
    /// No source gets a header other than the library's.
    gets_library_alone: bool,
    /// The program has more than one source.
    has_several: bool,
    /// A source mentions INITVEC, or declares GETVEC as a routine.
    pub makes_pool: bool,
    /// A source calls GETVEC, or will.
    calls_pool: bool,
    /// A source declares START with a block as its body.
    has_start: bool,
    /// The numbers of the program's own globals.
    own: OwnGlobals,
    /// The names that only EXTHDR has, as bits: those that a source uses without declaring them, and those that a
    /// source declares by GLOBAL, MANIFEST or STATIC.
    used: u64,
    declared: u64,
}

/// Whether the name at an index is INITVEC, or GETVEC declared by the source as a routine.
fn makes_pool(source: TokenizedText<'_>, index: usize, library: &OldNames<'_>) -> bool {
    let word = source.bytes(index);
    is_for(word, library, b"INITVEC")
        || is_for(word, library, b"GETVEC") && declares_routine(source, index)
}

impl Program {
    /// What a source with this text shows. `library` renames names of an old library.
    ///
    /// # Errors
    ///
    /// `Memory` if an allocation failed.
    pub fn of(alloc: Global, text: &[u8], library: &OldNames<'_>) -> Result<Program, Memory> {
        let reading = Reading::new(alloc, text, None, None)?;
        Ok(Program::shown(reading.source(text), reading.dialect, library))
    }

    /// What a classified source shows.
    pub fn shown(source: TokenizedText<'_>, dialect: Dialect, library: &OldNames<'_>) -> Program {
        let mut program = Program {
            dialect,
            needs_further: false,
            hides_format: false,
            has_further_string: false,
            has_stars: dialect.has_star_subscripts,
            gets_library: false,
            gets_library_alone: source.names.gets_library_alone,
            has_several: false,
            makes_pool: false,
            calls_pool: false,
            has_start: false,
            own: OwnGlobals::of(source),
            used: 0,
            declared: 0,
        };
        for index in 0..source.tokens.len() {
            match source.kind(index) {
                Kind::Name => program.note_name(source, index, library),
                Kind::Text => program.note_string(source, index),
                _ => {}
            }
        }
        program
    }

    /// Takes the name at an index into account.
    fn note_name(&mut self, source: TokenizedText<'_>, index: usize, library: &OldNames<'_>) {
        match format_at(source, index, library) {
            Some(Format::Further) => self.needs_further = true,
            Some(Format::Hidden) => self.hides_format = true,
            Some(Format::Plain) | None => {}
        }
        if makes_pool(source, index, library) {
            self.makes_pool = true;
        }
        if is_called(source, index) && is_for(source.bytes(index), library, b"GETVEC") {
            self.calls_pool = true;
        }
        if body_of_start(source, index, library).is_some() {
            self.has_start = true;
        }
        if takes_vector(source, index) {
            self.calls_pool = true;
            self.needs_further = true;
        }
        let bit = bit_at(source, index, library);
        if bit == 0 {
            return;
        }
        if declares(source, index) && is_entry(source, index) {
            self.declared |= bit;
        } else if !is_declared(source, index) {
            self.used |= bit;
        }
    }

    /// Takes the string at an index into account.
    fn note_string(&mut self, source: TokenizedText<'_>, index: usize) {
        if source.bytes(index) == b"\"EXTHDR\"".as_slice() {
            self.needs_further = true;
        }
        if gets_header(source, index) {
            self.gets_library = true;
        }
        if is_further_string(source, index) {
            self.has_further_string = true;
        }
    }

    /// What two sets of sources show together.
    pub fn with(self, other: Program) -> Program {
        Program {
            dialect: self.dialect.among(other.dialect),
            needs_further: self.needs_further || other.needs_further,
            hides_format: self.hides_format || other.hides_format,
            has_further_string: self.has_further_string || other.has_further_string,
            has_stars: self.has_stars || other.has_stars,
            gets_library: self.gets_library || other.gets_library,
            gets_library_alone: self.gets_library_alone && other.gets_library_alone,
            has_several: true,
            makes_pool: self.makes_pool || other.makes_pool,
            calls_pool: self.calls_pool || other.calls_pool,
            has_start: self.has_start || other.has_start,
            own: self.own.with(other.own),
            used: self.used | other.used,
            declared: self.declared | other.declared,
        }
    }

    /// What the program shows to one of its sources, whose own dialect is `dialect`.
    pub fn seen_from(self, dialect: Dialect) -> Program {
        Program {
            dialect: dialect.among(self.dialect),
            ..self
        }
    }

    /// What the program shows if its sources were written for this system.
    pub fn written_for(self, system: System) -> Program {
        let (has_star_subscripts, has_stars) = match system {
            System::Of1967 => (true, true),
            System::Of1979 => (false, false),
            System::Alto => (self.dialect.has_star_subscripts, self.has_stars),
        };
        Program {
            dialect: Dialect {
                has_star_subscripts,
                has_alto_signs: system == System::Alto,
                ..self.dialect
            },
            has_stars,
            ..self
        }
    }

    /// Whether the sources get EXTHDR, if this header was chosen for them.
    fn gets_further(self, chosen: Option<Header>) -> bool {
        self.gets_library && matches!(chosen.unwrap_or(self.header()), Header::Further)
    }

    /// Whether START must set up a pool for GETVEC, and can, if this header was chosen for the sources.
    pub fn wants_pool(self, chosen: Option<Header>) -> bool {
        self.calls_pool && !self.makes_pool && self.has_start && self.gets_further(chosen)
    }

    /// The numbers of the program's own globals, if some of them are EXTLIB's and the sources get EXTHDR. This header was chosen
    /// for them.
    pub fn moved_globals(self, chosen: Option<Header>) -> Option<OwnGlobals> {
        if self.own.clashes() && self.gets_further(chosen) {
            Some(self.own)
        } else {
            None
        }
    }

    /// Whether a name is used that only EXTHDR has. A single source may have it from its own header; the headers of
    /// several sources are among them.
    fn needs_name(self) -> bool {
        (self.gets_library_alone || self.has_several) && self.used & !self.declared != 0
    }

    /// The header that the sources get. It is EXTHDR if something needs it, or if a format that isn't a string may be
    /// a string that needs it.
    pub fn header(self) -> Header {
        if self.needs_further || self.needs_name() || self.hides_format && self.has_further_string {
            Header::Further
        } else {
            Header::Basic
        }
    }
}
