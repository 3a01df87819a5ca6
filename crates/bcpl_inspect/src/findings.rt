//! What `build` says of a document that an editor has open: errors, or warnings.

use bc_build::{BuildError, Built, ParseError, Parsed, ScopeFault, build_keeping};
use bc_lex::{LexError, Token};
use bc_word::Memory;
use bcpl_advice::{
    FurtherFault, advised, faults_after_lexical, further_faults, further_scope_faults, likely_among,
};
use bcpl_cli::BuildLine;
use bcpl_index::unknown_names;
use bcpl_lsp::{Cost, Document, Finding, Lines, Related, range_of, uri_of};
use bcpl_messages::{Message, Note, library_names, message_of, shown};
use bcpl_places::{Span, way_to};
use bcpl_show::{CostedSection, root_costs};
use bcpl_sources::{Gathered, Program, entries_of_segment};
use bcpl_warnings::all_warnings;
use serde_json::Value;
use std::alloc::Global;

/// At most this many errors of a document are shown.
const MOST: usize = 1000;

/// How a warning says that a global isn't set. It isn't shown: another file of the program may set the global, and only
/// this one is known here.
const UNSET: &str = "nothing in the program sets";

/// How the help on a GET goes on with an option that `lsp` doesn't have.
const GET_OPTION: &str = ", or --get ";

/// The document, and the program of the library and its source.
#[derive(Clone, Copy)]
struct Checked<'c, 'a, 's> {
    document: &'c Document,
    program: Program<'a, 's>,
    /// The index of the document among the sources.
    main: usize,
    /// The number of sources that belong to the library.
    library: usize,
}

impl<'s> Checked<'_, '_, 's> {
    /// The text of a source.
    fn text(&self, file: usize) -> &'s [u8] {
        match self.program.named.sources.get(file) {
            Some(source) => source.text,
            None => b"",
        }
    }

    /// The path of a source.
    fn path(&self, file: usize) -> &str {
        match self.program.named.paths.get(file) {
            Some(path) => path,
            None => "",
        }
    }

    /// The range of a stretch.
    fn range(&self, alloc: Global, span: Span) -> Result<Value, Memory> {
        if span.file == self.main {
            return self.document.range(alloc, span.start, span.end);
        }
        let text = self.text(span.file);
        let lines = Lines::of(alloc, text)?;
        range_of(alloc, text, &lines, (span.start, span.end))
    }

    /// The URI of a source.
    fn uri(&self, alloc: Global, file: usize) -> Result<String, Memory> {
        if file == self.main {
            Ok(String::from_str(alloc, self.document.uri.as_str())?)
        } else {
            uri_of(alloc, self.path(file))
        }
    }

    /// A related place.
    fn related(&self, alloc: Global, span: Span, sentence: &str) -> Result<Related, Memory> {
        Ok(Related {
            uri: self.uri(alloc, span.file)?,
            range: self.range(alloc, span)?,
            sentence: String::from_str(alloc, sentence)?,
        })
    }

    /// Adds the related places that are in files.
    fn add_notes(
        &self,
        alloc: Global,
        notes: &[Note],
        related: &mut Vec<Related>,
    ) -> Result<(), Memory> {
        for note in notes {
            if note.span.file >= self.library {
                related.push(self.related(alloc, note.span, note.sentence.as_str())?)?;
            }
        }
        Ok(())
    }

    /// The stretch of the document where a place is shown: that place, or the GET that leads to its file.
    fn place_here(&self, alloc: Global, span: Option<Span>) -> Result<(usize, usize), Memory> {
        let Some(span) = span else {
            return Ok((0, 0));
        };
        if span.file == self.main {
            return Ok((span.start, span.end));
        }
        let way = way_to(alloc, self.program.named.sources, self.main, span.file)?;
        Ok(match way.last() {
            Some(get) => (get.start, get.end),
            None => (0, 0),
        })
    }

    /// The related places of a message: its own, if that is in another file, and those of its notes.
    fn related_places(&self, alloc: Global, message: &Message) -> Result<Vec<Related>, Memory> {
        let mut related = Vec::new(alloc);
        if let Some(span) = message.span
            && span.file != self.main
            && span.file >= self.library
        {
            related.push(self.related(alloc, span, "it is here")?)?;
        }
        self.add_notes(alloc, message.notes.as_slice(), &mut related)?;
        Ok(related)
    }

    /// The finding of a message. `code` is empty for a warning.
    fn finding(&self, alloc: Global, code: &str, message: &Message) -> Result<Finding, Memory> {
        let place = self.place_here(alloc, message.span)?;
        let mut finding = placed_finding(alloc, place, code, message)?;
        finding.related = self.related_places(alloc, message)?;
        Ok(finding)
    }

    /// The finding on a further name that isn't declared. `known` has the library's names.
    fn unknown(
        &self,
        alloc: Global,
        code: &str,
        known: &[Token<'_>],
        span: Span,
    ) -> Result<Finding, Memory> {
        let text = self
            .text(span.file)
            .get(span.start..span.end)
            .unwrap_or(b"");
        let name = shown(alloc, text)?;
        let meaning = likely_among(alloc, known, text)?;
        let place = self.place_here(alloc, Some(span))?;
        unknown_finding(alloc, place, code, name.as_str(), meaning.as_str())
    }

    /// Adds the names that aren't declared, other than the first.
    fn add_unknown(
        &self,
        alloc: Global,
        code: &str,
        findings: &mut Vec<Finding>,
    ) -> Result<(), Memory> {
        let names = unknown_names(alloc, self.program.named.sources, self.main)?;
        let known = library_names(alloc, self.program.named.sources, self.main)?;
        let code = match code.rsplit_once(' ') {
            Some((code, _)) => code,
            None => code,
        };
        for span in names.iter().skip(1).take(MOST) {
            findings.push(self.unknown(alloc, code, known.as_slice(), *span)?)?;
        }
        Ok(())
    }

    /// The finding of a further fault.
    fn further(&self, alloc: Global, fault: &FurtherFault) -> Result<Finding, Memory> {
        let line = BuildLine(&fault.error);
        let code = format!(in alloc; "{line}")?;
        self.finding(alloc, code.as_str(), &fault.message)
    }

    /// Adds the further faults of a source that the parser refused.
    fn add_further(
        &self,
        alloc: Global,
        at: usize,
        findings: &mut Vec<Finding>,
    ) -> Result<(), Memory> {
        let sources = self.program.named.sources;
        for fault in &further_faults(alloc, sources, self.main, at, MOST)? {
            findings.push(self.further(alloc, fault)?)?;
        }
        Ok(())
    }

    /// Adds the further faults of a source that the lexer refused.
    fn add_lexical(
        &self,
        alloc: Global,
        fault: LexError,
        findings: &mut Vec<Finding>,
    ) -> Result<(), Memory> {
        let sources = self.program.named.sources;
        for further in &faults_after_lexical(alloc, sources, self.main, fault, MOST)? {
            findings.push(self.further(alloc, further)?)?;
        }
        Ok(())
    }

    /// Adds the further faults of a source whose scopes have one.
    fn add_scopes(
        &self,
        alloc: Global,
        fault: &ScopeFault,
        code: &str,
        findings: &mut Vec<Finding>,
    ) -> Result<(), Memory> {
        if let ScopeFault::Undeclared(_) = fault {
            self.add_unknown(alloc, code, findings)?;
        }
        for further in &further_scope_faults(alloc, self.program.named.sources, self.main, MOST)? {
            findings.push(self.further(alloc, further)?)?;
        }
        Ok(())
    }

    /// The finding of a refusal, of which this is the message.
    fn refusal(
        &self,
        alloc: Global,
        fault: &BuildError,
        code: &str,
        message: Message,
    ) -> Result<Finding, Memory> {
        let message = advised(alloc, self.program.named.sources, fault, message)?;
        self.finding(alloc, code, &message)
    }

    /// Adds the errors of a source after the one that was refused first.
    fn add_others(
        &self,
        alloc: Global,
        fault: &BuildError,
        code: &str,
        findings: &mut Vec<Finding>,
    ) -> Result<(), Memory> {
        match fault {
            BuildError::Lex(main, fault) if *main == self.main => {
                self.add_lexical(alloc, *fault, findings)
            }
            BuildError::Parse(main, ParseError::Expected(at)) if *main == self.main => {
                self.add_further(alloc, *at, findings)
            }
            BuildError::Scope(main, fault) if *main == self.main => {
                self.add_scopes(alloc, fault, code, findings)
            }
            _ => Ok(()),
        }
    }

    /// The errors of a source that was refused, of which this is the first message.
    fn errors_after(
        &self,
        alloc: Global,
        fault: &BuildError,
        message: Message,
    ) -> Result<Vec<Finding>, Memory> {
        let line = BuildLine(fault);
        let code = format!(in alloc; "{line}")?;
        let mut findings = Vec::new(alloc);
        findings.push(self.refusal(alloc, fault, code.as_str(), message)?)?;
        self.add_others(alloc, fault, code.as_str(), &mut findings)?;
        Ok(findings)
    }

    /// The errors of a source that was refused.
    fn errors(&self, alloc: Global, fault: &BuildError) -> Result<Vec<Finding>, Memory> {
        let sources = self.program.named.sources;
        match message_of(alloc, sources, self.program.mains, fault)? {
            Some(message) => self.errors_after(alloc, fault, message),
            None => Ok(Vec::new(alloc)),
        }
    }

    /// The warnings about a source that was accepted, one for each place. `parsed` is what the mains were parsed to.
    fn warnings(&self, alloc: Global, parsed: &[Parsed<'s>]) -> Result<Vec<Finding>, Memory> {
        let program = &self.program;
        let sources = program.named.sources;
        let mut findings = Vec::new(alloc);
        let mut last: Option<(usize, usize)> = None;
        for message in &all_warnings(alloc, sources, self.library, program.mains, parsed)? {
            if message.sentence.as_str().contains(UNSET) {
                continue;
            }
            let finding = self.finding(alloc, "", message)?;
            let place = (finding.start, finding.end);
            if last != Some(place) && findings.len() < MOST {
                findings.push(finding)?;
            }
            last = Some(place);
        }
        Ok(findings)
    }
}

/// The finding of a message at this place of the document, without related places. `code` is empty for a warning.
fn placed_finding(
    alloc: Global,
    place: (usize, usize),
    code: &str,
    message: &Message,
) -> Result<Finding, Memory> {
    let (start, end) = place;
    let sentence = message.sentence.as_str();
    let sentence = sentence.strip_prefix("warning: ").unwrap_or(sentence);
    let help = match &message.help {
        Some(help) => help.as_str(),
        None => "",
    };
    let help = help.split(GET_OPTION).next().unwrap_or(help);
    Ok(Finding {
        start,
        end,
        is_error: !code.is_empty(),
        code: String::from_str(alloc, code)?,
        sentence: String::from_str(alloc, sentence)?,
        help: String::from_str(alloc, help)?,
        related: Vec::new(alloc),
    })
}

/// The finding at this place of the document on a name that isn't declared.
fn unknown_finding(
    alloc: Global,
    place: (usize, usize),
    code: &str,
    name: &str,
    meaning: &str,
) -> Result<Finding, Memory> {
    let (start, end) = place;
    Ok(Finding {
        start,
        end,
        is_error: true,
        code: format!(in alloc; "{code} {name}")?,
        sentence: format!(in alloc; "{name} isn't declared{meaning}")?,
        help: String::new(alloc),
        related: Vec::new(alloc),
    })
}

/// What is wrong with a document, whose source is the last file of this program. Returns `Memory` if an allocation fails.
pub fn findings_of(
    alloc: Global,
    document: &Document,
    gathered: &Gathered<'_, '_>,
) -> Result<Vec<Finding>, Memory> {
    let program = gathered.program();
    let checked = Checked {
        document,
        program,
        main: gathered.last,
        library: gathered.library,
    };
    let mut parsed = Vec::new(alloc);
    match build_keeping(alloc, program.named.sources, program.mains, &mut parsed) {
        Ok(_) => checked.warnings(alloc, parsed.as_slice()),
        Err(BuildError::Memory) => Err(Memory),
        Err(fault) => checked.errors(alloc, &fault),
    }
}

/// How many words the code of the expressions of the last main takes, which was built to the last segment.
fn built_costs(
    alloc: Global,
    main: usize,
    built: &Built,
    parsed: &[Parsed<'_>],
) -> Result<Vec<Cost>, Memory> {
    let mut costs = Vec::new(alloc);
    let (Some(segment), Some(own)) = (built.segments.last(), parsed.last()) else {
        return Ok(costs);
    };
    let libraries = built.segments.len().saturating_sub(1);
    let costed = CostedSection {
        main,
        tokens: own.tokens.as_slice(),
        section: &own.section,
        entries: entries_of_segment(built.entries.as_slice(), libraries),
        items: segment.items().len(),
    };
    for cost in &root_costs(alloc, costed)? {
        costs.push(Cost {
            value: cost.value,
            address: cost.address,
            words: cost.words,
        })?;
    }
    Ok(costs)
}

/// How many words the code of the expressions of a document takes, whose source is the last file of this program; none if it is
/// refused. Returns `Memory` if an allocation fails.
pub fn costs_of(alloc: Global, gathered: &Gathered<'_, '_>) -> Result<Vec<Cost>, Memory> {
    let program = gathered.program();
    let mut parsed = Vec::new(alloc);
    match build_keeping(alloc, program.named.sources, program.mains, &mut parsed) {
        Ok(built) => built_costs(alloc, gathered.last, &built, parsed.as_slice()),
        Err(BuildError::Memory) => Err(Memory),
        Err(_) => Ok(Vec::new(alloc)),
    }
}
