//! The command `show`.

ghost use Rattle.std.specs.Prelude.{◌≤◌, ◌<◌, length, All, IfOk};
ghost use Rattle.bc_lex_tokens.specs.Token.{lexemes_of};
ghost use Rattle.bc_parse_tree.specs.Size.{declarations_size};
ghost use Rattle.bc_parse_tree.specs.View.{section_view};

use bc_build::{BuildError, Built, build};
use bc_lex::{Token, lex};
use bc_parse::{ParseError, Section, parse, spell};
use bc_run::primitives;
use bc_scope::{Core, resolve};
use bc_text_items::{Item, Segment};
use bcpl_cli::{Cause, Failure, Listing, ShowOrder, Sources, TreeShape, load_sources};
use bcpl_messages::Named;
use bcpl_show::{
    Files, Scopes, Setter, TreeForm, code_listing, scope_listing, source_listing, syntax_listing,
    token_listing,
};
use bcpl_sources::{
    Gathered, Program, entries_of_segment, of_listing, or_memory_failure, print_all, refused,
};
use std::alloc::Global;
use std::io::Write;
use std::mem::forget;
use std::rt::Files as Access;

/// The source to list.
#[derive(Clone, Copy)]
struct Shown<'a, 's> {
    files: Files<'a, 's>,
    /// The index of the source.
    main: usize,
    /// The indexes of the mains of its program.
    mains: &'a [usize],
    /// Whether a refusal is explained.
    explains: bool,
    /// Whether messages are JSON objects.
    is_json: bool,
    ghost within: { All (λ index. index < length files.sources.now) mains.now },
}

/// A source that was built, with its tokens and trees.
#[derive(Clone, Copy)]
struct Resolved<'r, 's> {
    built: &'r Built,
    tokens: &'r [Token<'s>],
    section: &'r Section<'s>,
    core: &'r Core,
}

impl<'a, 's> Shown<'a, 's> {
    /// The failure of a refused source.
    fn refused(&self, alloc: Global, mains: &[usize], fault: BuildError) -> Failure {
        let program = Program {
            named: Named {
                sources: self.files.sources,
                paths: self.files.paths,
            },
            mains,
            is_json: self.is_json,
            explains_all: false,
        };
        refused(alloc, &program, fault, self.explains)
    }

    /// The tokens of the source, at most 60,000.
    fn tokens(&self, alloc: Global) -> Result<Vec<Token<'s>>, Failure>
        ensures { IfOk result (λ tokens. length (lexemes_of tokens.items) ≤ 60000) }
    {
        if self.main >= self.files.sources.len() {
            return Ok(Vec::new(alloc));
        }
        match lex(alloc, self.files.sources, self.main) {
            Ok(tokens) => Ok(tokens),
            Err(fault) => Err(self.refused(alloc, &[self.main], BuildError::Lex(self.main, fault))),
        }
    }

    /// The failure of a source that the parser refuses.
    fn no_section(&self, alloc: Global, fault: ParseError) -> Failure {
        self.refused(alloc, &[self.main], BuildError::Parse(self.main, fault))
    }

    /// The listing `tokens`.
    fn token_listing(&self, alloc: Global) -> Result<Vec<u8>, Failure> {
        let tokens = self.tokens(alloc)?;
        or_memory_failure(token_listing(alloc, self.files, self.main, tokens.as_slice()))
    }

    /// The listing `source`, or `tree` in this form.
    fn parsed_listing(&self, alloc: Global, form: Option<TreeForm>) -> Result<Vec<u8>, Failure> {
        let tokens = self.tokens(alloc)?;
        match parse(alloc, tokens.as_slice()) {
            Ok(section) => {
                let listing = match form {
                    Some(form) => self.tree_of(alloc, tokens.as_slice(), &section, form),
                    None => self.source_of(alloc, tokens.as_slice(), &section),
                };
                // The process is about to end, and the system frees all its memory at once.
                forget(section);
                listing
            }
            Err(fault) => Err(self.no_section(alloc, fault)),
        }
    }

    /// The listing `source` of a parsed section.
    fn source_of(
        &self,
        alloc: Global,
        tokens: &[Token<'s>],
        section: &Section<'s>,
    ) -> Result<Vec<u8>, Failure> {
        let kinds = spell(alloc, section)?;
        or_memory_failure(source_listing(alloc, self.files, self.main, tokens, kinds.as_slice()))
    }

    /// The listing `tree` of a parsed section, in this form.
    fn tree_of(
        &self,
        alloc: Global,
        tokens: &[Token<'s>],
        section: &Section<'s>,
        form: TreeForm,
    ) -> Result<Vec<u8>, Failure> {
        let source = (self.main, tokens);
        or_memory_failure(syntax_listing(alloc, self.files, source, section, form))
    }

    /// Builds the program of the library and the source.
    fn built(&self, alloc: Global) -> Result<Built, Failure> {
        match build(alloc, self.files.sources, self.mains) {
            Ok(built) => Ok(built),
            Err(fault) => Err(self.refused(alloc, self.mains, fault)),
        }
    }

    /// The listing `scopes` or `code`.
    fn built_listing(&self, alloc: Global, listing: Listing) -> Result<Vec<u8>, Failure> {
        let built = self.built(alloc)?;
        let tokens = self.tokens(alloc)?;
        match parse(alloc, tokens.as_slice()) {
            Ok(section) => {
                let text = self.resolved_listing(
                    alloc,
                    listing,
                    (&built, tokens.as_slice()),
                    &section,
                );
                // The process is about to end, and the system frees all its memory at once.
                forget(section);
                text
            }
            Err(fault) => Err(self.no_section(alloc, fault)),
        }
    }

    /// The listing `scopes` or `code` of this program, with these tokens and this section.
    fn resolved_listing(
        &self,
        alloc: Global,
        listing: Listing,
        found: (&Built, &[Token<'s>]),
        section: &Section<'s>,
    ) -> Result<Vec<u8>, Failure>
        requires { declarations_size (section_view section.now) ≤ 60000 }
    {
        let (built, tokens) = found;
        match resolve(alloc, section) {
            Ok(core) => {
                let resolved = Resolved {
                    built,
                    tokens,
                    section,
                    core: &core,
                };
                let text = match listing {
                    Listing::Scopes => self.scopes_of(alloc, resolved),
                    _ => self.code_of(alloc, resolved),
                };
                forget(core);
                text
            }
            Err(_) => Err(Failure::new(Cause::Memory)),
        }
    }

    /// The listing `scopes` of a resolved source.
    fn scopes_of(&self, alloc: Global, resolved: Resolved<'_, 's>) -> Result<Vec<u8>, Failure> {
        let primitives = primitives(alloc)?;
        let library = libraries(resolved.built);
        let setters = [
            Setter {
                name: "the primitives",
                items: primitives.items(),
            },
            Setter {
                name: "BLIB",
                items: items_at(library, 0),
            },
            Setter {
                name: "EXTLIB",
                items: items_at(library, 1),
            },
        ];
        let scopes = Scopes {
            files: self.files,
            main: self.main,
            tokens: resolved.tokens,
            section: resolved.section,
            core: resolved.core,
            items: own_items(resolved.built),
            setters: &setters,
        };
        or_memory_failure(scope_listing(alloc, scopes))
    }

    /// The listing `code` of a resolved source.
    fn code_of(&self, alloc: Global, resolved: Resolved<'_, 's>) -> Result<Vec<u8>, Failure> {
        let built = resolved.built;
        let Some(segment) = built.segments.last() else {
            return Ok(Vec::new(alloc));
        };
        let program = bcpl_show::CodeListing {
            files: self.files,
            main: self.main,
            tokens: resolved.tokens,
            section: resolved.section,
            core: resolved.core,
            items: segment.items(),
            entries: entries_of_segment(built.entries.as_slice(), libraries(built).len()),
            first: first_of(built),
        };
        or_memory_failure(code_listing(alloc, program))
    }
}

/// The segments before the source's own: those of the library.
fn libraries(built: &Built) -> &[Segment] {
    let segments = built.segments.as_slice();
    match segments.split_last() {
        Some((_, library)) => library,
        None => segments,
    }
}

/// The items of the last segment, which is that of the source.
fn own_items(built: &Built) -> &[Item] {
    match built.segments.last() {
        Some(segment) => segment.items(),
        None => &[],
    }
}

/// The items of the segment with this index, or an empty list.
fn items_at(segments: &[Segment], index: usize) -> &[Item] {
    match segments.get(index) {
        Some(segment) => segment.items(),
        None => &[],
    }
}

/// The address at which the segment with this index begins; index 0 is the primitives.
fn start_of(built: &Built, index: usize) -> u64 {
    match built.image.places.as_slice().get(index) {
        Some(place) => u64::from(place.start.get()),
        None => 0,
    }
}

/// The numbers of words before the source's segment: of the first cells, of the primitives, and of the library.
fn first_of(built: &Built) -> [u64; 3] {
    let primitives = start_of(built, 0);
    let library = start_of(built, 1);
    let own = start_of(built, built.segments.len());
    [
        primitives,
        library.saturating_sub(primitives),
        own.saturating_sub(library),
    ]
}

/// The form of the tree that the arguments name.
fn form_of(shape: TreeShape) -> TreeForm {
    match shape {
        TreeShape::Indented => TreeForm::Lines,
        TreeShape::Dot => TreeForm::Dot,
        TreeShape::Json => TreeForm::Json,
    }
}

/// The listing of the last file.
fn listed(
    alloc: Global,
    gathered: &Gathered<'_, '_>,
    listing: Listing,
    explains: bool,
) -> Result<Vec<u8>, Failure> {
    let program = gathered.program();
    let shown = Shown {
        files: Files {
            sources: program.named.sources,
            paths: program.named.paths,
            library: gathered.library,
        },
        main: gathered.last,
        mains: program.mains,
        explains,
        is_json: program.is_json,
    };
    match listing {
        Listing::Tokens => shown.token_listing(alloc),
        Listing::Source => shown.parsed_listing(alloc, None),
        Listing::Tree(shape) => shown.parsed_listing(alloc, Some(form_of(shape))),
        Listing::Scopes | Listing::Code => shown.built_listing(alloc, listing),
    }
}

/// Reads the files and returns the listing of the last source.
fn listing_of<F: Access>(
    rt: &F,
    alloc: Global,
    given: &Sources<'_>,
    listing: Listing,
    explains: bool,
) -> Result<Vec<u8>, Failure> {
    let loaded = load_sources(rt, alloc, given)?;
    let gathered = Gathered::new(alloc, given, loaded.as_slice())?;
    listed(alloc, &gathered, listing, explains)
}

/// Runs `show`. If `explains`, explains a refusal.
pub fn show<F: Access, O: Write + Drop>(
    rt: &F,
    alloc: Global,
    order: &ShowOrder<'_>,
    explains: bool,
    out: &mut O,
) -> Result<(), Failure> {
    let text = listing_of(rt, alloc, &order.sources, order.listing, explains)?;
    of_listing(alloc, print_all(text.as_slice(), out))
}
