//! The public call `build`, whose contract is the main theorem.

ghost use Rattle.std.specs.Prelude.{◌≡◌, ◌<◌, ◌++◌, length, map, All, IfOk, IfErr, OnOk, List, ℕ, slice_index};
ghost use Rattle.std.specs.List.{AllZip};
ghost use Rattle.bc_parse_tree.specs.Tree.{Declarations};
ghost use Rattle.bc_rules_defs.specs.View.{entry as entry_view};
ghost use Rattle.bc_cert_write.specs.Workings.{WorkedOut};
ghost use Rattle.bc_lex.specs.Files.{files_of};
ghost use Rattle.bc_build.specs.Parsed.{AreParsed};
ghost use Rattle.bc_build.specs.Compiled.{AreAccepted};
ghost use Rattle.bc_build.specs.Code.{HasCode, IsCompiled, in_segment};
ghost use Rattle.bc_build.specs.Built.{IsBuilt};
ghost use Rattle.bc_build.specs.Refused.{IsMainRefusal, IsRefused};
ghost use Rattle.bc_build.specs.Steps.{IsLinked, IsLinkRefusal};
ghost use Rattle.bc_build.specs.Runs.{RunsAsMeant};
ghost use Rattle.bc_build.specs.Least.{AreLeast};
ghost use Rattle.bc_build.specs.Certified.{IsCertified};
ghost use Rattle.bc_build.specs.Size.{HasSize};
ghost use Rattle.bc_build.specs.Text.{ReadsAs};

use crate::build_error::{BuildError, scope_refusal};
use crate::ranges::{entries_are_small, segments_are_items, words_are_words};
use bc_cert_write::Workings;
use bc_gen::{Generated, generate};
use bc_lex::{Source, lex};
use bc_lex_tokens::Token;
use bc_link::link;
use bc_machine_defs::Image;
use bc_parse::parse;
use bc_parse_tree::Section;
use bc_rules_defs::Entry;
use bc_run::after_primitives;
use bc_scope::resolve;
use bc_text_items::Segment;
use std::alloc::Global;

/// A built program.
pub struct Built {
    /// The segments, one for each main, in the order of the mains.
    pub segments: Vec<Segment>,
    /// The entries of all mains, in the order of the mains. Their `segment` counts the mains from 0.
    pub entries: Vec<Entry>,
    /// For each entry, at the same index, data that the writer of the certificate would otherwise compute again.
    pub workings: Vec<Workings>,
    /// The image of the primitives followed by the segments.
    pub image: Image,
}

impl Drop for Built {
    fn drop(self) {
        let Built {
            segments: _,
            entries: _,
            workings: _,
            image: _,
        } = self;
    }
}

/// What a main was lexed and parsed to.
pub struct Parsed<'s> {
    /// The tokens of the main, with those of the files that its GETs insert.
    pub tokens: Vec<Token<'s>>,
    /// The section that these tokens spell.
    pub section: Section<'s>,
}

impl Drop for Parsed<'_> {
    fn drop(self) {
        let Parsed {
            tokens: _,
            section: _,
        } = self;
    }
}

/// Appends what a main was parsed to if `keeps`, and frees it otherwise, so that the generator can use its memory.
fn keep_or_free<'s>(
    keeps: bool,
    parsed: &mut Vec<Parsed<'s>>,
    tokens: Vec<Token<'s>>,
    section: Section<'s>,
) -> Result<(), BuildError>
    ensures refused { IfErr result (λ e. e ≡ BuildError.Memory) }
{
    if keeps {
        parsed.push(Parsed { tokens, section })?;
    }
    Ok(())
}

/// Compiles one main: lexes, parses and resolves it, and generates its items and entries. If `keeps`, appends what it was parsed to.
fn compiled<'s>(
    alloc: Global,
    sources: &[Source<'s>],
    main: usize,
    keeps: bool,
    parsed: &mut Vec<Parsed<'s>>,
) -> Result<Generated, BuildError>
    requires { main < length sources.now }
    ensures compiled { IfOk result (λ g. IsCompiled (files_of sources.now) main g.items g.entries.items) }
    ensures worked { IfOk result (λ g. AllZip WorkedOut (map entry_view g.entries.items) g.workings.items) }
    ensures refused { IfErr result (IsMainRefusal (files_of sources.now) main) }
{
    let tokens = match lex(alloc, sources, main) {
        Ok(tokens) => tokens,
        Err(fault) => return Err(BuildError::Lex(main, fault)),
    };
    let section = match parse(alloc, tokens.as_slice()) {
        Ok(section) => section,
        Err(fault) => return Err(BuildError::Parse(main, fault)),
    };
    let core = match resolve(alloc, &section) {
        Ok(core) => core,
        Err(fault) => return Err(scope_refusal(alloc, main, fault)),
    };
    keep_or_free(keeps, parsed, tokens, section)?;
    match generate(alloc, &core) {
        Ok(generated) => Ok(generated),
        Err(fault) => Err(BuildError::Gen(main, fault)),
    }
}

/// Appends the entries of one main, and numbers their segment.
fn add_entries(all: &mut Vec<Entry>, segment: u64, entries: Vec<Entry>) -> Result<(), BuildError>
    ensures added { OnOk result (map entry_view all.new.items ≡ map entry_view all.old.items ++ map (in_segment segment) (map entry_view entries.items)) }
    ensures refused { IfErr result (λ e. e ≡ BuildError.Memory) }
{
    all.reserve(entries.len())?;
    for entry in entries {
        all.push(Entry { segment, ..entry })?;
    }
    Ok(())
}

/// Links the segments after the primitives.
///
/// The calls of `ranges` have no effect: they only tell the prover that the numbers of words, items and entries are in range.
fn linked(
    alloc: Global,
    segments: Vec<Segment>,
    entries: Vec<Entry>,
    workings: Vec<Workings>,
) -> Result<Built, BuildError>
    ensures built { IfOk result (IsLinked segments.items entries.items) }
    ensures worked { IfOk result (λ built. built.workings.items ≡ workings.items) }
    ensures refused { IfErr result (IsLinkRefusal segments.items) }
{
    let mut segments = after_primitives(alloc, segments)?;
    let image = match link(alloc, segments.as_slice()) {
        Ok(image) => image,
        Err(fault) => return Err(BuildError::Link(fault)),
    };
    let _primitives = segments.remove(0);
    words_are_words(&image.words);
    segments_are_items(segments.as_slice());
    entries_are_small(entries.as_slice());
    Ok(Built {
        segments,
        entries,
        workings,
        image,
    })
}

/// Builds a program, as `build` does. If `keeps`, appends to `parsed` what each main was parsed to.
fn build_mains<'s>(
    alloc: Global,
    sources: &[Source<'s>],
    mains: &[usize],
    keeps: bool,
    parsed: &mut Vec<Parsed<'s>>,
) -> Result<Built, BuildError>
    requires { All (λ main. main < length sources.now) mains.now }
    ensures built { IfOk result (IsBuilt (files_of sources.now) mains.now) }
    ensures runs { IfOk result (λ built. (sections : List Declarations) → AreParsed (files_of sources.now) mains.now sections
        → RunsAsMeant sections built.image) }
    ensures least { IfOk result (λ built. AreLeast built.segments.items (map entry_view built.entries.items)) }
    ensures certified { IfOk result (λ built. IsCertified (map entry_view built.entries.items)) }
    ensures accepted { IfOk result (λ _. (sections : List Declarations) → AreParsed (files_of sources.now) mains.now sections
        → AreAccepted (files_of sources.now) mains.now sections) }
    ensures coded { IfOk result (λ built. (sections : List Declarations) → AreParsed (files_of sources.now) mains.now sections
        → HasCode sections built) }
    ensures worked { IfOk result (λ built. AllZip WorkedOut (map entry_view built.entries.items) built.workings.items) }
    ensures size { IfOk result (λ built. (sections : List Declarations) → AreParsed (files_of sources.now) mains.now sections
        → HasSize sections built.image) }
    ensures text { IfOk result (λ built. ReadsAs built.segments.items built.image) }
    ensures refused { IfErr result (IsRefused (files_of sources.now) mains.now) }
{
    bc_gen_laws::labels::laws::labels_stand_once();
    bc_scope_laws::laws::sections_fit();
    bc_right::sections::laws::sections_run();
    bc_right::programs::laws::linked_map_is_map();
    let mut segments = Vec::new(alloc);
    let mut entries = Vec::new(alloc);
    let mut workings = Vec::new(alloc);
    for (number, main) in mains.iter().enumerate() {
        let Generated {
            items,
            entries: coded,
            workings: mut worked,
        } = compiled(alloc, sources, *main, keeps, parsed)?;
        segments.push(items)?;
        add_entries(&mut entries, number as u64, coded)?;
        workings.append(&mut worked)?;
    }
    linked(alloc, segments, entries, workings)
}

/// Builds a program. `mains` are indexes into `sources`; the other sources are read only if a GET names them. Each main is lexed, parsed,
/// resolved and translated in turn, and then the segments are linked after the primitives. The list of mains may be empty.
///
/// Returns the first refusal in this order, or `Memory` where an allocation fails. An error comes only if every earlier part succeeded:
/// the `Memory` of `Lex`, `Parse`, `Scope`, `Gen` or `Link` names the part that met it, and a plain `Memory` comes only after the parser
/// accepted the main, or after all mains were compiled.
pub fn build(alloc: Global, sources: &[Source<'_>], mains: &[usize]) -> Result<Built, BuildError>
    requires { All (λ main. main < length sources.now) mains.now }

    // What is built: the mains are parsed as sections, and the entries belong to the roots of these sections, in order. The image is that
    // of the primitives followed by the segments.
    ensures built { IfOk result (IsBuilt (files_of sources.now) mains.now) }

    // The image does what its sources mean. For all inputs of bytes and every number n of turns: if the meaning of the sections ends in n
    // turns, the run from the image ends in the same way with the same output. If the meaning is cut off after n turns, the run has
    // the same output after n or more instructions and is still going. Only if the meaning is wild, nothing is claimed.
    ensures runs { IfOk result (λ built. (sections : List Declarations) → AreParsed (files_of sources.now) mains.now sections
        → RunsAsMeant sections built.image) }

    // The code is the shortest: each entry has the code of a derivation from the rule table that no derivation beats in words, and
    // this code is in the segments at the entry's place.
    ensures least { IfOk result (λ built. AreLeast built.segments.items (map entry_view built.entries.items)) }
    // The certificate of the entries is accepted, and what it says about each entry fits the segments.
    ensures certified { IfOk result (λ built. IsCertified (map entry_view built.entries.items)) }

    // The four clauses above are the headline. The others say more of the same sections. They are accepted: the grammar spells them,
    // within the limits of size and nesting, they have no fault, and their labels suffice.
    ensures accepted { IfOk result (λ _. (sections : List Declarations) → AreParsed (files_of sources.now) mains.now sections
        → AreAccepted (files_of sources.now) mains.now sections) }
    // The segments and entries are the code of these sections, and the linker refuses nothing.
    ensures coded { IfOk result (λ built. (sections : List Declarations) → AreParsed (files_of sources.now) mains.now sections
        → HasCode sections built) }
    // The workings, from which the certificate is written, belong to the entries.
    ensures worked { IfOk result (λ built. AllZip WorkedOut (map entry_view built.entries.items) built.workings.items) }
    // The image has the fixed words of its commands and data, and the least words of each root.
    ensures size { IfOk result (λ built. (sections : List Declarations) → AreParsed (files_of sources.now) mains.now sections
        → HasSize sections built.image) }

    // The printed text of the segments reads back as exactly these segments, and linking them gives this image.
    ensures text { IfOk result (λ built. ReadsAs built.segments.items built.image) }
    // An error is the first refusal, in the order of the mains, each through the parts of the compiler, and then the linker's; or memory
    // ran out in a part for which every earlier part succeeded.
    ensures refused { IfErr result (IsRefused (files_of sources.now) mains.now) }
{
    build_mains(alloc, sources, mains, false, &mut Vec::new(alloc))
}

/// Builds a program as `build` does, with the same contract, and appends to `parsed` what each main was lexed and parsed to, in the
/// order of the mains. After a refusal, `parsed` has the mains that the resolver accepted up to there.
pub fn build_keeping<'s>(
    alloc: Global,
    sources: &[Source<'s>],
    mains: &[usize],
    parsed: &mut Vec<Parsed<'s>>,
) -> Result<Built, BuildError>
    requires { All (λ main. main < length sources.now) mains.now }
    ensures built { IfOk result (IsBuilt (files_of sources.now) mains.now) }
    ensures runs { IfOk result (λ built. (sections : List Declarations) → AreParsed (files_of sources.now) mains.now sections
        → RunsAsMeant sections built.image) }
    ensures least { IfOk result (λ built. AreLeast built.segments.items (map entry_view built.entries.items)) }
    ensures certified { IfOk result (λ built. IsCertified (map entry_view built.entries.items)) }
    ensures accepted { IfOk result (λ _. (sections : List Declarations) → AreParsed (files_of sources.now) mains.now sections
        → AreAccepted (files_of sources.now) mains.now sections) }
    ensures coded { IfOk result (λ built. (sections : List Declarations) → AreParsed (files_of sources.now) mains.now sections
        → HasCode sections built) }
    ensures worked { IfOk result (λ built. AllZip WorkedOut (map entry_view built.entries.items) built.workings.items) }
    ensures size { IfOk result (λ built. (sections : List Declarations) → AreParsed (files_of sources.now) mains.now sections
        → HasSize sections built.image) }
    ensures text { IfOk result (λ built. ReadsAs built.segments.items built.image) }
    ensures refused { IfErr result (IsRefused (files_of sources.now) mains.now) }
{
    build_mains(alloc, sources, mains, true, parsed)
}
