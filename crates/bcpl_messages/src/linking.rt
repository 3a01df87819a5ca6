//! Messages for errors of the linker, and for a main with too many labels. They find the routines concerned by
//! compiling the mains again.

use crate::draft::{Draft, Fill};
use crate::read::Read;
use crate::words::{is_symbol, shown};
use bc_core::{Core, Place};
use bc_gen::generate;
use bc_lex::{Source, lex};
use bc_lex_tokens::{Symbol, Token, TokenKind};
use bc_link::LinkError;
use bc_parse::parse;
use bc_scope::resolve;
use bc_word::Memory;
use bcpl_places::{SegmentSize, Span, segment_words, too_large};
use std::alloc::Global;

/// A routine that sets a global.
#[derive(Clone, Copy)]
struct Setter<'s> {
    /// The index of the main that has it.
    main: usize,
    /// The name of the routine.
    name: &'s [u8],
    /// The span of its name.
    span: Span,
}

/// The indexes of the tokens that name the routines of a section, in text order.
fn routine_names(alloc: Global, tokens: &[Token<'_>]) -> Result<Vec<usize>, Memory> {
    let mut names = Vec::new(alloc);
    for index in 2..tokens.len() {
        let is_named = matches!(tokens[index - 1].kind, TokenKind::Name(_));
        let is_definition = is_symbol(&tokens[index - 2], Symbol::Let)
            || is_symbol(&tokens[index - 2], Symbol::And);
        if is_named && is_definition && is_symbol(&tokens[index], Symbol::OpenBracket) {
            names.push(index - 1)?;
        }
    }
    Ok(names)
}

/// The translation of tokens; `None` if they are refused.
fn core_of(alloc: Global, tokens: &[Token<'_>]) -> Result<Option<Core>, Memory> {
    if tokens.len() > 60_000 {
        return Ok(None);
    }
    let Ok(section) = parse(alloc, tokens) else {
        return Ok(None)
    };
    Ok(resolve(alloc, &section).ok())
}

/// The tokens of a main; `None` if the lexer refuses it.
fn tokens_of<'s>(alloc: Global, sources: &[Source<'s>], main: usize) -> Option<Vec<Token<'s>>> {
    if main < sources.len() {
        lex(alloc, sources, main).ok()
    } else {
        None
    }
}

/// For each routine of a section, in text order, the global that it sets, if it sets one. Empty if the section is
/// refused.
fn globals_of(alloc: Global, tokens: &[Token<'_>]) -> Result<Vec<Option<u16>>, Memory> {
    let mut globals = Vec::new(alloc);
    if let Some(core) = core_of(alloc, tokens)? {
        for place in core.places() {
            if let Place::Routine(found) = place {
                globals.push(found.global)?;
            }
        }
    }
    Ok(globals)
}

/// Whether the global that a routine sets, if any, has this number.
fn is_number(global: Option<u16>, number: u16) -> bool {
    match global {
        Some(global) => global == number,
        None => false,
    }
}

/// The routine that the token with this index names.
fn setter_at<'s>(read: Read<'_, 's>, index: usize) -> Setter<'s> {
    Setter {
        main: read.main,
        name: read.text(index),
        span: read.place(index),
    }
}

/// Adds the routines of a main that set the global with this number. Returns `Memory` if an allocation fails.
fn add_among<'s>(
    setters: &mut Vec<Setter<'s>>,
    alloc: Global,
    read: Read<'_, 's>,
    number: u16,
) -> Result<(), Memory> {
    let globals = globals_of(alloc, read.tokens)?;
    let names = routine_names(alloc, read.tokens)?;
    for (global, index) in globals.iter().zip(&names) {
        if is_number(*global, number) {
            setters.push(setter_at(read, *index))?;
        }
    }
    Ok(())
}

/// The same for a main that is still to be read. Adds nothing if the main is refused.
fn add_setters<'s>(
    setters: &mut Vec<Setter<'s>>,
    alloc: Global,
    sources: &[Source<'s>],
    main: usize,
    number: u16,
) -> Result<(), Memory> {
    match tokens_of(alloc, sources, main) {
        Some(tokens) => {
            let read = Read {
                sources,
                main,
                tokens: tokens.as_slice(),
            };
            add_among(setters, alloc, read, number)
        }
        None => Ok(()),
    }
}

/// The routines of all mains that set the global with this number.
fn setters_of<'s>(
    alloc: Global,
    sources: &[Source<'s>],
    mains: &[usize],
    number: u16,
) -> Result<Vec<Setter<'s>>, Memory> {
    let mut setters: Vec<Setter<'s>> = Vec::new(alloc);
    for main in mains {
        add_setters(&mut setters, alloc, sources, *main, number)?;
    }
    Ok(setters)
}

/// Whether a main is the library's.
fn is_library_main(sources: &[Source<'_>], main: usize) -> bool {
    match sources.get(main) {
        Some(source) => source.name == b"BLIB".as_slice() || source.name == b"EXTLIB".as_slice(),
        None => false,
    }
}

/// The help where two routines set the same global: whether the other one is the library's, and whether it has the same
/// name.
fn help_for_twice(is_of_library: bool, is_of_name: bool) -> &'static str {
    match (is_of_library, is_of_name) {
        (true, true) => {
            "the library has a routine of this name; rename yours where it is declared and called, or let it take the place of the library's with --lean"
        }
        (true, false) =>
            "a routine of the library has this number; the numbers from 100 on are free",
        (false, _) => {
            "a routine that is declared while its name means a global sets that global; only one routine of all files may do so"
        }
    }
}

/// Describes two routines that set the same global. `is_of_library` says that the first one is the library's.
fn say_twice(
    draft: &mut Draft,
    first: &Setter<'_>,
    second: &Setter<'_>,
    number: u16,
    is_of_library: bool,
) {
    draft.set_main(second.main);
    draft.place(second.span);
    draft.say(
        "the routine {} sets the global {}, which another routine already sets",
        &[Fill::Shown(second.name), Fill::Number(u64::from(number))],
    );
    draft.note(first.span, "the other routine", &[]);
    let is_of_name = first.name == second.name;
    draft.help(help_for_twice(is_of_library, is_of_name), &[]);
}

/// Describes a global that two routines set.
fn tell_twice(draft: &mut Draft, sources: &[Source<'_>], mains: &[usize], number: u16) {
    let alloc = draft.alloc();
    let setters = setters_of(alloc, sources, mains, number);
    let found = draft.found(setters, Vec::new(alloc));
    if let (Some(first), Some(second)) = (found.first(), found.get(1)) {
        let is_of_library = is_library_main(sources, first.main);
        say_twice(draft, first, second, number, is_of_library);
    }
}

/// How many words the segment of a main takes; `None` if the main is refused.
fn size_of(alloc: Global, sources: &[Source<'_>], main: usize) -> Result<Option<usize>, Memory> {
    let Some(tokens) = tokens_of(alloc, sources, main) else {
        return Ok(None)
    };
    let Some(core) = core_of(alloc, tokens.as_slice())? else {
        return Ok(None)
    };
    match generate(alloc, &core) {
        Ok(generated) => Ok(Some(segment_words(alloc, generated.items.items())?)),
        Err(_) => Ok(None),
    }
}

/// The sizes of the segments of these mains.
fn sizes_of(
    alloc: Global,
    sources: &[Source<'_>],
    mains: &[usize],
) -> Result<Vec<SegmentSize>, Memory> {
    let mut sizes = Vec::new(alloc);
    for main in mains {
        if let Some(words) = size_of(alloc, sources, *main)? {
            let name = match sources.get(*main) {
                Some(source) => shown(alloc, source.name)?,
                None => String::new(alloc),
            };
            sizes.push(SegmentSize { name, words })?;
        }
    }
    Ok(sizes)
}

/// Describes segments that take more words than a machine has.
fn tell_sizes(draft: &mut Draft, sources: &[Source<'_>], mains: &[usize]) {
    let alloc = draft.alloc();
    let sizes = draft.found(sizes_of(alloc, sources, mains), Vec::new(alloc));
    let sentence = draft.found(too_large(alloc, sizes.as_slice()), String::new(alloc));
    draft.say("{}", &[Fill::Text(sentence.as_str())]);
}

/// Describes an error of the linker.
pub fn tell_linking(draft: &mut Draft, sources: &[Source<'_>], mains: &[usize], fault: LinkError) {
    match fault {
        LinkError::GlobalTwice(number) => tell_twice(draft, sources, mains, number.get()),
        LinkError::TooLarge => tell_sizes(draft, sources, mains),
        _ => {}
    }
}

/// Whether a token makes labels in the code.
fn makes_labels(token: &Token<'_>) -> bool {
    match token.kind {
        TokenKind::Symbol(symbol) => matches!(
            symbol,
            Symbol::If
                | Symbol::Unless
                | Symbol::Test
                | Symbol::While
                | Symbol::Until
                | Symbol::Repeat
                | Symbol::RepeatWhile
                | Symbol::RepeatUntil
                | Symbol::For
                | Symbol::SwitchOn
                | Symbol::Case
                | Symbol::Default
                | Symbol::ValueOf
                | Symbol::Arrow
                | Symbol::Colon
        ),
        _ => false,
    }
}

/// How many of these tokens make labels in the code.
fn labels_among(tokens: &[Token<'_>]) -> usize {
    tokens.iter().filter(|token| makes_labels(token)).count()
}

/// The better of two pairs of an index and a count: `best`, unless `count` is greater.
fn more(best: Option<(usize, usize)>, start: usize, count: usize) -> Option<(usize, usize)> {
    match best {
        Some((_, most)) if count <= most => best,
        _ => Some((start, count)),
    }
}

/// The index of the token that names the routine with the most label-making tokens, and their number.
fn most_labels(alloc: Global, tokens: &[Token<'_>]) -> Result<Option<(usize, usize)>, Memory> {
    let names = routine_names(alloc, tokens)?;
    let mut best: Option<(usize, usize)> = None;
    for (number, start) in names.iter().enumerate() {
        let end = match names.get(number.saturating_add(1)) {
            Some(next) => *next,
            None => tokens.len(),
        };
        let count = labels_among(tokens.get(*start..end).unwrap_or(&[]));
        best = more(best, *start, count);
    }
    Ok(best)
}

/// The sentence on a main whose code has too many labels.
const TOO_MANY_LABELS: &str =
    "the code of the file, with the files that it gets, has more than 20000 labels";

/// Points out the routine of a main with the most label-making tokens, and their number.
fn tell_busiest(draft: &mut Draft, read: Read<'_, '_>) {
    let most = most_labels(draft.alloc(), read.tokens);
    if let Some((index, count)) = draft.found(most, None) {
        draft.place(read.place(index));
        draft.say(
            "; this routine has the most words and signs that make labels: {}",
            &[Fill::Number(count as u64)],
        );
    }
}

/// Describes a main whose code has too many labels.
pub fn tell_labels(draft: &mut Draft, sources: &[Source<'_>], main: usize) {
    draft.say(TOO_MANY_LABELS, &[]);
    if let Some(tokens) = tokens_of(draft.alloc(), sources, main) {
        let read = Read {
            sources,
            main,
            tokens: tokens.as_slice(),
        };
        tell_busiest(draft, read);
    }
    draft.help(
        "split it into several files that share routines by GLOBAL",
        &[],
    );
}
