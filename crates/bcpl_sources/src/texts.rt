//! Reads, parses and links INTCODE texts.

ghost use Rattle.std.specs.Prelude.{◌≡◌};

use crate::growing_list::Growing;
use bc_link::{LinkError, link};
use bc_machine_defs::Image;
use bc_run::after_primitives;
use bc_text::Reader;
use bc_text_items::Segment;
use bc_word::Memory;
use bcpl_cli::{Cause, FILE_LIMIT, Failure, StandardInput, contents};
use bcpl_reports::{Text, link_lines, text_lines};
use std::alloc::Global;
use std::io;
use std::io::{ErrorKind, Read};
use std::rt::Files;

/// Adds a value, unless it is a failure.
pub fn add_unless_failed<T: Drop>(
    all: &mut Vec<T>,
    found: Result<T, Failure>,
) -> Result<(), Failure> {
    Ok(all.push(found?)?)
}

/// Turns `Memory` into a failure.
pub fn or_memory_failure<T: Drop>(found: Result<T, Memory>) -> Result<T, Failure> {
    match found {
        Ok(found) => Ok(found),
        Err(_) => Err(Failure::new(Cause::Memory)),
    }
}

/// The content of a file with a text.
pub struct TextFile {
    /// The path as messages show it.
    shown: String,
    /// Its content.
    bytes: Vec<u8>,
}

impl Drop for TextFile {
    fn drop(self) {
        let TextFile { shown: _, bytes: _ } = self;
    }
}

/// Takes standard input for `-`, or reads the file with this path.
fn text_file<F: Files>(
    rt: &F,
    alloc: Global,
    standard: &StandardInput,
    path: &str,
) -> Result<TextFile, Failure> {
    let bytes = standard.contents(rt, alloc, path)?;
    let shown = standard.shown(alloc, path)?;
    Ok(TextFile { shown, bytes })
}

/// Reads the files with these paths, of which `-` is standard input if that was read.
pub fn read_texts_or_input<F: Files>(
    rt: &F,
    alloc: Global,
    standard: &StandardInput,
    paths: &[&str],
) -> Result<Vec<TextFile>, Failure> {
    let mut all = Vec::new(alloc);
    for path in paths {
        add_unless_failed(&mut all, text_file(rt, alloc, standard, path))?;
    }
    Ok(all)
}

/// Reads the files with these paths.
pub fn read_texts<F: Files>(
    rt: &F,
    alloc: Global,
    paths: &[&str],
) -> Result<Vec<TextFile>, Failure> {
    read_texts_or_input(rt, alloc, &StandardInput::none(), paths)
}

/// The content of the file with this path, or `None` if it can't be read.
pub fn readable<F: Files>(rt: &F, alloc: Global, path: &str) -> Option<Vec<u8>> {
    contents(rt, alloc, path).ok()
}

/// The refusal of these bytes, which were read before reading failed, or else `failure`.
fn judged_first(alloc: Global, bytes: &[u8], failure: Failure) -> Failure {
    let front = bytes.get(..FILE_LIMIT as usize).unwrap_or(bytes);
    let mut reader = Reader::new(alloc);
    match reader.feed(front) {
        Ok(()) => failure,
        Err(fault) => Failure::from(fault),
    }
}

/// The failure after reading standard input with this result, if it failed or the text is too large.
fn unread(alloc: Global, bytes: &[u8], read: &io::Result<usize>) -> Failure {
    match read {
        Err(error) if error.kind() == ErrorKind::OutOfMemory => Failure::new(Cause::Memory),
        Err(error) => judged_first(alloc, bytes, Failure::io(alloc, error, "SYSIN")),
        Ok(_) => judged_first(
            alloc,
            bytes,
            Failure::file_since(alloc, "SYSIN", "the text is larger than 16777216 bytes"),
        ),
    }
}

/// Whether the whole text was read.
fn is_read(read: &io::Result<usize>) -> bool {
    match read {
        Ok(count) => *count as u64 <= FILE_LIMIT,
        Err(_) => false,
    }
}

/// The text on standard input. If reading fails or the text is too large, a refusal of the bytes before that takes
/// precedence.
pub fn standard_text<R: Read + Drop>(alloc: Global, input: R) -> Result<Vec<u8>, Failure> {
    let mut bytes = Vec::new(alloc);
    let read = input.take(FILE_LIMIT + 1).read_to_end(&mut bytes);
    if is_read(&read) {
        Ok(bytes)
    } else {
        Err(unread(alloc, bytes.as_slice(), &read))
    }
}

/// The texts in these files.
pub fn texts_of<'a>(alloc: Global, files: &'a [TextFile]) -> Result<Vec<Text<'a>>, Memory> {
    let mut texts = Growing::new(alloc);
    for file in files {
        texts.add(Text {
            path: file.shown.as_str(),
            bytes: file.bytes.as_slice(),
        });
    }
    texts.whole()
}

/// Whether this text, up to a `: `, is a path with a line and a column.
fn is_place(text: &str) -> bool {
    let Some((front, column)) = text.rsplit_once(':') else {
        return false;
    };
    let line = match front.rsplit_once(':') {
        Some((_, line)) => line,
        None => return false,
    };
    !line.is_empty()
        && line.bytes().all(|byte| byte.is_ascii_digit())
        && column.bytes().all(|byte| byte.is_ascii_digit())
}

/// An explanation in which `error: ` follows the place with which it begins, if it begins with one.
fn as_error(alloc: Global, lines: String) -> Result<String, Memory> {
    match lines.as_str().split_once(": ") {
        Some((place, sentence)) if is_place(place) => {
            Ok(format!(in alloc; "{place}: error: {sentence}")?)
        }
        _ => Ok(lines),
    }
}

/// A failure with this explanation, if there was memory for it.
pub fn with_explanation(alloc: Global, failure: Failure, lines: Result<String, Memory>) -> Failure
    ensures { result.cause ≡ failure.cause }
{
    let Ok(lines) = lines else {
        return failure;
    };
    match as_error(alloc, lines) {
        Ok(lines) => failure.with(lines),
        Err(_) => failure,
    }
}

/// Adds the segments of a text.
fn add_segments(alloc: Global, segments: &mut Vec<Segment>, text: &[u8]) -> Result<(), Failure> {
    let mut reader = Reader::new(alloc);
    reader.feed(text)?;
    for segment in reader.finish()? {
        segments.push(segment)?;
    }
    Ok(())
}

/// Explains the failure of a text.
fn explain_text(alloc: Global, failure: Failure, text: Text<'_>) -> Failure {
    let lines = match &failure.cause {
        Cause::Text(fault) => text_lines(alloc, text, *fault),
        _ => return failure,
    };
    with_explanation(alloc, failure, lines)
}

/// Adds the segments of these texts, and for each text the number of all segments after it. If `explains`, explains a refusal.
fn add_texts(
    alloc: Global,
    segments: &mut Vec<Segment>,
    ends: &mut Vec<usize>,
    texts: &[Text<'_>],
    explains: bool,
) -> Result<(), Failure> {
    for text in texts {
        if let Err(failure) = add_segments(alloc, segments, text.bytes) {
            return Err(if explains {
                explain_text(alloc, failure, *text)
            } else {
                failure
            });
        }
        ends.push(segments.len())?;
    }
    Ok(())
}

/// The segments of these texts, in order. If `explains`, explains a refusal.
pub fn segments_of(
    alloc: Global,
    texts: &[Text<'_>],
    explains: bool,
) -> Result<Vec<Segment>, Failure> {
    let mut segments = Vec::new(alloc);
    let mut ends = Vec::new(alloc);
    add_texts(alloc, &mut segments, &mut ends, texts, explains)?;
    Ok(segments)
}

/// A linked program: its segments, beginning with the primitives, and its image.
pub struct LinkedProgram {
    /// The segments; the first one is the primitives.
    pub segments: Vec<Segment>,
    /// What they were linked to.
    pub image: Image,
}

impl Drop for LinkedProgram {
    fn drop(self) {
        let LinkedProgram {
            segments: _,
            image: _,
        } = self;
    }
}

/// The failure of texts that can't be linked.
fn unlinked(
    alloc: Global,
    texts: &[Text<'_>],
    segments: &[Segment],
    fault: &LinkError,
    explains: bool,
) -> Failure {
    let failure = Failure::from(*fault);
    if explains {
        with_explanation(alloc, failure, link_lines(alloc, texts, segments, *fault))
    } else {
        failure
    }
}

/// Links these texts after the primitives. If `explains`, explains a refusal.
pub fn linked_program(
    alloc: Global,
    texts: &[Text<'_>],
    explains: bool,
) -> Result<LinkedProgram, Failure> {
    let mut ends = Vec::new(alloc);
    linked_texts(alloc, texts, &mut ends, explains)
}

/// The same. Adds for each text the number of the segments, without the primitives, up to its last one.
pub fn linked_texts(
    alloc: Global,
    texts: &[Text<'_>],
    ends: &mut Vec<usize>,
    explains: bool,
) -> Result<LinkedProgram, Failure> {
    let mut own = Vec::new(alloc);
    add_texts(alloc, &mut own, ends, texts, explains)?;
    let segments = after_primitives(alloc, own)?;
    match link(alloc, segments.as_slice()) {
        Ok(image) => Ok(LinkedProgram { segments, image }),
        Err(fault) => Err(unlinked(alloc, texts, segments.as_slice(), &fault, explains)),
    }
}

/// Parses and links the texts in these files. If `explains`, explains a refusal.
pub fn program_of(
    alloc: Global,
    files: &[TextFile],
    explains: bool,
) -> Result<LinkedProgram, Failure> {
    let texts = texts_of(alloc, files)?;
    linked_program(alloc, texts.as_slice(), explains)
}
