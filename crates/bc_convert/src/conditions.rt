//! Conditional compilation: `$<TAG` and `$~TAG` begin a part that is compiled if the tag is set, or isn't, `$>TAG` ends it,
//! and `$$TAG` sets a tag that isn't set, and the other way round. The parts that aren't compiled become comments, and so
//! do the signs.

ghost use Rattle.std.specs.Prelude.{◌≡◌, length, IfOk};

use crate::bytes::span;
use crate::complaint::{Complaint, Fault};
use crate::kind::Kind;
use crate::lexing::lex;
use crate::prepared::prepared;
use crate::replacement::Replacement;
use crate::source::Token;
use bc_word::Memory;
use std::alloc::Global;

/// A text as it is compiled, and how it becomes that.
#[derive(Drop)]
pub struct Compiled {
    /// The text with form feeds instead of the parts that aren't compiled and the signs. Each other byte is at its index.
    pub text: Vec<u8>,
    /// The replacements that make comments of them, in the order of the text.
    pub changes: Vec<Replacement>,
    /// The tags that nothing sets.
    pub complaints: Vec<Complaint>,
}

/// The signs of a text and the tags that are set.
#[derive(Drop)]
struct Tags<'t> {
    text: &'t [u8],
    /// The tags that are set where the text begins.
    defines: &'t [&'t str],
    /// The tag of each `$$`.
    flips: Vec<&'t [u8]>,
    /// The tags that were reported.
    reported: Vec<&'t [u8]>,
}

impl<'t> Tags<'t> {
    /// The tag of a sign.
    fn tag(&self, sign: Token) -> &'t [u8] {
        span(self.text, sign.start.saturating_add(2), sign.end)
    }

    /// The byte after the `$` of a sign.
    fn letter(&self, sign: Token) -> u8 {
        let second = sign.start.saturating_add(1);
        self.text.get(second).copied().unwrap_or(0)
    }

    /// Whether a tag is set.
    fn is_set(&self, tag: &[u8]) -> bool {
        let mut is_set = false;
        for name in self.defines {
            is_set |= name.as_bytes() == tag;
        }
        for flip in &self.flips {
            is_set ^= *flip == tag;
        }
        is_set
    }

    /// Whether the part after a sign isn't compiled.
    fn leaves_out(&self, sign: Token) -> bool {
        let is_set = self.is_set(self.tag(sign));
        match self.letter(sign) {
            b'<' => !is_set,
            b'~' => is_set,
            _ => false,
        }
    }

    /// Whether the tag of a sign must be reported: nothing says whether it is set.
    fn is_unknown(&self, sign: Token) -> bool {
        let tag = self.tag(sign);
        matches!(self.letter(sign), b'<' | b'~')
            && self.defines.is_empty()
            && !self.flips.contains(&tag)
            && !self.reported.contains(&tag)
    }
}

/// The index of the sign that ends the part after the sign at an index, among these signs.
fn end_of_part(tags: &Tags<'_>, signs: &[Token], index: usize) -> Option<usize> {
    let tag = tags.tag(*signs.get(index)?);
    for end in index.saturating_add(1)..signs.len() {
        if let Some(sign) = signs.get(end)
            && tags.letter(*sign) == b'>'
            && tags.tag(*sign) == tag
        {
            return Some(end);
        }
    }
    None
}

impl Compiled {
    /// Puts form feeds instead of the bytes in a range that aren't line breaks.
    fn blank(&mut self, start: usize, end: usize)
        ensures { length self.new.text.items ≡ length self.old.text.items }
    {
        for index in start..end {
            if index < self.text.len() && !matches!(self.text[index], b'\n' | b'\r') {
                self.text[index] = b'\x0c';
            }
        }
    }

    /// Replaces a span by these bytes.
    fn put(
        &mut self,
        alloc: Global,
        start: usize,
        end: usize,
        parts: &[&[u8]],
    ) -> Result<(), Memory>
        ensures { self.new.text ≡ self.old.text }
    {
        let mut text = Vec::new(alloc);
        for part in parts {
            text.extend_from_slice(part)?;
        }
        self.changes.push(Replacement { start, end, text })?;
        Ok(())
    }

    /// Makes a comment of a sign.
    fn put_sign(&mut self, alloc: Global, text: &[u8], sign: Token) -> Result<(), Memory>
        ensures { length self.new.text.items ≡ length self.old.text.items }
    {
        let Token { start, end, .. } = sign;
        self.blank(start, end);
        self.put(alloc, start, end, &[b"/*", span(text, start, end), b"*/"])
    }

    /// Makes a comment of the part from one sign to another one. The end of a comment in it is taken apart.
    fn put_part(&mut self, alloc: Global, text: &[u8], from: Token, to: Token) -> Result<(), Memory>
        ensures { length self.new.text.items ≡ length self.old.text.items }
    {
        self.blank(from.start, to.end);
        let opening = span(text, from.start, from.end);
        self.put(alloc, from.start, from.end, &[b"/*", opening])?;
        for index in from.end..to.start {
            let end = index.saturating_add(2);
            if span(text, index, end) == b"*/".as_slice() {
                self.put(alloc, index, end, &[b"* /"])?;
            }
        }
        let closing = span(text, to.start, to.end);
        self.put(alloc, to.start, to.end, &[closing, b"*/"])
    }

    /// Reports a sign whose tag nothing sets.
    fn report(&mut self, sign: Token) -> Result<(), Memory>
        ensures { self.new.text ≡ self.old.text }
    {
        self.complaints.push(Complaint {
            start: sign.start,
            end: sign.end,
            fault: Fault::TagNotSet,
        })?;
        Ok(())
    }
}

/// Makes comments of the sign at an index among these signs, and of the part after it if that isn't compiled. Returns the
/// index of the next sign that counts.
fn take_sign(
    alloc: Global,
    compiled: &mut Compiled,
    tags: &mut Tags<'_>,
    signs: &[Token],
    index: usize,
) -> Result<usize, Memory>
    ensures { length compiled.new.text.items ≡ length compiled.old.text.items }
{
    let next = index.saturating_add(1);
    let Some(sign) = signs.get(index).copied() else {
        return Ok(next);
    };
    let is_left_out = tags.leaves_out(sign);
    let end = if is_left_out {
        end_of_part(tags, signs, index)
    } else {
        None
    };
    if is_left_out && end.is_none() {
        return Ok(signs.len());
    }
    if tags.is_unknown(sign) {
        compiled.report(sign)?;
        let tag = tags.tag(sign);
        tags.reported.push(tag)?;
    }
    if let Some(end) = end {
        let closing = signs.get(end).copied().unwrap_or(sign);
        compiled.put_part(alloc, tags.text, sign, closing)?;
        return Ok(end.saturating_add(1));
    }
    if tags.letter(sign) == b'$' {
        let tag = tags.tag(sign);
        tags.flips.push(tag)?;
    }
    compiled.put_sign(alloc, tags.text, sign)?;
    Ok(next)
}

/// The signs of conditional compilation in a text.
fn signs_of(alloc: Global, text: &[u8]) -> Result<Vec<Token>, Memory> {
    let mut signs = Vec::new(alloc);
    let may_have_signs = text
        .windows(2)
        .any(|pair| matches!(pair, [b'$', b'<' | b'~' | b'$' | b'>']));
    if may_have_signs {
        for token in lex(alloc, text)? {
            if token.kind == Kind::Condition {
                signs.push(token)?;
            }
        }
    }
    Ok(signs)
}

/// A text as it is compiled if these tags are set where it begins. A part that isn't compiled and that nothing ends stays
/// as it is, with all signs after it.
///
/// # Errors
///
/// `Memory` if an allocation failed.
pub fn without_others(alloc: Global, text: &[u8], defines: &[&str]) -> Result<Compiled, Memory>
    ensures { IfOk result (λ compiled. length compiled.text.items ≡ length text.now) }
{
    let mut compiled = Compiled {
        text: Vec::from_slice(alloc, text)?,
        changes: Vec::new(alloc),
        complaints: Vec::new(alloc),
    };
    let signs = signs_of(alloc, text)?;
    let mut tags = Tags {
        text,
        defines,
        flips: Vec::new(alloc),
        reported: Vec::new(alloc),
    };
    let mut index = 0;
    for _ in 0..signs.len() {
        if index >= signs.len() {
            break;
        }
        index = take_sign(alloc, &mut compiled, &mut tags, signs.as_slice(), index)?;
    }
    Ok(compiled)
}

/// A text as a conversion reads it, without the parts that aren't compiled if these tags are set.
///
/// # Errors
///
/// `Memory` if an allocation failed.
pub fn compiled_text(alloc: Global, text: &[u8], defines: &[&str]) -> Result<Vec<u8>, Memory> {
    let prepared = prepared(alloc, text)?;
    let compiled = without_others(alloc, prepared.as_slice(), defines)?;
    Ok(compiled.text)
}
