//! Section brackets that are inside comments.

use crate::read::Read;
use bcpl_places::Span;
use bstr::ByteSlice;

/// The last occurrence of this sign in the comments directly before the token with this index. An index past the end asks
/// for the comments after the last token.
fn hidden_in_front(read: Read<'_, '_>, index: usize, sign: &str) -> Option<Span> {
    let before = read.tokens.get(index.checked_sub(1)?)?;
    let text = read.source(before.file);
    let end = match read.tokens.get(index) {
        Some(token) if token.file == before.file => token.start,
        Some(_) => return None,
        None => text.len(),
    };
    let comments = text.get(before.end..end)?;
    let start = before.end.checked_add(comments.rfind(sign.as_bytes())?)?;
    Some(Span {
        file: before.file,
        start,
        end: start.checked_add(sign.len())?,
    })
}

/// The last occurrence of this sign in the comments after the token `first` and before the token `second`, which may be
/// the end.
pub fn hidden_between(read: Read<'_, '_>, first: usize, second: usize, sign: &str) -> Option<Span> {
    let mut found = None;
    for index in first..second {
        if let Some(span) = hidden_in_front(read, index.saturating_add(1), sign) {
            found = Some(span);
        }
    }
    found
}
