//! The words of a source: its names, reserved words and numbers, also those in comments and strings.

/// Whether this byte can be part of a name.
fn is_of_word(byte: u8) -> bool {
    byte.is_ascii_alphanumeric() || byte == b'.'
}

/// The first word of a text and what follows it; `None` if there is no word.
pub fn first_word(text: &[u8]) -> Option<(&[u8], &[u8])> {
    let begin = text.iter().position(|byte| is_of_word(*byte))?;
    let rest = text.get(begin..)?;
    let length = rest
        .iter()
        .position(|byte| !is_of_word(*byte))
        .unwrap_or(rest.len());
    rest.split_at_checked(length)
}
