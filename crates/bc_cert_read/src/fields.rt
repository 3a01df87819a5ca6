//! The fields of a line, and the numbers in them.

ghost use Rattle.std.specs.Prelude.{◌≡◌, ◌≤◌, ◌+◌, length, drop, IfSome};
ghost use Rattle.bc_cert_read.specs.Fields.{cut as cut_of, field as field_of, following as after_letter, number as number_of, small as small_of, level as level_of, number_or_none as number_or_none_of, digits_from, some_number};
ghost use Rattle.bc_cert_read.specs.View.{cut as seen_cut, pair as seen_pair, slice as seen};

/// The bytes before the first separator, and those after it. Without a separator: the whole text and None.
pub fn cut(text: &[u8], separator: u8) -> (&[u8], Option<&[u8]>)
    ensures exact { seen_cut result ≡ cut_of separator text.now }
    ensures shorter { IfSome result.1 (λ rest. length rest.now + 1 ≤ length text.now) }
{
    for at in 0..text.len() {
        if text[at] == separator {
            return (text.split_at(at).0, Some(text.split_at(at + 1).1));
        }
    }
    (text, None)
}

/// The first field, and the text after the blank that ends it. None if the text has no blank.
#[inline(always)]
pub fn field(text: &[u8]) -> Option<(&[u8], &[u8])>
    ensures { seen_pair result ≡ field_of text.now }
{
    match cut(text, b' ') {
        (first, Some(rest)) => Some((first, rest)),
        (_, None) => None,
    }
}

/// The text after this letter and a blank. None if the line doesn't begin with them.
pub fn following(line: &[u8], letter: u8) -> Option<&[u8]>
    ensures { seen result ≡ after_letter line.now letter }
{
    match line {
        [first, second, rest @ ..] => {
            if *first == letter {
                if *second == b' ' { Some(rest) } else { None }
            } else {
                None
            }
        }
        _ => None,
    }
}

/// A number up to 2^64 - 1 in decimal digits without leading zeros. None if the text isn't one.
#[inline(always)]
pub fn number(text: &[u8]) -> Option<u64>
    ensures { result ≡ number_of text.now }
{
    match text {
        [] => None,
        [first, _, ..] => { if *first == b'0' { None } else { digits(text) } }
        [_] => digits(text),
    }
}

/// A number up to 2^64 - 1 in decimal digits; leading zeros are accepted, and an empty text is 0.
#[inline(always)]
fn digits(text: &[u8]) -> Option<u64>
    ensures { result ≡ digits_from 0 text.now }
{
    let mut value: u64 = 0;
    for digit in text {
        if *digit < b'0' || *digit > b'9' {
            return None;
        }
        let next = u128::from(value) * 10 + u128::from(*digit - b'0');
        if next > u128::from(u64::MAX) {
            return None;
        }
        value = next as u64;
    }
    Some(value)
}

/// A number up to 65,535, written as `number` requires.
#[inline(always)]
pub fn small(text: &[u8]) -> Option<u16>
    ensures { result ≡ small_of text.now }
{
    match number(text) {
        Some(value) => {
            if value <= 65535 {
                Some(value as u16)
            } else {
                None
            }
        }
        None => None,
    }
}

/// A level: a number up to 32,768, written as `number` requires.
#[inline(always)]
pub fn level(text: &[u8]) -> Option<u16>
    ensures { result ≡ level_of text.now }
{
    match small(text) {
        Some(level) => { if level <= 32768 { Some(level) } else { None } }
        None => None,
    }
}

/// A number, or `-`, which is `Some(None)`. None if the text is neither.
#[inline(always)]
pub fn number_or_none(text: &[u8]) -> Option<Option<u64>>
    ensures { result ≡ number_or_none_of text.now }
{
    match text {
        [only] => {
            if *only == b'-' {
                Some(None)
            } else {
                some(number(text))
            }
        }
        _ => some(number(text)),
    }
}

/// A number that is there, as `number_or_none` returns it.
#[inline(always)]
fn some(number: Option<u64>) -> Option<Option<u64>>
    ensures { result ≡ some_number number }
{
    match number {
        Some(number) => Some(Some(number)),
        None => None,
    }
}
