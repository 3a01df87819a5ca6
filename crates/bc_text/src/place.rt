//! The transitions of the reader: its next state, given its state and a byte. `at` is always the position of that byte.

ghost use Rattle.std.specs.Prelude.{◌≡◌, ◌≤◌, ◌+◌, ◌<◌, IsTrue, cond, nat_le, IfOk};
ghost use Rattle.std.specs.Char.{is_ascii_digit};
ghost use Rattle.bc_text.specs.Letters.{is_blank};
ghost use Rattle.bc_text.specs.Heads.{allows, limit};
ghost use Rattle.bc_text.specs.Steps.{head_of, longer, greatest, with_digit, after_letter, after_head, after_minus, between, after_global, ended_number, word_of, is_in_range};

use crate::head::{Ended, Head, Position};
use crate::text_error::TextError;
use bc_text_items::{Base, Function, GlobalNumber, Item};
use bc_word::Word;

/// Whether the byte separates items: space, tab, CR, LF or `$`. (The `/` of a comment isn't included.)
#[inline]
pub fn is_blank(byte: u8) -> bool
    ensures { result ≡ is_blank byte }
{
    matches!(byte, b' ' | b'\t' | b'\r' | b'\n' | b'$')
}

/// Whether a `-` may follow the head.
#[inline]
pub fn allows_minus(head: &Head) -> bool
    ensures { result ≡ allows head.now 45 }
{
    match head {
        Head::Data => true,
        Head::Operation { base, .. } => *base != Base::Label,
        _ => false,
    }
}

/// The greatest number that may follow the head without a sign.
#[inline]
pub fn limit(head: &Head) -> u16
    ensures { result ≡ limit head.now }
{
    match head {
        Head::Byte => 255,
        Head::Global => 511,
        _ => u16::MAX,
    }
}

/// The head that a letter begins; `None` if it begins none.
#[inline]
pub fn head_of(byte: u8) -> Option<Head>
    ensures { result ≡ head_of byte }
{
    let function = match byte {
        b'D' => return Some(Head::Data),
        b'C' => return Some(Head::Byte),
        b'G' => return Some(Head::Global),
        b'L' => Function::Load,
        b'S' => Function::Store,
        b'A' => Function::Add,
        b'J' => Function::Jump,
        b'T' => Function::JumpIfTrue,
        b'F' => Function::JumpIfFalse,
        b'K' => Function::Call,
        b'X' => Function::Execute,
        _ => return None,
    };
    Some(Head::Operation {
        function,
        indirect: false,
        base: Base::Number,
    })
}

/// The head with one more letter; `None` if that is no head.
#[inline]
pub fn longer(head: &Head, byte: u8) -> Option<Head>
    ensures { result ≡ longer head.now byte }
{
    match (*head, byte) {
        (Head::Data, b'L') => Some(Head::DataLabel),
        (
            Head::Operation {
                function,
                indirect,
                base: Base::Number,
            },
            _,
        ) => {
            let (indirect, base) = match byte {
                b'I' if !indirect => (true, Base::Number),
                b'P' => (indirect, Base::P),
                b'G' => (indirect, Base::G),
                b'L' => (indirect, Base::Label),
                _ => return None,
            };
            Some(Head::Operation {
                function,
                indirect,
                base,
            })
        }
        _ => None,
    }
}

/// The state after one more digit of a number whose first byte is at position `from`. `BadNumber(from)` if the number is out of range.
#[inline]
pub fn with_digit(
    head: &Head,
    from: u64,
    negative: bool,
    value: u16,
    byte: u8,
) -> Result<Position, TextError>
    requires { IsTrue (is_ascii_digit byte) }
    ensures is { result ≡ with_digit head.now from negative value byte }
    ensures in_range { IfOk result (λ place. IsTrue (is_in_range place)) }
{
    let greatest = if negative {
        limit(head).min(32768)
    } else {
        limit(head)
    };
    let more = u32::from(value) * 10 + u32::from(byte - b'0');
    if u32::from(greatest) < more {
        return Err(TextError::BadNumber(from));
    }
    Ok(Position::Digits {
        head: *head,
        from,
        negative,
        value: more as u16,
    })
}

/// The state after a byte that follows a head. `BadNumber` unless it is a digit or a byte that the head allows.
#[inline]
pub fn after_head(head: &Head, byte: u8, at: u64) -> Result<Position, TextError>
    ensures is { result ≡ after_head head.now byte at }
    ensures in_range { IfOk result (λ place. IsTrue (is_in_range place)) }
{
    if byte.is_ascii_digit() {
        return with_digit(head, at, false, 0, byte);
    }
    if byte == b'-' && allows_minus(head) {
        return Ok(Position::Minus {
            head: *head,
            from: at,
        });
    }
    match longer(head, byte) {
        Some(head) => Ok(Position::Head(head)),
        None => Err(TextError::BadNumber(at)),
    }
}

/// The state after a byte that follows the `-` of a number. `BadNumber` unless it is a digit.
#[inline]
pub fn after_minus(head: &Head, from: u64, byte: u8, at: u64) -> Result<Position, TextError>
    ensures is { result ≡ after_minus head.now from byte at }
    ensures in_range { IfOk result (λ place. IsTrue (is_in_range place)) }
{
    if byte.is_ascii_digit() {
        with_digit(head, from, true, 0, byte)
    } else {
        Err(TextError::BadNumber(at))
    }
}

/// The state after a byte between items, other than the `Z` that ends a segment. `BadCharacter` if no item begins with it.
#[inline]
pub fn between(byte: u8, at: u64) -> Result<Position, TextError>
    ensures is { result ≡ between byte at }
    ensures in_range { IfOk result (λ place. IsTrue (is_in_range place)) }
{
    if is_blank(byte) {
        return Ok(Position::Between);
    }
    if byte == b'/' {
        return Ok(Position::Comment);
    }
    if byte.is_ascii_digit() {
        return with_digit(&Head::Label, at, false, 0, byte);
    }
    match head_of(byte) {
        Some(head) => Ok(Position::Head(head)),
        None => Err(TextError::BadCharacter(at)),
    }
}

/// The state after a byte that follows the number of a global. `MissingLabel` unless it is `L`.
#[inline]
pub fn after_global(number: GlobalNumber, byte: u8, at: u64) -> Result<Position, TextError>
    ensures is { result ≡ after_global number byte at }
    ensures in_range { IfOk result (λ place. IsTrue (is_in_range place)) }
{
    if byte == b'L' {
        Ok(Position::Head(Head::GlobalLabel(number)))
    } else {
        Err(TextError::MissingLabel(at))
    }
}

/// The word of a number; a negative one is taken modulo 65,536.
#[inline]
fn word_of(negative: bool, value: u16) -> Word
    ensures { result ≡ word_of negative value }
{
    Word::new(if negative {
        value.wrapping_neg()
    } else {
        value
    })
}

/// What a number completes when its digits end. The value must not be above the head's limit.
#[inline]
pub fn ended_number(head: &Head, negative: bool, value: u16) -> Ended
    requires { IsTrue (nat_le value (limit head.now)) }
    ensures { result ≡ ended_number head.now negative value }
{
    match *head {
        Head::Label => Ended::Item(Item::Label(word_of(negative, value))),
        Head::Data => Ended::Item(Item::Data(word_of(negative, value))),
        Head::DataLabel => Ended::Item(Item::DataLabel(word_of(negative, value))),
        Head::Byte => Ended::Item(Item::Byte(value as u8)),
        Head::Operation {
            function,
            indirect,
            base,
        } => Ended::Item(Item::Operation {
            function,
            indirect,
            base,
            number: word_of(negative, value),
        }),
        Head::Global => Ended::Global(GlobalNumber::new(value).unwrap()),
        Head::GlobalLabel(number) => Ended::Item(Item::Global {
            number,
            label: word_of(negative, value),
        }),
    }
}
