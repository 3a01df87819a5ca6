//! Warnings on calls: arguments of another kind than the library takes, and too many or too few of them.

use crate::found::Found;
use crate::known::Known;
use bc_parse_tree::BinaryOp;
use bc_word::Word;
use bcpl_catalogue::ids::{
    ARGUMENT_OF_OTHER_KIND, BYTES_OF_STRING, CELL_ADDRESS, CHARACTER_FOR_STRING, FURTHER_ARGUMENTS,
    FURTHER_ARGUMENTS_READ, FURTHER_ARGUMENTS_WRITTEN, LAST_DIGIT, MISSING_ARGUMENTS,
    NUMBER_FOR_STRING, PLAIN_FORMAT, REPEATED_STRING, ROUTINE_FOR_VALUE, SELECTED_INPUT,
    SELECTED_OUTPUT, SIGNED_NUMBER, STRING_FOR_CHARACTER, STRING_FOR_NUMBER, STRING_OF_CHARACTER,
    UNNAMED_ROUTINE_FOR_VALUE, VALUE_FOR_ADDRESS, VECTOR_FOR_VALUE,
};
use bcpl_index::{Declared, Fact, Form, Kind, Sort, Wanted, signature_of};

/// Whether what is known of an argument doesn't fit what is wanted.
pub fn is_other(wanted: Wanted, fact: &Fact) -> bool {
    match wanted {
        Wanted::Nothing | Wanted::Anything => false,
        Wanted::String => matches!(
            fact.kind,
            Kind::Number | Kind::Character | Kind::Truth | Kind::Routine
        ),
        Wanted::Character => matches!(
            fact.kind,
            Kind::String | Kind::Vector | Kind::Table | Kind::Routine
        ),
        Wanted::Number => matches!(
            fact.kind,
            Kind::String | Kind::Vector | Kind::Table | Kind::Routine | Kind::Local
        ),
        Wanted::Vector => match fact.kind {
            Kind::Number => matches!(fact.value(), Some(word) if word.get() > 0),
            kind => matches!(kind, Kind::Character | Kind::Truth | Kind::Routine),
        },
    }
}

/// What is wanted, in words.
pub fn name_of(wanted: Wanted) -> &'static str {
    match wanted {
        Wanted::Nothing => "nothing",
        Wanted::Anything => "a value",
        Wanted::String => "a string",
        Wanted::Character => "a character",
        Wanted::Number => "a number",
        Wanted::Vector => "a vector",
    }
}

/// What a routine of the library wants, in words.
fn wanted_by(name: &[u8], wanted: Wanted) -> &'static str {
    if name == b"SELECTINPUT".as_slice() || name == b"SELECTOUTPUT".as_slice() {
        "a stream"
    } else {
        name_of(wanted)
    }
}

/// The one character between the quotes of a string, as it is spelled.
pub fn only_character(text: &[u8]) -> Option<&[u8]> {
    let inside = text.get(1..text.len().checked_sub(1)?)?;
    let is_one = inside.len() == 1 || inside.len() == 2 && inside.first() == Some(&b'*');
    if is_one { Some(inside) } else { None }
}

/// Whether a node is a product of which one operand is a string.
fn is_repeated_string(known: &Known<'_, '_>, at: usize) -> bool {
    let tree = known.tree;
    matches!(tree.form(at), Form::Bin(BinaryOp::Multiply))
        && (known.kinds.kind(tree.first(at)) == Kind::String
            || known.kinds.kind(tree.second(at)) == Kind::String)
}

/// The node that declares the routine that a node is, if that is known.
fn routine_of(known: &Known<'_, '_>, at: usize) -> Option<usize> {
    let index = known.kinds.fact(at).declaration()?;
    let declared = known.kinds.names.get(index)?;
    Some(declared.node)
}

/// The help on an argument of another kind.
fn help_on(known: &Known<'_, '_>, at: usize, wanted: Wanted) -> u16 {
    match (wanted, known.kind(at)) {
        (_, Kind::Routine) if routine_of(known, at).is_none() => UNNAMED_ROUTINE_FOR_VALUE,
        (_, Kind::Routine) => ROUTINE_FOR_VALUE,
        (Wanted::Character, Kind::String) => match only_character(known.text(at, at)) {
            Some(_) => STRING_OF_CHARACTER,
            None => STRING_FOR_CHARACTER,
        },
        (Wanted::Number, Kind::String) => STRING_FOR_NUMBER,
        (Wanted::String, Kind::Number) if is_repeated_string(known, at) => REPEATED_STRING,
        (Wanted::String, Kind::Number) => NUMBER_FOR_STRING,
        (Wanted::String, Kind::Character) => CHARACTER_FOR_STRING,
        (_, Kind::Vector | Kind::Table) => VECTOR_FOR_VALUE,
        _ => VALUE_FOR_ADDRESS,
    }
}

/// An argument of another kind, with the help on it.
pub fn found_other(known: &Known<'_, '_>, id: u16, at: usize, wanted: Wanted) -> Found {
    let found = Found::new(id, at).helped(help_on(known, at, wanted));
    match routine_of(known, at) {
        Some(routine) => found.and(routine, at),
        None => found,
    }
}

/// The help on a string that is selected as a stream, or on the order of arguments.
fn help_with_routine(known: &Known<'_, '_>, at: usize, name: &[u8]) -> Option<u16> {
    let is_number = matches!(known.kind(at), Kind::Number | Kind::Truth);
    if is_number && (name == b"PUTBYTE".as_slice() || name == b"GETBYTE".as_slice()) {
        Some(BYTES_OF_STRING)
    } else if !known.is(at, Kind::String) {
        None
    } else if name == b"SELECTINPUT".as_slice() {
        Some(SELECTED_INPUT)
    } else if name == b"SELECTOUTPUT".as_slice() {
        Some(SELECTED_OUTPUT)
    } else {
        None
    }
}

/// WRITEN(V + 2), where V is a vector.
fn check_cell_address(known: &Known<'_, '_>, at: usize) -> Option<Found> {
    let (vector, number) = known.sides(at);
    let is_vector = matches!(known.kind(vector), Kind::Vector | Kind::Table)
        && matches!(known.form(vector), Form::Name);
    let is_plain = matches!(known.form(number), Form::Number(_) | Form::Name);
    if !matches!(known.form(at), Form::Bin(BinaryOp::Add)) || !is_vector || !is_plain {
        return None;
    }
    Some(Found::new(CELL_ADDRESS, at).with(vector, number))
}

/// WRCH(N REM 10).
fn check_last_digit(known: &Known<'_, '_>, at: usize) -> Option<Found> {
    let divisor = known.value(known.tree.second(at))?.get();
    if !matches!(known.form(at), Form::Bin(BinaryOp::Remainder)) || divisor < 2 || divisor > 10 {
        return None;
    }
    Some(Found::new(LAST_DIGIT, at))
}

/// An argument of a routine of the library, which this node declares.
fn check_argument(
    known: &Known<'_, '_>,
    at: usize,
    routine: usize,
    wanted: Wanted,
) -> Option<Found> {
    let name = known.tree.text(routine);
    if is_other(wanted, &known.kinds.fact(at)) {
        let found = found_other(known, ARGUMENT_OF_OTHER_KIND, at, wanted);
        let found = found.with(at, routine).saying(wanted_by(name, wanted));
        return match help_with_routine(known, at, name) {
            Some(help) => Some(found.helped(help)),
            None => Some(found),
        };
    }
    if name == b"WRITEN".as_slice() {
        return match check_large(known, at) {
            Some(found) => Some(found),
            None => check_cell_address(known, at),
        };
    }
    if name == b"WRCH".as_slice() {
        return check_last_digit(known, at);
    }
    None
}

/// The arguments of a routine of the library, which this node declares.
fn check_kinds(known: &Known<'_, '_>, at: usize, routine: usize) -> Option<Found> {
    let signature = signature_of(known.tree.text(routine))?;
    let end = known.tree.end(at);
    let mut argument = known.tree.second(at);
    for index in 0..3 {
        if argument >= end {
            return None;
        }
        let found = check_argument(known, argument, routine, signature.wanted(index));
        if found.is_some() {
            return found;
        }
        argument = known.tree.end(argument);
    }
    None
}

/// Whether a word is negative when it is read signed.
pub fn is_negative(word: Word) -> bool {
    word.get() > 32767
}

/// The value of a decimal literal that is too large for a signed word.
pub fn large(known: &Known<'_, '_>, at: usize) -> Option<Word> {
    let fact = known.kinds.fact(at);
    let word = fact.value()?;
    let first = known.tree.text(fact.literal()?).first()?;
    if is_negative(word) && first.is_ascii_digit() {
        Some(word)
    } else {
        None
    }
}

/// A number that is negative when it is read signed.
pub fn check_large(known: &Known<'_, '_>, at: usize) -> Option<Found> {
    let number = u64::from(large(known, at)?.get());
    Some(Found::new(SIGNED_NUMBER, at).counting(number, 0))
}

/// How many arguments a call has.
pub fn arguments(known: &Known<'_, '_>, at: usize) -> usize {
    let tree = known.tree;
    let end = tree.end(at);
    let mut argument = tree.second(at);
    let mut count: usize = 0;
    for _ in at..end {
        if argument >= end {
            break;
        }
        count = count.saturating_add(1);
        argument = tree.end(argument);
    }
    count
}

/// How many parameters a routine has. `None` if the address of one is taken: then others may follow it.
fn parameters(known: &Known<'_, '_>, routine: usize) -> Option<usize> {
    let tree = known.tree;
    let mut count: usize = 0;
    for node in tree.first(routine)..tree.end(routine) {
        if !matches!(tree.form(node), Form::Parameter) {
            break;
        }
        match known.kinds.names.at(node) {
            Some(parameter) if !parameter.is_addressed => {}
            _ => return None,
        }
        count = count.saturating_add(1);
    }
    Some(count)
}

/// How many parameters a declared routine has, if that is known.
fn parameters_of(known: &Known<'_, '_>, declared: &Declared) -> Option<usize> {
    if declared.is_library {
        let signature = signature_of(known.tree.text(declared.node))?;
        Some(signature.parameters())
    } else {
        parameters(known, declared.node)
    }
}

/// A call with more arguments than the routine has parameters, or fewer than one of the library has.
fn check_count(known: &Known<'_, '_>, at: usize, declared: &Declared) -> Option<Found> {
    let taken = parameters_of(known, declared)?;
    let given = arguments(known, at);
    let is_short = given < taken && declared.is_library;
    if given <= taken && !is_short {
        return None;
    }
    let id = if is_short {
        MISSING_ARGUMENTS
    } else if is_writing(known, declared) {
        FURTHER_ARGUMENTS_WRITTEN
    } else if is_reading(known, declared) {
        FURTHER_ARGUMENTS_READ
    } else {
        FURTHER_ARGUMENTS
    };
    let found = Found::new(id, known.tree.first(at)).of(declared.node);
    Some(found.counting(given as u64, taken as u64))
}

/// Whether a declaration is that of the library's WRITES or WRITEN.
fn is_writing(known: &Known<'_, '_>, declared: &Declared) -> bool {
    let name = known.tree.text(declared.node);
    declared.is_library && (name == b"WRITES".as_slice() || name == b"WRITEN".as_slice())
}

/// Whether a declaration is that of the library's RDCH or READN.
fn is_reading(known: &Known<'_, '_>, declared: &Declared) -> bool {
    let name = known.tree.text(declared.node);
    declared.is_library && (name == b"RDCH".as_slice() || name == b"READN".as_slice())
}

/// The letter after the first `%` of a text that WRITEF would write a value for, if there is one.
fn format_letter(text: &[u8]) -> Option<u8> {
    let mut is_after = false;
    for byte in text {
        if is_after && matches!(*byte, b'N' | b'S' | b'C' | b'n' | b's' | b'c' | b'd') {
            return Some(*byte);
        }
        is_after = *byte == b'%';
    }
    None
}

/// A format that WRITES is given.
fn check_plain_format(known: &Known<'_, '_>, at: usize, name: &[u8]) -> Option<Found> {
    let text = known.tree.second(at);
    if name != b"WRITES".as_slice() || !matches!(known.form(text), Form::String) {
        return None;
    }
    let letter = format_letter(known.tree.text(text))?;
    Some(Found::new(PLAIN_FORMAT, text).counting(u64::from(letter), 0))
}

/// A call of a routine of the library.
fn check_library_call(known: &Known<'_, '_>, at: usize, declared: &Declared) -> Option<Found> {
    if let Some(found) = check_kinds(known, at, declared.node) {
        return Some(found);
    }
    let name = known.tree.text(declared.node);
    if let Some(found) = check_plain_format(known, at, name) {
        return Some(found);
    }
    check_count(known, at, declared)
}

/// A call.
pub fn check_call(known: &Known<'_, '_>, at: usize) -> Option<Found> {
    let declared = known.kinds.names.at(known.tree.first(at))?;
    if declared.is_assigned {
        None
    } else if declared.is_library {
        check_library_call(known, at, declared)
    } else if declared.sort == Sort::Routine {
        check_count(known, at, declared)
    } else {
        None
    }
}
