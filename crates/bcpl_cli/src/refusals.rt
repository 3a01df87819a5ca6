//! The first lines of refusals: the part, the number and name of the refusal, and its fields. Other tools parse these
//! lines, so they never change.

use bc_build::{BuildError, GenError, LexError, ParseError, ScopeFault};
use bc_cert::{CheckFault, Mismatch};
use bc_link::LinkError;
use bc_machine::StreamsError;
use bc_text::TextError;
use std::fmt;

/// Prints a refusal with a number.
pub fn write_numbered<W: fmt::Write>(
    f: &mut fmt::Formatter<W>,
    refusal: &str,
    number: u64,
) -> fmt::Result {
    write!(f, "{refusal} {number}")
}

/// Prints a refusal with two numbers.
fn write_twice_numbered<W: fmt::Write>(
    f: &mut fmt::Formatter<W>,
    refusal: &str,
    first: u64,
    second: u64,
) -> fmt::Result {
    write!(f, "{refusal} {first} {second}")
}

/// Prints a refusal of a text.
pub fn write_text<W: fmt::Write>(f: &mut fmt::Formatter<W>, fault: TextError) -> fmt::Result {
    match fault {
        TextError::BadCharacter(at) => write_numbered(f, "text 1 BadCharacter", at),
        TextError::BadNumber(at) => write_numbered(f, "text 2 BadNumber", at),
        TextError::MissingLabel(at) => write_numbered(f, "text 3 MissingLabel", at),
        TextError::Unended => f.write_str("text 4 Unended"),
        TextError::Write => f.write_str("text 5 Write"),
        TextError::Memory => f.write_str("text 6 Memory"),
        TextError::Failed => f.write_str("text 7 Failed"),
    }
}

/// Prints a refusal of a label in a segment.
fn write_label<W: fmt::Write>(
    f: &mut fmt::Formatter<W>,
    refusal: &str,
    segment: usize,
    label: u16,
) -> fmt::Result {
    write_twice_numbered(f, refusal, segment as u64, u64::from(label))
}

/// Prints a refusal of the linker.
pub fn write_link<W: fmt::Write>(f: &mut fmt::Formatter<W>, fault: LinkError) -> fmt::Result {
    match fault {
        LinkError::LabelUnset(segment, label) => {
            write_label(f, "link 1 LabelUnset", segment, label.get())
        }
        LinkError::LabelTwice(segment, label) => {
            write_label(f, "link 2 LabelTwice", segment, label.get())
        }
        LinkError::GlobalTwice(number) => {
            write_numbered(f, "link 3 GlobalTwice", u64::from(number.get()))
        }
        LinkError::TooLarge => f.write_str("link 4 TooLarge"),
        LinkError::Memory => f.write_str("link 5 Memory"),
    }
}

/// Prints a refusal of streams.
pub fn write_streams<W: fmt::Write>(f: &mut fmt::Formatter<W>, fault: StreamsError) -> fmt::Result {
    match fault {
        StreamsError::NameTwice => f.write_str("streams 1 NameTwice"),
        StreamsError::NameTooLong => f.write_str("streams 2 NameTooLong"),
        StreamsError::Memory => f.write_str("streams 3 Memory"),
    }
}

/// Prints a refusal of the lexer with a file and a byte offset.
fn write_place<W: fmt::Write>(
    f: &mut fmt::Formatter<W>,
    name: &str,
    file: usize,
    at: usize,
) -> fmt::Result {
    write!(f, "lex {name} {file} {at}")
}

/// Prints a refusal of the lexer.
fn write_lex<W: fmt::Write>(f: &mut fmt::Formatter<W>, fault: LexError) -> fmt::Result {
    match fault {
        LexError::BadCharacter(file, at) => write_place(f, "1 BadCharacter", file, at),
        LexError::NumberTooLarge(file, at) => write_place(f, "2 NumberTooLarge", file, at),
        LexError::StringTooLong(file, at) => write_place(f, "3 StringTooLong", file, at),
        LexError::Unterminated(file, at) => write_place(f, "4 Unterminated", file, at),
        LexError::BadEscape(file, at) => write_place(f, "5 BadEscape", file, at),
        LexError::GetMissing(file, at) => write_place(f, "6 GetMissing", file, at),
        LexError::GetTooDeep(file, at) => write_place(f, "7 GetTooDeep", file, at),
        LexError::TooManyTokens(file, at) => write_place(f, "8 TooManyTokens", file, at),
        LexError::Memory => f.write_str("lex 9 Memory"),
    }
}

/// Prints a refusal of the parser.
fn write_parse<W: fmt::Write>(f: &mut fmt::Formatter<W>, fault: ParseError) -> fmt::Result {
    match fault {
        ParseError::Expected(token) => write_numbered(f, "parse 1 Expected", token as u64),
        ParseError::Unclosed => f.write_str("parse 2 Unclosed"),
        ParseError::NotOpen(token) => write_numbered(f, "parse 3 NotOpen", token as u64),
        ParseError::TooDeep(token) => write_numbered(f, "parse 4 TooDeep", token as u64),
        ParseError::Memory => f.write_str("parse 5 Memory"),
    }
}

/// Prints a refusal with a name.
fn write_name<W: fmt::Write>(f: &mut fmt::Formatter<W>, refusal: &str, name: &[u8]) -> fmt::Result {
    write!(f, "scope {refusal} ")?;
    for byte in name {
        f.write_char(char::from(*byte))?;
    }
    Ok(())
}

/// Prints a refusal of the scopes.
fn write_scope<W: fmt::Write>(f: &mut fmt::Formatter<W>, fault: &ScopeFault) -> fmt::Result {
    match fault {
        ScopeFault::Undeclared(name) => write_name(f, "1 Undeclared", name),
        ScopeFault::DeclaredTwice(name) => write_name(f, "2 DeclaredTwice", name),
        ScopeFault::DynamicFree(name) => write_name(f, "3 DynamicFree", name),
        ScopeFault::NotConstant => f.write_str("scope 4 NotConstant"),
        ScopeFault::GlobalNumber(name) => write_name(f, "5 GlobalNumber", name),
        ScopeFault::NotAssignable => f.write_str("scope 6 NotAssignable"),
        ScopeFault::Misplaced => f.write_str("scope 7 Misplaced"),
        ScopeFault::FrameTooLarge => f.write_str("scope 8 FrameTooLarge"),
        ScopeFault::CaseTwice => f.write_str("scope 9 CaseTwice"),
        ScopeFault::TooManyPlaces => f.write_str("scope 10 TooManyPlaces"),
        ScopeFault::Memory => f.write_str("scope 11 Memory"),
    }
}

/// Prints a refusal of the code generator.
fn write_gen<W: fmt::Write>(f: &mut fmt::Formatter<W>, fault: GenError) -> fmt::Result {
    match fault {
        GenError::TooManyLabels => f.write_str("gen 1 TooManyLabels"),
        GenError::Memory => f.write_str("gen 2 Memory"),
    }
}

/// Prints a refusal of a build.
pub fn write_build<W: fmt::Write>(f: &mut fmt::Formatter<W>, fault: &BuildError) -> fmt::Result {
    match fault {
        BuildError::Lex(_, fault) => write_lex(f, *fault),
        BuildError::Parse(_, fault) => write_parse(f, *fault),
        BuildError::Scope(_, fault) => write_scope(f, fault),
        BuildError::Gen(_, fault) => write_gen(f, *fault),
        BuildError::Link(fault) => write_link(f, *fault),
        BuildError::Memory => f.write_str("memory"),
    }
}

/// Prints a refusal of a certificate.
pub fn write_check<W: fmt::Write>(f: &mut fmt::Formatter<W>, fault: CheckFault) -> fmt::Result {
    match fault {
        CheckFault::Header => f.write_str("check 1 Header"),
        CheckFault::Line(line) => write_numbered(f, "check 2 Line", line),
        CheckFault::Truncated => f.write_str("check 3 Truncated"),
        CheckFault::WrongCost(entry, node) => {
            write_twice_numbered(f, "check 4 WrongCost", entry, node)
        }
        CheckFault::WrongRule(entry, node) => {
            write_twice_numbered(f, "check 5 WrongRule", entry, node)
        }
        CheckFault::WrongCode(entry) => write_numbered(f, "check 6 WrongCode", entry),
        CheckFault::WrongWords(entry) => write_numbered(f, "check 7 WrongWords", entry),
        CheckFault::TooDeep(line) => write_numbered(f, "check 8 TooDeep", line),
        CheckFault::Read => f.write_str("check 9 Read"),
        CheckFault::Memory => f.write_str("check 10 Memory"),
    }
}

/// Prints a mismatch between a certificate and texts.
pub fn write_against<W: fmt::Write>(f: &mut fmt::Formatter<W>, mismatch: Mismatch) -> fmt::Result {
    match mismatch {
        Mismatch::CodeDiffers(entry) => write_numbered(f, "against 1 CodeDiffers", entry),
        Mismatch::OutsideText(entry) => write_numbered(f, "against 2 OutsideText", entry),
        Mismatch::Order(entry) => write_numbered(f, "against 3 Order", entry),
    }
}
