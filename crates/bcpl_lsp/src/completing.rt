//! Proposals for the word before a position, and the signature of the call around it.

use crate::described::{call_of, library_text, noun, shown};
use crate::document::{Document, tokens_before};
use crate::json_values::{JsonArray, JsonObject};
use crate::library_routines::{LibraryRoutine, library_routine};
use crate::names::Sort;
use crate::scanned::{ScannedName, is_symbol, names_at_end, parameters_after, symbol_of};
use bc_lex_tokens::{Symbol, Token, TokenKind};
use bc_word::Memory;
use indexmap::IndexSet;
use serde_json::Value;
use std::alloc::Global;

/// The reserved words.
const WORDS: [&str; 52] = [
    "AND",
    "BE",
    "BREAK",
    "BY",
    "CASE",
    "DEFAULT",
    "DO",
    "ELSE",
    "ENDCASE",
    "EQ",
    "EQV",
    "FALSE",
    "FINISH",
    "FOR",
    "GE",
    "GET",
    "GLOBAL",
    "GOTO",
    "GR",
    "IF",
    "INTO",
    "LE",
    "LET",
    "LOGAND",
    "LOGOR",
    "LOOP",
    "LS",
    "LSHIFT",
    "MANIFEST",
    "NE",
    "NEQV",
    "NOT",
    "OR",
    "REM",
    "REPEAT",
    "REPEATUNTIL",
    "REPEATWHILE",
    "RESULTIS",
    "RETURN",
    "RSHIFT",
    "STATIC",
    "SWITCHON",
    "TABLE",
    "TEST",
    "THEN",
    "TO",
    "TRUE",
    "UNLESS",
    "UNTIL",
    "VALOF",
    "VEC",
    "WHILE",
];

/// Whether a name can contain this byte.
fn is_of_name(byte: u8) -> bool {
    byte.is_ascii_alphanumeric() || byte == b'.'
}

/// The offset at which the word before an offset begins.
fn word_start(text: &[u8], offset: usize) -> usize {
    let before = text.get(..offset).unwrap_or(b"");
    match before.iter().rposition(|byte| !is_of_name(*byte)) {
        Some(last) => last.saturating_add(1),
        None => 0,
    }
}

/// The kind that the protocol has for a proposal of this sort.
fn item_kind(sort: Sort) -> u64 {
    match sort {
        Sort::Function | Sort::Routine => 3,
        Sort::Constant => 21,
        Sort::Label => 18,
        _ => 6,
    }
}

/// The number after the name of a global in a list of constants.
fn number_after(tokens: &[Token<'_>], index: usize) -> Option<u16> {
    match tokens.get(index.saturating_add(2))?.kind {
        TokenKind::Number(number) => Some(number),
        _ => None,
    }
}

/// The library's routine that a name declares, if it is one.
fn routine_at(tokens: &[Token<'_>], scanned: ScannedName, name: &str) -> Option<LibraryRoutine> {
    if scanned.sort != Sort::Global {
        return None;
    }
    let routine = library_routine(number_after(tokens, scanned.token)?)?;
    if routine.name == name {
        Some(routine)
    } else {
        None
    }
}

/// The proposal of a library's routine.
fn library_item(alloc: Global, routine: &LibraryRoutine) -> Result<Value, Memory> {
    let call = call_of(alloc, routine)?;
    let said = library_text(alloc, routine)?;
    let mut object = JsonObject::new(alloc);
    object.add_text("label", routine.name);
    object.add_number("kind", 3);
    object.add_text("detail", call.as_str());
    object.add_text("documentation", said.as_str());
    object.finish()
}

/// The parameters that the source declares after a name, as they are written.
fn parameters_of<'d>(
    document: &'d Document,
    tokens: &[Token<'_>],
    scanned: ScannedName,
) -> &'d str {
    let text = match tokens.get(scanned.token) {
        Some(token) => match document.file(token.file) {
            Some(file) => file.text.as_slice(),
            None => b"",
        },
        None => b"",
    };
    shown(parameters_after(tokens, scanned.token, text))
}

/// The proposal of a name that the source declares.
fn own_item(
    alloc: Global,
    document: &Document,
    tokens: &[Token<'_>],
    scanned: ScannedName,
    name: &str,
) -> Result<Value, Memory> {
    let mut detail = String::from_str(alloc, noun(scanned.sort))?;
    if scanned.sort == Sort::Routine {
        let parameters = parameters_of(document, tokens, scanned);
        write!(detail, " {name}({parameters})")?;
    }
    let mut object = JsonObject::new(alloc);
    object.add_text("label", name);
    object.add_number("kind", item_kind(scanned.sort));
    object.add_text("detail", detail.as_str());
    object.finish()
}

/// The proposal of a name in scope.
fn name_item(
    alloc: Global,
    document: &Document,
    tokens: &[Token<'_>],
    scanned: ScannedName,
    name: &str,
) -> Result<Value, Memory> {
    match routine_at(tokens, scanned, name) {
        Some(routine) => library_item(alloc, &routine),
        None => own_item(alloc, document, tokens, scanned, name),
    }
}

/// Adds the names in scope, each once, the innermost first.
fn add_names(
    list: &mut JsonArray,
    alloc: Global,
    document: &Document,
    tokens: &[Token<'_>],
) -> Result<(), Memory> {
    let mut met: IndexSet<&[u8]> = IndexSet::new(alloc);
    let names = names_at_end(alloc, tokens)?;
    for scanned in names.iter().rev() {
        if let Some(token) = tokens.get(scanned.token)
            && met.insert(token.text)?
        {
            let name = shown(token.text);
            list.add(name_item(alloc, document, tokens, *scanned, name));
        }
    }
    Ok(())
}

/// The proposal of a reserved word.
fn word_item(alloc: Global, word: &str) -> Result<Value, Memory> {
    let mut object = JsonObject::new(alloc);
    object.add_text("label", word);
    object.add_number("kind", 14);
    object.finish()
}

/// Adds the reserved words.
fn add_words(list: &mut JsonArray, alloc: Global) {
    for word in WORDS.iter() {
        list.add(word_item(alloc, word));
    }
}

/// The answer to `textDocument/completion`. Nothing is proposed in strings, comments and numbers. Returns `Memory` if an
/// allocation fails.
pub fn completion(alloc: Global, document: &Document, offset: usize) -> Result<Value, Memory> {
    let start = word_start(document.text(), offset);
    let is_number = match document.text().get(start) {
        Some(byte) => start < offset && !byte.is_ascii_alphabetic(),
        None => false,
    };
    let tokens = tokens_before(alloc, document.files.as_slice(), start)?;
    let mut list = JsonArray::new(alloc);
    let is_begun = tokens.is_empty() && !is_blank(document.text(), start);
    if !is_number && !is_begun {
        add_names(&mut list, alloc, document, tokens.as_slice())?;
        add_words(&mut list, alloc);
    }
    list.finish()
}

/// Whether a text has only white space before an offset.
fn is_blank(text: &[u8], offset: usize) -> bool {
    let before = text.get(..offset).unwrap_or(b"");
    before.iter().all(|byte| byte.is_ascii_whitespace())
}

/// A call that is open.
#[derive(Clone, Copy)]
struct OpenCall {
    /// The index of the routine's name.
    name: usize,
    /// How many arguments are complete.
    commas: u64,
}

/// The innermost call that is open at the end of these tokens.
fn open_call(tokens: &[Token<'_>]) -> Option<OpenCall> {
    let mut depth: usize = 0;
    let mut commas: u64 = 0;
    for index in (0..tokens.len()).rev() {
        match symbol_of(tokens, index) {
            Some(Symbol::CloseBracket) => depth = depth.saturating_add(1),
            Some(Symbol::OpenBracket) if depth > 0 => depth = depth.saturating_sub(1),
            Some(Symbol::OpenBracket) => {
                let name = index.checked_sub(1)?;
                return match tokens.get(name)?.kind {
                    TokenKind::Name(_) => Some(OpenCall { name, commas }),
                    _ => None,
                };
            }
            Some(Symbol::Comma) if depth == 0 => commas = commas.saturating_add(1),
            Some(Symbol::OpenSection | Symbol::CloseSection | Symbol::Semicolon) => return None,
            _ => {}
        }
    }
    None
}

/// The newest of these names with this text.
fn scanned_named(tokens: &[Token<'_>], names: &[ScannedName], name: &[u8]) -> Option<ScannedName> {
    for scanned in names.iter().rev() {
        if let Some(token) = tokens.get(scanned.token)
            && token.text == name
        {
            return Some(*scanned);
        }
    }
    None
}

/// A parameter of a signature.
fn parameter_item(alloc: Global, parameter: &str) -> Result<Value, Memory> {
    let mut object = JsonObject::new(alloc);
    object.add_text("label", parameter);
    object.finish()
}

/// The parameters of a signature. `parameters` has their names with commas.
fn parameter_list(alloc: Global, parameters: &str) -> JsonArray {
    let mut list = JsonArray::new(alloc);
    for parameter in parameters.split(',') {
        let parameter = parameter.trim();
        if !parameter.is_empty() {
            list.add(parameter_item(alloc, parameter));
        }
    }
    list
}

/// A signature, as the protocol has it. `parameters` has the names with commas.
fn signature(
    alloc: Global,
    name: &str,
    parameters: &str,
    said: &str,
    commas: u64,
) -> Result<Value, Memory> {
    let label = format!(in alloc; "{name}({parameters})")?;
    let list = parameter_list(alloc, parameters);
    let last = (list.len() as u64).saturating_sub(1);
    let mut signature = JsonObject::new(alloc);
    signature.add_text("label", label.as_str());
    signature.add_text("documentation", said);
    signature.add("parameters", list.finish());
    let mut signatures = JsonArray::new(alloc);
    signatures.add(signature.finish());
    let mut object = JsonObject::new(alloc);
    object.add("signatures", signatures.finish());
    object.add_number("activeSignature", 0);
    object.add_number("activeParameter", commas.min(last));
    object.finish()
}

/// The newest declaration of a name before the end of these tokens, if there is one.
fn declaration_of(
    alloc: Global,
    tokens: &[Token<'_>],
    name: &[u8],
) -> Result<Option<ScannedName>, Memory> {
    let names = names_at_end(alloc, tokens)?;
    Ok(scanned_named(tokens, names.as_slice(), name))
}

/// The signature of a library's routine.
fn library_signature(
    alloc: Global,
    routine: &LibraryRoutine,
    commas: u64,
) -> Result<Value, Memory> {
    let said = library_text(alloc, routine)?;
    signature(
        alloc,
        routine.name,
        routine.parameters,
        said.as_str(),
        commas,
    )
}

/// The signature of the routine that a name declares; null if it isn't known.
fn signature_of(
    alloc: Global,
    document: &Document,
    tokens: &[Token<'_>],
    call: OpenCall,
) -> Result<Value, Memory> {
    let Some(token) = tokens.get(call.name) else {
        return Ok(Value::Null);
    };
    let Some(scanned) = declaration_of(alloc, tokens, token.text)? else {
        return Ok(Value::Null);
    };
    let name = shown(token.text);
    if let Some(routine) = routine_at(tokens, scanned, name) {
        return library_signature(alloc, &routine, call.commas);
    }
    if !is_symbol(tokens, scanned.token.saturating_add(1), Symbol::OpenBracket) {
        return Ok(Value::Null);
    }
    let parameters = parameters_of(document, tokens, scanned);
    signature(alloc, name, parameters, "", call.commas)
}

/// The answer to `textDocument/signatureHelp`. Returns `Memory` if an allocation fails.
pub fn signature_help(alloc: Global, document: &Document, offset: usize) -> Result<Value, Memory> {
    let tokens = tokens_before(alloc, document.files.as_slice(), offset)?;
    match open_call(tokens.as_slice()) {
        Some(call) => signature_of(alloc, document, tokens.as_slice(), call),
        None => Ok(Value::Null),
    }
}
