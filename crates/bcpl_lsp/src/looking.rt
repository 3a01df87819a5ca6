//! Requests on the name at a position: what it is, where it is declared and used, and another name for it.

use crate::costs::cost_at;
use crate::described::{name_of, said_of};
use crate::document::{Document, sources_of, tokens_of};
use crate::json_values::{JsonArray, JsonObject};
use crate::names::{Declared, Mention, Sort};
use crate::paths::uri_of;
use bc_lex::Source;
use bc_lex_tokens::TokenKind;
use bc_parse_tree::leaves_of;
use bc_word::Memory;
use serde_json::Value;
use std::alloc::Global;

/// What is said of the name at an offset; empty if none is there.
fn said_at(alloc: Global, document: &Document, offset: usize) -> Result<String, Memory> {
    if let Some(mention) = document.names.mention_at(offset)
        && let Some(declared) = document.names.get(mention.declared)
    {
        return said_of(alloc, document, mention.declared, declared);
    }
    Ok(String::new(alloc))
}

/// The range of the name at an offset; null if none is there.
fn range_at(alloc: Global, document: &Document, offset: usize) -> Result<Value, Memory> {
    match document.names.mention_at(offset) {
        Some(mention) => document.range(alloc, mention.start, mention.end),
        None => Ok(Value::Null),
    }
}

/// What is said of the name at an offset, and how many words the code of the expression there takes; empty if nothing is
/// known.
fn hover_text(alloc: Global, document: &Document, offset: usize) -> Result<String, Memory> {
    let mut text = said_at(alloc, document, offset)?;
    let cost = cost_at(alloc, document, offset)?;
    if !text.is_empty() && !cost.is_empty() {
        text.push_str("\n")?;
    }
    text.push_str(cost.as_str())?;
    Ok(text)
}

/// A hover with this text on this range, which may be null.
fn hover_value(alloc: Global, text: &str, range: Value) -> Result<Value, Memory> {
    let mut contents = JsonObject::new(alloc);
    contents.add_text("kind", "markdown");
    contents.add_text("value", text);
    let mut object = JsonObject::new(alloc);
    object.add("contents", contents.finish());
    if !range.is_null() {
        object.put("range", range);
    }
    object.finish()
}

/// The answer to `textDocument/hover`: what the name there is, and how many words the code of the expression takes. Returns
/// `Memory` if an allocation fails.
pub fn hover(alloc: Global, document: &Document, offset: usize) -> Result<Value, Memory> {
    let text = hover_text(alloc, document, offset)?;
    if text.is_empty() {
        return Ok(Value::Null);
    }
    hover_value(alloc, text.as_str(), range_at(alloc, document, offset)?)
}

/// The URI of a file of a document; `None` for a header of the library, which is no file.
fn uri_at(alloc: Global, document: &Document, file: usize) -> Result<Option<String>, Memory> {
    if file == 0 {
        return Ok(Some(String::from_str(alloc, document.uri.as_str())?));
    }
    match document.file(file) {
        Some(file) if !file.path.is_empty() => Ok(Some(uri_of(alloc, file.path.as_str())?)),
        _ => Ok(None),
    }
}

/// A place in a file of a document, as the protocol has it; null if the file is none that an editor can open.
fn location(
    alloc: Global,
    document: &Document,
    file: usize,
    stretch: (usize, usize),
) -> Result<Value, Memory> {
    let (Some(uri), Some(file)) = (uri_at(alloc, document, file)?, document.file(file)) else {
        return Ok(Value::Null);
    };
    let mut object = JsonObject::new(alloc);
    object.add_text("uri", uri.as_str());
    object.add("range", file.range(alloc, stretch.0, stretch.1));
    object.finish()
}

/// The answer to `textDocument/definition`. Returns `Memory` if an allocation fails.
pub fn definition(alloc: Global, document: &Document, offset: usize) -> Result<Value, Memory> {
    let Some(mention) = document.names.mention_at(offset) else {
        return Ok(Value::Null);
    };
    match document.names.get(mention.declared) {
        Some(declared) => location(
            alloc,
            document,
            declared.file,
            (declared.start, declared.end),
        ),
        None => Ok(Value::Null),
    }
}

/// Whether a name is where a declaration makes it.
fn is_declaration(mention: &Mention, declared: Declared) -> bool {
    mention.file == declared.file && mention.start == declared.start
}

/// The answer to `textDocument/references`. Returns `Memory` if an allocation fails.
pub fn references(
    alloc: Global,
    document: &Document,
    offset: usize,
    with_declaration: bool,
) -> Result<Value, Memory> {
    let Some(at) = document.names.mention_at(offset) else {
        return Ok(Value::Null);
    };
    let Some(declared) = document.names.get(at.declared) else {
        return Ok(Value::Null);
    };
    let root = document.names.root_of(at.declared);
    let mut list = JsonArray::new(alloc);
    for mention in &document.names.mentions {
        if document.names.root_of(mention.declared) == root
            && (with_declaration || !is_declaration(mention, declared))
        {
            let stretch = (mention.start, mention.end);
            list.add_unless_null(location(alloc, document, mention.file, stretch));
        }
    }
    list.finish()
}

/// A highlight of a stretch.
fn highlight(alloc: Global, document: &Document, mention: &Mention) -> Result<Value, Memory> {
    let mut object = JsonObject::new(alloc);
    object.add("range", document.range(alloc, mention.start, mention.end));
    object.finish()
}

/// The answer to `textDocument/documentHighlight`. Returns `Memory` if an allocation fails.
pub fn highlights(alloc: Global, document: &Document, offset: usize) -> Result<Value, Memory> {
    let Some(at) = document.names.mention_at(offset) else {
        return Ok(Value::Null);
    };
    let root = document.names.root_of(at.declared);
    let mut list = JsonArray::new(alloc);
    for mention in &document.names.mentions {
        if document.names.root_of(mention.declared) == root && mention.file == 0 {
            list.add(highlight(alloc, document, mention));
        }
    }
    list.finish()
}

/// Why a name can't be changed.
#[derive(Clone, Copy, PartialEq, Eq)]
pub enum NoRename {
    /// No name is there, or its meaning isn't known.
    NothingThere,
    /// The source has errors.
    NotParsed,
    /// It is declared in another file.
    OtherFile,
    /// A GLOBAL declaration declares it.
    Global,
    /// The new name is none.
    NoName,
    /// The new name is declared where the old one is in scope, or the other way round.
    Captured,
}

impl NoRename {
    /// The sentence on it.
    pub fn sentence(self) -> &'static str {
        match self {
            NoRename::NothingThere => "no name with a known meaning is here",
            NoRename::NotParsed => "the source has errors, so what its names mean isn't known",
            NoRename::OtherFile =>
                "the name is declared in another file, which other sources may get too",
            NoRename::Global =>
                "a GLOBAL declaration declares the name, so other files of the program may use it too",
            NoRename::NoName =>
                "the new name is none: a name begins with a letter, goes on with letters, digits and dots, and is no reserved word",
            NoRename::Captured =>
                "the new name is in use where the old one is, so some uses would get another meaning",
        }
    }
}

/// Whether a text is a name of the language.
fn is_name(alloc: Global, text: &str) -> bool {
    let source = [Source {
        name: b"",
        text: text.as_bytes(),
    }];
    let tokens = tokens_of(alloc, &source);
    match (tokens.first(), tokens.len()) {
        (Some(token), 1) => token.kind == TokenKind::Name(text.as_bytes()),
        _ => false,
    }
}

/// Whether a declaration's scope has a leaf.
fn has_leaf(declared: Declared, leaf: usize) -> bool {
    declared.from <= leaf && leaf < declared.to
}

/// Whether two scopes overlap.
fn overlap(one: Declared, other: Declared) -> bool {
    one.from < other.to && other.from < one.to
}

/// Whether another declaration already has this name in a scope that overlaps the declaration's.
fn is_captured(document: &Document, declared: Declared, name: &str) -> bool {
    for other in &document.names.declared {
        if overlap(declared, *other) && name_of(document, *other) == name {
            return true;
        }
    }
    false
}

/// Whether a use of this name that has no declaration would get one.
fn is_adopted(
    alloc: Global,
    document: &Document,
    declared: Declared,
    name: &str,
) -> Result<bool, Memory> {
    let sources = sources_of(alloc, document.files.as_slice())?;
    let tokens = tokens_of(alloc, sources.as_slice());
    let leaves = leaves_of(alloc, tokens.as_slice())?;
    for (leaf, token) in leaves.iter().enumerate() {
        if has_leaf(declared, leaf) && token.kind == TokenKind::Name(name.as_bytes()) {
            return Ok(true);
        }
    }
    Ok(false)
}

/// The declaration of the name at an offset that can be renamed.
fn renamed_at(document: &Document, offset: usize) -> Result<(usize, Declared), NoRename> {
    if !document.names.is_parsed {
        return Err(NoRename::NotParsed);
    }
    let Some(mention) = document.names.mention_at(offset) else {
        return Err(NoRename::NothingThere);
    };
    let root = document.names.root_of(mention.declared);
    match document.names.get(root) {
        Some(declared) if declared.file != 0 => Err(NoRename::OtherFile),
        Some(declared) if declared.sort == Sort::Global => Err(NoRename::Global),
        Some(declared) => Ok((root, declared)),
        None => Err(NoRename::NothingThere),
    }
}

/// The answer to `textDocument/prepareRename`: the range of the name, or why it can't be renamed. Returns `Memory` if an
/// allocation fails.
pub fn prepared_rename(
    alloc: Global,
    document: &Document,
    offset: usize,
) -> Result<Result<Value, NoRename>, Memory> {
    match (
        renamed_at(document, offset),
        document.names.mention_at(offset),
    ) {
        (Ok(_), Some(mention)) => Ok(Ok(document.range(alloc, mention.start, mention.end)?)),
        (Ok(_), None) => Ok(Err(NoRename::NothingThere)),
        (Err(reason), _) => Ok(Err(reason)),
    }
}

/// The edits that give the declaration with this index another name.
fn edits_of(alloc: Global, document: &Document, index: usize, name: &str) -> Result<Value, Memory> {
    let mut list = JsonArray::new(alloc);
    for mention in &document.names.mentions {
        if document.names.root_of(mention.declared) == index && mention.file == 0 {
            list.add(document.edit(alloc, mention.start, mention.end, name));
        }
    }
    changes_of(alloc, document, list)
}

/// Edits of a document, as the protocol has them. Returns `Memory` if an allocation fails.
pub fn changes_of(alloc: Global, document: &Document, edits: JsonArray) -> Result<Value, Memory> {
    let mut changes = JsonObject::new(alloc);
    changes.add(document.uri.as_str(), edits.finish());
    let mut object = JsonObject::new(alloc);
    object.add("changes", changes.finish());
    object.finish()
}

/// Why the declaration can't have this name.
fn refused_name(
    alloc: Global,
    document: &Document,
    declared: Declared,
    name: &str,
) -> Result<Option<NoRename>, Memory> {
    if !is_name(alloc, name) {
        return Ok(Some(NoRename::NoName));
    }
    if is_captured(document, declared, name) || is_adopted(alloc, document, declared, name)? {
        return Ok(Some(NoRename::Captured));
    }
    Ok(None)
}

/// The answer to `textDocument/rename`: the edits, or why there are none. Returns `Memory` if an allocation fails.
pub fn rename(
    alloc: Global,
    document: &Document,
    offset: usize,
    name: &str,
) -> Result<Result<Value, NoRename>, Memory> {
    let (index, declared) = match renamed_at(document, offset) {
        Ok(found) => found,
        Err(reason) => return Ok(Err(reason)),
    };
    if name_of(document, declared) == name {
        return Ok(Ok(Value::Null));
    }
    match refused_name(alloc, document, declared, name)? {
        Some(reason) => Ok(Err(reason)),
        None => Ok(Ok(edits_of(alloc, document, index, name)?)),
    }
}
