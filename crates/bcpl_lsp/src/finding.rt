//! Errors and warnings as an editor shows them.

use crate::document::Document;
use crate::json_values::{JsonArray, JsonObject};
use bc_word::Memory;
use serde_json::Value;
use std::alloc::Global;

/// A place that a finding mentions, with a sentence on it.
#[derive(Drop)]
pub struct Related {
    /// The URI of its file.
    pub uri: String,
    /// Its range, as the protocol has it.
    pub range: Value,
    /// The sentence.
    pub sentence: String,
}

/// An error or a warning.
#[derive(Drop)]
pub struct Finding {
    /// The offset of its first byte in the document.
    pub start: usize,
    /// The offset after its last byte.
    pub end: usize,
    /// Whether it is an error.
    pub is_error: bool,
    /// Part, number and name of a refusal; empty for a warning.
    pub code: String,
    /// What is wrong.
    pub sentence: String,
    /// What to do; empty if nothing is known.
    pub help: String,
    /// Further places.
    pub related: Vec<Related>,
}

/// The number that the protocol has for how serious a finding is.
fn severity(finding: &Finding) -> u64 {
    if finding.is_error { 1 } else { 2 }
}

/// A related place as the protocol has it.
fn related_value(alloc: Global, related: &Related) -> Result<Value, Memory> {
    let mut location = JsonObject::new(alloc);
    location.add_text("uri", related.uri.as_str());
    location.put("range", related.range.clone()?);
    let mut object = JsonObject::new(alloc);
    object.add("location", location.finish());
    object.add_text("message", related.sentence.as_str());
    object.finish()
}

/// The related places of a finding.
fn related_of(alloc: Global, finding: &Finding) -> Result<Value, Memory> {
    let mut list = JsonArray::new(alloc);
    for related in &finding.related {
        list.add(related_value(alloc, related));
    }
    list.finish()
}

/// The sentence of a finding, and the help on a line of its own.
fn message_of(alloc: Global, finding: &Finding) -> Result<String, Memory> {
    let mut text = String::from_str(alloc, finding.sentence.as_str())?;
    if !finding.help.is_empty() {
        text.push_str("\nhelp: ")?;
        text.push_str(finding.help.as_str())?;
    }
    Ok(text)
}

/// A finding as the protocol has it. Returns `Memory` if an allocation fails.
pub fn diagnostic(alloc: Global, document: &Document, finding: &Finding) -> Result<Value, Memory> {
    let message = message_of(alloc, finding)?;
    let mut object = JsonObject::new(alloc);
    object.add("range", document.range(alloc, finding.start, finding.end));
    object.add_number("severity", severity(finding));
    object.add_text("code", finding.code.as_str());
    object.add_text("source", "bcpl");
    object.add_text("message", message.as_str());
    object.add("relatedInformation", related_of(alloc, finding));
    object.finish()
}

/// The indexes of findings in the order of the text.
fn in_order(alloc: Global, findings: &[Finding]) -> Result<Vec<(usize, usize)>, Memory> {
    let mut order = Vec::new(alloc);
    for (index, finding) in findings.iter().enumerate() {
        order.push((finding.start, index))?;
    }
    order.sort()?;
    Ok(order)
}

/// The findings of a document as the protocol has them, in the order of the text. Returns `Memory` if an allocation fails.
pub fn diagnostics(alloc: Global, document: &Document) -> Result<Value, Memory> {
    let mut list = JsonArray::new(alloc);
    let findings = document.findings.as_slice();
    for (_, index) in in_order(alloc, findings)? {
        if let Some(finding) = findings.get(index) {
            list.add(diagnostic(alloc, document, finding));
        }
    }
    list.finish()
}
