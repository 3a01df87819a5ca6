//! The server: the documents that are open, and what it does with each message.

use crate::changing::change;
use crate::completing::{completion, signature_help};
use crate::costs::Cost;
use crate::document::{Document, File};
use crate::finding::{Finding, diagnostics};
use crate::fixing::actions;
use crate::json_values::{JsonArray, JsonObject};
use crate::laying_out::formatting;
use crate::looking::{
    NoRename, definition, highlights, hover, prepared_rename, references, rename,
};
use crate::outline::{foldings, symbols};
use crate::paths::path_of;
use crate::positions::position_in;
use crate::reply::{Reply, RequestError, notification, reply_text};
use bc_word::Memory;
use serde_json::Value;
use std::alloc::Global;

/// The answer to `initialize`.
const CAPABILITIES: &str = "{\"capabilities\":{\"positionEncoding\":\"utf-16\",\
    \"textDocumentSync\":{\"openClose\":true,\"change\":2,\"save\":true},\
    \"hoverProvider\":true,\"definitionProvider\":true,\"referencesProvider\":true,\
    \"documentHighlightProvider\":true,\"documentSymbolProvider\":true,\
    \"documentFormattingProvider\":true,\
    \"completionProvider\":{},\
    \"signatureHelpProvider\":{\"triggerCharacters\":[\"(\",\",\"]},\
    \"renameProvider\":{\"prepareProvider\":true},\"foldingRangeProvider\":true,\
    \"codeActionProvider\":{\"codeActionKinds\":[\"quickfix\"]}},\
    \"serverInfo\":{\"name\":\"bcpl\"}}";

/// What the caller must do after a message.
#[derive(Clone, Copy, PartialEq, Eq)]
pub enum Job {
    /// Nothing.
    Nothing,
    /// Check the document with this index, and pass what was found to `publish`.
    Check(usize),
    /// Check all documents.
    CheckAll,
    /// Compute how many words the code of the document with this index takes, pass it to `set_costs`, and take the message again.
    Measure(usize),
    /// End; as after `shutdown` or not.
    Exit(bool),
}

/// What a message leads to.
#[derive(Drop)]
pub struct Answer {
    /// A message to the client, if there is one.
    pub text: Option<String>,
    /// What the caller must do.
    pub job: Job,
}

/// How far a session is.
#[derive(Clone, Copy, PartialEq, Eq)]
enum Phase {
    /// Before `initialize`.
    New,
    /// Between.
    Running,
    /// After `shutdown`.
    ShutDown,
}

/// A server.
#[derive(Drop)]
pub struct Server {
    alloc: Global,
    phase: Phase,
    documents: Vec<Document>,
}

/// An answer that only is a job.
fn only(job: Job) -> Answer {
    Answer { text: None, job }
}

/// An answer that only is a text.
fn said(text: String) -> Answer {
    Answer {
        text: Some(text),
        job: Job::Nothing,
    }
}

/// A text in an object.
fn text_at<'v>(value: &'v Value, pointer: &str) -> Option<&'v str> {
    value.pointer(pointer).and_then(Value::as_str)
}

/// The message that shows what is wrong with a document.
fn publication(alloc: Global, document: &Document) -> Result<String, Memory> {
    let mut params = JsonObject::new(alloc);
    params.add_text("uri", document.uri.as_str());
    if let Some(version) = document.version {
        params.put("version", Value::from(version));
    }
    params.add("diagnostics", diagnostics(alloc, document));
    notification(alloc, "textDocument/publishDiagnostics", &params.finish()?)
}

/// The message that nothing is wrong with the document with this URI, which is closed.
fn empty_publication(alloc: Global, uri: &str) -> Result<String, Memory> {
    let mut params = JsonObject::new(alloc);
    params.add_text("uri", uri);
    params.add("diagnostics", JsonArray::new(alloc).finish());
    notification(alloc, "textDocument/publishDiagnostics", &params.finish()?)
}

/// The number of a document's state, as parameters have it.
fn version_in(params: &Value) -> Option<i64> {
    params
        .pointer("/textDocument/version")
        .and_then(Value::as_i64)
}

/// The document that parameters have with its text, if they have one.
fn document_of(alloc: Global, params: &Value) -> Result<Option<Document>, Memory> {
    let uri = text_at(params, "/textDocument/uri");
    let text = text_at(params, "/textDocument/text");
    let (Some(uri), Some(text)) = (uri, text) else {
        return Ok(None);
    };
    let path = path_of(alloc, uri)?;
    let mut document = Document::new(alloc, uri, path.as_str(), text)?;
    document.version = version_in(params);
    Ok(Some(document))
}

/// Whether references include the declaration: they do unless the parameters say otherwise.
fn with_declaration(params: &Value) -> bool {
    params
        .pointer("/context/includeDeclaration")
        .and_then(Value::as_bool)
        .unwrap_or(true)
}

/// The answer with a result, or with the reason why nothing can be renamed.
fn renamed(found: Result<Value, NoRename>) -> Reply {
    match found {
        Ok(value) => Reply::Result(value),
        Err(reason) => Reply::Error(RequestError::Failed(reason.sentence())),
    }
}

/// Whether a request's id is one.
fn is_id(id: &Value) -> bool {
    id.is_string() || id.is_number()
}

impl Server {
    /// A server to which nothing was said yet.
    pub fn new(alloc: Global) -> Server {
        Server {
            alloc,
            phase: Phase::New,
            documents: Vec::new(alloc),
        }
    }

    /// How many documents are open.
    pub fn len(&self) -> usize {
        self.documents.len()
    }

    /// The document with this index.
    pub fn document(&self, index: usize) -> Option<&Document> {
        self.documents.get(index)
    }

    /// The text of the open document with this path.
    pub fn text_of(&self, path: &str) -> Option<&[u8]> {
        for document in &self.documents {
            if document.path() == path {
                return Some(document.text());
            }
        }
        None
    }

    /// The index of the document that parameters name.
    fn index_of(&self, params: &Value) -> Option<usize> {
        let uri = text_at(params, "/textDocument/uri")?;
        for (index, document) in self.documents.iter().enumerate() {
            if document.uri.as_str() == uri {
                return Some(index);
            }
        }
        None
    }

    /// The document that parameters name.
    fn document_in(&self, params: &Value) -> Option<&Document> {
        self.documents.get(self.index_of(params)?)
    }

    /// The document and the offset that parameters name.
    fn place_in(&self, params: &Value) -> Option<(&Document, usize)> {
        let document = self.document_in(params)?;
        let position = position_in(params.get("position")?)?;
        Some((document, document.offset(position)))
    }

    /// The offset of a position in parameters.
    fn offset_at(&self, document: &Document, params: &Value, pointer: &str) -> Option<usize> {
        let position = position_in(params.pointer(pointer)?)?;
        Some(document.offset(position))
    }

    /// Sets the files that a document's GETs can name, and what is wrong with it. Returns the message that says so to the
    /// client. Returns `Memory` if an allocation fails.
    pub fn publish(&mut self, index: usize, findings: Vec<Finding>) -> Result<String, Memory> {
        let alloc = self.alloc;
        let Some(document) = self.documents.get_mut(index) else {
            return Ok(String::new(alloc));
        };
        document.findings = findings;
        publication(alloc, document)
    }

    /// Sets the files that a document's GETs can name. Returns `Memory` if an allocation fails.
    pub fn set_headers(&mut self, index: usize, headers: Vec<File>) -> Result<(), Memory> {
        match self.documents.get_mut(index) {
            Some(document) => document.set_headers(self.alloc, headers),
            None => Ok(()),
        }
    }

    /// Sets how many words the code of a document's expressions takes, until the document changes.
    pub fn set_costs(&mut self, index: usize, costs: Vec<Cost>) {
        if let Some(document) = self.documents.get_mut(index) {
            document.costs = Some(costs);
        }
    }

    /// Takes a message. Returns `Memory` if an allocation fails.
    pub fn take(&mut self, message: &[u8]) -> Result<Answer, Memory> {
        let Ok(text) = std::str::from_utf8(message) else {
            return self.refuse(RequestError::Parse);
        };
        match Value::from_str(self.alloc, text) {
            Ok(value) => self.take_value(&value),
            Err(error) if error.is_memory() => Err(Memory),
            Err(_) => self.refuse(RequestError::Parse),
        }
    }

    /// The index of the document that a message changes, if it changes one.
    fn changed_by(&self, message: &Value) -> Option<usize> {
        match (text_at(message, "/method"), message.get("id")) {
            (Some("textDocument/didChange"), None) => self.index_of(message.get("params")?),
            _ => None,
        }
    }

    /// Whether a message changes the document with this index. Returns `Memory` if an allocation fails.
    pub fn is_changed_by(&self, index: usize, message: &[u8]) -> Result<bool, Memory> {
        let Ok(text) = std::str::from_utf8(message) else {
            return Ok(false);
        };
        match Value::from_str(self.alloc, text) {
            Ok(value) => Ok(self.changed_by(&value) == Some(index)),
            Err(error) if error.is_memory() => Err(Memory),
            Err(_) => Ok(false),
        }
    }

    /// Takes a header that can't be read. Returns `Memory` if an allocation fails.
    pub fn take_bad_header(&mut self) -> Result<Answer, Memory> {
        self.refuse(RequestError::Parse)
    }

    /// The answer to a message that isn't a request.
    fn refuse(&mut self, error: RequestError) -> Result<Answer, Memory> {
        let text = reply_text(self.alloc, &Value::Null, &Reply::Error(error))?;
        Ok(said(text))
    }

    /// Takes a message that is JSON.
    fn take_value(&mut self, value: &Value) -> Result<Answer, Memory> {
        let null = Value::Null;
        let params = value.get("params").unwrap_or(&null);
        match (text_at(value, "/method"), value.get("id")) {
            (Some(method), Some(id)) if is_id(id) => self.request(method, id, params),
            (Some(method), None) => self.notified(method, params),
            (None, Some(_)) if value.get("result").is_some() || value.get("error").is_some() => Ok(
                only(Job::Nothing),
            ),
            _ => self.refuse(RequestError::Invalid),
        }
    }

    /// The index of the document that a hover asks about, if how many words its code takes isn't known.
    fn unmeasured(&self, method: &str, params: &Value) -> Option<usize> {
        if self.phase != Phase::Running || method != "textDocument/hover" {
            return None;
        }
        let index = self.index_of(params)?;
        match self.documents.get(index) {
            Some(document) if document.costs.is_none() => Some(index),
            _ => None,
        }
    }

    /// Takes a request.
    fn request(&mut self, method: &str, id: &Value, params: &Value) -> Result<Answer, Memory> {
        if let Some(index) = self.unmeasured(method, params) {
            return Ok(only(Job::Measure(index)));
        }
        let reply = self.reply_to(method, params)?;
        let text = reply_text(self.alloc, id, &reply)?;
        Ok(said(text))
    }

    /// The answer to a request.
    fn reply_to(&mut self, method: &str, params: &Value) -> Result<Reply, Memory> {
        match (self.phase, method) {
            (Phase::New, "initialize") => {
                self.phase = Phase::Running;
                Ok(Reply::Text(CAPABILITIES))
            }
            (Phase::New, _) => Ok(Reply::Error(RequestError::NotInitialized)),
            (Phase::Running, "initialize") | (Phase::ShutDown, _) => Ok(Reply::Error(
                RequestError::Invalid,
            )),
            (Phase::Running, "shutdown") => {
                self.phase = Phase::ShutDown;
                Ok(Reply::Result(Value::Null))
            }
            (Phase::Running, _) => self.feature(method, params),
        }
    }

    /// The answer to a request on a document.
    fn feature(&self, method: &str, params: &Value) -> Result<Reply, Memory> {
        match method {
            "textDocument/documentSymbol"
            | "textDocument/foldingRange"
            | "textDocument/formatting"
            | "textDocument/codeAction" => self.on_document(method, params),
            "textDocument/hover"
            | "textDocument/definition"
            | "textDocument/references"
            | "textDocument/documentHighlight"
            | "textDocument/completion"
            | "textDocument/signatureHelp" => self.at_place(method, params),
            "textDocument/prepareRename" | "textDocument/rename" => self.on_name(method, params),
            _ => Ok(Reply::Error(RequestError::MethodNotFound)),
        }
    }

    /// The answer to a request on a whole document.
    fn on_document(&self, method: &str, params: &Value) -> Result<Reply, Memory> {
        let Some(document) = self.document_in(params) else {
            return Ok(Reply::Error(RequestError::Params));
        };
        match method {
            "textDocument/documentSymbol" => Ok(Reply::Result(symbols(self.alloc, document)?)),
            "textDocument/foldingRange" => Ok(Reply::Result(foldings(self.alloc, document)?)),
            "textDocument/formatting" => formatting(self.alloc, document),
            _ => self.code_actions(document, params),
        }
    }

    /// The answer to `textDocument/codeAction`.
    fn code_actions(&self, document: &Document, params: &Value) -> Result<Reply, Memory> {
        let start = self.offset_at(document, params, "/range/start");
        let end = self.offset_at(document, params, "/range/end");
        let (Some(start), Some(end)) = (start, end) else {
            return Ok(Reply::Error(RequestError::Params));
        };
        Ok(Reply::Result(actions(self.alloc, document, start, end)?))
    }

    /// The answer to a request on a place.
    fn at_place(&self, method: &str, params: &Value) -> Result<Reply, Memory> {
        let Some((document, offset)) = self.place_in(params) else {
            return Ok(Reply::Error(RequestError::Params));
        };
        let alloc = self.alloc;
        let found = match method {
            "textDocument/hover" => hover(alloc, document, offset),
            "textDocument/definition" => definition(alloc, document, offset),
            "textDocument/documentHighlight" => highlights(alloc, document, offset),
            "textDocument/completion" => completion(alloc, document, offset),
            "textDocument/signatureHelp" => signature_help(alloc, document, offset),
            _ => references(alloc, document, offset, with_declaration(params)),
        };
        Ok(Reply::Result(found?))
    }

    /// The answer to a request on another name for the one at a place.
    fn on_name(&self, method: &str, params: &Value) -> Result<Reply, Memory> {
        let Some((document, offset)) = self.place_in(params) else {
            return Ok(Reply::Error(RequestError::Params));
        };
        let alloc = self.alloc;
        let found = match (method, text_at(params, "/newName")) {
            ("textDocument/prepareRename", _) => prepared_rename(alloc, document, offset),
            (_, Some(name)) => rename(alloc, document, offset, name),
            (_, None) => return Ok(Reply::Error(RequestError::Params)),
        };
        Ok(renamed(found?))
    }

    /// Takes a notification. One that isn't known is passed over.
    fn notified(&mut self, method: &str, params: &Value) -> Result<Answer, Memory> {
        if method == "exit" {
            return Ok(only(Job::Exit(self.phase == Phase::ShutDown)));
        }
        if self.phase != Phase::Running {
            return Ok(only(Job::Nothing));
        }
        match method {
            "textDocument/didOpen" => self.open(params),
            "textDocument/didChange" => self.change(params),
            "textDocument/didClose" => self.close(params),
            "textDocument/didSave" => Ok(only(Job::CheckAll)),
            _ => Ok(only(Job::Nothing)),
        }
    }

    /// Opens a document, or sets the text of one that is open.
    fn open(&mut self, params: &Value) -> Result<Answer, Memory> {
        let index = self.index_of(params).unwrap_or(self.documents.len());
        match document_of(self.alloc, params)? {
            Some(document) => self.keep(index, document),
            None => Ok(only(Job::Nothing)),
        }
    }

    /// Keeps a document instead of the one with this index, or as a further one. It must be checked.
    fn keep(&mut self, index: usize, document: Document) -> Result<Answer, Memory> {
        match self.documents.get_mut(index) {
            Some(place) => *place = document,
            None => self.documents.push(document)?,
        }
        Ok(only(Job::Check(index)))
    }

    /// Changes a document.
    fn change(&mut self, params: &Value) -> Result<Answer, Memory> {
        let alloc = self.alloc;
        let Some(index) = self.index_of(params) else {
            return Ok(only(Job::Nothing));
        };
        let changes = match params.get("contentChanges").and_then(Value::as_array) {
            Some(changes) => changes.as_slice(),
            None => &[],
        };
        if let Some(document) = self.documents.get_mut(index) {
            document.version = version_in(params);
            change(alloc, document, changes)?;
        }
        Ok(only(Job::Check(index)))
    }

    /// Closes a document.
    fn close(&mut self, params: &Value) -> Result<Answer, Memory> {
        let Some(index) = self.index_of(params) else {
            return Ok(only(Job::Nothing));
        };
        if index < self.documents.len() {
            let _ = self.documents.remove(index);
        }
        let uri = text_at(params, "/textDocument/uri").unwrap_or("");
        Ok(said(empty_publication(self.alloc, uri)?))
    }
}
