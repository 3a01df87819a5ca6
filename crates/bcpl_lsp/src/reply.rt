//! Answers to requests, as texts of JSON-RPC.

use crate::json_values::JsonObject;
use bc_word::Memory;
use serde_json::Value;
use std::alloc::Global;

/// Why a request has no result.
#[derive(Clone, Copy, PartialEq, Eq)]
pub enum RequestError {
    /// The text is no JSON.
    Parse,
    /// It is no request.
    Invalid,
    /// The method isn't there.
    MethodNotFound,
    /// A parameter is missing, or names nothing that is open.
    Params,
    /// `initialize` must come first.
    NotInitialized,
    /// The request can't be carried out for this reason.
    Failed(&'static str),
}

impl RequestError {
    /// The number that the protocol has for it.
    fn code(self) -> i64 {
        match self {
            RequestError::Parse => -32700,
            RequestError::Invalid => -32600,
            RequestError::MethodNotFound => -32601,
            RequestError::Params => -32602,
            RequestError::NotInitialized => -32002,
            RequestError::Failed(_) => -32803,
        }
    }

    /// The sentence on it.
    fn sentence(self) -> &'static str {
        match self {
            RequestError::Parse => "the message is no JSON, or nested over 127 deep",
            RequestError::Invalid => "the message is no request",
            RequestError::MethodNotFound => "the server has no such method",
            RequestError::Params => "a parameter is missing or names nothing that is open",
            RequestError::NotInitialized => "the request initialize must come first",
            RequestError::Failed(sentence) => sentence,
        }
    }
}

/// The answer to a request.
#[derive(Drop)]
pub enum Reply {
    /// Its result.
    Result(Value),
    /// Its result, as the text of a value.
    Text(&'static str),
    /// There is none.
    Error(RequestError),
}

/// The message with the answer to the request that has this id: `key` says what the answer is, and `value` is its text.
fn answer_text(alloc: Global, id: &Value, key: &str, value: &str) -> Result<String, Memory> {
    let id = id.to_string(alloc)?;
    let id = id.as_str();
    Ok(format!(in alloc; "{{\"jsonrpc\":\"2.0\",\"id\":{id},\"{key}\":{value}}}")?)
}

/// The same with this value.
fn value_text(alloc: Global, id: &Value, key: &str, value: &Value) -> Result<String, Memory> {
    let value = value.to_string(alloc)?;
    answer_text(alloc, id, key, value.as_str())
}

/// An error as the protocol has it.
fn error_value(alloc: Global, error: RequestError) -> Result<Value, Memory> {
    let mut object = JsonObject::new(alloc);
    object.put("code", Value::from(error.code()));
    object.add_text("message", error.sentence());
    object.finish()
}

/// The message with the answer to the request that has this id. Returns `Memory` if an allocation fails.
pub fn reply_text(alloc: Global, id: &Value, reply: &Reply) -> Result<String, Memory> {
    match reply {
        Reply::Result(result) => value_text(alloc, id, "result", result),
        Reply::Text(result) => answer_text(alloc, id, "result", result),
        Reply::Error(error) => value_text(alloc, id, "error", &error_value(alloc, *error)?),
    }
}

/// A notification. Returns `Memory` if an allocation fails.
pub fn notification(alloc: Global, method: &str, params: &Value) -> Result<String, Memory> {
    let params = params.to_string(alloc)?;
    let params = params.as_str();
    Ok(format!(in alloc; "{{\"jsonrpc\":\"2.0\",\"method\":\"{method}\",\"params\":{params}}}")?)
}
