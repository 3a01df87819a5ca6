//! Objects and arrays of the protocol, built member by member. They remember a failed allocation, so that the callers need not
//! check each member.

use bc_word::Memory;
use serde_json::{Map, Value};
use std::alloc::Global;

/// An object that remembers a failed allocation; once one has failed, its members are void.
#[derive(Drop)]
pub struct JsonObject {
    alloc: Global,
    members: Map<String, Value>,
    /// Whether an allocation failed.
    is_refused: bool,
}

/// Inserts a member.
fn insert(
    members: &mut Map<String, Value>,
    alloc: Global,
    key: &str,
    value: Value,
) -> Result<(), Memory> {
    let key = String::from_str(alloc, key)?;
    drop(members.insert(key, value)?);
    Ok(())
}

impl JsonObject {
    /// An object without members.
    pub fn new(alloc: Global) -> JsonObject {
        JsonObject {
            alloc,
            members: Map::new(alloc),
            is_refused: false,
        }
    }

    /// Adds a member.
    pub fn put(&mut self, key: &str, value: Value) {
        if insert(&mut self.members, self.alloc, key, value).is_err() {
            self.is_refused = true;
        }
    }

    /// Adds a member, unless there was no memory for its value.
    pub fn add(&mut self, key: &str, value: Result<Value, Memory>) {
        match value {
            Ok(value) => self.put(key, value),
            Err(_) => self.is_refused = true,
        }
    }

    /// Adds a member that is a text.
    pub fn add_text(&mut self, key: &str, text: &str) {
        match Value::try_from_str(self.alloc, text) {
            Ok(value) => self.put(key, value),
            Err(_) => self.is_refused = true,
        }
    }

    /// Adds a member that is a number.
    pub fn add_number(&mut self, key: &str, number: u64) {
        self.put(key, Value::from(number));
    }

    /// The object, or `Memory` if an allocation failed.
    pub fn finish(self) -> Result<Value, Memory> {
        let JsonObject {
            alloc: _,
            members,
            is_refused,
        } = self;
        if is_refused {
            Err(Memory)
        } else {
            Ok(Value::from(members))
        }
    }
}

/// An array that remembers a failed allocation; once one has failed, its items are void.
#[derive(Drop)]
pub struct JsonArray {
    items: Vec<Value>,
    /// Whether an allocation failed.
    is_refused: bool,
}

impl JsonArray {
    /// An array without items.
    pub fn new(alloc: Global) -> JsonArray {
        JsonArray {
            items: Vec::new(alloc),
            is_refused: false,
        }
    }

    /// The number of items.
    pub fn len(&self) -> usize {
        self.items.len()
    }

    /// Adds an item.
    fn put(&mut self, item: Value) {
        if self.items.push(item).is_err() {
            self.is_refused = true;
        }
    }

    /// Adds an item, unless there was no memory for it.
    pub fn add(&mut self, item: Result<Value, Memory>) {
        match item {
            Ok(item) => self.put(item),
            Err(_) => self.is_refused = true,
        }
    }

    /// Adds an item, unless it is null or there was no memory for it.
    pub fn add_unless_null(&mut self, item: Result<Value, Memory>) {
        match item {
            Ok(item) if item.is_null() => {}
            item => self.add(item),
        }
    }

    /// The array, or `Memory` if an allocation failed.
    pub fn finish(self) -> Result<Value, Memory> {
        let JsonArray { items, is_refused } = self;
        if is_refused {
            Err(Memory)
        } else {
            Ok(Value::from(items))
        }
    }
}
