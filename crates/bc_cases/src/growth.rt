//! An allocator that remembers a failed allocation, so that only the end of a case has to ask for it.

use std::alloc::Global;

/// An allocator that remembers a failed allocation. Once one has failed, everything made with it is void.
#[derive(Drop)]
pub struct Growth {
    alloc: Global,
    is_refused: bool,
}

/// Both values, if there are both.
pub fn both<A: Drop, B: Drop>(first: Option<A>, second: Option<B>) -> Option<(A, B)> {
    match (first, second) {
        (Some(first), Some(second)) => Some((first, second)),
        _ => None,
    }
}

impl Growth {
    /// No allocation has failed yet.
    pub fn new(alloc: Global) -> Growth {
        Growth {
            alloc,
            is_refused: false,
        }
    }

    /// The allocator.
    pub fn alloc(&self) -> Global {
        self.alloc
    }

    /// Records that an allocation failed.
    pub fn refuse(&mut self) {
        self.is_refused = true;
    }

    /// Whether an allocation failed.
    pub fn is_refused(&self) -> bool {
        self.is_refused
    }

    /// Boxes a value. None if the allocation fails.
    pub fn boxed<T: Drop>(&mut self, value: T) -> Option<Box<T>> {
        match Box::new(self.alloc, value) {
            Ok(value) => Some(value),
            Err(_) => {
                self.refuse();
                None
            }
        }
    }

    /// Boxes two values. None if an allocation fails.
    pub fn boxed_pair<T: Drop>(&mut self, first: T, second: T) -> Option<(Box<T>, Box<T>)> {
        let first = self.boxed(first);
        let second = self.boxed(second);
        both(first, second)
    }

    /// Appends a value to a list.
    pub fn push<T: Drop>(&mut self, list: &mut Vec<T>, value: T) {
        if list.push(value).is_err() {
            self.refuse();
        }
    }

    /// Appends bytes to a list.
    pub fn extend(&mut self, list: &mut Vec<u8>, bytes: &[u8]) {
        if list.extend_from_slice(bytes).is_err() {
            self.refuse();
        }
    }

    /// Replaces a text by another one.
    pub fn replace(&mut self, text: &mut String, new: &str) {
        text.clear();
        if text.push_str(new).is_err() {
            self.refuse();
        }
    }

    /// Appends a line and its line feed to a text.
    pub fn add_line(&mut self, lines: &mut String, line: &str) {
        if lines.push_str(line).is_err() || lines.push('\n').is_err() {
            self.refuse();
        }
    }

    /// The list that was made, or an empty one if it was an error.
    pub fn list<T: Drop, E: Drop>(&mut self, made: Result<Vec<T>, E>) -> Vec<T> {
        match made {
            Ok(list) => list,
            Err(_) => {
                self.refuse();
                Vec::new(self.alloc)
            }
        }
    }

    /// Moves the values after the first `count` out of a list.
    pub fn following<T: Drop>(&mut self, list: &mut Vec<T>, count: usize) -> Vec<T> {
        let count = count.min(list.len());
        let rest = list.split_off(count);
        self.list(rest)
    }
}
