//! Tests of the interpreter, with allocations and devices that fail.

#[cfg(test)]
mod tests;
