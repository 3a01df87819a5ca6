//! Tests of `build` with arguments that the program never passes.

#[cfg(test)]
mod tests;
