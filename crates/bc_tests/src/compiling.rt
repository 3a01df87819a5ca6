//! Tests of the stages from source to code, with allocations that fail, and of calls about names that no source leads to.

#[cfg(test)]
mod generating;
#[cfg(test)]
mod lexing;
#[cfg(test)]
mod names;
#[cfg(test)]
mod parsing;
#[cfg(test)]
mod resolving;
#[cfg(test)]
mod sections;
#[cfg(test)]
mod spelling;
#[cfg(test)]
mod translating;
