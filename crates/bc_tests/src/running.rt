//! Tests of INTCODE texts, the machine, the linker and runs through their public calls.

#[cfg(test)]
mod devices;
#[cfg(test)]
mod linking;
#[cfg(test)]
mod machines;
#[cfg(test)]
mod running;
#[cfg(test)]
mod texts;
