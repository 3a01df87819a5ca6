//! Tests of the selector, the writer of certificates and the checker, with allocations and devices that fail.

#[cfg(test)]
mod certificates;
#[cfg(test)]
mod checking;
#[cfg(test)]
mod selecting;
