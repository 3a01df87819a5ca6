//! How often the instructions of a run were executed.

use bc_word::Memory;
use std::alloc::Global;

/// The number of addresses of a store.
const ADDRESSES: usize = 65_536;

/// Counters for each address.
#[derive(Drop)]
pub struct Counts {
    /// How often the instruction at each address was executed.
    pub times: Vec<u64>,
    /// How often each address was called.
    pub calls: Vec<u64>,
}

/// Adds 1 to the counter of an address.
fn count(counts: &mut [u64], address: u16) {
    if let Some(count) = counts.get_mut(usize::from(address)) {
        *count = count.saturating_add(1);
    }
}

impl Counts {
    /// All counters are 0. `Memory` if an allocation fails.
    pub fn new(alloc: Global) -> Result<Counts, Memory> {
        Ok(Counts {
            times: vec![in alloc; 0; ADDRESSES]?,
            calls: vec![in alloc; 0; ADDRESSES]?,
        })
    }

    /// Counts an execution of the instruction at this address.
    pub fn add_time(&mut self, address: u16) {
        count(self.times.as_mut_slice(), address);
    }

    /// Counts a call of the routine at this address.
    pub fn add_call(&mut self, address: u16) {
        count(self.calls.as_mut_slice(), address);
    }
}
