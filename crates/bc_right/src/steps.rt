//! First layer, the simulation: what the machine does between two moments of a run, how its store agrees with the source's cells, when
//! code is in the store, and what it means that a run of the source lands.

pub mod laws;
