//! Fourth layer: the linked image of a program does what its sections mean.

pub mod laws;
