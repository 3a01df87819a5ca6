//! Second layer: the code of each derivation does on the machine what its expression, test or assignment means.

pub mod laws;
