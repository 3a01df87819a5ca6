//! Laws about certificates: which bytes are an accepted certificate, what it says, and what the first fault of all other bytes is.
#![tactic(auto)]

pub mod laws;
