//! Laws about certificates: what an accepted one covers, and how its text is read.
#![tactic(auto)]

pub mod laws;
