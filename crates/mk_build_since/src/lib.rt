//! What stays of a finished build where the makefile changes: which files are to be removed, and
//! that builds of the new makefile are right after that.
#![tactic(auto)]

pub mod laws;
