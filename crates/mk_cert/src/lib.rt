//! Checks a certificate, and the laws that say what an accepted one guarantees.
#![tactic(auto)]

mod cursor;
mod fault;
mod judging;
mod lacking;
pub mod laws;
mod read_lists;
mod seen_names;
mod verifying;
mod walking;

pub use fault::CertFault;
pub use verifying::verify;
