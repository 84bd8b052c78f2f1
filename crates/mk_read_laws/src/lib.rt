//! Laws of how makefiles are read, which speak only of the definitions.
#![tactic(auto)]

pub mod default_laws;
pub mod file_laws;
pub mod include_laws;
pub mod laws;
pub mod place_laws;
pub mod rule_laws;
pub mod text_laws;
