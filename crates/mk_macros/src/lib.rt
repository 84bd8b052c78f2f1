//! Macros: the table of definitions, and the expansion of texts.
#![tactic(auto)]

mod appending;
mod blanks;
mod bytes;
pub mod definition_laws;
mod definitions;
mod expanded_part;
mod expansion;
mod fault;
mod forms;
mod going;
pub mod laws;
mod locals;
mod macro_name;
mod op;
mod room;
mod substitution;
mod table;

pub use blanks::without_blanks;
pub use expansion::Expansion;
pub use fault::MacroFault;
pub use locals::Locals;
pub use macro_name::MacroName;
pub use op::Op;
pub use table::MacroTable;
