//! The lowest layer of the parser: logical lines, comments, words, plain paths, bytes outside
//! references, and tables of names.
#![tactic(auto)]

mod borrowed_names;
mod bytes;
mod comments;
mod fault;
mod joins;
pub mod laws;
mod lines;
mod name;
mod name_places;
mod name_table;
mod paths;
mod prefixes;
mod references;
mod rule_lines;
mod runs;
mod spans;

pub use borrowed_names::{BorrowedNames, borrowed_set_of};
pub use bytes::{is_blank, trimmed};
pub use comments::uncomment;
pub use fault::LineFault;
pub use lines::{Line, logical_lines};
pub use name::{Name, Names};
pub use name_places::NamePlaces;
pub use name_table::NameTable;
pub use paths::{is_plain_path, is_plain_text_path};
pub use prefixes::Prefixes;
pub use references::first_outside;
pub use rule_lines::is_rule_line;
pub use spans::{Span, words};
