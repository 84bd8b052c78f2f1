//! The command line: declares it, and turns the matches of its words into a command.
#![tactic(auto)]

mod command;
mod invocation;

pub use command::command_line;
pub use invocation::{Form, Invocation, form_of, invocation_by, request_of};
