//! Tests of lines, names and macros by the public calls of mk_lines, mk_macros and mk_cert_text:
//! what no contract says, and worked examples.
#![tactic(auto)]

#[cfg(test)]
mod expecting;
#[cfg(test)]
mod lines;
#[cfg(test)]
mod macro_definitions;
#[cfg(test)]
mod macro_rows;
#[cfg(test)]
mod macros;
#[cfg(test)]
mod packed_names;
