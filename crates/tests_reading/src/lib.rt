//! Tests of reading makefiles by public calls: what no contract says, and worked examples.
#![tactic(auto)]

#[cfg(test)]
mod files;
#[cfg(test)]
mod read_lines;
#[cfg(test)]
mod read_makefiles;
