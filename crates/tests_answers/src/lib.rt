//! Tests of the public calls of mk_core, mk_core_evidence and mk_core_since, over files in memory.
#![tactic(auto)]

#[cfg(test)]
mod answers;
#[cfg(test)]
mod changes;
#[cfg(test)]
mod failing;
#[cfg(test)]
mod requests;
#[cfg(test)]
mod words;
