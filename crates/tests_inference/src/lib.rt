//! Tests of inference rules, selection, goals and commands by public calls.
#![tactic(auto)]

#[cfg(test)]
mod infer;
