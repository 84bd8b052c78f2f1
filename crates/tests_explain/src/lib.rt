//! Tests of the public calls of mk_explain, and of faults in words.
#![tactic(auto)]

#[cfg(test)]
mod explanations;
#[cfg(test)]
mod faults_in_words;
