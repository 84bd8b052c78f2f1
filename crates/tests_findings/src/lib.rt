//! Tests of what mk_cert, mk_find, mk_repair, mk_claims, mk_sentences and mk_since return for a
//! judged build.
#![tactic(auto)]

#[cfg(test)]
mod builds;
#[cfg(test)]
mod calls;
#[cfg(test)]
mod findings;
#[cfg(test)]
mod words;
