//! Tests of footprint files and certificates by the public calls of mk_foot and mk_cert_text: what
//! no contract says, and worked examples.
#![tactic(auto)]

#[cfg(test)]
mod certificates;
#[cfg(test)]
mod foot;
