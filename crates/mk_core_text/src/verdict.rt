//! Verdicts.

ghost use Rattle.std.specs.Prelude.{◌≡◌};

use mk_cert_text::Certificate;
use mk_find::Finding;
use std::marker::Model;

/// The findings of a no, in the order in which they are printed, seen by contracts as a list.
#[derive(Debug, Drop)]
pub struct Findings {
    list: Vec<Finding>,
}

impl Model for Findings {
    ghost use Rattle.std.specs.Prelude.{List};
    ghost use Rattle.mk_find.specs.declared.finding.Finding as finding;

    ghost Value = { List finding.Finding };

    ghost view = { λ f. f.list.items };
}

impl Findings {
    /// The list of these findings, in the same order.
    pub fn new(list: Vec<Finding>) -> Findings
        ensures { result ≡ list.items }
    {
        Findings { list }
    }

    /// The findings, in order.
    pub fn as_slice(&self) -> &[Finding]
        ensures { result.now ≡ self.now }
    {
        self.list.as_slice()
    }
}

/// Whether a build is right, whatever is edited, made and stopped.
#[derive(Debug, Drop)]
pub enum Verdict {
    /// The build is right.
    Yes {
        /// A way for each read of a file that can change.
        certificate: Certificate,
        /// How many recipes the goals reach.
        recipes: usize,
        /// How many files these recipes read, by their footprints.
        reads: u128,
    },
    /// The findings against the build, at least one.
    No(Findings),
}
