//! Findings under construction.

ghost use Rattle.std.specs.Prelude.{◌≡◌, ◌↔◌, ◌∷◌, ◌++◌, [], true, IfOk, OnOk};

use crate::file_names::FileNames;
use crate::finding::Finding;
use mk_subject::{NodeRow, SharedName, Target};
use std::alloc::{AllocError, Global};
use std::marker::Model;

/// Findings under construction, with the names that they share. Its model is the list of findings.
#[derive(Drop)]
pub struct FindingList {
    /// The findings so far.
    findings: Vec<Finding>,
    /// The names of files that they share.
    names: FileNames,
}

impl Model for FindingList {
    ghost use Rattle.std.specs.Prelude.{List};
    ghost use Rattle.mk_find.specs.declared.finding.Finding.{Finding};

    ghost Value = { List Finding };

    ghost view = { λ l. l.findings.items };
}

impl FindingList {
    /// No findings.
    pub fn new(alloc: Global) -> FindingList
        ensures { result ≡ [] }
    {
        FindingList {
            findings: Vec::new(alloc),
            names: FileNames::new(alloc),
        }
    }

    /// The allocator of the list.
    pub fn allocator(&self) -> Global {
        *self.findings.allocator()
    }

    /// Whether there are no findings.
    pub fn is_empty(&self) -> bool
        ensures { (result ≡ true) ↔ (self.now ≡ []) }
    {
        self.findings.is_empty()
    }

    /// The findings, without the names.
    pub fn into_findings(self) -> Vec<Finding>
        ensures { result.items ≡ self }
    {
        self.findings
    }

    /// The name of a node. If the last finding is about this node, its copy is shared; else a new
    /// one is made. The only error is out of memory.
    pub fn name_of_node(&self, row: &NodeRow<'_>) -> Result<SharedName, AllocError>
        ensures { IfOk result (λ name. name ≡ row.now.node.name) }
    {
        if let Some(last) = self.findings.last() {
            if let Some(name) = last.about() {
                if name.as_str() == row.name() {
                    return name.clone();
                }
            }
        }
        SharedName::new(self.allocator(), row.name())
    }

    /// The name of a file. All findings about it share one copy, which is made on the first call
    /// for it. The only error is out of memory.
    pub fn name_of(&mut self, file: &Target<'_>) -> Result<SharedName, AllocError>
        ensures same { self.new ≡ self.old }
        ensures name { IfOk result (λ name. name ≡ file.now.file) }
    {
        let alloc = self.allocator();
        self.names.name_of(alloc, file)
    }

    /// Appends a finding. The only error is out of memory.
    pub fn push(&mut self, finding: Finding) -> Result<(), AllocError>
        ensures { OnOk result (self.new ≡ self.old ++ finding ∷ []) }
    {
        self.findings.push(finding)?;
        Ok(())
    }
}
