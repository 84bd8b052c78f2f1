//! A node with all that is looked up for it.

ghost use Rattle.std.specs.Prelude.{◌≡◌, map, IfOk};
ghost use Rattle.std.specs.Option.{option_copied};
ghost use Rattle.std.specs.String.{string_bytes};
ghost use Rattle.mk_subject.specs.NodeRow.{reads_in, writes_in, row_reads, row_writes, has_others, is_unwritten, lines_eq, lines_with};

use crate::shared_name::SharedName;
use mk_foot::{Record, contains_by_scan};
use mk_graph::Node;
use mk_lines::Name;
use std::alloc::{AllocError, Global};
use std::marker::Model;

/// A node with all that is looked up for it, once.
#[derive(Drop)]
pub struct NodeRow<'a> {
    /// The node's number.
    pub number: usize,
    /// The node itself.
    pub node: &'a Node,
    /// The record for its name, if there is one.
    pub recorded: Option<&'a Record>,
    /// Its expanded commands; empty where the record has the same ones.
    pub own: Vec<Vec<u8>>,
    /// Whether it has a recipe; a copy of the node's own flag.
    pub recipe: bool,
    /// Whether its commands vary from make to make.
    pub varying: bool,
    /// Whether there is a record with other commands.
    pub others: bool,
    /// Whether its recipe has a record, isn't phony, and yet doesn't write its target.
    pub unwritten: bool,
    /// Its inferred prerequisite, before any recipe has written files.
    pub chosen: Option<SharedName>,
    /// Its inferred prerequisite after all recipes have written their files.
    pub chosen_after: Option<SharedName>,
}

impl<'a> Model for NodeRow<'a> {
    ghost use Rattle.std.specs.Prelude.{◌≡◌, map};
    ghost use Rattle.std.specs.Option.{option_copied};
    ghost use Rattle.mk_subject.specs.NodeRow as value;

    ghost Value = { value.NodeRow };

    ghost view = { λ e.
        record {
          number = e.number;
          node = e.node.now;
          recorded = option_copied e.recorded;
          commands = record {
            lines = value.lines_with (option_copied e.recorded) e.others
                (map (λ line. line.items) e.own.items);
            varying = e.varying;
          };
          others = e.others;
          unwritten = e.unwritten;
          chosen = e.chosen;
          chosen_after = e.chosen_after;
        } };

    ghost invariant = { λ e. e.recipe ≡ e.node.now.recipe };
}

/// The files that a record lists as read; empty without a record.
pub fn reads_in<'a>(recorded: Option<&'a Record>) -> &'a [String]
    ensures { map string_bytes result.now ≡ reads_in (option_copied recorded.entry) }
{
    match recorded {
        Some(record) => record.reads.as_slice(),
        None => &[],
    }
}

/// The files that a record lists as written; empty without a record.
pub fn writes_in<'a>(recorded: Option<&'a Record>) -> &'a [String]
    ensures { map string_bytes result.now ≡ writes_in (option_copied recorded.entry) }
{
    match recorded {
        Some(record) => record.writes.as_slice(),
        None => &[],
    }
}

/// Whether the commands equal these lines.
fn are_lines(commands: &[String], lines: &[Vec<u8>]) -> bool
    ensures { result ≡
        lines_eq (map string_bytes commands.now) (map (λ line. line.items) lines.now) }
{
    if commands.len() != lines.len() {
        return false;
    }
    for (place, command) in commands.iter().enumerate() {
        if command.as_bytes() != lines[place].as_slice() {
            return false;
        }
    }
    true
}

/// Whether there is a record with other commands than these lines.
pub fn has_others(recorded: Option<&Record>, lines: &[Vec<u8>]) -> bool
    ensures { result ≡
        has_others (option_copied recorded.entry) (map (λ line. line.items) lines.now) }
{
    match recorded {
        Some(recorded) => !are_lines(&recorded.commands, lines),
        None => false,
    }
}

/// The command lines that a `NodeRow` keeps: none where the record has the same ones.
pub fn kept_lines(
    alloc: Global,
    recorded: Option<&Record>,
    others: bool,
    lines: Vec<Vec<u8>>,
) -> Vec<Vec<u8>>
    requires { others ≡
        has_others (option_copied recorded) (map (λ line. line.items) lines.items) }
    ensures { lines_with (option_copied recorded.entry) others
        (map (λ line. line.items) result.items) ≡ map (λ line. line.items) lines.items }
{
    if recorded.is_some() && !others {
        return Vec::new(alloc);
    }
    lines
}

/// Whether the node's recipe has a record, isn't phony, and yet doesn't write its target.
pub fn is_unwritten(node: &Node, recorded: Option<&Record>) -> bool
    ensures { result ≡ is_unwritten node.now (option_copied recorded.entry) }
{
    node.recipe
        && recorded.is_some()
        && !node.phony
        && !contains_by_scan(writes_in(recorded), node.name.as_str())
}

impl<'a> NodeRow<'a> {
    /// The name of the node.
    pub fn name(&self) -> &str
        ensures { result.now ≡ self.now.node.name }
    {
        self.node.name.as_str()
    }

    /// A new copy of the name. The only error is out of memory.
    pub fn copy_of_name(&self) -> Result<Name, AllocError>
        ensures { IfOk result (λ name. name ≡ self.now.node.name) }
    {
        self.node.name.clone()
    }

    /// The files that its recipe reads: empty without a recipe or a record.
    pub fn reads(&self) -> &[String]
        ensures { map string_bytes result.now ≡ row_reads self.now }
    {
        if self.recipe {
            reads_in(self.recorded)
        } else {
            &[]
        }
    }

    /// The files that its recipe writes: empty without a recipe or a record.
    pub fn writes(&self) -> &'a [String]
        ensures { map string_bytes result.now ≡ row_writes self.now }
    {
        if self.recipe {
            writes_in(self.recorded)
        } else {
            &[]
        }
    }
}
