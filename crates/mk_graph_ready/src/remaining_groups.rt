//! The prerequisites of a node that may not be done yet.

ghost use Rattle.std.specs.Prelude.{◌≡◌, ◌↔◌, [], map, true, MatchOption};
ghost use Rattle.mk_graph_ready.specs.RemainingGroups.{Halts, IsStopped, Opens, Skips};

use mk_graph::NodeSet;
use std::marker::Model;

/// The remaining members of the open group, and the groups after it. Contracts see lists.
#[derive(Drop)]
pub(crate) struct RemainingGroups<'a> {
    group: &'a [usize],
    behind: &'a [Vec<usize>],
}

impl<'a> Model for RemainingGroups<'a> {
    ghost use Rattle.std.specs.Prelude.{map};
    ghost use Rattle.mk_graph_ready.specs.Rest as value;

    ghost Value = { value.Rest };

    ghost view = { λ l. record {
      group = l.group.now;
      behind = map (λ group. group.items) l.behind.now;
    } };
}

/// The members of a group from the first that isn't done.
fn undone<'b>(done: &NodeSet, group: &'b [usize]) -> &'b [usize]
    ensures skips { Skips done.now group.now result.now }
    ensures stopped { IsStopped done.now (record { group = result.now; behind = [] }) }
{
    for (past, number) in group.iter().enumerate() {
        if !done.has(*number) {
            return &group[past..];
        }
    }
    &[]
}

impl<'a> RemainingGroups<'a> {
    /// All groups remain, and none is open yet.
    pub fn new(groups: &'a [Vec<usize>]) -> RemainingGroups<'a>
        ensures { result ≡
            record { group = []; behind = map (λ group. group.items) groups.entry.now } }
    {
        RemainingGroups {
            group: &[],
            behind: groups,
        }
    }

    /// Skips to the first member that isn't done. If the open group has none, opens the next group
    /// and returns it.
    pub fn next(&mut self, done: &NodeSet) -> Option<&'a [usize]>
        ensures { MatchOption result (Halts done.now self.old self.new)
            (λ group. Opens done.now self.old self.new group.now) }
    {
        self.group = undone(done, self.group);
        if !self.group.is_empty() {
            return None;
        }
        if self.behind.is_empty() {
            return None;
        }
        self.group = self.behind[0].as_slice();
        self.behind = &self.behind[1..];
        Some(self.group)
    }

    /// Whether the open group has no members left.
    pub fn is_over(&self) -> bool
        ensures { (result ≡ true) ↔ (self.now.group ≡ []) }
    {
        self.group.is_empty()
    }
}
