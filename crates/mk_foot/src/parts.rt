//! The parts of a footprint file as they stand in it. They own their texts.

use std::marker::Model;

/// A record of a footprint file. In a contract its texts are lists of bytes.
#[derive(Drop)]
pub struct RawRecord {
    pub target: String,
    pub commands: Vec<String>,
    pub reads: Vec<String>,
    pub writes: Vec<String>,
    /// The names of the shared lists that the recipe reads too. Format 1 has none.
    pub shared: Vec<String>,
    /// If true, the target, the reads and the writes are known to be plain paths.
    pub plain: bool,
    /// If true, the reads are known to have no repeats, and the writes too.
    pub apart: bool,
}

impl Model for RawRecord {
    ghost use Rattle.std.specs.Prelude.{◌≡◌, true, map, Ok};
    ghost use Rattle.std.specs.String.{string_bytes};
    ghost use Rattle.mk_foot.specs.Checks.{entry_is_plain};
    ghost use Rattle.mk_foot.specs.Names.{once};
    ghost use Rattle.mk_foot.specs.Parts as value;

    ghost Value = { value.RawRecord };

    ghost view = { λ e.
        record {
          target = string_bytes e.target;
          commands = map string_bytes e.commands.items;
          reads = map string_bytes e.reads.items;
          writes = map string_bytes e.writes.items;
          shared = map string_bytes e.shared.items;
        } };

    ghost invariant = { λ e.
        (e.plain ≡ true → entry_is_plain (record {
          target = string_bytes e.target;
          commands = map string_bytes e.commands.items;
          reads = map string_bytes e.reads.items;
          writes = map string_bytes e.writes.items;
          shared = map string_bytes e.shared.items;
        }) ≡ Ok tt) ×
        (e.apart ≡ true →
        (once (map string_bytes e.reads.items) ≡ map string_bytes e.reads.items) ×
        (once (map string_bytes e.writes.items) ≡ map string_bytes e.writes.items)) };
}

/// Records for some goals. A contract sees lists of bytes.
#[derive(Drop)]
pub struct Group {
    /// The goals. In format 1 it is `None`: the records serve any goals.
    pub goals: Option<Vec<String>>,
    pub records: Vec<RawRecord>,
}

impl Model for Group {
    ghost use Rattle.std.specs.Prelude.{map};
    ghost use Rattle.std.specs.Option.{option_map};
    ghost use Rattle.std.specs.String.{string_bytes};
    ghost use Rattle.mk_foot.specs.Parts as value;

    ghost Value = { value.Group };

    ghost view = { λ g.
        record {
          goals = option_map (λ goals. map string_bytes goals.items) g.goals;
          records = g.records.items;
        } };
}

/// A list of files that records share. A contract sees lists of bytes.
#[derive(Drop)]
pub struct SharedList {
    pub name: String,
    pub names: Vec<String>,
}

impl Model for SharedList {
    ghost use Rattle.std.specs.Prelude.{map};
    ghost use Rattle.std.specs.String.{string_bytes};
    ghost use Rattle.mk_foot.specs.Parts as value;

    ghost Value = { value.SharedList };

    ghost view = { λ s.
        record {
          name = string_bytes s.name;
          names = map string_bytes s.names.items;
        } };
}

/// A whole footprint file. A contract sees lists of bytes.
#[derive(Drop)]
pub struct FootprintFile {
    pub fixed: Vec<String>,
    pub sources: Vec<String>,
    /// Format 1 has none.
    pub lists: Vec<SharedList>,
    /// Format 1 has one.
    pub groups: Vec<Group>,
}

impl Model for FootprintFile {
    ghost use Rattle.std.specs.Prelude.{map};
    ghost use Rattle.std.specs.String.{string_bytes};
    ghost use Rattle.mk_foot.specs.Parts as value;

    ghost Value = { value.FootprintFile };

    ghost view = { λ f.
        record {
          fixed = map string_bytes f.fixed.items;
          sources = map string_bytes f.sources.items;
          lists = f.lists.items;
          groups = f.groups.items;
        } };
}
