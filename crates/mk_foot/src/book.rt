//! A footprint file, as it applies to some goals.

ghost use Rattle.std.specs.Prelude.{◌≡◌};
ghost use Rattle.mk_foot.specs.Book.{no_book};

use std::alloc::Global;
use std::marker::Model;

/// What the recipe of a target was recorded to do. A contract sees lists of bytes.
#[derive(Debug, Drop)]
pub struct Record {
    /// The target of the recipe.
    pub target: String,
    /// The expanded commands, in order, with repeats.
    pub commands: Vec<String>,
    /// The files that the recipe reads before it has written them in the same run, each once.
    pub reads: Vec<String>,
    /// The files that the recipe leaves written, each once.
    pub writes: Vec<String>,
}

impl Model for Record {
    ghost use Rattle.std.specs.Prelude.{◌≡◌, map};
    ghost use Rattle.std.specs.String.{string_bytes};
    ghost use Rattle.mk_lines.specs.Names.{once};
    ghost use Rattle.mk_foot.specs.Book as value;

    ghost Value = { value.Record };

    ghost view = { λ r.
        record {
          target = string_bytes r.target;
          commands = map string_bytes r.commands.items;
          reads = map string_bytes r.reads.items;
          writes = map string_bytes r.writes.items;
        } };

    ghost invariant = { λ r. once (map string_bytes r.reads.items) ≡
        map string_bytes r.reads.items };
}

/// What a footprint file says for some goals. A contract sees lists of bytes.
#[derive(Debug, Drop)]
pub struct Book {
    /// Prefixes of the names of files that never change, each once.
    pub fixed: Vec<String>,
    /// The files that exist before a build, each once.
    pub sources: Vec<String>,
    /// The records, one for each target.
    pub records: Vec<Record>,
}

impl Model for Book {
    ghost use Rattle.std.specs.Prelude.{map};
    ghost use Rattle.std.specs.String.{string_bytes};
    ghost use Rattle.mk_foot.specs.Book as value;

    ghost Value = { value.Book };

    ghost view = { λ b.
        record {
          fixed = map string_bytes b.fixed.items;
          sources = map string_bytes b.sources.items;
          records = b.records.items;
        } };
}

impl Book {
    /// Returns a book without records, sources and fixed prefixes.
    pub fn empty(alloc: Global) -> Book
        ensures { result ≡ no_book }
    {
        Book {
            fixed: Vec::new(alloc),
            sources: Vec::new(alloc),
            records: Vec::new(alloc),
        }
    }
}
