//! Laws about answers of a reader. Each function exists for its contract alone: a caller has the
//! law as a fact.

ghost use Rattle.mk_read_files.specs.Answers.{SomeMapFits};

/// If no name was answered in two ways, some map fits the answers. So what is claimed for each map
/// that fits is claimed for at least one, unless a file changed between two reads of it.
pub fn some_map_fits()
    ensures { SomeMapFits }
{}
