//! The source suffixes of inference rules, by the ending of the name that they make.

ghost use Rattle.std.specs.Prelude.{◌≡◌, ◌∷◌, ◌++◌, [], List, ℕ, map, IfOk, OnOk, if◌then◌else◌};
ghost use Rattle.std.specs.Option.{option_map_or};
ghost use Rattle.std.specs.Str.{bytes_eq};
ghost use Rattle.std.specs.String.{string_bytes};
ghost use Rattle.indexmap.specs.IndexMap.{get_by};
ghost use Rattle.mk_infer.specs.Table.{HasSources, HoldsDotted, commanded_in, given, is_dotted, sources_by, texts_at};

use crate::backs::{Backs, backs_among};
use indexmap::IndexMap;
use mk_lines::BorrowedNames;
use mk_read::{Makefile, Rule};
use std::alloc::{AllocError, Global};

/// For each ending the source suffixes of the rules with commands, in the order of the list of
/// suffixes. In the rule `.c.o` the ending is `.o` and the source suffix `.c`; in the rule `.c` the
/// ending is empty.
pub type Sources<'m> = IndexMap<&'m str, Vec<&'m str>>;

/// Whether a name begins with a dot, as each inference name does.
pub fn is_dotted(name: &[u8]) -> bool
    ensures { result ≡ is_dotted name.now }
{
    match name {
        [first, ..] => *first == b'.',
        [] => false,
    }
}

/// Adds the names that begin with a dot and aren't in the set yet.
fn insert_dotted<'m>(set: &mut BorrowedNames<'m>, names: &'m [String]) -> Result<(), AllocError>
    ensures { OnOk result (HoldsDotted set.old (map string_bytes names.now) set.new) }
{
    for name in names {
        if is_dotted(name.as_bytes()) {
            set.insert(name)?;
        }
    }
    Ok(())
}

/// Returns the targets of rule lines with commands that begin with a dot, each once.
fn commanded_among<'m>(alloc: Global, rules: &'m [Rule]) -> Result<BorrowedNames<'m>, AllocError>
    ensures { IfOk result (λ set. HoldsDotted [] (commanded_in rules.now) set) }
{
    let mut set = BorrowedNames::new(alloc);
    for rule in rules {
        if rule.commands.is_some() {
            insert_dotted(&mut set, &rule.targets)?;
        }
    }
    Ok(set)
}

/// Adds a source suffix to an ending.
fn add_source<'m>(
    alloc: Global,
    sources: &mut Sources<'m>,
    ending: &'m str,
    suffix: &'m str,
) -> Result<(), AllocError>
    ensures { OnOk result ((name : List ℕ) →
        option_map_or (λ texts. texts.items) (get_by (λ k. bytes_eq name k.now) sources.new) []
        ≡ (if bytes_eq name ending.entry.now
        then option_map_or (λ texts. texts.items)
        (get_by (λ k. bytes_eq name k.now) sources.old) [] ++ suffix.entry ∷ []
        else option_map_or (λ texts. texts.items)
        (get_by (λ k. bytes_eq name k.now) sources.old) [])) }
{
    let before = sources.entry(ending)?.or_insert(Vec::new(alloc));
    before.push(suffix)?;
    Ok(())
}

/// Adds a source suffix to each of these endings.
fn add_sources<'m>(
    alloc: Global,
    sources: &mut Sources<'m>,
    endings: &[&'m str],
    suffix: &'m str,
) -> Result<(), AllocError>
    ensures { OnOk result ((name : List ℕ) →
        texts_at sources.new name ≡
        texts_at sources.old name ++
        given suffix.entry.now name (map (λ ending. ending.now) endings.now)) }
{
    for ending in endings {
        add_source(alloc, sources, ending, suffix)?;
    }
    Ok(())
}

/// Returns for each ending the suffixes that have it among their backs, in order.
fn sources_by<'m>(
    alloc: Global,
    suffixes: &'m [String],
    backs: &Backs<'m>,
) -> Result<Sources<'m>, AllocError>
    ensures { IfOk result (λ sources. (name : List ℕ) →
        texts_at sources name ≡
        sources_by (texts_at backs.now) name (map string_bytes suffixes.now)) }
{
    let mut sources = IndexMap::new(alloc);
    for suffix in suffixes {
        if let Some(endings) = backs.get(suffix.as_str()) {
            add_sources(alloc, &mut sources, endings, suffix)?;
        }
    }
    Ok(sources)
}

/// Returns for each ending (a known suffix, or nothing) the source suffixes of the rules with
/// commands, in the order of the list of suffixes. The time is proportional to the number of
/// suffixes and targets.
pub fn sources_among<'m>(alloc: Global, makefile: &'m Makefile) -> Result<Sources<'m>, AllocError>
    ensures { IfOk result (λ sources. HasSources makefile.now sources) }
{
    let names = commanded_among(alloc, makefile.rules())?;
    let backs = backs_among(alloc, &names)?;
    sources_by(alloc, makefile.suffixes(), &backs)
}
