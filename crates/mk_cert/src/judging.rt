//! Checks the entries of a certificate, in their order.

ghost use Rattle.std.specs.Prelude.{◌≡◌, ◌<◌, ◌⊎◌, ℕ, [], not, length, slice_index_or, slice_set, Err, IfOk, IfSome, OnOk};
ghost use Rattle.mk_lines.specs.Names.{has_name, with_name};
ghost use Rattle.mk_subject.specs.WayTables.{AreLinks};
ghost use Rattle.mk_cert.specs.WalkTables.{AreSeen, HoldReads};
ghost use Rattle.mk_cert.specs.Checks.{AnswersEntries, HasSets, Judges};
ghost use Rattle.mk_cert.specs.declared.fault.CertFault.TheVariants.{BadWay, Memory};

use crate::cursor::Cursor;
use crate::fault::CertFault;
use crate::read_lists::ReadLists;
use crate::seen_names::SeenNames;
use crate::walking::{ReadFinder, good_start};
use mk_build::build_laws::names_have_one_number;
use mk_cert_text::{Way, Ways};
use mk_lines::Name;
use mk_subject::{Subject, WayTables};
use std::alloc::{AllocError, Global};

/// `count` empty sets.
pub fn empty_sets<'a>(alloc: Global, count: usize) -> Result<Vec<SeenNames<'a>>, AllocError>
    ensures many { IfOk result (λ sets. length sets.items ≡ count) }
    ensures empty { IfOk result (λ sets. (t : ℕ) → slice_index_or sets.items t [] ≡ []) }
{
    let mut sets = Vec::with_capacity(alloc, count)?;
    for _ in 0..count {
        sets.push(SeenNames::new())?;
    }
    Ok(sets)
}

/// Adds a name to the set at an index. Returns whether it was new.
fn note_at<'a>(
    alloc: Global,
    sets: &mut Vec<SeenNames<'a>>,
    place: usize,
    name: &'a str,
) -> Result<bool, AllocError>
    requires { place < length sets.old.items }
    ensures new { IfOk result (λ added. added ≡
        not (has_name (slice_index_or sets.old.items place []) name.entry.now)) }
    ensures ok { OnOk result (sets.new.items ≡ slice_set sets.old.items place
        (with_name (slice_index_or sets.old.items place []) name.entry.now)) }
    ensures many { length sets.new.items ≡ length sets.old.items }
{
    let set = &mut sets[place];
    set.insert(alloc, name)
}

/// Whether an entry is good and the first for its recipe and file; if so, it is added to `seen`.
fn note_good<'a, 's>(
    subject: &'s Subject<'_>,
    links: &WayTables<'_>,
    finder: &mut ReadFinder<'s>,
    way: &Way<'a>,
    seen: &mut Vec<SeenNames<'a>>,
) -> Result<bool, AllocError>
    requires links { AreLinks subject.now links.now.carried.items
        links.now.ends.needed.items links.now.ends.always.items }
    requires lists { IfSome finder.old.lists.lists (λ lists. HoldReads subject.now lists.items) }
    requires sets { HasSets subject.now seen.old.items }
    ensures judged { IfOk result (λ good.
        Judges subject.entry.now way.now seen.old.items seen.new.items good) }
    ensures lists { OnOk result
        (IfSome finder.new.lists.lists (λ lists. HoldReads subject.entry.now lists.items)) }
    ensures sets { HasSets subject.entry.now seen.new.items }
{
    names_have_one_number();
    let _graph = subject.graph();
    let alloc = *seen.allocator();
    let Some(start) = good_start(alloc, subject, links, finder, way)? else {
        return Ok(false);
    };
    note_at(alloc, seen, start, way.file)
}

/// The fault for a bad entry.
fn bad_way(alloc: Global, way: &Way<'_>) -> Result<CertFault, AllocError>
    ensures { IfOk result (λ fault. fault ≡ BadWay way.now.recipe way.now.file) }
{
    let recipe = Name::new(alloc, way.recipe)?;
    let file = Name::new(alloc, way.file)?;
    Ok(CertFault::BadWay { recipe, file })
}

/// Adds all entries to `seen`. The errors are `BadWay` (75) for the first bad entry, and out of
/// memory.
pub fn check_entries<'a>(
    alloc: Global,
    subject: &Subject<'_>,
    links: &WayTables<'_>,
    ways: &'a Ways,
    seen: &mut Vec<SeenNames<'a>>,
) -> Result<(), CertFault>
    requires links { AreLinks subject.now links.now.carried.items links.now.ends.needed.items
        links.now.ends.always.items }
    requires sets { HasSets subject.now seen.old.items }
    requires empty { AreSeen subject.now [] seen.old.items }
    ensures answer { (result ≡ Err Memory) ⊎ AnswersEntries subject.now ways.entry.now result }
    ensures seen { OnOk result (AreSeen subject.now ways.entry.now seen.new.items) }
{
    let mut finder = ReadFinder {
        cursor: Cursor::new(alloc, subject)?,
        lists: ReadLists::new(),
    };
    for place in 0..ways.len() {
        let way = ways.at(place);
        if !note_good(subject, links, &mut finder, &way, seen)? {
            return Err(bad_way(alloc, &way)?);
        }
    }
    Ok(())
}
