//! The first path from a recipe to a file.

ghost use Rattle.std.specs.Prelude.{◌≡◌, ◌<◌, ◌≤◌, ℕ, length, IfOk, MatchOption};
ghost use Rattle.mk_graph.specs.Membership.{Has};
ghost use Rattle.mk_graph_search.specs.Places.{HasAtMost, IsOutBefore};
ghost use Rattle.mk_graph_search.specs.Ways.{successors};
ghost use Rattle.mk_cert_text.specs.declared.certificate.Finish.{Finish as FinishValue};
ghost use Rattle.mk_subject.specs.Carried.{carried};
ghost use Rattle.mk_subject.specs.WayTables.{AreEnds};
ghost use Rattle.mk_subject.specs.Paths.{EndsAt};
ghost use Rattle.mk_subject.specs.Subject.{footprints, writes_of};
ghost use Rattle.mk_subject.specs.Target.{target_of};
ghost use Rattle.mk_find.specs.FirstPaths.{AlwaysNoneBefore, EndsNoneBefore, IsEndAt, IsFirstFinish, IsAlongFirstPath, HasNoPath};

use mk_cert_text::Finish;
use mk_graph::laws::serial_reaches_each_once;
use mk_graph_search::Search;
use mk_graph_search::laws::{
    first_by_places, none_by_places, one_way_at_a_place, places_are_below,
};
use mk_subject::laws::carried_exactly;
use mk_subject::{EndTables, Subject, Target, ends_at};
use std::alloc::AllocError;

/// At most this many places are tried one by one, which costs less than a lookup.
const FEW: usize = 4;

/// A path of recipes, and how it ends.
#[derive(Debug, Drop)]
pub(crate) struct FirstPath {
    /// The recipes, beginning with the one that reads the file.
    pub nodes: Vec<usize>,
    /// How it ends at the last recipe.
    pub finish: Finish,
}

/// The first finish, in the order `Written`, `Source`, `Always`, with which a path to the file may
/// end at this recipe.
fn finish_at(
    subject: &Subject<'_>,
    ends: &EndTables<'_>,
    file: &Target<'_>,
    number: usize,
) -> Option<Finish>
    requires ends { AreEnds subject.now ends.now.needed.items
        ends.now.always.items }
    requires file { file.now ≡ target_of subject.now file.now.file }
    ensures { MatchOption result
        ((finish : FinishValue) → ¬ (EndsAt subject.now.graph (footprints subject.now.setting)
        file.now.file finish number))
        (λ finish. IsFirstFinish subject.now file.now.file finish number) }
{
    if ends_at(subject, ends, file, Finish::Written, number) {
        return Some(Finish::Written);
    }
    if ends_at(subject, ends, file, Finish::Source, number) {
        return Some(Finish::Source);
    }
    if ends_at(subject, ends, file, Finish::Always, number) {
        return Some(Finish::Always);
    }
    None
}

/// The greatest place up to `passed` before which no way ends at one of these recipes, as far as
/// the search has come.
fn least_place_of_all(search: &Search<'_>, recipes: &[usize], passed: usize) -> usize
    ensures at_most { result ≤ passed }
    ensures out { (n : ℕ) → Has recipes.now n →
        IsOutBefore (successors search.now.rows) search.now.start result n }
{
    let mut place = passed;
    for recipe in recipes {
        place = place.min(search.least_place_of(*recipe));
    }
    place
}

/// A place before which no path to the file may end, from what the search has found so far. The
/// recipes at the first `passed` places aren't always made.
fn place_to_begin(
    subject: &Subject<'_>,
    search: &Search<'_>,
    file: &Target<'_>,
    passed: usize,
) -> usize
    requires file { file.now ≡ target_of subject.now file.now.file }
    requires rows { (t : ℕ) → successors search.now.rows t ≡ carried subject.now t }
    requires passed { AlwaysNoneBefore subject.now search.now.start passed }
    ensures { EndsNoneBefore subject.now file.now.file search.now.start result }
{
    serial_reaches_each_once();
    let _graph = subject.graph();
    if passed <= FEW || subject.setting().is_editable(file.file) {
        return 0;
    }
    least_place_of_all(search, file.writers(), passed)
}

/// Moves `place` on to the first place at which a path to the file may end, and returns the finish;
/// `None` if there is no such place, with `place` at the number of places. The only error is out of
/// memory.
fn go_on_to_end(
    subject: &Subject<'_>,
    ends: &EndTables<'_>,
    search: &mut Search<'_>,
    file: &Target<'_>,
    place: &mut usize,
) -> Result<Option<Finish>, AllocError>
    requires ends { AreEnds subject.now ends.now.needed.items
        ends.now.always.items }
    requires file { file.now ≡ target_of subject.now file.now.file }
    requires rows { (t : ℕ) → successors search.old.rows t ≡ carried subject.now t }
    requires start { search.old.start < length subject.now.graph.nodes }
    requires before { EndsNoneBefore subject.now file.now.file search.old.start place.old }
    ensures same { search.new ≡ search.old }
    ensures before { EndsNoneBefore subject.now file.now.file search.old.start place.new }
    ensures found { IfOk result (λ found. MatchOption found
        (HasAtMost (carried subject.now) search.old.start place.new)
        (λ finish. IsEndAt subject.now file.now.file search.old.start place.new finish)) }
{
    carried_exactly();
    one_way_at_a_place();
    places_are_below();
    let _graph = subject.graph();
    while let Some(number) = search.visit(*place)? {
        if let Some(finish) = finish_at(subject, ends, file, number) {
            return Ok(Some(finish));
        }
        *place += 1;
    }
    Ok(None)
}

/// The first path to the file from the start of `search`, or `None` if no path leads to it. The
/// recipe at the start must not write the file, and those at the first `passed` places must not be
/// always made; so they aren't up to the new `passed`. If `passed` is kept over all files, the time
/// is linear in the places and the files that aren't editable. The only error is out of memory.
pub(crate) fn first_path(
    subject: &Subject<'_>,
    ends: &EndTables<'_>,
    search: &mut Search<'_>,
    passed: &mut usize,
    file: &Target<'_>,
) -> Result<Option<FirstPath>, AllocError>
    requires ends { AreEnds subject.now ends.now.needed.items
        ends.now.always.items }
    requires file { file.now ≡ target_of subject.now file.now.file }
    requires rows { (t : ℕ) → successors search.old.rows t ≡ carried subject.now t }
    requires start { search.old.start < length subject.now.graph.nodes }
    requires passed { AlwaysNoneBefore subject.now search.old.start passed.old }
    requires out { ¬ (Has (writes_of subject.now search.old.start) file.now.file) }
    ensures same { search.new ≡ search.old }
    ensures passed { AlwaysNoneBefore subject.now search.old.start passed.new }
    ensures found { IfOk result (λ found. MatchOption found
        (HasNoPath subject.now file.now.file search.old.start)
        (λ path.
        IsAlongFirstPath subject.now file.now.file search.old.start path.nodes.items path.finish)) }
{
    carried_exactly();
    first_by_places();
    none_by_places();
    one_way_at_a_place();
    let _graph = subject.graph();
    let mut place = place_to_begin(subject, search, file, *passed);
    let finish = go_on_to_end(subject, ends, search, file, &mut place)?;
    *passed = place.max(*passed);
    let Some(finish) = finish else {
        return Ok(None);
    };
    let alloc = *ends.needed.allocator();
    let Some(nodes) = search.way(alloc, place)? else {
        return Ok(None);
    };
    Ok(Some(FirstPath { nodes, finish }))
}
