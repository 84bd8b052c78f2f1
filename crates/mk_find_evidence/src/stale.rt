//! Evidence of a stale read.

ghost use Rattle.std.specs.Prelude.{◌≡◌, ◌<◌, ◌↔◌, [], ℕ, length, map, IfOk, IfSome, MatchBool, MatchOption, OnOk};
ghost use Rattle.mk_graph.specs.Membership.{Has};
ghost use Rattle.mk_graph.specs.Serial.{serial_order};
ghost use Rattle.mk_build.specs.Stale.{Chain};
ghost use Rattle.mk_world.specs.NamedStep.{step_view};
ghost use Rattle.mk_world.specs.Steps.{IsFirstOf};
ghost use Rattle.mk_find.specs.Candidates.{static_candidates};
ghost use Rattle.mk_find.specs.Conditions.{IsStale};
ghost use Rattle.mk_find.specs.Listing.{Lists};
ghost use Rattle.mk_subject.specs.Subject.{footprints};
ghost use Rattle.mk_find_evidence.specs.Makes.{GoesOnEditing, GoesOnMakingGoals, HasNoMake, MayEdit, MayMakeGoals};
ghost use Rattle.mk_find_evidence.specs.Numbers.{HaveSmallNumbers};
ghost use Rattle.mk_find_evidence.specs.Shown.{HasStamps, ShowsStaleRead};

use crate::bound::has_stamps;
use crate::history::History;
use crate::making::make_but;
use mk_build::build_laws::{first_is_a_start, stale_is_shown};
use mk_find::finding_laws::nothing_found_is_sound;
use mk_graph::laws::{order_of_all_goals, serial_reaches_each_once};
use mk_graph::{Graph, NodeSet};
use mk_graph_search::Search;
use mk_graph_search::laws::{none_by_places, one_way_at_a_place, places_are_below};
use mk_subject::laws::carried_exactly;
use mk_subject::{Subject, carried_lists};
use mk_world::Step;
use std::alloc::{AllocError, Global};

/// The node `t` and all recipes that it carries, directly or over others.
fn carried_closure(alloc: Global, subject: &Subject<'_>, t: usize) -> Result<NodeSet, AllocError>
    requires { t < length subject.now.graph.nodes }
    ensures { IfOk result (λ set. (n : ℕ) →
        Has set n ↔ Chain subject.now.graph (footprints subject.now.setting) t n) }
{
    carried_exactly();
    none_by_places();
    one_way_at_a_place();
    places_are_below();
    let _graph = subject.graph();
    let rows = carried_lists(alloc, subject)?;
    let mut search = Search::new(alloc, &rows, t)?;
    let mut set = NodeSet::new();
    let mut place = 0;
    while let Some(number) = search.visit(place)? {
        set.insert(number);
        place += 1;
    }
    Ok(set)
}

/// Makes all goals with one job, from the start of the make to its end. Recipes are run as a whole,
/// except those in `passed`.
fn make_all(
    graph: &Graph,
    history: &mut History<'_>,
    order: &[usize],
    passed: &NodeSet,
) -> Result<(), AllocError>
    requires graph { graph.now ≡ history.old.world.scene.graph }
    requires order { order.now ≡ serial_order graph.now }
    requires idle { HasNoMake history.old }
    requires legal { MayMakeGoals history.old passed.now }
    ensures { OnOk result (GoesOnMakingGoals history.old history.new passed.now) }
{
    serial_reaches_each_once();
    order_of_all_goals();
    let _goals = graph.goals();
    history.start()?;
    make_but(graph, history, order, passed)?;
    history.end_make()
}

/// Edits the file if it is editable.
fn edit_if_editable<'a>(
    subject: &Subject<'_>,
    history: &mut History<'a>,
    file: &'a str,
) -> Result<(), AllocError>
    requires scene { history.old.world.scene ≡
        record { graph = subject.now.graph; recorded = subject.now.setting } }
    requires idle { HasNoMake history.old }
    requires legal { MayEdit history.old file.now }
    ensures { OnOk result (GoesOnEditing history.old history.new file.entry.now) }
{
    if subject.setting().is_editable(file) {
        history.edit(file)?;
    }
    Ok(())
}

/// Makes all goals, edits the file if it is editable, and makes all goals again with the nodes in
/// `passed` passed. Returns whether there are enough stamps; if not, it takes no step.
fn make_edit_make<'a>(
    subject: &Subject<'_>,
    history: &mut History<'a>,
    t: usize,
    file: &'a str,
    passed: &NodeSet,
) -> Result<bool, AllocError>
    requires nothing { Lists subject.now (static_candidates subject.now) [] }
    requires stale { IsStale subject.now t file.now }
    requires first { IsFirstOf subject.now.graph subject.now.setting history.old.world }
    requires steps { history.old.steps ≡ [] }
    requires passed { (n : ℕ) → Has passed.now n ↔
        Chain subject.now.graph (footprints subject.now.setting) t n }
    ensures { IfOk result (λ enough. MatchBool enough
        (ShowsStaleRead subject.now t file.entry.now history.new.steps)
        (¬ (HasStamps subject.now))) }
{
    first_is_a_start();
    nothing_found_is_sound();
    order_of_all_goals();
    stale_is_shown();
    let graph = subject.graph();
    if !has_stamps(subject, history.clock()) {
        return Ok(false);
    }
    let order = graph.serial()?;
    make_all(graph, history, &order, &NodeSet::new())?;
    edit_if_editable(subject, history, file)?;
    make_all(graph, history, &order, passed)?;
    Ok(true)
}

/// A make of all goals with one job, an edit of the file if it is editable, and the same make
/// again, in which `t` and all recipes that it carries, directly or over others, are passed; `None`
/// if there are too few stamps. The only error is out of memory.
pub fn stale<'a>(
    alloc: Global,
    subject: &'a Subject<'_>,
    t: usize,
    file: &'a str,
) -> Result<Option<Vec<Step<'a>>>, AllocError>
    requires node { t < length subject.now.graph.nodes }
    requires nothing { Lists subject.now (static_candidates subject.now) [] }
    requires stale { IsStale subject.now t file.now }
    ensures shown { IfOk result (λ found. MatchOption found (¬ (HasStamps subject.entry.now))
        (λ steps. ShowsStaleRead subject.entry.now t file.entry.now
        (map step_view steps.items))) }
    ensures numbers { IfOk result (λ found. IfSome found
        (λ steps. HaveSmallNumbers (map step_view steps.items))) }
{
    let passed = carried_closure(alloc, subject, t)?;
    let mut history = History::new(alloc, subject.graph(), subject.setting())?;
    let enough = make_edit_make(subject, &mut history, t, file, &passed);
    let steps = history.into_steps();
    if enough? { Ok(Some(steps)) } else { Ok(None) }
}
