//! Evidence of a race.

ghost use Rattle.std.specs.Prelude.{◌≡◌, ◌<◌, [], length, map, true, IfOk, IfSome, MatchBool, MatchOption};
ghost use Rattle.mk_graph.specs.Graph.{node};
ghost use Rattle.mk_graph.specs.Schedules.{Before};
ghost use Rattle.mk_world.specs.NamedStep.{step_view};
ghost use Rattle.mk_world.specs.Steps.{IsFirstOf};
ghost use Rattle.mk_find_evidence.specs.Numbers.{HaveSmallNumbers};
ghost use Rattle.mk_find_evidence.specs.Shown.{HasStamps, ShowsRace};

use crate::bound::has_stamps;
use crate::history::History;
use crate::making::make_but;
use mk_build::build_laws::{first_is_a_start, schedules_run};
use mk_graph::laws::serial_reaches_each_once;
use mk_graph::{NodeSet, schedule_without};
use mk_subject::Subject;
use mk_world::Step;
use std::alloc::{AllocError, Global};

/// Starts a make of all goals with one job, runs nodes other than `o` until `t` is ready, and
/// begins the recipe of `t`. Returns whether there are enough stamps; if not, it takes no step.
fn make_until_begin(
    alloc: Global,
    subject: &Subject<'_>,
    history: &mut History<'_>,
    o: usize,
    t: usize,
) -> Result<bool, AllocError>
    requires node { t < length subject.now.graph.nodes }
    requires recipe { (node subject.now.graph t).recipe ≡ true }
    requires not_before { ¬ (Before subject.now.graph o t) }
    requires first { IsFirstOf subject.now.graph subject.now.setting history.old.world }
    requires steps { history.old.steps ≡ [] }
    ensures { IfOk result (λ enough. MatchBool enough
        (ShowsRace subject.now o t history.new.steps) (¬ (HasStamps subject.now))) }
{
    first_is_a_start();
    serial_reaches_each_once();
    schedules_run();
    let graph = subject.graph();
    if !has_stamps(subject, history.clock()) {
        return Ok(false);
    }
    let Some(turns) = schedule_without(alloc, graph, o, t)? else {
        return Ok(false);
    };
    history.start()?;
    make_but(graph, history, &turns, &NodeSet::new())?;
    history.begin(t)?;
    Ok(true)
}

/// A make with one job that begins the recipe of `t` while `o` isn't done; `None` if there are too
/// few stamps. The only error is out of memory.
pub fn race<'a>(
    alloc: Global,
    subject: &'a Subject<'_>,
    o: usize,
    t: usize,
) -> Result<Option<Vec<Step<'a>>>, AllocError>
    requires node { t < length subject.now.graph.nodes }
    requires recipe { (node subject.now.graph t).recipe ≡ true }
    requires not_before { ¬ (Before subject.now.graph o t) }
    ensures shown { IfOk result (λ found. MatchOption found (¬ (HasStamps subject.entry.now))
        (λ steps. ShowsRace subject.entry.now o t (map step_view steps.items))) }
    ensures numbers { IfOk result (λ found. IfSome found
        (λ steps. HaveSmallNumbers (map step_view steps.items))) }
{
    let mut history = History::new(alloc, subject.graph(), subject.setting())?;
    let enough = make_until_begin(alloc, subject, &mut history, o, t);
    let steps = history.into_steps();
    if enough? { Ok(Some(steps)) } else { Ok(None) }
}
