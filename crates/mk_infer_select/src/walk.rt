//! The walk of the names that goals reach.

ghost use Rattle.std.specs.Prelude.{map, IfOk};
ghost use Rattle.mk_infer_select.specs.Walked.{IsWalked};

use mk_graph::MAX_NODES;
use mk_infer::{Choices, ResolvedRule, needs_with, resolve_rule};
use mk_infer_laws::laws::{new_names_leave_less, walk_goes_on};
use mk_lines::BorrowedNames;
use std::alloc::{AllocError, Global};
use std::marker::Model;

/// A name that a walk visited, and what makes it. A contract sees lists.
#[derive(Drop)]
pub struct VisitedName<'m> {
    /// The name.
    pub name: &'m str,
    /// What makes the name.
    pub maker: ResolvedRule<'m>,
}

impl<'m> Model for VisitedName<'m> {
    ghost use Rattle.mk_infer_select.specs.Walked as value;

    ghost Value = { value.VisitedName };

    ghost view = { λ m. record { name = m.name.now; making = m.maker } };
}

/// The names that a walk visited, and what makes them.
#[derive(Drop)]
pub struct Walked<'m> {
    /// The names in the order in which they were visited, at most one more than a graph may have.
    pub names: BorrowedNames<'m>,
    /// What makes these names, for at most as many as a graph may have.
    pub met: Vec<VisitedName<'m>>,
}

impl<'m> Model for Walked<'m> {
    ghost use Rattle.mk_infer_select.specs.Walked as value;

    ghost Value = { value.Walked };

    ghost view = { λ w. record { names = w.names; met = w.met.items } };
}

/// Walks depth first, from left to right, from the goals, and returns the names in the order of
/// their first visit, each with what makes it. The walk stops at the first name that is one too
/// many for a graph. The only error is out of memory.
pub fn walk_from<'m>(
    alloc: Global,
    choices: &'m Choices<'m>,
    goals: &[&'m str],
) -> Result<Walked<'m>, AllocError>
    ensures { IfOk result (λ walked. IsWalked choices.now.makefile choices.now.exists
        (map (λ goal. goal.now) goals.now) walked) }
{
    walk_goes_on();
    new_names_leave_less();
    let most = choices.table().rules().len().min(MAX_NODES);
    let mut names = BorrowedNames::with_capacity(alloc, most)?;
    let mut met = Vec::with_capacity(alloc, most)?;
    let mut todo = Vec::from_slice(alloc, goals)?;
    todo.reverse();
    while let Some(name) = todo.pop() {
        if !names.insert(name)? {
            continue;
        }
        if names.as_slice().len() > MAX_NODES {
            return Ok(Walked { names, met });
        }
        let maker = resolve_rule(alloc, choices, name)?;
        let mut words = needs_with(alloc, &maker.rules, maker.choice)?;
        met.push(VisitedName { name, maker })?;
        words.reverse();
        todo.extend_from_slice(&words)?;
    }
    Ok(Walked { names, met })
}
