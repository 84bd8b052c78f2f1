//! The rule lines at which names are needed.

ghost use Rattle.std.specs.Prelude.{◌≡◌, ◌⊎◌, find, map, IfOk};
ghost use Rattle.std.specs.Option.{option_copied, option_map};
ghost use Rattle.std.specs.String.{string_bytes};
ghost use Rattle.mk_read.specs.Names.{has_name};
ghost use Rattle.mk_infer.specs.Needed.{closing_place, has_prerequisite, joins, needing_place};
ghost use Rattle.mk_infer.specs.Steps.{of_graph};
ghost use Rattle.mk_infer.specs.declared.fault.InferFault.TheVariants.{Memory, NoRule};

use mk_graph::GraphFault;
use mk_infer::{InferFault, RuleTable};
use mk_lines::Name;
use mk_read::{Place, Rule};
use std::alloc::{AllocError, Global};

/// Whether these names have the name.
fn has_name(names: &[String], name: &str) -> bool
    ensures { result ≡ has_name (map string_bytes names.now) name.now }
{
    for other in names {
        if name == other.as_str() {
            return true;
        }
    }
    false
}

/// Whether a rule line has the target, and the name as a prerequisite.
fn joins(rule: &Rule, target: &str, name: &str) -> bool
    ensures { result ≡ joins target.now name.now rule.now }
{
    has_name(&rule.targets, target) && has_name(&rule.words, name)
}

/// The first rule line that has the name as a prerequisite.
fn first_needing<'m>(rules: &'m [Rule], name: &str) -> Option<&'m Rule>
    ensures { option_copied result ≡ find (has_prerequisite name.now) rules.now }
{
    for rule in rules {
        if has_name(&rule.words, name) {
            return Some(rule);
        }
    }
    None
}

/// The first rule line that has the target, and the name as a prerequisite.
fn first_joining<'m>(rules: &'m [Rule], target: &str, name: &str) -> Option<&'m Rule>
    ensures { option_copied result ≡ find (joins target.now name.now) rules.now }
{
    for rule in rules {
        if joins(rule, target, name) {
            return Some(rule);
        }
    }
    None
}

/// A copy of the place of a rule line, if there is one.
fn place_of(alloc: Global, rule: Option<&Rule>) -> Result<Option<Place>, AllocError>
    ensures { IfOk result (λ place. place ≡
        option_map (λ rule. rule.place) (option_copied rule.entry)) }
{
    let Some(rule) = rule else {
        return Ok(None);
    };
    let file = Name::new(alloc, rule.place.file.as_str())?;
    let line = rule.place.line;
    Ok(Some(Place { file, line }))
}

/// The fault of a name that nothing makes. The only error is out of memory.
pub fn no_rule(alloc: Global, table: &RuleTable<'_>, name: &str) -> Result<InferFault, AllocError>
    ensures { IfOk result (λ fault. fault ≡
        NoRule name.now (needing_place table.now name.now)) }
{
    let place = place_of(alloc, first_needing(table.rules(), name))?;
    let name = Name::new(alloc, name)?;
    Ok(InferFault::NoRule(name, place))
}

/// The place of the first rule line that closes a path of names, if one does.
fn closing_place(
    alloc: Global,
    table: &RuleTable<'_>,
    names: &[Name],
) -> Result<Option<Place>, AllocError>
    ensures { IfOk result (λ place. place ≡ closing_place table.now names.now) }
{
    let Some(target) = names.get(names.len().saturating_sub(2)) else {
        return Ok(None);
    };
    let Some(name) = names.get(names.len().saturating_sub(1)) else {
        return Ok(None);
    };
    place_of(
        alloc,
        first_joining(table.rules(), target.as_str(), name.as_str()),
    )
}

/// Why goals have no graph, by the fault of the graph. Out of memory may come in its place.
pub fn refused(alloc: Global, table: &RuleTable<'_>, fault: GraphFault) -> InferFault
    ensures { (result ≡ Memory) ⊎ (result ≡ of_graph table.now fault) }
{
    let place = match &fault {
        GraphFault::Cycle(names) => closing_place(alloc, table, names.as_slice()),
        GraphFault::TooManyNodes => Ok(None),
        GraphFault::Memory => return InferFault::Memory,
    };
    match place {
        Ok(place) => InferFault::Graph(fault, place),
        Err(_) => InferFault::Memory,
    }
}
