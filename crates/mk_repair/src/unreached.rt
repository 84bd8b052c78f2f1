//! The targets with commands that the goals don't reach.

ghost use Rattle.std.specs.Prelude.{◌≡◌, filter, fold, map, IfOk, OnOk};
ghost use Rattle.std.specs.String.{string_bytes};
ghost use Rattle.mk_lines.specs.Names.{with_name};
ghost use Rattle.mk_repair.specs.Makers.{is_outside, unreached, unreached_by};

use mk_lines::BorrowedNames;
use mk_read::Rule;
use mk_subject::Subject;
use std::alloc::{AllocError, Global};

/// Adds those of the targets that the goals don't reach. The only error is out of memory.
fn insert_outside<'a>(
    set: &mut BorrowedNames<'a>,
    subject: &Subject<'_>,
    targets: &'a [String],
) -> Result<(), AllocError>
    ensures { OnOk result (set.new ≡ fold with_name set.old
        (filter (is_outside subject.now) (map string_bytes targets.entry.now))) }
{
    for target in targets {
        if subject.names().contains(target.as_str()) {
            continue;
        }
        set.insert(target.as_str())?;
    }
    Ok(())
}

/// Adds the targets that the makefile's own rule line gives commands, and that the goals don't
/// reach. The only error is out of memory.
fn insert_unreached<'a>(
    set: &mut BorrowedNames<'a>,
    subject: &Subject<'_>,
    rule: &'a Rule,
) -> Result<(), AllocError>
    ensures { OnOk result (set.new ≡
        fold with_name set.old (unreached_by subject.now rule.entry.now)) }
{
    if rule.default || rule.commands.is_none() {
        return Ok(());
    }
    insert_outside(set, subject, &rule.targets)
}

/// The targets with commands that the goals don't reach, each once, in the order of their rule
/// lines. Takes time linear in the makefile. The only error is out of memory.
pub fn unreached_names<'a>(
    alloc: Global,
    subject: &'a Subject<'_>,
) -> Result<BorrowedNames<'a>, AllocError>
    ensures { IfOk result (λ set. set ≡ unreached subject.entry.now) }
{
    let mut set = BorrowedNames::new(alloc);
    for rule in subject.makefile().rules() {
        insert_unreached(&mut set, subject, rule)?;
    }
    Ok(set)
}
