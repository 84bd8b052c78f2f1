//! Which targets have commands of their own.

ghost use Rattle.std.specs.Prelude.{◌≡◌, map};
ghost use Rattle.std.specs.String.{string_bytes};
ghost use Rattle.mk_read.specs.Names.{has_name};
ghost use Rattle.mk_read.specs.Rules.{gives_commands, is_commanded};

use mk_read::{Makefile, Rule};

/// Whether this name is among the names. Allocates nothing.
pub fn has_name(names: &[String], name: &str) -> bool
    ensures { result ≡ has_name (map string_bytes names.now) name.now }
{
    for other in names {
        if name == other.as_str() {
            return true;
        }
    }
    false
}

/// Whether the rule line is the makefile's own, has commands, and has the name as a target.
/// Allocates nothing.
fn gives_commands(rule: &Rule, name: &str) -> bool
    ensures { result ≡ gives_commands name.now rule.now }
{
    if rule.default {
        return false;
    }
    match &rule.commands {
        Some(_) => has_name(&rule.targets, name),
        None => false,
    }
}

/// Whether a rule line of the makefile gives commands to the name. Takes time linear in the rule
/// lines. Allocates nothing.
pub fn is_commanded(makefile: &Makefile, name: &str) -> bool
    ensures { result ≡ is_commanded makefile.now.rules name.now }
{
    for rule in makefile.rules() {
        if gives_commands(rule, name) {
            return true;
        }
    }
    false
}
