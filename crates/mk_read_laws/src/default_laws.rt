//! Laws of the default text.

ghost use Rattle.mk_read.specs.DefaultLaws.{DefaultRulesStay, NoDefaultRules};

/// Where the default text was read first, its rule lines in the makefile are those with a target
/// that is an inference name, unchanged.
pub fn default_rules_stay()
    ensures { DefaultRulesStay }
{}

/// Where the default text wasn't read, the makefile has no rule line of it.
pub fn no_default_rules()
    ensures { NoDefaultRules }
{}
