//! Looks up rule lines by name, chooses inference rules, and expands the commands of a name.
#![tactic(auto)]

mod backs;
mod choices;
mod exists;
mod expanding;
mod fault;
mod inference;
mod name_rules;
mod needs;
mod recipes;
mod rule_table;
mod source_suffixes;
mod suffix_set;

pub use backs::{Backs, add_backs, backs_of};
pub use choices::Choices;
pub use exists::Exists;
pub use expanding::Commands;
pub use fault::InferFault;
pub use inference::{ResolvedRule, choice, resolve_rule};
pub use name_rules::NameRules;
pub use needs::needs_with;
pub use recipes::{ChoiceAndCommands, choice_and_commands, commands};
pub use rule_table::RuleTable;
