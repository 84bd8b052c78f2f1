//! What a makefile says, and the definitions of how makefiles are read, against which mk_read_parse
//! is proved.
#![tactic(auto)]

pub mod default_text;
mod fault;
mod makefile;
mod name_set;
mod special;
mod suffix_list;
mod word;

pub use fault::{KindFault, Place, ReadFault};
pub use makefile::{Command, Makefile, Rule, SpecialTargets};
pub use name_set::NameSet;
pub use special::Special;
pub use suffix_list::SuffixList;
pub use word::{Word, has_reserved};
