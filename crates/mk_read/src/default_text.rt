//! The law of the default text.

ghost use Rattle.mk_read.specs.DefaultLaws.{DefaultTextSaysThis};

/// The default text is parsed without a fault, and gives the macros, suffixes and rule lines that
/// `default_state` lists.
pub fn default_text_says_this()
    ensures { DefaultTextSaysThis }
{}
