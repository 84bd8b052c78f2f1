//! The operators of macro definitions.

/// The operator of a macro definition.
#[derive(Debug, Clone, Copy, PartialEq, Eq)]
pub enum Op {
    /// `=`: stores the text, which is expanded at each use.
    Delay,
    /// `::=`: expands the text at once and stores the value, which is never expanded again.
    Now,
    /// `:::=`: expands the text at once, doubles each `$` of the value, and stores that; it is
    /// expanded at each use.
    Double,
    /// `?=`: acts as `=` where the name is undefined, else does nothing.
    IfUnset,
    /// `+=`: appends a space and the text to the stored text. The text is expanded first where the
    /// macro was defined with `::=`. Acts as `=` where the name is undefined.
    Append,
}
