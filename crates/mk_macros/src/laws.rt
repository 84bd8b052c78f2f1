//! Laws of expansion. Each is the contract of a function that does nothing: a caller of the
//! function may use the law.

ghost use Rattle.mk_macros.specs.Laws.{DoubledTextsComeBack, ExpansionsKeepTheirLimits, ImmediateValuesStay, PlainTextsGoInFront, PlainTextsStay, SubstitutionsReplaceWords};

/// A text without `$` expands to itself.
pub fn plain_texts_stay()
    ensures { PlainTextsStay }
{}

/// The expansion of a text without `$` followed by another text is the first text followed by the
/// other's expansion.
pub fn plain_texts_go_in_front()
    ensures { PlainTextsGoInFront }
{}

/// A reference to a macro that `::=` defined gives its stored text unchanged.
pub fn immediate_values_stay()
    ensures { ImmediateValuesStay }
{}

/// A text that `:::=` stored expands to the value whose dollars were doubled.
pub fn doubled_texts_come_back()
    ensures { DoubledTextsComeBack }
{}

/// `$(N:s1=s2)` is the words of `$(N)`, each with its end replaced or unchanged.
pub fn substitutions_replace_words()
    ensures { SubstitutionsReplaceWords }
{}

/// An expansion has at most 1,048,576 bytes and evaluates at most 65,536 references.
pub fn expansions_keep_their_limits()
    ensures { ExpansionsKeepTheirLimits }
{}
