//! Laws of reading, which speak only of the definitions. Each is the contract of a function that
//! does nothing: a caller of the function may use the law.

ghost use Rattle.mk_read.specs.Laws.{CommentLinesChangeNothing, GroupsKeepTheirWords, IncludeLinesAreOfOneKind, RuleLinesAreOfOneKind};

/// A comment line changes nothing.
pub fn comment_lines_change_nothing()
    ensures { CommentLinesChangeNothing }
{}

/// The groups of prerequisites hold all prerequisites in order, without `.WAIT`.
pub fn groups_keep_their_words()
    ensures { GroupsKeepTheirWords }
{}

/// For a line without a comment, `is_rule_line` (which decides where a comment may begin) and
/// `kind_of` agree on which lines are rule lines, but for refused ones.
pub fn rule_lines_are_of_one_kind()
    ensures { RuleLinesAreOfOneKind }
{}

/// For a line without a comment, `is_include` and `kind_of` agree on which lines are include lines.
pub fn include_lines_are_of_one_kind()
    ensures { IncludeLinesAreOfOneKind }
{}
