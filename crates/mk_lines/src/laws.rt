//! Laws of lines, comments, words and references. Each is the contract of a function that does
//! nothing: a caller of the function may use the law.

ghost use Rattle.mk_lines.specs.Laws.{PlainTextsAreTheirPieces, FirstLinesAscend, LinesOfTwoTexts, SearchFindsFirstOutside, WordsAreLongestParts, WordsComeInOrder, NothingToUncomment};

/// In a text without backslashes, tabs and blank pieces, the logical lines are the pieces between
/// newlines, numbered from 1.
pub fn plain_texts_are_their_pieces()
    ensures { PlainTextsAreTheirPieces }
{}

/// The first physical lines of a text's logical lines are strictly ascending, from 1 on.
pub fn first_lines_ascend()
    ensures { FirstLinesAscend }
{}

/// Where a text ends with a newline that isn't escaped, the lines of it followed by another text
/// are its own lines, then the other's lines, their numbers increased by the number of its physical
/// lines.
pub fn lines_of_two_texts()
    ensures { LinesOfTwoTexts }
{}

/// `first_outside` finds the first wanted byte outside references. The law says so without counting
/// brackets: what precedes that byte consists of bytes that aren't wanted, of `$$`, of single
/// dollars, and of whole references.
pub fn search_finds_first_outside()
    ensures { SearchFindsFirstOutside }
{}

/// The words of a text are exactly its maximal parts without blanks.
pub fn words_are_longest_parts()
    ensures { WordsAreLongestParts }
{}

/// The words of a text come from left to right and don't overlap.
pub fn words_come_in_order()
    ensures { WordsComeInOrder }
{}

/// A plain line without `#` is unchanged by `uncomment`.
pub fn nothing_to_uncomment()
    ensures { NothingToUncomment }
{}
