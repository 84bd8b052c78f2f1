//! Laws of whole makefiles that hold but for places.

ghost use Rattle.mk_read.specs.PlaceLaws.{CommentsAndNumbersChangeOnlyPlaces, IncludeLinesStandForTheirLines, IncludeLinesFailAsTheirLines};

/// Comment lines, dropped lines and the numbers of lines change only places.
pub fn comments_and_numbers_change_only_places()
    ensures { CommentsAndNumbersChangeOnlyPlaces }
{}

/// Replacing an include line by the lines of its files changes only places and the names of texts,
/// where the text is read without a fault.
pub fn include_lines_stand_for_their_lines()
    ensures { IncludeLinesStandForTheirLines }
{}

/// Replacing an include line by the lines of its one file also keeps the fault but for its place,
/// where nothing else is included.
pub fn include_lines_fail_as_their_lines()
    ensures { IncludeLinesFailAsTheirLines }
{}
