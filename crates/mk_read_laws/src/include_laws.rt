//! Laws of include lines in whole makefiles.

ghost use Rattle.mk_read.specs.IncludeLaws.{SpelledLinesIncludeTheirFile, MakefilesMayHaveTheLinesInPlace};

use mk_lines::laws::nothing_to_uncomment;
use mk_macros::laws::plain_texts_stay;

/// A line `include NAME` includes the lines of the file NAME.
pub fn spelled_lines_include_their_file()
    ensures { SpelledLinesIncludeTheirFile }
{
    nothing_to_uncomment();
    plain_texts_stay();
}

/// Replacing an include line of a makefile by the lines of its files changes only places and the
/// names of texts.
pub fn makefiles_may_have_the_lines_in_place()
    ensures { MakefilesMayHaveTheLinesInPlace }
{}
