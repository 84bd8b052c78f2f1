//! Laws of texts.

ghost use Rattle.mk_read.specs.TextLaws.{SilentLinesSayNothing, SilentLinesChangeOnlyPlaces};

use mk_lines::laws::lines_of_two_texts;

/// A blank line or a comment line doesn't change what a text says.
pub fn silent_lines_say_nothing()
    ensures { SilentLinesSayNothing }
{
    lines_of_two_texts();
}

/// A blank line or a comment line that is inserted into the text of a file changes only places.
pub fn silent_lines_change_only_places()
    ensures { SilentLinesChangeOnlyPlaces }
{
    lines_of_two_texts();
}
