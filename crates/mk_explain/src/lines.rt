//! The texts of faults of lines.

ghost use Rattle.std.specs.Prelude.{◌≡◌};
ghost use Rattle.std.specs.Option.{option_map};
ghost use Rattle.mk_explain.specs.Texts.{lines_text};

/// `NulByte` (1).
pub const NUL_BYTE: &str = "\
`refused 1 FILE:LINE`: a line, its comment included, holds byte 0. The file is
no text, or isn't UTF-8.

    $ printf 'a: b\\n\\techo \\0\\n' > makefile
    $ mkcheck graph
    refused 1 makefile:2

Save the file again as UTF-8.
";

/// `LineTooLong` (2).
pub const LINE_TOO_LONG: &str = "\
`refused 2 FILE:LINE`: a line is over 65,536 bytes, with its comment and the
lines that backslashes join to it. A line of only blanks doesn't count.

    $ head -c 65537 /dev/zero | tr '\\0' '#' > makefile
    $ mkcheck graph
    refused 2 makefile:1

Write several rule lines for the same targets, which add up.
";

/// `TooManyLines` (3).
pub const TOO_MANY_LINES: &str = "\
`refused 3 FILE:LINE`: this is the 65,537th line of its text. Lines of only
blanks don't count, comment lines do.

    $ yes a: | head -n 65537 > makefile
    $ mkcheck graph
    refused 3 makefile:65537

Put parts of the makefile into files that it includes.
";

/// The text of the fault with this number, if it is one of these.
#[tactic(auto, unfolding(crate::specs::Texts::lines_text))]
pub fn lines_text(number: u32) -> Option<&'static str>
    ensures { option_map (λ text. text.now) result ≡ lines_text number }
{
    match number {
        1 => Some(NUL_BYTE),
        2 => Some(LINE_TOO_LONG),
        3 => Some(TOO_MANY_LINES),
        _ => None,
    }
}
