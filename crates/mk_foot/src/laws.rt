//! Laws about the definitions of books and settings. Each law is the contract of a function with an
//! empty body; a caller of the function has the law.

ghost use Rattle.mk_foot.specs.Laws.{OnceKeepsFirst, OnlyTextWithoutValueIsNoJson, FormatsAgree, GivenExactly, EditableExactly, EditableIsGiven, NamesReadArePlain};

/// Dropping repeats keeps each name once, at its first place.
pub fn once_keeps_first()
    ensures { OnceKeepsFirst }
{}

/// `NotJson` (51) is returned exactly for bytes without a JSON value.
pub fn only_text_without_value_is_no_json()
    ensures { OnlyTextWithoutValueIsNoJson }
{}

/// A file of format 1 and a file of format 2 give equal books, or the same fault, if the second one
/// has the same records in a single group for the goals and no shared lists.
pub fn formats_agree()
    ensures { FormatsAgree }
{}

/// A name is given exactly if it is a source, is under a fixed prefix, or is a makefile text.
pub fn given_exactly()
    ensures { GivenExactly }
{}

/// A name is editable exactly if it is a source and no makefile text.
pub fn editable_exactly()
    ensures { EditableExactly }
{}

/// An editable name is given.
pub fn editable_is_given()
    ensures { EditableIsGiven }
{}

/// All names of a book that was read are plain paths: its sources, and the targets, reads and
/// writes of its records.
pub fn names_read_are_plain()
    ensures { NamesReadArePlain }
{}
