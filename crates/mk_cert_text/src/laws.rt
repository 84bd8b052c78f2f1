//! Laws about the definitions of certificates. Each law is the contract of a function with an empty
//! body; a caller of the function has the law.

ghost use Rattle.mk_cert_text.specs.Laws.{ValueIsReadBack, TextIsReadBack, NamesReadArePlain, ReadsWhatIsRepresented, OnlyTextWithoutValueIsNoJson};

/// The JSON value of a certificate is read as that certificate, if its names are plain paths. Its
/// ways may be in any order.
pub fn value_is_read_back()
    ensures { ValueIsReadBack }
{}

/// The text of a certificate is read as that certificate, if its names are plain paths.
pub fn text_is_read_back()
    ensures { TextIsReadBack }
{}

/// A JSON value is read as a certificate exactly if it represents that certificate, with its keys
/// in any order, and all names are plain paths.
pub fn reads_what_is_represented()
    ensures { ReadsWhatIsRepresented }
{}

/// All names of a certificate that was read are plain paths, so it can be written and read again.
pub fn names_read_are_plain()
    ensures { NamesReadArePlain }
{}

/// `NotJson` (71) is returned exactly for bytes without a JSON value.
pub fn only_text_without_value_is_no_json()
    ensures { OnlyTextWithoutValueIsNoJson }
{}
