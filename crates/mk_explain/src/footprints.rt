//! The texts of faults of footprints.

ghost use Rattle.std.specs.Prelude.{◌≡◌};
ghost use Rattle.std.specs.Option.{option_map};
ghost use Rattle.mk_explain.specs.Texts.{footprints_text};

/// `NotJson` (51).
pub const NOT_JSON: &str = "\
`refused 51`: the footprint file is no JSON value. It is truncated, or isn't
JSON.

    {\"format\":1,\"fixed\":[],\"sou

Record again.
";

/// `Shape` (52).
pub const SHAPE: &str = "\
`refused 52 KEY`: the value at KEY is missing or of another kind. KEY is `top`
if the file holds no object, `unknown` for another key, and `records` or
`groups` also for an entry that is no object.

    {\"format\":1,\"fixed\":[],\"sources\":\"a\",\"records\":[]}

`sources` is no list: `refused 52 sources`. Record again. A file that is
written by hand must have the form of footprints.
";

/// `OtherFormat` (53).
pub const OTHER_FORMAT: &str = "\
`refused 53`: the value of `format` is another number than 1 and 2.

    {\"format\":3}

Record again.
";

/// `TwoRecords` (54).
pub const TWO_RECORDS: &str = "\
`refused 54 TARGET`: two records of one list have this target.

    {\"target\":\"b\",\"commands\":[\"cp a b\"],\"reads\":[\"a\"],\"writes\":[\"b\"]},
    {\"target\":\"b\",\"commands\":[\"cp a b\"],\"reads\":[\"a\"],\"writes\":[\"b\"]}]}

Record again. By hand, write one record with all that the recipe reads and
writes.
";

/// `BadFootprintName` (55).
pub const BAD_NAME: &str = "\
`refused 55 KEY`: a name at KEY is no plain path, or a prefix of `fixed` is
neither `/` nor a plain path followed by `/`.

    {\"format\":1,\"fixed\":[\"/usr\"],\"sources\":[\"a\"],\"records\":[]}

Record again. By hand, write `/usr/`, and plain paths without blanks.
";

/// `SourceIsFixed` (56).
pub const SOURCE_IS_FIXED: &str = "\
`refused 56 NAME`: the source NAME is under a prefix of `fixed`, where files
never change.

    {\"format\":1,\"fixed\":[\"lib/\"],\"sources\":[\"lib/a\"],\"records\":[]}

Record again. By hand, remove the source from `sources`, or the prefix from
`fixed`.
";

/// `NoGroup` (57).
pub const NO_GROUP: &str = "\
`refused 57`: no group of the footprints has the goals.

    {\"format\":2,\"fixed\":[],\"sources\":[\"a\"],\"lists\":{},
    \"groups\":[{\"goals\":[\"c\"],\"records\":[]}]}

Record again with these goals. By hand, write a group with exactly these goals
in this order.
";

/// `NoList` (58).
pub const NO_LIST: &str = "\
`refused 58`: a record names a list in `shared` that isn't in `lists`.

    {\"target\":\"b\",\"commands\":[\"cp a b\"],\"reads\":[\"a\"],\"writes\":[\"b\"],
    \"shared\":[\"headers\"]}]}]}

Record again. By hand, add the list.
";

/// The text of the fault with this number, if it is one of these.
#[tactic(auto, unfolding(crate::specs::Texts::footprints_text))]
pub fn footprints_text(number: u32) -> Option<&'static str>
    ensures { option_map (λ text. text.now) result ≡ footprints_text number }
{
    match number {
        51 => Some(NOT_JSON),
        52 => Some(SHAPE),
        53 => Some(OTHER_FORMAT),
        54 => Some(TWO_RECORDS),
        55 => Some(BAD_NAME),
        56 => Some(SOURCE_IS_FIXED),
        57 => Some(NO_GROUP),
        58 => Some(NO_LIST),
        _ => None,
    }
}
