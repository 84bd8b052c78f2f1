//! The texts of faults of certificates.

ghost use Rattle.std.specs.Prelude.{◌≡◌};
ghost use Rattle.std.specs.Option.{option_map};
ghost use Rattle.mk_explain.specs.Texts.{certificates_text};

/// `CertificateNotJson` (71).
pub const NOT_JSON: &str = "\
`refused 71`: the certificate is no JSON value.

    $ head -c 20 good > cut
    $ mkcheck verify -b B -k cut
    refused 71

`mkcheck check` says what is wrong with the present build; if it says yes,
`check -c` prints a new certificate.
";

/// `CertificateShape` (72).
pub const SHAPE: &str = "\
`refused 72 KEY`: the value at KEY is missing, is of another kind, or holds
what it can't. KEY is `top` if the file holds no object, `unknown` for another
key, and `ways` also for an entry that is no object.

    {\"format\":1,\"goals\":[\"p\"],\"ways\":[
    {\"end\":\"maybe\",\"file\":\"a\",\"path\":[\"b\"],\"recipe\":\"b\"}]}

`end` is `written`, `source` or `always`: `refused 72 end`. `mkcheck check`
says what is wrong with the present build; if it says yes, `check -c` prints a
new certificate.
";

/// `OtherGoals` (73).
pub const OTHER_GOALS: &str = "\
`refused 73`: the certificate is for other goals, or for these in another
order.

    $ mkcheck verify -b B -k good b
    refused 73

Give the goals for which it was printed. `mkcheck check` says what is wrong
with the present build; if it says yes, `check -c` prints a new certificate.
";

/// `NoWay` (74).
pub const NO_WAY: &str = "\
`refused 74 RECIPE FILE`: RECIPE reads FILE, which can change, and the
certificate has no entry for this read.

    {\"format\":1,\"goals\":[\"p\"],\"ways\":[
    {\"end\":\"source\",\"file\":\"a\",\"path\":[\"b\"],\"recipe\":\"b\"}]}

The recipe of `p` reads `b`, which another recipe writes: `refused 74 p b`.
`mkcheck check` says what is wrong with the present build; if it says yes,
`check -c` prints a new certificate.
";

/// `BadWay` (75).
pub const BAD_WAY: &str = "\
`refused 75 RECIPE FILE`: the entry for the read of FILE by RECIPE is no way,
is for a read that needs none, or is the second one for its read.

    {\"end\":\"source\",\"file\":\"b\",\"path\":[\"p\"],\"recipe\":\"p\"}]}

A recipe writes `b`, so it is no source: `refused 75 p b`. `mkcheck check`
says what is wrong with the present build; if it says yes, `check -c` prints a
new certificate.
";

/// `Static` (76).
pub const STATIC: &str = "\
`refused 76 FINDING`: there is a finding other than a stale read. FINDING is
what `check` prints of it after `no`.

    $ sed 's/cp a b/cp -p a b/' makefile > other.mk
    $ mkcheck verify -f other.mk -b B -k good
    refused 76 commands b

`mkcheck check` says what is wrong with the present build, and
`mkcheck explain commands` what this finding means. If `check` says yes,
`check -c` prints a new certificate.
";

/// The text of the fault with this number, if it is one of these.
#[tactic(auto, unfolding(crate::specs::Texts::certificates_text))]
pub fn certificates_text(number: u32) -> Option<&'static str>
    ensures { option_map (λ text. text.now) result ≡ certificates_text number }
{
    match number {
        71 => Some(NOT_JSON),
        72 => Some(SHAPE),
        73 => Some(OTHER_GOALS),
        74 => Some(NO_WAY),
        75 => Some(BAD_WAY),
        76 => Some(STATIC),
        _ => None,
    }
}
