//! The first words of plan lines.

ghost use Rattle.std.specs.Prelude.{◌≡◌};
ghost use Rattle.mk_world_plan.specs.PlanReading.{keyword_of};

/// The kind of a plan line, by its first word.
#[derive(Clone, Copy, Debug)]
pub enum Keyword {
    Make,
    Stop,
    Begin,
    Look,
    Put,
    Done,
    Break,
    Finish,
    Run,
    Pass,
    End,
    Edit,
}

/// The keyword that a word is, if it is one.
pub fn keyword_of(word: &str) -> Option<Keyword>
    ensures { result ≡ keyword_of word.now }
{
    match word {
        "make" => Some(Keyword::Make),
        "stop" => Some(Keyword::Stop),
        "begin" => Some(Keyword::Begin),
        "look" => Some(Keyword::Look),
        "put" => Some(Keyword::Put),
        "done" => Some(Keyword::Done),
        "break" => Some(Keyword::Break),
        "finish" => Some(Keyword::Finish),
        "run" => Some(Keyword::Run),
        "pass" => Some(Keyword::Pass),
        "end" => Some(Keyword::End),
        "edit" => Some(Keyword::Edit),
        _ => None,
    }
}
