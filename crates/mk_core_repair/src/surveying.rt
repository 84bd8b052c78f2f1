//! Judges a build, and finds what its makefile lacks.

ghost use Rattle.std.specs.Prelude.{◌≡◌, ◌++◌, [], map, IfOk, OnOk};
ghost use Rattle.std.specs.String.{string_bytes};
ghost use Rattle.mk_core_repair.specs.NotRead.{first_not_read, survey_not_read};
ghost use Rattle.mk_core_repair.specs.Survey.{GivesFirst, GivesSurvey, IsCycleFor, IsFirst, IsObstacleFor, IsSurvey, words_for};

use crate::needing::cycle_of_needs;
use crate::stuck::stuck;
use mk_core::{Fault, Files, Judge, Name, Names, Verdict, verdict_of};
use mk_read::Makefile;
use mk_repair::{Obstacle, Words, words_of};
use mk_subject::Subject;
use std::alloc::{AllocError, Global};

/// What one judgement finds.
#[derive(Drop)]
pub struct Survey {
    /// The verdict.
    pub verdict: Verdict,
    /// The words of the findings; `None` if one of them gives no word.
    pub words: Option<Words>,
    /// The names of the makefile's texts, and of the missing files that its reading passed over.
    pub files: Names,
}

/// What the first judgement finds.
#[derive(Drop)]
pub struct First {
    /// What each judgement finds.
    pub survey: Survey,
    /// The first cycle of what the nodes need; looked for where a no has words.
    pub cycle: Option<Names>,
    /// What stops a repair; looked for where a finding of a no gives no word.
    pub obstacle: Obstacle,
}

/// The words of the findings of a verdict. The only error is out of memory.
fn words_for(
    alloc: Global,
    subject: &Subject<'_>,
    verdict: &Verdict,
) -> Result<Option<Words>, AllocError>
    ensures { IfOk result (λ words. words ≡ words_for subject.now verdict.now) }
{
    match verdict {
        Verdict::Yes { .. } => Ok(Some(Words::new(alloc))),
        Verdict::No(found) => words_of(alloc, subject, found.as_slice()),
    }
}

/// Appends copies of the names. The only error is out of memory.
fn push_names(alloc: Global, names: &mut Vec<Name>, more: &[String]) -> Result<(), AllocError>
    ensures { OnOk result (names.new.items ≡ names.old.items ++ map string_bytes more.now) }
{
    for name in more {
        names.push(Name::new(alloc, name.as_str())?)?;
    }
    Ok(())
}

/// The names of the makefile's texts, and of the missing files that its reading passed over. The
/// only error is out of memory.
fn files_of(alloc: Global, makefile: &Makefile) -> Result<Names, AllocError>
    ensures { IfOk result (λ files. files ≡ makefile.now.texts ++ makefile.now.passed_over) }
{
    let mut names = Vec::new(alloc);
    push_names(alloc, &mut names, makefile.texts())?;
    push_names(alloc, &mut names, makefile.passed_over())?;
    Ok(Names::new(names))
}

/// The verdict on a build, with what its makefile lacks. The only error is out of memory.
fn survey_of(alloc: Global, subject: &Subject<'_>) -> Result<Survey, AllocError>
    ensures { IfOk result (λ survey. IsSurvey subject.now survey) }
{
    let verdict = verdict_of(alloc, subject)?;
    let words = words_for(alloc, subject, &verdict)?;
    let files = files_of(alloc, subject.makefile())?;
    Ok(Survey {
        verdict,
        words,
        files,
    })
}

/// The first cycle of what the nodes need, where the verdict is no and each finding gives a word.
/// The only error is out of memory.
fn cycle_for(
    alloc: Global,
    subject: &Subject<'_>,
    verdict: &Verdict,
    words: &Option<Words>,
) -> Result<Option<Names>, AllocError>
    ensures { IfOk result (λ cycle. IsCycleFor subject.now verdict.now words.now cycle) }
{
    match verdict {
        Verdict::Yes { .. } => Ok(None),
        Verdict::No(_) => match words {
            Some(_) => cycle_of_needs(alloc, subject),
            None => Ok(None),
        },
    }
}

/// No obstacle.
fn no_obstacle(alloc: Global) -> Obstacle
    ensures why { string_bytes result.why ≡ [] }
    ensures lines { string_bytes result.lines ≡ [] }
{
    Obstacle {
        why: String::new(alloc),
        lines: String::new(alloc),
    }
}

/// What stops a repair, where a finding of a no gives no word. The only error is out of memory.
fn obstacle_for(
    alloc: Global,
    subject: &Subject<'_>,
    verdict: &Verdict,
    words: &Option<Words>,
) -> Result<Obstacle, AllocError>
    ensures { IfOk result (λ o. IsObstacleFor subject.now verdict.now words.now o) }
{
    match verdict {
        Verdict::Yes { .. } => Ok(no_obstacle(alloc)),
        Verdict::No(found) => match words {
            Some(_) => Ok(no_obstacle(alloc)),
            None => stuck(alloc, subject, found.as_slice()),
        },
    }
}

/// What the first judgement finds. The only error is out of memory.
fn first_of(alloc: Global, subject: &Subject<'_>) -> Result<First, AllocError>
    ensures { IfOk result (λ first. IsFirst subject.now first) }
{
    let survey = survey_of(alloc, subject)?;
    let cycle = cycle_for(alloc, subject, &survey.verdict, &survey.words)?;
    let obstacle = obstacle_for(alloc, subject, &survey.verdict, &survey.words)?;
    Ok(First {
        survey,
        cycle,
        obstacle,
    })
}

/// Judges the makefile as it is.
#[derive(Drop)]
pub struct JudgeFirst;

impl Judge for JudgeFirst {
    type Answer = First;

    ghost judges = { λ _ _ x answer. GivesFirst x answer };

    fn is_brief(&self) -> bool {
        false
    }

    fn judge<F: Files>(
        &self,
        alloc: Global,
        _files: &mut F,
        subject: &Subject<'_>,
    ) -> Result<First, Fault> {
        let first = first_of(alloc, subject)?;
        Ok(first)
    }

    ghost not_read = { λ _ _ x fault. first_not_read x fault };
}

/// Judges an amended makefile.
#[derive(Drop)]
pub struct JudgeAgain;

impl Judge for JudgeAgain {
    type Answer = Survey;

    ghost judges = { λ _ _ x answer. GivesSurvey x answer };

    fn is_brief(&self) -> bool {
        false
    }

    fn judge<F: Files>(
        &self,
        alloc: Global,
        _files: &mut F,
        subject: &Subject<'_>,
    ) -> Result<Survey, Fault> {
        let survey = survey_of(alloc, subject)?;
        Ok(survey)
    }

    ghost not_read = { λ _ _ x fault. survey_not_read x fault };
}
