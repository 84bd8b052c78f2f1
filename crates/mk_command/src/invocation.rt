//! Turns the matches of the command line into a command.

ghost use Rattle.std.specs.Prelude.{◌≡◌, [], codes, option_and_then, unwrap_or, IfOk};
ghost use Rattle.std.specs.Option.{option_map};
ghost use Rattle.clap.specs.Lexer.{strip_byte};
ghost use Rattle.clap.specs.Words.{all_of, first_of, found_of, rows_of};
ghost use Rattle.mk_core.specs.Words.{goals_of, operands_of};
ghost use Rattle.mk_command.specs.Invocation.{below, check_by, checking, form_by, form_of, invocation_by, needed, number_at, request_of, requested, without_dot};

use clap::ArgMatches;
use mk_core::{Name, Names, Operands, Request, split_words};
use std::alloc::{AllocError, Global};

/// How an answer is printed.
#[derive(Clone, Copy, Debug)]
pub enum Form {
    /// In lines, with faults by their numbers.
    Lines,
    /// In lines, with faults in words.
    Words,
    /// As a JSON value.
    Json,
}

/// A command, as the words of the command line give it.
#[derive(Debug, Drop)]
pub enum Invocation {
    /// `graph`: prints the graph of the goals.
    Graph {
        /// The makefile, the goals and the footprints.
        request: Request,
        /// How the answer is printed.
        form: Form,
    },
    /// `check`: prints the verdict on the build of the goals.
    Check {
        /// The makefile, the goals and the footprints.
        request: Request,
        /// Whether a yes prints only the certificate.
        only_certificate: bool,
        /// For a no, the number of the finding whose plan alone is printed.
        evidence: Option<u64>,
    },
    /// `check -w`: prints the verdict on the build of the goals, with findings and faults in words.
    CheckInWords {
        /// The makefile, the goals and the footprints.
        request: Request,
        /// Whether a yes prints only the certificate.
        only_certificate: bool,
    },
    /// `check --json`: prints the verdict on the build of the goals, or the fault, as JSON.
    CheckInJson(Request),
    /// `repair`: prints the lines that mend the makefile, or why nothing does.
    Repair {
        /// The makefile, the goals and the footprints.
        request: Request,
        /// How the answer is printed.
        form: Form,
        /// Whether lines for the other findings are printed where one gives no line.
        part: bool,
    },
    /// `verify`: says whether the certificate in this file shows that the build is right.
    Verify {
        /// The makefile, the goals and the footprints.
        request: Request,
        /// The file of the certificate.
        certificate: Name,
        /// How the answer is printed.
        form: Form,
    },
    /// `since`: names the files of an old build to remove before the new one.
    Since {
        /// The makefile, the goals and the footprints of the new build.
        request: Request,
        /// The folder that holds what the old build was made from.
        folder: Name,
        /// How the answer is printed.
        form: Form,
    },
    /// `explain`: says what the first of the words that is explained means; without words it lists
    /// all.
    Explain(Names),
    /// `simulate`: runs the plan in this file.
    Simulate {
        /// The makefile, the goals and the footprints.
        request: Request,
        /// The file of the plan.
        plan: Name,
        /// How the answer is printed.
        form: Form,
    },
}

/// How the answer of a command is printed.
pub fn form_of(asked: &Invocation) -> Form
    ensures { result ≡ form_of asked.now }
{
    match asked {
        Invocation::CheckInWords { .. } => Form::Words,
        Invocation::CheckInJson(_) => Form::Json,
        Invocation::Check { .. } | Invocation::Explain(_) => Form::Lines,
        Invocation::Graph { form, .. }
        | Invocation::Repair { form, .. }
        | Invocation::Verify { form, .. }
        | Invocation::Since { form, .. }
        | Invocation::Simulate { form, .. } => *form,
    }
}

/// The request of a command; `None` for `explain`, which has none.
pub fn request_of(asked: &Invocation) -> Option<&Request>
    ensures { option_map (λ request. request.now) result ≡ request_of asked.now }
{
    match asked {
        Invocation::Graph { request, .. }
        | Invocation::Check { request, .. }
        | Invocation::CheckInWords { request, .. }
        | Invocation::CheckInJson(request)
        | Invocation::Repair { request, .. }
        | Invocation::Verify { request, .. }
        | Invocation::Since { request, .. }
        | Invocation::Simulate { request, .. } => Some(request),
        Invocation::Explain(_) => None,
    }
}

// The value of an option, where it is given.
fn named(alloc: Global, matches: &ArgMatches<'_>, id: &str) -> Result<Option<Name>, AllocError>
    ensures { IfOk result (λ name. name ≡ first_of id.now (rows_of (found_of matches.now))) }
{
    match matches.get_str(id) {
        Some(name) => Ok(Some(Name::new(alloc, name)?)),
        None => Ok(None),
    }
}

// What follows a first dot.
fn behind_dot(name: &str) -> Option<&str>
    ensures { option_map (λ s. s.now) result ≡ strip_byte 46 name.now }
{
    name.strip_prefix('.')
}

// What follows a first slash.
fn behind_slash(name: &str) -> Option<&str>
    ensures { option_map (λ s. s.now) result ≡ strip_byte 47 name.now }
{
    name.strip_prefix('/')
}

// A name that isn't empty and begins with no slash.
fn below(name: &str) -> Option<&str>
    ensures { option_map (λ s. s.now) result ≡ below name.now }
{
    match name.as_bytes() {
        [] | [b'/', ..] => None,
        [_, ..] => Some(name),
    }
}

// What follows `./` at the front of a name, if such a name is left.
fn behind_dot_and_slash(name: &str) -> Option<&str>
    ensures { option_map (λ s. s.now) result ≡
        option_and_then below (option_and_then (strip_byte 47) (strip_byte 46 name.now)) }
{
    below(behind_slash(behind_dot(name)?)?)
}

// The name without `./` at its front, if such a name is left.
fn without_dot(name: &str) -> &str
    ensures { result.now ≡ without_dot name.now }
{
    match behind_dot_and_slash(name) {
        Some(rest) => rest,
        None => name,
    }
}

// The makefile's name, where it is given, without `./` at its front.
fn named_makefile(alloc: Global, matches: &ArgMatches<'_>) -> Result<Option<Name>, AllocError>
    ensures { IfOk result (λ name. name ≡
        option_map without_dot (first_of (codes "makefile") (rows_of (found_of matches.now)))) }
{
    match named(alloc, matches, "makefile")? {
        Some(name) => Ok(Some(Name::new(alloc, without_dot(name.as_str()))?)),
        None => Ok(None),
    }
}

// The macro operands and the goals among the words.
fn given_words(alloc: Global, matches: &ArgMatches<'_>) -> Result<(Operands, Names), AllocError>
    ensures operands { IfOk result (λ r. r.0 ≡
        operands_of (unwrap_or (all_of (codes "words") (rows_of (found_of matches.now))) [])) }
    ensures goals { IfOk result (λ r. r.1 ≡
        goals_of (unwrap_or (all_of (codes "words") (rows_of (found_of matches.now))) [])) }
{
    match matches.get_strs("words") {
        Some(words) => split_words(alloc, words),
        None => split_words(alloc, &[]),
    }
}

// The request that the matches of a subcommand make.
fn requested(alloc: Global, matches: &ArgMatches<'_>) -> Result<Request, AllocError>
    ensures { IfOk result (λ request. request ≡ requested (rows_of (found_of matches.now))) }
{
    let makefile = named_makefile(alloc, matches)?;
    let (operands, goals) = given_words(alloc, matches)?;
    Ok(Request {
        makefile,
        defaults: matches.get_count("no-defaults") == 0,
        operands,
        goals,
        book: named(alloc, matches, "book")?,
        commands: matches.get_count("commands") > 0,
        leaves_memory: true,
    })
}

// The number that an option gives, where it is given.
fn number_at(matches: &ArgMatches<'_>, id: &str) -> Option<u64>
    ensures { result ≡ number_at id.now (rows_of (found_of matches.now)) }
{
    match matches.get_str(id) {
        Some(text) => text.parse().ok(),
        None => None,
    }
}

// The value of a required option.
fn needed(alloc: Global, matches: &ArgMatches<'_>, id: &str) -> Result<Name, AllocError>
    ensures { IfOk result (λ name. name ≡ needed id.now (rows_of (found_of matches.now))) }
{
    match named(alloc, matches, id)? {
        Some(name) => Ok(name),
        None => Name::new(alloc, ""),
    }
}

// The command `check` with these options. With a number only the plan is printed, never in words.
fn checking(
    request: Request,
    in_words: bool,
    only_certificate: bool,
    evidence: Option<u64>,
) -> Invocation
    ensures { result ≡ checking request in_words only_certificate evidence }
{
    match evidence {
        None if in_words => Invocation::CheckInWords {
            request,
            only_certificate,
        },
        evidence => Invocation::Check {
            request,
            only_certificate,
            evidence,
        },
    }
}

// The command `check` with this request and these matches.
fn check_by(request: Request, matches: &ArgMatches<'_>) -> Invocation
    ensures { result ≡ check_by request (rows_of (found_of matches.now)) }
{
    if matches.get_count("json") > 0 {
        return Invocation::CheckInJson(request);
    }
    checking(
        request,
        matches.get_count("in-words") > 0,
        matches.get_count("only-certificate") > 0,
        number_at(matches, "evidence"),
    )
}

// How an answer is printed, by these matches: `--json` counts before `-w`.
fn form_by(matches: &ArgMatches<'_>) -> Form
    ensures { result ≡ form_by (rows_of (found_of matches.now)) }
{
    if matches.get_count("json") > 0 {
        return Form::Json;
    }
    if matches.get_count("in-words") > 0 {
        return Form::Words;
    }
    Form::Lines
}

/// The command for the subcommand with this name and these matches. The only error is out of
/// memory.
pub fn invocation_by(
    alloc: Global,
    name: &str,
    matches: &ArgMatches<'_>,
) -> Result<Invocation, AllocError>
    ensures { IfOk result (λ asked. asked ≡
        invocation_by name.now (rows_of (found_of matches.now))) }
{
    let request = requested(alloc, matches)?;
    let form = form_by(matches);
    match name {
        "check" => Ok(check_by(request, matches)),
        "repair" => Ok(Invocation::Repair {
            request,
            form,
            part: matches.get_count("part") > 0,
        }),
        "explain" => Ok(Invocation::Explain(request.goals)),
        "verify" => Ok(Invocation::Verify {
            request,
            certificate: needed(alloc, matches, "certificate")?,
            form,
        }),
        "since" => Ok(Invocation::Since {
            request,
            folder: needed(alloc, matches, "folder")?,
            form,
        }),
        "simulate" => Ok(Invocation::Simulate {
            request,
            plan: needed(alloc, matches, "plan")?,
            form,
        }),
        _ => Ok(Invocation::Graph { request, form }),
    }
}
