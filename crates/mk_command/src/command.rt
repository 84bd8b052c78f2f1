//! Declares the command line.

ghost use Rattle.std.specs.Prelude.{◌≡◌, ◌∷◌, [], IfOk, codes, false, fold};
ghost use Rattle.clap.specs.Words.{app_of, new_app, rule_of, with_rule};
ghost use Rattle.clap.specs.declared.builder.command.Command.TheViews.{out-Command as fields_of};
ghost use Rattle.mk_command.specs.CommandLine.{book_option, certificate_option, check_command, command_line, commands_option, evidence_option, explain_command, folder_argument, graph_command, in_json_option, in_words_option, makefile_option, named_program, needed_book_option, no_defaults_option, only_certificate_option, part_option, plan_option, program, repair_command, simulate_command, since_command, verify_command, with_subcommands, words_argument};

use clap::{Arg, ArgAction, Command, value_parser};
use std::alloc::{AllocError, Global};

macro_rules! with_statuses {
    ($lead:literal) => {
        concat!(
            $lead,
            "Status: 0 yes or done, 1 no, 2 refused or a fault of the command line, ",
            "3 out of memory"
        )
    };
}

/// What `--version` prints behind the program's name. `tools/quick.py`, which builds the program
/// without proving it, compiles another text in its place.
const VERSION: &str = "0.2.0 (proved with rattle-kit-13f logic dac8208d650f15bf)";

const BEHIND_ALL: &str = with_statuses!("Example: mkcheck check -b footprints.json prog\n\n");

const BEHIND_GRAPH: &str = with_statuses!("Example: mkcheck graph -c -f Makefile CC=cc prog\n\n");

const BEHIND_CHECK: &str = with_statuses!(
    "Example: mkcheck check -b footprints.json -w prog\n\
    Example: mkcheck check -b footprints.json -e 1 prog > plan.txt\n\n"
);

const BEHIND_REPAIR: &str = with_statuses!(
    "Example: mkcheck repair -b footprints.json prog > more && cat more >> makefile\n\n"
);

const BEHIND_VERIFY: &str = with_statuses!(
    "Example: mkcheck verify -b footprints.json -k certificate.json prog\n\n"
);

const BEHIND_SINCE: &str = with_statuses!(
    "Example: mkcheck since built -b footprints.json > old && xargs -d '\\n' rm -f -- < old\n\n"
);

const BEHIND_EXPLAIN: &str = with_statuses!("Example: mkcheck explain stale\n\n");

const BEHIND_SIMULATE: &str = with_statuses!(
    "Example: mkcheck simulate -b footprints.json -p plan.txt prog\n\n"
);

fn makefile_option<'a>(alloc: Global) -> Arg<'a>
    ensures rule { rule_of result ≡ makefile_option }
    ensures local { result.global ≡ false }
{
    Arg::new(alloc, "makefile")
        .short('f')
        .value_name("F")
        .help("The makefile; without it makefile, else Makefile")
}

fn no_defaults_option<'a>(alloc: Global) -> Arg<'a>
    ensures rule { rule_of result ≡ no_defaults_option }
    ensures local { result.global ≡ false }
{
    Arg::new(alloc, "no-defaults")
        .short('r')
        .action(ArgAction::Count)
        .help("Leaves out the default text: its macros, suffixes and inference rules")
}

fn book_option<'a>(alloc: Global) -> Arg<'a>
    ensures rule { rule_of result ≡ book_option }
    ensures local { result.global ≡ false }
{
    Arg::new(alloc, "book").short('b').value_name("BOOK").help(
        "The file of recorded footprints; with it a name that nothing makes is refused",
    )
}

fn needed_book_option<'a>(alloc: Global) -> Arg<'a>
    ensures rule { rule_of result ≡ needed_book_option }
    ensures local { result.global ≡ false }
{
    Arg::new(alloc, "book")
        .short('b')
        .value_name("BOOK")
        .required(true)
        .help("The file of recorded footprints")
}

fn only_certificate_option<'a>(alloc: Global) -> Arg<'a>
    ensures rule { rule_of result ≡ only_certificate_option }
    ensures local { result.global ≡ false }
{
    Arg::new(alloc, "only-certificate")
        .short('c')
        .action(ArgAction::Count)
        .help("On yes, prints only the certificate, on one line")
}

fn in_words_option<'a>(alloc: Global) -> Arg<'a>
    ensures rule { rule_of result ≡ in_words_option }
    ensures local { result.global ≡ false }
{
    Arg::new(alloc, "in-words")
        .short('w')
        .action(ArgAction::Count)
        .help("Prints a refusal in words, at its line, with what to do")
}

fn findings_in_words_option<'a>(alloc: Global) -> Arg<'a>
    ensures rule { rule_of result ≡ in_words_option }
    ensures local { result.global ≡ false }
{
    in_words_option(alloc).help(
        "Prints findings and faults in words, each at its line, with what to do",
    )
}

fn in_json_option<'a>(alloc: Global) -> Arg<'a>
    ensures rule { rule_of result ≡ in_json_option }
    ensures local { result.global ≡ false }
{
    Arg::new(alloc, "json")
        .long("json")
        .action(ArgAction::Count)
        .help("Prints the answer as one JSON value, whatever else says how it is printed")
}

// Adds the options that say how an answer is printed, `-w` and `--json`.
fn with_form<'a>(alloc: Global, command: Command<'a>) -> Result<Command<'a>, AllocError>
    requires { (fields_of command).has_globals ≡ false }
    ensures app { IfOk result (λ c. app_of c ≡ fold with_rule (app_of command.entry)
        (in_words_option ∷ in_json_option ∷ [])) }
    ensures local { IfOk result (λ c. (fields_of c).has_globals ≡ false) }
{
    command
        .arg(in_words_option(alloc))?
        .arg(in_json_option(alloc))
}

fn part_option<'a>(alloc: Global) -> Arg<'a>
    ensures rule { rule_of result ≡ part_option }
    ensures local { result.global ≡ false }
{
    Arg::new(alloc, "part")
        .long("part")
        .action(ArgAction::Count)
        .help("Where one finding gives no line, prints those for the others")
}

fn evidence_option<'a>(alloc: Global) -> Arg<'a>
    ensures rule { rule_of result ≡ evidence_option }
    ensures local { result.global ≡ false }
{
    Arg::new(alloc, "evidence")
        .short('e')
        .value_name("N")
        .value_parser(value_parser!(u64).range(1..))
        .help("On no, prints only the plan that shows finding N, or `no plan`")
}

fn certificate_option<'a>(alloc: Global) -> Arg<'a>
    ensures rule { rule_of result ≡ certificate_option }
    ensures local { result.global ≡ false }
{
    Arg::new(alloc, "certificate")
        .short('k')
        .value_name("CERT")
        .required(true)
        .help("The certificate: what check -c printed")
}

fn folder_argument<'a>(alloc: Global) -> Arg<'a>
    ensures rule { rule_of result ≡ folder_argument }
    ensures local { result.global ≡ false }
{
    Arg::new(alloc, "folder")
        .value_name("DIR")
        .required(true)
        .help("The folder with the makefile's texts, footprint.json and words of the old build")
}

fn plan_option<'a>(alloc: Global) -> Arg<'a>
    ensures rule { rule_of result ≡ plan_option }
    ensures local { result.global ≡ false }
{
    Arg::new(alloc, "plan")
        .short('p')
        .value_name("PLAN")
        .required(true)
        .help(
            "The plan: a line each of make, stop, begin, look, put, done, finish, run, break, \
            pass, end, edit",
        )
}

fn commands_option<'a>(alloc: Global) -> Arg<'a>
    ensures rule { rule_of result ≡ commands_option }
    ensures local { result.global ≡ false }
{
    Arg::new(alloc, "commands")
        .short('c')
        .action(ArgAction::Count)
        .help("Prints the commands of each target behind its line, expanded")
}

fn explained_argument<'a>(alloc: Global) -> Arg<'a>
    ensures rule { rule_of result ≡ words_argument }
    ensures local { result.global ≡ false }
{
    Arg::new(alloc, "words")
        .num_args(0..)
        .value_name("WORD")
        .help(
            "A finding or a fault as it is printed, such as no stale a.o h.h or refused 41; \
            without it all are listed",
        )
}

fn words_argument<'a>(alloc: Global) -> Arg<'a>
    ensures rule { rule_of result ≡ words_argument }
    ensures local { result.global ≡ false }
{
    Arg::new(alloc, "words")
        .num_args(0..)
        .value_name("WORD")
        .help(
            "A macro operand, where it has an =, else a goal; without a goal the first target is \
            one",
        )
}

fn named_graph<'a>(alloc: Global) -> Command<'a>
    ensures app { app_of result ≡ new_app (codes "graph") }
    ensures local { (fields_of result).has_globals ≡ false }
{
    Command::new(alloc, "graph")
        .about("Prints the goals, then a line for each target in serial order")
        .override_usage("mkcheck graph [-f F] [-r] [-b BOOK] [-c] [-w] [--json] [WORD]...")
        .after_help(BEHIND_GRAPH)
}

fn named_check<'a>(alloc: Global) -> Command<'a>
    ensures app { app_of result ≡ new_app (codes "check") }
    ensures local { (fields_of result).has_globals ≡ false }
{
    Command::new(alloc, "check")
        .about("Says yes where parallel and incremental makes build right, else no and why")
        .override_usage("mkcheck check [-f F] [-r] -b BOOK [-c] [-w] [-e N] [--json] [WORD]...")
        .after_help(BEHIND_CHECK)
}

fn named_repair<'a>(alloc: Global) -> Command<'a>
    ensures app { app_of result ≡ new_app (codes "repair") }
    ensures local { (fields_of result).has_globals ≡ false }
{
    Command::new(alloc, "repair")
        .about(
            "Prints the lines to append to the makefile so that check says yes, or why none help",
        )
        .override_usage("mkcheck repair [-f F] [-r] -b BOOK [--part] [-w] [--json] [WORD]...")
        .after_help(BEHIND_REPAIR)
}

fn named_verify<'a>(alloc: Global) -> Command<'a>
    ensures app { app_of result ≡ new_app (codes "verify") }
    ensures local { (fields_of result).has_globals ≡ false }
{
    Command::new(alloc, "verify")
        .about("Says yes where a certificate shows that makes build right, else refuses it")
        .override_usage("mkcheck verify [-f F] [-r] -b BOOK -k CERT [-w] [--json] [WORD]...")
        .after_help(BEHIND_VERIFY)
}

fn named_since<'a>(alloc: Global) -> Command<'a>
    ensures app { app_of result ≡ new_app (codes "since") }
    ensures local { (fields_of result).has_globals ≡ false }
{
    Command::new(alloc, "since")
        .about("Prints the files of an old build to remove before the new one is made")
        .override_usage("mkcheck since DIR [-f F] [-r] -b BOOK [-w] [--json] [WORD]...")
        .after_help(BEHIND_SINCE)
}

fn named_simulate<'a>(alloc: Global) -> Command<'a>
    ensures app { app_of result ≡ new_app (codes "simulate") }
    ensures local { (fields_of result).has_globals ≡ false }
{
    Command::new(alloc, "simulate")
        .about("Runs a plan line by line, and prints the files at the end of each make")
        .override_usage("mkcheck simulate [-f F] [-r] -b BOOK -p PLAN [-w] [--json] [WORD]...")
        .after_help(BEHIND_SIMULATE)
}

// The subcommand `explain`, without its argument.
fn named_explain<'a>(alloc: Global) -> Command<'a>
    ensures app { app_of result ≡ new_app (codes "explain") }
    ensures local { (fields_of result).has_globals ≡ false }
{
    Command::new(alloc, "explain")
        .about("Says what a finding or a fault means, when it comes and what to do")
        .override_usage("mkcheck explain [WORD]...")
        .after_help(BEHIND_EXPLAIN)
}

// Adds the options that every subcommand that reads a makefile has, `-f` and `-r`.
fn with_reading<'a>(alloc: Global, command: Command<'a>) -> Result<Command<'a>, AllocError>
    requires { (fields_of command).has_globals ≡ false }
    ensures app { IfOk result (λ c. app_of c ≡ fold with_rule (app_of command.entry)
        (makefile_option ∷ no_defaults_option ∷ [])) }
    ensures local { IfOk result (λ c. (fields_of c).has_globals ≡ false) }
{
    command
        .arg(makefile_option(alloc))?
        .arg(no_defaults_option(alloc))
}

fn graph_command<'a>(alloc: Global) -> Result<Command<'a>, AllocError>
    ensures app { IfOk result (λ c. app_of c ≡ graph_command) }
    ensures local { IfOk result (λ c. (fields_of c).has_globals ≡ false) }
{
    let drawing = with_reading(alloc, named_graph(alloc))?
        .arg(book_option(alloc))?
        .arg(commands_option(alloc))?;
    with_form(alloc, drawing)?.arg(words_argument(alloc))
}

// Adds the options that say how a verdict is printed, `-c`, `-w`, `-e` and `--json`.
fn with_showing<'a>(alloc: Global, command: Command<'a>) -> Result<Command<'a>, AllocError>
    requires { (fields_of command).has_globals ≡ false }
    ensures app { IfOk result (λ c. app_of c ≡ fold with_rule (app_of command.entry)
        (only_certificate_option ∷ in_words_option ∷ evidence_option ∷ in_json_option ∷ [])) }
    ensures local { IfOk result (λ c. (fields_of c).has_globals ≡ false) }
{
    command
        .arg(only_certificate_option(alloc))?
        .arg(findings_in_words_option(alloc))?
        .arg(evidence_option(alloc))?
        .arg(in_json_option(alloc))
}

fn check_command<'a>(alloc: Global) -> Result<Command<'a>, AllocError>
    ensures app { IfOk result (λ c. app_of c ≡ check_command) }
    ensures local { IfOk result (λ c. (fields_of c).has_globals ≡ false) }
{
    let needing = with_reading(alloc, named_check(alloc))?.arg(needed_book_option(alloc))?;
    with_showing(alloc, needing)?.arg(words_argument(alloc))
}

fn repair_command<'a>(alloc: Global) -> Result<Command<'a>, AllocError>
    ensures app { IfOk result (λ c. app_of c ≡ repair_command) }
    ensures local { IfOk result (λ c. (fields_of c).has_globals ≡ false) }
{
    let mending = with_reading(alloc, named_repair(alloc))?
        .arg(needed_book_option(alloc))?
        .arg(part_option(alloc))?;
    with_form(alloc, mending)?.arg(words_argument(alloc))
}

fn verify_command<'a>(alloc: Global) -> Result<Command<'a>, AllocError>
    ensures app { IfOk result (λ c. app_of c ≡ verify_command) }
    ensures local { IfOk result (λ c. (fields_of c).has_globals ≡ false) }
{
    let verifying = with_reading(alloc, named_verify(alloc))?
        .arg(needed_book_option(alloc))?
        .arg(certificate_option(alloc))?;
    with_form(alloc, verifying)?.arg(words_argument(alloc))
}

fn since_command<'a>(alloc: Global) -> Result<Command<'a>, AllocError>
    ensures app { IfOk result (λ c. app_of c ≡ since_command) }
    ensures local { IfOk result (λ c. (fields_of c).has_globals ≡ false) }
{
    let comparing = with_reading(alloc, named_since(alloc))?
        .arg(needed_book_option(alloc))?
        .arg(folder_argument(alloc))?;
    with_form(alloc, comparing)?.arg(words_argument(alloc))
}

fn simulate_command<'a>(alloc: Global) -> Result<Command<'a>, AllocError>
    ensures app { IfOk result (λ c. app_of c ≡ simulate_command) }
    ensures local { IfOk result (λ c. (fields_of c).has_globals ≡ false) }
{
    let running = with_reading(alloc, named_simulate(alloc))?
        .arg(needed_book_option(alloc))?
        .arg(plan_option(alloc))?;
    with_form(alloc, running)?.arg(words_argument(alloc))
}

fn explain_command<'a>(alloc: Global) -> Result<Command<'a>, AllocError>
    ensures app { IfOk result (λ c. app_of c ≡ explain_command) }
    ensures local { IfOk result (λ c. (fields_of c).has_globals ≡ false) }
{
    named_explain(alloc).arg(explained_argument(alloc))
}

fn named_program<'a>(alloc: Global) -> Command<'a>
    ensures app { app_of result ≡ named_program }
    ensures local { (fields_of result).has_globals ≡ false }
{
    Command::new(alloc, "mkcheck")
        .version(VERSION)
        .about("A checker of makefiles")
        .after_help(BEHIND_ALL)
}

fn program<'a>(alloc: Global) -> Command<'a>
    ensures app { app_of result ≡ program }
    ensures local { (fields_of result).has_globals ≡ false }
{
    named_program(alloc)
        .no_binary_name(true)
        .subcommand_required(true)
}

// Adds the subcommands that judge a build, `check`, `repair` and `verify`.
fn with_judging<'a>(alloc: Global, command: Command<'a>) -> Result<Command<'a>, AllocError>
    requires { (fields_of command).has_globals ≡ false }
    ensures app { IfOk result (λ c. app_of c ≡ with_subcommands (app_of command.entry)
        (check_command ∷ repair_command ∷ verify_command ∷ [])) }
    ensures local { IfOk result (λ c. (fields_of c).has_globals ≡ false) }
{
    command
        .subcommand(check_command(alloc)?)?
        .subcommand(repair_command(alloc)?)?
        .subcommand(verify_command(alloc)?)
}

// Adds the subcommands `since`, `simulate` and `explain`.
fn with_telling<'a>(alloc: Global, command: Command<'a>) -> Result<Command<'a>, AllocError>
    requires { (fields_of command).has_globals ≡ false }
    ensures app { IfOk result (λ c. app_of c ≡ with_subcommands (app_of command.entry)
        (since_command ∷ simulate_command ∷ explain_command ∷ [])) }
    ensures local { IfOk result (λ c. (fields_of c).has_globals ≡ false) }
{
    command
        .subcommand(since_command(alloc)?)?
        .subcommand(simulate_command(alloc)?)?
        .subcommand(explain_command(alloc)?)
}

/// The command line of the program, which reads the words after the program's name: `graph [-f F]
/// [-r] [-b BOOK] [-c] [-w] [--json] [WORD..]`, `check [-f F] [-r] -b BOOK [-c] [-w] [-e N]
/// [--json] [WORD..]`, `repair [-f F] [-r] -b BOOK [--part] [-w] [--json] [WORD..]`, `verify [-f F]
/// [-r] -b BOOK -k CERT [-w] [--json] [WORD..]`, `since DIR [-f F] [-r] -b BOOK [-w] [--json]
/// [WORD..]`, `simulate [-f F] [-r] -b BOOK -p PLAN [-w] [--json] [WORD..]`, `explain [WORD..]`,
/// `--help` and `--version`. The only error is out of memory.
pub fn command_line<'a>(alloc: Global) -> Result<Command<'a>, AllocError>
    ensures app { IfOk result (λ c. app_of c ≡ command_line) }
    ensures local { IfOk result (λ c. (fields_of c).has_globals ≡ false) }
{
    let drawing = program(alloc).subcommand(graph_command(alloc)?)?;
    with_telling(alloc, with_judging(alloc, drawing)?)
}
