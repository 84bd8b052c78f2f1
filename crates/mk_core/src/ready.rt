//! Prepares a request: goals and footprints over the makefile.

ghost use Rattle.std.specs.Prelude.{◌≡◌, true, IfErr, IfOk};
ghost use Rattle.std.specs.Option.{is_none, option_copied};
ghost use Rattle.mk_read.specs.Files.{IfFits, Keeps};
ghost use Rattle.mk_core.specs.Answer.{NotesFailure};
ghost use Rattle.mk_core.specs.Judging.{recorded};
ghost use Rattle.mk_core.specs.Ready.{book_for, exists, setting_of};
ghost use Rattle.mk_core.specs.Steps.{is_out_of_memory};
ghost use Rattle.mk_core.specs.Views.{Finds, ready_over, ready_with};
ghost use Rattle.mk_core_text.specs.declared.fault.Fault.TheVariants.{Memory};

use crate::file_text::file_text;
use crate::leaking::LeakPolicy;
use crate::request::Request;
use mk_core_text::Fault;
use mk_foot::{Book, Setting, read_book};
use mk_infer::{Exists, RuleTable};
use mk_infer_select::{Goals, goal_names};
use mk_lines::{Name, NameTable};
use mk_read::Makefile;
use mk_read_files::Files;
use std::alloc::{AllocError, Global};
use std::marker::Model;

/// A prepared request: the indexed makefile, the goals, the build's footprints and inputs, and
/// whether each name that nothing makes is given. Its model is these four.
#[derive(Drop)]
pub struct Ready<'m> {
    table: &'m RuleTable<'m>,
    goals: Goals,
    setting: Setting,
    any_leaf: bool,
    /// An empty list of additional names, which `Exists` needs.
    more: NameTable,
    leaving: LeakPolicy,
}

impl<'m> Model for Ready<'m> {
    ghost use Rattle.std.specs.Prelude.{◌≡◌, []};
    ghost use Rattle.mk_core.specs.Ready as value;

    ghost Value = { value.Ready };

    ghost view = { λ r.
        record {
          makefile = r.table.now;
          goals = r.goals;
          setting = r.setting;
          any_leaf = r.any_leaf;
        } };

    ghost invariant = { λ r. r.more ≡ [] };
}

impl<'m> Ready<'m> {
    /// The indexed makefile.
    pub fn table(&self) -> &'m RuleTable<'m>
        ensures { result.now ≡ self.now.makefile }
    {
        self.table
    }

    /// The goals.
    pub fn goals(&self) -> &Goals
        ensures { result.now ≡ self.now.goals }
    {
        &self.goals
    }

    /// The footprints and inputs of the build.
    pub fn setting(&self) -> &Setting
        ensures { result.now ≡ self.now.setting }
    {
        &self.setting
    }

    /// Whether the inputs are leaked instead of freed after an answer that is brief or not. No
    /// answer depends on it.
    pub fn leaves_memory(&self, is_brief: bool) -> bool {
        self.leaving.behind(is_brief)
    }

    /// The files that exist before a make. Without a footprint file each name that nothing makes is
    /// among them.
    pub fn exists(&self) -> Exists<'_>
        ensures { result ≡ exists self.now }
    {
        Exists {
            any_leaf: self.any_leaf,
            ..self.recorded()
        }
    }

    /// The files that exist before a make by the footprint file and the makefile alone.
    pub fn recorded(&self) -> Exists<'_>
        ensures { result ≡ recorded self.now }
    {
        Exists {
            any_leaf: false,
            sources: self.setting.sources(),
            fixed: self.setting.fixed(),
            texts: self.setting.texts(),
            more: &self.more,
        }
    }
}

/// The build inputs: those of the footprint file, with the makefile's texts and the names that its
/// reading passed over.
fn setting_of(alloc: Global, makefile: &Makefile, footprints: Book) -> Result<Setting, AllocError>
    ensures { IfOk result (λ setting. setting ≡ setting_of makefile.now footprints) }
{
    Setting::new(alloc, footprints, makefile.texts(), makefile.passed_over())
}

/// Reads the footprints for these goals; without a footprint file they are empty. The errors are
/// those of the file (35, 38, 51 to 58), and out of memory.
fn book_for<F: Files>(
    alloc: Global,
    files: &mut F,
    name: Option<&Name>,
    goals: &Goals,
) -> Result<Book, Fault>
    ensures keeps { Keeps (F.fits files.old) (F.fits files.new) }
    ensures book { IfFits (F.fits files.new)
        (λ told.
        Finds (λ failing. book_for told failing (option_copied name.entry) goals.now) result) }
    ensures memory { IfErr result (λ fault. is_out_of_memory fault ≡ true → fault ≡ Memory) }
    ensures noted { NotesFailure (F.failed files.old) (F.failed files.new) result }
{
    let Some(name) = name else {
        return Ok(Book::empty(alloc));
    };
    let footprints = file_text(alloc, files, name.as_str())?;
    Ok(read_book(alloc, &footprints, goals.as_slice())?)
}

/// Up to this many reads, inputs may be leaked at exit instead of freed even after a long answer;
/// with more reads, inputs and answer together could take too much memory.
const FEW_READS: usize = 65_536;

/// Whether the footprints have at most `FEW_READS` reads.
fn reads_few(footprints: &Book) -> bool {
    let mut reads: usize = 0;
    for record in &footprints.records {
        reads = reads.saturating_add(record.reads.len());
    }
    reads <= FEW_READS
}

/// The prepared request with these goals and footprints.
fn ready_by<'m>(
    alloc: Global,
    request: &Request,
    table: &'m RuleTable<'m>,
    goals: Goals,
    footprints: Book,
) -> Result<Ready<'m>, AllocError>
    ensures { IfOk result (λ ready. ready ≡
        record {
          makefile = table.now;
          goals = goals;
          setting = setting_of table.now footprints;
          any_leaf = is_none request.now.book;
        }) }
{
    let leaving = LeakPolicy {
        is_asked: request.leaves_memory,
        reads_few: reads_few(&footprints),
    };
    let setting = setting_of(alloc, table.makefile(), footprints)?;
    let more = NameTable::new(alloc, Vec::new(alloc))?;
    Ok(Ready {
        table,
        goals,
        setting,
        any_leaf: request.book.is_none(),
        more,
        leaving,
    })
}

/// Reads the footprints and prepares the request over its makefile and goals.
fn ready_with<'m, F: Files>(
    alloc: Global,
    files: &mut F,
    request: &Request,
    table: &'m RuleTable<'m>,
    goals: Goals,
) -> Result<Ready<'m>, Fault>
    ensures keeps { Keeps (F.fits files.old) (F.fits files.new) }
    ensures ready { IfFits (F.fits files.new)
        (λ told. Finds (λ failing. ready_with told failing request.now table.now goals) result) }
    ensures memory { IfErr result (λ fault. is_out_of_memory fault ≡ true → fault ≡ Memory) }
    ensures noted { NotesFailure (F.failed files.old) (F.failed files.new) result }
{
    let book = book_for(alloc, files, request.book.as_ref(), &goals)?;
    let ready = ready_by(alloc, request, table, goals, book)?;
    Ok(ready)
}

/// Prepares a request over its makefile: determines the goals and reads the footprints. The error
/// is the first of `InferencePrerequisites` (45), the goals (27, 28), `NoGoal` (44), and the
/// footprint file (35, 38, 51 to 58). Out of memory can come in place of any result.
pub fn ready_over<'m, F: Files>(
    alloc: Global,
    files: &mut F,
    request: &Request,
    table: &'m RuleTable<'m>,
) -> Result<Ready<'m>, Fault>
    ensures keeps { Keeps (F.fits files.old) (F.fits files.new) }
    ensures ready { IfFits (F.fits files.new)
        (λ told. Finds (λ failing. ready_over told failing request.now table.now) result) }
    ensures memory { IfErr result (λ fault. is_out_of_memory fault ≡ true → fault ≡ Memory) }
    ensures noted { NotesFailure (F.failed files.old) (F.failed files.new) result }
{
    let goals = goal_names(alloc, table, request.goals.as_slice())?;
    ready_with(alloc, files, request, table, goals)
}
