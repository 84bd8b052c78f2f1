//! Expands texts, each into a buffer after what the buffer holds. After an error the buffer may
//! hold part of an expansion.

ghost use Rattle.std.specs.Prelude.{[], None, Some};
ghost use Rattle.mk_macros.specs.Appending.{Appends, below, names_in, piece_view, scope_view, form_within, reference_within, behind_name};
ghost use Rattle.mk_macros.specs.Expansion.{expanded, value_of, macro_value, refused};
ghost use Rattle.mk_macros.specs.Locals.{internal_of};
ghost use Rattle.mk_macros.specs.Table.{macro_named};
ghost use Rattle.mk_macros.specs.Views.{form_view, substitution_view};
ghost use Rattle.mk_macros.specs.Steps.{Gives};

use crate::expanded_part::{ExpandedPart, lent};
use crate::fault::MacroFault;
use crate::forms::{Form, Substitution, cut_at_dollar, dollar_form, parse_reference};
use crate::going::Going;
use crate::locals::{Locals, Part, internal_of, internal_value};
use crate::macro_name::{MacroName, is_macro_name};
use crate::room::{MAX_LENGTH, append_run, counted};
use crate::substitution::push_substituted;
use crate::table::MacroTable;
use std::alloc::Global;
use std::borrow::CowSlice;

/// What names mean during an expansion.
#[derive(Clone, Copy)]
pub struct Scope<'a> {
    /// The allocator of all results.
    pub alloc: Global,
    /// The macros.
    pub table: &'a MacroTable,
    /// The values of the internal macros.
    pub locals: &'a Locals<'a>,
}

/// Where an expansion stands.
#[derive(Clone, Copy)]
pub struct Level<'a> {
    /// What names mean.
    pub scope: &'a Scope<'a>,
    /// How many levels there are below.
    pub deep: usize,
    /// The macros whose values are being expanded.
    pub going: &'a Going<'a>,
}

/// What an expansion has counted.
#[derive(Clone, Copy, Debug)]
pub struct Used {
    /// How many references were evaluated, those before this expansion included.
    pub references: usize,
    /// Whether `$?` or one of its forms was evaluated.
    pub varying: bool,
}

/// Appends the expansion of a text at this level. `references` is the number of references
/// evaluated so far.
#[cycle(append)]
pub fn append_text(
    level: &Level<'_>,
    references: usize,
    text: &[u8],
    into: &mut Vec<u8>,
) -> Result<Used, MacroFault>
    ensures { Appends into.old.items into.new.items result (expanded level.now.deep (scope_view
        level.now.scope.now) (names_in level.now.going.now) references text.now) }
{
    let start = into.len();
    let mut used = Used {
        references,
        varying: false,
    };
    let mut rest = text;
    'forms: loop {
        let (run, behind) = cut_at_dollar(rest);
        append_run(MAX_LENGTH - (into.len() - start), run, into)?;
        let Some(behind) = behind else {
            return Ok(used);
        };
        let (form, left) = dollar_form(level.scope.alloc, behind)?;
        let room = MAX_LENGTH - (into.len() - start);
        let given = append_form(level, used.references, room, form, into)?;
        used.references = given.references;
        used.varying |= given.varying;
        rest = left;
    }
}

/// Appends the value of a form, or fails with `ValueTooLong` (15) where it is longer than `room`.
#[cycle(append)]
fn append_form(
    level: &Level<'_>,
    references: usize,
    room: usize,
    form: Form<'_>,
    into: &mut Vec<u8>,
) -> Result<Used, MacroFault>
    ensures { Appends into.old.items into.new.items result (form_within (scope_view
        level.now.scope.now) (below level.now.deep (scope_view level.now.scope.now)) (names_in
        level.now.going.now) references room (form_view form.entry)) }
{
    match form {
        Form::Dollars => {
            append_run(room, b"$", into)?;
            Ok(Used {
                references,
                varying: false,
            })
        }
        Form::Reference(inside) => { append_reference(level, references, room, inside, into) }
        Form::Endless => Err(MacroFault::Unclosed),
        Form::Lone => Err(MacroFault::LoneDollar),
    }
}

/// Appends the value of a reference, or fails with `ValueTooLong` (15) where it is longer than
/// `room`.
#[cycle(append)]
#[tactic(auto, unfolding(crate::specs::Expansion::reference))]
fn append_reference(
    level: &Level<'_>,
    references: usize,
    room: usize,
    inside: &[u8],
    into: &mut Vec<u8>,
) -> Result<Used, MacroFault>
    ensures { Appends into.old.items into.new.items result (reference_within (scope_view
        level.now.scope.now) (below level.now.deep (scope_view level.now.scope.now)) (names_in
        level.now.going.now) references room inside.now) }
{
    let parts = parse_reference(level.scope.alloc, inside)?;
    let name = expanded_piece(level, references, parts.name)?;
    let Some(ends) = parts.ends else {
        return append_named(level, room, &name, into);
    };
    append_replaced(level, room, &name, ends, into)
}

/// Appends the value of a reference without a substitution, whose name has been expanded.
#[cycle(append)]
fn append_named(
    level: &Level<'_>,
    room: usize,
    name: &ExpandedPart<'_>,
    into: &mut Vec<u8>,
) -> Result<Used, MacroFault>
    ensures { Appends into.old.items into.new.items result (behind_name (scope_view
        level.now.scope.now) (below level.now.deep (scope_view level.now.scope.now)) (names_in
        level.now.going.now) room (piece_view name.now) None) }
{
    let start = into.len();
    let value = append_value(level, name.used.references, name.text.as_slice(), into)?;
    if into.len() - start > room {
        return Err(MacroFault::ValueTooLong);
    }
    Ok(Used {
        references: value.references,
        varying: name.used.varying || value.varying,
    })
}

/// Appends the value of a reference with a substitution, whose name has been expanded.
#[cycle(append)]
fn append_replaced(
    level: &Level<'_>,
    room: usize,
    name: &ExpandedPart<'_>,
    ends: Substitution<'_>,
    into: &mut Vec<u8>,
) -> Result<Used, MacroFault>
    ensures { Appends into.old.items into.new.items result (behind_name (scope_view
        level.now.scope.now) (below level.now.deep (scope_view level.now.scope.now)) (names_in
        level.now.going.now) room (piece_view name.now) (Some (substitution_view ends.entry))) }
{
    let old = expanded_piece(level, name.used.references, ends.old)?;
    let new = expanded_piece(level, old.used.references, ends.new)?;
    let mut value = Vec::new(level.scope.alloc);
    let used = append_value(level, new.used.references, name.text.as_slice(), &mut value)?;
    push_substituted(into, room, old.text.as_slice(), new.text.as_slice(), &value)?;
    Ok(Used {
        references: used.references,
        varying: name.used.varying || old.used.varying || new.used.varying || used.varying,
    })
}

/// Appends the value of a name: of an internal macro or of a macro in the table.
#[cycle(append)]
fn append_value(
    level: &Level<'_>,
    references: usize,
    name: &[u8],
    into: &mut Vec<u8>,
) -> Result<Used, MacroFault>
    ensures { Appends into.old.items into.new.items result (value_of (scope_view
        level.now.scope.now) (below level.now.deep (scope_view level.now.scope.now)) (names_in
        level.now.going.now) references name.now (internal_of name.now)) }
{
    if let Some((byte, part)) = internal_of(name) {
        return append_internal(level.scope, references, byte, part, into);
    }
    if !is_macro_name(name) {
        return Err(MacroFault::BadMacroName);
    }
    let references = counted(references)?;
    if level.going.has(name) {
        return Err(MacroFault::Recursive(MacroName::new(level.scope.alloc, name)?));
    }
    append_macro(level, references, name, into)
}

/// Appends the value of an internal macro.
fn append_internal(
    scope: &Scope<'_>,
    references: usize,
    byte: u8,
    part: Part,
    into: &mut Vec<u8>,
) -> Result<Used, MacroFault>
    ensures { Appends into.old.items into.new.items
        result (value_of (scope_view scope.now) refused [] references [] (Some (byte, part))) }
{
    if byte == b'%' {
        return Err(MacroFault::MemberMacro);
    }
    let references = counted(references)?;
    let value = internal_value(scope.alloc, scope.locals, byte, part)?;
    into.extend_from_slice(&value)?;
    Ok(Used {
        references,
        varying: byte == b'?',
    })
}

/// Appends the value of a macro whose value isn't being expanded already. An undefined macro is
/// empty.
#[cycle(append)]
fn append_macro(
    level: &Level<'_>,
    references: usize,
    name: &[u8],
    into: &mut Vec<u8>,
) -> Result<Used, MacroFault>
    ensures { Appends into.old.items into.new.items result (macro_value (below level.now.deep
        (scope_view level.now.scope.now)) (names_in level.now.going.now) references name.now
        (macro_named (scope_view level.now.scope.now).table name.now)) }
{
    let Some(found) = level.scope.table.get(name) else {
        return Ok(Used {
            references,
            varying: false,
        });
    };
    if found.immediate {
        into.extend_from_slice(&found.text)?;
        return Ok(Used {
            references,
            varying: false,
        });
    }
    let under = Going::Under(&*name, &*level.going);
    let inside = Level {
        scope: &*level.scope,
        deep: level.deep,
        going: &under,
    };
    append_deeper(&inside, references, &found.text, into)
}

/// The expansion of a text one level deeper. Where the text holds no `$`, the result borrows from
/// it.
#[cycle(append)]
fn expanded_piece<'a>(
    level: &Level<'_>,
    references: usize,
    text: &'a [u8],
) -> Result<ExpandedPart<'a>, MacroFault>
    ensures { Gives piece_view result (below level.now.deep (scope_view level.now.scope.now)
        (names_in level.now.going.now) references text.now) }
{
    let (_run, behind) = cut_at_dollar(text);
    if level.deep > 0 && behind.is_none() {
        return lent(references, text);
    }
    let mut bytes = Vec::new(level.scope.alloc);
    let used = append_deeper(level, references, text, &mut bytes)?;
    Ok(ExpandedPart {
        text: CowSlice::Owned(bytes),
        used,
    })
}

/// Appends the expansion of a text one level deeper, or fails with `TooManyReferences` (14) where
/// there is no deeper level.
#[cycle(append)]
fn append_deeper(
    level: &Level<'_>,
    references: usize,
    text: &[u8],
    into: &mut Vec<u8>,
) -> Result<Used, MacroFault>
    ensures { Appends into.old.items into.new.items result (below level.now.deep (scope_view
        level.now.scope.now) (names_in level.now.going.now) references text.now) }
{
    if level.deep == 0 {
        return Err(MacroFault::TooManyReferences);
    }
    let below = Level {
        scope: &*level.scope,
        deep: level.deep - 1,
        going: &*level.going,
    };
    append_text(&below, references, text, into)
}
