//! Laws about certificates. Each function exists for its contract alone: a caller has the law as a
//! fact.

ghost use Rattle.mk_cert_laws.specs.Laws.{AcceptedIsSelectedAnew, FilesAreKnown, LineIsReadBack, RecipesAreCovered};

use mk_cert::laws::verified_is_right;
use mk_cert_text::laws::text_is_read_back;
use mk_find::finding_laws::{listed_exactly, nothing_found_is_sound};
use mk_graph::laws::serial_reaches_each_once;
use mk_infer_laws::laws::{graph_stays_selected, parts_stay_selected};
use mk_subject::laws::all_writes_exactly;

/// If a certificate is accepted, each recipe of the graph has a record with the commands that make
/// would run, which don't vary, and writes its target, unless that is phony.
pub fn recipes_are_covered()
    ensures { RecipesAreCovered }
{
    listed_exactly();
    nothing_found_is_sound();
    serial_reaches_each_once();
    verified_is_right();
}

/// On each disk that a trace from a start disk leaves, each file is given or written by a recipe of
/// the graph.
pub fn files_are_known()
    ensures { FilesAreKnown }
{}

/// If a certificate is accepted, a make that reads the makefile again, on whatever disk a trace
/// leaves, selects the graph that was judged, or for some of the goals a part of it.
pub fn accepted_is_selected_anew()
    ensures { AcceptedIsSelectedAnew }
{
    all_writes_exactly();
    files_are_known();
    graph_stays_selected();
    parts_stay_selected();
    verified_is_right();
}

/// The text of a certificate with a newline behind it is read as that certificate.
pub fn line_is_read_back()
    ensures { LineIsReadBack }
{
    text_is_read_back();
}
