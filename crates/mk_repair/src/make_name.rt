//! Which names a makefile can hold.

ghost use Rattle.std.specs.Prelude.{◌≡◌};
ghost use Rattle.mk_read.specs.Names.{is_make_name};

use mk_lines::is_plain_text_path;
use mk_read::has_reserved;

/// Whether a makefile can hold the name: a plain path without reserved bytes.
#[tactic(auto, unfolding(mk_read::specs::Names::is_make_name))]
pub fn is_make_name(name: &str) -> bool
    ensures { result ≡ is_make_name name.now }
{
    let bytes = name.as_bytes();
    is_plain_text_path(name) && !has_reserved(bytes)
}
