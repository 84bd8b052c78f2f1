//! Why the host doesn't read a file.

ghost use Rattle.std.specs.Prelude.{◌≡◌};
ghost use Rattle.mkcheck_host.specs.Causes.{cause_of};

use mk_read_files::Cause;
use std::io::ErrorKind;

/// What an error of this kind says of why a file was not read.
pub fn cause_of(kind: ErrorKind) -> Cause
    ensures { result ≡ cause_of kind }
{
    match kind {
        ErrorKind::IsADirectory => Cause::Folder,
        ErrorKind::PermissionDenied => Cause::Permission,
        ErrorKind::NotSeekable => Cause::ReadBefore,
        _ => Cause::Other,
    }
}
