//! Opens files.

ghost use Rattle.std.specs.Prelude.{ℕ, List, Option, None, IfSome};
ghost use Rattle.mkcheck_host.specs.Opening.{IsOpening};

use std::alloc::Global;
use std::io::ErrorKind;
use std::{fs, io, rt};

/// Opens files to be read. Where it tells what it holds under a name, contracts know what a read of
/// that name gives.
pub trait Opener {
    /// An opened file.
    type File: io::Read + Drop;

    /// What the opener holds under a name, where it tells that: the bytes of the file, or that
    /// there is none.
    ghost holds: { Self → List ℕ → Option (Option (List ℕ)) };

    /// Opens the file with this name.
    fn open(&mut self, name: &str) -> io::Result<Self::File>
        ensures { IfSome (holds self.old name.now)
            (λ held. IsOpening Self.File.remaining held result) };
}

/// Opens files on the disk. It doesn't tell what they hold. A pipe or a terminal is opened once:
/// its bytes are gone then, so a second read would give another text.
#[derive(Drop)]
pub struct HostFiles<'a, R> {
    rt: &'a R,
    alloc: Global,
    /// The names that were opened and whose bytes are gone.
    streams: Vec<String>,
}

impl<'a, R> HostFiles<'a, R> {
    /// The files that the runtime can open.
    pub fn new(alloc: Global, rt: &'a R) -> HostFiles<'a, R> {
        HostFiles {
            rt,
            alloc,
            streams: Vec::new(alloc),
        }
    }

    /// Whether a stream with this name was opened.
    fn has_opened(&self, name: &str) -> bool {
        for stream in &self.streams {
            if stream.as_str() == name {
                return true;
            }
        }
        false
    }
}

impl<'a, R: rt::Files> HostFiles<'a, R> {
    /// Whether the name is of something that can be read once: no regular file, and not
    /// `/dev/null`, which is always empty.
    fn is_stream(&self, name: &str) -> bool {
        match fs::metadata(self.rt, name) {
            Ok(found) => !found.is_file() && name != "/dev/null",
            Err(_) => false,
        }
    }
}

impl<'a, R: rt::Files> Opener for HostFiles<'a, R> {
    type File = R::File;

    ghost holds = { λ _ _. None };

    fn open(&mut self, name: &str) -> io::Result<R::File> {
        if self.has_opened(name) {
            return Err(io::Error::from(ErrorKind::NotSeekable));
        }
        if self.is_stream(name) {
            self.streams.push(String::from_str(self.alloc, name)?)?;
        }
        fs::open(self.rt, name)
    }
}
