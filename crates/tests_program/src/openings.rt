//! What the disk's reader answers over files in memory, whose opener tells what it holds.

ghost use Rattle.std.specs.Prelude.{◌≡◌, Some, map};
ghost use Rattle.std.specs.Option.{option_map};
ghost use Rattle.mk_core.specs.Files.{text_at};

use mk_core::FilesError;
use mkcheck_host::{Disk, Opener};
use std::io;
use std::io::{ErrorKind, Read};
use std::test::Fail;

// A reader that gives as many bytes as the buffer takes, until this many reads went well. Each
// later read fails.
#[derive(Drop)]
struct Pieces<'a> {
    left: &'a [u8],
    good: u32,
}

impl<'a> Read for Pieces<'a> {
    ghost remaining = { λ pieces. Some pieces.left.now };

    fn read(&mut self, buf: &mut [u8]) -> io::Result<usize> {
        if self.good == 0 {
            return Err(io::Error::from(ErrorKind::Other));
        }
        self.good -= 1;
        self.left.read(buf)
    }
}

// A file in memory, how many reads of it go well, and the error on opening it, if there is one.
#[derive(Clone, Copy)]
struct File<'a> {
    name: &'a str,
    bytes: &'a [u8],
    good: u32,
    closed: Option<ErrorKind>,
}

// The first file with this name.
fn file_named<'a>(files: &'a [File<'a>], name: &str) -> Option<&'a File<'a>>
    ensures { option_map (λ file. file.now.bytes.now) result ≡
        text_at (map (λ file. (file.name.now, file.bytes.now)) files.now) name.now }
{
    for file in files {
        if file.name == name {
            return Some(file);
        }
    }
    None
}

// Opens files in memory: the first time among some, later among others. It tells what it holds.
#[derive(Drop)]
struct Shelf<'a> {
    files: &'a [File<'a>],
    later: &'a [File<'a>],
}

impl<'a> Opener for Shelf<'a> {
    type File = Pieces<'a>;

    ghost holds = { λ shelf name. Some
        (text_at (map (λ file. (file.name.now, file.bytes.now)) shelf.files.now) name) };

    fn open(&mut self, name: &str) -> io::Result<Pieces<'a>> {
        let files = self.files;
        self.files = self.later;
        let Some(file) = file_named(files, name) else {
            return Err(io::Error::from(ErrorKind::NotFound));
        };
        match file.closed {
            Some(kind) if kind != ErrorKind::NotFound => Err(io::Error::from(kind)),
            _ => Ok(Pieces {
                left: file.bytes,
                good: file.good,
            }),
        }
    }
}

const GOOD: u32 = u32::MAX;

fn file_of<'a>(name: &'a str, bytes: &'a [u8]) -> File<'a> {
    File {
        name,
        bytes,
        good: GOOD,
        closed: None,
    }
}

// A reader over these files.
fn disk_of<'a>(files: &'a [File<'a>]) -> Disk<Shelf<'a>> {
    Disk::new(Shelf {
        files,
        later: files,
    })
}

// Whether the answer is this text.
fn is_text(read: &Result<Option<Vec<u8>>, FilesError>, text: &[u8]) -> bool {
    matches!(read, Ok(Some(got)) if got.as_slice() == text)
}

#[test]
fn reads_what_is_there(rt: HostRuntime) {
    let files = [
        file_of("a", b"one\n"),
        file_of("a", b"two\n"),
        file_of("b", b""),
    ];
    let mut disk = disk_of(&files);
    assert!(rt; is_text(&disk.read_file(rt.alloc(), "a"), b"one\n"));
    assert!(rt; is_text(&disk.read_file(rt.alloc(), "b"), b""));
    assert!(rt; matches!(disk.read_file(rt.alloc(), "c"), Ok(None)));
    assert!(rt; matches!(disk.read_file(rt.alloc(), ""), Ok(None)));
}

#[test]
fn tells_a_missing_file_from_a_closed_one(rt: HostRuntime) {
    let kinds = [
        ErrorKind::PermissionDenied,
        ErrorKind::NotADirectory,
        ErrorKind::IsADirectory,
        ErrorKind::FilesystemLoop,
        ErrorKind::InvalidFilename,
        ErrorKind::Interrupted,
        ErrorKind::Other,
    ];
    for kind in kinds {
        let files = [File {
            closed: Some(kind),
            ..file_of("a", b"one\n")
        }];
        let read = disk_of(&files).read_file(rt.alloc(), "a");
        assert!(rt; matches!(&read, Err(FilesError::ReadFailed)));
    }
    let files = [File {
        closed: Some(ErrorKind::OutOfMemory),
        ..file_of("a", b"one\n")
    }];
    let read = disk_of(&files).read_file(rt.alloc(), "a");
    assert!(rt; matches!(&read, Err(FilesError::Memory)));
}

// A text of 70,000 bytes is read in two pieces, and a third read finds its end.
#[test]
fn answers_nothing_of_a_failed_read(rt: HostRuntime) -> Result<(), Fail> {
    let text = vec![in rt.alloc(); b'a'; 70_000]?;
    for good in [0, 1, 2] {
        let files = [File {
            good,
            ..file_of("a", &text)
        }];
        let read = disk_of(&files).read_file(rt.alloc(), "a");
        assert!(rt; matches!(&read, Err(FilesError::ReadFailed)));
    }
    let files = [File {
        good: 3,
        ..file_of("a", &text)
    }];
    assert!(rt; is_text(&disk_of(&files).read_file(rt.alloc(), "a"), &text));
    Ok(())
}

#[test]
fn reads_files_up_to_the_limit(rt: HostRuntime) -> Result<(), Fail> {
    let text = vec![in rt.alloc(); b'a'; 16_777_217]?;
    let files = [file_of("a", &text), file_of("b", &text[1..])];
    let mut disk = disk_of(&files);
    assert!(rt;
        matches!(
            &disk.read_file(rt.alloc(), "a"),
            Err(FilesError::ReadFailed)
        )
    );
    assert!(rt; is_text(&disk.read_file(rt.alloc(), "b"), &text[1..]));
    Ok(())
}

// A file that changes between two reads is answered as it was at each. No map fits both answers.
#[test]
fn reads_a_name_anew(rt: HostRuntime) {
    let (files, later) = ([file_of("a", b"one\n")], [file_of("a", b"two\n")]);
    let mut disk = Disk::new(Shelf {
        files: &files,
        later: &later,
    });
    assert!(rt; is_text(&disk.read_file(rt.alloc(), "a"), b"one\n"));
    assert!(rt; is_text(&disk.read_file(rt.alloc(), "a"), b"two\n"));
}
