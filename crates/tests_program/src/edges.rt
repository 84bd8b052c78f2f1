//! What no contract says about reading and writing: which failure comes where, on the disk and
//! elsewhere.

use mk_core::{Files, FilesError, MemFiles};
use mk_core_since::Below;
use mk_read_files::Cause;
use mkcheck_host::{
    Disk, Ending, HostFiles, Outcome, Sink, Source, Stop, conclude, emit, end, slurp,
};
use mkcheck_run::run_arguments;
use std::alloc::{AllocError, Global};
use std::io::{ErrorKind, Read, Write};
use std::process::{Abort, ExitCode};
use std::test::Fail;
use std::{io, str};

// A reader that gives `left` bytes, one at each read, and then fails or is at its end.
#[derive(Drop)]
struct Drops {
    left: u32,
    then: Option<ErrorKind>,
}

impl Read for Drops {
    fn read(&mut self, buf: &mut [u8]) -> io::Result<usize> {
        if self.left == 0 {
            return match self.then {
                Some(kind) => Err(io::Error::from(kind)),
                None => Ok(0),
            };
        }
        match buf.first_mut() {
            Some(first) => {
                self.left -= 1;
                *first = b'a';
                Ok(1)
            }
            None => Ok(0),
        }
    }
}

// A reader that is interrupted at every other read and gives one byte at each of the others.
#[derive(Drop)]
struct Halting {
    left: u32,
    halts: bool,
}

impl Read for Halting {
    fn read(&mut self, buf: &mut [u8]) -> io::Result<usize> {
        self.halts = !self.halts;
        if self.halts {
            return Err(io::Error::from(ErrorKind::Interrupted));
        }
        match buf.first_mut() {
            Some(first) if self.left > 0 => {
                self.left -= 1;
                *first = b'a';
                Ok(1)
            }
            _ => Ok(0),
        }
    }
}

/// The text of bytes, or `?` if they aren't UTF-8.
fn shown(bytes: &[u8]) -> &str {
    str::from_utf8(bytes).unwrap_or("?")
}

fn is_failed(read: Result<Vec<u8>, FilesError>) -> bool {
    matches!(&read, Err(FilesError::ReadFailed))
}

#[test]
fn reads_to_the_end(rt: HostRuntime) -> Result<(), Fail> {
    let alloc = rt.alloc();
    let bytes: &[u8] = b"a: b\n";
    let text = slurp(alloc, &mut Source::new(bytes))?;
    assert_eq!(rt; shown(text.as_slice()), "a: b\n");
    let slow = Drops {
        left: 5_000,
        then: None,
    };
    assert_eq!(rt; slurp(alloc, &mut Source::new(slow))?.len(), 5_000);
    let halting = Halting {
        left: 5_000,
        halts: false,
    };
    assert_eq!(rt; slurp(alloc, &mut Source::new(halting))?.len(), 5_000);
    Ok(())
}

#[test]
fn fails_where_the_reader_fails(rt: HostRuntime) {
    let kinds = [
        ErrorKind::Other,
        ErrorKind::NotFound,
        ErrorKind::UnexpectedEof,
        ErrorKind::OutOfMemory,
    ];
    for kind in kinds {
        for left in [0, 1, 3_000] {
            let failing = Drops {
                left,
                then: Some(kind),
            };
            assert!(rt; is_failed(slurp(rt.alloc(), &mut Source::new(failing))));
        }
    }
}

#[test]
fn reads_up_to_the_limit(rt: HostRuntime) -> Result<(), Fail> {
    let longest = io::repeat(b'a').take(16_777_216);
    assert_eq!(rt;
        slurp(rt.alloc(), &mut Source::new(longest))?.len(),
        16_777_216
    );
    let longer = io::repeat(b'a').take(16_777_217);
    assert!(rt; is_failed(slurp(rt.alloc(), &mut Source::new(longer))));
    Ok(())
}

#[test]
fn reads_a_pipe(rt: HostRuntime) -> Result<(), Fail> {
    let (reader, mut writer) = io::pipe(&rt)?;
    writer.write_all(b"a: b\n")?;
    drop(writer);
    let text = slurp(rt.alloc(), &mut Source::new(reader))?;
    assert_eq!(rt; shown(text.as_slice()), "a: b\n");
    Ok(())
}

#[test]
fn reads_the_disk(rt: HostRuntime) -> Result<(), Fail> {
    let mut disk = Disk::new(HostFiles::new(rt.alloc(), &rt));
    let text = disk.read(rt.alloc(), "/dev/null")?;
    assert!(rt; matches!(&text, Some(text) if text.is_empty()));
    for name in ["/dev/none", "/none/none", ""] {
        assert!(rt; disk.read(rt.alloc(), name)?.is_none());
    }
    Ok(())
}

// A folder, an endless file, a file that can be opened but not read, and a path through a file.
#[test]
fn fails_to_read_the_disk(rt: HostRuntime) {
    let mut disk = Disk::new(HostFiles::new(rt.alloc(), &rt));
    for name in ["/", "/dev/zero", "/proc/self/mem", "/dev/null/x"] {
        let text = disk.read(rt.alloc(), name);
        assert!(rt; matches!(&text, Err(FilesError::ReadFailed)));
    }
}

#[test]
fn says_why_the_disk_was_not_read(rt: HostRuntime) {
    let mut disk = Disk::new(HostFiles::new(rt.alloc(), &rt));
    let places = [
        ("/", Cause::Folder),
        ("/dev/zero", Cause::TooLarge),
        ("/dev/zero", Cause::ReadBefore),
        ("/proc/self/mem", Cause::Other),
        ("/dev/null/x", Cause::Other),
    ];
    for (name, cause) in places {
        assert!(rt; disk.read(rt.alloc(), name).is_err());
        assert_eq!(rt; disk.cause(), cause);
    }
}

#[test]
fn says_why_a_source_was_not_read(rt: HostRuntime) {
    let mut longer = Source::new(io::repeat(b'a').take(16_777_217));
    assert!(rt; is_failed(slurp(rt.alloc(), &mut longer)));
    assert_eq!(rt; longer.cause(), Cause::TooLarge);
    let mut closed = Source::new(Drops {
        left: 3,
        then: Some(ErrorKind::PermissionDenied),
    });
    assert!(rt; is_failed(slurp(rt.alloc(), &mut closed)));
    assert_eq!(rt; closed.cause(), Cause::Permission);
}

// A writer that takes `room` bytes, at most `width` at each write. At the next write it fails or
// takes none, and from then on it has room again.
#[derive(Drop)]
struct Narrow {
    taken: Vec<u8>,
    width: usize,
    room: usize,
    then: Option<ErrorKind>,
}

impl Write for Narrow {
    fn write(&mut self, buf: &[u8]) -> io::Result<usize> {
        let count = buf.len().min(self.width).min(self.room);
        if count == 0 {
            self.room = usize::MAX;
            return match self.then {
                Some(kind) => Err(io::Error::from(kind)),
                None => Ok(0),
            };
        }
        if self.taken.extend_from_slice(&buf[..count]).is_err() {
            return Err(io::Error::from(ErrorKind::OutOfMemory));
        }
        self.room -= count;
        Ok(count)
    }

    fn flush(&mut self) -> io::Result<()> {
        Ok(())
    }
}

fn sink_with(alloc: Global, room: usize, then: Option<ErrorKind>) -> Sink<Narrow> {
    Sink::new(Narrow {
        taken: Vec::new(alloc),
        width: 2,
        room,
        then,
    })
}

const FAULTS: [Option<ErrorKind>; 5] = [
    None,
    Some(ErrorKind::Interrupted),
    Some(ErrorKind::BrokenPipe),
    Some(ErrorKind::StorageFull),
    Some(ErrorKind::OutOfMemory),
];

#[test]
fn writes_a_text_in_parts(rt: HostRuntime) {
    for then in FAULTS {
        let mut sink = sink_with(rt.alloc(), 5, then);
        assert!(rt; emit(&mut sink, b"").is_ok());
        assert!(rt; emit(&mut sink, b"parts").is_ok());
        assert!(rt; emit(&mut sink, b"").is_ok());
        assert_eq!(rt; shown(sink.into_writer().taken.as_slice()), "parts");
        let mut sink = sink_with(rt.alloc(), 3, then);
        assert!(rt; emit(&mut sink, b"parts").is_err());
        assert_eq!(rt; shown(sink.into_writer().taken.as_slice()), "par");
    }
}

fn to_memory(alloc: Global) -> Sink<Vec<u8>> {
    Sink::new(Vec::new(alloc))
}

fn outcome(alloc: Global, status: u8) -> Result<Outcome, AllocError> {
    Ok(Outcome {
        out: Vec::from_slice(alloc, b"out")?,
        err: Vec::from_slice(alloc, b"err")?,
        status,
    })
}

#[test]
fn ends_with_the_status_of_the_run(rt: HostRuntime) -> Result<(), Fail> {
    let alloc = rt.alloc();
    for status in [0, 1, 2, 3, 77] {
        let (mut out, mut err) = (to_memory(alloc), to_memory(alloc));
        let ran = Ok(outcome(alloc, status)?);
        assert!(rt; conclude(&mut out, &mut err, &ran) == ExitCode::from(status));
        assert_eq!(rt; shown(out.into_writer().as_slice()), "out");
        assert_eq!(rt; shown(err.into_writer().as_slice()), "err");
    }
    Ok(())
}

#[test]
fn tells_of_a_failed_write(rt: HostRuntime) -> Result<(), Fail> {
    let alloc = rt.alloc();
    for then in FAULTS {
        let (told, cut) = match then {
            Some(ErrorKind::BrokenPipe) => ("", "er"),
            _ => ("write failed\n", "erwrite failed\n"),
        };
        for status in [0, 1, 3] {
            let ran = Ok(outcome(alloc, status)?);
            let (mut out, mut err) = (sink_with(alloc, 2, then), to_memory(alloc));
            assert!(rt; conclude(&mut out, &mut err, &ran) == ExitCode::from(2));
            assert_eq!(rt; shown(out.into_writer().taken.as_slice()), "ou");
            assert_eq!(rt; shown(err.into_writer().as_slice()), told);
            let (mut out, mut err) = (to_memory(alloc), sink_with(alloc, 2, then));
            assert!(rt; matches!(end(&mut out, &mut err, &ran), Ending::WriteFailed));
            assert_eq!(rt; shown(out.into_writer().as_slice()), "out");
            assert_eq!(rt; shown(err.into_writer().taken.as_slice()), cut);
        }
    }
    Ok(())
}

fn expect_stop(rt: &impl Abort, alloc: Global, stop: Stop, line: &str, status: u8) {
    let (mut out, mut err) = (to_memory(alloc), to_memory(alloc));
    let ran: Result<Outcome, Stop> = Err(stop);
    assert!(rt; conclude(&mut out, &mut err, &ran) == ExitCode::from(status));
    assert!(rt; out.into_writer().is_empty());
    assert_eq!(rt; shown(err.into_writer().as_slice()), line);
}

#[test]
fn says_why_there_is_no_outcome(rt: HostRuntime) {
    let alloc = rt.alloc();
    expect_stop(&rt, alloc, Stop::Memory, "want of memory\n", 3);
    let line = "error: a word of the command line is not UTF-8\n";
    expect_stop(&rt, alloc, Stop::Words, line, 2);
}

fn stopped(alloc: Global, kind: ErrorKind) -> Result<Outcome, Stop> {
    let mut below = Below::new(alloc, MemFiles::new(alloc));
    let words = Err(io::Error::from(kind));
    run_arguments(alloc, &mut MemFiles::new(alloc), &mut below, words)
}

#[test]
fn tells_wrong_words_from_want_of_memory(rt: HostRuntime) {
    let wanted = stopped(rt.alloc(), ErrorKind::OutOfMemory);
    assert!(rt; matches!(&wanted, Err(Stop::Memory)));
    for kind in [
        ErrorKind::InvalidData,
        ErrorKind::InvalidInput,
        ErrorKind::Other,
    ] {
        let wrong = stopped(rt.alloc(), kind);
        assert!(rt; matches!(&wrong, Err(Stop::Words)));
    }
}

#[test]
fn answers_the_words(rt: HostRuntime) -> Result<(), Fail> {
    let alloc = rt.alloc();
    let mut files = MemFiles::new(alloc);
    let mut words = Vec::new(alloc);
    words.push(String::from_str(alloc, "graph")?)?;
    let (mut out, mut err) = (to_memory(alloc), to_memory(alloc));
    let mut below = Below::new(alloc, MemFiles::new(alloc));
    let ran = run_arguments(alloc, &mut files, &mut below, Ok(words));
    assert!(rt; conclude(&mut out, &mut err, &ran) == ExitCode::from(2));
    assert_eq!(rt; shown(out.into_writer().as_slice()), "refused 37\n");
    assert!(rt; err.into_writer().is_empty());
    Ok(())
}
