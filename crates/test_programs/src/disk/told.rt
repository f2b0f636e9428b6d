//! A disk whose answers are in a table.
ghost use Rattle.std.specs.Io.{ReadsAtMost};

use std::alloc::Allocator;
use std::cell::Cell;
use std::fs::{File, Metadata, OpenOptions};
use std::io::{self, ErrorKind, Read};
use std::path::PathBuf;
use std::rc::Rc;
use std::rt::Files;

/// One part of the reading of a directory.
#[derive(Clone, Copy)]
enum Part {
    /// Names, each ended by a NUL.
    Names(&'static [u8]),
    Fails(ErrorKind),
}

/// The readings of a directory, in order.
#[derive(Clone, Copy)]
pub(super) enum Readings {
    Nothing,
    /// `a`, `l`, `s` and `.h`.
    FourNames,
    /// The directory itself and the one above it, `b`, a name that isn't text, and `c`; then another such name, and
    /// `d`.
    NamesThatAreNoTexts,
    /// `b` and `a`; then `c`; then an error.
    FaultAfterThreeNames,
    /// `b`, and then `a`, with interruptions before and between.
    Interrupted,
    /// `b` and `a`; then memory runs out.
    NoMemoryAfterTwoNames,
}

/// A call to a disk.
#[derive(Clone, Copy, PartialEq, Eq)]
pub(super) enum Call {
    /// Opens a directory, by a path that ends in a slash.
    Open,
    /// Looks at a path.
    Look,
    /// Looks at the target of a path.
    Follow,
    /// Reads the text of a link.
    Text,
}

/// The table of a disk. The disk has the directory `/t`, in which the directory `/t/s` is empty and the link `/t/l`
/// leads to an empty directory elsewhere. Everything else is a file.
#[derive(Clone, Copy)]
pub(super) struct Told {
    /// The readings of `/t`.
    pub(super) readings: Readings,
    /// How many opens are interrupted, from the first on.
    pub(super) interrupted: usize,
    /// The calls that fail, each at a path.
    pub(super) failing: &'static [(Call, &'static str)],
    /// The error of the calls that fail.
    pub(super) kind: ErrorKind,
}

/// How often a disk opens a directory, looks at a path, looks at the target of a path, and reads the text of a link.
pub(super) type Counts = (usize, usize, usize, usize);

/// A disk whose answers are in a table, with counts of its calls that others see.
#[derive(Drop)]
pub(super) struct ToldDisk {
    pub(super) told: Told,
    pub(super) calls: Rc<Cell<Counts>>,
}

/// A directory that is being read.
#[derive(Drop)]
pub(super) struct ToldDir {
    readings: Readings,
    next: usize,
}

impl Readings {
    fn parts(self) -> &'static [Part] {
        const FOUR: &[Part] = &[Part::Names(b"a\0l\0s\0.h\0")];
        const NO_TEXTS: &[Part] = &[
            Part::Names(b".\0..\0b\0a\xff\0c\0"),
            Part::Names(b"\xc3\0d\0"),
        ];
        const FAULT: &[Part] = &[
            Part::Names(b"b\0a\0"),
            Part::Names(b"c\0"),
            Part::Fails(ErrorKind::InvalidData),
        ];
        const INTERRUPTED: &[Part] = &[
            Part::Fails(ErrorKind::Interrupted),
            Part::Names(b"b\0"),
            Part::Fails(ErrorKind::Interrupted),
            Part::Fails(ErrorKind::Interrupted),
            Part::Names(b"a\0"),
        ];
        const NO_MEMORY: &[Part] = &[Part::Names(b"b\0a\0"), Part::Fails(ErrorKind::OutOfMemory)];
        match self {
            Readings::Nothing => &[],
            Readings::FourNames => FOUR,
            Readings::NamesThatAreNoTexts => NO_TEXTS,
            Readings::FaultAfterThreeNames => FAULT,
            Readings::Interrupted => INTERRUPTED,
            Readings::NoMemoryAfterTwoNames => NO_MEMORY,
        }
    }
}

fn fill(mut names: &[u8], buf: &mut [u8]) -> io::Result<usize>
    ensures { ReadsAtMost result buf.new }
{
    names.read(buf)
}

impl Read for ToldDir {
    fn read(&mut self, buf: &mut [u8]) -> io::Result<usize> {
        let Some(part) = self.readings.parts().get(self.next) else {
            return Ok(0);
        };
        self.next = self.next.wrapping_add(1);
        match *part {
            Part::Names(names) => fill(names, buf),
            Part::Fails(kind) => Err(io::Error::from(kind)),
        }
    }
}

fn unsupported<T>() -> io::Result<T> {
    Err(io::Error::from(ErrorKind::Unsupported))
}

impl ToldDisk {
    /// Counts the call first.
    fn called(&self, call: Call, path: &str) -> io::Result<()> {
        let (opens, looks, follows, texts) = self.calls.get();
        self.calls.set(match call {
            Call::Open => (opens.wrapping_add(1), looks, follows, texts),
            Call::Look => (opens, looks.wrapping_add(1), follows, texts),
            Call::Follow => (opens, looks, follows.wrapping_add(1), texts),
            Call::Text => (opens, looks, follows, texts.wrapping_add(1)),
        });
        for (failing, at) in self.told.failing {
            if *failing == call && *at == path {
                return Err(io::Error::from(self.told.kind));
            }
        }
        Ok(())
    }
}

impl Files for ToldDisk {
    type File = File;

    type Dir = ToldDir;

    fn open_file(&self, _how: &OpenOptions, _path: &str) -> io::Result<File> {
        unsupported()
    }

    fn open_dir(&self, path: &str) -> io::Result<ToldDir> {
        self.called(Call::Open, path)?;
        if self.calls.get().0 <= self.told.interrupted {
            return Err(io::Error::from(ErrorKind::Interrupted));
        }
        let readings = if path == "/t/" {
            self.told.readings
        } else {
            Readings::Nothing
        };
        Ok(ToldDir { readings, next: 0 })
    }

    fn metadata(&self, path: &str) -> io::Result<Metadata> {
        self.called(Call::Follow, path)?;
        Ok(Metadata::of_dir())
    }

    fn symlink_metadata(&self, path: &str) -> io::Result<Metadata> {
        self.called(Call::Look, path)?;
        match path {
            "/t" | "/t/s" => Ok(Metadata::of_dir()),
            "/t/l" => Ok(Metadata::of_symlink(1)),
            _ => Ok(Metadata::of_file(1)),
        }
    }

    fn copy(&self, _from: &str, _to: &str) -> io::Result<u64> {
        unsupported()
    }

    fn rename(&self, _from: &str, _to: &str) -> io::Result<()> {
        unsupported()
    }

    fn remove_file(&self, _path: &str) -> io::Result<()> {
        unsupported()
    }

    fn create_dir(&self, _path: &str) -> io::Result<()> {
        unsupported()
    }

    fn remove_dir(&self, _path: &str) -> io::Result<()> {
        unsupported()
    }

    fn remove_dir_all<B: Allocator>(&self, _alloc: B, _path: &str) -> io::Result<()> {
        unsupported()
    }

    fn read_link<B: Allocator>(&self, alloc: B, path: &str) -> io::Result<PathBuf<B>> {
        self.called(Call::Text, path)?;
        Ok(PathBuf::from_str(alloc, "elsewhere")?)
    }
}
