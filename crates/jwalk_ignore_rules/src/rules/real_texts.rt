//! The files that a runtime reaches, as texts.
ghost use Rattle.std.specs.Prelude.{◌≡◌, IfOk, IfSome};

use crate::rules::texts::Texts;
use jwalk_fs::fault::Fault;
use jwalk_model::file_type::FileType;
use std::alloc::Allocator;
use std::fs;
use std::io::{self, ErrorKind, Read};
use std::rt::{Files, HostRuntime};

/// The files that a runtime reaches: the disk, if the runtime is the host's. It is made with the runtime that `main` is
/// given, or with a `&` of it.
///
/// It returns what is there at the time of the call, and nothing is promised of that.
#[derive(Drop)]
pub struct RealTexts<R: Files + Drop = HostRuntime> {
    rt: R,
}

impl<R: Files + Drop> RealTexts<R> {
    ghost use Rattle.std.specs.Prelude.{◌≡◌};
    ghost use Rattle.jwalk_ignore_rules.specs.Rules.RealTexts.{runtime_of};

    /// Returns the files that this runtime reaches. It makes no call yet.
    pub fn new(rt: R) -> Self
        ensures { runtime_of result ≡ rt }
    {
        RealTexts { rt }
    }
}

fn fault(error: io::Error) -> Fault {
    if error.kind() == ErrorKind::OutOfMemory {
        Fault::Memory
    } else {
        Fault::Io(error)
    }
}

fn type_of(found: &fs::Metadata) -> FileType {
    let found = found.file_type();
    if found.is_dir() {
        FileType::Dir
    } else if found.is_file() {
        FileType::File
    } else if found.is_symlink() {
        FileType::Symlink
    } else {
        FileType::Other
    }
}

fn type_found(found: io::Result<fs::Metadata>) -> Result<FileType, Fault> {
    match found {
        Ok(found) => Ok(type_of(&found)),
        Err(error) => Err(fault(error)),
    }
}

/// Returns the bytes of the file that is opened at a path, all of them.
fn read_file<R: Files, A: Allocator + Copy>(rt: &R, alloc: A, path: &str) -> io::Result<Vec<u8, A>>
    ensures { IfOk result (λ bytes. (opened : R.File) × IfSome (R.File.Read.remaining opened) (λ all. bytes.items ≡ all)) }
{
    let mut file = fs::open(rt, path)?;
    let mut bytes = Vec::new(alloc);
    file.read_to_end(&mut bytes)?;
    Ok(bytes)
}

impl<R: Files + Drop> Texts for RealTexts<R> {
    ghost use Rattle.jwalk_ignore_rules.specs.Rules.Texts.{no_texts};

    ghost IsFixed = { λ _. ⊥ };

    ghost functions = { λ _. no_texts };

    fn read<A: Allocator + Copy>(&self, alloc: A, path: &str) -> Result<Vec<u8, A>, Fault> {
        match read_file(&self.rt, alloc, path) {
            Ok(bytes) => Ok(bytes),
            Err(error) => Err(fault(error)),
        }
    }

    fn file_type(&self, path: &str) -> Result<FileType, Fault> {
        type_found(self.rt.symlink_metadata(path))
    }

    fn target_type(&self, path: &str) -> Result<FileType, Fault> {
        type_found(self.rt.metadata(path))
    }

    fn absolute<A: Allocator + Copy>(&self, alloc: A, path: &str) -> Result<String<A>, Fault> {
        let path = if path.is_empty() { "." } else { path };
        match self.rt.canonicalize(alloc, path) {
            Ok(path) => Ok(path.into_string()),
            Err(error) => Err(fault(error)),
        }
    }
}
