//! The texts of a file system's errors.
ghost use Rattle.jwalk_model.specs.Tree.{functions_of, only_root};

use crate::found::found;
use jwalk::file_system::{Fault, FileSystem, FileType, Listed, Metadata};
use std::alloc::{AllocError, Allocator, Global};
use std::io;
use std::io::ErrorKind;
use test_fixtures::answers::Answer;

#[derive(Clone, Copy)]
enum Failing {
    Item,
    Type,
    Listing,
    Root,
}

#[derive(Drop)]
struct Telling {
    failing: Failing,
    text: &'static str,
}

impl Telling {
    fn error(&self) -> io::Error {
        io::Error::new(ErrorKind::NotFound, self.text)
    }

    fn item<A: Allocator + Copy>(&self, alloc: A) -> Result<io::Result<Listed<A>>, AllocError> {
        let file_type = match self.failing {
            Failing::Item => return Ok(Err(self.error())),
            Failing::Type => Err(self.error()),
            _ => Ok(FileType::File),
        };
        let name = String::from_str(alloc, "x")?;
        Ok(Ok(Listed::of_type(name, file_type)))
    }

    fn items<A: Allocator + Copy>(
        &self,
        alloc: A,
    ) -> Result<Vec<io::Result<Listed<A>>, A>, AllocError> {
        let mut items = Vec::new(alloc);
        items.push(self.item(alloc)?)?;
        Ok(items)
    }
}

impl FileSystem for Telling {
    ghost IsFixed = { λ _. ⊥ };

    ghost functions = { λ _. functions_of only_root };

    fn read_dir<A: Allocator + Copy>(
        &self,
        alloc: A,
        _path: &str,
    ) -> Result<Vec<io::Result<Listed<A>>, A>, Fault> {
        if let Failing::Listing = self.failing {
            return Err(Fault::Io(self.error()));
        }
        match self.items(alloc) {
            Ok(items) => Ok(items),
            Err(_) => Err(Fault::Memory),
        }
    }

    fn metadata(&self, path: &str) -> Result<Metadata, Fault> {
        self.symlink_metadata(path)
    }

    fn symlink_metadata(&self, _path: &str) -> Result<Metadata, Fault> {
        match self.failing {
            Failing::Root => Err(Fault::Io(self.error())),
            _ => Ok(Metadata::new(FileType::Dir, 0)),
        }
    }

    fn read_link<A: Allocator + Copy>(&self, _alloc: A, _path: &str) -> Result<String<A>, Fault> {
        Err(Fault::Io(self.error()))
    }
}

/// The error may be the answer itself, or that of an entry's directory.
fn io_error_of(answer: &Answer) -> Option<&io::Error> {
    match answer {
        Ok(entry) => entry.read_children.as_ref()?.error()?.io_error(),
        Err(error) => error.io_error(),
    }
}

fn is_told(alloc: Global, failing: Failing) -> Result<bool, AllocError> {
    let text = "block 17 can't be read";
    let found = found(alloc, Telling { failing, text }, "/d", &[])?;
    let mut told = String::new(alloc);
    for answer in &found {
        if let Some(err) = io_error_of(answer) {
            write!(told, "{err}")?;
        }
    }
    Ok(told.as_str() == text)
}

#[test]
fn errors_keep_their_own_texts(rt: HostRuntime) {
    const ALL: &[Failing] = &[
        Failing::Item,
        Failing::Type,
        Failing::Listing,
        Failing::Root,
    ];
    for failing in ALL {
        assert!(rt; is_told(rt.alloc(), *failing) == Ok(true));
    }
}
