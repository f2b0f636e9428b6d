//! Names that aren't UTF-8, in listings that are kept before they are given on.
ghost use Rattle.jwalk_model.specs.Tree.{functions_of, only_root};

use jwalk_fs::fault::Fault;
use jwalk_fs::file_system::FileSystem;
use jwalk_fs::listed::Listed;
use jwalk_fs::sink::{Kept, Sink};
use jwalk_indexed_fs::index::Index;
use jwalk_indexed_fs::indexed_fs::IndexedFs;
use jwalk_indexed_fs::recording_fs::RecordingFs;
use jwalk_model::file_type::FileType;
use jwalk_model::metadata::{Metadata, Moment};
use jwalk_model::seen::Seen;
use std::alloc::{AllocError, Allocator, Global};
use std::io;
use std::io::ErrorKind;
use std::sync::Wait;

/// A directory of a name that isn't UTF-8, a file, and another such name.
#[derive(Drop)]
struct Odd;

impl FileSystem for Odd {
    ghost IsFixed = { λ _. ⊥ };

    ghost functions = { λ _. functions_of only_root };

    fn read_dir<A: Allocator + Copy>(
        &self,
        alloc: A,
        path: &str,
    ) -> Result<Vec<io::Result<Listed<A>>, A>, Fault> {
        let mut kept = Kept::new(alloc);
        self.read_dir_into(alloc, path, &mut kept)?;
        Ok(kept.items)
    }

    fn read_dir_into<A: Allocator + Copy, K: Sink>(
        &self,
        _alloc: A,
        _path: &str,
        sink: &mut K,
    ) -> Result<(), Fault> {
        sink.take_bad_name(b"b\xff")?;
        sink.take("a", Ok(FileType::File))?;
        sink.take_bad_name(b"\xc3")?;
        Ok(())
    }

    fn metadata(&self, _path: &str) -> Result<Metadata, Fault> {
        Ok(Metadata::new(FileType::Dir, 0))
    }

    fn symlink_metadata(&self, path: &str) -> Result<Metadata, Fault> {
        self.metadata(path)
    }

    fn read_link<A: Allocator + Copy>(&self, _alloc: A, _path: &str) -> Result<String<A>, Fault> {
        Err(Fault::Io(io::Error::from(ErrorKind::InvalidInput)))
    }
}

/// A sink that notes each name, or the bytes of one that isn't UTF-8.
#[derive(Drop)]
struct Noted {
    text: String,
}

impl Sink for Noted {
    ghost Took = { λ _ _ _. Unit {0} };

    fn take_seen(&mut self, name: &str, _seen: io::Result<Seen>) -> Result<(), AllocError> {
        write!(self.text, "{name}; ")
    }

    fn take_error(&mut self, error: io::Error) -> Result<(), AllocError> {
        write!(self.text, "{:?}; ", error.kind())
    }

    fn take_bad_name(&mut self, name: &[u8]) -> Result<(), AllocError> {
        write!(self.text, "{name:?}; ")
    }
}

fn noted_of<S: FileSystem>(alloc: Global, fs: &S) -> Result<String, Fault> {
    let mut noted = Noted {
        text: String::new(alloc),
    };
    fs.read_dir_into(alloc, "/odd", &mut noted)?;
    Ok(noted.text)
}

fn recorded<R: Wait + AllocGlobal + Clone + Drop>(rt: &R) -> Result<String, Fault> {
    let start = Moment {
        seconds: 1000,
        nanoseconds: 0,
    };
    let recording = RecordingFs::new(rt.alloc(), rt.clone()?, Odd, start);
    noted_of(rt.alloc(), &recording)
}

#[test]
fn names_that_are_not_utf_8_keep_their_bytes(rt: HostRuntime) {
    let recorded = recorded(&rt);
    assert!(rt; matches!(&recorded, Ok(text) if text.as_str() == "[98, 255]; a; [195]; "));
    let indexed = noted_of(rt.alloc(), &IndexedFs::new(Odd, Index::new(rt.alloc())));
    assert!(rt; matches!(&indexed, Ok(text) if text.as_str() == "a; [98, 255]; [195]; "));
}
