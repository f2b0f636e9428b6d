//! A file system that isn't fixed, a borrowed one, and the faults that `?` makes.
ghost use Rattle.jwalk_model.specs.Tree.{functions_of, only_root};

use jwalk_fs::fault::Fault;
use jwalk_fs::file_system::FileSystem;
use jwalk_fs::listed::Listed;
use jwalk_memory_fs::build_error::BuildError;
use jwalk_model::file_type::FileType;
use jwalk_model::metadata::Metadata;
use std::alloc::{AllocError, AllocFailed, Allocator, Global};
use std::cell::Cell;
use std::io;
use std::io::ErrorKind;

// A file at every path, one byte longer each time it is asked for. No path is a directory or a link.
#[derive(Drop)]
struct Growing {
    len: Cell<u64>,
}

impl FileSystem for Growing {
    ghost IsFixed = { λ _. ⊥ };

    ghost functions = { λ _. functions_of only_root };

    fn read_dir<A: Allocator + Copy>(
        &self,
        _alloc: A,
        _path: &str,
    ) -> Result<Vec<io::Result<Listed<A>>, A>, Fault> {
        Err(Fault::from(io::Error::from(ErrorKind::NotADirectory)))
    }

    fn metadata(&self, _path: &str) -> Result<Metadata, Fault> {
        self.len.set(self.len.get().wrapping_add(1));
        Ok(Metadata::new(FileType::File, self.len.get()))
    }

    fn symlink_metadata(&self, _path: &str) -> Result<Metadata, Fault> {
        Ok(Metadata::new(FileType::Symlink, 0))
    }

    fn read_link<A: Allocator + Copy>(&self, alloc: A, path: &str) -> Result<String<A>, Fault> {
        Ok(String::from_str(alloc, path)?)
    }
}

fn kind<T: Drop>(answer: Result<T, Fault>) -> Option<ErrorKind> {
    match answer {
        Err(Fault::Io(e)) => Some(e.kind()),
        _ => None,
    }
}

fn length<S: FileSystem>(fs: S) -> Option<u64> {
    match fs.metadata("/f") {
        Ok(metadata) => Some(metadata.len()),
        Err(_) => None,
    }
}

// Returns whether the four calls, made through the trait's bound, return what they return at first.
fn answers<S: FileSystem>(alloc: Global, fs: S) -> bool {
    kind(fs.read_dir(alloc, "/f")) == Some(ErrorKind::NotADirectory)
        && fs.metadata("/f").ok() == Some(Metadata::new(FileType::File, 1))
        && fs.symlink_metadata("/f").ok() == Some(Metadata::new(FileType::Symlink, 0))
        && matches!(fs.read_link(alloc, "/f"), Ok(text) if text.as_str() == "/f")
}

#[test]
fn a_borrowed_file_system_answers_and_answers_may_change(rt: HostRuntime) {
    let fs = Growing { len: Cell::new(0) };
    assert!(rt; answers(rt.alloc(), &fs));
    let fs = Growing { len: Cell::new(0) };
    assert!(rt; [length(&fs), length(&fs), length(fs)] == [Some(1), Some(2), Some(3)]);
}

fn fails<E: Drop, F: From<E>>(error: E) -> Result<(), F> {
    Err(error)?
}

#[test]
fn memory_that_ran_out_is_a_fault_of_its_own_and_an_error_keeps_its_kind(rt: HostRuntime) {
    assert!(rt; matches!(fails::<_, Fault>(AllocError), Err(Fault::Memory)));
    assert!(rt;
        matches!(
            fails::<_, Fault>(AllocFailed { value: 7 }),
            Err(Fault::Memory)
        )
    );
    assert!(rt;
        matches!(
            fails::<_, BuildError>(AllocFailed { value: 7 }),
            Err(BuildError::Memory)
        )
    );
    for wanted in [ErrorKind::NotFound, ErrorKind::OutOfMemory] {
        assert_eq!(rt; kind(fails(io::Error::from(wanted))), Some(wanted));
    }
}
