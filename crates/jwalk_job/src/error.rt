//! The errors of a walk.
mod text;

use std::alloc::{Allocator, Global};
use std::io;
use std::io::ErrorKind;
use std::sync::Arc;

#[derive(Drop)]
#[derive_where(Debug)]
enum ErrorInner<A: Allocator + Copy> {
    Io {
        path: Option<Arc<String<A>, A>>,
        err: io::Error,
    },
    Unnamed {
        parent: Arc<String<A>, A>,
        name: Option<Vec<u8, A>>,
        err: io::Error,
    },
    Loop {
        ancestor: Arc<String<A>, A>,
        child: Arc<String<A>, A>,
    },
    Busy,
    Memory,
    Lost,
}

/// An error met on a walk. It is an `io::Error` with the depth at which it came and, mostly, a path; or a link that was
/// followed and leads back to a directory above it. Or memory ran out, or it is one of the two errors of a crew.
///
/// It is printed as one text, such as `IO error for operation on /t/group 2: permission denied`. An `anyhow::Error`
/// that `?` makes of it keeps at most 120 bytes of that.
#[derive_where(Debug)]
pub struct Error<A: Allocator + Copy = Global> {
    depth: usize,
    inner: ErrorInner<A>,
}

impl<A: Allocator + Copy> Drop for Error<A> {
    fn drop(self) {
        let Error { depth: _, inner: _ } = self;
    }
}

/// What a walk yields.
pub type Result<T, A = Global> = std::result::Result<T, Error<A>>;

impl<A: Allocator + Copy> Error<A> {
    ghost use Rattle.std.specs.Prelude.{◌≡◌, ◌↔◌, Some, None, option_map, IsTrue};
    ghost use Rattle.std.specs.Option.{option_copied};
    ghost use Rattle.std.specs.IoError.{error_kind};
    ghost use Rattle.jwalk_model.specs.Error.{io, unnamed, looped, busy, memory, lost};
    ghost use Rattle.jwalk_job.specs.Text.{text};
    ghost use Rattle.jwalk_job.specs.Error.{failure, name_of, depth_of, path_of, parent_of, ancestor_of, kind_of};

    /// Returns an error of the file system at a depth, with the path that was asked for.
    pub fn from_path(depth: usize, path: Arc<String<A>, A>, err: io::Error) -> Self
        ensures { failure result ≡ io depth (Some (text path)) (error_kind err) }
    {
        Error {
            depth,
            inner: ErrorInner::Io {
                path: Some(path),
                err,
            },
        }
    }

    /// Returns an error of the file system at a depth, with no path.
    pub fn from_io(depth: usize, err: io::Error) -> Self
        ensures { failure result ≡ io depth None (error_kind err) }
    {
        Error {
            depth,
            inner: ErrorInner::Io { path: None, err },
        }
    }

    /// Returns an error of the file system at a depth, that came in this directory and has no path of its own.
    pub fn from_item(depth: usize, parent: Arc<String<A>, A>, err: io::Error) -> Self
        ensures failure { failure result ≡ unnamed depth (text parent) (error_kind err) }
        ensures name { name_of result ≡ None }
    {
        Error {
            depth,
            inner: ErrorInner::Unnamed {
                parent,
                name: None,
                err,
            },
        }
    }

    /// Returns the error at a depth of an item in this directory whose name, of these bytes, isn't UTF-8. Its kind is
    /// `InvalidFilename`.
    pub fn from_bad_name(depth: usize, parent: Arc<String<A>, A>, name: Vec<u8, A>) -> Self
        ensures failure { failure result ≡ unnamed depth (text parent) ErrorKind.InvalidFilename }
        ensures name { name_of result ≡ Some name.items }
    {
        Error {
            depth,
            inner: ErrorInner::Unnamed {
                parent,
                name: Some(name),
                err: io::Error::from(ErrorKind::InvalidFilename),
            },
        }
    }

    pub(crate) fn from_loop(
        depth: usize,
        ancestor: Arc<String<A>, A>,
        child: Arc<String<A>, A>,
    ) -> Self
        ensures { failure result ≡ looped depth (text ancestor) (text child) }
    {
        Error {
            depth,
            inner: ErrorInner::Loop { ancestor, child },
        }
    }

    /// Returns the error of a walk for which a crew had no free place in time, or could start no worker.
    pub fn busy() -> Self
        ensures { failure result ≡ busy }
    {
        Error {
            depth: 0,
            inner: ErrorInner::Busy,
        }
    }

    /// Returns the error that reports that memory ran out.
    pub fn memory() -> Self
        ensures { failure result ≡ memory }
    {
        Error {
            depth: 0,
            inner: ErrorInner::Memory,
        }
    }

    /// Returns the error of a reading that didn't come ([`is_lost`](Error::is_lost)).
    pub fn lost() -> Self
        ensures { failure result ≡ lost }
    {
        Error {
            depth: 0,
            inner: ErrorInner::Lost,
        }
    }

    /// Returns the path that the error came with; for a loop it is the path of the link. There is none if an item of a
    /// listing had no name or one that isn't UTF-8, or if the text of a link could not be read: `parent_path` then says
    /// in which directory. There is also none if memory ran out, or if a crew is the cause.
    pub fn path(&self) -> Option<&str>
        ensures { option_copied result ≡ path_of (failure self.now) }
    {
        match &self.inner {
            ErrorInner::Io {
                path: Some(path),
                ..
            } => Some(path.as_str()),
            ErrorInner::Loop { child, .. } => Some(child.as_str()),
            _ => None,
        }
    }

    /// Returns the path of the directory that the error came in, if the error has no path of its own: for an item of a
    /// listing that has no name or one that isn't UTF-8, and for a link whose text could not be read. It is `None` for
    /// all other errors.
    pub fn parent_path(&self) -> Option<&str>
        ensures { option_copied result ≡ parent_of (failure self.now) }
    {
        match &self.inner {
            ErrorInner::Unnamed { parent, .. } => Some(parent.as_str()),
            _ => None,
        }
    }

    /// Returns the bytes of the name of an item that isn't UTF-8, and so has no path: such an item can't be reached. It is
    /// `None` for all other errors, and where the file system gave no bytes.
    pub fn name_bytes(&self) -> Option<&[u8]>
        ensures { option_copied result ≡ name_of self.now }
    {
        match &self.inner {
            ErrorInner::Unnamed {
                name: Some(name),
                ..
            } => Some(name.as_slice()),
            _ => None,
        }
    }

    /// Returns the directory that a link leads back to, for a loop alone: the nearest one above the link that is the
    /// same file as what it leads to. Where it isn't known which file one of them is, it is the same place as the
    /// link's text below the link's parent (`path_text::same_place`), and the link may lead to another directory.
    pub fn loop_ancestor(&self) -> Option<&str>
        ensures { option_copied result ≡ ancestor_of (failure self.now) }
    {
        match &self.inner {
            ErrorInner::Loop { ancestor, .. } => Some(ancestor.as_str()),
            _ => None,
        }
    }

    /// Returns the depth at which the error came: 0 for the root, if memory ran out, and if a crew is the cause.
    pub fn depth(&self) -> usize
        ensures { result ≡ depth_of (failure self.now) }
    {
        match &self.inner {
            ErrorInner::Io { .. } | ErrorInner::Unnamed { .. } | ErrorInner::Loop { .. } =>
                self.depth,
            ErrorInner::Busy | ErrorInner::Memory | ErrorInner::Lost => 0,
        }
    }

    /// Returns the `io::Error`, if it is one.
    pub fn io_error(&self) -> Option<&io::Error>
        ensures { option_map error_kind (option_copied result) ≡ kind_of (failure self.now) }
    {
        match &self.inner {
            ErrorInner::Io { err, .. } | ErrorInner::Unnamed { err, .. } => Some(err),
            _ => None,
        }
    }

    /// Returns the same, taken out of the error.
    pub fn into_io_error(self) -> Option<io::Error>
        ensures { option_map error_kind result ≡ kind_of (failure self) }
    {
        let Error { depth: _, inner } = self;
        match inner {
            ErrorInner::Io { err, .. } | ErrorInner::Unnamed { err, .. } => Some(err),
            _ => None,
        }
    }

    /// Returns whether a crew had no free place in time for the walk, or could start no worker.
    pub fn is_busy(&self) -> bool
        ensures { IsTrue result ↔ (failure self.now ≡ busy) }
    {
        matches!(self.inner, ErrorInner::Busy)
    }

    /// Returns whether memory ran out.
    pub fn is_memory(&self) -> bool
        ensures { IsTrue result ↔ (failure self.now ≡ memory) }
    {
        matches!(self.inner, ErrorInner::Memory)
    }

    /// Returns whether a reading didn't come: a crew gave none, or a wrong one, of a directory that was entered, or
    /// `ReadDirIter::next_of` was asked for another directory than the next.
    pub fn is_lost(&self) -> bool
        ensures { IsTrue result ↔ (failure self.now ≡ lost) }
    {
        matches!(self.inner, ErrorInner::Lost)
    }
}
