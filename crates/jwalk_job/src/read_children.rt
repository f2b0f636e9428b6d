//! The directory below an entry.
use crate::client_state::ClientState;
use crate::error::Error;
use std::alloc::{Allocator, Global};
use std::sync::Arc;

/// What an entry holds of the directory that is to be read below it.
///
/// A callback may take it away, so that the directory isn't read, or move it to another entry.
#[derive_where(Debug)]
pub struct ReadChildren<C: ClientState, A: Allocator + Copy = Global> {
    pub(crate) path: Arc<String<A>, A>,
    // In a box, since most directories are read: without an error an entry has no room for one.
    pub(crate) error: Option<Box<Error<A>, A>>,
    /// The state that the directory's reading is to begin with. `None` means a clone of the state that the reading of
    /// the entry's own directory left.
    pub client_read_state: Option<C::ReadDirState>,
}

impl<C: ClientState, A: Allocator + Copy> Drop for ReadChildren<C, A> {
    fn drop(self) {
        let ReadChildren {
            path: _,
            error: _,
            client_read_state: _,
        } = self;
    }
}

impl<C: ClientState, A: Allocator + Copy> ReadChildren<C, A> {
    ghost use Rattle.std.specs.Prelude.{◌≡◌, option_map, true, Some};
    ghost use Rattle.std.specs.Option.{option_copied};
    ghost use Rattle.jwalk_model.specs.Entry.{children_at};
    ghost use Rattle.jwalk_job.specs.Text.{text};
    ghost use Rattle.jwalk_job.specs.Error.{failure};
    ghost use Rattle.jwalk_job.specs.Entry.{children};

    /// Returns the directory at a path, not read yet, whose reading begins with the state that its parent's left. The
    /// path need not be the entry's own.
    pub fn new(path: Arc<String<A>, A>) -> Self
        ensures { Some (children result) ≡ children_at true (text path) }
    {
        ReadChildren {
            path,
            error: None,
            client_read_state: None,
        }
    }

    /// Returns the path of the directory.
    pub fn path(&self) -> &str
        ensures { result.now ≡ (children self.now).path }
    {
        self.path.as_str()
    }

    /// Returns the error that reading the directory ended in.
    pub fn error(&self) -> Option<&Error<A>>
        ensures { option_map failure (option_copied result) ≡ (children self.now).error }
    {
        match &self.error {
            Some(error) => Some(error.as_ref()),
            None => None,
        }
    }
}
