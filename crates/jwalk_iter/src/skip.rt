//! What a skip drops behind the item that was yielded last.
ghost use Rattle.std.specs.Prelude.{◌≡◌};
ghost use Rattle.jwalk_job.specs.Error.{failure};
ghost use Rattle.jwalk_job.specs.Entry.{entry, item};
ghost use Rattle.jwalk_iter.specs.Skip.{behind_entry, behind_error, depth_at, drops, skip_behind};

use jwalk_job::client_state::ClientState;
use jwalk_job::dir_entry::DirEntry;
use jwalk_job::error::Error;
use jwalk_job::item::Item;
use std::alloc::Allocator;

/// Which of the items that a walk holds are dropped, from the next one on.
#[derive(Clone, Copy)]
pub(crate) enum Skip {
    /// None.
    Nothing,
    /// Those below this depth.
    Below(usize),
    /// Those at this depth or below it.
    From(usize),
}

fn behind_entry<C: ClientState, A: Allocator + Copy>(found: &DirEntry<C, A>) -> Skip
    ensures { result ≡ skip_behind (Ok (entry found.now)) }
{
    match &found.read_children {
        Some(children) if children.error().is_some() => Skip::Nothing,
        Some(_) => Skip::Below(found.depth),
        None if found.file_type.is_dir() => Skip::Nothing,
        None => Skip::From(found.depth),
    }
}

fn behind_error<A: Allocator + Copy>(error: &Error<A>) -> Skip
    ensures { result ≡ behind_error (failure error.now) }
{
    if error.is_memory() || error.is_busy() || error.is_lost() {
        Skip::Nothing
    } else {
        Skip::From(error.depth())
    }
}

impl Skip {
    /// Returns what is dropped behind an item.
    pub(crate) fn behind<C: ClientState, A: Allocator + Copy>(yielded: &Item<C, A>) -> Self
        ensures { result ≡ skip_behind (item yielded.now) }
    {
        match yielded {
            Ok(found) => behind_entry(found),
            Err(error) => behind_error(error),
        }
    }

    /// Returns whether an item is dropped.
    pub(crate) fn drops<C: ClientState, A: Allocator + Copy>(self, held: &Item<C, A>) -> bool
        ensures { result ≡ drops self (item held.now) }
    {
        let depth = match held {
            Ok(found) => found.depth,
            Err(error) => error.depth(),
        };
        match self {
            Skip::Nothing => false,
            Skip::Below(above) => depth > above,
            Skip::From(least) => depth >= least,
        }
    }
}
