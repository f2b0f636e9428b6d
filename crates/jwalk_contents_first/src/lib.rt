//! The entries of a walk, each behind what is below it.
//!
//! ```text
//! use jwalk_contents_first::WalkExt;
//!
//! for answer in WalkDir::at(&rt, "/tmp/old")?.skip_hidden(false).into_iter().contents_first() {
//!     println!(rt; "{}", answer?.path()?)?;
//! }
//! ```
#![tactic(auto)]

ghost use Rattle.std.specs.Prelude.{◌≡◌};
ghost use Rattle.std.specs.Iterator.{IsFinite};
ghost use Rattle.jwalk_contents_first.specs.Coming.{answers_of, CanGoOn, IsFresh};

pub mod held;
pub mod iter;
pub mod laws;

use iter::ContentsFirst;
use jwalk_job::client_state::ClientState;
use jwalk_job::dir_entry::DirEntry;
use jwalk_job::error::Error;
use std::alloc::Allocator;

/// What can be done with whatever yields the answers of a walk: a walk that has begun, read by a crew or not, and what a
/// `filter` or another adaptor lets through of one.
pub trait WalkExt<C: ClientState, A: Allocator + Copy>: Iterator<
    Item = Result<DirEntry<C, A>, Error<A>>,
> {
    /// Returns an iterator over the same entries and errors, of which each entry comes behind all that is below it.
    ///
    /// So a directory comes behind what it holds, as is needed to remove a tree. Entries that lie beside each other keep
    /// their order, and an error comes where it came, behind the directories that it isn't below. Answers are told apart
    /// by their depths, so entries that were filtered out leave the others in order.
    ///
    /// It holds back one entry for each depth at most, and one answer. If the answers end with an error with which the
    /// walk ends, as memory ran out or a crew was busy or lost a reading, that error comes at once, and the entries that
    /// are held back never come: it isn't known that all below them came.
    ///
    /// # Errors
    ///
    /// Beside the errors of the walk it yields one whose `is_memory` is true, if memory runs out for the entries that it
    /// holds back. Nothing comes behind that.
    final fn contents_first(self) -> ContentsFirst<C, A, Self>
    where
        Self: Sized + Drop,
        requires can { Self.can_next self }
        requires ends { IsFinite (Self.remaining self) }
        ensures fresh { IsFresh result }
        ensures answers { answers_of result ≡ self }
        ensures can { CanGoOn Self.can_next Self.remaining result }
    {
        ContentsFirst::new(self)
    }
}

impl<
    C: ClientState,
    A: Allocator + Copy,
    I: Iterator<Item = Result<DirEntry<C, A>, Error<A>>>,
> WalkExt<C, A> for I {}
