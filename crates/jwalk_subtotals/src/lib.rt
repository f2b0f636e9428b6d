//! Subtotals over a walk: how many bytes, entries and errors are at and below each directory.
//!
//! ```text
//! let walk = WalkDir::at(&rt, "/usr")?.keep_metadata(true).into_iter();
//! for yielded in subtotals(rt.alloc(), walk, options) {
//!     match yielded {
//!         Ok(found) => println!(rt; "{} {}", found.subtotal.bytes, found.entry.path()?)?,
//!         Err(error) => ..
//!     }
//! }
//! ```
#![tactic(auto)]

ghost use Rattle.std.specs.Prelude.{◌≡◌};
ghost use Rattle.std.specs.Iterator.{IsFinite};
ghost use Rattle.jwalk_subtotals.specs.Coming.{answers_of, options_of, CanGoOn, IsFresh, IsFreshBeside};
ghost use Rattle.jwalk_subtotals.specs.Files.{files_of};

mod counting;
pub mod error;
pub mod files;
pub mod iter;
pub mod laws;
pub mod options;
pub mod stack;
pub mod subtotal;

pub use error::SubtotalError;
pub use files::Files;
use iter::Subtotals;
use jwalk::error::Result as Answer;
use jwalk::{ClientState, DirEntry};
pub use options::SubtotalOptions;
pub use stack::WithSubtotal;
use std::alloc::Allocator;
pub use subtotal::Subtotal;

/// Returns an iterator over the subtotals of a walk: what is at and below each entry that is asked for.
///
/// The answers have to come in preorder, as those of a walk do. An entry is yielded once all that is below it has been
/// seen, so what a directory holds comes before the directory. An error of the walk is yielded where it comes.
///
/// An entry counts its own size, whatever its type: 512 bytes for each of its blocks, or its length with
/// [`apparent`](SubtotalOptions::apparent). These are in the metadata that a walk with `keep_metadata(true)` keeps, and
/// nothing is asked. Where the file system doesn't know blocks, the length counts; an entry without metadata has size
/// 0. An error counts in the directories above it, and so does that of a directory that could not be read.
///
/// A file that more than one name leads to counts its size once, at the first name that comes. That is so for whatever
/// is no directory and has more than one name, where it is known which file it is. Where the walk follows links,
/// another way may lead to any file, so there it is so for each. With [`each_name`](SubtotalOptions::each_name) every
/// name counts. A directory that comes twice counts twice.
///
/// Memory is needed for the directories that are open, and for the files that were counted and may come again.
///
/// # Errors
///
/// The iterator yields a [`SubtotalError`]: `Walk` for an error of the walk, `TooMany` if a number passes the greatest
/// `u128`, and `Memory` if memory runs out for the subtotals. Nothing is yielded behind the last two, nor behind an
/// error of the walk with which that ends: memory ran out, or a crew was busy or lost a reading. The subtotals of
/// directories that are open then aren't known.
pub fn subtotals<
    C: ClientState,
    A: Allocator + Copy,
    I: Iterator<Item = Answer<DirEntry<C, A>, A>> + Drop,
>(alloc: A, answers: I, options: SubtotalOptions) -> Subtotals<C, A, I>
    requires can { I.can_next answers }
    requires ends { IsFinite (I.remaining answers) }
    ensures fresh { IsFresh result }
    ensures answers { answers_of result ≡ answers }
    ensures options { options_of result ≡ options }
    ensures can { CanGoOn I.can_next I.remaining result }
{
    Subtotals::new(alloc, Files::new(alloc), answers, options)
}

/// Returns the subtotals of a walk's answers, beside walks that were counted before: a file that is among these, and may
/// have several names, counts no size again. [`take_files`](Subtotals::take_files) returns the files for the next walk.
pub fn subtotals_beside<
    C: ClientState,
    A: Allocator + Copy,
    I: Iterator<Item = Answer<DirEntry<C, A>, A>> + Drop,
>(alloc: A, files: Files<A>, answers: I, options: SubtotalOptions) -> Subtotals<C, A, I>
    requires can { I.can_next answers }
    requires ends { IsFinite (I.remaining answers) }
    ensures fresh { IsFreshBeside (files_of files) result }
    ensures answers { answers_of result ≡ answers }
    ensures options { options_of result ≡ options }
    ensures can { CanGoOn I.can_next I.remaining result }
{
    Subtotals::new(alloc, files, answers, options)
}
