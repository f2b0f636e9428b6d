//! The differences of two lists of entries, such as those of a walk now and of one before.
//!
//! ```text
//! for change in changes(before.into_iter(), now.into_iter(), unread.into_iter()) {
//!     match change? {
//!         Change::Added(entry) => println!(rt; "+ {}", entry.path)?,
//!         Change::Removed(entry) => println!(rt; "- {}", entry.path)?,
//!         Change::Changed(_, entry, _) => println!(rt; "~ {}", entry.path)?,
//!     }
//! }
//! ```
#![tactic(auto)]

ghost use Rattle.std.specs.Prelude.{◌≡◌, IfOk, IfErr};
ghost use Rattle.std.specs.Iterator.{IsFinite};
ghost use Rattle.jwalk_changes.specs.Coming.{old_of, new_of, unknown_of, CanGoOn, IsFresh};
ghost use Rattle.jwalk_changes.specs.Differences.{IsDifferences};
ghost use Rattle.jwalk_changes.specs.Whole.{ComparesAll, IsTrueOfError, IsTrueOfLists};

pub mod at_path;
pub mod change;
pub mod entry;
pub mod facts;
pub mod iter;
pub mod laws;
mod side;

pub use at_path::{AtPath, compare, is_below};
pub use change::{Change, ChangesError, NotAscending};
pub use entry::{Entry, Kept};
pub use facts::{Facts, Which};
use iter::Changes;
use std::alloc::Allocator;

/// Returns an iterator over the differences of two lists, in ascending order of paths.
///
/// Each list has to come in ascending order of paths by their names, as [`compare`] orders them, and each path once. That
/// is the order in which a walk with `sort(true)` yields them. There is one difference at each path that only one list
/// has, and at each that both have with other facts: see [`Facts`]. What was moved is removed at one path and added at
/// another.
///
/// `unknown` are the places whose contents aren't known, in the same order: directories that couldn't be read. Nothing
/// is told of what is below one. The place itself is compared.
///
/// Each input is asked for one item at a time, and no memory is needed.
///
/// # Errors
///
/// The iterator yields [`NotAscending`] if an input doesn't ascend, and then nothing more. What it yielded before is the
/// beginning of the differences of lists that begin with what was compared.
pub fn changes<
    O: Entry,
    N: Entry,
    U: AtPath,
    I: Iterator<Item = O>,
    J: Iterator<Item = N>,
    K: Iterator<Item = U>,
>(old: I, new: J, unknown: K) -> Changes<I, J, K, O, N, U>
    requires can_old { I.can_next old }
    requires ends_old { IsFinite (I.remaining old) }
    requires can_new { J.can_next new }
    requires ends_new { IsFinite (J.remaining new) }
    requires can_unknown { K.can_next unknown }
    requires ends_unknown { IsFinite (K.remaining unknown) }
    ensures fresh { IsFresh result }
    ensures old { old_of result ≡ old }
    ensures new { new_of result ≡ new }
    ensures unknown { unknown_of result ≡ unknown }
    ensures can { CanGoOn I.can_next I.remaining J.can_next J.remaining K.can_next K.remaining result }
{
    Changes::new(old, new, unknown)
}

/// Returns all differences of two lists, as [`changes`] yields them.
///
/// # Errors
///
/// `NotAscending` if an input doesn't ascend, and `Memory` if memory runs out.
pub fn all_changes<
    O: Entry,
    N: Entry,
    U: AtPath,
    I: Iterator<Item = O>,
    J: Iterator<Item = N>,
    K: Iterator<Item = U>,
    A: Allocator + Copy,
>(alloc: A, old: I, new: J, unknown: K) -> Result<Vec<Change<O, N>, A>, ChangesError>
    requires can_old { I.can_next old }
    requires ends_old { IsFinite (I.remaining old) }
    requires can_new { J.can_next new }
    requires ends_new { IsFinite (J.remaining new) }
    requires can_unknown { K.can_next unknown }
    requires ends_unknown { IsFinite (K.remaining unknown) }
    ensures all { IfOk result (λ found. ComparesAll I.next_gives J.next_gives K.next_gives O.path O.facts N.path N.facts U.path old new unknown found.items) }
    ensures told { IfErr result (IsTrueOfError I.next_gives J.next_gives K.next_gives O.path O.facts N.path N.facts U.path old new unknown) }
{
    let mut coming = changes(old, new, unknown);
    let mut found = Vec::new(alloc);
    while let Some(change) = coming.next() {
        match change {
            Ok(change) => found.push(change)?,
            Err(input) => return Err(ChangesError::NotAscending(input)),
        }
    }
    Ok(found)
}

/// Returns all differences of two lists that are held whole.
///
/// # Errors
///
/// `NotAscending` if a list doesn't ascend, and `Memory` if memory runs out.
pub fn changes_between<O: Entry, N: Entry, U: AtPath, A: Allocator + Copy>(
    alloc: A,
    old: Vec<O, A>,
    new: Vec<N, A>,
    unknown: Vec<U, A>,
) -> Result<Vec<Change<O, N>, A>, ChangesError>
    ensures all { IfOk result (λ found. IsDifferences O.path O.facts N.path N.facts U.path old.items new.items unknown.items found.items) }
    ensures told { IfErr result (IsTrueOfLists O.path N.path U.path old.items new.items unknown.items) }
{
    all_changes(alloc, old.into_iter(), new.into_iter(), unknown.into_iter())
}

#[cfg(test)]
mod tests;
