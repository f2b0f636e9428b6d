//! A snapshot: what a walk found below its root, as a text to keep in a file.
//!
//! ```text
//! let bytes = fs::read(&rt, "usr.snapshot")?;
//! let snapshot = Snapshot::read(rt.alloc(), &bytes)?;
//! for block in &snapshot.blocks {
//!     for name in &block.names {
//!         println!(rt; "{} {}", block.path, name.name)?;
//!     }
//! }
//! ```
//!
//! # The text
//!
//! `tr '\0' '\n'` shows it. Each number is in decimal and ends with a space, each text ends with a NUL. Behind
//! `jwalk-snapshot 1 `, which says what it is and in which version:
//!
//! ```text
//! WORDS ROOT␀ABSOLUTE␀       how many words there are, the root as it was written, and the same made absolute
//! WORD␀                      each of the words that chose what is in the snapshot
//! DIRS                       how many directories follow, each of them as:
//! R NAMES PATH␀              how many names it has, and its path behind the root
//! U NAMES PATH␀              the same, if it couldn't be read: the names are those of an earlier snapshot
//! S DEVICE INODE SECONDS NANOSECONDS NAMES PATH␀     the same, with its stamp: when it last changed
//! f LENGTH SECONDS NANOSECONDS INODE NAME␀           each of its names: when the file was last written
//! F NAME␀                    the same, of a name that the walk left out
//! COUNT SUM␀                 how many names are in all directories, and the SHA-256 of all before it in hex digits
//! ```
//!
//! `f`, `d`, `l` and `o` are a file, a directory, a link and all else. The names of a directory ascend in the order of
//! bytes. Seconds before 1970 have a minus. No number has a zero in front, so each snapshot has just one text.
//!
//! # What is proved
//!
//! [`to_text`](Snapshot::to_text) returns just this text, or fails as it says. What [`read`](Snapshot::read) returns has
//! the text that was read, and each such text is read, unless memory runs out: so bytes that are no such text are
//! refused. That changed bytes have another sum is a matter of SHA-256. Nothing is proved of
//! [`replace`](file::replace), which works on the disk.
#![tactic(auto)]

pub mod block;
pub mod error;
pub mod file;
pub mod head;
pub mod name;
mod numbers;
pub mod snapshot;

pub use block::{Block, Listing, Stamp};
pub use error::SnapshotError;
pub use file::replace;
pub use head::Head;
pub use name::{Facts, Name};
pub use snapshot::Snapshot;

#[cfg(test)]
mod tests;
