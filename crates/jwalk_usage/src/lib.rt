//! Totals over a walk: how many files, directories, links and errors it yields, and how many bytes the files have.
//!
//! ```text
//! let fs = RealFs::new(&rt);
//! let totals = usage(&fs, WalkDir::at(&rt, "/usr")?.into_iter())?;
//! println!(rt; "{totals}")?;
//! ```
#![tactic(auto)]

ghost use Rattle.std.specs.Prelude.{IfOk, IfErr};
ghost use Rattle.std.specs.Iterator.{IsFinite};
ghost use Rattle.jwalk_usage.specs.Counts.{CountsAll, CountsRest, StopsCounting, StopsCountingRest};

mod counting;
pub mod kept;
pub mod report;
pub mod sums;

use jwalk::error::Result as Answer;
use jwalk::file_system::FileSystem;
use jwalk::{ClientState, DirEntry};
pub use kept::{usage_kept, usage_kept_of_rest};
pub use report::{Usage, UsageFault};
use std::alloc::Allocator;

/// Returns what the answers of an iterator come to. It is called until it ends, so it may be a walk, or any other
/// iterator that ends.
///
/// An entry counts once, by its type. An error counts as one. So does the error of a directory that could not be read,
/// which is in its entry, and that of a file whose metadata can't be read. The bytes are those of the files. The length of
/// a file that keeps its metadata is known, and nothing is asked. For each other file the file system is asked once.
///
/// Over a crew the call may block, as the calls of the walk do.
///
/// # Errors
///
/// `UsageFault::TooMany` if a number passes the greatest `u128`. `UsageFault::Memory` if an answer reports that memory
/// ran out, or if memory runs out for the metadata of a file that is asked. No further answer is taken then.
pub fn usage<
    S: FileSystem,
    C: ClientState,
    A: Allocator + Copy,
    I: Iterator<Item = Answer<DirEntry<C, A>, A>> + Drop,
>(fs: &S, answers: I) -> Result<Usage, UsageFault>
    requires can { I.can_next answers }
    requires ends { IsFinite (I.remaining answers) }
    ensures totals { IfOk result (CountsAll I.next_gives (S.IsFixed fs.now) (S.functions fs.now) answers) }
    ensures faults { IfErr result (StopsCounting I.next_gives (S.IsFixed fs.now) (S.functions fs.now) answers) }
{
    let mut answers = answers;
    usage_of_rest(fs, &mut answers)
}

/// Returns the same of an iterator that is lent, and is left where it ended or where the counting did.
///
/// # Errors
///
/// As those of `usage`.
pub fn usage_of_rest<
    S: FileSystem,
    C: ClientState,
    A: Allocator + Copy,
    I: Iterator<Item = Answer<DirEntry<C, A>, A>>,
>(fs: &S, answers: &mut I) -> Result<Usage, UsageFault>
    requires can { I.can_next answers.old }
    requires ends { IsFinite (I.remaining answers.old) }
    ensures totals { IfOk result (CountsRest I.next_gives (S.IsFixed fs.now) (S.functions fs.now)
        answers.old answers.new) }
    ensures faults { IfErr result (StopsCountingRest I.next_gives (S.IsFixed fs.now) (S.functions fs.now)
        answers.old answers.new) }
{
    let mut usage = Usage::nothing();
    while let Some(answer) = answers.next() {
        usage.add(fs, answer)?;
    }
    Ok(usage)
}
