//! Totals of walks that keep metadata.
ghost use Rattle.std.specs.Prelude.{◌≡◌, IfOk, IfErr, OnOk};
ghost use Rattle.std.specs.Iterator.{IsFinite};
ghost use Rattle.jwalk.specs.jwalk_job.Entry.{item};
ghost use Rattle.jwalk.specs.DirEntryIter.{TellsMemory};
ghost use Rattle.jwalk_usage.specs.ByAnswers.{AddsAll, AddsRest, CannotAdd, StopsAdding, StopsAddingRest};
ghost use Rattle.jwalk_usage.specs.Kept.{kept_totals, with_kept};

use crate::report::{Usage, UsageFault};
use jwalk::error::Result as Answer;
use jwalk::{ClientState, DirEntry};
use std::alloc::Allocator;

impl Usage {
    /// Counts one answer by the metadata that its entry keeps.
    fn add_kept<C: ClientState, A: Allocator + Copy>(
        &mut self,
        answer: Answer<DirEntry<C, A>, A>,
    ) -> Result<(), UsageFault>
        ensures counted { OnOk result (self.new ≡ with_kept (item answer) self.old) }
        ensures told { OnOk result (¬ TellsMemory (item answer)) }
        ensures faults { IfErr result (CannotAdd (with_kept (item answer) self.old) (item answer)) }
    {
        match answer {
            Ok(found) => self.add_kept_entry(&found),
            Err(error) => self.add_error(&error),
        }
    }
}

/// Returns what the answers of an iterator come to, as `usage` does, but asks nothing: the length of each file is in the
/// metadata that its entry keeps, as those of a walk with `keep_metadata(true)` do. A file that keeps none counts as
/// empty.
///
/// Over a crew the call may block, as the calls of the walk do.
///
/// # Errors
///
/// `UsageFault::TooMany` if a number passes the greatest `u128`. `UsageFault::Memory` if an answer reports that memory
/// ran out. No further answer is taken then.
pub fn usage_kept<
    C: ClientState,
    A: Allocator + Copy,
    I: Iterator<Item = Answer<DirEntry<C, A>, A>> + Drop,
>(answers: I) -> Result<Usage, UsageFault>
    requires can { I.can_next answers }
    requires ends { IsFinite (I.remaining answers) }
    ensures totals { IfOk result (AddsAll kept_totals I.next_gives answers) }
    ensures faults { IfErr result (StopsAdding kept_totals I.next_gives answers) }
{
    let mut answers = answers;
    usage_kept_of_rest(&mut answers)
}

/// Returns the same of an iterator that is lent, and is left where it ended or where the counting did.
///
/// # Errors
///
/// As those of `usage_kept`.
pub fn usage_kept_of_rest<
    C: ClientState,
    A: Allocator + Copy,
    I: Iterator<Item = Answer<DirEntry<C, A>, A>>,
>(answers: &mut I) -> Result<Usage, UsageFault>
    requires can { I.can_next answers.old }
    requires ends { IsFinite (I.remaining answers.old) }
    ensures totals { IfOk result (AddsRest kept_totals I.next_gives answers.old answers.new) }
    ensures faults { IfErr result (StopsAddingRest kept_totals I.next_gives answers.old answers.new) }
{
    let mut usage = Usage::nothing();
    while let Some(answer) = answers.next() {
        usage.add_kept(answer)?;
    }
    Ok(usage)
}
