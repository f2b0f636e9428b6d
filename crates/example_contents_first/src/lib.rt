//! The answers of a walk, in an order in which they can be removed.
#![tactic(auto)]

ghost use Rattle.std.specs.Prelude.{◌≡◌, false, None, map, IfOk};
ghost use Rattle.std.specs.Iterator.{Drains, IsFinite, YieldsThen};
ghost use Rattle.std.specs.List.{list_any};
ghost use Rattle.jwalk_job.specs.Entry.{item};
ghost use Rattle.jwalk_contents_first.specs.Coming.{ends_with};
ghost use Rattle.jwalk_contents_first.specs.ContentsFirst.{contents_first};

use jwalk_contents_first::WalkExt;
use jwalk_job::client_state::ClientState;
use jwalk_job::dir_entry::DirEntry;
use jwalk_job::error::Error;
use std::alloc::{AllocError, Allocator};

/// Takes what is yielded up to `None`.
fn take_all<X: Drop, A: Allocator + Copy, I: Iterator<Item = X>>(
    alloc: A,
    answers: &mut I,
) -> Result<Vec<X, A>, AllocError>
    requires can { I.can_next answers.old }
    requires ends { IsFinite (I.remaining answers.old) }
    ensures { IfOk result (λ all. YieldsThen I.next_gives answers.old all.items None answers.new) }
{
    let mut all = Vec::new(alloc);
    while let Some(answer) = answers.next() {
        all.push(answer)?;
    }
    Ok(all)
}

/// Returns all that a walk yields, in an order in which it can be removed: each directory behind all that is below it.
/// Nothing of it is missing, unless one of the errors reports that the walk ended early.
///
/// # Errors
///
/// If memory runs out for the list.
pub fn removal_order<
    C: ClientState,
    A: Allocator + Copy,
    I: Iterator<Item = Result<DirEntry<C, A>, Error<A>>> + Drop,
>(alloc: A, answers: I) -> Result<Vec<Result<DirEntry<C, A>, Error<A>>, A>, AllocError>
    requires can { I.can_next answers }
    requires ends { IsFinite (I.remaining answers) }
    ensures { IfOk result (λ all. list_any ends_with all.items ≡ false
        → (answered : _) × Drains I.next_gives answers answered
        × (contents_first (map item answered) ≡ map item all.items)) }
{
    let mut behind = answers.contents_first();
    take_all(alloc, &mut behind)
}
