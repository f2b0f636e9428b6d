//! Answers on the device of the first one.
ghost use Rattle.std.specs.Prelude.{◌≡◌};
ghost use Rattle.jwalk.specs.jwalk_model.Metadata.{is_elsewhere};
ghost use Rattle.jwalk.specs.jwalk_job.Entry.{item};
ghost use Rattle.tally_run.specs.OneDevice.{identity_kept, root_before};

use jwalk::error::Result as Answer;
use jwalk::file_system::Identity;
use jwalk::{ClientState, DirEntry};
use std::alloc::Allocator;

/// An iterator over the answers of a walk that aren't known to be on another device than the first, which is the root.
/// The walk yields where another file system begins, which is no part of its own.
#[derive(Drop)]
pub(crate) struct OneDevice<I> {
    pub(crate) answers: I,
    /// Which file the root is, if that is known, once it came.
    pub(crate) root: Option<Option<Identity>>,
}

/// Returns which file the root is before the first answer. Where it isn't known for good, nothing is dropped: so it is
/// unless `one` says that what is on other devices is.
pub(crate) fn root_before(one: bool) -> Option<Option<Identity>>
    ensures { result ≡ root_before one }
{
    if one { None } else { Some(None) }
}

/// Returns which file an answer is by what it keeps, if that is known.
fn identity_kept<C: ClientState, A: Allocator + Copy>(
    answer: &Answer<DirEntry<C, A>, A>,
) -> Option<Identity>
    ensures { result ≡ identity_kept (item answer.now) }
{
    match answer {
        Ok(found) => found.metadata_seen()?.identity(),
        Err(_) => None,
    }
}

/// Returns whether two files are known to be on different devices.
fn is_elsewhere(root: Option<Identity>, own: Option<Identity>) -> bool
    ensures { result ≡ is_elsewhere root own }
{
    match (root, own) {
        (Some(root), Some(own)) => !root.is_on_same_device(own),
        _ => false,
    }
}

impl<I> OneDevice<I> {
    ghost use Rattle.std.specs.Prelude.{Some};
    ghost use Rattle.tally_run.specs.OneDevice.{root_of, root_then, stays};

    /// Returns whether an answer isn't known to be on another device than the root. The first answer is the root.
    fn stays<C: ClientState, A: Allocator + Copy>(
        &mut self,
        answer: &Answer<DirEntry<C, A>, A>,
    ) -> bool
        ensures stays { result ≡ stays (root_then (root_of self.old) (item answer.now)) (item answer.now) }
        ensures begun { self.new ≡ record self.old { root = Some (root_then (root_of self.old) (item answer.now)) } }
    {
        let own = identity_kept(answer);
        let root = self.root.unwrap_or(own);
        self.root = Some(root);
        !is_elsewhere(root, own)
    }
}

impl<
    C: ClientState,
    A: Allocator + Copy,
    I: Iterator<Item = Answer<DirEntry<C, A>, A>> + Drop,
> Iterator for OneDevice<I> {
    type Item = Answer<DirEntry<C, A>, A>;

    ghost use Rattle.std.specs.Iterator.{EndsFrom};
    ghost use Rattle.tally_run.specs.OneDevice.{source_of, MayGoOn, Stays};

    ghost can_next = { MayGoOn I.can_next (EndsFrom I.remaining) };

    ghost next_gives = { Stays I.next_gives };

    ghost remaining = { λ s. I.remaining (source_of s) };

    fn next(&mut self) -> Option<Answer<DirEntry<C, A>, A>> {
        loop {
            match self.answers.next() {
                Some(answer) => {
                    if self.stays(&answer) {
                        return Some(answer);
                    }
                }
                None => return None,
            }
        }
    }
}
