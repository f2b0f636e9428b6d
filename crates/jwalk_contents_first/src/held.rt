//! The entries that are held back.
ghost use Rattle.std.specs.Prelude.{◌≡◌, [], ◌∷◌, IsFalse, IsTrue, OnErr, OnOk, option_map};
ghost use Rattle.jwalk_job.specs.Entry.{entry};
ghost use Rattle.jwalk_contents_first.specs.Coming.{entries_in, is_above};

use jwalk_job::client_state::ClientState;
use jwalk_job::dir_entry::DirEntry;
use std::alloc::{AllocError, Allocator};
use std::mem;

/// The entries that are held back, each deeper than the one before.
#[derive(Drop)]
pub(crate) struct Held<C: ClientState, A: Allocator + Copy> {
    // There is no list before the first entry, whose allocator it takes.
    entries: Option<Vec<DirEntry<C, A>, A>>,
}

/// Returns whether the last of the entries, if there is one, is less deep than this.
fn is_above<C: ClientState, A: Allocator + Copy>(entries: &[DirEntry<C, A>], depth: usize) -> bool
    ensures { result ≡ is_above depth (entries_in entries.now) }
{
    match entries.last() {
        Some(last) => last.depth() < depth,
        None => true,
    }
}

impl<C: ClientState, A: Allocator + Copy> Held<C, A> {
    ghost use Rattle.jwalk_contents_first.specs.Coming.{entries_of, is_above, last_of, left_of, takes_last, SwapsLast};

    pub(crate) fn new() -> Self
        ensures { entries_of result ≡ [] }
    {
        Held { entries: None }
    }

    /// Returns whether the last entry, if there is one, is less deep than this.
    pub(crate) fn is_above(&self, depth: usize) -> bool
        ensures { result ≡ is_above depth (entries_of self.now) }
    {
        match &self.entries {
            Some(entries) => is_above(entries.as_slice(), depth),
            None => true,
        }
    }

    /// Returns whether an entry at this depth can take the place of the last: it isn't below the last, but it is below the
    /// one before, if there is one.
    fn takes_last(&self, depth: usize) -> bool
        ensures { result ≡ takes_last depth (entries_of self.now) }
    {
        let Some(entries) = &self.entries else {
            return false;
        };
        let Some((last, others)) = entries.split_last() else {
            return false;
        };
        if last.depth() < depth {
            return false;
        }
        is_above(others, depth)
    }

    /// Exchanges an entry for the last, if it can take its place, and returns whether it did.
    pub(crate) fn swap_last(&mut self, found: &mut DirEntry<C, A>) -> bool
        ensures tells { result ≡ takes_last (entry found.old).depth (entries_of self.old) }
        ensures swapped { IsTrue result → SwapsLast (entry found.old) (entries_of self.old) (entry found.new) (entries_of self.new) }
        ensures kept { IsFalse result → (self.new ≡ self.old) × (found.new ≡ found.old) }
    {
        if !self.takes_last(found.depth()) {
            return false;
        }
        if let Some(entries) = &mut self.entries {
            if let Some(last) = entries.last_mut() {
                mem::swap(last, found);
            }
        }
        true
    }

    /// Adds an entry. If memory runs out, the others stay.
    pub(crate) fn push(&mut self, found: DirEntry<C, A>) -> Result<(), AllocError>
        ensures held { OnOk result (entries_of self.new ≡ entry found ∷ entries_of self.old) }
        ensures kept { OnErr result (entries_of self.new ≡ entries_of self.old) }
    {
        if let Some(entries) = &mut self.entries {
            entries.push(found)?;
            return Ok(());
        }
        let mut entries = Vec::new(*found.file_name.allocator());
        entries.push(found)?;
        self.entries = Some(entries);
        Ok(())
    }

    pub(crate) fn pop(&mut self) -> Option<DirEntry<C, A>>
        ensures left { entries_of self.new ≡ left_of (entries_of self.old) }
        ensures popped { option_map entry result ≡ last_of (entries_of self.old) }
    {
        match &mut self.entries {
            Some(entries) => entries.pop(),
            None => None,
        }
    }
}
