//! The items of a list that stay.
ghost use Rattle.std.specs.Prelude.{◌≡◌, ◌++◌, ◌∷◌, [], Bool, IfOk, OnOk, map};
ghost use Rattle.std.specs.List.{filter};
ghost use Rattle.jwalk.specs.jwalk_model.Entry.{Item};
ghost use Rattle.jwalk.specs.jwalk_job.Entry.{item};

use jwalk::{ClientState, DirEntry, Error};
use std::alloc::{AllocError, Allocator};

/// What decides which items of a directory stay.
pub(crate) trait Keeps<C: ClientState, A: Allocator + Copy> {
    /// It decides by this test.
    ghost decides_by: { Self → (Item C.ReadDirState C.DirEntryState → Bool) → Type 0 };

    /// Returns whether an item stays.
    fn keeps(&mut self, found: &Result<DirEntry<C, A>, Error<A>>) -> Result<bool, AllocError>
        ensures kept { (test : _) → decides_by self.old test → IfOk result (λ kept. kept ≡ test (item found.now)) }
        ensures same { (test : _) → decides_by self.old test → OnOk result (decides_by self.new test) };
}

/// Adds an item that stays.
fn push_kept<C: ClientState, A: Allocator + Copy, K: Keeps<C, A>>(
    rules: &mut K,
    found: Result<DirEntry<C, A>, Error<A>>,
    kept: &mut Vec<Result<DirEntry<C, A>, Error<A>>, A>,
) -> Result<(), AllocError>
    ensures kept { (test : _) → K.decides_by rules.old test → OnOk result (map item kept.new.items
        ≡ map item kept.old.items ++ filter test (item found ∷ [])) }
    ensures same { (test : _) → K.decides_by rules.old test → OnOk result (K.decides_by rules.new test) }
{
    if rules.keeps(&found)? {
        kept.push(found)?;
    }
    Ok(())
}

/// Returns the items of a list that stay.
pub(crate) fn kept<C: ClientState, A: Allocator + Copy, K: Keeps<C, A>>(
    rules: &mut K,
    list: Vec<Result<DirEntry<C, A>, Error<A>>, A>,
) -> Result<Vec<Result<DirEntry<C, A>, Error<A>>, A>, AllocError>
    ensures { (test : _) → K.decides_by rules.old test → IfOk result (λ kept. map item kept.items
        ≡ filter test (map item list.items)) }
{
    let mut kept = Vec::with_capacity(*list.allocator(), list.len())?;
    for found in list {
        push_kept(rules, found, &mut kept)?;
    }
    Ok(kept)
}
