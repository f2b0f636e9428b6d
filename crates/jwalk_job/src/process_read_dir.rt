//! What a walk's user does with each list.
ghost use Rattle.std.specs.Prelude.{◌≡◌, ◌<◌, ◌^◌, None, OnOk, IsOk, map};
ghost use Rattle.jwalk_model.specs.Entry.{AtDepth};
ghost use Rattle.jwalk_model.specs.ReadDir.{list_depth};
ghost use Rattle.jwalk_job.specs.Entry.{item};
ghost use Rattle.jwalk_job.specs.Given.{AddsErrors, Given, IsProcessed, KeepsLists};

use crate::client_state::ClientState;
use crate::item::List;
use std::alloc::{AllocError, Allocator};

/// A callback that is called with each list before the walk goes on with it.
pub trait ProcessReadDir<C: ClientState, A: Allocator + Copy>: Drop {
    /// It may be called.
    ghost IsLawful: { Self → Type 0 };

    /// It always makes of a list what is given, as far as states count, unless memory runs out. A callback of which
    /// nothing is to be said so has `⊥` here.
    ghost Makes: { Self → Given C.ReadDirState C.DirEntryState → Type 0 };

    /// It drops nothing from the root's list, whatever it rests on, and adds nothing but errors.
    ghost KeepsRoot: { Self → Type 0 } = { λ _. ⊥ };

    /// Works on the list of the directory at `path`, which has this depth. For the list of the root alone, `depth` is
    /// `None` and `path` is the root's parent, or empty if the root's entry is an error. It may change `state`, which
    /// the directories of the list begin with. It may reorder the list, drop items, change their states, and take away
    /// or move `read_children`; but an entry keeps its depth.
    ///
    /// It isn't called for a directory that couldn't be listed, nor for one at the greatest depth. Where threads or a
    /// crew read, several of them may call it at the same time, each with a list of its own.
    ///
    /// # Errors
    ///
    /// If memory runs out, and for no other cause. After an error the list is dropped, with all that its reading gave.
    fn process(
        &self,
        depth: Option<usize>,
        path: &str,
        state: &mut C::ReadDirState,
        list: &mut List<C, A>,
    ) -> Result<(), AllocError>
        requires lawful { IsLawful self.now }
        requires fits { list_depth depth < 2 ^ 64 }
        requires depths { AtDepth (list_depth depth) (map item list.old.items) }
        ensures depths { OnOk result (AtDepth (list_depth depth) (map item list.new.items)) }
        ensures made { (g : _) → Makes self.now g
            → OnOk result (IsProcessed g depth path.now
            state.old (map item list.old.items) state.new (map item list.new.items)) }
        ensures root { KeepsRoot self.now → depth ≡ None
            → OnOk result (AddsErrors (map item list.old.items) (map item list.new.items)) };
}

/// The callback that changes nothing.
#[derive(Clone, Copy, Debug)]
pub struct NoProcess;

impl<C: ClientState, A: Allocator + Copy> ProcessReadDir<C, A> for NoProcess {
    ghost IsLawful = { λ _. Unit {0} };

    ghost Makes = { λ _ g. KeepsLists g.processed };

    ghost KeepsRoot = { λ _. Unit {0} };

    fn process(
        &self,
        _depth: Option<usize>,
        _path: &str,
        _state: &mut C::ReadDirState,
        _list: &mut List<C, A>,
    ) -> Result<(), AllocError>
        ensures never_refuses { IsOk result }
        ensures state { _state.new ≡ _state.old }
        ensures list { _list.new.items ≡ _list.old.items }
        ensures depths { AtDepth (list_depth _depth) (map item _list.old.items)
            → OnOk result (AtDepth (list_depth _depth) (map item _list.new.items)) }
        ensures made { (g : _) → KeepsLists (Given.processed g)
            → OnOk result (IsProcessed g _depth _path.now
            _state.old (map item _list.old.items) _state.new (map item _list.new.items)) }
        ensures root { AddsErrors (map item _list.old.items) (map item _list.new.items) }
    {
        Ok(())
    }
}
