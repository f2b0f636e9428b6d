//! A directory to be read.
ghost use Rattle.std.specs.Prelude.{◌≡◌, ◌↔◌, IsTrue, IfOk, map, unwrap_or, option_to_list};
ghost use Rattle.jwalk_model.specs.ReadDir.{spec_of, AreClones};
ghost use Rattle.jwalk_job.specs.Ancestors.{texts};
ghost use Rattle.jwalk_job.specs.Entry.{item};
ghost use Rattle.jwalk_job.specs.ReadDirSpec.{spec};

use crate::ancestors::Ancestors;
use crate::client_state::ClientState;
use crate::item::Item;
use std::alloc::{AllocError, Allocator, Global};
use std::sync::Arc;

/// Which directory to read, and with which state to begin.
pub struct ReadDirSpec<C: ClientState, A: Allocator + Copy = Global> {
    pub(crate) depth: usize,
    ancestors: Ancestors<A>,
    /// The path of the directory.
    pub path: Arc<String<A>, A>,
    /// The state that its reading begins with.
    pub client_read_state: C::ReadDirState,
}

impl<C: ClientState, A: Allocator + Copy> Drop for ReadDirSpec<C, A> {
    fn drop(self) {
        let ReadDirSpec {
            depth: _,
            ancestors: _,
            path: _,
            client_read_state: _,
        } = self;
    }
}

fn first_state<C: ClientState>(
    own: &Option<C::ReadDirState>,
    parent: &C::ReadDirState,
) -> Result<C::ReadDirState, AllocError>
    ensures { IfOk result (C.ReadDirState.is_clone (unwrap_or own.now parent.now)) }
{
    match own {
        Some(own) => Ok(own.clone()?),
        None => Ok(parent.clone()?),
    }
}

impl<C: ClientState, A: Allocator + Copy> ReadDirSpec<C, A> {
    /// Returns the depth of the directory below the root, which has depth 0.
    pub fn depth(&self) -> usize
        ensures { result ≡ (spec self.now).depth }
    {
        self.depth
    }

    /// Returns the directories above it, empty if links aren't followed. The root has its own path there.
    pub fn ancestors(&self) -> &Ancestors<A>
        ensures { texts result.now ≡ (spec self.now).ancestors }
    {
        &self.ancestors
    }

    /// Returns whether it is the directory at a depth and a path, below these ancestors.
    pub fn is_directory(&self, depth: usize, path: &str, ancestors: &Ancestors<A>) -> bool
        ensures { IsTrue result ↔ ((spec self.now).directory
            ≡ record { depth = depth; path = path.now; ancestors = texts ancestors.now }) }
    {
        self.path.as_str() == path && self.depth == depth && self.ancestors.is_same(ancestors)
    }

    pub(crate) fn of_item(
        state: &C::ReadDirState,
        found: &Item<C, A>,
    ) -> Result<Option<Self>, AllocError>
        ensures { IfOk result (λ o. AreClones C.ReadDirState.is_clone
            (option_to_list (spec_of state.now (item found.now))) (map spec (option_to_list o))) }
    {
        let Ok(entry) = found else {
            return Ok(None);
        };
        let Some(children) = &entry.read_children else {
            return Ok(None);
        };
        Ok(Some(ReadDirSpec {
            depth: entry.depth,
            ancestors: entry.ancestors.share()?,
            path: children.path.clone()?,
            client_read_state: first_state::<C>(&children.client_read_state, state)?,
        }))
    }
}

/// A clone has a clone of the state and shares the paths. Cloning fails only if memory runs out, or if the state's own
/// clone fails.
impl<C: ClientState, A: Allocator + Copy> Clone for ReadDirSpec<C, A> {
    ghost use Rattle.jwalk_model.specs.ReadDir.{IsClone};

    ghost is_clone = { λ old new. IsClone C.ReadDirState.is_clone (spec old) (spec new) };

    fn clone(&self) -> Result<Self, AllocError> {
        Ok(ReadDirSpec {
            depth: self.depth,
            ancestors: self.ancestors.share()?,
            path: self.path.clone()?,
            client_read_state: self.client_read_state.clone()?,
        })
    }
}
