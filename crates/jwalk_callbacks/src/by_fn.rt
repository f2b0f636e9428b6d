//! A closure as a callback.
ghost use Rattle.std.specs.Prelude.{◌≡◌, ◌<◌, ◌^◌, filter};
ghost use Rattle.jwalk_model.specs.ReadDir.{list_depth};
ghost use Rattle.jwalk_job.specs.Entry.{item};
ghost use Rattle.jwalk_callbacks.specs.ByFn.{is_at};

use crate::calls::{Calls, Closure};
use jwalk_job::client_state::ClientState;
use jwalk_job::item::{Item, List};
use jwalk_job::process_read_dir::ProcessReadDir;
use std::alloc::{AllocError, Allocator};

/// A closure as a callback: it is called with each list, and an entry whose depth it changed is dropped. Its user must
/// ensure that it may always be called, and no more.
#[derive(Drop)]
pub struct ByFn<K> {
    call: K,
}

impl<F> ByFn<Closure<F>> {
    ghost use Rattle.jwalk_callbacks.specs.ByFn.{closure_of};

    /// Returns the callback that calls this closure. The types of the closure's arguments may be written or left out.
    /// Its list may have any allocator.
    pub fn new<R, L>(f: F) -> Self
    where
        F: Fn(Option<usize>, &str, &mut R, &mut L) -> Result<(), AllocError>,
        ensures { closure_of result ≡ f }
    {
        ByFn::of(f)
    }

    /// Returns the same callback, if the types of the closure's arguments are known from elsewhere.
    pub fn of(f: F) -> Self
        ensures { closure_of result ≡ f }
    {
        ByFn {
            call: Closure::new(f),
        }
    }
}

/// Returns the depth of the entries of a directory of this depth, or of the root.
fn depth_below(depth: Option<usize>) -> usize
    requires { list_depth depth < 2 ^ 64 }
    ensures { result ≡ list_depth depth }
{
    match depth {
        Some(depth) => depth + 1,
        None => 0,
    }
}

/// Returns whether an item is an error or an entry at this depth.
fn stands_at<C: ClientState, A: Allocator + Copy>(depth: usize, found: &Item<C, A>) -> bool
    ensures { result ≡ is_at depth (item found.now) }
{
    match found {
        Ok(entry) => entry.depth == depth,
        Err(_) => true,
    }
}

fn keep_depth<C: ClientState, A: Allocator + Copy>(list: &mut List<C, A>, depth: usize)
    ensures { list.new.items ≡ filter (λ x. is_at depth (item x)) list.old.items }
{
    list.retain(|found| stands_at(depth, found));
}

impl<C: ClientState, A: Allocator + Copy, K: Calls<C::ReadDirState, List<C, A>>> ProcessReadDir<
    C,
    A,
> for ByFn<K> {
    ghost use Rattle.std.specs.Prelude.{map, OnOk};
    ghost use Rattle.jwalk_model.specs.Entry.{AtDepth};
    ghost use Rattle.jwalk_job.specs.Given.{IsProcessed};
    ghost use Rattle.jwalk_callbacks.specs.ByFn.{Keeps, MakesBy, call_of};

    ghost IsLawful = { λ s. K.IsCallable (call_of s) };

    ghost Makes = { λ s. MakesBy (λ l. map item l.items) (K.gives (call_of s)) };

    fn process(
        &self,
        depth: Option<usize>,
        path: &str,
        state: &mut C::ReadDirState,
        list: &mut List<C, A>,
    ) -> Result<(), AllocError>
        requires lawful { K.IsCallable (call_of self.now) }
        requires fits { list_depth depth < 2 ^ 64 }
        requires depths { AtDepth (list_depth depth) (map item list.old.items) }
        ensures depths { AtDepth (list_depth depth) (map item list.new.items) }
        ensures made { (g : _) → MakesBy (λ l. map item l.items) (K.gives (call_of self.now)) g
            → OnOk result (IsProcessed g depth path.now
            state.old (map item list.old.items) state.new (map item list.new.items)) }
        ensures answers { (left : _) × K.gives (call_of self.now) depth path.now
            state.old list.old result state.new left
            × Keeps item (list_depth depth) left.items list.new.items }
    {
        let own = depth_below(depth);
        let answer = self.call.call(depth, path, state, list);
        keep_depth(list, own);
        answer
    }
}
