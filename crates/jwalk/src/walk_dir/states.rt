//! Walks with states of other types beside directories and entries.

use crate::walk_dir::WalkDirGeneric;
use jwalk_fs::file_system::FileSystem;
use jwalk_job::client_state::ClientState;
use jwalk_job::process_read_dir::NoProcess;
use std::alloc::Allocator;
use std::fmt::Debug;

impl<C: ClientState, S: FileSystem, A: Allocator + Copy, W: Drop> WalkDirGeneric<
    C,
    S,
    NoProcess,
    A,
    W,
> {
    ghost use Rattle.jwalk.specs.WalkDir.{state_of, described, with_state, Sets};

    /// Returns the same walk with states of these types beside directories and entries: `walk.states::<usize, u64>()`.
    /// The root's list begins with the default of `B`, and a state that was set before is dropped. A callback is set
    /// afterwards, since it is one for its states.
    pub fn states<B: Clone + Default + Debug + Drop, E: Default + Debug + Drop>(
        self,
    ) -> WalkDirGeneric<(B, E), S, NoProcess, A, W>
        ensures state { B.is_default (state_of result) }
        ensures rest { Sets (with_state (state_of result) (described self)) result }
    {
        let WalkDirGeneric {
            fs,
            root,
            process: _,
            options,
            root_read_dir_state: _,
            crew,
        } = self;
        WalkDirGeneric {
            fs,
            root,
            process: NoProcess,
            options,
            root_read_dir_state: B::default(),
            crew,
        }
    }
}
