//! The builder of a walk.
ghost use Rattle.std.specs.Prelude.{◌≡◌, ◌⊎◌, true, false, None, string_bytes, IfOk, IfErr};
ghost use Rattle.jwalk_model.specs.Error.{memory};
ghost use Rattle.jwalk_job.specs.Error.{failure};

mod added;
mod crew_start;
mod each;
mod handed;
mod over_crew;
mod states;
mod workers;

use jwalk_callbacks::by_fn::ByFn;
use jwalk_callbacks::calls::Closure;
use jwalk_fs::file_system::FileSystem;
use jwalk_iter::dir_entry_iter::DirEntryIter;
use jwalk_job::client_state::ClientState;
use jwalk_job::dir_entry::DirEntry;
use jwalk_job::error::Error;
use jwalk_job::item::Item;
use jwalk_job::job::Job;
use jwalk_job::options::Options;
use jwalk_job::process_read_dir::{NoProcess, ProcessReadDir};
use jwalk_readings::parallelism::Parallelism;
use jwalk_readings::readers::NoCrew;
use jwalk_real_fs::real_fs::RealFs;
use std::alloc::{AllocError, Allocator, Global};
use std::rt::{Files, HostRuntime};
use std::sync::Arc;
use std::time::Duration;

/// A walk that has not begun: a root in a file system, and options.
///
/// `C` is the pair of states that a user keeps beside directories and entries, `((), ())` for none. `S` is the file
/// system, `P` the callback (`NoProcess` for none), and `A` the allocator. `W` is the crew that reads ahead, `NoCrew`
/// for none.
pub struct WalkDirGeneric<C: ClientState, S, P, A: Allocator + Copy = Global, W = NoCrew> {
    fs: S,
    root: String<A>,
    process: P,
    options: Options,
    root_read_dir_state: C::ReadDirState,
    // The crew that reads ahead, and how long the walk blocks for a place of it.
    crew: Option<(Arc<W, A>, Option<Duration>)>,
}

impl<C: ClientState, S: Drop, P: Drop, A: Allocator + Copy, W: Drop> Drop
    for WalkDirGeneric<C, S, P, A, W> {
    fn drop(self) {
        let WalkDirGeneric {
            fs: _,
            root: _,
            process: _,
            options: _,
            root_read_dir_state: _,
            crew: _,
        } = self;
    }
}

/// A walk of the file system that a runtime reaches, without states beside directories and entries.
pub type WalkDir<R = HostRuntime, A = Global> = WalkDirGeneric<((), ()), RealFs<R>, NoProcess, A>;

impl<C: ClientState, S: FileSystem, A: Allocator + Copy> WalkDirGeneric<C, S, NoProcess, A> {
    ghost use Rattle.jwalk_model.specs.Options.{defaults};
    ghost use Rattle.jwalk.specs.WalkDir.{file_system_of, root_of, state_of, options_of};

    /// Returns a walk over a file system from a root, whose text is kept unchanged. All memory that the walk needs
    /// comes from the root's allocator.
    pub fn new(fs: S, root: String<A>) -> Self
        ensures file_system { file_system_of result ≡ fs }
        ensures root { root_of result ≡ string_bytes root }
        ensures options { options_of result ≡ defaults }
        ensures state { C.ReadDirState.is_default (state_of result) }
        ensures crew { result.crew ≡ None }
    {
        WalkDirGeneric::with_no_options(fs, root)
    }
}

impl<C: ClientState, S: FileSystem, A: Allocator + Copy, W: Drop> WalkDirGeneric<
    C,
    S,
    NoProcess,
    A,
    W,
> {
    ghost use Rattle.jwalk_model.specs.Options.{defaults};
    ghost use Rattle.jwalk.specs.WalkDir.{file_system_of, root_of, state_of, options_of};

    fn with_no_options(fs: S, root: String<A>) -> Self
        ensures file_system { file_system_of result ≡ fs }
        ensures root { root_of result ≡ string_bytes root }
        ensures options { options_of result ≡ defaults }
        ensures state { C.ReadDirState.is_default (state_of result) }
        ensures crew { result.crew ≡ None }
    {
        WalkDirGeneric {
            fs,
            root,
            process: NoProcess,
            options: Options::new(),
            root_read_dir_state: C::ReadDirState::default(),
            crew: None,
        }
    }
}

impl<R: Files + Alloc + Clone + Drop> WalkDirGeneric<((), ()), RealFs<R>, NoProcess, R::A>
where
    R::A: Copy,
{
    ghost use Rattle.jwalk_model.specs.Options.{defaults};
    ghost use Rattle.jwalk_real_fs.specs.RealFs.{runtime_of};
    ghost use Rattle.jwalk.specs.WalkDir.{file_system_of, root_of, options_of};

    /// Returns a walk of the file system that a runtime reaches, from a root: `WalkDir::at(&rt, "/usr")?`. It holds a
    /// clone of the runtime, so it can cross threads where the runtime can.
    ///
    /// # Errors
    ///
    /// If memory runs out.
    pub fn at(rt: &R, root: &str) -> Result<Self, AllocError>
        ensures file_system { IfOk result (λ walk. R.is_clone rt.now (runtime_of (file_system_of walk))) }
        ensures root { IfOk result (λ walk. root_of walk ≡ root.now) }
        ensures options { IfOk result (λ walk. options_of walk ≡ defaults) }
    {
        let root = String::from_str(rt.alloc(), root)?;
        Ok(WalkDirGeneric::new(RealFs::new(rt.clone()?), root))
    }
}

impl<
    C: ClientState,
    S: FileSystem,
    P: ProcessReadDir<C, A>,
    A: Allocator + Copy,
    W: Drop,
> WalkDirGeneric<C, S, P, A, W> {
    ghost use Rattle.jwalk_model.specs.Options.{with_sort, with_skip_hidden, with_follow_links, with_same_file_system, with_keep_metadata, with_min_depth, with_max_depth, with_parallelism};
    ghost use Rattle.jwalk_job.specs.Options.{options_value};
    ghost use Rattle.jwalk_readings.specs.Parallelism.{parallelism_value, crew_of};
    ghost use Rattle.jwalk.specs.WalkDir.{root_of, options_of, described, with_callback, Sets};

    /// Returns the root's path as it was given.
    pub fn root(&self) -> &str
        ensures { result.now ≡ root_of self.now }
    {
        self.root.as_str()
    }

    /// Sets whether the entries of a directory are sorted by the bytes of their names, with its errors last. Off by
    /// default: then they come in the file system's order.
    pub fn sort(mut self, sort: bool) -> Self
        ensures { Sets (record (described self) { options = with_sort sort (options_of self) }) result }
    {
        self.options = self.options.with_sort(sort);
        self
    }

    /// Sets whether names that start with a dot are left out. On by default. The root is never left out. A name whose
    /// type can't be read is yielded as an error, hidden or not.
    pub fn skip_hidden(mut self, skip_hidden: bool) -> Self
        ensures { Sets (record (described self) { options = with_skip_hidden skip_hidden (options_of self) }) result }
    {
        self.options = self.options.with_skip_hidden(skip_hidden);
        self
    }

    /// Sets whether links are followed: the entry then has the link's own path, and the type of what the link leads to.
    /// Off by default: links are yielded as links, and a root that is a link to a directory is still read.
    ///
    /// A link to a directory is a loop if that is a directory above it. A loop is yielded as an error that names the
    /// nearest such directory. They are told by device and inode: a directory above is the same if `metadata` of its
    /// path has those of what the link leads to. Only followed links are tested: a directory above that lies below a
    /// link under its own name is entered once more.
    ///
    /// Where these aren't known, as over a `MemoryFs`, the link's text decides. Joined to the path of the link's
    /// parent, it is the same place as a directory above (`path_text::same_place`). What the links on the way lead to
    /// isn't looked up. So a link may be called a loop that isn't one. If `/r/k` is a link to `/s/t`, and `/s/t/l` one
    /// to `..`, then `/r/k/l` is a loop on `/r`, though it leads to `/s`. And a loop that the texts don't show is
    /// followed until the greatest depth or the file system ends it, as that of a link in each of two directories to
    /// the other: `/r/a/l` to `../b`, and `/r/b/m` to `../a`.
    pub fn follow_links(mut self, follow_links: bool) -> Self
        ensures { Sets (record (described self) { options = with_follow_links follow_links (options_of self) }) result }
    {
        self.options = self.options.with_follow_links(follow_links);
        self
    }

    /// Sets whether the walk stays on one file system. Off by default. A directory that is known to be on another device
    /// than the directory it lies in is then yielded and not read (as by `find -xdev`). The root is always read, and
    /// so is what a file system knows no device of. Each directory that is read costs one more call of `metadata`.
    pub fn same_file_system(mut self, same_file_system: bool) -> Self
        ensures { Sets (record (described self) { options = with_same_file_system same_file_system (options_of self) }) result }
    {
        self.options = self.options.with_same_file_system(same_file_system);
        self
    }

    /// Sets whether an entry keeps the metadata that its type came with, for `DirEntry::metadata_seen`. Off by default.
    /// It costs memory, a block of 120 bytes for each entry, but no call of the file system.
    pub fn keep_metadata(mut self, keep_metadata: bool) -> Self
        ensures { Sets (record (described self) { options = with_keep_metadata keep_metadata (options_of self) }) result }
    {
        self.options = self.options.with_keep_metadata(keep_metadata);
        self
    }

    /// Sets the least depth of the entries that are yielded, 0 by default. It is lowered to the greatest depth if it is
    /// above that. Directories nearer to the root are still read, and errors are yielded whatever their depth.
    pub fn min_depth(mut self, depth: usize) -> Self
        ensures { Sets (record (described self) { options = with_min_depth depth (options_of self) }) result }
    {
        self.options = self.options.with_min_depth(depth);
        self
    }

    /// Sets the greatest depth of the entries that are yielded, the greatest `usize` by default. It is raised to the
    /// least depth if it is below that. A directory at this depth is yielded and not read. A depth below 2 makes the
    /// walk serial; a later `parallelism` overrides that.
    pub fn max_depth(mut self, depth: usize) -> Self
        ensures { Sets (record (described self) { options = with_max_depth depth (options_of self) }) result }
    {
        self.options = self.options.with_max_depth(depth);
        self
    }

    /// Sets all that `sort`, `skip_hidden`, `follow_links`, `same_file_system`, `keep_metadata`, `min_depth` and
    /// `max_depth` set, as these options have it. How directories are read stays as it was: a depth below 2 doesn't make
    /// the walk serial here.
    pub fn with_options(mut self, options: Options) -> Self
        ensures { Sets (record (described self) {
          options = with_parallelism (options_of self).parallelism (options_value options);
        }) result }
    {
        self.options = options.with_mode(self.options.mode());
        self
    }

    /// Sets how directories are read, one at a time by default. Over a file system that always returns the same it
    /// changes neither the answers nor their order, unless memory runs out or a crew is busy. It changes which
    /// directories have been read when an entry is yielded, and how fast the walk is.
    ///
    /// A crew's workers read ahead whichever call takes the answers. Several threads read a batch only if the answers
    /// are taken by `next_on` or `fill_on`: `while let Some(answer) = walk.next_on(&rt)` does so. A `for` loop,
    /// adapters and `for_each` call `Iterator::next`, which reads the same directories one after another.
    pub fn parallelism(mut self, parallelism: Parallelism<W, A>) -> Self
        ensures { Sets (record (described self) {
          options = with_parallelism (parallelism_value parallelism) (options_of self);
          crew = crew_of parallelism;
        }) result }
    {
        self.options = self.options.with_mode(parallelism.mode());
        self.crew = parallelism.into_crew();
        self
    }

    /// Sets the state with which the root's list begins, the default state by default. States are handed down the tree:
    /// each directory's reading begins with a clone of the state that the reading of its parent left.
    pub fn root_read_dir_state(mut self, state: C::ReadDirState) -> Self
        ensures { Sets (record (described self) { state = state }) result }
    {
        self.root_read_dir_state = state;
        self
    }

    /// Returns the same walk with this callback instead of its own: a second call replaces the first callback.
    ///
    /// `then` adds a callback behind the walk's own instead, as do `filter_entry`, `sort_by` and `sort_by_key`.
    ///
    /// The callback is called with each list before the walk goes on with it: the root's first, then that of each
    /// directory as it is read. The list is in its order, and links have been followed. It isn't called for a directory
    /// that couldn't be listed, nor for one at the greatest depth. Where threads or a crew read, several of them may
    /// call it at the same time. If the callback runs out of memory, the list is dropped, and the walk yields the error
    /// that reports it.
    pub fn process_read_dir<Q: ProcessReadDir<C, A>>(
        self,
        process: Q,
    ) -> WalkDirGeneric<C, S, Q, A, W>
        ensures { Sets (with_callback process (described self)) result }
    {
        let WalkDirGeneric {
            fs,
            root,
            process: _,
            options,
            root_read_dir_state,
            crew,
        } = self;
        WalkDirGeneric {
            fs,
            root,
            process,
            options,
            root_read_dir_state,
            crew,
        }
    }
}

impl<C: ClientState, S: FileSystem, P: ProcessReadDir<C, A>, A: Allocator + Copy> WalkDirGeneric<
    C,
    S,
    P,
    A,
    NoCrew,
> {
    ghost use Rattle.jwalk.specs.WalkDir.{callback_of, Starts, Holds, HoldsOne, HoldsRoot};
    ghost use Rattle.jwalk_iter.specs.DirEntryIter.{by_crew, is_refused, IsRefused};

    fn begin(self) -> DirEntryIter<C, S, P, A>
        requires { P.IsLawful (callback_of self) }
        ensures own { by_crew result ≡ false }
        ensures starts { Starts self result }
        ensures holds { is_refused result ≡ false
            → Holds S.FileSystem P.ProcessReadDir C.ReadDirState.Clone C.DirEntryState.Default self result }
        ensures refused { is_refused result ≡ true → IsRefused result }
        ensures one { HoldsOne P.ProcessReadDir self result }
        ensures root { HoldsRoot P.ProcessReadDir self result }
    {
        let alloc = *self.root.allocator();
        let WalkDirGeneric {
            fs,
            root,
            process,
            options,
            root_read_dir_state,
            crew: _,
        } = self;
        let job = Job::new(alloc, fs, process, options);
        let read = job.root_list(root.as_str(), root_read_dir_state);
        DirEntryIter::from_root(alloc, job, read.ok())
    }

    /// Begins the walk: makes its root's list, and reads no directory yet.
    ///
    /// # Errors
    ///
    /// An error whose `is_memory` is true, if memory runs out.
    pub fn try_into_iter(self) -> Result<DirEntryIter<C, S, P, A>, Error<A>>
        requires { P.IsLawful (callback_of self) }
        ensures own { IfOk result (λ walk. by_crew walk ≡ false) }
        ensures starts { IfOk result (Starts self) }
        ensures holds { IfOk result (Holds S.FileSystem P.ProcessReadDir C.ReadDirState.Clone
            C.DirEntryState.Default self) }
        ensures one { IfOk result (HoldsOne P.ProcessReadDir self) }
        ensures root { IfOk result (HoldsRoot P.ProcessReadDir self) }
        ensures memory { IfErr result (λ error. failure error ≡ memory) }
    {
        let walk = self.begin();
        if walk.is_refused() {
            return Err(Error::memory());
        }
        Ok(walk)
    }

    /// Begins the walk: makes its root's list, and reads no directory yet.
    ///
    /// If memory runs out, the iterator yields one error whose `is_memory` is true, and nothing else.
    pub fn into_iter(self) -> DirEntryIter<C, S, P, A>
        requires { P.IsLawful (callback_of self) }
        ensures own { by_crew result ≡ false }
        ensures starts { Starts self result }
        ensures holds { IsRefused result
            ⊎ Holds S.FileSystem P.ProcessReadDir C.ReadDirState.Clone C.DirEntryState.Default self result }
        ensures one { HoldsOne P.ProcessReadDir self result }
        ensures root { HoldsRoot P.ProcessReadDir self result }
    {
        self.begin()
    }
}

impl<C: ClientState, S: FileSystem, P: ProcessReadDir<C, Global>, W: Drop> WalkDirGeneric<
    C,
    S,
    P,
    Global,
    W,
> {
    ghost use Rattle.jwalk_callbacks.specs.ByFn.{closure_of};
    ghost use Rattle.jwalk.specs.WalkDir.{callback_of, described, with_callback, Sets};

    /// Returns the same walk with a closure instead of its own callback: a second call replaces the first callback. The
    /// closure's types need not be written.
    ///
    /// `then(ByFn::new(..))` adds a closure behind the walk's own callback instead.
    ///
    /// The closure is called with the depth and the path of a directory, the state and the list. It may change the
    /// state and the list. For the root's list the depth is `None`, and the path is the root's parent, or empty if the
    /// root's entry is an error. An entry whose depth it changes is dropped. It may fail only if memory runs out, and
    /// must be safe to call with whatever the walk finds.
    ///
    /// A walk over another allocator than `Global` takes `process_read_dir(ByFn::new(..))`.
    pub fn process_read_dir_by<
        F: Fn(
            Option<usize>,
            &str,
            &mut C::ReadDirState,
            &mut Vec<Result<DirEntry<C, Global>, Error<Global>>, Global>,
        ) -> Result<(), AllocError>
            + Drop,
    >(self, f: F) -> WalkDirGeneric<C, S, ByFn<Closure<F>>, Global, W>
        ensures closure { closure_of (callback_of result) ≡ f }
        ensures rest { Sets (with_callback (callback_of result) (described self)) result }
    {
        let WalkDirGeneric {
            fs,
            root,
            process: _,
            options,
            root_read_dir_state,
            crew,
        } = self;
        WalkDirGeneric {
            fs,
            root,
            process: ByFn::of(f),
            options,
            root_read_dir_state,
            crew,
        }
    }
}

impl<C: ClientState, S: FileSystem, A: Allocator + Copy> IntoIterator
    for WalkDirGeneric<C, S, NoProcess, A> {
    type Item = Item<C, A>;

    type IntoIter = DirEntryIter<C, S, NoProcess, A>;

    ghost use Rattle.jwalk.specs.Each.{BeginsAlone};

    ghost into_iter_gives = { BeginsAlone S.FileSystem ⟦<NoProcess as ProcessReadDir<C, A>>⟧ C.ReadDirState.Clone
        C.DirEntryState.Default };

    fn into_iter(self) -> DirEntryIter<C, S, NoProcess, A> {
        WalkDirGeneric::<C, S, NoProcess, A, NoCrew>::into_iter(self)
    }
}
