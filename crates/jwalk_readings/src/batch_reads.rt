//! Readings of directories in preorder, made in batches.
ghost use Rattle.std.specs.Prelude.{◌≡◌, ◌≢◌, ◌≤◌, ◌+◌, [], drop, length, map, option_map, IfOk, OnOk, OnErr};
ghost use Rattle.jwalk_order.specs.Frontier.{passed};
ghost use Rattle.jwalk_job.specs.ReadDirSpec.{spec};
ghost use Rattle.jwalk_job.specs.ReadDir.{outcome};
ghost use Rattle.jwalk_job.specs.Job.{callback};
ghost use Rattle.jwalk_readings.specs.Reads.{ReadsNext};
ghost use Rattle.jwalk_readings.specs.ReadAhead.{nothing_ahead, BeginsWith, EntersNext};

use jwalk_fs::file_system::FileSystem;
use jwalk_job::client_state::ClientState;
use jwalk_job::job::Job;
use jwalk_job::process_read_dir::ProcessReadDir;
use jwalk_job::read_dir::Outcome;
use jwalk_job::read_dir_spec::ReadDirSpec;
use std::alloc::{AllocError, Allocator, Global};
use std::marker::Model;
use std::thread::Threads;
use tree_walk::board_walk::BoardWalk;

/// Readings in preorder: a directory's, and then those of all that is below it. Up to `width` directories are read
/// together, when a reading is asked for that isn't made yet.
pub struct BatchReads<C: ClientState, S, P, A: Allocator + Copy = Global> {
    walk: BoardWalk<ReadDirSpec<C, A>, Outcome<C, A>, Job<C, S, P, A>, A>,
}

impl<C: ClientState, S: Drop, P: Drop, A: Allocator + Copy> Drop for BatchReads<C, S, P, A> {
    fn drop(self) {
        let BatchReads { walk: _ } = self;
    }
}

impl<C: ClientState, S, P, A: Allocator + Copy> Model for BatchReads<C, S, P, A> {
    ghost use Rattle.std.specs.Prelude.{All};
    ghost use Rattle.jwalk_readings.specs.Reads.{IsMade};
    ghost use Rattle.jwalk_readings.specs.BatchReads.{BatchReads as State, early_on};

    ghost Value = { State C S P A C.ReadDirState C.DirEntryState };

    ghost view = { λ w. record { job = w.walk.plan; width = w.walk.width; board = w.walk.board } };

    ghost invariant = { λ w. All (IsMade C.ReadDirState.Clone w.walk.plan) (early_on w.walk.board) };
}

impl<C: ClientState, S: FileSystem, P: ProcessReadDir<C, A>, A: Allocator + Copy> BatchReads<
    C,
    S,
    P,
    A,
> {
    ghost use Rattle.jwalk_readings.specs.BatchReads.{to_read, early_of, read_ahead, frontier_of, next_of, PassesAddress, IsSteadyBatches, StaysSteady};

    pub(crate) fn new(alloc: A, job: Job<C, S, P, A>, width: usize) -> Self
        requires { 1 ≤ width }
        ensures job { result.job ≡ job }
        ensures width { result.width ≡ width }
        ensures to_read { to_read result ≡ [] }
        ensures early { early_of result ≡ [] }
        ensures read_ahead { read_ahead result ≡ nothing_ahead }
        ensures frontier { frontier_of result ≡ [] }
    {
        BatchReads {
            walk: BoardWalk::new(alloc, job, width),
        }
    }

    pub(crate) fn begin(&mut self, roots: Vec<ReadDirSpec<C, A>, A>) -> Result<(), AllocError>
        ensures job { self.new.job ≡ self.old.job }
        ensures width { self.new.width ≡ self.old.width }
        ensures to_read { OnOk result (to_read self.new ≡ map spec roots.items) }
        ensures early { early_of self.new ≡ [] }
        ensures read_ahead { OnOk result (BeginsWith (map spec roots.items) (frontier_of self.new)
            (read_ahead self.new)) }
        ensures stopped { OnErr result (to_read self.new ≡ []) }
        ensures nothing_ahead { OnErr result (read_ahead self.new ≡ nothing_ahead) }
    {
        self.walk.begin(roots)
    }

    /// Returns readings of these directories and what is below them, that many together.
    ///
    /// # Errors
    ///
    /// If memory runs out.
    pub fn try_new(
        alloc: A,
        job: Job<C, S, P, A>,
        roots: Vec<ReadDirSpec<C, A>, A>,
        width: usize,
    ) -> Result<Self, AllocError>
        requires { 1 ≤ width }
        ensures job { IfOk result (λ reads. reads.job ≡ job) }
        ensures width { IfOk result (λ reads. reads.width ≡ width) }
        ensures to_read { IfOk result (λ reads. to_read reads ≡ map spec roots.items) }
        ensures early { IfOk result (λ reads. early_of reads ≡ []) }
        ensures read_ahead { IfOk result (λ reads. BeginsWith (map spec roots.items) (frontier_of reads)
            (read_ahead reads)) }
    {
        let mut reads = BatchReads::new(alloc, job, width);
        reads.begin(roots)?;
        Ok(reads)
    }

    pub(crate) fn job(&self) -> &Job<C, S, P, A>
        ensures { result.now ≡ self.now.job }
    {
        self.walk.plan()
    }

    /// Returns the next reading, or none if nothing is left to be read. If it isn't made yet, the least of the unread
    /// directories are read first, up to the width, one after another.
    ///
    /// # Errors
    ///
    /// If memory runs out. Then nothing is left to be read.
    pub fn read_next(&mut self) -> Result<Option<Outcome<C, A>>, AllocError>
        requires { P.IsLawful (callback self.old.job) }
        ensures job { self.new.job ≡ self.old.job }
        ensures width { self.new.width ≡ self.old.width }
        ensures ahead { length (early_of self.new) + 1 ≤ length (early_of self.old) + self.old.width }
        ensures stopped { OnErr result (to_read self.new ≡ []) }
        ensures nothing_ahead { OnErr result (read_ahead self.new ≡ nothing_ahead) }
        ensures some { OnErr result (to_read self.old ≢ []) }
        ensures steady { StaysSteady S.FileSystem P.ProcessReadDir C.ReadDirState.Clone C.DirEntryState.Default
            self.old self.new }
        ensures next { IfOk result (λ o. ReadsNext S.FileSystem C.ReadDirState.Clone
            (IsSteadyBatches S.FileSystem P.ProcessReadDir C.ReadDirState.Clone C.DirEntryState.Default self.old)
            self.old.job (to_read self.old) (option_map outcome o) (to_read self.new)) }
        ensures enters { IfOk result (λ o. EntersNext S.FileSystem P.ProcessReadDir C.ReadDirState.Clone
            C.DirEntryState.Default self.old.job self.old.width (next_of self.old) (read_ahead self.old)
            (option_map outcome o) (read_ahead self.new)) }
        ensures passes { IfOk result (λ o. PassesAddress (frontier_of self.old) (option_map outcome o)
            (frontier_of self.new)) }
    {
        self.walk.read_next()
    }

    /// Passes over the directory that comes next and all that is below it, if any is left. Nothing is read.
    pub(crate) fn skip_next(&mut self)
        ensures job { self.new.job ≡ self.old.job }
        ensures width { self.new.width ≡ self.old.width }
        ensures to_read { to_read self.new ≡ drop 1 (to_read self.old) }
        ensures done { length (read_ahead self.new).done ≤ length (read_ahead self.old).done }
        ensures frontier { frontier_of self.new ≡ passed (frontier_of self.old) 0 }
        ensures steady { StaysSteady S.FileSystem P.ProcessReadDir C.ReadDirState.Clone C.DirEntryState.Default
            self.old self.new }
    {
        self.walk.skip_next();
    }

    /// Returns how many readings were made and not handed on.
    pub fn ahead(&self) -> usize
        ensures early { result ≡ length (early_of self.now) }
        ensures done { result ≡ length (read_ahead self.now).done }
    {
        self.walk.ahead()
    }

    pub(crate) fn stop(&mut self)
        ensures job { self.new.job ≡ self.old.job }
        ensures width { self.new.width ≡ self.old.width }
        ensures to_read { to_read self.new ≡ [] }
        ensures early { early_of self.new ≡ [] }
        ensures read_ahead { read_ahead self.new ≡ nothing_ahead }
        ensures frontier { frontier_of self.new ≡ [] }
        ensures steady { StaysSteady S.FileSystem P.ProcessReadDir C.ReadDirState.Clone C.DirEntryState.Default
            self.old self.new }
    {
        self.walk.stop();
    }
}

impl<
    C: ClientState + Send,
    S: FileSystem + Send + Sync,
    P: ProcessReadDir<C, A> + Send + Sync,
    A: Allocator + Copy + Send + Sync,
> BatchReads<C, S, P, A>
where
    C::ReadDirState: Send,
    C::DirEntryState: Send,
{
    ghost use Rattle.std.specs.Prelude.{◌⊎◌};
    ghost use Rattle.jwalk_order.specs.Addresses.{IsAmong};
    ghost use Rattle.jwalk_readings.specs.BatchReads.{to_read, read_ahead, next_of, StaysSteady, ReadsForNext};

    /// Makes sure that the next reading is made, if any is left. If it isn't made yet, the least of the unread directories
    /// are read, up to the width, on several threads if there are enough of them to be worth it. The call of
    /// [`read_next`](BatchReads::read_next) that follows then reads nothing.
    ///
    /// # Errors
    ///
    /// If memory runs out. Then nothing is left to be read.
    pub fn prepare_on<R: Threads + Sync>(&mut self, rt: &R) -> Result<(), AllocError>
        requires { P.IsLawful (callback self.old.job) }
        ensures job { self.new.job ≡ self.old.job }
        ensures width { self.new.width ≡ self.old.width }
        ensures wide { 1 ≤ self.old.width }
        ensures stopped { OnErr result (to_read self.new ≡ []) }
        ensures nothing_ahead { OnErr result (read_ahead self.new ≡ nothing_ahead) }
        ensures some { OnErr result (to_read self.old ≢ []) }
        ensures steady { StaysSteady S.FileSystem P.ProcessReadDir C.ReadDirState.Clone C.DirEntryState.Default
            self.old self.new }
        ensures prepared { OnOk result ((self.new ≡ self.old) ⊎ ReadsForNext S.FileSystem P.ProcessReadDir
            C.ReadDirState.Clone C.DirEntryState.Default self.old self.new) }
        ensures ready { OnOk result ((to_read self.new ≡ [])
            ⊎ IsAmong (next_of self.new) (read_ahead self.new).done) }
    {
        self.walk.prepare_on(rt)
    }
}
