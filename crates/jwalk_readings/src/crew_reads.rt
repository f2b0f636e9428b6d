//! Readings that a crew makes ahead.
ghost use Rattle.std.specs.Prelude.{◌≡◌, ◌≢◌, ◌≤◌, ◌↔◌, ◌++◌, true, false, IsTrue, Ok, [], drop, length, map, IfOk, IfErr, MatchResult, OnErr, OnOk, option_map};
ghost use Rattle.std.specs.Arc.{arc_value};
ghost use Rattle.jwalk_model.specs.ReadDir.{children_of};
ghost use Rattle.jwalk_order.specs.Frontier.{passed};
ghost use Rattle.jwalk_job.specs.Error.{failure};
ghost use Rattle.jwalk_job.specs.Entry.{entry};
ghost use Rattle.jwalk_job.specs.ReadDirSpec.{spec};
ghost use Rattle.jwalk_job.specs.ReadDir.{outcome};
ghost use Rattle.jwalk_readings.specs.Reads.{StacksChildren};
ghost use Rattle.jwalk_readings.specs.BatchReads.{PassesAddress};
ghost use Rattle.jwalk_readings.specs.CrewReads.{job_of, to_read, frontier_of, next_address, IsBelow, IsNextBelow, IsTold, BeginsBy, NotLost, most_ahead, CountsAhead, IsSteadyBefore, IsSteadyCrew, StartsSteady, StaysSteady, ReadsSteadily, IsReportedFor, IsGivenFor, StaysSteadyAfter, IsNotLostFirst, failure_of};
ghost use Rattle.jwalk_readings.specs.Sources.{CrewReadsNext};

pub mod started;

use crate::readers::{Missed, NoCrew, Readers};
use crate::wanted::Wanted;
use jwalk_fs::file_system::FileSystem;
use jwalk_job::client_state::ClientState;
use jwalk_job::dir_entry::DirEntry;
use jwalk_job::error::Error;
use jwalk_job::job::Job;
use jwalk_job::process_read_dir::ProcessReadDir;
use jwalk_job::read_dir::{Outcome, directories_of};
use jwalk_job::read_dir_spec::ReadDirSpec;
use jwalk_order::ordered::Ordered;
use jwalk_order::ordered_queue::OrderedMatcher;
use std::alloc::{AllocError, AllocFailed, Allocator, Global};
use std::sync::Arc;

/// Readings in preorder, which a crew makes ahead. It keeps which address comes next, and which directory is there.
/// Only a reading of this directory, made by the same options, is handed on.
pub struct CrewReads<C: ClientState, S, P, A: Allocator + Copy = Global, L = NoCrew> {
    job: Arc<Job<C, S, P, A>, A>,
    matcher: OrderedMatcher<A>,
    // The directories whose readings are still to be handed on, the next one last.
    unread: Vec<ReadDirSpec<C, A>, A>,
    // None before the readings begin, and after they were stopped.
    readers: Option<L>,
}

impl<C: ClientState, S: Drop, P: Drop, A: Allocator + Copy, L: Drop> Drop
    for CrewReads<C, S, P, A, L> {
    fn drop(self) {
        let CrewReads {
            job: _,
            matcher: _,
            unread: _,
            readers: _,
        } = self;
    }
}

/// Returns the error that reports why a reading didn't come.
pub fn error_of<A: Allocator + Copy>(missed: Missed) -> Error<A>
    ensures { failure result ≡ failure_of missed }
{
    match missed {
        Missed::Memory => Error::memory(),
        Missed::Lost => Error::lost(),
    }
}

fn is_below<C: ClientState, A: Allocator + Copy>(
    of: &ReadDirSpec<C, A>,
    found: &DirEntry<C, A>,
) -> bool
    ensures { IsTrue result ↔ IsBelow (Ok (entry found.now)) (spec of.now) }
{
    let Some(children) = &found.read_children else {
        return false;
    };
    of.is_directory(found.depth, children.path(), found.ancestors())
}

impl<
    C: ClientState,
    S: FileSystem,
    P: ProcessReadDir<C, A>,
    A: Allocator + Copy,
    L: Readers<C, S, P, A>,
> CrewReads<C, S, P, A, L> {
    /// Returns readings of a crew with nothing to read yet. If memory runs out, the job is given back.
    pub fn new(alloc: A, job: Job<C, S, P, A>) -> Result<Self, Job<C, S, P, A>>
        ensures made { MatchResult result
            (λ reads. (job_of reads ≡ job) × (to_read reads ≡ []))
            (λ back. back ≡ job) }
        ensures most { IfOk result (λ reads. most_ahead L.Readers reads ≡ 0) }
        ensures steady { IfOk result (StartsSteady S.FileSystem P.ProcessReadDir C.ReadDirState.Clone
            C.DirEntryState.Default L.Readers) }
    {
        let Ok(matcher) = OrderedMatcher::with_roots(alloc, 0) else {
            return Err(job);
        };
        match Arc::new(alloc, job) {
            Ok(job) => Ok(CrewReads {
                job,
                matcher,
                unread: Vec::new(alloc),
                readers: None,
            }),
            Err(AllocFailed { value }) => Err(value),
        }
    }

    pub(crate) fn over(
        job: Arc<Job<C, S, P, A>, A>,
        mut roots: Vec<ReadDirSpec<C, A>, A>,
        readers: L,
    ) -> Result<Self, AllocError>
        ensures job { IfOk result (λ reads. job_of reads ≡ arc_value job) }
        ensures to_read { IfOk result (λ reads. to_read reads ≡ map spec roots.items) }
        ensures begins { IfOk result (BeginsBy (λ given origin addresses. given ≡ readers)) }
        ensures most { IfOk result (λ reads. most_ahead L.Readers reads ≡ L.most readers) }
    {
        let matcher = OrderedMatcher::with_roots(*roots.allocator(), roots.len())?;
        roots.reverse();
        Ok(CrewReads {
            job,
            matcher,
            unread: roots,
            readers: Some(readers),
        })
    }

    pub(crate) fn job(&self) -> &Job<C, S, P, A>
        ensures { result.now ≡ job_of self.now }
    {
        &*self.job
    }

    pub(crate) fn is_next(&self, found: &DirEntry<C, A>) -> bool
        ensures some { result ≡ false → to_read self.now ≢ [] }
        ensures below { result ≡ true → IsNextBelow true (Ok (entry found.now)) (to_read self.now) }
        ensures other { result ≡ false → ¬ IsNextBelow true (Ok (entry found.now)) (to_read self.now) }
    {
        match self.unread.last() {
            Some(of) => is_below(of, found),
            None => true,
        }
    }

    /// Returns the reading of the directory that comes next, and how many directories are in it by its message.
    fn read(&mut self, of: &ReadDirSpec<C, A>) -> Result<(Outcome<C, A>, usize), Missed>
        ensures job { job_of self.new ≡ job_of self.old }
        ensures to_read { to_read self.new ≡ to_read self.old }
        ensures most { most_ahead L.Readers self.new ≡ most_ahead L.Readers self.old }
        ensures told { IfOk result (λ read. IsTold S.FileSystem P.ProcessReadDir C.ReadDirState.Clone
            C.DirEntryState.Default (job_of self.old) (next_address self.old) (spec of.now) (outcome read.0)) }
        ensures passed { IfOk result (λ read. frontier_of self.new ≡ passed (frontier_of self.old) read.1) }
        ensures steadily { IfOk result (λ read. ReadsSteadily S.FileSystem P.ProcessReadDir C.ReadDirState.Clone
            C.DirEntryState.Default L.Readers self.old (spec of.now) (outcome read.0) read.1 self.new) }
        ensures comes { IsNotLostFirst S.FileSystem P.ProcessReadDir C.ReadDirState.Clone C.DirEntryState.Default
            L.Readers self.old (spec of.now) result }
    {
        let Some(readers) = &mut self.readers else {
            return Err(Missed::Lost);
        };
        if self.matcher.is_none() {
            return Err(Missed::Lost);
        }
        let address = self.matcher.looking_for().try_clone()?;
        let wanted = Wanted::of(address, of, self.job.options())?;
        let item = readers.next(&wanted)?;
        self.matcher.advance_past(&item)?;
        let count = item.child_count();
        let Ordered { value: message, .. } = item;
        Ok((message.into_outcome()?, count))
    }

    fn put_in_front(&mut self, mut specs: Vec<ReadDirSpec<C, A>, A>) -> Result<(), AllocError>
        ensures others { self.new ≡ record self.old { unread = self.new.unread } }
        ensures to_read { OnOk result (to_read self.new ≡ map spec specs.items ++ to_read self.old) }
    {
        specs.reverse();
        self.unread.append(&mut specs)?;
        Ok(())
    }

    /// The reading is lost where its message has another count than the number of directories in it.
    fn enter(&mut self, of: ReadDirSpec<C, A>) -> Result<Outcome<C, A>, Missed>
        ensures job { job_of self.new ≡ job_of self.old }
        ensures most { most_ahead L.Readers self.new ≡ most_ahead L.Readers self.old }
        ensures reading { IfOk result (λ read. IsReportedFor S.FileSystem P.ProcessReadDir C.ReadDirState.Clone
            C.DirEntryState.Default L.Readers self.old (spec of) (outcome read)) }
        ensures stacks { IfOk result (λ read. StacksChildren C.ReadDirState.is_clone (to_read self.old)
            (outcome read) (to_read self.new)) }
        ensures passes { IfOk result (λ read. frontier_of self.new
            ≡ passed (frontier_of self.old) (length (children_of (outcome read)))) }
        ensures value { IfOk result (λ read. IsGivenFor S.FileSystem P.ProcessReadDir C.ReadDirState.Clone
            C.DirEntryState.Default L.Readers self.old (spec of) (outcome read)) }
        ensures steady { OnOk result (StaysSteadyAfter S.FileSystem P.ProcessReadDir C.ReadDirState.Clone
            C.DirEntryState.Default L.Readers self.old (spec of) self.new) }
        ensures comes { IfErr result (NotLost (IsSteadyBefore S.FileSystem P.ProcessReadDir C.ReadDirState.Clone
            C.DirEntryState.Default L.Readers self.old (spec of))) }
    {
        let (outcome, count) = self.read(&of)?;
        let below = directories_of(*of.path.allocator(), &outcome)?;
        if below.len() != count {
            return Err(Missed::Lost);
        }
        self.put_in_front(below)?;
        Ok(outcome)
    }

    pub(crate) fn read_next(&mut self) -> Result<Option<Outcome<C, A>>, Missed>
        ensures job { job_of self.new ≡ job_of self.old }
        ensures comes { IfErr result (NotLost (IsSteadyCrew S.FileSystem P.ProcessReadDir C.ReadDirState.Clone
            C.DirEntryState.Default L.Readers self.old)) }
        ensures some { OnErr result (to_read self.old ≢ []) }
        ensures stopped { OnErr result (to_read self.new ≡ []) }
        ensures most { most_ahead L.Readers self.new ≤ most_ahead L.Readers self.old }
        ensures steady { StaysSteady S.FileSystem P.ProcessReadDir C.ReadDirState.Clone C.DirEntryState.Default
            L.Readers self.old self.new }
        ensures next { IfOk result (λ o. CrewReadsNext S.FileSystem P.ProcessReadDir C.ReadDirState.Clone
            C.DirEntryState.Default L.Readers self.old (option_map outcome o) self.new) }
        ensures passes { IfOk result (λ o. PassesAddress (frontier_of self.old) (option_map outcome o)
            (frontier_of self.new)) }
    {
        let Some(of) = self.unread.pop() else {
            return Ok(None);
        };
        match self.enter(of) {
            Ok(outcome) => Ok(Some(outcome)),
            Err(missed) => {
                self.stop();
                Err(missed)
            }
        }
    }

    /// Passes the address that comes next, here and by the readers, as one without directories in it.
    fn pass_address(&mut self) -> Result<(), AllocError>
        ensures job { job_of self.new ≡ job_of self.old }
        ensures to_read { to_read self.new ≡ to_read self.old }
        ensures most { most_ahead L.Readers self.new ≡ most_ahead L.Readers self.old }
        ensures steady { OnOk result ((first : _) → StaysSteadyAfter S.FileSystem P.ProcessReadDir
            C.ReadDirState.Clone C.DirEntryState.Default L.Readers self.old first self.new) }
    {
        let Some(readers) = &mut self.readers else {
            return Ok(());
        };
        readers.skip()?;
        if !self.matcher.is_none() {
            self.matcher.go_on();
        }
        Ok(())
    }

    /// Passes over the directory that comes next and all that is below it, if any is left.
    pub(crate) fn skip_next(&mut self) -> Result<(), AllocError>
        ensures job { job_of self.new ≡ job_of self.old }
        ensures to_read { OnOk result (to_read self.new ≡ drop 1 (to_read self.old)) }
        ensures stopped { OnErr result (to_read self.new ≡ []) }
        ensures most { most_ahead L.Readers self.new ≤ most_ahead L.Readers self.old }
        ensures steady { StaysSteady S.FileSystem P.ProcessReadDir C.ReadDirState.Clone C.DirEntryState.Default
            L.Readers self.old self.new }
    {
        let Some(_of) = self.unread.pop() else {
            return Ok(());
        };
        match self.pass_address() {
            Ok(()) => Ok(()),
            Err(refused) => {
                self.stop();
                Err(refused)
            }
        }
    }

    /// Returns how many readings were made and not handed on.
    pub(crate) fn ahead(&self) -> usize
        ensures counted { CountsAhead L.Readers self.now result }
        ensures most { result ≤ most_ahead L.Readers self.now }
    {
        match &self.readers {
            Some(readers) => readers.ahead(),
            None => 0,
        }
    }

    /// Ends the readings: none is left, and the workers end.
    pub(crate) fn stop(&mut self)
        ensures job { job_of self.new ≡ job_of self.old }
        ensures to_read { to_read self.new ≡ [] }
        ensures most { most_ahead L.Readers self.new ≡ 0 }
        ensures steady { StartsSteady S.FileSystem P.ProcessReadDir C.ReadDirState.Clone C.DirEntryState.Default
            L.Readers self.new }
    {
        self.unread.clear();
        self.readers = None;
    }
}
