//! The start of a walk over a crew.
ghost use Rattle.std.specs.Prelude.{◌≡◌, ◌≤◌, ◌⊎◌, ◌+◌, max, true, [], map, IfSome, OnErr, OnOk, Some, option_map};
ghost use Rattle.std.specs.Arc.{arc_value};
ghost use Rattle.jwalk_model.specs.Entry.{AtDepth};
ghost use Rattle.jwalk_model.specs.Options as parallelism;
ghost use Rattle.jwalk_model.specs.ReadDir.{children, AreClones};
ghost use Rattle.jwalk_job.specs.Entry.{item};
ghost use Rattle.jwalk_job.specs.ReadDir.{reading};
ghost use Rattle.jwalk_job.specs.Job.{callback};
ghost use Rattle.tree_crew.specs.Crew.{limit_of};
ghost use Rattle.jwalk_readings.specs.Session.{origin_of, awaited_by};
ghost use Rattle.jwalk_readings.specs.CrewReads as reads_by;
ghost use Rattle.jwalk.specs.CrewStart.{busied, left_of, is_refusal, IsFromRoot};
ghost use Rattle.jwalk_iter.specs.DirEntryIter.{reads_of, is_refused, by_crew, job_of, items_of, most_ahead, StartsSteady};

use crate::walk_dir::WalkDirGeneric;
use jwalk_fs::file_system::FileSystem;
use jwalk_iter::dir_entry_iter::DirEntryIter;
use jwalk_job::client_state::ClientState;
use jwalk_job::error::Error;
use jwalk_job::item::{Item, List};
use jwalk_job::job::Job;
use jwalk_job::process_read_dir::ProcessReadDir;
use jwalk_job::read_dir::ReadDir;
use jwalk_readings::crew_reads::CrewReads;
use jwalk_readings::read_dir_iter::ReadDirIter;
use jwalk_readings::readers::Readers;
use jwalk_readings::session::Session;
use std::alloc::Allocator;
use std::sync::{Arc, Wait};
use std::thread::Threads;
use std::time::{Clock, Duration};
use tree_crew::crew::{Crew, NotStarted};

/// A walk that a crew may read for.
pub(super) type CrewWalk<R, C, S, P, A> = DirEntryIter<C, S, P, A, Session<R, C, S, P, A>>;

/// A walk at its start.
#[derive(Drop)]
pub(super) struct Begun<W> {
    pub(super) walk: W,
    // Why its readings didn't begin, if they didn't.
    pub(super) why_not: Option<NotStarted>,
}

/// Puts the error that reports a busy crew in place of an entry whose directory is to be read.
fn make_busy<C: ClientState, A: Allocator + Copy>(found: &mut Item<C, A>)
    ensures { item found.new ≡ busied (item found.old) }
{
    if let Ok(entry) = found
        && entry.read_children.is_some()
    {
        *found = Err(Error::busy());
    }
}

fn make_all_busy<C: ClientState, A: Allocator + Copy>(list: &mut List<C, A>)
    ensures { map item list.new.items ≡ map busied (map item list.old.items) }
{
    for found in list.iter_mut() {
        make_busy(found);
    }
}

fn left<C: ClientState, A: Allocator + Copy>(
    mut list: List<C, A>,
    why_not: Option<NotStarted>,
) -> List<C, A>
    ensures { map item result.items ≡ left_of why_not (map item list.items) }
{
    match why_not {
        None => list,
        Some(NotStarted::Busy) => {
            make_all_busy(&mut list);
            list
        }
        Some(NotStarted::Memory) => {
            list.clear();
            list
        }
    }
}

/// Returns whether the readings didn't begin because memory ran out.
fn is_refused(why_not: Option<NotStarted>) -> bool
    ensures { result ≡ is_refusal why_not }
{
    match why_not {
        None | Some(NotStarted::Busy) => false,
        Some(NotStarted::Memory) => true,
    }
}

fn after_start<
    C: ClientState,
    S: FileSystem,
    P: ProcessReadDir<C, A>,
    A: Allocator + Copy,
    L: Readers<C, S, P, A>,
>(
    reads: CrewReads<C, S, P, A, L>,
    read: ReadDir<C, A>,
    why_not: Option<NotStarted>,
) -> DirEntryIter<C, S, P, A, L>
    ensures reads { reads_of result ≡ ReadDirIter.CrewWalk reads }
    ensures items { items_of result ≡ left_of why_not (reading read).list }
    ensures refused { is_refused result ≡ is_refusal why_not }
{
    let list = left(read.into_results_list(), why_not);
    DirEntryIter::with_list(ReadDirIter::CrewWalk(reads), list, is_refused(why_not))
}

pub(super) fn from_root_alone<
    C: ClientState,
    S: FileSystem,
    P: ProcessReadDir<C, A>,
    A: Allocator + Copy,
    L: Readers<C, S, P, A>,
>(alloc: A, job: Job<C, S, P, A>, read: Option<ReadDir<C, A>>) -> Begun<DirEntryIter<C, S, P, A, L>>
    requires { IfSome read (λ r. AtDepth 0 (reading r).list) }
    ensures from_root { IsFromRoot C.ReadDirState.Clone (option_map reading read) job result.why_not result.walk }
    ensures most { most_ahead L.Readers result.walk ≡ 0 }
    ensures steady { StartsSteady S.FileSystem P.ProcessReadDir C.ReadDirState.Clone C.DirEntryState.Default
        L.Readers result.walk }
{
    let walk = DirEntryIter::from_root(alloc, job, read);
    if walk.is_refused() {
        return Begun {
            walk,
            why_not: Some(NotStarted::Memory),
        };
    }
    Begun {
        walk,
        why_not: None,
    }
}

fn start_reads<
    R: Wait + Threads + Clock + Drop + Send + Sync + 'static,
    C: ClientState + Send + 'static,
    S: FileSystem + Send + Sync + 'static,
    P: ProcessReadDir<C, A> + Send + Sync + 'static,
    A: Allocator + Copy + Send + Sync + 'static,
>(
    reads: &mut CrewReads<C, S, P, A, Session<R, C, S, P, A>>,
    crew: &Arc<Crew<R>, A>,
    busy_timeout: Option<Duration>,
    read: &ReadDir<C, A>,
) -> Result<(), NotStarted>
where
    C::ReadDirState: Send + 'static,
    C::DirEntryState: Send + 'static,
    requires { P.IsLawful (callback (reads_by.job_of reads.old)) }
    ensures job { reads_by.job_of reads.new ≡ reads_by.job_of reads.old }
    ensures to_read { OnOk result (AreClones C.ReadDirState.is_clone
        (children (reading read.now)) (reads_by.to_read reads.new)) }
    ensures begins { OnOk result (reads_by.BeginsBy (λ session origin addresses.
        (origin_of session ≡ origin) × (awaited_by session ≡ addresses)) reads.new) }
    ensures most { OnOk result (reads_by.most_ahead ⟦<Session<R, C, S, P, A> as Readers<C, S, P, A>>⟧ reads.new
        ≡ limit_of (arc_value crew.now) + 1) }
    ensures unchanged { OnErr result (reads.new ≡ reads.old) }
{
    let own = read.read_children_specs()?;
    let shared = read.read_children_specs()?;
    reads.start(crew, busy_timeout, own, shared)
}

impl<
    R: Wait + Threads + Clock + Drop + Send + Sync + 'static,
    C: ClientState + Send + 'static,
    S: FileSystem + Send + Sync + 'static,
    P: ProcessReadDir<C, A> + Send + Sync + 'static,
    A: Allocator + Copy + Send + Sync + 'static,
> WalkDirGeneric<C, S, P, A, Crew<R>>
where
    C::ReadDirState: Send + 'static,
    C::DirEntryState: Send + 'static,
{
    ghost use Rattle.jwalk_job.specs.Job.{options_of};
    ghost use Rattle.jwalk.specs.CrewStart.{IsBegun};

    fn with_reads(
        mut reads: CrewReads<C, S, P, A, Session<R, C, S, P, A>>,
        read: ReadDir<C, A>,
        crew: &Arc<Crew<R>, A>,
        busy_timeout: Option<Duration>,
    ) -> Begun<CrewWalk<R, C, S, P, A>>
        requires lawful { P.IsLawful (callback (reads_by.job_of reads)) }
        requires nothing { reads_by.to_read reads ≡ [] }
        requires steady { reads_by.StartsSteady S.FileSystem P.ProcessReadDir C.ReadDirState.Clone
            C.DirEntryState.Default ⟦<Session<R, C, S, P, A> as Readers<C, S, P, A>>⟧ reads }
        ensures by { by_crew result.walk ≡ true }
        ensures job { job_of result.walk ≡ reads_by.job_of reads }
        ensures begun { IsBegun C.ReadDirState.Clone (Some (reading read)) result.why_not result.walk }
        ensures most { most_ahead ⟦<Session<R, C, S, P, A> as Readers<C, S, P, A>>⟧ result.walk
            ≤ max (reads_by.most_ahead ⟦<Session<R, C, S, P, A> as Readers<C, S, P, A>>⟧ reads)
            (limit_of (arc_value crew.now) + 1) }
        ensures steady { StartsSteady S.FileSystem P.ProcessReadDir C.ReadDirState.Clone C.DirEntryState.Default
            ⟦<Session<R, C, S, P, A> as Readers<C, S, P, A>>⟧ result.walk }
    {
        let why_not = start_reads(&mut reads, crew, busy_timeout, &read).err();
        Begun {
            walk: after_start(reads, read, why_not),
            why_not,
        }
    }

    /// If no place of the crew was free in time, each entry with a directory is replaced by the error that reports it.
    /// If memory ran out, the walk yields the error that reports it, and nothing else.
    pub(super) fn from_root_by(
        alloc: A,
        job: Job<C, S, P, A>,
        read: Option<ReadDir<C, A>>,
        crew: &Arc<Crew<R>, A>,
        busy_timeout: Option<Duration>,
    ) -> Begun<CrewWalk<R, C, S, P, A>>
        requires lawful { P.IsLawful (callback job) }
        requires mode { (options_of job).parallelism ≡ parallelism.crew }
        requires depth { IfSome read (λ r. AtDepth 0 (reading r).list) }
        ensures from_root { IsFromRoot C.ReadDirState.Clone (option_map reading read) job result.why_not result.walk }
        ensures by { (result.why_not ≡ Some NotStarted.Memory) ⊎ (by_crew result.walk ≡ true) }
        ensures most { most_ahead ⟦<Session<R, C, S, P, A> as Readers<C, S, P, A>>⟧ result.walk
            ≤ limit_of (arc_value crew.now) + 1 }
        ensures steady { StartsSteady S.FileSystem P.ProcessReadDir C.ReadDirState.Clone C.DirEntryState.Default
            ⟦<Session<R, C, S, P, A> as Readers<C, S, P, A>>⟧ result.walk }
    {
        let Some(read) = read else {
            return Begun {
                walk: DirEntryIter::refused(alloc, job),
                why_not: Some(NotStarted::Memory),
            };
        };
        match CrewReads::new(alloc, job) {
            Ok(reads) => WalkDirGeneric::with_reads(reads, read, crew, busy_timeout),
            Err(job) => Begun {
                walk: DirEntryIter::refused(alloc, job),
                why_not: Some(NotStarted::Memory),
            },
        }
    }
}
