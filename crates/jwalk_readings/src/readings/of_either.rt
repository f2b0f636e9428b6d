//! Readings that a crew may make.
ghost use Rattle.jwalk_job.specs.Job.{callback};
ghost use Rattle.jwalk_readings.specs.ReadDirIter as reads;
ghost use Rattle.jwalk_readings.specs.ReadDirIter.{IsSteadyReads, base_of, AreAhead, clones_by};
ghost use Rattle.jwalk_readings.specs.Sources.{Base, source_by};
ghost use Rattle.jwalk_readings.specs.SourceFacts.{is_source_by};

use crate::batch_reads::BatchReads;
use crate::crew_reads::CrewReads;
use crate::read_dir_iter::ReadDirIter;
use crate::readers::{Missed, Readers};
use crate::readings::Readings;
use jwalk_fs::file_system::FileSystem;
use jwalk_job::client_state::ClientState;
use jwalk_job::dir_entry::DirEntry;
use jwalk_job::options::Options;
use jwalk_job::process_read_dir::ProcessReadDir;
use jwalk_job::read_dir::Outcome;
use std::alloc::{AllocError, Allocator};

impl<
    C: ClientState,
    S: FileSystem,
    P: ProcessReadDir<C, A>,
    A: Allocator + Copy,
    L: Readers<C, S, P, A>,
> Readings<C, A> for ReadDirIter<C, S, P, A, L> {
    ghost Base = { Base C S P A C.ReadDirState C.DirEntryState };

    ghost base = { base_of };

    ghost source = { source_by S.FileSystem P.ProcessReadDir C.ReadDirState.Clone C.DirEntryState.Default };

    ghost can_read = { λ base. P.IsLawful (callback base.job) };

    ghost to_read = { reads.to_read };

    ghost frontier = { reads.frontier_of };

    ghost read_ahead = { reads.read_ahead };

    ghost most = { reads.most_ahead L.Readers };

    ghost ready = { AreAhead L.Readers };

    ghost steady = { IsSteadyReads S.FileSystem P.ProcessReadDir C.ReadDirState.Clone C.DirEntryState.Default L.Readers };

    ghost sound = { is_source_by S.FileSystem P.ProcessReadDir C.ReadDirState.Clone C.DirEntryState.Default };

    ghost clones = { clones_by S.FileSystem P.ProcessReadDir C.ReadDirState.Clone C.DirEntryState.Default L.Readers };

    fn read_next(&mut self) -> Result<Option<Outcome<C, A>>, Missed> {
        match self {
            ReadDirIter::Walk(walk) => <BatchReads<C, S, P, A> as Readings<C, A>>::read_next(walk),
            ReadDirIter::CrewWalk(reads) => {
                <CrewReads<C, S, P, A, L> as Readings<C, A>>::read_next(reads)
            }
        }
    }

    fn is_next(&self, found: &DirEntry<C, A>) -> bool {
        match self {
            ReadDirIter::Walk(walk) => <BatchReads<C, S, P, A> as Readings<C, A>>::is_next(
                walk, found,
            ),
            ReadDirIter::CrewWalk(reads) => {
                <CrewReads<C, S, P, A, L> as Readings<C, A>>::is_next(reads, found)
            }
        }
    }

    fn skip_next(&mut self) -> Result<(), AllocError> {
        match self {
            ReadDirIter::Walk(walk) => <BatchReads<C, S, P, A> as Readings<C, A>>::skip_next(walk),
            ReadDirIter::CrewWalk(reads) => {
                <CrewReads<C, S, P, A, L> as Readings<C, A>>::skip_next(reads)
            }
        }
    }

    fn options(&self) -> Options {
        self.job().options()
    }

    fn ahead(&self) -> usize {
        ReadDirIter::ahead(self)
    }

    fn stop(&mut self) {
        ReadDirIter::stop(self);
    }
}
