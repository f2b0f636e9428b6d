//! A walk's own batches as its readings.
ghost use Rattle.std.specs.Prelude.{◌≡◌, length, false};
ghost use Rattle.jwalk_job.specs.Job.{callback};
ghost use Rattle.jwalk_readings.specs.BatchReads as board;
ghost use Rattle.jwalk_readings.specs.BatchReads.{IsSteadyBatches};
ghost use Rattle.jwalk_readings.specs.Sources.{Base, source_by};
ghost use Rattle.jwalk_readings.specs.SourceFacts.{is_source_by};

use crate::batch_reads::BatchReads;
use crate::readers::Missed;
use crate::readings::Readings;
use jwalk_fs::file_system::FileSystem;
use jwalk_job::client_state::ClientState;
use jwalk_job::dir_entry::DirEntry;
use jwalk_job::options::Options;
use jwalk_job::process_read_dir::ProcessReadDir;
use jwalk_job::read_dir::Outcome;
use std::alloc::{AllocError, Allocator};

impl<C: ClientState, S: FileSystem, P: ProcessReadDir<C, A>, A: Allocator + Copy> Readings<C, A>
    for BatchReads<C, S, P, A> {
    ghost Base = { Base C S P A C.ReadDirState C.DirEntryState };

    ghost base = { λ w. record { by_crew = false; job = w.job; width = w.width } };

    ghost source = { source_by S.FileSystem P.ProcessReadDir C.ReadDirState.Clone C.DirEntryState.Default };

    ghost can_read = { λ base. P.IsLawful (callback base.job) };

    ghost to_read = { board.to_read };

    ghost frontier = { board.frontier_of };

    ghost read_ahead = { board.read_ahead };

    ghost most = { λ w. 0 };

    ghost ready = { λ w n. n ≡ length (board.read_ahead w).done };

    ghost steady = { IsSteadyBatches S.FileSystem P.ProcessReadDir C.ReadDirState.Clone C.DirEntryState.Default };

    ghost sound = { is_source_by S.FileSystem P.ProcessReadDir C.ReadDirState.Clone C.DirEntryState.Default };

    ghost clones = { λ it g steady. steady.steady.clones };

    fn read_next(&mut self) -> Result<Option<Outcome<C, A>>, Missed> {
        Ok(BatchReads::read_next(self)?)
    }

    fn is_next(&self, _found: &DirEntry<C, A>) -> bool {
        true
    }

    fn skip_next(&mut self) -> Result<(), AllocError> {
        BatchReads::skip_next(self);
        Ok(())
    }

    fn options(&self) -> Options {
        self.job().options()
    }

    fn ahead(&self) -> usize {
        BatchReads::ahead(self)
    }

    fn stop(&mut self) {
        BatchReads::stop(self);
    }
}
