//! A crew's readings.
ghost use Rattle.std.specs.Prelude.{◌≤◌};
ghost use Rattle.jwalk_job.specs.Job.{callback};
ghost use Rattle.jwalk_readings.specs.CrewReads as crew;
ghost use Rattle.jwalk_readings.specs.CrewReads.{IsSteadyCrew};
ghost use Rattle.jwalk_readings.specs.ReadAhead.{nothing_ahead};
ghost use Rattle.jwalk_readings.specs.Sources.{Base, crew_base, source_by};
ghost use Rattle.jwalk_readings.specs.SourceFacts.{is_source_by};

use crate::crew_reads::CrewReads;
use crate::readers::{Missed, Readers};
use crate::readings::Readings;
use jwalk_fs::file_system::FileSystem;
use jwalk_job::client_state::ClientState;
use jwalk_job::dir_entry::DirEntry;
use jwalk_job::options::Options;
use jwalk_job::process_read_dir::ProcessReadDir;
use jwalk_job::read_dir::Outcome;
use std::alloc::{AllocError, Allocator};

impl<
    C: ClientState,
    S: FileSystem,
    P: ProcessReadDir<C, A>,
    A: Allocator + Copy,
    L: Readers<C, S, P, A>,
> Readings<C, A> for CrewReads<C, S, P, A, L> {
    ghost Base = { Base C S P A C.ReadDirState C.DirEntryState };

    ghost base = { crew_base };

    ghost source = { source_by S.FileSystem P.ProcessReadDir C.ReadDirState.Clone C.DirEntryState.Default };

    ghost can_read = { λ base. P.IsLawful (callback base.job) };

    ghost to_read = { crew.to_read };

    ghost frontier = { crew.frontier_of };

    ghost read_ahead = { λ w. nothing_ahead };

    ghost most = { crew.most_ahead L.Readers };

    ghost ready = { λ w n. (n ≤ crew.most_ahead L.Readers w) × crew.CountsAhead L.Readers w n };

    ghost steady = { IsSteadyCrew S.FileSystem P.ProcessReadDir C.ReadDirState.Clone C.DirEntryState.Default L.Readers };

    ghost sound = { is_source_by S.FileSystem P.ProcessReadDir C.ReadDirState.Clone C.DirEntryState.Default };

    ghost clones = { λ it g steady. steady.steady.clones };

    fn read_next(&mut self) -> Result<Option<Outcome<C, A>>, Missed> {
        CrewReads::read_next(self)
    }

    fn is_next(&self, found: &DirEntry<C, A>) -> bool {
        CrewReads::is_next(self, found)
    }

    fn skip_next(&mut self) -> Result<(), AllocError> {
        CrewReads::skip_next(self)
    }

    fn options(&self) -> Options {
        self.job().options()
    }

    fn ahead(&self) -> usize {
        CrewReads::ahead(self)
    }

    fn stop(&mut self) {
        CrewReads::stop(self);
    }
}
