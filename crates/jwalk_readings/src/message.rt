//! Readings by workers.
ghost use Rattle.std.specs.Prelude.{◌≡◌, [], IsErr, IsTrue, ◌↔◌, MatchResult, map};
ghost use Rattle.std.specs.Arc.{arc_value};
ghost use Rattle.jwalk_model.specs.ReadDir.{children_of, AreClones};
ghost use Rattle.jwalk_job.specs.ReadDirSpec.{spec};
ghost use Rattle.jwalk_job.specs.ReadDir.{outcome};
ghost use Rattle.jwalk_job.specs.Job.{callback};
ghost use Rattle.jwalk_readings.specs.Message.{IsLawfulMessage, told};

use jwalk_fs::file_system::FileSystem;
use jwalk_job::client_state::ClientState;
use jwalk_job::job::Job;
use jwalk_job::process_read_dir::ProcessReadDir;
use jwalk_job::read_dir::Outcome;
use jwalk_job::read_dir_spec::ReadDirSpec;
use std::alloc::{AllocError, Allocator, Global};
use std::marker::Model;
use std::sync::Arc;
use tree_crew::arrival::Reported;
use tree_crew::message as tree;

/// What a crew whose plan is a job calls a message.
type CrewMessage<C, S, P, A> = tree::Message<ReadDirSpec<C, A>, Outcome<C, A>, Job<C, S, P, A>, A>;

/// A reading by a worker: the job that read, the directory that was read, and the outcome, or that memory ran out.
pub struct Message<
    C: ClientState,
    S: FileSystem,
    P: ProcessReadDir<C, A>,
    A: Allocator + Copy = Global,
> {
    reading: CrewMessage<C, S, P, A>,
}

impl<C: ClientState, S: FileSystem, P: ProcessReadDir<C, A>, A: Allocator + Copy> Drop
    for Message<C, S, P, A> {
    fn drop(self) {
        let Message { reading: _ } = self;
    }
}

impl<C: ClientState, S: FileSystem, P: ProcessReadDir<C, A>, A: Allocator + Copy> Model
    for Message<C, S, P, A> {
    ghost use Rattle.jwalk_readings.specs.Message.{Message as State, IsLawfulMessage, told};

    ghost Value = { State C S P A C.ReadDirState C.DirEntryState };

    ghost view = { λ m. told m.reading };

    ghost invariant = { λ m. IsLawfulMessage S.FileSystem P.ProcessReadDir C.ReadDirState.Clone
        C.DirEntryState.Default (told m.reading) };
}

impl<C: ClientState, S: FileSystem, P: ProcessReadDir<C, A>, A: Allocator + Copy> Reported
    for Message<C, S, P, A> {
    ghost use Rattle.jwalk_readings.specs.Message.{ran_out};

    ghost refused = { ran_out };

    fn is_refused(&self) -> bool {
        Reported::is_refused(&self.reading)
    }
}

impl<C: ClientState, S: FileSystem, P: ProcessReadDir<C, A>, A: Allocator + Copy> Message<
    C,
    S,
    P,
    A,
> {
    /// Reads a directory: returns the message, and the directories below it. There are none if memory ran out, for the
    /// reading or for the list of these directories.
    pub fn read(
        job: Arc<Job<C, S, P, A>, A>,
        of: ReadDirSpec<C, A>,
    ) -> (Self, Vec<ReadDirSpec<C, A>, A>)
        requires { P.IsLawful (callback (arc_value job)) }
        ensures job { result.0.job ≡ arc_value job }
        ensures of { result.0.of ≡ of }
        ensures lawful { IsLawfulMessage S.FileSystem P.ProcessReadDir C.ReadDirState.Clone
            C.DirEntryState.Default result.0 }
        ensures children { MatchResult result.0.outcome
            (λ o. AreClones C.ReadDirState.is_clone (children_of (outcome o)) (map spec result.1.items))
            (λ _. result.1.items ≡ []) }
    {
        let alloc = *of.path.allocator();
        let (reading, below) = tree::Message::read(alloc, job, of);
        (Message { reading }, below)
    }

    pub(crate) fn of_crew(reading: CrewMessage<C, S, P, A>) -> Self
        requires { IsLawfulMessage S.FileSystem P.ProcessReadDir C.ReadDirState.Clone C.DirEntryState.Default
            (told reading) }
        ensures { result ≡ told reading }
    {
        Message { reading }
    }

    /// Returns the job that read.
    pub fn job(&self) -> &Job<C, S, P, A>
        ensures { result.now ≡ self.now.job }
    {
        self.reading.plan()
    }

    /// Returns the directory that was read.
    pub fn of(&self) -> &ReadDirSpec<C, A>
        ensures { result.now ≡ self.now.of }
    {
        self.reading.of()
    }

    /// Returns whether memory ran out.
    pub fn is_refused(&self) -> bool
        ensures { IsTrue result ↔ IsErr self.now.outcome }
    {
        self.reading.is_refused()
    }

    /// Returns the outcome of the directory's reading, or that memory ran out. It is the job's reading of the
    /// directory.
    pub fn into_outcome(self) -> Result<Outcome<C, A>, AllocError>
        ensures outcome { result ≡ self.outcome }
        ensures lawful { IsLawfulMessage S.FileSystem P.ProcessReadDir C.ReadDirState.Clone
            C.DirEntryState.Default self }
    {
        let Message { reading } = self;
        reading.into_outcome()
    }
}
