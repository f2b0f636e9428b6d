//! A walk over a crew.
ghost use Rattle.std.specs.Prelude.{◌≡◌, IfOk, length, map};
ghost use Rattle.std.specs.Arc.{arc_value};
ghost use Rattle.jwalk_job.specs.Job.{callback};
ghost use Rattle.jwalk_job.specs.ReadDirSpec.{spec};
ghost use Rattle.tree_crew.specs.Crew.{limit_of};
ghost use Rattle.jwalk_readings.specs.Origin.{CountAlike, begun};

use crate::message::Message;
use crate::origin::Origin;
use crate::readers::{Missed, Readers};
use crate::wanted::Wanted;
use jwalk_fs::file_system::FileSystem;
use jwalk_job::client_state::ClientState;
use jwalk_job::job::Job;
use jwalk_job::process_read_dir::ProcessReadDir;
use jwalk_job::read_dir::Outcome;
use jwalk_job::read_dir_spec::ReadDirSpec;
use jwalk_order::ordered::Ordered;
use std::alloc::{AllocError, Allocator, Global};
use std::sync::Wait;
use std::thread::Threads;
use std::time::Clock;
use tree_crew::crew::{NotStarted, Place};
use tree_crew::session as tree;

/// The readings of a walk's directories, made by a crew's workers. It has a place of the crew.
///
/// Dropping it gives the place back and ends the workers, each after the directory that it is reading. The drop doesn't
/// block for the workers, but may block for a lock.
pub struct Session<
    R: Wait + Clock + Drop,
    C: ClientState,
    S: FileSystem,
    P: ProcessReadDir<C, A>,
    A: Allocator + Copy = Global,
> {
    readings: tree::Session<R, ReadDirSpec<C, A>, Outcome<C, A>, Job<C, S, P, A>, A>,
}

impl<
    R: Wait + Clock + Drop,
    C: ClientState,
    S: FileSystem,
    P: ProcessReadDir<C, A>,
    A: Allocator + Copy,
> Drop for Session<R, C, S, P, A> {
    fn drop(self) {
        let Session { readings: _ } = self;
    }
}

impl<
    R: Wait + Clock + Drop,
    C: ClientState,
    S: FileSystem,
    P: ProcessReadDir<C, A>,
    A: Allocator + Copy,
> Readers<C, S, P, A> for Session<R, C, S, P, A> {
    ghost use Rattle.std.specs.Prelude.{◌≡◌, ◌+◌, ◌≤◌};
    ghost use Rattle.jwalk_readings.specs.Session.{origin_of, awaited_by, read_ahead_of};

    ghost comes_from = { λ session origin. origin_of session ≡ origin };

    ghost awaits = { awaited_by };

    ghost most = { λ session. read_ahead_of session + 1 };

    ghost counts = { λ session count. count ≤ read_ahead_of session + 1 };

    fn next(&mut self, wanted: &Wanted<A>) -> Result<Ordered<Message<C, S, P, A>, A>, Missed> {
        let Some(item) = self.readings.next()? else {
            return Err(Missed::Lost);
        };
        let child_count = item.child_count();
        let Ordered {
            value: message,
            index_path,
            ..
        } = item;
        let item = Ordered::new(Message::of_crew(message), index_path, child_count);
        if wanted.fits(&item) {
            Ok(item)
        } else {
            Err(Missed::Lost)
        }
    }

    fn skip(&mut self) -> Result<(), AllocError> {
        self.readings.skip()
    }

    fn ahead(&self) -> usize
        ensures { result ≤ read_ahead_of self.now + 1 }
    {
        self.readings.ahead()
    }
}

impl<
    R: Wait + Threads + Clock + Drop + Send + Sync + 'static,
    C: ClientState + Send + 'static,
    S: FileSystem + Send + Sync + 'static,
    P: ProcessReadDir<C, A> + Send + Sync + 'static,
    A: Allocator + Copy + Send + Sync + 'static,
> Session<R, C, S, P, A>
where
    C::ReadDirState: Send + 'static,
    C::DirEntryState: Send + 'static,
{
    ghost use Rattle.jwalk_order.specs.Frontier.{roots as root_addresses};
    ghost use Rattle.jwalk_readings.specs.Session.{origin_of, awaited_by, read_ahead_of};

    /// Starts the workers of a walk that has a place. From then on they read these directories, and those below them.
    /// The directories are clones of those that the walk begins with.
    ///
    /// # Errors
    ///
    /// `Memory` if memory runs out. `Busy` if no worker could be started. After an error the place is given back.
    pub fn start(
        place: Place<R, A>,
        origin: &Origin<C, S, P, A>,
        roots: Vec<ReadDirSpec<C, A>, A>,
    ) -> Result<Self, NotStarted>
        requires lawful { P.IsLawful (callback origin.now.plan) }
        requires alike { CountAlike C.ReadDirState.Clone (map spec roots.items) (begun origin.now).roots }
        ensures origin { IfOk result (λ session. origin_of session ≡ begun origin.now) }
        ensures read_ahead { IfOk result (λ session. read_ahead_of session ≡ limit_of (arc_value place.crew)) }
        ensures awaits { IfOk result (λ session. awaited_by session ≡ root_addresses (length roots.items)) }
    {
        Ok(Session {
            readings: tree::Session::start(place, origin, roots)?,
        })
    }
}
