//! Walks that have begun, whose answers are handed to a closure, or appended to a list.
ghost use Rattle.std.specs.Prelude.{◌≡◌};
ghost use Rattle.std.specs.Iterator.{CallsOnEach};
ghost use Rattle.jwalk_iter.specs.DirEntryIter.{Answers, job_of};
ghost use Rattle.jwalk_job.specs.Job.{callback};
ghost use Rattle.jwalk.specs.Each.{CallsUntilError, Appends};

use jwalk_fs::file_system::FileSystem;
use jwalk_iter::dir_entry_iter::DirEntryIter;
use jwalk_job::client_state::ClientState;
use jwalk_job::dir_entry::DirEntry;
use jwalk_job::error::Error;
use jwalk_job::process_read_dir::ProcessReadDir;
use jwalk_readings::readers::Readers;
use std::alloc::{AllocError, Global};

pub(crate) fn hand_to<
    C: ClientState,
    S: FileSystem,
    P: ProcessReadDir<C, Global>,
    L: Readers<C, S, P, Global>,
    F: FnMut(Result<DirEntry<C, Global>, Error<Global>>),
>(walk: DirEntryIter<C, S, P, Global, L>, f: F)
    requires lawful { P.IsLawful (callback (job_of walk)) }
    requires callable { F.IsAlwaysCallable f }
    ensures { CallsOnEach
        (Answers S.FileSystem P.ProcessReadDir C.ReadDirState.Clone C.DirEntryState.Default L.Readers)
        F.FnMut walk f }
{
    walk.for_each(f)
}

pub(crate) fn hand_until_error<
    E: Drop,
    C: ClientState,
    S: FileSystem,
    P: ProcessReadDir<C, Global>,
    L: Readers<C, S, P, Global>,
    F: FnMut(Result<DirEntry<C, Global>, Error<Global>>) -> Result<(), E>,
>(walk: DirEntryIter<C, S, P, Global, L>, f: F) -> Result<(), E>
    requires lawful { P.IsLawful (callback (job_of walk)) }
    requires callable { F.IsAlwaysCallable f }
    ensures { CallsUntilError (λ it. it ≡ walk)
        (Answers S.FileSystem P.ProcessReadDir C.ReadDirState.Clone C.DirEntryState.Default L.Readers)
        F.FnMut f result }
{
    let mut walk = walk;
    walk.try_for_each(f)
}

pub(crate) fn append_to<
    C: ClientState,
    S: FileSystem,
    P: ProcessReadDir<C, Global>,
    L: Readers<C, S, P, Global>,
>(
    walk: DirEntryIter<C, S, P, Global, L>,
    out: &mut Vec<Result<DirEntry<C, Global>, Error<Global>>, Global>,
) -> Result<(), AllocError>
    requires { P.IsLawful (callback (job_of walk)) }
    ensures { Appends (λ it. it ≡ walk)
        (Answers S.FileSystem P.ProcessReadDir C.ReadDirState.Clone C.DirEntryState.Default L.Readers)
        out.old.items result out.new.items }
{
    out.extend(walk)
}
