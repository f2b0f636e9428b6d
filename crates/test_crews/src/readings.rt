//! Readings that a crew makes, without the answers of a walk.
use crate::crewed::{Stand, States};
use jwalk::crew::Session;
use jwalk::file_system::{BuildError, FileSystem};
use jwalk::read_dir::{Job, NoProcess, Options};
use jwalk::read_dir_iter::ReadDirIter;
use jwalk::{Crew, Error, Parallelism, Readers};
use std::alloc::{AllocError, Global};
use std::sync::Arc;
use std::time::Duration;
use test_fixtures::host::Host;
use test_fixtures::trees::{FORKED, tree};
use test_fixtures::watched::{Failing, Watched};

/// Readings over any file system and with any readers.
type ReadsBy<S, L> = ReadDirIter<States, S, NoProcess, Global, L>;

/// Readings that a crew may make.
type Reads<R, S> = ReadsBy<Arc<S>, Session<R, States, Arc<S>, NoProcess>>;

/// Begins to read the root and everything below it by the crew, if a place is free at once. The readings come to
/// `begun`.
fn begin<R: Host, S: FileSystem + Send + Sync + 'static>(
    stand: &Stand<R, S>,
    begun: &mut Vec<Reads<R, S>>,
) -> Result<Result<(), Error>, AllocError> {
    begun.reserve(1)?;
    let fs = stand.fs.clone()?;
    let job: Job<States, Arc<S>, NoProcess> = Job::new(stand.alloc, fs, NoProcess, Options::new());
    let roots = job.root_list("/r", ())?.read_children_specs()?;
    let by_crew = Parallelism::RayonExistingPool {
        pool: stand.crew.clone()?,
        busy_timeout: Some(Duration::from_millis(0)),
    };
    match ReadDirIter::try_with_crew(job, roots, by_crew) {
        Ok(reads) => {
            begun.push_reserved(reads);
            Ok(Ok(()))
        }
        Err(error) => Ok(Err(error)),
    }
}

/// No reading may follow the seventh of the readings that began last.
fn are_seven<S: FileSystem, L: Readers<States, S, NoProcess, Global>>(
    begun: &mut Vec<ReadsBy<S, L>>,
) -> bool {
    let Some(reads) = begun.last_mut() else {
        return false;
    };
    for _ in 0..7 {
        if !matches!(reads.next(), Some(Ok(_))) {
            return false;
        }
    }
    let ended = reads.next().is_none();
    let ended_for_good = reads.next().is_none();
    ended && ended_for_good
}

/// Others must be refused meanwhile.
fn come<R: Host, S: FileSystem + Send + Sync + 'static>(stand: &Stand<R, S>) -> bool {
    let mut begun = Vec::new(stand.alloc);
    let has_place = matches!(begin(stand, &mut begun), Ok(Ok(()))) && stand.crew.in_use() == 1;
    let are_refused = match begin(stand, &mut begun) {
        Ok(Err(error)) => error.is_busy(),
        _ => false,
    };
    has_place && are_refused && are_seven(&mut begun)
}

// The place must be free afterwards.
#[test]
fn readings_from_the_directories_of_a_list_by_a_crew(rt: HostRuntime) -> Result<(), BuildError> {
    let fs = Watched::new(tree(rt.alloc(), FORKED)?, Failing::Never);
    let stand = Stand::over(&rt, fs, Crew::new(rt.clone()?, 1, 2))?;
    assert!(rt; come(&stand) && stand.crew.in_use() == 0);
    Ok(())
}
