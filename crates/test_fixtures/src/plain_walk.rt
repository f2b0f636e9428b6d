//! A walk by two stacks, to compare other walks with.
ghost use Rattle.jwalk_job.specs.Job.{callback};

use crate::answers::Answer;
use jwalk_fs::file_system::FileSystem;
use jwalk_job::client_state::ClientState;
use jwalk_job::dir_entry::DirEntry;
use jwalk_job::error::Error;
use jwalk_job::job::Job;
use jwalk_job::process_read_dir::ProcessReadDir;
use jwalk_job::read_dir::ReadDir;
use jwalk_job::read_dir_spec::ReadDirSpec;
use std::alloc::{AllocError, Global};

/// The greatest number of answers of a walk.
const MOST: usize = 100_000;

/// The items that were received and not passed on, and the unread directories. The next one is last.
#[derive(Drop)]
struct Stacks<C: ClientState> {
    items: Vec<Answer<C>>,
    specs: Vec<ReadDirSpec<C>>,
}

impl<C: ClientState> Stacks<C> {
    /// The list and its directories come before everything else.
    fn receive(&mut self, read: ReadDir<C>) -> Result<(), AllocError> {
        let mut specs = read.read_children_specs()?;
        specs.reverse();
        self.specs.append(&mut specs)?;
        let mut items = read.into_results_list();
        items.reverse();
        self.items.append(&mut items)
    }

    fn enter<S: FileSystem, P: ProcessReadDir<C, Global>>(
        &mut self,
        job: &Job<C, S, P>,
        entry: DirEntry<C>,
    ) -> Result<DirEntry<C>, AllocError>
        requires { P.IsLawful (callback job.now) }
    {
        let Some(spec) = self.specs.pop() else {
            return Ok(entry);
        };
        match job.read_one(&spec)? {
            Ok(read) => {
                self.receive(read)?;
                Ok(entry)
            }
            Err(error) => Ok(entry.with_error(error)?),
        }
    }

    fn next<S: FileSystem, P: ProcessReadDir<C, Global>>(
        &mut self,
        job: &Job<C, S, P>,
    ) -> Result<Option<Answer<C>>, AllocError>
        requires { P.IsLawful (callback job.now) }
    {
        match self.items.pop() {
            Some(Ok(entry)) => {
                if entry.read_children.is_some() {
                    return Ok(Some(Ok(self.enter(job, entry)?)));
                }
                Ok(Some(Ok(entry)))
            }
            other => Ok(other),
        }
    }
}

/// Errors have no depth to be left out for.
fn is_deep<C: ClientState>(answer: &Answer<C>, min_depth: usize) -> bool {
    match answer {
        Ok(entry) => entry.depth() >= min_depth,
        Err(_) => true,
    }
}

/// Stops where memory runs out.
fn add_all<C: ClientState, S: FileSystem, P: ProcessReadDir<C, Global>>(
    job: &Job<C, S, P>,
    root: &str,
    found: &mut Vec<Answer<C>>,
) -> Result<(), AllocError>
    requires { P.IsLawful (callback job.now) }
{
    let mut stacks = Stacks {
        items: Vec::new(*found.allocator()),
        specs: Vec::new(*found.allocator()),
    };
    stacks.receive(job.root_list(root, C::ReadDirState::default())?)?;
    for _ in 0..MOST {
        let Some(answer) = stacks.next(job)? else {
            break;
        };
        if is_deep(&answer, job.options().min_depth()) {
            found.push(answer)?;
        }
    }
    Ok(())
}

/// Returns the answers of a walk. If memory runs out, the last one reports it.
pub fn plain_answers<C: ClientState, S: FileSystem, P: ProcessReadDir<C, Global>>(
    alloc: Global,
    job: &Job<C, S, P>,
    root: &str,
) -> Result<Vec<Answer<C>>, AllocError>
    requires { P.IsLawful (callback job.now) }
{
    let mut found = Vec::new(alloc);
    if add_all(job, root, &mut found).is_err() {
        found.push(Err(Error::memory()))?;
    }
    Ok(found)
}
