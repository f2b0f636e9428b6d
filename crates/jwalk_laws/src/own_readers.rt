//! Readers of one's own: readings that are made when they are asked for.
ghost use Rattle.std.specs.Prelude.{◌≡◌, ◌++◌, true, [], length, map, IfOk, OnOk};
ghost use Rattle.std.specs.Arc.{arc_value};
ghost use Rattle.jwalk.specs.jwalk_order.Addressed.{numbered};
ghost use Rattle.jwalk.specs.jwalk_order.Frontier.{roots as root_addresses};
ghost use Rattle.jwalk.specs.jwalk_order.IndexPath.{address};
ghost use Rattle.jwalk.specs.jwalk_job.ReadDirSpec.{spec};
ghost use Rattle.jwalk.specs.CrewReads.{IsMadeFor};
ghost use Rattle.jwalk.specs.ReadDirIter.{by_crew, job_of, to_read, StartsSteady};
ghost use Rattle.jwalk_laws.specs.OwnReaders.{stacked};

use jwalk::Error;
use jwalk::crew::{Message, Missed, Readers, Wanted};
use jwalk::file_system::FileSystem;
use jwalk::index_path::IndexPath;
use jwalk::ordered::Ordered;
use jwalk::read_dir::{Job, NoProcess, ProcessReadDir, ReadDirSpec};
use jwalk::read_dir_iter::ReadDirIter;
use std::alloc::{AllocError, Global};
use std::sync::Arc;

/// States that say nothing.
type States = ((), ());

/// What reads.
type TreeJob<S> = Job<States, S, NoProcess>;

/// Directories that are still to be read, each with its address, the next one on top.
type Stack = Vec<(IndexPath, ReadDirSpec<States>)>;

/// Readers that read a directory when they are asked for it. Once memory ran out they have nothing more to read.
pub struct OwnReaders<S: FileSystem> {
    job: Arc<TreeJob<S>>,
    waiting: Stack,
}

impl<S: FileSystem> Drop for OwnReaders<S> {
    fn drop(self) {
        let OwnReaders { job: _, waiting: _ } = self;
    }
}

fn put_below(
    waiting: &mut Stack,
    above: &IndexPath,
    mut below: Vec<ReadDirSpec<States>>,
) -> Result<(), AllocError>
    ensures { OnOk result (stacked waiting.new.items
        ≡ numbered (address above.now) 0 (map spec below.items) ++ stacked waiting.old.items) }
{
    while let Some(child) = below.pop() {
        let at = above.adding(below.len())?;
        waiting.push((at, child))?;
    }
    Ok(())
}

impl<S: FileSystem> OwnReaders<S> {
    /// Readers that read these directories, and those below them.
    ///
    /// # Errors
    ///
    /// If memory runs out.
    pub fn new(job: Arc<TreeJob<S>>, roots: Vec<ReadDirSpec<States>>) -> Result<Self, AllocError>
        ensures job { IfOk result (λ readers. readers.job ≡ job) }
        ensures waiting { IfOk result (λ readers. stacked readers.waiting.items ≡ numbered [] 0 (map spec roots.items)) }
    {
        let alloc = *roots.allocator();
        let mut waiting = Vec::new(alloc);
        put_below(&mut waiting, &IndexPath::new(Vec::new(alloc)), roots)?;
        Ok(OwnReaders { job, waiting })
    }
}

impl<S: FileSystem> Readers<States, S, NoProcess, Global> for OwnReaders<S> {
    ghost use Rattle.std.specs.Arc.{arc_value};
    ghost use Rattle.jwalk.specs.jwalk_order.Addressed.{addresses_of};
    ghost use Rattle.jwalk_laws.specs.OwnReaders.{ReadsFor, stacked};

    ghost comes_from = { λ p. ReadsFor S.FileSystem ⟦<NoProcess as ProcessReadDir<States, Global>>⟧
        ⟦<() as Clone>⟧ ⟦<() as Default>⟧ (arc_value p.job) p.waiting.items };

    ghost awaits = { λ p. addresses_of (stacked p.waiting.items) };

    ghost most = { λ _. 0 };

    ghost counts = { λ _ count. count ≡ 0 };

    fn next(&mut self, wanted: &Wanted) -> Result<Ordered<Message<States, S, NoProcess>>, Missed> {
        let job = self.job.clone()?;
        let Some((address, of)) = self.waiting.pop() else {
            return Err(Missed::Lost);
        };
        let (message, below) = Message::read(job, of);
        let item = Ordered::new(message, address, below.len());
        let put = put_below(&mut self.waiting, &item.index_path, below);
        if put.is_err() || item.value.is_refused() {
            self.waiting.clear();
            return Err(Missed::Memory);
        }
        if !wanted.fits(&item) {
            return Err(Missed::Lost);
        }
        Ok(item)
    }

    fn skip(&mut self) -> Result<(), AllocError> {
        let _skipped = self.waiting.pop();
        Ok(())
    }

    /// None is read ahead.
    fn ahead(&self) -> usize {
        0
    }
}

fn made_for<S: FileSystem>(
    job: &Arc<TreeJob<S>>,
    roots: &Vec<ReadDirSpec<States>>,
) -> Result<OwnReaders<S>, AllocError>
    ensures { IfOk result (λ readers. IsMadeFor ⟦<OwnReaders<S> as Readers<States, S, NoProcess, Global>>⟧ readers
        (record { job = arc_value job.now; roots = map spec roots.now.items })
        (root_addresses (length roots.now.items))) }
{
    OwnReaders::new(job.clone()?, roots.clone()?)
}

/// The readings of these directories and of all that is below them, each made when it is asked for.
///
/// # Errors
///
/// If memory runs out.
pub fn read_when_asked<S: FileSystem>(
    job: TreeJob<S>,
    roots: Vec<ReadDirSpec<States>>,
) -> Result<ReadDirIter<States, S, NoProcess, Global, OwnReaders<S>>, Error>
    ensures by { IfOk result (λ reads. by_crew reads ≡ true) }
    ensures job { IfOk result (λ reads. job_of reads ≡ job) }
    ensures to_read { IfOk result (λ reads. to_read reads ≡ map spec roots.items) }
    ensures steady { IfOk result (StartsSteady S.FileSystem ⟦<NoProcess as ProcessReadDir<States, Global>>⟧
        ⟦<() as Clone>⟧ ⟦<() as Default>⟧ ⟦<OwnReaders<S> as Readers<States, S, NoProcess, Global>>⟧) }
{
    let Ok(job) = Arc::new(*roots.allocator(), job) else {
        return Err(Error::memory());
    };
    match made_for(&job, &roots) {
        Ok(readers) => ReadDirIter::over_readers(job, roots, readers),
        Err(_) => Err(Error::memory()),
    }
}
