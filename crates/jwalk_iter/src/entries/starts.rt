//! How a walk begins.
ghost use Rattle.std.specs.Prelude.{◌≡◌, true};

use crate::dir_entry_iter::DirEntryIter;
use crate::entries::Entries;
use crate::skip::Skip;
use jwalk_fs::file_system::FileSystem;
use jwalk_job::client_state::ClientState;
use jwalk_job::job::Job;
use jwalk_job::process_read_dir::ProcessReadDir;
use jwalk_job::read_dir::ReadDir;
use jwalk_readings::read_dir_iter::ReadDirIter;
use jwalk_readings::readers::Readers;
use std::alloc::{AllocError, Allocator};

impl<
    C: ClientState,
    S: FileSystem,
    P: ProcessReadDir<C, A>,
    A: Allocator + Copy,
    L: Readers<C, S, P, A>,
> DirEntryIter<C, S, P, A, L> {
    ghost use Rattle.std.specs.Prelude.{◌++◌, [], false, OnOk, IfSome, IsSomeAnd};
    ghost use Rattle.jwalk_model.specs.Entry.{AtDepth};
    ghost use Rattle.jwalk_model.specs.ReadDir.{children, AreClones};
    ghost use Rattle.jwalk_model.specs.Listing.{paired};
    ghost use Rattle.jwalk_job.specs.ReadDir.{reading};
    ghost use Rattle.jwalk_job.specs.Given.{counted_reading, ClonesCount};
    ghost use Rattle.jwalk_job.specs.Options as options;
    ghost use Rattle.jwalk_job.specs.Job.{options_of};
    ghost use Rattle.jwalk_readings.specs.ReadAhead.{BeginsWith};
    ghost use Rattle.jwalk_readings.specs.ReadDirIter.{base_of};
    ghost use Rattle.jwalk_iter.specs.DirEntryIter.{reads_of, by_crew, is_refused, job_of, items_of, unread_of, width_of, frontier_of, read_ahead, held_by, IsWithin, IsSourced, IsPlaced, IsRefused};

    /// Returns a walk whose start ran out of memory: it yields the error that reports it, and nothing else. The call
    /// itself needs no memory.
    pub fn refused(alloc: A, job: Job<C, S, P, A>) -> Self
        ensures own { by_crew result ≡ false }
        ensures job { job_of result ≡ job }
        ensures refused { is_refused result ≡ true }
        ensures items { items_of result ≡ [] }
        ensures unread { unread_of result ≡ [] }
        ensures width { width_of result ≡ options.width_of (options_of job).parallelism }
        ensures ahead { BeginsWith (unread_of result) (frontier_of result) (read_ahead result) }
    {
        let mode = job.options().mode();
        Entries {
            reads: ReadDirIter::new(alloc, job, mode),
            items: Vec::new(alloc),
            refused: true,
            skip: Skip::Nothing,
        }
    }

    fn begin(&mut self, read: ReadDir<C, A>) -> Result<(), AllocError>
        requires { by_crew self.old ≡ false }
        ensures base { base_of (reads_of self.new) ≡ base_of (reads_of self.old) }
        ensures refused { self.new.refused ≡ self.old.refused }
        ensures items { OnOk result (items_of self.new ≡ (reading read).list ++ items_of self.old) }
        ensures children { OnOk result (AreClones C.ReadDirState.is_clone
            (children (reading read)) (unread_of self.new)) }
        ensures ahead { OnOk result (BeginsWith (unread_of self.new) (frontier_of self.new) (read_ahead self.new)) }
    {
        self.reads.begin(read.read_children_specs()?)?;
        self.receive(read)?;
        Ok(())
    }

    /// Returns the walk that begins with the root's list, which is `None` if memory ran out for it. If memory ran out,
    /// the walk yields the error that reports it, and nothing else.
    pub fn from_root(alloc: A, job: Job<C, S, P, A>, read: Option<ReadDir<C, A>>) -> Self
        requires { IfSome read (λ r. AtDepth 0 (reading r).list) }
        ensures own { by_crew result ≡ false }
        ensures job { job_of result ≡ job }
        ensures refused { is_refused result ≡ true → IsRefused result }
        ensures within { IsWithin result }
        ensures sourced { IsSourced result }
        ensures placed { IsPlaced result }
        ensures depth { is_refused result ≡ false → AtDepth 0 (items_of result) }
        ensures list { is_refused result ≡ false → IsSomeAnd read (λ r. items_of result ≡ (reading r).list) }
        ensures width { width_of result ≡ options.width_of (options_of job).parallelism }
        ensures ahead { BeginsWith (unread_of result) (frontier_of result) (read_ahead result) }
        ensures held { (g : _) → ClonesCount C.ReadDirState.Clone g → is_refused result ≡ false
            → IsSomeAnd read (λ r. held_by g result ≡ paired (counted_reading g (reading r))) }
    {
        let mut walk = DirEntryIter::refused(alloc, job);
        let Some(read) = read else {
            return walk;
        };
        match walk.begin(read) {
            Ok(()) => walk.refused = false,
            Err(_) => {
                walk.items.clear();
                ReadDirIter::stop(&mut walk.reads);
            }
        }
        walk
    }
}
