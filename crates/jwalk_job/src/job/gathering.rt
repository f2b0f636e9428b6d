//! The items of a directory while it is listed.
ghost use Rattle.std.specs.Prelude.{◌≡◌, ◌+◌, ◌<◌, ◌^◌, List, [], ◌∷◌, ◌++◌, Err, Some, OnOk};
ghost use Rattle.jwalk_model.specs.FileSystem as value;
ghost use Rattle.jwalk_job.specs.Error.{name_of};
ghost use Rattle.jwalk_job.specs.ReadDirSpec.{spec};

use super::Job;
use super::inside::Inside;
use crate::client_state::ClientState;
use crate::error::Error;
use crate::item::List;
use crate::process_read_dir::ProcessReadDir;
use crate::read_dir_spec::ReadDirSpec;
use jwalk_fs::file_system::FileSystem;
use jwalk_fs::sink::Sink;
use jwalk_model::file_type::FileType;
use jwalk_model::seen::Seen;
use std::alloc::{AllocError, Allocator};
use std::io;
use std::io::ErrorKind;

/// The entries and errors of a directory that is being listed, each made as soon as its name is known.
#[derive(Drop)]
pub(super) struct Gathering<'g, C: ClientState, S, P, A: Allocator + Copy> {
    job: &'g Job<C, S, P, A>,
    of: &'g ReadDirSpec<C, A>,
    inside: Inside<A>,
    items: List<C, A>,
    ghost fits: { (spec of.now).depth + 1 < 2 ^ 64 },
}

impl<'g, C: ClientState, S, P, A: Allocator + Copy> Gathering<'g, C, S, P, A> {
    pub(super) fn new(
        job: &'g Job<C, S, P, A>,
        of: &'g ReadDirSpec<C, A>,
        inside: Inside<A>,
    ) -> Self
        requires { (spec of.now).depth + 1 < 2 ^ 64 }
        ensures job { result.job.now ≡ job.now }
        ensures of { result.of.now ≡ of.now }
        ensures inside { result.inside ≡ inside }
        ensures items { result.items.items ≡ [] }
    {
        Gathering {
            job,
            of,
            inside,
            items: Vec::new(job.alloc),
        }
    }

    pub(super) fn into_items(self) -> List<C, A>
        ensures { result ≡ self.entry.items }
    {
        self.items
    }
}

impl<'g, C: ClientState, S: FileSystem, P: ProcessReadDir<C, A>, A: Allocator + Copy> Sink
    for Gathering<'g, C, S, P, A> {
    ghost use Rattle.jwalk_job.specs.Gathering.{IsGathered};

    ghost Took = { λ first listing last. IsGathered S.FileSystem C.DirEntryState.Default first listing last };

    fn take_seen(&mut self, name: &str, seen: io::Result<Seen>) -> Result<(), AllocError> {
        match self.job.named(self.of, &mut self.inside, name, seen)? {
            Some(item) => {
                self.items.push(item)?;
                Ok(())
            }
            None => Ok(()),
        }
    }

    fn take(&mut self, name: &str, file_type: io::Result<FileType>) -> Result<(), AllocError> {
        match file_type {
            Ok(file_type) => self.take_seen(name, Ok(Seen::TypeAlone(file_type))),
            Err(error) => self.take_seen(name, Err(error)),
        }
    }

    fn take_error(&mut self, error: io::Error) -> Result<(), AllocError> {
        let depth = self.of.depth() + 1;
        let parent = self.of.path.clone()?;
        self.items
            .push(Err(Error::from_item(depth, parent, error)))?;
        Ok(())
    }

    fn take_bad_name(&mut self, name: &[u8]) -> Result<(), AllocError>
        ensures taken { (first : _) (before : List value.Listed)
            → IsGathered S.FileSystem C.DirEntryState.Default first before self.old → OnOk result (IsGathered S.FileSystem
            C.DirEntryState.Default first (before ++ Err ErrorKind.InvalidFilename ∷ []) self.new) }
        ensures named { OnOk result ((e : _) × (self.new.items.items ≡ self.old.items.items ++ Err e ∷ [])
            × (name_of e ≡ Some name.now)) }
    {
        let depth = self.of.depth() + 1;
        let parent = self.of.path.clone()?;
        let name = name.to_vec(self.job.alloc)?;
        self.items
            .push(Err(Error::from_bad_name(depth, parent, name)))?;
        Ok(())
    }
}
