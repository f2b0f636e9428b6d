//! Which reading an iterator waits for.
ghost use Rattle.std.specs.Prelude.{◌↔◌, IsTrue, IfOk};
ghost use Rattle.jwalk_order.specs.IndexPath.{address as indices_of};
ghost use Rattle.jwalk_job.specs.ReadDirSpec.{spec};
ghost use Rattle.jwalk_job.specs.Options.{options_value};
ghost use Rattle.jwalk_readings.specs.Wanted.{Fits, IsFor};

use crate::message::Message;
use jwalk_fs::file_system::FileSystem;
use jwalk_job::ancestors::Ancestors;
use jwalk_job::client_state::ClientState;
use jwalk_job::options::Options;
use jwalk_job::process_read_dir::ProcessReadDir;
use jwalk_job::read_dir_spec::ReadDirSpec;
use jwalk_order::index_path::IndexPath;
use jwalk_order::ordered::Ordered;
use std::alloc::{AllocError, Allocator, Global};
use std::sync::Arc;

/// Which reading an iterator waits for: that of the directory at an address, by a walk's options.
pub struct Wanted<A: Allocator + Copy = Global> {
    /// The address of the directory in the walk.
    pub address: IndexPath<A>,
    /// The path of the directory.
    pub path: Arc<String<A>, A>,
    /// The depth of the directory.
    pub depth: usize,
    /// The directories above it, empty if links aren't followed. The root has its own path there.
    pub ancestors: Ancestors<A>,
    /// The options that it is to be read by.
    pub options: Options,
}

impl<A: Allocator + Copy> Drop for Wanted<A> {
    fn drop(self) {
        let Wanted {
            address: _,
            path: _,
            depth: _,
            ancestors: _,
            options: _,
        } = self;
    }
}

impl<A: Allocator + Copy> Wanted<A> {
    /// Returns what is wanted: the reading of a directory at this address, by these options.
    ///
    /// # Errors
    ///
    /// If memory runs out.
    pub fn of<C: ClientState>(
        address: IndexPath<A>,
        of: &ReadDirSpec<C, A>,
        options: Options,
    ) -> Result<Self, AllocError>
        ensures { IfOk result (IsFor (indices_of address) (spec of.now) (options_value options)) }
    {
        Ok(Wanted {
            address,
            path: of.path.clone()?,
            depth: of.depth(),
            ancestors: of.ancestors().share()?,
            options,
        })
    }

    /// Returns whether a message that was handed out is the reading waited for.
    pub fn fits<C: ClientState, S: FileSystem, P: ProcessReadDir<C, A>>(
        &self,
        item: &Ordered<Message<C, S, P, A>, A>,
    ) -> bool
        ensures { IsTrue result ↔ Fits self.now item.now }
    {
        let of = item.value.of();
        item.index_path == self.address
            && of.is_directory(self.depth, self.path.as_str(), &self.ancestors)
            && item.value.job().options().reads_as(self.options)
    }
}
