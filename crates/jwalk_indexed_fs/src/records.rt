//! What is kept of a directory.
ghost use Rattle.std.specs.Prelude.{◌↔◌, IsTrue, OnOk};
ghost use Rattle.jwalk_fs.specs.Views.{TakesAll};

use crate::names::Names;
use crate::stamp::Stamp;
use jwalk_fs::sink::Sink;
use jwalk_model::metadata::Metadata;
use std::alloc::AllocError;

/// What a directory held at a time: its names in the order of their bytes, each with its type.
#[derive(Drop)]
pub struct Record {
    /// The directory's stamp at that time. Without one it isn't known what the directory holds later.
    pub stamp: Option<Stamp>,
    pub names: Names,
}

impl Record {
    ghost use Rattle.jwalk_indexed_fs.specs.Records.{list_kept, HasKeptStamp};

    /// Returns whether what was found at the directory's path has the stamp that is kept.
    pub fn has_stamp_of(&self, found: &Metadata) -> bool
        ensures { IsTrue result ↔ HasKeptStamp self.now.stamp found.now }
    {
        match (self.stamp, Stamp::of(found)) {
            (Some(kept), Some(stamp)) => kept == stamp,
            _ => false,
        }
    }

    /// Gives a sink the names, each with its type.
    ///
    /// # Errors
    ///
    /// If memory runs out.
    pub fn list_into<K: Sink>(&self, sink: &mut K) -> Result<(), AllocError>
        ensures { OnOk result (TakesAll K.Took (list_kept self.now.names) sink.old sink.new) }
    {
        for (name, file_type) in self.names.iter() {
            sink.take(name, Ok(file_type))?;
        }
        Ok(())
    }
}
