//! What a look-up reaches.
ghost use Rattle.std.specs.Prelude.{◌≡◌};

use jwalk_model::file_type::FileType;
use jwalk_model::metadata::Metadata;

/// A directory by its index in the table, a file by its length, or a link by its holder's index and its target.
#[derive(Clone, Copy)]
pub enum Hit<'a> {
    Dir(usize),
    File(u64),
    Link(usize, &'a str),
}

impl<'a> Hit<'a> {
    ghost use Rattle.jwalk_memory_fs.specs.Hit.{hit_seen, metadata_of};

    /// A directory has length 0, a link as many bytes as its target.
    pub(crate) fn metadata(self) -> Metadata
        ensures { result ≡ metadata_of (hit_seen self.entry) }
    {
        match self {
            Hit::Dir(_) => Metadata::new(FileType::Dir, 0),
            Hit::File(len) => Metadata::new(FileType::File, len),
            Hit::Link(_, target) => Metadata::new(FileType::Symlink, target.len() as u64),
        }
    }
}
