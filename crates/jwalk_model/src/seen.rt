//! What a listing says of a name.
ghost use Rattle.std.specs.Prelude.{◌≡◌};

use crate::file_type::FileType;
use crate::metadata::{Identity, Metadata};

/// What a listing says of what is at a name: its type, or all that the file system knows of it.
#[derive(Clone, Copy, Debug, PartialEq, Eq)]
pub enum Seen {
    TypeAlone(FileType),
    Whole(Metadata),
}

impl Seen {
    ghost use Rattle.jwalk_model.specs.Seen.{type_seen, metadata_seen, identity_seen};

    /// Returns the type.
    pub fn file_type(&self) -> FileType
        ensures { result ≡ type_seen self.now }
    {
        match self {
            Seen::TypeAlone(file_type) => *file_type,
            Seen::Whole(metadata) => metadata.file_type(),
        }
    }

    /// Returns the metadata, if the listing says all of it.
    pub fn metadata(&self) -> Option<Metadata>
        ensures { result ≡ metadata_seen self.now }
    {
        match self {
            Seen::TypeAlone(_) => None,
            Seen::Whole(metadata) => Some(*metadata),
        }
    }

    /// Returns which file it is, if the listing says it.
    pub fn identity(&self) -> Option<Identity>
        ensures { result ≡ identity_seen self.now }
    {
        match self {
            Seen::TypeAlone(_) => None,
            Seen::Whole(metadata) => metadata.identity(),
        }
    }
}
