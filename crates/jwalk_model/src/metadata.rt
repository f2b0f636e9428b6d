//! What a file system knows of a path.
ghost use Rattle.std.specs.Prelude.{◌≡◌, Some};

use crate::file_type::FileType;
use crate::packed_details::PackedDetails;

/// A point in time: seconds since the beginning of 1970, negative before it, and the nanoseconds that follow them.
#[derive(Clone, Copy, Debug, PartialEq, Eq, PartialOrd, Ord, Hash)]
pub struct Moment {
    pub seconds: i64,
    /// Less than a second, also before 1970.
    pub nanoseconds: u32,
}

/// Which file it is: paths with the same identity lead to the same file.
#[derive(Clone, Copy, Debug, PartialEq, Eq, PartialOrd, Ord, Hash)]
pub struct Identity {
    /// The number of the device that the file is on.
    pub device: u64,
    /// The number of the file on its device.
    pub inode: u64,
}

impl Identity {
    ghost use Rattle.std.specs.Prelude.{◌==◌};
    ghost use Rattle.jwalk_model.specs.Metadata.{is_known, same_file};

    /// Returns whether it says which file it is: no file has both numbers 0.
    pub fn is_known(self) -> bool
        ensures { result ≡ is_known self }
    {
        self.device != 0 || self.inode != 0
    }

    /// Returns whether both are the same file.
    pub fn is_same_file(self, other: Identity) -> bool
        ensures { result ≡ same_file self other }
    {
        self.device == other.device && self.inode == other.inode
    }

    /// Returns whether both are on the same device.
    pub fn is_on_same_device(self, other: Identity) -> bool
        ensures { result ≡ (self.device == other.device) }
    {
        self.device == other.device
    }
}

/// What some file systems know beside type and length, as `std::os::unix::fs::MetadataExt` returns it.
#[derive(Clone, Copy, Debug, PartialEq, Eq)]
pub struct Details {
    pub identity: Identity,
    /// How many names it has (hard links).
    pub links: u64,
    /// How many blocks of 512 bytes it takes.
    pub blocks: u64,
    /// When its content was last written.
    pub modified: Moment,
    /// When its content was last read, as far as the file system notes that.
    pub accessed: Moment,
    /// When its content or its metadata last changed.
    pub changed: Moment,
    /// When it was created, if the file system knows it.
    pub created: Option<Moment>,
    /// The type and the permissions, as `stat` has them.
    pub mode: u32,
    /// The number of its owner.
    pub uid: u32,
    /// The number of its group.
    pub gid: u32,
}

/// A type and a length, like `std::fs::Metadata`, and details where the file system knows them.
#[derive(Clone, Copy, Debug, PartialEq, Eq)]
pub struct Metadata {
    file_type: FileType,
    len: u64,
    details: Option<PackedDetails>,
}

impl Metadata {
    ghost use Rattle.jwalk_model.specs.Metadata.{type_of, len_of, details_of, identity_of, metadata, with_details};
    ghost use Rattle.jwalk_model.specs.FileType.{is_dir, is_file};

    /// Returns the metadata with this type and this length in bytes, without details.
    pub fn new(file_type: FileType, len: u64) -> Self
        ensures { result ≡ metadata file_type len }
    {
        Metadata {
            file_type,
            len,
            details: None,
        }
    }

    /// Returns the same metadata with these details.
    pub fn with_details(self, details: Details) -> Self
        ensures value { result ≡ with_details details self }
        ensures kept { details_of result ≡ Some details }
    {
        Metadata {
            file_type: self.file_type,
            len: self.len,
            details: Some(PackedDetails::new(details)),
        }
    }

    /// Returns the type that it was made with.
    pub fn file_type(&self) -> FileType
        ensures { result ≡ type_of self.now }
    {
        self.file_type
    }

    /// Returns the length that it was made with, in bytes.
    pub fn len(&self) -> u64
        ensures { result ≡ len_of self.now }
    {
        self.len
    }

    /// Returns the details that are known.
    pub fn details(&self) -> Option<Details>
        ensures { result ≡ details_of self.now }
    {
        match &self.details {
            Some(packed) => Some(packed.details()),
            None => None,
        }
    }

    /// Returns which file it is, if that is known: not if both numbers are 0.
    pub fn identity(&self) -> Option<Identity>
        ensures { result ≡ identity_of self.now }
    {
        match &self.details {
            Some(packed) if packed.identity().is_known() => Some(packed.identity()),
            _ => None,
        }
    }

    /// Returns whether it is that of a directory.
    pub fn is_dir(&self) -> bool
        ensures { result ≡ is_dir (type_of self.now) }
    {
        self.file_type.is_dir()
    }

    /// Returns whether it is that of a regular file.
    pub fn is_file(&self) -> bool
        ensures { result ≡ is_file (type_of self.now) }
    {
        self.file_type.is_file()
    }
}
