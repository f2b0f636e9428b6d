//! What is compared of two entries at the same path.
ghost use Rattle.std.specs.Prelude.{◌≡◌};
ghost use Rattle.jwalk_changes.specs.Differ.{differ};

use jwalk_model::file_type::FileType;
use jwalk_model::metadata::Moment;

/// What is known of an entry beside its path. What one of two entries doesn't know isn't compared.
#[derive(Clone, Copy, Debug, PartialEq, Eq)]
pub struct Facts {
    pub file_type: FileType,
    /// The length in bytes. It isn't compared where one of the two is a directory.
    pub len: Option<u64>,
    /// The time of modification. It isn't compared where one of the two is a directory.
    pub modified: Option<Moment>,
    /// The number of the file on its device.
    pub inode: Option<u64>,
}

/// Which facts of two entries differ.
#[derive(Clone, Copy, Debug, PartialEq, Eq)]
pub struct Which {
    pub file_type: bool,
    pub len: bool,
    pub modified: bool,
    pub inode: bool,
}

impl Which {
    ghost use Rattle.jwalk_changes.specs.Facts.{is_any};

    /// Returns whether any of them differs.
    pub fn any(self) -> bool
        ensures { result ≡ is_any self }
    {
        self.file_type || self.len || self.modified || self.inode
    }
}

/// Returns whether both are known and differ.
fn differ<T: PartialEq + Copy>(a: Option<T>, b: Option<T>) -> bool
    ensures { result ≡ differ T.eq a b }
{
    match (a, b) {
        (Some(a), Some(b)) => a != b,
        _ => false,
    }
}

impl Facts {
    ghost use Rattle.jwalk_changes.specs.Facts.{which};

    /// Returns which facts of an old and a new entry differ.
    pub fn which(self, new: Facts) -> Which
        ensures { result ≡ which self new }
    {
        let of_dir = self.file_type.is_dir() || new.file_type.is_dir();
        Which {
            file_type: self.file_type != new.file_type,
            len: !of_dir && differ(self.len, new.len),
            modified: !of_dir && differ(self.modified, new.modified),
            inode: differ(self.inode, new.inode),
        }
    }
}
