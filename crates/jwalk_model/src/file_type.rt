//! What an entry of a directory is.
ghost use Rattle.std.specs.Prelude.{◌≡◌};

/// The type of an entry, like `std::fs::FileType`.
#[derive(Clone, Copy, Debug, PartialEq, Eq)]
pub enum FileType {
    Dir,
    File,
    Symlink,
    /// All else: a socket, a pipe, a device.
    Other,
}

impl FileType {
    ghost use Rattle.jwalk_model.specs.FileType.{is_dir, is_file, is_symlink};

    /// Returns whether it is a directory.
    pub fn is_dir(&self) -> bool
        ensures { result ≡ is_dir self.now }
    {
        matches!(self, FileType::Dir)
    }

    /// Returns whether it is a regular file.
    pub fn is_file(&self) -> bool
        ensures { result ≡ is_file self.now }
    {
        matches!(self, FileType::File)
    }

    /// Returns whether it is a symbolic link.
    pub fn is_symlink(&self) -> bool
        ensures { result ≡ is_symlink self.now }
    {
        matches!(self, FileType::Symlink)
    }
}
