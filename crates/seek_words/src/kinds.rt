//! The types of what is looked for.
ghost use Rattle.std.specs.Prelude.{◌≡◌};
ghost use Rattle.std.specs.Option.{option_copied};
ghost use Rattle.seek_words.specs.Kinds.{is_executable, has_format};

use crate::seen::details_seen;
use jwalk_model::file_type::FileType;
use jwalk_model::metadata::Metadata;

pub(crate) fn is_executable(mode: u32) -> bool
    ensures { result ≡ is_executable mode }
{
    mode & 0o111 != 0
}

pub(crate) fn has_format(mode: u32, format: u32) -> bool
    ensures { result ≡ has_format mode format }
{
    mode & 0o170000 == format
}

/// The types of what is looked for. If none is named, all are.
#[derive(Clone, Copy, Debug, PartialEq, Eq)]
pub struct Kinds {
    /// Regular files are named.
    pub file: bool,
    /// Directories are named.
    pub dir: bool,
    /// Links are named.
    pub link: bool,
    /// Regular files that may be executed are named.
    pub executable: bool,
    /// Pipes are named.
    pub pipe: bool,
    /// Sockets are named.
    pub socket: bool,
    /// Block devices are named.
    pub block: bool,
    /// Character devices are named.
    pub char: bool,
    /// Only regular files without bytes and directories without entries are looked for.
    pub empty: bool,
    /// Entries that are neither a file, a directory nor a link are named.
    pub other: bool,
}

impl Kinds {
    ghost use Rattle.seek_words.specs.Kinds.{is_named, is_special, names_mode, names_none, has_mode, has_modes, has_kind, names_empty_alone};

    /// Returns whether a type is named that depends on the mode.
    pub fn names_mode(self) -> bool
        ensures { result ≡ names_mode self }
    {
        self.executable || self.pipe || self.socket || self.block || self.char
    }

    fn names_none(self) -> bool
        ensures { result ≡ names_none self }
    {
        !self.file && !self.dir && !self.link && !self.other && !self.names_mode()
    }

    fn names_empty_alone(self) -> bool
        ensures { result ≡ names_empty_alone self }
    {
        self.empty && !self.file && !self.dir && !self.executable
    }

    fn names(self, file_type: FileType) -> bool
        ensures { result ≡ is_named self file_type }
    {
        match file_type {
            FileType::File => self.file,
            FileType::Dir => self.dir,
            FileType::Symlink => self.link,
            FileType::Other => self.other,
        }
    }

    fn is_special(self, mode: u32) -> bool
        ensures { result ≡ is_special self mode }
    {
        (self.pipe && has_format(mode, 0o010000))
            || (self.socket && has_format(mode, 0o140000))
            || (self.block && has_format(mode, 0o060000))
            || (self.char && has_format(mode, 0o020000))
    }

    fn has_mode(self, file_type: FileType, mode: u32) -> bool
        ensures { result ≡ has_mode self file_type mode }
    {
        (self.executable && file_type.is_file() && is_executable(mode)) || self.is_special(mode)
    }

    fn has_modes(self, file_type: FileType, seen: Option<&Metadata>) -> bool
        ensures { result ≡ has_modes self file_type (option_copied seen.entry) }
    {
        match details_seen(seen) {
            Some(details) => self.has_mode(file_type, details.mode),
            None => false,
        }
    }

    /// Returns whether an entry of this type and with this metadata is looked for, but for emptiness.
    pub fn has(self, file_type: FileType, seen: Option<&Metadata>) -> bool
        ensures { result ≡ has_kind self file_type (option_copied seen.entry) }
    {
        self.names_none()
            || self.names_empty_alone()
            || self.names(file_type)
            || self.has_modes(file_type, seen)
    }
}
