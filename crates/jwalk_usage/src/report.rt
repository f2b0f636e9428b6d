//! What a walk's answers come to.
use std::{error, fmt};

/// How many entries of each type there are, how many errors, and how many bytes.
#[derive(Clone, Copy, Debug, PartialEq, Eq)]
pub struct Usage {
    /// Regular files.
    pub files: u128,
    /// Directories.
    pub dirs: u128,
    /// Symbolic links that were yielded as links.
    pub links: u128,
    /// Entries of any other type, such as sockets and devices.
    pub others: u128,
    /// Errors: those that were yielded, those of directories that could not be read, and those of files whose metadata
    /// could not be read.
    pub errors: u128,
    /// The lengths of the regular files, added up.
    pub bytes: u128,
}

/// Why a usage isn't known.
#[derive(Clone, Copy, Debug, PartialEq, Eq)]
pub enum UsageFault {
    /// A number passes the greatest `u128`.
    TooMany,
    /// Memory ran out, in the walk or for a file's metadata.
    Memory,
}

/// The entries of a usage, by their types.
#[derive(Drop)]
struct Entries<'u>(&'u Usage);

impl fmt::Display for Entries<'_> {
    ghost use Rattle.std.specs.Prelude.{Some};
    ghost use Rattle.jwalk_usage.specs.Totals.{entries_text};

    ghost output = { λ entries. Some (entries_text entries.0.now) };

    fn fmt<W: fmt::Write>(&self, f: &mut fmt::Formatter<W>) -> fmt::Result {
        let Usage {
            files,
            dirs,
            links,
            others,
            ..
        } = self.0;
        write!(f, "files {files} dirs {dirs} links {links} others {others}")
    }
}

impl fmt::Display for Usage {
    ghost use Rattle.std.specs.Prelude.{Some};
    ghost use Rattle.jwalk_usage.specs.Totals.{usage_text};

    ghost output = { λ usage. Some (usage_text usage) };

    fn fmt<W: fmt::Write>(&self, f: &mut fmt::Formatter<W>) -> fmt::Result {
        write!(
            f,
            "{} errors {} bytes {}",
            Entries(self),
            self.errors,
            self.bytes
        )
    }
}

impl fmt::Display for UsageFault {
    ghost use Rattle.std.specs.Prelude.{Some};
    ghost use Rattle.jwalk_usage.specs.Totals.{fault_text};

    ghost output = { λ fault. Some (fault_text fault) };

    fn fmt<W: fmt::Write>(&self, f: &mut fmt::Formatter<W>) -> fmt::Result {
        match self {
            UsageFault::TooMany => f.write_str("a total passes the greatest number"),
            UsageFault::Memory => f.write_str("memory refused for the totals"),
        }
    }
}

impl error::Error for UsageFault {}
