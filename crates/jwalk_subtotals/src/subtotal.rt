//! What is at and below an entry.
ghost use Rattle.std.specs.Prelude.{◌≡◌, IfErr, OnOk};
ghost use Rattle.jwalk_usage.specs.declared.report.UsageFault.TheVariants.{TooMany};
ghost use Rattle.jwalk_subtotals.specs.Subtotal.{nothing, plus, IsTooGreat};

use jwalk_usage::UsageFault;
use jwalk_usage::sums::plus;

/// What an entry and all below it count: bytes, entries of each type, and errors.
#[derive(Clone, Copy, Debug, PartialEq, Eq)]
pub struct Subtotal {
    /// The sizes of all entries, directories and links too, added up.
    pub bytes: u128,
    /// The lengths of the regular files, added up.
    pub file_bytes: u128,
    /// Regular files.
    pub files: u128,
    /// Directories.
    pub dirs: u128,
    /// Symbolic links that were yielded as links.
    pub links: u128,
    /// Entries of any other type, such as sockets and devices.
    pub others: u128,
    /// Errors: those that were yielded, and those of directories that could not be read.
    pub errors: u128,
}

impl Subtotal {
    /// Returns the subtotal of nothing.
    pub fn nothing() -> Self
        ensures { result ≡ nothing }
    {
        Subtotal {
            bytes: 0,
            file_bytes: 0,
            files: 0,
            dirs: 0,
            links: 0,
            others: 0,
            errors: 0,
        }
    }

    /// Adds another subtotal.
    ///
    /// # Errors
    ///
    /// `UsageFault::TooMany` if a number passes the greatest `u128`.
    pub fn add(&mut self, more: &Subtotal) -> Result<(), UsageFault>
        ensures sums { OnOk result (self.new ≡ plus self.old more.now) }
        ensures too_many { IfErr result (λ fault. (fault ≡ TooMany) × IsTooGreat (plus self.old more.now)) }
    {
        self.bytes = plus(self.bytes, more.bytes)?;
        self.file_bytes = plus(self.file_bytes, more.file_bytes)?;
        self.files = plus(self.files, more.files)?;
        self.dirs = plus(self.dirs, more.dirs)?;
        self.links = plus(self.links, more.links)?;
        self.others = plus(self.others, more.others)?;
        self.errors = plus(self.errors, more.errors)?;
        Ok(())
    }
}
