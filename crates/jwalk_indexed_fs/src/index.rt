//! Records of directories by their paths.
ghost use Rattle.std.specs.Prelude.{◌≡◌, ℕ, List, None, Some, OnOk, OnErr, option_copied, string_bytes};
ghost use Rattle.std.specs.Map.{update};
ghost use Rattle.std.specs.Str.{bytes_eq};

use crate::records::Record;
use std::alloc::{AllocError, Global};
use std::collections::HashMap;

/// Records of directories by the texts of their paths, as a walk asks for them: that of its root, and for what is below
/// a directory its path and a name, joined.
#[derive(Drop)]
pub struct Index {
    records: HashMap<String, Record>,
}

impl Index {
    ghost use Rattle.jwalk_indexed_fs.specs.Index.{record_at};

    /// Returns an index without records.
    pub fn new(alloc: Global) -> Self
        ensures { (path : List ℕ) → record_at result path ≡ None }
    {
        Index {
            records: HashMap::new(alloc),
        }
    }

    /// Adds the record of a directory, in place of one that was kept for the same path.
    ///
    /// # Errors
    ///
    /// If memory runs out. The records are unchanged then.
    pub fn insert(&mut self, path: String, kept: Record) -> Result<(), AllocError>
        ensures added { OnOk result ((at : List ℕ) → record_at self.new at
            ≡ update bytes_eq (record_at self.old) (string_bytes path) (Some kept) at) }
        ensures unchanged { OnErr result ((at : List ℕ) → record_at self.new at ≡ record_at self.old at) }
    {
        self.records.insert(path, kept)?;
        Ok(())
    }

    /// Returns what is kept of the directory at a path.
    pub fn get(&self, path: &str) -> Option<&Record>
        ensures { option_copied result ≡ record_at self.now path.now }
    {
        self.records.get(path)
    }

    /// Takes the record of the directory at a path away, and returns it.
    pub fn take(&mut self, path: &str) -> Option<Record>
        ensures value { result ≡ record_at self.old path.now }
        ensures rest { (at : List ℕ) → record_at self.new at ≡ update bytes_eq (record_at self.old) path.now None at }
    {
        self.records.remove(path)
    }
}
