//! Which files were counted.
ghost use Rattle.std.specs.Prelude.{◌≡◌, [], IfOk, OnErr, OnOk};
ghost use Rattle.jwalk_subtotals.specs.Counted.{is_repeated};
ghost use Rattle.jwalk_subtotals.specs.Files.{files_of, AreWith};

use jwalk::file_system::Identity;
use std::alloc::{AllocError, Allocator, Global};
use std::collections::HashSet;
use std::hash::{BuildHasherDefault, FoldHasher};
use std::mem;

/// The files that were counted, of those that other names may lead to. Subtotals of one walk after another count each
/// once, if one hands them on to the next: see [`subtotals_beside`](crate::subtotals_beside).
#[derive(Drop)]
pub struct Files<A: Allocator + Copy = Global> {
    known: HashSet<Identity, BuildHasherDefault<FoldHasher>, A>,
    alloc: A,
}

impl<A: Allocator + Copy> Files<A> {
    /// Returns no files.
    pub fn new(alloc: A) -> Self
        ensures { files_of result ≡ [] }
    {
        Files {
            known: HashSet::new(alloc),
            alloc,
        }
    }

    pub(crate) fn take(&mut self) -> Self
        ensures taken { result ≡ self.old }
        ensures none { files_of self.new ≡ [] }
    {
        let none = Files::new(self.alloc);
        mem::replace(self, none)
    }

    pub(crate) fn insert(&mut self, file: Option<Identity>) -> Result<bool, AllocError>
        ensures before { IfOk result (λ before. before ≡ is_repeated (files_of self.old) file) }
        ensures added { OnOk result (AreWith file (files_of self.old) (files_of self.new)) }
        ensures unchanged { OnErr result (files_of self.new ≡ files_of self.old) }
    {
        match file {
            Some(file) => Ok(!self.known.insert(file)?),
            None => Ok(false),
        }
    }
}
