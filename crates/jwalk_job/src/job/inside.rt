//! What the entries of one directory share.
ghost use Rattle.std.specs.Prelude.{◌≡◌, None, IfOk, map, option_map};
ghost use Rattle.jwalk_model.specs.Job as value;
ghost use Rattle.jwalk_model.specs.Metadata.{is_elsewhere};
ghost use Rattle.jwalk_job.specs.Text.{text};
ghost use Rattle.jwalk_job.specs.Ancestors.{texts};
ghost use Rattle.jwalk_job.specs.Inside.{known_of, IsAsked, AsksOn};

use crate::ancestors::Ancestors;
use jwalk_fs::file_system::FileSystem;
use jwalk_model::file_type::FileType;
use jwalk_model::metadata::Identity;
use std::alloc::{AllocError, Allocator};
use std::sync::Arc;

/// What the entries of one directory share: the directories above them, and what was asked of these.
#[derive(Drop)]
pub(super) struct Inside<A: Allocator + Copy> {
    ancestors: Ancestors<A>,
    /// Which file the directory is, if the walk stays on one file system.
    within: Option<Identity>,
    /// Which files the ancestors are, once a link needs them.
    identities: Option<Vec<Option<Identity>, A>>,
}

/// Returns whether two files are known to be on different file systems.
fn is_elsewhere(within: Option<Identity>, identity: Option<Identity>) -> bool
    ensures { result ≡ is_elsewhere within identity }
{
    match (within, identity) {
        (Some(within), Some(identity)) => !within.is_on_same_device(identity),
        _ => false,
    }
}

impl<A: Allocator + Copy> Inside<A> {
    pub(super) fn new(ancestors: Ancestors<A>, within: Option<Identity>) -> Self
        ensures ancestors { result.ancestors ≡ ancestors }
        ensures within { result.within ≡ within }
        ensures identities { result.identities ≡ None }
    {
        Inside {
            ancestors,
            within,
            identities: None,
        }
    }

    pub(super) fn ancestors(&self) -> &Ancestors<A>
        ensures { result.now ≡ self.now.ancestors }
    {
        &self.ancestors
    }

    /// Returns whether what is found here is a directory that is entered: not if it is known to be on another file
    /// system, and the walk stays on one.
    pub(super) fn enters(&self, file_type: FileType, identity: Option<Identity>) -> bool
        ensures { result ≡ value.is_entered self.now.within file_type identity }
    {
        file_type.is_dir() && !is_elsewhere(self.within, identity)
    }

    /// Asks which files the ancestors are, if it wasn't asked before.
    fn ask<S: FileSystem>(&mut self, alloc: A, fs: &S) -> Result<(), AllocError>
        ensures asks { S.IsFixed fs.now → IfOk result (λ _. AsksOn (S.functions fs.now) self.old self.new) }
        ensures known { S.IsFixed fs.now → IsAsked (S.functions fs.now) self.old
            → IfOk result (λ _. known_of self.new
            ≡ map (value.identity_at (S.functions fs.now)) (texts self.old.ancestors)) }
    {
        if self.identities.is_none() {
            self.identities = Some(self.ancestors.identities(alloc, fs)?);
        }
        Ok(())
    }

    /// Returns which files the ancestors are, and nothing before it was asked.
    fn known(&self) -> &[Option<Identity>]
        ensures { result.now ≡ known_of self.now }
    {
        match &self.identities {
            Some(known) => known.as_slice(),
            None => &[],
        }
    }

    /// Returns a handle of the nearest path above that a link leads to. `target` is which file the link leads to, if it
    /// is known. `path` is where its text leads to. The file system is asked which files the ancestors are by the first
    /// link whose target is known, and not again.
    pub(super) fn nearest<S: FileSystem>(
        &mut self,
        alloc: A,
        fs: &S,
        target: Option<Identity>,
        path: &str,
    ) -> Result<Option<Arc<String<A>, A>>, AllocError>
        ensures asks { S.IsFixed fs.now → IfOk result (λ _. AsksOn (S.functions fs.now) self.old self.new) }
        ensures value { S.IsFixed fs.now → IsAsked (S.functions fs.now) self.old
            → IfOk result (λ o. option_map text o
            ≡ value.looped_to (S.functions fs.now) target path.now (texts self.old.ancestors)) }
    {
        if target.is_some() {
            self.ask(alloc, fs)?;
        }
        self.ancestors.nearest(alloc, target, self.known(), path)
    }
}
