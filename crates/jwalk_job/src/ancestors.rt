//! The directories above an entry.
ghost use Rattle.std.specs.Prelude.{◌≡◌, List, ℕ, ◌↔◌, ◌++◌, ◌∷◌, [], IfOk, IfSome, IsTrue, map, option_map};
ghost use Rattle.jwalk_model.specs.Paths.{normalised};
ghost use Rattle.jwalk_model.specs.FileSystem.{Functions};
ghost use Rattle.jwalk_model.specs.Job as value;
ghost use Rattle.jwalk_fs.specs.Place.{place_seen};
ghost use Rattle.jwalk_job.specs.Text.{text};
ghost use Rattle.jwalk_job.specs.Ancestors.{texts, AreKnown};

use jwalk_fs::fault::Fault;
use jwalk_fs::file_system::FileSystem;
use jwalk_fs::place::Place;
use jwalk_model::metadata::Identity;
use std::alloc::{AllocError, Allocator, Global};
use std::sync::Arc;

/// The paths of the directories above an entry, that of the root first: a shared list of shared paths. There is no list
/// if links aren't followed.
pub struct Ancestors<A: Allocator + Copy = Global> {
    paths: Option<Arc<Vec<Arc<String<A>, A>, A>, A>>,
}

impl<A: Allocator + Copy> Drop for Ancestors<A> {
    fn drop(self) {
        let Ancestors { paths: _ } = self;
    }
}

/// Returns which file is at a path, through its last link, if the file system knows it.
pub(crate) fn identity_at<S: FileSystem>(fs: &S, path: &str) -> Result<Option<Identity>, AllocError>
    ensures { S.IsFixed fs.now
        → IfOk result (λ found. found ≡ value.identity_at (S.functions fs.now) path.now) }
{
    match fs.metadata(path) {
        Ok(metadata) => Ok(metadata.identity()),
        Err(Fault::Io(_)) => Ok(None),
        Err(Fault::Memory) => Err(AllocError),
    }
}

/// Returns which file is at a path, and asks nothing if the path is the one before, of which it is known.
fn identity_after<S: FileSystem>(
    fs: &S,
    before: Option<(&str, Option<Identity>)>,
    path: &str,
) -> Result<Option<Identity>, AllocError>
    ensures { S.IsFixed fs.now
        → IfSome before.entry (λ b. b.1 ≡ value.identity_at (S.functions fs.now) b.0.now)
        → IfOk result (λ found. found ≡ value.identity_at (S.functions fs.now) path.now) }
{
    match before {
        Some((other, identity)) if other == path => Ok(identity),
        _ => identity_at(fs, path),
    }
}

fn is_target<A: Allocator + Copy>(
    target: Option<Identity>,
    place: &Place<'_, A>,
    above: Option<Identity>,
    path: &str,
) -> bool
    ensures { (words : List ℕ) → place_seen place.now ≡ normalised words
        → result ≡ value.is_target target words above path.now }
{
    match (target, above) {
        (Some(target), Some(above)) => target.is_same_file(above),
        _ => place.is_at(path),
    }
}

fn split_identity(known: &[Option<Identity>]) -> (Option<Identity>, &[Option<Identity>])
    ensures { (before : _) (last : _) → known.now ≡ before ++ last ∷ []
        → (result.0 ≡ last) × (result.1.now ≡ before) }
{
    match known.split_last() {
        Some((last, before)) => (*last, before),
        None => (None, known),
    }
}

impl<A: Allocator + Copy> Ancestors<A> {
    /// Returns no directories.
    pub fn none() -> Self
        ensures { texts result ≡ [] }
    {
        Ancestors { paths: None }
    }

    fn paths(&self) -> &[Arc<String<A>, A>]
        ensures { map text result.now ≡ texts self.now }
    {
        match &self.paths {
            Some(paths) => paths.as_slice(),
            None => &[],
        }
    }

    /// Returns a handle of the same list.
    ///
    /// # Errors
    ///
    /// If memory runs out.
    pub fn share(&self) -> Result<Self, AllocError>
        ensures { IfOk result (λ same. texts same ≡ texts self.now) }
    {
        match &self.paths {
            Some(paths) => Ok(Ancestors {
                paths: Some(paths.clone()?),
            }),
            None => Ok(Ancestors::none()),
        }
    }

    /// Returns whether they are the same paths, in the same order.
    pub fn is_same(&self, other: &Self) -> bool
        ensures { IsTrue result ↔ (texts self.now ≡ texts other.now) }
    {
        self.paths() == other.paths()
    }

    /// Returns these directories, and below them the one at a path.
    ///
    /// # Errors
    ///
    /// If memory runs out.
    pub fn with(&self, alloc: A, path: Arc<String<A>, A>) -> Result<Self, AllocError>
        ensures { IfOk result (λ more. texts more ≡ texts self.now ++ text path ∷ []) }
    {
        let above = self.paths();
        let mut all = Vec::with_capacity(alloc, above.len().saturating_add(1))?;
        all.extend_with_clones(above)?;
        all.push(path)?;
        Ok(Ancestors {
            paths: Some(Arc::new(alloc, all)?),
        })
    }

    /// The root stands twice among the directories above what is in it, and is asked for once.
    pub(crate) fn identities<S: FileSystem>(
        &self,
        alloc: A,
        fs: &S,
    ) -> Result<Vec<Option<Identity>, A>, AllocError>
        ensures { S.IsFixed fs.now → IfOk result (λ known. known.items
            ≡ map (value.identity_at (S.functions fs.now)) (texts self.now)) }
    {
        let paths = self.paths();
        let mut known = Vec::with_capacity(alloc, paths.len())?;
        let mut before = None;
        for path in paths {
            let path = path.as_str();
            let identity = identity_after(fs, before, path)?;
            known.push(identity)?;
            before = Some((path, identity));
        }
        Ok(known)
    }

    /// Returns a handle of the nearest of these paths that a link leads to. `target` is which file the link leads to,
    /// if it is known: then `known` are the identities of these directories. `path` is where its text leads to.
    pub(crate) fn nearest(
        &self,
        alloc: A,
        target: Option<Identity>,
        known: &[Option<Identity>],
        path: &str,
    ) -> Result<Option<Arc<String<A>, A>>, AllocError>
        ensures { (fs : Functions) → AreKnown fs target (texts self.now) known.now
            → IfOk result (λ o. option_map text o ≡ value.looped_to fs target path.now (texts self.now)) }
    {
        let place = Place::new(alloc, path)?;
        let mut left = self.paths();
        let mut identities = known;
        while let Some((last, above)) = left.split_last() {
            let (identity, others) = split_identity(identities);
            if is_target(target, &place, identity, last.as_str()) {
                return Ok(Some(last.clone()?));
            }
            left = above;
            identities = others;
        }
        Ok(None)
    }
}
