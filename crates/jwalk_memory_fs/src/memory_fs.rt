//! The file system. A clause sees it as the tree that its directories are.
ghost use Rattle.std.specs.Prelude.{◌≡◌, length};
ghost use Rattle.std.specs.Option.{option_copied, option_map};
ghost use Rattle.std.proofs.Props.{props};
ghost use Rattle.jwalk_model.specs.Paths.{name_of};
ghost use Rattle.jwalk_model.specs.PathTexts.{component_seen};
ghost use Rattle.jwalk_memory_fs.specs.Branch.{IsSound, AreSpare};
ghost use Rattle.jwalk_memory_fs.specs.Table.{branches, free_places};

use crate::build_error::BuildError;
use crate::child::Child;
use crate::hit::Hit;
use crate::spot::Spot;
use crate::table::Table;
use jwalk_fs::fault::Fault;
use jwalk_fs::file_system::FileSystem;
use jwalk_fs::listed::Listed;
use jwalk_fs::sink::{Kept, Sink};
use jwalk_model::metadata::Metadata;
use std::alloc::{Allocator, Global};
use std::io;
use std::io::ErrorKind;
use std::path::{Component, Components, Path};

// How many links one look-up may follow.
const LINK_LIMIT: u32 = 40;

/// A tree of directories, files and links. Its answers change only when it is built on.
pub struct MemoryFs<A: Allocator + Copy = Global> {
    table: Table<A>,
    ghost sound: { IsSound (branches table) } by { Prim.hlevel props },
    ghost spare: { AreSpare (branches table) (free_places table) (length (free_places table)) } by { Prim.hlevel props },
}

impl<A: Allocator + Copy> Drop for MemoryFs<A> {
    fn drop(self) {
        let MemoryFs { table: _ } = self;
    }
}

impl<A: Allocator + Copy> MemoryFs<A> {
    ghost use Rattle.std.specs.Prelude.{◌≡◌, ◌≢◌, ◌<◌, ◌≤◌, ◌↔◌, true, [], None, IfSome, IfOk, IfErr, OnOk, OnErr, MatchOption, MatchResult, Some, Ok, Err};
    ghost use Rattle.jwalk_model.specs.Paths.{components};
    ghost use Rattle.jwalk_model.specs.PathTexts.{components_left, component_seen};
    ghost use Rattle.jwalk_model.specs.Tree.{Place, only_root, directory, file, link, deny, remove, not_found};
    ghost use Rattle.jwalk_memory_fs.specs.Hit.{hit_seen, answer_seen};
    ghost use Rattle.jwalk_memory_fs.specs.Branch.{next_hit, from_root, found, holder_of, named_spot, free_spot, taken_spot, directory_spot, IsWithin, IsSettled, LeadsOn, LinkLeadsOn};
    ghost use Rattle.jwalk_memory_fs.specs.MemoryFs.{tree_of, IsSameTree, IsBuilt, IsAddition};

    /// Returns the tree with nothing below its root, which needs no memory. The allocator serves all that is added.
    pub fn new(alloc: A) -> Self
        ensures { (p : Place) → tree_of result p ≡ only_root p }
    {
        MemoryFs {
            table: Table::new(alloc),
        }
    }

    /// Adds an empty directory as the last child of the directory that holds it.
    ///
    /// # Errors
    ///
    /// `NotFound` if the path's last component is no plain name, or if the ones before it lead to no directory, from
    /// the root. `AlreadyExists` if the name is taken. Else `Memory` if memory runs out. After an error the tree is
    /// unchanged.
    pub fn add_dir(&mut self, path: &str) -> Result<(), BuildError>
        ensures { IsAddition (directory [] None) path.now (tree_of self.old) result (tree_of self.new) }
    {
        let spot = self.free_spot(path)?;
        self.table.add_directory(spot.holder, spot.name)?;
        Ok(())
    }

    /// Adds a file of a length in bytes, where `add_dir` would add a directory, with the same errors.
    pub fn add_file(&mut self, path: &str, len: u64) -> Result<(), BuildError>
        ensures { IsAddition (file len) path.now (tree_of self.old) result (tree_of self.new) }
    {
        let spot = self.free_spot(path)?;
        self.table.add(spot.holder, spot.name, Child::File(len))?;
        Ok(())
    }

    /// Adds a link to a target, which may lead nowhere, where `add_dir` would add a directory, with the same errors. A
    /// relative target starts at the directory that holds the link.
    pub fn add_link(&mut self, path: &str, target: &str) -> Result<(), BuildError>
        ensures { IsAddition (link target.now) path.now (tree_of self.old) result (tree_of self.new) }
    {
        let spot = self.free_spot(path)?;
        self.table.add_link(spot.holder, spot.name, target)?;
        Ok(())
    }

    /// Makes reading the directory at the path fail with this kind from now on. A later kind replaces it, and nothing
    /// else changes. It needs no memory.
    ///
    /// # Errors
    ///
    /// `NotFound` where `add_dir` fails with it, and if no directory has that name. After an error the tree is
    /// unchanged.
    pub fn deny(&mut self, path: &str, kind: ErrorKind) -> Result<(), BuildError>
        ensures denied { OnOk result (IsBuilt (deny kind path.now (tree_of self.old)) (tree_of self.new)) }
        ensures not_found { (result ≡ Err BuildError.NotFound)
            ↔ (deny kind path.now (tree_of self.old) ≡ Err not_found) }
        ensures only_not_found { IfErr result (λ e. e ≡ BuildError.NotFound) }
        ensures err { OnErr result (IsSameTree (tree_of self.old) (tree_of self.new)) }
    {
        let Some(index) = self.directory(path) else {
            return Err(BuildError::NotFound);
        };
        self.table.deny(index, kind);
        Ok(())
    }

    /// Removes a file, a link, or a directory with all that it holds. The other children of the directory that holds it
    /// keep their order. The cost grows with the number of these children and with all that is removed.
    ///
    /// # Errors
    ///
    /// `NotFound` where `add_dir` fails with it, and if nothing has that name. Else `Memory` if memory runs out. After
    /// an error the tree is unchanged.
    pub fn remove(&mut self, path: &str) -> Result<(), BuildError>
        ensures removed { OnOk result (IsBuilt (remove path.now (tree_of self.old)) (tree_of self.new)) }
        ensures not_found { (result ≡ Err BuildError.NotFound)
            ↔ (remove path.now (tree_of self.old) ≡ Err not_found) }
        ensures never_exists { result ≢ Err BuildError.AlreadyExists }
        ensures err { OnErr result (IsSameTree (tree_of self.old) (tree_of self.new)) }
    {
        let Some(spot) = self.taken_spot(path) else {
            return Err(BuildError::NotFound);
        };
        self.table.remove(spot.holder, spot.name)?;
        Ok(())
    }

    // Goes one component on, from what is no link.
    fn step(&self, hit: Hit<'_>, component: Component<'_>) -> Result<Hit<'_>, ErrorKind>
        requires { IsWithin (branches self.now.table) (hit_seen hit) }
        ensures value { answer_seen result
            ≡ next_hit (branches self.now.table) (hit_seen hit.entry) (component_seen component.entry) }
        ensures within { IfOk result (λ h. IsWithin (branches self.now.table) (hit_seen h)) }
    {
        let Hit::Dir(index) = hit else {
            return Err(ErrorKind::Other);
        };
        match component {
            Component::RootDir => Ok(Hit::Dir(0)),
            Component::CurDir => Ok(Hit::Dir(index)),
            Component::ParentDir => Ok(Hit::Dir(self.table.directory(index).parent)),
            Component::Normal(name) => match self.table.directory(index).child(name) {
                Some(child) => Ok(child.hit(index)),
                None => Err(ErrorKind::NotFound),
            },
        }
    }

    // What the components lead to, where the last is followed only as far as it must be, and how many links may be
    // followed from there.
    #[cycle(links)]
    fn walk<'a>(
        &'a self,
        from: Hit<'a>,
        components: Components<'_>,
        links: u32,
    ) -> Result<(Hit<'a>, u32), ErrorKind>
        requires { IsWithin (branches self.now.table) (hit_seen from) }
        ensures value { LeadsOn (branches self.now.table) links (hit_seen from.entry)
            (components_left components.entry) result }
        ensures within { IfOk result (λ r. IsWithin (branches self.now.table) (hit_seen r.0)) }
        ensures fewer { IfOk result (λ r. r.1 ≤ links) }
    {
        let mut hit = from;
        let mut left = links;
        for component in components {
            if let Hit::Link(holder, target) = hit {
                let (end, fewer) = self.followed(holder, target, left)?;
                hit = end;
                left = fewer;
            }
            hit = self.step(hit, component)?;
        }
        Ok((hit, left))
    }

    // What a link leads to, all links followed, and how many may be followed from there.
    #[cycle(links)]
    fn followed<'a>(
        &'a self,
        holder: usize,
        target: &'a str,
        links: u32,
    ) -> Result<(Hit<'a>, u32), ErrorKind>
        requires { holder < length (branches self.now.table) }
        ensures value { LinkLeadsOn (branches self.now.table) links holder target.now result }
        ensures settled { IfOk result (λ r. IsSettled (hit_seen r.0)) }
        ensures within { IfOk result (λ r. IsWithin (branches self.now.table) (hit_seen r.0)) }
        ensures fewer { IfOk result (λ r. r.1 ≤ links) }
    {
        if links == 0 {
            return Err(ErrorKind::Other);
        }
        if target.is_empty() {
            return Err(ErrorKind::NotFound);
        }
        let (hit, left) = self.walk(Hit::Dir(holder), Path::new(target).components(), links - 1)?;
        match hit {
            Hit::Link(holder, target) => self.followed(holder, target, left),
            Hit::Dir(_) => Ok((hit, left)),
            Hit::File(_) => Ok((hit, left)),
        }
    }

    // What the components lead to, from the root. The last, if it is a link, is followed if that is asked for.
    fn reach(&self, components: Components<'_>, follow: bool) -> Result<Hit<'_>, ErrorKind>
        ensures value { answer_seen result
            ≡ from_root (branches self.now.table) follow (components_left components.entry) }
        ensures within { IfOk result (λ h. IsWithin (branches self.now.table) (hit_seen h)) }
    {
        let (hit, left) = self.walk(Hit::Dir(0), components, LINK_LIMIT)?;
        match hit {
            Hit::Dir(_) => Ok(hit),
            Hit::File(_) => Ok(hit),
            Hit::Link(holder, target) => {
                if follow {
                    Ok(self.followed(holder, target, left)?.0)
                } else {
                    Ok(hit)
                }
            }
        }
    }

    // What a path leads to.
    fn look_up(&self, path: &str, follow: bool) -> Result<Hit<'_>, ErrorKind>
        ensures value { answer_seen result ≡ found (branches self.now.table) follow path.now }
        ensures within { IfOk result (λ h. IsWithin (branches self.now.table) (hit_seen h)) }
    {
        if path.is_empty() {
            return Err(ErrorKind::NotFound);
        }
        self.reach(Path::new(path).components(), follow)
    }

    // The directory that the components lead to.
    fn holder(&self, components: Components<'_>) -> Option<usize>
        ensures value { result
            ≡ holder_of (from_root (branches self.now.table) true (components_left components.entry)) }
        ensures within { IfSome result (λ index. index < length (branches self.now.table)) }
    {
        match self.reach(components, true) {
            Ok(Hit::Dir(index)) => Some(index),
            _ => None,
        }
    }

    // Where a path that is built on leads.
    fn spot<'p>(&self, path: &'p str) -> Option<Spot<'p>>
        ensures value { MatchOption result (named_spot (branches self.now.table) (components path.now) ≡ None)
            (λ s. named_spot (branches self.now.table) (components path.now) ≡ Some (s.holder, s.name.now)) }
        ensures within { IfSome result (λ s. s.holder < length (branches self.now.table)) }
    {
        let mut front = Path::new(path).components();
        let name = plain_name(front.next_back())?;
        let holder = self.holder(front)?;
        Some(Spot { holder, name })
    }

    // The same for a new child.
    fn free_spot<'p>(&self, path: &'p str) -> Result<Spot<'p>, BuildError>
        ensures value { MatchResult result
            (λ s. free_spot (branches self.now.table) (components path.now) ≡ Ok (s.holder, s.name.now))
            (λ e. free_spot (branches self.now.table) (components path.now) ≡ Err e) }
        ensures within { IfOk result (λ s. s.holder < length (branches self.now.table)) }
    {
        let Some(spot) = self.spot(path) else {
            return Err(BuildError::NotFound);
        };
        if self.table.directory(spot.holder).child(spot.name).is_some() {
            return Err(BuildError::AlreadyExists);
        }
        Ok(spot)
    }

    // The same for a child that is there.
    fn taken_spot<'p>(&self, path: &'p str) -> Option<Spot<'p>>
        ensures value { MatchOption result (taken_spot (branches self.now.table) (components path.now) ≡ None)
            (λ s. taken_spot (branches self.now.table) (components path.now) ≡ Some (s.holder, s.name.now)) }
        ensures within { IfSome result (λ s. s.holder < length (branches self.now.table)) }
    {
        let spot = self.spot(path)?;
        self.table.directory(spot.holder).child(spot.name)?;
        Some(spot)
    }

    // The directory there.
    fn directory(&self, path: &str) -> Option<usize>
        ensures value { result ≡ directory_spot (branches self.now.table) (components path.now) }
        ensures within { IfSome result (λ index. index < length (branches self.now.table)) }
    {
        let spot = self.spot(path)?;
        match self.table.directory(spot.holder).child(spot.name) {
            Some(Child::Dir(index)) => Some(*index),
            _ => None,
        }
    }
}

/// Only a listing or a link's text takes memory: metadata and every error need none.
///
/// # Errors
///
/// `NotFound` if nothing is at the path. `InvalidInput` for a listing of what is no directory, and for the text of what
/// is no link. The kind that `deny` set, for a listing of that directory. `Other` if a look-up would follow a 41st
/// link, or goes on below what is no directory.
impl<A: Allocator + Copy> FileSystem for MemoryFs<A> {
    ghost use Rattle.std.specs.Prelude.{◌≢◌, List, OnOk, IfErr, IsErr, map, string_bytes};
    ghost use Rattle.jwalk_fs.specs.Views.{listed, AnswersValue, FailsAs, IfIo, TakesAll};
    ghost use Rattle.jwalk_model.specs.FileSystem as value;
    ghost use Rattle.jwalk_model.specs.Tree.{functions_of};
    ghost use Rattle.jwalk_memory_fs.specs.MemoryFs.{tree_of};

    ghost IsFixed = { λ _. Unit {0} };

    ghost functions = { λ fs. functions_of (tree_of fs) };

    fn read_dir<B: Allocator + Copy>(
        &self,
        alloc: B,
        path: &str,
    ) -> Result<Vec<io::Result<Listed<B>>, B>, Fault>
        ensures value { AnswersValue (λ v. map listed v.items) result
            ((functions_of (tree_of self.now)).list_of path.now) }
        ensures errors_need_no_memory { IsErr ((functions_of (tree_of self.now)).list_of path.now)
            → result ≢ Err Fault.Memory }
    {
        let mut kept = Kept::new(alloc);
        self.read_dir_into(alloc, path, &mut kept)?;
        Ok(kept.items)
    }

    fn read_dir_into<B: Allocator + Copy, K: Sink>(
        &self,
        _alloc: B,
        path: &str,
        sink: &mut K,
    ) -> Result<(), Fault>
        ensures taken { OnOk result ((items : List value.Listed) × TakesAll K.Took items sink.old sink.new
            × ((functions_of (tree_of self.now)).list_of path.now ≡ Ok items)) }
        ensures failed { IfErr result (λ fault. FailsAs fault
            ((functions_of (tree_of self.now)).list_of path.now)) }
        ensures unchanged { IfErr result (λ fault. IfIo fault (sink.new ≡ sink.old)) }
        ensures errors_need_no_memory { IsErr ((functions_of (tree_of self.now)).list_of path.now)
            → result ≢ Err Fault.Memory }
    {
        match self.look_up(path, true) {
            Ok(Hit::Dir(index)) => {
                let directory = self.table.directory(index);
                if let Some(kind) = directory.denied {
                    return Err(Fault::Io(io::Error::from(kind)));
                }
                Ok(directory.list_into(sink)?)
            }
            Ok(Hit::File(_)) => Err(Fault::Io(io::Error::from(ErrorKind::InvalidInput))),
            Ok(Hit::Link(_, _)) => Err(Fault::Io(io::Error::from(ErrorKind::InvalidInput))),
            Err(kind) => Err(Fault::Io(io::Error::from(kind))),
        }
    }

    fn metadata(&self, path: &str) -> Result<Metadata, Fault>
        ensures value { AnswersValue (λ m. m) result ((functions_of (tree_of self.now)).meta_of path.now) }
        ensures never_refuses { result ≢ Err Fault.Memory }
    {
        match self.look_up(path, true) {
            Ok(hit) => Ok(hit.metadata()),
            Err(kind) => Err(Fault::Io(io::Error::from(kind))),
        }
    }

    fn symlink_metadata(&self, path: &str) -> Result<Metadata, Fault>
        ensures value { AnswersValue (λ m. m) result ((functions_of (tree_of self.now)).link_meta_of path.now) }
        ensures never_refuses { result ≢ Err Fault.Memory }
    {
        match self.look_up(path, false) {
            Ok(named) => Ok(named.metadata()),
            Err(kind) => Err(Fault::Io(io::Error::from(kind))),
        }
    }

    fn read_link<B: Allocator + Copy>(&self, alloc: B, path: &str) -> Result<String<B>, Fault>
        ensures value { AnswersValue string_bytes result ((functions_of (tree_of self.now)).target_of path.now) }
        ensures errors_need_no_memory { IsErr ((functions_of (tree_of self.now)).target_of path.now)
            → result ≢ Err Fault.Memory }
    {
        match self.look_up(path, false) {
            Ok(Hit::Link(_, target)) => Ok(String::from_str(alloc, target)?),
            Ok(Hit::File(_)) => Err(Fault::Io(io::Error::from(ErrorKind::InvalidInput))),
            Ok(Hit::Dir(_)) => Err(Fault::Io(io::Error::from(ErrorKind::InvalidInput))),
            Err(kind) => Err(Fault::Io(io::Error::from(kind))),
        }
    }
}

// The name that a component is.
fn plain_name<'p>(component: Option<Component<'p>>) -> Option<&'p str>
    ensures { option_copied result ≡ name_of (option_map component_seen component.entry) }
{
    match component? {
        Component::Normal(name) => Some(name),
        Component::RootDir => None,
        Component::CurDir => None,
        Component::ParentDir => None,
    }
}
