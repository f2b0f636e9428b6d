//! The directories of a tree by their indices. A clause sees them as a list of branches.
ghost use Rattle.std.specs.Prelude.{◌≡◌, ◌≢◌, ℕ, ◌+◌, ◌-◌, ◌<◌, ◌≤◌, ◌++◌, ◌∷◌, [], None, OnOk, OnErr, length, slice_index_or, slice_set, take, vec_capacity, MatchOption, string_bytes};
ghost use Rattle.std.specs.Option.{option_map};
ghost use Rattle.jwalk_model.specs.Tree.{Place};
ghost use Rattle.jwalk_memory_fs.specs.Child.{Dir, Link, child_seen};
ghost use Rattle.jwalk_memory_fs.specs.Branch.{children_at, child_named, branch_at, empty_branch, with_named, without_named, with_parent_at, with_denial, tree_of_table, IsSound, IsLoose, AreSpare, PopsLast, IsDirectoryAdded, IsRemoved};
ghost use Rattle.jwalk_memory_fs.specs.Directory.{branch};
ghost use Rattle.jwalk_memory_fs.specs.Table.{branches, free_places, IsTurn};

use crate::child::Child;
use crate::directory::Directory;
use std::alloc::{AllocError, Allocator};
use std::io::ErrorKind;

/// The root, at index 0, and after it the others, with the indices of those that were removed and are free again.
pub struct Table<A: Allocator + Copy> {
    root: Directory<A>,
    others: Vec<Directory<A>, A>,
    free: Vec<usize, A>,
}

impl<A: Allocator + Copy> Drop for Table<A> {
    fn drop(self) {
        let Table {
            root: _,
            others: _,
            free: _,
        } = self;
    }
}

impl<A: Allocator + Copy> Table<A> {
    pub(crate) fn new(alloc: A) -> Self
        ensures root { branches result ≡ empty_branch 0 ∷ [] }
        ensures free { free_places result ≡ [] }
    {
        Table {
            root: Directory::new(alloc, 0),
            others: Vec::new(alloc),
            free: Vec::new(alloc),
        }
    }

    fn len(&self) -> usize
        ensures { result ≡ length (branches self.now) }
    {
        self.others.len() + 1
    }

    pub(crate) fn directory(&self, index: usize) -> &Directory<A>
        requires { index < length (branches self.now) }
        ensures { branch result.now ≡ branch_at (branches self.now) index }
    {
        if index == 0 {
            &self.root
        } else {
            &self.others[index - 1]
        }
    }

    pub(crate) fn add(
        &mut self,
        holder: usize,
        name: &str,
        child: Child<A>,
    ) -> Result<(), AllocError>
        requires within { holder < length (branches self.old) }
        requires free { child_named (children_at (branches self.old) holder) name.now ≡ None }
        ensures ok { OnOk result
            (branches self.new ≡ with_named (branches self.old) holder name.now (child_seen child)) }
        ensures err { OnErr result (branches self.new ≡ branches self.old) }
        ensures kept { free_places self.new ≡ free_places self.old }
        ensures room { vec_capacity self.new.others ≡ vec_capacity self.old.others }
    {
        if holder == 0 {
            self.root.add(name, child)
        } else {
            self.others[holder - 1].add(name, child)
        }
    }

    pub(crate) fn add_link(
        &mut self,
        holder: usize,
        name: &str,
        target: &str,
    ) -> Result<(), AllocError>
        requires within { holder < length (branches self.old) }
        requires free { child_named (children_at (branches self.old) holder) name.now ≡ None }
        ensures ok { OnOk result
            (branches self.new ≡ with_named (branches self.old) holder name.now (Link target.now)) }
        ensures err { OnErr result (branches self.new ≡ branches self.old) }
        ensures kept { free_places self.new ≡ free_places self.old }
    {
        let alloc = *self.others.allocator();
        let target = String::from_str(alloc, target)?;
        self.add(holder, name, Child::Link(target))
    }

    /// Appends a new directory to a directory, at a free place of the table if there is one.
    pub(crate) fn add_directory(&mut self, holder: usize, name: &str) -> Result<(), AllocError>
        requires within { holder < length (branches self.old) }
        requires free { child_named (children_at (branches self.old) holder) name.now ≡ None }
        requires spare { AreSpare (branches self.old) (free_places self.old) (length (free_places self.old)) }
        ensures ok { OnOk result (IsDirectoryAdded (branches self.old) (free_places self.old) holder name.now
            (branches self.new) (free_places self.new)) }
        ensures err { OnErr result (branches self.new ≡ branches self.old) }
        ensures err_kept { OnErr result (free_places self.new ≡ free_places self.old) }
    {
        match self.free.last().copied() {
            Some(place) => self.add_directory_at(place, holder, name),
            None => self.add_directory_behind(holder, name),
        }
    }

    // Puts it at the last free place.
    fn add_directory_at(
        &mut self,
        place: usize,
        holder: usize,
        name: &str,
    ) -> Result<(), AllocError>
        requires below_root { 0 < place }
        requires place { place < length (branches self.old) }
        requires within { holder < length (branches self.old) }
        requires free { child_named (children_at (branches self.old) holder) name.now ≡ None }
        ensures ok { OnOk result (branches self.new
            ≡ with_parent_at (with_named (branches self.old) holder name.now (Dir place)) place holder) }
        ensures taken { OnOk result
            (free_places self.new ≡ take (length (free_places self.old) - 1) (free_places self.old)) }
        ensures err { OnErr result (branches self.new ≡ branches self.old) }
        ensures err_kept { OnErr result (free_places self.new ≡ free_places self.old) }
    {
        self.add(holder, name, Child::Dir(place))?;
        self.others[place - 1].set_parent(holder);
        self.free.pop();
        Ok(())
    }

    // Appends it to the table.
    fn add_directory_behind(&mut self, holder: usize, name: &str) -> Result<(), AllocError>
        requires within { holder < length (branches self.old) }
        requires free { child_named (children_at (branches self.old) holder) name.now ≡ None }
        ensures ok { OnOk result (branches self.new
            ≡ with_named (branches self.old) holder name.now (Dir (length (branches self.old)))
            ++ empty_branch holder ∷ []) }
        ensures err { OnErr result (branches self.new ≡ branches self.old) }
        ensures kept { free_places self.new ≡ free_places self.old }
    {
        self.others.reserve(1)?;
        let index = self.len();
        self.add(holder, name, Child::Dir(index))?;
        let directory = Directory::new(*self.others.allocator(), holder);
        match self.others.push(directory) {
            Ok(()) => Ok(()),
            Err(_) => unreachable!(),
        }
    }

    /// Removes a child, and what it holds with it; their places are free then.
    pub(crate) fn remove(&mut self, holder: usize, name: &str) -> Result<(), AllocError>
        requires within { holder < length (branches self.old) }
        requires sound { IsSound (branches self.old) }
        requires spare { AreSpare (branches self.old) (free_places self.old) (length (free_places self.old)) }
        requires kept { (k : ℕ) → k < length (free_places self.old)
            → slice_index_or (free_places self.old) k 0 ≢ holder }
        ensures ok { OnOk result
            (IsRemoved (branches self.old) holder name.now (branches self.new) (free_places self.new)) }
        ensures err { OnErr result (branches self.new ≡ branches self.old) }
        ensures err_kept { OnErr result (free_places self.new ≡ free_places self.old) }
    {
        self.free.reserve(self.others.len())?;
        match self.take(holder, name) {
            Some(Child::Dir(index)) => self.release(index),
            Some(_) => {}
            None => {}
        }
        Ok(())
    }

    // Takes a name out of its directory.
    fn take(&mut self, holder: usize, name: &str) -> Option<Child<A>>
        requires { holder < length (branches self.old) }
        ensures value { option_map child_seen result ≡ child_named (children_at (branches self.old) holder) name.now }
        ensures others { branches self.new ≡ without_named (branches self.old) holder name.now }
        ensures kept { free_places self.new ≡ free_places self.old }
        ensures room { vec_capacity self.new.free ≡ vec_capacity self.old.free }
    {
        if holder == 0 {
            self.root.remove(name)
        } else {
            self.others[holder - 1].remove(name)
        }
    }

    // Empties a directory that no name is for, and all below it, and frees their places.
    fn release(&mut self, index: usize)
        requires sound { IsSound (branches self.old) }
        requires spare { AreSpare (branches self.old) (free_places self.old) (length (free_places self.old)) }
        requires loose { IsLoose (branches self.old) index }
        requires once { (k : ℕ) → k < length (free_places self.old)
            → slice_index_or (free_places self.old) k 0 ≢ index }
        requires room { length (branches self.old) ≤ vec_capacity self.old.free + 1 }
        ensures sound { IsSound (branches self.new) }
        ensures spare { AreSpare (branches self.new) (free_places self.new) (length (free_places self.new)) }
        ensures tree { (place : Place)
            → tree_of_table (branches self.new) place ≡ tree_of_table (branches self.old) place }
    {
        let mut next = self.free.len();
        self.set_free(index);
        while next < self.free.len() {
            next = self.turn(next);
        }
    }

    // Takes the last child out of a directory whose place is free, or passes an empty one.
    fn turn(&mut self, next: usize) -> usize
        requires sound { IsSound (branches self.old) }
        requires spare { AreSpare (branches self.old) (free_places self.old) next }
        requires within { next < length (free_places self.old) }
        requires room { length (branches self.old) ≤ vec_capacity self.old.free + 1 }
        ensures turn { IsTurn (branches self.old) next (branches self.new) (free_places self.new) result }
        ensures room { length (branches self.new) ≤ vec_capacity self.new.free + 1 }
    {
        let place = self.free[next];
        let Some((_, child)) = self.pop(place) else {
            self.clear(place);
            return next + 1;
        };
        match child {
            Child::Dir(below) => {
                self.set_free(below);
                next
            }
            Child::File(_) => next,
            Child::Link(_) => next,
        }
    }

    // Takes the last child out of a directory that isn't the root.
    fn pop(&mut self, place: usize) -> Option<(String<A>, Child<A>)>
        requires below_root { 0 < place }
        requires within { place < length (branches self.old) }
        ensures cases { MatchOption result (children_at (branches self.old) place ≡ [])
            (λ p. PopsLast (branch_at (branches self.old) place) (string_bytes p.0) (child_seen p.1)
            (branch_at (branches self.new) place)) }
        ensures others { branches self.new ≡ slice_set (branches self.old) place (branch_at (branches self.new) place) }
        ensures kept { free_places self.new ≡ free_places self.old }
        ensures room { vec_capacity self.new.free ≡ vec_capacity self.old.free }
    {
        self.others[place - 1].pop()
    }

    // Makes a directory that isn't the root an empty one again.
    fn clear(&mut self, place: usize)
        requires below_root { 0 < place }
        requires within { place < length (branches self.old) }
        ensures cleared { branches self.new ≡ slice_set (branches self.old) place (empty_branch 0) }
        ensures kept { free_places self.new ≡ free_places self.old }
        ensures room { vec_capacity self.new.free ≡ vec_capacity self.old.free }
    {
        self.others[place - 1] = Directory::new(*self.free.allocator(), 0);
    }

    // Appends a place to the free ones, for which there is room.
    fn set_free(&mut self, index: usize)
        requires { length (free_places self.old) < vec_capacity self.old.free }
        ensures pushed { free_places self.new ≡ free_places self.old ++ index ∷ [] }
        ensures same { branches self.new ≡ branches self.old }
        ensures room { vec_capacity self.old.free ≤ vec_capacity self.new.free }
    {
        match self.free.push(index) {
            Ok(()) => {}
            Err(_) => unreachable!(),
        }
    }

    pub(crate) fn deny(&mut self, index: usize, kind: ErrorKind)
        requires { index < length (branches self.old) }
        ensures denied { branches self.new ≡ with_denial (branches self.old) index kind }
        ensures kept { free_places self.new ≡ free_places self.old }
    {
        if index == 0 {
            self.root.deny(kind);
        } else {
            self.others[index - 1].deny(kind);
        }
    }
}
