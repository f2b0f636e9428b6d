//! A directory of the table. A clause sees it as a `Branch`.
ghost use Rattle.std.specs.Prelude.{◌≡◌, [], None, MatchOption, OnOk, OnErr, string_bytes};
ghost use Rattle.std.specs.Option.{option_map};
ghost use Rattle.jwalk_memory_fs.specs.Branch.{child_named, with_child, without_name, with_parent, with_denied, listing_of, AreFound, PopsLast};
ghost use Rattle.jwalk_memory_fs.specs.Child.{child_seen};
ghost use Rattle.jwalk_memory_fs.specs.Directory.{branch};
ghost use Rattle.jwalk_fs.specs.Views.{TakesAll};

use crate::child::Child;
use indexmap::IndexMap;
use jwalk_fs::sink::Sink;
use jwalk_model::seen::Seen;
use std::alloc::{AllocError, Allocator};
use std::hash::{BuildHasherDefault, FoldHasher};
use std::io::ErrorKind;

/// The children by name, in order of creation, and the index of the directory that holds this one. If this one was
/// denied, also the error kind that reading it fails with.
pub struct Directory<A: Allocator + Copy> {
    pub(crate) parent: usize,
    pub(crate) children: IndexMap<String<A>, Child<A>, BuildHasherDefault<FoldHasher>, A>,
    pub(crate) denied: Option<ErrorKind>,
}

impl<A: Allocator + Copy> Drop for Directory<A> {
    fn drop(self) {
        let Directory {
            parent: _,
            children: _,
            denied: _,
        } = self;
    }
}

impl<A: Allocator + Copy> Directory<A> {
    pub(crate) fn new(alloc: A, parent: usize) -> Self
        ensures { branch result ≡ record { parent = parent; children = []; denied = None } }
    {
        Directory {
            parent,
            children: IndexMap::new(alloc),
            denied: None,
        }
    }

    pub(crate) fn child(&self, name: &str) -> Option<&Child<A>>
        ensures { option_map (λ c. child_seen c.now) result ≡ child_named (branch self.now).children name.now }
    {
        self.children.get(name)
    }

    pub(crate) fn add(&mut self, name: &str, child: Child<A>) -> Result<(), AllocError>
        requires { child_named (branch self.old).children name.now ≡ None }
        ensures ok { OnOk result (branch self.new ≡ with_child name.now (child_seen child) (branch self.old)) }
        ensures err { OnErr result (branch self.new ≡ branch self.old) }
    {
        let text = String::from_str(*self.children.allocator(), name)?;
        self.children.insert(text, child)?;
        Ok(())
    }

    pub(crate) fn remove(&mut self, name: &str) -> Option<Child<A>>
        ensures value { option_map child_seen result ≡ child_named (branch self.old).children name.now }
        ensures others { branch self.new ≡ without_name name.now (branch self.old) }
    {
        self.children.shift_remove(name)
    }

    pub(crate) fn pop(&mut self) -> Option<(String<A>, Child<A>)>
        ensures cases { MatchOption result
            (((branch self.old).children ≡ []) × (branch self.new ≡ branch self.old))
            (λ p. PopsLast (branch self.old) (string_bytes p.0) (child_seen p.1) (branch self.new)) }
    {
        self.children.pop()
    }

    pub(crate) fn set_parent(&mut self, parent: usize)
        ensures { branch self.new ≡ with_parent parent (branch self.old) }
    {
        self.parent = parent;
    }

    pub(crate) fn deny(&mut self, kind: ErrorKind)
        ensures { branch self.new ≡ with_denied kind (branch self.old) }
    {
        self.denied = Some(kind);
    }

    pub(crate) fn list_into<K: Sink>(&self, sink: &mut K) -> Result<(), AllocError>
        ensures items { OnOk result (TakesAll K.Took (listing_of (branch self.now).children) sink.old sink.new) }
        ensures found { AreFound (branch self.now).children (branch self.now).children }
    {
        for (name, child) in &self.children {
            sink.take_seen(name.as_str(), Ok(Seen::Whole(child.metadata())))?;
        }
        Ok(())
    }
}
