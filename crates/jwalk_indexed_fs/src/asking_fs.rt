//! The file system that asks for the metadata of each name that it lists.
ghost use Rattle.std.specs.Prelude.{◌≡◌, List, Ok, IfOk, IfErr, OnOk};
ghost use Rattle.jwalk_model.specs.FileSystem as value;
ghost use Rattle.jwalk_model.specs.Paths.{join};
ghost use Rattle.jwalk_fs.specs.Views.{by_kind, FailsAs, IfIo, TakesAll};
ghost use Rattle.jwalk_indexed_fs.specs.Asking.{asked_answer, asked_item, whole_seen};
ghost use Rattle.jwalk_indexed_fs.specs.Item.{item_of};

use crate::item::{Item, Items};
use jwalk_fs::fault::Fault;
use jwalk_fs::file_system::FileSystem;
use jwalk_fs::listed::Listed;
use jwalk_fs::path_text::join;
use jwalk_fs::sink::{Kept, Sink};
use jwalk_model::metadata::Metadata;
use jwalk_model::seen::Seen;
use std::alloc::Allocator;
use std::io;

/// A file system that lists as another one does, and then asks that one for the metadata of each name. All else it asks
/// of that one.
///
/// Over an [`IndexedFs`](crate::indexed_fs::IndexedFs), whose listings say types alone, a walk can so keep metadata. An
/// error that came for a name stays, and one that comes when it is asked for takes the place of its type.
#[derive(Drop)]
pub struct AskingFs<S: FileSystem> {
    fs: S,
    asks: bool,
}

impl<S: FileSystem> AskingFs<S> {
    /// Returns the file system that lists as `fs` does. It asks for metadata only if `asks` says so.
    pub fn new(fs: S, asks: bool) -> Self
        ensures fs { result.fs ≡ fs }
        ensures asks { result.asks ≡ asks }
    {
        AskingFs { fs, asks }
    }

    /// Returns what asking for a name in a directory returns.
    fn seen<A: Allocator + Copy>(
        &self,
        alloc: A,
        path: &str,
        name: &str,
    ) -> Result<io::Result<Seen>, Fault>
        ensures memory { IfErr result (λ fault. fault ≡ Fault.Memory) }
        ensures seen { S.IsFixed self.now.fs → IfOk result (λ seen. by_kind (λ s. s) seen
            ≡ whole_seen ((S.functions self.now.fs).link_meta_of (join path.now name.now))) }
    {
        let path = join(alloc, path, name)?;
        match self.fs.symlink_metadata(path.as_str()) {
            Ok(found) => Ok(Ok(Seen::Whole(found))),
            Err(Fault::Io(error)) => Ok(Err(error)),
            Err(Fault::Memory) => Err(Fault::Memory),
        }
    }

    /// Returns an item with what asking for its name returns in place of its type.
    fn asked<A: Allocator + Copy>(
        &self,
        alloc: A,
        path: &str,
        item: Item<A>,
    ) -> Result<Item<A>, Fault>
        ensures memory { IfErr result (λ fault. fault ≡ Fault.Memory) }
        ensures asked { S.IsFixed self.now.fs → IfOk result (λ it. item_of it
            ≡ asked_item (S.functions self.now.fs) path.now (item_of item)) }
    {
        match item {
            Item::Named(Listed { name, seen: Ok(_) }) => {
                let seen = self.seen(alloc, path, name.as_str())?;
                Ok(Item::Named(Listed { name, seen }))
            }
            item => Ok(item),
        }
    }

    /// Lists a directory to a sink, and asks for each name.
    fn list_asked<A: Allocator + Copy, K: Sink>(
        &self,
        alloc: A,
        path: &str,
        sink: &mut K,
    ) -> Result<(), Fault>
        ensures taken { OnOk result ((items : List value.Listed) × TakesAll K.Took items sink.old sink.new
            × (S.IsFixed self.now.fs → asked_answer (S.functions self.now.fs) path.now ≡ Ok items)) }
        ensures failed { S.IsFixed self.now.fs → IfErr result (λ fault. FailsAs fault
            (asked_answer (S.functions self.now.fs) path.now)) }
        ensures unchanged { IfErr result (λ fault. IfIo fault (sink.new ≡ sink.old)) }
    {
        let mut listed = Items::new(alloc);
        self.fs.read_dir_into(alloc, path, &mut listed)?;
        for item in listed.items {
            self.asked(alloc, path, item)?.give(sink)?;
        }
        Ok(())
    }
}

impl<S: FileSystem> FileSystem for AskingFs<S> {
    ghost use Rattle.jwalk_indexed_fs.specs.Asking.{asking_functions};

    ghost IsFixed = { λ s. S.IsFixed s.fs };

    ghost functions = { λ s. asking_functions s.asks (S.functions s.fs) };

    fn read_dir<A>(&self, alloc: A, path: &str) -> Result<Vec<io::Result<Listed<A>>, A>, Fault>
    where
        A: Allocator + Copy,
    {
        let mut items = Kept::new(alloc);
        self.read_dir_into(alloc, path, &mut items)?;
        Ok(items.items)
    }

    fn read_dir_into<A, K>(&self, alloc: A, path: &str, sink: &mut K) -> Result<(), Fault>
    where
        A: Allocator + Copy,
        K: Sink,
    {
        if self.asks {
            self.list_asked(alloc, path, sink)
        } else {
            self.fs.read_dir_into(alloc, path, sink)
        }
    }

    fn metadata(&self, path: &str) -> Result<Metadata, Fault> {
        self.fs.metadata(path)
    }

    fn symlink_metadata(&self, path: &str) -> Result<Metadata, Fault> {
        self.fs.symlink_metadata(path)
    }

    fn read_link<A: Allocator + Copy>(&self, alloc: A, path: &str) -> Result<String<A>, Fault> {
        self.fs.read_link(alloc, path)
    }
}
