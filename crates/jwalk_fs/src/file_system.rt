//! The file system as a trait.
ghost use Rattle.std.specs.Prelude.{◌≡◌, ℕ, List, [], ◌∷◌, Ok, OnOk, IfErr, IfOk, map, string_bytes};
ghost use Rattle.std.specs.Arc.{arc_value};
ghost use Rattle.jwalk_model.specs.FileSystem as value;
ghost use Rattle.jwalk_model.specs.FileSystem.{Functions};
ghost use Rattle.jwalk_fs.specs.Views.{listed, AnswersValue, FailsAs, IfIo, TakesAll};

use crate::fault::Fault;
use crate::listed::Listed;
use crate::sink::Sink;
use jwalk_model::metadata::Metadata;
use std::alloc::{AllocError, Allocator};
use std::io;
use std::sync::Arc;

fn take_item<A: Allocator + Copy, K: Sink>(
    sink: &mut K,
    item: io::Result<Listed<A>>,
) -> Result<(), AllocError>
    ensures { OnOk result (TakesAll K.Took (listed item ∷ []) sink.old sink.new) }
{
    match item {
        Ok(Listed { name, seen }) => sink.take_seen(name.as_str(), seen),
        Err(error) => sink.take_error(error),
    }
}

/// What a walk needs of a file system. Paths are texts, as `std::path` has them on Unix; relative ones start where the
/// file system says. Each answer that needs memory is made with the caller's allocator.
///
/// If the answers of a file system may change, or it can't promise them, it says that it isn't fixed. Then it promises
/// nothing, and names any functions:
///
///     ghost use Rattle.jwalk.specs.jwalk_model.Tree.{functions_of, only_root};
///
///     impl FileSystem for Disk {
///         ghost IsFixed = { λ _. ⊥ };
///
///         ghost functions = { λ _. functions_of only_root };
///
///         fn read_dir ..
///     }
///
/// Then no answer of a walk over it is known by value. The walk is safe and ends all the same. Directories are read in
/// order and each once, and the depth of every entry is from the least to the greatest.
pub trait FileSystem: Drop {
    /// It always returns the same: each answer is that of `functions`, unless memory runs out.
    ghost IsFixed: { Self → Type 0 };

    /// What it then returns at each path.
    ghost functions: { Self → Functions };

    /// A listing of this path gave these items. A file system need not say more of its listings than that there were
    /// some. What is promised of one listing, over any file system, names it by this.
    ghost read_dir_gives: { Self → List ℕ → List value.Listed → Type 0 } = { λ _ _ _. Unit {0} };

    /// Returns the items of a directory, in the file system's order, without `.` and `..` (`std::fs::read_dir`). An
    /// item that could not be read is an error in its place.
    ///
    /// # Errors
    ///
    /// `Fault::Io` if the directory can't be listed, `Fault::Memory` if memory runs out.
    fn read_dir<A: Allocator + Copy>(
        &self,
        alloc: A,
        path: &str,
    ) -> Result<Vec<io::Result<Listed<A>>, A>, Fault>
        ensures value { IsFixed self.now
            → AnswersValue (λ v. map listed v.items) result ((functions self.now).list_of path.now) }
        ensures gives { IfOk result (λ v. read_dir_gives self.now path.now (map listed v.items)) };

    /// Gives `sink` the items that `read_dir` returns, one after another. A walk lists by this call. A file system that
    /// writes a body of its own for it need not keep a list; that of the trait calls `read_dir`.
    ///
    /// # Errors
    ///
    /// Those of `read_dir`, and `Fault::Memory` if `sink` fails. With `Fault::Io` it has given nothing. If memory runs
    /// out, `sink` may have been given some of the items.
    fn read_dir_into<A: Allocator + Copy, K: Sink>(
        &self,
        alloc: A,
        path: &str,
        sink: &mut K,
    ) -> Result<(), Fault>
        ensures taken { OnOk result ((items : List value.Listed) × TakesAll K.Took items sink.old sink.new
            × (IsFixed self.now → (functions self.now).list_of path.now ≡ Ok items)
            × read_dir_gives self.now path.now items) }
        ensures failed { IsFixed self.now → IfErr result (λ fault. FailsAs fault
            ((functions self.now).list_of path.now)) }
        ensures unchanged { IfErr result (λ fault. IfIo fault (sink.new ≡ sink.old)) }
    {
        let items = self.read_dir(alloc, path)?;
        for item in items {
            take_item(sink, item)?;
        }
        Ok(())
    }

    /// Returns the type of what a path leads to, and its length in bytes, all links followed (`std::fs::metadata`).
    ///
    /// # Errors
    ///
    /// `Fault::Io` if they can't be read, `Fault::Memory` if memory runs out.
    fn metadata(&self, path: &str) -> Result<Metadata, Fault>
        ensures { IsFixed self.now → AnswersValue (λ m. m) result ((functions self.now).meta_of path.now) };

    /// Returns the same without following the last component (`std::fs::symlink_metadata`).
    ///
    /// # Errors
    ///
    /// `Fault::Io` if they can't be read, `Fault::Memory` if memory runs out.
    fn symlink_metadata(&self, path: &str) -> Result<Metadata, Fault>
        ensures { IsFixed self.now → AnswersValue (λ m. m) result ((functions self.now).link_meta_of path.now) };

    /// Returns the target of a symbolic link, with its text unchanged (`std::fs::read_link`).
    ///
    /// # Errors
    ///
    /// `Fault::Io` if it can't be read, also if the path is that of no link. `Fault::Memory` if memory runs out.
    fn read_link<A: Allocator + Copy>(&self, alloc: A, path: &str) -> Result<String<A>, Fault>
        ensures { IsFixed self.now → AnswersValue string_bytes result ((functions self.now).target_of path.now) };
}

/// A shared file system returns what the one that is shared does.
impl<S: FileSystem, B: Allocator> FileSystem for Arc<S, B> {
    ghost IsFixed = { λ s. S.IsFixed (arc_value s) };

    ghost functions = { λ s. S.functions (arc_value s) };

    ghost read_dir_gives = { λ s. S.read_dir_gives (arc_value s) };

    fn read_dir<A: Allocator + Copy>(
        &self,
        alloc: A,
        path: &str,
    ) -> Result<Vec<io::Result<Listed<A>>, A>, Fault> {
        (**self).read_dir(alloc, path)
    }

    fn read_dir_into<A: Allocator + Copy, K: Sink>(
        &self,
        alloc: A,
        path: &str,
        sink: &mut K,
    ) -> Result<(), Fault> {
        (**self).read_dir_into(alloc, path, sink)
    }

    fn metadata(&self, path: &str) -> Result<Metadata, Fault> {
        (**self).metadata(path)
    }

    fn symlink_metadata(&self, path: &str) -> Result<Metadata, Fault> {
        (**self).symlink_metadata(path)
    }

    fn read_link<A: Allocator + Copy>(&self, alloc: A, path: &str) -> Result<String<A>, Fault> {
        (**self).read_link(alloc, path)
    }
}

/// A borrowed file system returns what the one behind it does.
impl<S: FileSystem> FileSystem for &S {
    ghost IsFixed = { λ s. S.IsFixed s.now };

    ghost functions = { λ s. S.functions s.now };

    ghost read_dir_gives = { λ s. S.read_dir_gives s.now };

    fn read_dir<A: Allocator + Copy>(
        &self,
        alloc: A,
        path: &str,
    ) -> Result<Vec<io::Result<Listed<A>>, A>, Fault> {
        S::read_dir(*self, alloc, path)
    }

    fn read_dir_into<A: Allocator + Copy, K: Sink>(
        &self,
        alloc: A,
        path: &str,
        sink: &mut K,
    ) -> Result<(), Fault> {
        S::read_dir_into(*self, alloc, path, sink)
    }

    fn metadata(&self, path: &str) -> Result<Metadata, Fault> {
        S::metadata(*self, path)
    }

    fn symlink_metadata(&self, path: &str) -> Result<Metadata, Fault> {
        S::symlink_metadata(*self, path)
    }

    fn read_link<A: Allocator + Copy>(&self, alloc: A, path: &str) -> Result<String<A>, Fault> {
        S::read_link(*self, alloc, path)
    }
}
