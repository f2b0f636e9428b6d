//! What rules are read from, as a trait.
ghost use Rattle.std.specs.Prelude.{string_bytes};
ghost use Rattle.std.specs.Arc.{arc_value};
ghost use Rattle.jwalk_fs.specs.Views.{AnswersValue};
ghost use Rattle.jwalk_ignore_rules.specs.Rules.Texts.{Texts as Functions};

use jwalk_fs::fault::Fault;
use jwalk_model::file_type::FileType;
use std::alloc::Allocator;
use std::sync::Arc;

/// What rules are read from: the bytes of files, the types of what paths are and lead to, and absolute paths.
///
/// If the answers may change, or can't be promised, it says that it isn't fixed. Then it promises nothing, and names any
/// functions:
///
///     ghost use Rattle.jwalk_ignore_rules.specs.Rules.Texts.{no_texts};
///
///     ghost IsFixed = { λ _. ⊥ };
///
///     ghost functions = { λ _. no_texts };
pub trait Texts: Drop {
    /// It always returns the same: each answer is that of `functions`, unless memory runs out.
    ghost IsFixed: { Self → Type 0 };

    /// What it then returns at each path.
    ghost functions: { Self → Functions };

    /// Returns the bytes of the file at a path.
    ///
    /// # Errors
    ///
    /// `Fault::Io` if it can't be read, of kind `NotFound` if nothing is there. `Fault::Memory` if memory runs out.
    fn read<A: Allocator + Copy>(&self, alloc: A, path: &str) -> Result<Vec<u8, A>, Fault>
        ensures { IsFixed self.now
            → AnswersValue (λ bytes. bytes.items) result ((functions self.now).bytes_of path.now) };

    /// Returns the type of what is at a path. That of a link is `FileType::Symlink`, as with `std::fs::symlink_metadata`.
    ///
    /// # Errors
    ///
    /// `Fault::Io` if it can't be told, of kind `NotFound` if nothing is there. `Fault::Memory` if memory runs out.
    fn file_type(&self, path: &str) -> Result<FileType, Fault>
        ensures { IsFixed self.now
            → AnswersValue (λ file_type. file_type) result ((functions self.now).type_of path.now) };

    /// Returns the type of what a path leads to, all links followed, as with `std::fs::metadata`.
    ///
    /// # Errors
    ///
    /// `Fault::Io` if it can't be told, of kind `NotFound` if the path leads nowhere. `Fault::Memory` if memory runs out.
    fn target_type(&self, path: &str) -> Result<FileType, Fault>
        ensures { IsFixed self.now
            → AnswersValue (λ file_type. file_type) result ((functions self.now).target_type_of path.now) };

    /// Returns the absolute path of a directory: it begins with a slash, ends with none unless it is `/`, and has
    /// neither `.` nor `..` nor links.
    ///
    /// # Errors
    ///
    /// `Fault::Io` if it can't be found, `Fault::Memory` if memory runs out.
    fn absolute<A: Allocator + Copy>(&self, alloc: A, path: &str) -> Result<String<A>, Fault>
        ensures { IsFixed self.now
            → AnswersValue string_bytes result ((functions self.now).absolute_of path.now) };
}

/// Shared texts return what those that are shared do.
impl<T: Texts, B: Allocator> Texts for Arc<T, B> {
    ghost IsFixed = { λ s. T.IsFixed (arc_value s) };

    ghost functions = { λ s. T.functions (arc_value s) };

    fn read<A: Allocator + Copy>(&self, alloc: A, path: &str) -> Result<Vec<u8, A>, Fault> {
        (**self).read(alloc, path)
    }

    fn file_type(&self, path: &str) -> Result<FileType, Fault> {
        (**self).file_type(path)
    }

    fn target_type(&self, path: &str) -> Result<FileType, Fault> {
        (**self).target_type(path)
    }

    fn absolute<A: Allocator + Copy>(&self, alloc: A, path: &str) -> Result<String<A>, Fault> {
        (**self).absolute(alloc, path)
    }
}

/// Borrowed texts return what those behind them do.
impl<T: Texts> Texts for &T {
    ghost IsFixed = { λ s. T.IsFixed s.now };

    ghost functions = { λ s. T.functions s.now };

    fn read<A: Allocator + Copy>(&self, alloc: A, path: &str) -> Result<Vec<u8, A>, Fault> {
        T::read(*self, alloc, path)
    }

    fn file_type(&self, path: &str) -> Result<FileType, Fault> {
        T::file_type(*self, path)
    }

    fn target_type(&self, path: &str) -> Result<FileType, Fault> {
        T::target_type(*self, path)
    }

    fn absolute<A: Allocator + Copy>(&self, alloc: A, path: &str) -> Result<String<A>, Fault> {
        T::absolute(*self, alloc, path)
    }
}
