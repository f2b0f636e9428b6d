//! Texts in which repositories have a user's excludes.
ghost use Rattle.std.specs.Prelude.{◌≡◌};
ghost use Rattle.std.specs.IoError.{error_kind};
ghost use Rattle.jwalk_fs.specs.Views.{AnswersValue};
ghost use Rattle.jwalk_ignore_rules.specs.Rules.WithExcludes.{behind, is_exclude, is_missing, some_file};

use crate::rules::line::without_mark;
use crate::rules::texts::Texts;
use jwalk_fs::fault::Fault;
use jwalk_model::file_type::FileType;
use std::alloc::{Allocator, Global};
use std::io;
use std::io::ErrorKind;

/// Texts in which each `.git/info/exclude` begins with the same lines: a user's excludes. Each repository has such a
/// file then, whether the texts behind have one or not.
#[derive(Drop)]
pub struct WithExcludes<T: Texts> {
    texts: T,
    excludes: Vec<u8, Global>,
}

fn is_exclude(path: &str) -> bool
    ensures { result ≡ is_exclude path.now }
{
    path.as_bytes().ends_with(b"/.git/info/exclude")
}

fn is_missing(error: &io::Error) -> bool
    ensures { result ≡ is_missing (error_kind error.now) }
{
    matches!(error.kind(), ErrorKind::NotFound | ErrorKind::NotADirectory)
}

/// Returns the type of a file that there is, whatever the texts have.
fn some_file(found: Result<FileType, Fault>) -> Result<FileType, Fault>
    ensures { (by : _) → AnswersValue (λ file_type. file_type) found by
        → AnswersValue (λ file_type. file_type) result (some_file by) }
{
    match found {
        Ok(_) => Ok(FileType::File),
        Err(Fault::Io(error)) if is_missing(&error) => Ok(FileType::File),
        Err(fault) => Err(fault),
    }
}

impl<T: Texts> WithExcludes<T> {
    ghost use Rattle.jwalk_ignore_rules.specs.Rules.WithExcludes.{adds_to, excludes_of, texts_behind};

    /// Returns texts with these excludes, the bytes of an ignore file. Without excludes they are those behind.
    pub fn new(texts: T, excludes: Vec<u8, Global>) -> Self
        ensures texts { texts_behind result ≡ texts }
        ensures excludes { excludes_of result ≡ excludes.items }
    {
        WithExcludes { texts, excludes }
    }

    fn adds_to(&self, path: &str) -> bool
        ensures { result ≡ adds_to (excludes_of self.now) path.now }
    {
        !self.excludes.is_empty() && is_exclude(path)
    }

    /// Returns the excludes, and the lines of the texts' own file behind them.
    fn with_own<A: Allocator + Copy>(&self, alloc: A, path: &str) -> Result<Vec<u8, A>, Fault>
        ensures { T.IsFixed (texts_behind self.now) → AnswersValue (λ bytes. bytes.items) result
            (behind (excludes_of self.now) ((T.functions (texts_behind self.now)).target_type_of path.now)
            ((T.functions (texts_behind self.now)).bytes_of path.now)) }
    {
        let mut lines = Vec::new(alloc);
        lines.extend_from_slice(&self.excludes)?;
        match self.texts.target_type(path) {
            Ok(file_type) if file_type.is_file() => {
                let own = self.texts.read(alloc, path)?;
                lines.push(b'\n')?;
                lines.extend_from_slice(without_mark(&own))?;
                Ok(lines)
            }
            Ok(_) => Ok(lines),
            Err(Fault::Io(error)) if is_missing(&error) => Ok(lines),
            Err(fault) => Err(fault),
        }
    }
}

impl<T: Texts> Texts for WithExcludes<T> {
    ghost use Rattle.jwalk_ignore_rules.specs.Rules.WithExcludes.{excludes_of, texts_behind, with_excludes};

    ghost IsFixed = { λ it. T.IsFixed (texts_behind it) };

    ghost functions = { λ it. with_excludes (excludes_of it) (T.functions (texts_behind it)) };

    fn read<A: Allocator + Copy>(&self, alloc: A, path: &str) -> Result<Vec<u8, A>, Fault> {
        if self.adds_to(path) {
            return self.with_own(alloc, path);
        }
        self.texts.read(alloc, path)
    }

    fn file_type(&self, path: &str) -> Result<FileType, Fault> {
        self.texts.file_type(path)
    }

    fn target_type(&self, path: &str) -> Result<FileType, Fault> {
        if self.adds_to(path) {
            return some_file(self.texts.target_type(path));
        }
        self.texts.target_type(path)
    }

    fn absolute<A: Allocator + Copy>(&self, alloc: A, path: &str) -> Result<String<A>, Fault> {
        self.texts.absolute(alloc, path)
    }
}
