//! What `.git` of a directory leads to.
ghost use Rattle.std.specs.Prelude.{◌≡◌, IfOk};
ghost use Rattle.jwalk_ignore_rules.specs.Rules.Git.{git_at, is_repository};

use crate::rules::texts::Texts;
use jwalk_fs::fault::Fault;
use jwalk_fs::path_text;
use jwalk_model::file_type::FileType;
use std::alloc::{AllocError, Allocator};

/// Returns the type of what `.git` of a directory leads to. None if it leads nowhere, or if that can't be told.
pub fn git_at<T: Texts, A: Allocator + Copy>(
    texts: &T,
    alloc: A,
    directory: &str,
) -> Result<Option<FileType>, AllocError>
    ensures { T.IsFixed texts.now → IfOk result (λ found. found ≡ git_at (T.functions texts.now) directory.now) }
{
    let git = path_text::join(alloc, directory, ".git")?;
    match texts.target_type(git.as_str()) {
        Ok(file_type) => Ok(Some(file_type)),
        Err(Fault::Io(_)) => Ok(None),
        Err(Fault::Memory) => Err(AllocError),
    }
}

/// Returns whether a `.git` that leads to this makes its directory a repository.
pub fn is_repository(git: Option<FileType>) -> bool
    ensures { result ≡ is_repository git }
{
    matches!(git, Some(FileType::Dir | FileType::File))
}
