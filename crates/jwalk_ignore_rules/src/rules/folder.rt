//! The folders above a root.
ghost use Rattle.std.specs.Prelude.{◌≡◌, false, IfOk, length, map};
ghost use Rattle.jwalk_ignore_rules.specs.Rules.Folder.{ends_git, folder_at, folder_value, folders_above};

use crate::rules::git::{git_at, is_repository};
use crate::rules::texts::Texts;
use jwalk_fs::path_text;
use jwalk_model::file_type::FileType;
use std::alloc::{AllocError, Allocator};

/// A folder above the root.
#[derive(Clone, Copy)]
pub struct Folder<'p> {
    /// Its path.
    pub path: &'p str,
    /// What its `.git` leads to, where that counts.
    pub git: Option<FileType>,
    /// A nearer folder is a repository.
    pub is_outer: bool,
}

impl<'p> Folder<'p> {
    /// Beyond a repository the folder's `.git` doesn't count.
    fn at<T: Texts, A: Allocator + Copy>(
        texts: &T,
        alloc: A,
        is_outer: bool,
        path: &'p str,
    ) -> Result<Self, AllocError>
        ensures { T.IsFixed texts.now
            → IfOk result (λ folder. folder_value folder ≡ folder_at (T.functions texts.now) is_outer path.now) }
    {
        let git = if is_outer {
            None
        } else {
            git_at(texts, alloc, path)?
        };
        Ok(Folder {
            path,
            git,
            is_outer,
        })
    }

    /// Returns whether no `.git` counts above it.
    fn ends_git(self) -> bool
        ensures { result ≡ ends_git (folder_value self.entry) }
    {
        self.is_outer || is_repository(self.git)
    }
}

/// Returns the folders above a path, the nearest first, up to `/`.
pub fn folders_above<'p, T: Texts, A: Allocator + Copy>(
    texts: &T,
    alloc: A,
    path: &'p str,
) -> Result<Vec<Folder<'p>, A>, AllocError>
    ensures { T.IsFixed texts.now → IfOk result (λ folders. map folder_value folders.items
        ≡ folders_above (T.functions texts.now) false (length path.now) path.now) }
{
    let mut folders = Vec::new(alloc);
    let mut rest = path;
    let mut left = path.len();
    let mut is_outer = false;
    'folders: while left > 0 {
        let Some(above) = path_text::parent(rest) else {
            return Ok(folders);
        };
        let folder = Folder::at(texts, alloc, is_outer, above)?;
        folders.push(folder)?;
        is_outer = folder.ends_git();
        rest = above;
        left -= 1;
    }
    Ok(folders)
}
