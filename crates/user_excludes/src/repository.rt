//! Where a repository's configuration is.
ghost use Rattle.std.specs.Prelude.{◌≡◌, IfOk, option_copied, option_map, string_bytes};
ghost use Rattle.user_excludes.specs.Repository.{common_folder, config_path, first_line, folder_in, folder_of, git_folder, text_of, text_read};

use jwalk_fs::fault::Fault;
use jwalk_fs::path_text::{join, parent};
use jwalk_ignore_rules::texts::Texts;
use std::alloc::{AllocError, Global};
use std::str;

/// Returns the first line of a text.
fn first_line(text: &str) -> &str
    ensures { result.now ≡ first_line text.now }
{
    match text.split_once('\n') {
        Some((line, _)) => line,
        None => text,
    }
}

fn text_of(bytes: &[u8]) -> Option<&str>
    ensures { option_copied result ≡ text_of bytes.now }
{
    match str::from_utf8(bytes) {
        Ok(text) => Some(text),
        Err(_) => None,
    }
}

/// Returns the text of the file at a path, if it can be read and is one.
fn text_at<X: Texts>(texts: &X, alloc: Global, path: &str) -> Result<Option<String>, AllocError>
    ensures { X.IsFixed texts.now → IfOk result (λ text. option_map string_bytes text ≡ text_read ((X.functions texts.now).bytes_of path.now)) }
{
    let bytes = match texts.read(alloc, path) {
        Ok(bytes) => bytes,
        Err(Fault::Io(_)) => return Ok(None),
        Err(Fault::Memory) => return Err(AllocError),
    };
    match text_of(&bytes) {
        Some(text) => Ok(Some(String::from_str(alloc, text)?)),
        None => Ok(None),
    }
}

/// Returns the path that a file in place of `.git` names.
fn folder_in(text: &str) -> Option<&str>
    ensures { option_copied result ≡ folder_in text.now }
{
    match text.strip_prefix("gitdir: ") {
        Some(path) => Some(first_line(path)),
        None => None,
    }
}

/// Returns the folder that holds a path.
pub(crate) fn folder_of(path: &str) -> &str
    ensures { result.now ≡ folder_of path.now }
{
    match parent(path) {
        Some(folder) => folder,
        None => "",
    }
}

/// Returns the folder of a repository, by its `.git`, which may be a file that names another.
fn git_folder<X: Texts>(texts: &X, alloc: Global, git: &str) -> Result<String, AllocError>
    ensures { X.IsFixed texts.now → IfOk result (λ folder. string_bytes folder ≡ git_folder (X.functions texts.now) git.now) }
{
    let Some(text) = text_at(texts, alloc, git)? else {
        return String::from_str(alloc, git);
    };
    match folder_in(text.as_str()) {
        Some(path) => join(alloc, folder_of(git), path),
        None => String::from_str(alloc, git),
    }
}

/// Returns the folder that the worktrees of a repository share.
fn common_folder<X: Texts>(texts: &X, alloc: Global, folder: &str) -> Result<String, AllocError>
    ensures { X.IsFixed texts.now → IfOk result (λ common. string_bytes common ≡ common_folder (X.functions texts.now) folder.now) }
{
    let place = join(alloc, folder, "commondir")?;
    match text_at(texts, alloc, place.as_str())? {
        Some(text) => join(alloc, folder, first_line(text.as_str())),
        None => String::from_str(alloc, folder),
    }
}

/// Returns the path of the configuration of a repository, by its `.git`.
pub(crate) fn config_path<X: Texts>(
    texts: &X,
    alloc: Global,
    git: &str,
) -> Result<String, AllocError>
    ensures { X.IsFixed texts.now → IfOk result (λ path. string_bytes path ≡ config_path (X.functions texts.now) git.now) }
{
    let folder = git_folder(texts, alloc, git)?;
    let common = common_folder(texts, alloc, folder.as_str())?;
    join(alloc, common.as_str(), "config")
}
