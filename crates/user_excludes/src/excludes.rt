//! A user's excludes.
ghost use Rattle.std.specs.Prelude.{◌≡◌, IfOk, option_map, string_bytes};
ghost use Rattle.user_excludes.specs.Excludes.{bytes_at, named_by, path_by, path_set, user_excludes};
ghost use Rattle.user_excludes.specs.Home.{home_value};
ghost use Rattle.user_excludes.specs.NamedViews.{named_value, Tells};

use crate::home::Home;
use crate::named::{Line, Named, read_at, with_first};
use crate::unread::Unread;
use jwalk_ignore_rules::texts::Texts;
use std::alloc::{AllocError, Global};

#[tactic(auto, using(crate::proofs::UnreadFacts::fails_then))]
/// Returns what is known of the excludes behind the user's configurations and a repository's.
fn named_by<X: Texts>(
    texts: &X,
    alloc: Global,
    home: Home<'_>,
    repository: &Option<String>,
) -> Result<Named, Unread>
    ensures { X.IsFixed texts.now → Tells named_value (named_by (X.functions texts.now) (home_value home.entry) (option_map string_bytes repository.now)) result }
{
    let in_folder = home.in_config(alloc, "git/config")?;
    let named = with_first(texts, alloc, home, &in_folder, Named::new())?;
    let own = home.below(alloc, ".gitconfig")?;
    let named = with_first(texts, alloc, home, &own, named)?;
    with_first(texts, alloc, home, repository, named)
}

/// Returns the path of the excludes, if they are set. An empty one is none.
fn path_set(alloc: Global, home: Home<'_>, path: &str) -> Result<Option<String>, AllocError>
    ensures { IfOk result (λ it. option_map string_bytes it ≡ path_set (home_value home.entry) path.now) }
{
    if path.is_empty() {
        return Ok(None);
    }
    Ok(Some(home.expanded(alloc, path)?))
}

/// Returns the path of the excludes by what is known of them.
fn path_by(alloc: Global, home: Home<'_>, named: Named) -> Result<Option<String>, Unread>
    ensures { Tells (option_map string_bytes) (path_by (home_value home.entry) (named_value named)) result }
{
    let Named { path, unset } = named;
    if let Some(Line { file, line }) = unset {
        return Err(Unread::NoValue(file, line));
    }
    match path {
        Some(path) => Ok(path_set(alloc, home, path.as_str())?),
        None => Ok(home.in_config(alloc, "git/ignore")?),
    }
}

/// Returns the bytes of the file at a path, if there is such a path, and none if there is no such file.
fn bytes_at<X: Texts>(texts: &X, alloc: Global, path: &Option<String>) -> Result<Vec<u8>, Unread>
    ensures { X.IsFixed texts.now → Tells (λ bytes. bytes.items) (bytes_at (X.functions texts.now) (option_map string_bytes path.now)) result }
{
    let Some(path) = path else {
        return Ok(Vec::new(alloc));
    };
    match read_at(texts, alloc, path.as_str())? {
        Some(bytes) => Ok(bytes),
        None => Ok(Vec::new(alloc)),
    }
}

#[tactic(auto, using(crate::proofs::UnreadFacts::fails_then))]
/// Returns the bytes of a user's excludes, or none if there is no such file, in a repository with a configuration at this
/// path. It is the file that `core.excludesFile` names, or else `git/ignore` in the folder of configurations. That folder
/// is `~/.config`, unless the environment names another. The setting may be in `git/config` there, in `~/.gitconfig`, in
/// the repository's configuration, or in a file that one of these includes: the last one counts.
///
/// # Errors
///
/// If there is such a file, and it can't be read; if git would refuse a configuration, or one can't be read; or if memory
/// runs out.
pub fn user_excludes<X: Texts>(
    texts: &X,
    alloc: Global,
    home: Home<'_>,
    repository: &Option<String>,
) -> Result<Vec<u8>, Unread>
    ensures { X.IsFixed texts.now → Tells (λ bytes. bytes.items) (user_excludes (X.functions texts.now) (home_value home.entry) (option_map string_bytes repository.now)) result }
{
    let named = named_by(texts, alloc, home, repository)?;
    let path = path_by(alloc, home, named)?;
    bytes_at(texts, alloc, &path)
}
