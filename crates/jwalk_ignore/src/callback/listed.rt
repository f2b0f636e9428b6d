//! Items of a list, as rules see them.
ghost use Rattle.std.specs.Prelude.{◌≡◌, IfOk, map, filter, find, option_map, string_bytes};
ghost use Rattle.std.specs.Option.{option_copied};
ghost use Rattle.jwalk.specs.jwalk_job.Entry.{item};
ghost use Rattle.jwalk.specs.jwalk_job.Error.{failure};
ghost use Rattle.jwalk_ignore.specs.Callback.IgnoreFiles.{depth_of, failed_name, git_by, git_in, is_git, is_git_path, is_of_rules, is_shown, kind_of, kind_of_file, own_kind, root_of, shows_name};
ghost use Rattle.jwalk_ignore.specs.Callback.Settings.{settings_value};

use crate::callback::failed::{behind, failed_path};
use crate::callback::settings::Settings;
use crate::rules::git::git_at;
use crate::rules::rules_kind::RulesKind;
use crate::rules::texts::Texts;
use jwalk::file_system::FileType;
use jwalk::{ClientState, DirEntry, Error, path_text};
use std::alloc::{AllocError, Allocator};

fn kind_of_file(name: &[u8]) -> Option<RulesKind>
    ensures { result ≡ kind_of_file name.now }
{
    if name == b".fdignore".as_slice() {
        Some(RulesKind::Fdignore)
    } else if name == b".ignore".as_slice() {
        Some(RulesKind::Ignore)
    } else if name == b".gitignore".as_slice() {
        Some(RulesKind::Gitignore)
    } else {
        None
    }
}

/// Returns the kind of rules that an item has itself: it is a regular file, and no link to one.
fn own_kind<C: ClientState, A: Allocator + Copy>(
    found: &Result<DirEntry<C, A>, Error<A>>,
) -> Option<RulesKind>
    ensures { result ≡ own_kind (item found.now) }
{
    match found {
        Ok(entry) if entry.file_type.is_file() && !entry.path_is_symlink() => {
            kind_of_file(entry.file_name.as_bytes())
        }
        _ => None,
    }
}

/// Returns the kind of rules that an item leads to.
pub(crate) fn kind_of<C: ClientState, A: Allocator + Copy>(
    found: &Result<DirEntry<C, A>, Error<A>>,
) -> Option<RulesKind>
    ensures { result ≡ kind_of (item found.now) }
{
    if is_git(found) {
        Some(RulesKind::Exclude)
    } else {
        own_kind(found)
    }
}

pub(crate) fn depth_of<C: ClientState, A: Allocator + Copy>(
    found: &Result<DirEntry<C, A>, Error<A>>,
) -> usize
    ensures { result ≡ depth_of (item found.now) }
{
    match found {
        Ok(entry) => entry.depth,
        Err(error) => error.depth(),
    }
}

fn is_git_path(path: &str) -> bool
    ensures { result ≡ is_git_path path.now }
{
    match path_text::file_name(path) {
        Some(name) => name == ".git",
        None => false,
    }
}

/// Returns whether an item is of the name `.git`: an entry, or an error at such a path.
fn is_git<C: ClientState, A: Allocator + Copy>(found: &Result<DirEntry<C, A>, Error<A>>) -> bool
    ensures { result ≡ is_git (item found.now) }
{
    match found {
        Ok(entry) => entry.file_name.as_str() == ".git",
        Err(error) => match error.path() {
            Some(path) => is_git_path(path),
            None => false,
        },
    }
}

fn git_of<'l, C: ClientState, A: Allocator + Copy>(
    list: &'l [Result<DirEntry<C, A>, Error<A>>],
) -> Option<&'l Result<DirEntry<C, A>, Error<A>>>
    ensures { option_map (λ found. item found.now) result ≡ find is_git (map item list.now) }
{
    list.iter().find(|found| is_git(*found))
}

/// Returns what an item of the name `.git` leads to: the texts are asked where it is a link or an error.
fn git_by<T: Texts, C: ClientState, A: Allocator + Copy>(
    texts: &T,
    alloc: A,
    directory: &str,
    found: &Result<DirEntry<C, A>, Error<A>>,
) -> Result<Option<FileType>, AllocError>
    ensures { T.IsFixed texts.now → IfOk result (λ git. git
        ≡ git_by (T.functions texts.now) directory.now (item found.now)) }
{
    match found {
        Ok(entry) if !entry.file_type.is_symlink() => Ok(Some(entry.file_type)),
        _ => git_at(texts, alloc, directory),
    }
}

pub(crate) fn git_in<T: Texts, C: ClientState, A: Allocator + Copy>(
    texts: &T,
    alloc: A,
    directory: &str,
    list: &[Result<DirEntry<C, A>, Error<A>>],
) -> Result<Option<FileType>, AllocError>
    ensures { T.IsFixed texts.now → IfOk result (λ git. git
        ≡ git_in (T.functions texts.now) directory.now (map item list.now)) }
{
    match git_of(list) {
        Some(found) => git_by(texts, alloc, directory, found),
        None => Ok(None),
    }
}

fn shows_name(settings: &Settings, name: &[u8]) -> bool
    ensures { result ≡ shows_name (settings_value settings.now) name.now }
{
    let is_git = name == b".git".as_slice();
    let is_hidden = matches!(name, [b'.', ..]);
    !is_git && (settings.keeps_hidden || !is_hidden)
}

fn is_of_rules(place: &[u8]) -> bool
    ensures { result ≡ is_of_rules place.now }
{
    place == b".git/info/exclude".as_slice() || kind_of_file(place).is_some()
}

/// Returns the name in a directory that an error is dropped with, if it is with one.
pub(crate) fn failed_name<'e, A: Allocator + Copy>(
    settings: &Settings,
    directory: &str,
    error: &'e Error<A>,
) -> Option<&'e [u8]>
    ensures { option_copied result ≡ failed_name (settings_value settings.now) directory.now (failure error.now) }
{
    if !settings.drops_errors {
        return None;
    }
    let name = behind(failed_path(error)?.as_bytes(), directory.len());
    if is_of_rules(name) { None } else { Some(name) }
}

/// Returns whether an item of a directory is shown: its name is, or it is an error that is dropped with none.
fn is_shown<C: ClientState, A: Allocator + Copy>(
    settings: &Settings,
    directory: &str,
    found: &Result<DirEntry<C, A>, Error<A>>,
) -> bool
    ensures { result ≡ is_shown (settings_value settings.now) directory.now (item found.now) }
{
    match found {
        Ok(entry) => shows_name(settings, entry.file_name.as_bytes()),
        Err(error) => match failed_name(settings, directory, error) {
            Some(name) => shows_name(settings, name),
            None => true,
        },
    }
}

pub(crate) fn drop_hidden<C: ClientState, A: Allocator + Copy>(
    settings: &Settings,
    directory: &str,
    list: &mut Vec<Result<DirEntry<C, A>, Error<A>>, A>,
)
    ensures { map item list.new.items ≡ filter (is_shown (settings_value settings.now) directory.now) (map item list.old.items) }
{
    list.retain(|found| is_shown(settings, directory, found));
}

/// Returns a copy of the path of an item's directory.
pub(crate) fn root_of<C: ClientState, A: Allocator + Copy>(
    alloc: A,
    found: &Result<DirEntry<C, A>, Error<A>>,
) -> Result<Option<String<A>>, AllocError>
    ensures { IfOk result (λ root. option_map string_bytes root ≡ root_of (item found.now)) }
{
    let Ok(entry) = found else {
        return Ok(None);
    };
    match &entry.read_children {
        Some(children) => Ok(Some(String::from_str(alloc, children.path())?)),
        None => Ok(None),
    }
}
