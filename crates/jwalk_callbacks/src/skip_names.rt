//! Directories that are yielded and not entered, by their names.
ghost use Rattle.std.specs.Prelude.{◌≡◌, map, string_bytes};
ghost use Rattle.jwalk_job.specs.Entry.{item};
ghost use Rattle.jwalk_callbacks.specs.SkipNames.{is_one_of, skipped_item};

use jwalk_job::client_state::ClientState;
use jwalk_job::item::{Item, List};
use jwalk_job::process_read_dir::ProcessReadDir;
use std::alloc::{AllocError, Allocator, Global};

/// A callback by which directories of some names are yielded and not entered.
///
/// ```text
/// let mut names = Vec::new(alloc);
/// names.push(String::from_str(alloc, "target")?)?;
/// names.push(String::from_str(alloc, ".git")?)?;
/// let walk = walk.process_read_dir(SkipNames::new(names));
/// ```
///
/// Wherever a directory of one of these names is listed, it is yielded, and nothing below it is. Nothing else changes:
/// files of these names, other directories and errors are yielded as without the callback. The root is entered whatever
/// its name. For a link that was followed to a directory the link's name counts.
///
/// A name is the whole last part of a path, and is compared byte for byte; there are no patterns. The walk itself
/// leaves hidden names out by default, so `.git` matters only after `skip_hidden(false)`.
///
/// Each entry is compared with each name until one is equal. The callback takes no memory and never fails.
#[derive(Drop)]
pub struct SkipNames<A: Allocator + Copy = Global> {
    names: Vec<String<A>, A>,
}

impl<A: Allocator + Copy> SkipNames<A> {
    ghost use Rattle.jwalk_callbacks.specs.SkipNames.{names_of};

    /// Returns the callback that skips directories of these names. With no names it changes nothing.
    pub fn new(names: Vec<String<A>, A>) -> Self
        ensures { names_of result ≡ map string_bytes names.items }
    {
        SkipNames { names }
    }
}

fn is_listed<A: Allocator + Copy>(names: &[String<A>], name: &str) -> bool
    ensures { result ≡ is_one_of (map string_bytes names.now) name.now }
{
    names.iter().any(|other| name == other.as_str())
}

/// Takes the directory away from an entry of one of these names.
fn skip<C: ClientState, A: Allocator + Copy>(names: &[String<A>], found: &mut Item<C, A>)
    ensures { item found.new ≡ skipped_item (map string_bytes names.now) (item found.old) }
{
    if let Ok(entry) = found
        && is_listed(names, entry.file_name.as_str())
    {
        entry.read_children = None;
    }
}

fn skip_all<C: ClientState, A: Allocator + Copy>(names: &[String<A>], list: &mut List<C, A>)
    ensures { map item list.new.items ≡ map (skipped_item (map string_bytes names.now)) (map item list.old.items) }
{
    for found in list.iter_mut() {
        skip(names, found);
    }
}

impl<C: ClientState, A: Allocator + Copy> ProcessReadDir<C, A> for SkipNames<A> {
    ghost use Rattle.std.specs.Prelude.{IsOk};
    ghost use Rattle.jwalk_callbacks.specs.SkipNames.{Skips, names_of, skipped_list};

    ghost IsLawful = { λ _. Unit {0} };

    ghost Makes = { λ s g. Skips s g };

    ghost KeepsRoot = { λ _. Unit {0} };

    fn process(
        &self,
        depth: Option<usize>,
        _path: &str,
        _state: &mut C::ReadDirState,
        list: &mut List<C, A>,
    ) -> Result<(), AllocError>
        ensures never_refuses { IsOk result }
        ensures state { _state.new ≡ _state.old }
        ensures list { map item list.new.items ≡ skipped_list (names_of self.now) depth (map item list.old.items) }
    {
        if depth.is_some() {
            skip_all(&self.names, list);
        }
        Ok(())
    }
}
