//! Callbacks of walks whose memory may be refused.
ghost use Rattle.std.specs.Prelude.{◌≡◌, ◌<◌, ◌^◌, ◌∷◌, [], true, map};
ghost use Rattle.jwalk.specs.jwalk_model.Entry.{AtDepth};
ghost use Rattle.jwalk.specs.jwalk_model.ReadDir.{list_depth};
ghost use Rattle.jwalk.specs.jwalk_job.Entry.{item};

use crate::moving::move_directory;
use crate::refused::lines::Given;
use jwalk::DirEntry;
use jwalk::read_dir::ProcessReadDir;
use std::alloc::{AllocError, Allocator};

/// The states of a directory and of an entry are texts, or none.
pub type Texts<A> = (Option<String<A>>, Option<String<A>>);

/// The list of a directory whose states are texts.
type List<A> = Vec<Given<Texts<A>, A>, A>;

/// A callback's change to each list.
#[derive(Clone, Copy)]
pub enum Callback {
    /// Moves the directory of `group 1` to `c.txt`, both in `/t`.
    MovesGroup,
    /// Keeps the entries that have a directory. Each gets the list's state, and its directory the entry's name.
    HandsOnNames,
}

/// The entry gets the list's state, and its directory the entry's name.
fn hand_on<A: Allocator + Copy>(
    entry: &mut DirEntry<Texts<A>, A>,
    state: &Option<String<A>>,
) -> Result<(), AllocError> {
    entry.client_state = state.clone()?;
    if let Some(children) = &mut entry.read_children {
        children.client_read_state = Some(Some(entry.file_name.clone()?));
    }
    Ok(())
}

/// Drops the entries that have no directory first.
fn hand_on_names<A: Allocator + Copy>(
    state: &Option<String<A>>,
    list: &mut List<A>,
) -> Result<(), AllocError> {
    list.retain(|found| matches!(found, Ok(entry) if entry.read_children.is_some()));
    for found in list.iter_mut() {
        if let Ok(entry) = found {
            hand_on(entry, state)?;
        }
    }
    Ok(())
}

fn depth_below(depth: Option<usize>) -> usize
    requires { list_depth depth < 2 ^ 64 }
    ensures { result ≡ list_depth depth }
{
    match depth {
        Some(depth) => depth + 1,
        None => 0,
    }
}

fn is_at<A: Allocator + Copy>(depth: usize, found: &Given<Texts<A>, A>) -> bool
    ensures { result ≡ true → AtDepth depth (item found.now ∷ []) }
{
    match found {
        Ok(entry) => entry.depth == depth,
        Err(_) => true,
    }
}

fn keep_depth<A: Allocator + Copy>(depth: usize, list: &mut List<A>)
    ensures { AtDepth depth (map item list.new.items) }
{
    list.retain(|found| is_at(depth, found));
}

impl<A: Allocator + Copy> ProcessReadDir<Texts<A>, A> for Callback {
    ghost IsLawful = { λ _. Unit {0} };

    ghost Makes = { λ _ _. ⊥ };

    fn process(
        &self,
        depth: Option<usize>,
        path: &str,
        state: &mut Option<String<A>>,
        list: &mut List<A>,
    ) -> Result<(), AllocError> {
        match self {
            Callback::MovesGroup if path == "/t" => move_directory(list, "group 1", "c.txt"),
            Callback::MovesGroup => {}
            Callback::HandsOnNames => hand_on_names(state, list)?,
        }
        keep_depth(depth_below(depth), list);
        Ok(())
    }
}
