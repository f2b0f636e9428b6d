//! A callback of one's own, with its law and its value.
//!
//! A callback is a type with the trait `ProcessReadDir`. Its method `process` is called with each list before the walk
//! goes on with it. Its two ghost lines say what a proof may rely on.
//!
//! - `IsLawful` says when it may be called. Here that is always, so it is `Unit {0}`, which holds of itself. A callback
//!   that rests on a fact about its fields has this fact here, and whoever begins a walk with it shows it.
//! - `Makes` says what it makes of lists, as far as states count. It relates the callback to what is `Given`: how a
//!   directory's and an entry's state count as a `Worth`, and what is made of a list whose states count so. It is also
//!   given that entries keep their depths in it, and what a new entry's state counts as. `HandsOnNames` makes what
//!   `names_handed_on` gives, which is defined with its parts in `specs/HandsOnNames.antt`.
//!
//! `process` owes the rest, if it succeeds. The entries of the list keep their depth (`depths`). The state and the list
//! which it leaves count as what is given makes of those it was called with (`made`). Then the walk is known with its
//! states: see `walk_handing_on_names`.
//!
//! A callback of which nothing is to be said has `ghost Makes = { λ _ _. ⊥ };`. It owes the depths alone. Of its walk
//! is known what holds with every callback: order, depths, and what is read.
ghost use Rattle.std.specs.Prelude.{◌≡◌, IfOk, OnOk, map, filter, string_bytes};
ghost use Rattle.jwalk.specs.jwalk_model.Entry.{has_directory};
ghost use Rattle.jwalk.specs.jwalk_model.Counted.{blank};
ghost use Rattle.jwalk.specs.jwalk_model.Walk.{whole_walk};
ghost use Rattle.jwalk.specs.jwalk_job.Entry.{entry, item};
ghost use Rattle.jwalk.specs.jwalk_job.Given.{counted_entry, counted_item, counted_list};
ghost use Rattle.jwalk.specs.DirEntryIter.{NoneRefused};
ghost use Rattle.example_proofs.specs.HandsOnNames.{worth_of, handed, with_states, names_handed_on, job_handing_on};

use crate::whole::walk_given;
use jwalk::error::Result as Answer;
use jwalk::file_system::FileSystem;
use jwalk::read_dir::ProcessReadDir;
use jwalk::{DirEntry, WalkDirGeneric};
use std::alloc::{AllocError, Global};

/// States that are texts, or none: a directory's and an entry's. They start as none.
pub type Texts = (Option<String>, Option<String>);

/// An item of a list, and an answer of a walk.
pub type Found = Answer<DirEntry<Texts>>;

/// The callback: of each list it keeps the directories alone. Each gets a copy of the list's state as its own, and its
/// name as the state that the list below it begins with. So an entry's state is the name of the directory above it, and
/// the root has the state that the walk begins with.
#[derive(Clone, Copy, Debug)]
pub struct HandsOnNames;

fn leads_on(found: &Found) -> bool
    ensures { result ≡ has_directory (item found.now) }
{
    match found {
        Ok(entry) => entry.read_children.is_some(),
        Err(_) => false,
    }
}

fn keep_directories(list: &mut Vec<Found>)
    ensures { list.new.items ≡ filter (λ x. has_directory (item x)) list.old.items }
{
    list.retain(|found| leads_on(found));
}

/// Gives an entry its list's state, and its name to its directory.
fn hand_on(found: &mut DirEntry<Texts>, state: &Option<String>) -> Result<(), AllocError>
    ensures { OnOk result (counted_entry names_handed_on (entry found.new)
        ≡ with_states (worth_of state.now) (counted_entry names_handed_on (entry found.old))) }
{
    found.client_state = state.clone()?;
    if let Some(children) = &mut found.read_children {
        children.client_read_state = Some(Some(found.file_name.clone()?));
    }
    Ok(())
}

fn hand_on_item(found: &mut Found, state: &Option<String>) -> Result<(), AllocError>
    ensures { OnOk result (counted_item names_handed_on (item found.new)
        ≡ handed (worth_of state.now) (counted_item names_handed_on (item found.old))) }
{
    match found {
        Ok(found) => hand_on(found, state),
        Err(_) => Ok(()),
    }
}

fn hand_on_all(list: &mut Vec<Found>, state: &Option<String>) -> Result<(), AllocError>
    ensures { OnOk result (counted_list names_handed_on list.new.items
        ≡ map (handed (worth_of state.now)) (counted_list names_handed_on list.old.items)) }
{
    for found in list.iter_mut() {
        hand_on_item(found, state)?;
    }
    Ok(())
}

// begin process
impl ProcessReadDir<Texts, Global> for HandsOnNames {
    ghost IsLawful = { λ _. Unit {0} };

    ghost Makes = { λ _ given. given ≡ names_handed_on };

    fn process(
        &self,
        _depth: Option<usize>,
        _path: &str,
        state: &mut Option<String>,
        list: &mut Vec<Found>,
    ) -> Result<(), AllocError> {
        keep_directories(list);
        hand_on_all(list, state)
    }
}
// end process

/// Returns all that a walk with this callback yields from a root, in the order of names, where the root has no state.
/// Over a file system that always answers the same it is the whole walk of the definition, with its states, unless one
/// of the answers reports that memory ran out. A `MemoryFs` is such a file system.
///
/// Its proof shows what `walk_given` takes as given. Besides the file system and the callback, that is that a clone of
/// a text counts as that text, and that an entry begins with no text.
///
/// # Errors
///
/// If memory runs out for the list.
pub fn walk_handing_on_names<S: FileSystem>(
    alloc: Global,
    fs: S,
    root: String,
) -> Result<Vec<Found>, AllocError>
    ensures { IfOk result (λ found. S.IsFixed fs → NoneRefused found.items
        → counted_list names_handed_on found.items
        ≡ whole_walk (job_handing_on (S.functions fs)) (string_bytes root) blank) }
{
    let walk = WalkDirGeneric::<Texts, _, _, _>::new(fs, root)
        .sort(true)
        .process_read_dir(HandsOnNames);
    walk_given(alloc, walk)
}
