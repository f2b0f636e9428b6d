//! Closures of which it is known what they make of lists.
ghost use Rattle.std.specs.Prelude.{◌≡◌, ◌<◌, ◌+◌, ◌^◌, [], Some, OnOk, map};
ghost use Rattle.jwalk.specs.jwalk_model.Entry.{AtDepth};
ghost use Rattle.jwalk.specs.jwalk_callbacks.FilterEntry.{filtered_list, filtering};
ghost use Rattle.jwalk.specs.jwalk_job.Entry.{item};
ghost use Rattle.jwalk.specs.jwalk_job.Given.{counted_list};
ghost use Rattle.jwalk_laws.specs.Callbacks.{emptied, no_target, root_alone};

use jwalk::DirEntry;
use jwalk::error::Result as Answer;
use jwalk::read_dir::{ByFn, FilterEntry, ProcessReadDir};
use std::alloc::{AllocError, Global};

/// An item of a list, and an answer of a walk.
pub type Found = Answer<DirEntry<((), ())>>;

/// Calls a callback with the list of a directory at this depth, and knows no more of it than of every callback.
fn processed<P: ProcessReadDir<((), ()), Global>>(
    callback: &P,
    depth: usize,
    list: &mut Vec<Found>,
) -> Result<(), AllocError>
    requires lawful { P.IsLawful callback.now }
    requires fits { depth + 1 < 2 ^ 64 }
    requires depths { AtDepth (depth + 1) (map item list.old.items) }
    ensures { (given : _) → P.Makes callback.now given → OnOk result (given.processed (Some depth) []
        (given.read_dir_state tt) (counted_list given list.old.items)
        ≡ record { state = given.read_dir_state tt; list = counted_list given list.new.items }) }
{
    callback.process(Some(depth), "", &mut (), list)
}

/// Drops the directories of the name `target` from the list of a directory at this depth, as `FilterEntry` does in walks.
/// The closure's answers are those of a test.
///
/// # Errors
///
/// If memory runs out.
pub fn drop_target(depth: usize, list: &mut Vec<Found>) -> Result<(), AllocError>
    requires fits { depth + 1 < 2 ^ 64 }
    requires depths { AtDepth (depth + 1) (map item list.old.items) }
    ensures { OnOk result (counted_list (filtering no_target) list.new.items
        ≡ filtered_list no_target (Some depth) (counted_list (filtering no_target) list.old.items)) }
{
    let filter = FilterEntry::new(|_depth, name, file_type| name != "target"
        || !file_type.is_dir());
    processed(&filter, depth, list)
}

/// Empties the list of a directory at this depth, as a walk does whose closure keeps the root alone. The closure's clauses
/// say what it makes of lists.
///
/// # Errors
///
/// If memory runs out.
pub fn keep_root_alone(depth: usize, list: &mut Vec<Found>) -> Result<(), AllocError>
    requires fits { depth + 1 < 2 ^ 64 }
    requires depths { AtDepth (depth + 1) (map item list.old.items) }
    ensures { OnOk result (counted_list root_alone list.new.items ≡ []) }
{
    // begin closure-by-value
    let root_alone = ByFn::new(
        |depth: Option<usize>, _path: &str, state: &mut (), list: &mut Vec<Found>|
            ensures state { state.new ≡ state.old }
            ensures list { map item list.new.items ≡ emptied depth (map item list.old.items) }
        {
            if depth.is_some() {
                list.clear();
            }
            Ok(())
        },
    );
    // end closure-by-value
    processed(&root_alone, depth, list)
}
