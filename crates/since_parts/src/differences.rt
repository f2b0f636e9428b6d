//! The differences between what a snapshot holds and what a walk finds.
ghost use Rattle.std.specs.Prelude.{◌≡◌, [], true, map, IfOk};
ghost use Rattle.since_parts.specs.Differences.{kept_at, AreDifferences, IsDifferencesOf};

use crate::failure::Failure;
use crate::found::Found;
use crate::held::Held;
use crate::unread::ascending;
use jwalk_changes::{Change, ChangesError, Kept, changes_between};
use program_parts::halt::Halt;
use std::alloc::{AllocError, Global};

fn borrowed<'f>(alloc: Global, entries: &'f [Kept]) -> Result<Vec<&'f Kept>, AllocError>
    ensures { IfOk result (λ all. map kept_at all.items ≡ entries.now) }
{
    let mut all = Vec::new(alloc);
    for entry in entries {
        all.push(entry)?;
    }
    Ok(all)
}

/// Returns the differences of two lists, outside these places.
fn between<'s, 'a, 'f>(
    alloc: Global,
    old: Vec<Held<'s, 'a>>,
    new: Vec<&'f Kept>,
    unread: Vec<&str>,
) -> Result<Vec<Change<Held<'s, 'a>, &'f Kept>>, Failure>
    ensures { IfOk result (λ changes. unread.entry.items ≡ [] → IsDifferencesOf old.entry.items new.entry.items changes.items) }
{
    match changes_between(alloc, old, new, unread) {
        Ok(changes) => Ok(changes),
        Err(ChangesError::Memory) => Err(Failure::Halt(Halt::Memory)),
        Err(ChangesError::NotAscending(input)) => {
            Err(Failure::Error(format!(in alloc; "{input}")?))
        }
    }
}

/// Returns what differs between what was held and what is found. Nothing is told of what is below a directory of which
/// not all is known.
pub fn differences<'s, 'a, 'f>(
    alloc: Global,
    old: Vec<Held<'s, 'a>>,
    found: &'f Found,
) -> Result<Vec<Change<Held<'s, 'a>, &'f Kept>>, Failure>
    ensures { IfOk result (λ changes. found.now.clean ≡ true → AreDifferences old.entry.items found.now.entries.items changes.items) }
{
    let new = borrowed(alloc, &found.entries)?;
    if found.clean {
        return between(alloc, old, new, Vec::new(alloc));
    }
    let unread = ascending(alloc, &found.unread)?;
    between(alloc, old, new, unread)
}
