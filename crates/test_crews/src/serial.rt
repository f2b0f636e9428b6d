//! Walks over a crew, compared with serial walks item by item.
use crate::crewed::{Asked, Reader, Stand};
use jwalk::Crew;
use jwalk::file_system::{BuildError, MemoryFs};
use jwalk::read_dir::ByFn;
use std::alloc::{AllocError, Global};
use test_fixtures::answers::Answer;
use test_fixtures::host::Host;
use test_fixtures::watched::{Failing, Watched};
use test_fixtures::ways::Setting;
use test_fixtures::width::Width;

/// The state of each directory and of each entry is a count.
type Counts = (usize, usize);

/// The text of an entry shows everything but the directories above it.
fn text_of(alloc: Global, found: Result<Vec<Answer<Counts>>, AllocError>) -> Option<String> {
    let found = found.ok()?;
    format!(in alloc; "{:?}", found.as_slice()).ok()
}

/// Counts, reorders the list, takes the directories of some entries away, and sets the first state of others.
fn reorder(
    _depth: Option<usize>,
    _path: &str,
    state: &mut usize,
    list: &mut Vec<Answer<Counts>>,
) -> Result<(), AllocError> {
    *state = state.wrapping_add(list.len());
    for (place, found) in list.iter_mut().enumerate() {
        if let Ok(entry) = found {
            entry.client_state = state.wrapping_add(place);
            if entry.depth > 0 && state.wrapping_add(place) % 6 == 0 {
                entry.read_children = None;
            }
            if let Some(directory) = &mut entry.read_children
                && place % 2 == 0
            {
                directory.client_read_state = Some(state.wrapping_mul(3));
            }
        }
    }
    if *state % 3 != 0 {
        list.reverse();
    }
    Ok(())
}

/// Returns whether walks over a tree are as serial walks are, with a callback that reorders lists, over a crew with a
/// number of workers for each walk.
pub fn are_serial<R: Host>(
    rt: &R,
    tree: Result<MemoryFs, BuildError>,
    asked: &Asked<'_>,
    workers: usize,
) -> Result<bool, BuildError> {
    let serial = Asked {
        reader: Reader::Untold,
        then: &[Setting::By(Width::Serial)],
        ..*asked
    };
    let fs = Watched::new(tree?, Failing::Never);
    let stand = Stand::over(rt, fs, Crew::new(rt.clone()?, 1, workers))?;
    let crewed = text_of(stand.alloc, stand.found(asked, ByFn::of(reorder)));
    let serial = text_of(stand.alloc, stand.found(&serial, ByFn::of(reorder)));
    match (crewed, serial) {
        (Some(crewed), Some(serial)) => Ok(crewed.as_str() == serial.as_str()),
        _ => Ok(false),
    }
}
