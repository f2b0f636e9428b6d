//! What is true of the answers of a walk, whatever its file system does.
use std::alloc::{AllocError, Global};
use test_fixtures::answers::Answer;
use test_fixtures::builders::Entry;

/// The end of a walk.
#[derive(Clone, Copy)]
pub enum End {
    /// With its last answer.
    Whole,
    /// Memory ran out.
    Memory,
    /// An answer is impossible.
    Wrong,
}

/// The directories that were answered and whose items may come next.
#[derive(Drop)]
struct Open {
    min_depth: usize,
    max_depth: usize,
    /// Their paths, shallowest first.
    paths: Vec<String>,
}

impl Open {
    /// Returns whether an entry has a depth that is asked for and comes after its directory. Then its items may come.
    fn lets_in(&mut self, entry: &Entry) -> Result<bool, AllocError> {
        let Some(level) = entry.depth().checked_sub(self.min_depth) else {
            return Ok(false);
        };
        if level > self.paths.len() || entry.depth() > self.max_depth {
            return Ok(false);
        }
        self.paths.truncate(level);
        // A link that was followed has the parent of its own path, which may be another text.
        let is_below = match self.paths.last() {
            Some(path) => entry.path_is_symlink() || path.as_str() == entry.parent_path(),
            None => true,
        };
        if let Some(directory) = &entry.read_children
            && directory.error().is_none()
        {
            let path = String::from_str(*self.paths.allocator(), directory.path())?;
            self.paths.push(path)?;
        }
        Ok(is_below)
    }
}

/// Returns how a walk ended that yields entries from one depth to another.
pub fn end_of(
    alloc: Global,
    found: &[Answer],
    min_depth: usize,
    max_depth: usize,
) -> Result<End, AllocError> {
    let (answers, end) = match found.split_last() {
        Some((Err(error), before)) if error.is_memory() => (before, End::Memory),
        _ => (found, End::Whole),
    };
    let mut open = Open {
        min_depth,
        max_depth,
        paths: Vec::new(alloc),
    };
    for answer in answers {
        let may_come = match answer {
            Ok(entry) => open.lets_in(entry)?,
            Err(error) => error.io_error().is_some() || error.loop_ancestor().is_some(),
        };
        if !may_come {
            return Ok(End::Wrong);
        }
    }
    Ok(end)
}
