//! Walks by the calls of a job.
use jwalk::WalkDirGeneric;
use jwalk::file_system::MemoryFs;
use jwalk::read_dir::NoProcess;
use jwalk_contents_first::WalkExt;
use std::alloc::Global;

type Walk = WalkDirGeneric<((), ()), MemoryFs, NoProcess>;

fn count_plain(walk: Walk) -> usize {
    let mut count = 0usize;
    for answer in walk.into_iter() {
        count = count.saturating_add(usize::from(answer.is_ok()));
    }
    count
}

fn count_contents_first(walk: Walk) -> usize {
    let mut count = 0usize;
    for answer in walk.into_iter().contents_first() {
        count = count.saturating_add(usize::from(answer.is_ok()));
    }
    count
}

fn count_sorted_by(walk: Walk) -> usize {
    let walk = walk.sort_by(|a, b| a.file_name().cmp(b.file_name()));
    let mut count = 0usize;
    for answer in walk.into_iter() {
        count = count.saturating_add(usize::from(answer.is_ok()));
    }
    count
}

/// Walks over a tree, and returns how many entries came. `tree` makes no walk. Returns `None` for other calls, and if memory
/// runs out.
pub fn count_entries(alloc: Global, calls: &str, tree: MemoryFs) -> Option<usize> {
    let root = String::from_str(alloc, "/r").ok()?;
    let walk = Walk::new(tree, root);
    match calls {
        "tree" => Some(0),
        "walk" => Some(count_plain(walk)),
        "contents_first" => Some(count_contents_first(walk)),
        "sort" => Some(count_plain(walk.sort(true))),
        "sort_by" => Some(count_sorted_by(walk)),
        _ => None,
    }
}
