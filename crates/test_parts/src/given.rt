//! The data of the tests: addresses, items at them, rehearsals and roots. No function promises anything.
use jwalk_board::board::{Board, Move, Plan, Refused, Rehearsal, rehearse};
use jwalk_fs::file_system::FileSystem;
use jwalk_job::job::Job;
use jwalk_job::process_read_dir::NoProcess;
use jwalk_job::read_dir_spec::ReadDirSpec;
use jwalk_order::index_path::IndexPath;
use jwalk_order::ordered::Ordered;
use std::alloc::Global;

pub(crate) fn address(alloc: Global, indices: &[usize]) -> Option<IndexPath> {
    Some(IndexPath::new(Vec::from_slice(alloc, indices).ok()?))
}

/// Returns whether an address has these indices.
pub(crate) fn is(address: &IndexPath, indices: &[usize]) -> bool {
    address.indices.as_slice() == indices
}

pub(crate) fn is_at<T>(item: &Ordered<T>, indices: &[usize], child_count: usize) -> bool {
    is(&item.index_path, indices) && item.child_count() == child_count
}

/// Counts the queued, in hand, ready and pending.
pub(crate) fn counts<T: Drop, R: Drop>(board: &Board<T, R>) -> [usize; 4] {
    [
        board.queued(),
        board.in_hand(),
        board.ready(),
        board.pending(),
    ]
}

pub(crate) fn played<P: Plan<Global, Spec = u8, Reading = u8>>(
    alloc: Global,
    plan: &P,
    roots: &[u8],
    workers: usize,
    moves: &[Move],
) -> Result<Rehearsal<u8, u8>, Refused>
    requires { P.IsLawful plan.now }
{
    let roots = Vec::from_slice(alloc, roots)?;
    rehearse(alloc, plan, roots, workers, moves)
}

pub(crate) type States = ((), ());

/// Returns the directories of a root's list.
pub(crate) fn roots_of<S: FileSystem>(
    job: &Job<States, S, NoProcess>,
    root: &str,
) -> Option<Vec<ReadDirSpec<States>>> {
    let list = job.root_list(root, ()).ok()?;
    list.read_children_specs().ok()
}
