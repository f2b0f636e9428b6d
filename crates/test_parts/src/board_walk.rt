//! Walks over a plan that reads no directories.
use jwalk_board::board::Plan;
use std::alloc::Global;
use std::thread::Threads;
use test_fixtures::family::Family;
use tree_walk::board_walk::BoardWalk;
use tree_walk::whole::read_all;

// The readings of a family in preorder.
const PREORDER: [u8; 4] = [0, 1, 3, 2];

fn whole_family(alloc: Global, width: usize) -> Option<Vec<u8>> {
    if width == 0 {
        return None;
    }
    read_all(alloc, Family, vec![in alloc; 0_u8].ok()?, width).ok()
}

#[test]
fn all_readings_of_a_family_however_many_together(rt: HostRuntime) {
    for width in 1..5 {
        let found = whole_family(rt.alloc(), width);
        assert_eq!(rt; found.as_deref(), Some(PREORDER.as_slice()));
    }
}

/// The first two of a family's readings that come where what is below the root's first child is skipped. None is left then.
fn without_first_child(alloc: Global, width: usize) -> Option<[u8; 2]> {
    if width == 0 {
        return None;
    }
    let mut walk = BoardWalk::new(alloc, Family, width);
    walk.begin(vec![in alloc; 0_u8].ok()?).ok()?;
    let root = walk.read_next().ok()??;
    walk.skip_next();
    let next = walk.read_next().ok()??;
    walk.skip_next();
    match walk.read_next() {
        Ok(None) => Some([root, next]),
        _ => None,
    }
}

#[test]
fn what_is_skipped_is_not_handed_on(rt: HostRuntime) {
    for width in 1..5 {
        assert_eq!(rt; without_first_child(rt.alloc(), width), Some([0, 2]));
    }
}

/// How the readings are asked for.
enum Asking {
    /// Each is prepared first. The number before it is how many are ahead once it is prepared.
    Prepared,
    /// The walk is stopped after this many.
    StoppedAfter(usize),
}

/// Adds a reading, which is prepared on threads, or `refused`, and how many others are ahead. Returns `None` at the
/// end.
fn push_next<J: Plan<Global, Spec = u8, Reading = u8> + Drop + Sync>(
    rt: &(impl Threads + Sync),
    walk: &mut BoardWalk<u8, u8, J>,
    asking: &Asking,
    text: &mut String,
) -> Option<()>
    requires { (plan : _) → J.IsLawful plan }
{
    let next = match asking {
        Asking::Prepared => {
            walk.prepare_on(rt).ok()?;
            write!(text, "{}>", walk.ahead()).ok()?;
            walk.read_next()
        }
        Asking::StoppedAfter(_) => walk.read_next_on(rt),
    };
    match next {
        Ok(read) => write!(text, "{}:{} ", read?, walk.ahead()).ok(),
        Err(_refused) => text.push_str("refused ").ok(),
    }
}

/// The text has each reading below a root as `push_next` adds it. Two are read together.
fn readings<J: Plan<Global, Spec = u8, Reading = u8> + Drop + Sync>(
    rt: &(impl Threads + Sync + AllocGlobal),
    plan: J,
    asking: &Asking,
) -> Option<String>
    requires { (plan : _) → J.IsLawful plan }
{
    let alloc = rt.alloc();
    let mut walk = BoardWalk::new(alloc, plan, 2);
    walk.begin(vec![in alloc; 0_u8].ok()?).ok()?;
    let mut text = String::new(alloc);
    for step in 0..10 {
        if matches!(asking, Asking::StoppedAfter(count) if *count == step) {
            walk.stop();
        }
        if push_next(rt, &mut walk, asking, &mut text).is_none() {
            break;
        }
    }
    Some(text)
}

#[test]
fn the_next_is_ready_once_it_is_prepared_and_none_once_a_walk_is_stopped(rt: HostRuntime) {
    const ROWS: &[(Asking, &str)] = &[
        (Asking::Prepared, "1>0:0 2>1:1 2>3:1 1>2:0 0>"),
        (Asking::StoppedAfter(2), "0:0 1:1 "),
        (Asking::StoppedAfter(10), "0:0 1:1 3:1 2:0 "),
    ];
    for (asking, wanted) in ROWS {
        let text = readings(&rt, Family, asking);
        assert_eq!(rt; text.as_deref(), Some(*wanted));
    }
}
