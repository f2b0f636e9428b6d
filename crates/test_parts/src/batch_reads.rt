//! Readings over a board, one after another and on threads.
use crate::given::{States, roots_of};
use jwalk_job::job::Job;
use jwalk_job::options::Options;
use jwalk_job::process_read_dir::NoProcess;
use jwalk_memory_fs::memory_fs::MemoryFs;
use jwalk_readings::batch_reads::BatchReads;
use std::alloc::Global;
use std::thread::Threads;
use test_fixtures::watched::{Failing, Watched};

type Reads<'f> = BatchReads<States, &'f Watched, NoProcess>;

/// Three directories with one in each.
const TWINS: &[&str] = &["/r", "/r/a", "/r/a/x", "/r/b", "/r/b/x", "/r/c", "/r/c/x"];

/// 33 directories with one in each, which are enough for two threads.
const MANY: &[&str] = &[
    "/r", "/r/A", "/r/A/A", "/r/B", "/r/B/B", "/r/C", "/r/C/C", "/r/D", "/r/D/D", "/r/E", "/r/E/E",
    "/r/F", "/r/F/F", "/r/G", "/r/G/G", "/r/a", "/r/a/a", "/r/b", "/r/b/b", "/r/c", "/r/c/c",
    "/r/d", "/r/d/d", "/r/e", "/r/e/e", "/r/f", "/r/f/f", "/r/g", "/r/g/g", "/r/h", "/r/h/h",
    "/r/i", "/r/i/i", "/r/j", "/r/j/j", "/r/k", "/r/k/k", "/r/l", "/r/l/l", "/r/m", "/r/m/m",
    "/r/n", "/r/n/n", "/r/o", "/r/o/o", "/r/p", "/r/p/p", "/r/q", "/r/q/q", "/r/r", "/r/r/r",
    "/r/s", "/r/s/s", "/r/t", "/r/t/t", "/r/u", "/r/u/u", "/r/v", "/r/v/v", "/r/w", "/r/w/w",
    "/r/x", "/r/x/x", "/r/y", "/r/y/y", "/r/z", "/r/z/z",
];

/// Memory runs out when the directory at the path is listed.
fn tree(alloc: Global, dirs: &[&str], at: &'static str) -> Option<Watched> {
    let mut fs = MemoryFs::new(alloc);
    for dir in dirs {
        fs.add_dir(dir).ok()?;
    }
    Some(Watched::new(fs, Failing::ListForMemory(at)))
}

/// Reads everything below the root, `width` directories together. Returns `None` for a width of 0.
fn begun(alloc: Global, fs: &Watched, width: usize) -> Option<Reads<'_>> {
    if width == 0 {
        return None;
    }
    let job = Job::new(alloc, fs, NoProcess, Options::new().with_sort(true));
    let roots = roots_of(&job, "/r")?;
    BatchReads::try_new(alloc, job, roots, width).ok()
}

/// The way in which the directories are read.
enum By {
    Turn,
    Threads,
}

/// Adds the names of the next reading, `error` or `refused`, and after a colon how many other readings are ahead.
/// Returns `None` at the end.
fn push_next(
    rt: &(impl Threads + Sync),
    walk: &mut Reads<'_>,
    by: &By,
    text: &mut String,
) -> Option<()> {
    let prepared = match by {
        By::Turn => Ok(()),
        By::Threads => walk.prepare_on(rt),
    };
    let next = match prepared {
        Ok(()) => walk.read_next(),
        Err(refused) => Err(refused),
    };
    match next {
        Ok(Some(Ok(read))) => {
            for found in read.results_list() {
                if let Ok(entry) = found {
                    text.push_str(entry.file_name()).ok()?;
                }
            }
        }
        Ok(Some(Err(_error))) => text.push_str("error").ok()?,
        Ok(None) => return None,
        Err(_refused) => text.push_str("refused").ok()?,
    }
    write!(text, ":{} ", walk.ahead()).ok()
}

/// What a row shows, the directories, the one for which memory runs out, how many are read together, and the readings
/// as `push_next` adds them.
type Row = (
    &'static str,
    &'static [&'static str],
    &'static str,
    usize,
    &'static str,
);

fn gives(
    rt: &(impl Threads + Sync + AllocGlobal),
    (_, dirs, at, width, wanted): &Row,
    by: &By,
) -> Option<bool> {
    let fs = tree(rt.alloc(), dirs, *at)?;
    let mut walk = begun(rt.alloc(), &fs, *width)?;
    let mut text = String::new(rt.alloc());
    for _ in 0..100 {
        if push_next(rt, &mut walk, by, &mut text).is_none() {
            break;
        }
    }
    Some(text.as_str() == *wanted)
}

const ROWS: &[Row] = &[
    ("one at a time", TWINS, "", 1, "abc:0 x:0 :0 x:0 :0 x:0 :0 "),
    ("two together", TWINS, "", 2, "abc:0 x:1 :2 x:1 :0 x:0 :0 "),
    (
        "eight together",
        TWINS,
        "",
        8,
        "abc:0 x:2 :4 x:3 :2 x:1 :0 ",
    ),
    (
        "a wide batch",
        MANY,
        "",
        64,
        "ABCDEFGabcdefghijklmnopqrstuvwxyz:0 \
         A:32 :64 B:63 :62 C:61 :60 D:59 :58 E:57 :56 F:55 :54 G:53 :52 a:51 :50 b:49 :48 c:47 :46 d:45 :44 \
         e:43 :42 f:41 :40 g:39 :38 h:37 :36 i:35 :34 j:33 :32 k:31 :30 l:29 :28 m:27 :26 n:25 :24 o:23 :22 \
         p:21 :20 q:19 :18 r:17 :16 s:15 :14 t:13 :12 u:11 :10 v:9 :8 w:7 :6 x:5 :4 y:3 :2 z:1 :0 ",
    ),
    (
        "a refusal in the middle of a batch ends the walk",
        MANY,
        "/r/e",
        64,
        "ABCDEFGabcdefghijklmnopqrstuvwxyz:0 refused:0 ",
    ),
];

#[test]
fn directories_are_read_in_order_however_many_together(rt: HostRuntime) {
    const WAYS: &[(&str, By)] = &[("in turn", By::Turn), ("on threads", By::Threads)];
    for row in ROWS {
        for (way, by) in WAYS {
            assert_eq!(rt; gives(&rt, row, by), Some(true), "{}, {way}", row.0);
        }
    }
}
