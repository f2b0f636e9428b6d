//! Runs one of the examples: `example NAME FOLDER`. Each is a module of the crate `examples`.
#![tactic(auto)]

use examples::{
    all_errors, archive, batch_walk, branches, changed, crew_walk, finder, ignore_walk, newest,
    newest_first, one_disk, remove_tree, snapshot, sources, to_csv, totals, unmarked, usage_walk,
};
use jwalk::file_system::{FileSystem, RealFs};
use jwalk::read_dir::NoProcess;
use jwalk::{Host, WalkDir, WalkDirGeneric};
use std::io::Write;
use std::{env, io};

/// The names that there are.
const NAMES: &str =
    "usage_walk ignore_walk batch_walk crew_walk totals finder unmarked newest newest_first one_disk to_csv \
                     archive remove_tree branches changed snapshot sources all_errors";

/// Runs an example that is given a walk.
fn run<R: Host + AllocGlobal, S: FileSystem + Send + Sync + 'static, W: Write>(
    rt: &R,
    name: &str,
    walk: WalkDirGeneric<((), ()), S, NoProcess>,
    disk: S,
    word: String,
    out: &mut W,
) -> anyhow::Result<()> {
    match name {
        "usage_walk" => usage_walk::run(walk, out),
        "batch_walk" => batch_walk::run(rt, walk, out),
        "totals" => totals::run(rt, walk, disk, out),
        "unmarked" => unmarked::run(rt, walk, out),
        "newest" => newest::run(rt.alloc(), walk, out),
        "newest_first" => newest_first::run(walk, out),
        "one_disk" => one_disk::run(rt, walk, word, out),
        "to_csv" => to_csv::run(rt, walk, &disk, out),
        _ => anyhow::bail!("usage: example NAME FOLDER, with one of these names: {NAMES}"),
    }
}

fn main(rt: HostRuntime) -> anyhow::Result<()> {
    let mut words = env::args(&rt)?.skip(1);
    let name = words.next();
    let root = match words.next() {
        Some(root) => root,
        None => String::from_str(rt.alloc(), ".")?,
    };
    let word = words.next().unwrap_or(String::new(rt.alloc()));
    let disk = RealFs::new(rt.clone()?);
    let out = &mut io::writer(&rt);
    match name.as_deref().unwrap_or("") {
        "ignore_walk" => ignore_walk::run(&rt, &root, out),
        "snapshot" => snapshot::run(&rt, &root, out),
        "sources" => sources::run(&rt, &root, word, out),
        "remove_tree" => {
            remove_tree::run(
                &rt,
                WalkDir::at(&rt, &root)?,
                word.as_str() == "--really",
                out,
            )
        }
        "branches" => branches::run(rt.alloc(), disk, root, out),
        "changed" => changed::run(rt.alloc(), &disk, root, word, out),
        "crew_walk" => crew_walk::run(&rt, disk, root, out),
        "finder" => finder::run(&rt, disk, root, &word, out),
        "archive" => archive::run(rt.alloc(), rt.reader(), root, out),
        "all_errors" => all_errors::run(rt.alloc(), out),
        name => run(&rt, name, WalkDir::at(&rt, &root)?, disk, word, out),
    }
}
