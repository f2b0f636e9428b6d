//! The paths of walks over trees in memory.
use jwalk::file_system::{FileSystem, MemoryFs};
use jwalk::{Options, WalkDirGeneric};
use std::alloc::Global;
use test_fixtures::builders::{Builder, builder};
use test_fixtures::trees::{GROUPED, tree};

/// The paths are one on each line.
fn paths_in_memory(alloc: Global) -> anyhow::Result<String> {
    let mut text = String::new(alloc);
    // begin tree-in-memory
    let mut fs = MemoryFs::new(alloc);
    fs.add_dir("/photos")?;
    fs.add_file("/photos/sea.jpg", 1200)?;
    let root = String::from_str(alloc, "/photos")?;
    for answer in WalkDirGeneric::<((), ()), _, _, _>::new(fs, root) {
        writeln!(text, "{}", answer?.path()?)?;
    }
    // end tree-in-memory
    Ok(text)
}

#[test]
fn a_tree_built_in_memory(rt: HostRuntime) {
    let paths = paths_in_memory(rt.alloc());
    assert!(rt; matches!(&paths, Ok(paths) if paths.as_str() == "/photos\n/photos/sea.jpg\n"));
}

/// The paths are one on each line.
fn paths_by<S: FileSystem>(alloc: Global, fs: S, options: Options) -> anyhow::Result<String> {
    let walk: Builder<S> = builder(alloc, fs, "/t")?;
    let mut text = String::new(alloc);
    for answer in walk.with_options(options) {
        writeln!(text, "{}", answer?.path()?)?;
    }
    Ok(text)
}

fn paths_by_options(alloc: Global) -> anyhow::Result<String> {
    let options = Options::new()
        .with_sort(true)
        .with_skip_hidden(false)
        .with_min_depth(2);
    paths_by(alloc, tree(alloc, GROUPED)?, options)
}

#[test]
fn options_set_together(rt: HostRuntime) {
    let wanted = "/t/group 1/d.txt\n/t/group 2/.hidden_file.txt\n/t/group 2/e.txt\n";
    let paths = paths_by_options(rt.alloc());
    assert!(rt; matches!(&paths, Ok(paths) if paths.as_str() == wanted));
}
