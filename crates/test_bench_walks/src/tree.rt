//! Trees in memory whose names are in no order.
use jwalk::file_system::MemoryFs;
use std::alloc::Global;

/// Returns the number of a name: all below `count` come once, but not in order, where `count` isn't a multiple of 7,919.
fn scrambled(number: u32, count: u32) -> u64 {
    u64::from(number) * 7_919 % u64::from(count.max(1))
}

/// One directory with files alone.
fn add_files(fs: &mut MemoryFs, alloc: Global, count: u32) -> Option<()> {
    for number in 1..count {
        let name = scrambled(number, count);
        let path = format!(in alloc; "/r/file-{name:07}").ok()?;
        fs.add_file(path.as_str(), 1).ok()?;
    }
    Some(())
}

/// A directory with 19 files.
fn add_directory(fs: &mut MemoryFs, alloc: Global, number: u32) -> Option<()> {
    let directory = format!(in alloc; "/r/dir-{number:07}").ok()?;
    fs.add_dir(directory.as_str()).ok()?;
    for file in 1..20 {
        let name = scrambled(file, 20);
        let path = format!(in alloc; "{directory}/file-{name:02}").ok()?;
        fs.add_file(path.as_str(), 1).ok()?;
    }
    Some(())
}

/// Directories of 19 files each.
fn add_directories(fs: &mut MemoryFs, alloc: Global, count: u32) -> Option<()> {
    for number in 0..count / 20 {
        add_directory(fs, alloc, number)?;
    }
    Some(())
}

/// Returns a tree with this many entries below `/r` or a few less, `wide` or `bushy`. Returns `None` for another shape, and if
/// memory runs out.
pub fn build(alloc: Global, shape: &str, count: u32) -> Option<MemoryFs> {
    let mut fs = MemoryFs::new(alloc);
    fs.add_dir("/r").ok()?;
    match shape {
        "wide" => add_files(&mut fs, alloc, count)?,
        "bushy" => add_directories(&mut fs, alloc, count)?,
        _ => return None,
    }
    Some(fs)
}
