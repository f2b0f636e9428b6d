//! The metadata that entries of the disk keep, beside what the standard library reads.
use crate::disk::found;
use jwalk::file_system::{FileSystem, FileType, Metadata, Moment, RealFs};
use std::alloc::{AllocError, Global};
use std::fs::{File, FileTimes};
use std::io::ErrorKind;
use std::os::unix::fs::MetadataExt;
use std::test::Fail;
use std::time::{Duration, SystemTime, UNIX_EPOCH};
use std::{fs, io};
use test_fixtures::answers::Answer;
use test_fixtures::folder::{Step, make, path_in, remove};
use test_fixtures::ways::Setting;

/// A directory, a file, a file that will have two names, a link, a file that will have a hole, and one with set times.
const KINDS: &[Step] = &[
    Step::Dir("/d"),
    Step::Zeros(5_000, "/f"),
    Step::Zeros(3, "/h1"),
    Step::Link("f", "/l"),
    Step::Zeros(0, "/s"),
    Step::Zeros(0, "/t"),
    Step::Mode(0o640, "/t"),
];

/// The folder and everything in it, by name.
const NAMES: &[&str] = &["", "/d", "/f", "/h1", "/h2", "/l", "/s", "/t"];

fn since_1970(seconds: u64, nanoseconds: u64) -> io::Result<SystemTime> {
    let since = Duration::from_secs(seconds).saturating_add(Duration::from_nanos(nanoseconds));
    match UNIX_EPOCH.checked_add(since) {
        Some(time) => Ok(time),
        None => Err(io::Error::from(ErrorKind::Other)),
    }
}

fn open(rt: &HostRuntime, path: &str) -> io::Result<File> {
    let mut writable = File::options();
    writable.write(true);
    writable.open(rt, path)
}

fn add_name(rt: &HostRuntime, folder: &str) -> io::Result<()> {
    let second = path_in(rt, folder, "/h2")?;
    fs::hard_link(rt, path_in(rt, folder, "/h1")?.as_str(), second.as_str())
}

fn add_hole(rt: &HostRuntime, folder: &str) -> io::Result<()> {
    let sparse = open(rt, path_in(rt, folder, "/s")?.as_str())?;
    sparse.set_len(1 << 20)
}

fn set_times(rt: &HostRuntime, folder: &str) -> io::Result<()> {
    let times = FileTimes::new()
        .set_modified(since_1970(1_000_000_000, 123_456_789)?)
        .set_accessed(since_1970(1_100_000_000, 5)?);
    let set = open(rt, path_in(rt, folder, "/t")?.as_str())?;
    set.set_times(times)
}

fn make_kinds(rt: &HostRuntime) -> io::Result<String> {
    let folder = make(rt, "metadata", KINDS)?;
    add_name(rt, folder.as_str())?;
    add_hole(rt, folder.as_str())?;
    set_times(rt, folder.as_str())?;
    Ok(folder)
}

fn is_moment(seen: Moment, seconds: i64, nanoseconds: i64) -> bool {
    seen.seconds == seconds && i64::from(seen.nanoseconds) == nanoseconds
}

/// Also holds if neither has the time, as of a file system that doesn't know it.
fn is_created(seen: Option<Moment>, by_std: &fs::Metadata) -> bool {
    let Ok(created) = by_std.created() else {
        return seen.is_none();
    };
    match (seen, created.duration_since(UNIX_EPOCH)) {
        (Some(seen), Ok(since)) => {
            u64::try_from(seen.seconds).ok() == Some(since.as_secs())
                && seen.nanoseconds == since.subsec_nanos()
        }
        _ => false,
    }
}

fn seen_at(found: &[Answer], number: usize) -> Option<&Metadata> {
    match found.get(number) {
        Some(Ok(entry)) => entry.metadata_seen(),
        _ => None,
    }
}

fn is_same(seen: &Metadata, by_std: &fs::Metadata) -> bool {
    let Some(details) = seen.details() else {
        return false;
    };
    let file_type = by_std.file_type();
    let is_type = match seen.file_type() {
        FileType::Dir => file_type.is_dir(),
        FileType::File => file_type.is_file(),
        FileType::Symlink => file_type.is_symlink(),
        FileType::Other => false,
    };
    is_type
        && seen.len() == by_std.len()
        && details.identity.device == by_std.dev()
        && details.identity.inode == by_std.ino()
        && details.links == by_std.nlink()
        && details.blocks == by_std.blocks()
        && details.mode == by_std.mode()
        && details.uid == by_std.uid()
        && details.gid == by_std.gid()
        && is_moment(details.modified, by_std.mtime(), by_std.mtime_nsec())
        && is_moment(details.accessed, by_std.atime(), by_std.atime_nsec())
        && is_moment(details.changed, by_std.ctime(), by_std.ctime_nsec())
        && is_created(details.created, by_std)
}

fn are_same(kept: &[Answer], by_std: &[fs::Metadata]) -> bool {
    for (number, by_std) in by_std.iter().enumerate() {
        let is_kept = match seen_at(kept, number) {
            Some(seen) => is_same(seen, by_std),
            None => false,
        };
        if !is_kept {
            return false;
        }
    }
    kept.len() == by_std.len()
}

fn are_bare(answers: &[Answer]) -> bool {
    for answer in answers {
        match answer {
            Ok(entry) if entry.metadata_seen().is_none() => {}
            _ => return false,
        }
    }
    true
}

/// Returns whether the third file is another than the fourth and fifth, which are one with two names, the seventh has
/// next to no blocks, and the eighth has the times and the mode that were set.
fn are_as_made(found: &[Answer]) -> Option<bool> {
    let other = seen_at(found, 2)?.details()?;
    let first = seen_at(found, 3)?.details()?;
    let second = seen_at(found, 4)?.details()?;
    let sparse = seen_at(found, 6)?.details()?;
    let set = seen_at(found, 7)?.details()?;
    let is_one = first.identity.is_same_file(second.identity) && first.links == 2;
    let is_another = !first.identity.is_same_file(other.identity) && other.links == 1;
    let is_set = is_moment(set.modified, 1_000_000_000, 123_456_789)
        && is_moment(set.accessed, 1_100_000_000, 5)
        && set.mode == 0o100_640;
    Some(is_one && is_another && sparse.blocks < (1 << 20) / 512 && is_set)
}

/// Returns whether walks of the folder by name keep of each entry what the standard library reads, if it is asked for,
/// and else nothing.
fn are_kept<S: FileSystem>(
    alloc: Global,
    disk: &S,
    folder: &str,
    by_std: &[fs::Metadata],
) -> Result<bool, AllocError> {
    let kept = found(alloc, disk, folder, &[Setting::Sort], true)?;
    let bare = found(alloc, disk, folder, &[Setting::Sort], false)?;
    Ok(
        are_same(kept.as_slice(), by_std)
            && are_as_made(kept.as_slice()) == Some(true)
            && bare.len() == by_std.len()
            && are_bare(bare.as_slice()),
    )
}

/// The standard library reads the metadata of everything in the folder right before the walks do.
fn is_kept_if_asked(rt: &HostRuntime, folder: &str) -> io::Result<bool> {
    let mut by_std = Vec::new(rt.alloc());
    for name in NAMES {
        by_std.push(fs::symlink_metadata(rt, path_in(rt, folder, *name)?.as_str())?)?;
    }
    Ok(are_kept(rt.alloc(), &RealFs::new(*rt), folder, by_std.as_slice())?)
}

#[test]
fn metadata_is_kept_if_asked_and_is_what_the_standard_library_reads(
    rt: HostRuntime,
) -> Result<(), Fail> {
    let folder = make_kinds(&rt)?;
    let is_kept = is_kept_if_asked(&rt, folder.as_str());
    remove(&rt, folder.as_str())?;
    assert!(rt; is_kept?);
    Ok(())
}
