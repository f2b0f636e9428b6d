//! Folders on the disk, made for one test and removed after it.
use std::fs::{File, Permissions};
use std::io::ErrorKind;
use std::os::unix::fs::{PermissionsExt, symlink};
use std::time::{Duration, SystemTime};
use std::{env, fs, io, process};

/// A step that fills a folder. Paths begin at the folder, with a slash.
#[derive(Clone, Copy)]
pub enum Step {
    /// A directory.
    Dir(&'static str),
    /// A file with this text.
    File(&'static str, &'static str),
    /// A file of this many zero bytes.
    Zeros(usize, &'static str),
    /// A link: its text, and its path.
    Link(&'static str, &'static str),
    /// A link whose text is the whole path of its target.
    LinkTo(&'static str, &'static str),
    /// The time of modification of a file, as seconds since 1970 and nanoseconds, and its path.
    Modified(u64, u64, &'static str),
    /// The permissions of a file, and its path.
    Mode(u32, &'static str),
}

/// Returns the path of `below` in a folder. It begins with a slash, or is empty.
pub fn path_in(rt: &HostRuntime, folder: &str, below: &str) -> io::Result<String> {
    Ok(format!(in rt.alloc(); "{folder}{below}")?)
}

fn write_zeros(rt: &HostRuntime, path: &str, len: usize) -> io::Result<()> {
    let bytes = vec![in rt.alloc(); 0u8; len]?;
    fs::write(rt, path, bytes.as_slice())
}

fn set_modified(rt: &HostRuntime, path: &str, since_1970: Duration) -> io::Result<()> {
    let file = File::open(rt, path)?;
    match SystemTime::UNIX_EPOCH.checked_add(since_1970) {
        Some(time) => file.set_modified(time),
        None => Err(io::Error::from(ErrorKind::InvalidInput)),
    }
}

fn take(rt: &HostRuntime, folder: &str, step: Step) -> io::Result<()> {
    match step {
        Step::Dir(at) => fs::create_dir(rt, path_in(rt, folder, at)?.as_str()),
        Step::File(text, at) => fs::write(rt, path_in(rt, folder, at)?.as_str(), text),
        Step::Zeros(len, at) => write_zeros(rt, path_in(rt, folder, at)?.as_str(), len),
        Step::Link(text, at) => symlink(rt, text, path_in(rt, folder, at)?.as_str()),
        Step::LinkTo(to, at) => symlink(
            rt,
            path_in(rt, folder, to)?.as_str(),
            path_in(rt, folder, at)?.as_str(),
        ),
        Step::Modified(seconds, nanoseconds, at) => set_modified(
            rt,
            path_in(rt, folder, at)?.as_str(),
            Duration::from_secs(seconds).saturating_add(Duration::from_nanos(nanoseconds)),
        ),
        Step::Mode(mode, at) => fs::set_permissions(
            rt,
            path_in(rt, folder, at)?.as_str(),
            Permissions::from_mode(mode),
        ),
    }
}

/// Removes a folder with everything in it.
pub fn remove(rt: &HostRuntime, folder: &str) -> io::Result<()> {
    fs::remove_dir_all(rt, folder)
}

/// The path has the number of this process.
fn path_of(rt: &HostRuntime, name: &str) -> io::Result<String> {
    let all = env::temp_dir(rt)?;
    let all = all.as_path().as_str();
    let id = process::id(rt.process());
    Ok(format!(in rt.alloc(); "{all}/jwalk_tests_{name}_{id}")?)
}

/// Makes a folder for the test of this name, and fills it.
pub fn make(rt: &HostRuntime, name: &str, steps: &[Step]) -> io::Result<String> {
    let folder = path_of(rt, name)?;
    let _ = remove(rt, folder.as_str());
    fs::create_dir(rt, folder.as_str())?;
    for step in steps {
        take(rt, folder.as_str(), *step)?;
    }
    Ok(folder)
}
