//! Walks over large trees.
use crate::found::found;
use crate::wide::{FILES, name, scrambled, wide_directory};
use jwalk::file_system::{BuildError, MemoryFs};
use std::alloc::{AllocError, Global};
use test_fixtures::answers::{Answer, are_lines};
use test_fixtures::watched::{Failing, Watched};
use test_fixtures::ways::Setting;

/// The files are by name, or in the order in which they were made.
fn wide_lines(alloc: Global, by_name: bool) -> Result<String, AllocError> {
    let mut lines = String::from_str(alloc, "0 d /d")?;
    for place in 0..FILES {
        let name = name(if by_name { place } else { scrambled(place) });
        write!(lines, "; 1 f /d/{name}")?;
    }
    Ok(lines)
}

/// The directory must be listed once, and nothing may follow its files.
fn has_all_files(alloc: Global, by_name: bool) -> Result<bool, BuildError> {
    let fs = Watched::new(wide_directory(alloc)?, Failing::Never);
    let settings: &[Setting] = if by_name { &[Setting::Sort] } else { &[] };
    let found = found(alloc, &fs, "/d", settings)?;
    let lines = wide_lines(alloc, by_name)?;
    Ok(are_lines(alloc, found.as_slice(), lines.as_str()) && fs.lists() == 1)
}

#[test]
fn many_files_as_they_were_made(rt: HostRuntime) {
    assert!(rt; matches!(has_all_files(rt.alloc(), false), Ok(true)));
}

#[test]
fn many_files_by_name(rt: HostRuntime) {
    assert!(rt; matches!(has_all_files(rt.alloc(), true), Ok(true)));
}

/// Each directory has one directory, down to a depth of 30.
fn chain(alloc: Global) -> Result<MemoryFs, BuildError> {
    let mut fs = MemoryFs::new(alloc);
    let mut path = String::new(alloc);
    for _ in 0..31 {
        path.push_str("/c")?;
        fs.add_dir(path.as_str())?;
    }
    Ok(fs)
}

/// The depth of each entry must be its number.
fn go_down(found: &[Answer]) -> bool {
    for (depth, answer) in found.iter().enumerate() {
        if !matches!(answer, Ok(entry) if entry.depth() == depth) {
            return false;
        }
    }
    true
}

/// Each directory must be listed once.
fn goes_down_once(alloc: Global) -> Result<bool, BuildError> {
    let fs = Watched::new(chain(alloc)?, Failing::Never);
    let found = found(alloc, &fs, "/c", &[])?;
    Ok(found.len() == 31 && go_down(found.as_slice()) && fs.lists() == 31)
}

#[test]
fn a_chain_of_directories(rt: HostRuntime) {
    assert!(rt; matches!(goes_down_once(rt.alloc()), Ok(true)));
}
