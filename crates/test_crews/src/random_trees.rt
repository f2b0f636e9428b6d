//! Random trees.
use jwalk::file_system::{BuildError, MemoryFs};
use std::alloc::Global;
use std::io::ErrorKind;
use test_fixtures::dice::Dice;

/// The number of steps that make a tree.
const STEPS: usize = 60;

/// One of this many steps may add a link. A followed link can multiply everything below it.
const LINKS: usize = 20;

fn some_dir<'d>(dice: &mut Dice, dirs: &'d [String]) -> &'d str {
    match dirs.get(dice.below(dirs.len())) {
        Some(path) => path.as_str(),
        None => "/r",
    }
}

/// The path leads to one of these directories, up, to the link itself or nowhere.
fn some_target<'d>(dice: &mut Dice, dirs: &'d [String]) -> &'d str {
    match dice.below(6) {
        0 => "..",
        1 => ".",
        2 => "nothing",
        _ => some_dir(dice, dirs),
    }
}

/// Denies the directory that was made last, or adds a directory, a file or a link to one of the directories. Some names
/// are hidden.
fn step(
    alloc: Global,
    dice: &mut Dice,
    fs: &mut MemoryFs,
    dirs: &mut Vec<String>,
    number: usize,
) -> Result<(), BuildError> {
    let dir = some_dir(dice, dirs.as_slice());
    let dot = if dice.below(5) == 0 { "." } else { "" };
    let path = format!(in alloc; "{dir}/{dot}{number}")?;
    match dice.below(12) {
        _ if number % LINKS == LINKS - 1 => {
            fs.add_link(path.as_str(), some_target(dice, dirs.as_slice()))
        }
        0 => match dirs.last() {
            Some(path) => fs.deny(path.as_str(), ErrorKind::PermissionDenied),
            None => Ok(()),
        },
        1..=5 => {
            fs.add_dir(path.as_str())?;
            dirs.push(path)?;
            Ok(())
        }
        _ => fs.add_file(path.as_str(), 1),
    }
}

/// Returns the tree `/r` of a seed, of directories, files, hidden names, links, and directories that may not be listed.
pub fn random_tree(alloc: Global, seed: usize) -> Result<MemoryFs, BuildError> {
    let mut dice = Dice::new(seed);
    let mut fs = MemoryFs::new(alloc);
    let mut dirs = Vec::new(alloc);
    fs.add_dir("/r")?;
    for number in 0..STEPS {
        step(alloc, &mut dice, &mut fs, &mut dirs, number)?;
    }
    Ok(fs)
}
