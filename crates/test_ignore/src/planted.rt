//! Trees with files of rules, and rows of walks over them.
use jwalk::file_system::{BuildError, FileType, MemoryFs};
use jwalk_ignore::memory_texts::MemoryTexts;
use std::alloc::{AllocError, Global};
use std::io::ErrorKind;

/// A tree, and the rows that walk over it.
pub(crate) struct Scene {
    /// The paths in `/r`. That of a directory ends with a slash. That of a file of rules is followed by `=` and its text;
    /// one in `.git` isn't shown by the tree.
    pub(crate) tree: &'static [&'static str],
    /// The paths and texts of more files of rules, which the tree doesn't show.
    pub(crate) rules: &'static [(&'static str, &'static str)],
    /// Files of rules that can't be read.
    pub(crate) denied: &'static [&'static str],
    /// The types of paths that can't be read as files of rules.
    pub(crate) unread: &'static [(FileType, &'static str)],
    /// The number of links in `/r` to `/r`.
    pub(crate) links: usize,
    pub(crate) rows: &'static [Row],
}

/// A tree of `/r` alone.
pub(crate) const SCENE: Scene = Scene {
    tree: &[],
    rules: &[],
    denied: &[],
    unread: &[],
    links: 0,
    rows: &[],
};

/// What a walk by name must yield besides the root.
pub(crate) enum Yields {
    /// These items, each on a line. An entry is its path, and an error `! DEPTH PATH`. Paths that begin with `/r/` have
    /// no such beginning here.
    Items(&'static str),
    /// This number of entries, and of errors.
    Numbers(usize, usize),
}

/// A walk, and what it must yield.
pub(crate) struct Row {
    pub(crate) root: &'static str,
    /// The settings that differ from those of a walk which is shown hidden names and follows no links.
    pub(crate) settings: &'static str,
    pub(crate) yields: Yields,
}

/// A walk that yields its root alone.
pub(crate) const ROW: Row = Row {
    root: "/r",
    settings: "",
    yields: Yields::Items(""),
};

/// A tree, and the files of rules in it.
#[derive(Drop)]
pub(crate) struct Planted {
    pub(crate) fs: MemoryFs,
    pub(crate) texts: MemoryTexts,
}

/// Adds what a line of a scene's tree says.
fn plant(
    alloc: Global,
    fs: &mut MemoryFs,
    texts: &mut MemoryTexts,
    line: &str,
) -> Result<(), BuildError> {
    let (name, rules) = line.split_once('=').unwrap_or((line, ""));
    let path = format!(in alloc; "/r/{name}")?;
    if name.ends_with("/") {
        return fs.add_dir(path.as_str());
    }
    if name.len() < line.len() {
        texts.add(path.as_str(), rules.as_bytes())?;
    }
    if name.starts_with(".git/") {
        return Ok(());
    }
    fs.add_file(path.as_str(), 1)
}

fn plant_all(
    alloc: Global,
    fs: &mut MemoryFs,
    texts: &mut MemoryTexts,
    tree: &[&str],
) -> Result<(), BuildError> {
    fs.add_dir("/r")?;
    for line in tree {
        plant(alloc, fs, texts, *line)?;
    }
    Ok(())
}

fn add_rules(texts: &mut MemoryTexts, rules: &[(&str, &str)]) -> Result<(), AllocError> {
    for (path, text) in rules {
        texts.add(path, text.as_bytes())?;
    }
    Ok(())
}

fn deny(texts: &mut MemoryTexts, denied: &[&str]) -> Result<(), AllocError> {
    for path in denied {
        texts.deny(path, ErrorKind::PermissionDenied)?;
    }
    Ok(())
}

fn add_unread(texts: &mut MemoryTexts, unread: &[(FileType, &str)]) -> Result<(), AllocError> {
    for (file_type, path) in unread {
        texts.add_unread(path, *file_type, ErrorKind::Other)?;
    }
    Ok(())
}

fn add_links(alloc: Global, fs: &mut MemoryFs, count: usize) -> Result<(), BuildError> {
    for number in 0..count {
        fs.add_link(format!(in alloc; "/r/l{number}")?.as_str(), ".")?;
    }
    Ok(())
}

impl Planted {
    /// Returns the tree of a scene.
    pub(crate) fn new(alloc: Global, scene: &Scene) -> Result<Self, BuildError> {
        let mut planted = Planted {
            fs: MemoryFs::new(alloc),
            texts: MemoryTexts::new(alloc),
        };
        planted.fill(alloc, scene)?;
        Ok(planted)
    }

    fn fill(&mut self, alloc: Global, scene: &Scene) -> Result<(), BuildError> {
        plant_all(alloc, &mut self.fs, &mut self.texts, scene.tree)?;
        add_rules(&mut self.texts, scene.rules)?;
        deny(&mut self.texts, scene.denied)?;
        add_unread(&mut self.texts, scene.unread)?;
        add_links(alloc, &mut self.fs, scene.links)
    }
}
