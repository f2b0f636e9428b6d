//! Walks with the calls of a row.
ghost use Rattle.jwalk.specs.WalkDir.{callback_of};

use crate::three_ways::Reader;
use jwalk::file_system::{BuildError, FileType, MemoryFs};
use jwalk::read_dir::{ProcessReadDir, SkipNames};
use jwalk::{Crew, DirEntry, WalkDirGeneric};
use jwalk_contents_first::WalkExt;
use std::alloc::{AllocError, Global};
use std::cmp::Ordering;
use test_fixtures::answers::{Answer, are_lines};
use test_fixtures::by_crew::all_by_crew;
use test_fixtures::host::Host;
use test_fixtures::texts::texts;
use test_fixtures::trees::{Step, tree};
use test_fixtures::ways::add_rest;

/// An entry of these walks.
type Entry = DirEntry<((), ())>;

/// What `filter_entry` keeps.
#[derive(Clone, Copy)]
pub enum Kept {
    /// All entries.
    All,
    /// What has another name than this.
    NotNamed(&'static str),
    /// Files.
    Files,
}

impl Kept {
    fn keeps(self, name: &str, file_type: FileType) -> bool {
        match self {
            Kept::All => true,
            Kept::NotNamed(other) => name != other,
            Kept::Files => file_type.is_file(),
        }
    }
}

/// What `sort_by` compares.
#[derive(Clone, Copy)]
pub enum Compared {
    /// Nothing: all entries are equal.
    Nothing,
    /// Names, the last one first.
    NamesTurned,
    /// Lengths of files, by what the walk keeps, the longest first.
    Lengths,
}

impl Compared {
    fn compare(self, a: &Entry, b: &Entry) -> Ordering {
        match self {
            Compared::Nothing => Ordering::Equal,
            Compared::NamesTurned => b.file_name().cmp(a.file_name()),
            Compared::Lengths => match (a.metadata_seen(), b.metadata_seen()) {
                (Some(a), Some(b)) => b.len().cmp(&a.len()),
                _ => Ordering::Equal,
            },
        }
    }
}

/// What the calls of a walk are given.
#[derive(Clone, Copy)]
pub struct Calls {
    pub follow_links: bool,
    pub min_depth: usize,
    pub max_depth: usize,
    pub filter_entry: Kept,
    pub sort_by: Compared,
    /// Whether `sort_by_key` has the lengths of names as its key, or one key for all.
    pub shortest_first: bool,
    /// The names of directories that aren't entered, by a callback that `then` adds.
    pub skipped: &'static [&'static str],
    pub contents_first: bool,
}

/// A walk, and its answers.
pub struct Row {
    pub steps: &'static [Step],
    pub root: &'static str,
    pub calls: Calls,
    pub answers: &'static str,
}

/// Returns what a walk yields. A function that writes closures can't own a walk that a crew reads, so this one does.
fn answers_of<R: Host, P: ProcessReadDir<((), ()), Global> + Send + Sync + 'static>(
    alloc: Global,
    walk: WalkDirGeneric<((), ()), MemoryFs, P, Global, Crew<R>>,
    contents_first: bool,
) -> Result<Vec<Answer<((), ())>>, AllocError>
    requires { P.IsLawful (callback_of walk) }
{
    if !contents_first {
        return all_by_crew(alloc, walk);
    }
    let mut found = Vec::new(alloc);
    add_rest(&mut walk.into_iter().contents_first(), &mut found)?;
    Ok(found)
}

impl Row {
    /// Returns whether the walk yields these answers.
    // All walks have one type, since each type of a walk costs time.
    pub fn holds<R: Host>(&self, rt: &R, reader: Reader) -> Result<bool, BuildError> {
        let alloc = rt.alloc();
        let calls = self.calls;
        let walk = reader
            .walk(
                rt,
                tree(alloc, self.steps)?,
                self.root,
                calls.min_depth,
                calls.max_depth,
            )?
            .follow_links(calls.follow_links)
            .keep_metadata(true)
            .filter_entry(move |_depth, name, file_type| calls.filter_entry.keeps(name, file_type))
            .sort_by(move |a, b| calls.sort_by.compare(a, b))
            .sort_by_key(move |entry| {
                if calls.shortest_first {
                    entry.file_name().len()
                } else {
                    0
                }
            })
            .then(SkipNames::new(texts(alloc, calls.skipped, &[])?));
        let found = answers_of(alloc, walk, calls.contents_first)?;
        Ok(are_lines(alloc, found.as_slice(), self.answers))
    }
}
