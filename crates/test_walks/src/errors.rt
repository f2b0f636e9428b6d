//! What errors report, and the metadata of entries.
use crate::found::found;
use jwalk::Error;
use jwalk::file_system::{FileSystem, FileType, MemoryFs, Metadata};
use std::alloc::Global;
use std::io::ErrorKind;
use std::sync::Arc;
use test_fixtures::answers::Answer;
use test_fixtures::builders::{Builder, builder};
use test_fixtures::listed_directory::{Item, ListedDirectory};
use test_fixtures::trees::{DENIED, LOOPED, Step, tree};
use test_fixtures::watched::{Failing, Watched};
use test_fixtures::ways::Setting;

/// Returns the last answer of a walk.
fn last<S: FileSystem>(alloc: Global, fs: S, root: &str, settings: &[Setting]) -> Option<Answer> {
    found(alloc, fs, root, settings).ok()?.pop()
}

/// Returns the last answer of a walk over the tree that these steps build.
fn last_in(alloc: Global, steps: &[Step], root: &str, settings: &[Setting]) -> Option<Answer> {
    last(alloc, tree(alloc, steps).ok()?, root, settings)
}

/// The error must also be printed as this text.
fn tells(alloc: Global, error: &Error, kind: ErrorKind, text: &str) -> bool {
    match (error.kind_and_text(alloc), error.to_string(alloc)) {
        (Ok((found, told)), Ok(printed)) => {
            found == kind && told.as_str() == text && printed.as_str() == text
        }
        _ => false,
    }
}

/// The text is `lead`, followed by the text of the file system's own error.
fn tells_own(alloc: Global, error: &Error, kind: ErrorKind, lead: &str) -> Option<bool> {
    let err = error.io_error()?;
    let text = format!(in alloc; "{lead}{err}").ok()?;
    Some(err.kind() == kind && text.len() > lead.len() && tells(alloc, error, kind, text.as_str()))
}

fn is_at(error: &Error, depth: usize, path: Option<&str>) -> bool {
    error.depth() == depth && error.path() == path
}

/// Returns `None` if the error isn't a file system's.
fn kind_of(error: Error) -> Option<ErrorKind> {
    Some(error.into_io_error()?.kind())
}

/// The text of the loop in the looped tree.
const LOOP_TEXT: &str = "File system loop found: /r/a/b/c/a-link points to an ancestor /r/a";

fn tells_of_the_loop(alloc: Global) -> Option<bool> {
    let error = last_in(alloc, LOOPED, "/r", &[Setting::Follow])?.err()?;
    Some(tells(alloc, &error, ErrorKind::Other, LOOP_TEXT) && kind_of(error).is_none())
}

#[test]
fn a_loop_tells_of_the_link_and_of_the_ancestor(rt: HostRuntime) {
    assert!(rt; tells_of_the_loop(rt.alloc()) == Some(true));
}

/// The error is that of the entry's directory.
fn meets_denied(alloc: Global) -> Option<bool> {
    let entry = last_in(alloc, DENIED, "/t", &[Setting::Sort])?.ok()?;
    let error = entry.read_children_error()?;
    let lead = "IO error for operation on /t/group 2: ";
    let is_told = tells_own(alloc, error, ErrorKind::PermissionDenied, lead)?;
    Some(is_told && is_at(error, 1, Some("/t/group 2")))
}

#[test]
fn a_failed_reading_has_its_directorys_depth_and_path(rt: HostRuntime) {
    assert!(rt; meets_denied(rt.alloc()) == Some(true));
}

fn unread(alloc: Global, kind: ErrorKind) -> Option<Error> {
    let fs = ListedDirectory {
        path: "/d",
        file_type: FileType::Dir,
        target: Some(FileType::Dir),
        items: &[Item::Unread(kind)],
    };
    last(alloc, fs, "/d", &[])?.err()
}

/// The error has no path. Its text is the item's own and the folder.
fn tells_of_the_unread(alloc: Global, kind: ErrorKind) -> Option<bool> {
    let error = unread(alloc, kind)?;
    let text = format!(in alloc; "{} in /d", error.io_error()?).ok()?;
    let is_bare = is_at(&error, 1, None) && error.name_bytes().is_none();
    let is_told = is_bare && tells(alloc, &error, kind, text.as_str());
    Some(is_told && kind_of(error) == Some(kind))
}

#[test]
fn an_error_without_a_path_tells_its_own_text_and_the_folder(rt: HostRuntime) {
    assert!(rt; tells_of_the_unread(rt.alloc(), ErrorKind::InvalidData) == Some(true));
}

/// The bytes and their text are those of the example of `escape_ascii` in Rust's documents.
fn tells_of_a_bad_name(alloc: Global) -> Option<bool> {
    let name: &[u8] = b"0\t\r\n'\"\\\x9d";
    let text = "invalid filename in odd: 0\\t\\r\\n\\'\\\"\\\\\\x9d";
    let parent = Arc::new(alloc, String::from_str(alloc, "odd").ok()?).ok()?;
    let error: Error = Error::from_bad_name(1, parent, name.to_vec(alloc).ok()?);
    let is_named = error.parent_path() == Some("odd") && error.name_bytes() == Some(name);
    let is_told = tells(alloc, &error, ErrorKind::InvalidFilename, text);
    Some(is_at(&error, 1, None) && is_named && is_told)
}

#[test]
fn an_error_of_a_bad_name_has_its_bytes(rt: HostRuntime) {
    assert!(rt; tells_of_a_bad_name(rt.alloc()) == Some(true));
}

/// The error has neither a path nor a cause.
fn is_bare(alloc: Global, error: &Error, text: &str) -> bool {
    is_at(error, 0, None)
        && error.loop_ancestor().is_none()
        && error.io_error().is_none()
        && tells(alloc, error, ErrorKind::Other, text)
}

/// The three are a busy crew, memory that ran out, and a lost reading.
fn has_cause(alloc: Global, error: Error, text: &str, wanted: (bool, bool, bool)) -> bool {
    is_bare(alloc, &error, text) && (error.is_busy(), error.is_memory(), error.is_lost()) == wanted
}

#[test]
fn errors_of_a_crew_and_of_memory(rt: HostRuntime) {
    let busy = "rayon thread-pool too busy or dependency loop detected - \
                aborting before possibility of deadlock";
    let memory = "memory refused for the walk";
    let lost = "a reading of the crew is lost";
    let is_busy = has_cause(rt.alloc(), Error::busy(), busy, (true, false, false));
    let is_memory = has_cause(rt.alloc(), Error::memory(), memory, (false, true, false));
    let is_lost = has_cause(rt.alloc(), Error::lost(), lost, (false, false, true));
    assert!(rt; is_busy && is_memory && is_lost);
}

/// The first error ends the walk.
fn bytes_of<S: FileSystem>(
    alloc: Global,
    fs: S,
    root: &str,
    follow: bool,
) -> anyhow::Result<usize> {
    let walk: Builder<S> = builder(alloc, fs, root)?;
    let mut bytes: usize = 0;
    for answer in walk.follow_links(follow) {
        bytes = bytes.saturating_add(answer?.path()?.len());
    }
    Ok(bytes)
}

fn looped_bytes(alloc: Global, follow: bool) -> anyhow::Result<usize> {
    bytes_of(alloc, tree(alloc, LOOPED)?, "/r", follow)
}

fn loop_text(alloc: Global) -> Option<String> {
    looped_bytes(alloc, true).err()?.to_string(alloc).ok()
}

#[test]
fn a_question_mark_keeps_the_text_of_an_error(rt: HostRuntime) {
    let bytes = looped_bytes(rt.alloc(), false).ok();
    let text = loop_text(rt.alloc());
    assert!(rt; bytes == Some(2 + 4 + 6 + 8 + 15) && text.as_deref() == Some(LOOP_TEXT));
}

/// A directory of a file and a link to it.
const LINKED_FILE: &[Step] = &[
    Step::Dir("/r"),
    Step::File(7, "/r/f"),
    Step::Link("f", "/r/l"),
];

/// Returns the metadata that the link's entry asks of another file system. Where links are followed, the entry is the
/// file's.
fn link_metadata(
    alloc: Global,
    follow: bool,
    fs: MemoryFs,
    failing: Failing,
) -> Option<Result<Metadata, Error>> {
    let settings: &[Setting] = if follow { &[Setting::Follow] } else { &[] };
    let entry = last_in(alloc, LINKED_FILE, "/r", settings)?.ok()?;
    Some(entry.metadata(&Watched::new(fs, failing)))
}

/// Returns the metadata of the link, or of the file where links are followed.
fn metadata(alloc: Global, follow: bool) -> Option<Metadata> {
    link_metadata(
        alloc,
        follow,
        tree(alloc, LINKED_FILE).ok()?,
        Failing::Never,
    )?
    .ok()
}

// An unfollowed link has its own metadata. A followed link has that of the file that it leads to.
#[test]
fn metadata_through_the_wrong_call(rt: HostRuntime) {
    let link = metadata(rt.alloc(), false);
    let file = metadata(rt.alloc(), true);
    let is_link = link == Some(Metadata::new(FileType::Symlink, 1));
    let is_file = file == Some(Metadata::new(FileType::File, 7));
    assert!(rt; is_link && is_file);
}

/// The link is removed before its entry is asked.
fn is_gone(alloc: Global) -> Option<bool> {
    let mut fs = tree(alloc, LINKED_FILE).ok()?;
    fs.remove("/r/l").ok()?;
    let error = link_metadata(alloc, false, fs, Failing::Never)?.err()?;
    Some(is_at(&error, 1, Some("/r/l")) && kind_of(error) == Some(ErrorKind::NotFound))
}

#[test]
fn the_metadata_of_what_is_gone(rt: HostRuntime) {
    assert!(rt; is_gone(rt.alloc()) == Some(true));
}

/// Memory runs out for the metadata.
fn refused_metadata(alloc: Global) -> Option<Error> {
    let fs = tree(alloc, LINKED_FILE).ok()?;
    link_metadata(alloc, false, fs, Failing::MetadataForMemory("/r/l"))?.err()
}

#[test]
fn the_metadata_where_memory_is_refused(rt: HostRuntime) {
    let error = refused_metadata(rt.alloc());
    let text = "memory refused for the walk";
    assert!(rt; matches!(&error, Some(error) if is_bare(rt.alloc(), error, text)));
}

/// Shows the entry of an empty root, and an error.
fn shown(alloc: Global) -> Option<String> {
    let entry = last_in(alloc, &[Step::Dir("/r")], "/r", &[])?.ok();
    let answers = (entry, Error::<Global>::lost());
    format!(in alloc; "{answers:?}").ok()
}

#[test]
fn entries_and_errors_are_shown(rt: HostRuntime) {
    let wanted = "(Some(DirEntry { depth: 0, file_name: \"r\", file_type: Dir, client_state: (), \
                  parent_path: \"/\", read_children: Some(ReadChildren { path: \"/r\", error: None, \
                  client_read_state: None }), through_link: false, seen: None, .. }), \
                  Error { depth: 0, inner: Lost })";
    assert!(rt; shown(rt.alloc()).as_deref() == Some(wanted));
}
