//! A comparison with a snapshot.
ghost use Rattle.std.specs.Prelude.{◌≡◌, false, IfOk, OnOk};
ghost use Rattle.std.specs.Io.KnownBytes.{Appends};
ghost use Rattle.jwalk_snapshot.specs.Text.{call_of, content_of, text_of, IsSnapshot};
ghost use Rattle.since_parts.specs.Choice.{has_rules};
ghost use Rattle.since_run.specs.Run.{root_asked, status_for, text_asked};
ghost use Rattle.since_run.specs.Compared.{ComparesAll, ComparesBytes, ComparesQuickly, IsTreeFor, WritesDifferences};

use crate::call::Call;
use crate::choice::choice_for;
use crate::find::{find, find_typed};
use crate::lines::{write_json, write_lines};
use crate::style::style_of;
use crate::walks::Walkable;
use jwalk::Host;
use jwalk::file_system::FileSystem;
use jwalk_changes::{Change, Kept};
use jwalk_ignore_rules::texts::Texts;
use jwalk_indexed_fs::indexed_fs::IndexedFs;
use jwalk_snapshot::{Head, Snapshot, SnapshotError};
use jwalk_snapshot_index::records::index_of;
use program_parts::halt::Halt;
use since_parts::choice::Choice;
use since_parts::differences::differences;
use since_parts::failure::Failure;
use since_parts::found::Found;
use since_parts::held::{Held, all_held};
use since_parts::tree::Tree;
use since_parts::unread::with_held;
use since_words::asked::Asked;
use std::alloc::{AllocError, Global};
use std::io::Write;
use std::sync::Arc;

/// What a comparison found.
#[derive(Drop)]
pub(crate) struct Told {
    pub(crate) tree: Tree,
    pub(crate) found: Found,
    /// What is saved in place of what was found, if not all could be read but the root.
    pub(crate) rest: Option<Found>,
    /// 0 if nothing differs, and else 1.
    pub(crate) status: u8,
}

/// Returns the snapshot in a file with these bytes.
pub(crate) fn read_snapshot<'a>(
    alloc: Global,
    file: &str,
    bytes: &'a [u8],
) -> Result<Snapshot<'a>, Failure>
    ensures is_one { IfOk result (λ s. IsSnapshot (content_of s)) }
    ensures has { IfOk result (λ s. bytes.now ≡ text_of (content_of s)) }
{
    match Snapshot::read(alloc, bytes) {
        Ok(snapshot) => Ok(snapshot),
        Err(SnapshotError::Memory) => Err(Failure::Halt(Halt::Memory)),
        Err(error) => Err(Failure::at(alloc, file, &error)),
    }
}

fn write_changes<T, X, W: Write>(
    call: &Call<'_, '_, T, X>,
    changes: &[Change<Held<'_, '_>, &Kept>],
    out: &mut W,
) -> Result<(), Halt>
    ensures { OnOk result (Appends (W.contents out.old) (W.contents out.new) (text_asked call.now changes.now)) }
{
    let asked = call.asked;
    if asked.quiet {
        return Ok(());
    }
    if asked.json {
        return write_json(call.alloc, asked.long, changes, out);
    }
    let style = style_of(asked, call.screen);
    write_lines(call.alloc, style, asked.long, changes, out)
}

fn status_for(changes: &[Change<Held<'_, '_>, &Kept>]) -> u8
    ensures { result ≡ status_for changes.now }
{
    if changes.is_empty() { 0 } else { 1 }
}

/// Returns the root that is asked for, or else this one.
fn root_asked<'a>(asked: &Asked<'a>, other: &'a str) -> &'a str
    ensures { result.now ≡ root_asked asked.now other.now }
{
    match asked.root {
        Some(root) => root,
        None => other,
    }
}

/// Returns the tree that is compared with a snapshot.
fn tree_for<T, X: Texts>(call: &Call<'_, '_, T, X>, head: &Head<'_>) -> Result<Tree, Failure>
    ensures { IfOk result (IsTreeFor X.Texts call.now (call_of head.now)) }
{
    let choice = choice_for(call.alloc, call.asked, &head.words)?;
    let root = root_asked(call.asked, head.absolute);
    Tree::new(
        call.alloc,
        &call.texts,
        call.asked.file,
        root,
        choice,
        call.start,
    )
}

/// Returns what is saved in place of what was found, if not all could be read but the root: below directories that could
/// not be read it has what a snapshot holds, if there is one.
pub(crate) fn rest_of<T, X>(
    call: &Call<'_, '_, T, X>,
    held: Option<&[Held<'_, '_>]>,
    found: &Found,
) -> Result<Option<Found>, AllocError> {
    if !call.asked.save || found.clean || !found.has_root {
        return Ok(None);
    }
    Ok(Some(with_held(call.alloc, held, found)?))
}

/// Writes what differs between a snapshot and what was found in a tree.
fn compare<T, X, W: Write>(
    call: &Call<'_, '_, T, X>,
    tree: Tree,
    found: Found,
    snapshot: &Snapshot<'_>,
    out: &mut W,
) -> Result<Told, Failure>
    ensures tree { IfOk result (λ told. told.tree ≡ tree) }
    ensures found { IfOk result (λ told. told.found ≡ found) }
    ensures writes { IfOk result (WritesDifferences call.now (content_of snapshot.now) (W.contents out.old) (W.contents out.new)) }
{
    let numbers = snapshot.head.absolute == tree.absolute.as_str();
    let old = all_held(call.alloc, snapshot, numbers)?;
    let rest = rest_of(call, Some(&old), &found)?;
    let changes = differences(call.alloc, old, &found)?;
    write_changes(call, &changes, out)?;
    let status = status_for(&changes);
    drop(changes);
    Ok(Told {
        tree,
        found,
        rest,
        status,
    })
}

/// Writes what differs between a snapshot and a disk.
fn compare_all<
    T: Host,
    S: FileSystem + Send + Sync + 'static,
    X: Texts + Send + Sync + 'static,
    W: Write,
    E: Write,
>(
    call: &Call<'_, '_, T, X>,
    disk: S,
    snapshot: &Snapshot<'_>,
    out: &mut W,
    err: &mut E,
) -> Result<Told, Failure>
    ensures { IfOk result (ComparesAll ⟦<S as Walkable<T, X>>⟧.walks disk call.now (content_of snapshot.now)
        (W.contents out.old) (W.contents out.new)) }
{
    let tree = tree_for(call, &snapshot.head)?;
    let disk = Arc::new(call.alloc, disk)?;
    let found = find(call, disk, &tree, err)?;
    compare(call, tree, found, snapshot, out)
}

/// Returns an error if a quick comparison isn't possible of what is chosen.
fn check_quick(alloc: Global, asked: &Asked<'_>, choice: &Choice) -> Result<(), Failure>
    ensures one { OnOk result (choice.now.one_file_system ≡ false) }
    ensures rules { OnOk result (has_rules choice.now ≡ false) }
{
    let word = if choice.one_file_system {
        "--one-file-system"
    } else if choice.has_rules() {
        "--exclude or --ignore"
    } else {
        return Ok(());
    };
    let what = format!(in alloc; "was saved with {word}, which --quick excludes")?;
    Err(Failure::at(alloc, asked.file, &what))
}

/// Writes what differs in names and types between a snapshot and a disk, of which only directories are listed whose stamps
/// aren't those of the snapshot.
fn compare_quickly<
    T: Host,
    S: FileSystem + Send + Sync + 'static,
    X: Texts + Send + Sync + 'static,
    W: Write,
    E: Write,
>(
    call: &Call<'_, '_, T, X>,
    disk: S,
    snapshot: &Snapshot<'_>,
    out: &mut W,
    err: &mut E,
) -> Result<Told, Failure>
    ensures { IfOk result (ComparesQuickly ⟦<S as Walkable<T, X>>⟧.walks disk call.now (content_of snapshot.now)
        (W.contents out.old) (W.contents out.new)) }
{
    let tree = tree_for(call, &snapshot.head)?;
    check_quick(call.alloc, call.asked, &tree.choice)?;
    let index = index_of(call.alloc, tree.root.as_str(), &snapshot.blocks)?;
    let disk = Arc::new(call.alloc, IndexedFs::new(disk, index))?;
    let found = find_typed(call.alloc, disk, &call.crew, &tree, err)?;
    compare(call, tree, found, snapshot, out)
}

/// Writes what differs from the snapshot in a file, whose bytes are let go.
pub(crate) fn compare_file<
    T: Host,
    S: FileSystem + Send + Sync + 'static,
    X: Texts + Send + Sync + 'static,
    W: Write,
    E: Write,
>(
    call: &Call<'_, '_, T, X>,
    disk: S,
    bytes: Vec<u8>,
    out: &mut W,
    err: &mut E,
) -> Result<Told, Failure>
    ensures { IfOk result (ComparesBytes ⟦<S as Walkable<T, X>>⟧.walks disk call.now bytes.items
        (W.contents out.old) (W.contents out.new)) }
{
    let snapshot = read_snapshot(call.alloc, call.asked.file, &bytes)?;
    if call.asked.quick {
        return compare_quickly(call, disk, &snapshot, out, err);
    }
    compare_all(call, disk, &snapshot, out, err)
}
