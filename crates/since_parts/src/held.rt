//! What a snapshot holds, as a list in ascending order of paths.
ghost use Rattle.std.specs.Prelude.{◌≡◌, ◌≢◌, ◌<◌, [], ◌∷◌, length, true, false, map, string_bytes, IfOk};
ghost use Rattle.jwalk_changes.specs.AtPath.{names};
ghost use Rattle.jwalk_model.specs.Paths.{slash};
ghost use Rattle.jwalk_snapshot.specs.Text.{content_of};
ghost use Rattle.since_parts.specs.Held.{left_in, seen_in, HoldsAll, Passes};

use crate::facts::compared;
use crate::tree::strip;
use jwalk_changes::{AtPath, Entry, Facts};
use jwalk_snapshot::{Block, Name, Snapshot};
use std::alloc::{AllocError, Global};

/// Returns whether a text is a slash and then this name, which isn't empty.
fn is_behind_slash(name: &str, text: &str) -> bool
    ensures text { result ≡ true → text.now ≡ slash ∷ name.now }
    ensures named { result ≡ true → length name.now ≢ 0 }
{
    match strip("/", text) {
        Some(rest) => !name.is_empty() && rest == name,
        None => false,
    }
}

/// A name that a snapshot holds.
#[derive(Clone, Copy, Drop)]
pub struct Held<'s, 'a> {
    /// The path of its directory behind the root.
    pub folder: &'s str,
    /// The name in the snapshot.
    pub name: &'s Name<'a>,
    /// The number of the file counts.
    pub numbers: bool,
}

impl<'s, 'a> Held<'s, 'a> {
    /// Returns its path behind the root.
    pub fn path(&self, alloc: Global) -> Result<String, AllocError>
        ensures { IfOk result (λ path. string_bytes path ≡ (seen_in self.now).path) }
    {
        let mut path = String::from_str(alloc, self.folder)?;
        if !self.folder.is_empty() && !self.name.name.is_empty() {
            path.push_str("/")?;
        }
        path.push_str(self.name.name)?;
        Ok(path)
    }

    /// Returns whether its path is this text.
    pub fn is_at(&self, path: &str) -> bool
        ensures { result ≡ true → (seen_in self.now).path ≡ path.now }
    {
        if self.folder.is_empty() {
            return path == self.name.name;
        }
        match strip(self.folder, path) {
            Some(back) => is_behind_slash(self.name.name, back),
            None => false,
        }
    }
}

impl<'s, 'a> AtPath for Held<'s, 'a> {
    ghost path = { λ held. names (seen_in held).path };

    fn path_parts(&self) -> (&str, &str) {
        (self.folder, self.name.name)
    }
}

impl<'s, 'a> Entry for Held<'s, 'a> {
    ghost facts = { λ held. (seen_in held).facts };

    fn facts(&self) -> Facts {
        compared(self.name.file_type, self.name.facts, self.numbers)
    }
}

/// The names of a directory that are still to come.
#[derive(Clone, Copy, Drop)]
struct Rest<'s, 'a> {
    folder: &'s str,
    names: &'s [Name<'a>],
}

/// The names of a snapshot while they are put in order: what is in a directory follows its name.
#[derive(Drop)]
struct Order<'s, 'a> {
    numbers: bool,
    // The directories that are open, each behind the one that it is in.
    opened: Vec<Rest<'s, 'a>>,
    // Those that are still to be opened.
    blocks: &'s [Block<'a>],
    // The names so far.
    all: Vec<Held<'s, 'a>>,
}

impl<'s, 'a> Order<'s, 'a> {
    /// Returns whether a directory is to be opened now: if it is that of the last name, or if none is open.
    fn is_due(&self, next: &Block<'_>) -> bool
        ensures { self.now.opened.items ≡ [] → result ≡ true }
    {
        if self.opened.is_empty() {
            return true;
        }
        match self.all.last() {
            Some(last) => last.name.file_type.is_dir() && last.is_at(next.path),
            None => false,
        }
    }

    /// Opens the next directory, if it is due. Returns whether it was.
    fn open_due(&mut self) -> Result<bool, AllocError>
        ensures passes { IfOk result (λ was_due. was_due ≡ true → Passes self.old self.new) }
        ensures unchanged { IfOk result (λ was_due. was_due ≡ false → self.new ≡ self.old) }
        ensures none { IfOk result (λ was_due. was_due ≡ false → self.old.opened.items ≡ [] → self.old.blocks.now ≡ []) }
    {
        let [next, others @ ..] = self.blocks else {
            return Ok(false);
        };
        if !self.is_due(next) {
            return Ok(false);
        }
        self.opened.push(Rest {
            folder: next.path,
            names: &next.names,
        })?;
        self.blocks = others;
        Ok(true)
    }

    /// Takes the next name of the last directory that is open, or closes that. Returns whether one was open.
    fn take(&mut self) -> Result<bool, AllocError>
        ensures passes { IfOk result (λ taken. taken ≡ true → Passes self.old self.new) }
        ensures none { IfOk result (λ taken. taken ≡ false → self.old.opened.items ≡ []) }
        ensures kept { IfOk result (λ taken. taken ≡ false → self.new.all ≡ self.old.all) }
    {
        let Some(rest) = self.opened.pop() else {
            return Ok(false);
        };
        if let [name, others @ ..] = rest.names {
            self.opened.push(Rest {
                folder: rest.folder,
                names: others,
            })?;
            self.all.push(Held {
                folder: rest.folder,
                name,
                numbers: self.numbers,
            })?;
        }
        Ok(true)
    }

    /// Opens, takes or closes one thing. Returns whether there was one.
    fn turn(&mut self) -> Result<bool, AllocError>
        ensures passes { IfOk result (λ passed. passed ≡ true → Passes self.old self.new) }
        ensures none { IfOk result (λ passed. passed ≡ false → left_in self.old ≡ []) }
        ensures kept { IfOk result (λ passed. passed ≡ false → self.new.all ≡ self.old.all) }
    {
        if self.open_due()? {
            return Ok(true);
        }
        self.take()
    }
}

/// Returns all names in a snapshot, with their numbers if these count. They are in ascending order of paths if the
/// directories of the snapshot are in the order of a walk.
pub fn all_held<'s, 'a>(
    alloc: Global,
    snapshot: &'s Snapshot<'a>,
    numbers: bool,
) -> Result<Vec<Held<'s, 'a>>, AllocError>
    ensures { IfOk result (λ all. HoldsAll numbers (content_of snapshot.now) (map seen_in all.items)) }
{
    let mut order = Order {
        numbers,
        opened: Vec::new(alloc),
        blocks: &snapshot.blocks,
        all: Vec::new(alloc),
    };
    while order.turn()? {}
    Ok(order.all)
}
