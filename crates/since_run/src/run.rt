//! A call of the program.
ghost use Rattle.std.specs.Prelude.{◌≡◌, ◌≤◌, codes, map, string_bytes, IfOk, OnErr, OnOk};
ghost use Rattle.std.specs.Io.KnownBytes.{Appends};
ghost use Rattle.jwalk_model.specs.Paths.{dot};
ghost use Rattle.jwalk_snapshot.specs.Text.{content_of};
ghost use Rattle.program_parts.specs.Errors.{IsTold};
ghost use Rattle.since_run.specs.Run.{root_asked, rows_asked, HasTextAsked, IsLoaded, IsMissing, ReplacesBy};
ghost use Rattle.since_run.specs.Done.{Begins, Ends, EndsWith, Lists, SavesAsked, SavesRest, Tells};

use crate::call::Call;
use crate::choice::choice_in;
use crate::compare::{Told, compare_file, read_snapshot, rest_of};
use crate::find::find;
use crate::rows::write_rows;
use crate::screen::Screen;
use crate::store::Store;
use crate::style::style_of;
use crate::walks::Walkable;
use jwalk::Host;
use jwalk::file_system::{Fault, FileSystem};
use jwalk_ignore_rules::texts::Texts;
use jwalk_model::metadata::Moment;
use jwalk_snapshot::Snapshot;
use program_parts::errors::Errors;
use program_parts::halt::Halt;
use program_parts::refusal::RefusalBy;
use program_walks::crew::{crew_with, threads_in};
use since_parts::failure::Failure;
use since_parts::found::Found;
use since_parts::saved::saved_text;
use since_parts::tree::Tree;
use since_words::asked::Asked;
use since_words::words::read_words;
use std::alloc::Global;
use std::io::{self, ErrorKind, Write};
use std::sync::Arc;

/// Returns that there is no file, if it is to be made.
fn missing(alloc: Global, asked: &Asked<'_>, error: io::Error) -> Result<Option<Vec<u8>>, Failure>
    ensures { IfOk result (λ none. IsMissing asked.now error none) }
{
    match error.kind() {
        ErrorKind::NotFound if asked.save => Ok(None),
        _ => Err(Failure::at(alloc, asked.file, &error)),
    }
}

/// Returns the bytes of the file with the snapshot. It may only be missing if it is to be made.
fn load<T, X: Texts>(call: &Call<'_, '_, T, X>) -> Result<Option<Vec<u8>>, Failure>
    ensures { IfOk result (IsLoaded X.Texts call.now) }
{
    match call.texts.read(call.alloc, call.asked.file) {
        Ok(bytes) => Ok(Some(bytes)),
        Err(Fault::Io(error)) => missing(call.alloc, call.asked, error),
        Err(Fault::Memory) => Err(Failure::Halt(Halt::Memory)),
    }
}

/// Returns the text to be saved, if one is asked for.
fn text_to_save(
    alloc: Global,
    asked: &Asked<'_>,
    tree: &Tree,
    found: &Found,
) -> Result<Option<String>, Failure>
    ensures { IfOk result (HasTextAsked asked.now tree.now found.now) }
{
    if !asked.save {
        return Ok(None);
    }
    let text = saved_text(alloc, asked.file, tree, found)?;
    Ok(Some(text))
}

fn replace<K: Store>(
    alloc: Global,
    store: &mut K,
    file: &str,
    text: &Option<String>,
) -> Result<(), Failure>
    ensures replaces { OnOk result (ReplacesBy K.Replaces file.now store.old text.now store.new) }
    ensures kept { OnErr result (store.new ≡ store.old) }
{
    let Some(text) = text else {
        return Ok(());
    };
    match store.replace(file, text.as_str()) {
        Ok(()) => Ok(()),
        Err(error) => Err(Failure::at(alloc, file, &error)),
    }
}

fn write_listed<T, X, W: Write>(
    call: &Call<'_, '_, T, X>,
    snapshot: &Snapshot<'_>,
    out: &mut W,
) -> Result<(), Halt>
    ensures { OnOk result (Appends (W.contents out.old) (W.contents out.new) (rows_asked call.now (content_of snapshot.now))) }
{
    if call.asked.quiet {
        return Ok(());
    }
    let style = style_of(call.asked, call.screen);
    write_rows(call.alloc, style, &snapshot.blocks, out)
}

/// Returns the root that is asked for, or else the folder that the program runs in.
fn root_or_here<'a>(asked: &Asked<'a>) -> &'a str
    ensures { result.now ≡ root_asked asked.now dot }
{
    match asked.root {
        Some(root) => root,
        None => ".",
    }
}

/// Replaces the file by this, which was found in a tree, if that is asked for.
fn save<K: Store>(
    alloc: Global,
    store: &mut K,
    asked: &Asked<'_>,
    tree: &Tree,
    found: &Found,
) -> Result<(), Failure>
    ensures saves { OnOk result (SavesAsked K.Replaces asked.now tree.now found.now store.old store.new) }
    ensures kept { OnErr result (store.new ≡ store.old) }
{
    let text = text_to_save(alloc, asked, tree, found)?;
    replace(alloc, store, asked.file, &text)
}

/// Replaces the file where not all could be read, if that is asked for and the root was read.
fn save_rest<K: Store, E: Write>(
    alloc: Global,
    store: &mut K,
    asked: &Asked<'_>,
    told: &Told,
    err: &mut E,
) -> Result<(), Failure>
    ensures saves { OnOk result (SavesRest K.Replaces asked.now told.now store.old store.new) }
    ensures kept { OnErr result (store.new ≡ store.old) }
{
    if let Some(rest) = &told.rest {
        return save(alloc, store, asked, &told.tree, rest);
    }
    if asked.save {
        let _ = writeln!(
            err,
            "since: {}: left as it is, since not all could be read",
            asked.file
        );
    }
    Ok(())
}

/// Replaces the file by what was found, if that is asked for. Returns the status.
fn save_told<K: Store, E: Write>(
    alloc: Global,
    store: &mut K,
    asked: &Asked<'_>,
    told: &Told,
    err: &mut E,
) -> Result<u8, Failure>
    ensures ends { IfOk result (EndsWith K.Replaces asked.now told.now store.old store.new) }
    ensures kept { OnErr result (store.new ≡ store.old) }
{
    if !told.found.clean {
        save_rest(alloc, store, asked, told, err)?;
        return Ok(2);
    }
    save(alloc, store, asked, &told.tree, &told.found)?;
    Ok(told.status)
}

/// Saves a first snapshot. Returns the status.
fn begin<
    T: Host,
    S: FileSystem + Send + Sync + 'static,
    X: Texts + Send + Sync + 'static,
    K: Store,
    E: Write,
>(call: &Call<'_, '_, T, X>, disk: S, store: &mut K, err: &mut E) -> Result<u8, Failure>
    ensures begins { IfOk result (Begins ⟦<S as Walkable<T, X>>⟧.walks K.Store disk call.now store.old store.new) }
    ensures kept { OnErr result (store.new ≡ store.old) }
{
    let choice = choice_in(call.alloc, call.asked)?;
    let tree = Tree::new(
        call.alloc,
        &call.texts,
        call.asked.file,
        root_or_here(call.asked),
        choice,
        call.start,
    )?;
    let disk = Arc::new(call.alloc, disk)?;
    let found = find(call, disk, &tree, err)?;
    let rest = rest_of(call, None, &found)?;
    let told = Told {
        tree,
        found,
        rest,
        status: 0,
    };
    save_told(call.alloc, store, call.asked, &told, err)
}

/// Writes a row for each entry that the snapshot in a file has. Returns the status.
fn list<T, X, W: Write>(call: &Call<'_, '_, T, X>, bytes: &[u8], out: &mut W) -> Result<u8, Failure>
    ensures lists { IfOk result (Lists call.now bytes.now (W.contents out.old) (W.contents out.new)) }
{
    if let Some(root) = call.asked.root {
        return Err(Failure::at(call.alloc, root, &"with --rows no root is read"));
    }
    let snapshot = read_snapshot(call.alloc, call.asked.file, bytes)?;
    write_listed(call, &snapshot, out)?;
    Ok(0)
}

/// What ended the call before its end is told.
fn status_of<E: Write>(alloc: Global, ended: Result<u8, Failure>, err: &mut Errors<E>) -> u8
    ensures ok { IfOk ended (λ status. result ≡ status) }
    ensures failed { OnErr ended (result ≡ 2) }
    ensures told { OnErr ended (IsTold E.contents (codes "since") err.new) }
{
    match ended {
        Ok(status) => status,
        Err(failure) => {
            failure.tell(alloc, err);
            2
        }
    }
}

/// The program `since`, and what it runs on.
#[derive(Drop)]
pub struct Since<'a, T, S: Drop, X: Drop> {
    /// What starts the threads of a crew.
    pub rt: &'a T,
    /// Where memory is from.
    pub alloc: Global,
    /// How many threads can run at a time: as many read, unless the words say otherwise.
    pub cores: usize,
    /// The disk that is read.
    pub disk: S,
    /// Where the snapshot and ignore files are read.
    pub texts: X,
    /// The time now: a stamp is saved if the directory last changed more than two seconds before it.
    pub start: Moment,
    /// What lines are written to.
    pub screen: Screen,
}

impl<'a, T: Host, S: FileSystem + Send + Sync + 'static, X: Texts + Send + Sync + 'static> Since<
    'a,
    T,
    S,
    X,
> {
    /// Does what is asked for. Returns the status.
    fn run_asked<K: Store, W: Write, E: Write>(
        self,
        asked: &Asked<'_>,
        store: &mut K,
        out: &mut W,
        err: &mut E,
    ) -> Result<u8, Failure>
        ensures tells { IfOk result (Tells ⟦<S as Walkable<T, X>>⟧.walks K.Store self.entry asked.now
            (W.contents out.old) (W.contents out.new) store.old store.new) }
        ensures kept { OnErr result (store.new ≡ store.old) }
    {
        let Since {
            rt,
            alloc,
            cores,
            disk,
            texts,
            start,
            screen,
        } = self;
        let texts = Arc::new(alloc, texts)?;
        let crew = crew_with(rt, alloc, threads_in(cores, asked.threads))?;
        let call = Call {
            alloc,
            texts,
            crew,
            start,
            asked,
            screen,
        };
        let Some(bytes) = load(&call)? else {
            return begin(&call, disk, store, err);
        };
        if asked.lists {
            return list(&call, &bytes, out);
        }
        let told = compare_file(&call, disk, bytes, out, err)?;
        save_told(alloc, store, asked, &told, err)
    }

    /// Compares what is below a root with a snapshot, as the words ask, of which the first is the program's name. Writes a
    /// line for each difference, or a row for each entry of the snapshot, and tells errors by `err`. Returns the status.
    ///
    /// The status is 0 if nothing differs, or if rows or a text were asked for and written. It is 1 if something differs.
    /// It is 2 for bad words, if not all could be read, if memory ran out, and if the lines or the snapshot can't be
    /// written: if not all was written, `err` tells why last.
    pub fn run<K: Store, W: Write, E: Write>(
        self,
        store: &mut K,
        words: &[String],
        out: &mut W,
        err: &mut Errors<E>,
    ) -> u8
        ensures status { result ≤ 2 }
        ensures ends { Ends ⟦<S as Walkable<T, X>>⟧.walks K.Store self.entry (map string_bytes words.now) (W.contents out.old)
            (W.contents out.new) store.old store.new result (IsTold E.contents (codes "since") err.new) }
    {
        let (alloc, screen) = (self.alloc, self.screen);
        match read_words(alloc, words) {
            Ok(asked) => {
                let ended = self.run_asked(&asked, store, out, err);
                status_of(alloc, ended, err)
            }
            Err(refusal) => {
                let named = RefusalBy {
                    program: "since",
                    refusal: &refusal,
                };
                let (columns, status) = (Some(screen.width), refusal.status());
                let refused = err.refuse(alloc, columns, "since", &named, status, out);
                if refused == 0 { 0 } else { 2 }
            }
        }
    }
}
