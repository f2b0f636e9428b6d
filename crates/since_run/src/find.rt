//! The walk below a root, and what it finds.
ghost use Rattle.std.specs.Prelude.{◌≡◌, IfOk};
ghost use Rattle.std.specs.Arc.{arc_value};
ghost use Rattle.jwalk.specs.WalkDir.{callback_of};
ghost use Rattle.jwalk.specs.jwalk_job.Options.{options_value};
ghost use Rattle.jwalk_ignore.specs.Callback.Excluding.{excluded_of};
ghost use Rattle.since_run.specs.Finds.{FindsAll, FindsKept, FindsPlain, FindsRuled, FindsTyped, TakesWalk};
ghost use Rattle.since_run.specs.Walks.{excluded_for, options_for};

use crate::call::Call;
use crate::walks::{AllWalk, Honours, TypedWalk, Walkable};
use jwalk::file_system::FileSystem;
use jwalk::read_dir::ProcessReadDir;
use jwalk::{ClientState, Crew, Host, Options, WalkDirGeneric};
use jwalk_ignore::builder::with_ignore_files;
use jwalk_ignore::excluding::Excluding;
use jwalk_ignore::ignore_files::IgnoreFiles;
use jwalk_ignore::states::OnlyRules;
use jwalk_ignore::texts::Texts;
use program_walks::crew::{CrewWalk, Plain, walk_below};
use since_parts::choice::Choice;
use since_parts::failure::Failure;
use since_parts::found::Found;
use since_parts::saved::texts_of;
use since_parts::tree::Tree;
use std::alloc::{AllocError, Global};
use std::io::Write;
use std::sync::Arc;

/// All that is chosen is read, in the order of names, and entries keep their metadata, unless names and types are enough.
fn options_for(quick: bool, choice: &Choice) -> Options
    ensures { options_value result ≡ options_for quick choice.now }
{
    Options::new()
        .with_sort(true)
        .with_skip_hidden(choice.exclude_hidden)
        .with_same_file_system(choice.one_file_system)
        .with_keep_metadata(!quick)
        .with_max_depth(choice.max_depth())
}

/// Returns the callback that leaves out what the lines that are chosen name below a root, with its errors. Where a walk
/// without ignore files skips hidden names, it leaves out their errors too.
fn excluding_for(alloc: Global, choice: &Choice, root: &str) -> Result<Excluding, AllocError>
    ensures { IfOk result (λ it. excluded_of it ≡ excluded_for choice.now root.now) }
{
    let lines = texts_of(alloc, &choice.excludes)?;
    let excluding = Excluding::new(alloc, lines.as_slice(), root)?;
    let skips_hidden = choice.exclude_hidden && !choice.ignore;
    Ok(excluding.drop_errors(true).drop_hidden_errors(skips_hidden))
}

/// Begins a walk that a crew may read for, and returns what it finds below the root of a tree.
fn take_walk<
    T: Host,
    C: ClientState + Send + 'static,
    S: FileSystem + Send + Sync + 'static,
    P: ProcessReadDir<C, Global> + Send + Sync + 'static,
    E: Write,
>(
    alloc: Global,
    walk: WalkDirGeneric<C, S, P, Global, Crew<T>>,
    tree: &Tree,
    err: &mut E,
) -> Result<Found, Failure>
where
    C::ReadDirState: Send + 'static,
    C::DirEntryState: Send + 'static,
    requires { P.IsLawful (callback_of walk) }
    ensures { IfOk result (TakesWalk S.FileSystem P.ProcessReadDir C.ReadDirState.Clone C.DirEntryState.Default
        ⟦<CrewWalk<T, C, S, P> as Iterator>⟧.next_gives tree.now walk) }
{
    let mut answers = walk.into_iter();
    let mut found = Found::new(alloc);
    found.take_all(alloc, tree, &mut answers, err)?;
    Ok(found)
}

fn find_plain<T: Host, S: FileSystem + Send + Sync + 'static, E: Write>(
    alloc: Global,
    disk: Arc<S>,
    crew: &Option<Arc<Crew<T>>>,
    tree: &Tree,
    err: &mut E,
) -> Result<Found, Failure>
    ensures { IfOk result (FindsPlain S.FileSystem ⟦<AllWalk<T, S> as Iterator>⟧.next_gives (arc_value disk) crew.now tree.now) }
{
    let excluding = excluding_for(alloc, &tree.choice, tree.root.as_str())?;
    let root = String::from_str(alloc, tree.root.as_str())?;
    let options = options_for(false, &tree.choice);
    let walk = walk_below::<((), ()), _, _, _>(disk, root, options, crew)?;
    let walk = walk.process_read_dir(excluding);
    take_walk(alloc, walk, tree, err)
}

fn find_ruled<
    T: Host,
    S: FileSystem + Send + Sync + 'static,
    X: Texts + Send + Sync + 'static,
    E: Write,
>(
    alloc: Global,
    walk: Plain<T, S>,
    rules: Honours<X>,
    tree: &Tree,
    err: &mut E,
) -> Result<Found, Failure>
    ensures { IfOk result (FindsRuled ⟦<S as Walkable<T, X>>⟧.walks walk rules tree.now) }
{
    take_walk(alloc, with_ignore_files(walk, rules), tree, err)
}

fn find_kept<
    T: Host,
    S: FileSystem + Send + Sync + 'static,
    X: Texts + Send + Sync + 'static,
    E: Write,
>(call: &Call<'_, '_, T, X>, disk: Arc<S>, tree: &Tree, err: &mut E) -> Result<Found, Failure>
    ensures { IfOk result (FindsKept ⟦<S as Walkable<T, X>>⟧.walks (arc_value disk) call.now tree.now) }
{
    let excluding = excluding_for(call.alloc, &tree.choice, tree.root.as_str())?;
    let rules = IgnoreFiles::new(call.texts.clone()?)
        .keep_hidden(!tree.choice.exclude_hidden)
        .drop_errors(true)
        .then(excluding);
    let root = String::from_str(call.alloc, tree.root.as_str())?;
    let options = options_for(false, &tree.choice);
    let walk = walk_below::<OnlyRules, _, _, _>(disk, root, options, &call.crew)?;
    find_ruled(call.alloc, walk, rules, tree, err)
}

/// Returns what the walk finds that is chosen in a tree. If there is a crew, it reads the directories.
pub(crate) fn find<
    T: Host,
    S: FileSystem + Send + Sync + 'static,
    X: Texts + Send + Sync + 'static,
    E: Write,
>(call: &Call<'_, '_, T, X>, disk: Arc<S>, tree: &Tree, err: &mut E) -> Result<Found, Failure>
    ensures { IfOk result (FindsAll ⟦<S as Walkable<T, X>>⟧.walks (arc_value disk) call.now tree.now) }
{
    if tree.choice.ignore {
        return find_kept(call, disk, tree, err);
    }
    find_plain(call.alloc, disk, &call.crew, tree, err)
}

/// Returns what the walk finds by names and types alone, where no rules are chosen.
pub(crate) fn find_typed<T: Host, S: FileSystem + Send + Sync + 'static, E: Write>(
    alloc: Global,
    disk: Arc<S>,
    crew: &Option<Arc<Crew<T>>>,
    tree: &Tree,
    err: &mut E,
) -> Result<Found, Failure>
    ensures { IfOk result (FindsTyped S.FileSystem ⟦<TypedWalk<T, S> as Iterator>⟧.next_gives (arc_value disk) crew.now tree.now) }
{
    let root = String::from_str(alloc, tree.root.as_str())?;
    let options = options_for(true, &tree.choice);
    let walk = walk_below::<((), ()), _, _, _>(disk, root, options, crew)?;
    take_walk(alloc, walk, tree, err)
}
