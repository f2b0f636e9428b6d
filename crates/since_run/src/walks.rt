//! The walks of a call.
use jwalk::Host;
use jwalk::file_system::FileSystem;
use jwalk::read_dir::NoProcess;
use jwalk_ignore::excluding::Excluding;
use jwalk_ignore::ignore_files::IgnoreFiles;
use jwalk_ignore::states::OnlyRules;
use jwalk_ignore::texts::Texts;
use jwalk_indexed_fs::indexed_fs::IndexedFs;
use program_walks::crew::CrewWalk;
use std::sync::Arc;

/// A callback that honours ignore files, and then drops what is excluded.
pub(crate) type Honours<X> = IgnoreFiles<Arc<X>, Excluding>;

/// The walk below a root without ignore files.
pub(crate) type AllWalk<T, S> = CrewWalk<T, ((), ()), Arc<S>, Excluding>;

/// The walk below a root with ignore files.
pub(crate) type RuledWalk<T, S, X> = CrewWalk<T, OnlyRules, Arc<S>, Honours<X>>;

/// The walk below a root by names and types alone.
pub(crate) type TypedWalk<T, S> = CrewWalk<T, ((), ()), Arc<S>, NoProcess>;

/// The same over a disk with the records of a snapshot.
pub(crate) type QuickWalk<T, S> = TypedWalk<T, IndexedFs<S>>;

/// A disk that the walks of a call go over, where crews of `T` read directories and ignore files are read from `X`. It
/// gives contracts a name for the three walks.
pub(crate) trait Walkable<T, X> {
    ghost use Rattle.since_run.specs.Yielded.{Walks};

    // What the disk, the ignore files and the walks return.
    ghost walks: { Walks T Self X };
}

impl<T: Host, S: FileSystem + Send + Sync + 'static, X: Texts + Send + Sync + 'static> Walkable<
    T,
    X,
> for S {
    ghost walks = { record {
      files = S.FileSystem;
      texts = X.Texts;
      plain = ⟦<AllWalk<T, S> as Iterator>⟧.next_gives;
      honouring = ⟦<RuledWalk<T, S, X> as Iterator>⟧.next_gives;
      quick = ⟦<QuickWalk<T, S> as Iterator>⟧.next_gives;
    } };
}
