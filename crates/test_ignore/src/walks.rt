//! Walks that honour ignore files, in each way and over a crew.
use crate::left::{Rules, is_right};
use crate::planted::{Planted, Row, Scene};
use crate::rows::{FORCE, LINKS, UNREAD};
use crate::trees::TREES;
use jwalk::file_system::{BuildError, FileSystem, MemoryFs};
use jwalk::read_dir::ProcessReadDir;
use jwalk::{ClientState, Crew, Parallelism, WalkDirGeneric};
use jwalk_ignore::ignore_files::IgnoreFiles;
use jwalk_ignore::memory_texts::MemoryTexts;
use jwalk_ignore::states::RulesState;
use std::alloc::{AllocError, Global};
use std::sync::Arc;
use test_fixtures::answers::Answer;
use test_fixtures::by_crew::all_by_crew;
use test_fixtures::host::Host;
use test_fixtures::ways::{Asked, Setting, WAYS, Way};

/// The rules of a tree that a crew's workers share, as a callback. It has a type of its own, since the types of rules
/// are long, and proofs of functions over any runtime compare them.
#[derive(Drop)]
struct SharedRules {
    rules: IgnoreFiles<Arc<MemoryTexts>>,
}

impl ProcessReadDir<Rules, Global> for SharedRules {
    ghost IsLawful = { λ _. Unit {0} };

    ghost Makes = { λ _ _. ⊥ };

    fn process(
        &self,
        depth: Option<usize>,
        path: &str,
        state: &mut RulesState,
        list: &mut Vec<Answer<Rules>>,
    ) -> Result<(), AllocError> {
        self.rules.process(depth, path, state, list)
    }
}

/// Returns whether a setting is among others, which are separated by spaces.
fn has(settings: &str, name: &str) -> bool {
    for setting in settings.split(' ') {
        if setting == name {
            return true;
        }
    }
    false
}

/// Returns the rules by the names of settings. Other names change nothing.
fn rules_by(texts: Arc<MemoryTexts>, settings: &str) -> SharedRules {
    SharedRules {
        rules: IgnoreFiles::new(texts)
            .keep_hidden(!has(settings, "hide"))
            .outside_repositories(has(settings, "anywhere"))
            .version_control(!has(settings, "no-git"))
            .above_the_root(!has(settings, "no-above"))
            .fdignore(has(settings, "fdignore")),
    }
}

/// Returns all that a walk by name yields with a callback, which is shown hidden names, and for which a crew reads. All
/// types are parameters, since each call on a walk over a crew costs the prover many seconds.
fn found_by_crew<
    R: Host,
    C: ClientState + Send + 'static,
    S: FileSystem + Send + Sync + 'static,
    P: ProcessReadDir<C, Global> + Send + Sync + 'static,
>(
    alloc: Global,
    pool: Arc<Crew<R>>,
    fs: S,
    root: String,
    follows: bool,
    process: P,
) -> Result<Vec<Answer<C>>, AllocError>
where
    C::ReadDirState: Send + 'static,
    C::DirEntryState: Send + 'static,
    requires { P.IsLawful process }
{
    let walk = WalkDirGeneric::with_crew(fs, root)
        .sort(true)
        .skip_hidden(false)
        .follow_links(follows)
        .parallelism(Parallelism::RayonExistingPool {
            pool,
            busy_timeout: None,
        });
    all_by_crew(alloc, walk.process_read_dir(process))
}

/// A tree with files of rules that a crew's workers share, and a row.
#[derive(Drop)]
struct Play<'p> {
    fs: &'p Arc<MemoryFs>,
    texts: &'p Arc<MemoryTexts>,
    row: &'p Row,
}

impl Play<'_> {
    fn found<R: Host>(&self, rt: &R, way: Way) -> Result<Vec<Answer<Rules>>, AllocError> {
        const BY_NAME: &[Setting] = &[Setting::Sort, Setting::Hidden];
        const FOLLOWING: &[Setting] = &[Setting::Sort, Setting::Hidden, Setting::Follow];
        let follows = self.row.settings == "follow";
        let asked = Asked {
            fs: &**self.fs,
            root: self.row.root,
            settings: if follows { FOLLOWING } else { BY_NAME },
        };
        asked.found(rt, rules_by(self.texts.clone()?, self.row.settings), way)
    }

    fn found_by_crew<R: Host>(
        &self,
        alloc: Global,
        pool: &Arc<Crew<R>>,
    ) -> Result<Vec<Answer<Rules>>, AllocError> {
        let root = String::from_str(alloc, self.row.root)?;
        let rules = rules_by(self.texts.clone()?, self.row.settings);
        let follows = self.row.settings == "follow";
        found_by_crew(alloc, pool.clone()?, self.fs.clone()?, root, follows, rules)
    }

    /// Returns whether the walk yields what the row says, over a crew and in each way.
    fn is_right<R: Host>(&self, rt: &R, pool: &Arc<Crew<R>>) -> Result<bool, AllocError> {
        let by_crew = self.found_by_crew(rt.alloc(), pool)?;
        let mut are_right = is_right(rt.alloc(), self.row, by_crew.as_slice())?;
        for way in WAYS {
            let found = self.found(rt, *way)?;
            are_right &= is_right(rt.alloc(), self.row, found.as_slice())?;
        }
        Ok(are_right)
    }
}

/// Returns whether the walks of a scene yield what its rows say.
fn are_right<R: Host>(rt: &R, scene: &Scene) -> Result<bool, BuildError> {
    let planted = Planted::new(rt.alloc(), scene)?;
    let fs = Arc::new(rt.alloc(), planted.fs).map_err(AllocError::from)?;
    let texts = Arc::new(rt.alloc(), planted.texts).map_err(AllocError::from)?;
    // The crew serves one walk at a time.
    let crew = Crew::new(rt.clone()?, 1, 2);
    let pool = Arc::new(rt.alloc(), crew).map_err(AllocError::from)?;
    let mut are_right = true;
    for row in scene.rows {
        let play = Play {
            fs: &fs,
            texts: &texts,
            row,
        };
        are_right &= play.is_right(rt, &pool)?;
    }
    Ok(are_right)
}

#[test]
fn walks_leave_what_rules_say(rt: HostRuntime) {
    for (name, scenes) in [
        ("force", FORCE),
        ("unread", UNREAD),
        ("links", LINKS),
        ("trees", TREES),
    ] {
        for (number, scene) in scenes.iter().enumerate() {
            assert!(rt;
                matches!(are_right(&rt, scene), Ok(true)),
                "{name}, scene {number}"
            );
        }
    }
}
