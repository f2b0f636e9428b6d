//! Walks with rules, where each request for memory is refused, or all from each on.
use crate::planted::{Planted, SCENE, Scene};
use jwalk::file_system::{BuildError, FileSystem};
use jwalk::read_dir::ProcessReadDir;
use jwalk::{ClientState, WalkDirGeneric};
use jwalk_ignore::chain::Chain;
use jwalk_ignore::ignore_files::IgnoreFiles;
use jwalk_ignore::memory_texts::MemoryTexts;
use std::alloc::{AllocError, Allocator, Global};
use std::sync::atomic::{AtomicUsize, Ordering};
use test_fixtures::refused::lines::{Given, Shown};
use test_fixtures::refused::outcome::{Call, Outcome, WAYS, comes};
use test_fixtures::refused::turns::{MOST, Repeated, first_wrong};
use test_fixtures::refusing_alloc::Refusing;
use test_fixtures::width::Width;

/// A tree with each kind of rules. The texts have `.git`, as a walk may begin further down.
const WHOLE: Scene = Scene {
    tree: &[
        ".git/",
        ".git/info/exclude=x\n",
        ".ignore=b\n",
        ".gitignore=*.o\n",
        "a.o",
        "b",
        "c",
        "s/",
        "s/.gitignore=d\n!k.o\n",
        "s/d",
        "s/e",
        "s/j.o",
        "s/k.o",
        "x",
    ],
    rules: &[("/r/.git", "")],
    ..SCENE
};

/// A tree with a file of rules that can't be read.
const DENIED: Scene = Scene {
    tree: &[".git/", ".ignore=b\n", "b", "s/", "s/.gitignore=d\n", "s/d"],
    denied: &["/r/s/.gitignore"],
    ..SCENE
};

/// A tree, a root, and the lines of the walk from it.
type Lines = (Scene, &'static str, &'static [&'static str]);

const ROWS: &[Lines] = &[
    (
        WHOLE,
        "/r",
        &[
            "0 d /r",
            "1 f /r/c",
            "1 d /r/s",
            "2 f /r/s/e",
            "2 f /r/s/k.o",
        ],
    ),
    // Below a directory with rules from above.
    (WHOLE, "/r/s", &["0 d /r/s", "1 f /r/s/e", "1 f /r/s/k.o"]),
    // Without the rules of a file.
    (
        DENIED,
        "/r",
        &[
            "0 d /r",
            "1 d /r/s",
            "! 2 /r/s/.gitignore PermissionDenied",
            "2 f /r/s/d",
        ],
    ),
];

/// The walk of a row, with how many directories are read together and how its answers are taken.
#[derive(Clone, Copy)]
struct Play<'f> {
    planted: &'f Planted,
    root: &'f str,
    lines: &'f [&'f str],
    width: Width,
    call: Call,
    /// The number of times that the rules ran out of memory.
    within: &'f AtomicUsize,
}

/// The states of a walk with rules.
type Rules<A> = ((Chain<A>, ()), ());

/// The list of a directory.
type List<A> = Vec<Given<Rules<A>, A>, A>;

/// The rules of a tree, as a callback that counts how often they run out of memory. It has a type of its own, since the
/// types of rules are long.
struct CountedRules<'f> {
    rules: IgnoreFiles<&'f MemoryTexts>,
    refusals: &'f AtomicUsize,
}

impl<'f> Drop for CountedRules<'f> {
    fn drop(self) {
        let CountedRules {
            rules: _,
            refusals: _,
        } = self;
    }
}

impl<'f, A: Allocator + Copy> ProcessReadDir<Rules<A>, A> for CountedRules<'f> {
    ghost IsLawful = { λ _. Unit {0} };

    ghost Makes = { λ _ _. ⊥ };

    fn process(
        &self,
        depth: Option<usize>,
        path: &str,
        state: &mut (Chain<A>, ()),
        list: &mut List<A>,
    ) -> Result<(), AllocError> {
        let processed = self.rules.process(depth, path, state, list);
        if processed.is_err() {
            self.refusals.fetch_add(1, Ordering::SeqCst);
        }
        processed
    }
}

impl<'f> Play<'f> {
    /// Returns the outcome of the walk with a callback, which is shown hidden names. All types are parameters, since each
    /// call at those of a walk with rules costs the prover many seconds.
    fn comes_with<C: ClientState, S: FileSystem, P: ProcessReadDir<C, A>, A: Allocator + Copy>(
        &self,
        alloc: Global,
        memory: A,
        fs: S,
        process: P,
    ) -> Outcome
    where
        C::DirEntryState: Shown,
        requires { P.IsLawful process }
    {
        let Ok(root) = String::from_str(memory, self.root) else {
            return Outcome::Refused(0);
        };
        let walk = WalkDirGeneric::new(fs, root)
            .sort(true)
            .skip_hidden(false)
            .parallelism(self.width.parallelism());
        comes(
            alloc,
            memory,
            walk.process_read_dir(process),
            self.call,
            self.lines,
        )
    }

    /// Returns the outcome of the walk with this memory.
    fn comes_from<A: Allocator + Copy>(&self, alloc: Global, memory: A) -> Outcome {
        let rules = CountedRules {
            rules: IgnoreFiles::new(&self.planted.texts),
            refusals: self.within,
        };
        self.comes_with::<Rules<A>, _, _, _>(alloc, memory, &self.planted.fs, rules)
    }
}

/// A walk whose answers are all asked for at once may come whole after a refusal, as more is asked for then.
impl Repeated for Play<'_> {
    fn comes(&self, alloc: Global, memory: &Refusing<Global>) -> Outcome {
        self.comes_from(alloc, memory)
    }

    fn may_be_whole(&self) -> bool {
        self.call == Call::Fill
    }
}

/// Walks in each way, with one request refused, and with all from each on.
fn is_right(alloc: Global, play: Play<'_>) -> bool {
    for (width, call) in WAYS {
        for many in [1, usize::MAX] {
            let play = Play {
                width: *width,
                call: *call,
                ..play
            };
            if first_wrong(alloc, many, &play).is_some() {
                return false;
            }
        }
    }
    true
}

/// Returns whether the rules run out of memory in the lists that are read for the first and for the third answer, more
/// than ten times in each, and in no other. One request is refused at a time.
fn is_reported_in_place(alloc: Global, play: Play<'_>) -> bool {
    let memory = Refusing::new(alloc);
    let (mut at_first, mut at_third): (usize, usize) = (0, 0);
    for number in 1..MOST {
        memory.refuse(number, 1);
        let before = play.within.load(Ordering::SeqCst);
        let came = play.comes(alloc, &memory);
        let is_within = play.within.load(Ordering::SeqCst) != before;
        match came {
            _ if memory.pieces() != 0 => return false,
            Outcome::Whole => return at_first > 10 && at_third > 10,
            Outcome::Refused(0) if is_within => at_first = at_first.saturating_add(1),
            Outcome::Refused(2) if is_within => at_third = at_third.saturating_add(1),
            Outcome::Refused(_) if !is_within => {}
            _ => return false,
        }
    }
    false
}

/// Where the memory of rules runs out is looked at for the first row, which is of the whole tree.
#[test]
fn requests_of_walks_with_rules_are_refused(rt: HostRuntime) -> Result<(), BuildError> {
    for (number, (scene, root, lines)) in ROWS.iter().enumerate() {
        let planted = Planted::new(rt.alloc(), scene)?;
        let within = AtomicUsize::new(0);
        let play = Play {
            planted: &planted,
            root: *root,
            lines: *lines,
            width: Width::Serial,
            call: Call::IntoIter,
            within: &within,
        };
        let is_right = is_right(rt.alloc(), play);
        let is_in_place = number > 0 || is_reported_in_place(rt.alloc(), play);
        assert!(rt; is_right && is_in_place, "row {number}");
    }
    Ok(())
}
