//! Walks over file systems of many seeds.
use crate::by_crew::ByCrew;
use crate::unsteady::counts::Counts;
use crate::unsteady::disk::Unsteady;
use crate::unsteady::seen::{End, end_of};
use std::alloc::{AllocError, Global};
use std::env;
use std::sync::Arc;
use std::sync::atomic::{AtomicUsize, Ordering};
use test_fixtures::answers::Answer;
use test_fixtures::dice::Dice;
use test_fixtures::host::Host;
use test_fixtures::ways::{Asked, Setting, WAYS, Way};

const SEEDS: usize = 200;

/// The largest greatest depth. It ends the walks.
const DEEPEST: usize = 5;

#[derive(Clone, Copy)]
struct Drawn {
    seed: usize,
    runs_out: bool,
    root: &'static str,
    min_depth: usize,
    max_depth: usize,
    settings: [Setting; 5],
    way: Way,
    workers: usize,
}

fn root(dice: &mut Dice) -> &'static str {
    match dice.below(12) {
        0 => "/",
        1 => "",
        2 => ".",
        3 => "..",
        4 => "r//s/",
        5 => "/r/../s",
        _ => "/r",
    }
}

/// Returns the option as often as not, and else one that changes nothing.
fn maybe(dice: &mut Dice, setting: Setting) -> Setting {
    if dice.below(2) == 0 {
        setting
    } else {
        Setting::Min(0)
    }
}

impl Drawn {
    fn new(seed: usize) -> Self {
        let mut dice = Dice::new(seed);
        let max_depth = dice.below(DEEPEST + 1);
        let min_depth = dice.below(max_depth.saturating_add(1));
        let settings = [
            maybe(&mut dice, Setting::Sort),
            maybe(&mut dice, Setting::Hidden),
            maybe(&mut dice, Setting::Follow),
            Setting::Max(max_depth),
            Setting::Min(min_depth),
        ];
        Drawn {
            seed,
            runs_out: dice.below(3) == 0,
            root: root(&mut dice),
            min_depth,
            max_depth,
            settings,
            way: match WAYS.get(dice.below(WAYS.len())) {
                Some(way) => *way,
                None => Way::Plain,
            },
            workers: dice.below(4).saturating_add(1),
        }
    }

    /// Returns whether a walk goes by the rules, by the number of listings that it asked for. Each directory that was
    /// given must be read once. Some may be unread if memory ran out.
    fn lets(
        &self,
        alloc: Global,
        found: &[Answer],
        lists: &AtomicUsize,
        given: &AtomicUsize,
    ) -> Result<bool, AllocError> {
        let (lists, given) = (lists.load(Ordering::SeqCst), given.load(Ordering::SeqCst));
        Ok(
            match end_of(alloc, found, self.min_depth, self.max_depth)? {
                End::Whole => lists == given,
                End::Memory => self.runs_out && lists <= given,
                End::Wrong => false,
            },
        )
    }

    fn in_way<R: Host>(&self, rt: &R) -> Result<bool, AllocError> {
        let alloc = rt.alloc();
        let fs = Unsteady::new(self.seed, self.runs_out);
        let given = Arc::new(alloc, AtomicUsize::new(0))?;
        let counts = Counts {
            given: given.clone()?,
            max_depth: self.max_depth,
        };
        let asked = Asked {
            fs: &fs,
            root: self.root,
            settings: self.settings.as_slice(),
        };
        let found = asked.found(rt, counts, self.way)?;
        self.lets(alloc, found.as_slice(), &fs.lists, &given)
    }

    fn by_crew<R: Host>(&self, rt: &R) -> Result<bool, AllocError> {
        let alloc = rt.alloc();
        let given = Arc::new(alloc, AtomicUsize::new(0))?;
        let counts = Counts {
            given: given.clone()?,
            max_depth: self.max_depth,
        };
        let asked = ByCrew {
            fs: Arc::new(alloc, Unsteady::new(self.seed, self.runs_out))?,
            root: self.root,
            settings: self.settings.as_slice(),
        };
        let found = asked.found(rt, counts, self.workers)?;
        self.lets(alloc, found.as_slice(), &asked.fs.lists, &given)
    }
}

/// Returns the first of these seeds where the walk in the drawn way or the one by a crew breaks a rule.
fn first_wrong<R: Host>(rt: &R, from: usize, count: usize) -> Option<usize> {
    for seed in from..from.saturating_add(count) {
        let drawn = Drawn::new(seed);
        if drawn.in_way(rt) != Ok(true) || drawn.by_crew(rt) != Ok(true) {
            return Some(seed);
        }
    }
    None
}

/// Returns the default if the word isn't a number.
fn number(word: Result<String, env::VarError>, default: usize) -> usize {
    match word {
        Ok(word) => word.as_str().parse::<usize>().unwrap_or(default),
        Err(_) => default,
    }
}

// A script plays more seeds, by the two words of the environment.
#[test]
fn random_unsteady_file_systems(rt: HostRuntime) {
    let from = number(env::var(&rt, "JWALK_FIRST_SEED"), 0);
    let count = number(env::var(&rt, "JWALK_SEEDS"), SEEDS);
    assert_eq!(rt; first_wrong(&rt, from, count), None);
}
