//! Walks over random trees, with and without a crew.
use crate::crewed::{Asked, Reader};
use crate::random_trees::random_tree;
use crate::serial::are_serial;
use test_fixtures::dice::Dice;
use test_fixtures::ways::Setting;

/// The number of trees. A script compares walks over more trees.
const TREES: usize = 45;

/// Returns the option as often as not, and else one that changes nothing.
fn maybe(dice: &mut Dice, setting: Setting) -> Setting {
    if dice.below(2) == 0 {
        setting
    } else {
        Setting::Min(0)
    }
}

// Walks that follow links have a small greatest depth.
#[test]
fn random_trees_with_one_two_and_four_workers(rt: HostRuntime) {
    for seed in 0..TREES {
        let mut dice = Dice::new(seed.wrapping_add(1_000));
        let depth = dice.below(3);
        let settings = [
            maybe(&mut dice, Setting::Sort),
            maybe(&mut dice, Setting::Hidden),
            Setting::Min(depth),
            Setting::Max(5),
            Setting::Follow,
        ];
        let kept = if seed % 2 == 0 { 5 } else { 3 };
        let walk = Asked {
            root: "/r",
            settings: settings.get(..kept).unwrap_or(&[]),
            reader: Reader::Crew,
            then: &[],
        };
        let workers = match seed % 3 {
            0 => 1,
            1 => 2,
            _ => 4,
        };
        let is_alike = are_serial(&rt, random_tree(rt.alloc(), seed), &walk, workers);
        assert!(rt; is_alike == Ok(true), "seed {seed}, {workers} workers");
    }
}
