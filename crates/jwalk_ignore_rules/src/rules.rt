//! The rules of one ignore file.
ghost use Rattle.std.specs.Prelude.{◌≡◌, ◌++◌, IfOk, OnOk, map, option_to_list};
ghost use Rattle.std.specs.Option.{option_map};
ghost use Rattle.jwalk_ignore_rules.specs.Pattern.{pattern_value};
ghost use Rattle.jwalk_ignore_rules.specs.Rules.{Says};

pub mod chain;
pub mod decision;
pub mod folder;
pub mod git;
mod last_names;
pub mod line;
pub mod link;
pub mod memory_texts;
mod patterns;
pub mod real_texts;
pub mod rules_kind;
pub mod texts;
pub mod with_excludes;

use crate::pattern::Pattern;
use crate::pattern::pieces::split_piece;
use crate::rules::decision::Decision;
use crate::rules::line::{text_of, without_mark};
use crate::rules::patterns::Patterns;
use std::alloc::{AllocError, Allocator, Global};

/// The rules of one ignore file in git's format.
///
/// `docs/IGNORE.md` has the format. What the file doesn't say in that format matches nothing, so each file has rules.
#[derive(Drop)]
pub struct Rules<A: Allocator + Copy = Global> {
    patterns: Patterns<A>,
}

fn last_decision<A: Allocator + Copy>(
    patterns: &[Pattern<A>],
    path: &[u8],
    is_dir: bool,
) -> Decision
    ensures { Says (map pattern_value patterns.now) path.now is_dir result }
{
    let mut rest = patterns;
    'patterns: while let Some((pattern, before)) = rest.split_last() {
        if pattern.matches(path, is_dir) {
            return pattern.decision();
        }
        rest = before;
    }
    Decision::Unsaid
}

fn push_some<A: Allocator + Copy>(
    alloc: A,
    patterns: &mut Patterns<A>,
    pattern: Option<Pattern<A>>,
) -> Result<(), AllocError>
    ensures { OnOk result (map pattern_value patterns.new.items.items
        ≡ map pattern_value patterns.old.items.items ++ option_to_list (option_map pattern_value pattern)) }
{
    match pattern {
        Some(pattern) => patterns.push(alloc, pattern),
        None => Ok(()),
    }
}

impl<A: Allocator + Copy> Rules<A> {
    ghost use Rattle.jwalk_ignore_rules.specs.Rules.Line.{patterns_of};
    ghost use Rattle.jwalk_ignore_rules.specs.Rules.{rules_value};

    /// Reads the bytes of an ignore file.
    ///
    /// # Errors
    ///
    /// If memory runs out.
    pub fn parse(alloc: A, bytes: &[u8]) -> Result<Self, AllocError>
        ensures { IfOk result (λ rules. rules_value rules ≡ patterns_of bytes.now) }
    {
        let mut patterns = Patterns::none(alloc);
        let mut rest = without_mark(bytes);
        'lines: while !rest.is_empty() {
            let (line, behind) = split_piece(rest, b'\n');
            let pattern = Pattern::read(alloc, text_of(line))?;
            push_some(alloc, &mut patterns, pattern)?;
            rest = behind;
        }
        Ok(Rules { patterns })
    }

    /// Returns what the rules say of a path: the last pattern that matches decides.
    ///
    /// `path` is relative to the folder of the ignore file, with slashes between its names, and `is_dir` says whether
    /// it is a directory. The path alone counts. That nothing below an ignored directory is found is up to the caller:
    /// the pattern `foo/` ignores the directory `foo`, and says nothing of `foo/bar`.
    ///
    /// It takes no memory, and at most as many steps as the lengths of patterns and path multiplied, times a constant.
    /// A pattern whose last name is plain is only tried where a path has the last name of some such line.
    pub fn decision(&self, path: &[u8], is_dir: bool) -> Decision
        ensures { Says (rules_value self.now) path.now is_dir result }
    {
        let count = self.patterns.count_for(path);
        match self.patterns.last_other(count, path, is_dir) {
            Some(pattern) => pattern.decision(),
            None => last_decision(self.patterns.first(count), path, is_dir),
        }
    }
}
