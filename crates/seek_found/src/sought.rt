//! The names that are looked for.
ghost use Rattle.std.specs.Prelude.{◌≡◌, IfOk, IfErr};
ghost use Rattle.program_parts.specs.Values.{texts_of};
ghost use Rattle.seek_found.specs.BadPattern.{AreBadLines, AreBadPatterns};
ghost use Rattle.seek_found.specs.Sought.{ArePatternsOf};

use crate::bad_pattern::BadPattern;
use crate::name_pattern::NamePattern;
use seek_braces::expansions;
use seek_words::asked::Asked;
use std::alloc::Global;

/// The names that are looked for, by all of these patterns.
#[derive(Drop)]
pub struct Sought {
    /// The pattern.
    pub first: NamePattern,
    /// The patterns of `--and`.
    pub others: Vec<NamePattern>,
}

fn patterns_of<'w>(
    alloc: Global,
    asked: &Asked<'_>,
    texts: &[&'w str],
) -> Result<Vec<NamePattern>, BadPattern<'w>>
    ensures patterns { IfOk result (λ patterns. ArePatternsOf asked.now (texts_of texts.now) patterns.items) }
    ensures rejected { IfErr result (AreBadPatterns asked.now (texts_of texts.now)) }
{
    let mut patterns = Vec::new(alloc);
    for text in texts {
        let pattern = NamePattern::read(alloc, asked, text)?;
        patterns.reserve(1)?;
        patterns.push_reserved(pattern);
    }
    Ok(patterns)
}

/// Lines of `-E` may not be short for too many others.
fn check_lines<'w>(alloc: Global, lines: &[&'w str]) -> Result<(), BadPattern<'w>>
    ensures { IfErr result (AreBadLines (texts_of lines.now)) }
{
    for line in lines {
        if expansions(alloc, line)?.is_none() {
            return Err(BadPattern::Braces(line));
        }
    }
    Ok(())
}

impl Sought {
    ghost use Rattle.seek_found.specs.BadPattern.{IsBadFor};
    ghost use Rattle.seek_found.specs.Sought.{IsFor};

    /// Reads the patterns that are asked for, and checks the lines of `-E`.
    pub fn read<'w>(alloc: Global, asked: &Asked<'w>) -> Result<Self, BadPattern<'w>>
        ensures sought { IfOk result (IsFor asked.now) }
        ensures rejected { IfErr result (IsBadFor asked.now) }
    {
        let first = NamePattern::read(alloc, asked, asked.pattern)?;
        let others = patterns_of(alloc, asked, asked.others.as_slice())?;
        check_lines(alloc, asked.excludes.as_slice())?;
        Ok(Sought { first, others })
    }
}
