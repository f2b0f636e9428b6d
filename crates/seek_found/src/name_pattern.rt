//! One pattern for names.
ghost use Rattle.std.specs.Prelude.{◌≡◌, true, string_bytes, IfOk, IfErr};
ghost use Rattle.regex.specs.Patterns.{ReadsAsText};
ghost use Rattle.seek_found.specs.NamePattern.{source_of, takes_any};

use crate::bad_pattern::BadPattern;
use crate::glob::Glob;
use regex::{Error, Regex, escape};
use seek_braces::expansions;
use seek_words::asked::Asked;
use seek_words::expression::read_expression;
use std::alloc::{AllocError, Global};

/// The names that one pattern looks for.
#[derive(Drop)]
pub enum NamePattern {
    /// All names.
    Any,
    /// Those in which a regular expression or a text is found.
    Expression(Regex),
    /// Those that a glob takes.
    Glob(Glob),
}

/// The empty pattern takes any name. So does `.`, unless it is a glob or a text.
fn takes_any(asked: &Asked<'_>, pattern: &str) -> bool
    ensures { result ≡ takes_any asked.now pattern.now }
{
    pattern.is_empty() || (pattern == "." && !asked.glob && !asked.fixed)
}

/// For a text, returns the regular expression that finds that text.
fn source_of(alloc: Global, asked: &Asked<'_>, pattern: &str) -> Result<String, AllocError>
    ensures source { IfOk result (λ source. string_bytes source ≡ source_of asked.now pattern.now) }
    ensures literal { IfOk result (λ source. asked.now.fixed ≡ true → ReadsAsText (string_bytes source) pattern.now) }
{
    if asked.fixed {
        escape(alloc, pattern)
    } else {
        String::from_str(alloc, pattern)
    }
}

impl NamePattern {
    ghost use Rattle.seek_found.specs.BadPattern.{IsBadPattern, IsNoExpression, IsNoGlob};
    ghost use Rattle.seek_found.specs.NamePattern.{IsPatternOf, IsGlobOf, IsExpressionOf};

    fn glob_of<'w>(
        alloc: Global,
        asked: &Asked<'_>,
        pattern: &'w str,
    ) -> Result<Glob, BadPattern<'w>>
        ensures glob { IfOk result (IsGlobOf asked.now pattern.entry.now) }
        ensures rejected { IfErr result (IsNoGlob asked.now pattern.entry.now) }
    {
        let Some(texts) = expansions(alloc, pattern)? else {
            return Err(BadPattern::Braces(pattern));
        };
        let ignores_case = asked.case.is_ignored();
        match Glob::read(alloc, texts.as_slice(), ignores_case)? {
            Some(glob) => Ok(glob),
            None => Err(BadPattern::Glob(pattern)),
        }
    }

    fn expression_of<'w>(
        alloc: Global,
        asked: &Asked<'_>,
        pattern: &'w str,
    ) -> Result<Regex, BadPattern<'w>>
        ensures expression { IfOk result (IsExpressionOf asked.now pattern.entry.now) }
        ensures rejected { IfErr result (IsNoExpression asked.now pattern.entry.now) }
    {
        let source = source_of(alloc, asked, pattern)?;
        match read_expression(alloc, source.as_str(), asked.case) {
            Ok(expression) => Ok(expression),
            Err(Error::OutOfMemory) => Err(BadPattern::Memory),
            Err(error) => Err(BadPattern::Expression(pattern, error)),
        }
    }

    /// Reads a pattern in the way that is asked for.
    pub fn read<'w>(
        alloc: Global,
        asked: &Asked<'_>,
        pattern: &'w str,
    ) -> Result<Self, BadPattern<'w>>
        ensures pattern { IfOk result (IsPatternOf asked.now pattern.entry.now) }
        ensures rejected { IfErr result (IsBadPattern asked.now pattern.entry.now) }
    {
        if takes_any(asked, pattern) {
            return Ok(NamePattern::Any);
        }
        if asked.glob {
            return Ok(NamePattern::Glob(NamePattern::glob_of(alloc, asked, pattern)?));
        }
        Ok(NamePattern::Expression(NamePattern::expression_of(alloc, asked, pattern)?))
    }
}
