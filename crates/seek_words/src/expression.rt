//! The regular expression of a pattern.
ghost use Rattle.std.specs.Prelude.{◌≡◌, IfOk, IfErr};
ghost use Rattle.regex.specs.Sources.{IsRefusal};
ghost use Rattle.regex.specs.Strings.{regex_source, regex_config, IsReadFromSource};
ghost use Rattle.seek_words.specs.Expression.{config_for};

use crate::case::Case;
use regex::{Error, Regex, RegexBuilder};
use std::alloc::Global;

/// Returns the regular expression of a pattern. Its dot takes a line feed, too.
///
/// # Errors
///
/// If the pattern is bad or too large, or if memory runs out.
pub fn read_expression(alloc: Global, pattern: &str, case: Case) -> Result<Regex, Error>
    ensures source { IfOk result (λ it. regex_source it ≡ pattern.now) }
    ensures options { IfOk result (λ it. regex_config it ≡ config_for case) }
    ensures read { IfOk result IsReadFromSource }
    ensures rejected { IfErr result (IsRefusal (config_for case) pattern.now) }
{
    RegexBuilder::new(pattern)
        .case_insensitive(case.is_ignored())
        .dot_matches_new_line(true)
        .build(alloc)
}
