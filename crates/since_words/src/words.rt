//! What words ask for.
ghost use Rattle.std.specs.Prelude.{◌≡◌, is_some, map, IfOk, IfErr, option_map};
ghost use Rattle.clap.specs.Words.{first_of, found_of, rows_of};
ghost use Rattle.since_words.specs.Asks.{file_in, text_in, AskFor, Asks};
ghost use Rattle.since_words.specs.Refusal.{asks_compared, asks_more, asks_rules, has_conflict, IsRefusedFor};

use crate::asked::Asked;
use crate::command::command;
use clap::ArgMatches;
use program_parts::refusal::CommonRefusal;
use program_parts::values::{has_value, is_named, matches_of, number_of, values_of};
use std::alloc::{AllocError, Global};
use std::convert::AsStr;

/// Returns the value of an option, if it has one.
fn value_of<'w>(found: &ArgMatches<'w>, id: &str) -> Option<&'w str>
    ensures { option_map text_in result ≡ first_of id.now (rows_of (found_of found.now)) }
{
    found.get_str(id)
}

/// Returns the word for the file. Words without one are refused before.
fn file_of<'w>(found: &ArgMatches<'w>) -> &'w str
    ensures { result.now ≡ file_in (rows_of (found_of found.now)) }
{
    match value_of(found, "file") {
        Some(file) => file,
        None => "",
    }
}

fn asked_of<'w>(alloc: Global, found: &ArgMatches<'w>) -> Result<Asked<'w>, AllocError>
    ensures { IfOk result (Asks (rows_of (found_of found.now))) }
{
    let excludes = values_of(alloc, found, "exclude")?;
    Ok(Asked {
        file: file_of(found),
        root: value_of(found, "root"),
        save: is_named(found, "save"),
        quick: is_named(found, "quick"),
        lists: is_named(found, "rows"),
        long: is_named(found, "long"),
        print0: is_named(found, "print0"),
        json: is_named(found, "json"),
        quiet: is_named(found, "quiet"),
        exclude_hidden: is_named(found, "exclude-hidden"),
        one_file_system: is_named(found, "one-file-system"),
        depth: number_of(found, "max-depth"),
        excludes,
        ignore: is_named(found, "ignore"),
        threads: number_of(found, "threads"),
    })
}

/// Returns an option that leaves out names by rules.
fn rules_option(found: &ArgMatches<'_>) -> Option<&'static str>
    ensures { is_some result ≡ asks_rules (rows_of (found_of found.now)) }
{
    if has_value(found, "exclude") {
        Some("exclude")
    } else if is_named(found, "ignore") {
        Some("ignore")
    } else {
        None
    }
}

/// Returns an option for what is compared or saved.
fn compared_option(found: &ArgMatches<'_>) -> Option<&'static str>
    ensures { is_some result ≡ asks_compared (rows_of (found_of found.now)) }
{
    if is_named(found, "save") {
        Some("save")
    } else if is_named(found, "quick") {
        Some("quick")
    } else if is_named(found, "json") {
        Some("json")
    } else if is_named(found, "exclude-hidden") {
        Some("exclude-hidden")
    } else if is_named(found, "one-file-system") {
        Some("one-file-system")
    } else if has_value(found, "max-depth") {
        Some("max-depth")
    } else {
        rules_option(found)
    }
}

/// Returns an option that quick comparisons can't have.
fn more_option(found: &ArgMatches<'_>) -> Option<&'static str>
    ensures { is_some result ≡ asks_more (rows_of (found_of found.now)) }
{
    if is_named(found, "save") {
        Some("save")
    } else if is_named(found, "one-file-system") {
        Some("one-file-system")
    } else {
        rules_option(found)
    }
}

/// Returns two options that exclude each other: rows are of a file as it is, quick comparisons of names and types, and a
/// line that is a JSON object ends with a line feed.
fn conflict_of(found: &ArgMatches<'_>) -> Option<(&'static str, &'static str)>
    ensures { is_some result ≡ has_conflict (rows_of (found_of found.now)) }
{
    if is_named(found, "rows")
        && let Some(other) = compared_option(found)
    {
        return Some(("rows", other));
    }
    if is_named(found, "quick")
        && let Some(other) = more_option(found)
    {
        return Some(("quick", other));
    }
    if is_named(found, "json") && is_named(found, "print0") {
        return Some(("json", "print0"));
    }
    None
}

/// Reads the words of a call, of which the first is the program's name.
///
/// # Errors
///
/// If the words are bad or ask for help or the version, if two options exclude each other, or if memory runs out.
pub fn read_words<'w, S: AsStr>(alloc: Global, words: &'w [S]) -> Result<Asked<'w>, CommonRefusal>
    ensures asked { IfOk result (AskFor (map S.text words.entry.now)) }
    ensures refused { IfErr result (IsRefusedFor (map S.text words.entry.now)) }
{
    let found = matches_of(command(alloc)?, words)?;
    if let Some((one, other)) = conflict_of(&found) {
        return Err(CommonRefusal::Conflict(one, other));
    }
    Ok(asked_of(alloc, &found)?)
}
