//! What words ask for.
ghost use Rattle.std.specs.Prelude.{◌≡◌, codes, is_some, map, option_map, IfOk, IfErr};
ghost use Rattle.clap.specs.Words.{found_of, rows_of, first_of};
ghost use Rattle.tally_words.specs.Asks.{form_in, unit_in, IsDepthIn, IsThresholdIn, Asks};
ghost use Rattle.tally_words.specs.AsksFor.{AskFor};
ghost use Rattle.tally_words.specs.Conflict.{asks_fixed_unit, asks_lines, has_fixed_conflict, has_form_conflict, has_sum_conflict, has_total_conflict, has_unit_conflict, has_conflict};
ghost use Rattle.tally_words.specs.Refusal.{IsRefusedFor, IsRefusedSize};

use crate::asked::Asked;
use crate::command::command;
use crate::form::Form;
use crate::refusal::Refusal;
use crate::threshold::Threshold;
use crate::unit::Unit;
use clap::ArgMatches;
use program_parts::refusal::CommonRefusal;
use program_parts::values::{has_value, is_named, matches_of, number_of, values_of};
use std::alloc::{AllocError, Global};
use std::convert::AsStr;

/// It is 0 where the totals alone are asked for.
fn depth_of(found: &ArgMatches<'_>) -> Option<usize>
    ensures { IsDepthIn (rows_of (found_of found.now)) result }
{
    let named = number_of(found, "max-depth");
    if is_named(found, "summarize") {
        Some(0)
    } else {
        named
    }
}

fn form_of(found: &ArgMatches<'_>) -> Form
    ensures { result ≡ form_in (rows_of (found_of found.now)) }
{
    if is_named(found, "json") {
        Form::Json
    } else if is_named(found, "print0") {
        Form::ZeroLines
    } else if is_named(found, "plain") {
        Form::Lines
    } else {
        Form::Table
    }
}

fn unit_of(found: &ArgMatches<'_>) -> Option<Unit>
    ensures { result ≡ unit_in (rows_of (found_of found.now)) }
{
    if is_named(found, "human-readable") {
        Some(Unit::Binary)
    } else if is_named(found, "si") {
        Some(Unit::Decimal)
    } else if is_named(found, "kibibytes") {
        Some(Unit::Kibibyte)
    } else if is_named(found, "mebibytes") {
        Some(Unit::Mebibyte)
    } else if is_named(found, "bytes") {
        Some(Unit::Byte)
    } else {
        None
    }
}

fn value_of<'w>(found: &ArgMatches<'w>, id: &str) -> Option<&'w str>
    ensures { option_map (λ it. it.now) result ≡ first_of id.now (rows_of (found_of found.now)) }
{
    found.get_str(id)
}

fn threshold_named<'w>(found: &ArgMatches<'w>) -> Result<Option<Threshold>, Refusal<'w>>
    ensures threshold { IfOk result (IsThresholdIn (first_of (codes "threshold") (rows_of (found_of found.now)))) }
    ensures refused { IfErr result (IsRefusedSize (first_of (codes "threshold") (rows_of (found_of found.now)))) }
{
    let Some(text) = value_of(found, "threshold") else {
        return Ok(None);
    };
    match Threshold::read(text) {
        Some(threshold) => Ok(Some(threshold)),
        None => Err(Refusal::NoSize(text)),
    }
}

fn asked_of<'w>(
    alloc: Global,
    found: &ArgMatches<'w>,
    threshold: Option<Threshold>,
) -> Result<Asked<'w>, AllocError>
    requires { IsThresholdIn (first_of (codes "threshold") (rows_of (found_of found.now))) threshold }
    ensures { IfOk result (Asks (rows_of (found_of found.now))) }
{
    let roots = values_of(alloc, found, "root")?;
    let excludes = values_of(alloc, found, "exclude")?;
    let exclude_files = values_of(alloc, found, "exclude-from")?;
    Ok(Asked {
        roots,
        form: form_of(found),
        depth: depth_of(found),
        all: is_named(found, "all"),
        largest: number_of(found, "largest"),
        total: is_named(found, "total"),
        threshold,
        unit: unit_of(found),
        apparent: is_named(found, "apparent"),
        each_name: is_named(found, "count-links"),
        one_file_system: is_named(found, "one-file-system"),
        follow: is_named(found, "follow"),
        sort: is_named(found, "sort"),
        threads: number_of(found, "threads"),
        exclude_hidden: is_named(found, "exclude-hidden"),
        excludes,
        exclude_files,
        ignore: is_named(found, "ignore"),
    })
}

fn lines_option(found: &ArgMatches<'_>) -> Option<&'static str>
    ensures { is_some result ≡ asks_lines (rows_of (found_of found.now)) }
{
    if is_named(found, "plain") {
        Some("plain")
    } else if is_named(found, "print0") {
        Some("print0")
    } else {
        None
    }
}

/// Returns two options for what no form has both: lines and JSON, or a number of entries in lines or JSON.
fn form_conflict(found: &ArgMatches<'_>) -> Option<(&'static str, &'static str)>
    ensures { is_some result ≡ has_form_conflict (rows_of (found_of found.now)) }
{
    let lines = lines_option(found);
    let json = is_named(found, "json");
    let largest = has_value(found, "largest");
    match lines {
        Some(lines) if json => Some(("json", lines)),
        Some(lines) if largest => Some(("largest", lines)),
        None if json && largest => Some(("json", "largest")),
        _ => None,
    }
}

/// Returns two options of which one is for JSON, and one for the sum of all roots.
fn sum_conflict(found: &ArgMatches<'_>) -> Option<(&'static str, &'static str)>
    ensures { is_some result ≡ has_sum_conflict (rows_of (found_of found.now)) }
{
    if is_named(found, "json") && is_named(found, "total") {
        Some(("json", "total"))
    } else {
        None
    }
}

/// Returns two options of which one is for totals alone, and one for more.
fn total_conflict(found: &ArgMatches<'_>) -> Option<(&'static str, &'static str)>
    ensures { is_some result ≡ has_total_conflict (rows_of (found_of found.now)) }
{
    if !is_named(found, "summarize") {
        None
    } else if is_named(found, "all") {
        Some(("summarize", "all"))
    } else if has_value(found, "max-depth") {
        Some(("summarize", "max-depth"))
    } else if has_value(found, "largest") {
        Some(("summarize", "largest"))
    } else {
        None
    }
}

fn fixed_unit(found: &ArgMatches<'_>) -> Option<&'static str>
    ensures { is_some result ≡ asks_fixed_unit (rows_of (found_of found.now)) }
{
    if is_named(found, "kibibytes") {
        Some("kibibytes")
    } else if is_named(found, "mebibytes") {
        Some("mebibytes")
    } else if is_named(found, "bytes") {
        Some("bytes")
    } else {
        None
    }
}

fn fixed_conflict(found: &ArgMatches<'_>) -> Option<(&'static str, &'static str)>
    ensures { is_some result ≡ has_fixed_conflict (rows_of (found_of found.now)) }
{
    let mebibytes = is_named(found, "mebibytes");
    let bytes = is_named(found, "bytes");
    if !is_named(found, "kibibytes") {
        if mebibytes && bytes {
            return Some(("mebibytes", "bytes"));
        }
        None
    } else if mebibytes {
        Some(("kibibytes", "mebibytes"))
    } else if bytes {
        Some(("kibibytes", "bytes"))
    } else {
        None
    }
}

/// Returns two options for units, if more than one is named.
fn unit_conflict(found: &ArgMatches<'_>) -> Option<(&'static str, &'static str)>
    ensures { is_some result ≡ has_unit_conflict (rows_of (found_of found.now)) }
{
    let si = is_named(found, "si");
    if is_named(found, "human-readable") {
        if si {
            return Some(("human-readable", "si"));
        }
        Some(("human-readable", fixed_unit(found)?))
    } else if si {
        Some(("si", fixed_unit(found)?))
    } else {
        fixed_conflict(found)
    }
}

fn conflict_of(found: &ArgMatches<'_>) -> Option<(&'static str, &'static str)>
    ensures { is_some result ≡ has_conflict (rows_of (found_of found.now)) }
{
    if let Some(both) = form_conflict(found) {
        return Some(both);
    }
    if let Some(both) = sum_conflict(found) {
        return Some(both);
    }
    match total_conflict(found) {
        Some(both) => Some(both),
        None => unit_conflict(found),
    }
}

/// Reads the words of a call, of which the first is the program's name.
///
/// # Errors
///
/// If the words are bad or ask for help or the version; if two options exclude each other; if a size is bad; or if memory
/// runs out.
pub fn read_words<'w, S: AsStr>(alloc: Global, words: &'w [S]) -> Result<Asked<'w>, Refusal<'w>>
    ensures asked { IfOk result (AskFor (map S.text words.entry.now)) }
    ensures refused { IfErr result (IsRefusedFor (map S.text words.entry.now)) }
{
    let found = matches_of(command(alloc)?, words)?;
    if let Some((one, other)) = conflict_of(&found) {
        return Err(Refusal::Common(CommonRefusal::Conflict(one, other)));
    }
    let threshold = threshold_named(&found)?;
    Ok(asked_of(alloc, &found, threshold)?)
}
