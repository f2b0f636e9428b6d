//! The values that words give to options.
ghost use Rattle.std.specs.Prelude.{◌≡◌, true, map, IfErr, IfOk};
ghost use Rattle.clap.specs.Words.{app_of, fault_of, found_of, is_simple_and_free, rows_of, one_of, HasKind};
ghost use Rattle.program_parts.specs.Matches.{GiveValues};
ghost use Rattle.program_parts.specs.Values.{is_named, has_value, values_in, texts_of, IsNumberOf};

use clap::{ArgMatches, Command, Error};
use std::alloc::{AllocError, Global};
use std::convert::AsStr;

/// Returns the values that words give to the options of a command. The first word is the program's name.
///
/// # Errors
///
/// If the words are bad, or ask for help or the version.
pub fn matches_of<'w, S: AsStr>(
    command: Command<'w>,
    words: &'w [S],
) -> Result<ArgMatches<'w>, Error>
    requires { is_simple_and_free (app_of command) ≡ true }
    ensures read { IfOk result (λ found. GiveValues (app_of command.entry) (map S.text words.entry.now) (rows_of (found_of found))) }
    ensures refused { IfErr result (HasKind (fault_of (app_of command.entry) (map S.text words.entry.now))) }
{
    command.try_get_matches_from(words)
}

/// Returns whether an option of one word was named.
pub fn is_named(found: &ArgMatches<'_>, id: &str) -> bool
    ensures { result ≡ is_named (rows_of (found_of found.now)) id.now }
{
    found.get_count(id) > 0
}

/// Returns whether an option has a value.
pub fn has_value(found: &ArgMatches<'_>, id: &str) -> bool
    ensures { result ≡ has_value (rows_of (found_of found.now)) id.now }
{
    found.get_str(id).is_some()
}

fn copied<'w>(alloc: Global, texts: &[&'w str]) -> Result<Vec<&'w str>, AllocError>
    ensures { IfOk result (λ copy. copy.items ≡ texts.now) }
{
    let mut copy = Vec::new(alloc);
    copy.extend_from_slice(texts)?;
    Ok(copy)
}

/// Returns the values of an option, in the order of the words.
///
/// # Errors
///
/// If memory runs out.
pub fn values_of<'w>(
    alloc: Global,
    found: &ArgMatches<'w>,
    id: &str,
) -> Result<Vec<&'w str>, AllocError>
    ensures { IfOk result (λ values. texts_of values.items ≡ values_in (rows_of (found_of found.now)) id.now) }
{
    match found.get_strs(id) {
        Some(values) => copied(alloc, values),
        None => Ok(Vec::new(alloc)),
    }
}

/// Returns the number of an option, if it has one.
pub fn number_of(found: &ArgMatches<'_>, id: &str) -> Option<usize>
    ensures { IsNumberOf (one_of id.now (rows_of (found_of found.now))) result }
{
    found.get_one::<usize>(id)
}
