//! The beginning and the end of a call of the program.
ghost use Rattle.std.specs.Prelude.{◌≡◌, ◌<◌, ◌≤◌, ◌⊎◌, true, false, codes, map, string_bytes, IfOk, IfErr, IsOkAnd, OnOk};
ghost use Rattle.program_parts.specs.Errors.{IsTold};
ghost use Rattle.seek_words.specs.Refusal.{status_of as status_for};
ghost use Rattle.seek_found.specs.Call.{succeeds, AskToSearch, EndsUnsearched};

use crate::sought::Sought;
use program_parts::errors::Errors;
use program_parts::halt::Halt;
use program_parts::refusal::CommonRefusal;
use seek_words::asked::Asked;
use seek_words::refusal::Refusal;
use seek_words::words::read_words;
use std::alloc::Global;
use std::io::Write;

/// How programs are started for entries, for words that ask `seek` to do it.
const NOT_STARTED: &str = "seek: programs aren't started: write `seek -0 .. | xargs -0 COMMAND`\n";

/// Returns whether a word is an option by which `fd` starts programs.
fn starts_program(word: &str) -> bool {
    matches!(word, "-x" | "-X" | "--exec" | "--exec-batch")
}

/// Returns whether bad words ask to start a program.
fn asks_to_start(refusal: &Refusal<'_>, words: &[String]) -> bool {
    match refusal {
        Refusal::Common(CommonRefusal::Words(_)) => words
            .iter()
            .any(|word| starts_program(word.as_str())),
        _ => false,
    }
}

/// Prints help or the version, or tells why words are refused. For words that ask to start a program it says how that
/// is done.
fn refuse_words<W: Write, E: Write>(
    alloc: Global,
    columns: Option<usize>,
    refusal: &Refusal<'_>,
    words: &[String],
    out: &mut W,
    err: &mut Errors<E>,
) -> u8
    ensures refused { 0 < status_for refusal.now → result ≡ status_for refusal.now }
    ensures text { status_for refusal.now ≡ 0 → result ≤ 1 }
    ensures untouched { result ≡ 2 → W.contents out.new ≡ W.contents out.old }
    ensures told { 0 < result → IsTold E.contents (codes "seek") err.new }
{
    let status = refusal.status();
    if status > 0 && asks_to_start(refusal, words) {
        return err.refuse(alloc, columns, "seek", &NOT_STARTED, status, out);
    }
    err.refuse(alloc, columns, "seek", refusal, status, out)
}

/// The end of a search.
#[derive(Clone, Copy, Debug, PartialEq, Eq)]
pub struct Ended {
    /// There was no error.
    pub clean: bool,
    /// The limit of finds was reached.
    pub full: bool,
}

/// A quiet search succeeds if an entry was found.
fn succeeds(quiet: bool, ended: Ended) -> bool
    ensures { result ≡ succeeds quiet ended }
{
    if quiet { ended.full } else { ended.clean }
}

/// Returns the status of a search. Tells the reason for an early end.
pub fn status_of<E: Write>(
    alloc: Global,
    quiet: bool,
    ended: Result<Ended, Halt>,
    err: &mut Errors<E>,
) -> u8
    ensures status { result ≤ 1 }
    ensures done { result ≡ 0 → IsOkAnd ended (λ it. succeeds quiet it ≡ true) }
    ensures all { IsOkAnd ended (λ it. succeeds quiet it ≡ true) → result ≡ 0 }
    ensures told { result ≡ 1 → IsOkAnd ended (λ it. succeeds quiet it ≡ false) ⊎ IsTold E.contents (codes "seek") err.new }
{
    match ended {
        Ok(ended) => u8::from(!succeeds(quiet, ended)),
        Err(halt) => {
            err.tell_halt(alloc, "seek", halt);
            1
        }
    }
}

/// Reads the words of a call, and the patterns among them. The first word is the program's name. If `columns` is known, it
/// is the greatest width of lines of help.
///
/// # Errors
///
/// If there is nothing to search for. Then the text that is asked for is printed, or it is told why there is nothing, and
/// the error is the status of the program.
pub fn read_call<'w, W: Write, E: Write>(
    alloc: Global,
    columns: Option<usize>,
    words: &'w [String],
    out: &mut W,
    err: &mut Errors<E>,
) -> Result<(Asked<'w>, Sought), u8>
    ensures asked { IfOk result (AskToSearch (map string_bytes words.entry.now)) }
    ensures ended { IfErr result (EndsUnsearched (map string_bytes words.entry.now)) }
    ensures untouched { IfErr result (λ status. status ≡ 2 → W.contents out.new ≡ W.contents out.old) }
    ensures told { IfErr result (λ status. 0 < status → IsTold E.contents (codes "seek") err.new) }
    ensures unwritten { OnOk result (W.contents out.new ≡ W.contents out.old) }
{
    let asked = match read_words(alloc, words) {
        Ok(asked) => asked,
        Err(refusal) => return Err(refuse_words(alloc, columns, &refusal, words, out, err)),
    };
    match Sought::read(alloc, &asked) {
        Ok(sought) => Ok((asked, sought)),
        Err(bad) => Err(bad.tell(alloc, err)),
    }
}
