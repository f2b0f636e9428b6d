//! A call of the program.
ghost use Rattle.std.specs.Prelude.{◌≡◌, ◌≤◌, Err, codes, map, string_bytes, IfOk, IfErr, OnOk, OnErr};
ghost use Rattle.walk_text.specs.Words.{AreGood, AskForTree};
ghost use Rattle.program_parts.specs.Errors.{IsTold};
ghost use Rattle.walk_run.specs.Run.{BeginsWalk, IsFailed, PrintsWalk, TellsOfCall, Ends};

use crate::asked_walk::{AskedWalk, print_asked};
use crate::source::{Source, source_of};
use jwalk::Host;
use jwalk::file_system::FileSystem;
use program_parts::errors::Errors;
use std::alloc::Allocator;
use std::io::{Read, Write};
use walk_text::failure::Failure;
use walk_text::words::parse_words;

/// The walk of a call, under way.
type CallWalk<T, S, A> = AskedWalk<T, Source<S, A>, A>;

fn try_run<
    T: Host,
    S: FileSystem + Send + Sync + 'static,
    A: Allocator + Copy + Send + Sync + 'static,
    R: Read,
    W: Write,
    E: Write,
>(
    rt: &T,
    alloc: A,
    disk: S,
    words: &[String<A>],
    input: &mut R,
    out: &mut W,
    err: &mut Errors<E>,
) -> Result<u8, Failure>
    ensures status { IfOk result (λ status. status ≤ 1) }
    ensures begins { OnOk result (BeginsWalk (map string_bytes words.now) (R.remaining input.old)) }
    ensures bad_words { ¬ (AreGood (map string_bytes words.now)) → result ≡ Err Failure.BadWords }
    ensures told { IfErr result (TellsOfCall (map string_bytes words.now) (R.remaining input.old)) }
    ensures untouched { OnErr result (W.contents out.new ≡ W.contents out.old) }
    ensures unread { ¬ (AskForTree (map string_bytes words.now)) → input.new ≡ input.old }
    ensures printed { IfOk result (λ status. status ≡ 0 → PrintsWalk ⟦<CallWalk<T, S, A> as Iterator>⟧.next_gives S.FileSystem
        disk (map string_bytes words.now) (R.remaining input.old) (W.contents out.old) (W.contents out.new)) }
    ensures failed { IfOk result (λ status. status ≡ 1 → IsFailed ⟦<CallWalk<T, S, A> as Iterator>⟧.next_gives S.FileSystem
        disk (map string_bytes words.now) (R.remaining input.old) (W.contents out.old) (W.contents out.new)
        (IsTold E.contents (codes "walk") err.new)) }
{
    let Some(request) = parse_words(words) else {
        return Err(Failure::BadWords);
    };
    let source = source_of(alloc, disk, request.asked.tree, input)?;
    print_asked(rt, alloc, source, &request, out, err)
}

/// Walks as the words ask, prints one line for each answer, and returns the status. If the words ask for totals, it
/// prints these in place of the answers: how many files, directories, links and errors they are, and how many bytes.
///
/// The status is 0 if the walk ended and no answer was an error. It is 1 if one was, if memory ran out, or if the
/// output can't be written. It is 2 for bad words or a bad tree, and then nothing is printed. What is wrong is told by
/// `err`, unless the output can't be written.
///
/// The walk goes over the tree that the input describes, if the words ask for that, and over the disk otherwise; the
/// input isn't read then. If the words ask for batches or a crew, threads of `rt` read.
pub fn run<
    T: Host,
    S: FileSystem + Send + Sync + 'static,
    A: Allocator + Copy + Send + Sync + 'static,
    R: Read,
    W: Write,
    E: Write,
>(
    rt: &T,
    alloc: A,
    disk: S,
    words: &[String<A>],
    input: &mut R,
    out: &mut W,
    err: &mut Errors<E>,
) -> u8
    ensures status { result ≤ 2 }
    ensures ends { Ends (map string_bytes words.now) (R.remaining input.old) result }
    ensures bad_words { ¬ (AreGood (map string_bytes words.now)) → result ≡ 2 }
    ensures untouched { result ≡ 2 → W.contents out.new ≡ W.contents out.old }
    ensures unread { ¬ (AskForTree (map string_bytes words.now)) → input.new ≡ input.old }
    ensures printed { result ≡ 0 → PrintsWalk ⟦<CallWalk<T, S, A> as Iterator>⟧.next_gives S.FileSystem
        disk (map string_bytes words.now) (R.remaining input.old) (W.contents out.old) (W.contents out.new) }
    ensures failed { result ≡ 1 → IsFailed ⟦<CallWalk<T, S, A> as Iterator>⟧.next_gives S.FileSystem
        disk (map string_bytes words.now) (R.remaining input.old) (W.contents out.old) (W.contents out.new)
        (IsTold E.contents (codes "walk") err.new) }
    ensures refused { result ≡ 2 → IsTold E.contents (codes "walk") err.new }
{
    match try_run(rt, alloc, disk, words, input, out, err) {
        Ok(status) => status,
        Err(failure) => failure.report(err),
    }
}
