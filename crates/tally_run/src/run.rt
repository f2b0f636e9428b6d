//! A call of the program.
ghost use Rattle.std.specs.Prelude.{◌≡◌, ◌<◌, ◌≤◌, ◌⊎◌, true, false, codes, flat_map, map, string_bytes, Ok, IfOk, OnOk};
ghost use Rattle.std.specs.Io.KnownBytes.{Appends};
ghost use Rattle.tally_text.specs.Nodes.{trees_of};
ghost use Rattle.program_parts.specs.Errors.{IsTold};
ghost use Rattle.tally_run.specs.Run.{Ends, IsDone, IsFailed, WritesAsked, WritesIncluding};
ghost use Rattle.tally_run.specs.Written.{are_lines, scale_asked, separator_of, style_asked, table_of, width_of};
ghost use Rattle.tally_run.specs.Written.{document_text, trees_text, AreNone, AreNoneIn, Finishes, FinishesAs};

use crate::exclude_files::{texts_at, with_texts};
use crate::failure::Failure;
use crate::progress::{Progress, Report};
use crate::results::{Lines, Results, Shape};
use crate::screen::Screen;
use crate::walks::{HonouringWalk, PlainWalk, Walks};
use jwalk::Host;
use jwalk::file_system::FileSystem;
use jwalk_ignore::texts::Texts;
use program_parts::errors::Errors;
use program_parts::gathered::Gathered;
use program_parts::halt::Halt;
use program_parts::paths::Style;
use std::alloc::{AllocError, Global};
use std::io::Write;
use tally_text::document::document;
use tally_text::node::Node;
use tally_text::nodes::Nodes;
use tally_text::scale::Scale;
use tally_text::table::push_table;
use tally_words::asked::Asked;
use tally_words::form::Form;
use tally_words::unit::Unit;
use tally_words::words::read_words;

fn are_lines(form: Form) -> bool
    ensures { result ≡ are_lines form }
{
    match form {
        Form::Lines | Form::ZeroLines => true,
        Form::Table | Form::Json => false,
    }
}

/// Returns how sizes are written: in the unit that is asked for, or else in lines in units of 1,024 bytes, and in the
/// binary unit that suits each in other forms.
fn scale_of(asked: &Asked<'_>) -> Scale
    ensures { result ≡ scale_asked asked.now }
{
    match asked.unit {
        Some(Unit::Binary) => Scale::Human,
        Some(Unit::Decimal) => Scale::Decimal,
        Some(Unit::Kibibyte) => Scale::Kibibytes,
        Some(Unit::Mebibyte) => Scale::Mebibytes,
        Some(Unit::Byte) => Scale::Bytes,
        None if are_lines(asked.form) => Scale::Kibibytes,
        None => Scale::Human,
    }
}

fn separator_of(form: Form) -> u8
    ensures { result ≡ separator_of form }
{
    match form {
        Form::ZeroLines => 0,
        Form::Lines | Form::Table | Form::Json => b'\n',
    }
}

fn style_of(asked: &Asked<'_>, screen: Screen) -> Style
    ensures { result ≡ style_asked asked.now screen }
{
    Style {
        here: false,
        to_terminal: screen.is_terminal,
        separator: separator_of(asked.form),
    }
}

fn shape_of(alloc: Global, asked: &Asked<'_>, screen: Screen) -> Result<Shape, AllocError>
    ensures { IfOk result (AreNoneIn asked.now screen) }
{
    if are_lines(asked.form) {
        let lines = Lines::new(alloc, scale_of(asked), style_of(asked, screen))?;
        return Ok(Shape::Lines(lines));
    }
    Ok(Shape::Trees(Nodes::new(alloc, asked.largest)))
}

fn results_of(alloc: Global, asked: &Asked<'_>, screen: Screen) -> Result<Results, AllocError>
    ensures { IfOk result (AreNone asked.now screen) }
{
    Ok(Results {
        shape: shape_of(alloc, asked, screen)?,
        threshold: asked.threshold,
        total: 0,
    })
}

/// Returns how wide the bars of a table may be, if it has some: those for a terminal do.
fn width_of(screen: Screen) -> Option<usize>
    ensures { result ≡ width_of screen }
{
    if screen.is_terminal {
        Some(screen.width)
    } else {
        None
    }
}

fn tables_of(
    alloc: Global,
    asked: &Asked<'_>,
    screen: Screen,
    trees: &[Node],
) -> Result<Vec<u8, Global>, AllocError>
    ensures { IfOk result (λ text. text.items ≡ flat_map (table_of asked.now screen) trees.now) }
{
    let mut text = Vec::new(alloc);
    for root in trees {
        let width = width_of(screen);
        push_table(scale_of(asked), width, screen.is_terminal, root, &mut text)?;
    }
    Ok(text)
}

/// A line feed ends it.
fn document_of(alloc: Global, trees: &[Node]) -> Result<Vec<u8, Global>, AllocError>
    ensures { IfOk result (λ text. text.items ≡ document_text trees.now) }
{
    let text = document(alloc, trees)?;
    let mut bytes = Vec::new(alloc);
    bytes.extend_from_slice(text.as_bytes())?;
    bytes.push(b'\n')?;
    Ok(bytes)
}

fn text_of(
    alloc: Global,
    asked: &Asked<'_>,
    screen: Screen,
    trees: &[Node],
) -> Result<Vec<u8, Global>, AllocError>
    ensures { IfOk result (λ text. text.items ≡ trees_text asked.now screen trees.now) }
{
    match asked.form {
        Form::Json => document_of(alloc, trees),
        Form::Table | Form::Lines | Form::ZeroLines => tables_of(alloc, asked, screen, trees),
    }
}

fn write_trees<W: Write>(
    alloc: Global,
    asked: &Asked<'_>,
    screen: Screen,
    nodes: Nodes,
    out: &mut W,
) -> Result<(), Halt>
    ensures { OnOk result (Appends (W.contents out.old) (W.contents out.new)
        (trees_text asked.now screen (trees_of nodes))) }
{
    let trees = nodes.into_trees();
    let bytes = text_of(alloc, asked, screen, trees.as_slice())?;
    Gathered { bytes }.finish(out)
}

fn finish_shape<W: Write>(
    alloc: Global,
    asked: &Asked<'_>,
    screen: Screen,
    shape: Shape,
    out: &mut W,
) -> Result<(), Halt>
    ensures { OnOk result (FinishesAs asked.now screen shape (W.contents out.old) (W.contents out.new)) }
{
    match shape {
        Shape::Lines(mut lines) => lines.finish(out),
        Shape::Trees(nodes) => write_trees(alloc, asked, screen, nodes, out),
    }
}

fn finish<W: Write>(
    alloc: Global,
    asked: &Asked<'_>,
    screen: Screen,
    results: Results,
    out: &mut W,
) -> Result<(), Failure>
    ensures { OnOk result (Finishes asked.now screen results (W.contents out.old) (W.contents out.new)) }
{
    let shape = results.with_total(alloc, asked.total, out)?;
    finish_shape(alloc, asked, screen, shape, out)?;
    Ok(())
}

/// Returns whether a line tells how far the call is: on a terminal, unless lines of results are written to one meanwhile.
fn tells(asked: &Asked<'_>, screen: Screen) -> bool {
    screen.shows_errors && !(screen.is_terminal && are_lines(asked.form))
}

/// Returns whether there was no error.
fn tally_all<
    T: Host,
    S: FileSystem + Send + Sync + 'static,
    X: Texts + Send + Sync + 'static,
    W: Write,
    E: Report,
>(
    rt: &T,
    alloc: Global,
    cores: usize,
    disk: S,
    texts: X,
    asked: &Asked<'_>,
    screen: Screen,
    out: &mut W,
    err: &mut E,
) -> Result<bool, Failure>
    ensures { IfOk result (WritesAsked S.FileSystem X.Texts ⟦<PlainWalk<T, S> as Iterator>⟧.next_gives
        ⟦<HonouringWalk<T, S, X> as Iterator>⟧.next_gives disk texts cores screen asked.now (W.contents out.old) (W.contents out.new)) }
{
    let walks = Walks::new(rt, alloc, cores, asked, screen, disk, texts)?;
    let mut results = results_of(alloc, asked, screen)?;
    let clean = walks.count_asked(alloc, &mut results, out, err)?;
    err.wipe();
    finish(alloc, asked, screen, results, out)?;
    Ok(clean)
}

/// Counts as is asked for, where lines of files that are named come before those of the call. Returns whether there was no
/// error.
fn tally<
    T: Host,
    S: FileSystem + Send + Sync + 'static,
    X: Texts + Send + Sync + 'static,
    W: Write,
    E: Report,
>(
    rt: &T,
    alloc: Global,
    cores: usize,
    disk: S,
    texts: X,
    asked: Asked<'_>,
    screen: Screen,
    out: &mut W,
    err: &mut E,
) -> Result<bool, Failure>
    ensures { IfOk result (WritesIncluding S.FileSystem X.Texts ⟦<PlainWalk<T, S> as Iterator>⟧.next_gives
        ⟦<HonouringWalk<T, S, X> as Iterator>⟧.next_gives disk texts cores screen asked.entry (W.contents out.old) (W.contents out.new)) }
{
    let read = texts_at(alloc, &texts, screen, asked.exclude_files.as_slice())?;
    let asked = with_texts(alloc, asked, read.as_slice())?;
    tally_all(rt, alloc, cores, disk, texts, &asked, screen, out, err)
}

/// What ended the call before its end is told.
fn status_of<E: Write>(alloc: Global, ended: Result<bool, Failure>, err: &mut Errors<E>) -> u8
    ensures status { result ≤ 1 }
    ensures clean { result ≡ 0 → ended ≡ Ok true }
    ensures none_told { ended ≡ Ok true → result ≡ 0 }
    ensures told { result ≡ 1 → (ended ≡ Ok false) ⊎ IsTold E.contents (codes "tally") err.new }
{
    match ended {
        Ok(clean) => u8::from(!clean),
        Err(failure) => {
            failure.tell(alloc, err);
            1
        }
    }
}

/// Counts what is below each root, as the words ask, of which the first is the program's name. Writes the results, and
/// tells errors by `err`. Returns the status.
///
/// The status is 0 if all was counted and there was no error. It is 1 if there was one, if memory ran out, or if the
/// output can't be written: if not all was written, `err` tells why last. It is 2 for bad words, and then nothing is
/// printed.
pub fn run<
    T: Host,
    S: FileSystem + Send + Sync + 'static,
    X: Texts + Send + Sync + 'static,
    W: Write,
    E: Write,
>(
    rt: &T,
    alloc: Global,
    cores: usize,
    disk: S,
    texts: X,
    words: &[String],
    screen: Screen,
    out: &mut W,
    err: &mut Errors<E>,
) -> u8
    ensures status { result ≤ 2 }
    ensures ends { Ends (map string_bytes words.now) result }
    ensures untouched { result ≡ 2 → W.contents out.new ≡ W.contents out.old }
    ensures done { result ≡ 0 → IsDone S.FileSystem X.Texts ⟦<PlainWalk<T, S> as Iterator>⟧.next_gives
        ⟦<HonouringWalk<T, S, X> as Iterator>⟧.next_gives disk texts cores screen (map string_bytes words.now)
        (W.contents out.old) (W.contents out.new) }
    ensures failed { result ≡ 1 → IsFailed S.FileSystem X.Texts ⟦<PlainWalk<T, S> as Iterator>⟧.next_gives
        ⟦<HonouringWalk<T, S, X> as Iterator>⟧.next_gives disk texts cores screen (map string_bytes words.now)
        (W.contents out.old) (W.contents out.new) (IsTold E.contents (codes "tally") err.new) }
    ensures refused { result ≡ 2 → IsTold E.contents (codes "tally") err.new }
{
    match read_words(alloc, words) {
        Ok(asked) => {
            let mut told = Progress::new(rt, err, tells(&asked, screen));
            let ended = tally(rt, alloc, cores, disk, texts, asked, screen, out, &mut told);
            told.wipe();
            status_of(alloc, ended, err)
        }
        Err(refusal) => {
            let (columns, status) = (Some(screen.width), refusal.status());
            err.refuse(alloc, columns, "tally", &refusal, status, out)
        }
    }
}
