//! The lines of answers whose memory is of any allocator.
use crate::answers::letter;
use jwalk::path_text::join;
use jwalk::{ClientState, DirEntry, Error};
use std::alloc::{AllocError, Allocator, Global};

/// An answer of a walk.
pub type Given<C, A> = Result<DirEntry<C, A>, Error<A>>;

/// The state of an entry, which ends the line of the entry.
pub trait Shown {
    /// Adds the state to a line.
    fn push_to(&self, line: &mut String) -> Result<(), AllocError>;
}

/// Adds nothing.
impl Shown for () {
    fn push_to(&self, _line: &mut String) -> Result<(), AllocError> {
        Ok(())
    }
}

/// Adds the text, if there is one.
impl<A: Allocator + Copy> Shown for Option<String<A>> {
    fn push_to(&self, line: &mut String) -> Result<(), AllocError> {
        match self {
            Some(text) => write!(line, " with {text}"),
            None => Ok(()),
        }
    }
}

/// The kind is the file system's, or the directory that a loop leads to.
fn push_kind<A: Allocator + Copy>(text: &mut String, error: &Error<A>) -> Result<(), AllocError> {
    if let Some(ancestor) = error.loop_ancestor() {
        return write!(text, "loop {ancestor}");
    }
    match error.io_error() {
        Some(err) => {
            let kind = err.kind();
            write!(text, "{kind:?}")
        }
        None => text.push_str("none"),
    }
}

fn error_line<A: Allocator + Copy>(alloc: Global, error: &Error<A>) -> Result<String, AllocError> {
    let depth = error.depth();
    let path = error.path().unwrap_or("-");
    let mut text = format!(in alloc; "! {depth} {path} ")?;
    push_kind(&mut text, error)?;
    Ok(text)
}

fn entry_line<C: ClientState, A: Allocator + Copy>(
    alloc: Global,
    entry: &DirEntry<C, A>,
) -> Result<String, AllocError>
where
    C::DirEntryState: Shown,
{
    let depth = entry.depth();
    let letter = letter(entry);
    let path = join(alloc, entry.parent_path(), entry.file_name())?;
    let mut text = format!(in alloc; "{depth} {letter} {path}")?;
    entry.client_state.push_to(&mut text)?;
    if let Some(error) = entry.read_children.as_ref().and_then(|c| c.error()) {
        text.push_str(" ! ")?;
        push_kind(&mut text, error)?;
    }
    Ok(text)
}

/// Returns whether this is the line of an answer. The memory for it isn't that of the answer.
pub fn is_line<C: ClientState, A: Allocator + Copy>(
    alloc: Global,
    answer: &Given<C, A>,
    wanted: &str,
) -> bool
where
    C::DirEntryState: Shown,
{
    let line = match answer {
        Ok(entry) => entry_line(alloc, entry),
        Err(error) => error_line(alloc, error),
    };
    matches!(&line, Ok(line) if line.as_str() == wanted)
}

/// Returns whether these answers are the first of these lines.
pub fn are_first<C: ClientState, A: Allocator + Copy>(
    alloc: Global,
    answers: &[Given<C, A>],
    lines: &[&str],
) -> bool
where
    C::DirEntryState: Shown,
{
    for (answer, wanted) in answers.iter().zip(lines) {
        if !is_line(alloc, answer, wanted) {
            return false;
        }
    }
    answers.len() <= lines.len()
}

/// Returns whether an answer reports that memory ran out.
pub fn is_refusal<C: ClientState, A: Allocator + Copy>(answer: Option<&Given<C, A>>) -> bool {
    matches!(answer, Some(Err(error)) if error.is_memory())
}

/// An answer, where a walk must yield a line.
#[derive(Clone, Copy)]
pub(crate) enum Met {
    /// That line.
    Line,
    /// The error that memory ran out.
    Refusal,
    /// Nothing, or anything else.
    Other,
}

pub(crate) fn what_came<C: ClientState, A: Allocator + Copy>(
    alloc: Global,
    answer: &Option<Given<C, A>>,
    line: &str,
) -> Met
where
    C::DirEntryState: Shown,
{
    match answer {
        Some(answer) if is_refusal(Some(answer)) => Met::Refusal,
        Some(answer) if is_line(alloc, answer, line) => Met::Line,
        _ => Met::Other,
    }
}
