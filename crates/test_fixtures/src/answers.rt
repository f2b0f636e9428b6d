//! Answers as one text, to be compared with the text that is wanted.
//!
//! An error is `! DEPTH PATH KIND`. The path is `-` if there is none, and the kind is `memory` if memory ran out. A
//! loop has `loop ANCESTOR` for the kind. An entry is `DEPTH LETTER PATH`, followed by the error of its directory if
//! that could not be read.
use jwalk_job::client_state::ClientState;
use jwalk_job::dir_entry::DirEntry;
use jwalk_job::error::Error;
use jwalk_model::file_type::FileType;
use std::alloc::{AllocError, Allocator, Global};

/// An answer of a walk.
pub type Answer<C = ((), ())> = Result<DirEntry<C>, Error>;

/// Returns the letter of a type, a capital if a link was met.
pub fn letter<C: ClientState, A: Allocator + Copy>(entry: &DirEntry<C, A>) -> &'static str {
    match (entry.file_type(), entry.path_is_symlink()) {
        (FileType::Dir, false) => "d",
        (FileType::Dir, true) => "D",
        (FileType::File, false) => "f",
        (FileType::File, true) => "F",
        (FileType::Symlink, _) => "L",
        (FileType::Other, _) => "o",
    }
}

fn push_kind(text: &mut String, error: &Error) -> Result<(), AllocError> {
    if let Some(ancestor) = error.loop_ancestor() {
        return write!(text, "loop {ancestor}");
    }
    let Some(err) = error.io_error() else {
        return text.push_str(if error.is_memory() { "memory" } else { "none" });
    };
    let kind = err.kind();
    write!(text, "{kind:?}")
}

fn push_error(text: &mut String, error: &Error) -> Result<(), AllocError> {
    let depth = error.depth();
    let path = error.path().unwrap_or("-");
    write!(text, "! {depth} {path} ")?;
    push_kind(text, error)
}

fn push_entry(text: &mut String, entry: &DirEntry<((), ())>) -> Result<(), AllocError> {
    let depth = entry.depth();
    let letter = letter(entry);
    write!(text, "{depth} {letter} ")?;
    text.push_str(entry.path()?.as_str())?;
    if let Some(error) = entry.read_children.as_ref().and_then(|c| c.error()) {
        text.push_str(" ")?;
        push_error(text, error)?;
    }
    Ok(())
}

fn push_answer(text: &mut String, answer: &Answer) -> Result<(), AllocError> {
    if !text.is_empty() {
        text.push_str("; ")?;
    }
    match answer {
        Ok(entry) => push_entry(text, entry),
        Err(error) => push_error(text, error),
    }
}

/// Returns whether these are the lines of answers, separated by `; `.
pub fn are_lines(alloc: Global, answers: &[Answer], wanted: &str) -> bool {
    let mut text = String::new(alloc);
    for answer in answers {
        if push_answer(&mut text, answer).is_err() {
            return false;
        }
    }
    text.as_str() == wanted
}
