//! What walks yield, beside what they must.
use crate::planted::{Row, Yields};
use jwalk_ignore::states::RulesState;
use std::alloc::{AllocError, Global};
use test_fixtures::answers::Answer;

/// The states of a walk without states of its own.
pub(crate) type Rules = (RulesState, ());

/// Adds a path on a line, without `/r/` in front.
fn push_path(text: &mut String, path: &str) -> Result<(), AllocError> {
    text.push_str(path.strip_prefix("/r/").unwrap_or(path))?;
    text.push_str("\n")
}

/// Adds the line of an item that isn't the root.
fn push_item(text: &mut String, item: &Answer<Rules>) -> Result<(), AllocError> {
    match item {
        Ok(entry) if entry.depth == 0 => Ok(()),
        Ok(entry) => push_path(text, entry.path()?.as_str()),
        Err(error) => {
            let depth = error.depth();
            write!(text, "! {depth} ")?;
            push_path(text, error.path().unwrap_or("?"))
        }
    }
}

/// Returns the items without the root, each on a line.
fn text_of(alloc: Global, answers: &[Answer<Rules>]) -> Result<String, AllocError> {
    let mut text = String::new(alloc);
    for answer in answers {
        push_item(&mut text, answer)?;
    }
    Ok(text)
}

/// Returns whether a walk yields what its row says.
pub(crate) fn is_right(
    alloc: Global,
    row: &Row,
    answers: &[Answer<Rules>],
) -> Result<bool, AllocError> {
    match row.yields {
        Yields::Items(items) => Ok(text_of(alloc, answers)?.as_str() == items),
        Yields::Numbers(entries, errors) => {
            let mut failed: usize = 0;
            for answer in answers {
                if answer.is_err() {
                    failed = failed.saturating_add(1);
                }
            }
            let all = entries.saturating_add(errors).saturating_add(1);
            Ok(failed == errors && answers.len() == all)
        }
    }
}
