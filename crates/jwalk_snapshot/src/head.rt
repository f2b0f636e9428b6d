//! Of which call a snapshot is.
ghost use Rattle.std.specs.Prelude.{◌≡◌, ◌++◌, map, flat_map, length, string_bytes, OnOk, ◌<◌, ◌^◌};
ghost use Rattle.std.specs.List.{list_all};
ghost use Rattle.jwalk_snapshot.specs.Reading.{call_at, field_at, list_at, Gives};
ghost use Rattle.jwalk_snapshot.specs.Text.{call_of, call_text, ended, is_call, is_text, text_in};

use crate::error::SnapshotError;
use crate::numbers::{ended_at, is_text, number_at, push_ended, push_number};
use std::alloc::{AllocError, Global};

/// Of which call a snapshot is.
#[derive(Debug, PartialEq, Eq, Drop)]
pub struct Head<'a> {
    /// The root as it was written.
    pub root: &'a str,
    /// The same, made absolute.
    pub absolute: &'a str,
    /// The words that chose what is in the snapshot.
    pub words: Vec<&'a str>,
}

fn push_words(out: &mut String, words: &[&str]) -> Result<(), AllocError>
    ensures { OnOk result (string_bytes out.new ≡ string_bytes out.old ++ flat_map ended (map text_in words.now)) }
{
    for word in words {
        push_ended(out, word)?;
    }
    Ok(())
}

/// Adds the text of what a snapshot is of.
pub fn push_head(out: &mut String, head: &Head<'_>) -> Result<(), AllocError>
    ensures text { OnOk result (string_bytes out.new ≡ string_bytes out.old ++ call_text (call_of head.now)) }
    ensures fits { length (call_of head.now).words < 2 ^ 64 }
{
    push_number(out, head.words.len() as u64)?;
    push_ended(out, head.root)?;
    push_ended(out, head.absolute)?;
    push_words(out, &head.words)
}

/// Returns this many words from the front, and what is behind them.
fn words_at<'a>(
    alloc: Global,
    count: u64,
    text: &'a str,
) -> Result<(Vec<&'a str>, &'a str), SnapshotError>
    ensures { Gives (λ x. (map text_in x.0.items, x.1.now)) result (list_at (field_at 0) count text.now) }
{
    let mut words = Vec::new(alloc);
    let mut rest = text;
    for _ in 0..count {
        let Some((word, after)) = ended_at(rest) else {
            return Err(SnapshotError::Damaged);
        };
        words.push(word)?;
        rest = after;
    }
    Ok((words, rest))
}

/// Returns what a snapshot is of, and what is behind that.
#[tactic(auto, unfolding(crate::specs::Reading::call_at))]
pub fn head_at<'a>(alloc: Global, text: &'a str) -> Result<(Head<'a>, &'a str), SnapshotError>
    ensures { Gives (λ x. (call_of x.0, x.1.now)) result (call_at text.now) }
{
    let Some((count, rest)) = number_at(text) else {
        return Err(SnapshotError::Damaged);
    };
    let Some((root, rest)) = ended_at(rest) else {
        return Err(SnapshotError::Damaged);
    };
    let Some((absolute, rest)) = ended_at(rest) else {
        return Err(SnapshotError::Damaged);
    };
    let (words, rest) = words_at(alloc, count, rest)?;
    let head = Head {
        root,
        absolute,
        words,
    };
    Ok((head, rest))
}

/// Returns whether each word can be written.
fn are_words(words: &[&str]) -> bool
    ensures { result ≡ list_all is_text (map text_in words.now) }
{
    for word in words {
        if !is_text(word) {
            return false;
        }
    }
    true
}

/// Returns whether what a snapshot is of can be written.
pub fn is_head(head: &Head<'_>) -> bool
    ensures { result ≡ is_call (call_of head.now) }
{
    is_text(head.root) && is_text(head.absolute) && are_words(&head.words)
}
