//! What of a tree is compared, by the words and by the snapshot.
ghost use Rattle.std.specs.Prelude.{◌≡◌, map, string_bytes, IfOk};
ghost use Rattle.jwalk_snapshot.specs.Text.{text_in};
ghost use Rattle.program_parts.specs.Values.{texts_of};
ghost use Rattle.since_parts.specs.Choice.{words_of};
ghost use Rattle.since_run.specs.Run.{asks_choice, words_in, IsChoice};

use since_parts::choice::Choice;
use since_parts::failure::Failure;
use since_words::asked::Asked;
use std::alloc::{AllocError, Global};

/// Returns whether words ask for what is compared.
fn asks_choice(asked: &Asked<'_>) -> bool
    ensures { result ≡ asks_choice asked.now }
{
    asked.exclude_hidden
        || asked.one_file_system
        || asked.depth.is_some()
        || !asked.excludes.is_empty()
        || asked.ignore
}

/// Returns texts of one's own.
fn owned(alloc: Global, texts: &[&str]) -> Result<Vec<String>, AllocError>
    ensures { IfOk result (λ own. map string_bytes own.items ≡ texts_of texts.now) }
{
    let mut own = Vec::new(alloc);
    for text in texts {
        own.push(String::from_str(alloc, text)?)?;
    }
    Ok(own)
}

/// Returns what the words of a call ask for.
pub(crate) fn choice_in(alloc: Global, asked: &Asked<'_>) -> Result<Choice, AllocError>
    ensures { IfOk result (λ choice. words_of choice ≡ words_in asked.now) }
{
    let excludes = owned(alloc, &asked.excludes)?;
    Ok(Choice {
        exclude_hidden: asked.exclude_hidden,
        one_file_system: asked.one_file_system,
        depth: asked.depth,
        excludes,
        ignore: asked.ignore,
    })
}

/// Returns words with a space in front of each.
fn spaced(alloc: Global, words: &[String]) -> Result<String, AllocError> {
    let mut text = String::new(alloc);
    for word in words {
        text.push_str(" ")?;
        text.push_str(word.as_str())?;
    }
    Ok(text)
}

/// Returns what is said where other words are asked for than those of a file.
fn said_of_others(alloc: Global, held: &Choice) -> Result<String, AllocError> {
    let words = held.words(alloc)?;
    if words.is_empty() {
        return String::from_str(alloc, "was saved without such words: with them, add --save");
    }
    let words = spaced(alloc, &words)?;
    format!(in alloc; "was saved with{words}: with other words, add --save")
}

/// Returns what is compared with a snapshot that has these words: what it is of, or what the words of the call ask for
/// if it is replaced.
pub(crate) fn choice_for(
    alloc: Global,
    asked: &Asked<'_>,
    words: &[&str],
) -> Result<Choice, Failure>
    ensures { IfOk result (IsChoice asked.now (map text_in words.now)) }
{
    let Some(held) = Choice::read(alloc, words)? else {
        let what = "was saved with words that aren't known";
        return Err(Failure::at(alloc, asked.file, &what));
    };
    if !asks_choice(asked) {
        return Ok(held);
    }
    let choice = choice_in(alloc, asked)?;
    if asked.save {
        return Ok(choice);
    }
    if choice.has_words(alloc, words)? {
        return Ok(choice);
    }
    let said = said_of_others(alloc, &held)?;
    Err(Failure::at(alloc, asked.file, &said))
}
