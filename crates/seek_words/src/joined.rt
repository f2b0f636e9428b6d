//! Words of a call, where a size that begins with a hyphen belongs to the word in front of it.
ghost use Rattle.std.specs.Prelude.{◌≡◌, ◌++◌, ◌<◌, length, map, string_bytes, IfOk, OnOk, codes, ◌∷◌, []};
ghost use Rattle.std.specs.List.{list_all};
ghost use Rattle.seek_words.specs.Joined.{end_with_size, is_flag, is_negative, joined, joined_options, takes_size};

use std::alloc::{AllocError, Global};

/// The letters of options without a value.
const FLAGS: &str = "gFpisHIuLql01a";

fn is_flag(letter: u8) -> bool
    ensures { result ≡ is_flag letter }
{
    FLAGS.as_bytes().iter().any(|flag| *flag == letter)
}

fn are_flags(letters: &[u8]) -> bool
    ensures { result ≡ list_all is_flag letters.now }
{
    letters.iter().all(|letter| is_flag(*letter))
}

fn end_with_size(letters: &[u8]) -> bool
    ensures { result ≡ end_with_size letters.now }
{
    match letters {
        [flags @ .., b'S'] => are_flags(flags),
        _ => false,
    }
}

fn takes_size(word: &str) -> bool
    ensures { result ≡ takes_size word.now }
{
    if word == "--size" {
        return true;
    }
    match word.as_bytes() {
        [b'-', letters @ ..] => end_with_size(letters),
        _ => false,
    }
}

fn is_negative(word: &str) -> bool
    ensures { result ≡ is_negative word.now }
{
    match word.as_bytes() {
        [b'-', digit, ..] => digit.is_ascii_digit(),
        _ => false,
    }
}

fn push_all(words: &[String], all: &mut Vec<String>) -> Result<(), AllocError>
    ensures { OnOk result (map string_bytes all.new.items ≡ map string_bytes all.old.items ++ map string_bytes words.now) }
{
    for word in words {
        all.push(word.clone()?)?;
    }
    Ok(())
}

fn push_pair(option: &str, size: &str, all: &mut Vec<String>) -> Result<(), AllocError>
    ensures { OnOk result (map string_bytes all.new.items ≡ map string_bytes all.old.items ++ (option.now ++ codes "=" ++ size.now) ∷ []) }
{
    let alloc = *all.allocator();
    let mut pair = String::from_str(alloc, option)?;
    pair.push('=')?;
    pair.push_str(size)?;
    all.push(pair)?;
    Ok(())
}

/// Appends the first of these words, joined to the second if that is its size, or all of them if the first ends the
/// options. Returns the others.
fn push_next<'w>(words: &'w [String], all: &mut Vec<String>) -> Result<&'w [String], AllocError>
    ensures joined { IfOk result (λ rest. map string_bytes all.new.items ++ joined_options (map string_bytes rest.now)
        ≡ map string_bytes all.old.items ++ joined_options (map string_bytes words.entry.now)) }
    ensures fewer { IfOk result (λ rest. 0 < length words.entry.now → length rest.now < length words.entry.now) }
{
    match words {
        [end, ..] if end.as_str() == "--" => {
            push_all(words, all)?;
            Ok(&[])
        }
        [option, size, rest @ ..] if takes_size(option) && is_negative(size) => {
            push_pair(option, size, all)?;
            Ok(rest)
        }
        [word, rest @ ..] => {
            all.push(word.clone()?)?;
            Ok(rest)
        }
        [] => Ok(words),
    }
}

/// Returns the words of a call, where the option for sizes and a size behind it that begins with a hyphen are one word:
/// `-S` and `-1k` are `-S=-1k`. The first word is the program's name, and behind `--` no word is an option.
///
/// # Errors
///
/// If memory runs out.
pub fn joined_words(alloc: Global, words: &[String]) -> Result<Vec<String>, AllocError>
    ensures { IfOk result (λ all. map string_bytes all.items ≡ joined (map string_bytes words.now)) }
{
    let mut all = Vec::with_capacity(alloc, words.len())?;
    let [name, behind @ ..] = words else {
        return Ok(all);
    };
    all.push(name.clone()?)?;
    let mut rest = behind;
    while !rest.is_empty() {
        rest = push_next(rest, &mut all)?;
    }
    Ok(all)
}
