//! What of a tree is compared.
ghost use Rattle.std.specs.Prelude.{◌≡◌, ◌++◌, true, map, string_bytes, IfOk, IfSome, OnOk};
ghost use Rattle.since_parts.specs.Choice.{depth_of, depth_words, has_rules, keeps_names, line_word, words_if, words_of};
ghost use Rattle.jwalk_snapshot.specs.Text.{text_in};

use std::alloc::{AllocError, Global};

/// What of a tree is compared. A snapshot keeps the words for it.
#[derive(Drop)]
pub struct Choice {
    /// Hidden names are left out, and what is below them.
    pub exclude_hidden: bool,
    /// What is in directories on other file systems than the root is left out.
    pub one_file_system: bool,
    /// The greatest depth, if there is one: 1 for what is in the root.
    pub depth: Option<usize>,
    /// Lines of an ignore file. What they name is left out.
    pub excludes: Vec<String>,
    /// What ignore files name is left out.
    pub ignore: bool,
}

/// How the word for the greatest depth begins.
const DEPTH: &str = "--max-depth=";

/// How the word for a line begins.
const LINE: &str = "--exclude=";

fn push_word_if(
    alloc: Global,
    is_chosen: bool,
    word: &str,
    words: &mut Vec<String>,
) -> Result<(), AllocError>
    ensures { OnOk result (map string_bytes words.new.items ≡ map string_bytes words.old.items ++ words_if is_chosen word.now) }
{
    if is_chosen {
        words.push(String::from_str(alloc, word)?)?;
    }
    Ok(())
}

fn push_depth(
    alloc: Global,
    depth: Option<usize>,
    words: &mut Vec<String>,
) -> Result<(), AllocError>
    ensures { OnOk result (map string_bytes words.new.items ≡ map string_bytes words.old.items ++ depth_words depth) }
{
    if let Some(depth) = depth {
        words.push(format!(in alloc; "{DEPTH}{depth}")?)?;
    }
    Ok(())
}

fn push_lines(alloc: Global, lines: &[String], words: &mut Vec<String>) -> Result<(), AllocError>
    ensures { OnOk result (map string_bytes words.new.items
        ≡ map string_bytes words.old.items ++ map line_word (map string_bytes lines.now)) }
{
    for line in lines {
        words.push(format!(in alloc; "{LINE}{line}")?)?;
    }
    Ok(())
}

/// Returns whether words are these texts.
fn are_texts(words: &[String], texts: &[&str]) -> bool
    ensures { result ≡ true → map string_bytes words.now ≡ map text_in texts.now }
{
    match (words, texts) {
        ([], []) => true,
        ([word, words @ ..], [text, texts @ ..]) => {
            word.as_str() == *text && are_texts(words, texts)
        }
        _ => false,
    }
}

/// Returns what may be chosen by words. Which words these are isn't asked yet.
fn guess(alloc: Global, words: &[&str]) -> Result<Choice, AllocError> {
    let mut choice = Choice {
        exclude_hidden: false,
        one_file_system: false,
        depth: None,
        excludes: Vec::new(alloc),
        ignore: false,
    };
    for word in words {
        if let Some(depth) = word.strip_prefix(DEPTH) {
            choice.depth = depth.parse().ok();
        } else if let Some(line) = word.strip_prefix(LINE) {
            choice.excludes.push(String::from_str(alloc, line)?)?;
        } else if *word == "--exclude-hidden" {
            choice.exclude_hidden = true;
        } else if *word == "--ignore" {
            choice.ignore = true;
        } else {
            choice.one_file_system = true;
        }
    }
    Ok(choice)
}

impl Choice {
    /// Returns the greatest depth: any, if none is chosen.
    pub fn max_depth(&self) -> usize
        ensures { result ≡ depth_of self.now }
    {
        self.depth.unwrap_or(usize::MAX)
    }

    /// Returns whether names are left out by rules: by lines, or by those of ignore files.
    pub fn has_rules(&self) -> bool
        ensures { result ≡ has_rules self.now }
    {
        self.ignore || !self.excludes.is_empty()
    }

    /// Returns whether of a directory that is read no name is left out.
    pub fn keeps_names(&self) -> bool
        ensures { result ≡ keeps_names self.now }
    {
        !self.exclude_hidden && !self.has_rules()
    }

    /// Returns the words for it, each in the one way that snapshots have it.
    ///
    /// # Errors
    ///
    /// If memory runs out.
    pub fn words(&self, alloc: Global) -> Result<Vec<String>, AllocError>
        ensures { IfOk result (λ words. map string_bytes words.items ≡ words_of self.now) }
    {
        let mut words = Vec::new(alloc);
        push_word_if(alloc, self.exclude_hidden, "--exclude-hidden", &mut words)?;
        push_word_if(alloc, self.one_file_system, "--one-file-system", &mut words)?;
        push_depth(alloc, self.depth, &mut words)?;
        push_lines(alloc, &self.excludes, &mut words)?;
        push_word_if(alloc, self.ignore, "--ignore", &mut words)?;
        Ok(words)
    }

    /// Returns whether these are the words for it.
    ///
    /// # Errors
    ///
    /// If memory runs out.
    pub fn has_words(&self, alloc: Global, words: &[&str]) -> Result<bool, AllocError>
        ensures { IfOk result (λ has. has ≡ true → words_of self.now ≡ map text_in words.now) }
    {
        let made = self.words(alloc)?;
        Ok(are_texts(&made, words))
    }

    /// Returns what words choose, or `None` if nothing has these words.
    ///
    /// # Errors
    ///
    /// If memory runs out.
    pub fn read(alloc: Global, words: &[&str]) -> Result<Option<Choice>, AllocError>
        ensures { IfOk result (λ choice. IfSome choice (λ it. words_of it ≡ map text_in words.now)) }
    {
        let choice = guess(alloc, words)?;
        if choice.has_words(alloc, words)? {
            Ok(Some(choice))
        } else {
            Ok(None)
        }
    }
}
