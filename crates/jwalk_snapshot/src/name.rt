//! A name in a directory.
ghost use Rattle.std.specs.Prelude.{◌≡◌, ◌++◌, ◌==◌, not, option_map, string_bytes, OnOk};
ghost use Rattle.std.specs.List.{list_all};
ghost use Rattle.jwalk_snapshot.specs.Reading.{any_facts_at, entry_at, facts_at, kind_in, kind_of};
ghost use Rattle.jwalk_snapshot.specs.Text.{entry_of, entry_text, facts_text, is_entry, letter, EntryFits, FactsFit};

use crate::numbers::{
    ended_at, is_text, moment_at, number_at, push_ended, push_moment, push_number, word_at,
};
use jwalk_model::file_type::FileType;
use jwalk_model::metadata::Moment;
use std::alloc::AllocError;

/// What is kept of a file beside its name and its type.
#[derive(Clone, Copy, Debug, PartialEq, Eq)]
pub struct Facts {
    /// Its length in bytes.
    pub len: u64,
    /// When its content was last written.
    pub modified: Moment,
    /// Its number on its device.
    pub inode: u64,
}

/// A name in a directory, and what is kept of the file that it leads to.
#[derive(Clone, Copy, Debug, PartialEq, Eq)]
pub struct Name<'a> {
    pub name: &'a str,
    pub file_type: FileType,
    /// `None` if the walk left the name out.
    pub facts: Option<Facts>,
}

/// Returns the letter of a type: in lower case where facts follow.
fn letter(file_type: FileType, has_facts: bool) -> char
    ensures { result ≡ letter file_type has_facts }
{
    match (file_type, has_facts) {
        (FileType::Dir, true) => 'd',
        (FileType::File, true) => 'f',
        (FileType::Symlink, true) => 'l',
        (FileType::Other, true) => 'o',
        (FileType::Dir, false) => 'D',
        (FileType::File, false) => 'F',
        (FileType::Symlink, false) => 'L',
        (FileType::Other, false) => 'O',
    }
}

/// Returns the type that a letter stands for, and whether facts follow.
#[tactic(auto, unfolding(crate::specs::Reading::kind_of))]
fn kind_of(letter: u8) -> Option<(FileType, bool)>
    ensures { result ≡ kind_of letter }
{
    match letter {
        b'f' => Some((FileType::File, true)),
        b'd' => Some((FileType::Dir, true)),
        b'l' => Some((FileType::Symlink, true)),
        b'o' => Some((FileType::Other, true)),
        b'F' => Some((FileType::File, false)),
        b'D' => Some((FileType::Dir, false)),
        b'L' => Some((FileType::Symlink, false)),
        b'O' => Some((FileType::Other, false)),
        _ => None,
    }
}

fn kind_in(word: &str) -> Option<(FileType, bool)>
    ensures { result ≡ kind_in word.now }
{
    match word.as_bytes() {
        [letter] => kind_of(*letter),
        _ => None,
    }
}

fn push_facts(out: &mut String, facts: &Facts) -> Result<(), AllocError>
    ensures text { OnOk result (string_bytes out.new ≡ string_bytes out.old ++ facts_text facts.now) }
    ensures fits { OnOk result (FactsFit facts.now) }
{
    push_number(out, facts.len)?;
    push_moment(out, facts.modified)?;
    push_number(out, facts.inode)
}

#[tactic(auto, unfolding(crate::specs::Reading::facts_at))]
fn facts_at(text: &str) -> Option<(Facts, &str)>
    ensures { option_map (λ x. (x.0, x.1.now)) result ≡ facts_at text.now }
{
    let (len, rest) = number_at(text)?;
    let (modified, rest) = moment_at(rest)?;
    let (inode, rest) = number_at(rest)?;
    let facts = Facts {
        len,
        modified,
        inode,
    };
    Some((facts, rest))
}

/// Returns the facts at the front, if there are any, and what is behind them.
#[tactic(auto, unfolding(crate::specs::Reading::any_facts_at))]
fn any_facts_at(has_facts: bool, text: &str) -> Option<(Option<Facts>, &str)>
    ensures { option_map (λ x. (x.0, x.1.now)) result ≡ any_facts_at has_facts text.now }
{
    if !has_facts {
        return Some((None, text));
    }
    let (facts, rest) = facts_at(text)?;
    Some((Some(facts), rest))
}

/// Adds the text of a name.
pub fn push_name(out: &mut String, name: &Name<'_>) -> Result<(), AllocError>
    ensures text { OnOk result (string_bytes out.new ≡ string_bytes out.old ++ entry_text (entry_of name.now)) }
    ensures fits { OnOk result (EntryFits (entry_of name.now)) }
{
    out.push(letter(name.file_type, name.facts.is_some()))?;
    out.push_str(" ")?;
    if let Some(facts) = &name.facts {
        push_facts(out, facts)?;
    }
    push_ended(out, name.name)
}

/// Returns the name at the front, and what is behind it.
#[tactic(auto, unfolding(crate::specs::Reading::entry_at))]
pub fn name_at<'a>(text: &'a str) -> Option<(Name<'a>, &'a str)>
    ensures { option_map (λ x. (entry_of x.0, x.1.now)) result ≡ entry_at text.now }
{
    let (word, rest) = word_at(text)?;
    let (file_type, has_facts) = kind_in(word)?;
    let (facts, rest) = any_facts_at(has_facts, rest)?;
    let (name, rest) = ended_at(rest)?;
    let name = Name {
        name,
        file_type,
        facts,
    };
    Some((name, rest))
}

/// Returns whether a text has no slash.
fn has_no_slash(text: &str) -> bool
    ensures { result ≡ list_all (λ b. not (b == 47)) text.now }
{
    text.as_bytes().iter().all(|b| *b != b'/')
}

/// Returns whether a name can be written: it isn't empty, and has no NUL and no slash.
pub fn is_name(name: &Name<'_>) -> bool
    ensures { result ≡ is_entry (entry_of name.now) }
{
    is_text(name.name) && !name.name.is_empty() && has_no_slash(name.name)
}
