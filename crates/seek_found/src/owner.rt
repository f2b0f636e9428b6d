//! The owner that a call names, by the files of users and groups.
ghost use Rattle.std.specs.Prelude.{◌≡◌, codes, option_map, IfOk, IfErr, None, Some};
ghost use Rattle.program_parts.specs.Errors.{IsTold};
ghost use Rattle.seek_found.specs.Owner.{group_part, number_in, owner_by, owner_of_parts, user_part, without_plus, IsIdBy, IsOwnerBy, IsOwnerOf, IsPartBy, NamesNoOwner};
ghost use Rattle.seek_found.specs.Unowned.{status_of};
ghost use Rattle.seek_words.specs.declared.owner.IdTest.TheVariants.{Is, IsNot};

use crate::accounts::id_named;
use crate::report::tell_text;
use jwalk_fs::fault::Fault;
use jwalk_ignore_rules::rules::texts::Texts;
use program_parts::errors::Errors;
use seek_words::asked::Asked;
use seek_words::owner::{IdTest, Owner};
use seek_words::size::digits_number;
use std::alloc::{AllocError, Global};
use std::io;
use std::io::Write;

/// The reason why the owner that a call names isn't known.
#[derive(Drop)]
pub enum Unowned<'w> {
    /// This isn't an owner.
    Text(&'w str),
    /// This file of users or groups can't be read.
    File(&'static str, io::Error),
    /// Memory ran out.
    Memory,
}

impl<'w> Unowned<'w> {
    /// Tells the reason. Returns the status of the program: 2 if the text isn't an owner, and else 1.
    pub fn tell<E: Write>(&self, alloc: Global, err: &mut Errors<E>) -> u8
        ensures status { result ≡ status_of self.now }
        ensures told { IsTold E.contents (codes "seek") err.new }
    {
        let text = match self {
            Unowned::Text(text) => {
                format!(in alloc;
                    "'{text}' is no owner: write numbers, or names in /etc/passwd and /etc/group, as in 1000, root:adm or :100, with a ! in front for any but that"
                )
            }
            Unowned::File(file, error) => format!(in alloc; "{file}: {error}"),
            Unowned::Memory => Err(AllocError),
        };
        tell_text(alloc, text, err);
        self.status()
    }

    fn status(&self) -> u8
        ensures { result ≡ status_of self.now }
    {
        match self {
            Unowned::Text(_) => 2,
            Unowned::File(_, _) | Unowned::Memory => 1,
        }
    }
}

fn without_plus(text: &[u8]) -> &[u8]
    ensures { result.now ≡ without_plus text.now }
{
    match text {
        [b'+', digits @ ..] => digits,
        digits => digits,
    }
}

/// Returns `None` if the text isn't of digits behind a `+` or none, or if the number has more than 32 bits.
fn number_in(text: &[u8]) -> Option<u32>
    ensures { result ≡ number_in text.now }
{
    u32::try_from(digits_number(without_plus(text))?).ok()
}

/// Returns the number of a text: its own, or that of a name, for which the file is read.
fn id_of<'w, X: Texts>(
    alloc: Global,
    texts: &X,
    file: &'static str,
    text: &[u8],
) -> Result<Option<u32>, Unowned<'w>>
    ensures id { IfOk result (IsIdBy (X.IsFixed texts.now) (X.functions texts.now) file.now text.now) }
    ensures status { IfErr result (λ why. status_of why ≡ 1) }
{
    if let Some(id) = number_in(text) {
        return Ok(Some(id));
    }
    match texts.read(alloc, file) {
        Ok(accounts) => Ok(id_named(accounts.as_slice(), text)),
        Err(Fault::Io(error)) => Err(Unowned::File(file, error)),
        Err(Fault::Memory) => Err(Unowned::Memory),
    }
}

fn test_of(id: Option<u32>) -> Option<Option<IdTest>>
    ensures { result ≡ option_map (λ id. Some (Is id)) id }
{
    Some(Some(IdTest::Is(id?)))
}

fn test_of_others(id: Option<u32>) -> Option<Option<IdTest>>
    ensures { result ≡ option_map (λ id. Some (IsNot id)) id }
{
    Some(Some(IdTest::IsNot(id?)))
}

/// Returns the test of a user or a group, which is none for an empty text, or `None` if the text names none.
fn part_of<'w, X: Texts>(
    alloc: Global,
    texts: &X,
    file: &'static str,
    text: &str,
) -> Result<Option<Option<IdTest>>, Unowned<'w>>
    ensures part { IfOk result (IsPartBy (X.IsFixed texts.now) (X.functions texts.now) file.now text.now) }
    ensures status { IfErr result (λ why. status_of why ≡ 1) }
{
    match text.as_bytes() {
        [] => Ok(Some(None)),
        [b'!', name @ ..] => Ok(test_of_others(id_of(alloc, texts, file, name)?)),
        name => Ok(test_of(id_of(alloc, texts, file, name)?)),
    }
}

fn parts_of(text: &str) -> (&str, &str)
    ensures user { result.0.now ≡ user_part text.now }
    ensures group { result.1.now ≡ group_part text.now }
{
    match text.split_once(':') {
        Some(parts) => parts,
        None => (text, ""),
    }
}

fn owner_by(user: Option<IdTest>, group: Option<IdTest>) -> Option<Owner>
    ensures { result ≡ owner_by user group }
{
    if user.is_none() && group.is_none() {
        return None;
    }
    Some(Owner { user, group })
}

fn owner_of_parts(
    user: Option<Option<IdTest>>,
    group: Option<Option<IdTest>>,
) -> Option<Option<Owner>>
    ensures { result ≡ owner_of_parts user group }
{
    Some(owner_by(user?, group?))
}

fn owner_in<'w, X: Texts>(
    alloc: Global,
    texts: &X,
    text: &'w str,
) -> Result<Option<Owner>, Unowned<'w>>
    ensures owner { IfOk result (λ owner. IsOwnerBy (X.IsFixed texts.now) (X.functions texts.now) text.now (Some owner)) }
    ensures refused { IfErr result (λ why. status_of why ≡ 2 → IsOwnerBy (X.IsFixed texts.now) (X.functions texts.now) text.now None) }
{
    let (user, group) = parts_of(text);
    let user = part_of(alloc, texts, "/etc/passwd", user)?;
    let group = part_of(alloc, texts, "/etc/group", group)?;
    match owner_of_parts(user, group) {
        Some(owner) => Ok(owner),
        None => Err(Unowned::Text(text)),
    }
}

/// Returns the owner that a call names, if it names one: `USER:GROUP`, `USER`, `USER:` or `:GROUP`. Each is a number of at
/// most 32 bits in decimal digits, or a name, with a `!` in front for any but that. The empty text and `:` are any owner.
/// The files `/etc/passwd` and `/etc/group` are read if a name is given for a user or a group.
///
/// # Errors
///
/// If the text isn't an owner, if a file can't be read, or if memory runs out.
pub fn owner_of<'w, X: Texts>(
    alloc: Global,
    texts: &X,
    asked: &Asked<'w>,
) -> Result<Option<Owner>, Unowned<'w>>
    ensures owner { IfOk result (IsOwnerOf (X.IsFixed texts.now) (X.functions texts.now) asked.now) }
    ensures refused { IfErr result (λ why. status_of why ≡ 2 → NamesNoOwner (X.IsFixed texts.now) (X.functions texts.now) asked.now) }
{
    match asked.owner_text {
        Some(text) => owner_in(alloc, texts, text),
        None => Ok(None),
    }
}
