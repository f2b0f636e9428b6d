//! The words of a call.
ghost use Rattle.std.specs.Prelude.{◌≡◌, ℕ, List, ◌∷◌, map, string_bytes, IfSome, IfNone};
ghost use Rattle.walk_text.specs.declared.asked.Asked.{Asked};
ghost use Rattle.walk_text.specs.declared.asked.Choice.{Choice};
ghost use Rattle.walk_text.specs.Asked.{nothing};
ghost use Rattle.walk_text.specs.Words.{BeginWithNumber, Begin, Add, Ask, AreGood};

use crate::asked::{Asked, Choice};
use crate::number::parse_number;
use crate::read_by::ReadBy;
use std::alloc::Allocator;

/// What the words ask for.
#[derive(Drop)]
pub struct Request<'w> {
    /// What the options ask for.
    pub asked: Asked,
    /// The path that the walk begins at.
    pub root: &'w str,
}

fn split_number<A: Allocator>(words: &[String<A>]) -> Option<(usize, &[String<A>])>
    ensures some { IfSome result (λ x. BeginWithNumber (map string_bytes words.now) x.0 (map string_bytes x.1.now)) }
    ensures none { IfNone result ((n : ℕ) → (others : List (List ℕ))
        → ¬ (BeginWithNumber (map string_bytes words.now) n others)) }
{
    let (word, others) = words.split_first()?;
    let number = parse_number(word.as_str())?;
    Some((number as usize, others))
}

fn plain_option(name: &str) -> Option<Choice>
    ensures some { IfSome result (λ choice. (others : List (List ℕ)) → Begin (name.now ∷ others) choice others) }
    ensures none { IfNone result ((choice : Choice) → (others : List (List ℕ))
        → ¬ (Begin (name.now ∷ others) choice others)) }
{
    match name {
        "--tree" => Some(Choice::Tree),
        "--sort" => Some(Choice::Sort),
        "--hidden" => Some(Choice::Hidden),
        "--follow" => Some(Choice::Follow),
        "--usage" => Some(Choice::Usage),
        _ => None,
    }
}

fn numbered_option(name: &str, number: usize) -> Option<Choice>
    ensures some { IfSome result (λ choice. (words : List (List ℕ)) → (others : List (List ℕ))
        → BeginWithNumber words number others → Begin (name.now ∷ words) choice others) }
    ensures none { IfNone result ((n : ℕ) → (words : List (List ℕ)) → (others : List (List ℕ))
        → BeginWithNumber words n others → (choice : Choice) → ¬ (Begin (name.now ∷ words) choice others)) }
{
    match name {
        "--min" => Some(Choice::Min(number)),
        "--max" => Some(Choice::Max(number)),
        "--batch" => Some(Choice::Read(ReadBy::Batch(number))),
        "--crew" => Some(Choice::Read(ReadBy::Crew(number))),
        _ => None,
    }
}

fn split_option<A: Allocator>(words: &[String<A>]) -> Option<(Choice, &[String<A>])>
    ensures some { IfSome result (λ x. Begin (map string_bytes words.now) x.0 (map string_bytes x.1.now)) }
    ensures none { IfNone result ((choice : Choice) → (others : List (List ℕ))
        → ¬ (Begin (map string_bytes words.now) choice others)) }
{
    let (name, behind) = words.split_first()?;
    let name = name.as_str();
    if let Some(choice) = plain_option(name) {
        return Some((choice, behind));
    }
    let (number, others) = split_number(behind)?;
    Some((numbered_option(name, number)?, others))
}

/// Reads options, in any order and each at most once. None for any other words.
fn parse_options<A: Allocator>(words: &[String<A>]) -> Option<Asked>
    ensures some { IfSome result (Add (map string_bytes words.now) nothing) }
    ensures only { IfSome result (λ asked. (other : Asked)
        → Add (map string_bytes words.now) nothing other → other ≡ asked) }
    ensures none { IfNone result ((other : Asked) → ¬ (Add (map string_bytes words.now) nothing other)) }
{
    let mut asked = Asked::nothing();
    let mut left = words;
    while !left.is_empty() {
        let (choice, others) = split_option(left)?;
        asked = asked.also(choice)?;
        left = others;
    }
    Some(asked)
}

/// Reads the words: options, in any order and each at most once, and then the root, whatever it looks like. None for
/// any other words.
pub fn parse_words<A: Allocator>(words: &[String<A>]) -> Option<Request<'_>>
    ensures some { IfSome result (λ r. Ask (map string_bytes words.now) r.asked r.root.now) }
    ensures only { IfSome result (λ r. (asked : Asked) → (root : List ℕ)
        → Ask (map string_bytes words.now) asked root → (asked ≡ r.asked) × (root ≡ r.root.now)) }
    ensures none { IfNone result (¬ (AreGood (map string_bytes words.now))) }
{
    let (root, options) = words.split_last()?;
    let asked = parse_options(options)?;
    Some(Request {
        asked,
        root: root.as_str(),
    })
}
