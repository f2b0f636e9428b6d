//! The search in a text for what is between the stars of a pattern: in a name for bytes, in a path for names.
ghost use Rattle.std.specs.Prelude.{◌≤◌, ◌∷◌, ◌↔◌, length, IsTrue, MatchOption};
ghost use Rattle.jwalk_ignore_rules.specs.declared.pattern.part.Part.TheVariants.{Many};
ghost use Rattle.jwalk_ignore_rules.specs.Pattern.Fits.{Fits};
ghost use Rattle.jwalk_ignore_rules.specs.Pattern.Taken.{Decides, LeavesLater, left_over};

use crate::pattern::item_test::ItemTest;
use crate::pattern::part::Part;
use crate::pattern::taken::Taken;

/// Compares the parts in front of the first star with the first items of a text.
fn take_front<'p, 't, T: ItemTest>(parts: &'p [Part<T>], text: &'t [u8]) -> Taken<'p, 't, T>
    ensures decides { Decides T.takes T.items result (Fits T.takes parts.now (T.items text.now)) }
    ensures later { LeavesLater T.takes T.items result parts.now (T.items text.now) }
    ensures shorter { left_over result ≤ length parts.now }
{
    let mut rest = parts;
    let mut left = text;
    while let Some((part, behind)) = rest.split_first() {
        let Part::One(test) = part else {
            return Taken::ToStar(behind, left);
        };
        let Some(after) = test.take_first(left) else {
            return Taken::Misfit;
        };
        (rest, left) = (behind, after);
    }
    match T::skip_first(left) {
        Some(_) => Taken::Misfit,
        None => Taken::Whole,
    }
}

/// Compares the parts between a star and the next with a text, from the first item where they fit. A star that is the
/// last part takes all items.
fn take_behind_star<'p, 't, T: ItemTest>(parts: &'p [Part<T>], text: &'t [u8]) -> Taken<'p, 't, T>
    ensures decides { Decides T.takes T.items result (Fits T.takes (Many ∷ parts.now) (T.items text.now)) }
    ensures shorter { left_over result ≤ length parts.now }
{
    if parts.is_empty() {
        return Taken::Whole;
    }
    let mut from = text;
    'places: loop {
        match take_front(parts, from) {
            Taken::Misfit => {}
            taken => return taken,
        }
        let Some(after) = T::skip_first(from) else {
            return Taken::Misfit;
        };
        from = after;
    }
}

/// Compares the parts up to the last star with the first items of a text, and then all of it.
fn fits_front<T: ItemTest>(parts: &[Part<T>], text: &[u8]) -> bool
    ensures { IsTrue result ↔ Fits T.takes parts.now (T.items text.now) }
{
    let mut taken = take_front(parts, text);
    while let Taken::ToStar(behind, left) = taken {
        taken = take_behind_star(behind, left);
    }
    matches!(taken, Taken::Whole)
}

/// Compares the parts behind the last star with the last items of a text. Returns the parts up to that star, or none,
/// and what is left of the text. None if the parts don't fit.
fn take_back<'p, 't, T: ItemTest>(
    parts: &'p [Part<T>],
    text: &'t [u8],
) -> Option<(&'p [Part<T>], &'t [u8])>
    ensures { MatchOption result (Fits T.takes parts.now (T.items text.now) → ⊥)
        (λ r. Fits T.takes parts.now (T.items text.now) ↔ Fits T.takes r.0.now (T.items r.1.now)) }
{
    let mut rest = parts;
    let mut left = text;
    while let Some((part, front)) = rest.split_last() {
        let Part::One(test) = part else {
            return Some((rest, left));
        };
        let Some(before) = test.take_last(left) else {
            return None;
        };
        (rest, left) = (front, before);
    }
    Some((rest, left))
}

/// What is behind the last star is compared with the text's end alone.
pub(crate) fn fits<T: ItemTest>(parts: &[Part<T>], text: &[u8]) -> bool
    ensures { IsTrue result ↔ Fits T.takes parts.now (T.items text.now) }
{
    match take_back(parts, text) {
        Some((front, left)) => fits_front(front, left),
        None => false,
    }
}
