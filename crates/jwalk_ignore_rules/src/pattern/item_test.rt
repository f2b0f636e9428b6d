//! What one part of a pattern asks of an item of a text, as a trait.
ghost use Rattle.std.specs.Prelude.{◌≡◌, ◌∷◌, ◌<◌, ℕ, List, [], length, IfSome, MatchOption};
ghost use Rattle.jwalk_ignore_rules.specs.Pattern.Fits.{FirstFits, LastFits};

/// What one part of a pattern asks of an item of a text: of a byte of a name, or of a name of a path.
pub(crate) trait ItemTest {
    /// What the items are.
    ghost Item: { Type 0 };

    /// The items of a text.
    ghost items: { List ℕ → List Item };

    /// Whether an item fits.
    ghost takes: { Self → Item → Type 0 };

    /// Returns what is behind the first item of a text, if there is one and it fits.
    fn take_first<'t>(&self, text: &'t [u8]) -> Option<&'t [u8]>
        ensures { MatchOption result
            ((behind : List Item) → FirstFits (takes self.now) (items text.now) behind → ⊥)
            (λ left. FirstFits (takes self.now) (items text.now) (items left.now)) };

    /// Returns what is in front of the last item, if there is one and it fits.
    fn take_last<'t>(&self, text: &'t [u8]) -> Option<&'t [u8]>
        ensures { MatchOption result
            ((front : List Item) → LastFits (takes self.now) (items text.now) front → ⊥)
            (λ left. LastFits (takes self.now) (items text.now) (items left.now)) };

    /// Returns what is behind the first item, if there is one.
    fn skip_first<'t>(text: &'t [u8]) -> Option<&'t [u8]>
        ensures items { MatchOption result (items text.now ≡ [])
            (λ left. (item : Item) × (items text.now ≡ item ∷ items left.now)) }
        ensures shorter { IfSome result (λ left. length left.now < length text.now) };
}
