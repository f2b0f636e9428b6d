//! The facts of an entry that a listing knows.
ghost use Rattle.std.specs.Prelude.{◌≡◌};
ghost use Rattle.std.specs.Option.{option_copied};
ghost use Rattle.seek_words.specs.Seen.{details_seen};

use jwalk_model::metadata::{Details, Metadata};

/// Returns the details of an entry's metadata, if they are known.
pub fn details_seen(seen: Option<&Metadata>) -> Option<Details>
    ensures { result ≡ details_seen (option_copied seen.entry) }
{
    seen?.details()
}
