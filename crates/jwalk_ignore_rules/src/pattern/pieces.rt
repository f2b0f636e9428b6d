//! A text taken apart at a byte.
ghost use Rattle.std.specs.Prelude.{◌≡◌, ◌<◌, length, position};
ghost use Rattle.std.specs.List.{before_first, after_first};
ghost use Rattle.jwalk_ignore_rules.specs.Pattern.Pieces.{is_byte};

fn place_of(text: &[u8], own: u8) -> Option<usize>
    ensures { result ≡ position (is_byte own) text.now }
{
    text.iter().position(|byte| *byte == own)
}

pub(crate) fn split_piece(text: &[u8], own: u8) -> (&[u8], &[u8])
    ensures piece { result.0.now ≡ before_first (is_byte own) text.now }
    ensures behind { result.1.now ≡ after_first (is_byte own) text.now }
    ensures shorter { 0 < length text.now → length result.1.now < length text.now }
{
    match place_of(text, own) {
        Some(end) => (&text[..end], &text[end + 1..]),
        None => (text, &[]),
    }
}
