//! Users and groups by name, as in `/etc/passwd` and `/etc/group`.
ghost use Rattle.std.specs.Prelude.{◌≡◌, ◌<◌, length, position};
ghost use Rattle.std.specs.List.{before_first, after_first};
ghost use Rattle.jwalk_ignore_rules.specs.Pattern.Pieces.{is_byte};
ghost use Rattle.seek_found.specs.Accounts.{id_field, id_in_line, id_named};

use seek_words::size::digits_number;

fn place_of(text: &[u8], own: u8) -> Option<usize>
    ensures { result ≡ position (is_byte own) text.now }
{
    text.iter().position(|byte| *byte == own)
}

/// Returns what is in front of the first of this byte, and what is behind it.
fn split(text: &[u8], own: u8) -> (&[u8], &[u8])
    ensures front { result.0.now ≡ before_first (is_byte own) text.now }
    ensures behind { result.1.now ≡ after_first (is_byte own) text.now }
    ensures shorter { 0 < length text.now → length result.1.now < length text.now }
{
    match place_of(text, own) {
        Some(end) => (&text[..end], &text[end + 1..]),
        None => (text, &[]),
    }
}

fn id_field(line: &[u8]) -> &[u8]
    ensures { result.now ≡ id_field line.now }
{
    let (_, behind_name) = split(line, b':');
    let (_, behind_password) = split(behind_name, b':');
    split(behind_password, b':').0
}

fn id_in_line(line: &[u8], name: &[u8]) -> Option<u32>
    ensures { result ≡ id_in_line name.now line.now }
{
    if split(line, b':').0 != name {
        return None;
    }
    u32::try_from(digits_number(id_field(line))?).ok()
}

/// Returns the number of a user or a group by the lines of a file. Each line has a name, a password and a number, parted by
/// colons, and perhaps more fields behind these.
pub(crate) fn id_named(accounts: &[u8], name: &[u8]) -> Option<u32>
    ensures { result ≡ id_named accounts.now name.now }
{
    let mut rest = accounts;
    while !rest.is_empty() {
        let (line, behind) = split(rest, b'\n');
        if let Some(id) = id_in_line(line, name) {
            return Some(id);
        }
        rest = behind;
    }
    None
}
