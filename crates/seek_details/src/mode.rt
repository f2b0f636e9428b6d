//! The types and the rights of files.
ghost use Rattle.std.specs.Prelude.{◌≡◌};
ghost use Rattle.seek_details.specs.Mode.{execute_letter, format_letter, has_bit, mode_text, right_letter};

fn format_letter(mode: u32) -> u8
    ensures { result ≡ format_letter mode }
{
    match mode & 0o170000 {
        0o100000 => b'-',
        0o040000 => b'd',
        0o120000 => b'l',
        0o010000 => b'p',
        0o140000 => b's',
        0o060000 => b'b',
        0o020000 => b'c',
        _ => b'?',
    }
}

fn has_bit(mode: u32, bit: u32) -> bool
    ensures { result ≡ has_bit mode bit }
{
    mode & bit != 0
}

fn right_letter(mode: u32, bit: u32, letter: u8) -> u8
    ensures { result ≡ right_letter mode bit letter }
{
    if has_bit(mode, bit) { letter } else { b'-' }
}

/// `special` is the bit that shows as `both` beside the right to execute, and as `alone` without it.
fn execute_letter(mode: u32, bit: u32, special: u32, both: u8, alone: u8) -> u8
    ensures { result ≡ execute_letter mode bit special both alone }
{
    if has_bit(mode, special) {
        if has_bit(mode, bit) { both } else { alone }
    } else {
        right_letter(mode, bit, b'x')
    }
}

/// Returns the type and the rights of a mode in ten letters, as `ls -l` writes them.
pub(crate) fn mode_text(mode: u32) -> [u8; 10]
    ensures { result ≡ mode_text mode }
{
    [
        format_letter(mode),
        right_letter(mode, 0o400, b'r'),
        right_letter(mode, 0o200, b'w'),
        execute_letter(mode, 0o100, 0o4000, b's', b'S'),
        right_letter(mode, 0o040, b'r'),
        right_letter(mode, 0o020, b'w'),
        execute_letter(mode, 0o010, 0o2000, b's', b'S'),
        right_letter(mode, 0o004, b'r'),
        right_letter(mode, 0o002, b'w'),
        execute_letter(mode, 0o001, 0o1000, b't', b'T'),
    ]
}
