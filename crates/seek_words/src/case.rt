//! The case of letters.
ghost use Rattle.std.specs.Prelude.{◌≡◌, ◌∷◌, ◌<◌, map, true};
ghost use Rattle.std.specs.Char.{InScalarRange};
ghost use Rattle.std.specs.List.{list_any};
ghost use Rattle.program_parts.specs.Values.{texts_of};
ghost use Rattle.seek_words.specs.Case.{class_mark, digits_after, ends_upper, escape_after, has_upper_case, hex_of, is_code, is_upper_code, none_read, smart_case, with_hex};

/// Whether the case of letters counts.
#[derive(Clone, Copy, Debug, PartialEq, Eq)]
pub enum Case {
    /// It doesn't count.
    Ignored,
    /// It counts.
    Kept,
}

/// Where the next character of a pattern is.
#[derive(Clone, Copy)]
enum Place {
    /// Where it means itself.
    Plain,
    /// Behind a backslash.
    Escape,
    /// Behind `\x`, `\u` or `\U`: how many hexadecimal digits follow, where no brace does.
    Code(u32),
    /// Behind such digits: how many are left, and the number that they are.
    Digits(u32, u32),
    /// Among hexadecimal digits in braces. This is the number of those in front.
    Braced(u32),
    /// Behind a parenthesis.
    Group,
    /// In the flags or the name of a group.
    Head,
    /// In `[:upper:]`: how many of its characters are in front.
    Class(u32),
}

/// The facts of a pattern after some of its characters.
#[derive(Clone, Copy)]
struct Read {
    /// Whether a backslash and a parenthesis begin something.
    escapes: bool,
    /// Whether a bracket does.
    classes: bool,
    /// Where the next character is.
    place: Place,
    /// Whether there was an upper-case letter.
    upper: bool,
}

/// Returns 0 for a character that is no digit.
fn hex_of(digit: char) -> u32
    ensures value { result ≡ hex_of digit }
    ensures bound { result < 16 }
{
    match digit.to_digit(16) {
        Some(number) => number,
        None => 0,
    }
}

fn with_hex(number: u32, digit: char) -> u32
    ensures { result ≡ with_hex number digit }
{
    number % 268_435_456 * 16 + hex_of(digit)
}

fn is_code(number: u32) -> bool
    ensures value { result ≡ is_code number }
    ensures range { result ≡ true → InScalarRange number }
{
    number < 55_296 || (57_344 <= number && number < 1_114_112)
}

fn is_upper_code(number: u32) -> bool
    ensures { result ≡ is_upper_code number }
{
    if !is_code(number) {
        return false;
    }
    match char::from_u32(number) {
        Some(letter) => letter.is_uppercase(),
        None => false,
    }
}

fn class_mark(at: u32) -> char
    ensures { result ≡ class_mark at }
{
    if at == 1 || at == 7 {
        ':'
    } else if at == 2 {
        'u'
    } else if at == 3 || at == 4 {
        'p'
    } else if at == 5 {
        'e'
    } else if at == 6 {
        'r'
    } else {
        ']'
    }
}

fn escape_after(next: char) -> Place
    ensures { result ≡ escape_after next }
{
    if next == 'x' {
        Place::Code(2)
    } else if next == 'u' {
        Place::Code(4)
    } else if next == 'U' {
        Place::Code(8)
    } else {
        Place::Plain
    }
}

fn digits_after(left: u32, number: u32, next: char) -> Place
    ensures { result ≡ digits_after left number next }
{
    if left > 1 {
        Place::Digits(left - 1, with_hex(number, next))
    } else {
        Place::Plain
    }
}

fn ends_upper(left: u32, number: u32, next: char) -> bool
    ensures { result ≡ ends_upper left number next }
{
    left <= 1 && is_upper_code(with_hex(number, next))
}

impl Place {
    ghost use Rattle.seek_words.specs.Case.{completes};

    /// Returns whether a character here is an upper-case letter, or ends what stands for one.
    fn completes(self, next: char) -> bool
        ensures { result ≡ completes next self }
    {
        match self {
            Place::Plain => next.is_uppercase(),
            Place::Escape => false,
            Place::Code(left) => next != '{' && ends_upper(left, 0, next),
            Place::Digits(left, number) => ends_upper(left, number, next),
            Place::Braced(number) => next == '}' && is_upper_code(number),
            Place::Group => next != '?' && next.is_uppercase(),
            Place::Head => false,
            Place::Class(at) => {
                if next == class_mark(at) {
                    8 <= at
                } else {
                    next.is_uppercase()
                }
            }
        }
    }
}

impl Read {
    ghost use Rattle.seek_words.specs.Case.{place_after, plain_after, then_read};
    ghost use Rattle.seek_words.specs.declared.case.Place.TheVariants.{Class};

    fn plain_after(self, next: char) -> Place
        ensures { result ≡ plain_after self next }
    {
        if self.escapes && next == '\\' {
            Place::Escape
        } else if self.escapes && next == '(' {
            Place::Group
        } else if self.classes && next == '[' {
            Place::Class(1)
        } else {
            Place::Plain
        }
    }

    fn class_after(self, at: u32, next: char) -> Place
        ensures { result ≡ place_after self next (Class at) }
    {
        if next != class_mark(at) {
            self.plain_after(next)
        } else if at < 8 {
            Place::Class(at + 1)
        } else {
            Place::Plain
        }
    }

    fn place_after(self, next: char) -> Place
        ensures { result ≡ place_after self next self.place }
    {
        match self.place {
            Place::Plain => self.plain_after(next),
            Place::Escape => escape_after(next),
            Place::Code(left) => {
                if next == '{' {
                    Place::Braced(0)
                } else {
                    digits_after(left, 0, next)
                }
            }
            Place::Digits(left, number) => digits_after(left, number, next),
            Place::Braced(number) => {
                if next == '}' {
                    Place::Plain
                } else {
                    Place::Braced(with_hex(number, next))
                }
            }
            Place::Group => {
                if next == '?' {
                    Place::Head
                } else {
                    self.plain_after(next)
                }
            }
            Place::Head => {
                if next == ':' || next == ')' || next == '>' {
                    Place::Plain
                } else {
                    Place::Head
                }
            }
            Place::Class(at) => self.class_after(at, next),
        }
    }

    /// Returns the facts after one more character.
    fn then(self, next: char) -> Self
        ensures { result ≡ then_read self next }
    {
        Read {
            place: self.place_after(next),
            upper: self.upper || self.place.completes(next),
            ..self
        }
    }
}

/// Returns the facts of no characters.
fn none_read(glob: bool, fixed: bool) -> Read
    ensures { result ≡ none_read glob fixed }
{
    Read {
        escapes: !(glob || fixed),
        classes: !fixed,
        place: Place::Plain,
        upper: false,
    }
}

/// Returns whether a pattern has an upper-case letter, as a glob, a text, or else a regular expression: in one, `\x41` and
/// `[:upper:]` are upper-case letters, and those of other escapes and of the flags and names of groups don't count.
/// The text alone decides this, and not what its classes take: `[^A-Z]` has upper-case letters, and `\w` has none.
fn has_upper_case(pattern: &str, glob: bool, fixed: bool) -> bool
    ensures { result ≡ has_upper_case glob fixed pattern.now }
{
    let mut read = none_read(glob, fixed);
    for next in pattern.chars() {
        read = read.then(next);
    }
    read.upper
}

fn any_upper_case(patterns: &[&str], glob: bool, fixed: bool) -> bool
    ensures { result ≡ list_any (has_upper_case glob fixed) (map (λ it. it.now) patterns.now) }
{
    patterns
        .iter()
        .any(|pattern| has_upper_case(pattern, glob, fixed))
}

/// Returns whether the case of letters counts for a pattern and others: if one of them has an upper-case letter.
pub(crate) fn smart_case(pattern: &str, others: &[&str], glob: bool, fixed: bool) -> Case
    ensures { result ≡ smart_case glob fixed (pattern.now ∷ texts_of others.now) }
{
    if has_upper_case(pattern, glob, fixed) || any_upper_case(others, glob, fixed) {
        Case::Kept
    } else {
        Case::Ignored
    }
}

impl Case {
    ghost use Rattle.seek_words.specs.Case.{is_ignored};

    /// Returns whether the case of letters is ignored.
    pub fn is_ignored(self) -> bool
        ensures { result ≡ is_ignored self }
    {
        match self {
            Case::Ignored => true,
            Case::Kept => false,
        }
    }
}
