//! Where a byte of a glob is.
ghost use Rattle.std.specs.Prelude.{◌≡◌};
ghost use Rattle.seek_braces.specs.Place.{after_item, after_class, after_name};

/// Where a byte of a glob is.
#[derive(Clone, Copy)]
pub(crate) enum Place {
    /// Outside of classes.
    Outside,
    /// Behind a backslash outside of classes.
    Escaped,
    /// Behind the bracket that begins a class.
    Begun,
    /// Behind the `!` or the `^` that a class begins with.
    Negated,
    /// Behind an item of a class.
    Class,
    /// Behind a backslash in a class.
    ClassEscaped,
    /// Behind a bracket in a class.
    Bracket,
    /// In the name of a class in a class.
    Name,
    /// Behind a colon in such a name.
    Colon,
}

fn after_item(byte: u8) -> Place
    ensures { result ≡ after_item byte }
{
    match byte {
        b'\\' => Place::ClassEscaped,
        b'[' => Place::Bracket,
        _ => Place::Class,
    }
}

fn after_class(byte: u8) -> Place
    ensures { result ≡ after_class byte }
{
    if byte == b']' {
        Place::Outside
    } else {
        after_item(byte)
    }
}

fn after_name(byte: u8) -> Place
    ensures { result ≡ after_name byte }
{
    match byte {
        b':' => Place::Colon,
        b'\\' => Place::ClassEscaped,
        b']' => Place::Outside,
        _ => Place::Name,
    }
}

impl Place {
    ghost use Rattle.seek_braces.specs.Place.{after};

    /// Returns the place behind a byte.
    pub(crate) fn after(self, byte: u8) -> Place
        ensures { result ≡ after self byte }
    {
        match (self, byte) {
            (Place::Outside, b'\\') => Place::Escaped,
            (Place::Outside, b'[') => Place::Begun,
            (Place::Outside | Place::Escaped, _) => Place::Outside,
            (Place::Begun, b'!' | b'^') => Place::Negated,
            (Place::Begun | Place::Negated, _) => after_item(byte),
            (Place::Bracket, b':') => Place::Name,
            (Place::Class | Place::Bracket, _) => after_class(byte),
            (Place::ClassEscaped, _) | (Place::Colon, b']') => Place::Class,
            (Place::Name | Place::Colon, _) => after_name(byte),
        }
    }
}
