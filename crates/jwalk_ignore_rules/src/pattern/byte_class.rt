//! The named classes of bytes.
ghost use Rattle.std.specs.Prelude.{◌≡◌};
ghost use Rattle.jwalk_ignore_rules.specs.Pattern.ByteClass.{class_by_name, class_has};

/// A class of bytes by its name in a pattern, as `[:digit:]`. Only bytes of ASCII are in one.
#[derive(Clone, Copy)]
pub(crate) enum ByteClass {
    /// `alnum`: letters and digits.
    Alnum,
    /// `alpha`: letters.
    Alpha,
    /// `blank`: space and tab.
    Blank,
    /// `cntrl`: the bytes below space, and 127.
    Cntrl,
    /// `digit`: `0` to `9`.
    Digit,
    /// `graph`: the bytes that print, without space.
    Graph,
    /// `lower`: small letters.
    Lower,
    /// `print`: the bytes that print, with space.
    Print,
    /// `punct`: the bytes that print, without space, letters and digits.
    Punct,
    /// `space`: space, tab, line feed and carriage return.
    Space,
    /// `upper`: capital letters.
    Upper,
    /// `xdigit`: digits, and the letters `a` to `f`, small or capital.
    Xdigit,
}

impl ByteClass {
    pub(crate) fn has(self, byte: u8) -> bool
        ensures { result ≡ class_has self byte }
    {
        match self {
            ByteClass::Alnum => matches!(byte, b'0'..=b'9' | b'A'..=b'Z' | b'a'..=b'z'),
            ByteClass::Alpha => matches!(byte, b'A'..=b'Z' | b'a'..=b'z'),
            ByteClass::Blank => matches!(byte, b'\t' | b' '),
            ByteClass::Cntrl => matches!(byte, 0..=31 | 127),
            ByteClass::Digit => matches!(byte, b'0'..=b'9'),
            ByteClass::Graph => matches!(byte, b'!'..=b'~'),
            ByteClass::Lower => matches!(byte, b'a'..=b'z'),
            ByteClass::Print => matches!(byte, b' '..=b'~'),
            ByteClass::Punct =>
                matches!(byte, b'!'..=b'/' | b':'..=b'@' | b'['..=b'`' | b'{'..=b'~'),
            ByteClass::Space => matches!(byte, b'\t' | b'\n' | b'\r' | b' '),
            ByteClass::Upper => matches!(byte, b'A'..=b'Z'),
            ByteClass::Xdigit => matches!(byte, b'0'..=b'9' | b'A'..=b'F' | b'a'..=b'f'),
        }
    }

    pub(crate) fn by_name(name: &[u8]) -> Option<Self>
        ensures { result ≡ class_by_name name.now }
    {
        if name == b"xdigit".as_slice() {
            return Some(ByteClass::Xdigit);
        }
        if name == b"alnum".as_slice() {
            return Some(ByteClass::Alnum);
        }
        if name == b"alpha".as_slice() {
            return Some(ByteClass::Alpha);
        }
        if name == b"blank".as_slice() {
            return Some(ByteClass::Blank);
        }
        if name == b"cntrl".as_slice() {
            return Some(ByteClass::Cntrl);
        }
        if name == b"digit".as_slice() {
            return Some(ByteClass::Digit);
        }
        if name == b"graph".as_slice() {
            return Some(ByteClass::Graph);
        }
        if name == b"lower".as_slice() {
            return Some(ByteClass::Lower);
        }
        if name == b"print".as_slice() {
            return Some(ByteClass::Print);
        }
        if name == b"punct".as_slice() {
            return Some(ByteClass::Punct);
        }
        if name == b"space".as_slice() {
            return Some(ByteClass::Space);
        }
        if name == b"upper".as_slice() {
            return Some(ByteClass::Upper);
        }
        None
    }
}
