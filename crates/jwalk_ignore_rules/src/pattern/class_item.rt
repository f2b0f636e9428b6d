//! What is listed between the brackets of a class.
ghost use Rattle.std.specs.Prelude.{◌≡◌};
ghost use Rattle.jwalk_ignore_rules.specs.Pattern.ClassItem.{item_has, item_takes};

use crate::pattern::byte_class::ByteClass;

/// One item of a class, as `a`, `a-z` or `[:alpha:]` of `[aa-z[:alpha:]]`.
#[derive(Clone, Copy)]
pub(crate) enum ClassItem {
    /// The bytes from the first to the second, both included. There are none if the second is below the first.
    Range(u8, u8),
    /// The bytes of a named class.
    Named(ByteClass),
}

impl ClassItem {
    fn has(self, byte: u8) -> bool
        ensures { result ≡ item_has self byte }
    {
        match self {
            ClassItem::Range(low, high) => low <= byte && byte <= high,
            ClassItem::Named(class) => class.has(byte),
        }
    }

    /// With `either_case` it also takes the other case of a letter.
    pub(crate) fn takes(self, either_case: bool, byte: u8) -> bool
        ensures { result ≡ item_takes either_case self byte }
    {
        if either_case {
            self.has(byte.to_ascii_lowercase()) || self.has(byte.to_ascii_uppercase())
        } else {
            self.has(byte)
        }
    }
}
