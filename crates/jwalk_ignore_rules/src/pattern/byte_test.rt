//! What one byte of a name is compared with.
ghost use Rattle.std.specs.Prelude.{◌≡◌, ℕ};

use crate::pattern::class::Class;
use crate::pattern::item_test::ItemTest;
use std::alloc::{Allocator, Global};

/// Which bytes fit at one place of a name.
#[derive(Drop)]
pub(crate) enum ByteTest<A: Allocator + Copy = Global> {
    /// This byte alone.
    Byte(u8),
    /// This letter, small or capital, or this byte if it is no letter.
    EitherCase(u8),
    /// Any byte: `?`.
    Any,
    /// A byte of a class: `[..]`.
    OneOf(Class<A>),
}

impl<A: Allocator + Copy> ByteTest<A> {
    ghost use Rattle.jwalk_ignore_rules.specs.Pattern.ByteTest.{test_value, fits, in_either_case};

    pub(crate) fn fits(&self, byte: u8) -> bool
        ensures { result ≡ fits (test_value self.now) byte }
    {
        match self {
            ByteTest::Byte(own) => *own == byte,
            ByteTest::EitherCase(own) => own.eq_ignore_ascii_case(&byte),
            ByteTest::Any => true,
            ByteTest::OneOf(class) => class.has(byte),
        }
    }

    pub(crate) fn ignore_case(&mut self)
        ensures { test_value self.new ≡ in_either_case (test_value self.old) }
    {
        match self {
            ByteTest::Byte(own) => *self = ByteTest::EitherCase(*own),
            ByteTest::OneOf(class) => class.ignore_case(),
            ByteTest::EitherCase(_) | ByteTest::Any => {}
        }
    }
}

/// A test of bytes takes a byte of a name.
impl<A: Allocator + Copy> ItemTest for ByteTest<A> {
    ghost use Rattle.jwalk_ignore_rules.specs.Pattern.ByteTest.{test_value};
    ghost use Rattle.jwalk_ignore_rules.specs.Pattern.Glob.{TakesByte};

    ghost Item = { ℕ };

    ghost items = { λ name. name };

    ghost takes = { λ test byte. TakesByte (test_value test) byte };

    fn take_first<'t>(&self, text: &'t [u8]) -> Option<&'t [u8]> {
        let (byte, behind) = text.split_first()?;
        if self.fits(*byte) { Some(behind) } else { None }
    }

    fn take_last<'t>(&self, text: &'t [u8]) -> Option<&'t [u8]> {
        let (byte, front) = text.split_last()?;
        if self.fits(*byte) { Some(front) } else { None }
    }

    fn skip_first<'t>(text: &'t [u8]) -> Option<&'t [u8]> {
        let (_, behind) = text.split_first()?;
        Some(behind)
    }
}
