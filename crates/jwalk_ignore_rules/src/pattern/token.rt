//! How the bytes of a pattern are read.
ghost use Rattle.std.specs.Prelude.{◌≡◌, ◌<◌, length, IfOk, IfSome};
ghost use Rattle.std.specs.Option.{option_map};

use crate::pattern::byte_test::ByteTest;
use crate::pattern::class::Class;
use crate::pattern::part::Part;
use std::alloc::{AllocError, Allocator};

/// What the first bytes of a pattern mean.
#[derive(Drop)]
pub(crate) enum Token<A: Allocator + Copy> {
    /// The end of a name.
    Slash,
    /// A part of a name.
    Part(Part<ByteTest<A>>),
}

impl<A: Allocator + Copy> Token<A> {
    ghost use Rattle.jwalk_ignore_rules.specs.Pattern.Token.{class_token, escaped_in, escaped_token, plain_token, token_in, token_read, token_value};

    fn escaped(byte: u8) -> Self
        ensures { token_value result ≡ escaped_token byte }
    {
        if byte == b'/' {
            Token::Slash
        } else {
            Token::Part(Part::One(ByteTest::Byte(byte)))
        }
    }

    fn plain(byte: u8) -> Self
        ensures { token_value result ≡ plain_token byte }
    {
        match byte {
            b'/' => Token::Slash,
            b'*' => Token::Part(Part::Many),
            b'?' => Token::Part(Part::One(ByteTest::Any)),
            _ => Token::Part(Part::One(ByteTest::Byte(byte))),
        }
    }

    /// Reads a byte behind a backslash. None if there is none.
    fn escaped_in(text: &[u8]) -> Option<(Self, &[u8])>
        ensures read { option_map token_read result ≡ escaped_in text.now }
        ensures shorter { IfSome result (λ x. length x.1.now < length text.now) }
    {
        match text {
            [] => None,
            [byte, behind @ ..] => Some((Token::escaped(*byte), behind)),
        }
    }

    /// Reads a class behind its opening bracket.
    fn read_class(alloc: A, text: &[u8]) -> Result<Option<(Self, &[u8])>, AllocError>
        ensures read { IfOk result (λ r. option_map token_read r ≡ class_token text.now) }
        ensures shorter { IfOk result (λ r. IfSome r (λ x. length x.1.now < length text.now)) }
    {
        match Class::read(alloc, text)? {
            Some((class, behind)) => Ok(Some((
                Token::Part(Part::One(ByteTest::OneOf(class))),
                behind,
            ))),
            None => Ok(None),
        }
    }

    /// Reads what the first bytes of a text mean, and returns what is behind them. None if they are malformed.
    pub(crate) fn read(alloc: A, text: &[u8]) -> Result<Option<(Self, &[u8])>, AllocError>
        ensures read { IfOk result (λ r. option_map token_read r ≡ token_in text.now) }
        ensures shorter { IfOk result (λ r. IfSome r (λ x. length x.1.now < length text.now)) }
    {
        let Some((byte, behind)) = text.split_first() else {
            return Ok(None);
        };
        match *byte {
            b'\\' => Ok(Token::escaped_in(behind)),
            b'[' => Token::read_class(alloc, behind),
            _ => Ok(Some((Token::plain(*byte), behind))),
        }
    }
}
