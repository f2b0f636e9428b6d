//! The unit that sizes are written in.

/// The unit that sizes are written in.
#[derive(Clone, Copy)]
pub enum Unit {
    /// The binary unit that suits each size.
    Binary,
    /// The decimal unit that suits each size.
    Decimal,
    /// 1,024 bytes.
    Kibibyte,
    /// 1,048,576 bytes.
    Mebibyte,
    /// A byte.
    Byte,
}
